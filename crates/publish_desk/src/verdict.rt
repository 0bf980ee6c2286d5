//! What publishing a dossier answers.

use evidence::Dossier;

/// What publishing a dossier answers.
#[derive(Drop)]
pub enum Verdict {
    /// Its entry was added at this place.
    Decided {
        at: u64,
    },
    /// The store has changed since: its present version, and the place and the name of the first entry that changed it.
    Again {
        version: u64,
        first: u64,
        name: u32,
        dossier: Dossier,
    },
    /// The job has an entry, at this place.
    AlreadyDone {
        at: u64,
        dossier: Dossier,
    },
}
