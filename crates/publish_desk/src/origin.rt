//! Where proposals come from.

use program_store::Candidates;
use std::sync::Arc;

/// Where proposals come from.
#[derive(Drop)]
pub enum Origin {
    /// Job `i` proposes candidate `i`.
    Listed(Arc<Candidates>),
    /// Job `i` proposes what the words of this seed and its number make of the store.
    Seeded { seed: u64 },
}
