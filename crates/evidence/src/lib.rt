//! What was found for a job in the store of a snapshot, ready to be published.
#![tactic(auto)]

mod change;
mod comparing;
mod dossier;
mod finding;
mod gathering;
#[cfg(test)]
mod mended_tests;
mod snapshot;
#[cfg(test)]
mod tests;
mod trying;
mod weighing;

pub use change::{Change, Changes};
pub use dossier::{Dossier, Parts};
pub use finding::Finding;
pub use gathering::gather;
pub use snapshot::Snapshot;
