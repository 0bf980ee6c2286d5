//! The desk: a store of programs, and the journal of what was decided about each job.
#![tactic(auto)]

pub mod charter;
mod desk;
mod entry;
pub mod laws;
mod origin;
mod report;
#[cfg(test)]
mod tests;
mod verdict;

pub use desk::{Desk, OpenError};
pub use entry::Entry;
pub use evidence::Finding;
pub use origin::Origin;
pub use report::write_report;
pub use verdict::Verdict;
