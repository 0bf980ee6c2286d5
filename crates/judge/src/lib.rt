//! Judging proposed programs against a store and the terms of sequences.
#![tactic(auto)]

mod answer;
mod comparing;
mod demanding;
mod directory;
mod judging;
mod opening;
mod passing;
mod replacing;
#[cfg(test)]
mod tests;

pub use answer::{Answer, Got, Unsound};
pub use judging::judge;
pub use opening::{CheckError, check_store, check_terms};
pub use passing::got_of;
