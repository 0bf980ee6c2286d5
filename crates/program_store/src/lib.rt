//! Published programs by their names: a store, what reads it, and its text.
#![tactic(auto)]

pub mod candidates;
pub mod errors;
mod headers;
pub mod laws;
mod lines;
mod printing;
pub mod published;
mod reading;
mod sections;
pub mod store;
#[cfg(test)]
mod tests;
pub mod view;

pub use candidates::{Candidates, MOST_JOBS};
pub use errors::{StoreError, StoreKind};
pub use printing::print_store;
pub use published::{Proposal, Published};
pub use reading::{parse_candidates, parse_store, read_candidates, read_store};
pub use store::Store;
pub use view::{Library, Overlay, View};
