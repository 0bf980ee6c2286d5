//! Which names programs reach by the calls in their texts.
#![tactic(auto)]

mod callers;
mod closure;
mod cycles;
mod groups;
mod reach;
#[cfg(test)]
mod tests;
mod walk;

pub use cycles::cycle;
pub use reach::{ancestors, descendants, first_through};
