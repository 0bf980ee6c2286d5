//! Shorter programs with the same values: instructions and loops are taken out as long as no given argument shows it.
#![tactic(auto)]

mod cutting;
mod laws;
mod minimising;
#[cfg(test)]
mod tests;
mod trying;

pub use laws::{cuts_take_parts, minimum_unfolds};
pub use minimising::{minimise, minimise_given};
pub use trying::Given;
