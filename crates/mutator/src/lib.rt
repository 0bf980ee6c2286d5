//! Programs changed at random: which program is made is a function of the program, of the random words and of
//! the names that it may call.
#![tactic(auto)]

mod instruction;
pub mod laws;
mod list;
mod mutation;
#[cfg(test)]
mod tests;

pub use mutation::mutate;
