//! Made input: for each of the names 1 to n a row of ten terms, and two programs that give them.
//!
//! The row of the name `i + 1` has the terms `(i + 1) * k + i`. Its plain program says so; of ten first programs one is
//! plain, and each of the others calls the program of the name before it.
#![tactic(auto)]

mod programs;
#[cfg(test)]
mod tests;
mod texts;
mod values;

pub use texts::{candidates_text, store_text, terms_text};
pub use values::{made_candidates, made_table};
