//! Parts of lines, as bytes: blanks and line ends, counts, decimal digits, and A-numbers.
#![tactic(auto)]

mod blanks;
mod counts;
mod digits;
pub mod laws;
mod names;
#[cfg(test)]
mod tests;

pub use blanks::{is_blank, trim, trim_back, trim_front, without_return};
pub use counts::{write_count, write_counted};
pub use digits::{decimal_up_to, number_up_to};
pub use names::{GREATEST_NAME, name_of, name_text};
