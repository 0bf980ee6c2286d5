//! How a row can follow from the values of a program.

use checked_numbers::Num;

/// A form in which the terms of a row follow from the values of a program.
#[derive(Clone, Copy, Debug, PartialEq, Eq)]
pub enum Form {
    /// Each term is the value.
    Direct,
    /// Each term is the next value less the value.
    Difference,
    /// Each term is the sum of the values up to its place.
    Sum,
    /// Each term is `a` times the value, and `b`.
    Linear { a: Num, b: Num },
}

/// A row that matches.
#[derive(Clone, Copy, Debug, PartialEq, Eq)]
pub struct Match {
    pub name: u32,
    pub form: Form,
}
