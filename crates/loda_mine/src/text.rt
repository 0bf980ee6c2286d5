//! Why a store is not sound, in words.

use judge::{Got, Unsound};
use loda_semantics::{FaultKind, OUT_OF_STEPS};
use std::fmt;

// What was got in the place of a term, in words.
#[derive(Clone, Copy)]
struct GotText(Got);

impl fmt::Display for GotText {
    fn fmt<W: fmt::Write>(&self, f: &mut fmt::Formatter<W>) -> fmt::Result {
        match self.0 {
            Got::Value(value) => {
                let value = value.get();
                write!(f, "{value}")
            }
            Got::Overflow => f.write_str(FaultKind::Overflow.word()),
            Got::DivideByZero => f.write_str(FaultKind::DivideByZero.word()),
            Got::BadCell => f.write_str(FaultKind::BadCell.word()),
            Got::Missing => f.write_str(FaultKind::Missing.word()),
            Got::OutOfSteps => f.write_str(OUT_OF_STEPS),
        }
    }
}

/// Why a store is not sound.
#[derive(Clone, Copy)]
pub struct Reason(pub Unsound);

impl fmt::Display for Reason {
    fn fmt<W: fmt::Write>(&self, f: &mut fmt::Formatter<W>) -> fmt::Result {
        match self.0 {
            Unsound::Cycle { through } => write!(f, "cycle through A{through:06}"),
            Unsound::NoRow { name } => write!(f, "A{name:06} has no row"),
            Unsound::Count {
                name,
                checked,
                usable,
            } => write!(f, "A{name:06} checked {checked} usable {usable}"),
            Unsound::Unmet { name, index, got } => {
                let got = GotText(got);
                write!(f, "A{name:06} index {index} got {got}")
            }
        }
    }
}
