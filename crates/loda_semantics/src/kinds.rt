//! Faults of a run, and a call by name and argument.

ghost use Rattle.std.specs.Prelude.{◌≡◌};
ghost use Rattle.loda_semantics.specs.Exec.{fault_of};
ghost use Rattle.loda_semantics.specs.Faults.{fault_text};

use checked_numbers::{Num, NumFault};

/// Why a run failed.
#[derive(Clone, Copy, Debug, PartialEq, Eq)]
pub enum FaultKind {
    /// A result whose absolute value is greater than `2^127 - 1`.
    Overflow,
    /// A division by zero, or zero to a negative power.
    DivideByZero,
    /// An indirect operand that leads outside of the cells 0 to 4095.
    BadCell,
    /// A call of a name that has no program.
    Missing,
}

/// The word that outputs have for a run whose steps were spent before its end.
pub const OUT_OF_STEPS: &str = "out-of-steps";

impl From<NumFault> for FaultKind {
    ghost from_gives = { λ fault kind. kind ≡ fault_of fault };

    fn from(fault: NumFault) -> FaultKind {
        match fault {
            NumFault::Overflow => FaultKind::Overflow,
            NumFault::DivideByZero => FaultKind::DivideByZero,
        }
    }
}

impl FaultKind {
    /// The word that outputs have for it.
    pub fn word(self) -> &'static str
        ensures { result.now ≡ fault_text self }
    {
        match self {
            FaultKind::Overflow => "overflow",
            FaultKind::DivideByZero => "divide-by-zero",
            FaultKind::BadCell => "bad-cell",
            FaultKind::Missing => "missing",
        }
    }
}

/// A call of the program of a name.
#[derive(Clone, Copy, Debug, PartialEq, Eq)]
pub struct Pair {
    /// The name, from 1 to 999,999.
    pub name: u32,
    /// The argument.
    pub arg: Num,
}
