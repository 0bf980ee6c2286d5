//! What a run comes to.

ghost use Rattle.std.specs.Prelude.{ℕ, ◌≡◌, ◌↔◌, IsTrue};

use crate::pairs_list::Pairs;
use checked_numbers::Num;
use loda_semantics::{FaultKind, Pair};

/// What a run comes to: a value or a fault with the steps that were used, or the steps ran out.
#[derive(Clone, Copy, Debug, PartialEq, Eq)]
pub enum Outcome {
    Value { value: Num, steps: u64 },
    Fault { kind: FaultKind, steps: u64 },
    OutOfSteps,
}

impl Outcome {
    /// Whether it is this value, in whatever steps.
    pub fn is_value(self, value: Num) -> bool
        ensures { IsTrue result ↔ ((used : ℕ) × (self ≡ Outcome.Value value used)) }
    {
        match self {
            Outcome::Value { value: other, .. } => other.get() == value.get(),
            _ => false,
        }
    }
}

/// A run of a name that ended with a value.
#[derive(Debug, Drop)]
pub struct NodeRun {
    /// The name and the argument.
    pub pair: Pair,
    /// The value.
    pub value: Num,
    /// The steps, without those of its callees.
    pub own: u64,
    /// Its direct calls, in order.
    pub calls: Pairs,
}
