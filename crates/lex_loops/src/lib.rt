//! One program up to its next call.
#![tactic(auto)]

mod cells;
mod machine;
mod marks;
mod progress;
mod stop;

pub use loda_semantics::FaultKind;
pub use machine::Machine;
pub use stop::{Phase, Stop};
