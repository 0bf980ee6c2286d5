//! What programs mean: their memory, their runs, and the laws of runs.

#![tactic(auto)]

mod kinds;
mod limits;
mod theorems;
mod verbs;

pub use kinds::{FaultKind, OUT_OF_STEPS, Pair};
pub use limits::GREATEST_STEP_LIMIT;
pub use theorems::{
    depth_is_free, more_steps, replacement_keeps, runs_unfold, steps_never_rise,
    used_steps_suffice, worked_examples,
};
pub use verbs::op_of;
