//! The bounds of a run's step limit.

/// The greatest step limit of a run; the least is 1.
pub const GREATEST_STEP_LIMIT: u64 = 10_000_000;
