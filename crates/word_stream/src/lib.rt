//! Numbers drawn from a source of random words, the source of a job, and a source over a list.
#![tactic(auto)]

mod draws;
mod listed;
#[cfg(test)]
mod tests;

pub use draws::{Draws, job_draws};
pub use listed::Listed;
