//! The proposals of a job: a program is made of the job's words, and rows of terms that its values match are proposed for.
#![tactic(auto)]

mod choosing;
mod laws;
mod making;
mod reducing;
mod running;
#[cfg(test)]
mod tests;

pub use choosing::shortlist;
pub use laws::one_proposal;
