//! Runs of programs that call each other: their outcomes, their steps, and the runs that they finish.
#![tactic(auto)]

mod counting;
mod evaluation;
mod finished;
mod outcomes;
mod pairs_list;
#[cfg(test)]
mod tests;
mod unfinished;

pub use counting::Steps;
pub use evaluation::{Evaluator, Run, evaluate, evaluate_alone, evaluate_text, outcome_alone};
pub use finished::Frames;
pub use loda_semantics::Pair;
pub use outcomes::{NodeRun, Outcome};
pub use pairs_list::Pairs;
