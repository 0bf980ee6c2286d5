//! The runs of a name before and after a replacement.

ghost use Rattle.std.specs.Prelude.{◌≡◌, ◌↔◌, IsTrue, IfOk};
ghost use Rattle.judge.specs.Changes.{runs_at, SameValue, OtherValue, NeedsMoreSteps, SameSteps, IsLesser, IsNext};

use checked_numbers::Num;
use program_store::{Overlay, Proposal, View};
use seq_calls::{Evaluator, Outcome};
use std::alloc::{AllocError, Global};

/// What a run came to with the old program, and what it comes to with the new one.
#[derive(Clone, Copy)]
pub struct BothRuns {
    pub with_old: Outcome,
    pub with_new: Outcome,
}

/// The run of a published name at one of its checked arguments.
#[derive(Clone, Copy)]
pub struct CheckedRun {
    pub name: u32,
    pub index: u32,
}

/// An argument at which a name is run, a checked run that relies on it, and what the name comes to there.
#[derive(Clone, Copy)]
pub struct Changed {
    pub at: Num,
    pub by: CheckedRun,
    pub runs: BothRuns,
}

/// The least argument at which the value is another one, and the least at which there are more steps.
#[derive(Clone, Copy)]
pub struct Changes {
    pub other_value: Option<Changed>,
    pub more_steps: Option<Changed>,
}

/// The runs of the proposed name at an argument.
pub fn both_runs<V: View>(
    alloc: Global,
    view: &V,
    proposal: &Proposal,
    limit: u64,
    at: Num,
) -> Result<BothRuns, AllocError>
    ensures { IfOk result (λ runs. runs ≡ runs_at (V.store view.now) limit proposal.now.name proposal.now.program at) }
{
    let after = Overlay {
        base: view,
        name: proposal.name,
        program: &proposal.program,
    };
    let mut evaluator = Evaluator::new(alloc);
    let with_old = evaluator.outcome_alone(view, proposal.name, at, limit)?;
    let with_new = evaluator.outcome_alone(&after, proposal.name, at, limit)?;
    Ok(BothRuns { with_old, with_new })
}

// Whether two numbers are one.
fn is_same(was: Num, now: Num) -> bool
    ensures { IsTrue result ↔ (was ≡ now) }
{
    was.get() == now.get()
}

/// Whether both runs have one value.
pub fn has_same_value(runs: &BothRuns) -> bool
    ensures { IsTrue result ↔ SameValue runs.now }
{
    match runs.with_old {
        Outcome::Value { value: was, .. } => match runs.with_new {
            Outcome::Value { value: now, .. } => is_same(was, now),
            _ => false,
        },
        _ => false,
    }
}

/// Whether both runs have values, and the new one takes more steps.
pub fn takes_more_steps(runs: &BothRuns) -> bool
    ensures { IsTrue result ↔ NeedsMoreSteps runs.now }
{
    match runs.with_old {
        Outcome::Value { steps: was, .. } => match runs.with_new {
            Outcome::Value { steps: now, .. } => was < now,
            _ => false,
        },
        _ => false,
    }
}

/// Whether both runs have values, with as many steps.
pub fn has_same_steps(runs: &BothRuns) -> bool
    ensures { IsTrue result ↔ SameSteps runs.now }
{
    match runs.with_old {
        Outcome::Value { steps: was, .. } => match runs.with_new {
            Outcome::Value { steps: now, .. } => was == now,
            _ => false,
        },
        _ => false,
    }
}

// The one with the lesser argument, and the known one where both have the same; a met one counts only if it is changed.
fn lesser(known: Option<Changed>, met: &Changed, is_changed: bool) -> Option<Changed>
    ensures { IsLesser is_changed known met.now result }
{
    if !is_changed {
        return known;
    }
    match known {
        None => Some(*met),
        Some(least) => {
            if least.at.get() <= met.at.get() {
                Some(least)
            } else {
                Some(*met)
            }
        }
    }
}

impl Changes {
    /// The changes after one more argument was met.
    pub fn with(self, met: &Changed) -> Changes
        ensures other_value { IsNext (OtherValue met.now.runs) self.other_value met.now result.other_value }
        ensures more_steps { IsNext (NeedsMoreSteps met.now.runs) self.more_steps met.now result.more_steps }
    {
        let has_other = !has_same_value(&met.runs);
        let has_more = takes_more_steps(&met.runs);
        Changes {
            other_value: lesser(self.other_value, met, has_other),
            more_steps: lesser(self.more_steps, met, has_more),
        }
    }
}
