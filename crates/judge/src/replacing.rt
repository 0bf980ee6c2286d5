//! What is answered to a proposal for a published name.

ghost use Rattle.std.specs.Prelude.{◌≡◌, ◌↔◌, ℕ, ◌<◌, IsTrue, IfOk, Some, pos};
ghost use Rattle.program_store.specs.Store.{IsStore, published_at};
ghost use Rattle.judge.specs.Changes.{runs_at, IsSoundStore, NeedsMoreSteps, SameSteps};
ghost use Rattle.judge.specs.Replaced.{HasValue, IsBroken, IsCostlier, IsAnswerForAnyTerms, TakesSameSteps, BringsNothing};

use crate::answer::Answer;
use crate::comparing::{Changed, both_runs, has_same_steps};
use crate::demanding::changes_of;
use crate::passing::got_of;
use checked_numbers::number_of;
use program_store::{Proposal, Published, View};
use seq_calls::Outcome;
use std::alloc::{AllocError, Global};

// The answer where the value at an argument is another one.
fn broken(changed: &Changed) -> Answer
    requires { HasValue changed.now.runs.with_old }
    ensures { IsBroken changed.now result }
{
    match changed.runs.with_old {
        Outcome::Value { value, .. } => Answer::BrokenDependant {
            at: changed.at,
            caller: changed.by.name,
            index: changed.by.index,
            was: value,
            now: got_of(changed.runs.with_new),
        },
        _ => unreachable!(),
    }
}

// The answer where the run at an argument takes more steps.
fn costlier(changed: &Changed) -> Answer
    requires { NeedsMoreSteps changed.now.runs }
    ensures { IsCostlier changed.now result }
{
    let at = changed.at;
    match changed.runs.with_old {
        Outcome::Value { steps: was, .. } => match changed.runs.with_new {
            Outcome::Value { steps: now, .. } => Answer::Costlier { at, was, now },
            _ => unreachable!(),
        },
        _ => unreachable!(),
    }
}

// Whether the first arguments take as many steps as before.
fn takes_same_steps<V: View>(
    alloc: Global,
    view: &V,
    proposal: &Proposal,
    limit: u64,
    count: u32,
) -> Result<bool, AllocError>
    ensures { IfOk result (λ same. IsTrue same ↔ TakesSameSteps (V.store view.now) limit proposal.now.name proposal.now.program count) }
{
    for index in 0..count {
        let runs = both_runs(alloc, view, proposal, limit, number_of(index))?;
        if !has_same_steps(&runs) {
            return Ok(false);
        }
    }
    Ok(true)
}

// Whether no more terms are checked, no checked argument is cheaper, and the program is no shorter.
fn brings_nothing<V: View>(
    alloc: Global,
    view: &V,
    proposal: &Proposal,
    limit: u64,
    published: &Published,
    checked: u32,
) -> Result<bool, AllocError>
    requires { published_at (V.store view.now) proposal.now.name ≡ Some published.now }
    ensures { IfOk result (λ nothing. IsTrue nothing ↔ BringsNothing (V.store view.now) limit proposal.now.name proposal.now.program published.now checked) }
{
    if checked != published.checked {
        return Ok(false);
    }
    if proposal.program.instrs().len() < published.program.instrs().len() {
        return Ok(false);
    }
    takes_same_steps(alloc, view, proposal, limit, checked)
}

/// What is answered to a proposal for a published name, of a program that passes with this checked count.
pub fn replacement_answer<V: View>(
    alloc: Global,
    view: &V,
    proposal: &Proposal,
    limit: u64,
    published: &Published,
    checked: u32,
) -> Result<Answer, AllocError>
    requires sound { IsSoundStore (V.store view.now) limit }
    requires store { IsStore (V.store view.now) }
    requires published { published_at (V.store view.now) proposal.now.name ≡ Some published.now }
    ensures { IfOk result (IsAnswerForAnyTerms (V.store view.now) limit proposal.now.name proposal.now.program checked) }
{
    let changes = changes_of(alloc, view, proposal, limit)?;
    if let Some(changed) = &changes.other_value {
        return Ok(broken(changed));
    }
    if let Some(changed) = &changes.more_steps {
        return Ok(costlier(changed));
    }
    if brings_nothing(alloc, view, proposal, limit, published, checked)? {
        return Ok(Answer::NoGain);
    }
    Ok(Answer::Accepted { checked })
}
