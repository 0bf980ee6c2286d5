//! Runs of a proposed program at the arguments that have terms.

ghost use Rattle.std.specs.Prelude.{◌≡◌, ◌≤◌, length, IfOk, IfSome, IfNone};
ghost use Rattle.judge.specs.Misses.{got_told, IsFirstMiss};
ghost use Rattle.seq_calls.specs.declared.outcomes.Outcome.TheVariants as told_as;
ghost use Rattle.evidence.specs.Runs.{AreFirst};
ghost use Rattle.evidence.specs.Trials.{AreSpentOnTerms};

use checked_numbers::{Num, number_of};
use judge::{Got, got_of};
use program_store::Library;
use seq_calls::{Evaluator, NodeRun, Outcome, Steps};
use std::alloc::{AllocError, Global};
use std::sync::ledger::Ledger;

/// The steps of a run that gave a number. `None` where it gave another one or none.
pub fn steps_for(outcome: Outcome, number: Num) -> Option<u64>
    ensures some { IfSome result (λ used. outcome ≡ told_as.Value number used) }
    ensures none { IfNone result (got_told outcome ≡ Got.Value number → ⊥) }
{
    match outcome {
        Outcome::Value { value, steps } if value.get() == number.get() => Some(steps),
        _ => None,
    }
}

/// What the runs at the first arguments cost and left behind, as far as the terms were given, and what was got in the place
/// of the first term that was not.
#[derive(Drop)]
pub struct Tried {
    pub costs: Vec<u64>,
    pub runs: Vec<NodeRun>,
    pub miss: Option<Got>,
}

/// Runs the program of a name at one argument after the other, as long as it gives the terms.
pub fn try_terms<B: Library, L: Ledger>(
    alloc: Global,
    lib: &B,
    terms: &[Num],
    name: u32,
    limit: u64,
    steps: &mut Steps<L>,
) -> Result<Tried, AllocError>
    requires { length terms.now ≤ 32768 }
    ensures miss { IfOk result (λ t. IsFirstMiss (B.programs lib.now) terms.now name limit (length t.costs.items) t.miss) }
    ensures first { IfOk result (λ t. AreFirst (B.programs lib.now) name limit t.costs.items t.runs.items) }
    ensures few { IfOk result (λ t. length t.costs.items ≤ length terms.now) }
    ensures spent { AreSpentOnTerms (B.programs lib.now) terms.now name limit steps.old steps.new }
{
    let mut evaluator = Evaluator::new(alloc);
    let mut costs = Vec::new(alloc);
    let mut runs = Vec::new(alloc);
    let mut index = 0;
    for term in terms {
        let run = evaluator.evaluate(lib, name, number_of(index), limit, steps)?;
        match steps_for(run.outcome, *term) {
            Some(used) => {
                costs.push(used)?;
                runs.append(&mut run.nodes.into_list())?;
            }
            None => {
                let miss = Some(got_of(run.outcome));
                return Ok(Tried { costs, runs, miss });
            }
        }
        index += 1;
    }
    Ok(Tried {
        costs,
        runs,
        miss: None,
    })
}
