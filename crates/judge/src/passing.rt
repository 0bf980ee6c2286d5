//! Which leading terms a program gives.

ghost use Rattle.std.specs.Prelude.{◌≡◌, ◌≤◌, length, IfOk, MatchOption};
ghost use Rattle.judge.specs.Misses.{got_told, IsFirstMiss, IsNewCount};

use crate::answer::Got;
use checked_numbers::{Num, number_of};
use loda_semantics::FaultKind;
use program_store::Library;
use seq_calls::{Evaluator, Outcome};
use std::alloc::{AllocError, Global};

/// What was got of a run.
pub fn got_of(outcome: Outcome) -> Got
    ensures { result ≡ got_told outcome }
{
    match outcome {
        Outcome::Value { value, .. } => Got::Value(value),
        Outcome::Fault { kind, .. } => match kind {
            FaultKind::Overflow => Got::Overflow,
            FaultKind::DivideByZero => Got::DivideByZero,
            FaultKind::BadCell => Got::BadCell,
            FaultKind::Missing => Got::Missing,
        },
        Outcome::OutOfSteps => Got::OutOfSteps,
    }
}

// What was got in the place of a term, if it was not given.
fn missed(outcome: Outcome, term: Num) -> Option<Got>
    ensures { MatchOption result (got_told outcome ≡ Got.Value term) (λ got. (got ≡ got_told outcome) × (got ≡ Got.Value term → ⊥)) }
{
    match got_of(outcome) {
        Got::Value(value) if value.get() == term.get() => None,
        got => Some(got),
    }
}

/// The index of the first term that the program of a name does not give within the limit of steps, with what was got
/// in its place, or else the number of terms.
pub fn first_miss<B: Library>(
    evaluator: &mut Evaluator,
    lib: &B,
    terms: &[Num],
    name: u32,
    limit: u64,
) -> Result<(u32, Option<Got>), AllocError>
    requires { length terms.now ≤ 32768 }
    ensures { IfOk result (λ found. IsFirstMiss (B.programs lib.now) terms.now name limit found.0 found.1) }
{
    let mut index = 0;
    for term in terms {
        let outcome = evaluator.outcome_alone(lib, name, number_of(index), limit)?;
        if let Some(got) = missed(outcome, *term) {
            return Ok((index, Some(got)));
        }
        index += 1;
    }
    Ok((index, None))
}

/// How many terms a new program is checked at, or the first term that it gets wrong.
#[derive(Clone, Copy)]
pub enum NewCount {
    Checked(u32),
    Wrong { index: u32, got: Got },
}

/// The new checked count of a name whose old one is `old`: the program gives all terms, or the steps run out past the
/// old count and eight. Else the first term that is wrong.
pub fn new_count<B: Library>(
    alloc: Global,
    lib: &B,
    terms: &[Num],
    name: u32,
    limit: u64,
    old: u32,
) -> Result<NewCount, AllocError>
    requires { length terms.now ≤ 32768 }
    ensures { IfOk result (IsNewCount (B.programs lib.now) terms.now name limit old) }
{
    let mut evaluator = Evaluator::new(alloc);
    match first_miss(&mut evaluator, lib, terms, name, limit)? {
        (checked, None) => Ok(NewCount::Checked(checked)),
        (index, Some(got)) => match got {
            Got::OutOfSteps if index >= 8 && index >= old => Ok(NewCount::Checked(index)),
            got => Ok(NewCount::Wrong { index, got }),
        },
    }
}
