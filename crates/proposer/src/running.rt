//! Values of a program at the first arguments.

ghost use Rattle.std.specs.Prelude.{ℕ, ◌≡◌, ◌≤◌, length, All, IfOk, MatchOption};
ghost use Rattle.minimiser.specs.Given.{IsGivenRun, arguments};
ghost use Rattle.proposer.specs.Short.{values_from, given_from, first_arguments};

use checked_numbers::{Num, number_of};
use loda_syntax::Program;
use minimiser::Given;
use program_store::Library;
use seq_calls::{Evaluator, Outcome, Steps};
use std::alloc::{AllocError, Global};
use std::sync::ledger::Ledger;

/// The values at 0 to 8, where each run has one within the limit of steps.
pub fn nine_values<B: Library, L: Ledger>(
    evaluator: &mut Evaluator,
    lib: &B,
    program: &Program,
    limit: u64,
    steps: &mut Steps<L>,
) -> Result<Option<[Num; 9]>, AllocError>
    ensures values { IfOk result (λ values. values ≡ values_from (B.programs lib.now) limit program.now 0 9) }
    ensures counted { steps.old ≤ steps.new }
{
    let mut values = [number_of(0); 9];
    for index in 0..9 {
        let outcome = evaluator.evaluate_text(lib, program, number_of(index as u32), limit, steps)?;
        let Outcome::Value { value, .. } = outcome else {
            return Ok(None);
        };
        values[index] = value;
    }
    Ok(Some(values))
}

// In how many steps the outcome is this value, if it is.
fn steps_to(outcome: Outcome, value: Num) -> Option<u64>
    ensures { MatchOption result ((used : ℕ) → outcome ≡ Outcome.Value value used → ⊥) (λ used. outcome ≡ Outcome.Value value used) }
{
    match outcome {
        Outcome::Value {
            value: other,
            steps,
        } if other.get() == value.get() => Some(steps),
        _ => None,
    }
}

/// The leading terms of a row that the program gives, one after the other from 0 on, each within the limit of steps: its runs
/// there.
pub fn given_terms<B: Library, L: Ledger>(
    evaluator: &mut Evaluator,
    alloc: Global,
    lib: &B,
    program: &Program,
    row: &[Num],
    limit: u64,
    steps: &mut Steps<L>,
) -> Result<Vec<Given>, AllocError>
    requires { length row.now ≤ 32768 }
    ensures count { IfOk result (λ given. length given.items ≡ given_from (B.programs lib.now) limit program.now 0 row.now) }
    ensures args { IfOk result (λ given. arguments given.items ≡ first_arguments (given_from (B.programs lib.now) limit program.now 0 row.now)) }
    ensures given { IfOk result (λ given. All (IsGivenRun (B.programs lib.now) limit program.now) given.items) }
    ensures counted { steps.old ≤ steps.new }
{
    let mut given = Vec::new(alloc);
    let mut index = 0;
    for term in row {
        let arg = number_of(index);
        let outcome = evaluator.evaluate_text(lib, program, arg, limit, steps)?;
        match steps_to(outcome, *term) {
            Some(used) => given.push(Given {
                arg,
                value: *term,
                steps: used,
            })?,
            None => return Ok(given),
        }
        index += 1;
    }
    Ok(given)
}
