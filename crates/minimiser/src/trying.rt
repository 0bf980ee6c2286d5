//! What a program gives at the arguments, and whether a cut gives it too.

ghost use Rattle.std.specs.Prelude.{◌≡◌, ◌≤◌, IfOk, MatchOption, IsTrue, false};
ghost use Rattle.loda_syntax.specs.Programs.{Text};
ghost use Rattle.minimiser.specs.Minimum.{is_good};
ghost use Rattle.minimiser.specs.Given.{AreGiven, is_good_at, IsGoodRun, is_good_for, AreRunsOf};

use checked_numbers::Num;
use loda_syntax::Program;
use program_store::Library;
use seq_calls::{Evaluator, Outcome, Steps};
use std::alloc::{AllocError, Global};
use std::sync::ledger::Ledger;

/// What a program gives at an argument, and in how many steps.
#[derive(Clone, Copy, Debug)]
pub struct Given {
    pub arg: Num,
    pub value: Num,
    pub steps: u64,
}

/// What the trials of cuts leave to the next ones: the runs of the one that was tried last, in memory that serves again, and
/// at the place of which argument a cut failed last.
#[derive(Drop)]
pub struct Trials {
    pub runs: Vec<Given>,
    pub failed_at: usize,
}

impl Trials {
    /// Where no cut has been tried.
    pub fn none(alloc: Global) -> Trials {
        Trials {
            runs: Vec::new(alloc),
            failed_at: 0,
        }
    }
}

/// What the program gives at each argument. `None` where it has no value at one of them: then no cut is good.
pub fn given_values<B: Library, L: Ledger>(
    evaluator: &mut Evaluator,
    alloc: Global,
    lib: &B,
    program: &Program,
    args: &[Num],
    limit: u64,
    steps: &mut Steps<L>,
) -> Result<Option<Vec<Given>>, AllocError>
    ensures given { IfOk result (λ found. MatchOption found ((q : Text) → is_good (B.programs lib.now) args.now limit program.now q ≡ false) (λ given. AreGiven (B.programs lib.now) args.now limit program.now given.items)) }
    ensures counted { steps.old ≤ steps.new }
{
    let mut given = Vec::with_capacity(alloc, args.len())?;
    for arg in args {
        let outcome = evaluator.evaluate_text(lib, program, *arg, limit, steps)?;
        let Outcome::Value { value, steps: used } = outcome else {
            return Ok(None);
        };
        given.push(Given {
            arg: *arg,
            value,
            steps: used,
        })?;
    }
    Ok(Some(given))
}

// The run of a program at a known argument, where it has the known value. What takes more steps than are known is cut off
// there.
fn good_run<B: Library, L: Ledger>(
    evaluator: &mut Evaluator,
    lib: &B,
    program: &Program,
    known: &Given,
    steps: &mut Steps<L>,
) -> Result<Option<Given>, AllocError>
    ensures run { IfOk result (λ run. MatchOption run (is_good_at (B.programs lib.now) program.now known.now ≡ false) (λ run. IsGoodRun (B.programs lib.now) program.now known.now run)) }
    ensures counted { steps.old ≤ steps.new }
{
    let outcome = evaluator.evaluate_text(lib, program, known.arg, known.steps, steps)?;
    match outcome {
        Outcome::Value { value, steps: used } if value.get() == known.value.get() => {
            let arg = known.arg;
            Ok(Some(Given {
                arg,
                value,
                steps: used,
            }))
        }
        _ => Ok(None),
    }
}

// Whether a program fails where the cut that failed last did.
fn fails_there<B: Library, L: Ledger>(
    evaluator: &mut Evaluator,
    lib: &B,
    program: &Program,
    given: &[Given],
    place: usize,
    steps: &mut Steps<L>,
) -> Result<bool, AllocError>
    ensures fails { IfOk result (λ fails. IsTrue fails → is_good_for (B.programs lib.now) given.now program.now ≡ false) }
    ensures counted { steps.old ≤ steps.new }
{
    if place < given.len() {
        let run = good_run(evaluator, lib, program, &given[place], steps)?;
        Ok(run.is_none())
    } else {
        Ok(false)
    }
}

// Runs a program at each argument, up to the first one at which it is no good.
fn passes_all<B: Library, L: Ledger>(
    evaluator: &mut Evaluator,
    trials: &mut Trials,
    lib: &B,
    program: &Program,
    given: &[Given],
    steps: &mut Steps<L>,
) -> Result<bool, AllocError>
    ensures good { IfOk result (λ good. good ≡ is_good_for (B.programs lib.now) given.now program.now) }
    ensures runs { IfOk result (λ good. IsTrue good → AreRunsOf (B.programs lib.now) program.now given.now trials.new.runs.items) }
    ensures counted { steps.old ≤ steps.new }
{
    trials.runs.clear();
    for known in given {
        let Some(run) = good_run(evaluator, lib, program, known, steps)? else {
            trials.failed_at = trials.runs.len();
            return Ok(false);
        };
        trials.runs.push(run)?;
    }
    Ok(true)
}

/// Whether a program gives these values too, each within the steps that are known. It is run first where the cut that failed
/// last did, since the next one mostly fails there too. If it is good its runs are left.
pub fn is_good<B: Library, L: Ledger>(
    evaluator: &mut Evaluator,
    trials: &mut Trials,
    lib: &B,
    program: &Program,
    given: &[Given],
    steps: &mut Steps<L>,
) -> Result<bool, AllocError>
    ensures good { IfOk result (λ good. good ≡ is_good_for (B.programs lib.now) given.now program.now) }
    ensures runs { IfOk result (λ good. IsTrue good → AreRunsOf (B.programs lib.now) program.now given.now trials.new.runs.items) }
    ensures counted { steps.old ≤ steps.new }
{
    let failed_at = trials.failed_at;
    if fails_there(evaluator, lib, program, given, failed_at, steps)? {
        return Ok(false);
    }
    passes_all(evaluator, trials, lib, program, given, steps)
}
