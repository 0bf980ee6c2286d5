//! Taking good cuts until there is none.

ghost use Rattle.std.specs.Prelude.{◌≡◌, ◌≤◌, length, All, IfOk, IfSome};
ghost use Rattle.minimiser.specs.Cuts.{cut_at};
ghost use Rattle.minimiser.specs.Minimum.{first_good, minimum};
ghost use Rattle.minimiser.specs.Laws.{HasNoGoodCut, KeepsValues};
ghost use Rattle.minimiser.specs.Given.{IsGivenRun, arguments, AreGiven, AreRunsOf, if_good};

use crate::cutting::cut_at;
use crate::trying::{Given, Trials, given_values, is_good};
use checked_numbers::Num;
use loda_syntax::Program;
use program_store::Library;
use seq_calls::{Evaluator, Steps};
use std::alloc::{AllocError, Global};
use std::mem::swap;
use std::sync::ledger::Ledger;

// What the cut at a place leaves, if that gives these values.
fn good_cut<B: Library, L: Ledger>(
    evaluator: &mut Evaluator,
    trials: &mut Trials,
    alloc: Global,
    lib: &B,
    program: &Program,
    place: usize,
    given: &[Given],
    steps: &mut Steps<L>,
) -> Result<Option<Program>, AllocError>
    requires { place ≤ length program.now }
    ensures cut { IfOk result (λ found. found ≡ if_good (B.programs lib.now) given.now (cut_at program.now place)) }
    ensures runs { IfOk result (λ found. IfSome found (λ cut. AreRunsOf (B.programs lib.now) cut given.now trials.new.runs.items)) }
    ensures counted { steps.old ≤ steps.new }
{
    let Some(cut) = cut_at(alloc, program, place)? else {
        return Ok(None);
    };
    if is_good(evaluator, trials, lib, &cut, given, steps)? {
        Ok(Some(cut))
    } else {
        Ok(None)
    }
}

// What the first good cut leaves, of a program with these values.
fn first_good<B: Library, L: Ledger>(
    evaluator: &mut Evaluator,
    trials: &mut Trials,
    alloc: Global,
    lib: &B,
    program: &Program,
    given: &[Given],
    limit: u64,
    steps: &mut Steps<L>,
) -> Result<Option<Program>, AllocError>
    requires { All (IsGivenRun (B.programs lib.now) limit program.now) given.now }
    ensures found { IfOk result (λ found. found ≡ first_good (B.programs lib.now) (arguments given.now) limit program.now) }
    ensures runs { IfOk result (λ found. IfSome found (λ cut. AreRunsOf (B.programs lib.now) cut given.now trials.new.runs.items)) }
    ensures counted { steps.old ≤ steps.new }
{
    for place in 0..program.instrs().len() {
        if let Some(cut) = good_cut(evaluator, trials, alloc, lib, program, place, given, steps)? {
            return Ok(Some(cut));
        }
    }
    Ok(None)
}

/// `minimise` of a program whose runs at the arguments are known: these are its values, and the steps that each took within
/// the limit. They are not run again. The runs of a cut that is taken are those of the program that it leaves.
pub fn minimise_given<B: Library, L: Ledger>(
    evaluator: &mut Evaluator,
    alloc: Global,
    lib: &B,
    program: Program,
    given: Vec<Given>,
    limit: u64,
    steps: &mut Steps<L>,
) -> Result<Program, AllocError>
    requires given { All (IsGivenRun (B.programs lib.now) limit program) given.items }
    ensures minimum { IfOk result (λ least. least ≡ minimum (B.programs lib.now) (arguments given.items) limit program) }
    ensures no_good_cut { IfOk result (λ least. HasNoGoodCut (B.programs lib.now) (arguments given.items) limit least) }
    ensures values { IfOk result (λ least. KeepsValues (B.programs lib.now) (arguments given.items) limit program least) }
    ensures no_longer { IfOk result (λ least. length least ≤ length program) }
    ensures counted { steps.old ≤ steps.new }
{
    let mut least = program;
    let mut known = given;
    let mut trials = Trials::none(alloc);
    loop {
        match first_good(
            evaluator,
            &mut trials,
            alloc,
            lib,
            &least,
            &known,
            limit,
            steps,
        )? {
            None => return Ok(least),
            Some(shorter) => {
                least = shorter;
                swap(&mut known, &mut trials.runs);
            }
        }
    }
}

/// Takes instructions and loops out of a program, as long as it keeps its values at these arguments, each within the limit
/// of steps and in no more steps than before. Its calls go to the library.
///
/// A cut takes out one instruction that neither begins nor ends a loop, or one loop whole. The first good cut is taken, in
/// the order of the places at which they begin, and so on with what is left, until no cut is good. Where no argument is
/// given every cut is good, and where the program has no value at one of them none is. The count rises by the steps of the
/// runs that were made; no cut is run for more steps than the program took at that argument.
pub fn minimise<B: Library, L: Ledger>(
    alloc: Global,
    lib: &B,
    program: &Program,
    args: &[Num],
    limit: u64,
    steps: &mut Steps<L>,
) -> Result<Program, AllocError>
    ensures minimum { IfOk result (λ least. least ≡ minimum (B.programs lib.now) args.now limit program.now) }
    ensures no_good_cut { IfOk result (λ least. HasNoGoodCut (B.programs lib.now) args.now limit least) }
    ensures values { IfOk result (λ least. KeepsValues (B.programs lib.now) args.now limit program.now least) }
    ensures no_longer { IfOk result (λ least. length least ≤ length program.now) }
    ensures counted { steps.old ≤ steps.new }
{
    let mut evaluator = Evaluator::new(alloc);
    let whole = program.copy()?;
    match given_values(&mut evaluator, alloc, lib, program, args, limit, steps)? {
        None => Ok(whole),
        Some(given) => minimise_given(&mut evaluator, alloc, lib, whole, given, limit, steps),
    }
}
