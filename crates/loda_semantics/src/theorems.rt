//! The laws of runs, each proved as the clause of a function that does nothing.

ghost use Rattle.loda_semantics.specs.Laws.{StepsNeverRise, DepthIsFree, TextsRunTrees, NamesRunTexts, TurnsGoOn, MoreSteps, ValuesStay, UsedStepsSuffice, ReplacementKeeps};
ghost use Rattle.loda_semantics.specs.Examples.{FibonacciRuns, RegionOfTwoRuns, FaultsAndCycles};

/// A run leaves no more steps than it was given.
pub fn steps_never_rise()
    ensures { StepsNeverRise }
{}

/// The bound on the depth of calls, by which runs are defined, does not matter where it is greater than the steps.
pub fn depth_is_free()
    ensures { DepthIsFree }
{}

/// The language's own equations: a text runs its tree, a name runs its text, and a loop runs turn by turn.
pub fn runs_unfold()
    ensures texts { TextsRunTrees }
    ensures names { NamesRunTexts }
    ensures turns { TurnsGoOn }
{}

/// The law of more steps: more steps change nothing in a run that ends within its steps.
pub fn more_steps()
    ensures runs { MoreSteps }
    ensures values { ValuesStay }
{}

/// The steps that a run with a value used suffice for it.
pub fn used_steps_suffice()
    ensures { UsedStepsSuffice }
{}

/// A program that replaces another, with the same values in no more steps at some arguments, changes no value and adds no
/// step in any run that calls it at these arguments alone.
pub fn replacement_keeps()
    ensures { ReplacementKeeps }
{}

/// Worked examples: the numbers of Fibonacci, a region of two cells, calls without end, and faults.
pub fn worked_examples()
    ensures fibonacci { FibonacciRuns }
    ensures region_of_two { RegionOfTwoRuns }
    ensures faults { FaultsAndCycles }
{}
