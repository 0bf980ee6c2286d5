//! The laws of composed programs, each proved as the clause of a function that does nothing.

ghost use Rattle.compositions.specs.Examples.{SquaresCompose};
ghost use Rattle.compositions.specs.Meaning.{LinearMeans, DifferenceMeans, SumMeans, ProgramsMove, TextsFollow};

/// A program without indirect cells does in other cells, with d added to each cell's number, what it does in its own.
pub fn programs_move()
    ensures { ProgramsMove }
{}

/// The instructions of a program and then others run one after the other.
pub fn texts_follow()
    ensures { TextsFollow }
{}

/// `P` and then `mul $0,a` and `add $0,b` have the value `a * P(n) + b`, and whenever there are the steps.
pub fn linear_means()
    ensures { LinearMeans }
{}

/// The program of differences has the value `P(n + 1) - P(n)`, and whenever there are the steps.
pub fn difference_means()
    ensures { DifferenceMeans }
{}

/// Where the program of sums has a value at n, it is the sum of `P(0)` to `P(n)`.
pub fn sum_means()
    ensures { SumMeans }
{}

/// Worked examples: the differences and the sums of the squares.
pub fn squares_compose()
    ensures { SquaresCompose }
{}
