//! What cuts and the minimum mean, each law as the clause of a function that does nothing.

ghost use Rattle.std.specs.Prelude.{ℕ, ℤ, List};
ghost use Rattle.loda_syntax.specs.Programs.{Text};
ghost use Rattle.loda_syntax.specs.WellFormed.{IsProgram};
ghost use Rattle.loda_semantics.specs.Exec.{Library};
ghost use Rattle.minimiser.specs.Laws.{CutsTakeParts, MinimumUnfolds};

/// A cut takes out one instruction that neither begins nor ends a loop, or one loop whole, from its beginning to its end.
pub fn cuts_take_parts()
    ensures { CutsTakeParts }
{}

/// The minimum is the program where no cut of it is good, and else the minimum of what its first good cut leaves.
pub fn minimum_unfolds()
    ensures { (lib : Library) (args : List ℤ) (limit : ℕ) (p : Text) → IsProgram p → MinimumUnfolds lib args limit p }
{}
