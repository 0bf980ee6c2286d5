//! The carry law, the clause of a function that does nothing.

ghost use Rattle.std.specs.Prelude.{ℕ, List};
ghost use Rattle.loda_syntax.specs.Programs.{Text};
ghost use Rattle.program_store.specs.Store.{Store};
ghost use Rattle.judge.specs.Passed.{Terms};
ghost use Rattle.carry_over.specs.Carries.{Carries};

/// An answer stands in a later store, where no entry accepted in between has a name in the proposal's reach.
pub fn answers_carry()
    ensures { (older : Store) (terms : Terms) (limit : ℕ) (names : List ℕ) (newer : Store) (q : ℕ) (p : Text) → Carries older terms limit names newer q p }
{}
