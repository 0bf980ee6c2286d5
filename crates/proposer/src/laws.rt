//! What the choice among the proposals of a job means, as the clause of a function that does nothing.

ghost use Rattle.std.specs.Prelude.{ℕ};
ghost use Rattle.oeis_terms.specs.Table.{Table};
ghost use Rattle.program_store.specs.Store.{Store};
ghost use Rattle.proposer.specs.Proposed.{HasOneProposal};

/// No two proposals of a job in a store differ: a job proposes the first of its shortlist that judging accepts there, else
/// the first, else none.
pub fn one_proposal()
    ensures { (table : Table) (limit seed job : ℕ) (s : Store) → HasOneProposal table limit seed job s }
{}
