//! The law of one worker's journal, the clause of a function that does nothing.
ghost use Rattle.std.specs.Prelude.{ℕ};
ghost use Rattle.program_store.specs.Store.{Store};
ghost use Rattle.oeis_terms.specs.Table.{Table};
ghost use Rattle.publish_desk.specs.declared.charter.Source.{Source};
ghost use Rattle.publish_desk.specs.OneJournal.{IsOneJournal};

/// Legal journals that have the jobs in order are one.
pub fn one_journal()
    ensures { (opening : Store) (table : Table) (limit : ℕ) (source : Source) (jobs : ℕ) → IsOneJournal opening table limit source jobs }
{}
