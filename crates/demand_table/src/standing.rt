//! Whether runs stand in the slots.

ghost use Rattle.std.specs.Prelude.{◌≡◌, ◌↔◌, IsTrue, IsSome, Contains};
ghost use Rattle.loda_semantics.specs.declared.kinds.Pair.{Pair};
ghost use Rattle.demand_table.specs.Loaded.{slots_of};

use crate::holding::Known;
use crate::known;
use crate::slots::touched;
use crate::work::Work;
use loda_semantics::Pair;

/// Whether the run of a pair stands.
pub fn stands(known: &Known<'_>, work: &Work, pair: &Pair) -> bool
    ensures { IsTrue result ↔ IsSome (slots_of known.now.pages.now work.now pair.now).entry }
{
    match touched(work, pair) {
        Some(slot) => slot.entry.is_some(),
        None => known::node(known, pair).is_some(),
    }
}

/// Whether the runs of all these pairs stand.
pub fn all_stand(known: &Known<'_>, work: &Work, pairs: &[Pair]) -> bool
    ensures { IsTrue result → (q : Pair) → Contains pairs.now q → IsSome (slots_of known.now.pages.now work.now q).entry }
{
    for pair in pairs {
        if !stands(known, work, pair) {
            return false;
        }
    }
    true
}
