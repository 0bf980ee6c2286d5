//! Whether calls lead from one pair to another.

ghost use Rattle.std.specs.Prelude.{◌≡◌, ◌↔◌, IsTrue, IsFalse, IfOk, OnOk, IfNone, Contains};
ghost use Rattle.demand_table.specs.Leading.{calls_at, LeadsTo, AreBarren, HasJust, AddsPairs, IsFirstLeading};
ghost use Rattle.demand_table.specs.Loaded.{node_at};

use crate::holding::Known;
use crate::known;
use checked_numbers::{Num, number_of};
use loda_semantics::Pair;
use std::alloc::AllocError;
use std::collections::BTreeSet;

// The pairs that the node of a pair calls.
fn calls<'a>(known: &Known<'a>, pair: &Pair) -> &'a [Pair]
    ensures { result.now ≡ calls_at (node_at known.now.pages.now) pair.now }
{
    match known::node(known, pair) {
        Some(node) => node.calls.list(),
        None => &[],
    }
}

// Whether a pair is on a list.
fn has_pair(list: &[Pair], pair: &Pair) -> bool
    ensures { IsTrue result ↔ Contains list.now pair.now }
{
    for other in list {
        if other.name == pair.name && other.arg.get() == pair.arg.get() {
            return true;
        }
    }
    false
}

// Adds the pairs that were not met yet.
fn add_pairs(
    found: &[Pair],
    pairs: &mut Vec<Pair>,
    met: &mut BTreeSet<(u32, Num)>,
) -> Result<(), AllocError>
    requires { HasJust met.old pairs.old.items }
    ensures adds { OnOk result (AddsPairs pairs.old.items pairs.new.items found.now) }
    ensures met { OnOk result (HasJust met.new pairs.new.items) }
{
    for pair in found {
        if met.insert((pair.name, pair.arg))? {
            pairs.push(*pair)?;
        }
    }
    Ok(())
}

/// Whether one or more calls lead from a pair to another. Pairs that were met before and lead there by no call are passed
/// over; where the answer is no, all that were met now join them.
pub fn leads(
    known: &Known<'_>,
    pairs: &mut Vec<Pair>,
    met: &mut BTreeSet<(u32, Num)>,
    from: Pair,
    to: &Pair,
) -> Result<bool, AllocError>
    requires met { HasJust met.old pairs.old.items }
    requires barren { AreBarren (node_at known.now.pages.now) to.now pairs.old.items }
    ensures leads { IfOk result (λ yes. IsTrue yes ↔ LeadsTo (node_at known.now.pages.now) from to.now) }
    ensures met { OnOk result (HasJust met.new pairs.new.items) }
    ensures barren { IfOk result (λ yes. IsFalse yes → AreBarren (node_at known.now.pages.now) to.now pairs.new.items) }
{
    let mut next = pairs.len();
    add_pairs(&[from], pairs, met)?;
    while next < pairs.len() {
        let found = calls(known, &pairs[next]);
        if has_pair(found, to) {
            return Ok(true);
        }
        add_pairs(found, pairs, met)?;
        next += 1;
    }
    Ok(false)
}

/// The first of so many arguments of a name, from 0 up, from which calls lead to a pair. Pairs that were met before and lead
/// there by no call are passed over; where there is no such argument, all that were met now join them.
pub fn first_leading(
    known: &Known<'_>,
    pairs: &mut Vec<Pair>,
    met: &mut BTreeSet<(u32, Num)>,
    name: u32,
    checked: u32,
    to: &Pair,
) -> Result<Option<u32>, AllocError>
    requires met { HasJust met.old pairs.old.items }
    requires barren { AreBarren (node_at known.now.pages.now) to.now pairs.old.items }
    ensures first { IfOk result (IsFirstLeading (node_at known.now.pages.now) name checked to.now) }
    ensures met { OnOk result (HasJust met.new pairs.new.items) }
    ensures barren { IfOk result (λ found. IfNone found (AreBarren (node_at known.now.pages.now) to.now pairs.new.items)) }
{
    for index in 0..checked {
        let from = Pair {
            name,
            arg: number_of(index),
        };
        if leads(known, pairs, met, from, to)? {
            return Ok(Some(index));
        }
    }
    Ok(None)
}
