//! Reading and writing slots.

ghost use Rattle.std.specs.Prelude.{◌≡◌, ◌<◌, ◌∷◌, [], IfOk, OnOk};
ghost use Rattle.std.specs.Option.{option_copied};
ghost use Rattle.std.specs.declared.option.Option.TheVariants.{Some};
ghost use Rattle.loda_semantics.specs.declared.kinds.Pair.{Pair};
ghost use Rattle.demand_table.specs.Loaded.{slots_of, touched_in, slot_of, node_at};
ghost use Rattle.demand_table.specs.Work.{IsSet};

use crate::holding::Known;
use crate::known;
use crate::slot::Slot;
use crate::work::Work;
use checked_numbers::Num;
use loda_semantics::Pair;
use std::alloc::{AllocError, Global};
use std::collections::BTreeMap;
use std::mem::replace;

/// The slot of a pair, where it was touched.
pub fn touched<'w>(work: &'w Work, pair: &Pair) -> Option<&'w Slot>
    ensures { option_copied result ≡ touched_in work.now pair.now }
{
    work.touched.get(&pair.name)?.get(&pair.arg)
}

// Takes the slot of a pair, where it was touched, and leaves a blank one in its place.
fn take_touched(work: &mut Work, pair: &Pair) -> Option<Slot>
    ensures taken { result ≡ touched_in work.old pair.now }
    ensures others { (q : Pair) → (q ≡ pair.now → ⊥) → touched_in work.new q ≡ touched_in work.old q }
{
    match work.touched.get_mut(&pair.name) {
        Some(slots) => match slots.get_mut(&pair.arg) {
            Some(slot) => Some(replace(slot, Slot::blank())),
            None => None,
        },
        None => None,
    }
}

// The slot of a pair as the old table has it.
fn old_slot(alloc: Global, known: &Known<'_>, pair: &Pair) -> Result<Slot, AllocError>
    ensures { IfOk result (λ slot. slot ≡ slot_of (node_at known.now.pages.now pair.now)) }
{
    match known::node(known, pair) {
        Some(node) => known::slot(alloc, node),
        None => Ok(Slot::blank()),
    }
}

/// The slot of a pair, which has to be stored again.
pub fn load(
    alloc: Global,
    known: &Known<'_>,
    work: &mut Work,
    pair: &Pair,
) -> Result<Slot, AllocError>
    ensures slot { IfOk result (λ slot. slot ≡ slots_of known.now.pages.now work.old pair.now) }
    ensures others { OnOk result ((q : Pair) → (q ≡ pair.now → ⊥) → slots_of known.now.pages.now work.new q ≡ slots_of known.now.pages.now work.old q) }
{
    match take_touched(work, pair) {
        Some(slot) => Ok(slot),
        None => old_slot(alloc, known, pair),
    }
}

// The slots of a name of which this one was touched.
fn one_slot(alloc: Global, arg: Num, slot: Slot) -> Result<BTreeMap<Num, Slot>, AllocError>
    ensures { IfOk result (λ slots. slots.entries ≡ (arg, slot) ∷ []) }
{
    let mut slots = BTreeMap::new(alloc);
    slots.insert(arg, slot)?;
    Ok(slots)
}

/// Stores the slot of a pair.
pub fn store(
    alloc: Global,
    known: &Known<'_>,
    work: &mut Work,
    pair: &Pair,
    slot: Slot,
) -> Result<(), AllocError>
    ensures { OnOk result (IsSet (slots_of known.now.pages.now work.old) (slots_of known.now.pages.now work.new) pair.now slot) }
{
    if let Some(slots) = work.touched.get_mut(&pair.name) {
        slots.insert(pair.arg, slot)?;
        return Ok(());
    }
    let slots = one_slot(alloc, pair.arg, slot)?;
    work.touched.insert(pair.name, slots)?;
    Ok(())
}
