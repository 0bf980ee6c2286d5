//! Runs that nobody calls any more.

ghost use Rattle.std.specs.Prelude.{◌≡◌, ◌<◌, ◌≤◌, ◌↔◌, IfOk, OnOk, Contains};
ghost use Rattle.std.specs.declared.option.Option.TheVariants.{None};
ghost use Rattle.loda_semantics.specs.declared.kinds.Pair.{Pair};
ghost use Rattle.demand_table.specs.Loaded.{slots_of, checks_in};
ghost use Rattle.demand_table.specs.Drawn.{HasNoCycle};
ghost use Rattle.demand_table.specs.Work.{IsSet, IsLowered, AreLowered, IsDropping, IsDropped, KeepsTotals, runs_in, without_run};

use crate::checking::Checking;
use crate::checks::is_checked;
use crate::entry::Entry;
use crate::holding::Known;
use crate::slot::Slot;
use crate::slots::{load, store};
use crate::work::Work;
use checked_numbers::Num;
use loda_semantics::Pair;
use std::alloc::{AllocError, Global};
use std::collections::BTreeSet;

// Takes one caller away from a pair, and says how many are left.
fn lower(alloc: Global, known: &Known<'_>, work: &mut Work, pair: &Pair) -> Result<u64, AllocError>
    requires { 0 < (slots_of known.now.pages.now work.old pair.now).callers }
    ensures { IfOk result (λ left. IsLowered (slots_of known.now.pages.now work.old) (slots_of known.now.pages.now work.new) pair.now left) }
{
    let slot = load(alloc, known, work, pair)?;
    let callers = slot.callers - 1;
    let new = Slot {
        callers,
        entry: slot.entry,
        total: slot.total,
    };
    store(alloc, known, work, pair, new)?;
    Ok(callers)
}

// Takes one caller away from each pair on the list, once also where it stands there several times. Those that nobody calls
// any more join the pending ones.
pub fn lower_all(
    alloc: Global,
    known: &Known<'_>,
    work: &mut Work,
    calls: &[Pair],
    pending: &mut Vec<Pair>,
) -> Result<(), AllocError>
    requires { (q : Pair) → Contains calls.now q → 0 < (slots_of known.now.pages.now work.old q).callers }
    ensures { OnOk result (AreLowered (slots_of known.now.pages.now work.old) (slots_of known.now.pages.now work.new) calls.now pending.old.items pending.new.items) }
{
    let mut met: BTreeSet<(u32, Num)> = BTreeSet::new(alloc);
    for call in calls {
        if met.insert((call.name, call.arg))? {
            let left = lower(alloc, known, work, call)?;
            if left == 0 {
                pending.push(*call)?;
            }
        }
    }
    Ok(())
}

// Takes the run of a pair out.
pub fn take(
    alloc: Global,
    known: &Known<'_>,
    work: &mut Work,
    pair: &Pair,
) -> Result<Option<Entry>, AllocError>
    ensures entry { IfOk result (λ entry. entry ≡ (slots_of known.now.pages.now work.old pair.now).entry) }
    ensures gone { OnOk result (IsSet (slots_of known.now.pages.now work.old) (slots_of known.now.pages.now work.new) pair.now (without_run (slots_of known.now.pages.now work.old pair.now))) }
{
    let slot = load(alloc, known, work, pair)?;
    let new = Slot {
        callers: slot.callers,
        entry: None,
        total: None,
    };
    store(alloc, known, work, pair, new)?;
    Ok(slot.entry)
}

// How many runs call a pair.
fn callers(
    alloc: Global,
    known: &Known<'_>,
    work: &mut Work,
    pair: &Pair,
) -> Result<u64, AllocError>
    ensures callers { IfOk result (λ callers. callers ≡ (slots_of known.now.pages.now work.old pair.now).callers) }
    ensures same { OnOk result ((q : Pair) → slots_of known.now.pages.now work.new q ≡ slots_of known.now.pages.now work.old q) }
{
    let slot = load(alloc, known, work, pair)?;
    let callers = slot.callers;
    store(alloc, known, work, pair, slot)?;
    Ok(callers)
}

/// Takes out each run that no other one calls and that isn't checked, until none is left, and says how many stand then.
/// Each of them that there is at first is pending.
pub fn drop_dead(
    alloc: Global,
    known: &Known<'_>,
    work: &mut Work,
    checking: &Checking<'_>,
    mut pending: Vec<Pair>,
    many: u64,
) -> Result<u64, AllocError>
    requires no_cycle { HasNoCycle (runs_in (slots_of known.now.pages.now work.old)) }
    requires dropping { IsDropping (checks_in checking.now) (runs_in (slots_of known.now.pages.now work.old)) (slots_of known.now.pages.now work.old) pending.items many }
    ensures dropped { IfOk result (λ left. IsDropped (checks_in checking.now) (runs_in (slots_of known.now.pages.now work.old)) (slots_of known.now.pages.now work.new) left) }
    ensures totals { OnOk result (KeepsTotals (slots_of known.now.pages.now work.old) (slots_of known.now.pages.now work.new)) }
{
    let mut left = many;
    while let Some(pair) = pending.pop() {
        if is_checked(checking, &pair) {
            continue;
        }
        if callers(alloc, known, work, &pair)? > 0 {
            continue;
        }
        if let Some(entry) = take(alloc, known, work, &pair)? {
            left -= 1;
            lower_all(alloc, known, work, entry.calls.list(), &mut pending)?;
        }
    }
    Ok(left)
}
