//! More callers.

ghost use Rattle.std.specs.Prelude.{◌≡◌, ◌+◌, OnOk};
ghost use Rattle.demand_table.specs.Loaded.{slots_of};
ghost use Rattle.demand_table.specs.Work.{IsSet, AreRaised, with_callers};

use crate::counting::one_more;
use crate::holding::Known;
use crate::slot::Slot;
use crate::slots::{load, store};
use crate::work::Work;
use checked_numbers::Num;
use loda_semantics::Pair;
use std::alloc::{AllocError, Global};
use std::collections::BTreeSet;

// Adds one caller to a pair.
fn raise(alloc: Global, known: &Known<'_>, work: &mut Work, pair: &Pair) -> Result<(), AllocError>
    ensures { OnOk result (IsSet (slots_of known.now.pages.now work.old) (slots_of known.now.pages.now work.new) pair.now (with_callers (slots_of known.now.pages.now work.old pair.now) ((slots_of known.now.pages.now work.old pair.now).callers + 1))) }
{
    let slot = load(alloc, known, work, pair)?;
    let callers = one_more(slot.callers)?;
    let new = Slot {
        callers,
        entry: slot.entry,
        total: slot.total,
    };
    store(alloc, known, work, pair, new)?;
    Ok(())
}

/// Adds one caller to each pair on the list, once also where it stands there several times.
pub fn raise_all(
    alloc: Global,
    known: &Known<'_>,
    work: &mut Work,
    calls: &[Pair],
) -> Result<(), AllocError>
    ensures { OnOk result (AreRaised (slots_of known.now.pages.now work.old) (slots_of known.now.pages.now work.new) calls.now) }
{
    if let [call] = calls {
        return raise(alloc, known, work, call);
    }
    let mut met: BTreeSet<(u32, Num)> = BTreeSet::new(alloc);
    for call in calls {
        if met.insert((call.name, call.arg))? {
            raise(alloc, known, work, call)?;
        }
    }
    Ok(())
}
