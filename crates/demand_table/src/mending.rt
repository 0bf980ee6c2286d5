//! The frames of a replacement, put in the place of the runs of its name.

ghost use Rattle.std.specs.Prelude.{◌≡◌, IfOk, IsSome};
ghost use Rattle.loda_semantics.specs.declared.kinds.Pair.{Pair};
ghost use Rattle.demand_table.specs.Counts.{IsCount};
ghost use Rattle.demand_table.specs.Loaded.{slots_of, slot_of, node_at};
ghost use Rattle.demand_table.specs.Work.{IsCounted};
ghost use Rattle.demand_table.specs.Mending.{IsPlaced, IsMending, IsOut, IsCleared};

use crate::counting::one_more;
use crate::dropping::{lower_all, take};
use crate::entry::{Entry, copied};
use crate::holding::Known;
use crate::known;
use crate::raising::raise_all;
use crate::slot::Slot;
use crate::slots::{load, store};
use crate::standing::stands;
use crate::work::Work;
use loda_semantics::Pair;
use seq_calls::NodeRun;
use std::alloc::{AllocError, Global};

// Takes the run of a pair out, and says how many runs are left.
fn take_out(
    alloc: Global,
    known: &Known<'_>,
    work: &mut Work,
    pair: &Pair,
    pending: &mut Vec<Pair>,
    many: u64,
) -> Result<u64, AllocError>
    requires counted { IsCounted (slots_of known.now.pages.now work.old) }
    requires many { IsCount (λ (p : Pair). IsSome (slots_of known.now.pages.now work.old p).entry) many }
    ensures { IfOk result (λ left. IsOut (slots_of known.now.pages.now work.old) (slots_of known.now.pages.now work.new) pair.now pending.old.items pending.new.items left) }
{
    let Some(entry) = take(alloc, known, work, pair)? else {
        return Ok(many);
    };
    let left = many - 1;
    lower_all(alloc, known, work, entry.calls.list(), pending)?;
    Ok(left)
}

/// Takes the runs of a name out, and says how many runs are left.
pub fn clear(
    alloc: Global,
    known: &Known<'_>,
    work: &mut Work,
    name: u32,
    pending: &mut Vec<Pair>,
    many: u64,
) -> Result<u64, AllocError>
    requires fresh { (q : Pair) → slots_of known.now.pages.now work.old q ≡ slot_of (node_at known.now.pages.now q) }
    requires counted { IsCounted (slots_of known.now.pages.now work.old) }
    requires many { IsCount (λ (p : Pair). IsSome (slots_of known.now.pages.now work.old p).entry) many }
    ensures { IfOk result (λ left. IsCleared (slots_of known.now.pages.now work.old) (slots_of known.now.pages.now work.new) name pending.old.items pending.new.items left) }
{
    let mut left = many;
    if let Some(folder) = known::folder(known, name) {
        for node in folder.nodes.list() {
            let pair = Pair {
                name,
                arg: node.arg,
            };
            left = take_out(alloc, known, work, &pair, pending, left)?;
        }
    }
    Ok(left)
}

// Puts a run in where none stands for its pair, and says whether it did. Its total is not looked at before it is forgotten.
fn put(alloc: Global, known: &Known<'_>, work: &mut Work, run: &NodeRun) -> Result<bool, AllocError>
    ensures { IfOk result (IsPlaced (slots_of known.now.pages.now work.old) (slots_of known.now.pages.now work.new) run.now) }
{
    if stands(known, work, &run.pair) {
        return Ok(false);
    }
    let slot = load(alloc, known, work, &run.pair)?;
    if slot.entry.is_some() {
        store(alloc, known, work, &run.pair, slot)?;
        return Ok(false);
    }
    let entry = Entry {
        value: run.value,
        own: run.own,
        calls: copied(alloc, &run.calls)?,
    };
    let new = Slot {
        callers: slot.callers,
        entry: Some(entry),
        total: Some(0),
    };
    store(alloc, known, work, &run.pair, new)?;
    Ok(true)
}

/// Puts the runs in, and says how many stand then. Their pairs join the pending ones.
pub fn put_all(
    alloc: Global,
    known: &Known<'_>,
    work: &mut Work,
    runs: &[NodeRun],
    pending: &mut Vec<Pair>,
    many: u64,
) -> Result<u64, AllocError>
    requires counted { IsCounted (slots_of known.now.pages.now work.old) }
    requires many { IsCount (λ (p : Pair). IsSome (slots_of known.now.pages.now work.old p).entry) many }
    ensures { IfOk result (λ stand. IsMending (slots_of known.now.pages.now work.old) (slots_of known.now.pages.now work.new) runs.now pending.old.items pending.new.items stand) }
{
    let mut stand = many;
    for run in runs {
        if put(alloc, known, work, run)? {
            raise_all(alloc, known, work, run.calls.list())?;
            stand = one_more(stand)?;
        }
        pending.push(run.pair)?;
    }
    Ok(stand)
}
