//! Totals that may have changed.

ghost use Rattle.std.specs.Prelude.{◌≡◌, ℕ, IfOk, OnOk, IsSome, Contains, take};
ghost use Rattle.loda_semantics.specs.declared.kinds.Pair.{Pair};
ghost use Rattle.demand_table.specs.Loaded.{slots_of, node_at};
ghost use Rattle.demand_table.specs.Settling.{IsUnsettled};
ghost use Rattle.demand_table.specs.Mended.{run_at};
ghost use Rattle.demand_table.specs.Mending.{IsForgot, IsForgetting};

use crate::counting::one_more;
use crate::holding::Known;
use crate::known;
use crate::slot::Slot;
use crate::slots::{load, store};
use crate::work::Work;
use loda_semantics::Pair;
use seq_calls::NodeRun;
use std::alloc::{AllocError, Global};

// Forgets the total of a pair that has a run, and says whether it was known.
fn forget(
    alloc: Global,
    known: &Known<'_>,
    work: &mut Work,
    pair: &Pair,
) -> Result<bool, AllocError>
    ensures { IfOk result (IsForgot (slots_of known.now.pages.now work.old) (slots_of known.now.pages.now work.new) pair.now) }
{
    let slot = load(alloc, known, work, pair)?;
    if slot.entry.is_none() || slot.total.is_none() {
        store(alloc, known, work, pair, slot)?;
        return Ok(false);
    }
    let new = Slot {
        callers: slot.callers,
        entry: slot.entry,
        total: None,
    };
    store(alloc, known, work, pair, new)?;
    Ok(true)
}

/// Forgets the totals of the pairs that have runs, and says how many they are. They join the unsettled ones.
pub fn forget_all(
    alloc: Global,
    known: &Known<'_>,
    work: &mut Work,
    pairs: &[Pair],
    unsettled: &mut Vec<Pair>,
) -> Result<u64, AllocError>
    requires settled { (p : Pair) → IsUnsettled (slots_of known.now.pages.now work.old) p → ⊥ }
    requires none { (p : Pair) → Contains unsettled.old.items p → ⊥ }
    ensures { IfOk result (λ many. IsForgetting (slots_of known.now.pages.now work.old) (slots_of known.now.pages.now work.new) pairs.now unsettled.new.items many) }
{
    let mut many = 0;
    for pair in pairs {
        if forget(alloc, known, work, pair)? {
            unsettled.push(*pair)?;
            many = one_more(many)?;
        }
    }
    Ok(many)
}

/// The pairs of the frames, and those of the nodes of these names.
pub fn candidates(
    alloc: Global,
    known: &Known<'_>,
    names: &[u32],
    runs: &[NodeRun],
) -> Result<Vec<Pair>, AllocError>
    ensures frames { IfOk result (λ pairs. (p : Pair) → IsSome (run_at runs.now p) → Contains pairs.items p) }
    ensures named { IfOk result (λ pairs. (p : Pair) → Contains names.now p.name → IsSome (node_at known.now.pages.now p) → Contains pairs.items p) }
{
    let mut pairs = Vec::new(alloc);
    for run in runs {
        pairs.push(run.pair)?;
    }
    for name in names {
        add_nodes(known, *name, &mut pairs)?;
    }
    Ok(pairs)
}

// The pairs of the nodes of a name join the others.
fn add_nodes(known: &Known<'_>, name: u32, pairs: &mut Vec<Pair>) -> Result<(), AllocError>
    ensures kept { OnOk result ((p : Pair) → Contains pairs.old.items p → Contains pairs.new.items p) }
    ensures nodes { OnOk result ((p : Pair) → p.name ≡ name → IsSome (node_at known.now.pages.now p) → Contains pairs.new.items p) }
{
    if let Some(folder) = known::folder(known, name) {
        for node in folder.nodes.list() {
            pairs.push(Pair {
                name,
                arg: node.arg,
            })?;
        }
    }
    Ok(())
}
