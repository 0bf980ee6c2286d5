//! What changes for the checked runs of published programs.

ghost use Rattle.std.specs.Prelude.{◌≡◌, ◌+◌, ◌<◌, ◌↔◌, IfOk, IsTrue};
ghost use Rattle.program_store.specs.Store.{IsStore, checked_at};
ghost use Rattle.judge.specs.Changes.{AreAllChanges, AreChangesBefore, AreChangesUpTo, IsSoundStore, MayRely, first_run, next_run};

use crate::comparing::{Changed, Changes, CheckedRun, both_runs};
use call_graph::first_through;
use checked_numbers::number_of;
use program_store::{Proposal, View};
use seq_calls::{NodeRun, evaluate_alone};
use std::alloc::{AllocError, Global};

// The changes after the runs of the proposed name among the frames of a checked run. Its last frame is the run itself,
// which relies on its argument where it is a run of that name.
fn after_frames<V: View>(
    alloc: Global,
    view: &V,
    proposal: &Proposal,
    limit: u64,
    by: CheckedRun,
    frames: &[NodeRun],
    mut changes: Changes,
) -> Result<Changes, AllocError>
    requires { AreChangesBefore (V.store view.now) limit proposal.now by changes }
    ensures { IfOk result (AreChangesUpTo (V.store view.now) limit proposal.now by frames.now) }
{
    for frame in frames {
        if frame.pair.name != proposal.name {
            continue;
        }
        let at = frame.pair.arg;
        let runs = both_runs(alloc, view, proposal, limit, at)?;
        changes = changes.with(&Changed { at, by, runs });
    }
    Ok(changes)
}

// The changes after one more checked run.
fn after_run<V: View>(
    alloc: Global,
    view: &V,
    proposal: &Proposal,
    limit: u64,
    by: CheckedRun,
    changes: Changes,
) -> Result<Changes, AllocError>
    requires sound { IsSoundStore (V.store view.now) limit }
    requires checked { by.index < checked_at (V.store view.now) by.name }
    requires changes { AreChangesBefore (V.store view.now) limit proposal.now by changes }
    ensures { IfOk result (AreChangesBefore (V.store view.now) limit proposal.now (next_run by)) }
{
    let run = evaluate_alone(alloc, view, by.name, number_of(by.index), limit)?;
    let frames = run.nodes.list();
    after_frames(alloc, view, proposal, limit, by, frames, changes)
}

/// At how many arguments the program of a name is checked: none where it is not published.
pub fn checked_count<V: View>(view: &V, name: u32) -> u32
    ensures { result ≡ checked_at (V.store view.now) name }
{
    match view.published(name) {
        Some(published) => published.checked,
        None => 0,
    }
}

// Whether runs of a name may rely on another one: it is that name, or a call of its program reaches it.
fn may_rely<V: View>(alloc: Global, view: &V, name: u32, on: u32) -> Result<bool, AllocError>
    ensures { IfOk result (λ may. IsTrue may ↔ MayRely (V.store view.now) on name) }
{
    if name == on {
        return Ok(true);
    }
    match view.published(name) {
        Some(published) => {
            let first = first_through(alloc, view, &published.program, on)?;
            Ok(first.is_some())
        }
        None => Ok(false),
    }
}

// The changes after the checked runs of one more name. They aren't run where none of them can rely on the proposed one.
fn after_name<V: View>(
    alloc: Global,
    view: &V,
    proposal: &Proposal,
    limit: u64,
    name: u32,
    mut changes: Changes,
) -> Result<Changes, AllocError>
    requires sound { IsSoundStore (V.store view.now) limit }
    requires changes { AreChangesBefore (V.store view.now) limit proposal.now (first_run name) changes }
    ensures { IfOk result (AreChangesBefore (V.store view.now) limit proposal.now (first_run (name + 1))) }
{
    if !may_rely(alloc, view, name, proposal.name)? {
        return Ok(changes);
    }
    let count = checked_count(view, name);
    for index in 0..count {
        let by = CheckedRun { name, index };
        changes = after_run(alloc, view, proposal, limit, by, changes)?;
    }
    Ok(changes)
}

/// The least changes at the arguments that are relied on, with the first checked runs that rely on them.
pub fn changes_of<V: View>(
    alloc: Global,
    view: &V,
    proposal: &Proposal,
    limit: u64,
) -> Result<Changes, AllocError>
    requires sound { IsSoundStore (V.store view.now) limit }
    requires store { IsStore (V.store view.now) }
    ensures { IfOk result (AreAllChanges (V.store view.now) limit proposal.now) }
{
    let mut changes = Changes {
        other_value: None,
        more_steps: None,
    };
    let mut last = 0;
    while let Some(name) = view.next_name(last) {
        changes = after_name(alloc, view, proposal, limit, name, changes)?;
        last = name;
    }
    Ok(changes)
}
