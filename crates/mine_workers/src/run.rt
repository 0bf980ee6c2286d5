//! Every job of a desk, done by as many workers as are wanted.

ghost use Rattle.std.specs.Prelude.{◌≡◌, ◌≤◌, [], IfOk};
ghost use mathlib.Core.List.{IsPrefix};
ghost use Rattle.publish_desk.specs.Desk.{IsKept, history};
ghost use Rattle.publish_desk.specs.History.{IsInOrder};
ghost use Rattle.mine_workers.specs.Histories.{HasEveryJob, GoesOn};

use crate::alone::finish;
use crate::gate::Gate;
use crate::source::JobSource;
use crate::working::work_together;
use publish_desk::Desk;
use std::alloc::{AllocError, Global};
use std::sync::Wait;
use std::thread::Threads;

/// Does every job without an entry, by 1 to 64 workers. One worker is the caller itself, as number 0.
///
/// # Errors
///
/// There is no memory. The desk is then dropped.
pub fn run_jobs<G: Gate, R: Threads + Wait + Sync>(
    rt: &R,
    alloc: Global,
    desk: Desk,
    workers: u32,
    gate: &G,
) -> Result<Desk, AllocError>
    requires workers { (1 ≤ workers) × (workers ≤ 64) }
    ensures charter { IfOk result (λ d. d.charter ≡ desk.charter) }
    ensures begins { IfOk result (λ d. IsPrefix desk.journal d.journal) }
    ensures whole { IfOk result HasEveryJob }
    ensures kept { IfOk result IsKept }
    ensures alone { workers ≡ 1 → IfOk result (λ d. GoesOn desk.journal d.journal) }
    ensures fresh { workers ≡ 1 → desk.journal ≡ [] → IfOk result (λ d. IsInOrder (history d)) }
{
    let source = JobSource::of(alloc, &desk)?;
    if workers == 1 {
        return finish(alloc, &source, desk, gate);
    }
    let begun = work_together(rt, alloc, &source, desk, workers, gate)?;
    finish(alloc, &source, begun, gate)
}
