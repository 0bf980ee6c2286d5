//! `mine`: the jobs of a seed are decided by workers.

ghost use Rattle.std.specs.Prelude.{◌≡◌, ◌≤◌, ℕ, [], IfOk, Err};
ghost use Rattle.loda_semantics.specs.Limits.{IsStepLimit};
ghost use Rattle.oeis_terms.specs.Table.{IsBounded};
ghost use Rattle.publish_desk.specs.Desk.{IsKept};
ghost use Rattle.publish_desk.specs.declared.charter.Source.TheVariants.{Seeded};
ghost use Rattle.loda_mine.specs.declared.status.Status.{Status as status};
ghost use Rattle.loda_mine.specs.Answer.{IsMined, Refuses, IsOutput, bytes_in};

use crate::files::Contents;
use crate::publishing::report_of;
use crate::status::Status;
use command_words::Task;
use mine_workers::{Gate, run_jobs};
use program_store::MOST_JOBS;
use publish_desk::{Desk, Origin};
use std::alloc::Global;
use std::sync::{Arc, Wait};
use std::thread::Threads;

// A desk on the terms and the store of the files, with jobs of a seed.
fn open_desk(
    alloc: Global,
    contents: Contents,
    limit: u64,
    seed: u64,
    jobs: u64,
) -> Result<Desk, Status>
    requires limit { IsStepLimit limit }
    requires jobs { jobs ≤ MOST_JOBS }
    requires bounded { IsBounded contents.terms }
    ensures charter { IfOk result (λ d. d.charter ≡ record { opening = contents.store; terms = contents.terms; limit = limit; source = Seeded seed; jobs = jobs }) }
    ensures journal { IfOk result (λ d. d.journal ≡ []) }
    ensures kept { IfOk result IsKept }
    ensures refused { (s : status) (workers : ℕ) → result ≡ Err s → Refuses (Task.Mine seed jobs workers) limit contents s }
{
    let terms = Arc::new(alloc, contents.terms)?;
    let origin = Origin::Seeded { seed };
    let desk = Desk::start(alloc, contents.store, terms, limit, origin, jobs)?;
    Ok(desk)
}

// A desk that was opened on what stands in the files, and has an entry for each job.
fn mined<G: Gate, R: Threads + Wait + Sync>(
    rt: &R,
    alloc: Global,
    contents: Contents,
    limit: u64,
    seed: u64,
    jobs: u64,
    workers: u32,
    gate: &G,
) -> Result<Desk, Status>
    requires limit { IsStepLimit limit }
    requires jobs { jobs ≤ MOST_JOBS }
    requires workers { (1 ≤ workers) × (workers ≤ 64) }
    requires bounded { IsBounded contents.terms }
    ensures mined { IfOk result (IsMined contents limit seed jobs workers) }
    ensures refused { (s : status) → result ≡ Err s → Refuses (Task.Mine seed jobs workers) limit contents s }
{
    let opened = open_desk(alloc, contents, limit, seed, jobs)?;
    let desk = run_jobs(rt, alloc, opened, workers, gate)?;
    Ok(desk)
}

/// The report of a journal that has each of so many jobs of a seed once.
pub fn mine<G: Gate, R: Threads + Wait + Sync>(
    rt: &R,
    alloc: Global,
    contents: Contents,
    limit: u64,
    seed: u64,
    jobs: u64,
    workers: u32,
    gate: &G,
) -> Result<Vec<u8>, Status>
    requires limit { IsStepLimit limit }
    requires jobs { jobs ≤ MOST_JOBS }
    requires workers { (1 ≤ workers) × (workers ≤ 64) }
    requires bounded { IsBounded contents.terms }
    ensures { IsOutput (Task.Mine seed jobs workers) limit contents (bytes_in result) }
{
    let desk = mined(rt, alloc, contents, limit, seed, jobs, workers, gate)?;
    let output = report_of(alloc, &desk)?;
    Ok(output)
}
