//! Workers that take jobs from a queue and publish as they come.

ghost use Rattle.std.specs.Prelude.{◌≡◌, ◌≤◌, ◌<◌, All, IfOk, OnOk, false};
ghost use mathlib.Core.List.{IsPrefix};
ghost use Rattle.turnstile.specs.Seats.{newcomer};
ghost use Rattle.publish_desk.specs.Desk.{IsChartered};
ghost use Rattle.mine_workers.specs.JobSources.{job_source_of};
ghost use Rattle.mine_workers.specs.Posts.{IsPost};
ghost use Rattle.mine_workers.specs.Shared.{IsSeatOf};

use crate::accepting::is_accepted;
use crate::gate::Gate;
use crate::held::Held;
use crate::renewing::{found, renewed};
use crate::shared::SharedStore;
use crate::source::JobSource;
use crossbeam_deque::{Injector, Steal};
use publish_desk::{Desk, Verdict};
use std::alloc::{AllocError, Global};
use std::sync::Wait;
use std::thread;
use std::thread::Threads;
use turnstile::Seat;

// What a worker begins with: its number, from 1, the store, and a seat of it.
#[derive(Drop)]
struct Post<'a> {
    worker: u32,
    alloc: Global,
    store: &'a SharedStore,
    seat: Seat<Held>,
}

// The jobs that have no entry.
fn missing_jobs<R: Wait>(rt: &R, alloc: Global, desk: &Desk) -> Result<Injector<u64>, AllocError> {
    let queue = Injector::new(alloc)?;
    for job in 0..desk.jobs() {
        if desk.place_of(job).is_none() && queue.push(rt, job).is_err() {
            return Err(AllocError);
        }
    }
    Ok(queue)
}

// A store of a desk, with one seat.
fn open(alloc: Global, desk: Desk) -> Result<(SharedStore, Seat<Held>), AllocError>
    ensures charter { IfOk result (λ r. r.0.fixed ≡ desk.charter) }
    ensures seat { IfOk result (λ r. IsSeatOf r.0 r.1 × (r.1.known ≡ newcomer desk.journal)) }
{
    let (store, mut seats) = SharedStore::make(alloc, desk, 1)?;
    match seats.pop() {
        Some(seat) => Ok((store, seat)),
        None => unreachable!(),
    }
}

// A post for each worker.
fn posts<'a>(
    alloc: Global,
    source: &JobSource,
    jobs: u64,
    store: &'a SharedStore,
    workers: u32,
    mine: &mut Seat<Held>,
) -> Result<Vec<Post<'a>>, AllocError>
    requires source { (source.now ≡ job_source_of store.now.fixed) × IsChartered store.now.fixed }
    requires jobs { jobs ≡ store.now.fixed.jobs }
    requires mine { IsSeatOf store.now mine.old × (mine.old.known.turn ≡ false) }
    ensures mine { IsSeatOf store.now mine.new × (mine.new.known ≡ mine.old.known) }
    ensures posts { IfOk result (λ v. All (IsPost source.now jobs) v.items) }
{
    let mut all = Vec::with_capacity(alloc, workers as usize)?;
    for worker in 0..workers {
        let seat = store.split(mine);
        all.push(Post {
            worker: worker + 1,
            alloc,
            store,
            seat,
        })?;
    }
    Ok(all)
}

/// Publishes for a job, or finds that it is done. After Again the dossier is carried on, or all is found anew.
pub fn perform<G: Gate, R: Wait>(
    rt: &R,
    alloc: Global,
    source: &JobSource,
    store: &SharedStore,
    gate: &G,
    worker: u32,
    seat: &mut Seat<Held>,
    job: u64,
) -> Result<(), AllocError>
    requires source { (source.now ≡ job_source_of store.now.fixed) × IsChartered store.now.fixed }
    requires seat { IsSeatOf store.now seat.old × (seat.old.known.turn ≡ false) }
    requires job { job < store.now.fixed.jobs }
    ensures { IsSeatOf store.now seat.new × (seat.new.known.turn ≡ false) }
{
    let mut dossier = found(rt, alloc, source, store, seat, job)?;
    for _ in rt.forever() {
        let accepted = is_accepted(dossier.finding());
        gate.before_publish(worker, job);
        match store.publish(rt, seat, dossier) {
            Verdict::Decided { at: _ } => {
                gate.after_publish(worker, job, accepted);
                return Ok(());
            }
            Verdict::AlreadyDone { at: _, dossier: _ } => return Ok(()),
            Verdict::Again {
                version: _,
                first: _,
                name: _,
                dossier: late,
            } => {
                dossier = renewed(rt, alloc, source, store, seat, late)?;
            }
        }
    }
    unreachable!()
}

// Takes jobs until there are none, or no memory.
fn work<G: Gate, R: Wait>(
    rt: &R,
    source: &JobSource,
    queue: &Injector<u64>,
    gate: &G,
    jobs: u64,
    post: Post<'_>,
)
    requires { IsPost source.now jobs post }
{
    let Post {
        worker,
        alloc,
        store,
        mut seat,
    } = post;
    for _ in rt.forever() {
        match queue.steal(rt) {
            Steal::Success(job) => {
                if job < jobs
                    && perform(rt, alloc, source, store, gate, worker, &mut seat, job).is_err()
                {
                    return;
                }
            }
            Steal::Empty => return,
            Steal::Retry => {}
        }
    }
    unreachable!()
}

/// Lets workers, from 1 on, do the jobs that have no entry. A job stays without one where a worker had no memory.
pub fn work_together<G: Gate, R: Threads + Wait + Sync>(
    rt: &R,
    alloc: Global,
    source: &JobSource,
    desk: Desk,
    workers: u32,
    gate: &G,
) -> Result<Desk, AllocError>
    requires source { source.now ≡ job_source_of desk.charter }
    ensures charter { IfOk result (λ d. d.charter ≡ desk.charter) }
    ensures begins { IfOk result (λ d. IsPrefix desk.journal d.journal) }
{
    let jobs = desk.jobs();
    let queue = missing_jobs(rt, alloc, &desk)?;
    let (store, mut mine) = open(alloc, desk)?;
    let all = posts(alloc, source, jobs, &store, workers, &mut mine)?;
    let waiting = &queue;
    thread::map_vec(
        rt,
        all,
        &|post: Post<'_>|
            requires { IsPost source.now jobs post }
        { work(rt, source, waiting, gate, jobs, post) },
    )?;
    Ok(store.close(rt, mine))
}
