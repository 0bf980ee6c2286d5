//! What a worker publishes for a job: what is found in the present store, or carried there after Again.

ghost use Rattle.std.specs.Prelude.{◌≡◌, ◌<◌, IfOk, false, reverse};
ghost use Rattle.judge.specs.Sound.{Sound};
ghost use Rattle.carry_over.specs.Carrying.{IsCarried};
ghost use Rattle.publish_desk.specs.Desk.{IsChartered, terms_of};
ghost use Rattle.publish_desk.specs.History.{changes_after};
ghost use Rattle.mine_workers.specs.JobSources.{job_source_of};
ghost use Rattle.mine_workers.specs.Publishable.{IsPublishable, IfMoved};
ghost use Rattle.mine_workers.specs.Shared.{IsSeatOf, desk_of, snapshot_of};

use crate::held::Held;
use crate::news::News;
use crate::shared::SharedStore;
use crate::source::JobSource;
use carry_over::{Carried, carry};
use evidence::{Dossier, Snapshot};
use std::alloc::{AllocError, Global};
use std::sync::Wait;
use turnstile::Seat;

/// What is found for a job in the present store.
pub fn found<R: Wait>(
    rt: &R,
    alloc: Global,
    source: &JobSource,
    store: &SharedStore,
    seat: &mut Seat<Held>,
    job: u64,
) -> Result<Dossier, AllocError>
    requires source { (source.now ≡ job_source_of store.now.fixed) × IsChartered store.now.fixed }
    requires seat { IsSeatOf store.now seat.old × (seat.old.known.turn ≡ false) }
    requires job { job < store.now.fixed.jobs }
    ensures seat { IsSeatOf store.now seat.new × (seat.new.known.turn ≡ false) }
    ensures job { IfOk result (λ d. d.job ≡ job) }
    ensures publishable { IfOk result (IsPublishable store.now.fixed seat.new.known.seen) }
{
    let snapshot = store.look(rt, seat)?;
    let dossier = source.dossier(alloc, &snapshot, job)?;
    Ok(dossier)
}

/// After Again: the present store, and what carrying the late dossier there comes to.
pub fn carried<R: Wait>(
    rt: &R,
    alloc: Global,
    store: &SharedStore,
    seat: &mut Seat<Held>,
    late: Dossier,
) -> Result<(Snapshot, Carried), AllocError>
    requires chartered { IsChartered store.now.fixed }
    requires seat { IsSeatOf store.now seat.old × (seat.old.known.turn ≡ false) }
    requires late { IsPublishable store.now.fixed seat.old.known.seen late }
    ensures seat { IsSeatOf store.now seat.new × (seat.new.known.turn ≡ false) }
    ensures shown { IfOk result (λ r. r.0 ≡ snapshot_of (desk_of store.now.fixed seat.new.known.seen)) }
    ensures sound { IfOk result (λ r. Sound r.0.store (terms_of store.now.fixed) store.now.fixed.limit) }
    ensures came { IfOk result (λ r. IsCarried late r.0 (changes_after late.snapshot.version (reverse seat.new.known.seen)) r.1) }
    ensures publishable { IfOk result (λ r. IfMoved (IsPublishable store.now.fixed seat.new.known.seen) r.1) }
{
    let News { snapshot, changes } = store.news(rt, alloc, seat, late.seen())?;
    let result = carry(alloc, late, &snapshot, changes.list())?;
    Ok((snapshot, result))
}

/// After Again: the late dossier in the present store, where it can be carried there, or else what is found there for its job.
pub fn renewed<R: Wait>(
    rt: &R,
    alloc: Global,
    source: &JobSource,
    store: &SharedStore,
    seat: &mut Seat<Held>,
    late: Dossier,
) -> Result<Dossier, AllocError>
    requires source { (source.now ≡ job_source_of store.now.fixed) × IsChartered store.now.fixed }
    requires seat { IsSeatOf store.now seat.old × (seat.old.known.turn ≡ false) }
    requires late { IsPublishable store.now.fixed seat.old.known.seen late }
    ensures seat { IsSeatOf store.now seat.new × (seat.new.known.turn ≡ false) }
    ensures job { IfOk result (λ d. d.job ≡ late.job) }
    ensures publishable { IfOk result (IsPublishable store.now.fixed seat.new.known.seen) }
{
    let job = late.job();
    let (snapshot, result) = carried(rt, alloc, store, seat, late)?;
    match result {
        Carried::Moved(moved) => Ok(moved),
        Carried::Touched {
            at: _,
            name: _,
            dossier: _,
        } => {
            let dossier = source.dossier(alloc, &snapshot, job)?;
            Ok(dossier)
        }
    }
}
