//! Every missing job of a desk, decided by its caller alone.

ghost use Rattle.std.specs.Prelude.{◌≡◌, ◌<◌, [], IfOk, OnOk};
ghost use mathlib.Core.List.{IsPrefix};
ghost use Rattle.publish_desk.specs.Desk.{IsFitting, IsKept, history};
ghost use Rattle.publish_desk.specs.History.{IsInOrder, IsMissing};
ghost use Rattle.mine_workers.specs.JobSources.{job_source_of};
ghost use Rattle.mine_workers.specs.Histories.{HasEveryJob, GoesOn, AddsJob, HasAdded};

use crate::accepting::is_accepted;
use crate::gate::Gate;
use crate::source::JobSource;
use evidence::Dossier;
use publish_desk::{Desk, Verdict};
use std::alloc::{AllocError, Global};

// What is found for a job in the present store of a desk.
fn found(alloc: Global, source: &JobSource, desk: &Desk, job: u64) -> Result<Dossier, AllocError>
    requires source { source.now ≡ job_source_of desk.now.charter }
    requires listed { job < desk.now.charter.jobs }
    ensures fits { IfOk result (IsFitting desk.now) }
    ensures job { IfOk result (λ d. d.job ≡ job) }
    ensures base { IfOk result (λ d. d.base ≡ desk.now.version) }
    ensures seen { IfOk result (λ d. d.snapshot.version ≡ desk.now.version) }
{
    // What is kept of each desk: a sound store, and as many jobs as its source has.
    let _ = (desk.version(), desk.jobs());
    let snapshot = desk.snapshot()?;
    let dossier = source.dossier(alloc, &snapshot, job)?;
    Ok(dossier)
}

// Decides a job that has no entry.
fn decide<G: Gate>(
    alloc: Global,
    source: &JobSource,
    desk: &mut Desk,
    job: u64,
    gate: &G,
) -> Result<(), AllocError>
    requires source { source.now ≡ job_source_of desk.old.charter }
    requires listed { job < desk.old.charter.jobs }
    requires missing { IsMissing desk.old.journal job }
    ensures { OnOk result (AddsJob desk.old desk.new job) }
{
    // What is kept of each desk.
    let _ = desk.version();
    let dossier = found(alloc, source, desk, job)?;
    let accepted = is_accepted(dossier.finding());
    gate.before_publish(0, job);
    match desk.publish(dossier) {
        Verdict::Decided { at: _ } => {
            gate.after_publish(0, job, accepted);
            Ok(())
        }
        _ => unreachable!(),
    }
}

// Decides a job, unless it has an entry.
fn decide_missing<G: Gate>(
    alloc: Global,
    source: &JobSource,
    desk: &mut Desk,
    job: u64,
    gate: &G,
) -> Result<(), AllocError>
    requires source { source.now ≡ job_source_of desk.old.charter }
    requires listed { job < desk.old.charter.jobs }
    ensures { OnOk result (HasAdded desk.old desk.new job) }
{
    match desk.place_of(job) {
        Some(_) => Ok(()),
        None => decide(alloc, source, desk, job, gate),
    }
}

/// Decides every job without an entry, in ascending order, as worker 0. Each is proposed for the store as it is then.
pub fn finish<G: Gate>(
    alloc: Global,
    source: &JobSource,
    desk: Desk,
    gate: &G,
) -> Result<Desk, AllocError>
    requires source { source.now ≡ job_source_of desk.charter }
    ensures charter { IfOk result (λ d. d.charter ≡ desk.charter) }
    ensures begins { IfOk result (λ d. IsPrefix desk.journal d.journal) }
    ensures whole { IfOk result HasEveryJob }
    ensures alone { IfOk result (λ d. GoesOn desk.journal d.journal) }
    ensures fresh { desk.journal ≡ [] → IfOk result (λ d. IsInOrder (history d)) }
    ensures kept { IfOk result IsKept }
{
    let mut desk = desk;
    for job in 0..desk.jobs() {
        decide_missing(alloc, source, &mut desk, job, gate)?;
    }
    // What is kept of each desk.
    let _ = desk.version();
    Ok(desk)
}
