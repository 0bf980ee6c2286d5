//! Carrying a dossier to a newer snapshot.

ghost use Rattle.std.specs.Prelude.{ℕ, ◌≡◌, ◌≤◌, IfOk, IfSome, IfNone};
ghost use Rattle.seq_calls.specs.Demand.{ample};
ghost use Rattle.judge.specs.Passed.{Terms};
ghost use Rattle.judge.specs.Sound.{Sound};
ghost use Rattle.evidence.specs.Findings.{next_store, AreItsRuns, IsTrueFinding};
ghost use Rattle.carry_over.specs.Stores.{NoneHas};
ghost use Rattle.carry_over.specs.Changed.{changed_names, IsFirstTouched};
ghost use Rattle.carry_over.specs.Carrying.{HaveFitting, IsInReachOf, IsCarried};

use crate::reach::first_touched;
use demand_table::Tables;
use evidence::{Change, Dossier, Finding, Snapshot};
use judge::Answer;
use std::alloc::{AllocError, Global};

/// What carrying came to.
#[derive(Drop)]
pub enum Carried {
    /// The dossier of the newer snapshot.
    Moved(Dossier),
    /// A change touches what the dossier rests on: the place and the name of the first one, and the dossier as it was.
    Touched {
        at: u64,
        name: u32,
        dossier: Dossier,
    },
}

// The first change that touches what a finding rests on.
fn first_change(
    alloc: Global,
    dossier: &Dossier,
    newer: &Snapshot,
    changes: &[Change],
) -> Result<Option<Change>, AllocError>
    ensures some { IfOk result (λ found. IfSome found (IsFirstTouched (IsInReachOf dossier.now.snapshot.store newer.now.store dossier.now.finding) changes.now)) }
    ensures none { IfOk result (λ found. IfNone found (NoneHas (IsInReachOf dossier.now.snapshot.store newer.now.store dossier.now.finding) (changed_names changes.now))) }
{
    match dossier.finding() {
        Finding::Nothing => Ok(None),
        Finding::Judged {
            proposal,
            answer: _,
        } => first_touched(alloc, dossier.snapshot(), newer, proposal, changes),
    }
}

// The tables of a snapshot with the proposal of a dossier put in, where it is accepted in the snapshot's store too, with the
// dossier's finished runs.
fn next_tables(
    alloc: Global,
    dossier: &Dossier,
    newer: &Snapshot,
) -> Result<Option<Tables>, AllocError>
    requires finding { (terms : Terms) × (limit : ℕ) × (limit ≤ ample) × Sound newer.now.store terms limit × IsTrueFinding newer.now.store terms limit dossier.now.finding }
    requires runs { AreItsRuns newer.now.store dossier.now.finding dossier.now.runs }
    ensures { IfOk result (λ next. next ≡ next_store newer.now.store dossier.now.finding) }
{
    // What is kept of each dossier: what was judged has a name and a well-formed program.
    let runs = dossier.runs();
    match dossier.finding() {
        Finding::Nothing => Ok(None),
        Finding::Judged { proposal, answer } => match answer {
            Answer::Accepted { checked } => {
                let tables = newer.tables().replaced(alloc, proposal, *checked, runs)?;
                Ok(Some(tables))
            }
            _ => Ok(None),
        },
    }
}

/// Carries a dossier to a newer snapshot, where none of the entries accepted since touches what it rests on. Nothing is run:
/// no terms are needed, and no limit of steps.
///
/// # Errors
///
/// There is no memory. The dossier is then dropped.
pub fn carry(
    alloc: Global,
    dossier: Dossier,
    newer: &Snapshot,
    changes: &[Change],
) -> Result<Carried, AllocError>
    requires fitting { HaveFitting dossier.snapshot.store newer.now.store changes.now dossier.finding }
    ensures { IfOk result (IsCarried dossier newer.now changes.now) }
{
    match first_change(alloc, &dossier, newer, changes)? {
        Some(change) => Ok(Carried::Touched {
            at: change.at,
            name: change.name,
            dossier,
        }),
        None => {
            let next = next_tables(alloc, &dossier, newer)?;
            Ok(Carried::Moved(dossier.moved(newer.share()?, next)))
        }
    }
}
