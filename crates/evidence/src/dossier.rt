//! What was found for a job, with all that publishing it needs.

ghost use Rattle.std.specs.Prelude.{◌≡◌};
ghost use Rattle.evidence.specs.Findings.{next_store, AreItsRuns, IsTrueForSome};
ghost use Rattle.evidence.specs.Dossiers.{IsDossierKept, moved_to};

use crate::finding::Finding;
use crate::snapshot::Snapshot;
use demand_table::Tables;
use seq_calls::{Frames, NodeRun};
use std::marker::Model;

/// What was found for a job in the store of a snapshot, and where a proposal was accepted its finished runs and the tables
/// with it put in.
#[derive(Drop)]
pub struct Dossier {
    snapshot: Snapshot,
    job: u64,
    base: u64,
    finding: Finding,
    runs: Frames,
    next: Option<Tables>,
}

impl Model for Dossier {
    ghost use Rattle.evidence.specs.Dossiers as spec;
    ghost use Rattle.std.specs.Prelude.{◌≡◌};
    ghost use Rattle.evidence.specs.Findings.{next_store};
    ghost use Rattle.std.specs.FinMap as map;
    ghost use Rattle.std.specs.Ordering.{nat_cmp};
    ghost use Rattle.std.specs.Coded.{codes, coded_ℕ};
    ghost use Rattle.program_store.specs.contracts.published.Published as published;

    ghost Value = { spec.Dossier };

    ghost coded = { Prim.hlevel (codes, map.code {R = nat_cmp} coded_ℕ published.the_row.coded) };

    ghost view = { λ d. record { snapshot = d.snapshot; job = d.job; base = d.base; finding = d.finding; runs = d.runs } };

    ghost invariant = { λ d.
        spec.IsDossierKept (record { snapshot = d.snapshot; job = d.job; base = d.base; finding = d.finding; runs = d.runs })
        × (d.next ≡ next_store d.snapshot.store d.finding) };
}

/// What a dossier is made of, besides its snapshot and its finished runs.
#[derive(Drop)]
pub struct Parts {
    pub job: u64,
    pub base: u64,
    pub finding: Finding,
    /// The tables with the proposal put in, where it was accepted.
    pub next: Option<Tables>,
}

impl Dossier {
    /// The job's number.
    pub fn job(&self) -> u64
        ensures { result ≡ self.now.job }
    {
        self.job
    }

    /// The version of the store for which the proposal was made.
    pub fn base(&self) -> u64
        ensures { result ≡ self.now.base }
    {
        self.base
    }

    /// The version of the store in which the finding is true.
    pub fn seen(&self) -> u64
        ensures { result ≡ self.now.snapshot.version }
    {
        self.snapshot.version()
    }

    pub fn finding(&self) -> &Finding
        ensures { result.now ≡ self.now.finding }
    {
        &self.finding
    }

    pub fn snapshot(&self) -> &Snapshot
        ensures { result.now ≡ self.now.snapshot }
    {
        &self.snapshot
    }

    /// The finished runs of an accepted proposal, and else none.
    pub fn runs(&self) -> &[NodeRun]
        ensures value { result.now ≡ self.now.runs }
        ensures kept { IsDossierKept self.now }
    {
        self.runs.list()
    }

    /// Takes it apart.
    pub fn into_parts(self) -> Parts
        ensures job { result.job ≡ self.job }
        ensures base { result.base ≡ self.base }
        ensures finding { result.finding ≡ self.finding }
        ensures next { result.next ≡ next_store self.snapshot.store self.finding }
    {
        let Dossier {
            snapshot: _,
            job,
            base,
            finding,
            runs: _,
            next,
        } = self;
        Parts {
            job,
            base,
            finding,
            next,
        }
    }

    /// A dossier of these parts.
    pub fn of(
        snapshot: Snapshot,
        job: u64,
        finding: Finding,
        runs: Frames,
        next: Option<Tables>,
    ) -> Dossier
        requires kept { IsDossierKept (record { snapshot = snapshot; job = job; base = snapshot.version; finding = finding; runs = runs }) }
        requires next { next ≡ next_store snapshot.store finding }
        ensures { result ≡ record { snapshot = snapshot; job = job; base = snapshot.version; finding = finding; runs = runs } }
    {
        let base = snapshot.version();
        Dossier {
            snapshot,
            job,
            base,
            finding,
            runs,
            next,
        }
    }

    /// The dossier of another snapshot, in whose store its finding is true and its finished runs are those of the finding. The
    /// tables of that store with the proposal put in are handed in where it was accepted.
    pub fn moved(self, snapshot: Snapshot, next: Option<Tables>) -> Dossier
        requires finding { IsTrueForSome snapshot.store self.finding }
        requires runs { AreItsRuns snapshot.store self.finding self.runs }
        requires next { next ≡ next_store snapshot.store self.finding }
        ensures { result ≡ moved_to self snapshot }
    {
        let base = self.base;
        Dossier {
            snapshot,
            job: self.job,
            base,
            finding: self.finding,
            runs: self.runs,
            next,
        }
    }
}
