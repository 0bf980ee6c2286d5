//! What the dossiers of jobs are made of.

ghost use Rattle.std.specs.Prelude.{◌≡◌, ◌<◌, IfOk};
ghost use Rattle.oeis_terms.specs.Table.{row_of, IsBounded};
ghost use Rattle.judge.specs.Sound.{Sound};
ghost use Rattle.evidence.specs.Findings.{IsTrueFinding};
ghost use Rattle.publish_desk.specs.Source.{source_of};
ghost use Rattle.publish_desk.specs.Desk.{IsFrom};
ghost use Rattle.publish_desk.specs.History.{proposal_of};
ghost use Rattle.mine_workers.specs.JobSources.{job_source_of, HasJob};
ghost use Rattle.mine_workers.specs.Supplies.{source_in, IsIndexed};

use crate::choosing::{of_list, of_proposal};
use evidence::{Dossier, Snapshot};
use oeis_terms::TermTable;
use program_store::Candidates;
use proposer::shortlist;
use publish_desk::{Desk, Origin};
use seq_calls::Steps;
use std::alloc::{AllocError, Global};
use std::marker::{Brand, Model};
use std::sync::Arc;
use std::sync::ledger::{Blank, Ledger};
use term_index::Index;

// What proposals are made of: of a seed with the index of the terms.
#[derive(Drop)]
pub(crate) enum Supply {
    Listed(Arc<Candidates>),
    Seeded { seed: u64, index: Index },
}

/// What the dossiers of jobs are made of: the terms, the step limit of a run, and what proposals are made of. The terms are
/// indexed where jobs are seeded.
#[derive(Drop)]
pub struct JobSource {
    terms: Arc<TermTable>,
    limit: u64,
    supply: Supply,
}

impl Model for JobSource {
    ghost use Rattle.std.specs.Arc.{arc_value};
    ghost use Rattle.oeis_terms.specs.Table as table;
    ghost use Rattle.mine_workers.specs.JobSources as spec;
    ghost use Rattle.mine_workers.specs.Supplies as supplies;

    ghost Value = { spec.JobSource };

    ghost view = { λ s. record { terms = arc_value s.terms; limit = s.limit; source = supplies.source_in s.supply } };

    ghost invariant = { λ s. table.IsBounded (arc_value s.terms) × supplies.IsIndexed s.supply (arc_value s.terms) };
}

impl JobSource {
    /// That of a desk. Where its jobs are seeded the terms are indexed here.
    pub fn of(alloc: Global, desk: &Desk) -> Result<JobSource, AllocError>
        ensures { IfOk result (λ s. s ≡ job_source_of desk.now.charter) }
    {
        // What is kept of each desk: bounded terms.
        let _ = desk.jobs();
        let supply = supply_of(alloc, desk.origin(), desk.terms())?;
        let terms = Arc::try_clone(desk.terms())?;
        Ok(JobSource {
            terms,
            limit: desk.limit(),
            supply,
        })
    }

    /// What is found for a job in the store of a snapshot. For a seeded job the proposals of its shortlist are gathered in
    /// order until one is accepted.
    pub fn dossier(
        &self,
        alloc: Global,
        snapshot: &Snapshot,
        job: u64,
    ) -> Result<Dossier, AllocError>
        requires sound { Sound snapshot.now.store (row_of self.now.terms) self.now.limit }
        requires listed { HasJob self.now.source job }
        ensures job { IfOk result (λ d. d.job ≡ job) }
        ensures snapshot { IfOk result (λ d. d.snapshot ≡ snapshot.now) }
        ensures base { IfOk result (λ d. d.base ≡ snapshot.now.version) }
        ensures finding { IfOk result (λ d. IsTrueFinding snapshot.now.store (row_of self.now.terms) self.now.limit d.finding) }
        ensures proposed { IfOk result (λ d. IsFrom self.now.terms self.now.limit self.now.source job snapshot.now.store (proposal_of d.finding)) }
    {
        supplied_alone(alloc, &self.supply, &self.terms, self.limit, snapshot, job)
    }
}

// What the proposals of an origin are made of.
fn supply_of(alloc: Global, origin: &Origin, terms: &TermTable) -> Result<Supply, AllocError>
    ensures source { IfOk result (λ s. source_in s ≡ source_of origin.now) }
    ensures indexed { IfOk result (λ s. IsIndexed s terms.now) }
{
    match origin {
        Origin::Listed(candidates) => Ok(Supply::Listed(Arc::try_clone(candidates)?)),
        Origin::Seeded { seed } => Ok(Supply::Seeded {
            seed: *seed,
            index: Index::build(alloc, terms)?,
        }),
    }
}

// What is found for a job, with the steps counted.
fn supplied<L: Ledger>(
    alloc: Global,
    blank: Blank,
    supply: &Supply,
    terms: &TermTable,
    limit: u64,
    snapshot: &Snapshot,
    job: u64,
) -> Result<Dossier, AllocError>
    requires name { blank.name ≡ L.name }
    requires parts { blank.parts ≡ L.parts }
    requires some { 0 < L.parts }
    requires bounded { IsBounded terms.now }
    requires indexed { IsIndexed supply.now terms.now }
    requires sound { Sound snapshot.now.store (row_of terms.now) limit }
    requires listed { HasJob (source_in supply.now) job }
    ensures job { IfOk result (λ d. d.job ≡ job) }
    ensures snapshot { IfOk result (λ d. d.snapshot ≡ snapshot.now) }
    ensures base { IfOk result (λ d. d.base ≡ snapshot.now.version) }
    ensures finding { IfOk result (λ d. IsTrueFinding snapshot.now.store (row_of terms.now) limit d.finding) }
    ensures proposed { IfOk result (λ d. IsFrom terms.now limit (source_in supply.now) job snapshot.now.store (proposal_of d.finding)) }
{
    let (book, share) = blank.open::<L>();
    let mut steps = Steps::start(book, share);
    match supply {
        Supply::Listed(candidates) => {
            let proposal = candidates.at(job);
            of_proposal(alloc, snapshot, terms, limit, job, proposal, &mut steps)
        }
        Supply::Seeded { seed, index } => {
            let list = shortlist(alloc, snapshot, terms, index, *seed, job, limit, &mut steps)?;
            of_list(alloc, snapshot, terms, limit, job, &list, &mut steps)
        }
    }
}

// The same, where nobody reads the count.
fn supplied_alone(
    alloc: Global,
    supply: &Supply,
    terms: &TermTable,
    limit: u64,
    snapshot: &Snapshot,
    job: u64,
) -> Result<Dossier, AllocError>
    requires bounded { IsBounded terms.now }
    requires indexed { IsIndexed supply.now terms.now }
    requires sound { Sound snapshot.now.store (row_of terms.now) limit }
    requires listed { HasJob (source_in supply.now) job }
    ensures job { IfOk result (λ d. d.job ≡ job) }
    ensures snapshot { IfOk result (λ d. d.snapshot ≡ snapshot.now) }
    ensures base { IfOk result (λ d. d.base ≡ snapshot.now.version) }
    ensures finding { IfOk result (λ d. IsTrueFinding snapshot.now.store (row_of terms.now) limit d.finding) }
    ensures proposed { IfOk result (λ d. IsFrom terms.now limit (source_in supply.now) job snapshot.now.store (proposal_of d.finding)) }
{
    supplied::<Brand>(alloc, Blank::new(1), supply, terms, limit, snapshot, job)
}
