//! A store, and the journal of the jobs that were decided.

ghost use Rattle.std.specs.Prelude.{◌≡◌, ◌+◌, ◌<◌, ◌≤◌, ℕ, [], IfOk, IfSome, IfNone, length, reverse};
ghost use Rattle.std.specs.Arc.{arc_value};
ghost use Rattle.loda_semantics.specs.Limits.{IsStepLimit};
ghost use Rattle.oeis_terms.specs.Table.{row_of, IsBounded};
ghost use Rattle.judge.specs.Sound.{IsUnsound};
ghost use Rattle.evidence.specs.Findings.{next_store};
ghost use Rattle.publish_desk.specs.History.{IsMissing, IsDoneAt, MakesVersion, Publishes, AreMarks, version_of, changes_after};
ghost use Rattle.publish_desk.specs.Source.{source_of};
ghost use Rattle.publish_desk.specs.Desk.{HasJobs, history, decided, IsKept, IsChartered, IsFitting, IsVerdict};

use crate::entry::Entry;
use crate::origin::Origin;
use crate::verdict::Verdict;
use demand_table::Tables;
use evidence::{Change, Dossier, Finding, Parts};
use judge::{CheckError, Unsound, check_store};
use oeis_terms::TermTable;
use program_store::{MOST_JOBS, Store};
use std::alloc::{AllocError, Global};
use std::marker::Model;
use std::snapshot::Snapshot;
use std::sync::Arc;

/// Why a desk does not open.
#[derive(Debug, Drop)]
pub enum OpenError {
    /// The opening store is not sound.
    Unsound(Unsound),
    /// Memory ran out.
    Memory,
}

impl From<AllocError> for OpenError {
    ghost use Rattle.publish_desk.specs.declared.desk.OpenError.TheVariants.{Memory};

    ghost from_gives = { λ _ e. e ≡ Memory };

    fn from(_error: AllocError) -> OpenError {
        OpenError::Memory
    }
}

/// A store of programs, and the journal of what was decided about each job. It is seen as one record, which keeps that
/// the journal is legal and replays to the store, that the store is sound, and that no replacement took anything away.
/// The whole journal is reserved when it opens, with a place for each job and each version.
#[derive(Drop)]
pub struct Desk {
    opening: Snapshot<Store>,
    terms: Arc<TermTable>,
    limit: u64,
    origin: Origin,
    jobs: u64,
    journal: Vec<Entry>,
    // of each job 0, or its entry's place and one more
    places: Vec<u64>,
    // of each version the place of the entry that ended it
    marks: Vec<u64>,
    version: u64,
    tables: Tables,
}

impl Model for Desk {
    ghost use Rattle.publish_desk.specs.Desk as spec;
    ghost use Rattle.publish_desk.specs.History as past;
    ghost use Rattle.publish_desk.specs.Source.{source_of};
    ghost use Rattle.std.specs.Prelude.{◌≤◌};
    ghost use Rattle.std.specs.Vec.{vec_capacity};
    ghost use Rattle.std.specs.Arc.{arc_value};
    ghost use Rattle.std.specs.Coded.{codes, coded_ℕ};
    ghost use Rattle.std.specs.FinMap as map;
    ghost use Rattle.std.specs.Ordering.{nat_cmp};
    ghost use Rattle.program_store.specs.contracts.published.Published as published;

    ghost Value = { spec.Desk };

    ghost coded = { Prim.hlevel (codes, map.code {R = nat_cmp} coded_ℕ published.the_row.coded) };

    ghost view = { λ d. record { charter = record { opening = d.opening.value; terms = arc_value d.terms; limit = d.limit; source = source_of d.origin; jobs = d.jobs }; journal = d.journal.items; version = d.version; store = d.tables } };

    ghost invariant = { λ d.
        spec.IsKept (record { charter = record { opening = d.opening.value; terms = arc_value d.terms; limit = d.limit; source = source_of d.origin; jobs = d.jobs }; journal = d.journal.items; version = d.version; store = d.tables })
        × spec.IsChartered (record { opening = d.opening.value; terms = arc_value d.terms; limit = d.limit; source = source_of d.origin; jobs = d.jobs })
        × past.ArePlaces d.jobs d.journal.items d.places.items
        × past.AreMarks d.version d.journal.items d.marks.items
        × (d.jobs ≤ vec_capacity d.journal)
        × (d.jobs ≤ vec_capacity d.marks) };
}

impl Desk {
    /// A desk with an empty journal at version 0, whose store is the opening one. The store has to be sound.
    pub fn start(
        alloc: Global,
        opening: Store,
        terms: Arc<TermTable>,
        limit: u64,
        origin: Origin,
        jobs: u64,
    ) -> Result<Desk, OpenError>
        requires limit { IsStepLimit limit }
        requires jobs { jobs ≤ MOST_JOBS }
        requires listed { HasJobs (source_of origin) jobs }
        requires bounded { IsBounded (arc_value terms) }
        ensures charter { IfOk result (λ d. d.charter ≡ record { opening = opening; terms = arc_value terms; limit = limit; source = source_of origin; jobs = jobs }) }
        ensures journal { IfOk result (λ d. d.journal ≡ []) }
        ensures version { IfOk result (λ d. d.version ≡ 0) }
        ensures store { IfOk result (λ d. d.store ≡ opening) }
        ensures kept { IfOk result IsKept }
        ensures unsound { (u : Unsound) → result ≡ Err (OpenError.Unsound u) → IsUnsound opening (row_of (arc_value terms)) limit u }
    {
        match check_store(alloc, &opening, &terms, limit) {
            Ok(()) => {}
            Err(CheckError::Unsound(unsound)) => return Err(OpenError::Unsound(unsound)),
            Err(CheckError::Memory) => return Err(OpenError::Memory),
        }
        let _ = terms.rows();
        let tables = Tables::build(alloc, &opening, limit)?;
        let journal = Vec::with_capacity(alloc, jobs as usize)?;
        let marks = Vec::with_capacity(alloc, jobs as usize)?;
        let mut places = Vec::new(alloc);
        places.resize(jobs as usize, 0)?;
        Ok(Desk {
            opening: Snapshot::of(&opening),
            terms,
            limit,
            origin,
            jobs,
            journal,
            places,
            marks,
            version: 0,
            tables,
        })
    }

    /// Publishes a dossier, unless its job has an entry or the store has changed since its snapshot. Nothing is run and no
    /// memory is taken.
    pub fn publish(&mut self, dossier: Dossier) -> Verdict
        requires { IsFitting self.old dossier }
        ensures { IsVerdict self.old self.new dossier result }
    {
        let place = self.places[dossier.job() as usize];
        if place > 0 {
            return Verdict::AlreadyDone {
                at: place - 1,
                dossier,
            };
        }
        let seen = dossier.seen();
        if seen < self.version {
            let first = self.marks[seen as usize];
            let name = name_of(&self.journal[first as usize].finding);
            return Verdict::Again {
                version: self.version,
                first,
                name,
                dossier,
            };
        }
        let at = self.decide(dossier);
        Verdict::Decided { at }
    }

    // Adds the entry of a dossier that saw the present version, for a job that has none, and answers the entry's place.
    fn decide(&mut self, dossier: Dossier) -> u64
        requires fitting { IsFitting self.old dossier }
        requires missing { IsMissing self.old.journal dossier.job }
        requires seen { dossier.snapshot.version ≡ self.old.version }
        ensures place { result ≡ length self.old.journal }
        ensures next { self.new ≡ decided self.old dossier }
    {
        let Parts {
            job,
            base,
            finding,
            next,
        } = dossier.into_parts();
        let at = self.journal.len() as u64;
        self.places[job as usize] = at + 1;
        let Some(tables) = next else {
            self.journal.push_reserved(Entry { job, base, finding });
            return at;
        };
        self.tables = tables;
        self.marks.push_reserved(at);
        self.version += 1;
        self.journal.push_reserved(Entry { job, base, finding });
        at
    }

    /// The least job without an entry. `None` exactly where each job has one.
    pub fn missing_job(&self) -> Option<u64>
        ensures some { IfSome result (λ job. (job < self.now.charter.jobs) × IsMissing self.now.journal job) }
        ensures least { IfSome result (λ job. (j : ℕ) → j < job → (at : ℕ) × IsDoneAt self.now.journal j at) }
        ensures none { IfNone result ((j : ℕ) → j < self.now.charter.jobs → (at : ℕ) × IsDoneAt self.now.journal j at) }
    {
        let mut job = 0;
        for place in &self.places {
            if *place == 0 {
                return Some(job);
            }
            job += 1;
        }
        None
    }

    /// The place of a job's entry. `None` exactly where it has none.
    pub fn place_of(&self, job: u64) -> Option<u64>
        requires { job < self.now.charter.jobs }
        ensures some { IfSome result (λ at. IsDoneAt self.now.journal job at) }
        ensures none { IfNone result (IsMissing self.now.journal job) }
    {
        let noted = self.places[job as usize];
        if noted > 0 { Some(noted - 1) } else { None }
    }

    /// The present tables, version and length of the journal.
    pub fn snapshot(&self) -> Result<evidence::Snapshot, AllocError>
        ensures { IfOk result (λ s. s ≡ record { store = self.now.store; version = self.now.version; length = length self.now.journal }) }
    {
        let tables = self.tables.share()?;
        Ok(evidence::Snapshot::of(tables, self.version, self.journal.len() as u64))
    }

    /// The entries that were accepted after a version, in order.
    pub fn changes_since(&self, alloc: Global, version: u64) -> Result<Vec<Change>, AllocError>
        requires { version ≤ self.now.version }
        ensures { IfOk result (λ changes. changes.items ≡ changes_after version (history self.now)) }
    {
        changes_at(alloc, &self.journal, &self.marks, version)
    }

    /// The present tables.
    pub(crate) fn tables(&self) -> &Tables
        ensures { result.now ≡ self.now.store }
    {
        &self.tables
    }

    /// The entries, in the order in which they were decided.
    pub fn entries(&self) -> &[Entry]
        ensures value { result.now ≡ self.now.journal }
        ensures kept { IsKept self.now }
    {
        &self.journal
    }

    /// How many entries were accepted.
    pub fn version(&self) -> u64
        ensures value { result ≡ self.now.version }
        ensures kept { IsKept self.now }
    {
        self.version
    }

    /// How many jobs there are.
    pub fn jobs(&self) -> u64
        ensures value { result ≡ self.now.charter.jobs }
        ensures chartered { IsChartered self.now.charter }
    {
        self.jobs
    }

    /// The usable terms.
    pub fn terms(&self) -> &Arc<TermTable>
        ensures { arc_value result.now ≡ self.now.charter.terms }
    {
        &self.terms
    }

    /// The limit of steps of one run.
    pub fn limit(&self) -> u64
        ensures { result ≡ self.now.charter.limit }
    {
        self.limit
    }

    /// Where proposals come from.
    pub fn origin(&self) -> &Origin
        ensures { source_of result.now ≡ self.now.charter.source }
    {
        &self.origin
    }
}

// The accepted entries after a version, whose places are marked.
fn changes_at(
    alloc: Global,
    journal: &[Entry],
    marks: &[u64],
    version: u64,
) -> Result<Vec<Change>, AllocError>
    requires marks { AreMarks (version_of (reverse journal.now)) journal.now marks.now }
    requires version { version ≤ version_of (reverse journal.now) }
    ensures { IfOk result (λ changes. changes.items ≡ changes_after version (reverse journal.now)) }
{
    let mut changes = Vec::new(alloc);
    let since = &marks[version as usize..];
    for at in since {
        let name = name_of(&journal[*at as usize].finding);
        changes.push(Change { at: *at, name })?;
    }
    Ok(changes)
}

// The name that an accepted finding publishes.
fn name_of(finding: &Finding) -> u32
    requires { (name : ℕ) × Publishes finding.now name }
    ensures { Publishes finding.now result }
{
    match finding {
        Finding::Judged {
            proposal,
            answer: _,
        } => proposal.name,
        Finding::Nothing => unreachable!(),
    }
}
