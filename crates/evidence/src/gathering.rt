//! Gathering what is to be published for a job.

ghost use Rattle.std.specs.Prelude.{◌≡◌, ◌≤◌, Some, IfOk, IfSome};
ghost use Rattle.oeis_terms.specs.Table.{row_of, IsBounded};
ghost use Rattle.program_store.specs.Store.{IsProposal};
ghost use Rattle.judge.specs.Sound.{Sound};
ghost use Rattle.evidence.specs.Findings.{IsTrueFinding, IsAbout};
ghost use Rattle.evidence.specs.Trials.{AreSpentFor};

use crate::dossier::Dossier;
use crate::finding::Finding;
use crate::snapshot::Snapshot;
use crate::weighing::{Weighed, weigh};
use judge::Answer;
use oeis_terms::TermTable;
use program_store::Proposal;
use seq_calls::{Frames, Steps};
use std::alloc::{AllocError, Global};
use std::sync::ledger::Ledger;

/// What is found for a job in the store of a snapshot, with all that publishing it needs.
pub fn gather<L: Ledger>(
    alloc: Global,
    snapshot: &Snapshot,
    terms: &TermTable,
    limit: u64,
    job: u64,
    proposal: Option<Proposal>,
    steps: &mut Steps<L>,
) -> Result<Dossier, AllocError>
    requires sound { Sound snapshot.now.store (row_of terms.now) limit }
    requires bounded { IsBounded terms.now }
    requires proposal { IfSome proposal IsProposal }
    ensures snapshot { IfOk result (λ d. d.snapshot ≡ snapshot.now) }
    ensures job { IfOk result (λ d. d.job ≡ job) }
    ensures base { IfOk result (λ d. d.base ≡ snapshot.now.version) }
    ensures about { IfOk result (λ d. IsAbout proposal d.finding) }
    ensures finding { IfOk result (λ d. IsTrueFinding snapshot.now.store (row_of terms.now) limit d.finding) }
    ensures spent { AreSpentFor snapshot.now.store (row_of terms.now) limit proposal steps.old steps.new }
{
    match proposal {
        None => {
            let snapshot = snapshot.share()?;
            Ok(Dossier::of(
                snapshot,
                job,
                Finding::Nothing,
                Frames::of(Vec::new(alloc)),
                None,
            ))
        }
        Some(proposal) => gather_judged(alloc, snapshot, terms, limit, job, proposal, steps),
    }
}

// What is found of a proposal.
fn gather_judged<L: Ledger>(
    alloc: Global,
    snapshot: &Snapshot,
    terms: &TermTable,
    limit: u64,
    job: u64,
    proposal: Proposal,
    steps: &mut Steps<L>,
) -> Result<Dossier, AllocError>
    requires sound { Sound snapshot.now.store (row_of terms.now) limit }
    requires bounded { IsBounded terms.now }
    requires proposal { IsProposal proposal }
    ensures snapshot { IfOk result (λ d. d.snapshot ≡ snapshot.now) }
    ensures job { IfOk result (λ d. d.job ≡ job) }
    ensures base { IfOk result (λ d. d.base ≡ snapshot.now.version) }
    ensures about { IfOk result (λ d. IsAbout (Some proposal) d.finding) }
    ensures finding { IfOk result (λ d. IsTrueFinding snapshot.now.store (row_of terms.now) limit d.finding) }
    ensures spent { AreSpentFor snapshot.now.store (row_of terms.now) limit (Some proposal) steps.old steps.new }
{
    let Weighed { answer, runs } = weigh(alloc, snapshot.tables(), terms, limit, &proposal, steps)?;
    let told = answer;
    let next = match answer {
        Answer::Accepted { checked } => {
            Some(
                snapshot
                    .tables()
                    .replaced(alloc, &proposal, checked, runs.list())?,
            )
        }
        _ => None,
    };
    let snapshot = snapshot.share()?;
    Ok(Dossier::of(
        snapshot,
        job,
        Finding::Judged {
            proposal,
            answer: told,
        },
        runs,
        next,
    ))
}
