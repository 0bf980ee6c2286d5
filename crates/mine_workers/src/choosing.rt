//! What is found for a job with some proposals: the first that is accepted, else the first, else none.

ghost use Rattle.std.specs.Prelude.{◌≡◌, Some, None, All, IfOk};
ghost use Rattle.oeis_terms.specs.Table.{row_of, IsBounded};
ghost use Rattle.program_store.specs.Store.{IsProposal};
ghost use Rattle.judge.specs.Sound.{Sound};
ghost use Rattle.evidence.specs.Findings.{IsTrueFinding};
ghost use Rattle.proposer.specs.Proposed.{IsChosen};
ghost use Rattle.publish_desk.specs.History.{proposal_of};

use crate::accepting::is_accepted;
use evidence::{Dossier, Snapshot, gather};
use oeis_terms::TermTable;
use program_store::Proposal;
use seq_calls::Steps;
use std::alloc::{AllocError, Global};
use std::sync::ledger::Ledger;

/// What is found of a proposal.
pub fn of_proposal<L: Ledger>(
    alloc: Global,
    snapshot: &Snapshot,
    terms: &TermTable,
    limit: u64,
    job: u64,
    proposal: &Proposal,
    steps: &mut Steps<L>,
) -> Result<Dossier, AllocError>
    requires sound { Sound snapshot.now.store (row_of terms.now) limit }
    requires bounded { IsBounded terms.now }
    requires proposal { IsProposal proposal.now }
    ensures job { IfOk result (λ d. d.job ≡ job) }
    ensures snapshot { IfOk result (λ d. d.snapshot ≡ snapshot.now) }
    ensures base { IfOk result (λ d. d.base ≡ snapshot.now.version) }
    ensures finding { IfOk result (λ d. IsTrueFinding snapshot.now.store (row_of terms.now) limit d.finding) }
    ensures about { IfOk result (λ d. proposal_of d.finding ≡ Some proposal.now) }
{
    let proposal = proposal.copy()?;
    gather(alloc, snapshot, terms, limit, job, Some(proposal), steps)
}

// What is found where nothing is proposed.
fn of_none<L: Ledger>(
    alloc: Global,
    snapshot: &Snapshot,
    terms: &TermTable,
    limit: u64,
    job: u64,
    steps: &mut Steps<L>,
) -> Result<Dossier, AllocError>
    requires sound { Sound snapshot.now.store (row_of terms.now) limit }
    requires bounded { IsBounded terms.now }
    ensures job { IfOk result (λ d. d.job ≡ job) }
    ensures snapshot { IfOk result (λ d. d.snapshot ≡ snapshot.now) }
    ensures base { IfOk result (λ d. d.base ≡ snapshot.now.version) }
    ensures finding { IfOk result (λ d. IsTrueFinding snapshot.now.store (row_of terms.now) limit d.finding) }
    ensures about { IfOk result (λ d. proposal_of d.finding ≡ None) }
{
    gather(alloc, snapshot, terms, limit, job, None, steps)
}

/// What is found of the first proposal that is accepted, else of the first, else that nothing is proposed.
pub fn of_list<L: Ledger>(
    alloc: Global,
    snapshot: &Snapshot,
    terms: &TermTable,
    limit: u64,
    job: u64,
    list: &[Proposal],
    steps: &mut Steps<L>,
) -> Result<Dossier, AllocError>
    requires sound { Sound snapshot.now.store (row_of terms.now) limit }
    requires bounded { IsBounded terms.now }
    requires each { All IsProposal list.now }
    ensures job { IfOk result (λ d. d.job ≡ job) }
    ensures snapshot { IfOk result (λ d. d.snapshot ≡ snapshot.now) }
    ensures base { IfOk result (λ d. d.base ≡ snapshot.now.version) }
    ensures finding { IfOk result (λ d. IsTrueFinding snapshot.now.store (row_of terms.now) limit d.finding) }
    ensures chosen { IfOk result (λ d. IsChosen snapshot.now.store (row_of terms.now) limit list.now (proposal_of d.finding)) }
{
    let Some((head, rest)) = list.split_first() else {
        return of_none(alloc, snapshot, terms, limit, job, steps);
    };
    let first = of_proposal(alloc, snapshot, terms, limit, job, head, steps)?;
    if is_accepted(first.finding()) {
        return Ok(first);
    }
    for proposal in rest {
        let other = of_proposal(alloc, snapshot, terms, limit, job, proposal, steps)?;
        if is_accepted(other.finding()) {
            return Ok(other);
        }
    }
    Ok(first)
}
