//! The shortlist of a job.

ghost use Rattle.std.specs.Prelude.{◌≡◌, ◌≤◌, ◌++◌, length, All, IfOk, OnOk, IfSome};
ghost use Rattle.std.specs.Option.{option_to_list};
ghost use Rattle.oeis_terms.specs.Table.{IsBounded};
ghost use Rattle.program_store.specs.Store.{IsProposal, programs_of};
ghost use Rattle.proposer.specs.Short.{candidate, short_of, short};

use crate::making::candidate;
use crate::reducing::proposal_of;
use crate::running::nine_values;
use loda_syntax::Program;
use oeis_terms::TermTable;
use program_store::{Library, Proposal, View};
use seq_calls::{Evaluator, Steps};
use std::alloc::{AllocError, Global};
use std::sync::ledger::Ledger;
use term_index::Index;
use word_stream::job_draws;

// Adds a proposal, if there is one.
fn add(list: &mut Vec<Proposal>, made: Option<Proposal>) -> Result<(), AllocError>
    ensures { OnOk result (list.new.items ≡ list.old.items ++ option_to_list made) }
{
    match made {
        Some(proposal) => list.push(proposal)?,
        None => {}
    }
    Ok(())
}

/// The proposals that are made of a program, at most 16.
pub fn proposals_of<B: Library, L: Ledger>(
    alloc: Global,
    lib: &B,
    terms: &TermTable,
    index: &Index,
    program: &Program,
    limit: u64,
    steps: &mut Steps<L>,
) -> Result<Vec<Proposal>, AllocError>
    requires bounded { IsBounded terms.now }
    requires index { index.now ≡ terms.now }
    ensures list { IfOk result (λ list. list.items ≡ short_of (B.programs lib.now) terms.now limit program.now) }
    ensures few { IfOk result (λ list. length list.items ≤ 16) }
    ensures each { IfOk result (λ list. All IsProposal list.items) }
    ensures counted { steps.old ≤ steps.new }
{
    let mut list = Vec::new(alloc);
    let mut evaluator = Evaluator::new(alloc);
    let Some(values) = nine_values(&mut evaluator, lib, program, limit, steps)? else {
        return Ok(list);
    };
    // Each row has a name.
    let _rows = terms.rows();
    let matches = index.matches(alloc, &values)?;
    for found in &matches {
        let made = proposal_of(
            &mut evaluator,
            alloc,
            lib,
            terms,
            program,
            found,
            limit,
            steps,
        )?;
        add(&mut list, made)?;
    }
    Ok(list)
}

/// The proposals of the job with this number, at most 16.
///
/// A program is made of the job's words: the first is drawn modulo 2, and where it is 1 and a name is published, the
/// program of a name that is drawn is changed; else a new one is made. It is run at 0 to 8, and where a run has no value
/// nothing is proposed. For each of the first 16 rows that its values match, by form and then by name, the composed
/// program is proposed, where there is one. Where it gives at least the first eight of the row's terms, it is minimised at
/// the indices of the leading terms that it gives. The count rises by the steps of the runs that were made.
pub fn shortlist<V: View, L: Ledger>(
    alloc: Global,
    view: &V,
    terms: &TermTable,
    index: &Index,
    seed: u64,
    job: u64,
    limit: u64,
    steps: &mut Steps<L>,
) -> Result<Vec<Proposal>, AllocError>
    requires bounded { IsBounded terms.now }
    requires index { index.now ≡ terms.now }
    ensures list { IfOk result (λ list. list.items ≡ short (V.store view.now) terms.now limit seed job) }
    ensures few { IfOk result (λ list. length list.items ≤ 16) }
    ensures each { IfOk result (λ list. All IsProposal list.items) }
    ensures counted { steps.old ≤ steps.new }
{
    let mut draws = job_draws(seed, job);
    let program = candidate(alloc, view, &mut draws)?;
    proposals_of(alloc, view, terms, index, &program, limit, steps)
}
