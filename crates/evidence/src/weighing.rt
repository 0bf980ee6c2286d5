//! What is answered to a proposal, from the tables of a store.

ghost use Rattle.std.specs.Prelude.{◌≡◌, ◌≤◌, ◌<◌, ◌↔◌, ℕ, ℤ, List, [], length, max, Some, IsTrue, IfOk, IfSome, IfNone};
ghost use Rattle.oeis_terms.specs.Table.{row_of, IsBounded};
ghost use Rattle.program_store.specs.Store.{published_at, checked_at, after};
ghost use Rattle.judge.specs.Sound.{Sound};
ghost use Rattle.judge.specs.Passed.{Terms};
ghost use Rattle.judge.specs.Judged.{Gainless};
ghost use Rattle.judge.specs.declared.answer.Got.TheVariants as got;
ghost use Rattle.judge.specs.Changes.{IsSoundStore};
ghost use Rattle.evidence.specs.Runs.{AreFirst, AreCosts};
ghost use Rattle.evidence.specs.Trials.{IsTried, IsWeighed, IsWeighedFor, AreSpent, AreSpentOnDemanded};

use crate::comparing::{Compared, compare_demanded, costs_the_same, first_dearer, lesser};
use crate::trying::{Tried, try_terms};
use call_graph::first_through;
use demand_table::Tables;
use judge::{Answer, Got};
use oeis_terms::TermTable;
use program_store::{Overlay, Proposal, Published, View};
use seq_calls::{Frames, NodeRun, Steps};
use std::alloc::{AllocError, Global};
use std::sync::ledger::Ledger;

/// An answer, and where the proposal is accepted its finished runs.
#[derive(Drop)]
pub struct Weighed {
    pub answer: Answer,
    pub runs: Frames,
}

fn refused(alloc: Global, answer: Answer) -> Weighed
    ensures answer { result.answer ≡ answer }
    ensures runs { result.runs ≡ [] }
{
    Weighed {
        answer,
        runs: Frames::of(Vec::new(alloc)),
    }
}

// Whether no more terms are checked, no checked argument is cheaper, and the program is no shorter.
fn brings_nothing(
    tables: &Tables,
    proposal: &Proposal,
    limit: u64,
    published: &Published,
    costs: &[u64],
    checked: u32,
) -> bool
    requires sound { IsSoundStore tables.now limit }
    requires published { published_at tables.now proposal.now.name ≡ Some published.now }
    requires few { published.now.checked ≤ length costs.now }
    requires costs { AreCosts (after tables.now proposal.now.name proposal.now.program) proposal.now.name limit costs.now }
    ensures { IsTrue result ↔ Gainless tables.now limit proposal.now.name proposal.now.program checked }
{
    if checked != published.checked {
        return false;
    }
    if proposal.program.instrs().len() < published.program.instrs().len() {
        return false;
    }
    costs_the_same(tables, proposal, limit, published, costs)
}

// What is answered to a proposal for a published name, of a program that passes with this checked count.
fn weigh_replacement<L: Ledger>(
    alloc: Global,
    tables: &Tables,
    proposal: &Proposal,
    limit: u64,
    published: &Published,
    costs: &[u64],
    runs: Vec<NodeRun>,
    steps: &mut Steps<L>,
) -> Result<Weighed, AllocError>
    requires sound { IsSoundStore tables.now limit }
    requires published { published_at tables.now proposal.now.name ≡ Some published.now }
    requires first { AreFirst (after tables.now proposal.now.name proposal.now.program) proposal.now.name limit costs.now runs.items }
    requires few { length costs.now ≤ 32768 }
    requires grows { published.now.checked ≤ length costs.now }
    ensures weighed { IfOk result (IsWeighedFor tables.now limit proposal.now (length costs.now)) }
    ensures spent { AreSpentOnDemanded tables.now proposal.now.name limit steps.old steps.new }
{
    let name = proposal.name;
    let checked = costs.len() as u32;
    let demanded = tables.demanded(alloc, name)?;
    match compare_demanded(alloc, tables, proposal, &demanded, limit, runs, steps)? {
        Compared::Broken { at, was, now } => {
            match tables.least_caller(alloc, name, &at)? {
                Some(caller) => Ok(refused(
                    alloc,
                    Answer::BrokenDependant {
                        at,
                        caller: caller.name,
                        index: caller.index,
                        was,
                        now,
                    },
                )),
                None => unreachable!(),
            }
        }
        Compared::Kept { runs, dearer } => {
            let first = first_dearer(tables, proposal, limit, published, costs);
            if let Some(least) = lesser(first, dearer) {
                return Ok(refused(
                    alloc,
                    Answer::Costlier {
                        at: least.at,
                        was: least.was,
                        now: least.now,
                    },
                ));
            }
            if brings_nothing(tables, proposal, limit, published, costs, checked) {
                return Ok(refused(alloc, Answer::NoGain));
            }
            Ok(Weighed {
                answer: Answer::Accepted { checked },
                runs: Frames::of(runs),
            })
        }
    }
}

// What was got at the first term that is not given, unless the steps ran out past the old count and eight.
fn wrong(miss: Option<Got>, index: u32, old: u32) -> Option<Got>
    ensures some { IfSome result (λ g. (miss ≡ Some g) × (g ≡ got.OutOfSteps → index < max 8 old)) }
    ensures none { IfNone result ((g : Got) → miss ≡ Some g → (g ≡ got.OutOfSteps) × (max 8 old ≤ index)) }
{
    match miss {
        Some(Got::OutOfSteps) if index >= 8 && index >= old => None,
        other => other,
    }
}

// What is answered to a proposal whose program was run at the arguments that have terms.
fn weigh_tried<L: Ledger>(
    alloc: Global,
    tables: &Tables,
    proposal: &Proposal,
    limit: u64,
    tried: Tried,
    steps: &mut Steps<L>,
) -> Result<Weighed, AllocError>
    requires sound { IsSoundStore tables.now limit }
    requires few { length tried.costs.items ≤ 32768 }
    requires first { AreFirst (after tables.now proposal.now.name proposal.now.program) proposal.now.name limit tried.costs.items tried.runs.items }
    requires tried { (terms : Terms) × (row : List ℤ) × IsTried tables.now terms limit proposal.now row (length tried.costs.items) tried.miss }
    ensures weighed { IfOk result (λ w. (terms : Terms) (row : List ℤ) → IsTried tables.now terms limit proposal.now row (length tried.costs.items) tried.miss → IsWeighed tables.now terms limit proposal.now w) }
    ensures spent { AreSpentOnDemanded tables.now proposal.now.name limit steps.old steps.new }
{
    let name = proposal.name;
    let Tried { costs, runs, miss } = tried;
    let index = costs.len() as u32;
    let old = checked_count(tables, name);
    if let Some(got) = wrong(miss, index, old) {
        return Ok(refused(alloc, Answer::WrongTerm { index, got }));
    }
    match tables.published(name) {
        None => Ok(Weighed {
            answer: Answer::Accepted { checked: index },
            runs: Frames::of(runs),
        }),
        Some(published) => weigh_replacement(
            alloc, tables, proposal, limit, published, &costs, runs, steps,
        ),
    }
}

// At how many arguments the program of a name is checked: none where it is not published.
fn checked_count(tables: &Tables, name: u32) -> u32
    ensures { result ≡ checked_at tables.now name }
{
    match tables.published(name) {
        Some(published) => published.checked,
        None => 0,
    }
}

/// What is answered to a proposal in a sound store, with its finished runs where it is accepted. The program is run once at
/// each argument that has a term, as long as the terms are given, and once at each demanded one.
pub fn weigh<L: Ledger>(
    alloc: Global,
    tables: &Tables,
    terms: &TermTable,
    limit: u64,
    proposal: &Proposal,
    steps: &mut Steps<L>,
) -> Result<Weighed, AllocError>
    requires sound { Sound tables.now (row_of terms.now) limit }
    requires bounded { IsBounded terms.now }
    ensures weighed { IfOk result (IsWeighed tables.now (row_of terms.now) limit proposal.now) }
    ensures spent { AreSpent tables.now (row_of terms.now) limit proposal.now.name proposal.now.program steps.old steps.new }
{
    let name = proposal.name;
    let Some(row) = terms.row(name) else {
        return Ok(refused(alloc, Answer::Unlisted));
    };
    if let Some(through) = first_through(alloc, tables, &proposal.program, name)? {
        return Ok(refused(alloc, Answer::Cycle { through }));
    }
    let after = Overlay {
        base: tables,
        name,
        program: &proposal.program,
    };
    let tried = try_terms(alloc, &after, row, name, limit, steps)?;
    weigh_tried(alloc, tables, proposal, limit, tried, steps)
}
