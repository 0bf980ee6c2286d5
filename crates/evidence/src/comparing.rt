//! Runs of a proposed program at demanded arguments, beside what the tables know of the present one.

ghost use Rattle.std.specs.Prelude.{◌≡◌, ◌≤◌, ◌+◌, ◌*◌, ◌↔◌, ℕ, Some, length, IsTrue, IfOk};
ghost use Rattle.seq_calls.specs.Values.{outcome};
ghost use Rattle.loda_semantics.specs.Exec.{value};
ghost use Rattle.program_store.specs.Store.{programs_of, IsPublished, after};
ghost use Rattle.judge.specs.Changes.{IsSoundStore};
ghost use Rattle.seq_calls.specs.Demand.{IsReliedOn};
ghost use Rattle.program_store.specs.Store.{published_at, IsPublished, after};
ghost use Rattle.demand_table.specs.Nodes.{ListsDem};
ghost use Rattle.evidence.specs.Runs.{AreRunsAt, AreCosts, IsFirst};
ghost use Rattle.evidence.specs.Trials.{IsCompared, IsLeastOrNone, IsKnownOr, IsLesserOf, SameStepsBelow};

use crate::trying::steps_for;
use checked_numbers::{Num, number_of};
use demand_table::{Node, Tables};
use judge::{Got, got_of};
use program_store::{Overlay, Proposal, Published};
use seq_calls::{Evaluator, NodeRun, Steps};
use std::alloc::{AllocError, Global};
use std::sync::ledger::Ledger;

/// An argument at which the proposed program takes more steps, with the steps of both programs.
#[derive(Clone, Copy)]
pub struct Dearer {
    pub at: Num,
    pub was: u64,
    pub now: u64,
}

/// What the demanded arguments come to: the first of them with another value, with the old value and what was got; or else
/// the finished runs, and the first of them that is dearer.
#[derive(Drop)]
pub enum Compared {
    Broken {
        at: Num,
        was: Num,
        now: Got,
    },
    Kept {
        runs: Vec<NodeRun>,
        dearer: Option<Dearer>,
    },
}

// What the tables know of a published name at an argument that is relied on.
fn known<'a>(tables: &'a Tables, limit: u64, name: u32, at: &Num) -> &'a Node
    requires sound { IsSoundStore tables.now limit }
    requires published { IsPublished tables.now name }
    requires relied { IsReliedOn tables.now name at.now }
    ensures { outcome (programs_of tables.now) name at.now limit ≡ value result.now.value result.now.total }
{
    match tables.node(name, at) {
        Some(node) => node,
        None => unreachable!(),
    }
}

// The known one, or else the one that was met, if it is dearer.
fn known_or(known: Option<Dearer>, met: Dearer) -> Option<Dearer>
    ensures { IsKnownOr known met result }
{
    match known {
        Some(least) => Some(least),
        None => { if met.was < met.now { Some(met) } else { None } }
    }
}

/// Runs the proposed program at each demanded argument, as long as the values are the old ones.
pub fn compare_demanded<L: Ledger>(
    alloc: Global,
    tables: &Tables,
    proposal: &Proposal,
    demanded: &[Num],
    limit: u64,
    mut runs: Vec<NodeRun>,
    steps: &mut Steps<L>,
) -> Result<Compared, AllocError>
    requires sound { IsSoundStore tables.now limit }
    requires published { IsPublished tables.now proposal.now.name }
    requires demanded { ListsDem tables.now proposal.now.name demanded.now }
    ensures compared { IfOk result (λ c. (k : ℕ) → AreRunsAt (after tables.now proposal.now.name proposal.now.program) proposal.now.name limit (IsFirst k) runs.items → IsCompared tables.now limit proposal.now.name proposal.now.program k c) }
    ensures spent { steps.new ≤ steps.old + length demanded.now * limit }
{
    let name = proposal.name;
    let after = Overlay {
        base: tables,
        name,
        program: &proposal.program,
    };
    let mut evaluator = Evaluator::new(alloc);
    let mut dearer = None;
    for at in demanded {
        let run = evaluator.evaluate(&after, name, *at, limit, steps)?;
        let node = known(tables, limit, name, at);
        match steps_for(run.outcome, node.value) {
            Some(now) => {
                runs.append(&mut run.nodes.into_list())?;
                let met = Dearer {
                    at: *at,
                    was: node.total,
                    now,
                };
                dearer = known_or(dearer, met);
            }
            None => {
                return Ok(Compared::Broken {
                    at: *at,
                    was: node.value,
                    now: got_of(run.outcome),
                });
            }
        }
    }
    Ok(Compared::Kept { runs, dearer })
}

/// The first of the first arguments at which the proposed program is dearer.
pub fn first_dearer(
    tables: &Tables,
    proposal: &Proposal,
    limit: u64,
    published: &Published,
    costs: &[u64],
) -> Option<Dearer>
    requires sound { IsSoundStore tables.now limit }
    requires published { published_at tables.now proposal.now.name ≡ Some published.now }
    requires few { published.now.checked ≤ length costs.now }
    requires costs { AreCosts (after tables.now proposal.now.name proposal.now.program) proposal.now.name limit costs.now }
    ensures { IsLeastOrNone tables.now limit proposal.now.name proposal.now.program (IsFirst published.now.checked) result }
{
    for index in 0..published.checked {
        let at = number_of(index);
        let was = known(tables, limit, proposal.name, &at).total;
        let now = costs[index as usize];
        if was < now {
            return Some(Dearer { at, was, now });
        }
    }
    None
}

/// Whether the first arguments take as many steps as before.
pub fn costs_the_same(
    tables: &Tables,
    proposal: &Proposal,
    limit: u64,
    published: &Published,
    costs: &[u64],
) -> bool
    requires sound { IsSoundStore tables.now limit }
    requires published { published_at tables.now proposal.now.name ≡ Some published.now }
    requires few { published.now.checked ≤ length costs.now }
    requires costs { AreCosts (after tables.now proposal.now.name proposal.now.program) proposal.now.name limit costs.now }
    ensures { IsTrue result ↔ SameStepsBelow tables.now limit proposal.now.name proposal.now.program published.now.checked }
{
    for index in 0..published.checked {
        let at = number_of(index);
        if known(tables, limit, proposal.name, &at).total != costs[index as usize] {
            return false;
        }
    }
    true
}

/// The one with the lesser argument.
pub fn lesser(first: Option<Dearer>, second: Option<Dearer>) -> Option<Dearer>
    ensures { IsLesserOf first second result }
{
    match first {
        None => second,
        Some(a) => match second {
            None => Some(a),
            Some(b) => {
                if a.at.get() <= b.at.get() {
                    Some(a)
                } else {
                    Some(b)
                }
            }
        },
    }
}
