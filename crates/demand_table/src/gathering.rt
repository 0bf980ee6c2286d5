//! The runs of a store's checked arguments, and all that they call, in slots.

ghost use Rattle.std.specs.Prelude.{◌≡◌, ◌<◌, ◌≤◌, ℕ, IfOk, IsTrue, pos};
ghost use Rattle.loda_semantics.specs.Exec.{run_name};
ghost use Rattle.program_store.specs.Store.{programs_of, checked_at};
ghost use Rattle.seq_calls.specs.Frames.{pair, nodes_of};
ghost use Rattle.demand_table.specs.Gathered.{IsUndrawn, IsGathered, HasItsCalls, IsFresh, HasRunAt, KeepsRuns, HasFirstRuns, HasRunsUpTo};
ghost use Rattle.demand_table.specs.Loaded.{slots_of};
ghost use Rattle.demand_table.specs.Nodes.{HasCheckedValues};

use crate::holding::Known;
use crate::mending::put_all;
use crate::names::Names;
use crate::reaching::with_runs;
use crate::standing::all_stand;
use crate::work::Work;
use checked_numbers::{Num, number_of};
use loda_semantics::Pair;
use program_store::{Store, View};
use seq_calls::{Evaluator, Frames, NodeRun};
use std::alloc::{AllocError, Global};
use std::collections::BTreeMap;
use version_pages::Pages;

/// The slots of the runs that were gathered, the names under each name that may call it, the pairs, and how many runs stand.
#[derive(Drop)]
pub struct Gathered {
    pub work: Work,
    pub callers: Pages<Names>,
    pub pairs: Vec<Pair>,
    pub stand: u64,
}

// Where nothing was gathered.
fn nothing(alloc: Global, store: &Store, known: &Known<'_>) -> Result<Gathered, AllocError>
    requires { IsUndrawn store.now known.now.pages.now }
    ensures { IfOk result (IsGathered store.now known.now.pages.now) }
{
    let work = Work {
        touched: BTreeMap::new(alloc),
    };
    let callers = Pages::empty(alloc)?;
    Ok(Gathered {
        work,
        callers,
        pairs: Vec::new(alloc),
        stand: 0,
    })
}

// With the run of a checked argument, and the runs that it calls.
fn with_run(
    alloc: Global,
    store: &Store,
    limit: u64,
    known: &Known<'_>,
    evaluator: &mut Evaluator,
    gathered: Gathered,
    name: u32,
    index: u32,
) -> Result<Gathered, AllocError>
    requires values { HasCheckedValues store.now limit }
    requires checked { index < checked_at store.now name }
    requires gathered { IsGathered store.now known.now.pages.now gathered }
    ensures gathered { IfOk result (IsGathered store.now known.now.pages.now) }
    ensures keeps { IfOk result (KeepsRuns known.now.pages.now gathered) }
    ensures here { IfOk result (λ next. HasRunAt known.now.pages.now next (pair name (pos index))) }
{
    let Gathered {
        mut work,
        callers,
        mut pairs,
        stand,
    } = gathered;
    let frames = fresh(
        store,
        limit,
        known,
        &work,
        evaluator,
        name,
        number_of(index),
    )?;
    let nodes = frames.list();
    let stand = put_all(alloc, known, &mut work, nodes, &mut pairs, stand)?;
    let callers = with_runs(alloc, &callers, nodes)?;
    Ok(Gathered {
        work,
        callers,
        pairs,
        stand,
    })
}

// Whether there is one frame, and all that its run calls stands.
fn has_its_calls(known: &Known<'_>, work: &Work, nodes: &[NodeRun]) -> bool
    ensures { IsTrue result → HasItsCalls (slots_of known.now.pages.now work.now) nodes.now }
{
    match nodes {
        [own] => all_stand(known, work, own.calls.list()),
        _ => false,
    }
}

// The frames of a run that are to be put in: only its own, where all that it calls itself stands already, or else all of them.
fn fresh(
    store: &Store,
    limit: u64,
    known: &Known<'_>,
    work: &Work,
    evaluator: &mut Evaluator,
    name: u32,
    arg: Num,
) -> Result<Frames, AllocError>
    ensures { IfOk result (IsFresh (slots_of known.now.pages.now work.now) (nodes_of name arg (run_name (programs_of store.now) name arg limit))) }
{
    let own = evaluator.evaluate_own(store, name, arg, limit)?;
    if has_its_calls(known, work, own.nodes.list()) {
        return Ok(own.nodes);
    }
    let run = evaluator.evaluate_alone(store, name, arg, limit)?;
    Ok(run.nodes)
}

// With the runs of all checked arguments of a name.
fn with_name(
    alloc: Global,
    store: &Store,
    limit: u64,
    known: &Known<'_>,
    evaluator: &mut Evaluator,
    mut gathered: Gathered,
    name: u32,
) -> Result<Gathered, AllocError>
    requires values { HasCheckedValues store.now limit }
    requires gathered { IsGathered store.now known.now.pages.now gathered }
    ensures gathered { IfOk result (IsGathered store.now known.now.pages.now) }
    ensures keeps { IfOk result (KeepsRuns known.now.pages.now gathered) }
    ensures here { IfOk result (λ next. HasFirstRuns known.now.pages.now next name (checked_at store.now name)) }
{
    let checked = match store.published(name) {
        Some(published) => published.checked,
        None => 0,
    };
    for index in 0..checked {
        gathered = with_run(alloc, store, limit, known, evaluator, gathered, name, index)?;
    }
    Ok(gathered)
}

/// The runs of all checked arguments of a store.
pub fn gather(
    alloc: Global,
    store: &Store,
    limit: u64,
    known: &Known<'_>,
) -> Result<Gathered, AllocError>
    requires undrawn { IsUndrawn store.now known.now.pages.now }
    requires values { HasCheckedValues store.now limit }
    ensures gathered { IfOk result (IsGathered store.now known.now.pages.now) }
    ensures all { IfOk result (λ next. (name : ℕ) → HasFirstRuns known.now.pages.now next name (checked_at store.now name)) }
{
    let mut evaluator = Evaluator::new(alloc);
    let mut gathered = nothing(alloc, store, known)?;
    let mut last = 0;
    while let Some(name) = store.next_name(last) {
        gathered = with_name(alloc, store, limit, known, &mut evaluator, gathered, name)?;
        last = name;
    }
    Ok(gathered)
}
