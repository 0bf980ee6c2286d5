//! Under each name those that may call it.

ghost use Rattle.std.specs.Prelude.{◌≡◌, ℕ, IfOk, Contains};
ghost use Rattle.text_parts.specs.Names.{IsName};
ghost use Rattle.demand_table.specs.Upward.{names_filed_under};
ghost use Rattle.demand_table.specs.Reaching.{Grows, HasCalls, HasRuns, IsMetCalls};

use crate::names::Names;
use crate::upward::under;
use seq_calls::NodeRun;
use std::alloc::{AllocError, Global};
use std::collections::BTreeSet;
use text_parts::GREATEST_NAME;
use version_pages::Pages;

// The name stands under another one.
fn add_caller(
    alloc: Global,
    callers: Pages<Names>,
    to: u32,
    from: u32,
) -> Result<Pages<Names>, AllocError>
    ensures grows { IfOk result (λ next. Grows callers next) }
    ensures here { IfOk result (λ next. IsName to → Contains (names_filed_under next to) from) }
{
    if to < 1 || to > GREATEST_NAME {
        return Ok(callers);
    }
    let found = under(&callers, to);
    if found.contains(&from) {
        return Ok(callers);
    }
    let mut list = found.to_vec(alloc)?;
    list.push(from)?;
    let next = callers.with(to, Names { list })?;
    Ok(next)
}

// The name of the run stands under each name that the run calls.
fn add_run(
    alloc: Global,
    callers: Pages<Names>,
    run: &NodeRun,
    met: &mut BTreeSet<(u32, u32)>,
) -> Result<Pages<Names>, AllocError>
    requires { IsMetCalls met.old callers }
    ensures grows { IfOk result (λ next. Grows callers next) }
    ensures met { IfOk result (IsMetCalls met.new) }
    ensures calls { IfOk result (λ next. HasCalls next run.now.pair.name run.now.calls) }
{
    let mut next = callers;
    for call in run.calls.list() {
        if met.insert((call.name, run.pair.name))? {
            next = add_caller(alloc, next, call.name, run.pair.name)?;
        }
    }
    Ok(next)
}

/// The lists in which each run's name also stands under the names that it calls.
pub fn with_runs(
    alloc: Global,
    callers: &Pages<Names>,
    runs: &[NodeRun],
) -> Result<Pages<Names>, AllocError>
    ensures grows { IfOk result (λ next. Grows callers.now next) }
    ensures runs { IfOk result (λ next. HasRuns next runs.now) }
{
    let mut next = callers.share()?;
    let mut met: BTreeSet<(u32, u32)> = BTreeSet::new(alloc);
    for run in runs {
        next = add_run(alloc, next, run, &mut met)?;
    }
    Ok(next)
}
