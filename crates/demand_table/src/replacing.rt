//! The parts of a table in which frames stand for a name.

ghost use Rattle.std.specs.Prelude.{◌≡◌, ℕ, IfOk};
ghost use Rattle.text_parts.specs.Names.{IsName};
ghost use Rattle.demand_table.specs.Drawn.{IsDrawn, with_range};
ghost use Rattle.demand_table.specs.Loaded.{node_at, checks_of};
ghost use Rattle.demand_table.specs.Mended.{Fits, mended, runs_of};
ghost use Rattle.demand_table.specs.Held.{IsHeld};

use crate::holding::Known;
use crate::names::Names;
use crate::node::Folder;
use crate::range::Range;
use crate::reaching::with_runs;
use crate::remade::mended;
use crate::upward::callers_of;
use crate::writing::filed;
use seq_calls::NodeRun;
use std::alloc::{AllocError, Global};
use version_pages::Pages;

/// The folders of a table, the names under each name that may call it, and the number of the nodes.
#[derive(Drop)]
pub struct Parts {
    pub folders: Pages<Folder>,
    pub callers: Pages<Names>,
    pub nodes: u64,
}

/// The parts of the table in which the frames stand for the name.
pub fn replaced(
    alloc: Global,
    parts: &Parts,
    name: u32,
    range: Range,
    runs: &[NodeRun],
) -> Result<Parts, AllocError>
    requires name { IsName name }
    requires held { IsHeld parts.now.folders parts.now.callers parts.now.nodes }
    requires fits { Fits (checks_of parts.now.folders) (runs_of (node_at parts.now.folders)) name range runs.now }
    ensures held { IfOk result (λ next. IsHeld next.folders next.callers next.nodes) }
    ensures drawn { IfOk result (λ next. IsDrawn (with_range (checks_of parts.now.folders) name range) (mended (runs_of (node_at parts.now.folders)) name runs.now) (node_at next.folders)) }
    ensures checks { IfOk result (λ next. (q : ℕ) → checks_of next.folders q ≡ with_range (checks_of parts.now.folders) name range q) }
{
    let folders = &parts.folders;
    let callers = with_runs(alloc, &parts.callers, runs)?;
    let names = callers_of(alloc, &callers, name)?;
    let made = mended(alloc, folders, parts.nodes, name, range, runs, &names)?;
    let known = Known::of(folders);
    let next = filed(alloc, &known, made.work, name, range)?;
    Ok(Parts {
        folders: next,
        callers,
        nodes: made.nodes,
    })
}
