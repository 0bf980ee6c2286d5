//! What the answer to a proposal rests on.

ghost use Rattle.std.specs.Prelude.{ℕ, ◌↔◌, IfOk, IfSome, IfNone, Contains};
ghost use Rattle.program_store.specs.Store.{programs_of};
ghost use Rattle.call_graph.specs.Closure.{ReachesByCall};
ghost use Rattle.carry_over.specs.Stores.{IsInReach, NoneHas};
ghost use Rattle.carry_over.specs.Changed.{changed_names, IsFirstTouched};

use call_graph::{ancestors, descendants};
use evidence::Change;
use indexmap::IndexSet;
use program_store::{Proposal, View};
use std::alloc::{AllocError, Global};

// All names that the calls of a published program reach, none where nothing is published under the name.
fn names_below<V: View>(alloc: Global, view: &V, name: u32) -> Result<Vec<u32>, AllocError>
    ensures { IfOk result (λ names. (r : ℕ) → Contains names.items r ↔ ReachesByCall (programs_of (V.store view.now)) name r) }
{
    match view.published(name) {
        Some(published) => descendants(alloc, view, &published.program),
        None => Ok(Vec::new(alloc)),
    }
}

// The names in the reach of a proposal between two stores, some of them more than once.
fn reach<V: View, W: View>(
    alloc: Global,
    older: &V,
    newer: &W,
    proposal: &Proposal,
) -> Result<Vec<u32>, AllocError>
    ensures { IfOk result (λ names. (r : ℕ) → Contains names.items r ↔ IsInReach (V.store older.now) (W.store newer.now) proposal.now.name proposal.now.program r) }
{
    let name = proposal.name;
    let mut names = descendants(alloc, older, &proposal.program)?;
    names.push(name)?;
    names.append(&mut names_below(alloc, older, name)?)?;
    names.append(&mut ancestors(alloc, older, name)?)?;
    names.append(&mut ancestors(alloc, newer, name)?)?;
    Ok(names)
}

// The names of a list, each once.
fn as_set(alloc: Global, names: &[u32]) -> Result<IndexSet<u32>, AllocError>
    ensures { IfOk result (λ set. (r : ℕ) → Contains set.keys r ↔ Contains names.now r) }
{
    let mut set = IndexSet::new(alloc);
    for name in names {
        set.insert(*name)?;
    }
    Ok(set)
}

// The first of the changes whose name is among these.
fn first_among(names: &IndexSet<u32>, changes: &[Change]) -> Option<Change>
    ensures some { IfSome result (IsFirstTouched (Contains names.now.keys) changes.now) }
    ensures none { IfNone result (NoneHas (Contains names.now.keys) (changed_names changes.now)) }
{
    for change in changes {
        if names.contains(&change.name) {
            return Some(*change);
        }
    }
    None
}

/// The first of the changes between two stores whose name is in the reach of a proposal. `None` exactly where none is. The
/// reach is found once.
pub fn first_touched<V: View, W: View>(
    alloc: Global,
    older: &V,
    newer: &W,
    proposal: &Proposal,
    changes: &[Change],
) -> Result<Option<Change>, AllocError>
    ensures some { IfOk result (λ found. IfSome found (IsFirstTouched (IsInReach (V.store older.now) (W.store newer.now) proposal.now.name proposal.now.program) changes.now)) }
    ensures none { IfOk result (λ found. IfNone found (NoneHas (IsInReach (V.store older.now) (W.store newer.now) proposal.now.name proposal.now.program) (changed_names changes.now))) }
{
    let names = reach(alloc, older, newer, proposal)?;
    let set = as_set(alloc, &names)?;
    Ok(first_among(&set, changes))
}
