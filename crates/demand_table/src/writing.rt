//! Slots as nodes.

ghost use Rattle.std.specs.Prelude.{◌≡◌, ℕ, IfOk, IsSome};
ghost use Rattle.std.specs.Ordering.{int_cmp};
ghost use Rattle.std.specs.BTreeMap as tree;
ghost use Rattle.loda_semantics.specs.declared.kinds.Pair.{Pair};
ghost use Rattle.text_parts.specs.Names.{IsName};
ghost use Rattle.demand_table.specs.Drawn.{with_range};
ghost use Rattle.demand_table.specs.Loaded.{slots_of, touched_in, node_in, node_at, checks_of};
ghost use Rattle.demand_table.specs.Mended.{drawing_of};
ghost use Rattle.demand_table.specs.Ascending.{Ascends, AllAscend};
ghost use Rattle.demand_table.specs.Filed.{IsFiled, IsWrittenDown, filed_at};

use crate::holding::Known;
use crate::known;
use crate::merging::merged;
use crate::node::{Folder, Node, Nodes};
use crate::range::Range;
use crate::slot::Slot;
use crate::work::Work;
use checked_numbers::Num;
use std::alloc::{AllocError, Global};
use std::collections::BTreeMap;
use text_parts::GREATEST_NAME;
use version_pages::Pages;

// The nodes of a name, in ascending order of their arguments: those that it had, and in their places those of its slots.
fn nodes_of(alloc: Global, old: &[Node], slots: BTreeMap<Num, Slot>) -> Result<Nodes, AllocError>
    requires { Ascends old.now }
    ensures nodes { IfOk result (λ nodes. (p : Pair) → node_in nodes p.arg ≡ filed_at slots (node_in old.now p.arg) p) }
    ensures ascend { IfOk result Ascends }
{
    let _len = slots.len();
    let list = merged(alloc, old, slots)?;
    Ok(Nodes::of(list))
}

// Puts the nodes of a name's slots into its folder, if it has one.
fn write_name(
    alloc: Global,
    folders: Pages<Folder>,
    name: u32,
    slots: BTreeMap<Num, Slot>,
) -> Result<Pages<Folder>, AllocError>
    requires { AllAscend folders }
    ensures { IfOk result (λ next. IsFiled folders next name slots) }
{
    let _first = folders.get(1);
    if name < 1 || name > GREATEST_NAME {
        return Ok(folders);
    }
    let Some(folder) = folders.get(name) else {
        return Ok(folders);
    };
    let nodes = nodes_of(alloc, folder.nodes.list(), slots)?;
    let made = Folder {
        first: folder.first,
        checked: folder.checked,
        nodes,
    };
    let next = folders.with(name, made)?;
    Ok(next)
}

/// The folders with the nodes of the slots that were touched.
pub fn written(
    alloc: Global,
    folders: &Pages<Folder>,
    work: Work,
) -> Result<Pages<Folder>, AllocError>
    requires { AllAscend folders.now }
    ensures { IfOk result (λ next. IsWrittenDown folders.now next work) }
{
    let mut next = folders.share()?;
    let _len = work.touched.len();
    for (name, slots) in work.touched {
        next = write_name(alloc, next, name, slots)?;
    }
    Ok(next)
}

// Takes the slots of a name that were touched.
fn take_name(alloc: Global, work: &mut Work, name: u32) -> BTreeMap<Num, Slot>
    ensures slots { (p : Pair) → p.name ≡ name → tree.get int_cmp result p.arg ≡ touched_in work.old p }
    ensures others { (p : Pair) → (p.name ≡ name → ⊥) → touched_in work.new p ≡ touched_in work.old p }
{
    match work.touched.remove(&name) {
        Some(slots) => slots,
        None => BTreeMap::new(alloc),
    }
}

// The nodes that a name had.
#[tactic(auto, using(crate::proofs::Filing::has_nodes, crate::proofs::Filing::no_nodes))]
fn old_nodes<'a>(known: &Known<'a>, name: u32) -> &'a [Node]
    ensures nodes { (p : Pair) → p.name ≡ name → node_in result.now p.arg ≡ node_at known.now.pages.now p }
    ensures ascend { Ascends result.now }
{
    match known::folder(known, name) {
        Some(folder) => folder.nodes.list(),
        None => &[],
    }
}

/// The folders of the mended table: those of the old one, with this range for the name, and with the nodes of the slots.
pub fn filed(
    alloc: Global,
    known: &Known<'_>,
    mut work: Work,
    name: u32,
    range: Range,
) -> Result<Pages<Folder>, AllocError>
    requires { IsName name }
    ensures checks { IfOk result (λ next. (q : ℕ) → checks_of next q ≡ with_range (checks_of known.now.pages.now) name range q) }
    ensures nodes { IfOk result (λ next. (p : Pair) → IsSome (with_range (checks_of known.now.pages.now) name range p.name) → node_at next p ≡ drawing_of (slots_of known.now.pages.now work) p) }
    ensures ascend { IfOk result (λ next. AllAscend known.now.pages.now → AllAscend next) }
{
    let slots = take_name(alloc, &mut work, name);
    let old = old_nodes(known, name);
    let nodes = nodes_of(alloc, old, slots)?;
    let rest = written(alloc, known.pages, work)?;
    let folder = Folder {
        first: range.first,
        checked: range.checked,
        nodes,
    };
    let next = rest.with(name, folder)?;
    Ok(next)
}
