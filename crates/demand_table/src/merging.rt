//! Nodes with those of slots in their places.

ghost use Rattle.std.specs.Prelude.{◌≡◌, ◌++◌, ℤ, drop, IfOk, OnOk};
ghost use Rattle.demand_table.specs.Written.{node_here, nodes_below, not_below, without, merged};

use crate::entry::copied;
use crate::node::Node;
use crate::slot::Slot;
use checked_numbers::Num;
use std::alloc::{AllocError, Global};
use std::collections::BTreeMap;

// An equal node.
fn copy(alloc: Global, node: &Node) -> Result<Node, AllocError>
    ensures { IfOk result (λ copy. copy ≡ node.now) }
{
    let calls = copied(alloc, &node.calls)?;
    Ok(Node {
        arg: node.arg,
        value: node.value,
        own: node.own,
        total: node.total,
        calls,
        callers: node.callers,
    })
}

// The nodes from a place on that are below an argument join the list. Says where they end.
fn keep_below(
    alloc: Global,
    old: &[Node],
    from: usize,
    arg: Num,
    nodes: &mut Vec<Node>,
) -> Result<usize, AllocError>
    ensures nodes { OnOk result (nodes.new.items ≡ nodes.old.items ++ nodes_below arg (drop from old.now)) }
    ensures rest { IfOk result (λ at. drop at old.now ≡ not_below arg (drop from old.now)) }
{
    for at in from..old.len() {
        let node = &old[at];
        if node.arg.get() >= arg.get() {
            return Ok(at);
        }
        let kept = copy(alloc, node)?;
        nodes.push(kept)?;
    }
    Ok(old.len())
}

// The place after the node of an argument, if it stands at this place.
#[tactic(auto, using(crate::proofs::Merge_steps::past_same, crate::proofs::Merge_steps::past_other, crate::proofs::Merge_steps::past_all))]
fn past(old: &[Node], at: usize, arg: Num) -> usize
    ensures { drop result old.now ≡ without arg (drop at old.now) }
{
    if at >= old.len() {
        return at;
    }
    let node = &old[at];
    if node.arg.get() == arg.get() {
        return at + 1;
    }
    at
}

// The node of a slot joins the list, if the slot has a run.
fn put_node(nodes: &mut Vec<Node>, arg: Num, slot: Slot) -> Result<(), AllocError>
    ensures { OnOk result (nodes.new.items ≡ nodes.old.items ++ node_here arg slot slot.entry) }
{
    let Slot {
        callers,
        entry,
        total,
    } = slot;
    if let Some(entry) = entry {
        nodes.push(Node {
            arg,
            value: entry.value,
            own: entry.own,
            total: total.unwrap_or(0),
            calls: entry.calls,
            callers,
        })?;
    }
    Ok(())
}

// The nodes from a place on join the list.
fn keep_rest(
    alloc: Global,
    old: &[Node],
    from: usize,
    nodes: &mut Vec<Node>,
) -> Result<(), AllocError>
    ensures { OnOk result (nodes.new.items ≡ nodes.old.items ++ drop from old.now) }
{
    for at in from..old.len() {
        let node = &old[at];
        let kept = copy(alloc, node)?;
        nodes.push(kept)?;
    }
    Ok(())
}

/// The nodes with those of the slots in their places. Both stand in ascending order of their arguments.
pub fn merged(
    alloc: Global,
    old: &[Node],
    slots: BTreeMap<Num, Slot>,
) -> Result<Vec<Node>, AllocError>
    ensures { IfOk result (λ nodes. nodes.items ≡ merged old.now slots.entries) }
{
    let mut nodes = Vec::new(alloc);
    let mut at = 0;
    for (arg, slot) in slots {
        let below = keep_below(alloc, old, at, arg, &mut nodes)?;
        at = past(old, below, arg);
        put_node(&mut nodes, arg, slot)?;
    }
    keep_rest(alloc, old, at, &mut nodes)?;
    Ok(nodes)
}
