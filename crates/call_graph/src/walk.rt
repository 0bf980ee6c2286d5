//! A walk down the calls that enters each name once.

ghost use Rattle.std.specs.Prelude.{ℕ, ◌≡◌, ◌+◌, ◌<◌, ◌^◌, ◌++◌, ◌∷◌, [], Contains, OnOk, IfSome, IfNone, IsTrue, IsFalse, length, get_or, take, drop, reverse, nat_eq};
ghost use Rattle.std.specs.List.{IsDistinct};
ghost use Rattle.indexmap.specs.IndexSet.{insert_key, insert_all};
ghost use Rattle.call_graph.specs.Closure.{IsLeast};
ghost use Rattle.call_graph.specs.Walks.{IsSettled, IsLoop, AddsLoop, frame};

use crate::closure::add_names;
use crate::groups::{Frame, calls_itself, follow, pop_start};
use indexmap::IndexSet;
use program_store::Library;
use std::alloc::{AllocError, Global};

/// What a walk down the calls has found so far.
#[derive(Drop)]
pub struct Walk {
    /// The names that are done: all that they reach is done too.
    done: IndexSet<u32>,
    /// Those of the names done that are on a cycle.
    looped: Vec<u32>,
    /// The other names that were entered, in order.
    stack: IndexSet<u32>,
    /// Where on the stack each group starts. The names of a group reach each other, and those of the groups after it.
    starts: Vec<usize>,
    /// The names from the one at which the walk began down to the one at which it is.
    path: Vec<Frame>,
}

/// Whether the group has several names, or its one name calls itself.
fn is_loop<B: Library>(lib: &B, group: &[u32]) -> bool
    requires { 0 < length group.now }
    ensures yes { IsTrue result → IsLoop (B.programs lib.now) group.now }
    ensures not { IsFalse result → IsLoop (B.programs lib.now) group.now → ⊥ }
{
    group.len() > 1 || calls_itself(lib, group[0])
}

/// Puts in the names of the group, where it is a loop.
fn add_looped<B: Library>(lib: &B, looped: &mut Vec<u32>, group: &[u32]) -> Result<(), AllocError>
    requires { 0 < length group.now }
    ensures { OnOk result (AddsLoop (B.programs lib.now) group.now looped.old.items looped.new.items) }
{
    if is_loop(lib, group) {
        looped.extend_from_slice(group)?;
    }
    Ok(())
}

impl Walk {
    /// A walk that has found nothing.
    pub fn new(alloc: Global) -> Walk
        ensures done { result.done.keys ≡ [] }
        ensures looped { result.looped.items ≡ [] }
        ensures stack { result.stack.keys ≡ [] }
        ensures starts { result.starts.items ≡ [] }
        ensures path { result.path.items ≡ [] }
    {
        Walk {
            done: IndexSet::new(alloc),
            looped: Vec::new(alloc),
            stack: IndexSet::new(alloc),
            starts: Vec::new(alloc),
            path: Vec::new(alloc),
        }
    }

    /// Goes down to a name, which is a group of its own.
    fn enter(&mut self, name: u32) -> Result<(), AllocError>
        ensures done { OnOk result (self.new.done.keys ≡ self.old.done.keys) }
        ensures looped { OnOk result (self.new.looped.items ≡ self.old.looped.items) }
        ensures stack { OnOk result (self.new.stack.keys ≡ insert_key nat_eq self.old.stack.keys name) }
        ensures starts { OnOk result (self.new.starts.items ≡ self.old.starts.items ++ length self.old.stack.keys ∷ []) }
        ensures path { OnOk result (self.new.path.items ≡ self.old.path.items ++ frame (length self.old.stack.keys) 0 ∷ []) }
        ensures small { OnOk result (length self.old.done.keys + length self.old.stack.keys < 2 ^ 64) }
    {
        // `len` is called on both for its clause that they are small, by which the walk ends.
        let _done = self.done.len();
        let place = self.stack.len();
        self.stack.insert(name)?;
        self.starts.push(place)?;
        self.path.push(Frame { place, next: 0 })?;
        Ok(())
    }

    /// Ends the group that starts at the place: its names are done.
    fn end_group<B: Library>(&mut self, lib: &B, place: usize) -> Result<(), AllocError>
        requires { place < length self.old.stack.keys }
        ensures done { OnOk result (self.new.done.keys ≡ insert_all nat_eq self.old.done.keys (drop place self.old.stack.keys)) }
        ensures looped { OnOk result (AddsLoop (B.programs lib.now) (drop place self.old.stack.keys) self.old.looped.items self.new.looped.items) }
        ensures stack { OnOk result (self.new.stack.keys ≡ take place self.old.stack.keys) }
        ensures starts { OnOk result (self.new.starts.items ≡ self.old.starts.items) }
        ensures path { OnOk result (self.new.path.items ≡ self.old.path.items) }
        ensures distinct { IsDistinct nat_eq self.old.stack.keys }
    {
        let group = &self.stack.as_slice()[place..];
        add_looped(lib, &mut self.looped, group)?;
        add_names(&mut self.done, group)?;
        self.stack.truncate(place);
        Ok(())
    }

    /// Enters a name, if it is not done, and all that it reaches; then they are done.
    pub fn visit<B: Library>(&mut self, lib: &B, name: u32) -> Result<(), AllocError>
        requires { IsSettled (B.programs lib.now) self.old }
        ensures settled { OnOk result (IsSettled (B.programs lib.now) self.new) }
        ensures kept { OnOk result ((q : ℕ) → Contains self.old.done.keys q → Contains self.new.done.keys q) }
        ensures there { OnOk result (Contains self.new.done.keys name) }
    {
        if self.done.contains(&name) {
            return Ok(());
        }
        self.enter(name)?;
        while let Some(frame) = self.path.pop() {
            match follow(lib, &self.done, &self.stack, &mut self.starts, &frame) {
                Some((next, called)) => {
                    let place = frame.place;
                    self.path.push(Frame { place, next })?;
                    self.enter(called)?;
                }
                None => {
                    if pop_start(&mut self.starts, frame.place) {
                        self.end_group(lib, frame.place)?;
                    }
                }
            }
        }
        Ok(())
    }

    /// The least name done that is on a cycle.
    pub fn least_looped(&self) -> Option<u32>
        ensures some { IfSome result (IsLeast (Contains self.now.looped.items)) }
        ensures none { IfNone result ((q : ℕ) → Contains self.now.looped.items q → ⊥) }
    {
        self.looped.iter().copied().min()
    }
}
