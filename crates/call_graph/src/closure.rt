//! The names that a set of names reaches.

ghost use Rattle.std.specs.Prelude.{ℕ, ◌≡◌, ◌≤◌, ◌↔◌, Contains, IfOk, OnOk, length, take, nat_eq};
ghost use Rattle.indexmap.specs.IndexSet.{insert_all, index_set_len};
ghost use Rattle.program_store.specs.Graph.{calls_of};
ghost use Rattle.call_graph.specs.Closure.{HasCallsOf, HasItsCalls, ReachedFrom};

use indexmap::IndexSet;
use loda_syntax::{Instr, Program};
use program_store::Library;
use std::alloc::{AllocError, Global};

/// The names that the program's text calls, in order.
pub fn called_names(alloc: Global, program: &Program) -> Result<Vec<u32>, AllocError>
    ensures { IfOk result (λ names. names.items ≡ calls_of program.now) }
{
    let mut names = Vec::new(alloc);
    let list = program.instrs();
    for instr in list {
        if let Instr::Call { target: _, name } = instr {
            names.push(*name)?;
        }
    }
    Ok(names)
}

/// Puts in the names, in order.
pub fn add_names(names: &mut IndexSet<u32>, more: &[u32]) -> Result<(), AllocError>
    ensures { OnOk result (names.new.keys ≡ insert_all nat_eq names.old.keys more.now) }
{
    for name in more {
        names.insert(*name)?;
    }
    Ok(())
}

/// Puts in the names that the program's text calls, in order.
pub fn add_calls(
    alloc: Global,
    names: &mut IndexSet<u32>,
    program: &Program,
) -> Result<(), AllocError>
    ensures { OnOk result (names.new.keys ≡ insert_all nat_eq names.old.keys (calls_of program.now)) }
{
    let called = called_names(alloc, program)?;
    add_names(names, &called)
}

/// Puts in all names that the set's names reach. The calls of the names before `at` are there already.
pub fn close<B: Library>(
    alloc: Global,
    lib: &B,
    names: &mut IndexSet<u32>,
    at: usize,
) -> Result<(), AllocError>
    requires { (q : ℕ) → Contains (take at names.old.keys) q → HasCallsOf (B.programs lib.now) names.old.keys q }
    ensures reached { OnOk result ((q : ℕ) → Contains names.new.keys q ↔ ReachedFrom (B.programs lib.now) names.old.keys q) }
    ensures closed { OnOk result (HasItsCalls (B.programs lib.now) names.new.keys) }
{
    let mut next = at;
    while next < names.len() {
        let name = names.as_slice()[next];
        if let Some(program) = lib.program(name) {
            add_calls(alloc, names, program)?;
        }
        next += 1;
    }
    Ok(())
}
