//! Calls turned round: for each name that is called, the names whose programs call it.

ghost use Rattle.std.specs.Prelude.{ℕ, ◌≡◌, ◌++◌, ◌∷◌, ◌≢◌, ◌↔◌, [], Contains, IfOk, OnOk, nat_eq};
ghost use Rattle.indexmap.specs.IndexSet.{insert_all};
ghost use Rattle.program_store.specs.Store.{programs_of};
ghost use Rattle.program_store.specs.Graph.{calls_of};
ghost use Rattle.call_graph.specs.Closure.{CallsName};
ghost use Rattle.call_graph.specs.Callers.{names_under, AddsCaller};

use crate::closure::{add_names, called_names};
use indexmap::{IndexMap, IndexSet};
use loda_syntax::Program;
use program_store::{Library, View};
use std::alloc::{AllocError, Global};

/// Puts a name last under one that it calls.
fn add_caller(
    callers: &mut IndexMap<u32, Vec<u32>>,
    called: u32,
    caller: u32,
) -> Result<(), AllocError>
    ensures added { OnOk result (names_under callers.new called ≡ names_under callers.old called ++ caller ∷ []) }
    ensures others { OnOk result ((name : ℕ) → name ≢ called → names_under callers.new name ≡ names_under callers.old name) }
{
    callers.entry(called)?.or_default().push(caller)?;
    Ok(())
}

/// Puts a name under each one that its program's text calls.
fn add_program(
    alloc: Global,
    callers: &mut IndexMap<u32, Vec<u32>>,
    program: &Program,
    caller: u32,
) -> Result<(), AllocError>
    ensures { OnOk result (AddsCaller (names_under callers.old) (names_under callers.new) caller (calls_of program.now)) }
{
    let names = called_names(alloc, program)?;
    for name in &names {
        add_caller(callers, *name, caller)?;
    }
    Ok(())
}

/// The names that call each name. Each published name is visited once.
pub fn callers<V: View>(alloc: Global, view: &V) -> Result<IndexMap<u32, Vec<u32>>, AllocError>
    ensures { IfOk result (λ callers. (to from : ℕ) → Contains (names_under callers to) from ↔ CallsName (programs_of (V.store view.now)) from to) }
{
    let mut callers = IndexMap::new(alloc);
    let mut after = 0;
    while let Some(caller) = view.next_name(after) {
        if let Some(program) = view.program(caller) {
            add_program(alloc, &mut callers, program, caller)?;
        }
        after = caller;
    }
    Ok(callers)
}

/// Puts in the names that stand under a name, in order.
pub fn add_callers(
    names: &mut IndexSet<u32>,
    callers: &IndexMap<u32, Vec<u32>>,
    called: u32,
) -> Result<(), AllocError>
    ensures { OnOk result (names.new.keys ≡ insert_all nat_eq names.old.keys (names_under callers.now called)) }
{
    match callers.get(&called) {
        Some(list) => add_names(names, list),
        None => Ok(()),
    }
}
