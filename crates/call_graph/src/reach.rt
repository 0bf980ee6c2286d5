//! What reaches what.

ghost use Rattle.std.specs.Prelude.{ℕ, ◌≡◌, ◌↔◌, Contains, IfOk, IfSome, IfNone};
ghost use Rattle.std.specs.List.Sorted.{IsStrictlyIncreasing};
ghost use Rattle.program_store.specs.Store.{programs_of};
ghost use Rattle.program_store.specs.Graph.{calls_of, Reaches, CallsReach, FirstWith};
ghost use Rattle.call_graph.specs.Closure.{ReachesByCall};

use crate::callers::{add_callers, callers};
use crate::closure::{add_calls, called_names, close};
use indexmap::IndexSet;
use loda_syntax::Program;
use program_store::{Library, View};
use std::alloc::{AllocError, Global};

/// The first name in the program's text that reaches `target` by calls; a name reaches itself. `None` exactly where no
/// name of the text does. Each name is visited once.
pub fn first_through<B: Library>(
    alloc: Global,
    lib: &B,
    program: &Program,
    target: u32,
) -> Result<Option<u32>, AllocError>
    ensures some { IfOk result (λ first. IfSome first (FirstWith (λ name. Reaches (B.programs lib.now) name target) (calls_of program.now))) }
    ensures none { IfOk result (λ first. IfNone first ((n : ℕ) → Contains (calls_of program.now) n → Reaches (B.programs lib.now) n target → ⊥)) }
{
    let mut seen = IndexSet::new(alloc);
    let names = called_names(alloc, program)?;
    for name in &names {
        let at = seen.len();
        seen.insert(*name)?;
        close(alloc, lib, &mut seen, at)?;
        if seen.contains(&target) {
            return Ok(Some(*name));
        }
    }
    Ok(None)
}

/// The names of a set, ascending.
fn ascending(alloc: Global, names: &IndexSet<u32>) -> Result<Vec<u32>, AllocError>
    ensures ascending { IfOk result (λ sorted. IsStrictlyIncreasing sorted.items) }
    ensures exact { IfOk result (λ sorted. (q : ℕ) → Contains sorted.items q ↔ Contains names.now.keys q) }
{
    let mut sorted = Vec::from_slice(alloc, names.as_slice())?;
    sorted.sort()?;
    Ok(sorted)
}

/// All names that the program's calls reach, ascending.
pub fn descendants<B: Library>(
    alloc: Global,
    lib: &B,
    program: &Program,
) -> Result<Vec<u32>, AllocError>
    ensures ascending { IfOk result (λ names. IsStrictlyIncreasing names.items) }
    ensures exact { IfOk result (λ names. (q : ℕ) → Contains names.items q ↔ CallsReach (B.programs lib.now) program.now q) }
{
    let mut reached = IndexSet::new(alloc);
    add_calls(alloc, &mut reached, program)?;
    close(alloc, lib, &mut reached, 0)?;
    ascending(alloc, &reached)
}

/// All published names that reach `name` by at least one call, ascending. Each published name is visited once.
pub fn ancestors<V: View>(alloc: Global, view: &V, name: u32) -> Result<Vec<u32>, AllocError>
    ensures ascending { IfOk result (λ names. IsStrictlyIncreasing names.items) }
    ensures exact { IfOk result (λ names. (q : ℕ) → Contains names.items q ↔ ReachesByCall (programs_of (V.store view.now)) q name) }
{
    let callers = callers(alloc, view)?;
    let mut above = IndexSet::new(alloc);
    add_callers(&mut above, &callers, name)?;
    let mut next = 0;
    while next < above.len() {
        let caller = above.as_slice()[next];
        add_callers(&mut above, &callers, caller)?;
        next += 1;
    }
    ascending(alloc, &above)
}
