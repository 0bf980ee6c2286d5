//! Cycles of calls.

ghost use Rattle.std.specs.Prelude.{IfOk, IfSome, IfNone};
ghost use Rattle.program_store.specs.Store.{programs_of};
ghost use Rattle.program_store.specs.Graph.{OnCycle, NoCycle};
ghost use Rattle.call_graph.specs.Closure.{IsLeast};

use crate::walk::Walk;
use program_store::View;
use std::alloc::{AllocError, Global};

/// The least published name that reaches itself by at least one call. `None` exactly where there is none. Each name is
/// visited once.
pub fn cycle<V: View>(alloc: Global, view: &V) -> Result<Option<u32>, AllocError>
    ensures some { IfOk result (λ found. IfSome found (IsLeast (OnCycle (programs_of (V.store view.now))))) }
    ensures none { IfOk result (λ found. IfNone found (NoCycle (programs_of (V.store view.now)))) }
{
    let mut walk = Walk::new(alloc);
    let mut after = 0;
    while let Some(name) = view.next_name(after) {
        walk.visit(view, name)?;
        after = name;
    }
    Ok(walk.least_looped())
}
