//! Which names may lead to a name.

ghost use Rattle.std.specs.Prelude.{◌≡◌, ℕ, true, OnOk, IfOk, Contains};
ghost use Rattle.std.specs.Ordering.{nat_cmp};
ghost use Rattle.std.specs.BTreeSet as sorted;
ghost use Rattle.demand_table.specs.Upward.{names_filed_under, AddsNames, IsMetOnly};

use crate::names::Names;
use std::alloc::{AllocError, Global};
use std::collections::BTreeSet;
use text_parts::GREATEST_NAME;
use version_pages::Pages;

// Adds the names that were not met yet.
fn add_new(found: &[u32], names: &mut Vec<u32>, met: &mut BTreeSet<u32>) -> Result<(), AllocError>
    requires { IsMetOnly met.old names.old.items }
    ensures adds { OnOk result (AddsNames names.old.items names.new.items found.now) }
    ensures met { OnOk result (IsMetOnly met.new names.new.items) }
{
    for name in found {
        if met.insert(*name)? {
            names.push(*name)?;
        }
    }
    Ok(())
}

/// The names under a name.
pub fn under(callers: &Pages<Names>, name: u32) -> &[u32]
    ensures { result.now ≡ names_filed_under callers.now name }
{
    let _first = callers.get(1);
    if name < 1 || name > GREATEST_NAME {
        return &[];
    }
    match callers.get(name) {
        Some(names) => &names.list,
        None => &[],
    }
}

/// The name, and all names from which it may be reached upward, each before those that are found by it.
pub fn callers_of(alloc: Global, callers: &Pages<Names>, name: u32) -> Result<Vec<u32>, AllocError>
    ensures has { IfOk result (λ names. Contains names.items name) }
    ensures closed { IfOk result (λ names. (to from : ℕ) → Contains names.items to → Contains (names_filed_under callers.now to) from → Contains names.items from) }
{
    let mut met = BTreeSet::new(alloc);
    let mut names = Vec::new(alloc);
    names.push(name)?;
    let mut next = 0;
    while next < names.len() {
        let found = under(callers, names[next]);
        add_new(found, &mut names, &mut met)?;
        next += 1;
    }
    Ok(names)
}
