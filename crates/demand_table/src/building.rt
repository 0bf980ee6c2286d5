//! Tables from nothing.

ghost use Rattle.std.specs.Prelude.{◌≡◌, IfOk};
ghost use Rattle.program_store.specs.Store.{IsStore};
ghost use Rattle.demand_table.specs.Gathered.{IsUndrawn};
ghost use Rattle.demand_table.specs.Held.{IsHeld};
ghost use Rattle.demand_table.specs.Nodes.{HasCheckedValues};
ghost use Rattle.demand_table.specs.Tabled.{IsTabled};

use crate::forgetting::forget_all;
use crate::gathering::gather;
use crate::holding::Known;
use crate::node::{Folder, Nodes};
use crate::replacing::Parts;
use crate::settling::settle_all;
use crate::writing::written;
use program_store::{Published, Store, View};
use std::alloc::{AllocError, Global};
use version_pages::Pages;

/// The programs of a store, and folders with its checked arguments and no nodes.
#[derive(Drop)]
pub struct Undrawn {
    pub programs: Pages<Published>,
    pub folders: Pages<Folder>,
}

/// The programs of a store, and its checked arguments without nodes.
pub fn copy_store(alloc: Global, store: &Store) -> Result<Undrawn, AllocError>
    ensures kept { IfOk result (λ u. IsStore store.now) }
    ensures programs { IfOk result (λ u. u.programs ≡ store.now) }
    ensures folders { IfOk result (λ u. IsUndrawn store.now u.folders) }
{
    let mut programs = Pages::empty(alloc)?;
    let mut folders = Pages::empty(alloc)?;
    let mut last = 0;
    while let Some(name) = store.next_name(last) {
        if let Some(published) = store.published(name) {
            let folder = Folder {
                first: 0,
                checked: published.checked,
                nodes: Nodes::of(Vec::new(alloc)),
            };
            folders = folders.with(name, folder)?;
            programs = programs.with(name, published.copy()?)?;
        }
        last = name;
    }
    Ok(Undrawn { programs, folders })
}

/// The parts of the table of a store.
pub fn drawn(
    alloc: Global,
    store: &Store,
    limit: u64,
    folders: &Pages<Folder>,
) -> Result<Parts, AllocError>
    requires kept { IsStore store.now }
    requires undrawn { IsUndrawn store.now folders.now }
    requires values { HasCheckedValues store.now limit }
    ensures held { IfOk result (λ parts. IsHeld parts.folders parts.callers parts.nodes) }
    ensures tabled { IfOk result (λ parts. IsTabled store.now parts.folders) }
{
    let known = Known::of(folders);
    let gathered = gather(alloc, store, limit, &known)?;
    let mut work = gathered.work;
    let mut unsettled = Vec::new(alloc);
    let waiting = forget_all(alloc, &known, &mut work, &gathered.pairs, &mut unsettled)?;
    settle_all(alloc, &known, &mut work, &unsettled, waiting)?;
    let next = written(alloc, folders, work)?;
    Ok(Parts {
        folders: next,
        callers: gathered.callers,
        nodes: gathered.stand,
    })
}
