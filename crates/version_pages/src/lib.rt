//! A map from names whose versions stay: a new version shares with the old one all that did not change.
#![tactic(auto)]

ghost use Rattle.std.specs.Prelude.{◌≡◌, ◌≤◌, IfOk, IfSome, IfNone};
ghost use Rattle.std.specs.Option.{option_copied};
ghost use Rattle.std.specs.FinMap as map;
ghost use Rattle.text_parts.specs.Names.{IsName};
ghost use Rattle.version_pages.specs.Names.{HasNamesOnly, HasNoneAbove, IsNextName};

mod block;
mod row;
mod table;

use row::Row;
use std::alloc::{AllocError, Global};
use std::marker::Model;
use std::sync::Arc;
use table::{Table, into_with_value, next_after, value_at, with_value};
use text_parts::GREATEST_NAME;

/// A map from names, which are the numbers from 1 to 999,999, to values.
///
/// It is a table of 1,000 pages with 1,000 places each. The table, its pages and their values are held by `Arc`,
/// and none of them is ever written again, so a version of the map stays as it is while newer ones are made of it.
#[derive(Drop)]
pub struct Pages<T> {
    table: Arc<Table<T>>,
}

impl<T> Model for Pages<T> {
    ghost use Rattle.std.specs.Prelude.{◌≡◌, ◌≤◌, length, None};
    ghost use Rattle.std.specs.Arc.{arc_value};
    ghost use Rattle.std.specs.Coded.{coded_ℕ};
    ghost use Rattle.std.specs.Ordering.{nat_cmp};
    ghost use Rattle.std.specs.FinMap as map;
    ghost use Rattle.version_pages.specs.Table.{at_name, map_of};

    ghost Value = { map.FinMap nat_cmp T };

    ghost coded = { map.code coded_ℕ T.code };

    ghost view = { λ pages. map_of (arc_value pages.table) };

    ghost invariant = { λ pages. (length (arc_value pages.table) ≤ 1000) × (at_name (arc_value pages.table) 0 ≡ None) };
}

impl<T: Drop> Pages<T> {
    /// The map with nothing in it.
    pub fn empty(alloc: Global) -> Result<Self, AllocError>
        ensures { IfOk result (λ pages. pages ≡ map.empty) }
    {
        let table = Arc::new(alloc, Row::new(alloc))?;
        Ok(Self { table })
    }

    /// The value at a name, if there is one.
    pub fn get(&self, name: u32) -> Option<&T>
        requires { IsName name }
        ensures value { option_copied result ≡ map.get self.now name }
        ensures names { HasNamesOnly self.now }
    {
        value_at(&self.table, name)
    }

    /// The least name above `after` that has a value. Pages with nothing on them are passed over.
    pub fn next_name(&self, after: u32) -> Option<u32>
        requires { after ≤ GREATEST_NAME }
        ensures found { IfSome result (λ next. IsNextName self.now after next) }
        ensures none { IfNone result (HasNoneAbove self.now after) }
    {
        next_after(&self.table, after)
    }

    /// The next version: the map with this value at this name. This version, which is only read, and all that were
    /// made before it stay as they are. The new one has a page and an upper level of its own, and shares every other
    /// page and every other value with this one.
    pub fn put(&self, name: u32, value: T) -> Result<Self, AllocError>
        requires { IsName name }
        ensures { IfOk result (λ next. next ≡ map.insert self.now name value) }
    {
        let table = with_value(&self.table, name, value)?;
        let table = Arc::new(self.table.allocator(), table)?;
        Ok(Self { table })
    }

    /// This version with this value at this name. This version is given up for it: the page and the upper level that no
    /// other version shares are written in place, and the others are copied first. All other versions stay as they are.
    pub fn with(self, name: u32, value: T) -> Result<Self, AllocError>
        requires { IsName name }
        ensures { IfOk result (λ next. next ≡ map.insert self name value) }
    {
        let alloc = self.table.allocator();
        let table = match Arc::try_unwrap(self.table) {
            Ok(table) => into_with_value(table, name, value)?,
            Err(shared) => with_value(&shared, name, value)?,
        };
        let table = Arc::new(alloc, table)?;
        Ok(Self { table })
    }

    /// An equal map, which shares everything with this one.
    pub fn share(&self) -> Result<Self, AllocError>
        ensures { IfOk result (λ same. same ≡ self.now) }
    {
        let table = Arc::try_clone(&self.table)?;
        Ok(Self { table })
    }
}

#[cfg(test)]
mod tests;
