//! A table of pages: what stands at a name, and the table with one value more.

ghost use Rattle.std.specs.Prelude.{◌≡◌, ◌≢◌, ℕ, ◌+◌, ◌/◌, ◌%◌, ◌<◌, ◌≤◌, length, IfOk, IfSome, IfNone, IsSome};
ghost use Rattle.std.specs.Option.{option_and_then, option_copied, option_map};
ghost use Rattle.std.specs.Arc.{arc_value};
ghost use Rattle.std.specs.FinMap as map;
ghost use Rattle.text_parts.specs.Names.{IsName};
ghost use Rattle.version_pages.specs.Names.{HasNoneAbove, IsNextName};
ghost use Rattle.version_pages.specs.Table.{place, on_page, at_name, map_of};

use crate::row::{PLACES, Row};
use std::alloc::{AllocError, Global};
use std::sync::Arc;
use text_parts::GREATEST_NAME;

/// Up to 1,000 pages.
pub type Table<T> = Row<Row<T>>;

/// The value at a name.
pub fn value_at<T>(table: &Table<T>, name: u32) -> Option<&T>
    ensures { option_copied result ≡ map.get (map_of table.now) name }
{
    table.get(page_of(name))?.get(place_of(name))
}

/// The least name above `after` that has a value.
pub fn next_after<T>(table: &Table<T>, after: u32) -> Option<u32>
    requires { after ≤ GREATEST_NAME }
    ensures found { IfSome result (λ next. IsNextName (map_of table.now) after next) }
    ensures none { IfNone result (HasNoneAbove (map_of table.now) after) }
{
    let first = after as usize + 1;
    let mut from = first % PLACES;
    for page in first / PLACES..table.len() {
        if let Some(at) = next_on(table, page, from) {
            return Some((page * PLACES + at) as u32);
        }
        from = 0;
    }
    None
}

// The least place of a page from `from` on that holds something. A page that is absent isn't looked into.
fn next_on<T>(table: &Table<T>, page: usize, from: usize) -> Option<usize>
    ensures range { IfSome result (λ at. (from ≤ at) × (at < 1000)) }
    ensures found { IfSome result (λ at. IsSome (on_page table.now page at)) }
    ensures least { IfSome result (λ at. (k : ℕ) → from ≤ k → k < at → on_page table.now page k ≡ None) }
    ensures none { IfNone result ((k : ℕ) → from ≤ k → on_page table.now page k ≡ None) }
{
    match table.get(page) {
        Some(places) => places.next(from),
        None => None,
    }
}

/// The table with this value at this name. It has a page and an upper level of its own, and shares the rest.
pub fn with_value<T: Drop>(table: &Table<T>, name: u32, value: T) -> Result<Table<T>, AllocError>
    requires { IsName name }
    ensures map { IfOk result (λ new. map_of new ≡ map.insert (map_of table.now) name value) }
    ensures bound { IfOk result (λ new. length new ≤ 1000) }
    ensures zeroth { IfOk result (λ new. at_name new 0 ≡ at_name table.now 0) }
{
    let page = page_with(table, name, value)?;
    let new = table.with(page_of(name), page)?;
    Ok(new)
}

// The page of a name with this value at the name.
fn page_with<T: Drop>(table: &Table<T>, name: u32, value: T) -> Result<Row<T>, AllocError>
    ensures here { IfOk result (λ page. place page (name % 1000) ≡ Some value) }
    ensures others { IfOk result (λ page. (k : ℕ) → k ≢ name % 1000 → place page k ≡ on_page table.now (name / 1000) k) }
{
    match table.get(page_of(name)) {
        Some(page) => page.with(place_of(name), value),
        None => Row::new(table.allocator()).with(place_of(name), value),
    }
}

/// This table with this value at this name. What no other table shares is written in place.
pub fn into_with_value<T: Drop>(
    table: Table<T>,
    name: u32,
    value: T,
) -> Result<Table<T>, AllocError>
    requires { IsName name }
    ensures map { IfOk result (λ new. map_of new ≡ map.insert (map_of table) name value) }
    ensures bound { IfOk result (λ new. length new ≤ 1000) }
    ensures zeroth { IfOk result (λ new. at_name new 0 ≡ at_name table 0) }
{
    let mut rest = table;
    let alloc = rest.allocator();
    let at = page_of(name);
    let taken = rest.take(at)?;
    let page = into_page_with(alloc, taken, name, value)?;
    let new = rest.into_with(at, page)?;
    Ok(new)
}

// The page that was taken out, with this value at the name. It is copied only where another table shares it.
fn into_page_with<T: Drop>(
    alloc: Global,
    taken: Option<Arc<Row<T>>>,
    name: u32,
    value: T,
) -> Result<Row<T>, AllocError>
    ensures here { IfOk result (λ page. place page (name % 1000) ≡ Some value) }
    ensures others { IfOk result (λ page. (k : ℕ) → k ≢ name % 1000 → place page k ≡ option_and_then (λ row. place row k) (option_map arc_value taken)) }
{
    match taken {
        Some(held) => match Arc::try_unwrap(held) {
            Ok(page) => page.into_with(place_of(name), value),
            Err(shared) => shared.with(place_of(name), value),
        },
        None => Row::new(alloc).with(place_of(name), value),
    }
}

// The page on which a name stands.
fn page_of(name: u32) -> usize
    ensures { result ≡ name / 1000 }
{
    name as usize / PLACES
}

// The place of a name on its page.
fn place_of(name: u32) -> usize
    ensures { result ≡ name % 1000 }
{
    name as usize % PLACES
}
