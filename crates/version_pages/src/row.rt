//! A row of places, held in blocks that it shares with its copies.

ghost use Rattle.std.specs.Prelude.{◌≡◌, ℕ, ◌/◌, ◌%◌, ◌<◌, ◌≤◌, length, [], IfOk, IfSome, IfNone, IsSome, ◌≢◌};
ghost use Rattle.std.specs.Option.{option_and_then, option_copied, option_map};
ghost use Rattle.std.specs.Arc.{arc_value};
ghost use Rattle.version_pages.specs.Table.{place, held, on_page, row_of_blocks};

use crate::block::{Block, held_at, into_with_at, taken, with_at};
use std::alloc::{AllocError, Global};
use std::marker::Model;
use std::sync::Arc;

/// How many places a row has at most.
pub const PLACES: usize = 1000;

// How many places a block has. A row has at most 40 blocks, so a row with one value more copies up to 65 places.
const WIDTH: usize = 25;

/// Up to `PLACES` places, each of which holds a value or nothing. They are held in blocks of `WIDTH`. A block in which
/// nothing was ever put is absent, and those past the last in which something was put take no memory.
#[derive(Drop)]
pub struct Row<X> {
    blocks: Vec<Option<Arc<Block<X>>>>,
}

impl<X> Model for Row<X> {
    ghost use Rattle.std.specs.Prelude.{List, Option, length, ◌≤◌};
    ghost use Rattle.version_pages.specs.Table.{held, row_of_blocks};

    ghost Value = { List (Option X) };

    ghost view = { λ row. row_of_blocks (held row.blocks.items) };

    ghost invariant = { λ row. length row.blocks.items ≤ 40 };
}

impl<X> Row<X> {
    pub fn new(alloc: Global) -> Self
        ensures { result ≡ [] }
    {
        Self {
            blocks: Vec::new(alloc),
        }
    }

    pub fn allocator(&self) -> Global {
        *self.blocks.allocator()
    }

    /// The number of the places up to the last block that was ever filled.
    pub fn len(&self) -> usize
        ensures len { result ≡ length self.now }
        ensures bound { result ≤ 1000 }
    {
        self.blocks.len() * WIDTH
    }

    pub fn get(&self, at: usize) -> Option<&X>
        ensures { option_copied result ≡ place self.now at }
    {
        held_at(&self.blocks, at / WIDTH)?.get(at % WIDTH)
    }

    /// The least place from `from` on that holds something. Blocks that are absent are passed over.
    pub fn next(&self, from: usize) -> Option<usize>
        ensures range { IfSome result (λ at. (from ≤ at) × (at < 1000)) }
        ensures found { IfSome result (λ at. IsSome (place self.now at)) }
        ensures least { IfSome result (λ at. (k : ℕ) → from ≤ k → k < at → place self.now k ≡ None) }
        ensures none { IfNone result ((k : ℕ) → from ≤ k → place self.now k ≡ None) }
    {
        next_held(&self.blocks, from)
    }
}

impl<X: Drop> Row<X> {
    /// The row with this value at this place. It has a block of its own, and shares the others, and the other values of
    /// the block, with this row.
    pub fn with(&self, at: usize, value: X) -> Result<Self, AllocError>
        requires { at < 1000 }
        ensures here { IfOk result (λ row. place row at ≡ Some value) }
        ensures others { IfOk result (λ row. (k : ℕ) → k ≢ at → place row k ≡ place self.now k) }
        ensures bound { IfOk result (λ row. length row ≤ 1000) }
    {
        let blocks = blocks_with(self.allocator(), &self.blocks, at, value)?;
        Ok(Self { blocks })
    }

    /// This row with this value at this place, in the memory that the row had. The block is copied only where another row
    /// shares it.
    pub fn into_with(self, at: usize, value: X) -> Result<Self, AllocError>
        requires { at < 1000 }
        ensures here { IfOk result (λ row. place row at ≡ Some value) }
        ensures others { IfOk result (λ row. (k : ℕ) → k ≢ at → place row k ≡ place self k) }
        ensures bound { IfOk result (λ row. length row ≤ 1000) }
    {
        let blocks = into_blocks_with(self.blocks, at, value)?;
        Ok(Self { blocks })
    }

    /// What a place holds. It is taken out of this row where no other row shares its block, and else it has one more owner.
    pub fn take(&mut self, at: usize) -> Result<Option<Arc<X>>, AllocError>
        ensures taken { IfOk result (λ taken. option_map arc_value taken ≡ place self.old at) }
        ensures others { IfOk result (λ _. (k : ℕ) → k ≢ at → place self.new k ≡ place self.old k) }
    {
        taken_out(&mut self.blocks, at)
    }
}

// The least place from `from` on that holds something.
#[tactic(auto, using(crate::proofs::Blocks::searched_from, crate::proofs::Blocks::searched_over))]
fn next_held<X>(blocks: &[Option<Arc<Block<X>>>], from: usize) -> Option<usize>
    requires { length blocks.now ≤ 40 }
    ensures range { IfSome result (λ at. (from ≤ at) × (at < 1000)) }
    ensures found { IfSome result (λ at. IsSome (place (row_of_blocks (held blocks.now)) at)) }
    ensures least { IfSome result (λ at. (k : ℕ) → from ≤ k → k < at → place (row_of_blocks (held blocks.now)) k ≡ None) }
    ensures none { IfNone result ((k : ℕ) → from ≤ k → place (row_of_blocks (held blocks.now)) k ≡ None) }
{
    let mut start = from % WIDTH;
    for block in from / WIDTH..blocks.len() {
        if let Some(at) = next_in(blocks, block, start) {
            return Some(block * WIDTH + at);
        }
        start = 0;
    }
    None
}

// The least place of a block from `from` on that holds something. A block that is absent isn't looked into.
fn next_in<X>(blocks: &[Option<Arc<Block<X>>>], block: usize, from: usize) -> Option<usize>
    ensures range { IfSome result (λ at. (from ≤ at) × (at < 25)) }
    ensures found { IfSome result (λ at. IsSome (on_page (held blocks.now) block at)) }
    ensures least { IfSome result (λ at. (k : ℕ) → from ≤ k → k < at → on_page (held blocks.now) block k ≡ None) }
    ensures none { IfNone result ((k : ℕ) → from ≤ k → k < 25 → on_page (held blocks.now) block k ≡ None) }
{
    match held_at(blocks, block) {
        Some(places) => places.next(from, WIDTH),
        None => None,
    }
}

// The blocks with this value at a place of the row: one block is new, and the others are shared.
fn blocks_with<X: Drop>(
    alloc: Global,
    blocks: &[Option<Arc<Block<X>>>],
    at: usize,
    value: X,
) -> Result<Vec<Option<Arc<Block<X>>>>, AllocError>
    requires place { at < 1000 }
    requires few { length blocks.now ≤ 40 }
    ensures here { IfOk result (λ new. place (row_of_blocks (held new.items)) at ≡ Some value) }
    ensures others { IfOk result (λ new. (k : ℕ) → k ≢ at → place (row_of_blocks (held new.items)) k ≡ place (row_of_blocks (held blocks.now)) k) }
    ensures few { IfOk result (λ new. length new.items ≤ 40) }
    ensures bound { IfOk result (λ new. length (row_of_blocks (held new.items)) ≤ 1000) }
{
    let block = block_with(alloc, blocks, at, value)?;
    let new = with_at(alloc, blocks, at / WIDTH, block)?;
    Ok(new)
}

// These blocks with this value at a place of the row. The place's block is copied only where another row shares it.
fn into_blocks_with<X: Drop>(
    blocks: Vec<Option<Arc<Block<X>>>>,
    at: usize,
    value: X,
) -> Result<Vec<Option<Arc<Block<X>>>>, AllocError>
    requires place { at < 1000 }
    requires few { length blocks.items ≤ 40 }
    ensures here { IfOk result (λ new. place (row_of_blocks (held new.items)) at ≡ Some value) }
    ensures others { IfOk result (λ new. (k : ℕ) → k ≢ at → place (row_of_blocks (held new.items)) k ≡ place (row_of_blocks (held blocks.items)) k) }
    ensures few { IfOk result (λ new. length new.items ≤ 40) }
    ensures bound { IfOk result (λ new. length (row_of_blocks (held new.items)) ≤ 1000) }
{
    let mut rest = blocks;
    let alloc = *rest.allocator();
    let held = taken(&mut rest, at / WIDTH);
    let block = into_block_with(alloc, held, at % WIDTH, value)?;
    let new = into_with_at(rest, at / WIDTH, block)?;
    Ok(new)
}

// The block of a place with this value at the place.
fn block_with<X: Drop>(
    alloc: Global,
    blocks: &[Option<Arc<Block<X>>>],
    at: usize,
    value: X,
) -> Result<Block<X>, AllocError>
    ensures here { IfOk result (λ block. place block (at % 25) ≡ Some value) }
    ensures others { IfOk result (λ block. (k : ℕ) → k ≢ at % 25 → place block k ≡ on_page (held blocks.now) (at / 25) k) }
{
    match held_at(blocks, at / WIDTH) {
        Some(block) => block.with(at % WIDTH, value),
        None => Block::new(alloc).with(at % WIDTH, value),
    }
}

// The block that was taken out, with this value at a place. It is copied only where another row shares it.
fn into_block_with<X: Drop>(
    alloc: Global,
    taken: Option<Arc<Block<X>>>,
    spot: usize,
    value: X,
) -> Result<Block<X>, AllocError>
    requires { spot < 25 }
    ensures here { IfOk result (λ block. place block spot ≡ Some value) }
    ensures others { IfOk result (λ block. (k : ℕ) → k ≢ spot → place block k ≡ option_and_then (λ b. place b k) (option_map arc_value taken)) }
{
    match taken {
        Some(held) => match Arc::try_unwrap(held) {
            Ok(block) => block.into_with(spot, value),
            Err(shared) => shared.with(spot, value),
        },
        None => Block::new(alloc).with(spot, value),
    }
}

// What a place holds: taken out where nobody else shares its block, and else with one more owner.
fn taken_out<X: Drop>(
    blocks: &mut Vec<Option<Arc<Block<X>>>>,
    at: usize,
) -> Result<Option<Arc<X>>, AllocError>
    ensures taken { IfOk result (λ taken. option_map arc_value taken ≡ place (row_of_blocks (held blocks.old.items)) at) }
    ensures others { IfOk result (λ _. (k : ℕ) → k ≢ at → place (row_of_blocks (held blocks.new.items)) k ≡ place (row_of_blocks (held blocks.old.items)) k) }
    ensures len { length blocks.new.items ≡ length blocks.old.items }
{
    if at / WIDTH >= blocks.len() {
        return Ok(None);
    }
    let slot = taken(blocks, at / WIDTH);
    let (left, out) = taken_within(slot, at % WIDTH)?;
    blocks[at / WIDTH] = left;
    Ok(out)
}

// A block, and what a place of it holds: taken out where nobody else shares the block, and else with one more owner.
fn taken_within<X: Drop>(
    block: Option<Arc<Block<X>>>,
    spot: usize,
) -> Result<(Option<Arc<Block<X>>>, Option<Arc<X>>), AllocError>
    ensures taken { IfOk result (λ p. option_map arc_value p.1 ≡ option_and_then (λ b. place b spot) (option_map arc_value block)) }
    ensures others { IfOk result (λ p. (k : ℕ) → k ≢ spot → option_and_then (λ b. place b k) (option_map arc_value p.0) ≡ option_and_then (λ b. place b k) (option_map arc_value block)) }
{
    match block {
        None => Ok((None, None)),
        Some(mut held) => match taken_if_own(&mut held, spot) {
            Some(taken) => Ok((Some(held), taken)),
            None => {
                let copy = held.share(spot)?;
                Ok((Some(held), copy))
            }
        },
    }
}

// What a place of a block held, taken out of it: None where somebody else shares the block, which is then left as it is.
fn taken_if_own<X: Drop>(block: &mut Arc<Block<X>>, spot: usize) -> Option<Option<Arc<X>>>
    ensures taken { IfSome result (λ taken. option_map arc_value taken ≡ place (arc_value block.old) spot) }
    ensures others { (k : ℕ) → k ≢ spot → place (arc_value block.new) k ≡ place (arc_value block.old) k }
    ensures shared { IfNone result (arc_value block.new ≡ arc_value block.old) }
{
    match Arc::get_mut(block) {
        Some(own) => Some(own.take(spot)),
        None => None,
    }
}

#[cfg(test)]
mod tests {
    use super::*;
    use crate::table::{into_with_value, with_value};
    use std::test::Fail;

    // How many rows own a block, and how many blocks a place's value.
    fn owners<X>(row: &Row<X>, at: usize) -> (usize, usize) {
        match row.blocks.get(at / WIDTH) {
            Some(Some(block)) => (Arc::strong_count(block), block.owners(at % WIDTH)),
            _ => (0, 0),
        }
    }

    #[test]
    fn shares_all_but_what_was_put(rt: HostRuntime) -> Result<(), Fail> {
        let mut old = Row::new(rt.alloc());
        for name in [1, 2, 30, 5001, 7002, 30_000] {
            assert!(rt; 1 <= name && name <= 999_999);
            old = with_value(&old, name, name)?;
        }
        let new = with_value(&old, 2, 20)?;
        // The block of pages 0 to 24 is written. That of pages 25 to 49 is not, so it has two owners, and its page one.
        for (page, want) in [(0, (1, 1)), (5, (1, 2)), (7, (1, 2)), (30, (2, 1))] {
            assert_eq!(rt; owners(&old, page), want, "page {page} of the old table");
            assert_eq!(rt; owners(&new, page), want, "page {page} of the new table");
        }
        let first = new.get(0).ok_or("the new table has a first page")?;
        assert_eq!(rt; owners(first, 1), (1, 2), "the value at 1 is shared");
        assert_eq!(rt; owners(first, 2), (1, 1), "the value at 2 is not");
        assert_eq!(rt;
            owners(first, 30),
            (2, 1),
            "the block of the value at 30 is shared"
        );
        Ok(())
    }

    #[test]
    fn writes_in_place_what_is_not_shared(rt: HostRuntime) -> Result<(), Fail> {
        let mut old = Row::new(rt.alloc());
        for name in [1, 30, 2001, 30_000] {
            assert!(rt; 1 <= name && name <= 999_999);
            old = with_value(&old, name, name)?;
        }
        let mut new = with_value(&old, 1, 10)?;
        for (name, value) in [(2, 20), (30, 300)] {
            assert!(rt; 1 <= name && name <= 999_999);
            new = into_with_value(new, name, value)?;
        }
        assert_eq!(rt;
            owners(&new, 2),
            (1, 2),
            "a page that no call wrote is shared"
        );
        assert_eq!(rt;
            owners(&new, 30),
            (2, 1),
            "a block that no call wrote is shared"
        );
        let first = new.get(0).ok_or("the new table has a first page")?;
        assert_eq!(rt;
            owners(first, 30),
            (1, 1),
            "the block that was shared is copied"
        );
        let before = old.get(0).ok_or("the old table has a first page")?;
        assert_eq!(rt; before.get(2), None, "the old page stays as it is");
        assert_eq!(rt; before.get(30), Some(&30), "the old block stays as it is");
        Ok(())
    }
}
