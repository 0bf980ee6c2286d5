//! The cells, and what writes replaced.

ghost use Rattle.std.specs.Prelude.{◌≡◌, ◌≤◌, ◌<◌, int_lt, ◌+◌, ◌++◌, ◌∷◌, [], ℤ, pos, ℕ, Ok, Some, vec_len, vec_capacity, IfOk, OnOk, OnErr, IsTrue, ◌-◌, if◌then◌else◌, length, take, drop, replicate, false};
ghost use Rattle.loda_semantics.specs.Memory.{set_cell, clear_cells, address as address_of, source_value, cell_at, is_less};
ghost use Rattle.loda_syntax.specs.WellFormed.{IsTarget, IsSource};
ghost use Rattle.loda_semantics.specs.Exec.{arithmetic};
ghost use Rattle.lex_loops.specs.Memories.{memory_of, before, written, IsWithin, Shortens, Replaces, ending_of};

use checked_numbers::{Num, apply};
use loda_semantics::{FaultKind, op_of};
use loda_syntax::{MEMORY_CELLS, Operand, Verb};
use std::alloc::{AllocError, Global};

// A log of one iteration with more writes than these is long.
const LONG: usize = 8192;

/// A write: its cell, and what the cell held before.
#[derive(Clone, Copy, Debug, PartialEq, Eq)]
pub struct Written {
    /// The cell.
    pub address: u16,
    /// What it held.
    pub value: Num,
}

/// The cells up to the greatest one that was written, and an undo log with the oldest write first.
#[derive(Drop)]
pub struct Cells {
    /// The cells from 0 on.
    pub values: Vec<Num>,
    /// What writes replaced.
    pub log: Vec<Written>,
}

fn zero() -> Num
    ensures { result ≡ pos 0 }
{
    match Num::new(0) {
        Some(zero) => zero,
        None => unreachable!(),
    }
}

fn is_below(a: Num, b: Num) -> bool
    ensures { result ≡ int_lt a b }
{
    a.get() < b.get()
}

// As many cells, none of which is seen.
fn unseen(alloc: Global, len: usize) -> Result<Vec<bool>, AllocError>
    ensures { IfOk result (λ seen. seen.items ≡ replicate len false) }
{
    let seen = vec![in alloc; false; len]?;
    Ok(seen)
}

// The cell whose address this is.
fn address_in(value: Num) -> Option<u16>
    ensures { cell_at value ≡ result }
{
    let value = value.get();
    if 0 <= value && value < i128::from(MEMORY_CELLS) {
        Some(value as u16)
    } else {
        None
    }
}

impl Cells {
    /// What a cell holds.
    pub fn read(&self, address: u16) -> Num
        ensures { result ≡ memory_of self.now.values.items address }
    {
        match self.values.get(usize::from(address)) {
            Some(value) => *value,
            None => zero(),
        }
    }

    // Makes a cell one of those that are kept.
    fn reach(&mut self, address: u16) -> Result<(), AllocError>
        ensures ok { OnOk result (address < length self.new.values.items) }
        ensures memory { memory_of self.new.values.items ≡ memory_of self.old.values.items }
        ensures len { length self.old.values.items ≤ length self.new.values.items }
        ensures log { self.new.log.items ≡ self.old.log.items }
    {
        let len = usize::from(address) + 1;
        if self.values.len() < len {
            self.values.resize(len, zero())?;
        }
        Ok(())
    }

    // Writes a cell that is kept, without a note.
    fn put(&mut self, address: u16, value: Num)
        requires { address < length self.old.values.items }
        ensures memory { memory_of self.new.values.items ≡ set_cell (memory_of self.old.values.items) address value }
        ensures len { length self.new.values.items ≡ length self.old.values.items }
        ensures log { self.new.log.items ≡ self.old.log.items }
    {
        self.values[usize::from(address)] = value;
    }

    // Notes what a cell holds, where a loop is open.
    fn note(&mut self, address: u16, logged: bool) -> Result<(), AllocError>
        ensures ok { OnOk result (self.new.log.items ≡ (if logged then self.old.log.items ++ written address (memory_of self.old.values.items address) ∷ [] else self.old.log.items)) }
        ensures values { self.new.values.items ≡ self.old.values.items }
    {
        if logged {
            let value = self.read(address);
            self.log.push(Written { address, value })?;
        }
        Ok(())
    }

    /// Writes a cell. Where a loop is open, what it held is noted in the log.
    #[inline(always)]
    pub fn write(&mut self, address: u16, value: Num, logged: bool) -> Result<(), AllocError>
        ensures memory { OnOk result (memory_of self.new.values.items ≡ set_cell (memory_of self.old.values.items) address value) }
        ensures replaces { IsTrue logged → OnOk result (Replaces self.old.log.items (memory_of self.old.values.items) self.new.log.items (memory_of self.new.values.items)) }
        ensures within { IsWithin (length self.old.values.items) self.old.log.items → OnOk result (IsWithin (length self.new.values.items) self.new.log.items) }
        ensures len { length self.old.values.items ≤ length self.new.values.items }
    {
        self.reach(address)?;
        self.note(address, logged)?;
        self.put(address, value);
        Ok(())
    }

    /// Undoes the writes since the log was this long, the newest first.
    pub fn undo_to(&mut self, len: usize)
        requires len { len ≤ length self.old.log.items }
        requires within { IsWithin (length self.old.values.items) self.old.log.items }
        ensures memory { memory_of self.new.values.items ≡ before (drop len self.old.log.items) (memory_of self.old.values.items) }
        ensures log { self.new.log.items ≡ take len self.old.log.items }
        ensures len { length self.new.values.items ≡ length self.old.values.items }
    {
        while self.log.len() > len {
            if let Some(last) = self.log.pop() {
                self.put(last.address, last.value);
            }
        }
    }

    /// Makes a log that is long from this length on shorter, for undoing down to that length or a lesser one.
    pub fn shorten(&mut self, from: usize)
        requires from { from ≤ length self.old.log.items }
        requires within { IsWithin (length self.old.values.items) self.old.log.items }
        ensures log { Shortens from self.old.log.items self.new.log.items }
        ensures values { self.new.values.items ≡ self.old.values.items }
        ensures within { IsWithin (length self.new.values.items) self.new.log.items }
    {
        if self.log.len() - from > LONG {
            self.forget(from);
        }
    }

    // Leaves out of the log, from this length on, each write of a cell that has an earlier one there: undoing puts back what
    // the cell held before the earlier one. Where memory is wanted for this, the log stays.
    #[inline(never)]
    fn forget(&mut self, from: usize)
        requires from { from ≤ length self.old.log.items }
        requires within { IsWithin (length self.old.values.items) self.old.log.items }
        ensures log { Shortens from self.old.log.items self.new.log.items }
        ensures values { self.new.values.items ≡ self.old.values.items }
        ensures within { IsWithin (length self.new.values.items) self.new.log.items }
    {
        let alloc = *self.values.allocator();
        let Ok(mut seen) = unseen(alloc, self.values.len()) else {
            return;
        };
        let mut kept = from;
        for place in from..self.log.len() {
            let write = self.log[place];
            let cell = usize::from(write.address);
            if seen[cell] {
                continue;
            }
            seen[cell] = true;
            self.log[kept] = write;
            kept += 1;
        }
        self.log.truncate(kept);
    }

    /// What a cell held before the writes since the log was this long.
    pub fn read_before(&self, len: usize, address: u16) -> Num
        requires { len ≤ length self.now.log.items }
        ensures { result ≡ before (drop len self.now.log.items) (memory_of self.now.values.items) address }
    {
        let writes = &self.log[len..];
        for write in writes {
            if write.address == address {
                return write.value;
            }
        }
        self.read(address)
    }

    /// Whether a region is less than it was before the writes since the log was this long.
    pub fn is_less(&self, start: u16, count: u8, len: usize) -> bool
        requires region { start + count ≤ MEMORY_CELLS }
        requires len { len ≤ length self.now.log.items }
        ensures { result ≡ is_less count start (memory_of self.now.values.items) (before (drop len self.now.log.items) (memory_of self.now.values.items)) }
    {
        for place in 0..count {
            let address = start + u16::from(place);
            let new = self.read(address);
            if is_below(new, zero()) {
                return false;
            }
            let old = self.read_before(len, address);
            if is_below(new, old) {
                return true;
            }
            if is_below(old, new) {
                return false;
            }
        }
        false
    }

    /// The cell that an operand names; none where an indirect one leads outside.
    pub fn address(&self, operand: Operand) -> Option<u16>
        requires { IsTarget operand }
        ensures value { address_of (memory_of self.now.values.items) operand ≡ result }
    {
        match operand {
            Operand::Constant(_) => None,
            Operand::Direct(cell) => Some(cell),
            Operand::Indirect(cell) => address_in(self.read(cell)),
        }
    }

    /// What a source holds; none where an indirect one leads outside.
    pub fn source(&self, operand: Operand) -> Option<Num>
        requires { IsSource operand }
        ensures { source_value (memory_of self.now.values.items) operand ≡ result }
    {
        match operand {
            Operand::Constant(value) => Num::new(value),
            Operand::Direct(cell) => Some(self.read(cell)),
            Operand::Indirect(cell) => match address_in(self.read(cell)) {
                Some(address) => Some(self.read(address)),
                None => None,
            },
        }
    }

    /// An arithmetic instruction, or the fault by which it fails.
    pub fn arithmetic(
        &mut self,
        verb: Verb,
        target: Operand,
        source: Operand,
        logged: bool,
    ) -> Result<Option<FaultKind>, AllocError>
        requires target { IsTarget target }
        requires source { IsSource source }
        ensures does { IfOk result (λ fault. (n : ℕ) → arithmetic verb (memory_of self.old.values.items) n (address_of (memory_of self.old.values.items) target) (source_value (memory_of self.old.values.items) source) ≡ ending_of fault (memory_of self.new.values.items) n) }
        ensures never_missing { ¬ (result ≡ Ok (Some FaultKind.Missing)) }
        ensures replaces { IsTrue logged → OnOk result (Replaces self.old.log.items (memory_of self.old.values.items) self.new.log.items (memory_of self.new.values.items)) }
        ensures within { IsWithin (length self.old.values.items) self.old.log.items → OnOk result (IsWithin (length self.new.values.items) self.new.log.items) }
        ensures len { length self.old.values.items ≤ length self.new.values.items }
    {
        let address = match self.address(target) {
            Some(address) => address,
            None => return Ok(Some(FaultKind::BadCell)),
        };
        let value = match self.source(source) {
            Some(value) => value,
            None => return Ok(Some(FaultKind::BadCell)),
        };
        match apply(op_of(verb), self.read(address), value) {
            Ok(value) => {
                self.write(address, value, logged)?;
                Ok(None)
            }
            Err(fault) => Ok(Some(FaultKind::from(fault))),
        }
    }

    /// Clears cells.
    pub fn clear(&mut self, start: u16, count: u16, logged: bool) -> Result<(), AllocError>
        requires { start + count ≤ MEMORY_CELLS }
        ensures memory { OnOk result (memory_of self.new.values.items ≡ clear_cells (memory_of self.old.values.items) start count) }
        ensures replaces { IsTrue logged → OnOk result (Replaces self.old.log.items (memory_of self.old.values.items) self.new.log.items (memory_of self.new.values.items)) }
        ensures within { IsWithin (length self.old.values.items) self.old.log.items → OnOk result (IsWithin (length self.new.values.items) self.new.log.items) }
        ensures len { length self.old.values.items ≤ length self.new.values.items }
    {
        for place in 0..count {
            let address = start + place;
            if usize::from(address) >= self.values.len() {
                return Ok(());
            }
            self.write(address, zero(), logged)?;
        }
        Ok(())
    }

    /// Makes room for the answer to a call: the cell is there, and where a loop is open the log has room for a write.
    pub fn take_room(&mut self, address: u16, logged: bool) -> Result<(), AllocError>
        ensures cell { OnOk result (address < length self.new.values.items) }
        ensures room { IsTrue logged → OnOk result (vec_len self.new.log < vec_capacity self.new.log) }
        ensures memory { memory_of self.new.values.items ≡ memory_of self.old.values.items }
        ensures log { self.new.log.items ≡ self.old.log.items }
        ensures len { length self.old.values.items ≤ length self.new.values.items }
    {
        self.reach(address)?;
        if logged {
            self.log.reserve(1)?;
        }
        Ok(())
    }

    /// Writes the answer to a call, for which there is room.
    pub fn take_answer(&mut self, address: u16, value: Num, logged: bool)
        requires cell { address < length self.old.values.items }
        requires room { IsTrue logged → vec_len self.old.log < vec_capacity self.old.log }
        ensures memory { memory_of self.new.values.items ≡ set_cell (memory_of self.old.values.items) address value }
        ensures replaces { IsTrue logged → Replaces self.old.log.items (memory_of self.old.values.items) self.new.log.items (memory_of self.new.values.items) }
        ensures within { IsWithin (length self.old.values.items) self.old.log.items → IsWithin (length self.new.values.items) self.new.log.items }
        ensures len { length self.new.values.items ≡ length self.old.values.items }
    {
        self.note_reserved(address, logged);
        self.put(address, value);
    }

    // Notes what a cell holds, where a loop is open, in room that was taken.
    fn note_reserved(&mut self, address: u16, logged: bool)
        requires { IsTrue logged → vec_len self.old.log < vec_capacity self.old.log }
        ensures log { self.new.log.items ≡ (if logged then self.old.log.items ++ written address (memory_of self.old.values.items address) ∷ [] else self.old.log.items) }
        ensures values { self.new.values.items ≡ self.old.values.items }
    {
        if logged {
            let value = self.read(address);
            self.log.push_reserved(Written { address, value });
        }
    }
}
