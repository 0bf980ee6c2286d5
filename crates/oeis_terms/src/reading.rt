//! The lines of a file, read one after the other.

ghost use Rattle.std.specs.Prelude.{◌≡◌, ℕ, ◌<◌, ◌+◌, ◌^◌, [], length, IfOk, false, slice_index_or, Some};
ghost use Rattle.oeis_terms.specs.Reading.{LineGives, Reflects, reading_state, after_row, after_line};

use crate::error::{LineError, TermsKind};
use crate::line::read_line;
use crate::table::Row;
use checked_numbers::Num;
use std::alloc::{AllocError, Global};
use text_parts::GREATEST_NAME;

// How many names there are, with the one that no row has.
const NAMES: usize = GREATEST_NAME as usize + 1;

// The fewest usable terms of a row that is kept.
const FEWEST: usize = 8;

// Which names were seen so far, the rows that are kept, and how many are skipped.
#[derive(Drop)]
pub struct Reading {
    pub seen: Vec<bool>,
    pub kept: Vec<Row>,
    pub skipped: u64,
}

// No line was read.
pub fn nothing_read(alloc: Global) -> Result<Reading, AllocError>
    ensures { IfOk result (λ r. Reflects [] (reading_state r)) }
{
    Ok(Reading {
        seen: none_seen(alloc, NAMES)?,
        kept: Vec::new(alloc),
        skipped: 0,
    })
}

fn none_seen(alloc: Global, len: usize) -> Result<Vec<bool>, AllocError>
    ensures len { IfOk result (λ v. length v.items ≡ len) }
    ensures none { IfOk result (λ v. (k : ℕ) → k < len → slice_index_or v.items k false ≡ false) }
{
    vec![in alloc; false; len]
}

// Adds a row of these usable terms, unless an earlier one has its name.
fn add_row(alloc: Global, reading: &mut Reading, name: u32, terms: &[Num]) -> Result<(), LineError>
    requires name { name < length reading.old.seen.items }
    requires skipped { reading.old.skipped + 1 < 2 ^ 64 }
    ensures { LineGives (λ _. reading_state reading.new) result (after_row (reading_state reading.old) (Some (name, terms.now))) }
{
    let place = name as usize;
    if reading.seen[place] {
        return Err(LineError::Bad(TermsKind::Repeated { name }));
    }
    reading.seen[place] = true;
    if terms.len() < FEWEST {
        reading.skipped += 1;
        return Ok(());
    }
    let terms = Vec::from_slice(alloc, terms)?;
    reading.kept.push(Row::of(name, terms))?;
    Ok(())
}

// Reads one more line, whose terms are put into the list on the way.
pub fn add_line(
    alloc: Global,
    reading: &mut Reading,
    terms: &mut Vec<Num>,
    line: &[u8],
) -> Result<(), LineError>
    requires size { length reading.old.seen.items ≡ NAMES }
    requires skipped { reading.old.skipped + 1 < 2 ^ 64 }
    ensures { LineGives (λ _. reading_state reading.new) result (after_line (reading_state reading.old) line.now) }
{
    match read_line(line, terms) {
        Ok(Some(name)) => add_row(alloc, reading, name, terms.as_slice()),
        Ok(None) => Ok(()),
        Err(error) => Err(error),
    }
}
