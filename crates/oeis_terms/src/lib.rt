//! The stripped file of the OEIS: names of sequences and their first terms.
//!
//! A line is empty, a comment that begins with `#`, or a row: `A` and six digits, a space, a comma, and
//! terms that are each followed by a comma. The usable terms of a row are those before the first one
//! whose absolute value is greater than 2^127 - 1. A row with fewer than eight is skipped.
#![tactic(auto)]

ghost use Rattle.std.specs.Prelude.{◌≡◌, Err, IfOk};
ghost use Rattle.loda_io.specs.Shelf.{OnlyRead};
ghost use Rattle.oeis_terms.specs.Table.{IsBounded};
ghost use Rattle.oeis_terms.specs.Stripped.{stripped};
ghost use Rattle.oeis_terms.specs.Answers.{Parses, ParsesFile, ReadsTerms};
ghost use Rattle.oeis_terms.specs.Reading.{error_at_line, ReadsLines};

mod cut;
mod error;
mod line;
mod number;
mod reading;
mod table;
#[cfg(test)]
mod tests;

use crate::cut::first_line;
use crate::error::LineError;
use crate::reading::{Reading, add_line, nothing_read};
pub use error::{TermsError, TermsKind};
use loda_io::{ReadError, Shelf, read_file};
use std::alloc::Global;
pub use table::{Row, TermTable};

fn in_line(line: u64, error: LineError) -> TermsError
    ensures { result ≡ error_at_line line error }
{
    match error {
        LineError::Bad(kind) => TermsError::Bad { line, kind },
        LineError::Memory => TermsError::Memory,
    }
}

fn read_lines(alloc: Global, bytes: &[u8]) -> Result<Reading, TermsError>
    ensures { ReadsLines bytes.now result }
{
    let mut reading = match nothing_read(alloc) {
        Ok(reading) => reading,
        Err(_) => return Err(TermsError::Memory),
    };
    let mut terms = Vec::new(alloc);
    let mut number = 1u64;
    let mut rest = Some(bytes);
    while let Some(text) = rest {
        let (line, after) = first_line(text);
        if let Err(error) = add_line(alloc, &mut reading, &mut terms, line) {
            return Err(in_line(number, error));
        }
        number += 1;
        rest = after;
    }
    Ok(reading)
}

/// The table of a stripped file, or the first bad line.
pub fn parse_terms(alloc: Global, bytes: &[u8]) -> Result<TermTable, TermsError>
    ensures { Parses (stripped bytes.now) result }
{
    match read_lines(alloc, bytes) {
        Ok(reading) => Ok(TermTable::of(reading.kept, reading.skipped)),
        Err(error) => Err(error),
    }
}

fn unread(error: ReadError) -> TermsError
    ensures { ParsesFile (Err error) (Err result) }
{
    match error {
        ReadError::Failed => TermsError::Failed,
        ReadError::FileTooLarge { size } => TermsError::FileTooLarge { size },
        ReadError::LineTooLong { line } => TermsError::LineTooLong { line },
        ReadError::Memory => TermsError::Memory,
    }
}

/// Reads a stripped file whole, and then parses it.
///
/// Each row of the table has at most 32,768 terms, since a line has at most 65,536 bytes.
pub fn read_terms<F: Shelf>(
    alloc: Global,
    shelf: &mut F,
    name: &str,
) -> Result<TermTable, TermsError>
    ensures kept { OnlyRead (F.known shelf.old) (F.known shelf.new) }
    ensures answer { ReadsTerms (F.known shelf.old) (F.known shelf.new) name.now result }
    ensures bounded { IfOk result IsBounded }
{
    let bytes = match read_file(alloc, shelf, name) {
        Ok(bytes) => bytes,
        Err(error) => return Err(unread(error)),
    };
    parse_terms(alloc, bytes.as_slice())
}
