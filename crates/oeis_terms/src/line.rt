//! One line of the stripped file.

ghost use Rattle.std.specs.Prelude.{◌≡◌, ◌<◌, ◌≤◌, ◌^◌, length, IfOk, IfSome, OnErr, MatchResult, Ok, Err};
ghost use Rattle.std.specs.Option.{option_map};
ghost use Rattle.oeis_terms.specs.declared.error.LineError.TheVariants.{Memory};
ghost use Rattle.text_parts.specs.Digits.{number_spelled};
ghost use Rattle.oeis_terms.specs.Line.{name_at, usable_terms, is_ended, terms_read, row_at, is_silent, said};
ghost use Rattle.oeis_terms.specs.Reading.{LineGives, kept_after};

use crate::cut::{ends_with, first_cut, trimmed};
use crate::error::{LineError, TermsKind};
use crate::number::term_of;
use checked_numbers::Num;
use text_parts::{GREATEST_NAME, name_of};

// An A-number at the front, and the bytes after it.
fn name_at(line: &[u8]) -> Result<(u32, &[u8]), TermsKind>
    ensures answer { MatchResult result (λ x. name_at line.now ≡ Ok (x.0, x.1.now)) (λ kind. name_at line.now ≡ Err kind) }
    ensures small { IfOk result (λ x. (0 < x.0) × (x.0 ≤ GREATEST_NAME)) }
{
    if line.len() < 7 {
        return Err(TermsKind::BadName);
    }
    let (text, rest) = line.split_at(7);
    match name_of(text) {
        None => Err(TermsKind::BadName),
        Some(name) => Ok((name, rest)),
    }
}

// Adds a term, unless it or an earlier one is past the number range, and tells whether one is.
fn keep(terms: &mut Vec<Num>, is_wide: bool, term: Option<Num>) -> Result<bool, LineError>
    ensures ok { IfOk result (λ wide. (wide, terms.new.items) ≡ kept_after is_wide terms.old.items term) }
    ensures err { OnErr result (result ≡ Err Memory) }
{
    match term {
        Some(number) if !is_wide => {
            terms.push(number)?;
            Ok(false)
        }
        _ => Ok(true),
    }
}

// The usable terms of a row, the first of which stands in column 10.
fn usable_terms(line: &[u8], terms: &mut Vec<Num>) -> Result<(), LineError>
    ensures { LineGives (λ _. terms.new.items) result (usable_terms line.now) }
{
    terms.clear();
    let mut is_wide = false;
    let mut rest = line;
    let mut at = 10u64;
    while let Some((piece, after)) = first_cut(rest, b',') {
        let Some(term) = term_of(piece) else {
            return Err(LineError::Bad(TermsKind::BadTerm { column: at }));
        };
        is_wide = keep(terms, is_wide, term)?;
        at += piece.len() as u64 + 1;
        rest = after;
    }
    Ok(())
}

fn is_ended(line: &[u8]) -> bool
    ensures { result ≡ is_ended line.now }
{
    line.is_empty() || ends_with(line, b',')
}

// What stands behind a name: a space, a comma, and terms that are each followed by a comma.
fn terms_of(line: &[u8], terms: &mut Vec<Num>) -> Result<(), LineError>
    ensures { LineGives (λ _. terms.new.items) result (terms_read line.now) }
{
    let [b' ', b',', rest @ ..] = line else {
        return Err(LineError::Bad(TermsKind::NoComma));
    };
    if !is_ended(rest) {
        return Err(LineError::Bad(TermsKind::NoComma));
    }
    usable_terms(rest, terms)
}

#[tactic(auto, unfolding(crate::specs::Line::row_at))]
fn row_at(line: &[u8], terms: &mut Vec<Num>) -> Result<u32, LineError>
    ensures answer { LineGives (λ name. (name, terms.new.items)) result (row_at line.now) }
    ensures small { IfOk result (λ name. (0 < name) × (name ≤ GREATEST_NAME)) }
{
    let (name, rest) = match name_at(line) {
        Ok(named) => named,
        Err(kind) => return Err(LineError::Bad(kind)),
    };
    match terms_of(rest, terms) {
        Ok(()) => Ok(name),
        Err(error) => Err(error),
    }
}

fn is_silent(line: &[u8]) -> bool
    ensures { result ≡ is_silent line.now }
{
    line.is_empty() || line[0] == b'#'
}

// What a line says: the name of its row, whose usable terms are put into the list, or nothing.
pub fn read_line(line: &[u8], terms: &mut Vec<Num>) -> Result<Option<u32>, LineError>
    ensures answer { LineGives (option_map (λ name. (name, terms.new.items))) result (said line.now) }
    ensures small { IfOk result (λ row. IfSome row (λ name. (0 < name) × (name ≤ GREATEST_NAME))) }
{
    let line = trimmed(line);
    if is_silent(line) {
        return Ok(None);
    }
    match row_at(line, terms) {
        Ok(name) => Ok(Some(name)),
        Err(error) => Err(error),
    }
}
