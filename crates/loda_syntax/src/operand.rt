//! Reading operands.

ghost use Rattle.std.specs.Prelude.{◌≡◌, ◌+◌, ◌*◌, ◌^◌, ◌≤◌, ◌<◌, min, [], ◌∷◌, List, length, MatchResult};
ghost use Rattle.std.specs.Option.{option_map, option_to_list};
ghost use Rattle.text_parts.specs.Digits.{number_spelled};
ghost use Rattle.loda_syntax.specs.Grammar.{cell_of, signed_read, operand_read, operands_read, all_read};
ghost use Rattle.loda_syntax.specs.Lines.{cut_operands};

use crate::error::SyntaxKind;
use crate::instr::{MEMORY_CELLS, Operand};
use crate::line::cut_at;
use text_parts::{number_up_to, trim};

// The least absolute value that is too wide.
const WIDE: u128 = 1 << 127;

/// What a text is as an operand.
#[derive(Clone, Copy, Debug, PartialEq, Eq)]
pub(crate) enum Written {
    /// It has no form of an operand, or its cell is past the last one.
    Bad,
    /// A number with an absolute value above `2^127 - 1`.
    Wide,
    Good(Operand),
}

fn cell_of(digits: &[u8]) -> Option<u16>
    ensures { result ≡ cell_of digits.now }
{
    match number_up_to(digits, WIDE) {
        Some(cell) if cell < u128::from(MEMORY_CELLS) => Some(cell as u16),
        _ => None,
    }
}

fn constant_of(minus: bool, digits: &[u8]) -> Written
    ensures { result ≡ signed_read minus (number_spelled digits.now) }
{
    let Some(number) = number_up_to(digits, WIDE) else {
        return Written::Bad;
    };
    if number == WIDE {
        return Written::Wide;
    }
    let number = number as i128;
    Written::Good(Operand::Constant(if minus { -number } else { number }))
}

#[tactic(auto, unfolding(crate::specs::Grammar::operand_read))]
fn operand_of(text: &[u8]) -> Written
    ensures { result ≡ operand_read text.now }
{
    match text {
        [b'$', b'$', digits @ ..] => match cell_of(digits) {
            Some(cell) => Written::Good(Operand::Indirect(cell)),
            None => Written::Bad,
        },
        [b'$', digits @ ..] => match cell_of(digits) {
            Some(cell) => Written::Good(Operand::Direct(cell)),
            None => Written::Bad,
        },
        [b'-', digits @ ..] => constant_of(true, digits),
        digits => constant_of(false, digits),
    }
}

// The operand, or its fault.
#[tactic(auto, unfolding(crate::specs::Grammar::all_read))]
fn one(operand: Written) -> Result<Operand, SyntaxKind>
    ensures { MatchResult result (λ first. all_read 1 2 (operand ∷ []) ≡ Ok (first ∷ [])) (λ kind. all_read 1 2 (operand ∷ []) ≡ Err kind) }
{
    match operand {
        Written::Bad => Err(SyntaxKind::BadOperand),
        Written::Wide => Err(SyntaxKind::WideLiteral),
        Written::Good(operand) => Ok(operand),
    }
}

// Both operands, or the first fault: a bad operand comes before a number that is too wide.
#[tactic(auto, unfolding(crate::specs::Grammar::all_read))]
fn both(first: Written, second: Written) -> Result<(Operand, Operand), SyntaxKind>
    ensures { MatchResult result (λ pair. all_read 2 2 (first ∷ second ∷ []) ≡ Ok (pair.0 ∷ pair.1 ∷ [])) (λ kind. all_read 2 2 (first ∷ second ∷ []) ≡ Err kind) }
{
    match (first, second) {
        (Written::Bad, _) => Err(SyntaxKind::BadOperand),
        (_, Written::Bad) => Err(SyntaxKind::BadOperand),
        (Written::Wide, _) => Err(SyntaxKind::WideLiteral),
        (_, Written::Wide) => Err(SyntaxKind::WideLiteral),
        (Written::Good(first), Written::Good(second)) => Ok((first, second)),
    }
}

/// Finds no operands in what follows a word.
#[tactic(auto, unfolding(crate::specs::Grammar::all_read, crate::specs::Grammar::operands_read, crate::specs::Lines::cut_operands))]
pub(crate) fn no_operands(text: &[u8]) -> Result<(), SyntaxKind>
    ensures { MatchResult result (λ _. operands_read 0 0 (cut_operands text.now) ≡ Ok []) (λ kind. operands_read 0 0 (cut_operands text.now) ≡ Err kind) }
{
    if text.is_empty() {
        Ok(())
    } else {
        Err(SyntaxKind::BadOperand)
    }
}

/// The two operands that follow a word, or their first fault.
pub(crate) fn two_operands(text: &[u8]) -> Result<(Operand, Operand), SyntaxKind>
    ensures { MatchResult result (λ pair. operands_read 2 2 (cut_operands text.now) ≡ Ok (pair.0 ∷ pair.1 ∷ [])) (λ kind. operands_read 2 2 (cut_operands text.now) ≡ Err kind) }
{
    let Some((first, rest)) = cut_at(text, b',') else {
        return Err(SyntaxKind::BadOperand);
    };
    match cut_at(rest, b',') {
        Some(_) => Err(SyntaxKind::BadOperand),
        None => both(operand_of(trim(first)), operand_of(trim(rest))),
    }
}

/// The one operand or two that follow a word, or their first fault.
pub(crate) fn one_or_two_operands(text: &[u8]) -> Result<(Operand, Option<Operand>), SyntaxKind>
    ensures { MatchResult result (λ pair. operands_read 1 2 (cut_operands text.now) ≡ Ok (pair.0 ∷ option_to_list pair.1)) (λ kind. operands_read 1 2 (cut_operands text.now) ≡ Err kind) }
{
    if text.is_empty() {
        return Err(SyntaxKind::BadOperand);
    }
    match cut_at(text, b',') {
        Some(_) => match two_operands(text) {
            Ok((first, second)) => Ok((first, Some(second))),
            Err(kind) => Err(kind),
        },
        None => match one(operand_of(trim(text))) {
            Ok(first) => Ok((first, None)),
            Err(kind) => Err(kind),
        },
    }
}
