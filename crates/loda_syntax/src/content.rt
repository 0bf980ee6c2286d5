//! The instruction of a line.

ghost use Rattle.std.specs.Prelude.{◌≡◌, ◌<◌, ◌^◌, [], ◌∷◌, length, pos};
ghost use Rattle.std.specs.Option.{option_to_list};
ghost use Rattle.loda_syntax.specs.Grammar.{content_read, line_read, loop_over, clear_of, call_of, instr_read};

use crate::error::SyntaxKind;
use crate::instr::{Instr, MEMORY_CELLS, Operand, Verb};
use crate::line::{content, cut_word};
use crate::operand::{no_operands, one_or_two_operands, two_operands};
use crate::word::{Word, word_of};
use text_parts::GREATEST_NAME;

fn loop_over(start: u16, len: i128) -> Result<Instr, SyntaxKind>
    ensures { result ≡ loop_over start len }
{
    if 1 <= len && len <= 64 && i128::from(start) + len <= i128::from(MEMORY_CELLS) {
        Ok(Instr::LoopStart {
            start,
            len: len as u8,
        })
    } else {
        Err(SyntaxKind::BadOperand)
    }
}

fn clear_of(start: u16, count: i128) -> Result<Instr, SyntaxKind>
    ensures { result ≡ clear_of start count }
{
    if 0 <= count && count <= 1024 && i128::from(start) + count <= i128::from(MEMORY_CELLS) {
        Ok(Instr::Clear {
            start,
            count: count as u16,
        })
    } else {
        Err(SyntaxKind::BadOperand)
    }
}

fn call_of(target: Operand, name: i128) -> Result<Instr, SyntaxKind>
    ensures { result ≡ call_of target name }
{
    if 1 <= name && name <= i128::from(GREATEST_NAME) {
        Ok(Instr::Call {
            target,
            name: name as u32,
        })
    } else {
        Err(SyntaxKind::BadOperand)
    }
}

#[tactic(auto, unfolding(crate::specs::Grammar::instr_read))]
fn arith(verb: Verb, target: Operand, source: Operand) -> Result<Instr, SyntaxKind>
    ensures { result ≡ instr_read (Word.Operation verb) (target ∷ source ∷ []) }
{
    match target {
        Operand::Constant(_) => Err(SyntaxKind::ConstantTarget),
        _ => Ok(Instr::Arith {
            verb,
            target,
            source,
        }),
    }
}

#[tactic(auto, unfolding(crate::specs::Grammar::instr_read))]
fn clear(target: Operand, count: Operand) -> Result<Instr, SyntaxKind>
    ensures { result ≡ instr_read Word.Clear (target ∷ count ∷ []) }
{
    match (target, count) {
        (Operand::Constant(_), _) => Err(SyntaxKind::ConstantTarget),
        (Operand::Direct(start), Operand::Constant(count)) => clear_of(start, count),
        _ => Err(SyntaxKind::Unsupported),
    }
}

#[tactic(auto, unfolding(crate::specs::Grammar::instr_read))]
fn loop_start(target: Operand, len: Option<Operand>) -> Result<Instr, SyntaxKind>
    ensures { result ≡ instr_read Word.LoopStart (target ∷ option_to_list len) }
{
    match (target, len) {
        (Operand::Constant(_), _) => Err(SyntaxKind::ConstantTarget),
        (Operand::Direct(start), None) => loop_over(start, 1),
        (Operand::Direct(start), Some(Operand::Constant(len))) => loop_over(start, len),
        _ => Err(SyntaxKind::Unsupported),
    }
}

#[tactic(auto, unfolding(crate::specs::Grammar::instr_read))]
fn call(target: Operand, name: Operand) -> Result<Instr, SyntaxKind>
    ensures { result ≡ instr_read Word.Call (target ∷ name ∷ []) }
{
    match (target, name) {
        (Operand::Constant(_), _) => Err(SyntaxKind::ConstantTarget),
        (target, Operand::Constant(name)) => call_of(target, name),
        _ => Err(SyntaxKind::BadOperand),
    }
}

// The instruction of a content that isn't empty, or its first fault.
fn instr_of(text: &[u8]) -> Result<Instr, SyntaxKind>
    ensures { result ≡ content_read text.now }
{
    let (word, rest) = cut_word(text);
    match word_of(word)? {
        Word::Operation(verb) => {
            let (target, source) = two_operands(rest)?;
            arith(verb, target, source)
        }
        Word::Clear => {
            let (target, count) = two_operands(rest)?;
            clear(target, count)
        }
        Word::LoopStart => {
            let (target, len) = one_or_two_operands(rest)?;
            loop_start(target, len)
        }
        Word::LoopEnd => {
            no_operands(rest)?;
            Ok(Instr::LoopEnd)
        }
        Word::Call => {
            let (target, name) = two_operands(rest)?;
            call(target, name)
        }
    }
}

/// The instruction of a line, nothing for a line without one, or the first fault that the line has by itself.
#[tactic(auto, unfolding(crate::specs::Grammar::line_read))]
pub(crate) fn line_instr(line: &[u8]) -> Result<Option<Instr>, SyntaxKind>
    ensures { result ≡ line_read line.now }
{
    let text = content(line);
    if text.is_empty() {
        return Ok(None);
    }
    match instr_of(text) {
        Ok(instr) => Ok(Some(instr)),
        Err(kind) => Err(kind),
    }
}
