//! Printing a program.

ghost use Rattle.std.specs.Prelude.{◌≡◌, ◌++◌, ◌∷◌, [], ◌*◌, ◌<◌, OnOk, OnErr, replicate, vec_len};
ghost use Rattle.loda_syntax.specs.Words.{word_text};
ghost use Rattle.loda_syntax.specs.Canon.{canon, operand_text, instr_text, line_text, depth_at, depth_after, operand_texts};
ghost use Rattle.loda_syntax.specs.Answers.{AddsFront};

use crate::instr::{Instr, MOST_INSTRS, Operand};
use crate::program::Program;
use crate::word::{Word, word_text};
use itoa::Buffer;
use std::alloc::AllocError;

fn write_operand(out: &mut Vec<u8>, operand: &Operand) -> Result<(), AllocError>
    ensures { OnOk result (out.new.items ≡ out.old.items ++ operand_text operand.now) }
{
    let mut buffer = Buffer::new();
    match *operand {
        Operand::Constant(value) => out.extend_from_slice(buffer.format(value).as_bytes()),
        Operand::Direct(cell) => {
            out.push(b'$')?;
            out.extend_from_slice(buffer.format(cell).as_bytes())
        }
        Operand::Indirect(cell) => {
            out.extend_from_slice(b"$$")?;
            out.extend_from_slice(buffer.format(cell).as_bytes())
        }
    }
}

fn write_one(out: &mut Vec<u8>, word: Word, operand: &Operand) -> Result<(), AllocError>
    ensures { OnOk result (out.new.items ≡ out.old.items ++ (word_text word ++ operand_texts 32 (operand.now ∷ []))) }
{
    out.extend_from_slice(&word_text(word))?;
    out.push(b' ')?;
    write_operand(out, operand)
}

fn write_two(
    out: &mut Vec<u8>,
    word: Word,
    first: &Operand,
    second: &Operand,
) -> Result<(), AllocError>
    ensures { OnOk result (out.new.items ≡ out.old.items ++ (word_text word ++ operand_texts 32 (first.now ∷ second.now ∷ []))) }
{
    write_one(out, word, first)?;
    out.push(b',')?;
    write_operand(out, second)
}

#[tactic(auto, unfolding(crate::specs::Canon::instr_text))]
fn write_instr(out: &mut Vec<u8>, instr: &Instr) -> Result<(), AllocError>
    ensures { OnOk result (out.new.items ≡ out.old.items ++ instr_text instr.now) }
{
    match instr {
        Instr::Arith {
            verb,
            target,
            source,
        } => write_two(out, Word::Operation(*verb), target, source),
        Instr::Clear { start, count } => {
            let count = Operand::Constant(i128::from(*count));
            write_two(out, Word::Clear, &Operand::Direct(*start), &count)
        }
        Instr::LoopStart { start, len: 1 } => write_one(
            out,
            Word::LoopStart,
            &Operand::Direct(*start),
        ),
        Instr::LoopStart { start, len } => {
            let len = Operand::Constant(i128::from(*len));
            write_two(out, Word::LoopStart, &Operand::Direct(*start), &len)
        }
        Instr::LoopEnd => out.extend_from_slice(&word_text(Word::LoopEnd)),
        Instr::Call { target, name } => {
            let name = Operand::Constant(i128::from(*name));
            write_two(out, Word::Call, target, &name)
        }
    }
}

fn depth_at(depth: u32, instr: &Instr) -> u32
    ensures { result ≡ depth_at depth instr.now }
{
    match instr {
        Instr::LoopEnd => depth.saturating_sub(1),
        _ => depth,
    }
}

fn depth_after(depth: u32, instr: &Instr) -> u32
    requires { depth < MOST_INSTRS }
    ensures { result ≡ depth_after depth instr.now }
{
    match instr {
        Instr::LoopStart { start: _, len: _ } => depth + 1,
        Instr::LoopEnd => depth.saturating_sub(1),
        _ => depth,
    }
}

fn write_line(out: &mut Vec<u8>, depth: u32, instr: &Instr) -> Result<(), AllocError>
    requires { depth < MOST_INSTRS }
    ensures { OnOk result (out.new.items ≡ out.old.items ++ line_text depth instr.now) }
{
    'indent: for _ in 0..depth_at(depth, instr) {
        out.extend_from_slice(b"  ")?;
    }
    write_instr(out, instr)?;
    out.push(b'\n')?;
    Ok(())
}

/// Adds the canonical text of the program.
///
/// After want of memory `out` has its old bytes and a first part of the text.
pub fn print(program: &Program, out: &mut Vec<u8>) -> Result<(), AllocError>
    ensures ok { OnOk result (out.new.items ≡ out.old.items ++ canon program.now) }
    ensures err { OnErr result (AddsFront out.old.items out.new.items (canon program.now)) }
{
    let mut line = Vec::new(*out.allocator());
    let mut depth = 0;
    for instr in program.instrs() {
        line.clear();
        write_line(&mut line, depth, instr)?;
        out.extend_from_slice(&line)?;
        depth = depth_after(depth, instr);
    }
    Ok(())
}
