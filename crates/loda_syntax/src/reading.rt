//! Reading a program's text.

ghost use Rattle.std.specs.Prelude.{◌≡◌, ◌<◌, ◌^◌, ◌+◌, length, reverse, IfOk, IfErr};
ghost use Rattle.loda_syntax.specs.Reading.{text_read, with_instr, with_line, open_after, fault_at};
ghost use Rattle.loda_syntax.specs.Answers.{ParsesAs};
ghost use Rattle.loda_syntax.specs.Laws.{IsTextOf, IsCause};

use crate::draft::Draft;
use crate::error::ParseError;
use crate::line::cut_at;
use crate::program::Program;
use std::alloc::Global;

fn read(alloc: Global, text: &[u8]) -> Result<Program, ParseError>
    ensures { ParsesAs result (text_read text.now) }
{
    let mut draft = Draft::new(alloc);
    let mut rest = text;
    let mut number = 1;
    while let Some((line, after)) = cut_at(rest, b'\n') {
        draft.add_line(number, line)?;
        number += 1;
        rest = after;
    }
    draft.add_line(number, rest)?;
    draft.finish()
}

/// The program of a text in the LODA language, or the text's first fault with its line, counted from 1.
///
/// A line has one instruction or none: a word, and operands that are separated by commas. Blanks around them, a
/// comment from `;` on, leading zeros and a CR at a line's end have no meaning. `lpb $c` stands for `lpb $c,1`.
/// The bytes may be any; those of no text are read as any others.
pub fn parse(alloc: Global, text: &[u8]) -> Result<Program, ParseError>
    ensures value { ParsesAs result (text_read text.now) }
    ensures reads { IfOk result (λ program. IsTextOf text.now program) }
    ensures bad { IfErr result (λ error. IsCause text.now error) }
{
    read(alloc, text)
}
