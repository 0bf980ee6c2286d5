//! The lines of a program that were read so far.

ghost use Rattle.std.specs.Prelude.{◌≡◌, reverse};
ghost use Rattle.loda_syntax.specs.declared.error.ParseError.TheVariants.{Syntax};
ghost use Rattle.loda_syntax.specs.Answers.{ParsesAs, ParsesAsSeen};
ghost use Rattle.loda_syntax.specs.Reading.{IsDraft, empty_draft, open_after, with_instr, with_line, fault_at, closed};

use crate::content::line_instr;
use crate::error::{ParseError, SyntaxKind};
use crate::instr::{Instr, MOST_INSTRS};
use crate::program::Program;
use std::alloc::Global;
use std::marker::Model;

/// What the lines so far stand for: their instructions, and the lines of the loops that aren't ended, innermost last.
#[derive(Drop)]
pub(crate) struct Draft {
    list: Vec<Instr>,
    open_at: Vec<u64>,
}

impl Model for Draft {
    ghost use Rattle.std.specs.Prelude.{reverse};
    ghost use Rattle.loda_syntax.specs.Reading.{Draft};

    ghost Value = { Draft };

    ghost view = { λ d. record { list = d.list.items; open_at = reverse d.open_at.items } };
}

impl Draft {
    /// The draft before the first line.
    pub(crate) fn new(alloc: Global) -> Draft
        ensures { result ≡ empty_draft }
    {
        Draft {
            list: Vec::new(alloc),
            open_at: Vec::new(alloc),
        }
    }

    /// Adds a line, with its number.
    pub(crate) fn add_line(&mut self, number: u64, text: &[u8]) -> Result<(), ParseError>
        ensures { ParsesAsSeen (λ _. self.new) result (fault_at number (with_line number self.old text.now)) }
    {
        match line_instr(text) {
            Ok(None) => Ok(()),
            Ok(Some(instr)) => self.add(number, instr),
            Err(kind) => Err(fault(number, kind)),
        }
    }

    fn add(&mut self, line: u64, instr: Instr) -> Result<(), ParseError>
        ensures { ParsesAsSeen (λ _. self.new) result (fault_at line (with_instr line self.old (Some instr))) }
    {
        follow(&mut self.open_at, line, &instr)?;
        if self.list.len() >= MOST_INSTRS {
            return Err(fault(line, SyntaxKind::TooLong));
        }
        self.list.push(instr)?;
        Ok(())
    }

    /// The program of the lines, if each loop is ended.
    pub(crate) fn finish(mut self) -> Result<Program, ParseError>
        requires { IsDraft self }
        ensures { ParsesAs result (closed self) }
    {
        match self.open_at.pop() {
            Some(line) => Err(fault(line, SyntaxKind::LoopOpen)),
            None => Ok(Program::of(self.list)),
        }
    }
}

// Opens or ends the loop of an instruction.
fn follow(open_at: &mut Vec<u64>, line: u64, instr: &Instr) -> Result<(), ParseError>
    ensures { ParsesAsSeen (λ _. reverse open_at.new.items) result (fault_at line (open_after line instr.now (reverse open_at.old.items))) }
{
    match instr {
        Instr::LoopStart { start: _, len: _ } => {
            open_at.push(line)?;
            Ok(())
        }
        Instr::LoopEnd => match open_at.pop() {
            Some(_) => Ok(()),
            None => Err(fault(line, SyntaxKind::LoopClose)),
        },
        _ => Ok(()),
    }
}

fn fault(line: u64, kind: SyntaxKind) -> ParseError
    ensures { result ≡ Syntax line kind }
{
    ParseError::Syntax { line, kind }
}
