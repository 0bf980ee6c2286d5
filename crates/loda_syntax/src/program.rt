//! A well-formed program.

ghost use Rattle.std.specs.Prelude.{◌≡◌, ◌↔◌, ◌+◌, ◌≤◌, IfOk, IfErr, OnErr, List, IsTrue, length, All, zero};
ghost use Rattle.loda_syntax.specs.WellFormed.{IsProgram, IsTarget, IsSource, IsInstr, IsBalanced};

use crate::instr::{Instr, MEMORY_CELLS, MOST_INSTRS, Operand};
use std::alloc::AllocError;
use std::marker::Model;
use text_parts::GREATEST_NAME;

/// A list of instructions that is well formed: at most 1,000 instructions, each with its operands, region and name in
/// range, and loops that are balanced.
#[derive(Debug, Drop)]
pub struct Program {
    list: Vec<Instr>,
}

impl Model for Program {
    ghost use Rattle.std.specs.Prelude.{List};
    ghost use Rattle.loda_syntax.specs.declared.instr.Instr.{Instr};
    ghost use Rattle.loda_syntax.specs.WellFormed.{IsProgram};

    ghost Value = { List Instr };

    ghost view = { λ p. p.list.items };

    ghost invariant = { λ p. IsProgram p.list.items };
}

fn is_target(operand: &Operand) -> bool
    ensures { IsTrue result ↔ IsTarget operand.now }
{
    match *operand {
        Operand::Constant(_) => false,
        Operand::Direct(cell) => cell < MEMORY_CELLS,
        Operand::Indirect(cell) => cell < MEMORY_CELLS,
    }
}

fn is_source(operand: &Operand) -> bool
    ensures { IsTrue result ↔ IsSource operand.now }
{
    match *operand {
        Operand::Constant(value) => value != i128::MIN,
        Operand::Direct(cell) => cell < MEMORY_CELLS,
        Operand::Indirect(cell) => cell < MEMORY_CELLS,
    }
}

fn is_instr(instr: &Instr) -> bool
    ensures { IsTrue result ↔ IsInstr instr.now }
{
    match instr {
        Instr::Arith {
            verb: _,
            target,
            source,
        } => is_target(target) && is_source(source),
        Instr::Clear { start, count } => *start < MEMORY_CELLS
            && *count <= 1024
            && *start as u32 + *count as u32 <= MEMORY_CELLS as u32,
        Instr::LoopStart { start, len } => 1 <= *len
            && *len <= 64
            && *start as u32 + *len as u32 <= MEMORY_CELLS as u32,
        Instr::LoopEnd => true,
        Instr::Call { target, name } => is_target(target) && 1 <= *name && *name <= GREATEST_NAME,
    }
}

fn all_in_range(list: &[Instr]) -> bool
    ensures { IsTrue result ↔ All IsInstr list.now }
{
    list.iter().all(|instr| is_instr(instr))
}

fn is_balanced(list: &[Instr]) -> bool
    requires { length list.now ≤ MOST_INSTRS }
    ensures { IsTrue result ↔ IsBalanced zero list.now }
{
    let mut depth: u32 = 0;
    for instr in list {
        match instr {
            Instr::LoopStart { start: _, len: _ } => depth += 1,
            Instr::LoopEnd => {
                if depth == 0 {
                    return false;
                }
                depth -= 1;
            }
            _ => {}
        }
    }
    depth == 0
}

fn is_program(list: &[Instr]) -> bool
    ensures { IsTrue result ↔ IsProgram list.now }
{
    if list.len() <= MOST_INSTRS {
        all_in_range(list) && is_balanced(list)
    } else {
        false
    }
}

impl Program {
    /// The program of a list that is well formed.
    pub(crate) fn of(list: Vec<Instr>) -> Program
        requires { IsProgram list.items }
        ensures { result ≡ list.items }
    {
        Program { list }
    }

    /// The program of a list, or the list itself where it isn't well formed.
    pub fn new(list: Vec<Instr>) -> Result<Program, Vec<Instr>>
        ensures ok { IfOk result (λ program. program ≡ list.items) }
        ensures program { IfOk result (λ program. IsProgram program) }
        ensures err { IfErr result (λ given. given ≡ list) }
        ensures bad { OnErr result (¬ IsProgram list.items) }
    {
        if is_program(&list) {
            Ok(Program { list })
        } else {
            Err(list)
        }
    }

    /// The instructions, in their order.
    pub fn instrs(&self) -> &[Instr]
        ensures value { result.now ≡ self.now }
        ensures program { IsProgram result.now }
    {
        &self.list
    }

    /// Whether the programs are equal.
    pub fn same(&self, other: &Program) -> bool
        ensures { IsTrue result ↔ (self.now ≡ other.now) }
    {
        self.list == other.list
    }

    /// An equal program.
    pub fn copy(&self) -> Result<Program, AllocError>
        ensures { IfOk result (λ program. program ≡ self.now) }
    {
        Ok(Program {
            list: self.list.clone()?,
        })
    }
}
