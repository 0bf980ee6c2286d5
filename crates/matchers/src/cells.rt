//! The cells of a program.

ghost use Rattle.std.specs.Prelude.{◌≡◌, ◌≤◌, ◌<◌, ◌+◌, ◌++◌, All, OnOk};
ghost use Rattle.loda_syntax.specs.WellFormed.{IsTarget, IsSource, IsInstr};
ghost use Rattle.compositions.specs.Cells as spec;

use loda_syntax::{Instr, MEMORY_CELLS, Operand};
use std::alloc::AllocError;

fn source_by(d: u16, operand: Operand) -> Operand
    requires d { d ≤ MEMORY_CELLS }
    requires cell { IsSource operand }
    ensures { result ≡ spec.operand_by d operand }
{
    match operand {
        Operand::Constant(value) => Operand::Constant(value),
        Operand::Direct(cell) => Operand::Direct(cell + d),
        Operand::Indirect(cell) => Operand::Indirect(cell + d),
    }
}

fn target_by(d: u16, operand: Operand) -> Operand
    requires d { d ≤ MEMORY_CELLS }
    requires cell { IsTarget operand }
    ensures { result ≡ spec.operand_by d operand }
{
    match operand {
        Operand::Constant(_) => unreachable!(),
        Operand::Direct(cell) => Operand::Direct(cell + d),
        Operand::Indirect(cell) => Operand::Indirect(cell + d),
    }
}

// The instruction with d added to each cell's number.
fn instr_by(d: u16, instr: Instr) -> Instr
    requires d { d ≤ MEMORY_CELLS }
    requires instr { IsInstr instr }
    ensures { result ≡ spec.instr_by d instr }
{
    match instr {
        Instr::Arith {
            verb,
            target,
            source,
        } => Instr::Arith {
            verb,
            target: target_by(d, target),
            source: source_by(d, source),
        },
        Instr::Clear { start, count } => Instr::Clear {
            start: start + d,
            count,
        },
        Instr::LoopStart { start: first, len } => Instr::LoopStart {
            start: first + d,
            len,
        },
        Instr::LoopEnd => Instr::LoopEnd,
        Instr::Call { target, name } => Instr::Call {
            target: target_by(d, target),
            name,
        },
    }
}

/// Adds the instructions, with d added to each cell's number.
pub fn push_by(out: &mut Vec<Instr>, list: &[Instr], d: u16) -> Result<(), AllocError>
    requires d { d ≤ MEMORY_CELLS }
    requires list { All IsInstr list.now }
    ensures { OnOk result (out.new.items ≡ out.old.items ++ spec.by d list.now) }
{
    for instr in list {
        out.push(instr_by(d, *instr))?;
    }
    Ok(())
}

fn operand_is_direct(operand: Operand) -> bool
    ensures { result ≡ spec.operand_is_direct operand }
{
    match operand {
        Operand::Indirect(_) => false,
        _ => true,
    }
}

fn instr_is_direct(instr: &Instr) -> bool
    ensures { result ≡ spec.instr_is_direct instr.now }
{
    match *instr {
        Instr::Arith {
            verb: _,
            target,
            source,
        } => operand_is_direct(target) && operand_is_direct(source),
        Instr::Call { target, name: _ } => operand_is_direct(target),
        _ => true,
    }
}

/// Whether no operand is an indirect cell.
pub fn is_direct(list: &[Instr]) -> bool
    ensures { result ≡ spec.is_direct list.now }
{
    for instr in list {
        if !instr_is_direct(instr) {
            return false;
        }
    }
    true
}

fn operand_top(operand: Operand) -> u16
    ensures { result ≡ spec.operand_top operand }
{
    match operand {
        Operand::Direct(cell) => cell,
        _ => 0,
    }
}

fn region_top(start: u16, len: u16) -> u16
    requires { start + len ≤ MEMORY_CELLS }
    ensures { result ≡ spec.region_top start len }
{
    if len == 0 { start } else { start + (len - 1) }
}

fn instr_top(instr: &Instr) -> u16
    requires { IsInstr instr.now }
    ensures { result ≡ spec.instr_top instr.now }
{
    match *instr {
        Instr::Arith {
            verb: _,
            target,
            source,
        } => operand_top(target).max(operand_top(source)),
        Instr::Clear { start, count } => region_top(start, count),
        Instr::LoopStart { start, len } => region_top(start, len as u16),
        Instr::LoopEnd => 0,
        Instr::Call { target, name: _ } => operand_top(target),
    }
}

/// The greatest direct cell, or 0 where there is none.
pub fn top(list: &[Instr]) -> u16
    requires { All IsInstr list.now }
    ensures value { result ≡ spec.top list.now }
    ensures bound { result < MEMORY_CELLS }
{
    let mut top = 0;
    for instr in list {
        top = top.max(instr_top(instr));
    }
    top
}
