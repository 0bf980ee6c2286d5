//! The composed program of a form.
ghost use Rattle.std.specs.Prelude.{◌≡◌, ◌<◌, ◌+◌, ◌++◌, ◌/◌, ◌%◌, true, All, OnOk, IfOk, IfSome};
ghost use Rattle.checked_numbers.specs.Numbers.{IsNumber};
ghost use Rattle.loda_syntax.specs.WellFormed.{IsInstr, IsProgram};
ghost use Rattle.loda_syntax.specs.declared.instr.Instr.TheVariants as instrs;
ghost use Rattle.loda_syntax.specs.declared.instr.Operand.TheVariants as operands;
ghost use Rattle.compositions.specs.Cells.{is_direct};
ghost use Rattle.compositions.specs.Composed as spec;
ghost use Rattle.matchers.specs.Composing.{is_small, if_small, composed, Means};

use crate::cells;
use checked_numbers::Num;
use loda_syntax::{Instr, MEMORY_CELLS, Operand, Program, Verb};
use std::alloc::{AllocError, Global};
use term_index::Form;

fn arith(verb: Verb, target: u16, source: Operand) -> Instr
    ensures { result ≡ instrs.Arith verb (operands.Direct target) source }
{
    Instr::Arith {
        verb,
        target: Operand::Direct(target),
        source,
    }
}

// Adds `mul $0,a` where a isn't 1, and `add $0,b` where b isn't 0.
fn push_linear_end(out: &mut Vec<Instr>, a: Num, b: Num) -> Result<(), AllocError>
    ensures added { OnOk result (out.new.items ≡ out.old.items ++ spec.linear_end a b) }
    ensures numbers { OnOk result (IsNumber a × IsNumber b) }
{
    if a.get() != 1 {
        out.push(arith(Verb::Mul, 0, Operand::Constant(a.get())))?;
    }
    if b.get() != 0 {
        out.push(arith(Verb::Add, 0, Operand::Constant(b.get())))?;
    }
    Ok(())
}

// Clears the u + 1 cells from 2 on.
fn push_clears(out: &mut Vec<Instr>, u: u16) -> Result<(), AllocError>
    requires { u < MEMORY_CELLS }
    ensures { OnOk result (out.new.items ≡ out.old.items ++ spec.clears (u / 1024) 2 (u % 1024 + 1)) }
{
    let full = u / 1024;
    let mut start = 2;
    for i in 0..full {
        out.push(Instr::Clear { start, count: 1024 })?;
        start += 1024;
    }
    out.push(Instr::Clear {
        start,
        count: u % 1024 + 1,
    })?;
    Ok(())
}

// The program and then the end of the linear form.
fn linear_list(alloc: Global, list: &[Instr], a: Num, b: Num) -> Result<Vec<Instr>, AllocError>
    ensures list { IfOk result (λ made. made.items ≡ spec.linear list.now a b) }
    ensures numbers { OnOk result (IsNumber a × IsNumber b) }
{
    let mut made = Vec::new(alloc);
    made.extend_from_slice(list)?;
    push_linear_end(&mut made, a, b)?;
    Ok(made)
}

fn difference_list(alloc: Global, list: &[Instr]) -> Result<Vec<Instr>, AllocError>
    requires { All IsInstr list.now }
    ensures { IfOk result (λ made. made.items ≡ spec.difference list.now) }
{
    let d = cells::top(list) + 1;
    let mut made = Vec::new(alloc);
    made.push(arith(Verb::Mov, d, Operand::Direct(0)))?;
    made.push(arith(Verb::Add, 0, Operand::Constant(1)))?;
    made.extend_from_slice(list)?;
    cells::push_by(&mut made, list, d)?;
    made.push(arith(Verb::Sub, 0, Operand::Direct(d)))?;
    Ok(made)
}

fn sum_list(alloc: Global, list: &[Instr]) -> Result<Vec<Instr>, AllocError>
    requires { All IsInstr list.now }
    ensures { IfOk result (λ made. made.items ≡ spec.sum list.now) }
{
    let mut made = Vec::new(alloc);
    made.push(arith(Verb::Add, 0, Operand::Constant(1)))?;
    made.push(Instr::LoopStart { start: 0, len: 1 })?;
    made.push(arith(Verb::Sub, 0, Operand::Constant(1)))?;
    push_clears(&mut made, cells::top(list))?;
    made.push(arith(Verb::Mov, 2, Operand::Direct(0)))?;
    made.push(arith(Verb::Max, 2, Operand::Constant(0)))?;
    cells::push_by(&mut made, list, 2)?;
    made.push(arith(Verb::Add, 1, Operand::Direct(2)))?;
    made.push(Instr::LoopEnd)?;
    made.push(arith(Verb::Mov, 0, Operand::Direct(1)))?;
    Ok(made)
}

// The program of the list, where it is small enough.
fn fitted(list: Vec<Instr>) -> Option<Program>
    requires { is_small list.items ≡ true → IsProgram list.items }
    ensures { result ≡ if_small list.items }
{
    match Program::new(list) {
        Ok(program) => Some(program),
        Err(_) => None,
    }
}

fn linear(alloc: Global, program: &Program, a: Num, b: Num) -> Result<Option<Program>, AllocError>
    ensures { IfOk result (λ made. made ≡ if_small (spec.linear program.now a b)) }
{
    let list = program.instrs();
    let made = linear_list(alloc, list, a, b)?;
    Ok(fitted(made))
}

fn difference(alloc: Global, program: &Program) -> Result<Option<Program>, AllocError>
    requires { is_direct program.now ≡ true }
    ensures { IfOk result (λ made. made ≡ if_small (spec.difference program.now)) }
{
    let list = program.instrs();
    let made = difference_list(alloc, list)?;
    Ok(fitted(made))
}

fn sum(alloc: Global, program: &Program) -> Result<Option<Program>, AllocError>
    requires { is_direct program.now ≡ true }
    ensures { IfOk result (λ made. made ≡ if_small (spec.sum program.now)) }
{
    let list = program.instrs();
    let made = sum_list(alloc, list)?;
    Ok(fitted(made))
}

// A copy, which is small enough.
fn direct(program: &Program) -> Result<Option<Program>, AllocError>
    ensures { IfOk result (λ made. made ≡ if_small program.now) }
{
    let _list = program.instrs();
    Ok(Some(program.copy()?))
}

fn of_form(alloc: Global, program: &Program, form: &Form) -> Result<Option<Program>, AllocError>
    ensures { IfOk result (λ made. made ≡ composed form.now program.now) }
{
    match *form {
        Form::Direct => direct(program),
        Form::Linear { a, b } => linear(alloc, program, a, b),
        Form::Difference => {
            if cells::is_direct(program.instrs()) {
                difference(alloc, program)
            } else {
                Ok(None)
            }
        }
        Form::Sum => {
            if cells::is_direct(program.instrs()) {
                sum(alloc, program)
            } else {
                Ok(None)
            }
        }
    }
}

/// The composed program of a form, or none where the form is Difference or Sum and the program has an indirect cell,
/// and where it would have more than 1,000 instructions or a cell past 4095.
pub fn compose(alloc: Global, program: &Program, form: &Form) -> Result<Option<Program>, AllocError>
    ensures value { IfOk result (λ made. made ≡ composed form.now program.now) }
    ensures meaning { IfOk result (λ made. IfSome made (λ q. Means form.now program.now q)) }
{
    let _list = program.instrs();
    of_form(alloc, program, form)
}
