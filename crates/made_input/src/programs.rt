//! The programs of a place.

ghost use Rattle.std.specs.Prelude.{◌≡◌, ◌<◌, ◌≢◌, ◌%◌, IfOk};
ghost use Rattle.loda_syntax.specs.WellFormed.{IsProgram};
ghost use Rattle.loda_syntax.specs.declared.instr.Instr.TheVariants.{Arith};
ghost use Rattle.loda_syntax.specs.declared.instr.Operand.TheVariants.{Direct};
ghost use Rattle.made_input.specs.Programs.{plain_program, calling_program, first_program};

use loda_syntax::{Instr, Operand, Program, Verb};
use std::alloc::{AllocError, Global};

// An operation on a cell.
fn on(verb: Verb, cell: u16, source: Operand) -> Instr
    ensures { result ≡ Arith verb (Direct cell) source }
{
    Instr::Arith {
        verb,
        target: Operand::Direct(cell),
        source,
    }
}

// The program of a list that is one.
fn program_of(list: Vec<Instr>) -> Program
    requires { IsProgram list.items }
    ensures { result ≡ list.items }
{
    match Program::new(list) {
        Ok(program) => program,
        Err(_) => unreachable!(),
    }
}

/// The plain program of a place.
pub fn plain_program(alloc: Global, place: u32) -> Result<Program, AllocError>
    requires { place < 20000 }
    ensures { IfOk result (λ program. program ≡ plain_program place) }
{
    let list = [
        on(Verb::Mul, 0, Operand::Constant(i128::from(place + 1))),
        on(Verb::Add, 0, Operand::Constant(i128::from(place))),
    ];
    Ok(program_of(Vec::from_slice(alloc, &list)?))
}

// The program of a place that calls the one before it.
fn calling_program(alloc: Global, place: u32) -> Result<Program, AllocError>
    requires few { place < 20000 }
    requires calls { 0 < place }
    ensures { IfOk result (λ program. program ≡ calling_program place) }
{
    let list = [
        on(Verb::Mov, 1, Operand::Direct(0)),
        Instr::Call {
            target: Operand::Direct(0),
            name: place,
        },
        on(Verb::Add, 0, Operand::Direct(1)),
        on(Verb::Add, 0, Operand::Constant(1)),
    ];
    Ok(program_of(Vec::from_slice(alloc, &list)?))
}

/// The first program of a place.
pub fn first_program(alloc: Global, place: u32) -> Result<Program, AllocError>
    requires { place < 20000 }
    ensures { IfOk result (λ program. program ≡ first_program place) }
{
    if place % 10 == 0 {
        plain_program(alloc, place)
    } else {
        calling_program(alloc, place)
    }
}
