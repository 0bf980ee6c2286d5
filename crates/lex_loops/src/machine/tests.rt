//! Programs run by hand, in the language's own text beside each.

use super::*;
use loda_semantics::FaultKind;
use loda_syntax::{Instr, Operand, Verb};
use std::test::Fail;

fn arith(verb: Verb, target: u16, source: Operand) -> Instr {
    Instr::Arith {
        verb,
        target: Operand::Direct(target),
        source,
    }
}

// mov $1,1 / lpb $0 / sub $0,1 / mov $3,$1 / add $1,$2 / mov $2,$3 / lpe / mov $0,$2
fn fibonacci() -> [Instr; 8] {
    [
        arith(Verb::Mov, 1, Operand::Constant(1)),
        Instr::LoopStart { start: 0, len: 1 },
        arith(Verb::Sub, 0, Operand::Constant(1)),
        arith(Verb::Mov, 3, Operand::Direct(1)),
        arith(Verb::Add, 1, Operand::Direct(2)),
        arith(Verb::Mov, 2, Operand::Direct(3)),
        Instr::LoopEnd,
        arith(Verb::Mov, 0, Operand::Direct(2)),
    ]
}

// mov $1,2 / lpb $0,2 / sub $1,1 / add $2,1 / lpe / mov $0,$2
fn region_of_two() -> [Instr; 6] {
    [
        arith(Verb::Mov, 1, Operand::Constant(2)),
        Instr::LoopStart { start: 0, len: 2 },
        arith(Verb::Sub, 1, Operand::Constant(1)),
        arith(Verb::Add, 2, Operand::Constant(1)),
        Instr::LoopEnd,
        arith(Verb::Mov, 0, Operand::Direct(2)),
    ]
}

// lpb $0 / sub $0,1 / mov $1,3 / lpb $1 / sub $1,1 / add $2,1 / lpe / lpe / mov $0,$2
fn nested() -> [Instr; 9] {
    [
        Instr::LoopStart { start: 0, len: 1 },
        arith(Verb::Sub, 0, Operand::Constant(1)),
        arith(Verb::Mov, 1, Operand::Constant(3)),
        Instr::LoopStart { start: 1, len: 1 },
        arith(Verb::Sub, 1, Operand::Constant(1)),
        arith(Verb::Add, 2, Operand::Constant(1)),
        Instr::LoopEnd,
        Instr::LoopEnd,
        arith(Verb::Mov, 0, Operand::Direct(2)),
    ]
}

// lpb $0 / sub $0,1 / mov $3,5000 / lpb $3 / sub $3,1 / add $1,1 / lpe / lpe / mov $0,$1
fn long_iterations() -> [Instr; 9] {
    [
        Instr::LoopStart { start: 0, len: 1 },
        arith(Verb::Sub, 0, Operand::Constant(1)),
        arith(Verb::Mov, 3, Operand::Constant(5000)),
        Instr::LoopStart { start: 3, len: 1 },
        arith(Verb::Sub, 3, Operand::Constant(1)),
        arith(Verb::Add, 1, Operand::Constant(1)),
        Instr::LoopEnd,
        Instr::LoopEnd,
        arith(Verb::Mov, 0, Operand::Direct(1)),
    ]
}

// mov $0,$$0
fn indirect() -> [Instr; 1] {
    [Instr::Arith {
        verb: Verb::Mov,
        target: Operand::Direct(0),
        source: Operand::Indirect(0),
    }]
}

// mov $3,$0 / clr $0,3 / add $0,$3
fn cleared() -> [Instr; 3] {
    [
        arith(Verb::Mov, 3, Operand::Direct(0)),
        Instr::Clear { start: 0, count: 3 },
        arith(Verb::Add, 0, Operand::Direct(3)),
    ]
}

// mov $1,5 / lpb $0 / seq $1,45 / sub $0,1 / lpe / mov $0,$1
fn caller() -> [Instr; 6] {
    [
        arith(Verb::Mov, 1, Operand::Constant(5)),
        Instr::LoopStart { start: 0, len: 1 },
        Instr::Call {
            target: Operand::Direct(1),
            name: 45,
        },
        arith(Verb::Sub, 0, Operand::Constant(1)),
        Instr::LoopEnd,
        arith(Verb::Mov, 0, Operand::Direct(1)),
    ]
}

fn program(rt: &HostRuntime, list: &[Instr]) -> Result<Program, Fail> {
    match Program::new(list.to_vec(rt.alloc())?) {
        Ok(program) => Ok(program),
        Err(_) => Err("the list is no program")?,
    }
}

fn number(value: i128) -> Result<Num, Fail> {
    Ok(Num::new(value).ok_or("the value is no number")?)
}

#[test]
fn machine_stops(rt: HostRuntime) -> Result<(), Fail> {
    let fibonacci = fibonacci();
    let region_of_two = region_of_two();
    let nested = nested();
    let long_iterations = long_iterations();
    let indirect = indirect();
    let cleared = cleared();
    let rows = [
        (fibonacci.as_slice(), 7, 100, Stop::Done(number(13)?), 57),
        (fibonacci.as_slice(), 0, 100, Stop::Done(number(0)?), 92),
        (fibonacci.as_slice(), 7, 42, Stop::Spent, 0),
        (region_of_two.as_slice(), 0, 100, Stop::Done(number(2)?), 85),
        (region_of_two.as_slice(), 0, 14, Stop::Spent, 0),
        (nested.as_slice(), 2, 1000, Stop::Done(number(6)?), 950),
        // one iteration that goes on, and one that is undone, of more than 10,000 writes each
        (
            long_iterations.as_slice(),
            1,
            40000,
            Stop::Done(number(5000)?),
            9984,
        ),
        (indirect.as_slice(), 4095, 9, Stop::Done(number(0)?), 8),
        (
            indirect.as_slice(),
            4096,
            9,
            Stop::Fault(FaultKind::BadCell),
            8,
        ),
        (
            indirect.as_slice(),
            -1,
            9,
            Stop::Fault(FaultKind::BadCell),
            8,
        ),
        (cleared.as_slice(), 7, 5, Stop::Done(number(7)?), 0),
        (cleared.as_slice(), 7, 3, Stop::Spent, 2),
    ];
    for (list, arg, budget, stop, left) in rows {
        let program = program(&rt, list)?;
        let mut machine = Machine::start(rt.alloc(), &program, number(arg)?)?;
        let mut steps: u64 = budget;
        assert_eq!(rt;
            machine.advance(&program, &mut steps)?,
            stop,
            "at {arg} with {budget}"
        );
        assert_eq!(rt; steps, left, "at {arg} with {budget}");
        assert_eq!(rt; machine.phase(), Phase::Ended);
        machine.restart(&program, number(arg)?);
        let mut steps: u64 = budget;
        assert_eq!(rt;
            machine.advance(&program, &mut steps)?,
            stop,
            "again at {arg} with {budget}"
        );
        assert_eq!(rt; steps, left, "again at {arg} with {budget}");
    }
    Ok(())
}

#[test]
fn calls_are_answered(rt: HostRuntime) -> Result<(), Fail> {
    let program = program(&rt, &caller())?;
    let mut machine = Machine::start(rt.alloc(), &program, number(1)?)?;
    let mut steps = 20;
    assert_eq!(rt;
        machine.advance(&program, &mut steps)?,
        Stop::Call {
            name: 45,
            arg: number(5)?
        }
    );
    assert!(rt; matches!(machine.phase(), Phase::Waiting));
    machine.answer(number(8)?);
    assert!(rt; matches!(machine.phase(), Phase::Ready));
    assert_eq!(rt;
        machine.advance(&program, &mut steps)?,
        Stop::Call {
            name: 45,
            arg: number(8)?
        }
    );
    assert!(rt; matches!(machine.phase(), Phase::Waiting));
    machine.answer(number(13)?);
    assert_eq!(rt;
        machine.advance(&program, &mut steps)?,
        Stop::Done(number(8)?)
    );
    assert_eq!(rt; steps, 11);
    Ok(())
}
