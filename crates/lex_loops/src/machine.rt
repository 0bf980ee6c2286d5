//! A run of one program.

ghost use Rattle.std.specs.Prelude.{◌≡◌, ◌≤◌, IfOk, OnErr};
ghost use Rattle.lex_loops.specs.State.{Begins, Advances, TakesAnswer, IsCharged, run_on, phase_after};
ghost use Rattle.loda_syntax.specs.Programs.{instrs};

use crate::progress::Progress;
use crate::stop::{Phase, Stop};
use checked_numbers::Num;
use loda_semantics::FaultKind;
use loda_syntax::Program;
use std::alloc::{AllocError, Global};
use std::marker::Model;
use std::snapshot::Snapshot;

/// A run of one program, which stops at each call of another program.
///
/// It keeps the cells up to the greatest one that was written, an undo log of what was written since the outermost loop
/// last began an iteration, and a stack of the loops that are open.
#[derive(Drop)]
pub struct Machine {
    of: Snapshot<Program>,
    run: Progress,
    phase: Phase,
}

impl Model for Machine {
    ghost use Rattle.lex_loops.specs.State.{MachineState};
    ghost use Rattle.lex_loops.specs.Machines.{machine_state, IsSound};

    ghost Value = { MachineState };

    ghost view = { λ m. machine_state m.of.value m.run m.phase };

    ghost invariant = { λ m. IsSound m.of.value m.run m.phase };
}

// The phase that a stop leads to.
fn phase_of(stop: &Stop) -> Phase
    ensures { result ≡ phase_after stop.now }
{
    match stop {
        Stop::Call { name: _, arg: _ } => Phase::Waiting,
        Stop::Done(_) | Stop::Fault(_) | Stop::Spent => Phase::Ended,
    }
}

impl Machine {
    /// A machine at the start of a program, with the argument in cell 0.
    pub fn start(alloc: Global, program: &Program, arg: Num) -> Result<Machine, AllocError>
        ensures program { IfOk result (λ machine. machine.program ≡ program.now) }
        ensures begins { IfOk result (λ machine. Begins machine program.now arg) }
        ensures phase { IfOk result (λ machine. machine.phase ≡ Phase.Ready) }
    {
        let _list = program.instrs();
        let run = Progress::start(alloc, arg)?;
        Ok(Machine {
            of: Snapshot::of(program),
            run,
            phase: Phase::Ready,
        })
    }

    /// What may be asked of the machine next.
    pub fn phase(&self) -> Phase
        ensures { result ≡ self.now.phase }
    {
        self.phase
    }

    /// Runs the program up to its end, its next call, a fault, or the instruction whose cost is greater than the budget.
    ///
    /// Each cost is taken from the budget before its instruction acts. At a call the step of the call itself is charged,
    /// and the room for its answer is taken. After want of memory the run is over, at an instruction of it that was charged
    /// and did not act: the machine stands just past that one, and the costs up to it are charged.
    pub fn advance(&mut self, program: &Program, budget: &mut u64) -> Result<Stop, AllocError>
        requires ready { self.old.phase ≡ Phase.Ready }
        requires program { program.now ≡ self.old.program }
        ensures stops { IfOk result (λ stop. Advances self.old budget.old stop budget.new self.new) }
        ensures phase { IfOk result (λ stop. self.new.phase ≡ phase_after stop) }
        ensures never_missing { ¬ (result ≡ Ok (Stop.Fault FaultKind.Missing)) }

        ensures charged { OnErr result (IsCharged (instrs self.old.program) (λ callee. run_on callee self.old budget.old) budget.new self.new.at) }
        ensures ended { OnErr result (self.new.phase ≡ Phase.Ended) }

        ensures budget { budget.new ≤ budget.old }
        ensures program { self.new.program ≡ self.old.program }
    {
        self.phase = Phase::Ended;
        let stop = self.run.run(program.instrs(), budget)?;
        self.phase = phase_of(&stop);
        Ok(stop)
    }

    /// Gives the machine the value of the call that it waits for.
    pub fn answer(&mut self, value: Num)
        requires waiting { self.old.phase ≡ Phase.Waiting }
        ensures answer { TakesAnswer self.old value self.new }
        ensures phase { self.new.phase ≡ Phase.Ready }
        ensures program { self.new.program ≡ self.old.program }
    {
        self.run.answer(value);
        self.phase = Phase::Ready;
    }

    /// Begins anew with a program and an argument, in the memory that the machine has.
    pub fn restart(&mut self, program: &Program, arg: Num)
        ensures program { self.new.program ≡ program.now }
        ensures begins { Begins self.new program.now arg }
        ensures phase { self.new.phase ≡ Phase.Ready }
    {
        let _list = program.instrs();
        self.of = Snapshot::of(program);
        self.run.restart(arg);
        self.phase = Phase::Ready;
    }
}

#[cfg(test)]
mod tests;
