//! Runs that have not ended.

ghost use Rattle.std.specs.Prelude.{◌≡◌, ◌+◌, ◌<◌, ◌≤◌, ◌^◌, ◌++◌, ◌∷◌, [], IsTrue, IfOk, OnOk};
ghost use Rattle.lex_loops.specs.State.{Begins, TakesAnswer};
ghost use Rattle.lex_loops.specs.declared.stop.Phase.TheVariants as phase;

use crate::outcomes::NodeRun;
use crate::pairs_list::Pairs;
use checked_numbers::Num;
use lex_loops::Machine;
use loda_semantics::Pair;
use loda_syntax::Program;
use std::alloc::{AllocError, Global};
use std::mem::replace;

/// A run: its machine, how many steps it was given, its calls so far, and the steps that they used.
#[derive(Drop)]
pub struct Frame {
    pub machine: Machine,
    pub given: u64,
    pub calls: Vec<Pair>,
    pub below: u64,
}

/// A run of a program that waits for the value of a call.
#[derive(Drop)]
pub struct Caller<'a> {
    pub program: &'a Program,
    pub frame: Box<Frame>,
    pub call: Pair,
}

// A frame in new memory.
fn begin_anew(
    alloc: Global,
    program: &Program,
    arg: Num,
    given: u64,
) -> Result<Box<Frame>, AllocError>
    ensures begins { IfOk result (λ frame. Begins frame.value.machine program.now arg) }
    ensures text { IfOk result (λ frame. frame.value.machine.program ≡ program.now) }
    ensures phase { IfOk result (λ frame. frame.value.machine.phase ≡ phase.Ready) }
    ensures given { IfOk result (λ frame. frame.value.given ≡ given) }
    ensures calls { IfOk result (λ frame. frame.value.calls.items ≡ []) }
    ensures below { IfOk result (λ frame. frame.value.below ≡ 0) }
{
    let machine = Machine::start(alloc, program, arg)?;
    let frame = Frame {
        machine,
        given,
        calls: Vec::new(alloc),
        below: 0,
    };
    Ok(Box::new(alloc, frame)?)
}

/// A run that begins, in one of the free frames if there is one, or else in a new one.
pub fn begin(
    alloc: Global,
    free: &mut Vec<Box<Frame>>,
    program: &Program,
    arg: Num,
    given: u64,
) -> Result<Box<Frame>, AllocError>
    ensures begins { IfOk result (λ frame. Begins frame.value.machine program.now arg) }
    ensures text { IfOk result (λ frame. frame.value.machine.program ≡ program.now) }
    ensures phase { IfOk result (λ frame. frame.value.machine.phase ≡ phase.Ready) }
    ensures given { IfOk result (λ frame. frame.value.given ≡ given) }
    ensures calls { IfOk result (λ frame. frame.value.calls.items ≡ []) }
    ensures below { IfOk result (λ frame. frame.value.below ≡ 0) }
{
    let Some(mut frame) = free.pop() else {
        return begin_anew(alloc, program, arg, given);
    };
    frame.begin(program, arg, given);
    Ok(frame)
}

impl Frame {
    // Begins a run in the memory of one that has ended.
    fn begin(&mut self, program: &Program, arg: Num, given: u64)
        ensures begins { Begins self.new.machine program.now arg }
        ensures text { self.new.machine.program ≡ program.now }
        ensures phase { self.new.machine.phase ≡ phase.Ready }
        ensures given { self.new.given ≡ given }
        ensures calls { self.new.calls.items ≡ [] }
        ensures below { self.new.below ≡ 0 }
    {
        self.machine.restart(program, arg);
        self.given = given;
        self.calls.clear();
        self.below = 0;
    }

    /// Takes the finished run out of the frame of a run that has ended: the name and the argument that it was for, its value,
    /// its steps without those of its callees, and its calls.
    pub fn end(&mut self, alloc: Global, pair: Pair, value: Num, used: u64) -> NodeRun
        requires { self.old.below ≤ used }
        ensures pair { result.pair ≡ pair }
        ensures value { result.value ≡ value }
        ensures own { result.own + self.old.below ≡ used }
        ensures calls { result.calls ≡ self.old.calls.items }
    {
        let calls = replace(&mut self.calls, Vec::new(alloc));
        NodeRun {
            pair,
            value,
            own: used - self.below,
            calls: Pairs::of(calls),
        }
    }

    /// Goes on with the value of a call that used so many steps. The call is kept where runs are.
    pub fn go_on(&mut self, kept: bool, call: Pair, value: Num, used: u64) -> Result<(), AllocError>
        requires waits { self.old.machine.phase ≡ phase.Waiting }
        requires room { self.old.below + used < 2 ^ 64 }
        ensures answer { OnOk result (TakesAnswer self.old.machine value self.new.machine) }
        ensures ready { OnOk result (self.new.machine.phase ≡ phase.Ready) }
        ensures text { OnOk result (self.new.machine.program ≡ self.old.machine.program) }
        ensures given { OnOk result (self.new.given ≡ self.old.given) }
        ensures calls { OnOk result (IsTrue kept → self.new.calls.items ≡ self.old.calls.items ++ call ∷ []) }
        ensures below { OnOk result (self.new.below ≡ self.old.below + used) }
    {
        self.below += used;
        self.machine.answer(value);
        if kept {
            self.calls.push(call)?;
        }
        Ok(())
    }
}
