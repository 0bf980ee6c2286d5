//! How far a run has come, and what its next instruction does.

ghost use Rattle.std.specs.Prelude.{◌≡◌, ◌≤◌, ◌<◌, ◌+◌, ◌∷◌, ◌++◌, [], max, if◌then◌else◌, ◌==◌, IfOk, OnErr, IfNone, Some, ℕ, length, take, drop, vec_len, vec_capacity};
ghost use Rattle.loda_syntax.specs.WellFormed.{IsProgram, IsInstr, IsTarget, IsSource};

use crate::cells::Cells;
use crate::marks::Mark;
use crate::stop::Stop;
use checked_numbers::Num;
use loda_semantics::FaultKind;
use loda_syntax::{Instr, MEMORY_CELLS, MOST_INSTRS, Operand, Verb};
use std::alloc::{AllocError, Global};

/// How far a run has come.
#[derive(Drop)]
pub struct Progress {
    /// The place of the next instruction.
    pub at: usize,
    /// The cells and the undo log.
    pub cells: Cells,
    /// The open loops, the innermost last.
    pub marks: Vec<Mark>,
    /// The cell for the answer to the last call.
    pub target: u16,
}

impl Progress {
    ghost use Rattle.lex_loops.specs.Memories.{before, IsWithin};
    ghost use Rattle.lex_loops.specs.State.{IsCharged, StopsAs, cost_of};
    ghost use Rattle.lex_loops.specs.Steps.{memory_in, run_in, answered_in, marked_anew, Serves, HasLogged, IsAtStart, IsUnderWay, HasRoom, HasTaken, IsAtEnd, IsOwn, Steps, KeepsOn, Acts};

    /// The start of a run, with the argument in cell 0.
    pub fn start(alloc: Global, arg: Num) -> Result<Progress, AllocError>
        ensures { IfOk result (IsAtStart arg) }
    {
        let mut values = Vec::new(alloc);
        values.push(arg)?;
        Ok(Progress {
            at: 0,
            cells: Cells {
                values,
                log: Vec::new(alloc),
            },
            marks: Vec::new(alloc),
            target: 0,
        })
    }

    /// The same in the memory that is there.
    pub fn restart(&mut self, arg: Num)
        requires { 0 < length self.old.cells.values.items }
        ensures { IsAtStart arg self.new }
    {
        self.at = 0;
        self.cells.values.truncate(1);
        self.cells.values[0] = arg;
        self.cells.log.clear();
        self.marks.clear();
        self.target = 0;
    }

    /// Takes the answer to a call.
    pub fn answer(&mut self, value: Num)
        requires { HasRoom self.old }
        ensures takes { HasTaken self.old value self.new }
        ensures len { length self.new.cells.values.items ≡ length self.old.cells.values.items }
    {
        let logged = !self.marks.is_empty();
        self.cells.take_answer(self.target, value, logged);
    }

    // An arithmetic instruction.
    fn arithmetic(
        &mut self,
        verb: Verb,
        target: Operand,
        source: Operand,
        budget: &mut u64,
    ) -> Result<Option<Stop>, AllocError>
        requires place { self.old.at < MOST_INSTRS }
        requires target { IsTarget target }
        requires source { IsSource source }
        ensures acts { IfOk result (λ stop. Acts (Instr.Arith verb target source) self.old budget.old stop budget.new self.new) }
        ensures own { IfOk result IsOwn }
        ensures less { IfOk result (λ stop. IfNone stop (budget.new < budget.old)) }
        ensures charged { OnErr result (budget.new + 1 ≡ budget.old) }
        ensures past { OnErr result (self.new.at ≡ self.old.at + 1) }
        ensures budget { budget.new ≤ budget.old }
        ensures len { length self.old.cells.values.items ≤ length self.new.cells.values.items }
    {
        self.at += 1;
        if *budget == 0 {
            return Ok(Some(Stop::Spent));
        }
        *budget -= 1;
        let logged = !self.marks.is_empty();
        match self.cells.arithmetic(verb, target, source, logged)? {
            Some(kind) => Ok(Some(Stop::Fault(kind))),
            None => Ok(None),
        }
    }

    // A clearing of cells.
    fn clear(
        &mut self,
        start: u16,
        count: u16,
        budget: &mut u64,
    ) -> Result<Option<Stop>, AllocError>
        requires place { self.old.at < MOST_INSTRS }
        requires region { start + count ≤ MEMORY_CELLS }
        ensures acts { IfOk result (λ stop. Acts (Instr.Clear start count) self.old budget.old stop budget.new self.new) }
        ensures own { IfOk result IsOwn }
        ensures less { IfOk result (λ stop. IfNone stop (budget.new < budget.old)) }
        ensures charged { OnErr result (budget.new + max 1 count ≡ budget.old) }
        ensures past { OnErr result (self.new.at ≡ self.old.at + 1) }
        ensures budget { budget.new ≤ budget.old }
        ensures len { length self.old.cells.values.items ≤ length self.new.cells.values.items }
    {
        self.at += 1;
        let cost = u64::from(count).max(1);
        if *budget < cost {
            return Ok(Some(Stop::Spent));
        }
        *budget -= cost;
        let logged = !self.marks.is_empty();
        self.cells.clear(start, count, logged)?;
        Ok(None)
    }

    // A call of the program of a name.
    fn call(
        &mut self,
        target: Operand,
        name: u32,
        budget: &mut u64,
    ) -> Result<Option<Stop>, AllocError>
        requires place { self.old.at < MOST_INSTRS }
        requires target { IsTarget target }
        ensures acts { IfOk result (λ stop. Acts (Instr.Call target name) self.old budget.old stop budget.new self.new) }
        ensures own { IfOk result IsOwn }
        ensures less { IfOk result (λ stop. IfNone stop (budget.new < budget.old)) }
        ensures charged { OnErr result (budget.new + 1 ≡ budget.old) }
        ensures past { OnErr result (self.new.at ≡ self.old.at + 1) }
        ensures budget { budget.new ≤ budget.old }
        ensures len { length self.old.cells.values.items ≤ length self.new.cells.values.items }
    {
        self.at += 1;
        if *budget == 0 {
            return Ok(Some(Stop::Spent));
        }
        *budget -= 1;
        let address = match self.cells.address(target) {
            Some(address) => address,
            None => return Ok(Some(Stop::Fault(FaultKind::BadCell))),
        };
        let logged = !self.marks.is_empty();
        self.cells.take_room(address, logged)?;
        self.target = address;
        let arg = self.cells.read(address);
        Ok(Some(Stop::Call { name, arg }))
    }

    // The start of a loop: its first iteration begins.
    fn open(&mut self, start: u16, len: u8, budget: &mut u64) -> Result<Option<Stop>, AllocError>
        requires place { self.old.at < MOST_INSTRS }
        requires some { 1 ≤ len }
        requires region { start + len ≤ MEMORY_CELLS }
        ensures acts { IfOk result (λ stop. Acts (Instr.LoopStart start len) self.old budget.old stop budget.new self.new) }
        ensures own { IfOk result IsOwn }
        ensures less { IfOk result (λ stop. IfNone stop (budget.new < budget.old)) }
        ensures charged { OnErr result (budget.new + 1 ≡ budget.old) }
        ensures past { OnErr result (self.new.at ≡ self.old.at + 1) }
        ensures budget { budget.new ≤ budget.old }
        ensures len { length self.old.cells.values.items ≤ length self.new.cells.values.items }
    {
        self.at += 1;
        if *budget == 0 {
            return Ok(Some(Stop::Spent));
        }
        *budget -= 1;
        self.marks.push(Mark {
            body: self.at,
            start,
            len,
            logged: self.cells.log.len(),
        })?;
        Ok(None)
    }

    // The end of a loop: it goes on, or the iteration is undone.
    fn close(&mut self, budget: &mut u64) -> Option<Stop>
        requires end { IsAtEnd self.old }
        requires place { self.old.at < MOST_INSTRS }
        ensures acts { Acts Instr.LoopEnd self.old budget.old result budget.new self.new }
        ensures own { IsOwn result }
        ensures less { IfNone result (budget.new < budget.old) }
        ensures budget { budget.new ≤ budget.old }
        ensures len { length self.old.cells.values.items ≤ length self.new.cells.values.items }
    {
        let mark = match self.marks.pop() {
            Some(mark) => mark,
            None => unreachable!(),
        };
        let cost = u64::from(mark.len);
        if *budget < cost {
            return Some(Stop::Spent);
        }
        *budget -= cost;
        if self.cells.is_less(mark.start, mark.len, mark.logged) {
            self.again(mark);
            return None;
        }
        self.leave(mark);
        None
    }

    // Marks a loop anew and goes back to its body. Outside of every other loop nothing before this iteration is undone; inside
    // of one the log is kept short.
    fn again(&mut self, mark: Mark)
        requires room { vec_len self.old.marks < vec_capacity self.old.marks }
        requires logged { HasLogged self.old.marks.items self.old.cells.log.items }
        requires within { IsWithin (length self.old.cells.values.items) self.old.cells.log.items }
        ensures at { self.new.at ≡ mark.body }
        ensures values { self.new.cells.values.items ≡ self.old.cells.values.items }
        ensures log { Serves self.old.marks.items self.old.cells.log.items self.new.cells.log.items }
        ensures within { IsWithin (length self.new.cells.values.items) self.new.cells.log.items }
        ensures marks { self.new.marks.items ≡ self.old.marks.items ++ marked_anew mark (length self.new.cells.log.items) ∷ [] }
    {
        match self.marks.last() {
            Some(outer) => self.cells.shorten(outer.logged),
            None => self.cells.log.clear(),
        }
        self.marks.push_reserved(Mark {
            body: mark.body,
            start: mark.start,
            len: mark.len,
            logged: self.cells.log.len(),
        });
        self.at = mark.body;
    }

    // Undoes an iteration and goes past its loop.
    fn leave(&mut self, mark: Mark)
        requires place { self.old.at < MOST_INSTRS }
        requires logged { mark.logged ≤ length self.old.cells.log.items }
        requires within { IsWithin (length self.old.cells.values.items) self.old.cells.log.items }
        ensures at { self.new.at ≡ self.old.at + 1 }
        ensures memory { memory_in self.new ≡ before (drop mark.logged self.old.cells.log.items) (memory_in self.old) }
        ensures log { self.new.cells.log.items ≡ take mark.logged self.old.cells.log.items }
        ensures marks { self.new.marks.items ≡ self.old.marks.items }
        ensures len { length self.new.cells.values.items ≡ length self.old.cells.values.items }
    {
        self.cells.undo_to(mark.logged);
        self.at += 1;
    }

    // The next instruction.
    fn step(&mut self, list: &[Instr], budget: &mut u64) -> Result<Option<Stop>, AllocError>
        requires place { self.old.at < length list.now }
        requires program { IsProgram list.now }
        requires under_way { IsUnderWay list.now self.old }
        ensures steps { IfOk result (λ stop. Steps list.now self.old budget.old stop budget.new self.new) }
        ensures own { IfOk result IsOwn }
        ensures less { IfOk result (λ stop. IfNone stop (budget.new < budget.old)) }
        ensures charged { OnErr result (IsCharged list.now (λ callee. run_in callee list.now self.old budget.old) budget.new self.new.at) }
        ensures budget { budget.new ≤ budget.old }
        ensures len { length self.old.cells.values.items ≤ length self.new.cells.values.items }
    {
        match list[self.at] {
            Instr::Arith {
                verb,
                target,
                source,
            } => self.arithmetic(verb, target, source, budget),
            Instr::Clear { start, count } => self.clear(start, count, budget),
            Instr::LoopStart { start, len } => self.open(start, len, budget),
            Instr::LoopEnd => Ok(self.close(budget)),
            Instr::Call { target, name } => self.call(target, name, budget),
        }
    }

    /// Runs on through a list of instructions, up to its end, its next call, a fault, or a cost greater than the budget.
    #[inline(never)]
    pub fn run(&mut self, list: &[Instr], budget: &mut u64) -> Result<Stop, AllocError>
        requires program { IsProgram list.now }
        requires under_way { IsUnderWay list.now self.old }
        ensures stops { IfOk result (λ stop. StopsAs (λ callee. run_in callee list.now self.old budget.old) stop budget.new (λ callee. answered_in callee list.now self.new)) }
        ensures keeps_on { IfOk result (λ stop. KeepsOn list.now (Some stop) self.new) }
        ensures own { IfOk result (λ stop. IsOwn (Some stop)) }
        ensures charged { OnErr result (IsCharged list.now (λ callee. run_in callee list.now self.old budget.old) budget.new self.new.at) }
        ensures budget { budget.new ≤ budget.old }
        ensures len { length self.old.cells.values.items ≤ length self.new.cells.values.items }
    {
        while self.at < list.len() {
            if let Some(stop) = self.step(list, budget)? {
                return Ok(stop);
            }
        }
        Ok(Stop::Done(self.cells.read(0)))
    }
}
