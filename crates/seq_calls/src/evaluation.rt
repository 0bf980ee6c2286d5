//! Runs of programs with their calls.

ghost use Rattle.std.specs.Prelude.{◌≡◌, ◌+◌, ◌-◌, ◌≤◌, ◌<◌, ◌++◌, ◌&&◌, Some, None, false, IfOk, IfSome, OnOk};
ghost use Rattle.std.specs.Option.{option_copied, is_some};
ghost use Rattle.loda_semantics.specs.Exec.{run_name, run_text};
ghost use Rattle.seq_calls.specs.Frames.{told, steps_of, nodes_of, own_nodes};
ghost use Rattle.seq_calls.specs.Known.{IsFoundIn};
ghost use Rattle.seq_calls.specs.Under.{keeps, IsRun};

use crate::counting::Steps;
use crate::finished::{Finished, Frames};
use crate::outcomes::Outcome;
use crate::unfinished::{Caller, begin};
use checked_numbers::Num;
use lex_loops::Stop;
use loda_semantics::{FaultKind, Pair};
use loda_syntax::Program;
use program_store::Library;
use std::alloc::{AllocError, Global};
use std::sync::ledger::Ledger;

/// What a run came to, and the finished runs of names, in the order in which they finished.
#[derive(Debug, Drop)]
pub struct Run {
    pub outcome: Outcome,
    pub nodes: Frames,
}

fn failed(kind: FaultKind, steps: u64) -> Outcome
    ensures { result ≡ Outcome.Fault kind steps }
{
    Outcome::Fault { kind, steps }
}

// A name with its program.
#[derive(Clone, Copy)]
struct Known<'a> {
    name: u32,
    program: &'a Program,
}

// The program of a name. It is looked up where it is not the one that was found last.
#[inline(always)]
fn found<'a, B: Library>(lib: &'a B, last: &mut Option<Known<'a>>, name: u32) -> Option<&'a Program>
    requires { IfSome last.old (IsFoundIn (B.programs lib.now)) }
    ensures program { option_copied result ≡ B.programs lib.now name }
    ensures last { IfSome last.new (IsFoundIn (B.programs lib.now)) }
{
    if let Some(known) = last {
        if known.name == name {
            return Some(known.program);
        }
    }
    let program = lib.program(name)?;
    *last = Some(Known { name, program });
    Some(program)
}

// Whether the finished runs of callees are kept.
fn are_kept(name: Option<u32>, all: bool) -> bool
    ensures { result ≡ (is_some name && all) }
{
    name.is_some() && all
}

// Whether the calls of a run with these callers are kept.
#[inline(always)]
fn keeps_calls(callers: &[Caller<'_>], outermost: bool, each: bool) -> bool
    ensures { result ≡ keeps outermost each callers.now }
{
    if callers.is_empty() { outermost } else { each }
}

// A run of a program, with a frame for each run that has not ended. The frame of a run that ended serves the next call, of this
// run or a later one. Finished runs are kept where the program has a name, all of them or its own alone, and else nobody asks for
// them.
fn run_frames<'a, B: Library>(
    finished: &mut Finished,
    lib: &'a B,
    program: &'a Program,
    name: Option<u32>,
    all: bool,
    arg: Num,
    budget: &mut u64,
) -> Result<Outcome, AllocError>
    ensures run { IfOk result (λ outcome. IsRun (run_text (B.programs lib.now) program.now arg budget.old) name all arg budget.old outcome finished.new.nodes.items budget.new) }
    ensures budget { budget.new ≤ budget.old }
{
    let limit = *budget;
    let alloc = finished.alloc;
    let named = name.is_some();
    let kept = are_kept(name, all);
    finished.nodes.clear();
    let mut callers: Vec<Caller<'a>> = Vec::new(alloc);
    let mut frame = begin(alloc, &mut finished.free, program, arg, limit)?;
    let mut text = program;
    let mut last = None;
    loop {
        match frame.machine.advance(text, budget)? {
            Stop::Call { name, arg } => {
                let Some(program) = found(lib, &mut last, name) else {
                    return Ok(failed(FaultKind::Missing, limit - *budget));
                };
                let callee = begin(alloc, &mut finished.free, program, arg, *budget)?;
                let call = Pair { name, arg };
                callers.push(Caller {
                    program: text,
                    frame,
                    call,
                })?;
                frame = callee;
                text = program;
            }
            Stop::Done(value) => {
                let used = frame.given - *budget;
                let Some(caller) = callers.pop() else {
                    finished.take_outermost(name, arg, frame, value, used)?;
                    return Ok(Outcome::Value { value, steps: used });
                };
                finished.take(kept, frame, caller.call, value, used)?;
                text = caller.program;
                frame = caller.frame;
                let keeps = keeps_calls(&callers, named, kept);
                frame.go_on(keeps, caller.call, value, used)?;
            }
            Stop::Fault(kind) => return Ok(failed(kind, limit - *budget)),
            Stop::Spent => return Ok(Outcome::OutOfSteps),
        }
    }
}

// A run of a program that has no name.
fn run_unnamed<B: Library>(
    finished: &mut Finished,
    lib: &B,
    program: &Program,
    arg: Num,
    budget: &mut u64,
) -> Result<Outcome, AllocError>
    ensures run { IfOk result (λ outcome. IsRun (run_text (B.programs lib.now) program.now arg budget.old) None false arg budget.old outcome finished.new.nodes.items budget.new) }
    ensures budget { budget.new ≤ budget.old }
{
    run_frames(finished, lib, program, None, false, arg, budget)
}

// A run of a name, whether or not it has a program. All finished runs are kept, or its own alone.
fn run_name<B: Library>(
    finished: &mut Finished,
    lib: &B,
    name: u32,
    all: bool,
    arg: Num,
    budget: &mut u64,
) -> Result<Outcome, AllocError>
    ensures run { IfOk result (λ outcome. IsRun (run_name (B.programs lib.now) name arg budget.old) (Some name) all arg budget.old outcome finished.new.nodes.items budget.new) }
    ensures budget { budget.new ≤ budget.old }
{
    match lib.program(name) {
        Some(program) => run_frames(finished, lib, program, Some(name), all, arg, budget),
        None => {
            finished.nodes.clear();
            Ok(failed(FaultKind::Missing, 0))
        }
    }
}

/// Runs programs one after the other: each run has the memory of those before it.
#[derive(Drop)]
pub struct Evaluator {
    finished: Finished,
}

impl Evaluator {
    /// An evaluator that has run nothing.
    pub fn new(alloc: Global) -> Evaluator {
        Evaluator {
            finished: Finished::none(alloc),
        }
    }

    /// Runs the program of a name at an argument, with at most `limit` steps, calls included.
    ///
    /// The outcome, the exact steps, and the finished runs are those of the language, also where programs call each other in
    /// a circle. A name without a program is the fault `Missing` in 0 steps. The count rises by the steps that were used;
    /// after want of memory it has risen by at most the limit.
    pub fn evaluate<B: Library, L: Ledger>(
        &mut self,
        lib: &B,
        name: u32,
        arg: Num,
        limit: u64,
        steps: &mut Steps<L>,
    ) -> Result<Run, AllocError>
        ensures outcome { IfOk result (λ run. run.outcome ≡ told (run_name (B.programs lib.now) name arg limit).0) }
        ensures nodes { IfOk result (λ run. run.nodes ≡ nodes_of name arg (run_name (B.programs lib.now) name arg limit)) }
        ensures counted { OnOk result (steps.new ≡ steps.old + steps_of (run_name (B.programs lib.now) name arg limit).0) }
        ensures rises { steps.old ≤ steps.new }
        ensures bounded { steps.new ≤ steps.old + limit }
    {
        let mut left = limit;
        let outcome = run_name(&mut self.finished, lib, name, true, arg, &mut left);
        steps.tick(limit - left);
        let outcome = outcome?;
        let nodes = self.finished.hand_over();
        Ok(Run { outcome, nodes })
    }

    /// `evaluate` where nobody counts the steps.
    pub fn evaluate_alone<B: Library>(
        &mut self,
        lib: &B,
        name: u32,
        arg: Num,
        limit: u64,
    ) -> Result<Run, AllocError>
        ensures outcome { IfOk result (λ run. run.outcome ≡ told (run_name (B.programs lib.now) name arg limit).0) }
        ensures nodes { IfOk result (λ run. run.nodes ≡ nodes_of name arg (run_name (B.programs lib.now) name arg limit)) }
    {
        let mut left = limit;
        let outcome = run_name(&mut self.finished, lib, name, true, arg, &mut left)?;
        let nodes = self.finished.hand_over();
        Ok(Run { outcome, nodes })
    }

    /// The outcome of `evaluate_alone`, with the run's own finished run alone.
    pub fn evaluate_own<B: Library>(
        &mut self,
        lib: &B,
        name: u32,
        arg: Num,
        limit: u64,
    ) -> Result<Run, AllocError>
        ensures outcome { IfOk result (λ run. run.outcome ≡ told (run_name (B.programs lib.now) name arg limit).0) }
        ensures nodes { IfOk result (λ run. run.nodes ≡ own_nodes name arg (run_name (B.programs lib.now) name arg limit)) }
    {
        let mut left = limit;
        let outcome = run_name(&mut self.finished, lib, name, false, arg, &mut left)?;
        let nodes = self.finished.hand_over();
        Ok(Run { outcome, nodes })
    }

    /// The outcome of `evaluate_alone`, without its finished runs.
    pub fn outcome_alone<B: Library>(
        &mut self,
        lib: &B,
        name: u32,
        arg: Num,
        limit: u64,
    ) -> Result<Outcome, AllocError>
        ensures { IfOk result (λ outcome. outcome ≡ told (run_name (B.programs lib.now) name arg limit).0) }
    {
        let mut left = limit;
        match lib.program(name) {
            Some(program) => run_unnamed(&mut self.finished, lib, program, arg, &mut left),
            None => Ok(failed(FaultKind::Missing, 0)),
        }
    }

    /// Runs a program that has no name at an argument, with at most `limit` steps, those of its calls included.
    ///
    /// The outcome and the exact steps are those of the language, its calls being those of the library's programs. The count
    /// rises as that of `evaluate` does.
    pub fn evaluate_text<B: Library, L: Ledger>(
        &mut self,
        lib: &B,
        program: &Program,
        arg: Num,
        limit: u64,
        steps: &mut Steps<L>,
    ) -> Result<Outcome, AllocError>
        ensures outcome { IfOk result (λ outcome. outcome ≡ told (run_text (B.programs lib.now) program.now arg limit).0) }
        ensures counted { OnOk result (steps.new ≡ steps.old + steps_of (run_text (B.programs lib.now) program.now arg limit).0) }
        ensures rises { steps.old ≤ steps.new }
        ensures bounded { steps.new ≤ steps.old + limit }
    {
        let mut left = limit;
        let outcome = run_unnamed(&mut self.finished, lib, program, arg, &mut left);
        steps.tick(limit - left);
        outcome
    }
}

/// `Evaluator::evaluate` where nothing has been run.
pub fn evaluate<B: Library, L: Ledger>(
    alloc: Global,
    lib: &B,
    name: u32,
    arg: Num,
    limit: u64,
    steps: &mut Steps<L>,
) -> Result<Run, AllocError>
    ensures outcome { IfOk result (λ run. run.outcome ≡ told (run_name (B.programs lib.now) name arg limit).0) }
    ensures nodes { IfOk result (λ run. run.nodes ≡ nodes_of name arg (run_name (B.programs lib.now) name arg limit)) }
    ensures counted { OnOk result (steps.new ≡ steps.old + steps_of (run_name (B.programs lib.now) name arg limit).0) }
    ensures rises { steps.old ≤ steps.new }
    ensures bounded { steps.new ≤ steps.old + limit }
{
    let mut evaluator = Evaluator::new(alloc);
    evaluator.evaluate(lib, name, arg, limit, steps)
}

/// `Evaluator::evaluate_alone` where nothing has been run.
pub fn evaluate_alone<B: Library>(
    alloc: Global,
    lib: &B,
    name: u32,
    arg: Num,
    limit: u64,
) -> Result<Run, AllocError>
    ensures outcome { IfOk result (λ run. run.outcome ≡ told (run_name (B.programs lib.now) name arg limit).0) }
    ensures nodes { IfOk result (λ run. run.nodes ≡ nodes_of name arg (run_name (B.programs lib.now) name arg limit)) }
{
    let mut evaluator = Evaluator::new(alloc);
    evaluator.evaluate_alone(lib, name, arg, limit)
}

/// `Evaluator::outcome_alone` where nothing has been run.
pub fn outcome_alone<B: Library>(
    alloc: Global,
    lib: &B,
    name: u32,
    arg: Num,
    limit: u64,
) -> Result<Outcome, AllocError>
    ensures { IfOk result (λ outcome. outcome ≡ told (run_name (B.programs lib.now) name arg limit).0) }
{
    let mut evaluator = Evaluator::new(alloc);
    evaluator.outcome_alone(lib, name, arg, limit)
}

/// `Evaluator::evaluate_text` where nothing has been run.
pub fn evaluate_text<B: Library, L: Ledger>(
    alloc: Global,
    lib: &B,
    program: &Program,
    arg: Num,
    limit: u64,
    steps: &mut Steps<L>,
) -> Result<Outcome, AllocError>
    ensures outcome { IfOk result (λ outcome. outcome ≡ told (run_text (B.programs lib.now) program.now arg limit).0) }
    ensures counted { OnOk result (steps.new ≡ steps.old + steps_of (run_text (B.programs lib.now) program.now arg limit).0) }
    ensures rises { steps.old ≤ steps.new }
    ensures bounded { steps.new ≤ steps.old + limit }
{
    let mut evaluator = Evaluator::new(alloc);
    evaluator.evaluate_text(lib, program, arg, limit, steps)
}
