//! Changes of one instruction.

ghost use Rattle.std.specs.Prelude.{◌≡◌};
ghost use Rattle.generator.specs.Names.{AreNames};
ghost use Rattle.mutator.specs.Mutating as spec;

use generator::{draw_arithmetic, drawn_verb};
use loda_syntax::{Instr, Operand};
use rand_core::Rng;
use word_stream::Draws;

// Begins or ends a loop.
pub fn is_bracket(instr: &Instr) -> bool
    ensures { result ≡ spec.is_bracket instr.now }
{
    matches!(instr, Instr::LoopStart { .. } | Instr::LoopEnd)
}

// An arithmetic instruction whose verb is drawn too.
pub fn draw_instr<R: Rng>(draws: &mut Draws<R>) -> Instr
    ensures value { result ≡ (spec.drawn_instr (R.stream draws.old)).0 }
    ensures rest { R.stream draws.new ≡ (spec.drawn_instr (R.stream draws.old)).1 }
{
    let verb = drawn_verb(draws.below(12));
    draw_arithmetic(draws, verb)
}

// One higher for e = 1, else one lower, and the same where that is out of the number range.
fn moved(e: u32, value: i128) -> i128
    ensures { result ≡ spec.moved e value }
{
    let next = if e == 1 {
        value.checked_add(1)
    } else {
        value.checked_sub(1)
    };
    match next {
        Some(next) if next != i128::MIN => next,
        _ => value,
    }
}

fn redraw<R: Rng>(instr: Instr, draws: &mut Draws<R>) -> Instr
    ensures value { result ≡ (spec.redrawn instr (R.stream draws.old)).0 }
    ensures rest { R.stream draws.new ≡ (spec.redrawn instr (R.stream draws.old)).1 }
{
    match instr {
        Instr::Arith { .. } => draw_instr(draws),
        other => other,
    }
}

fn nudge<R: Rng>(instr: Instr, draws: &mut Draws<R>) -> Instr
    ensures value { result ≡ (spec.nudged instr (R.stream draws.old)).0 }
    ensures rest { R.stream draws.new ≡ (spec.nudged instr (R.stream draws.old)).1 }
{
    match instr {
        Instr::Arith {
            verb,
            target,
            source: Operand::Constant(value),
        } => Instr::Arith {
            verb,
            target,
            source: Operand::Constant(moved(draws.below(2), value)),
        },
        other => other,
    }
}

fn retarget<R: Rng>(instr: Instr, draws: &mut Draws<R>) -> Instr
    ensures value { result ≡ (spec.retargeted instr (R.stream draws.old)).0 }
    ensures rest { R.stream draws.new ≡ (spec.retargeted instr (R.stream draws.old)).1 }
{
    match instr {
        Instr::Arith {
            verb,
            target: _,
            source,
        } => Instr::Arith {
            verb,
            target: Operand::Direct(draws.below(4) as u16),
            source,
        },
        other => other,
    }
}

fn rename<R: Rng>(instr: Instr, draws: &mut Draws<R>, names: &[u32]) -> Instr
    requires { AreNames names.now }
    ensures value { result ≡ (spec.renamed names.now instr (R.stream draws.old)).0 }
    ensures rest { R.stream draws.new ≡ (spec.renamed names.now instr (R.stream draws.old)).1 }
{
    match instr {
        Instr::Call { target, name: _ } if !names.is_empty() => Instr::Call {
            target,
            name: names[draws.below(names.len() as u32) as usize],
        },
        other => other,
    }
}

// What change m makes of the instruction, for an m that is neither 1 nor 2.
pub fn change_instr<R: Rng>(m: u32, instr: Instr, draws: &mut Draws<R>, names: &[u32]) -> Instr
    requires { AreNames names.now }
    ensures value { result ≡ (spec.changed_instr m names.now instr (R.stream draws.old)).0 }
    ensures rest { R.stream draws.new ≡ (spec.changed_instr m names.now instr (R.stream draws.old)).1 }
{
    match m {
        0 => redraw(instr, draws),
        3 => nudge(instr, draws),
        4 => retarget(instr, draws),
        _ => rename(instr, draws, names),
    }
}
