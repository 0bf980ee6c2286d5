//! Arithmetic instructions that are drawn.

ghost use Rattle.std.specs.Prelude.{◌≡◌, ◌<◌};
ghost use Rattle.generator.specs.Arithmetic.{verb_at, drawn_source, drawn_arithmetic};

use loda_syntax::{Instr, Operand, Verb};
use rand_core::Rng;
use word_stream::Draws;

const VERBS: [Verb; 12] = [
    Verb::Mov,
    Verb::Add,
    Verb::Sub,
    Verb::Mul,
    Verb::Trn,
    Verb::Div,
    Verb::Mod,
    Verb::Pow,
    Verb::Gcd,
    Verb::Bin,
    Verb::Equ,
    Verb::Max,
];

/// The verb with this number, among the twelve that are drawn.
pub fn drawn_verb(k: u32) -> Verb
    requires { k < 12 }
    ensures { result ≡ verb_at k }
{
    VERBS[k as usize]
}

fn draw_source<R: Rng>(draws: &mut Draws<R>) -> Operand
    ensures value { result ≡ (drawn_source (R.stream draws.old)).0 }
    ensures rest { R.stream draws.new ≡ (drawn_source (R.stream draws.old)).1 }
{
    let cell = draws.below(8);
    if cell < 4 {
        Operand::Direct(cell as u16)
    } else {
        Operand::Constant(i128::from(draws.below(12)) - 2)
    }
}

/// Draws an arithmetic instruction with this verb: its target is one of the first four cells, its source one of
/// them or a constant from -2 to 9. It takes two or three words.
pub fn draw_arithmetic<R: Rng>(draws: &mut Draws<R>, verb: Verb) -> Instr
    ensures value { result ≡ (drawn_arithmetic verb (R.stream draws.old)).0 }
    ensures rest { R.stream draws.new ≡ (drawn_arithmetic verb (R.stream draws.old)).1 }
{
    let target = Operand::Direct(draws.below(4) as u16);
    let source = draw_source(draws);
    Instr::Arith {
        verb,
        target,
        source,
    }
}
