//! The operations that the instructions name.

ghost use Rattle.std.specs.Prelude.{◌≡◌};
ghost use Rattle.loda_semantics.specs.Exec.{op_of as op_of_verb};

use checked_numbers::Op;
use loda_syntax::Verb;

/// The operation that a verb of the language stands for.
pub fn op_of(verb: Verb) -> Op
    ensures { result ≡ op_of_verb verb }
{
    match verb {
        Verb::Mov => Op::Mov,
        Verb::Add => Op::Add,
        Verb::Sub => Op::Sub,
        Verb::Trn => Op::Trn,
        Verb::Mul => Op::Mul,
        Verb::Div => Op::Div,
        Verb::Dif => Op::Dif,
        Verb::Mod => Op::Mod,
        Verb::Pow => Op::Pow,
        Verb::Gcd => Op::Gcd,
        Verb::Bin => Op::Bin,
        Verb::Equ => Op::Equ,
        Verb::Neq => Op::Neq,
        Verb::Leq => Op::Leq,
        Verb::Geq => Op::Geq,
        Verb::Min => Op::Min,
        Verb::Max => Op::Max,
    }
}
