//! How much of the words decides which program is made, as the clause of a function that only looks at its arguments.

ghost use Rattle.std.specs.Prelude.{◌≡◌};
ghost use Rattle.rand_core.specs.Stream.{Stream};
ghost use Rattle.word_stream.specs.Words.{SameWords};
ghost use Rattle.loda_syntax.specs.Programs.{instrs};
ghost use Rattle.mutator.specs.Mutating.{mutated};

use loda_syntax::Program;

/// The first 19 words decide which program is made: of two sources that give the same first 19 words it is the same.
pub fn first_words_make_the_changes(program: &Program, names: &[u32])
    ensures { (one other : Stream) → SameWords 19 one other
        → (mutated names.now (instrs program.now) one).0 ≡ (mutated names.now (instrs program.now) other).0 }
{
    let _list = program.instrs();
    let _count = names.len();
}
