//! How much of the words decides which program is made, as the clause of a function that only looks at its argument.

ghost use Rattle.std.specs.Prelude.{◌≡◌};
ghost use Rattle.rand_core.specs.Stream.{Stream};
ghost use Rattle.word_stream.specs.Words.{SameWords};
ghost use Rattle.generator.specs.Generating.{generated};

/// The first 33 words decide which program is made: of two sources that give the same first 33 words it is the same.
pub fn first_words_make_the_program(names: &[u32])
    ensures { (one other : Stream) → SameWords 33 one other → (generated names.now one).0 ≡ (generated names.now other).0 }
{
    let _count = names.len();
}
