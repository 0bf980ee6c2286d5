//! Programs of random words.

ghost use Rattle.std.specs.Prelude.{◌≡◌, IfOk, OnOk, OnErr};
ghost use Rattle.loda_syntax.specs.Programs.{instrs};
ghost use Rattle.loda_syntax.specs.WellFormed.{IsProgram};
ghost use Rattle.word_stream.specs.Words.{IsDrawnWithin};
ghost use Rattle.generator.specs.Names.{AreNames};
ghost use Rattle.generator.specs.Generating.{generated};

use crate::draft::Draft;
use loda_syntax::Program;
use rand_core::Rng;
use std::alloc::{AllocError, Global};
use word_stream::Draws;

/// Makes a program of the next words, at most 33. It calls none but these names, at most 999,999 and each from
/// 1 to 999,999.
///
/// Where memory is wanting no word was taken.
pub fn generate<R: Rng>(
    alloc: Global,
    draws: &mut Draws<R>,
    names: &[u32],
) -> Result<Program, AllocError>
    requires { AreNames names.now }
    ensures program { IfOk result (λ program. instrs program ≡ (generated names.now (R.stream draws.old)).0) }
    ensures well_formed { IfOk result (λ program. IsProgram (instrs program)) }
    ensures words { OnOk result (R.stream draws.new ≡ (generated names.now (R.stream draws.old)).1) }
    ensures few_words { IsDrawnWithin 33 (R.stream draws.old) (R.stream draws.new) }
    ensures err { OnErr result (R.stream draws.new ≡ R.stream draws.old) }
{
    // Each of the at most eight turns adds two instructions and leaves one more loop open at most.
    let mut draft = Draft {
        list: Vec::with_capacity(alloc, 24)?,
        depth: 0,
    };
    let count = 1 + draws.below(8);
    for _ in 0..count {
        draft.turn(draws, names);
    }
    let Ok(program) = Program::new(draft.finish()) else {
        unreachable!()
    };
    Ok(program)
}
