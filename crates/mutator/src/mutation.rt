//! Programs made by changes of a program.

ghost use Rattle.std.specs.Prelude.{◌≡◌, ◌+◌, ◌≤◌, length, vec_len, vec_capacity, IfOk, OnOk, OnErr};
ghost use Rattle.loda_syntax.specs.Programs.{instrs};
ghost use Rattle.loda_syntax.specs.WellFormed.{IsProgram};
ghost use Rattle.word_stream.specs.Words.{IsDrawnWithin};
ghost use Rattle.generator.specs.Names.{AreNames};
ghost use Rattle.mutator.specs.Mutating.{mutated};

use crate::list::change;
use loda_syntax::{Instr, MOST_INSTRS, Program};
use rand_core::Rng;
use std::alloc::{AllocError, Global};
use word_stream::Draws;

// A copy with room for three more, since each of the at most three changes adds one instruction at most.
fn copy_with_room(alloc: Global, list: &[Instr]) -> Result<Vec<Instr>, AllocError>
    requires { length list.now ≤ MOST_INSTRS }
    ensures items { IfOk result (λ copy. copy.items ≡ list.now) }
    ensures len { IfOk result (λ copy. vec_len copy ≡ length list.now) }
    ensures room { IfOk result (λ copy. vec_len copy + 3 ≤ vec_capacity copy) }
{
    let mut copy = Vec::with_capacity(alloc, list.len() + 3)?;
    copy.extend_from_slice(list)?;
    Ok(copy)
}

/// Makes a program by one to three changes of `program`, drawn from the next words, at most 19. A call's new name
/// is one of these names, at most 999,999 and each from 1 to 999,999.
///
/// Where memory is wanting no word was taken.
pub fn mutate<R: Rng>(
    alloc: Global,
    program: &Program,
    draws: &mut Draws<R>,
    names: &[u32],
) -> Result<Program, AllocError>
    requires { AreNames names.now }
    ensures program { IfOk result (λ made. instrs made ≡ (mutated names.now (instrs program.now) (R.stream draws.old)).0) }
    ensures well_formed { IfOk result (λ made. IsProgram (instrs made)) }
    ensures words { OnOk result (R.stream draws.new ≡ (mutated names.now (instrs program.now) (R.stream draws.old)).1) }
    ensures few_words { IsDrawnWithin 19 (R.stream draws.old) (R.stream draws.new) }
    ensures err { OnErr result (R.stream draws.new ≡ R.stream draws.old) }
{
    let mut list = copy_with_room(alloc, program.instrs())?;
    let count = 1 + draws.below(3);
    for _ in 0..count {
        change(&mut list, draws, names);
    }
    let Ok(made) = Program::new(list) else {
        unreachable!()
    };
    Ok(made)
}
