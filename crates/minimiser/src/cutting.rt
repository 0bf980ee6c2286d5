//! Cuts of a program.

ghost use Rattle.std.specs.Prelude.{◌≡◌, ◌≤◌, length, IfOk, MatchOption, Some, None};
ghost use Rattle.minimiser.specs.Cuts.{behind_loop, rest_behind, cut_at};

use loda_syntax::{Instr, Program};
use std::alloc::{AllocError, Global};

// What follows the end of a loop, of what follows its beginning.
fn behind_loop(list: &[Instr]) -> &[Instr]
    ensures { result.now ≡ behind_loop 0 list.now }
{
    let mut depth: usize = 0;
    for (place, instr) in list.iter().enumerate() {
        match instr {
            Instr::LoopStart { .. } => depth += 1,
            Instr::LoopEnd => {
                if depth == 0 {
                    return &list[place + 1..];
                }
                depth -= 1;
            }
            _ => {}
        }
    }
    &[]
}

// What follows the instruction, or the loop whole, that the list begins with.
fn behind(list: &[Instr]) -> Option<&[Instr]>
    ensures { MatchOption result (rest_behind list.now ≡ None) (λ rest. rest_behind list.now ≡ Some rest.now) }
{
    match list {
        [] => None,
        [Instr::LoopEnd, ..] => None,
        [Instr::LoopStart { .. }, rest @ ..] => Some(behind_loop(rest)),
        [_, rest @ ..] => Some(rest),
    }
}

/// The program without the instruction, or the loop whole, that begins at a place. `None` where a loop ends there.
pub fn cut_at(alloc: Global, program: &Program, place: usize) -> Result<Option<Program>, AllocError>
    requires { place ≤ length program.now }
    ensures { IfOk result (λ cut. cut ≡ cut_at program.now place) }
{
    let list = program.instrs();
    let Some(rest) = behind(&list[place..]) else {
        return Ok(None);
    };
    let mut left = Vec::with_capacity(alloc, list.len())?;
    left.extend_from_slice(&list[..place])?;
    left.extend_from_slice(rest)?;
    let Ok(cut) = Program::new(left) else {
        unreachable!()
    };
    Ok(Some(cut))
}
