//! Changes of a list of instructions.

ghost use Rattle.std.specs.Prelude.{◌≡◌, ◌+◌, ◌≤◌, ◌<◌, vec_len, vec_capacity};
ghost use Rattle.generator.specs.Names.{AreNames};
ghost use Rattle.mutator.specs.Mutating.{changed_at, lengthened, changed};

use crate::instruction::{change_instr, draw_instr, is_bracket};
use loda_syntax::{Instr, MOST_INSTRS};
use rand_core::Rng;
use word_stream::Draws;

// No list becomes longer than this.
fn lengthen<R: Rng>(list: &mut Vec<Instr>, draws: &mut Draws<R>)
    requires short { vec_len list.old ≤ MOST_INSTRS }
    requires room { vec_len list.old < vec_capacity list.old }
    ensures list { list.new.items ≡ (lengthened list.old.items (R.stream draws.old)).0 }
    ensures words { R.stream draws.new ≡ (lengthened list.old.items (R.stream draws.old)).1 }
    ensures short { vec_len list.new ≤ MOST_INSTRS }
    ensures longer { vec_len list.new ≤ vec_len list.old + 1 }
    ensures room { vec_capacity list.new ≡ vec_capacity list.old }
{
    if list.len() == MOST_INSTRS {
        return;
    }
    let place = draws.below(list.len() as u32 + 1) as usize;
    let instr = draw_instr(draws);
    let Ok(()) = list.insert(place, instr) else {
        unreachable!()
    };
}

fn change_at<R: Rng>(
    m: u32,
    list: &mut Vec<Instr>,
    place: usize,
    draws: &mut Draws<R>,
    names: &[u32],
)
    requires there { place < vec_len list.old }
    requires names { AreNames names.now }
    ensures list { list.new.items ≡ (changed_at m names.now list.old.items place (R.stream draws.old)).0 }
    ensures words { R.stream draws.new ≡ (changed_at m names.now list.old.items place (R.stream draws.old)).1 }
    ensures longer { vec_len list.new ≤ vec_len list.old }
    ensures room { vec_capacity list.new ≡ vec_capacity list.old }
{
    let instr = list[place];
    if m == 2 {
        if !is_bracket(&instr) {
            let _removed = list.remove(place);
        }
    } else {
        list[place] = change_instr(m, instr, draws, names);
    }
}

// One change.
pub fn change<R: Rng>(list: &mut Vec<Instr>, draws: &mut Draws<R>, names: &[u32])
    requires short { vec_len list.old ≤ MOST_INSTRS }
    requires room { vec_len list.old < vec_capacity list.old }
    requires names { AreNames names.now }
    ensures list { list.new.items ≡ (changed names.now list.old.items (R.stream draws.old)).0 }
    ensures words { R.stream draws.new ≡ (changed names.now list.old.items (R.stream draws.old)).1 }
    ensures short { vec_len list.new ≤ MOST_INSTRS }
    ensures longer { vec_len list.new ≤ vec_len list.old + 1 }
    ensures room { vec_capacity list.new ≡ vec_capacity list.old }
{
    let m = draws.below(6);
    if m == 1 {
        lengthen(list, draws);
    } else if !list.is_empty() {
        let place = draws.below(list.len() as u32) as usize;
        change_at(m, list, place, draws, names);
    }
}
