//! A program that is being made, turn by turn.

ghost use Rattle.std.specs.Prelude.{◌≡◌, ◌+◌, ◌++◌, ◌≤◌, ◌<◌, List, [], ◌∷◌, replicate, vec_len, vec_capacity};
ghost use Rattle.loda_syntax.specs.declared.instr.Instr.TheVariants.{LoopEnd};
ghost use Rattle.generator.specs.Names.{AreNames};
ghost use Rattle.generator.specs.Generating.{arithmetic_turn, loop_turn, end_turn, call_turn, turn};

use crate::arithmetic::{draw_arithmetic, drawn_verb};
use loda_syntax::{Instr, Operand, Verb};
use rand_core::Rng;
use word_stream::Draws;

// A program that is being made, and how many of its loops aren't ended.
#[derive(Drop)]
pub struct Draft {
    pub list: Vec<Instr>,
    pub depth: u32,
}

impl Draft {
    fn draw_arithmetic<R: Rng>(&mut self, draws: &mut Draws<R>, k: u32)
        requires room { vec_len self.old.list < vec_capacity self.old.list }
        requires verb { k < 12 }
        ensures list { self.new.list.items ≡ self.old.list.items ++ (arithmetic_turn k self.old.depth (R.stream draws.old)).added }
        ensures depth { self.new.depth ≡ (arithmetic_turn k self.old.depth (R.stream draws.old)).depth }
        ensures words { R.stream draws.new ≡ (arithmetic_turn k self.old.depth (R.stream draws.old)).words }
        ensures longer { vec_len self.new.list ≤ vec_len self.old.list + 2 }
        ensures room { vec_capacity self.new.list ≡ vec_capacity self.old.list }
    {
        self.list
            .push_reserved(draw_arithmetic(draws, drawn_verb(k)));
    }

    fn draw_loop<R: Rng>(&mut self, draws: &mut Draws<R>)
        requires room { vec_len self.old.list + 2 ≤ vec_capacity self.old.list }
        requires few { self.old.depth < 8 }
        ensures list { self.new.list.items ≡ self.old.list.items ++ (loop_turn self.old.depth (R.stream draws.old)).added }
        ensures depth { self.new.depth ≡ (loop_turn self.old.depth (R.stream draws.old)).depth }
        ensures words { R.stream draws.new ≡ (loop_turn self.old.depth (R.stream draws.old)).words }
        ensures longer { vec_len self.new.list ≤ vec_len self.old.list + 2 }
        ensures room { vec_capacity self.new.list ≡ vec_capacity self.old.list }
    {
        let cell = draws.below(4) as u16;
        self.list.push_reserved(Instr::LoopStart {
            start: cell,
            len: 1,
        });
        self.list.push_reserved(Instr::Arith {
            verb: Verb::Sub,
            target: Operand::Direct(cell),
            source: Operand::Constant(1),
        });
        self.depth += 1;
    }

    fn end_loop<R: Rng>(&mut self, draws: &Draws<R>)
        requires room { vec_len self.old.list < vec_capacity self.old.list }
        ensures list { self.new.list.items ≡ self.old.list.items ++ (end_turn self.old.depth (R.stream draws.now)).added }
        ensures depth { self.new.depth ≡ (end_turn self.old.depth (R.stream draws.now)).depth }
        ensures words { R.stream draws.now ≡ (end_turn self.old.depth (R.stream draws.now)).words }
        ensures longer { vec_len self.new.list ≤ vec_len self.old.list + 2 }
        ensures room { vec_capacity self.new.list ≡ vec_capacity self.old.list }
    {
        if self.depth > 0 {
            self.list.push_reserved(Instr::LoopEnd);
            self.depth -= 1;
        }
    }

    fn draw_call<R: Rng>(&mut self, draws: &mut Draws<R>, names: &[u32])
        requires room { vec_len self.old.list < vec_capacity self.old.list }
        requires names { AreNames names.now }
        ensures list { self.new.list.items ≡ self.old.list.items ++ (call_turn names.now self.old.depth (R.stream draws.old)).added }
        ensures depth { self.new.depth ≡ (call_turn names.now self.old.depth (R.stream draws.old)).depth }
        ensures words { R.stream draws.new ≡ (call_turn names.now self.old.depth (R.stream draws.old)).words }
        ensures longer { vec_len self.new.list ≤ vec_len self.old.list + 2 }
        ensures room { vec_capacity self.new.list ≡ vec_capacity self.old.list }
    {
        if names.is_empty() {
            return;
        }
        let target = Operand::Direct(draws.below(4) as u16);
        let name = names[draws.below(names.len() as u32) as usize];
        self.list.push_reserved(Instr::Call { target, name });
    }

    // One turn of the table. It adds at most two instructions, and leaves at most one more loop open.
    pub fn turn<R: Rng>(&mut self, draws: &mut Draws<R>, names: &[u32])
        requires room { vec_len self.old.list + 2 ≤ vec_capacity self.old.list }
        requires few { self.old.depth < 8 }
        requires names { AreNames names.now }
        ensures list { self.new.list.items ≡ self.old.list.items ++ (turn names.now self.old.depth (R.stream draws.old)).added }
        ensures depth { self.new.depth ≡ (turn names.now self.old.depth (R.stream draws.old)).depth }
        ensures words { R.stream draws.new ≡ (turn names.now self.old.depth (R.stream draws.old)).words }
        ensures longer { vec_len self.new.list ≤ vec_len self.old.list + 2 }
        ensures deeper { self.new.depth ≤ self.old.depth + 1 }
        ensures room { vec_capacity self.new.list ≡ vec_capacity self.old.list }
    {
        match draws.below(16) {
            12 => self.draw_loop(draws),
            13 => self.end_loop(draws),
            14 | 15 => self.draw_call(draws, names),
            k => self.draw_arithmetic(draws, k),
        }
    }

    // The list, with an end for each loop that isn't ended.
    pub fn finish(self) -> Vec<Instr>
        requires { vec_len self.list + self.depth ≤ vec_capacity self.list }
        ensures { result.items ≡ self.list.items ++ replicate self.depth LoopEnd }
    {
        let Draft { mut list, depth } = self;
        for _ in 0..depth {
            list.push_reserved(Instr::LoopEnd);
        }
        list
    }
}
