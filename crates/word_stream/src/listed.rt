//! A source over a given list of words.

ghost use Rattle.std.specs.Prelude.{◌≡◌, ◌≤◌, List, ℕ, length, drop, slice_index};
ghost use Rattle.word_stream.specs.Listed.{next_listed, listed};
ghost use Rattle.word_stream.specs.Words.{word};

use rand_core::Rng;
use rand_core::utils::{self, NextWord};
use std::marker::Model;

/// A source over a given list of words, for tests. Past the list's end it gives 0.
#[derive(Drop)]
pub struct Listed {
    words: Vec<u32>,
    place: usize,
}

impl Model for Listed {
    ghost Value = { List ℕ };

    ghost view = { λ l. drop l.place l.words.items };

    ghost invariant = { λ l. l.place ≤ length l.words.items };
}

impl Listed {
    /// A source that gives these words in their order, and then zeros.
    pub fn new(words: Vec<u32>) -> Listed
        ensures list { result ≡ words.items }
        // A number of the list by its place is 0 past the end.
        ensures words { (k : ℕ) → word k (⟦<Listed as Rng>⟧.stream result) ≡ slice_index words.items k }
    {
        Listed { words, place: 0 }
    }
}

impl NextWord<u32> for Listed {
    ghost step = { next_listed };

    fn next_word(&mut self) -> u32 {
        match self.words.get(self.place) {
            Some(word) => {
                self.place += 1;
                *word
            }
            None => 0,
        }
    }
}

impl Rng for Listed {
    ghost stream = { listed };

    fn next_u32(&mut self) -> u32 {
        self.next_word()
    }

    fn next_u64(&mut self) -> u64 {
        utils::next_u64_via_u32(self)
    }

    fn fill_bytes(&mut self, dst: &mut [u8]) {
        utils::fill_bytes_via_u32(self, dst)
    }
}
