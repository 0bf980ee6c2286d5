//! A row as it stands in the index.

ghost use Rattle.std.specs.Prelude.{◌≡◌};

use checked_numbers::Num;
use std::marker::Model;

// A name and the first eight terms.
#[derive(Drop)]
pub struct Entry {
    name: u32,
    terms: Vec<Num>,
}

impl Model for Entry {
    ghost use Rattle.std.specs.Prelude.{ℕ, ℤ, List};

    ghost Value = { ℕ × List ℤ };

    ghost view = { λ e. (e.name, e.terms.items) };
}

impl Entry {
    pub fn of(name: u32, terms: Vec<Num>) -> Entry
        ensures { result ≡ (name, terms.items) }
    {
        Entry { name, terms }
    }

    pub fn name(&self) -> u32
        ensures { result ≡ self.now.0 }
    {
        self.name
    }

    pub fn terms(&self) -> &[Num]
        ensures { result.now ≡ self.now.1 }
    {
        self.terms.as_slice()
    }
}
