//! The numbers that programs compute with, and their text.

ghost use Rattle.std.specs.Prelude.{◌≡◌, ℤ, pos, SomeIff, ◌↔◌, IsTrue, ◌≤ℤ◌, ◌++◌, OnOk, OnErr};
ghost use Rattle.checked_numbers.specs.Numbers.{IsNumber, number_text};

use itoa::Buffer;
use std::alloc::AllocError;
use std::cmp::Ordering;
use std::marker::Model;

/// An integer from `-(2 ^ 127 - 1)` to `2 ^ 127 - 1`.
#[derive(Clone, Copy, Debug, PartialEq, Eq, PartialOrd, Ord)]
pub struct Num {
    value: i128,
}

impl Model for Num {
    ghost Value = { ℤ };

    ghost view = { λ n. n.value };

    ghost invariant = { λ n. IsNumber n.value };

    ghost inverse = { λ z. record { value = z } };
}

impl Num {
    /// The number of this value, which every value but `-2 ^ 127` has.
    pub fn new(value: i128) -> Option<Num>
        ensures { SomeIff result (IsNumber value) value }
    {
        if value == i128::MIN {
            None
        } else {
            Some(Num { value })
        }
    }

    /// The value.
    pub fn get(self) -> i128
        ensures value { result ≡ self }
        ensures number { IsNumber result }
    {
        self.value
    }
}

/// The number of an index, a count or a place.
pub fn number_of(index: u32) -> Num
    ensures { result ≡ pos index }
{
    match Num::new(i128::from(index)) {
        Some(number) => number,
        None => unreachable!(),
    }
}

/// Adds the decimal text of a number, as `-12`. After want of memory `out` is as before.
pub fn write_num(out: &mut Vec<u8>, v: Num) -> Result<(), AllocError>
    ensures ok { OnOk result (out.new.items ≡ out.old.items ++ number_text v) }
    ensures err { OnErr result (out.new.items ≡ out.old.items) }
{
    let mut buffer = Buffer::new();
    out.extend_from_slice(buffer.format(v.get()).as_bytes())
}

#[cfg(test)]
mod tests;
