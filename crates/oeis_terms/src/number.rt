//! Decimal integers.

ghost use Rattle.std.specs.Prelude.{◌≡◌, ◌≤◌, ◌<◌, ◌+◌, ◌*◌, min};
ghost use Rattle.std.specs.Option.{option_map};
ghost use Rattle.text_parts.specs.Digits.{number_spelled};
ghost use Rattle.oeis_terms.specs.Numbers.{integer, integer_of, as_number, wide};

use checked_numbers::Num;
use text_parts::number_up_to;

// The first absolute value past the number range.
const WIDE: u128 = 1 << 127;

// A term: an optional `-` and digits, where it has that form, and the number where it is within the range.
pub fn term_of(piece: &[u8]) -> Option<Option<Num>>
    ensures { result ≡ option_map as_number (integer_of piece.now) }
{
    match piece {
        [b'-', digits @ ..] => Some(number(true, number_up_to(digits, WIDE)?)),
        digits => Some(number(false, number_up_to(digits, WIDE)?)),
    }
}

fn number(negative: bool, magnitude: u128) -> Option<Num>
    requires { magnitude ≤ wide }
    ensures { result ≡ as_number (integer negative magnitude) }
{
    if magnitude == WIDE {
        return None;
    }
    let value = magnitude as i128;
    Num::new(if negative { -value } else { value })
}
