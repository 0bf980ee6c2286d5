//! A-numbers, the names of sequences in the OEIS: `A` and six digits that are not all 0.

ghost use Rattle.std.specs.Prelude.{◌≡◌, ◌+◌, ◌%◌, ◌≤◌, length, IfSome};
ghost use Rattle.text_parts.specs.Digits.{number_spelled};
ghost use Rattle.text_parts.specs.Names.{IsName, name_read, name_text};

use crate::digits::number_up_to;

/// The greatest name: a name has six digits.
pub const GREATEST_NAME: u32 = 999_999;

// More than any number of six digits.
const PAST_SIX_DIGITS: u128 = GREATEST_NAME as u128 + 1;

/// The name that a text stands for: `A` and six digits that are not all 0.
#[tactic(auto, unfolding(crate::specs::Names::name_read))]
pub fn name_of(text: &[u8]) -> Option<u32>
    ensures value { result ≡ name_read text.now }
    ensures named { IfSome result IsName }
{
    let [b'A', digits @ ..] = text else {
        return None;
    };
    if digits.len() != 6 {
        return None;
    }
    let name = six_digits(digits)?;
    if name == 0 { None } else { Some(name) }
}

fn six_digits(digits: &[u8]) -> Option<u32>
    requires { length digits.now ≡ 6 }
    ensures value { result ≡ number_spelled digits.now }
    ensures small { IfSome result (λ number. number ≤ GREATEST_NAME) }
{
    let number = number_up_to(digits, PAST_SIX_DIGITS)?;
    Some(number as u32)
}

/// The text of a name: `A` and six digits.
#[tactic(auto, unfolding(crate::specs::Names::name_text))]
pub fn name_text(name: u32) -> [u8; 7]
    ensures { result ≡ name_text name }
{
    let tens = name / 10;
    let hundreds = tens / 10;
    let thousands = hundreds / 10;
    let ten_thousands = thousands / 10;
    let hundred_thousands = ten_thousands / 10;
    [
        b'A',
        digit(hundred_thousands),
        digit(ten_thousands),
        digit(thousands),
        digit(hundreds),
        digit(tens),
        digit(name),
    ]
}

// The last digit of a number.
fn digit(number: u32) -> u8
    ensures { result ≡ 48 + number % 10 }
{
    b'0' + (number % 10) as u8
}
