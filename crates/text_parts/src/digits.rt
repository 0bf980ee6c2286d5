//! Decimal numbers that stop at a limit, so that digits of any length cost one pass.

ghost use Rattle.std.specs.Prelude.{◌≡◌, ◌+◌, ◌*◌, ◌≤◌, ◌<◌, min};
ghost use Rattle.text_parts.specs.Digits.{number_spelled, decimal_spelled, up_to};

/// The number that the digits spell, or `most` where it is no less. None exactly where they are no digits, or none stands there.
pub fn number_up_to(digits: &[u8], most: u128) -> Option<u128>
    ensures { result ≡ up_to most (number_spelled digits.now) }
{
    if digits.is_empty() {
        return None;
    }
    let mut number = 0;
    for digit in digits {
        if !digit.is_ascii_digit() {
            return None;
        }
        number = next_number(number, *digit - b'0', most);
    }
    Some(number)
}

fn next_number(number: u128, digit: u8, most: u128) -> u128
    requires number { number ≤ most }
    requires digit { digit < 10 }
    ensures { result ≡ min (10 * number + digit) most }
{
    (number.saturating_mul(10).saturating_add(u128::from(digit))).min(most)
}

/// A decimal number without a sign or a leading 0, or `most` where it is no less.
pub fn decimal_up_to(text: &[u8], most: u128) -> Option<u128>
    ensures { result ≡ up_to most (decimal_spelled text.now) }
{
    match text {
        [b'0', _, ..] => None,
        digits => number_up_to(digits, most),
    }
}
