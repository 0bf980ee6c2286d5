//! Powers of sizes, decided by the exact power alone.

ghost use Rattle.std.specs.Prelude.{◌≡◌, ◌*◌, ◌%◌, ◌^◌, ◌<◌, SomeIff};

// The product with one more factor where an odd number of factors is left.
fn with_odd_factor(power: u128, factor: u128, left: u128) -> Option<u128>
    ensures { SomeIff result (power * factor ^ (left % 2) < 2 ^ 128) (power * factor ^ (left % 2)) }
{
    if left % 2 == 0 {
        Some(power)
    } else {
        power.checked_mul(factor)
    }
}

// The power of a positive number, where it is below 2 ^ 128. At most 127 squares are made.
pub(crate) fn positive_power(base: u128, exponent: u128) -> Option<u128>
    requires base { 0 < base }
    requires exponent { 0 < exponent }
    ensures { SomeIff result (base ^ exponent < 2 ^ 128) (base ^ exponent) }
{
    let mut power: u128 = 1;
    let mut square = base;
    let mut left = exponent;
    while left > 1 {
        power = with_odd_factor(power, square, left)?;
        square = square.checked_mul(square)?;
        left /= 2;
    }
    power.checked_mul(square)
}
