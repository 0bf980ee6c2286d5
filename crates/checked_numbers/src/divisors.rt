//! The greatest common divisor, by Euclid's algorithm.

ghost use Rattle.std.specs.Prelude.{◌≡◌};
ghost use Rattle.std.specs.Int.{IsGcd};
ghost use Rattle.checked_numbers.specs.Ops.{gcd};

/// The greatest common divisor of two numbers, 0 of 0 and 0. Fewer than 200 divisions are made.
pub fn greatest_common_divisor(a: u128, b: u128) -> u128
    ensures divisor { IsGcd a b result }
    ensures value { result ≡ gcd a b }
{
    let mut divisor = a;
    let mut rest = b;
    while rest != 0 {
        let next = divisor % rest;
        divisor = rest;
        rest = next;
    }
    divisor
}

#[cfg(test)]
mod tests {
    use super::*;

    #[test]
    fn divisors_of_sizes(rt: HostRuntime) {
        assert_eq!(rt; greatest_common_divisor(12, 18), 6);
        assert_eq!(rt; greatest_common_divisor(0, 0), 0);
        assert_eq!(rt; greatest_common_divisor(u128::MAX, u128::MAX - 1), 1);
    }
}
