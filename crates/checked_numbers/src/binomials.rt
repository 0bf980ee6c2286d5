//! Binomial coefficients, decided by the exact number of ways alone.

ghost use Rattle.std.specs.Prelude.{◌≡◌, ◌+◌, ◌*◌, ◌/◌, ◌^◌, ◌<◌, ◌≤◌, SomeIff};
ghost use Rattle.checked_numbers.specs.Ops.{choose};

// The quotient of a product, rounded down, where the quotient fits, however wide the product is.
// With a = q * d + s and b = p * d + t the product is (q * b + s * p) * d + s * t, where s * p < b.
fn divided_product(a: u128, b: u128, d: u128) -> Option<u128>
    requires positive { 0 < d }
    requires small { d < 2 ^ 64 }
    ensures { SomeIff result (a * b / d < 2 ^ 128) (a * b / d) }
{
    match a.checked_mul(b) {
        Some(product) => Some(product / d),
        None => divided_in_parts(a, b, d),
    }
}

fn divided_in_parts(a: u128, b: u128, d: u128) -> Option<u128>
    requires positive { 0 < d }
    requires small { d < 2 ^ 64 }
    ensures { SomeIff result (a * b / d < 2 ^ 128) (a * b / d) }
{
    let whole = (a / d).checked_mul(b)?;
    let cross = (a % d) * (b / d);
    let rest = (a % d) * (b % d) / d;
    whole.checked_add(cross)?.checked_add(rest)
}

// The ways to choose `smaller` of `larger + smaller`, where they are below 2 ^ 128.
fn ways_of_smaller(larger: u128, smaller: u128) -> Option<u128>
    requires order { smaller ≤ larger }
    requires fits { larger + smaller < 2 ^ 128 }
    ensures { SomeIff result (choose (larger + smaller) smaller < 2 ^ 128) (choose (larger + smaller) smaller) }
{
    if smaller >= 128 {
        return None;
    }
    let mut ways = 1;
    for i in 0..smaller {
        ways = divided_product(ways, larger + (i + 1), i + 1)?;
    }
    Some(ways)
}

// The ways to choose `kept` of `left + kept`, where they are below 2 ^ 128. At most 127 steps are made.
pub(crate) fn ways_to_choose(left: u128, kept: u128) -> Option<u128>
    requires { left + kept < 2 ^ 128 }
    ensures { SomeIff result (choose (left + kept) kept < 2 ^ 128) (choose (left + kept) kept) }
{
    if kept <= left {
        ways_of_smaller(left, kept)
    } else {
        ways_of_smaller(kept, left)
    }
}
