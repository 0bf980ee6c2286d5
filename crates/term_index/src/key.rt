//! The keys of terms: one that rows have in common that follow from one another by a factor and a shift, and one of the
//! terms themselves.

ghost use Rattle.std.specs.Prelude.{◌≡◌};
ghost use Rattle.term_index.specs.Keys as spec;

use checked_numbers::Num;

// The first distance from `first` that isn't 0, or 0.
fn first_gap(first: Num, rest: &[Num]) -> u128
    ensures { result ≡ spec.first_gap (spec.gaps_from first rest.now) }
{
    for term in rest {
        let gap = term.get().abs_diff(first.get());
        if gap != 0 {
            return gap;
        }
    }
    0
}

// A key and one more number.
fn mixed(key: u64, quotient: u128) -> u64
    ensures { result ≡ spec.mixed key quotient }
{
    key.wrapping_mul(11_400_714_819_323_198_485)
        .wrapping_add((quotient % 18_446_744_073_709_551_616) as u64)
}

// One of Euclid's steps, with its quotient mixed into the key; none where `below` is 0.
fn euclid_step(key: u64, above: u128, below: u128) -> (u64, u128, u128)
    ensures { result ≡ spec.euclid_step key above below }
{
    if below == 0 {
        (key, above, below)
    } else {
        (mixed(key, above / below), below, above % below)
    }
}

// Up to three of Euclid's quotients, mixed into a key. Numbers in the same ratio have the same.
#[tactic(auto, unfolding(crate::specs::Keys::ratio_key))]
fn ratio_key(key: u64, above: u128, below: u128) -> u64
    ensures { result ≡ spec.ratio_key key above below }
{
    let (key, above, below) = euclid_step(key, above, below);
    let (key, above, below) = euclid_step(key, above, below);
    euclid_step(key, above, below).0
}

// The key of terms that begin with `first`.
fn key_from(first: Num, rest: &[Num]) -> u64
    ensures { result ≡ spec.key_of_gaps (spec.gaps_from first rest.now) }
{
    let unit = first_gap(first, rest);
    let mut key = 0;
    for term in rest {
        key = ratio_key(key, term.get().abs_diff(first.get()), unit);
    }
    key
}

/// The key of terms, which is that of `a` times the terms, and `b`, for each `a` that isn't 0.
pub fn line_key(terms: &[Num]) -> u64
    ensures { result ≡ spec.line_key terms.now }
{
    match terms {
        [] => 0,
        [first, rest @ ..] => key_from(*first, rest),
    }
}

/// The key of the terms themselves.
pub fn terms_key(terms: &[Num]) -> u64
    ensures { result ≡ spec.terms_key terms.now }
{
    let mut key = 0;
    for term in terms {
        key = mixed(key, term.get().unsigned_abs());
    }
    key
}
