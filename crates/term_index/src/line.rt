//! The numbers a and b of a row whose terms are a times values, and b.

ghost use Rattle.std.specs.Prelude.{◌≡◌, ◌≢◌, ◌+ℤ◌, ◌-ℤ◌, ◌*ℤ◌, ◌*◌, unsigned_abs, length, Some, SomeIff, IfSome, IfNone};
ghost use Rattle.std.specs.Ordering.{int_eq};
ghost use Rattle.checked_numbers.specs.Numbers.{IsNumber};
ghost use Rattle.checked_numbers.specs.Ops.{signed as signed_int};
ghost use Rattle.term_index.specs.Lines as spec;
ghost use Rattle.term_index.specs.Lines.{IsNoPair};

use checked_numbers::Num;

// The number of this sign and size.
fn signed(negative: bool, size: u128) -> Option<i128>
    ensures { SomeIff result (IsNumber (signed_int negative size)) (signed_int negative size) }
{
    if size > i128::MAX as u128 {
        None
    } else if negative {
        Some(-(size as i128))
    } else {
        Some(size as i128)
    }
}

fn is_falling(first: Num, value: Num, first_term: Num, term: Num) -> bool
    ensures { result ≡ spec.is_falling first value first_term term }
{
    if term.get() < first_term.get() {
        !(value.get() < first.get())
    } else {
        value.get() < first.get()
    }
}

// How much the terms rise where the values rise by one, from one place to another.
fn slope(first: Num, value: Num, first_term: Num, term: Num) -> Option<Num>
    requires { value ≢ first }
    ensures { SomeIff result (IsNumber (spec.slope first value first_term term)) (spec.slope first value first_term term) }
{
    let size = term.get().abs_diff(first_term.get()) / value.get().abs_diff(first.get());
    Num::new(signed(is_falling(first, value, first_term, term), size)?)
}

fn is_negative_product(a: Num, value: Num) -> bool
    ensures { a *ℤ value ≡ signed_int result (unsigned_abs a * unsigned_abs value) }
{
    if a.get() < 0 {
        !(value.get() < 0)
    } else {
        value.get() < 0
    }
}

// The term less the number of this sign and size.
fn less(term: Num, negative: bool, size: u128) -> Option<Num>
    ensures { SomeIff result (IsNumber (term -ℤ signed_int negative size)) (term -ℤ signed_int negative size) }
{
    if negative {
        Num::new(term.get().checked_add_unsigned(size)?)
    } else {
        Num::new(term.get().checked_sub_unsigned(size)?)
    }
}

// The term less a times the value.
fn shift(a: Num, value: Num, term: Num) -> Option<Num>
    ensures { SomeIff result (IsNumber (term -ℤ a *ℤ value)) (term -ℤ a *ℤ value) }
{
    let negative = is_negative_product(a, value);
    let size = a
        .get()
        .unsigned_abs()
        .checked_mul(value.get().unsigned_abs())?;
    less(term, negative, size)
}

// The slope from one place to another, and the term at the value 0.
fn pair_at(first: Num, value: Num, first_term: Num, term: Num) -> Option<(Num, Num)>
    requires { value ≢ first }
    ensures line { IfSome result (λ l. l ≡ spec.pair_at first value first_term term) }
    ensures none { IfNone result (IsNoPair (Some (spec.pair_at first value first_term term))) }
{
    let a = slope(first, value, first_term, term)?;
    let b = shift(a, first, first_term)?;
    Some((a, b))
}

fn line_through(first: Num, first_term: Num, values: &[Num], terms: &[Num]) -> Option<(Num, Num)>
    requires { length values.now ≡ length terms.now }
    ensures line { IfSome result (λ l. spec.line_through first first_term values.now terms.now ≡ Some l) }
    ensures none { IfNone result (IsNoPair (spec.line_through first first_term values.now terms.now)) }
{
    for place in 0..values.len() {
        if values[place] != first {
            return pair_at(first, values[place], first_term, terms[place]);
        }
    }
    None
}

// Whether the term is a times the value and b.
fn is_at(a: Num, b: Num, value: Num, term: Num) -> bool
    ensures { result ≡ int_eq term (a *ℤ value +ℤ b) }
{
    match shift(a, value, term) {
        Some(found) => found == b,
        None => false,
    }
}

fn is_on_line(a: Num, b: Num, values: &[Num], terms: &[Num]) -> bool
    requires { length values.now ≡ length terms.now }
    ensures { result ≡ spec.is_on_line a b values.now terms.now }
{
    for place in 0..values.len() {
        if !is_at(a, b, values[place], terms[place]) {
            return false;
        }
    }
    true
}

fn is_pair(a: Num, b: Num) -> bool
    ensures { result ≡ spec.is_pair a b }
{
    a.get() != 0 && !(a.get() == 1 && b.get() == 0)
}

/// The numbers a and b of which each term is a times the value and b, where there are any.
pub fn line_of(values: &[Num], terms: &[Num]) -> Option<(Num, Num)>
    ensures { result ≡ spec.line_of values.now terms.now }
{
    if values.len() != terms.len() {
        return None;
    }
    if values.is_empty() {
        return None;
    }
    let (a, b) = line_through(values[0], terms[0], &values[1..], &terms[1..])?;
    if is_pair(a, b) && is_on_line(a, b, values, terms) {
        Some((a, b))
    } else {
        None
    }
}
