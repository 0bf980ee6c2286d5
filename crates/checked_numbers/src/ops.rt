//! The operations of the LODA language on a target's value `a` and a source's value `b`.

ghost use Rattle.std.specs.Prelude.{◌≡◌, ◌+◌, ◌^◌, ◌<◌, ℤ, pos, ◌<ℤ◌, unsigned_abs, IfSome, IfNone};
ghost use Rattle.checked_numbers.specs.Numbers.{IsNumber};
ghost use Rattle.checked_numbers.specs.Ops as spec;
ghost use Rattle.checked_numbers.specs.Ops.{op_answer, choose};

use crate::binomials::ways_to_choose;
use crate::divisors::greatest_common_divisor;
use crate::num::Num;
use crate::powers::positive_power;

/// An arithmetic operation of the LODA language. The names are LODA's. The values on unusual
/// operands, and the faults, are this project's own.
#[derive(Clone, Copy, Debug, PartialEq, Eq)]
pub enum Op {
    /// `b`.
    Mov,
    /// `a + b`.
    Add,
    /// `a - b`.
    Sub,
    /// The greater of `a - b` and 0.
    Trn,
    /// `a * b`.
    Mul,
    /// `a / b`, rounded toward zero.
    Div,
    /// `a / b` where `b` is not 0 and divides `a`, and else `a`.
    Dif,
    /// `a - b * q`, where `q` is the quotient rounded toward zero: its sign is that of `a`.
    Mod,
    /// `a` to the power `b`. A negative power is 1 of 1, 1 or -1 of -1, and else 0.
    Pow,
    /// The greatest common divisor, never negative, and 0 of 0 and 0.
    Gcd,
    /// The ways to choose `b` of `a`, 0 where `b < 0`, and `(-1)^b * bin(b - a - 1, b)` where `a < 0 <= b`.
    Bin,
    /// 1 where `a = b`, and else 0.
    Equ,
    /// 1 where `a` differs from `b`, and else 0.
    Neq,
    /// 1 where `a <= b`, and else 0.
    Leq,
    /// 1 where `a >= b`, and else 0.
    Geq,
    /// The lesser of the two.
    Min,
    /// The greater of the two.
    Max,
}

/// Why an operation has no answer.
#[derive(Clone, Copy, Debug, PartialEq, Eq)]
pub enum NumFault {
    /// The exact result is no number.
    Overflow,
    /// `div` or `mod` by 0, or 0 to a negative power.
    DivideByZero,
}

fn in_range(value: Option<i128>) -> Result<Num, NumFault>
    ensures some { IfSome value (λ v. result ≡ spec.in_range v) }
    ensures none { IfNone value (result ≡ Err NumFault.Overflow) }
{
    match value {
        Some(value) => Num::new(value).ok_or(NumFault::Overflow),
        None => Err(NumFault::Overflow),
    }
}

fn of_test(test: bool) -> Result<Num, NumFault>
    ensures { result ≡ spec.in_range (spec.of_test test) }
{
    Num::new(if test { 1 } else { 0 }).ok_or(NumFault::Overflow)
}

fn add(a: i128, b: i128) -> Result<Num, NumFault>
    requires a { IsNumber a }
    requires b { IsNumber b }
    ensures { result ≡ op_answer Op.Add a b }
{
    in_range(a.checked_add(b))
}

fn sub(a: i128, b: i128) -> Result<Num, NumFault>
    requires a { IsNumber a }
    requires b { IsNumber b }
    ensures { result ≡ op_answer Op.Sub a b }
{
    in_range(a.checked_sub(b))
}

fn trn(a: i128, b: i128) -> Result<Num, NumFault>
    requires a { IsNumber a }
    requires b { IsNumber b }
    ensures { result ≡ op_answer Op.Trn a b }
{
    if a <= b {
        Num::new(0).ok_or(NumFault::Overflow)
    } else {
        in_range(a.checked_sub(b))
    }
}

fn mul(a: i128, b: i128) -> Result<Num, NumFault>
    requires a { IsNumber a }
    requires b { IsNumber b }
    ensures { result ≡ op_answer Op.Mul a b }
{
    in_range(a.checked_mul(b))
}

fn div(a: i128, b: i128) -> Result<Num, NumFault>
    requires a { IsNumber a }
    requires b { IsNumber b }
    ensures { result ≡ op_answer Op.Div a b }
{
    if b == 0 {
        Err(NumFault::DivideByZero)
    } else {
        in_range(a.checked_div(b))
    }
}

fn rem(a: i128, b: i128) -> Result<Num, NumFault>
    requires a { IsNumber a }
    requires b { IsNumber b }
    ensures { result ≡ op_answer Op.Mod a b }
{
    if b == 0 {
        Err(NumFault::DivideByZero)
    } else {
        in_range(a.checked_rem(b))
    }
}

fn dif(a: i128, b: i128) -> Result<Num, NumFault>
    requires a { IsNumber a }
    requires b { IsNumber b }
    ensures { result ≡ op_answer Op.Dif a b }
{
    if b == 0 {
        Num::new(a).ok_or(NumFault::Overflow)
    } else if a % b == 0 {
        in_range(a.checked_div(b))
    } else {
        Num::new(a).ok_or(NumFault::Overflow)
    }
}

// The number of this sign and size.
fn of_magnitude(negative: bool, magnitude: u128) -> Result<Num, NumFault>
    ensures { result ≡ spec.in_range (spec.signed negative magnitude) }
{
    if magnitude > i128::MAX as u128 {
        return Err(NumFault::Overflow);
    }
    let size = magnitude as i128;
    Num::new(if negative { -size } else { size }).ok_or(NumFault::Overflow)
}

fn gcd(a: i128, b: i128) -> Result<Num, NumFault>
    ensures { result ≡ op_answer Op.Gcd a b }
{
    of_magnitude(
        false,
        greatest_common_divisor(a.unsigned_abs(), b.unsigned_abs()),
    )
}

fn of_ways(negative: bool, left: u128, kept: u128) -> Result<Num, NumFault>
    requires { left + kept < 2 ^ 128 }
    ensures { result ≡ spec.in_range (spec.signed negative (choose (left + kept) kept)) }
{
    match ways_to_choose(left, kept) {
        Some(ways) => of_magnitude(negative, ways),
        None => Err(NumFault::Overflow),
    }
}

fn bin(a: i128, b: i128) -> Result<Num, NumFault>
    requires a { IsNumber a }
    requires b { IsNumber b }
    ensures { result ≡ op_answer Op.Bin a b }
{
    if b < 0 {
        in_range(Some(0))
    } else if a < 0 {
        of_ways(b % 2 != 0, a.unsigned_abs() - 1, b.unsigned_abs())
    } else if b <= a {
        of_ways(false, (a - b).unsigned_abs(), b.unsigned_abs())
    } else {
        in_range(Some(0))
    }
}

// 1 where the exponent is even, and -1 where it is odd.
fn pow_of_minus_one(exponent: i128) -> Result<Num, NumFault>
    ensures { result ≡ spec.in_range (spec.sign (unsigned_abs exponent)) }
{
    in_range(Some(if exponent % 2 == 0 { 1 } else { -1 }))
}

// The power where the exponent is positive.
fn pow_of_size(a: i128, b: i128) -> Result<Num, NumFault>
    requires base { 0 < unsigned_abs a }
    requires exponent { pos 0 <ℤ b }
    ensures { result ≡ op_answer Op.Pow a b }
{
    let negative = if b % 2 == 0 { false } else { a < 0 };
    match positive_power(a.unsigned_abs(), b.unsigned_abs()) {
        Some(size) => of_magnitude(negative, size),
        None => Err(NumFault::Overflow),
    }
}

fn pow(a: i128, b: i128) -> Result<Num, NumFault>
    ensures { result ≡ op_answer Op.Pow a b }
{
    if b == 0 {
        in_range(Some(1))
    } else if a == 1 {
        in_range(Some(1))
    } else if a == -1 {
        pow_of_minus_one(b)
    } else if a == 0 {
        if b < 0 {
            Err(NumFault::DivideByZero)
        } else {
            in_range(Some(0))
        }
    } else if b < 0 {
        in_range(Some(0))
    } else {
        pow_of_size(a, b)
    }
}

/// The exact result of the operation over all integers, where it is a number. No product, power or
/// number of ways on the way to the result decides anything, and no call takes more than some
/// hundreds of turns.
pub fn apply(op: Op, a: Num, b: Num) -> Result<Num, NumFault>
    ensures { result ≡ op_answer op a b }
{
    let a = a.get();
    let b = b.get();
    match op {
        Op::Mov => in_range(Some(b)),
        Op::Add => add(a, b),
        Op::Sub => sub(a, b),
        Op::Trn => trn(a, b),
        Op::Mul => mul(a, b),
        Op::Div => div(a, b),
        Op::Dif => dif(a, b),
        Op::Mod => rem(a, b),
        Op::Pow => pow(a, b),
        Op::Gcd => gcd(a, b),
        Op::Bin => bin(a, b),
        Op::Equ => of_test(a == b),
        Op::Neq => of_test(a != b),
        Op::Leq => of_test(a <= b),
        Op::Geq => of_test(b <= a),
        Op::Min => in_range(Some(if b < a { b } else { a })),
        Op::Max => in_range(Some(if b < a { a } else { b })),
    }
}

#[cfg(test)]
mod tests;
