//! The terms that the forms ask for.

ghost use Rattle.std.specs.Prelude.{◌≡◌, ◌-ℤ◌, ◌+ℤ◌, SomeIff, IfOk, IfSome, IfNone};
ghost use Rattle.checked_numbers.specs.Numbers.{IsNumber};
ghost use Rattle.term_index.specs.Buckets.{AllNumbers};
ghost use Rattle.term_index.specs.Matching as spec;

use checked_numbers::Num;
use std::alloc::{AllocError, Global};

fn less(value: Num, by: Num) -> Option<Num>
    ensures { SomeIff result (IsNumber (value -ℤ by)) (value -ℤ by) }
{
    Num::new(value.get().checked_sub(by.get())?)
}

fn plus(value: Num, by: Num) -> Option<Num>
    ensures { SomeIff result (IsNumber (value +ℤ by)) (value +ℤ by) }
{
    Num::new(value.get().checked_add(by.get())?)
}

// Each value of the rest less the one before it, where all these are numbers.
fn differences_from(alloc: Global, first: Num, rest: &[Num]) -> Result<Option<Vec<Num>>, AllocError>
    ensures some { IfOk result (λ o. IfSome o (λ wanted. wanted.items ≡ spec.differences_from first rest.now)) }
    ensures none { IfOk result (λ o. IfNone o (¬ AllNumbers (spec.differences_from first rest.now))) }
{
    let mut differences = Vec::with_capacity(alloc, rest.len())?;
    let mut before = first;
    for value in rest {
        let Some(difference) = less(*value, before) else {
            return Ok(None);
        };
        differences.push(difference)?;
        before = *value;
    }
    Ok(Some(differences))
}

/// Each value but the first less the one before it, where all these are numbers.
pub fn differences(alloc: Global, values: &[Num]) -> Result<Option<Vec<Num>>, AllocError>
    ensures some { IfOk result (λ o. IfSome o (λ wanted. wanted.items ≡ spec.differences values.now)) }
    ensures none { IfOk result (λ o. IfNone o (¬ AllNumbers (spec.differences values.now))) }
{
    match values {
        [] => Ok(Some(Vec::new(alloc))),
        [first, rest @ ..] => differences_from(alloc, *first, rest),
    }
}

/// The sums of `start` and the values up to each, where all these are numbers.
pub fn sums_from(alloc: Global, start: Num, values: &[Num]) -> Result<Option<Vec<Num>>, AllocError>
    ensures some { IfOk result (λ o. IfSome o (λ wanted. wanted.items ≡ spec.sums_from start values.now)) }
    ensures none { IfOk result (λ o. IfNone o (¬ AllNumbers (spec.sums_from start values.now))) }
{
    let mut sums = Vec::with_capacity(alloc, values.len())?;
    let mut total = start;
    for value in values {
        let Some(sum) = plus(total, *value) else {
            return Ok(None);
        };
        sums.push(sum)?;
        total = sum;
    }
    Ok(Some(sums))
}
