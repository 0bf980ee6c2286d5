//! Whether a store is sound.

ghost use Rattle.std.specs.Prelude.{◌≡◌, ◌≤◌, OnOk, IfOk, length, take};
ghost use Rattle.oeis_terms.specs.Table.{row_of, IsBounded};
ghost use Rattle.judge.specs.declared.answer.Unsound.{Unsound as Reason};
ghost use Rattle.judge.specs.Misses.{IsEntryFault};
ghost use Rattle.judge.specs.One.{HasOneReason};
ghost use Rattle.judge.specs.Passed.{IsPassed};
ghost use Rattle.judge.specs.Sound.{Sound, IsUnsound};

use crate::answer::Unsound;
use crate::directory::{Directory, table};
use crate::passing::first_miss;
use call_graph::cycle;
use checked_numbers::Num;
use oeis_terms::TermTable;
use program_store::{Library, View};
use seq_calls::Evaluator;
use std::alloc::{AllocError, Global};

/// Why a store is not found sound.
#[derive(Debug, Drop)]
pub enum CheckError {
    /// It is not sound.
    Unsound(Unsound),
    /// Memory ran out.
    Memory,
}

impl From<AllocError> for CheckError {
    ghost use Rattle.std.specs.Prelude.{◌≡◌};
    ghost use Rattle.judge.specs.declared.opening.CheckError.TheVariants.{Memory};

    ghost from_gives = { λ _ given. given ≡ Memory };

    fn from(_error: AllocError) -> CheckError {
        CheckError::Memory
    }
}

/// How many leading terms the program of a name gives within the limit of steps.
pub fn check_terms<B: Library>(
    alloc: Global,
    lib: &B,
    terms: &[Num],
    name: u32,
    limit: u64,
) -> Result<u32, AllocError>
    requires { length terms.now ≤ 32768 }
    ensures { IfOk result (IsPassed (B.programs lib.now) terms.now name limit) }
{
    let mut evaluator = Evaluator::new(alloc);
    let (count, _) = first_miss(&mut evaluator, lib, terms, name, limit)?;
    Ok(count)
}

// The first terms of a row.
fn first_terms(row: &[Num], count: u32) -> &[Num]
    requires { count ≤ length row.now }
    ensures { result.now ≡ take count row.now }
{
    &row[..count as usize]
}

// What is wrong with the entry of a name, if there is one: no row, a count that is out of bounds, or the first of the
// checked terms that is not given.
fn entry_fault<V: View>(
    evaluator: &mut Evaluator,
    directory: &Directory<V>,
    terms: &TermTable,
    limit: u64,
    name: u32,
) -> Result<Option<Unsound>, AllocError>
    requires { IsBounded terms.now }
    ensures { IfOk result (IsEntryFault (V.store directory.now.base.now) (row_of terms.now) limit name) }
{
    let Some(published) = directory.base.published(name) else {
        return Ok(None);
    };
    let checked = published.checked;
    let Some(row) = terms.row(name) else {
        return Ok(Some(Unsound::NoRow { name }));
    };
    let usable = row.len() as u32;
    if checked < 8 || usable < checked {
        return Ok(Some(Unsound::Count {
            name,
            checked,
            usable,
        }));
    }
    let checked_terms = first_terms(row, checked);
    let found = first_miss(evaluator, directory, checked_terms, name, limit)?;
    let index = found.0;
    let missed = found.1;
    match missed {
        None => Ok(None),
        Some(got) => Ok(Some(Unsound::Unmet { name, index, got })),
    }
}

/// Whether a store is sound for these terms and this limit of steps, or the first reason why it is not.
pub fn check_store<V: View>(
    alloc: Global,
    view: &V,
    terms: &TermTable,
    limit: u64,
) -> Result<(), CheckError>
    requires bounded { IsBounded terms.now }
    ensures sound { OnOk result (Sound (V.store view.now) (row_of terms.now) limit) }
    ensures unsound { (u : Reason) → result ≡ Err (CheckError.Unsound u) → IsUnsound (V.store view.now) (row_of terms.now) limit u }
    ensures one { HasOneReason (V.store view.now) (row_of terms.now) limit }
{
    if let Some(through) = cycle(alloc, view)? {
        return Err(CheckError::Unsound(Unsound::Cycle { through }));
    }
    let places = table(alloc, view)?;
    let directory = Directory {
        base: view,
        places: &places,
    };
    let mut evaluator = Evaluator::new(alloc);
    let mut last = 0;
    while let Some(name) = view.next_name(last) {
        if let Some(unsound) = entry_fault(&mut evaluator, &directory, terms, limit, name)? {
            return Err(CheckError::Unsound(unsound));
        }
        last = name;
    }
    Ok(())
}
