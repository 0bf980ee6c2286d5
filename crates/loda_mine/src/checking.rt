//! `check` and `eval`.

ghost use Rattle.std.specs.Prelude.{◌≡◌, ◌≤◌, ◌++◌, OnOk, IfOk, Result, Ok, Err};
ghost use Rattle.oeis_terms.specs.Table.{IsBounded};
ghost use Rattle.loda_semantics.specs.Exec.{run_name};
ghost use Rattle.program_store.specs.Store.{programs_of};
ghost use Rattle.seq_calls.specs.Frames.{told};
ghost use Rattle.loda_mine.specs.Outputs.{outcome_text, count_line, sound_text};
ghost use Rattle.loda_mine.specs.Answer.{IsOutput, bytes_in};

use crate::files::Contents;
use crate::status::Status;
use checked_numbers::{Num, write_num};
use command_words::Task;
use judge::check_store;
use loda_semantics::{GREATEST_STEP_LIMIT, OUT_OF_STEPS};
use program_store::{Store, View};
use seq_calls::{Outcome, outcome_alone};
use std::alloc::{AllocError, Global};
use text_parts::write_counted;

/// Adds a line of a word and a count.
pub fn write_line(out: &mut Vec<u8>, word: &[u8], count: u64) -> Result<(), AllocError>
    ensures { OnOk result (out.new.items ≡ out.old.items ++ count_line word.now count) }
{
    write_counted(out, word, count)?;
    out.extend_from_slice(b"\n")
}

// Adds the numbers of rows, of skipped rows and of programs, and that the store is sound.
#[tactic(auto, unfolding(crate::specs::Outputs::sound_text))]
fn write_sound(out: &mut Vec<u8>, contents: &Contents) -> Result<(), AllocError>
    ensures { OnOk result (out.new.items ≡ out.old.items ++ sound_text contents.now) }
{
    write_line(out, b"rows ", contents.terms.rows() as u64)?;
    write_line(out, b"skipped ", contents.terms.skipped())?;
    write_line(out, b"programs ", contents.store.len() as u64)?;
    out.extend_from_slice(b"sound\n")
}

/// Whether the store is sound, and how much there is of what.
pub fn check(alloc: Global, contents: &Contents, limit: u64) -> Result<Vec<u8>, Status>
    requires limit { limit ≤ GREATEST_STEP_LIMIT }
    requires bounded { IsBounded contents.now.terms }
    ensures { IsOutput Task.Check limit contents.now (bytes_in result) }
{
    check_store(alloc, &contents.store, &contents.terms, limit)?;
    let mut output = Vec::new(alloc);
    write_sound(&mut output, contents)?;
    Ok(output)
}

// Adds what a run came to.
#[tactic(auto, unfolding(crate::specs::Outputs::outcome_text))]
fn write_outcome(out: &mut Vec<u8>, outcome: Outcome) -> Result<(), AllocError>
    ensures { OnOk result (out.new.items ≡ out.old.items ++ outcome_text outcome) }
{
    match outcome {
        Outcome::Value { value, steps } => {
            out.extend_from_slice(b"value ")?;
            write_num(out, value)?;
            write_line(out, b" steps ", steps)
        }
        Outcome::Fault { kind, steps } => {
            out.extend_from_slice(b"fault ")?;
            out.extend_from_slice(kind.word().as_bytes())?;
            write_line(out, b" steps ", steps)
        }
        Outcome::OutOfSteps => {
            out.extend_from_slice(OUT_OF_STEPS.as_bytes())?;
            out.extend_from_slice(b"\n")
        }
    }
}

// What the run of a name came to.
fn outcome_of(
    alloc: Global,
    store: &Store,
    name: u32,
    arg: Num,
    limit: u64,
) -> Result<Vec<u8>, AllocError>
    ensures { IfOk result (λ output. output.items ≡ outcome_text (told (run_name (programs_of store.now) name arg limit).0)) }
{
    let outcome = outcome_alone(alloc, store, name, arg, limit)?;
    let mut output = Vec::new(alloc);
    write_outcome(&mut output, outcome)?;
    Ok(output)
}

/// What the program of a name comes to at an argument.
pub fn eval(
    alloc: Global,
    contents: &Contents,
    name: u32,
    arg: Num,
    limit: u64,
) -> Result<Vec<u8>, Status>
    ensures { IsOutput (Task.Eval name arg) limit contents.now (bytes_in result) }
{
    if contents.store.published(name).is_none() {
        return Err(Status::Absent { name });
    }
    let output = outcome_of(alloc, &contents.store, name, arg, limit)?;
    Ok(output)
}
