//! `made`: made input, and a summary of publishing it.

ghost use Rattle.std.specs.Prelude.{◌≡◌, ◌≤◌, ◌++◌, length, IfOk, OnOk};
ghost use Rattle.loda_semantics.specs.Limits.{IsStepLimit};
ghost use Rattle.oeis_terms.specs.Table.{IsBounded};
ghost use Rattle.loda_mine.specs.declared.files.Contents.{Contents as files};
ghost use Rattle.loda_mine.specs.Outputs.{accepts, gains_nothing, is_answered, count_answered, summary_text};
ghost use Rattle.loda_mine.specs.Answer.{made_contents, IsOutput, bytes_in};

use crate::checking::write_line;
use crate::files::Contents;
use crate::publishing::decided;
use crate::status::Status;
use command_words::{Kind, Task};
use judge::Answer;
use made_input::{candidates_text, made_candidates, made_table, store_text, terms_text};
use program_store::Store;
use publish_desk::{Desk, Entry, Finding};
use std::alloc::{AllocError, Global};

fn is_accepted(entry: &Entry) -> bool
    ensures { result ≡ is_answered accepts entry.now.finding }
{
    match &entry.finding {
        Finding::Nothing => false,
        Finding::Judged { answer, .. } => matches!(answer, Answer::Accepted { .. }),
    }
}

fn has_no_gain(entry: &Entry) -> bool
    ensures { result ≡ is_answered gains_nothing entry.now.finding }
{
    match &entry.finding {
        Finding::Nothing => false,
        Finding::Judged { answer, .. } => matches!(answer, Answer::NoGain),
    }
}

// How many entries were accepted.
fn accepted_in(entries: &[Entry]) -> u64
    ensures { result ≡ count_answered accepts entries.now }
{
    let mut count = 0;
    for entry in entries {
        if is_accepted(entry) {
            count += 1;
        }
    }
    count
}

// How many entries brought no gain.
fn no_gains_in(entries: &[Entry]) -> u64
    ensures { result ≡ count_answered gains_nothing entries.now }
{
    let mut count = 0;
    for entry in entries {
        if has_no_gain(entry) {
            count += 1;
        }
    }
    count
}

// Adds six lines on the journal of a desk.
#[tactic(auto, unfolding(crate::specs::Outputs::summary_text))]
fn write_summary(out: &mut Vec<u8>, n: u32, rows: u64, desk: &Desk) -> Result<(), AllocError>
    ensures { OnOk result (out.new.items ≡ out.old.items ++ summary_text n rows desk.now.journal desk.now.version) }
{
    let entries = desk.entries();
    write_line(out, b"made ", u64::from(n))?;
    write_line(out, b"rows ", rows)?;
    write_line(out, b"jobs ", entries.len() as u64)?;
    write_line(out, b"accepted ", accepted_in(entries))?;
    write_line(out, b"no-gain ", no_gains_in(entries))?;
    write_line(out, b"version ", desk.version())
}

// What stands in made files, over the empty store.
fn contents_made(alloc: Global, n: u32) -> Result<Contents, AllocError>
    requires { n ≤ 20000 }
    ensures contents { IfOk result (λ contents. contents ≡ made_contents n) }
    ensures bounded { IfOk result (λ contents. IsBounded contents.terms) }
{
    let terms = made_table(alloc, n)?;
    let candidates = made_candidates(alloc, n)?;
    Ok(Contents {
        terms,
        store: Store::empty(alloc),
        candidates,
    })
}

// The summary of publishing the made candidates against the made terms, from the empty store.
fn run(alloc: Global, n: u32, limit: u64) -> Result<Vec<u8>, Status>
    requires number { n ≤ 20000 }
    requires limit { IsStepLimit limit }
    ensures { (inside : files) → IsOutput (Task.Made n Kind.Run) limit inside (bytes_in result) }
{
    let contents = contents_made(alloc, n)?;
    let rows = contents.terms.rows() as u64;
    let desk = decided(alloc, contents, limit)?;
    let mut output = Vec::new(alloc);
    write_summary(&mut output, n, rows, &desk)?;
    Ok(output)
}

/// Input of so many names, or a summary of publishing it.
pub fn make(alloc: Global, n: u32, kind: Kind, limit: u64) -> Result<Vec<u8>, Status>
    requires number { n ≤ 20000 }
    requires limit { IsStepLimit limit }
    ensures { (inside : files) → IsOutput (Task.Made n kind) limit inside (bytes_in result) }
{
    match kind {
        Kind::Terms => Ok(terms_text(alloc, n)?),
        Kind::Store => Ok(store_text(alloc, n)?),
        Kind::Candidates => Ok(candidates_text(alloc, n)?),
        Kind::Run => run(alloc, n, limit),
    }
}
