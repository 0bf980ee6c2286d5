//! The report of a journal.

ghost use Rattle.std.specs.Prelude.{◌≡◌, ◌++◌, OnOk, OnErr};
ghost use Rattle.std.specs.Fmt.{signed_decimal};
ghost use Rattle.loda_syntax.specs.Answers.{AddsFront};
ghost use Rattle.loda_semantics.specs.Faults.{fault_text};
ghost use Rattle.text_parts.specs.Names.{name_text};
ghost use Rattle.publish_desk.specs.Report.{got_text, broken_text, costlier_text, answer_text, finding_text, entry_text, entries_text, end_text, report};

use crate::desk::Desk;
use crate::entry::Entry;
use checked_numbers::{Num, write_num};
use evidence::Finding;
use judge::{Answer, Got};
use loda_semantics::{FaultKind, OUT_OF_STEPS};
use loda_syntax::print;
use program_store::print_store;
use std::alloc::AllocError;
use text_parts::{name_text, write_counted};

// Adds the word of a fault.
fn write_word(out: &mut Vec<u8>, kind: FaultKind) -> Result<(), AllocError>
    ensures { OnOk result (out.new.items ≡ out.old.items ++ fault_text kind) }
{
    out.extend_from_slice(kind.word().as_bytes())
}

// Adds a value, or the word of what came in its place.
fn write_got(out: &mut Vec<u8>, got: Got) -> Result<(), AllocError>
    ensures { OnOk result (out.new.items ≡ out.old.items ++ got_text got) }
{
    match got {
        Got::Value(value) => write_num(out, value),
        Got::Overflow => write_word(out, FaultKind::Overflow),
        Got::DivideByZero => write_word(out, FaultKind::DivideByZero),
        Got::BadCell => write_word(out, FaultKind::BadCell),
        Got::Missing => write_word(out, FaultKind::Missing),
        Got::OutOfSteps => out.extend_from_slice(OUT_OF_STEPS.as_bytes()),
    }
}

// Adds a word and a number, as `costlier -1`.
fn write_valued(out: &mut Vec<u8>, word: &[u8], value: Num) -> Result<(), AllocError>
    ensures { OnOk result (out.new.items ≡ out.old.items ++ (word.now ++ signed_decimal value)) }
{
    out.extend_from_slice(word)?;
    write_num(out, value)
}

// Adds a word and a name, as `cycle A000290`.
fn write_named(out: &mut Vec<u8>, word: &[u8], name: u32) -> Result<(), AllocError>
    ensures { OnOk result (out.new.items ≡ out.old.items ++ (word.now ++ name_text name)) }
{
    out.extend_from_slice(word)?;
    out.extend_from_slice(&name_text(name))
}

// Adds a word and what came in the place of a value, as ` got missing`.
fn write_gotten(out: &mut Vec<u8>, word: &[u8], got: Got) -> Result<(), AllocError>
    ensures { OnOk result (out.new.items ≡ out.old.items ++ (word.now ++ got_text got)) }
{
    out.extend_from_slice(word)?;
    write_got(out, got)
}

// Adds the demanded argument that is no longer answered, the least caller, and the two outcomes.
fn write_broken(
    out: &mut Vec<u8>,
    at: Num,
    caller: u32,
    index: u32,
    was: Num,
    now: Got,
) -> Result<(), AllocError>
    ensures { OnOk result (out.new.items ≡ out.old.items ++ broken_text at caller index was now) }
{
    write_valued(out, b"broken ", at)?;
    write_named(out, b" caller ", caller)?;
    write_counted(out, b" index ", u64::from(index))?;
    write_valued(out, b" was ", was)?;
    write_gotten(out, b" now ", now)
}

// Adds the argument that takes more steps, and the two numbers of steps.
fn write_costlier(out: &mut Vec<u8>, at: Num, was: u64, now: u64) -> Result<(), AllocError>
    ensures { OnOk result (out.new.items ≡ out.old.items ++ costlier_text at was now) }
{
    write_valued(out, b"costlier ", at)?;
    write_counted(out, b" was ", was)?;
    write_counted(out, b" now ", now)
}

// Adds the words of an answer.
#[tactic(auto, unfolding(crate::specs::Report::answer_text))]
fn write_answer(out: &mut Vec<u8>, answer: Answer) -> Result<(), AllocError>
    ensures { OnOk result (out.new.items ≡ out.old.items ++ answer_text answer) }
{
    match answer {
        Answer::Accepted { checked } => write_counted(out, b"accepted ", u64::from(checked)),
        Answer::Unlisted => out.extend_from_slice(b"unlisted"),
        Answer::Cycle { through } => write_named(out, b"cycle ", through),
        Answer::WrongTerm { index, got } => {
            write_counted(out, b"wrong ", u64::from(index))?;
            write_gotten(out, b" got ", got)
        }
        Answer::BrokenDependant {
            at,
            caller,
            index,
            was,
            now,
        } => write_broken(out, at, caller, index, was, now),
        Answer::Costlier { at, was, now } => write_costlier(out, at, was, now),
        Answer::NoGain => out.extend_from_slice(b"no-gain"),
    }
}

// Adds what was found: nothing, or the proposal's name, its answer, and its program.
#[tactic(auto, unfolding(crate::specs::Report::finding_text))]
fn write_finding(out: &mut Vec<u8>, finding: &Finding) -> Result<(), AllocError>
    ensures { OnOk result (out.new.items ≡ out.old.items ++ finding_text finding.now) }
{
    match finding {
        Finding::Nothing => out.extend_from_slice(b"none\n"),
        Finding::Judged { proposal, answer } => {
            out.extend_from_slice(&name_text(proposal.name))?;
            out.extend_from_slice(b" ")?;
            write_answer(out, *answer)?;
            out.extend_from_slice(b"\n")?;
            print(&proposal.program, out)
        }
    }
}

// Adds an entry's line, and the program that was proposed.
#[tactic(auto, unfolding(crate::specs::Report::entry_text))]
fn write_entry(out: &mut Vec<u8>, entry: &Entry) -> Result<(), AllocError>
    ensures { OnOk result (out.new.items ≡ out.old.items ++ entry_text entry.now) }
{
    write_counted(out, b"job ", entry.job)?;
    write_counted(out, b" base ", entry.base)?;
    out.extend_from_slice(b" ")?;
    write_finding(out, &entry.finding)
}

// Adds the entries in the order in which they came, each whole.
fn write_entries(out: &mut Vec<u8>, entries: &[Entry]) -> Result<(), AllocError>
    ensures ok { OnOk result (out.new.items ≡ out.old.items ++ entries_text entries.now) }
    ensures err { OnErr result (AddsFront out.old.items out.new.items (entries_text entries.now)) }
{
    let mut text = Vec::new(*out.allocator());
    for entry in entries {
        text.clear();
        write_entry(&mut text, entry)?;
        out.extend_from_slice(&text)?;
    }
    Ok(())
}

// Adds the last line whole: the numbers of entries and of accepted ones.
fn write_end(out: &mut Vec<u8>, jobs: u64, version: u64) -> Result<(), AllocError>
    ensures ok { OnOk result (out.new.items ≡ out.old.items ++ end_text jobs version) }
    ensures err { OnErr result (out.new.items ≡ out.old.items) }
{
    let mut line = Vec::new(*out.allocator());
    write_counted(&mut line, b"end jobs ", jobs)?;
    write_counted(&mut line, b" version ", version)?;
    line.extend_from_slice(b"\n")?;
    out.extend_from_slice(&line)
}

/// Adds the report of a desk: its entries in the order in which they came, its store, and the numbers of entries and of
/// accepted ones. After want of memory `out` has its old bytes and a first part of the report.
#[tactic(auto, unfolding(crate::specs::Report::report))]
pub fn write_report(desk: &Desk, out: &mut Vec<u8>) -> Result<(), AllocError>
    ensures ok { OnOk result (out.new.items ≡ out.old.items ++ report desk.now.journal desk.now.version desk.now.store) }
    ensures err { OnErr result (AddsFront out.old.items out.new.items (report desk.now.journal desk.now.version desk.now.store)) }
{
    out.extend_from_slice(b"journal\n")?;
    write_entries(out, desk.entries())?;
    out.extend_from_slice(b"store\n")?;
    print_store(desk.tables(), out)?;
    write_end(out, desk.entries().len() as u64, desk.version())
}
