//! Whole runs, from the words and the files to the status and the output.
//!
//! A table of runs is a text. A line `== ` and its name begins a run, and the next line has its words. Each part of it begins with
//! a line `-- ` and its heading: the name of a file, `reads`, or `ends` and how the run ends, under which stands what it writes.

mod checking;
mod evaluating;
mod failing;
mod hostile;
mod making;
mod mining;
mod publishing;
mod replacing;

use crate::is_mine;
use crate::run::{run_mine, run_plain};
use crate::status::Status;
use loda_io::{File, HonestShelf, MemoryShelf, MemorySink, Shelf, Sink};
use mine_workers::OpenGate;
use std::alloc::{AllocError, Global};
use std::process::Abort;
use std::sync::Wait;
use std::test::Fail;
use std::thread::Threads;

// A run: its name, its words, its files, the file of each read, how it ends, and what it writes.
#[derive(Drop)]
struct Case {
    name: String,
    words: Vec<String>,
    files: Vec<File>,
    reads: String,
    ending: String,
    output: String,
}

fn words_of(alloc: Global, text: &str) -> Result<Vec<String>, AllocError> {
    let mut words = Vec::new(alloc);
    for word in text.split_whitespace() {
        words.push(String::from_str(alloc, word)?)?;
    }
    Ok(words)
}

fn file(alloc: Global, name: &str, text: &str) -> Result<File, AllocError> {
    let name = String::from_str(alloc, name)?;
    let bytes = Vec::from_slice(alloc, text.as_bytes())?;
    Ok(File::of(name, bytes))
}

impl Case {
    // Takes in a part. Each line of its text has its end, but for the last one under a heading `without LF`.
    fn add(&mut self, alloc: Global, part: &str) -> Result<(), AllocError> {
        let (heading, lines) = part.split_once('\n').unwrap_or((part, ""));
        let mut text = String::from_str(alloc, lines)?;
        if heading.len() < part.len() && !heading.ends_with(" without LF") {
            text.push('\n')?;
        }
        if let Some(ending) = heading.strip_prefix("ends ") {
            self.ending = String::from_str(alloc, ending)?;
            self.output = text;
        } else if heading == "reads" {
            self.reads = text;
        } else {
            let name = heading.strip_suffix(" without LF").unwrap_or(heading);
            self.files.push(file(alloc, name, text.as_str())?)?;
        }
        Ok(())
    }

    // The run that stands in a table.
    fn read(alloc: Global, text: &str) -> Result<Case, AllocError> {
        let mut parts = text.split("\n-- ");
        let head = parts.next().unwrap_or("");
        let (name, words) = head.split_once('\n').unwrap_or((head, ""));
        let mut case = Case {
            name: String::from_str(alloc, name)?,
            words: words_of(alloc, words)?,
            files: Vec::new(alloc),
            reads: String::new(alloc),
            ending: String::new(alloc),
            output: String::new(alloc),
        };
        for part in parts {
            case.add(alloc, part)?;
        }
        Ok(case)
    }
}

// What one of the two top calls does with these words.
fn call<F: Shelf, K: Sink, R: Threads + Wait + Sync>(
    rt: &R,
    alloc: Global,
    mines: bool,
    words: &[String],
    shelf: &mut F,
    sink: &mut K,
) -> Status {
    if mines {
        run_mine(rt, alloc, words, shelf, sink, &OpenGate)
    } else {
        run_plain(alloc, words, shelf, sink)
    }
}

// A sink that takes so many bytes at a time, and of which the calls that are listed fail or take nothing.
fn sink_of(
    alloc: Global,
    take: usize,
    fail_at: &[u64],
    empty_at: &[u64],
) -> Result<MemorySink, AllocError> {
    MemorySink::new(
        alloc,
        100_000,
        take,
        Vec::from_slice(alloc, fail_at)?,
        Vec::from_slice(alloc, empty_at)?,
    )
}

// How a run over this shelf ends, in its number and its text, and what it writes.
fn ended<F: Shelf, R: Threads + Wait + Sync>(
    rt: &R,
    alloc: Global,
    words: &[String],
    shelf: &mut F,
    mut sink: MemorySink,
) -> Result<(String, MemorySink), AllocError> {
    let status = call(rt, alloc, is_mine(words), words, shelf, &mut sink);
    let number = status.number();
    Ok((format!(in alloc; "{number} {status}")?, sink))
}

// Runs a case whose read with this number fails, where it is reached, over a sink.
fn check<R: Threads + Wait + Abort + Sync>(
    rt: &R,
    alloc: Global,
    text: &str,
    fail_at: u64,
    sink: MemorySink,
    ending: &str,
    output: &[u8],
) -> Result<(), Fail> {
    let case = Case::read(alloc, text)?;
    let mut shelf = MemoryShelf::new(case.files, Vec::from_slice(alloc, &[fail_at])?);
    let (told, sink) = ended(rt, alloc, &case.words, &mut shelf, sink)?;
    assert_eq!(rt; told.as_str(), ending, "{}", case.name);
    assert!(rt; sink.bytes() == output, "{}", case.name);
    Ok(())
}

// Runs each case of a table.
fn check_table<R: Threads + Wait + Abort + Sync>(
    rt: &R,
    alloc: Global,
    table: &str,
) -> Result<(), Fail> {
    for text in table.trim_end_matches('\n').split("\n== ").skip(1) {
        let case = Case::read(alloc, text)?;
        let sink = sink_of(alloc, 100_000, &[], &[])?;
        let output = case.output.as_bytes();
        check(
            rt,
            alloc,
            text,
            u64::MAX,
            sink,
            case.ending.as_str(),
            output,
        )?;
    }
    Ok(())
}

#[test]
fn publishes_new_names(rt: HostRuntime) -> Result<(), Fail> {
    check_table(&rt, rt.alloc(), publishing::NEW_NAMES)
}

#[test]
fn judges_replacements(rt: HostRuntime) -> Result<(), Fail> {
    check_table(&rt, rt.alloc(), replacing::REPLACEMENTS)
}

#[test]
fn evaluates(rt: HostRuntime) -> Result<(), Fail> {
    check_table(&rt, rt.alloc(), evaluating::EVALUATIONS)
}

#[test]
fn checks(rt: HostRuntime) -> Result<(), Fail> {
    check_table(&rt, rt.alloc(), checking::CHECKS)
}

#[test]
fn makes_input(rt: HostRuntime) -> Result<(), Fail> {
    check_table(&rt, rt.alloc(), making::MADE)
}

#[test]
fn mines(rt: HostRuntime) -> Result<(), Fail> {
    check_table(&rt, rt.alloc(), mining::MINED)
}

// Fails each read of a case, and then the one past the last.
fn check_reads<R: Threads + Wait + Abort + Sync>(
    rt: &R,
    alloc: Global,
    text: &str,
) -> Result<(), Fail> {
    let case = Case::read(alloc, text)?;
    let mut call: u64 = 0;
    for file in case.reads.as_str().split_whitespace() {
        let ending = format!(in alloc; "3 cannot read {file}")?;
        let sink = sink_of(alloc, 100_000, &[], &[])?;
        check(rt, alloc, text, call, sink, ending.as_str(), &[])?;
        call = call.saturating_add(1);
    }
    let sink = sink_of(alloc, 100_000, &[], &[])?;
    let output = case.output.as_bytes();
    check(rt, alloc, text, call, sink, case.ending.as_str(), output)
}

#[test]
fn each_read_fails(rt: HostRuntime) -> Result<(), Fail> {
    for text in failing::ENDS.trim_end_matches('\n').split("\n== ").skip(1) {
        check_reads(&rt, rt.alloc(), text)?;
    }
    Ok(())
}

// Fails each write of a case, lets each take nothing, and then does both to the one past the last. A sink takes at least 16
// bytes at a time, and all of them in at most nine writes.
fn check_writes<R: Threads + Wait + Abort + Sync>(
    rt: &R,
    alloc: Global,
    text: &str,
) -> Result<(), Fail> {
    let case = Case::read(alloc, text)?;
    let output = case.output.as_bytes();
    let take = (output.len() / 8).max(16);
    let mut call: u64 = 0;
    let mut start: usize = 0;
    for piece in output.chunks(take) {
        let written = output.get(..start).unwrap_or(&[]);
        let failing = sink_of(alloc, take, &[call], &[])?;
        check(
            rt,
            alloc,
            text,
            u64::MAX,
            failing,
            "4 cannot write",
            written,
        )?;
        let full = sink_of(alloc, take, &[], &[call])?;
        check(rt, alloc, text, u64::MAX, full, "4 cannot write", written)?;
        start = start.saturating_add(piece.len());
        call = call.saturating_add(1);
    }
    let past = sink_of(alloc, take, &[call], &[call])?;
    check(
        rt,
        alloc,
        text,
        u64::MAX,
        past,
        case.ending.as_str(),
        output,
    )
}

#[test]
fn each_write_fails(rt: HostRuntime) -> Result<(), Fail> {
    for text in failing::ENDS.trim_end_matches('\n').split("\n== ").skip(1) {
        check_writes(&rt, rt.alloc(), text)?;
    }
    Ok(())
}

// Words of each top call, given to the other one.
static WORDS_OF_THE_OTHER: [(bool, &str); 2] = [
    (false, "mine terms=t store=- seed=1 jobs=1 workers=1"),
    (true, "publish terms=t store=- cands=c"),
];

#[test]
fn refuses_words_of_the_other(rt: HostRuntime) -> Result<(), Fail> {
    let alloc = rt.alloc();
    for &(mines, words) in &WORDS_OF_THE_OTHER {
        let words = words_of(alloc, words)?;
        let mut shelf = HonestShelf::new(Vec::new(alloc));
        let mut sink = sink_of(alloc, 100, &[], &[])?;
        let status = call(&rt, alloc, mines, &words, &mut shelf, &mut sink);
        assert_eq!(rt; status, Status::Usage);
        assert_eq!(rt; sink.bytes().len(), 0);
    }
    Ok(())
}

// How a run over this shelf ends, and what it writes.
fn ran<F: Shelf, R: Threads + Wait + Sync>(
    rt: &R,
    alloc: Global,
    words: &str,
    shelf: &mut F,
) -> Result<(String, MemorySink), AllocError> {
    let words = words_of(alloc, words)?;
    let sink = sink_of(alloc, 100_000, &[], &[])?;
    ended(rt, alloc, &words, shelf, sink)
}

static MADE_FILES: [(&str, &str); 2] = [("t", "made n=3 kind=terms"), ("c", "made n=3 kind=cands")];

#[test]
fn made_input_is_published(rt: HostRuntime) -> Result<(), Fail> {
    let alloc = rt.alloc();
    let mut files = Vec::new(alloc);
    for &(name, words) in &MADE_FILES {
        let mut shelf = HonestShelf::new(Vec::new(alloc));
        let (_, made) = ran(&rt, alloc, words, &mut shelf)?;
        let bytes = Vec::from_slice(alloc, made.bytes())?;
        files.push(File::of(String::from_str(alloc, name)?, bytes))?;
    }
    let mut shelf = HonestShelf::new(files);
    let (_, report) = ran(&rt, alloc, "publish terms=t store=- cands=c", &mut shelf)?;
    assert_eq!(rt; report.bytes(), making::MADE_REPORT.as_bytes());
    Ok(())
}

// How often a text stands in a report.
fn times(report: &[u8], text: &[u8]) -> u64 {
    let mut count: u64 = 0;
    for place in 0..report.len() {
        if report[place..].starts_with(text) {
            count = count.saturating_add(1);
        }
    }
    count
}

// mined, with one worker and with more
#[test]
fn mines_each_job_once(rt: HostRuntime) -> Result<(), Fail> {
    let alloc = rt.alloc();
    for workers in [1u32, 4] {
        let words = format!(in alloc; "mine terms=t store=- seed=7 jobs=50 workers={workers}")?;
        let mut files = Vec::new(alloc);
        files.push(file(alloc, "t", mining::BOTH)?)?;
        let mut shelf = HonestShelf::new(files);
        let (ending, sink) = ran(&rt, alloc, words.as_str(), &mut shelf)?;
        assert_eq!(rt; ending.as_str(), "0 done");
        assert_eq!(rt; times(sink.bytes(), b"\njob "), 50);
        for job in 0u64..50 {
            let start = format!(in alloc; "\njob {job} base ")?;
            assert_eq!(rt; times(sink.bytes(), start.as_bytes()), 1);
        }
        assert_eq!(rt; times(sink.bytes(), b"\nend jobs 50 version "), 1);
    }
    Ok(())
}
