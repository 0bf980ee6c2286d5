//! Deep stores, files that are too long, and files of random bytes.

ghost use Rattle.std.specs.Prelude.{None};

use super::{call, file, ran, sink_of, words_of};
use crate::status::Status;
use loda_io::{Failed, File, HonestShelf, Shelf};
use loda_syntax::SyntaxKind;
use program_store::StoreKind;
use std::alloc::{AllocError, Global};
use std::fmt::Write;
use std::process::Abort;
use std::sync::Wait;
use std::test::Fail;
use std::thread::Threads;
use word_stream::job_draws;

// A store in which A000001 adds 1, and each name from 2 to 20,000 calls the one before it.
fn chain(alloc: Global) -> Result<String, AllocError> {
    let mut text = String::from_str(alloc, "= A000001 8\nadd $0,1\n")?;
    for callee in 1u32..20_000 {
        let name = callee + 1;
        write!(text, "= A{name:06} 8\nseq $0,{callee}\n")?;
    }
    Ok(text)
}

// deep-chain and chain-without-rows
static CHAINS: [(&str, &str, &str); 3] = [
    (
        "eval store=s name=A020000 arg=5 steps=20000",
        "0 done",
        "value 6 steps 20000\n",
    ),
    (
        "eval store=s name=A020000 arg=5 steps=19999",
        "0 done",
        "out-of-steps\n",
    ),
    (
        "check terms=t store=s",
        "10 unsound: A000002 has no row",
        "",
    ),
];

#[test]
fn deep_chains(rt: HostRuntime) -> Result<(), Fail> {
    let alloc = rt.alloc();
    let text = chain(alloc)?;
    let mut files = Vec::new(alloc);
    files.push(file(alloc, "s", text.as_str())?)?;
    files.push(file(alloc, "t", "A000001 ,1,2,3,4,5,6,7,8,\n")?)?;
    let mut shelf = HonestShelf::new(files);
    for &(words, ending, output) in &CHAINS {
        let (told, sink) = ran(&rt, alloc, words, &mut shelf)?;
        assert_eq!(rt; told.as_str(), ending);
        assert_eq!(rt; sink.bytes(), output.as_bytes());
    }
    Ok(())
}

// long-line, in each file
#[test]
fn long_lines(rt: HostRuntime) -> Result<(), Fail> {
    let alloc = rt.alloc();
    for (words, len, ending) in [
        ("check terms=l store=-", 65_537, "6 terms line 1 too long"),
        ("check terms=l store=-", 65_536, "0 done"),
        ("check terms=t store=l", 65_537, "6 store line 1 too long"),
        (
            "publish terms=t store=- cands=l",
            65_537,
            "6 candidates line 1 too long",
        ),
    ] {
        let mut bytes = vec![in alloc; b'#'; len]?;
        bytes.push(b'\n')?;
        let mut files = Vec::new(alloc);
        files.push(File::of(String::from_str(alloc, "l")?, bytes))?;
        let (told, _) = ran(&rt, alloc, words, &mut HonestShelf::new(files))?;
        assert_eq!(rt; told.as_str(), ending, "{words}");
    }
    Ok(())
}

// Line feeds without end.
#[derive(Drop)]
struct Endless;

impl Shelf for Endless {
    ghost known = { λ s. record { bytes = λ name. None; faults = λ name. 0 } };

    fn read(&mut self, _name: &str, _at: u64, buf: &mut [u8]) -> Result<usize, Failed> {
        buf.fill(b'\n');
        Ok(buf.len())
    }
}

// endless-lines
#[test]
fn endless_lines(rt: HostRuntime) -> Result<(), Fail> {
    let (told, sink) = ran(&rt, rt.alloc(), "check terms=t store=-", &mut Endless)?;
    assert_eq!(rt; told.as_str(), "5 terms too large at byte 268435457");
    assert_eq!(rt; sink.bytes().len(), 0);
    Ok(())
}

// The words that have the file `f` read, those that make one that is in its grammar, and what then stands behind it.
static READERS: [(&str, &str, &str); 4] = [
    ("check terms=f store=-", "made n=150 kind=terms", ""),
    (
        "eval store=f name=A999999 arg=0",
        "made n=150 kind=store",
        "",
    ),
    (
        "publish terms=t store=- cands=f",
        "made n=75 kind=cands",
        "",
    ),
    (
        "publish terms=t store=- cands=f",
        "",
        "? A000290
mov $1,-1 ; one less
lpb $0,2
\tadd $$1,170141183460469231731687303715884105727
  lpb $3
    seq $2,290\r
    clr $4,2
  lpe

lpe
",
    ),
];

// At least 4,096 bytes of a file in the grammar of a reader.
fn whole_file<R: Threads + Wait + Sync>(
    rt: &R,
    alloc: Global,
    words: &str,
    more: &str,
) -> Result<Vec<u8>, AllocError> {
    let (_, made) = ran(rt, alloc, words, &mut HonestShelf::new(Vec::new(alloc)))?;
    let mut bytes = Vec::from_slice(alloc, made.bytes())?;
    for _ in 0..64 {
        bytes.extend_from_slice(more.as_bytes())?;
    }
    Ok(bytes)
}

// A file of 1 to 4,096 bytes: any bytes in one of two, and else the first bytes of a file, one of them changed.
fn random_file(alloc: Global, whole: &[u8], job: u64) -> Result<Vec<u8>, AllocError> {
    let mut draws = job_draws(7, job);
    let size = draws.below(4_096) + 1;
    let mut bytes = Vec::from_slice(alloc, whole)?;
    bytes.truncate(size as usize);
    if draws.below(2) == 0 {
        for byte in bytes.iter_mut() {
            *byte = draws.below(256) as u8;
        }
    } else if let Some(byte) = bytes.get_mut(draws.below(size) as usize) {
        *byte = draws.below(256) as u8;
    }
    Ok(bytes)
}

// The first lines of a file.
fn first_lines(bytes: &[u8], lines: u64) -> &[u8] {
    let mut left = lines;
    for at in 0..bytes.len() {
        if left == 0 {
            return &bytes[..at];
        }
        if bytes[at] == b'\n' {
            left -= 1;
        }
    }
    bytes
}

// How the words end over a file `f`.
fn status_of<R: Threads + Wait + Sync>(
    rt: &R,
    alloc: Global,
    words: &[String],
    bytes: &[u8],
) -> Result<Status, AllocError> {
    let mut files = Vec::new(alloc);
    files.push(File::of(
        String::from_str(alloc, "f")?,
        Vec::from_slice(alloc, bytes)?,
    ))?;
    let mut sink = sink_of(alloc, 100_000, &[], &[])?;
    let mut shelf = HonestShelf::new(files);
    Ok(call(rt, alloc, false, words, &mut shelf, &mut sink))
}

// Whether the file was read, but for a loop that is not ended.
fn is_read(status: Status) -> bool {
    matches!(
        status,
        Status::Done
            | Status::Absent { .. }
            | Status::BadStore {
                kind: StoreKind::Syntax(SyntaxKind::LoopOpen),
                ..
            }
            | Status::BadCandidates {
                kind: StoreKind::Syntax(SyntaxKind::LoopOpen),
                ..
            }
    )
}

// A file that is refused is refused at its first bad line: so are its lines up to that one, and those before it are read.
fn check_file<R: Threads + Wait + Abort + Sync>(
    rt: &R,
    alloc: Global,
    words: &[String],
    bytes: &[u8],
) -> Result<(), Fail> {
    let status = status_of(rt, alloc, words, bytes)?;
    match status {
        Status::BadTerms { line, kind: _ }
        | Status::BadStore { line, kind: _ }
        | Status::BadCandidates { line, kind: _ } => {
            let again = status_of(rt, alloc, words, first_lines(bytes, line))?;
            assert_eq!(rt; again, status);
            let before = first_lines(bytes, line.saturating_sub(1));
            assert!(rt; is_read(status_of(rt, alloc, words, before)?), "{status}");
        }
        _ => assert!(rt; is_read(status), "{status}"),
    }
    Ok(())
}

// Ten million bytes into each reader.
#[test]
fn random_bytes(rt: HostRuntime) -> Result<(), Fail> {
    let alloc = rt.alloc();
    for &(words, made, more) in &READERS {
        let whole = whole_file(&rt, alloc, made, more)?;
        let words = words_of(alloc, words)?;
        let mut total: usize = 0;
        for job in 0..5_000 {
            let bytes = random_file(alloc, &whole, job)?;
            check_file(&rt, alloc, &words, &bytes)?;
            total = total.saturating_add(bytes.len());
        }
        assert!(rt; 10_000_000 <= total, "{total}");
    }
    Ok(())
}
