//! Store and candidates files.

ghost use Rattle.std.specs.Prelude.{◌≡◌, ◌+◌, ◌<◌, ◌≤◌, ◌^◌, length, IfOk};
ghost use Rattle.loda_io.specs.Shelf.{OnlyRead};
ghost use Rattle.text_parts.specs.Names.{IsName};
ghost use Rattle.program_store.specs.Files.{program_read, entry_fault, entry_read, proposal_read, store_read, candidates_read};
ghost use Rattle.program_store.specs.Answers.{ReadsAs, FileAnswers};

use crate::candidates::{Candidates, MOST_JOBS};
use crate::errors::{StoreError, StoreKind};
use crate::headers::{candidate_header_of, store_header_of};
use crate::published::{Proposal, Published};
use crate::sections::{Cursor, Section};
use crate::store::Store;
use loda_io::{Shelf, read_file};
use loda_syntax::{ParseError, Program, parse};
use std::alloc::Global;

const STORE_SIGN: u8 = b'=';

const CANDIDATES_SIGN: u8 = b'?';

const LEAST_COUNT: u32 = 8;

const GREATEST_COUNT: u32 = 32_768;

/// The store of a store file's bytes. `Bad` comes exactly where the bytes are no store file, with the first fault: its kind
/// and its line in the file.
pub fn parse_store(alloc: Global, bytes: &[u8]) -> Result<Store, StoreError>
    ensures { ReadsAs result (store_read bytes.now) }
{
    let mut file = Cursor::new(STORE_SIGN, bytes);
    if let Some(line) = file.first_text() {
        return Err(bad(line, StoreKind::BadHeader));
    }
    let mut store = Store::empty(alloc);
    let mut last = 0;
    while let Some(section) = file.next_section() {
        let (name, published) = entry_of(alloc, last, section)?;
        let Ok(_) = store.put(name, published) else {
            return Err(StoreError::Memory);
        };
        last = name;
    }
    Ok(store)
}

/// The proposals of a candidates file's bytes. `Bad` comes exactly where the bytes are no candidates file, with the first
/// fault: its kind and its line in the file.
pub fn parse_candidates(alloc: Global, bytes: &[u8]) -> Result<Candidates, StoreError>
    ensures { ReadsAs result (candidates_read bytes.now) }
{
    let mut file = Cursor::new(CANDIDATES_SIGN, bytes);
    if let Some(line) = file.first_text() {
        return Err(bad(line, StoreKind::BadHeader));
    }
    let mut candidates = Candidates::empty(alloc);
    while let Some(section) = file.next_section() {
        let proposal = proposal_of(alloc, candidates.len(), section)?;
        candidates.push(proposal)?;
    }
    Ok(candidates)
}

/// Reads a store file whole, and then parses it.
pub fn read_store<F: Shelf>(alloc: Global, shelf: &mut F, name: &str) -> Result<Store, StoreError>
    ensures kept { OnlyRead (F.known shelf.old) (F.known shelf.new) }
    ensures answer { FileAnswers store_read (F.known shelf.old) (F.known shelf.new) name.now result }
{
    let bytes = read_file(alloc, shelf, name)?;
    parse_store(alloc, &bytes)
}

/// Reads a candidates file whole, and then parses it.
pub fn read_candidates<F: Shelf>(
    alloc: Global,
    shelf: &mut F,
    name: &str,
) -> Result<Candidates, StoreError>
    ensures kept { OnlyRead (F.known shelf.old) (F.known shelf.new) }
    ensures answer { FileAnswers candidates_read (F.known shelf.old) (F.known shelf.new) name.now result }
{
    let bytes = read_file(alloc, shelf, name)?;
    parse_candidates(alloc, &bytes)
}

fn bad(line: u64, kind: StoreKind) -> StoreError
    ensures { result ≡ StoreError.Bad line kind }
{
    StoreError::Bad { line, kind }
}

// The entry of a section of a store file, behind the section of the name `last`, which is 0 before the first.
#[tactic(auto, unfolding(crate::specs::Files::entry_read))]
fn entry_of(alloc: Global, last: u32, section: Section<'_>) -> Result<(u32, Published), StoreError>
    requires { section.line + length section.text.now + 1 < 2 ^ 64 }
    ensures value { ReadsAs result (entry_read last (record { line = section.entry.line; header = section.entry.header.now; text = section.entry.text.now })) }
    ensures named { IfOk result (λ entry. IsName entry.0) }
{
    let Some((name, checked)) = store_header_of(section.header) else {
        return Err(bad(section.line, StoreKind::BadHeader));
    };
    if let Some(kind) = entry_fault(last, name, checked) {
        return Err(bad(section.line, kind));
    }
    let program = program_of(alloc, section)?;
    Ok((name, Published { program, checked }))
}

// What is wrong with a header's name and count, behind the section of the name `last`.
fn entry_fault(last: u32, name: u32, checked: u32) -> Option<StoreKind>
    ensures { result ≡ entry_fault last name checked }
{
    if name == last {
        return Some(StoreKind::Repeated);
    }
    if name < last {
        return Some(StoreKind::OutOfOrder);
    }
    if checked < LEAST_COUNT || GREATEST_COUNT < checked {
        return Some(StoreKind::BadCount);
    }
    None
}

// The proposal of a section of a candidates file, behind so many sections.
#[tactic(auto, unfolding(crate::specs::Files::proposal_read))]
fn proposal_of(alloc: Global, before: u64, section: Section<'_>) -> Result<Proposal, StoreError>
    requires before { before ≤ MOST_JOBS }
    requires fits { section.line + length section.text.now + 1 < 2 ^ 64 }
    ensures value { ReadsAs result (proposal_read (before + 1) (record { line = section.entry.line; header = section.entry.header.now; text = section.entry.text.now })) }
    ensures named { IfOk result (λ proposal. IsName proposal.name) }
    ensures few { IfOk result (λ proposal. before < MOST_JOBS) }
{
    let Some(name) = candidate_header_of(section.header) else {
        return Err(bad(section.line, StoreKind::BadHeader));
    };
    if before == MOST_JOBS {
        return Err(bad(section.line, StoreKind::TooMany));
    }
    let program = program_of(alloc, section)?;
    Ok(Proposal { name, program })
}

// The program of a section's text.
#[tactic(auto, unfolding(crate::specs::Files::program_read))]
fn program_of(alloc: Global, section: Section<'_>) -> Result<Program, StoreError>
    requires { section.line + length section.text.now + 1 < 2 ^ 64 }
    ensures { ReadsAs result (program_read (record { line = section.entry.line; header = section.entry.header.now; text = section.entry.text.now })) }
{
    match parse(alloc, section.text) {
        Ok(program) => Ok(program),
        Err(ParseError::Syntax { line, kind }) => {
            Err(bad(section.line + line, StoreKind::Syntax(kind)))
        }
        Err(ParseError::Memory) => Err(StoreError::Memory),
    }
}
