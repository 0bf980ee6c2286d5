//! Shortlists over small tables.

ghost use Rattle.std.specs.Prelude.{◌≡◌, ◌<◌, IfOk};
ghost use Rattle.oeis_terms.specs.Table.{IsBounded};

use crate::choosing::{proposals_of, shortlist};
use crate::making::candidate;
use loda_io::{File, MemoryShelf};
use loda_syntax::{Program, parse, print};
use oeis_terms::{TermTable, read_terms};
use program_store::{Proposal, Store, parse_store};
use seq_calls::Steps;
use std::alloc::{AllocError, Global};
use std::marker::Brand;
use std::sync::ledger::{Blank, Ledger};
use std::test::Fail;
use term_index::Index;
use word_stream::{Draws, Listed};

const SQUARE: &str = "= A000290 10\nmul $0,$0\n";

/// Words, a store, and the program that is made.
struct Drawn {
    words: &'static [u32],
    store: &'static str,
    text: &'static str,
}

static DRAWN: [Drawn; 4] = [
    Drawn {
        words: &[0, 1, 0, 1, 4, 5, 3, 0, 1],
        store: "",
        text: "mov $1,3\nmul $0,$1\n",
    },
    // no program can be changed where none is published
    Drawn {
        words: &[1, 1, 0, 1, 4, 5, 3, 0, 1],
        store: "",
        text: "mov $1,3\nmul $0,$1\n",
    },
    Drawn {
        words: &[0, 1, 0, 1, 4, 5, 3, 0, 1],
        store: SQUARE,
        text: "mov $1,3\nmul $0,$1\n",
    },
    Drawn {
        words: &[1, 0, 0, 1, 1, 1, 0, 4, 3],
        store: SQUARE,
        text: "mul $0,$0\nadd $0,1\n",
    },
];

/// A program, the terms, the limit of steps, and the proposals: names and texts.
struct Row {
    text: &'static str,
    terms: &'static str,
    limit: u64,
    proposals: &'static [(u32, &'static str)],
}

static ROWS: [Row; 7] = [
    Row {
        text: "mov $1,3\nmul $0,$1\n",
        terms: "A016789 ,2,5,8,11,14,17,20,23,\n",
        limit: 100,
        proposals: &[(16789, "mov $1,3\nmul $0,$1\nadd $0,2\n")],
    },
    // a run has no value
    Row {
        text: "div $1,0\n",
        terms: "A001477 ,0,1,2,3,4,5,6,7,\n",
        limit: 100,
        proposals: &[],
    },
    // the differences match too, but no program with an indirect cell is composed with itself
    Row {
        text: "mov $0,$$1\n",
        terms: "A000012 ,1,1,1,1,1,1,1,1,\nA001477 ,0,1,2,3,4,5,6,7,\n",
        limit: 100,
        proposals: &[(1477, "")],
    },
    // ten terms are given, and the ninth tells the programs apart
    Row {
        text: "min $0,8\nadd $0,1\n",
        terms: "A000027 ,1,2,3,4,5,6,7,8,9,9,\n",
        limit: 100,
        proposals: &[(27, "min $0,8\nadd $0,1\n")],
    },
    Row {
        text: "min $0,8\nadd $0,1\n",
        terms: "A000027 ,1,2,3,4,5,6,7,8,\n",
        limit: 100,
        proposals: &[(27, "add $0,1\n")],
    },
    // a term that is not given ends those at which the program is minimised
    Row {
        text: "min $0,8\nadd $0,1\n",
        terms: "A000027 ,1,2,3,4,5,6,7,8,10,9,\n",
        limit: 100,
        proposals: &[(27, "add $0,1\n")],
    },
    // the composed program has too few steps, so it stays as it is
    Row {
        text: "mov $1,0\nadd $0,1\n",
        terms: "A020725 ,2,3,4,5,6,7,8,9,\n",
        limit: 2,
        proposals: &[(20725, "mov $1,0\nadd $0,1\nadd $0,1\n")],
    },
];

// The programs that a run of jobs published.
const PUBLISHED: &str =
    "= A000004 10\nmov $0,$1\n= A000012 10\nmov $4,$0\nadd $0,1\nsub $0,$4\n= A000027 10\nadd $0,1\n= A001477 10\n";

fn table_of(alloc: Global, text: &str) -> Result<TermTable, Fail>
    ensures { IfOk result (λ table. IsBounded table) }
{
    let mut files = Vec::new(alloc);
    let bytes = Vec::from_slice(alloc, text.as_bytes())?;
    files.push(File::of(String::from_str(alloc, "t")?, bytes))?;
    let mut shelf = MemoryShelf::new(files, Vec::new(alloc));
    let table = read_terms(alloc, &mut shelf, "t")?;
    Ok(table)
}

fn same_proposals(
    alloc: Global,
    list: &[Proposal],
    want: &[(u32, &'static str)],
) -> Result<bool, AllocError> {
    if list.len() != want.len() {
        return Ok(false);
    }
    for (proposal, (name, text)) in list.iter().zip(want) {
        let mut printed = Vec::new(alloc);
        print(&proposal.program, &mut printed)?;
        if proposal.name != *name || printed.as_slice() != text.as_bytes() {
            return Ok(false);
        }
    }
    Ok(true)
}

#[test]
fn made_programs(rt: HostRuntime) -> Result<(), Fail> {
    let alloc = rt.alloc();
    for row in &DRAWN {
        let store = parse_store(alloc, row.store.as_bytes())?;
        let mut draws = Draws::new(Listed::new(row.words.to_vec(alloc)?));
        let made = candidate(alloc, &store, &mut draws)?;
        let want = parse(alloc, row.text.as_bytes())?;
        assert!(rt; made.same(&want), "{made:?}");
    }
    Ok(())
}

fn proposed<L: Ledger>(
    alloc: Global,
    blank: Blank,
    terms: &TermTable,
    index: &Index,
    program: &Program,
    limit: u64,
) -> Result<Vec<Proposal>, AllocError>
    requires bounded { IsBounded terms.now }
    requires index { index.now ≡ terms.now }
    requires name { blank.name ≡ L.name }
    requires parts { blank.parts ≡ L.parts }
    requires some { 0 < L.parts }
{
    let (book, share) = blank.open::<L>();
    let mut steps = Steps::start(book, share);
    let store = Store::empty(alloc);
    proposals_of(alloc, &store, terms, index, program, limit, &mut steps)
}

// The proposals that are made of a program where nothing is published.
fn proposals_in(
    alloc: Global,
    terms: &TermTable,
    program: &Program,
    limit: u64,
) -> Result<Vec<Proposal>, AllocError>
    requires { IsBounded terms.now }
{
    let index = Index::build(alloc, terms)?;
    proposed::<Brand>(alloc, Blank::new(1), terms, &index, program, limit)
}

#[test]
fn proposals(rt: HostRuntime) -> Result<(), Fail> {
    let alloc = rt.alloc();
    for row in &ROWS {
        let terms = table_of(alloc, row.terms)?;
        let program = parse(alloc, row.text.as_bytes())?;
        let list = proposals_in(alloc, &terms, &program, row.limit)?;
        assert!(rt;
            same_proposals(alloc, &list, row.proposals)?,
            "{list:?} of {}",
            row.text
        );
    }
    Ok(())
}

fn listed<L: Ledger>(
    alloc: Global,
    blank: Blank,
    store: &Store,
    terms: &TermTable,
    index: &Index,
    job: u64,
) -> Result<Vec<Proposal>, AllocError>
    requires bounded { IsBounded terms.now }
    requires index { index.now ≡ terms.now }
    requires name { blank.name ≡ L.name }
    requires parts { blank.parts ≡ L.parts }
    requires some { 0 < L.parts }
{
    let (book, share) = blank.open::<L>();
    let mut steps = Steps::start(book, share);
    shortlist(alloc, store, terms, index, 1, job, 100_000, &mut steps)
}

// The shortlist of a job under the seed 1.
fn list_of(
    alloc: Global,
    store: &Store,
    terms: &TermTable,
    job: u64,
) -> Result<Vec<Proposal>, AllocError>
    requires { IsBounded terms.now }
{
    let index = Index::build(alloc, terms)?;
    listed::<Brand>(alloc, Blank::new(1), store, terms, &index, job)
}

#[test]
fn job(rt: HostRuntime) -> Result<(), Fail> {
    let alloc = rt.alloc();
    let store = parse_store(alloc, PUBLISHED.as_bytes())?;
    let terms = table_of(alloc, "A005843 ,0,2,4,6,8,10,12,14,16,18,\n")?;
    let list = list_of(alloc, &store, &terms, 4)?;
    assert!(rt;
        same_proposals(alloc, &list, &[(5843, "mul $0,2\n")])?,
        "{list:?}"
    );
    Ok(())
}
