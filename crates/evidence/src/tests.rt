//! Proposals in small stores, and what is gathered of them.

ghost use Rattle.std.specs.Prelude.{◌≡◌, ◌<◌, IfSome};
ghost use Rattle.oeis_terms.specs.Table.{IsBounded};
ghost use Rattle.program_store.specs.Store.{IsProposal};

use crate::{Dossier, Finding, Snapshot, gather};
use demand_table::Tables;
use judge::{Answer, CheckError, Got, check_store};
use loda_io::{File, MemoryShelf};
use oeis_terms::{TermTable, read_terms};
use program_store::{Proposal, Store, parse_candidates, parse_store, print_store};
use seq_calls::Steps;
use std::alloc::{AllocError, Global};
use std::marker::Brand;
use std::sync::ledger::{Blank, Ledger};
use std::test::Fail;

// A finding with plain numbers.
#[derive(Clone, Copy, Debug, PartialEq, Eq)]
enum Told {
    Nothing,
    Accepted(u32),
    // the argument, the caller, its index, the value that was, and the one in its place
    Broken(i128, u32, u32, i128, i128),
    Other,
}

fn in_numbers(finding: &Finding) -> Told {
    match finding {
        Finding::Nothing => Told::Nothing,
        Finding::Judged {
            proposal: _,
            answer,
        } => match *answer {
            Answer::Accepted { checked } => Told::Accepted(checked),
            Answer::BrokenDependant {
                at,
                caller,
                index,
                was,
                now: Got::Value(now),
            } => Told::Broken(at.get(), caller, index, was.get(), now.get()),
            _ => Told::Other,
        },
    }
}

// The store, at most one proposal, what is found, how many finished runs are kept, and the next store.
struct Row {
    store: &'static str,
    candidates: &'static str,
    told: Told,
    runs: usize,
    next: &'static str,
}

pub const LIMIT: u64 = 100_000;

const TERMS: &str = "A000290 ,0,1,4,9,16,25,36,49,64,81,\nA016742 ,0,4,16,36,64,100,144,196,\n";

static ROWS: [Row; 4] = [
    // eight runs of a caller, each with one of its callee
    Row {
        store: "= A000290 10\nmul $0,$0\n",
        candidates: "? A016742\nmul $0,2\nseq $0,290\n",
        told: Told::Accepted(8),
        runs: 16,
        next: "= A000290 10\nmul $0,$0\n= A016742 8\nmul $0,2\nseq $0,290\n",
    },
    // ten checked arguments, and eight that are demanded
    Row {
        store: "= A000290 10\nmov $1,$0\nmul $0,$1\n= A016742 8\nmul $0,2\nseq $0,290\n",
        candidates: "? A000290\nmul $0,$0\n",
        told: Told::Accepted(10),
        runs: 18,
        next: "= A000290 10\nmul $0,$0\n= A016742 8\nmul $0,2\nseq $0,290\n",
    },
    // a square of what is at most nine
    Row {
        store: "= A000290 10\nmul $0,$0\n= A016742 8\nmul $0,2\nseq $0,290\n",
        candidates: "? A000290\nmov $1,$0\nmin $1,9\nmul $0,$1\n",
        told: Told::Broken(10, 16742, 5, 100, 90),
        runs: 0,
        next: "",
    },
    Row {
        store: "= A000290 10\nmul $0,$0\n",
        candidates: "",
        told: Told::Nothing,
        runs: 0,
        next: "",
    },
];

pub fn shelf_of(alloc: Global, text: &str) -> Result<MemoryShelf, AllocError> {
    let mut files = Vec::new(alloc);
    let bytes = Vec::from_slice(alloc, text.as_bytes())?;
    files.push(File::of(String::from_str(alloc, "t")?, bytes))?;
    Ok(MemoryShelf::new(files, Vec::new(alloc)))
}

// What is found for job 7 in a store, which is the one of version 3, with five entries. `None` where it is not sound.
fn gathered<L: Ledger>(
    alloc: Global,
    blank: Blank,
    store: &Store,
    terms: &TermTable,
    proposal: Option<Proposal>,
) -> Result<Option<Dossier>, AllocError>
    requires name { blank.name ≡ L.name }
    requires parts { blank.parts ≡ L.parts }
    requires some { 0 < L.parts }
    requires bounded { IsBounded terms.now }
    requires proposal { IfSome proposal IsProposal }
{
    match check_store(alloc, store, terms, LIMIT) {
        Ok(()) => {}
        Err(CheckError::Memory) => return Err(AllocError),
        Err(CheckError::Unsound(_)) => return Ok(None),
    }
    let tables = Tables::build(alloc, store, LIMIT)?;
    let snapshot = Snapshot::of(tables, 3, 5);
    let (book, share) = blank.open::<L>();
    let mut steps = Steps::start(book, share);
    let dossier = gather(alloc, &snapshot, terms, LIMIT, 7, proposal, &mut steps)?;
    Ok(Some(dossier))
}

fn gathered_alone(
    alloc: Global,
    store: &Store,
    terms: &TermTable,
    proposal: Option<Proposal>,
) -> Result<Option<Dossier>, AllocError>
    requires bounded { IsBounded terms.now }
    requires proposal { IfSome proposal IsProposal }
{
    gathered::<Brand>(alloc, Blank::new(1), store, terms, proposal)
}

// The text of the store that a dossier brings, if it brings one.
fn next_text(alloc: Global, dossier: Dossier) -> Result<Vec<u8>, AllocError> {
    let mut text = Vec::new(alloc);
    let parts = dossier.into_parts();
    if let Some(next) = &parts.next {
        print_store(next, &mut text)?;
    }
    Ok(text)
}

fn is_shared<T: Send + Sync>(_value: &T) -> bool {
    true
}

// What is found for a row's first candidate, or for none.
fn found(alloc: Global, terms: &TermTable, row: &Row) -> Result<Option<Dossier>, Fail>
    requires bounded { IsBounded terms.now }
{
    let store = parse_store(alloc, row.store.as_bytes())?;
    let candidates = parse_candidates(alloc, row.candidates.as_bytes())?;
    let proposal = if candidates.len() > 0 {
        Some(candidates.at(0).copy()?)
    } else {
        None
    };
    Ok(gathered_alone(alloc, &store, terms, proposal)?)
}

// Whether a dossier says what its row says.
fn tells(dossier: &Dossier, row: &Row) -> bool {
    let snapshot = dossier.snapshot();
    let seen = (dossier.seen(), snapshot.version(), snapshot.length());
    in_numbers(dossier.finding()) == row.told
        && dossier.runs().len() == row.runs
        && (dossier.job(), dossier.base()) == (7, 3)
        && seen == (3, 3, 5)
        && is_shared(dossier)
        && is_shared(snapshot)
}

#[test]
fn findings(rt: HostRuntime) -> Result<(), Fail> {
    let alloc = rt.alloc();
    let terms = read_terms(alloc, &mut shelf_of(alloc, TERMS)?, "t")?;
    for row in &ROWS {
        let dossier = found(alloc, &terms, row)?.ok_or("unsound")?;
        assert!(rt; tells(&dossier, row), "{}", row.candidates);
        assert_eq!(rt; next_text(alloc, dossier)?.as_slice(), row.next.as_bytes());
    }
    Ok(())
}
