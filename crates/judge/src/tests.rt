//! Sequences of proposals, each judged, and published where it is accepted.

ghost use Rattle.std.specs.Prelude.{IsTrue, IfOk};
ghost use Rattle.oeis_terms.specs.Table.{IsBounded, row_of};
ghost use Rattle.judge.specs.Sound.{Sound};

use crate::{Answer, CheckError, Got, check_store, check_terms, judge};
use loda_io::{File, MemoryShelf};
use oeis_terms::{TermTable, read_terms};
use program_store::{Proposal, Published, Store, parse_candidates};
use std::alloc::{AllocError, Global};
use std::test::Fail;

// An answer with plain numbers.
#[derive(Clone, Copy, Debug, PartialEq, Eq)]
enum Told {
    Accepted(u32),
    Cycle(u32),
    // the argument, the caller, its index, and the value that was; then what was got in its place
    Broken(i128, u32, u32, i128, Now),
    // the argument, and the steps of both runs
    Costlier(i128, u64, u64),
    NoGain,
    Other,
}

#[derive(Clone, Copy, Debug, PartialEq, Eq)]
enum Now {
    Value(i128),
    DivideByZero,
    Other,
}

fn now_of(got: Got) -> Now {
    match got {
        Got::Value(value) => Now::Value(value.get()),
        Got::DivideByZero => Now::DivideByZero,
        _ => Now::Other,
    }
}

fn in_numbers(answer: Answer) -> Told {
    match answer {
        Answer::Accepted { checked } => Told::Accepted(checked),
        Answer::Cycle { through } => Told::Cycle(through),
        Answer::BrokenDependant {
            at,
            caller,
            index,
            was,
            now,
        } => Told::Broken(at.get(), caller, index, was.get(), now_of(now)),
        Answer::Costlier { at, was, now } => Told::Costlier(at.get(), was, now),
        Answer::NoGain => Told::NoGain,
        _ => Told::Other,
    }
}

// The terms, the limit of steps, the proposals in their order, and the answers to them.
struct Row {
    terms: &'static str,
    limit: u64,
    candidates: &'static str,
    answers: &'static [Told],
}

const BOTH: &str = "A000290 ,0,1,4,9,16,25,36,49,64,81,\nA016742 ,0,4,16,36,64,100,144,196,\n";

const LONG: &str =
    "A000290 ,0,1,4,9,16,25,36,49,64,81,\nA016742 ,0,4,16,36,64,100,144,196,256,324,\n";

const NATURALS: &str = "A000290 ,0,1,4,9,16,25,36,49,64,81,\nA001477 ,0,1,2,3,4,5,6,7,\n";

const CHAIN: &str =
    "A000290 ,0,1,4,9,16,25,36,49,64,81,\nA001477 ,0,1,2,3,4,5,6,7,\nA016742 ,0,4,16,36,64,100,144,196,\nA016802 ,0,16,64,144,256,400,576,784,\n";

static ROWS: [Row; 7] = [
    // a square of what is at most nine, longer and dearer squares, and cycles
    Row {
        terms: BOTH,
        limit: 100_000,
        candidates: "? A000290\nmul $0,$0\n? A016742\nmul $0,2\nseq $0,290\n? A000290\nmov $1,$0\nmin $1,9\nmul $0,$1\n? A000290\nmul $0,$0\nadd $1,$0\n? A000290\nseq $0,16742\n? A000290\nseq $0,290\n",
        answers: &[
            Told::Accepted(10),
            Told::Accepted(8),
            Told::Broken(10, 16742, 5, 100, Now::Value(90)),
            Told::Costlier(0, 1, 2),
            Told::Cycle(16742),
            Told::Cycle(290),
        ],
    },
    Row {
        terms: BOTH,
        limit: 100_000,
        candidates: "? A000290\nmul $0,$0\n? A000290\nmov $1,$0\nmul $0,$1\n",
        answers: &[Told::Accepted(10), Told::Costlier(0, 1, 2)],
    },
    // a callee got cheaper
    Row {
        terms: BOTH,
        limit: 100_000,
        candidates: "? A000290\nmov $1,$0\nmul $0,$1\n? A016742\nmul $0,2\nseq $0,290\n? A000290\nmul $0,$0\n? A000290\nmov $1,$0\nmul $0,$1\n? A016742\nmov $1,$0\nmul $1,2\nmul $1,$1\nmov $0,$1\n",
        answers: &[
            Told::Accepted(10),
            Told::Accepted(8),
            Told::Accepted(10),
            Told::Costlier(0, 1, 2),
            Told::Costlier(0, 3, 4),
        ],
    },
    // more terms are checked once a callee is cheaper
    Row {
        terms: LONG,
        limit: 56,
        candidates: "? A000290\nmov $1,$0\nlpb $1\nsub $1,1\nadd $2,$0\nlpe\nmov $0,$2\n? A016742\nmul $0,2\nseq $0,290\n? A000290\nmul $0,$0\n? A016742\nmul $0,2\nseq $0,290\n? A016742\nmul $0,2\nseq $0,290\n",
        answers: &[
            Told::Accepted(10),
            Told::Accepted(9),
            Told::Accepted(10),
            Told::Accepted(10),
            Told::NoGain,
        ],
    },
    // a call that stands in an iteration that is undone
    Row {
        terms: NATURALS,
        limit: 100_000,
        candidates: "? A000290\nmul $0,$0\n? A001477\nmov $1,-1\nlpb $2\nseq $1,290\nsub $2,1\nlpe\n? A000290\nmov $1,$0\nadd $1,1\npow $1,-1\nmul $0,$0\n",
        answers: &[
            Told::Accepted(10),
            Told::Accepted(8),
            Told::Broken(-1, 1477, 0, 1, Now::DivideByZero),
        ],
    },
    Row {
        terms: NATURALS,
        limit: 100_000,
        candidates: "? A000290\nmul $0,$0\n? A001477\nmov $1,20\nlpb $2\nseq $1,290\nsub $2,1\nlpe\n? A000290\nmov $1,$0\nsub $1,20\npow $1,-1\nmul $0,$0\n",
        answers: &[
            Told::Accepted(10),
            Told::Accepted(8),
            Told::Broken(20, 1477, 0, 400, Now::DivideByZero),
        ],
    },
    // a caller's caller, and a name that calls nothing
    Row {
        terms: CHAIN,
        limit: 100_000,
        candidates: "? A000290\nmul $0,$0\n? A001477\nmov $1,$0\n? A016742\nmul $0,2\nseq $0,290\n? A016802\nmul $0,2\nseq $0,16742\n? A000290\nmov $1,$0\nmin $1,15\nmul $0,$1\n",
        answers: &[
            Told::Accepted(10),
            Told::Accepted(8),
            Told::Accepted(8),
            Told::Accepted(8),
            Told::Broken(16, 16802, 4, 256, Now::Value(240)),
        ],
    },
];

fn shelf_of(alloc: Global, text: &str) -> Result<MemoryShelf, AllocError> {
    let mut files = Vec::new(alloc);
    let bytes = Vec::from_slice(alloc, text.as_bytes())?;
    files.push(File::of(String::from_str(alloc, "t")?, bytes))?;
    Ok(MemoryShelf::new(files, Vec::new(alloc)))
}

// Whether a store is found sound.
fn is_sound(alloc: Global, store: &Store, terms: &TermTable, limit: u64) -> Result<bool, AllocError>
    requires bounded { IsBounded terms.now }
    ensures { IfOk result (λ sound. IsTrue sound → Sound store.now (row_of terms.now) limit) }
{
    match check_store(alloc, store, terms, limit) {
        Ok(()) => Ok(true),
        Err(CheckError::Memory) => Err(AllocError),
        Err(CheckError::Unsound(_)) => Ok(false),
    }
}

// The answer to a proposal, in a store that is found sound.
fn answer_in(
    alloc: Global,
    store: &Store,
    terms: &TermTable,
    limit: u64,
    proposal: &Proposal,
) -> Result<Told, AllocError>
    requires bounded { IsBounded terms.now }
{
    if !is_sound(alloc, store, terms, limit)? {
        return Ok(Told::Other);
    }
    match judge(alloc, store, terms, limit, proposal) {
        Ok(answer) => Ok(in_numbers(answer)),
        Err(error) => Err(error),
    }
}

// Publishes what was accepted.
fn publish(store: &mut Store, proposal: &Proposal, told: &Told) -> Result<(), AllocError> {
    let Told::Accepted(checked) = told else {
        return Ok(());
    };
    let checked = *checked;
    let copy = proposal.copy()?;
    let name = copy.name;
    let program = copy.program;
    if 1 <= name && name <= 999_999 {
        if store.put(name, Published { program, checked }).is_err() {
            return Err(AllocError);
        }
    }
    Ok(())
}

#[test]
fn sequences(rt: HostRuntime) -> Result<(), Fail> {
    let alloc = rt.alloc();
    for row in &ROWS {
        let terms = read_terms(alloc, &mut shelf_of(alloc, row.terms)?, "t")?;
        let limit = row.limit.min(100_000);
        let mut store = Store::empty(alloc);
        let mut answers = Vec::new(alloc);
        let candidates = parse_candidates(alloc, row.candidates.as_bytes())?;
        for place in 0..candidates.len() {
            let proposal = candidates.at(place);
            let told = answer_in(alloc, &store, &terms, limit, proposal)?;
            publish(&mut store, proposal, &told)?;
            answers.push(told)?;
        }
        assert_eq!(rt; answers.as_slice(), row.answers);
        let row = terms.row(290);
        if let Some(squares) = row {
            assert_eq!(rt; check_terms(alloc, &store, squares, 290, limit)?, 10);
        }
    }
    Ok(())
}
