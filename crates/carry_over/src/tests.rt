//! What touches the reach of a proposal: one row for each part of it, and what touches none.

use crate::reach::first_touched;
use evidence::Change;
use program_store::{parse_candidates, parse_store};
use std::alloc::Global;
use std::test::Fail;

// The older and the newer store, a proposal, the changes between the stores, and the first that touches its reach.
struct Row {
    older: &'static str,
    newer: &'static str,
    candidate: &'static str,
    changes: &'static [Change],
    touched: Option<Change>,
}

const SQUARE: &str = "= A000290 10\nmul $0,$0\n";

const LONG_SQUARE_AND_CALLER: &str =
    "= A000290 10\nmov $1,$0\nmul $0,$1\n= A016742 8\nmul $0,2\nseq $0,290\n";

const SQUARE_AND_CALLER: &str = "= A000290 10\nmul $0,$0\n= A016742 8\nmul $0,2\nseq $0,290\n";

const SQUARE_AND_OTHER: &str = "= A000290 10\nmul $0,$0\n= A016742 8\nmul $0,2\nmul $0,$0\n";

const CUT: &str = "? A000290\nmov $1,$0\nmin $1,9\nmul $0,$1\n";

static ROWS: [Row; 8] = [
    // the proposal's callee was published
    Row {
        older: "",
        newer: SQUARE,
        candidate: "? A016742\nmul $0,2\nseq $0,290\n",
        changes: &[Change { at: 0, name: 290 }],
        touched: Some(Change { at: 0, name: 290 }),
    },
    // the present program's callee was replaced
    Row {
        older: LONG_SQUARE_AND_CALLER,
        newer: SQUARE_AND_CALLER,
        candidate: "? A016742\nmov $1,$0\nmul $1,2\nmul $1,$1\nmov $0,$1\n",
        changes: &[Change { at: 2, name: 290 }],
        touched: Some(Change { at: 2, name: 290 }),
    },
    // a caller was replaced by a program that calls nothing
    Row {
        older: SQUARE_AND_CALLER,
        newer: SQUARE_AND_OTHER,
        candidate: CUT,
        changes: &[Change { at: 2, name: 16742 }],
        touched: Some(Change { at: 2, name: 16742 }),
    },
    // a caller was published, between others that touch nothing
    Row {
        older: SQUARE,
        newer: "= A000027 8\nadd $0,1\n= A000290 10\nmul $0,$0\n= A016742 8\nmul $0,2\nseq $0,290\n",
        candidate: CUT,
        changes: &[
            Change { at: 1, name: 27 },
            Change { at: 2, name: 16742 },
            Change { at: 4, name: 27 },
        ],
        touched: Some(Change { at: 2, name: 16742 }),
    },
    // a caller was published, and replaced by a program that calls nothing
    Row {
        older: SQUARE,
        newer: SQUARE_AND_OTHER,
        candidate: CUT,
        changes: &[Change { at: 1, name: 16742 }, Change { at: 2, name: 16742 }],
        touched: None,
    },
    // the name itself was published
    Row {
        older: "",
        newer: SQUARE,
        candidate: CUT,
        changes: &[Change { at: 0, name: 290 }],
        touched: Some(Change { at: 0, name: 290 }),
    },
    // another name was published
    Row {
        older: SQUARE_AND_CALLER,
        newer: "= A000027 8\nadd $0,1\n= A000290 10\nmul $0,$0\n= A016742 8\nmul $0,2\nseq $0,290\n",
        candidate: "? A000290\nseq $0,16742\n",
        changes: &[Change { at: 2, name: 27 }],
        touched: None,
    },
    // a cycle was opened
    Row {
        older: SQUARE_AND_CALLER,
        newer: SQUARE_AND_OTHER,
        candidate: "? A000290\nseq $0,16742\n",
        changes: &[Change { at: 2, name: 16742 }],
        touched: Some(Change { at: 2, name: 16742 }),
    },
];

// The first change that touches the reach of the one candidate of a row.
fn found(alloc: Global, row: &Row) -> Result<Option<Change>, Fail> {
    let older = parse_store(alloc, row.older.as_bytes())?;
    let newer = parse_store(alloc, row.newer.as_bytes())?;
    let candidates = parse_candidates(alloc, row.candidate.as_bytes())?;
    if candidates.len() == 0 {
        return Err(Fail::from("no candidate"));
    }
    let touched = first_touched(alloc, &older, &newer, candidates.at(0), row.changes)?;
    Ok(touched)
}

#[test]
fn reaches(rt: HostRuntime) -> Result<(), Fail> {
    let alloc = rt.alloc();
    for row in &ROWS {
        let touched = found(alloc, row)?;
        assert_eq!(rt; touched, row.touched);
    }
    Ok(())
}
