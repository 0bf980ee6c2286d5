//! Calls in small stores: reach, cycles, and the sets of names.

use crate::{ancestors, cycle, descendants, first_through};
use program_store::{Library, parse_store};
use std::test::Fail;

struct Row {
    /// A store.
    text: &'static str,
    /// The least name on a cycle.
    cycle: Option<u32>,
    /// The name whose program the other columns ask about.
    name: u32,
    /// The first name in its text that reaches `target`.
    first: Option<u32>,
    target: u32,
    descendants: &'static [u32],
    /// The ancestors of `name`.
    ancestors: &'static [u32],
}

const SQUARE: &str = "= A000290 10\nmul $0,$0\n= A016742 8\nmul $0,2\nseq $0,290\n";

const LOOPED: &str = "= A000001 8\nseq $0,2\n= A000002 8\nseq $0,1\n";

const CHAIN: &str =
    "= A000001 8\nadd $0,1\n= A000002 8\nseq $0,1\n= A000003 8\nseq $0,2\n= A000004 8\nseq $0,3\n";

// A name that is not published, a name called twice, and a cycle that others reach.
const TANGLED: &str =
    "= A000003 8\nseq $0,9\nseq $1,7\nseq $0,9\n= A000005 8\nseq $0,3\n= A000007 8\nseq $0,8\n= A000008 8\nseq $0,12\nseq $0,7\n= A000009 8\n";

// Two ways from the first name to the last, one of them through a name that calls the last twice.
const DIAMOND: &str =
    "= A000002 8\nseq $0,4\nseq $1,7\n= A000004 8\nseq $0,9\nseq $1,9\n= A000007 8\nseq $0,9\n= A000009 8\nadd $0,1\n";

// Two cycles, and below both a name that lies on a way from one to the other and is on neither.
const BETWEEN: &str =
    "= A000004 8\nseq $0,8\n= A000005 8\nseq $0,6\n= A000006 8\nseq $0,4\nseq $0,5\n= A000008 8\nseq $0,9\n= A000009 8\nseq $0,8\n";

// A name that calls itself, less than those of a cycle that is found before it.
const LATER: &str =
    "= A000001 8\nseq $0,5\n= A000003 8\nseq $0,3\n= A000005 8\nseq $0,6\n= A000006 8\nseq $0,7\n= A000007 8\nseq $0,5\nseq $0,6\n";

static ROWS: [Row; 12] = [
    Row {
        text: SQUARE,
        cycle: None,
        name: 16742,
        first: Some(290),
        target: 290,
        descendants: &[290],
        ancestors: &[],
    },
    Row {
        text: SQUARE,
        cycle: None,
        name: 290,
        first: None,
        target: 290,
        descendants: &[],
        ancestors: &[16742],
    },
    Row {
        text: "= A000290 10\nseq $0,16742\n= A016742 8\nmul $0,2\nseq $0,290\n",
        cycle: Some(290),
        name: 290,
        first: Some(16742),
        target: 290,
        descendants: &[290, 16742],
        ancestors: &[290, 16742],
    },
    Row {
        text: "= A000290 10\nseq $0,290\n= A016742 8\nmul $0,2\nseq $0,290\n",
        cycle: Some(290),
        name: 290,
        first: Some(290),
        target: 290,
        descendants: &[290],
        ancestors: &[290, 16742],
    },
    Row {
        text: LOOPED,
        cycle: Some(1),
        name: 2,
        first: Some(1),
        target: 1,
        descendants: &[1, 2],
        ancestors: &[1, 2],
    },
    Row {
        text: CHAIN,
        cycle: None,
        name: 4,
        first: Some(3),
        target: 1,
        descendants: &[1, 2, 3],
        ancestors: &[],
    },
    Row {
        text: CHAIN,
        cycle: None,
        name: 2,
        first: None,
        target: 4,
        descendants: &[1],
        ancestors: &[3, 4],
    },
    Row {
        text: TANGLED,
        cycle: Some(7),
        name: 3,
        first: Some(7),
        target: 12,
        descendants: &[7, 8, 9, 12],
        ancestors: &[5],
    },
    Row {
        text: TANGLED,
        cycle: Some(7),
        name: 8,
        first: Some(12),
        target: 12,
        descendants: &[7, 8, 12],
        ancestors: &[3, 5, 7, 8],
    },
    Row {
        text: DIAMOND,
        cycle: None,
        name: 9,
        first: None,
        target: 2,
        descendants: &[],
        ancestors: &[2, 4, 7],
    },
    Row {
        text: BETWEEN,
        cycle: Some(5),
        name: 4,
        first: Some(8),
        target: 9,
        descendants: &[8, 9],
        ancestors: &[5, 6],
    },
    Row {
        text: LATER,
        cycle: Some(3),
        name: 6,
        first: Some(7),
        target: 5,
        descendants: &[5, 6, 7],
        ancestors: &[1, 5, 6, 7],
    },
];

#[test]
fn small_stores(rt: HostRuntime) -> Result<(), Fail> {
    for row in &ROWS {
        let store = parse_store(rt.alloc(), row.text.as_bytes())?;
        assert_eq!(rt; cycle(rt.alloc(), &store)?, row.cycle, "{}", row.text);
        let above = ancestors(rt.alloc(), &store, row.name)?;
        assert_eq!(rt; &above[..], row.ancestors, "{}", row.text);
        let found = store.program(row.name);
        assert!(rt; found.is_some(), "{}", row.text);
        if let Some(program) = found {
            let first = first_through(rt.alloc(), &store, program, row.target)?;
            assert_eq!(rt; first, row.first, "{}", row.text);
            let below = descendants(rt.alloc(), &store, program)?;
            assert_eq!(rt; &below[..], row.descendants, "{}", row.text);
        }
    }
    Ok(())
}
