//! What tables know of small stores, before and after programs are put in.

ghost use Rattle.std.specs.Prelude.{◌≡◌, ◌<◌};
ghost use Rattle.oeis_terms.specs.Table.{row_of, IsBounded};
ghost use Rattle.program_store.specs.Store.{IsProposal};
ghost use Rattle.judge.specs.Sound.{Sound};
ghost use Rattle.evidence.specs.Findings.{IsTrueFinding};

use crate::tests::{LIMIT, shelf_of};
use crate::{Dossier, Finding, Snapshot, gather};
use checked_numbers::Num;
use demand_table::{Demand, Node, Tables};
use judge::{Answer, CheckError, check_store};
use loda_semantics::Pair;
use oeis_terms::{TermTable, read_terms};
use program_store::{Proposal, Store, parse_candidates, parse_store, print_store};
use seq_calls::Steps;
use std::alloc::{AllocError, Global};
use std::marker::Brand;
use std::sync::ledger::{Blank, Ledger};
use std::test::Fail;

/// A pair, and the value, the own steps, all steps and the callers of its node, if it has one.
struct Told(u32, i128, Option<(i128, u64, u64, u64)>);

// A store, and a proposal for it with the program as it is put in. What the tables tell before and after that, and which arguments
// are demanded then.
struct Row {
    store: &'static str,
    candidate: &'static str,
    next: &'static str,
    old: &'static [Told],
    new: &'static [Told],
    demanded: &'static [(u32, &'static [i128])],
}

// A dossier, and the demand table before it with its frames put in.
#[derive(Drop)]
struct Gathered {
    dossier: Dossier,
    by_frames: Option<Demand>,
}

const TERMS: &str =
    "A000290 ,0,1,4,9,16,25,36,49,64,81,\nA001477 ,0,1,2,3,4,5,6,7,\nA016742 ,0,4,16,36,64,100,144,196,\n";

static ROWS: [Row; 5] = [
    // the square, and then a program that calls it
    Row {
        store: "= A000290 10\nmul $0,$0\n",
        candidate: "? A016742\nmul $0,2\nseq $0,290\n",
        next: "= A000290 10\nmul $0,$0\n= A016742 8\nmul $0,2\nseq $0,290\n",
        old: &[
            Told(290, 9, Some((81, 1, 1, 0))),
            Told(290, 10, None),
            Told(16742, 5, None),
        ],
        new: &[
            Told(16742, 5, Some((100, 2, 3, 0))),
            Told(290, 10, Some((100, 1, 1, 1))),
            Told(290, 1, Some((1, 1, 1, 0))),
            Told(290, 11, None),
        ],
        demanded: &[(290, &[0, 2, 4, 6, 8, 10, 12, 14]), (16742, &[])],
    },
    // the callee takes a step less
    Row {
        store: "= A000290 10\nmov $1,$0\nmul $0,$1\n= A016742 8\nmul $0,2\nseq $0,290\n",
        candidate: "? A000290\nmul $0,$0\n",
        next: "= A000290 10\nmul $0,$0\n= A016742 8\nmul $0,2\nseq $0,290\n",
        old: &[
            Told(16742, 5, Some((100, 2, 4, 0))),
            Told(290, 10, Some((100, 2, 2, 1))),
        ],
        new: &[
            Told(16742, 5, Some((100, 2, 3, 0))),
            Told(290, 10, Some((100, 1, 1, 1))),
        ],
        demanded: &[(290, &[0, 2, 4, 6, 8, 10, 12, 14]), (16742, &[])],
    },
    // the caller calls no more
    Row {
        store: "= A000290 10\nmul $0,$0\n= A016742 8\nmul $0,2\nseq $0,290\n",
        candidate: "? A016742\nmul $0,2\nmul $0,$0\n",
        next: "= A000290 10\nmul $0,$0\n= A016742 8\nmul $0,2\nmul $0,$0\n",
        old: &[Told(290, 10, Some((100, 1, 1, 1)))],
        new: &[
            Told(290, 10, None),
            Told(290, 8, Some((64, 1, 1, 0))),
            Told(16742, 5, Some((100, 2, 2, 0))),
        ],
        demanded: &[(290, &[]), (16742, &[])],
    },
    // the call stands in an iteration that is undone
    Row {
        store: "= A000290 10\nmul $0,$0\n",
        candidate: "? A001477\nmov $1,-1\nlpb $2\nseq $1,290\nsub $2,1\nlpe\n",
        next: "= A000290 10\nmul $0,$0\n= A001477 8\nmov $1,-1\nlpb $2\n  seq $1,290\n  sub $2,1\nlpe\n",
        old: &[Told(290, -1, None)],
        new: &[Told(290, -1, Some((1, 1, 1, 8)))],
        demanded: &[(290, &[-1]), (1477, &[])],
    },
    Row {
        store: "= A000290 10\nmul $0,$0\n",
        candidate: "? A001477\nmov $1,20\nlpb $2\nseq $1,290\nsub $2,1\nlpe\n",
        next: "= A000290 10\nmul $0,$0\n= A001477 8\nmov $1,20\nlpb $2\n  seq $1,290\n  sub $2,1\nlpe\n",
        old: &[Told(290, 20, None)],
        new: &[Told(290, 20, Some((400, 1, 1, 8)))],
        demanded: &[(290, &[20]), (1477, &[])],
    },
];

// The tables of a sound store.
fn tables_of(alloc: Global, store: &Store, terms: &TermTable) -> Result<Option<Tables>, AllocError>
    requires bounded { IsBounded terms.now }
{
    match check_store(alloc, store, terms, LIMIT) {
        Ok(()) => {
            let tables = Tables::build(alloc, store, LIMIT)?;
            Ok(Some(tables))
        }
        Err(CheckError::Memory) => Err(AllocError),
        Err(CheckError::Unsound(_)) => Ok(None),
    }
}

// The old demand table with a dossier's frames put in: those of an accepted proposal, from the argument 0 on.
fn mended_by_frames(
    alloc: Global,
    dossier: &Dossier,
    terms: &TermTable,
    limit: u64,
) -> Result<Option<Demand>, AllocError>
    requires sound { Sound dossier.now.snapshot.store (row_of terms.now) limit }
    requires finding { IsTrueFinding dossier.now.snapshot.store (row_of terms.now) limit dossier.now.finding }
{
    let frames = dossier.runs();
    let demand = dossier.snapshot().tables().demand();
    let Finding::Judged { proposal, answer } = dossier.finding() else {
        return Ok(None);
    };
    let Answer::Accepted { checked } = *answer else {
        return Ok(None);
    };
    let mended = demand.replaced(alloc, proposal.name, 0, checked, frames)?;
    Ok(Some(mended))
}

// What is gathered of a proposal in the tables of a sound store, and the demand table with its frames put in.
fn judged<L: Ledger>(
    alloc: Global,
    blank: Blank,
    tables: Tables,
    terms: &TermTable,
    proposal: Proposal,
) -> Result<Option<Gathered>, AllocError>
    requires name { blank.name ≡ L.name }
    requires parts { blank.parts ≡ L.parts }
    requires some { 0 < L.parts }
    requires bounded { IsBounded terms.now }
    requires proposal { IsProposal proposal }
{
    match check_store(alloc, &tables, terms, LIMIT) {
        Ok(()) => {}
        Err(CheckError::Memory) => return Err(AllocError),
        Err(CheckError::Unsound(_)) => return Ok(None),
    }
    let snapshot = Snapshot::of(tables, 0, 0);
    let (book, share) = blank.open::<L>();
    let mut steps = Steps::start(book, share);
    let dossier = gather(
        alloc,
        &snapshot,
        terms,
        LIMIT,
        0,
        Some(proposal),
        &mut steps,
    )?;
    let by_frames = mended_by_frames(alloc, &dossier, terms, LIMIT)?;
    Ok(Some(Gathered { dossier, by_frames }))
}

fn judged_alone(
    alloc: Global,
    tables: Tables,
    terms: &TermTable,
    proposal: Proposal,
) -> Result<Option<Gathered>, AllocError>
    requires bounded { IsBounded terms.now }
    requires proposal { IsProposal proposal }
{
    judged::<Brand>(alloc, Blank::new(1), tables, terms, proposal)
}

// What is gathered of the one candidate of a text.
fn put_alone(
    alloc: Global,
    tables: Tables,
    terms: &TermTable,
    text: &str,
) -> Result<Option<Gathered>, AllocError>
    requires bounded { IsBounded terms.now }
{
    let Ok(candidates) = parse_candidates(alloc, text.as_bytes()) else {
        return Ok(None);
    };
    if candidates.len() != 1 {
        return Ok(None);
    }
    let proposal = candidates.at(0).copy()?;
    judged_alone(alloc, tables, terms, proposal)
}

// Whether a demand table tells this of a pair.
fn tells(demand: &Demand, want: &Told) -> bool {
    let Some(arg) = Num::new(want.1) else {
        return false;
    };
    match (demand.node(want.0, &arg), want.2) {
        (None, None) => true,
        (Some(node), Some((value, own, total, callers))) => {
            node.arg == arg
                && node.value.get() == value
                && node.own == own
                && node.total == total
                && node.callers == callers
        }
        _ => false,
    }
}

fn tells_all(demand: &Demand, wants: &[Told]) -> bool {
    for want in wants {
        if !tells(demand, want) {
            return false;
        }
    }
    true
}

// The text of the tables' store.
fn text_of(alloc: Global, tables: &Tables) -> Result<Vec<u8>, AllocError> {
    let mut text = Vec::new(alloc);
    print_store(tables, &mut text)?;
    Ok(text)
}

fn are_numbers(list: &[Num], want: &[i128]) -> bool {
    if list.len() != want.len() {
        return false;
    }
    for at in 0..list.len() {
        if list[at].get() != want[at] {
            return false;
        }
    }
    true
}

// Whether just these arguments of each name are demanded.
fn demands(alloc: Global, tables: &Tables, wants: &[(u32, &[i128])]) -> Result<bool, AllocError> {
    for want in wants {
        let list = tables.demanded(alloc, want.0)?;
        if !are_numbers(&list, want.1) {
            return Ok(false);
        }
    }
    Ok(true)
}

// Whether the tables, and the old demand table with the frames put in, are what a row says of them afterwards.
fn tells_after(
    alloc: Global,
    next: &Tables,
    by_frames: &Demand,
    row: &Row,
) -> Result<bool, AllocError> {
    let text = text_of(alloc, next)?;
    Ok(
        text.as_slice() == row.next.as_bytes()
            && tells_all(next.demand(), row.new)
            && tells_all(by_frames, row.new)
            && demands(alloc, next, row.demanded)?,
    )
}

// Whether a version that is shared still is what a row says of it before.
fn tells_before(alloc: Global, shared: &Snapshot, row: &Row) -> Result<bool, AllocError> {
    let text = text_of(alloc, shared.tables())?;
    Ok(text.as_slice() == row.store.as_bytes() && tells_all(shared.tables().demand(), row.old))
}

// Whether putting in a row's candidate does to the tables what the row says.
fn holds(alloc: Global, terms: &TermTable, row: &Row) -> Result<bool, AllocError>
    requires bounded { IsBounded terms.now }
{
    let Ok(store) = parse_store(alloc, row.store.as_bytes()) else {
        return Ok(false);
    };
    let Some(tables) = tables_of(alloc, &store, terms)? else {
        return Ok(false);
    };
    let Some(found) = put_alone(alloc, tables, terms, row.candidate)? else {
        return Ok(false);
    };
    let shared = found.dossier.snapshot().share()?;
    match (found.dossier.into_parts().next, found.by_frames) {
        (Some(next), Some(by_frames)) => Ok(
            tells_after(alloc, &next, &by_frames, row)? && tells_before(alloc, &shared, row)?,
        ),
        _ => Ok(false),
    }
}

#[test]
fn nodes_and_demanded_arguments(rt: HostRuntime) -> Result<(), Fail> {
    let alloc = rt.alloc();
    let terms = read_terms(alloc, &mut shelf_of(alloc, TERMS)?, "t")?;
    for row in &ROWS {
        assert!(rt; holds(alloc, &terms, row)?, "{}", row.candidate);
    }
    Ok(())
}

const SUMS: &str =
    "A000001 ,1,2,3,4,5,6,7,8,\nA000002 ,2,3,4,5,6,7,8,9,\nA000003 ,3,4,5,6,7,8,9,10,\nA000004 ,2,4,6,8,10,12,14,16,\nA000005 ,4,5,6,7,8,9,10,11,\n";

// Put in one after the other, they call in chains and diamonds, twice at one argument and at arguments that others call too, and
// later no more.
static PUT_IN: [&str; 13] = [
    "? A000001\nmov $1,1\nmov $1,1\nmov $1,1\nadd $0,1\n",
    "? A000002\nseq $0,1\nseq $0,1\n",
    "? A000003\nmov $1,$0\nseq $1,1\nseq $0,2\nmov $1,0\nadd $0,1\n",
    "? A000004\nmov $1,$0\nseq $1,1\nseq $0,1\nadd $0,$1\n",
    "? A000005\nmov $1,1\nseq $0,2\nseq $0,2\n",
    "? A000001\nmov $1,1\nadd $0,1\n",
    "? A000003\nadd $0,1\nseq $0,2\n",
    "? A000005\nseq $0,3\nseq $0,1\n",
    "? A000004\nseq $0,1\nmul $0,2\n",
    "? A000002\nadd $0,1\nseq $0,1\n",
    "? A000005\nadd $0,4\n",
    "? A000001\nadd $0,1\n",
    "? A000003\nadd $0,3\n",
];

// The tables after a program was put in, and the demand table before it with its frames put in.
#[derive(Drop)]
struct Put {
    tables: Tables,
    by_frames: Demand,
}

fn same_pairs(one: &[Pair], other: &[Pair]) -> bool {
    if one.len() != other.len() {
        return false;
    }
    for at in 0..one.len() {
        if one[at].name != other[at].name || one[at].arg != other[at].arg {
            return false;
        }
    }
    true
}

fn same_node(one: &Node, other: &Node) -> bool {
    one.arg == other.arg
        && one.value == other.value
        && one.own == other.own
        && one.total == other.total
        && one.callers == other.callers
        && same_pairs(one.calls.list(), other.calls.list())
}

fn same_at(one: &Demand, other: &Demand, name: u32, arg: &Num) -> bool {
    match (one.node(name, arg), other.node(name, arg)) {
        (None, None) => true,
        (Some(a), Some(b)) => same_node(a, b),
        _ => false,
    }
}

// Whether two demand tables tell the same of a name at the arguments from -1 to 20.
fn same_of(one: &Demand, other: &Demand, name: u32) -> bool {
    for index in 0..22u32 {
        match Num::new(i128::from(index) - 1) {
            Some(arg) if same_at(one, other, name, &arg) => {}
            _ => return false,
        }
    }
    true
}

// The tables of the same store, from nothing.
fn rebuilt(alloc: Global, tables: &Tables, terms: &TermTable) -> Result<Option<Tables>, AllocError>
    requires bounded { IsBounded terms.now }
{
    let text = text_of(alloc, tables)?;
    match parse_store(alloc, &text) {
        Ok(store) => tables_of(alloc, &store, terms),
        Err(_) => Ok(None),
    }
}

// Whether the tables, and the old demand table with the frames put in, tell what those tell that are built of the same store.
fn are_as_built(alloc: Global, put: &Put, terms: &TermTable) -> Result<bool, AllocError>
    requires bounded { IsBounded terms.now }
{
    let Some(fresh) = rebuilt(alloc, &put.tables, terms)? else {
        return Ok(false);
    };
    for name in 1..=6 {
        if !same_of(put.tables.demand(), fresh.demand(), name)
            || !same_of(&put.by_frames, fresh.demand(), name)
        {
            return Ok(false);
        }
    }
    Ok(true)
}

// The tables with the one candidate of a text put in, if it is accepted.
fn after_put(
    alloc: Global,
    tables: Tables,
    terms: &TermTable,
    text: &str,
) -> Result<Option<Put>, AllocError>
    requires bounded { IsBounded terms.now }
{
    let Some(found) = put_alone(alloc, tables, terms, text)? else {
        return Ok(None);
    };
    match (found.dossier.into_parts().next, found.by_frames) {
        (Some(tables), Some(by_frames)) => Ok(Some(Put { tables, by_frames })),
        _ => Ok(None),
    }
}

// The first of the programs that is refused, or after which the tables are not as built; and why there are no tables to begin with.
fn first_unlike_built(alloc: Global, terms: &TermTable) -> Result<Option<&'static str>, AllocError>
    requires bounded { IsBounded terms.now }
{
    let Ok(empty) = parse_store(alloc, b"") else {
        return Ok(Some("no store"));
    };
    let Some(mut tables) = tables_of(alloc, &empty, terms)? else {
        return Ok(Some("unsound"));
    };
    for &text in &PUT_IN {
        let Some(put) = after_put(alloc, tables, terms, text)? else {
            return Ok(Some(text));
        };
        if !are_as_built(alloc, &put, terms)? {
            return Ok(Some(text));
        }
        tables = put.tables;
    }
    Ok(None)
}

// The next of a row of draws.
fn drawn(state: u32) -> u32 {
    state.wrapping_mul(1_664_525).wrapping_add(1_013_904_223)
}

// Puts in what is drawn, thirty times, and passes over what is refused. How many were put in, or none where the tables after one of
// them are not as built.
fn put_in_by_draws(alloc: Global, terms: &TermTable, seed: u32) -> Result<Option<u32>, AllocError>
    requires bounded { IsBounded terms.now }
{
    let Ok(empty) = parse_store(alloc, b"") else {
        return Ok(None);
    };
    let Some(mut tables) = tables_of(alloc, &empty, terms)? else {
        return Ok(None);
    };
    let mut state = seed;
    let mut many = 0u32;
    for _ in 0..30 {
        state = drawn(state);
        let text = PUT_IN[(state >> 16) as usize % 13];
        let Some(put) = after_put(alloc, tables.share()?, terms, text)? else {
            continue;
        };
        if !are_as_built(alloc, &put, terms)? {
            return Ok(None);
        }
        tables = put.tables;
        many = many.saturating_add(1);
    }
    Ok(Some(many))
}

#[test]
fn mended_tables_are_as_built(rt: HostRuntime) -> Result<(), Fail> {
    let alloc = rt.alloc();
    let terms = read_terms(alloc, &mut shelf_of(alloc, SUMS)?, "t")?;
    assert_eq!(rt; first_unlike_built(alloc, &terms)?, None);
    Ok(())
}

#[test]
fn drawn_tables_are_as_built(rt: HostRuntime) -> Result<(), Fail> {
    let alloc = rt.alloc();
    let terms = read_terms(alloc, &mut shelf_of(alloc, SUMS)?, "t")?;
    let mut all = 0u32;
    for seed in 0..8 {
        let many = put_in_by_draws(alloc, &terms, seed)?;
        assert!(rt; many.is_some(), "the draws of {seed}");
        all = all.saturating_add(many.unwrap_or(0));
    }
    assert!(rt; all >= 40, "{all} were put in");
    Ok(())
}
