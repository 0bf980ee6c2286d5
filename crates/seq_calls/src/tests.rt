//! Programs and the programs that they call, in small stores.

ghost use Rattle.std.specs.Prelude.{◌≡◌, ◌<◌};

use crate::{Evaluator, NodeRun, Outcome, Run, Steps, evaluate, evaluate_text, outcome_alone};
use checked_numbers::Num;
use loda_semantics::FaultKind;
use loda_syntax::{Program, parse};
use program_store::{Store, parse_store};
use std::alloc::{AllocError, Global};
use std::marker::Brand;
use std::sync::ledger::{Blank, Ledger};
use std::test::Fail;

const FIBONACCI: &str =
    "= A000045 10\nmov $1,1\nlpb $0\nsub $0,1\nmov $3,$1\nadd $1,$2\nmov $2,$3\nlpe\nmov $0,$2\n";

const SQUARE: &str = "= A000290 10\nmul $0,$0\n= A016742 8\nmul $0,2\nseq $0,290\n";

const CYCLE: &str = "= A000001 8\nseq $0,2\n= A000002 8\nseq $0,1\n";

// The call stands in an iteration that is undone.
const UNDONE: &str =
    "= A000290 10\nmul $0,$0\n= A001477 8\nmov $1,-1\nlpb $2\nseq $1,290\nsub $2,1\nlpe\n";

// One caller's callee divides by zero, and the other's is missing.
const FAULTS: &str =
    "= A000001 8\ndiv $0,0\n= A000002 8\nadd $0,1\nseq $0,1\n= A000003 8\nadd $0,1\nseq $0,4\n";

// The callee leaves a cell behind that it reads first, and is called twice.
const TWICE: &str = "= A000001 8\nadd $0,$1\nmov $1,7\n= A000002 8\nseq $0,1\nadd $0,1\nseq $0,1\n";

/// What a run comes to.
enum End {
    Value(i128, u64),
    Fault(FaultKind, u64),
    OutOfSteps,
}

/// A finished run: its name, argument, value and own steps, and its calls.
struct Node(u32, i128, i128, u64, &'static [(u32, i128)]);

struct Row {
    text: &'static str,
    name: u32,
    arg: i128,
    limit: u64,
    end: End,
    nodes: &'static [Node],
}

static ROWS: [Row; 14] = [
    Row {
        text: FIBONACCI,
        name: 45,
        arg: 0,
        limit: 100,
        end: End::Value(0, 8),
        nodes: &[Node(45, 0, 0, 8, &[])],
    },
    Row {
        text: FIBONACCI,
        name: 45,
        arg: 7,
        limit: 43,
        end: End::Value(13, 43),
        nodes: &[Node(45, 7, 13, 43, &[])],
    },
    Row {
        text: FIBONACCI,
        name: 45,
        arg: 7,
        limit: 42,
        end: End::OutOfSteps,
        nodes: &[],
    },
    Row {
        text: SQUARE,
        name: 16742,
        arg: 0,
        limit: 3,
        end: End::Value(0, 3),
        nodes: &[Node(290, 0, 0, 1, &[]), Node(16742, 0, 0, 2, &[(290, 0)])],
    },
    Row {
        text: SQUARE,
        name: 16742,
        arg: 7,
        limit: 100,
        end: End::Value(196, 3),
        nodes: &[
            Node(290, 14, 196, 1, &[]),
            Node(16742, 7, 196, 2, &[(290, 14)]),
        ],
    },
    Row {
        text: SQUARE,
        name: 16742,
        arg: 7,
        limit: 2,
        end: End::OutOfSteps,
        nodes: &[],
    },
    Row {
        text: UNDONE,
        name: 1477,
        arg: 0,
        limit: 100,
        end: End::Value(0, 6),
        nodes: &[Node(290, -1, 1, 1, &[]), Node(1477, 0, 0, 5, &[(290, -1)])],
    },
    Row {
        text: TWICE,
        name: 2,
        arg: 5,
        limit: 7,
        end: End::Value(6, 7),
        nodes: &[
            Node(1, 5, 5, 2, &[]),
            Node(1, 6, 6, 2, &[]),
            Node(2, 5, 6, 3, &[(1, 5), (1, 6)]),
        ],
    },
    Row {
        text: CYCLE,
        name: 1,
        arg: 0,
        limit: 1000,
        end: End::OutOfSteps,
        nodes: &[],
    },
    Row {
        text: CYCLE,
        name: 3,
        arg: 0,
        limit: 1000,
        end: End::Fault(FaultKind::Missing, 0),
        nodes: &[],
    },
    Row {
        text: "",
        name: 1,
        arg: 0,
        limit: 0,
        end: End::Fault(FaultKind::Missing, 0),
        nodes: &[],
    },
    Row {
        text: FAULTS,
        name: 1,
        arg: 5,
        limit: 1,
        end: End::Fault(FaultKind::DivideByZero, 1),
        nodes: &[],
    },
    Row {
        text: FAULTS,
        name: 2,
        arg: 5,
        limit: 100,
        end: End::Fault(FaultKind::DivideByZero, 3),
        nodes: &[],
    },
    Row {
        text: FAULTS,
        name: 3,
        arg: 5,
        limit: 100,
        end: End::Fault(FaultKind::Missing, 2),
        nodes: &[],
    },
];

fn number(value: i128) -> Result<Num, Fail> {
    Ok(Num::new(value).ok_or("the value is no number")?)
}

fn outcome(end: &End) -> Result<Outcome, Fail> {
    match end {
        End::Value(value, steps) => {
            let value = number(*value)?;
            Ok(Outcome::Value {
                value,
                steps: *steps,
            })
        }
        End::Fault(kind, steps) => Ok(Outcome::Fault {
            kind: *kind,
            steps: *steps,
        }),
        End::OutOfSteps => Ok(Outcome::OutOfSteps),
    }
}

fn evaluated<L: Ledger>(
    alloc: Global,
    blank: Blank,
    store: &Store,
    name: u32,
    arg: Num,
    limit: u64,
) -> Result<Run, AllocError>
    requires name { blank.name ≡ L.name }
    requires parts { blank.parts ≡ L.parts }
    requires some { 0 < L.parts }
{
    let (book, share) = blank.open::<L>();
    let mut steps = Steps::start(book, share);
    evaluate(alloc, store, name, arg, limit, &mut steps)
}

fn run_of(
    alloc: Global,
    store: &Store,
    name: u32,
    arg: Num,
    limit: u64,
) -> Result<Run, AllocError> {
    evaluated::<Brand>(alloc, Blank::new(1), store, name, arg, limit)
}

fn text_evaluated<L: Ledger>(
    alloc: Global,
    blank: Blank,
    store: &Store,
    program: &Program,
    arg: Num,
    limit: u64,
) -> Result<Outcome, AllocError>
    requires name { blank.name ≡ L.name }
    requires parts { blank.parts ≡ L.parts }
    requires some { 0 < L.parts }
{
    let (book, share) = blank.open::<L>();
    let mut steps = Steps::start(book, share);
    evaluate_text(alloc, store, program, arg, limit, &mut steps)
}

fn outcome_of(
    alloc: Global,
    store: &Store,
    program: &Program,
    arg: Num,
    limit: u64,
) -> Result<Outcome, AllocError> {
    text_evaluated::<Brand>(alloc, Blank::new(1), store, program, arg, limit)
}

fn is_node(run: &NodeRun, node: &Node) -> bool {
    let pair = run.pair;
    let calls = run.calls.list();
    pair.name == node.0
        && pair.arg.get() == node.1
        && run.value.get() == node.2
        && run.own == node.3
        && calls.len() == node.4.len()
        && calls.iter().zip(node.4).all(|(call, (name, arg))| call.name == *name
            && call.arg.get() == *arg)
}

fn are_nodes(nodes: &[NodeRun], wants: &[Node]) -> bool {
    nodes.len() == wants.len()
        && nodes
            .iter()
            .zip(wants)
            .all(|(node, want)| is_node(node, want))
}

// The run's own of a row's finished runs: the last, where it ends with a value.
fn own_nodes(row: &Row) -> &'static [Node] {
    match row.end {
        End::Value(_, _) => &row.nodes[row.nodes.len().saturating_sub(1)..],
        _ => &[],
    }
}

// Whether each way to run it comes to what a row says, and tells its finished runs.
fn comes_to(evaluator: &mut Evaluator, alloc: Global, row: &Row) -> Result<bool, Fail> {
    let store = parse_store(alloc, row.text.as_bytes())?;
    let want = outcome(&row.end)?;
    let arg = number(row.arg)?;
    let run = run_of(alloc, &store, row.name, arg, row.limit)?;
    let alone = outcome_alone(alloc, &store, row.name, arg, row.limit)?;
    let later = evaluator.outcome_alone(&store, row.name, arg, row.limit)?;
    let kept = evaluator.evaluate_alone(&store, row.name, arg, row.limit)?;
    let own = evaluator.evaluate_own(&store, row.name, arg, row.limit)?;
    let ends = run.outcome == want && alone == want && later == want;
    let kept_ends = kept.outcome == want && own.outcome == want;
    let all = are_nodes(run.nodes.list(), row.nodes) && are_nodes(kept.nodes.list(), row.nodes);
    Ok(ends && kept_ends && all && are_nodes(own.nodes.list(), own_nodes(row)))
}

#[test]
fn names(rt: HostRuntime) -> Result<(), Fail> {
    let mut evaluator = Evaluator::new(rt.alloc());
    for row in &ROWS {
        assert!(rt;
            comes_to(&mut evaluator, rt.alloc(), row)?,
            "{} at {} of {}",
            row.name,
            row.arg,
            row.text
        );
    }
    Ok(())
}

// A program without a name, in a store, and what it comes to at 0, 1, 2 and so on.
struct Text {
    text: &'static str,
    store: &'static str,
    limit: u64,
    ends: &'static [End],
}

static TEXTS: [Text; 4] = [
    Text {
        text: "mov $1,3\nmul $0,$1\n",
        store: "",
        limit: 2,
        ends: &[
            End::Value(0, 2),
            End::Value(3, 2),
            End::Value(6, 2),
            End::Value(9, 2),
            End::Value(12, 2),
            End::Value(15, 2),
            End::Value(18, 2),
            End::Value(21, 2),
            End::Value(24, 2),
        ],
    },
    Text {
        text: "mul $0,2\nseq $0,290\n",
        store: SQUARE,
        limit: 3,
        ends: &[
            End::Value(0, 3),
            End::Value(4, 3),
            End::Value(16, 3),
            End::Value(36, 3),
            End::Value(64, 3),
            End::Value(100, 3),
            End::Value(144, 3),
            End::Value(196, 3),
            End::Value(256, 3),
        ],
    },
    Text {
        text: "mul $0,2\nseq $0,290\n",
        store: "",
        limit: 3,
        ends: &[
            End::Fault(FaultKind::Missing, 2),
            End::Fault(FaultKind::Missing, 2),
        ],
    },
    // with at most 38 steps the values at 0 to 6 are there
    Text {
        text: "mov $1,1\nlpb $0\nsub $0,1\nmov $3,$1\nadd $1,$2\nmov $2,$3\nlpe\nmov $0,$2\n",
        store: "",
        limit: 38,
        ends: &[
            End::Value(0, 8),
            End::Value(1, 13),
            End::Value(1, 18),
            End::Value(2, 23),
            End::Value(3, 28),
            End::Value(5, 33),
            End::Value(8, 38),
            End::OutOfSteps,
            End::OutOfSteps,
        ],
    },
];

#[test]
fn texts(rt: HostRuntime) -> Result<(), Fail> {
    for row in &TEXTS {
        let store = parse_store(rt.alloc(), row.store.as_bytes())?;
        let program = parse(rt.alloc(), row.text.as_bytes())?;
        for (arg, end) in row.ends.iter().enumerate() {
            let came = outcome_of(
                rt.alloc(),
                &store,
                &program,
                number(arg as i128)?,
                row.limit,
            )?;
            assert_eq!(rt; came, outcome(end)?, "{} at {arg}", row.text);
        }
    }
    Ok(())
}

const DEEP: u32 = 500;

// Each name but the first calls the one before it.
#[test]
fn deep_chain(rt: HostRuntime) -> Result<(), Fail> {
    let alloc = rt.alloc();
    let mut text = String::from_str(alloc, "= A000001 8\nadd $0,1\n")?;
    for below in 1..DEEP {
        let entry = format!(in alloc; "= A{:06} 8\nseq $0,{below}\n", below + 1)?;
        text.push_str(&entry)?;
    }
    let store = parse_store(alloc, text.as_bytes())?;
    let run = run_of(alloc, &store, DEEP, number(5)?, 500)?;
    assert_eq!(rt; run.outcome, outcome(&End::Value(6, 500))?);
    let nodes = run.nodes.list();
    assert_eq!(rt; nodes.len(), DEEP as usize);
    for (node, name) in nodes.iter().zip(1..=DEEP) {
        assert_eq!(rt; (node.pair.name, node.own), (name, 1));
    }
    let run = run_of(alloc, &store, DEEP, number(5)?, 499)?;
    assert_eq!(rt; run.outcome, Outcome::OutOfSteps);
    Ok(())
}
