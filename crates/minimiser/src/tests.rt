//! What is left of small programs.

ghost use Rattle.std.specs.Prelude.{◌≡◌, ◌<◌};

use crate::minimise;
use checked_numbers::Num;
use loda_syntax::{Program, parse, print};
use program_store::{Store, parse_store};
use seq_calls::Steps;
use std::alloc::{AllocError, Global};
use std::marker::Brand;
use std::sync::ledger::{Blank, Ledger};
use std::test::Fail;

const SQUARE: &str = "= A000290 10\nmul $0,$0\n";

/// A program, how many arguments are given from 0 on, the limit of steps, and what is left.
struct Row {
    text: &'static str,
    args: i128,
    limit: u64,
    least: &'static str,
}

static ROWS: [Row; 11] = [
    // the second cut is good only once the first is made
    Row {
        text: "mov $1,0\nadd $0,$1\nadd $0,1\n",
        args: 8,
        limit: 100,
        least: "add $0,1\n",
    },
    // no cut is good
    Row {
        text: "mov $1,3\nmul $0,$1\nadd $0,2\n",
        args: 8,
        limit: 100,
        least: "mov $1,3\nmul $0,$1\nadd $0,2\n",
    },
    // without the first instruction the second divides by zero, so the first goes after the second
    Row {
        text: "mov $1,1\ndiv $2,$1\nadd $0,1\n",
        args: 8,
        limit: 100,
        least: "add $0,1\n",
    },
    // a loop goes whole, with the loop in it
    Row {
        text: "lpb $1\nlpb $2\nsub $2,1\nlpe\nsub $1,1\nlpe\nadd $0,2\n",
        args: 8,
        limit: 100,
        least: "add $0,2\n",
    },
    // without the first instruction the value is the same, at the price of more steps
    Row {
        text: "mov $0,0\nlpb $0\nsub $0,1\nlpe\n",
        args: 3,
        limit: 100,
        least: "mov $0,0\n",
    },
    // the values differ at the last argument alone
    Row {
        text: "min $0,6\nadd $0,1\n",
        args: 8,
        limit: 100,
        least: "min $0,6\nadd $0,1\n",
    },
    // where no argument is given every cut is good
    Row {
        text: "mov $1,3\nlpb $0\nsub $0,1\nlpe\nadd $0,2\n",
        args: 0,
        limit: 100,
        least: "",
    },
    // the program has no value, for a fault or for want of steps
    Row {
        text: "div $0,0\nadd $1,1\n",
        args: 8,
        limit: 100,
        least: "div $0,0\nadd $1,1\n",
    },
    Row {
        text: "add $1,1\nadd $0,1\n",
        args: 8,
        limit: 1,
        least: "add $1,1\nadd $0,1\n",
    },
    // calls go to the store, where one name is missing
    Row {
        text: "seq $1,290\nseq $0,290\n",
        args: 8,
        limit: 100,
        least: "seq $0,290\n",
    },
    Row {
        text: "seq $1,45\nadd $0,1\n",
        args: 8,
        limit: 100,
        least: "seq $1,45\nadd $0,1\n",
    },
];

fn minimised<L: Ledger>(
    alloc: Global,
    blank: Blank,
    store: &Store,
    program: &Program,
    args: &[Num],
    limit: u64,
) -> Result<Program, AllocError>
    requires name { blank.name ≡ L.name }
    requires parts { blank.parts ≡ L.parts }
    requires some { 0 < L.parts }
{
    let (book, share) = blank.open::<L>();
    let mut steps = Steps::start(book, share);
    minimise(alloc, store, program, args, limit, &mut steps)
}

fn least_of(
    alloc: Global,
    store: &Store,
    program: &Program,
    args: &[Num],
    limit: u64,
) -> Result<Program, AllocError> {
    minimised::<Brand>(alloc, Blank::new(1), store, program, args, limit)
}

fn numbers(alloc: Global, count: i128) -> Result<Vec<Num>, Fail> {
    let mut numbers = Vec::new(alloc);
    for number in 0..count {
        numbers.push(Num::new(number).ok_or("the value is no number")?)?;
    }
    Ok(numbers)
}

#[test]
fn least_programs(rt: HostRuntime) -> Result<(), Fail> {
    let alloc = rt.alloc();
    let store = parse_store(alloc, SQUARE.as_bytes())?;
    for row in &ROWS {
        let program = parse(alloc, row.text.as_bytes())?;
        let args = numbers(alloc, row.args)?;
        let least = least_of(alloc, &store, &program, &args, row.limit)?;
        let mut text = Vec::new(alloc);
        print(&least, &mut text)?;
        assert_eq!(rt; text.as_slice(), row.least.as_bytes(), "of {}", row.text);
    }
    Ok(())
}
