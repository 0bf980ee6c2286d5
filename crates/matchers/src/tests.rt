//! Programs composed, as texts and by their lengths.

use super::*;
use checked_numbers::Num;
use loda_syntax::{Instr, Operand, Program, Verb, parse, print};
use std::alloc::Global;
use std::process::Abort;
use std::test::Fail;
use term_index::Form;

#[derive(Clone, Copy)]
enum Shape {
    Direct,
    Difference,
    Sum,
    /// `a` and `b`.
    Linear(i128, i128),
}

struct Case {
    program: &'static str,
    form: Shape,
    want: Option<&'static str>,
}

static CASES: [Case; 28] = [
    Case {
        program: "mul $0,$0",
        form: Shape::Direct,
        want: Some("mul $0,$0\n"),
    },
    Case {
        program: "mul $0,$0",
        form: Shape::Difference,
        want: Some("mov $1,$0\nadd $0,1\nmul $0,$0\nmul $1,$1\nsub $0,$1\n"),
    },
    Case {
        program: "mul $0,$0",
        form: Shape::Sum,
        want: Some(
            "add $0,1\nlpb $0\n  sub $0,1\n  clr $2,1\n  mov $2,$0\n  max $2,0\n  mul $2,$2\n  add $1,$2\nlpe\nmov $0,$1\n",
        ),
    },
    Case {
        program: "mov $1,3\nmul $0,$1",
        form: Shape::Linear(1, 2),
        want: Some("mov $1,3\nmul $0,$1\nadd $0,2\n"),
    },
    Case {
        program: "mul $0,$0",
        form: Shape::Linear(-3, 0),
        want: Some("mul $0,$0\nmul $0,-3\n"),
    },
    Case {
        program: "mul $0,$0",
        form: Shape::Linear(5, -7),
        want: Some("mul $0,$0\nmul $0,5\nadd $0,-7\n"),
    },
    Case {
        program: "mov $0,$$0",
        form: Shape::Linear(2, 0),
        want: Some("mov $0,$$0\nmul $0,2\n"),
    },
    Case {
        program: "mov $0,$$0",
        form: Shape::Difference,
        want: None,
    },
    Case {
        program: "mov $0,$$0",
        form: Shape::Sum,
        want: None,
    },
    Case {
        program: "seq $$0,290",
        form: Shape::Sum,
        want: None,
    },
    Case {
        program: "mov $0,$$0",
        form: Shape::Direct,
        want: Some("mov $0,$$0\n"),
    },
    Case {
        program: "",
        form: Shape::Difference,
        want: Some("mov $1,$0\nadd $0,1\nsub $0,$1\n"),
    },
    Case {
        program: "",
        form: Shape::Sum,
        want: Some(
            "add $0,1\nlpb $0\n  sub $0,1\n  clr $2,1\n  mov $2,$0\n  max $2,0\n  add $1,$2\nlpe\nmov $0,$1\n",
        ),
    },
    Case {
        program: "mov $5,1",
        form: Shape::Difference,
        want: Some("mov $6,$0\nadd $0,1\nmov $5,1\nmov $11,1\nsub $0,$6\n"),
    },
    Case {
        program: "add $0,$7",
        form: Shape::Difference,
        want: Some("mov $8,$0\nadd $0,1\nadd $0,$7\nadd $8,$15\nsub $0,$8\n"),
    },
    Case {
        program: "clr $3,4",
        form: Shape::Difference,
        want: Some("mov $7,$0\nadd $0,1\nclr $3,4\nclr $10,4\nsub $0,$7\n"),
    },
    Case {
        program: "clr $9,0",
        form: Shape::Difference,
        want: Some("mov $10,$0\nadd $0,1\nclr $9,0\nclr $19,0\nsub $0,$10\n"),
    },
    Case {
        program: "lpb $2,3\nsub $2,1\nlpe",
        form: Shape::Difference,
        want: Some(
            "mov $5,$0\nadd $0,1\nlpb $2,3\n  sub $2,1\nlpe\nlpb $7,3\n  sub $7,1\nlpe\nsub $0,$5\n",
        ),
    },
    Case {
        program: "seq $8,290",
        form: Shape::Difference,
        want: Some("mov $9,$0\nadd $0,1\nseq $8,290\nseq $17,290\nsub $0,$9\n"),
    },
    Case {
        program: "lpb $1,2\nsub $1,1\nlpe",
        form: Shape::Sum,
        want: Some(
            "add $0,1\nlpb $0\n  sub $0,1\n  clr $2,3\n  mov $2,$0\n  max $2,0\n  lpb $3,2\n    sub $3,1\n  lpe\n  add $1,$2\nlpe\nmov $0,$1\n",
        ),
    },
    Case {
        program: "mov $2047,1",
        form: Shape::Difference,
        want: Some("mov $2048,$0\nadd $0,1\nmov $2047,1\nmov $4095,1\nsub $0,$2048\n"),
    },
    Case {
        program: "mov $2048,1",
        form: Shape::Difference,
        want: None,
    },
    Case {
        program: "clr $2048,0",
        form: Shape::Difference,
        want: None,
    },
    Case {
        program: "mov $4093,1",
        form: Shape::Sum,
        want: Some(
            "add $0,1\nlpb $0\n  sub $0,1\n  clr $2,1024\n  clr $1026,1024\n  clr $2050,1024\n  clr $3074,1022\n  mov $2,$0\n  max $2,0\n  mov $4095,1\n  add $1,$2\nlpe\nmov $0,$1\n",
        ),
    },
    Case {
        program: "mov $4094,1",
        form: Shape::Sum,
        want: None,
    },
    Case {
        program: "clr $4093,2",
        form: Shape::Sum,
        want: None,
    },
    Case {
        program: "lpb $4093,2\nlpe",
        form: Shape::Sum,
        want: None,
    },
    Case {
        program: "mov $1024,0",
        form: Shape::Sum,
        want: Some(
            "add $0,1\nlpb $0\n  sub $0,1\n  clr $2,1024\n  clr $1026,1\n  mov $2,$0\n  max $2,0\n  mov $1026,0\n  add $1,$2\nlpe\nmov $0,$1\n",
        ),
    },
];

fn number(rt: &impl Abort, value: i128) -> Num {
    Num::new(value).expect(rt, "a value is a number")
}

fn form_of(rt: &impl Abort, shape: Shape) -> Form {
    match shape {
        Shape::Direct => Form::Direct,
        Shape::Difference => Form::Difference,
        Shape::Sum => Form::Sum,
        Shape::Linear(a, b) => Form::Linear {
            a: number(rt, a),
            b: number(rt, b),
        },
    }
}

// The text of the composed program; empty where there is none.
fn composed(alloc: Global, program: &str, form: &Form) -> Result<Option<Vec<u8>>, Fail> {
    let program = parse(alloc, program.as_bytes())?;
    match compose(alloc, &program, form)? {
        None => Ok(None),
        Some(made) => {
            let mut text = Vec::new(alloc);
            print(&made, &mut text)?;
            Ok(Some(text))
        }
    }
}

#[test]
fn composed_texts(rt: HostRuntime) -> Result<(), Fail> {
    for case in &CASES {
        let form = form_of(&rt, case.form);
        let made = composed(rt.alloc(), case.program, &form)?;
        match (&made, case.want) {
            (None, None) => {}
            (Some(text), Some(want)) => {
                assert!(rt; text.as_slice() == want.as_bytes(), "{want}");
            }
            _ => assert!(rt; false, "{}", case.program),
        }
    }
    Ok(())
}

// The form, the number of instructions, and the number that the composed program has.
static LENGTHS: [(Shape, usize, Option<usize>); 9] = [
    (Shape::Direct, 1_000, Some(1_000)),
    (Shape::Linear(1, 0), 1_000, Some(1_000)),
    (Shape::Linear(2, 0), 1_000, None),
    (Shape::Linear(2, 1), 998, Some(1_000)),
    (Shape::Linear(2, 1), 999, None),
    (Shape::Difference, 498, Some(999)),
    (Shape::Difference, 499, None),
    (Shape::Sum, 991, Some(1_000)),
    (Shape::Sum, 992, None),
];

// How many instructions the composed program of so many has; 0 where these are no program.
fn composed_len(alloc: Global, count: usize, form: &Form) -> Result<Option<usize>, Fail> {
    let mut list = Vec::new(alloc);
    for _ in 0..count {
        list.push(Instr::Arith {
            verb: Verb::Mov,
            target: Operand::Direct(0),
            source: Operand::Constant(1),
        })?;
    }
    match Program::new(list) {
        Ok(program) => match compose(alloc, &program, form)? {
            Some(made) => Ok(Some(made.instrs().len())),
            None => Ok(None),
        },
        Err(_) => Ok(Some(0)),
    }
}

#[test]
fn lengths(rt: HostRuntime) -> Result<(), Fail> {
    for &(shape, count, want) in &LENGTHS {
        let form = form_of(&rt, shape);
        assert_eq!(rt; composed_len(rt.alloc(), count, &form)?, want, "{count}");
    }
    Ok(())
}
