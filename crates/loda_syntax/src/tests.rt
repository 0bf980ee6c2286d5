//! Texts and their programs or faults, by the grammar.

use crate::error::SyntaxKind::{
    BadOperand, ConstantTarget, Directive, LoopClose, LoopOpen, TooLong, UnknownOp, Unsupported,
    WideLiteral,
};
use crate::{Instr, Operand, ParseError, Program, SyntaxKind, Verb, parse, print};
use std::alloc::{AllocError, Global};
use std::test::Fail;

static FAULTS: [(&str, u64, SyntaxKind); 61] = [
    // one line as a program
    ("foo $0,1", 1, UnknownOp),
    ("cmp $0,1", 1, Unsupported),
    ("lpb $0,$1", 1, Unsupported),
    ("mov 1,$0", 1, ConstantTarget),
    ("mov $0", 1, BadOperand),
    ("mov $4096,1", 1, BadOperand),
    (
        "mov $0,170141183460469231731687303715884105728",
        1,
        WideLiteral,
    ),
    ("lpe", 1, LoopClose),
    ("lpb $0", 1, LoopOpen),
    ("#offset 1", 1, Directive),
    (" MOV", 1, UnknownOp),
    // each kind behind lines that are good
    ("mov $0,1\n  # x", 2, Directive),
    ("\n\nmov $0,1\nmow $0,1\n", 4, UnknownOp),
    ("mov $0,1\n\ndgr $0,1", 3, Unsupported),
    ("; x\nmov $0,x", 2, BadOperand),
    (
        "add $1,1\nadd $1,-170141183460469231731687303715884105728",
        2,
        WideLiteral,
    ),
    ("add $1,1\r\nadd 1,1\r\n", 2, ConstantTarget),
    ("add $1,1\nlpb $$1\nlpe", 2, Unsupported),
    ("add $1,1\nclr $1,1025\n", 2, BadOperand),
    ("lpb $0\nlpe\nlpe\nfoo", 3, LoopClose),
    ("lpb $0\nlpb $1\nlpe\n", 1, LoopOpen),
    (
        "lpb $0\nlpe\n\nlpb $1\nlpb $2\nlpe\nadd $0,1\n",
        4,
        LoopOpen,
    ),
    // the tests go over all operands one after the other
    ("mov 1,$4096", 1, BadOperand),
    (
        "mov 1,170141183460469231731687303715884105728",
        1,
        WideLiteral,
    ),
    (
        "mov 170141183460469231731687303715884105728,$4096",
        1,
        BadOperand,
    ),
    ("lpb 5,$1", 1, ConstantTarget),
    ("clr 5,$1", 1, ConstantTarget),
    ("seq 5,$1", 1, ConstantTarget),
    ("lpb $$0,0", 1, Unsupported),
    ("lpe $0", 1, BadOperand),
    ("lpe ,", 1, BadOperand),
    ("#foo", 1, Directive),
    ("mov", 1, BadOperand),
    ("mov $0,1,2", 1, BadOperand),
    ("mov $0,", 1, BadOperand),
    ("mov ,1", 1, BadOperand),
    ("mov $,1", 1, BadOperand),
    ("mov $$,1", 1, BadOperand),
    ("mov $-1,1", 1, BadOperand),
    ("mov $ 1,1", 1, BadOperand),
    ("mov $0,+1", 1, BadOperand),
    ("mov $0,-", 1, BadOperand),
    ("mov $0,--1", 1, BadOperand),
    ("mov $$$0,1", 1, BadOperand),
    ("mov $0,1\r\r\n", 1, BadOperand),
    ("\r\r\n", 1, UnknownOp),
    ("mov\u{0}$0,1", 1, UnknownOp),
    ("mov,$0,1", 1, UnknownOp),
    ("mov $0,1\u{0}", 1, BadOperand),
    // regions, lengths and names
    ("clr $0,-1", 1, BadOperand),
    ("clr $0,$1", 1, Unsupported),
    ("clr $3073,1024", 1, BadOperand),
    ("clr $4095,2", 1, BadOperand),
    ("clr $4096,0", 1, BadOperand),
    ("lpb $0,0\nlpe", 1, BadOperand),
    ("lpb $0,65\nlpe", 1, BadOperand),
    ("lpb $4095,2\nlpe", 1, BadOperand),
    ("seq $0,0", 1, BadOperand),
    ("seq $0,1000000", 1, BadOperand),
    ("seq $0,$1", 1, BadOperand),
    ("seq $0,-1", 1, BadOperand),
];

#[test]
fn refused_lines(rt: HostRuntime) -> Result<(), Fail> {
    for &(text, line, kind) in &FAULTS {
        let fault = parse(rt.alloc(), text.as_bytes()).err();
        assert_eq!(rt; fault, Some(ParseError::Syntax { line, kind }), "{text}");
    }
    Ok(())
}

static TEXTS: [(&str, &str); 18] = [
    ("", ""),
    ("\n \t\r\n;", ""),
    ("  lpb $0,1 ; x\n lpe", "lpb $0\nlpe\n"),
    ("mul $0,$0", "mul $0,$0\n"),
    // what has no meaning
    ("\tmov\t$0 ,\t1  ; add $1,1 ; #\r\n\r\n", "mov $0,1\n"),
    ("mov $007,-0", "mov $7,0\n"),
    ("mov $0,-007", "mov $0,-7\n"),
    ("mov $$0004095,$$4095", "mov $$4095,$$4095\n"),
    (
        "mov $0,000170141183460469231731687303715884105727",
        "mov $0,170141183460469231731687303715884105727\n",
    ),
    (
        "mov $0,-170141183460469231731687303715884105727",
        "mov $0,-170141183460469231731687303715884105727\n",
    ),
    ("mov $0,1;\r", "mov $0,1\n"),
    // every word
    (
        "mov $0,1\nadd $0,1\nsub $0,1\ntrn $0,1\nmul $0,1\ndiv $0,1\ndif $0,1\nmod $0,1\npow $0,1",
        "mov $0,1\nadd $0,1\nsub $0,1\ntrn $0,1\nmul $0,1\ndiv $0,1\ndif $0,1\nmod $0,1\npow $0,1\n",
    ),
    (
        "gcd $0,1\nbin $0,1\nequ $0,1\nneq $0,1\nleq $0,1\ngeq $0,1\nmin $0,1\nmax $0,1",
        "gcd $0,1\nbin $0,1\nequ $0,1\nneq $0,1\nleq $0,1\ngeq $0,1\nmin $0,1\nmax $0,1\n",
    ),
    (
        "clr $0,0\nclr $3072,1024\nlpb $4032,64\nlpe\nseq $$0,999999\nseq $1,001",
        "clr $0,0\nclr $3072,1024\nlpb $4032,64\nlpe\nseq $$0,999999\nseq $1,1\n",
    ),
    ("lpb $4095\nlpe", "lpb $4095\nlpe\n"),
    ("clr $4095,1", "clr $4095,1\n"),
    // indentation
    (
        "lpb $0\nlpb $1,2\nadd $0,1\nlpe\nlpb $2\nlpe\nlpe\nadd $0,1",
        "lpb $0\n  lpb $1,2\n    add $0,1\n  lpe\n  lpb $2\n  lpe\nlpe\nadd $0,1\n",
    ),
    (
        "mov $1,1\nlpb $0\n  sub $0,1\n  mov $3,$1\n  add $1,$2\n  mov $2,$3\nlpe\nmov $0,$2",
        "mov $1,1\nlpb $0\n  sub $0,1\n  mov $3,$1\n  add $1,$2\n  mov $2,$3\nlpe\nmov $0,$2\n",
    ),
];

#[test]
fn canonical_texts(rt: HostRuntime) -> Result<(), Fail> {
    for &(text, want) in &TEXTS {
        let program = parse(rt.alloc(), text.as_bytes())?;
        let mut out = Vec::new(rt.alloc());
        print(&program, &mut out)?;
        assert!(rt; out.as_slice() == want.as_bytes(), "{text}");
        let again = parse(rt.alloc(), &out)?;
        assert!(rt;
            again.same(&program) && program.copy()?.same(&again),
            "{text}"
        );
    }
    Ok(())
}

fn repeated(alloc: Global, line: &str, count: usize) -> Result<String, AllocError> {
    let mut text = String::new(alloc);
    for _ in 0..count {
        text.push_str(line)?;
    }
    Ok(text)
}

// A text: what stands first, a line that is repeated, and what stands last.
fn long(
    alloc: Global,
    first: &str,
    line: &str,
    count: usize,
    last: &str,
) -> Result<String, AllocError> {
    let mut text = String::from_str(alloc, first)?;
    text.push_str(repeated(alloc, line, count)?.as_str())?;
    text.push_str(last)?;
    Ok(text)
}

// The parts of such texts, and how many instructions they have, or their fault.
static LONG: [(&str, &str, usize, &str, Result<usize, (u64, SyntaxKind)>); 6] = [
    ("", "; x\nadd $0,1\n", 1000, "", Ok(1000)),
    (
        "",
        "; x\nadd $0,1\n",
        1000,
        "\nadd $0,1\nfoo",
        Err((2002, TooLong)),
    ),
    // an end without a loop comes first
    ("", "add $0,1\n", 1000, "lpe", Err((1001, LoopClose))),
    ("", "lpb $0\n", 500, "", Err((500, LoopOpen))),
    // a line of 64 KiB
    ("", " ", 65_527, "add $0,1;\nx", Err((2, UnknownOp))),
    ("mov $0,-", "0", 65_000, "1", Ok(1)),
];

#[test]
fn long_texts(rt: HostRuntime) -> Result<(), Fail> {
    for &(first, line, count, last, want) in &LONG {
        let text = long(rt.alloc(), first, line, count, last)?;
        let got = parse(rt.alloc(), text.as_bytes()).map(|program| program.instrs().len());
        let want = want.map_err(|(line, kind)| ParseError::Syntax { line, kind });
        assert_eq!(rt; got, want, "{first}{line}");
    }
    Ok(())
}

#[test]
fn nested_loops(rt: HostRuntime) -> Result<(), Fail> {
    let alloc = rt.alloc();
    let mut text = repeated(alloc, "lpb $0\n", 500)?;
    text.push_str(repeated(alloc, "lpe\n", 500)?.as_str())?;
    let program = parse(alloc, text.as_bytes())?;
    let mut out = Vec::new(alloc);
    print(&program, &mut out)?;
    assert_eq!(rt; out.len(), 500 * 7 + 500 * 4 + 2 * 500 * 499);
    assert!(rt; parse(alloc, &out)?.same(&program));
    Ok(())
}

// Each byte as a line.
#[test]
fn any_bytes(rt: HostRuntime) {
    for byte in 0..=255 {
        let want = match byte {
            b' ' | b'\t' | b'\n' | b'\r' | b';' => None,
            b'#' => Some(Directive),
            _ => Some(UnknownOp),
        };
        let want = want.map(|kind| ParseError::Syntax { line: 2, kind });
        assert_eq!(rt; parse(rt.alloc(), &[b'\n', byte]).err(), want, "{byte}");
    }
}

fn is_shared<T: Send + Sync>(_value: &T) -> bool {
    true
}

const ONE: Instr = Instr::LoopStart { start: 0, len: 1 };

// Instructions that are no program by themselves.
static MALFORMED: [Instr; 9] = [
    ONE,
    Instr::LoopEnd,
    Instr::LoopStart { start: 0, len: 65 },
    Instr::Clear {
        start: 4096,
        count: 0,
    },
    Instr::Clear {
        start: 4095,
        count: 2,
    },
    Instr::Call {
        target: Operand::Direct(0),
        name: 0,
    },
    Instr::Call {
        target: Operand::Constant(0),
        name: 1,
    },
    Instr::Arith {
        verb: Verb::Mov,
        target: Operand::Direct(0),
        source: Operand::Constant(i128::MIN),
    },
    Instr::Arith {
        verb: Verb::Mov,
        target: Operand::Indirect(4096),
        source: Operand::Constant(0),
    },
];

#[test]
fn lists_of_instructions(rt: HostRuntime) -> Result<(), Fail> {
    let alloc = rt.alloc();
    let program = Program::new(vec![in alloc; ONE, Instr::LoopEnd]?);
    assert!(rt; program.is_ok() && is_shared(&program));
    for &instr in &MALFORMED {
        match Program::new(vec![in alloc; instr]?) {
            Ok(_) => assert!(rt; false),
            Err(given) => assert!(rt; given.as_slice() == [instr].as_slice()),
        }
    }
    Ok(())
}

static WORDS: [(SyntaxKind, &str); 9] = [
    (Directive, "directive"),
    (UnknownOp, "unknown-op"),
    (Unsupported, "unsupported"),
    (BadOperand, "bad-operand"),
    (WideLiteral, "wide-literal"),
    (ConstantTarget, "constant-target"),
    (LoopClose, "loop-close"),
    (TooLong, "too-long"),
    (LoopOpen, "loop-open"),
];

#[test]
fn texts_of_errors(rt: HostRuntime) -> Result<(), Fail> {
    for &(kind, text) in &WORDS {
        assert!(rt; format!(in rt.alloc(); "{kind}")?.as_str() == text);
    }
    let error = ParseError::Syntax {
        line: 3,
        kind: UnknownOp,
    };
    assert!(rt; format!(in rt.alloc(); "{error}")?.as_str() == "line 3: unknown-op");
    assert!(rt; format!(in rt.alloc(); "{}", ParseError::Memory)?.as_str() == "out of memory");
    Ok(())
}
