//! Stores and candidates files, their texts and their faults.

ghost use Rattle.text_parts.specs.Names.{IsName};

use crate::StoreKind::{BadCount, BadHeader, OutOfOrder, Repeated, Syntax, TooMany};
use crate::{
    Library, Overlay, Proposal, Published, Store, StoreError, StoreKind, View, parse_candidates,
    parse_store, print_store, read_candidates, read_store,
};
use loda_io::{File, MemoryShelf};
use loda_syntax::SyntaxKind::{BadOperand, LoopClose, LoopOpen, UnknownOp};
use loda_syntax::{Program, parse};
use std::alloc::{AllocError, Global};
use std::test::Fail;

static STORE_FAULTS: [(&str, u64, StoreKind); 32] = [
    ("= A000290 7", 1, BadCount),
    ("= A000290 10\n= A000045 8", 2, OutOfOrder),
    ("=A000290 10", 1, BadHeader),
    // each kind in a later section
    ("= A000001 8\n= A000002 8\n=A000003 8\n", 3, BadHeader),
    ("= A000001 8\nmov $0,1\n= A000001 8\n", 3, Repeated),
    (
        "= A000003 8\n\n= A000004 8\nlpb $0\nlpe\n= A000002 8",
        6,
        OutOfOrder,
    ),
    ("= A000001 8\n\n\n= A000002 32769\n", 4, BadCount),
    (
        "; x\n= A000001 8\nmov $0,1\n= A000002 8\n\nfoo $0,1\n",
        6,
        Syntax(UnknownOp),
    ),
    (
        "= A000001 8\n= A000002 8\nlpb $0\nlpb $1\nlpe",
        3,
        Syntax(LoopOpen),
    ),
    (
        "= A000001 8\r\nmov $0,1\r\n= A000002 8\r\nlpe\r\n",
        4,
        Syntax(LoopClose),
    ),
    // the tests of a section in their order
    ("= A000002 8\n= A000002 7\nfoo", 2, Repeated),
    ("= A000002 8\n= A000001 7\nfoo", 2, OutOfOrder),
    ("= A000002 7\nfoo", 1, BadCount),
    ("= A000001 8\nlpb $0\n=A000001 8", 2, Syntax(LoopOpen)),
    // lines before the first header
    ("x\n=A000001 8", 1, BadHeader),
    ("; x\n\t \n\r\n#\n= A000001 8", 4, BadHeader),
    ("\r\r\n= A000001 8", 1, BadHeader),
    (" = A000001 8", 1, BadHeader),
    // headers of another form
    ("= A000001 08", 1, BadHeader),
    ("= A000001 00", 1, BadHeader),
    ("= A000001  8", 1, BadHeader),
    ("= A000001 +8", 1, BadHeader),
    ("= A000001", 1, BadHeader),
    ("= A000001 ", 1, BadHeader),
    ("= A000000 8", 1, BadHeader),
    ("= A00001 8", 1, BadHeader),
    ("= a000001 8", 1, BadHeader),
    ("= A000001 8 ; x", 1, BadHeader),
    ("= A000001 8\r ", 1, BadHeader),
    // a header sign behind a blank is text
    ("= A000001 8\n = A000002 8", 2, Syntax(UnknownOp)),
    ("= A000001 0", 1, BadCount),
    ("= A000001 99999999999999999999999999999", 1, BadCount),
];

#[test]
fn store_faults(rt: HostRuntime) {
    for &(text, line, kind) in &STORE_FAULTS {
        let read = parse_store(rt.alloc(), text.as_bytes()).map(|_| ());
        assert_eq!(rt; read, Err(StoreError::Bad { line, kind }), "{text}");
    }
}

static CANDIDATE_FAULTS: [(&str, u64, StoreKind); 8] = [
    ("? A000290\nlpb $0", 2, Syntax(LoopOpen)),
    ("? A000290\n? A000001 8", 2, BadHeader),
    (
        "? A000290\nmov $0,1\n\n? A000001\nmov $0\n",
        5,
        Syntax(BadOperand),
    ),
    ("= A000290 8", 1, BadHeader),
    ("; x\n? A000001\nlpe\n?A000002", 3, Syntax(LoopClose)),
    ("?", 1, BadHeader),
    ("? A000000", 1, BadHeader),
    ("? A0000001", 1, BadHeader),
];

#[test]
fn candidate_faults(rt: HostRuntime) {
    for &(text, line, kind) in &CANDIDATE_FAULTS {
        let read = parse_candidates(rt.alloc(), text.as_bytes()).map(|_| ());
        assert_eq!(rt; read, Err(StoreError::Bad { line, kind }), "{text}");
    }
}

// Texts of stores and their canonical texts.
static STORE_TEXTS: [(&str, &str); 5] = [
    ("", ""),
    (" ; nothing\r\n\t\n", ""),
    ("= A000290 10\nmul $0,$0", "= A000290 10\nmul $0,$0\n"),
    (
        "; x\n= A000001 8 \t\r\n\n= A999999 32768\n",
        "= A000001 8\n= A999999 32768\n",
    ),
    (
        "= A000045 8\n; Fibonacci numbers\nmov $1,1\nlpb $0\nsub $0,1\nmov $3,$1\nadd $1,$2\nmov $2,$3\nlpe\nmov $0,$2\n= A100000 12\nseq $0,45",
        "= A000045 8\nmov $1,1\nlpb $0\n  sub $0,1\n  mov $3,$1\n  add $1,$2\n  mov $2,$3\nlpe\nmov $0,$2\n= A100000 12\nseq $0,45\n",
    ),
];

#[test]
fn store_texts(rt: HostRuntime) -> Result<(), Fail> {
    for &(text, canonical) in &STORE_TEXTS {
        let store = parse_store(rt.alloc(), text.as_bytes())?;
        let mut out = vec![in rt.alloc(); b'>']?;
        print_store(&store, &mut out)?;
        assert!(rt; !out.is_empty());
        assert_eq!(rt; &out[1..], canonical.as_bytes(), "{text}");
        let again = parse_store(rt.alloc(), canonical.as_bytes())?;
        assert_eq!(rt; again.len(), store.len(), "{text}");
    }
    Ok(())
}

fn program(alloc: Global, text: &str) -> Result<Program, Fail> {
    Ok(parse(alloc, text.as_bytes())?)
}

// A name, and the next one in the store of A000005 and A000290.
static NEXT_NAMES: [(u32, Option<u32>); 5] = [
    (0, Some(5)),
    (4, Some(5)),
    (5, Some(290)),
    (290, None),
    (999_999, None),
];

#[test]
fn next_names(rt: HostRuntime) -> Result<(), Fail> {
    let store = parse_store(rt.alloc(), b"= A000005 8\n= A000290 8\n")?;
    for &(after, next) in &NEXT_NAMES {
        assert_eq!(rt; store.next_name(after), next, "after {after}");
    }
    Ok(())
}

// Puts a program under a name, and says how many terms were checked of what stood there.
fn put(store: &mut Store, name: u32, program: &Program, checked: u32) -> Result<Option<u32>, Fail>
    requires { IsName name }
{
    let published = Published {
        program: program.copy()?,
        checked,
    };
    match store.put(name, published) {
        Ok(old) => Ok(old.map(|old| old.checked)),
        Err(_) => Err(Fail::from("no memory")),
    }
}

// Whether a library has this program under a name.
fn has<L: Library>(library: &L, name: u32, program: &Program) -> bool {
    library
        .program(name)
        .is_some_and(|found| found.same(program))
}

#[test]
fn store_calls(rt: HostRuntime) -> Result<(), Fail> {
    let square = program(rt.alloc(), "mul $0,$0")?;
    let twice = program(rt.alloc(), "add $0,$0")?;
    let mut store = Store::empty(rt.alloc());
    let old = (
        put(&mut store, 290, &square, 10)?,
        put(&mut store, 5, &square, 10)?,
        put(&mut store, 290, &twice, 12)?,
    );
    assert_eq!(rt; old, (None, None, Some(10)));
    assert_eq!(rt; store.len(), 2);
    assert_eq!(rt; store.published(290).map(|entry| entry.checked), Some(12));
    assert!(rt; store.published(45).is_none() && store.program(0).is_none());
    assert!(rt; has(&store, 290, &twice));
    let overlay = Overlay {
        base: &store,
        name: 5,
        program: &twice,
    };
    assert!(rt; has(&overlay, 5, &twice) && has(&overlay, 290, &twice));
    assert!(rt; has(&store, 5, &square) && overlay.program(45).is_none());
    Ok(())
}

#[test]
fn candidates_in_order(rt: HostRuntime) -> Result<(), Fail> {
    let text = "\n? A000290\nmul $0,$0\n? A000005\n? A000290 \r\nadd $0,$0";
    let candidates = parse_candidates(rt.alloc(), text.as_bytes())?;
    assert_eq!(rt; candidates.len(), 3);
    let names = [290, 5, 290];
    let texts = ["mul $0,$0", "", "add $0,$0"];
    for job in 0..candidates.len().min(3) {
        let proposal = candidates.at(job).copy()?;
        let place = job as usize;
        assert_eq!(rt; proposal.name, names[place], "job {job}");
        assert!(rt;
            proposal.program.same(&program(rt.alloc(), texts[place])?),
            "job {job}"
        );
    }
    assert_eq!(rt; parse_candidates(rt.alloc(), b"")?.len(), 0);
    Ok(())
}

#[test]
fn too_many_candidates(rt: HostRuntime) -> Result<(), Fail> {
    let mut text = Vec::new(rt.alloc());
    for _ in 0..1_000_000 {
        text.extend_from_slice(b"? A000001\n")?;
    }
    assert_eq!(rt; parse_candidates(rt.alloc(), &text)?.len(), 1_000_000);
    text.extend_from_slice(b"? A000001\nfoo")?;
    let fault = StoreError::Bad {
        line: 1_000_001,
        kind: TooMany,
    };
    assert_eq!(rt; parse_candidates(rt.alloc(), &text).map(|_| ()), Err(fault));
    Ok(())
}

// A shelf with the files `s`, `c` and `long`, of which the calls that are listed fail.
fn shelf(alloc: Global, fail_at: &[u64]) -> Result<MemoryShelf, AllocError> {
    let mut files = Vec::new(alloc);
    for (name, text) in [
        ("s", "= A000290 10\nmul $0,$0\n"),
        ("c", "? A000290\nfoo\n"),
    ] {
        files.push(File::of(
            String::from_str(alloc, name)?,
            Vec::from_slice(alloc, text.as_bytes())?,
        ))?;
    }
    files.push(File::of(
        String::from_str(alloc, "long")?,
        vec![in alloc; b';'; 65_537]?,
    ))?;
    Ok(MemoryShelf::new(files, Vec::from_slice(alloc, fail_at)?))
}

#[test]
fn files(rt: HostRuntime) -> Result<(), Fail> {
    let mut files = shelf(rt.alloc(), &[])?;
    assert_eq!(rt; read_store(rt.alloc(), &mut files, "s")?.len(), 1);
    let fault = StoreError::Bad {
        line: 2,
        kind: Syntax(UnknownOp),
    };
    let read = read_candidates(rt.alloc(), &mut files, "c").map(|_| ());
    assert_eq!(rt; read, Err(fault));
    let read = read_store(rt.alloc(), &mut files, "long").map(|_| ());
    assert_eq!(rt; read, Err(StoreError::LineTooLong { line: 1 }));
    let read = read_candidates(rt.alloc(), &mut files, "absent").map(|_| ());
    assert_eq!(rt; read, Err(StoreError::Failed));
    let mut files = shelf(rt.alloc(), &[1])?;
    let read = read_store(rt.alloc(), &mut files, "s").map(|_| ());
    assert_eq!(rt; read, Err(StoreError::Failed));
    Ok(())
}

fn is_shared<T: Send + Sync>(_value: &T) -> bool {
    true
}

#[test]
fn shared(rt: HostRuntime) -> Result<(), Fail> {
    let program = program(rt.alloc(), "")?;
    let proposal = Proposal {
        name: 1,
        program: program.copy()?,
    };
    let published = Published {
        program,
        checked: 8,
    };
    assert!(rt; is_shared(&proposal) && is_shared(&published));
    assert!(rt; is_shared(&Store::empty(rt.alloc())));
    assert!(rt; is_shared(&parse_candidates(rt.alloc(), b"")?));
    Ok(())
}
