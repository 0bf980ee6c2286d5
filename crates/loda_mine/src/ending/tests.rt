//! What is told of each status, and its number.

use super::tell;
use crate::status::{FileRole, Status};
use checked_numbers::Num;
use judge::{Got, Unsound};
use loda_syntax::SyntaxKind;
use oeis_terms::TermsKind;
use program_store::StoreKind;
use std::test::Fail;

// Each kind of status, its number and its text.
const TEXTS: [(Status, u8, &str); 31] = [
    (Status::Usage, 2, "usage"),
    (
        Status::ReadFault {
            file: FileRole::Terms,
        },
        3,
        "cannot read terms",
    ),
    (
        Status::ReadFault {
            file: FileRole::Store,
        },
        3,
        "cannot read store",
    ),
    (
        Status::ReadFault {
            file: FileRole::Candidates,
        },
        3,
        "cannot read candidates",
    ),
    (Status::WriteFault, 4, "cannot write"),
    (
        Status::FileTooLarge {
            file: FileRole::Terms,
            size: 268_435_457,
        },
        5,
        "terms too large at byte 268435457",
    ),
    (
        Status::LineTooLong {
            file: FileRole::Terms,
            line: 3,
        },
        6,
        "terms line 3 too long",
    ),
    (
        Status::BadTerms {
            line: 3,
            kind: TermsKind::BadName,
        },
        7,
        "terms line 3: bad-name",
    ),
    (
        Status::BadTerms {
            line: 3,
            kind: TermsKind::NoComma,
        },
        7,
        "terms line 3: no-comma",
    ),
    (
        Status::BadTerms {
            line: 3,
            kind: TermsKind::BadTerm { column: 12 },
        },
        7,
        "terms line 3: bad-term column 12",
    ),
    (
        Status::BadTerms {
            line: 3,
            kind: TermsKind::Repeated { name: 290 },
        },
        7,
        "terms line 3: repeated A000290",
    ),
    (
        Status::BadStore {
            line: 3,
            kind: StoreKind::BadHeader,
        },
        8,
        "store line 3: bad-header",
    ),
    (
        Status::BadStore {
            line: 3,
            kind: StoreKind::OutOfOrder,
        },
        8,
        "store line 3: out-of-order",
    ),
    (
        Status::BadStore {
            line: 3,
            kind: StoreKind::Syntax(SyntaxKind::UnknownOp),
        },
        8,
        "store line 3: unknown-op",
    ),
    (
        Status::BadCandidates {
            line: 3,
            kind: StoreKind::TooMany,
        },
        9,
        "candidates line 3: too-many",
    ),
    (
        Status::Unsound(Unsound::Cycle { through: 1 }),
        10,
        "unsound: cycle through A000001",
    ),
    (
        Status::Unsound(Unsound::NoRow { name: 290 }),
        10,
        "unsound: A000290 has no row",
    ),
    (
        Status::Unsound(Unsound::Count {
            name: 290,
            checked: 11,
            usable: 10,
        }),
        10,
        "unsound: A000290 checked 11 usable 10",
    ),
    (
        Status::Unsound(Unsound::Unmet {
            name: 290,
            index: 9,
            got: Got::OutOfSteps,
        }),
        10,
        "unsound: A000290 index 9 got out-of-steps",
    ),
    (
        Status::FileTooLarge {
            file: FileRole::Store,
            size: 268_435_457,
        },
        5,
        "store too large at byte 268435457",
    ),
    (
        Status::LineTooLong {
            file: FileRole::Store,
            line: 3,
        },
        6,
        "store line 3 too long",
    ),
    (
        Status::FileTooLarge {
            file: FileRole::Candidates,
            size: 268_435_457,
        },
        5,
        "candidates too large at byte 268435457",
    ),
    (
        Status::LineTooLong {
            file: FileRole::Candidates,
            line: 3,
        },
        6,
        "candidates line 3 too long",
    ),
    (
        Status::BadStore {
            line: 3,
            kind: StoreKind::Repeated,
        },
        8,
        "store line 3: repeated",
    ),
    (
        Status::BadStore {
            line: 3,
            kind: StoreKind::BadCount,
        },
        8,
        "store line 3: bad-count",
    ),
    (
        Status::Unsound(Unsound::Unmet {
            name: 290,
            index: 9,
            got: Got::Overflow,
        }),
        10,
        "unsound: A000290 index 9 got overflow",
    ),
    (
        Status::Unsound(Unsound::Unmet {
            name: 290,
            index: 9,
            got: Got::DivideByZero,
        }),
        10,
        "unsound: A000290 index 9 got divide-by-zero",
    ),
    (
        Status::Unsound(Unsound::Unmet {
            name: 290,
            index: 9,
            got: Got::BadCell,
        }),
        10,
        "unsound: A000290 index 9 got bad-cell",
    ),
    (
        Status::Unsound(Unsound::Unmet {
            name: 290,
            index: 9,
            got: Got::Missing,
        }),
        10,
        "unsound: A000290 index 9 got missing",
    ),
    (Status::Memory, 11, "out of memory"),
    (Status::Absent { name: 3 }, 12, "no program A000003"),
];

#[test]
fn tells_each_status(rt: HostRuntime) -> Result<(), Fail> {
    let alloc = rt.alloc();
    for (status, number, text) in TEXTS {
        let mut errors = Vec::new(alloc);
        assert_eq!(rt; tell(status, &mut errors), number);
        let line = format!(in alloc; "loda_mine: {text}\n")?;
        assert_eq!(rt; errors.as_slice(), line.as_bytes());
    }
    let Some(got) = Num::new(72) else {
        return Err(Fail::new("72 is a number"));
    };
    let unmet = Status::Unsound(Unsound::Unmet {
        name: 290,
        index: 9,
        got: Got::Value(got),
    });
    let told = unmet.to_string(alloc)?;
    assert_eq!(rt; told.as_str(), "unsound: A000290 index 9 got 72");
    let mut errors = Vec::new(alloc);
    assert_eq!(rt; tell(Status::Done, &mut errors), 0);
    assert_eq!(rt; errors.len(), 0);
    Ok(())
}
