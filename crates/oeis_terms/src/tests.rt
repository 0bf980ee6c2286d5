//! Lines and files with the answers that the form of the file gives.

use super::*;
use checked_numbers::Num;
use loda_io::{File, MemoryShelf};
use std::test::Fail;

const SQUARES: &str = "A000290 ,0,1,4,9,16,25,36,49,64,81,";

fn parsed(alloc: Global, first: &str, rest: &str) -> Result<TermTable, TermsError> {
    let mut text = String::from_str(alloc, first)?;
    text.push_str(rest)?;
    parse_terms(alloc, text.as_bytes())
}

fn same(terms: &[Num], want: &[i128]) -> bool {
    terms.len() == want.len() && terms.iter().zip(want).all(|(term, z)| term.get() == *z)
}

// The beginning and the rest of a text, and the place and the kind of its first fault.
static BAD: [(&str, &str, u64, TermsKind); 21] = [
    ("A29 ,0,", "", 1, TermsKind::BadName),
    ("# OEIS\r\n\r\n", "B000001 ,1,\n", 3, TermsKind::BadName),
    ("#\n\nA000000 ,1,\n", "", 3, TermsKind::BadName),
    ("A0000001 ,1,\n", "", 1, TermsKind::BadName),
    (" # no comment\n", "", 1, TermsKind::BadName),
    (SQUARES, "\n\n;\n", 3, TermsKind::BadName),
    (SQUARES, "\n\nA", 3, TermsKind::BadName),
    ("A1234567 ,1,", "", 1, TermsKind::NoComma),
    (SQUARES, "\nA000001,1,\n", 2, TermsKind::NoComma),
    (SQUARES, "\nA000001 1,\n", 2, TermsKind::NoComma),
    (SQUARES, "\n#\nA000290 ,0,1", 3, TermsKind::NoComma),
    (SQUARES, "\nA000001 ,1,\r\r\n", 2, TermsKind::NoComma),
    (
        SQUARES,
        "\nA000001 ,0,1x,4,\n",
        2,
        TermsKind::BadTerm { column: 12 },
    ),
    (
        SQUARES,
        "\nA000001 ,1,,2,\n",
        2,
        TermsKind::BadTerm { column: 12 },
    ),
    (
        SQUARES,
        "\nA000001 ,1,-,2,\n",
        2,
        TermsKind::BadTerm { column: 12 },
    ),
    (
        SQUARES,
        "\nA000001 ,+1,\n",
        2,
        TermsKind::BadTerm { column: 10 },
    ),
    (
        SQUARES,
        "\nA000001 , 1,\n",
        2,
        TermsKind::BadTerm { column: 10 },
    ),
    (
        SQUARES,
        "\nA000290 ,x,\n",
        2,
        TermsKind::BadTerm { column: 10 },
    ),
    (
        "A000001 ,1,170141183460469231731687303715884105728,",
        "x,\n",
        1,
        TermsKind::BadTerm { column: 52 },
    ),
    (
        SQUARES,
        "\nA000290 ,1,\n",
        2,
        TermsKind::Repeated { name: 290 },
    ),
    (
        "A000001 ,1,\n\n",
        "A000001 ,1,2,3,4,5,6,7,8,",
        3,
        TermsKind::Repeated { name: 1 },
    ),
];

#[test]
fn first_bad_line(rt: HostRuntime) -> Result<(), Fail> {
    for &(first, rest, line, kind) in &BAD {
        let got = parsed(rt.alloc(), first, rest).map(|table| table.rows());
        assert_eq!(rt; got, Err(TermsError::Bad { line, kind }), "{first}{rest}");
    }
    Ok(())
}

// The beginning and the rest of a text, the numbers of rows and of skipped rows, and the terms of A000290.
static USABLE: [(&str, &str, usize, u64, &[i128]); 7] = [
    ("", "", 0, 0, &[]),
    ("A000290 ,\r\n", "\n# the end", 0, 1, &[]),
    ("A000290 ,1,2,3,4,5,6,7,", "\n", 0, 1, &[]),
    (
        "# OEIS\r\n\r\nA000290 ,0,1,4,9,16,25,36,49,64,81,\r\n",
        "A000027 ,1,2,3,4,5,6,7,8,",
        2,
        0,
        &[0, 1, 4, 9, 16, 25, 36, 49, 64, 81],
    ),
    (
        "A000290 ,0,1,4,9,16,25,36,49,64,",
        "170141183460469231731687303715884105728,100,",
        1,
        0,
        &[0, 1, 4, 9, 16, 25, 36, 49, 64],
    ),
    (
        "A000290 ,0,1,4,9,16,25,36,",
        "170141183460469231731687303715884105728,64,81,100,121,",
        0,
        1,
        &[],
    ),
    (
        "A000290 ,007,-0,170141183460469231731687303715884105727,",
        "-170141183460469231731687303715884105727,1,2,3,4, \t\r\n",
        1,
        0,
        &[7, 0, i128::MAX, -i128::MAX, 1, 2, 3, 4],
    ),
];

#[test]
fn usable_terms(rt: HostRuntime) -> Result<(), Fail> {
    for &(first, rest, rows, skipped, terms) in &USABLE {
        let table = parsed(rt.alloc(), first, rest)?;
        assert_eq!(rt;
            (table.rows(), table.skipped()),
            (rows, skipped),
            "{first}{rest}"
        );
        let row = table.row(290);
        assert!(rt;
            row.is_none() == terms.is_empty() && same(row.unwrap_or(&[]), terms),
            "{first}{rest}"
        );
    }
    Ok(())
}

#[test]
fn rows_ascend(rt: HostRuntime) -> Result<(), Fail> {
    let table = parsed(
        rt.alloc(),
        "A000290 ,0,1,4,9,16,25,36,49,\nA000027 ,1,2,3,4,5,6,7,8,\n",
        "A999999 ,8,7,6,5,4,3,2,1,\nA000045 ,0,1,1,2,3,5,8,13,\nA000001 ,1,\n",
    )?;
    assert_eq!(rt; (table.rows(), table.skipped()), (4, 1));
    for (place, name) in [(0, 27), (1, 45), (2, 290), (3, 999_999)] {
        assert!(rt; place < table.rows());
        let (found, terms) = table.row_at(place);
        assert_eq!(rt; found, name);
        assert_eq!(rt; terms.len(), 8);
        assert!(rt; table.row(name).is_some());
    }
    for name in [0, 1, 28, 1_000_000] {
        assert!(rt; table.row(name).is_none(), "{name}");
    }
    Ok(())
}

fn is_shared<T: Send + Sync>(_value: &T) -> bool {
    true
}

// A name, the place of the call that fails, and the number of rows.
static READS: [(&str, u64, Result<usize, TermsError>); 4] = [
    ("a", 9, Ok(1)),
    ("a", 1, Err(TermsError::Failed)),
    ("absent", 9, Err(TermsError::Failed)),
    (
        "b",
        9,
        Err(TermsError::Bad {
            line: 1,
            kind: TermsKind::BadName,
        }),
    ),
];

#[test]
fn read_by_name(rt: HostRuntime) -> Result<(), Fail> {
    let alloc = rt.alloc();
    for &(name, fault, want) in &READS {
        let mut files = Vec::new(alloc);
        let rows = Vec::from_slice(alloc, SQUARES.as_bytes())?;
        files.push(File::of(String::from_str(alloc, "a")?, rows))?;
        let text = Vec::from_slice(alloc, b"no row")?;
        files.push(File::of(String::from_str(alloc, "b")?, text))?;
        let mut shelf = MemoryShelf::new(files, Vec::from_slice(alloc, &[fault])?);
        let table = read_terms(alloc, &mut shelf, name);
        assert!(rt; is_shared(&table));
        assert_eq!(rt; table.map(|table| table.rows()), want, "{name} {fault}");
    }
    Ok(())
}
