//! Rows and values with the matches that the forms give.

use super::*;
use checked_numbers::Num;
use oeis_terms::parse_terms;
use std::alloc::{AllocError, Global};
use std::process::Abort;
use std::test::Fail;

// The greatest number.
const M: i128 = 170_141_183_460_469_231_731_687_303_715_884_105_727;

struct Row {
    name: u32,
    terms: [i128; 8],
}

#[derive(Clone, Copy)]
enum Want {
    Direct(u32),
    Difference(u32),
    Sum(u32),
    /// The name, `a` and `b`.
    Linear(u32, i128, i128),
}

struct Case {
    what: &'static str,
    rows: &'static [Row],
    values: [i128; 9],
    wants: &'static [Want],
}

static CASES: [Case; 12] = [
    Case {
        what: "a generated line",
        rows: &[Row {
            name: 16_789,
            terms: [2, 5, 8, 11, 14, 17, 20, 23],
        }],
        values: [0, 3, 6, 9, 12, 15, 18, 21, 24],
        wants: &[Want::Linear(16_789, 1, 2)],
    },
    Case {
        what: "each form, and then by name",
        rows: &[
            Row {
                name: 3,
                terms: [0, 1, 4, 9, 16, 25, 36, 49],
            },
            Row {
                name: 2,
                terms: [0, 1, 5, 14, 30, 55, 91, 140],
            },
            Row {
                name: 1,
                terms: [1, 3, 5, 7, 9, 11, 13, 15],
            },
            Row {
                name: 5,
                terms: [7, 5, -1, -11, -25, -43, -65, -91],
            },
            Row {
                name: 4,
                terms: [0, 1, 4, 9, 16, 25, 36, 49],
            },
        ],
        values: [0, 1, 4, 9, 16, 25, 36, 49, 64],
        wants: &[
            Want::Direct(3),
            Want::Direct(4),
            Want::Difference(1),
            Want::Sum(2),
            Want::Linear(5, -2, 7),
        ],
    },
    Case {
        what: "each form but at the last place",
        rows: &[
            Row {
                name: 1,
                terms: [0, 1, 4, 9, 16, 25, 36, 50],
            },
            Row {
                name: 2,
                terms: [1, 3, 5, 7, 9, 11, 13, 16],
            },
            Row {
                name: 3,
                terms: [0, 1, 5, 14, 30, 55, 91, 141],
            },
            Row {
                name: 4,
                terms: [7, 5, -1, -11, -25, -43, -65, -92],
            },
        ],
        values: [0, 1, 4, 9, 16, 25, 36, 49, 64],
        wants: &[],
    },
    Case {
        what: "the ninth value counts for differences alone",
        rows: &[
            Row {
                name: 1,
                terms: [0, 1, 4, 9, 16, 25, 36, 49],
            },
            Row {
                name: 2,
                terms: [1, 3, 5, 7, 9, 11, 13, 16],
            },
            Row {
                name: 3,
                terms: [0, 1, 5, 14, 30, 55, 91, 140],
            },
            Row {
                name: 4,
                terms: [1, 3, 5, 7, 9, 11, 13, 15],
            },
        ],
        values: [0, 1, 4, 9, 16, 25, 36, 49, 65],
        wants: &[Want::Direct(1), Want::Difference(2), Want::Sum(3)],
    },
    Case {
        what: "values that are all equal",
        rows: &[
            Row {
                name: 1,
                terms: [7, 7, 7, 7, 7, 7, 7, 7],
            },
            Row {
                name: 2,
                terms: [0, 0, 0, 0, 0, 0, 0, 1],
            },
            Row {
                name: 3,
                terms: [7, 14, 21, 28, 35, 42, 49, 56],
            },
            Row {
                name: 4,
                terms: [14, 14, 14, 14, 14, 14, 14, 14],
            },
        ],
        values: [7, 7, 7, 7, 7, 7, 7, 7, 8],
        wants: &[Want::Direct(1), Want::Difference(2), Want::Sum(3)],
    },
    Case {
        what: "a that is no integer, a that is 0",
        rows: &[
            Row {
                name: 1,
                terms: [0, 1, 2, 3, 4, 5, 6, 7],
            },
            Row {
                name: 2,
                terms: [0, 3, 6, 9, 12, 15, 18, 21],
            },
            Row {
                name: 3,
                terms: [1, 5, 9, 13, 17, 21, 25, 29],
            },
            Row {
                name: 4,
                terms: [0, -2, -4, -6, -8, -10, -12, -14],
            },
            Row {
                name: 5,
                terms: [1, 1, 1, 1, 1, 1, 1, 1],
            },
        ],
        values: [0, 2, 4, 6, 8, 10, 12, 14, 16],
        wants: &[Want::Linear(3, 2, 1), Want::Linear(4, -1, 0)],
    },
    Case {
        what: "a sum past the numbers, and back",
        rows: &[
            Row {
                name: 1,
                terms: [M, M, M, M, M, M, M, M],
            },
            Row {
                name: 2,
                terms: [M, -M, M, M, M, M, M, M],
            },
            Row {
                name: 3,
                terms: [M, 1, -1, 0, 0, 0, 0, 0],
            },
        ],
        values: [M, 1, -1, 0, 0, 0, 0, 0, 0],
        wants: &[Want::Direct(3)],
    },
    Case {
        what: "sums within the numbers",
        rows: &[Row {
            name: 4,
            terms: [M, M - 1, M, M, M, M, M, M],
        }],
        values: [M, -1, 1, 0, 0, 0, 0, 0, 0],
        wants: &[Want::Sum(4)],
    },
    Case {
        what: "products past the numbers",
        rows: &[
            Row {
                name: 1,
                terms: [
                    -M,
                    -M + 2,
                    -M + 4,
                    -M + 6,
                    -M + 8,
                    -M + 10,
                    -M + 12,
                    -M + 14,
                ],
            },
            Row {
                name: 2,
                terms: [M, M - 2, M - 4, M - 6, M - 8, M - 10, M - 12, M - 14],
            },
        ],
        values: [M, M - 1, M - 2, M - 3, M - 4, M - 5, M - 6, M - 7, M - 8],
        wants: &[Want::Linear(1, -2, M), Want::Linear(2, 2, -M)],
    },
    Case {
        what: "differences past the numbers",
        rows: &[
            Row {
                name: 1,
                terms: [1, -1, 1, -1, 1, -1, 1, -1],
            },
            Row {
                name: 2,
                terms: [M, -M, M, -M, M, -M, M, -M],
            },
            Row {
                name: 3,
                terms: [-M, M, -M, M, -M, M, -M, M],
            },
            Row {
                name: 4,
                terms: [0, 1, 0, 1, 0, 1, 0, 1],
            },
        ],
        values: [M, -M, M, -M, M, -M, M, -M, M],
        wants: &[Want::Direct(2), Want::Linear(3, -1, 0)],
    },
    Case {
        what: "the greatest a, and a past it",
        rows: &[
            Row {
                name: 1,
                terms: [M, -M, M, -M, M, -M, M, -M],
            },
            Row {
                name: 2,
                terms: [0, M, 0, M, 0, M, 0, M],
            },
        ],
        values: [0, 1, 0, 1, 0, 1, 0, 1, 0],
        wants: &[Want::Linear(2, M, 0)],
    },
    Case {
        what: "b past the numbers",
        rows: &[Row {
            name: 1,
            terms: [M - 7, M - 6, M - 5, M - 4, M - 3, M - 2, M - 1, M],
        }],
        values: [-8, -7, -6, -5, -4, -3, -2, -1, 0],
        wants: &[],
    },
];

fn number(rt: &impl Abort, value: i128) -> Num {
    Num::new(value).expect(rt, "a value is a number")
}

fn wanted(rt: &impl Abort, want: Want) -> Match {
    match want {
        Want::Direct(name) => Match {
            name,
            form: Form::Direct,
        },
        Want::Difference(name) => Match {
            name,
            form: Form::Difference,
        },
        Want::Sum(name) => Match {
            name,
            form: Form::Sum,
        },
        Want::Linear(name, a, b) => Match {
            name,
            form: Form::Linear {
                a: number(rt, a),
                b: number(rt, b),
            },
        },
    }
}

fn add_row(
    alloc: Global,
    text: &mut String,
    name: u32,
    terms: &[i128; 8],
) -> Result<(), AllocError> {
    text.push_str(format!(in alloc; "A{name:06} ,")?.as_str())?;
    for term in terms {
        text.push_str(format!(in alloc; "{term},")?.as_str())?;
    }
    text.push('\n')
}

fn found(
    rt: &impl Abort,
    alloc: Global,
    text: &str,
    values: &[i128; 9],
) -> Result<Vec<Match>, Fail> {
    let table = parse_terms(alloc, text.as_bytes())?;
    let index = Index::build(alloc, &table)?;
    let mut numbers = [number(rt, 0); 9];
    for place in 0..9 {
        numbers[place] = number(rt, values[place]);
    }
    Ok(index.matches(alloc, &numbers)?)
}

// Whether these are the matches.
fn are_wanted(rt: &impl Abort, list: &[Match], wants: &[Want]) -> bool {
    list.len() == wants.len()
        && list
            .iter()
            .zip(wants)
            .all(|(found, want)| *found == wanted(rt, *want))
}

#[test]
fn each_form(rt: HostRuntime) -> Result<(), Fail> {
    let alloc = rt.alloc();
    for case in &CASES {
        let mut text = String::new(alloc);
        for row in case.rows {
            add_row(alloc, &mut text, row.name, &row.terms)?;
        }
        let list = found(&rt, alloc, text.as_str(), &case.values)?;
        assert!(rt; are_wanted(&rt, &list, case.wants), "{}", case.what);
    }
    Ok(())
}

static SQUARES: [i128; 9] = [0, 1, 4, 9, 16, 25, 36, 49, 64];

// Each form, and the terms from which it makes the squares.
static FORMS: [(Want, [i128; 8]); 4] = [
    (Want::Direct(1), [0, 1, 4, 9, 16, 25, 36, 49]),
    (Want::Difference(1), [1, 3, 5, 7, 9, 11, 13, 15]),
    (Want::Sum(1), [0, 1, 5, 14, 30, 55, 91, 140]),
    (Want::Linear(1, 2, 1), [1, 3, 9, 19, 33, 51, 73, 99]),
];

// Whether the names go up one by one from the first, and the matches have this form.
fn are_consecutive(list: &[Match], first: u32, form: &Form) -> bool {
    let names = first..first.saturating_add(16);
    list.iter()
        .zip(names)
        .all(|(found, name)| found.name == name && found.form == *form)
}

// Seventeen rows of one form.
#[test]
fn first_sixteen(rt: HostRuntime) -> Result<(), Fail> {
    let alloc = rt.alloc();
    for (want, terms) in &FORMS {
        let mut text = String::new(alloc);
        for back in 0..17u32 {
            add_row(alloc, &mut text, 26 - back, terms)?;
        }
        let list = found(&rt, alloc, text.as_str(), &SQUARES)?;
        assert_eq!(rt; list.len(), 16);
        assert!(rt; are_consecutive(&list, 10, &wanted(&rt, *want).form));
    }
    Ok(())
}

// Two forms that have seventeen together.
#[test]
fn direct_before_differences(rt: HostRuntime) -> Result<(), Fail> {
    let alloc = rt.alloc();
    let mut text = String::new(alloc);
    add_row(alloc, &mut text, 11, &FORMS[1].1)?;
    add_row(alloc, &mut text, 10, &FORMS[1].1)?;
    for name in 30..45u32 {
        add_row(alloc, &mut text, name, &FORMS[0].1)?;
    }
    let list = found(&rt, alloc, text.as_str(), &SQUARES)?;
    assert!(rt; list.len() == 16);
    assert!(rt; are_consecutive(&list[..15], 30, &Form::Direct));
    assert!(rt; list[15] == wanted(&rt, Want::Difference(10)));
    Ok(())
}

fn is_shared<T: Send + Sync>(_value: &T) -> bool {
    true
}

#[test]
fn is_send_and_sync(rt: HostRuntime) -> Result<(), Fail> {
    let table = parse_terms(rt.alloc(), b"A000001 ,1,2,3,4,5,6,7,8,\n")?;
    let index = Index::build(rt.alloc(), &table)?;
    assert!(rt; is_shared(&index));
    let one = wanted(&rt, Want::Sum(1));
    assert!(rt; is_shared(&one) && is_shared(&one.form));
    lines_are_found();
    Ok(())
}
