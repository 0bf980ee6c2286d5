//! Which words are in the grammar of a command, and what they ask for; which ask for help.

use crate::{Command, Help, Kind, Task, help_of, mine_request_of, request_of};
use std::alloc::{AllocError, Global};
use std::test::Fail;

fn words_of(alloc: Global, words: &[&str]) -> Result<Vec<String>, AllocError> {
    let mut all = Vec::new(alloc);
    for word in words {
        all.push(String::from_str(alloc, word)?)?;
    }
    Ok(all)
}

// Words that are in no command's grammar.
static NO_WORDS: [&[&str]; 25] = [
    &[],
    &[
        "mine",
        "terms=t",
        "store=-",
        "seed=1",
        "jobs=1",
        "workers=1",
    ],
    &["publish"],
    &["publish", "terms=t", "store=-"],
    &["publish", "terms=t", "store=-", "cands=c", "cands=c"],
    &["publish", "terms=", "store=-", "cands=c"],
    &["publish", "terms=t", "store=", "cands=c"],
    &["publish", "terms=t", "store=-", "cands=c", "seed=1"],
    &["publish", "terms=t", "store=-", "cands=c", "steps"],
    &["publish", "terms=t", "store=-", "cands=c", "steps=0"],
    &["publish", "terms=t", "store=-", "cands=c", "steps=010"],
    &["publish", "terms=t", "store=-", "cands=c", "steps=10000001"],
    &["publish", "terms=t", "store=-", "cands=c", "steps=+5"],
    &["check", "terms=t", "store=-", "cands=c"],
    &["made", "n=0", "kind=run"],
    &["made", "n=20001", "kind=run"],
    &["made", "n=03", "kind=run"],
    &["made", "n=3", "kind=rows"],
    &["made", "n=3"],
    &["made", "n=3", "kind=run", "steps=5"],
    &["eval", "store=-", "name=A000000", "arg=0"],
    &["eval", "store=-", "name=A00045", "arg=0"],
    &["eval", "store=-", "name=A000045", "arg=-0"],
    &["eval", "store=-", "name=A000045", "arg=007"],
    &[
        "eval",
        "store=-",
        "name=A000045",
        "arg=170141183460469231731687303715884105728",
    ],
];

#[test]
fn refuses_words(rt: HostRuntime) -> Result<(), Fail> {
    let alloc = rt.alloc();
    for &words in &NO_WORDS {
        let words = words_of(alloc, words)?;
        assert!(rt; request_of(&words).is_none());
    }
    Ok(())
}

// Words that are not in the grammar of `mine`.
static NO_WORDS_OF_MINE: [&[&str]; 14] = [
    &[],
    &["mine"],
    &["publish", "terms=t", "store=-", "cands=c"],
    &[
        "mine",
        "terms=t",
        "store=-",
        "seed=1",
        "jobs=1",
        "workers=0",
    ],
    &[
        "mine",
        "terms=t",
        "store=-",
        "seed=1",
        "jobs=1",
        "workers=65",
    ],
    &[
        "mine",
        "terms=t",
        "store=-",
        "seed=1",
        "jobs=1000001",
        "workers=1",
    ],
    &[
        "mine",
        "terms=t",
        "store=-",
        "seed=18446744073709551616",
        "jobs=1",
        "workers=1",
    ],
    &[
        "mine",
        "terms=t",
        "store=-",
        "seed=-1",
        "jobs=1",
        "workers=1",
    ],
    &[
        "mine",
        "terms=t",
        "store=-",
        "seed=01",
        "jobs=1",
        "workers=1",
    ],
    &["mine", "terms=t", "store=-", "jobs=1", "workers=1"],
    &[
        "mine",
        "terms=t",
        "store=-",
        "seed=1",
        "seed=1",
        "jobs=1",
        "workers=1",
    ],
    &["mine", "terms=t", "store=-", "seed=1", "workers=1"],
    &["mine", "terms=t", "store=-", "seed=1", "jobs=1"],
    &[
        "mine",
        "terms=t",
        "store=-",
        "seed=1",
        "jobs=1",
        "workers=1",
        "cands=c",
    ],
];

#[test]
fn refuses_words_of_mine(rt: HostRuntime) -> Result<(), Fail> {
    let alloc = rt.alloc();
    for &words in &NO_WORDS_OF_MINE {
        let words = words_of(alloc, words)?;
        assert!(rt; mine_request_of(&words).is_none());
    }
    Ok(())
}

// Words, their task, and their step limit. The terms are `t` and the store is the empty one.
const MINE: [(&[&str], Task, u64); 2] = [
    (
        &[
            "mine",
            "terms=t",
            "store=-",
            "seed=0",
            "jobs=0",
            "workers=1",
        ],
        Task::Mine {
            seed: 0,
            jobs: 0,
            workers: 1,
        },
        100_000,
    ),
    (
        &[
            "mine",
            "workers=64",
            "jobs=1000000",
            "steps=10000000",
            "seed=18446744073709551615",
            "store=-",
            "terms=t",
        ],
        Task::Mine {
            seed: 18_446_744_073_709_551_615,
            jobs: 1_000_000,
            workers: 64,
        },
        10_000_000,
    ),
];

#[test]
fn reads_words_of_mine(rt: HostRuntime) -> Result<(), Fail> {
    let alloc = rt.alloc();
    for (words, task, limit) in MINE {
        let words = words_of(alloc, words)?;
        let Some(request) = mine_request_of(&words) else {
            return Err(Fail::new("words of mine"));
        };
        assert_eq!(rt; request.task, task);
        assert_eq!(rt; request.limit, limit);
        assert_eq!(rt; request.terms, Some("t"));
        assert!(rt; request.store.is_none() && request.candidates.is_none());
    }
    Ok(())
}

// Words of the other commands, and their task.
const OTHERS: [(&[&str], Task); 3] = [
    (&["publish", "terms=t", "store=-", "cands=c"], Task::Publish),
    (&["check", "terms=t", "store=s"], Task::Check),
    (
        &["made", "n=20000", "kind=cands"],
        Task::Made {
            n: 20_000,
            kind: Kind::Candidates,
        },
    ),
];

#[test]
fn reads_words(rt: HostRuntime) -> Result<(), Fail> {
    let alloc = rt.alloc();
    for (words, task) in OTHERS {
        let words = words_of(alloc, words)?;
        let Some(request) = request_of(&words) else {
            return Err(Fail::new("words of a command"));
        };
        assert_eq!(rt; request.task, task);
        assert_eq!(rt; request.limit, 100_000);
    }
    Ok(())
}

// Words, and the help that they ask for.
static HELP: [(&[&str], Option<Help>); 17] = [
    (&["--help"], Some(Help::All)),
    (&["-h"], Some(Help::All)),
    (&["help"], Some(Help::All)),
    (&["--version"], Some(Help::Version)),
    (&["publish", "--help"], Some(Help::About(Command::Publish))),
    (&["mine", "--help"], Some(Help::About(Command::Mine))),
    (&["check", "--help"], Some(Help::About(Command::Check))),
    (&["eval", "--help"], Some(Help::About(Command::Eval))),
    (&["made", "--help"], Some(Help::About(Command::Made))),
    (&[], None),
    (&["publish"], None),
    (&["--Help"], None),
    (&["help", "publish"], None),
    (&["--help", "publish"], None),
    (&["audit", "--help"], None),
    (&["publish", "terms=t", "--help"], None),
    (&["publish", "terms=t", "store=-", "cands=c"], None),
];

#[test]
fn asks_for_help(rt: HostRuntime) -> Result<(), Fail> {
    let alloc = rt.alloc();
    for &(words, help) in &HELP {
        let words = words_of(alloc, words)?;
        assert_eq!(rt; help_of(&words), help);
    }
    Ok(())
}

// What help is asked for, and how its page begins.
static PAGES: [(Help, &str); 7] = [
    (Help::All, "loda_mine: "),
    (Help::About(Command::Publish), "loda_mine publish terms="),
    (Help::About(Command::Mine), "loda_mine mine terms="),
    (Help::About(Command::Check), "loda_mine check terms="),
    (Help::About(Command::Eval), "loda_mine eval store="),
    (Help::About(Command::Made), "loda_mine made n="),
    (Help::Version, "loda_mine "),
];

#[test]
fn has_a_page_for_each_help(rt: HostRuntime) -> Result<(), Fail> {
    for &(help, head) in &PAGES {
        let page = help.text();
        assert!(rt; page.starts_with(head));
        assert!(rt; page.ends_with("\n"));
    }
    Ok(())
}
