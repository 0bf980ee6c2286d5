//! Desks that are finished by their caller.

ghost use Rattle.std.specs.Prelude.{◌≤◌, IfOk};
ghost use Rattle.std.specs.Arc.{arc_value};
ghost use Rattle.oeis_terms.specs.Table.{IsBounded};

use crate::{Gate, JobSource, OpenGate, finish};
use loda_io::{File, MemoryShelf};
use oeis_terms::{TermTable, read_terms};
use program_store::{Store, parse_candidates};
use publish_desk::{Desk, Entry, Origin};
use std::alloc::{AllocError, Global};
use std::sync::Arc;
use std::sync::atomic::{AtomicU64, Ordering};
use std::test::Fail;

const TERMS: &str = "A000027 ,1,2,3,4,5,6,7,8,\nA000290 ,0,1,4,9,16,25,36,49,64,81,\n";

// Counts the calls.
#[derive(Drop)]
struct Counting {
    before: AtomicU64,
    after: AtomicU64,
    accepted: AtomicU64,
}

impl Gate for Counting {
    fn before_publish(&self, _worker: u32, _job: u64) {
        self.before.fetch_add(1, Ordering::SeqCst);
    }

    fn after_publish(&self, _worker: u32, _job: u64, accepted: bool) {
        self.after.fetch_add(1, Ordering::SeqCst);
        if accepted {
            self.accepted.fetch_add(1, Ordering::SeqCst);
        }
    }
}

impl Counting {
    fn new() -> Counting {
        Counting {
            before: AtomicU64::new(0),
            after: AtomicU64::new(0),
            accepted: AtomicU64::new(0),
        }
    }

    // How many publishes were begun, how many were decided, and how many were accepted.
    fn counts(&self) -> (u64, u64, u64) {
        (
            self.before.load(Ordering::SeqCst),
            self.after.load(Ordering::SeqCst),
            self.accepted.load(Ordering::SeqCst),
        )
    }
}

fn table(alloc: Global) -> Result<Arc<TermTable>, Fail>
    ensures { IfOk result (λ t. IsBounded (arc_value t)) }
{
    let mut files = Vec::new(alloc);
    let bytes = Vec::from_slice(alloc, TERMS.as_bytes())?;
    files.push(File::of(String::from_str(alloc, "t")?, bytes))?;
    let mut shelf = MemoryShelf::new(files, Vec::new(alloc));
    let terms = read_terms(alloc, &mut shelf, "t")?;
    let shared = Arc::new(alloc, terms)?;
    Ok(shared)
}

// A desk with an empty store and these candidates.
fn listed(alloc: Global, candidates: &str) -> Result<Desk, Fail> {
    let terms = table(alloc)?;
    let candidates = parse_candidates(alloc, candidates.as_bytes())?;
    let jobs = candidates.len();
    let origin = Origin::Listed(Arc::new(alloc, candidates)?);
    let desk = Desk::start(alloc, Store::empty(alloc), terms, 100_000, origin, jobs)?;
    Ok(desk)
}

// A desk with an empty store and jobs of a seed.
fn seeded(alloc: Global, seed: u64, jobs: u64) -> Result<Desk, Fail>
    requires { jobs ≤ 1000000 }
{
    let terms = table(alloc)?;
    let origin = Origin::Seeded { seed };
    let desk = Desk::start(alloc, Store::empty(alloc), terms, 100_000, origin, jobs)?;
    Ok(desk)
}

fn finished<G: Gate>(alloc: Global, desk: Desk, gate: &G) -> Result<Desk, AllocError> {
    let source = JobSource::of(alloc, &desk)?;
    finish(alloc, &source, desk, gate)
}

// Candidates, and how often the gate is called: before a publish, after one, and after an accepted one.
struct Row {
    candidates: &'static str,
    counts: (u64, u64, u64),
}

static ROWS: [Row; 3] = [
    Row {
        candidates: "",
        counts: (0, 0, 0),
    },
    Row {
        candidates: "? A000290\nmul $0,$0\n",
        counts: (1, 1, 1),
    },
    // the second is no gain
    Row {
        candidates: "? A000290\nmul $0,$0\n? A000290\nmul $0,$0\n",
        counts: (2, 2, 1),
    },
];

#[test]
fn lists(rt: HostRuntime) -> Result<(), Fail> {
    let alloc = rt.alloc();
    for row in &ROWS {
        let gate = Counting::new();
        let desk = finished(alloc, listed(alloc, row.candidates)?, &gate)?;
        assert_eq!(rt; gate.counts(), row.counts);
        assert_eq!(rt; desk.version(), row.counts.2);
        assert_eq!(rt; desk.missing_job(), None);
    }
    Ok(())
}

// Whether the jobs stand in order, and no base is less than the one before it.
fn in_order(entries: &[Entry]) -> bool {
    let mut base = 0;
    for (place, entry) in entries.iter().enumerate() {
        if entry.job != place as u64 || entry.base < base {
            return false;
        }
        base = entry.base;
    }
    true
}

#[test]
fn seeds(rt: HostRuntime) -> Result<(), Fail> {
    let alloc = rt.alloc();
    let desk = finished(alloc, seeded(alloc, 7, 5)?, &OpenGate)?;
    assert_eq!(rt; desk.entries().len(), 5);
    assert!(rt; in_order(desk.entries()));
    assert_eq!(rt; desk.missing_job(), None);
    Ok(())
}

fn is_shared<T: Send + Sync>(_value: &T) -> bool {
    true
}

#[test]
fn shared(rt: HostRuntime) -> Result<(), Fail> {
    let alloc = rt.alloc();
    let source = JobSource::of(alloc, &seeded(alloc, 7, 5)?)?;
    assert!(rt; is_shared(&source));
    Ok(())
}
