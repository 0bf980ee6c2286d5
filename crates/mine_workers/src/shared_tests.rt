//! A desk that is shared, by two workers and by two seats.

ghost use Rattle.std.specs.Prelude.{◌≡◌, ◌<◌, false, All, IfOk, IfSome};
ghost use Rattle.oeis_terms.specs.Table.{IsBounded};
ghost use Rattle.judge.specs.Sound.{Sound};
ghost use Rattle.publish_desk.specs.Desk.{terms_of, IsChartered, IsFitting};
ghost use Rattle.mine_workers.specs.JobSources.{job_source_of};
ghost use Rattle.mine_workers.specs.Publishable.{IsPublishable};
ghost use Rattle.mine_workers.specs.Shared.{desk_of, snapshot_of, IsSeatOf};

use crate::renewing::{found, renewed};
use crate::working::perform;
use crate::{Gate, Held, JobSource, OpenGate, SharedStore, run_jobs};
use evidence::{Dossier, Snapshot};
use loda_io::{File, MemoryShelf};
use oeis_terms::{TermTable, read_terms};
use program_store::{Store, parse_candidates};
use publish_desk::{Desk, Origin, Verdict, write_report};
use std::alloc::{AllocError, Global};
use std::process::Abort;
use std::sync::atomic::{AtomicBool, AtomicU64, Ordering};
use std::sync::{Arc, Wait};
use std::test::Fail;
use turnstile::Seat;

const LIMIT: u64 = 100_000;

// How often a held worker looks at the flag.
const TURNS: u32 = 100_000_000;

const SQUARES: &str = "A000290 ,0,1,4,9,16,25,36,49,64,81,\n";

const TWO_ROWS: &str = "A000290 ,0,1,4,9,16,25,36,49,64,81,\nA000027 ,1,2,3,4,5,6,7,8,\n";

const THREE_ROWS: &str =
    "A000290 ,0,1,4,9,16,25,36,49,64,81,\nA000027 ,1,2,3,4,5,6,7,8,\nA016742 ,0,4,16,36,64,100,144,196,\n";

const SQUARE: &str = "? A000290\nmul $0,$0\n";

const TWO_CANDIDATES: &str = "? A000290\nmul $0,$0\n? A000027\nadd $0,1\n";

const SQUARE_AND_CALLER: &str = "? A000290\nmul $0,$0\n? A016742\nmul $0,2\nseq $0,290\n";

const SQUARE_REPORT: &str = "\
journal
job 0 base 0 A000290 accepted 10
mul $0,$0
store
= A000290 10
mul $0,$0
end jobs 1 version 1
";

// Holds the first worker that is about to publish until another one's accepted publish is reported.
#[derive(Drop)]
struct Holding {
    has_held: AtomicBool,
    held_job: AtomicU64,
    is_reported: AtomicBool,
    is_late: AtomicBool,
    begun: AtomicU64,
    decided: AtomicU64,
}

impl Holding {
    fn new() -> Holding {
        Holding {
            has_held: AtomicBool::new(false),
            held_job: AtomicU64::new(0),
            is_reported: AtomicBool::new(false),
            is_late: AtomicBool::new(false),
            begun: AtomicU64::new(0),
            decided: AtomicU64::new(0),
        }
    }

    // Whether the limit of turns was reached, how often a publish was begun, and how many were decided.
    fn counts(&self) -> (bool, u64, u64) {
        (
            self.is_late.load(Ordering::SeqCst),
            self.begun.load(Ordering::SeqCst),
            self.decided.load(Ordering::SeqCst),
        )
    }

    // Looks at the flag until it is set.
    fn hold(&self) {
        for _ in 0..TURNS {
            if self.is_reported.load(Ordering::SeqCst) {
                return;
            }
        }
        self.is_late.store(true, Ordering::SeqCst);
    }
}

impl Gate for Holding {
    fn before_publish(&self, _worker: u32, job: u64) {
        self.begun.fetch_add(1, Ordering::SeqCst);
        if !self.has_held.swap(true, Ordering::SeqCst) {
            self.held_job.store(job, Ordering::SeqCst);
            self.hold();
        }
    }

    fn after_publish(&self, _worker: u32, _job: u64, accepted: bool) {
        self.decided.fetch_add(1, Ordering::SeqCst);
        if accepted {
            self.is_reported.store(true, Ordering::SeqCst);
        }
    }
}

fn rows_of(alloc: Global, text: &str) -> Result<TermTable, Fail>
    ensures { IfOk result IsBounded }
{
    let mut files = Vec::new(alloc);
    let bytes = Vec::from_slice(alloc, text.as_bytes())?;
    files.push(File::of(String::from_str(alloc, "t")?, bytes))?;
    let mut shelf = MemoryShelf::new(files, Vec::new(alloc));
    let terms = read_terms(alloc, &mut shelf, "t")?;
    Ok(terms)
}

// A desk on the empty store, with a job for each candidate.
fn opened(alloc: Global, terms: &str, candidates: &str) -> Result<Desk, Fail> {
    let terms = Arc::new(alloc, rows_of(alloc, terms)?)?;
    let candidates = parse_candidates(alloc, candidates.as_bytes())?;
    let jobs = candidates.len();
    let origin = Origin::Listed(Arc::new(alloc, candidates)?);
    let desk = Desk::start(alloc, Store::empty(alloc), terms, LIMIT, origin, jobs)?;
    Ok(desk)
}

// The jobs and the bases of a journal's first two entries, and how many entries it has.
fn first_two(desk: &Desk) -> Option<((u64, u64), (u64, u64), usize)> {
    let entries = desk.entries();
    let first = entries.get(0)?;
    let second = entries.get(1)?;
    Some((
        (first.job, first.base),
        (second.job, second.base),
        entries.len(),
    ))
}

// two-at-once: one worker is held before its publish until the other's is decided. Its first publish is Again, since the version is
// 1; it carries its dossier, whose base stays 0, and publishes once more.
#[test]
fn two_at_once(rt: HostRuntime) -> Result<(), Fail> {
    let alloc = rt.alloc();
    let gate = Holding::new();
    let desk = opened(alloc, TWO_ROWS, TWO_CANDIDATES)?;
    let desk = run_jobs(&rt, alloc, desk, 2, &gate)?;
    assert_eq!(rt; gate.counts(), (false, 3, 2));
    let held = gate.held_job.load(Ordering::SeqCst);
    let other = if held == 0 { 1 } else { 0 };
    assert_eq!(rt; first_two(&desk), Some(((other, 0), (held, 0), 2)));
    Ok(())
}

// What a verdict says, in numbers: a place; the version, the place and the name; or a place.
#[derive(Clone, Copy, Debug, PartialEq, Eq)]
enum Told {
    Decided(u64),
    Again(u64, u64, u32),
    AlreadyDone(u64),
}

fn in_numbers(verdict: &Verdict) -> Told {
    match verdict {
        Verdict::Decided { at } => Told::Decided(*at),
        Verdict::Again {
            version,
            first,
            name,
            dossier: _,
        } => Told::Again(*version, *first, *name),
        Verdict::AlreadyDone { at, dossier: _ } => Told::AlreadyDone(*at),
    }
}

// The last seat of a list, which is taken out.
fn last_of(store: &SharedStore, seats: &mut Vec<Seat<Held>>) -> Option<Seat<Held>>
    requires { All (λ s. IsSeatOf store.now s × (s.known.turn ≡ false)) seats.old.items }
    ensures seats { All (λ s. IsSeatOf store.now s × (s.known.turn ≡ false)) seats.new.items }
    ensures seat { IfSome result (λ s. IsSeatOf store.now s × (s.known.turn ≡ false)) }
{
    let _ = store;
    seats.pop()
}

// A store with two seats.
fn with_two_seats(alloc: Global, desk: Desk) -> Result<(SharedStore, Seat<Held>, Seat<Held>), Fail>
    ensures charter { IfOk result (λ r. r.0.fixed ≡ desk.charter) }
    ensures first { IfOk result (λ r. IsSeatOf r.0 r.1 × (r.1.known.turn ≡ false)) }
    ensures second { IfOk result (λ r. IsSeatOf r.0 r.2 × (r.2.known.turn ≡ false)) }
{
    let (store, mut seats) = SharedStore::make(alloc, desk, 2)?;
    let one = last_of(&store, &mut seats).ok_or("no seat")?;
    let two = last_of(&store, &mut seats).ok_or("no seat")?;
    Ok((store, one, two))
}

// What is found for a job in the store of a snapshot that a seat was shown.
fn gathered(
    alloc: Global,
    store: &SharedStore,
    source: &JobSource,
    seat: &Seat<Held>,
    snapshot: &Snapshot,
    job: u64,
) -> Result<Dossier, AllocError>
    requires source { (source.now ≡ job_source_of store.now.fixed) × IsChartered store.now.fixed }
    requires job { job < store.now.fixed.jobs }
    requires shown { snapshot.now ≡ snapshot_of (desk_of store.now.fixed seat.now.known.seen) }
    requires sound { Sound snapshot.now.store (terms_of store.now.fixed) store.now.fixed.limit }
    ensures { IfOk result (IsFitting (desk_of store.now.fixed seat.now.known.seen)) }
{
    let _ = store;
    let _ = seat;
    let dossier = source.dossier(alloc, snapshot, job)?;
    Ok(dossier)
}

// Publishes a dossier for the first job and one for another job, both gathered from one snapshot.
fn publish_both<R: Wait>(
    rt: &R,
    alloc: Global,
    store: &SharedStore,
    source: &JobSource,
    seat: &mut Seat<Held>,
    job: u64,
) -> Result<(Told, Told), AllocError>
    requires source { (source.now ≡ job_source_of store.now.fixed) × IsChartered store.now.fixed }
    requires first { 0 < store.now.fixed.jobs }
    requires job { job < store.now.fixed.jobs }
    requires seat { IsSeatOf store.now seat.old × (seat.old.known.turn ≡ false) }
    ensures { IsSeatOf store.now seat.new × (seat.new.known.turn ≡ false) }
{
    let snapshot = store.look(rt, seat)?;
    let first = gathered(alloc, store, source, seat, &snapshot, 0)?;
    let second = gathered(alloc, store, source, seat, &snapshot, job)?;
    let decided = store.publish(rt, seat, first);
    let done = store.publish(rt, seat, second);
    Ok((in_numbers(&decided), in_numbers(&done)))
}

// The store has one entry, that of row square-published, and so has what it prints.
fn has_one_entry(rt: &impl Abort, alloc: Global, desk: &Desk) -> Result<(), Fail> {
    let mut report = Vec::new(alloc);
    write_report(desk, &mut report)?;
    assert_eq!(rt; report.as_slice(), SQUARE_REPORT.as_bytes());
    assert_eq!(rt; (desk.entries().len(), desk.version()), (1, 1));
    Ok(())
}

// What two publishes answer, the lengths of the journal that the two seats and a third one were told before and after, and the
// desk at the end.
fn closed_after<R: Wait>(
    rt: &R,
    alloc: Global,
    desk: Desk,
    job: u64,
) -> Result<(Told, Told, (u64, u64), (u64, u64, u64), Desk), Fail>
    requires first { 0 < desk.charter.jobs }
    requires job { job < desk.charter.jobs }
{
    let source = JobSource::of(alloc, &desk)?;
    let (store, mut one, mut two) = with_two_seats(alloc, desk)?;
    let before = (store.peek(&mut one), store.peek(&mut two));
    let (first, second) = publish_both(rt, alloc, &store, &source, &mut one, job)?;
    let mut three = store.split(&mut two);
    let after = (
        store.peek(&mut one),
        store.peek(&mut two),
        store.peek(&mut three),
    );
    Ok((first, second, before, after, store.close(rt, one)))
}

// dossier-twice: the second publish is refused, and leaves the store and the journal as they were.
#[test]
fn dossier_twice(rt: HostRuntime) -> Result<(), Fail> {
    let alloc = rt.alloc();
    let desk = opened(alloc, SQUARES, SQUARE)?;
    assert_eq!(rt; desk.jobs(), 1);
    let (first, second, before, after, desk) = closed_after(&rt, alloc, desk, 0)?;
    assert_eq!(rt; (first, second), (Told::Decided(0), Told::AlreadyDone(0)));
    assert_eq!(rt; before, (0, 0));
    assert_eq!(rt; after, (1, 1, 1));
    assert_eq!(rt; desk.missing_job(), None);
    has_one_entry(&rt, alloc, &desk)
}

// A dossier of the version before is refused, and leaves the store and the journal as they were.
#[test]
fn late_dossier(rt: HostRuntime) -> Result<(), Fail> {
    let alloc = rt.alloc();
    let desk = opened(alloc, TWO_ROWS, TWO_CANDIDATES)?;
    assert_eq!(rt; desk.jobs(), 2);
    let (first, second, _, after, desk) = closed_after(&rt, alloc, desk, 1)?;
    assert_eq!(rt; (first, second), (Told::Decided(0), Told::Again(1, 0, 290)));
    assert_eq!(rt; after, (1, 1, 1));
    assert_eq!(rt; desk.missing_job(), Some(1));
    has_one_entry(&rt, alloc, &desk)
}

// What publishing a late dossier answers, and after Again what publishing it answers once it is renewed.
fn publish_late<R: Wait>(
    rt: &R,
    alloc: Global,
    store: &SharedStore,
    source: &JobSource,
    seat: &mut Seat<Held>,
    late: Dossier,
) -> Result<(Told, Option<Told>), AllocError>
    requires source { (source.now ≡ job_source_of store.now.fixed) × IsChartered store.now.fixed }
    requires seat { IsSeatOf store.now seat.old × (seat.old.known.turn ≡ false) }
    requires late { IsPublishable store.now.fixed seat.old.known.seen late }
    ensures { IsSeatOf store.now seat.new × (seat.new.known.turn ≡ false) }
{
    match store.publish(rt, seat, late) {
        Verdict::Again {
            version,
            first,
            name,
            dossier,
        } => {
            let newer = renewed(rt, alloc, source, store, seat, dossier)?;
            let second = in_numbers(&store.publish(rt, seat, newer));
            Ok((Told::Again(version, first, name), Some(second)))
        }
        verdict => Ok((in_numbers(&verdict), None)),
    }
}

// The second job's dossier is found before the first job is done, and comes after it.
fn come_late<R: Wait>(rt: &R, alloc: Global, desk: Desk) -> Result<(Told, Option<Told>, Desk), Fail>
    requires two { 1 < desk.charter.jobs }
{
    let source = JobSource::of(alloc, &desk)?;
    let (store, mut one, mut two) = with_two_seats(alloc, desk)?;
    let late = found(rt, alloc, &source, &store, &mut two, 1)?;
    perform(rt, alloc, &source, &store, &OpenGate, 1, &mut one, 0)?;
    let (first, second) = publish_late(rt, alloc, &store, &source, &mut two, late)?;
    Ok((first, second, store.close(rt, one)))
}

// Whether a desk's report has a line.
fn prints(alloc: Global, desk: &Desk, line: &str) -> Result<bool, Fail> {
    let mut report = Vec::new(alloc);
    write_report(desk, &mut report)?;
    let text = String::from_utf8(report).map_err(|_| "no text")?;
    Ok(text.contains(line))
}

// Two candidates, and the line of the second one's entry. The base tells whether its late dossier was carried on or found anew.
static LATE: [(&str, &str); 2] = [
    // untouched-moves
    (TWO_CANDIDATES, "\njob 1 base 0 A000027 accepted 8\n"),
    // touched-stays: its callee was published
    (SQUARE_AND_CALLER, "\njob 1 base 1 A016742 accepted 8\n"),
];

#[test]
fn late_dossiers_move_on(rt: HostRuntime) -> Result<(), Fail> {
    let alloc = rt.alloc();
    for &(candidates, line) in &LATE {
        let desk = opened(alloc, THREE_ROWS, candidates)?;
        assert_eq!(rt; desk.jobs(), 2);
        let (first, second, desk) = come_late(&rt, alloc, desk)?;
        assert_eq!(rt;
            (first, second),
            (Told::Again(1, 0, 290), Some(Told::Decided(1)))
        );
        assert!(rt; prints(alloc, &desk, line)?);
    }
    Ok(())
}
