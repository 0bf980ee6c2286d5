//! Dossiers that are published twice, or late.

ghost use Rattle.std.specs.Prelude.{◌≡◌, ◌<◌, Some, IfOk};
ghost use Rattle.program_store.specs.Store.{IsProposal};
ghost use Rattle.publish_desk.specs.Desk.{IsFitting, origin_of};

use crate::{Desk, Origin, Verdict};
use evidence::{Dossier, gather};
use loda_io::{File, MemoryShelf};
use oeis_terms::read_terms;
use program_store::{Proposal, Store, parse_candidates};
use seq_calls::Steps;
use std::alloc::{AllocError, Global};
use std::marker::Brand;
use std::sync::Arc;
use std::sync::ledger::{Blank, Ledger};
use std::test::Fail;

const TERMS: &str = "A000027 ,1,2,3,4,5,6,7,8,\nA000290 ,0,1,4,9,16,25,36,49,64,81,\n";

const SQUARE: &str = "? A000290\nmul $0,$0\n";

const TWO: &str = "? A000290\nmul $0,$0\n? A000027\nadd $0,1\n";

// A verdict in numbers: a place; the version, the place and the name; or a place.
#[derive(Clone, Copy, Debug, PartialEq, Eq)]
enum Told {
    Decided(u64),
    Again(u64, u64, u32),
    AlreadyDone(u64),
}

fn in_numbers(verdict: &Verdict) -> Told {
    match verdict {
        Verdict::Decided { at } => Told::Decided(*at),
        Verdict::Again {
            version,
            first,
            name,
            dossier: _,
        } => Told::Again(*version, *first, *name),
        Verdict::AlreadyDone { at, dossier: _ } => Told::AlreadyDone(*at),
    }
}

// A desk with an empty store and these candidates.
fn opened(alloc: Global, candidates: &str) -> Result<Desk, Fail> {
    let mut files = Vec::new(alloc);
    let bytes = Vec::from_slice(alloc, TERMS.as_bytes())?;
    files.push(File::of(String::from_str(alloc, "t")?, bytes))?;
    let mut shelf = MemoryShelf::new(files, Vec::new(alloc));
    let terms = Arc::new(alloc, read_terms(alloc, &mut shelf, "t")?)?;
    let candidates = parse_candidates(alloc, candidates.as_bytes())?;
    let jobs = candidates.len();
    let origin = Origin::Listed(Arc::new(alloc, candidates)?);
    let desk = Desk::start(alloc, Store::empty(alloc), terms, 100_000, origin, jobs)?;
    Ok(desk)
}

// What is proposed for a job of a list.
fn proposed(desk: &Desk, job: u64) -> Result<Proposal, AllocError>
    requires { job < desk.now.charter.jobs }
    ensures value { IfOk result (λ p. origin_of desk.now.charter job desk.now.store (Some p)) }
    ensures kept { IfOk result IsProposal }
{
    // What is kept of each desk: a job for each candidate.
    let _ = desk.jobs();
    match desk.origin() {
        Origin::Listed(candidates) => candidates.at(job).copy(),
        Origin::Seeded { seed: _ } => Err(AllocError),
    }
}

// What is found for a job in the present store.
fn found<L: Ledger>(
    alloc: Global,
    blank: Blank,
    desk: &Desk,
    job: u64,
) -> Result<Dossier, AllocError>
    requires name { blank.name ≡ L.name }
    requires parts { blank.parts ≡ L.parts }
    requires some { 0 < L.parts }
    requires listed { job < desk.now.charter.jobs }
    ensures { IfOk result (IsFitting desk.now) }
{
    // What is kept of each desk: a sound store, a limit of steps, and bounded terms.
    let _ = (desk.version(), desk.jobs());
    let proposal = proposed(desk, job)?;
    let snapshot = desk.snapshot()?;
    let (book, share) = blank.open::<L>();
    let mut steps = Steps::start(book, share);
    let dossier = gather(
        alloc,
        &snapshot,
        desk.terms(),
        desk.limit(),
        job,
        Some(proposal),
        &mut steps,
    )?;
    Ok(dossier)
}

fn found_alone(alloc: Global, desk: &Desk, job: u64) -> Result<Dossier, AllocError>
    requires { job < desk.now.charter.jobs }
    ensures { IfOk result (IsFitting desk.now) }
{
    found::<Brand>(alloc, Blank::new(1), desk, job)
}

// What publishing two dossiers of the present store answers, one after the other.
fn publish_both(desk: &mut Desk, one: Dossier, two: Dossier) -> (Told, Told)
    requires one { IsFitting desk.old one }
    requires two { IsFitting desk.old two }
{
    // What is kept of each desk.
    let _ = desk.version();
    let first = desk.publish(one);
    let second = desk.publish(two);
    (in_numbers(&first), in_numbers(&second))
}

#[test]
fn twice(rt: HostRuntime) -> Result<(), Fail> {
    let alloc = rt.alloc();
    let mut desk = opened(alloc, SQUARE)?;
    assert_eq!(rt; desk.jobs(), 1);
    let one = found_alone(alloc, &desk, 0)?;
    let two = found_alone(alloc, &desk, 0)?;
    let (first, second) = publish_both(&mut desk, one, two);
    assert_eq!(rt; first, Told::Decided(0));
    assert_eq!(rt; second, Told::AlreadyDone(0));
    assert_eq!(rt; desk.version(), 1);
    assert_eq!(rt; desk.missing_job(), None);
    Ok(())
}

#[test]
fn late(rt: HostRuntime) -> Result<(), Fail> {
    let alloc = rt.alloc();
    let mut desk = opened(alloc, TWO)?;
    assert_eq!(rt; desk.jobs(), 2);
    let one = found_alone(alloc, &desk, 0)?;
    let two = found_alone(alloc, &desk, 1)?;
    let (first, second) = publish_both(&mut desk, one, two);
    assert_eq!(rt; first, Told::Decided(0));
    assert_eq!(rt; second, Told::Again(1, 0, 290));
    assert_eq!(rt; desk.missing_job(), Some(1));
    Ok(())
}

fn is_shared<T: Send + Sync>(_value: &T) -> bool {
    true
}

#[test]
fn shared(rt: HostRuntime) -> Result<(), Fail> {
    let desk = opened(rt.alloc(), SQUARE)?;
    assert!(rt; is_shared(&desk));
    Ok(())
}
