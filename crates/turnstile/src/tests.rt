//! Seats that are taken, passed on and closed.

ghost use Rattle.std.specs.Prelude.{◌≡◌, ◌+◌, ◌++◌, ◌∷◌, [], false, length, IfOk};
ghost use Rattle.turnstile.specs.Seats.{Belongs};

use crate::{Kept, Seat, Turnstile};
use std::alloc::{AllocError, Global};
use std::sync::Wait;
use std::test::Fail;
use std::thread;
use std::thread::Threads;

// A list of numbers under a name.
#[derive(Drop)]
struct Log {
    name: u8,
    entries: Vec<u16>,
}

impl Kept for Log {
    type Entry = u16;

    type Fixed = u8;

    ghost list = { λ l. l.entries.items };

    ghost fixed = { λ l. l.name };

    fn length(&self) -> u64 {
        self.entries.len() as u64
    }
}

fn empty_log(alloc: Global) -> Log {
    Log {
        name: 7,
        entries: Vec::new(alloc),
    }
}

// Adds an entry, where there is memory, and says how many stood before it.
fn add<R: Wait>(
    rt: &R,
    turnstile: &Turnstile<Log>,
    seat: &mut Seat<Log>,
    entry: u16,
) -> Result<u64, AllocError>
    requires { Belongs turnstile.now seat.old × (seat.old.known.turn ≡ false) }
    ensures kept { Belongs turnstile.now seat.new × (seat.new.known.turn ≡ false) }
    ensures added { IfOk result (λ n. (seat.new.known.added ≡ seat.old.known.added ++ (n, entry) ∷ []) × (length seat.new.known.seen ≡ n + 1)) }
{
    let mut log = turnstile.take(rt, seat);
    let at = log.length();
    let pushed = log.entries.push(entry).is_ok();
    turnstile.give(seat, log);
    if pushed { Ok(at) } else { Err(AllocError) }
}

// Adds a hundred entries, with a look at the length after each.
fn add_many<R: Wait>(
    rt: &R,
    turnstile: &Turnstile<Log>,
    mut seat: Seat<Log>,
    entry: u16,
) -> Seat<Log>
    requires { Belongs turnstile.now seat × (seat.known.turn ≡ false) }
    ensures { Belongs turnstile.now result × (result.known.turn ≡ false) }
{
    for _ in 0..100 {
        let _ = add(rt, turnstile, &mut seat, entry);
        turnstile.peek(&mut seat);
    }
    seat
}

// Two threads add a hundred entries each, and one seat then knows what both have seen.
fn add_by_two<R: Threads + Wait + Sync>(
    rt: &R,
    turnstile: &Turnstile<Log>,
    one: Seat<Log>,
    two: Seat<Log>,
) -> Seat<Log>
    requires { Belongs turnstile.now one × (one.known.turn ≡ false) × Belongs turnstile.now two × (two.known.turn ≡ false) }
    ensures { Belongs turnstile.now result × (result.known.turn ≡ false) }
{
    let (mut one, two) = thread::join(
        rt,
        move || -> Seat<Log>
            requires { Belongs turnstile.now one × (one.known.turn ≡ false) }
            ensures { Belongs turnstile.entry.now result × (result.known.turn ≡ false) }
        { add_many(rt, turnstile, one, 1) },
        move || -> Seat<Log>
            requires { Belongs turnstile.now two × (two.known.turn ≡ false) }
            ensures { Belongs turnstile.entry.now result × (result.known.turn ≡ false) }
        { add_many(rt, turnstile, two, 2) },
    );
    turnstile.join(&mut one, two);
    one
}

fn crosses_threads<T: Send>(_value: &T) {}

fn is_shared<T: Sync>(_value: &T) {}

// Seats may move to other threads, and turnstiles be shared, wherever the value may move.
fn crosses_wherever_its_value_does<V: Kept + Send + Drop>(
    turnstile: &Turnstile<V>,
    seat: &Seat<V>,
) {
    crosses_threads(turnstile);
    is_shared(turnstile);
    crosses_threads(seat);
}

#[test]
fn one_seat_takes_gives_and_closes(rt: HostRuntime) -> Result<(), Fail> {
    let (turnstile, mut seats) = Turnstile::make(rt.alloc(), empty_log(rt.alloc()), 1)?;
    let mut seat = seats.pop().ok_or("no seat")?;
    crosses_wherever_its_value_does(&turnstile, &seat);
    assert_eq!(rt; add(&rt, &turnstile, &mut seat, 5)?, 0);
    let unchanged = turnstile.take(&rt, &mut seat);
    turnstile.give(&mut seat, unchanged);
    assert_eq!(rt; add(&rt, &turnstile, &mut seat, 6)?, 1);
    assert_eq!(rt; turnstile.peek(&mut seat), 2);
    match turnstile.close(seat) {
        Ok(log) => assert!(rt; log.name == 7 && log.entries.as_slice() == [5, 6].as_slice()),
        Err(_) => assert!(rt; false),
    }
    Ok(())
}

#[test]
fn two_threads_add(rt: HostRuntime) -> Result<(), Fail> {
    let (turnstile, mut seats) = Turnstile::make(rt.alloc(), empty_log(rt.alloc()), 1)?;
    let mut one = seats.pop().ok_or("no seat")?;
    let two = turnstile.split(&mut one);
    let one = add_by_two(&rt, &turnstile, one, two);
    match turnstile.close(one) {
        Ok(log) => {
            assert_eq!(rt; log.entries.len(), 200);
            assert_eq!(rt;
                log.entries.iter().filter(|entry| **entry == 1).count(),
                100
            );
        }
        Err(_) => assert!(rt; false),
    }
    Ok(())
}

#[test]
fn the_most_seats(rt: HostRuntime) -> Result<(), Fail> {
    let (_turnstile, seats) = Turnstile::make(rt.alloc(), empty_log(rt.alloc()), 65)?;
    assert_eq!(rt; seats.len(), 65);
    Ok(())
}

// While one seat has the turn, another looks at the length without waiting, and cannot close.
#[test]
fn a_refused_close_hands_both_back(rt: HostRuntime) -> Result<(), Fail> {
    let (turnstile, mut seats) = Turnstile::make(rt.alloc(), empty_log(rt.alloc()), 1)?;
    let mut one = seats.pop().ok_or("no seat")?;
    let mut two = turnstile.split(&mut one);
    let mut log = turnstile.take(&rt, &mut one);
    log.entries.push(9)?;
    assert_eq!(rt; turnstile.peek(&mut two), 0);
    match turnstile.close(two) {
        Ok(_) => assert!(rt; false),
        Err((turnstile, two)) => {
            turnstile.give(&mut one, log);
            match turnstile.close(two) {
                Ok(log) => assert!(rt; log.entries.as_slice() == [9].as_slice()),
                Err(_) => assert!(rt; false),
            }
        }
    }
    Ok(())
}
