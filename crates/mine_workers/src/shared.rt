//! A desk that threads share.

ghost use Rattle.std.specs.Prelude.{◌≡◌, ◌≤◌, ℕ, List, All, IfOk, false, length, reverse};
ghost use mathlib.Core.List.{IsPrefix};
ghost use Rattle.turnstile.specs.Seats.{Joining, newcomer, told_of, fresh};
ghost use Rattle.judge.specs.Sound.{Sound};
ghost use Rattle.publish_desk.specs.declared.entry.Entry.{Entry};
ghost use Rattle.publish_desk.specs.Desk.{IsFitting, IsKept, terms_of};
ghost use Rattle.publish_desk.specs.History.{version_of, changes_after};
ghost use Rattle.mine_workers.specs.Shared.{desk_of, snapshot_of, IsSeatOf, Looked, Published, IsAgainBounded};

use crate::held::Held;
use crate::news::News;
use evidence::{Dossier, Snapshot};
use publish_desk::{Desk, Verdict};
use std::alloc::{AllocError, Global};
use std::marker::Model;
use std::sync::Wait;
use turnstile::{Seat, Turnstile};

/// A desk that threads share. Each reaches it by a seat of its own, which has seen a beginning of the journal.
///
/// To a contract it is its turnstile: the place, and what never changes of the desk that it was made of.
#[derive(Drop)]
pub struct SharedStore {
    turnstile: Turnstile<Held>,
}

impl Model for SharedStore {
    ghost use Rattle.std.specs.Coded.{codes, coded_ℕ};
    ghost use Rattle.std.specs.FinMap as map;
    ghost use Rattle.std.specs.Ordering.{nat_cmp};
    ghost use Rattle.program_store.specs.contracts.published.Published as published;
    ghost use Rattle.publish_desk.specs.declared.charter.Charter.{Charter};
    ghost use Rattle.turnstile.specs.Seats.{TurnstileView};

    ghost Value = { TurnstileView Charter };

    ghost coded = { Prim.hlevel (codes, map.code {R = nat_cmp} coded_ℕ published.the_row.coded) };

    ghost view = { λ s. s.turnstile };
}

impl SharedStore {
    /// A store of a desk, and 1 to 65 seats, each of which has seen its journal.
    ///
    /// # Errors
    ///
    /// There is no memory. The desk is then dropped.
    pub fn make(
        alloc: Global,
        desk: Desk,
        seats: u32,
    ) -> Result<(SharedStore, Vec<Seat<Held>>), AllocError>
        requires { (1 ≤ seats) × (seats ≤ 65) }
        ensures charter { IfOk result (λ r. r.0.fixed ≡ desk.charter) }
        ensures count { IfOk result (λ r. length r.1.items ≡ seats) }
        ensures seats { IfOk result (λ r. All (λ s. IsSeatOf r.0 s × (s.known ≡ newcomer desk.journal)) r.1.items) }
    {
        // What is kept of each desk: a legal journal.
        let _ = desk.version();
        let (turnstile, seats) = Turnstile::make(alloc, Held { desk }, seats)?;
        Ok((SharedStore { turnstile }, seats))
    }

    /// Waits for the turn, and answers the present tables, version and length of the journal, which the seat has then seen.
    ///
    /// # Errors
    ///
    /// There is no memory. The seat has then seen the journal nevertheless.
    pub fn look<R: Wait>(&self, rt: &R, seat: &mut Seat<Held>) -> Result<Snapshot, AllocError>
        requires seat { IsSeatOf self.now seat.old }
        requires idle { seat.old.known.turn ≡ false }
        ensures seat { IsSeatOf self.now seat.new }
        ensures idle { seat.new.known.turn ≡ false }
        ensures looked { Looked seat.old.known seat.new.known }
        ensures shown { IfOk result (λ s. s ≡ snapshot_of (desk_of self.now.fixed seat.new.known.seen)) }
        ensures sound { IfOk result (λ s. Sound s.store (terms_of self.now.fixed) self.now.fixed.limit) }
        ensures grown { IfOk result (λ s. (earlier : List Entry) → IsPrefix earlier seat.old.known.seen → version_of (reverse earlier) ≤ s.version) }
    {
        let found = self.turnstile.take(rt, seat);
        // What is kept of each desk: a sound store that its journal replays to.
        let _ = found.desk.version();
        let shown = found.desk.snapshot();
        self.turnstile.give(seat, found);
        shown
    }

    /// Waits for the turn, and answers what `look` answers and the entries that were accepted after a version.
    ///
    /// # Errors
    ///
    /// There is no memory. The seat has then seen the journal nevertheless.
    pub fn news<R: Wait>(
        &self,
        rt: &R,
        alloc: Global,
        seat: &mut Seat<Held>,
        since: u64,
    ) -> Result<News, AllocError>
        requires seat { IsSeatOf self.now seat.old }
        requires idle { seat.old.known.turn ≡ false }
        requires since { since ≤ version_of (reverse seat.old.known.seen) }
        ensures seat { IsSeatOf self.now seat.new }
        ensures idle { seat.new.known.turn ≡ false }
        ensures looked { Looked seat.old.known seat.new.known }
        ensures shown { IfOk result (λ n. n.snapshot ≡ snapshot_of (desk_of self.now.fixed seat.new.known.seen)) }
        ensures changes { IfOk result (λ n. n.changes ≡ changes_after since (reverse seat.new.known.seen)) }
        ensures sound { IfOk result (λ n. Sound n.snapshot.store (terms_of self.now.fixed) self.now.fixed.limit) }
        ensures grown { IfOk result (λ n. (earlier : List Entry) → IsPrefix earlier seat.old.known.seen → version_of (reverse earlier) ≤ n.snapshot.version) }
    {
        let found = self.turnstile.take(rt, seat);
        // What is kept of each desk: a sound store that its journal replays to.
        let _ = found.desk.version();
        let told = News::since(alloc, &found.desk, since);
        self.turnstile.give(seat, found);
        told
    }

    /// A length that the journal has reached. It waits for nobody.
    pub fn peek(&self, seat: &mut Seat<Held>) -> u64
        requires seat { IsSeatOf self.now seat.old }
        requires idle { seat.old.known.turn ≡ false }
        ensures seat { IsSeatOf self.now seat.new }
        ensures idle { seat.new.known.turn ≡ false }
        ensures length { (length seat.old.known.seen ≤ result) × (seat.old.known.told ≤ result) }
        ensures told { seat.new.known ≡ told_of result seat.old.known }
    {
        self.turnstile.peek(seat)
    }

    /// Waits for the turn and publishes a dossier, which fitted the journal that the seat had seen.
    pub fn publish<R: Wait>(&self, rt: &R, seat: &mut Seat<Held>, dossier: Dossier) -> Verdict
        requires seat { IsSeatOf self.now seat.old }
        requires idle { seat.old.known.turn ≡ false }
        requires fitting { IsFitting (desk_of self.now.fixed seat.old.known.seen) dossier }
        ensures seat { IsSeatOf self.now seat.new }
        ensures idle { seat.new.known.turn ≡ false }
        ensures published { Published self.now.fixed seat.old.known dossier result seat.new.known }
        ensures bounded { IsAgainBounded self.now.fixed dossier seat.new.known.seen result }
    {
        let mut held = self.turnstile.take(rt, seat);
        // What is kept of each desk, before and after.
        let _ = held.desk.version();
        let verdict = held.desk.publish(dossier);
        let _ = held.desk.version();
        self.turnstile.give(seat, held);
        verdict
    }

    /// A new seat, which has seen and was told the same.
    pub fn split(&self, seat: &mut Seat<Held>) -> Seat<Held>
        requires seat { IsSeatOf self.now seat.old }
        requires idle { seat.old.known.turn ≡ false }
        ensures seats { IsSeatOf self.now seat.new × IsSeatOf self.now result }
        ensures same { seat.new.known ≡ seat.old.known }
        ensures other { result.known ≡ fresh seat.old.known }
    {
        self.turnstile.split(seat)
    }

    /// Takes in what another seat has seen and was told. The other seat ends.
    pub fn join(&self, into: &mut Seat<Held>, other: Seat<Held>)
        requires seats { IsSeatOf self.now into.old × IsSeatOf self.now other }
        requires idle { (into.old.known.turn ≡ false) × (other.known.turn ≡ false) }
        ensures seat { IsSeatOf self.now into.new }
        ensures idle { into.new.known.turn ≡ false }
        ensures joined { Joining into.old.known other.known into.new.known }
    {
        self.turnstile.join(into, other);
    }

    /// Waits for the turn, and takes the desk for good.
    pub fn close<R: Wait>(self, rt: &R, seat: Seat<Held>) -> Desk
        requires seat { IsSeatOf self seat }
        requires idle { seat.known.turn ≡ false }
        ensures charter { result.charter ≡ self.fixed }
        ensures begins { IsPrefix seat.known.seen result.journal }
        ensures told { seat.known.told ≤ length result.journal }
        ensures kept { IsKept result }
    {
        let mut seat = seat;
        let Held { desk } = self.turnstile.take(rt, &mut seat);
        // What is kept of each desk.
        let _ = desk.version();
        desk
    }
}
