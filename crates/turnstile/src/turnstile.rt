//! The turnstile, and the calls that take a seat.
ghost use Rattle.std.specs.Prelude.{◌≡◌, ◌≤◌, ◌∷◌, [], true, false, length, All, IfOk, IfErr, IfSome, Some, None, MatchOption};

use crate::kept::Kept;
use crate::known::{Law, Tracked};
use crate::plays::{Compares, Gives, Joins, Peeks, Raises, Splits, Takes};
use crate::seat::{Seat, Token};
use atomic_table::Table;
use std::alloc::{AllocError, Global};
use std::marker::Model;
use std::snapshot::Snapshot;
use std::sync::Wait;

// Words of the table: how many entries the history has, and 1 while a seat holds the turn, else 0.
const LENGTH: usize = 0;

const TURN: usize = 1;

/// A lock round a value, whose history each seat knows the beginning of.
///
/// To a contract it is its place, and the fixed part of the value that it was made with.
#[derive(Drop)]
pub struct Turnstile<V: Kept> {
    table: Table<Option<V>, Tracked<V::Entry, V::Fixed>, Snapshot<V>, Law<V>, Global>,
}

impl<V: Kept> Model for Turnstile<V> {
    ghost use Rattle.std.specs.Prelude.{◌≡◌};
    ghost use Rattle.turnstile.specs.Seats.{TurnstileView};

    ghost Value = { TurnstileView V.Fixed };

    ghost view = { λ t. record { place = t.table.shared.table_id; fixed = V.fixed t.table.shared.key.value } };

    ghost invariant = { λ t. (t.table.shared.table_id.words ≡ 2) × (t.table.shared.table_id.slots ≡ 1) };
}

impl<V: Kept> Turnstile<V> {
    ghost use Rattle.turnstile.specs.Seats.{Belongs, IsTaken, IsGiven, Taking, Giving, Joining, turning, failed, resting, told_of, fresh};
    ghost use Rattle.turnstile.specs.Steps.{Learns, Offers, Counted};

    // One try to take the turn, and the value with it.
    fn try_take(&self, token: &mut Token<V>) -> Option<V>
        requires { (token.old.table_id ≡ self.now.place) × (token.old.me.0.known.turn ≡ false) × (token.old.me.1 ≡ []) }
        ensures same { (token.new.table_id ≡ token.old.table_id) × (token.new.id ≡ token.old.id) }
        ensures taken { MatchOption result (token.new.me ≡ (record token.old.me.0 { known = failed token.old.me.0.known }, [])) (λ v. (token.new.me ≡ (record token.old.me.0 { known = turning (V.list v) token.old.me.0.known }, (0, None) ∷ [])) × Learns V.list V.fixed token.old.me.0 v) }
    {
        let shared = &self.table.shared;
        if shared.compare_exchange::<Takes>(token, TURN, 0, 1) != 0 {
            return None;
        }
        shared.exchange(token, 0, None)
    }

    /// Waits for the turn, and takes the value until `give` gives it back.
    ///
    /// While another seat holds the turn the thread sleeps, and a `give` wakes it for its next try.
    pub fn take<R: Wait>(&self, rt: &R, seat: &mut Seat<V>) -> V
        requires belongs { Belongs self.now seat.old }
        requires idle { seat.old.known.turn ≡ false }
        ensures belongs { Belongs self.now seat.new }
        ensures value { IsTaken V.list V.fixed self.now seat.old result }
        ensures seat { Taking (V.list result) seat.old.known seat.new.known }
    {
        for _ in rt.forever() {
            if let Some(value) = self.try_take(&mut seat.token) {
                seat.taken = value.length();
                return value;
            }
            self.table.shared.park(rt, TURN, 1);
        }
        unreachable!()
    }

    // Raises the length, if the slot's value has more entries than were taken.
    fn raise(&self, token: &mut Token<V>, taken: u64, count: u64, slot: &Option<V>)
        requires token { (token.old.table_id ≡ self.now.place) × (token.old.me.0.known.turn ≡ true) }
        requires taken { taken ≡ length token.old.me.0.known.seen }
        requires slot { Offers V.list token.old.me.0.known.seen slot.now count }
        ensures same { (token.new.table_id ≡ token.old.table_id) × (token.new.id ≡ token.old.id) × (token.new.me.1 ≡ token.old.me.1) }
        ensures counted { IfSome slot.now (λ v. Counted (V.list v) token.old.me.0 token.new.me.0) }
    {
        if count <= taken {
            return;
        }
        self.table
            .shared
            .compare_exchange_with::<Raises>(token, LENGTH, taken, count, slot);
    }

    // Raises the length, and puts the value back into the slot.
    fn put_back(&self, token: &mut Token<V>, taken: u64, value: V)
        requires token { (token.old.table_id ≡ self.now.place) × (token.old.me.0.known.turn ≡ true) × (token.old.me.1 ≡ (0, None) ∷ []) }
        requires taken { taken ≡ length token.old.me.0.known.seen }
        requires entries { IsGiven token.old.me.0.known.seen (V.list value) }
        ensures same { (token.new.table_id ≡ token.old.table_id) × (token.new.id ≡ token.old.id) }
        ensures slot { token.new.me.1 ≡ (0, Some value) ∷ [] }
        ensures counted { Counted (V.list value) token.old.me.0 token.new.me.0 }
    {
        let count = value.length();
        let slot = Some(value);
        self.raise(token, taken, count, &slot);
        match self.table.shared.exchange(token, 0, slot) {
            None => {}
            Some(_) => unreachable!(),
        }
    }

    /// Gives the value and the turn back, and wakes a thread that waits for it.
    ///
    /// The value's list is the one that was taken, or that list and one entry more.
    pub fn give(&self, seat: &mut Seat<V>, value: V)
        requires belongs { Belongs self.now seat.old }
        requires holds { seat.old.known.turn ≡ true }
        requires entries { IsGiven seat.old.known.seen (V.list value) }
        requires fixed { V.fixed value ≡ self.now.fixed }
        ensures belongs { Belongs self.now seat.new }
        ensures seat { Giving (V.list value) seat.old.known seat.new.known }
    {
        self.put_back(&mut seat.token, seat.taken, value);
        let shared = &self.table.shared;
        shared.store::<Gives>(&mut seat.token, TURN, 0);
        shared.wake_one(TURN);
    }

    /// A length that the list has reached, by one load. It waits for nobody, and takes no turn.
    pub fn peek(&self, seat: &mut Seat<V>) -> u64
        requires belongs { Belongs self.now seat.old }
        requires idle { seat.old.known.turn ≡ false }
        ensures belongs { Belongs self.now seat.new }
        ensures length { (length seat.old.known.seen ≤ result) × (seat.old.known.told ≤ result) }
        ensures seat { seat.new.known ≡ told_of result seat.old.known }
    {
        self.table.shared.load::<Peeks>(&mut seat.token, LENGTH)
    }

    /// A new seat, which has seen and was told the same.
    pub fn split(&self, seat: &mut Seat<V>) -> Seat<V>
        requires belongs { Belongs self.now seat.old }
        requires idle { seat.old.known.turn ≡ false }
        ensures belongs { Belongs self.now seat.new × Belongs self.now result }
        ensures seat { seat.new.known ≡ seat.old.known }
        ensures other { result.known ≡ fresh seat.old.known }
    {
        Seat {
            token: self.table.shared.split_seat::<Splits>(&mut seat.token),
            taken: 0,
        }
    }

    /// Takes in what another seat has seen and was told. The other seat ends.
    pub fn join(&self, into: &mut Seat<V>, other: Seat<V>)
        requires belongs { Belongs self.now into.old × Belongs self.now other }
        requires idle { (into.old.known.turn ≡ false) × (other.known.turn ≡ false) }
        ensures belongs { Belongs self.now into.new }
        ensures seat { Joining into.old.known other.known into.new.known }
    {
        let Seat { token, taken: _ } = other;
        let shared = &self.table.shared;
        shared.join_seat::<Joins>(&mut into.token, token);
        shared.load::<Compares>(&mut into.token, LENGTH);
    }
}

impl<V: Kept + Drop> Turnstile<V> {
    ghost use Rattle.turnstile.specs.Seats.{Belongs, IsTaken, failed, fresh, newcomer};

    // A turnstile round a value, and its first seat.
    fn open(alloc: Global, value: V) -> Result<(Turnstile<V>, Seat<V>), AllocError>
        ensures { IfOk result (λ r. (r.0.fixed ≡ V.fixed value) × Belongs r.0 r.1 × (r.1.known ≡ newcomer (V.list value))) }
    {
        let key = Snapshot::of(&value);
        let length = value.length();
        let mut slots = Vec::new(alloc);
        slots.push(Some(value))?;
        match Table::new(alloc, &[length, 0], slots, &key) {
            Ok((table, token)) => Ok((Turnstile { table }, Seat { token, taken: 0 })),
            Err(_) => Err(AllocError),
        }
    }

    // The seat, and as many as are wanted beside it.
    fn spread(
        &self,
        alloc: Global,
        mut seat: Seat<V>,
        seats: u32,
    ) -> Result<Vec<Seat<V>>, AllocError>
        requires seats { 1 ≤ seats }
        requires seat { Belongs self.now seat × (seat.known ≡ fresh seat.known) }
        ensures count { IfOk result (λ v. length v.items ≡ seats) }
        ensures seats { IfOk result (λ v. All (λ s. Belongs self.now s × (s.known ≡ seat.known)) v.items) }
    {
        let mut all = Vec::with_capacity(alloc, seats as usize)?;
        for _ in 1..seats {
            all.push(self.split(&mut seat))?;
        }
        all.push(seat)?;
        Ok(all)
    }

    /// A turnstile round a value, and 1 to 65 seats, each of which has seen the value's list.
    ///
    /// # Errors
    ///
    /// There is no memory. The value is then dropped.
    pub fn make(
        alloc: Global,
        value: V,
        seats: u32,
    ) -> Result<(Turnstile<V>, Vec<Seat<V>>), AllocError>
        requires { (1 ≤ seats) × (seats ≤ 65) }
        ensures fixed { IfOk result (λ r. r.0.fixed ≡ V.fixed value) }
        ensures count { IfOk result (λ r. length r.1.items ≡ seats) }
        ensures seats { IfOk result (λ r. All (λ s. Belongs r.0 s × (s.known ≡ newcomer (V.list value))) r.1.items) }
    {
        let (turnstile, seat) = Turnstile::open(alloc, value)?;
        let all = turnstile.spread(alloc, seat, seats)?;
        Ok((turnstile, all))
    }

    /// Takes the turn by one try, and with it the value for good.
    ///
    /// # Errors
    ///
    /// The try found the turn held. The turnstile and the seat come back as they were, but for the count of failed tries.
    pub fn close(self, seat: Seat<V>) -> Result<V, (Turnstile<V>, Seat<V>)>
        requires belongs { Belongs self seat }
        requires idle { seat.known.turn ≡ false }
        ensures taken { IfOk result (λ v. IsTaken V.list V.fixed self seat v) }
        ensures refused { IfErr result (λ r. (r.0 ≡ self) × Belongs self r.1 × (r.1.known ≡ failed seat.known)) }
    {
        let Seat { mut token, taken } = seat;
        match self.try_take(&mut token) {
            Some(value) => Ok(value),
            None => Err((self, Seat { token, taken })),
        }
    }
}
