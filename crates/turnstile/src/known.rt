//! What a seat knows, and the rule that ties all seats to the words and the slot of the table.
use crate::kept::Kept;
use atomic_table::TableRule;
use std::collections::LinkedList;
use std::marker::PhantomData;
use std::snapshot::Snapshot;

/// What a seat knows. Contracts alone read it: no value of it is made.
pub struct Known<E> {
    /// The list that the seat has seen, a beginning of the history.
    pub seen: LinkedList<E>,
    /// The entries that the seat added, each with its place in the history.
    pub added: LinkedList<(u64, E)>,
    /// The greatest length that the seat was told.
    pub told: u64,
    /// The seat holds the turn.
    pub turn: bool,
    /// How often the seat loaded the length.
    pub loads: u64,
    /// How often the seat tried to take the turn and found it held.
    pub fails: u64,
}

// What the table tracks of a seat.
pub struct Tracked<E, F> {
    pub known: Known<E>,
    // The fixed part of the value, or nothing in a seat that was joined into another.
    pub fixed: Option<F>,
    // What a seat that was just taken in had seen, until the next step.
    pub beside: LinkedList<E>,
}

// The rule of a turnstile. The key remembers the value that it was made with.
pub struct Law<V> {
    marker: PhantomData<V>,
}

impl<V: Kept> TableRule<Option<V>, Tracked<V::Entry, V::Fixed>, Snapshot<V>> for Law<V> {
    ghost use Rattle.turnstile.specs.Rule.{Ruled, tracking};

    ghost holds = { λ key. Ruled V.list V.fixed key.value };

    ghost first = { λ key. tracking (V.list key.value) (V.fixed key.value) };
}
