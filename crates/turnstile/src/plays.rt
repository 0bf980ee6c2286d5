//! What each step tells its seat. These types are for the proofs alone.
use crate::kept::Kept;
use crate::known::Tracked;
use atomic_table::{Join, Play, Split};

// Takes the turn and the slot, or finds the turn held.
pub struct Takes;

impl<V: Kept> Play<Option<V>, Tracked<V::Entry, V::Fixed>> for Takes {
    ghost use Rattle.turnstile.specs.Steps.{Took};

    ghost then = { Took V.list V.fixed };
}

// Raises the length for the entry that was added.
pub struct Raises;

impl<V: Kept> Play<Option<V>, Tracked<V::Entry, V::Fixed>> for Raises {
    ghost use Rattle.turnstile.specs.Steps.{Raised};

    ghost then = { Raised V.list };
}

// Gives the slot and the turn.
pub struct Gives;

impl<V: Kept> Play<Option<V>, Tracked<V::Entry, V::Fixed>> for Gives {
    ghost use Rattle.turnstile.specs.Steps.{Gave};

    ghost then = { Gave };
}

// Loads the length.
pub struct Peeks;

impl<V: Kept> Play<Option<V>, Tracked<V::Entry, V::Fixed>> for Peeks {
    ghost use Rattle.turnstile.specs.Steps.{Peeked};

    ghost then = { Peeked };
}

// Compares what the seat has seen with what a seat that it took in had seen.
pub struct Compares;

impl<V: Kept> Play<Option<V>, Tracked<V::Entry, V::Fixed>> for Compares {
    ghost use Rattle.turnstile.specs.Steps.{Compared};

    ghost then = { Compared };
}

// Leaves a seat as it is, and makes one that has seen the same.
pub struct Splits;

impl<E, F> Split<Tracked<E, F>> for Splits {
    ghost use Rattle.turnstile.specs.Steps.{split_off};

    ghost left = { λ k. k };

    ghost right = { split_off };
}

// Takes in what another seat had seen.
pub struct Joins;

impl<E, F> Join<Tracked<E, F>> for Joins {
    ghost use Rattle.turnstile.specs.Steps.{taken_in, spent};

    ghost both = { taken_in };

    ghost spent = { spent };
}
