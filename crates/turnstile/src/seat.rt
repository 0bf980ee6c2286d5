//! A seat of a turnstile.
use crate::kept::Kept;
use crate::known::Tracked;
use std::marker::Model;

// What a caller of the table's steps has.
pub(crate) type Token<V> = atomic_table::Seat<
    Option<V>,
    Tracked<<V as Kept>::Entry, <V as Kept>::Fixed>,
>;

/// One caller's token for a turnstile. It has no value of its own: it is what the caller knows, and the leave to call.
///
/// To a contract it is the place and the fixed part of its turnstile, and what it knows.
#[derive(Drop)]
pub struct Seat<V: Kept> {
    pub(crate) token: Token<V>,
    // The number of entries that were taken, while the seat has the turn.
    pub(crate) taken: u64,
}

impl<V: Kept> Model for Seat<V> {
    ghost use Rattle.turnstile.specs.Seats.{SeatView};
    ghost use Rattle.turnstile.specs.Rule.{Holding};

    ghost Value = { SeatView V.Entry V.Fixed };

    ghost view = { λ s. record { place = s.token.table_id; fixed = s.token.me.0.fixed; known = s.token.me.0.known } };

    ghost invariant = { λ s. Holding s.token.me s.taken };
}
