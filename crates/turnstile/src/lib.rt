//! A lock round a value, whose users each know a beginning of its history.
//!
//! A [`Turnstile`] holds one value of a type that is [`Kept`]: a value with a list of entries that only grows, and a part
//! that never changes. Threads reach it with a [`Seat`] each. A seat takes the value for a while, adds at most one entry,
//! and gives it back. Between its calls it still knows how the list begins, whatever other seats add meanwhile.
#![tactic(auto)]

mod kept;
mod known;
mod plays;
mod seat;
mod turnstile;

pub use kept::Kept;
pub use known::Known;
pub use seat::Seat;
pub use turnstile::Turnstile;

#[cfg(test)]
mod tests;
