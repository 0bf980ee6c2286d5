//! Evidence that moves on: a dossier of an older store is carried to a newer one, where nothing that it rests on has been
//! changed.
#![tactic(auto)]

mod carrying;
mod laws;
mod reach;
#[cfg(test)]
mod tests;

pub use carrying::{Carried, carry};
pub use laws::answers_carry;
