//! The desk behind a turnstile.

use publish_desk::charter::Charter;
use publish_desk::{Desk, Entry};
use turnstile::Kept;

/// A desk behind a turnstile. Its list is the journal, and its fixed part what never changes of a desk.
#[derive(Drop)]
pub struct Held {
    pub(crate) desk: Desk,
}

impl Kept for Held {
    type Entry = Entry;

    type Fixed = Charter;

    ghost list = { λ h. h.desk.journal };

    ghost fixed = { λ h. h.desk.charter };

    fn length(&self) -> u64 {
        self.desk.entries().len() as u64
    }
}
