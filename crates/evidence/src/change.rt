//! Entries that were accepted since a version.

use std::marker::Model;

/// An accepted entry: its place in the journal, and the name that it published.
#[derive(Clone, Copy, Debug, PartialEq, Eq)]
pub struct Change {
    pub at: u64,
    pub name: u32,
}

/// Accepted entries, in order.
#[derive(Debug, Drop)]
pub struct Changes {
    list: Vec<Change>,
}

impl Model for Changes {
    ghost use Rattle.std.specs.Prelude.{List};
    ghost use Rattle.evidence.specs.declared.change.Change.{Change};

    ghost Value = { List Change };

    ghost view = { λ changes. changes.list.items };
}

impl Changes {
    ghost use Rattle.std.specs.Prelude.{◌≡◌};

    /// The changes of a list.
    pub fn of(list: Vec<Change>) -> Changes
        ensures { result ≡ list.items }
    {
        Changes { list }
    }

    /// The changes, in order.
    pub fn list(&self) -> &[Change]
        ensures { result.now ≡ self.now }
    {
        &self.list
    }
}
