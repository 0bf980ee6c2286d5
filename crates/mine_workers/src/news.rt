//! What has happened since a version.

ghost use Rattle.std.specs.Prelude.{◌≡◌, ◌≤◌, IfOk};
ghost use Rattle.publish_desk.specs.Desk.{history};
ghost use Rattle.publish_desk.specs.History.{changes_after};
ghost use Rattle.mine_workers.specs.Shared.{snapshot_of};

use evidence::{Changes, Snapshot};
use publish_desk::Desk;
use std::alloc::{AllocError, Global};

/// The present tables, version and length of the journal, and the entries that were accepted after a version, in order.
#[derive(Drop)]
pub struct News {
    pub snapshot: Snapshot,
    pub changes: Changes,
}

impl News {
    // Those of a desk.
    pub(crate) fn since(alloc: Global, desk: &Desk, version: u64) -> Result<News, AllocError>
        requires { version ≤ desk.now.version }
        ensures snapshot { IfOk result (λ n. n.snapshot ≡ snapshot_of desk.now) }
        ensures changes { IfOk result (λ n. n.changes ≡ changes_after version (history desk.now)) }
    {
        let changes = Changes::of(desk.changes_since(alloc, version)?);
        let snapshot = desk.snapshot()?;
        Ok(News { snapshot, changes })
    }
}
