//! The demand table.

ghost use Rattle.std.specs.Prelude.{◌≡◌, ℕ, IfOk};
ghost use Rattle.std.specs.Option.{option_copied};
ghost use Rattle.std.specs.FinMap as map;
ghost use Rattle.text_parts.specs.Names.{IsName};
ghost use Rattle.demand_table.specs.Demanded.{AreCalled};
ghost use Rattle.demand_table.specs.Drawn.{IsDrawn, with_range};
ghost use Rattle.demand_table.specs.Ascending.{AllAscend};
ghost use Rattle.demand_table.specs.Held.{IsHeld};
ghost use Rattle.demand_table.specs.Loaded.{node_at, checks_of, the_pair};
ghost use Rattle.demand_table.specs.Mended.{Fits, mended, runs_of};

use crate::demanding::demanded;
use crate::holding::Known;
use crate::known;
use crate::node::{Folder, Node};
use crate::range::Range;
use crate::replacing::{Parts, replaced};
use checked_numbers::Num;
use loda_semantics::Pair;
use seq_calls::NodeRun;
use std::alloc::{AllocError, Global};
use std::marker::Model;
use version_pages::Pages;

/// Which arguments the published programs demand of one another.
///
/// It is seen as its folders: the checked arguments and the nodes of each name. They are the table that is drawn from these
/// checked arguments and the nodes' own runs.
#[derive(Drop)]
pub struct Demand {
    parts: Parts,
}

impl Model for Demand {
    ghost use Rattle.std.specs.Coded.{coded_ℕ};
    ghost use Rattle.std.specs.Ordering.{nat_cmp};
    ghost use Rattle.std.specs.FinMap as map;
    ghost use Rattle.demand_table.specs.contracts.node.Folder as folder;
    ghost use Rattle.demand_table.specs.declared.node.Folder.{Folder};
    ghost use Rattle.demand_table.specs.Held.{IsHeld};

    ghost Value = { map.FinMap nat_cmp Folder };

    ghost coded = { map.code coded_ℕ folder.the_row.coded };

    ghost view = { λ demand. demand.parts.folders };

    ghost invariant = { λ demand. IsHeld demand.parts.folders demand.parts.callers demand.parts.nodes };
}

impl Demand {
    /// The table without names.
    pub fn empty(alloc: Global) -> Result<Demand, AllocError>
        ensures { IfOk result (λ demand. demand ≡ map.empty) }
    {
        let folders = Pages::empty(alloc)?;
        let callers = Pages::empty(alloc)?;
        Ok(Demand {
            parts: Parts {
                folders,
                callers,
                nodes: 0,
            },
        })
    }

    /// The table of these parts.
    pub(crate) fn of(parts: Parts) -> Demand
        requires { IsHeld parts.folders parts.callers parts.nodes }
        ensures { result ≡ parts.folders }
    {
        Demand { parts }
    }

    /// The folders of the names.
    pub(crate) fn folders(&self) -> &Pages<Folder>
        ensures folders { result.now ≡ self.now }
        ensures ascend { AllAscend self.now }
    {
        &self.parts.folders
    }

    /// An equal table, which shares everything with this one.
    pub fn share(&self) -> Result<Demand, AllocError>
        ensures { IfOk result (λ demand. demand ≡ self.now) }
    {
        let folders = self.parts.folders.share()?;
        let callers = self.parts.callers.share()?;
        Ok(Demand {
            parts: Parts {
                folders,
                callers,
                nodes: self.parts.nodes,
            },
        })
    }

    /// The node of a name at an argument.
    pub fn node(&self, name: u32, arg: &Num) -> Option<&Node>
        ensures node { option_copied result ≡ node_at self.now (the_pair name arg.now) }
        ensures drawn { IsDrawn (checks_of self.now) (runs_of (node_at self.now)) (node_at self.now) }
        ensures ascend { AllAscend self.now }
    {
        let known = Known::of(&self.parts.folders);
        let pair = Pair { name, arg: *arg };
        known::node(&known, &pair)
    }

    /// The arguments of a name that nodes call, in ascending order.
    pub fn demanded(&self, alloc: Global, name: u32) -> Result<Vec<Num>, AllocError>
        ensures { IfOk result (λ list. AreCalled (node_at self.now) name list.items) }
    {
        let known = Known::of(&self.parts.folders);
        demanded(alloc, &known, name)
    }

    /// The table in which the frames stand for the name, whose checked arguments are so many from the first one on.
    pub fn replaced(
        &self,
        alloc: Global,
        name: u32,
        first: i16,
        checked: u32,
        runs: &[NodeRun],
    ) -> Result<Demand, AllocError>
        requires name { IsName name }
        requires fits { Fits (checks_of self.now) (runs_of (node_at self.now)) name (record { first = first; checked = checked }) runs.now }
        ensures drawn { IfOk result (λ next. IsDrawn (with_range (checks_of self.now) name (record { first = first; checked = checked })) (mended (runs_of (node_at self.now)) name runs.now) (node_at next)) }
        ensures checks { IfOk result (λ next. (q : ℕ) → checks_of next q ≡ with_range (checks_of self.now) name (record { first = first; checked = checked }) q) }
    {
        let range = Range { first, checked };
        let parts = replaced(alloc, &self.parts, name, range, runs)?;
        Ok(Demand { parts })
    }
}
