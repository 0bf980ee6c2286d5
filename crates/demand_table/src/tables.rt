//! The programs of a store, and what their checked runs demand.

ghost use Rattle.std.specs.Prelude.{◌≡◌, ℕ, IfOk, IfSome, IfNone};
ghost use Rattle.std.specs.declared.option.Option.TheVariants.{Some};
ghost use Rattle.program_store.specs.Store.{programs_of, put_in, IsProposal};
ghost use Rattle.program_store.specs.Graph.{NoCycle};
ghost use Rattle.seq_calls.specs.Demand.{InDem, LeastCaller};
ghost use Rattle.seq_calls.specs.Frames.{pair};
ghost use Rattle.demand_table.specs.Counts.{IsCount};
ghost use Rattle.demand_table.specs.Drawn.{node_entry};
ghost use Rattle.demand_table.specs.Loaded.{node_at, checks_of};
ghost use Rattle.demand_table.specs.Nodes.{IsLive, IsNodeAt, ListsDem, CallsPair, HasCheckedValues};
ghost use Rattle.demand_table.specs.Replaceable.{AreRuns, IsReplaceable};
ghost use Rattle.demand_table.specs.Table.{runs_in_library, checks_in_store, IsDemandTable};

use crate::building::{copy_store, drawn};
use crate::caller::{Caller, least_caller};
use crate::demand::Demand;
use crate::holding::Known;
use crate::node::Node;
use checked_numbers::Num;
use loda_semantics::Pair;
use loda_syntax::Program;
use program_store::{Library, Proposal, Published, Store, View};
use seq_calls::NodeRun;
use std::alloc::{AllocError, Global};
use std::marker::Model;
use text_parts::GREATEST_NAME;
use version_pages::Pages;

/// The programs of a store without cycles whose checked runs have values, and what these runs demand. It is seen as the store.
#[derive(Drop)]
pub struct Tables {
    programs: Pages<Published>,
    demand: Demand,
}

impl Model for Tables {
    ghost use Rattle.std.specs.FinMap as map;
    ghost use Rattle.std.specs.Ordering.{nat_cmp};
    ghost use Rattle.std.specs.Coded.{coded_ℕ};
    ghost use Rattle.program_store.specs.declared.published.Published.{Published};
    ghost use Rattle.program_store.specs.contracts.published.Published as published;
    ghost use Rattle.demand_table.specs.Tabled.{IsTabled};

    ghost Value = { map.FinMap nat_cmp Published };

    ghost coded = { map.code coded_ℕ published.the_row.coded };

    ghost view = { λ t. t.programs };

    ghost invariant = { λ t. IsTabled t.programs t.demand };
}

impl Tables {
    /// The tables of a store without cycles, whose checked runs have values within the limit.
    pub fn build(alloc: Global, store: &Store, limit: u64) -> Result<Tables, AllocError>
        requires acyclic { NoCycle (programs_of store.now) }
        requires values { HasCheckedValues store.now limit }
        ensures { IfOk result (λ t. t ≡ store.now) }
    {
        let undrawn = copy_store(alloc, store)?;
        let parts = drawn(alloc, store, limit, &undrawn.folders)?;
        Ok(Tables {
            programs: undrawn.programs,
            demand: Demand::of(parts),
        })
    }

    /// An equal value, which shares everything with this one.
    pub fn share(&self) -> Result<Tables, AllocError>
        ensures { IfOk result (λ t. t ≡ self.now) }
    {
        let programs = self.programs.share()?;
        let demand = self.demand.share()?;
        Ok(Tables { programs, demand })
    }

    /// The demand table: that of the store's checked runs.
    pub fn demand(&self) -> &Demand
        ensures checks { (name : ℕ) → checks_of result.now name ≡ checks_in_store self.now name }
        ensures table { IsDemandTable self.now (node_at result.now) }
    {
        &self.demand
    }

    /// The arguments that checked runs demand of a name, in ascending order.
    pub fn demanded(&self, alloc: Global, name: u32) -> Result<Vec<Num>, AllocError>
        ensures { IfOk result (λ list. ListsDem self.now name list.items) }
    {
        self.demand.demanded(alloc, name)
    }

    /// What the table knows of a pair. `None` exactly where the pair is not live. The node has what the run of the pair comes
    /// to, and the number of live runs that call it.
    pub fn node(&self, name: u32, arg: &Num) -> Option<&Node>
        ensures some { IfSome result (λ n. IsNodeAt self.now name arg.now n.now) }
        ensures run { IfSome result (λ n. runs_in_library (programs_of self.now) (pair name arg.now) ≡ Some (node_entry n.now)) }
        ensures callers { IfSome result (λ n. IsCount (CallsPair self.now (pair name arg.now)) n.now.callers) }
        ensures none { IfNone result (IsLive self.now name arg.now → ⊥) }
    {
        self.demand.node(name, arg)
    }

    /// The least published name with the least index of a checked run that demands the argument. `None` exactly where
    /// none does.
    pub fn least_caller(
        &self,
        alloc: Global,
        name: u32,
        arg: &Num,
    ) -> Result<Option<Caller>, AllocError>
        ensures some { IfOk result (λ found. IfSome found (λ c. LeastCaller self.now name arg.now c.name c.index)) }
        ensures none { IfOk result (λ found. IfNone found (InDem self.now name arg.now → ⊥)) }
    {
        let known = Known::of(self.demand.folders());
        let to = Pair { name, arg: *arg };
        least_caller(alloc, &self.programs, &known, &to)
    }

    /// The table of the store with a proposal put in. The frames are those of the proposal's runs at all its checked and all
    /// demanded arguments, in any order.
    pub fn replaced(
        &self,
        alloc: Global,
        proposal: &Proposal,
        checked: u32,
        runs: &[NodeRun],
    ) -> Result<Tables, AllocError>
        requires proposal { IsProposal proposal.now }
        requires replaceable { IsReplaceable self.now proposal.now.name proposal.now.program checked }
        requires runs { AreRuns self.now proposal.now.name proposal.now.program checked runs.now }
        ensures { IfOk result (λ t. t ≡ put_in self.now proposal.now.name proposal.now.program checked) }
    {
        let program = proposal.program.copy()?;
        let published = Published { program, checked };
        let programs = self.programs.put(proposal.name, published)?;
        let demand = self
            .demand
            .replaced(alloc, proposal.name, 0, checked, runs)?;
        Ok(Tables { programs, demand })
    }
}

impl Library for Tables {
    ghost programs = { programs_of };

    fn program(&self, name: u32) -> Option<&Program> {
        match self.published(name) {
            Some(published) => Some(&published.program),
            None => None,
        }
    }
}

impl View for Tables {
    ghost use Rattle.std.specs.Prelude.{refl};

    ghost store = { λ s. s };

    fn published(&self, name: u32) -> Option<&Published> {
        let _first = self.programs.get(1);
        if name < 1 || name > GREATEST_NAME {
            return None;
        }
        self.programs.get(name)
    }

    fn next_name(&self, after: u32) -> Option<u32> {
        self.programs.next_name(after)
    }

    ghost same_programs = { λ v q. refl };
}
