//! The tables of a desk as they were at a version.

ghost use Rattle.std.specs.Prelude.{◌≡◌, IfOk};
ghost use Rattle.program_store.specs.Store.{programs_of};

use demand_table::Tables;
use loda_syntax::Program;
use program_store::{Library, Published, View};
use std::alloc::AllocError;
use std::marker::Model;

/// The tables of a desk as they were at a version, and how many entries the journal had then.
#[derive(Drop)]
pub struct Snapshot {
    tables: Tables,
    version: u64,
    length: u64,
}

impl Model for Snapshot {
    ghost use Rattle.evidence.specs.Dossiers as spec;
    ghost use Rattle.std.specs.FinMap as map;
    ghost use Rattle.std.specs.Ordering.{nat_cmp};
    ghost use Rattle.std.specs.Coded.{codes, coded_ℕ};
    ghost use Rattle.program_store.specs.contracts.published.Published as published;

    ghost Value = { spec.Snapshot };

    ghost coded = { Prim.hlevel (codes, map.code {R = nat_cmp} coded_ℕ published.the_row.coded) };

    ghost view = { λ s. record { store = s.tables; version = s.version; length = s.length } };
}

impl Snapshot {
    /// The tables at a version, with the length of the journal.
    pub fn of(tables: Tables, version: u64, length: u64) -> Snapshot
        ensures { result ≡ record { store = tables; version = version; length = length } }
    {
        Snapshot {
            tables,
            version,
            length,
        }
    }

    /// The tables.
    pub fn tables(&self) -> &Tables
        ensures { result.now ≡ self.now.store }
    {
        &self.tables
    }

    /// How many entries had been accepted.
    pub fn version(&self) -> u64
        ensures { result ≡ self.now.version }
    {
        self.version
    }

    /// How many entries there were.
    pub fn length(&self) -> u64
        ensures { result ≡ self.now.length }
    {
        self.length
    }

    /// An equal value.
    pub fn share(&self) -> Result<Snapshot, AllocError>
        ensures { IfOk result (λ s. s ≡ self.now) }
    {
        let tables = self.tables.share()?;
        Ok(Snapshot {
            tables,
            version: self.version,
            length: self.length,
        })
    }
}

impl Library for Snapshot {
    ghost programs = { λ s. programs_of s.store };

    fn program(&self, name: u32) -> Option<&Program> {
        self.tables.program(name)
    }
}

impl View for Snapshot {
    ghost use Rattle.std.specs.Prelude.{refl};

    ghost store = { λ s. s.store };

    fn published(&self, name: u32) -> Option<&Published> {
        self.tables.published(name)
    }

    fn next_name(&self, after: u32) -> Option<u32> {
        self.tables.next_name(after)
    }

    ghost same_programs = { λ v q. refl };
}
