//! A store in memory.

ghost use Rattle.std.specs.Prelude.{◌≡◌, IfOk, OnOk, IfErr, OnErr};
ghost use Rattle.std.specs.FinMap as map;
ghost use Rattle.text_parts.specs.Names.{IsName};
ghost use Rattle.program_store.specs.Store.{published_at, programs_of};

use crate::published::Published;
use crate::view::{Library, View};
use loda_syntax::Program;
use std::alloc::Global;
use std::collections::BTreeMap;
use std::marker::Model;

/// A map from names to what is published there.
#[derive(Drop)]
pub struct Store {
    entries: BTreeMap<u32, Published>,
}

impl Model for Store {
    ghost use Rattle.std.specs.FinMap as map;
    ghost use Rattle.std.specs.Ordering.{nat_cmp};
    ghost use Rattle.std.specs.Coded.{coded_ℕ};
    ghost use Rattle.program_store.specs.declared.published.Published.{Published};
    ghost use Rattle.program_store.specs.contracts.published.Published as published;

    ghost Value = { map.FinMap nat_cmp Published };

    ghost coded = { map.code coded_ℕ published.the_row.coded };

    ghost use Rattle.program_store.specs.Store.{IsStore};

    ghost view = { λ s. map.from_entries s.entries.entries };

    ghost invariant = { λ s. IsStore (map.from_entries s.entries.entries) };
}

impl Store {
    /// A store with nothing in it.
    pub fn empty(alloc: Global) -> Store
        ensures { result ≡ map.empty }
    {
        Store {
            entries: BTreeMap::new(alloc),
        }
    }

    /// How many names are published.
    pub fn len(&self) -> usize
        ensures { result ≡ map.len self.now }
    {
        self.entries.len()
    }

    /// Publishes under a name, and answers what stood there. Want of memory alone hands the new entry back, and leaves
    /// the store as it was.
    pub fn put(&mut self, name: u32, published: Published) -> Result<Option<Published>, Published>
        requires { IsName name }
        ensures ok { IfOk result (λ old. old ≡ published_at self.old name) }
        ensures put { OnOk result (self.new ≡ map.insert self.old name published) }
        ensures err { IfErr result (λ given. given ≡ published) }
        ensures unchanged { OnErr result (self.new ≡ self.old) }
    {
        // What is kept of each entry: its instructions are those of a program.
        let _ = published.program.instrs();
        let old = match self.entries.insert(name, published) {
            Ok(old) => old,
            Err(failed) => {
                let (_, given) = failed.value;
                return Err(given);
            }
        };
        Ok(old)
    }
}

impl Library for Store {
    ghost programs = { programs_of };

    fn program(&self, name: u32) -> Option<&Program> {
        match self.entries.get(&name) {
            Some(published) => Some(&published.program),
            None => None,
        }
    }
}

impl View for Store {
    ghost use Rattle.std.specs.Prelude.{refl};

    ghost store = { λ s. s };

    fn published(&self, name: u32) -> Option<&Published> {
        self.entries.get(&name)
    }

    fn next_name(&self, after: u32) -> Option<u32> {
        match self.entries.range(after + 1..).next() {
            Some((name, _)) => Some(*name),
            None => None,
        }
    }

    ghost same_programs = { λ v q. refl };
}
