//! A made table, a made store and made candidates.

ghost use Rattle.std.specs.Prelude.{◌≡◌, ◌<◌, ◌≤◌, ◌+◌, IfOk, OnOk};
ghost use Rattle.oeis_terms.specs.Table.{IsBounded};
ghost use Rattle.program_store.specs.Store.{put_in};
ghost use Rattle.made_input.specs.Programs.{first_program};
ghost use Rattle.made_input.specs.Values.{term, first_terms, made_table, made_store, made_candidates};

use crate::programs::{first_program, plain_program};
use checked_numbers::{Num, number_of};
use oeis_terms::{Row, TermTable};
use program_store::{Candidates, Proposal, Published, Store};
use std::alloc::{AllocError, Global};

/// The term at `k` of the row of a place.
pub fn term(place: u32, k: u32) -> u32
    requires place { place < 20000 }
    requires column { k < 10 }
    ensures { result ≡ term place k }
{
    (place + 1) * k + place
}

// The ten terms of a place.
fn terms_of(alloc: Global, place: u32) -> Result<Vec<Num>, AllocError>
    requires { place < 20000 }
    ensures { IfOk result (λ terms. terms.items ≡ first_terms place 10) }
{
    let mut terms = Vec::new(alloc);
    for k in 0..10 {
        terms.push(number_of(term(place, k)))?;
    }
    Ok(terms)
}

/// The table of the rows of the first places.
pub fn made_table(alloc: Global, n: u32) -> Result<TermTable, AllocError>
    requires { n ≤ 20000 }
    ensures table { IfOk result (λ table. table ≡ made_table n) }
    ensures bounded { IfOk result IsBounded }
{
    let mut rows = Vec::new(alloc);
    for place in 0..n {
        rows.push(Row::of(place + 1, terms_of(alloc, place)?))?;
    }
    Ok(TermTable::of(rows, 0))
}

// Publishes the first program of a place.
fn publish_first(alloc: Global, place: u32, store: &mut Store) -> Result<(), AllocError>
    requires { place < 20000 }
    ensures { OnOk result (store.new ≡ put_in store.old (place + 1) (first_program place) 10) }
{
    let program = first_program(alloc, place)?;
    let published = Published {
        program,
        checked: 10,
    };
    match store.put(place + 1, published) {
        Ok(_) => Ok(()),
        Err(_) => Err(AllocError),
    }
}

/// The store of the first programs of the first places, each with the count 10.
pub fn made_store(alloc: Global, n: u32) -> Result<Store, AllocError>
    requires { n ≤ 20000 }
    ensures { IfOk result (λ store. store ≡ made_store n) }
{
    let mut store = Store::empty(alloc);
    for place in 0..n {
        publish_first(alloc, place, &mut store)?;
    }
    Ok(store)
}

/// The candidates of the first places: all first programs, and then all plain ones.
pub fn made_candidates(alloc: Global, n: u32) -> Result<Candidates, AllocError>
    requires { n ≤ 20000 }
    ensures { IfOk result (λ candidates. candidates ≡ made_candidates n) }
{
    let mut candidates = Candidates::empty(alloc);
    for place in 0..n {
        let program = first_program(alloc, place)?;
        candidates.push(Proposal {
            name: place + 1,
            program,
        })?;
    }
    for place in 0..n {
        let program = plain_program(alloc, place)?;
        candidates.push(Proposal {
            name: place + 1,
            program,
        })?;
    }
    Ok(candidates)
}
