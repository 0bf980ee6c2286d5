//! The program that a job begins with.

ghost use Rattle.std.specs.Prelude.{◌≡◌, ◌<◌, length, slice_index, All, IsSome, IfOk};
ghost use Rattle.word_stream.specs.Words.{below, rest};
ghost use Rattle.generator.specs.Names.{AreNames};
ghost use Rattle.mutator.specs.Mutating.{mutated};
ghost use Rattle.program_store.specs.Store.{published_at};
ghost use Rattle.proposer.specs.Short.{names_of, program_published, candidate};

use generator::generate;
use loda_syntax::Program;
use mutator::mutate;
use program_store::View;
use rand_core::Rng;
use std::alloc::{AllocError, Global};
use word_stream::Draws;

// The published names, in ascending order.
fn names<V: View>(alloc: Global, view: &V) -> Result<Vec<u32>, AllocError>
    ensures value { IfOk result (λ names. names.items ≡ names_of (V.store view.now)) }
    ensures are { IfOk result (λ names. AreNames names.items) }
    ensures published { IfOk result (λ names. All (λ name. IsSome (published_at (V.store view.now) name)) names.items) }
{
    let mut names = Vec::new(alloc);
    let mut last = 0;
    while let Some(name) = view.next_name(last) {
        names.push(name)?;
        last = name;
    }
    Ok(names)
}

// The program of one of the names, changed.
fn changed<V: View, R: Rng>(
    alloc: Global,
    view: &V,
    draws: &mut Draws<R>,
    names: &[u32],
) -> Result<Program, AllocError>
    requires some { 0 < length names.now }
    requires are { AreNames names.now }
    requires published { All (λ name. IsSome (published_at (V.store view.now) name)) names.now }
    ensures { let name = slice_index names.now (below (length names.now) (R.stream draws.old)) in
        IfOk result (λ made. made ≡ (mutated names.now (program_published (V.store view.now) name) (rest (R.stream draws.old))).0) }
{
    let place = draws.below(names.len() as u32) as usize;
    let published = view.published(names[place]).unwrap();
    mutate(alloc, &published.program, draws, names)
}

/// The program that is made of the next words: a published one that is changed, or a new one.
pub fn candidate<V: View, R: Rng>(
    alloc: Global,
    view: &V,
    draws: &mut Draws<R>,
) -> Result<Program, AllocError>
    ensures { IfOk result (λ made. made ≡ candidate (V.store view.now) (R.stream draws.old)) }
{
    let names = names(alloc, view)?;
    if draws.below(2) != 1 || names.is_empty() {
        return generate(alloc, draws, &names);
    }
    changed(alloc, view, draws, &names)
}
