//! Programs of a view that one look finds.

ghost use Rattle.std.specs.Prelude.{◌≡◌, ◌≤◌, Some, IfOk};
ghost use Rattle.loda_semantics.specs.Exec as meaning;
ghost use Rattle.judge.specs.Places.{ArePrograms};

use loda_syntax::Program;
use program_store::{Library, View};
use std::alloc::{AllocError, Global};
use text_parts::GREATEST_NAME;

/// A name, and its program.
#[derive(Clone, Copy)]
pub struct Named<'a> {
    pub name: u32,
    pub program: &'a Program,
}

/// A library, and a table of programs of it. A name's place in the table is what is left of it by the table's length, which is a
/// power of two. Of names that share a place one stands there, and the library itself is asked for the others.
pub struct Directory<'a, L: Library> {
    pub base: &'a L,
    pub places: &'a [Named<'a>],
    ghost are_programs: { ArePrograms (L.programs base.now) places.now },
}

impl<L: Library> Drop for Directory<'_, L> {
    fn drop(self) {
        let Directory { base: _, places: _ } = self;
    }
}

impl<L: Library> Library for Directory<'_, L> {
    ghost programs = { λ directory. L.programs directory.base.now };

    fn program(&self, name: u32) -> Option<&Program> {
        let place = place_of(name, self.places.len());
        if place < self.places.len() {
            let named = &self.places[place];
            if named.name == name {
                return Some(named.program);
            }
        }
        self.base.program(name)
    }
}

// The place of a name among as many as these, which are a power of two; of none, a place that is not there.
fn place_of(name: u32, len: usize) -> usize {
    name as usize & len.wrapping_sub(1)
}

// How many names have something published.
fn count<V: View>(view: &V) -> u32
    ensures { result ≤ GREATEST_NAME }
{
    let mut count = 0;
    let mut last = 0;
    while let Some(name) = view.next_name(last) {
        count += 1;
        last = name;
    }
    count
}

/// The table of a view's programs: as many places as there are names, or up to twice as many.
pub fn table<'a, V: View>(alloc: Global, view: &'a V) -> Result<Vec<Named<'a>>, AllocError>
    ensures { IfOk result (λ places. ArePrograms (V.programs view.now) places.items) }
{
    let Some(first) = view.next_name(0) else {
        return Ok(Vec::new(alloc));
    };
    let Some(program) = view.program(first) else {
        return Ok(Vec::new(alloc));
    };
    let len = count(view).next_power_of_two() as usize;
    let named = Named {
        name: first,
        program,
    };
    let mut places = filled(alloc, named, len)?;
    let mut last = first;
    while let Some(name) = view.next_name(last) {
        if let Some(program) = view.program(name) {
            put(&mut places, Named { name, program });
        }
        last = name;
    }
    Ok(places)
}

// As many places, all with the same program.
fn filled<'a>(alloc: Global, named: Named<'a>, len: usize) -> Result<Vec<Named<'a>>, AllocError>
    ensures { (lib : meaning.Library) → lib named.entry.name ≡ Some named.entry.program.now → IfOk result (λ places. ArePrograms lib places.items) }
{
    let mut places = Vec::new(alloc);
    places.resize(len, named)?;
    Ok(places)
}

// Puts a program at its name's place, if there is one.
fn put<'a>(places: &mut Vec<Named<'a>>, named: Named<'a>)
    ensures { (lib : meaning.Library) → ArePrograms lib places.old.items → lib named.entry.name ≡ Some named.entry.program.now → ArePrograms lib places.new.items }
{
    let place = place_of(named.name, places.len());
    if place < places.len() {
        places[place] = named;
    }
}
