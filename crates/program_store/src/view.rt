//! Programs by their names, and views of a whole store.

ghost use Rattle.std.specs.Prelude.{◌≡◌, ◌<◌, ◌≤◌, ℕ, IfSome, IfNone, None, IsSome};
ghost use Rattle.std.specs.Option.{option_copied};
ghost use Rattle.loda_semantics.specs.Exec as meaning;
ghost use Rattle.program_store.specs.Store as spec;
ghost use Rattle.text_parts.specs.Names.{IsName};
ghost use Rattle.program_store.specs.Store.{published_at, programs_of, with_program, IsStore};

use crate::published::Published;
use loda_syntax::Program;
use text_parts::GREATEST_NAME;

/// Programs by their names.
pub trait Library {
    /// Which program each name has.
    ghost programs: { Self → meaning.Library };

    /// The program of a name. `None` exactly where there is none.
    fn program(&self, name: u32) -> Option<&Program>
        ensures { option_copied result ≡ programs self.now name };
}

/// A store that is read by name and in the order of its names.
pub trait View: Library {
    /// The store, as a finite map.
    ghost store: { Self → spec.Store };

    /// What is published under a name. `None` exactly where nothing is.
    fn published(&self, name: u32) -> Option<&Published>
        ensures value { option_copied result ≡ published_at (store self.now) name }
        ensures kept { IsStore (store self.now) };

    /// The least published name above `after`. `None` exactly where there is none.
    fn next_name(&self, after: u32) -> Option<u32>
        requires { after ≤ GREATEST_NAME }
        ensures some { IfSome result (λ n. (after < n) × IsSome (published_at (store self.now) n)) }
        ensures least { IfSome result (λ n. (k : ℕ) → after < k → k < n → published_at (store self.now) k ≡ None) }
        ensures none { IfNone result ((k : ℕ) → after < k → published_at (store self.now) k ≡ None) }
        ensures named { IfSome result IsName }
        ensures kept { IsStore (store self.now) };

    ghost same_programs: { (v : Self) (q : ℕ) → Self.Library.programs v q ≡ programs_of (store v) q };
}

/// A library with one program put in place.
pub struct Overlay<'a, L: Library> {
    pub base: &'a L,
    pub name: u32,
    pub program: &'a Program,
}

impl<L: Library> Drop for Overlay<'_, L> {
    fn drop(self) {
        let Overlay {
            base: _,
            name: _,
            program: _,
        } = self;
    }
}

impl<L: Library> Library for Overlay<'_, L> {
    ghost programs = { λ o. with_program (L.programs o.base.now) o.name o.program.now };

    fn program(&self, name: u32) -> Option<&Program> {
        if name == self.name {
            Some(self.program)
        } else {
            self.base.program(name)
        }
    }
}
