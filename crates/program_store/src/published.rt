//! What is published under a name, and what is proposed for one.

ghost use Rattle.std.specs.Prelude.{◌≡◌, IfOk};

use loda_syntax::Program;
use std::alloc::AllocError;

/// A program, and at how many of its first arguments it was checked.
#[derive(Debug, Drop)]
pub struct Published {
    pub program: Program,
    pub checked: u32,
}

impl Published {
    /// An equal value.
    pub fn copy(&self) -> Result<Published, AllocError>
        ensures { IfOk result (λ copy. copy ≡ self.now) }
    {
        let program = self.program.copy()?;
        Ok(Published {
            program,
            checked: self.checked,
        })
    }
}

/// A program for a name, from 1 to 999,999.
#[derive(Debug, Drop)]
pub struct Proposal {
    pub name: u32,
    pub program: Program,
}

impl Proposal {
    /// An equal value.
    pub fn copy(&self) -> Result<Proposal, AllocError>
        ensures { IfOk result (λ copy. copy ≡ self.now) }
    {
        let program = self.program.copy()?;
        Ok(Proposal {
            name: self.name,
            program,
        })
    }
}
