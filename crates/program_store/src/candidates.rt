//! Proposals in the order of a candidates file.

ghost use Rattle.std.specs.Prelude.{◌≡◌, ◌<◌, ◌≤◌, Some, [], ◌∷◌, ◌++◌, length, slice_get, OnOk, OnErr};
ghost use Rattle.text_parts.specs.Names.{IsName};
ghost use Rattle.program_store.specs.Store.{IsProposal};

use crate::published::Proposal;
use std::alloc::{AllocError, Global};
use std::marker::Model;

/// The most jobs of a run, and so the most proposals of a candidates file.
pub const MOST_JOBS: u64 = 1_000_000;

/// A list of at most `MOST_JOBS` proposals.
#[derive(Drop)]
pub struct Candidates {
    list: Vec<Proposal>,
}

impl Model for Candidates {
    ghost use Rattle.std.specs.Prelude.{List};
    ghost use Rattle.program_store.specs.declared.published.Proposal.{Proposal};

    ghost Value = { List Proposal };

    ghost use Rattle.program_store.specs.Store.{AreCandidates};

    ghost view = { λ c. c.list.items };

    ghost invariant = { λ c. AreCandidates c.list.items };
}

impl Candidates {
    /// No proposals.
    pub fn empty(alloc: Global) -> Candidates
        ensures { result ≡ [] }
    {
        Candidates {
            list: Vec::new(alloc),
        }
    }

    /// Adds a proposal at the end. After want of memory the list is as it was.
    pub fn push(&mut self, proposal: Proposal) -> Result<(), AllocError>
        requires few { length self.old < MOST_JOBS }
        requires named { IsName proposal.name }
        ensures ok { OnOk result (self.new ≡ self.old ++ proposal ∷ []) }
        ensures err { OnErr result (self.new ≡ self.old) }
    {
        // What is kept of each proposal: its instructions are those of a program.
        let _ = proposal.program.instrs();
        self.list.push(proposal)?;
        Ok(())
    }

    /// How many proposals there are.
    pub fn len(&self) -> u64
        ensures value { result ≡ length self.now }
        ensures few { result ≤ MOST_JOBS }
    {
        self.list.len() as u64
    }

    /// The proposal of a job, which is its place from 0.
    pub fn at(&self, job: u64) -> &Proposal
        requires { job < length self.now }
        ensures value { slice_get self.now job ≡ Some result.now }
        ensures kept { IsProposal result.now }
    {
        &self.list[job as usize]
    }
}
