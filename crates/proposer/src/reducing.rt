//! The proposal that is made of a match.

ghost use Rattle.std.specs.Prelude.{◌≡◌, ◌≤◌, length, IfOk, IfSome};
ghost use Rattle.oeis_terms.specs.Table.{IsBounded};
ghost use Rattle.text_parts.specs.Names.{IsName};
ghost use Rattle.program_store.specs.Store.{IsProposal};
ghost use Rattle.proposer.specs.Short.{given_from, reduced, usable_row, proposal_of_match};

use crate::running::given_terms;
use checked_numbers::Num;
use loda_syntax::Program;
use matchers::compose;
use minimiser::minimise_given;
use oeis_terms::TermTable;
use program_store::{Library, Proposal};
use seq_calls::{Evaluator, Steps};
use std::alloc::{AllocError, Global};
use std::sync::ledger::Ledger;
use term_index::Match;

// Fewer terms than these prove too little to minimise a program by.
const ENOUGH: usize = 8;

// The program minimised at the indices of the leading terms that it gives, where these are enough.
fn reduce<B: Library, L: Ledger>(
    evaluator: &mut Evaluator,
    alloc: Global,
    lib: &B,
    program: Program,
    row: &[Num],
    limit: u64,
    steps: &mut Steps<L>,
) -> Result<Program, AllocError>
    requires { length row.now ≤ 32768 }
    ensures program { IfOk result (λ made. made ≡ reduced (B.programs lib.now) limit (given_from (B.programs lib.now) limit program 0 row.now) program) }
    ensures counted { steps.old ≤ steps.new }
{
    let given = given_terms(evaluator, alloc, lib, &program, row, limit, steps)?;
    if given.len() < ENOUGH {
        return Ok(program);
    }
    minimise_given(evaluator, alloc, lib, program, given, limit, steps)
}

// The usable terms of a name.
fn usable(terms: &TermTable, name: u32) -> &[Num]
    requires { IsBounded terms.now }
    ensures row { result.now ≡ usable_row terms.now name }
    ensures bounded { length result.now ≤ 32768 }
{
    match terms.row(name) {
        Some(row) => row,
        None => &[],
    }
}

/// The proposal that is made of a match of the program's values, where there is a composed program.
pub fn proposal_of<B: Library, L: Ledger>(
    evaluator: &mut Evaluator,
    alloc: Global,
    lib: &B,
    terms: &TermTable,
    program: &Program,
    found: &Match,
    limit: u64,
    steps: &mut Steps<L>,
) -> Result<Option<Proposal>, AllocError>
    requires bounded { IsBounded terms.now }
    requires named { IsName found.now.name }
    ensures proposal { IfOk result (λ made. made ≡ proposal_of_match (B.programs lib.now) terms.now limit program.now found.now) }
    ensures well_formed { IfOk result (λ made. IfSome made IsProposal) }
    ensures counted { steps.old ≤ steps.new }
{
    let Some(composed) = compose(alloc, program, &found.form)? else {
        return Ok(None);
    };
    let row = usable(terms, found.name);
    let program = reduce(evaluator, alloc, lib, composed, row, limit, steps)?;
    // Its instructions are well formed.
    let _instrs = program.instrs();
    Ok(Some(Proposal {
        name: found.name,
        program,
    }))
}
