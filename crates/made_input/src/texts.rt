//! The files of made input.

ghost use Rattle.std.specs.Prelude.{◌≡◌, ◌<◌, ◌≤◌, ◌++◌, IfOk, OnOk};
ghost use Rattle.program_store.specs.StoreText.{store_text};
ghost use Rattle.made_input.specs.Values.{made_store};
ghost use Rattle.made_input.specs.Texts.{term_texts, row_text, terms_text, candidate_text, candidates_text};

use crate::programs::{first_program, plain_program};
use crate::values::{made_store, term};
use loda_syntax::{Program, print};
use program_store::print_store;
use std::alloc::{AllocError, Global};
use text_parts::{name_text, write_count};

// Adds the line of a place.
#[tactic(auto, unfolding(crate::specs::Texts::row_text))]
fn write_row(out: &mut Vec<u8>, place: u32) -> Result<(), AllocError>
    requires { place < 20000 }
    ensures { OnOk result (out.new.items ≡ out.old.items ++ row_text place) }
{
    out.extend_from_slice(&name_text(place + 1))?;
    out.extend_from_slice(b" ,")?;
    write_terms(out, place)?;
    out.extend_from_slice(b"\n")
}

// Adds the ten terms of a place, each followed by a comma.
#[tactic(auto, unfolding(crate::specs::Texts::term_texts))]
fn write_terms(out: &mut Vec<u8>, place: u32) -> Result<(), AllocError>
    requires { place < 20000 }
    ensures { OnOk result (out.new.items ≡ out.old.items ++ term_texts place 10) }
{
    for k in 0..10 {
        write_count(out, u64::from(term(place, k)))?;
        out.extend_from_slice(b",")?;
    }
    Ok(())
}

/// The terms file of the first places.
#[tactic(auto, unfolding(crate::specs::Texts::terms_text))]
pub fn terms_text(alloc: Global, n: u32) -> Result<Vec<u8>, AllocError>
    requires { n ≤ 20000 }
    ensures { IfOk result (λ text. text.items ≡ terms_text n) }
{
    let mut text = Vec::new(alloc);
    for place in 0..n {
        write_row(&mut text, place)?;
    }
    Ok(text)
}

/// The store file of the first places: the first programs, each with the count 10.
pub fn store_text(alloc: Global, n: u32) -> Result<Vec<u8>, AllocError>
    requires { n ≤ 20000 }
    ensures { IfOk result (λ text. text.items ≡ store_text (made_store n)) }
{
    let store = made_store(alloc, n)?;
    let mut text = Vec::new(alloc);
    print_store(&store, &mut text)?;
    Ok(text)
}

// Adds a candidate: its header, and its program's canonical text.
#[tactic(auto, unfolding(crate::specs::Texts::candidate_text))]
fn write_candidate(out: &mut Vec<u8>, name: u32, program: &Program) -> Result<(), AllocError>
    ensures { OnOk result (out.new.items ≡ out.old.items ++ candidate_text (record { name = name; program = program.now })) }
{
    out.extend_from_slice(b"? ")?;
    out.extend_from_slice(&name_text(name))?;
    out.extend_from_slice(b"\n")?;
    print(program, out)
}

/// The candidates file of the first places: all first programs, and then all plain ones.
#[tactic(auto, unfolding(crate::specs::Texts::each_text))]
pub fn candidates_text(alloc: Global, n: u32) -> Result<Vec<u8>, AllocError>
    requires { n ≤ 20000 }
    ensures { IfOk result (λ text. text.items ≡ candidates_text n) }
{
    let mut text = Vec::new(alloc);
    for place in 0..n {
        write_candidate(&mut text, place + 1, &first_program(alloc, place)?)?;
    }
    for place in 0..n {
        write_candidate(&mut text, place + 1, &plain_program(alloc, place)?)?;
    }
    Ok(text)
}
