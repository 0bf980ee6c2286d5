//! The files of a command.

ghost use Rattle.std.specs.Prelude.{◌≡◌, List, ℕ, Result, IfOk};
ghost use Rattle.std.specs.Option.{option_map};
ghost use Rattle.loda_io.specs.declared.ReadError.{ReadError};
ghost use Rattle.loda_io.specs.Shelf.{OnlyRead};
ghost use Rattle.oeis_terms.specs.Table.{IsBounded};
ghost use Rattle.program_store.specs.Files.{store_read, candidates_read};
ghost use Rattle.loda_mine.specs.Files.{terms_status, parsed_status, TermsAt, ParsedAt};
ghost use Rattle.loda_mine.specs.Answer.{Found, found_terms, found_store, found_candidates, contents_of};
ghost use Rattle.command_words.specs.Requests.{asked};
ghost use Rattle.loda_mine.specs.Run.{FindsAt, Finds};

use crate::status::{FileRole, Status};
use command_words::Request;
use loda_io::Shelf;
use oeis_terms::{TermTable, TermsError, parse_terms, read_terms};
use program_store::{
    Candidates, Store, StoreError, parse_candidates, parse_store, read_candidates, read_store,
};
use std::alloc::Global;

/// What stands in the files of a command. A file that a command does not have is an empty one.
#[derive(Drop)]
pub struct Contents {
    pub terms: TermTable,
    pub store: Store,
    pub candidates: Candidates,
}

fn terms_status(error: TermsError) -> Status
    ensures { result ≡ terms_status error }
{
    let file = FileRole::Terms;
    match error {
        TermsError::Failed => Status::ReadFault { file },
        TermsError::FileTooLarge { size } => Status::FileTooLarge { file, size },
        TermsError::LineTooLong { line } => Status::LineTooLong { file, line },
        TermsError::Bad { line, kind } => Status::BadTerms { line, kind },
        TermsError::Memory => Status::Memory,
    }
}

fn store_status(error: StoreError) -> Status
    ensures { result ≡ parsed_status FileRole.Store Status.BadStore error }
{
    let file = FileRole::Store;
    match error {
        StoreError::Failed => Status::ReadFault { file },
        StoreError::FileTooLarge { size } => Status::FileTooLarge { file, size },
        StoreError::LineTooLong { line } => Status::LineTooLong { file, line },
        StoreError::Bad { line, kind } => Status::BadStore { line, kind },
        StoreError::Memory => Status::Memory,
    }
}

fn candidates_status(error: StoreError) -> Status
    ensures { result ≡ parsed_status FileRole.Candidates Status.BadCandidates error }
{
    let file = FileRole::Candidates;
    match error {
        StoreError::Failed => Status::ReadFault { file },
        StoreError::FileTooLarge { size } => Status::FileTooLarge { file, size },
        StoreError::LineTooLong { line } => Status::LineTooLong { file, line },
        StoreError::Bad { line, kind } => Status::BadCandidates { line, kind },
        StoreError::Memory => Status::Memory,
    }
}

// The terms at a path, or of no bytes.
fn terms_at<F: Shelf>(
    alloc: Global,
    shelf: &mut F,
    path: Option<&str>,
) -> Result<TermTable, TermsError>
    ensures kept { OnlyRead (F.known shelf.old) (F.known shelf.new) }
    ensures read { TermsAt (F.known shelf.old) (F.known shelf.new) (option_map (λ p. p.now) path.entry) result }
    ensures bounded { IfOk result IsBounded }
{
    match path {
        None => parse_terms(alloc, &[]),
        Some(path) => read_terms(alloc, shelf, path),
    }
}

// The store at a path, or of no bytes.
fn store_at<F: Shelf>(alloc: Global, shelf: &mut F, path: Option<&str>) -> Result<Store, StoreError>
    ensures kept { OnlyRead (F.known shelf.old) (F.known shelf.new) }
    ensures read { ParsedAt store_read (F.known shelf.old) (F.known shelf.new) (option_map (λ p. p.now) path.entry) result }
{
    match path {
        None => parse_store(alloc, &[]),
        Some(path) => read_store(alloc, shelf, path),
    }
}

// The candidates at a path, or of no bytes.
fn candidates_at<F: Shelf>(
    alloc: Global,
    shelf: &mut F,
    path: Option<&str>,
) -> Result<Candidates, StoreError>
    ensures kept { OnlyRead (F.known shelf.old) (F.known shelf.new) }
    ensures read { ParsedAt candidates_read (F.known shelf.old) (F.known shelf.new) (option_map (λ p. p.now) path.entry) result }
{
    match path {
        None => parse_candidates(alloc, &[]),
        Some(path) => read_candidates(alloc, shelf, path),
    }
}

// The terms of a command.
fn open_terms<F: Shelf>(
    alloc: Global,
    shelf: &mut F,
    path: Option<&str>,
) -> Result<TermTable, Status>
    ensures kept { OnlyRead (F.known shelf.old) (F.known shelf.new) }
    ensures answer { (found : Result (List ℕ) ReadError) × FindsAt (F.known shelf.old) (F.known shelf.new) (option_map (λ p. p.now) path.entry) found
        × (found_terms found ≡ result) }
    ensures bounded { IfOk result IsBounded }
{
    match terms_at(alloc, shelf, path) {
        Ok(terms) => Ok(terms),
        Err(error) => Err(terms_status(error)),
    }
}

// The store of a command.
fn open_store<F: Shelf>(alloc: Global, shelf: &mut F, path: Option<&str>) -> Result<Store, Status>
    ensures kept { OnlyRead (F.known shelf.old) (F.known shelf.new) }
    ensures answer { (found : Result (List ℕ) ReadError) × FindsAt (F.known shelf.old) (F.known shelf.new) (option_map (λ p. p.now) path.entry) found
        × (found_store found ≡ result) }
{
    match store_at(alloc, shelf, path) {
        Ok(store) => Ok(store),
        Err(error) => Err(store_status(error)),
    }
}

// The candidates of a command.
fn open_candidates<F: Shelf>(
    alloc: Global,
    shelf: &mut F,
    path: Option<&str>,
) -> Result<Candidates, Status>
    ensures kept { OnlyRead (F.known shelf.old) (F.known shelf.new) }
    ensures answer { (found : Result (List ℕ) ReadError) × FindsAt (F.known shelf.old) (F.known shelf.new) (option_map (λ p. p.now) path.entry) found
        × (found_candidates found ≡ result) }
{
    match candidates_at(alloc, shelf, path) {
        Ok(candidates) => Ok(candidates),
        Err(error) => Err(candidates_status(error)),
    }
}

/// Reads the files of a command one after the other, and parses each before the next is read.
pub fn open<F: Shelf>(
    alloc: Global,
    shelf: &mut F,
    request: &Request<'_>,
) -> Result<Contents, Status>
    ensures kept { OnlyRead (F.known shelf.old) (F.known shelf.new) }
    ensures answer { (found : Found) × Finds (F.known shelf.old) (F.known shelf.new) (asked request.now) found × (contents_of found ≡ result) }
    ensures bounded { IfOk result (λ contents. IsBounded contents.terms) }
{
    let terms = open_terms(alloc, shelf, request.terms)?;
    let store = open_store(alloc, shelf, request.store)?;
    let candidates = open_candidates(alloc, shelf, request.candidates)?;
    Ok(Contents {
        terms,
        store,
        candidates,
    })
}
