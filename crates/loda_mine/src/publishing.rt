//! `publish`: every candidate is decided, in order.

ghost use Rattle.std.specs.Prelude.{◌≡◌, [], length, IfOk, Err};
ghost use Rattle.loda_semantics.specs.Limits.{IsStepLimit};
ghost use Rattle.oeis_terms.specs.Table.{IsBounded};
ghost use Rattle.publish_desk.specs.Desk.{IsKept};
ghost use Rattle.publish_desk.specs.Report.{report};
ghost use Rattle.publish_desk.specs.declared.charter.Source.TheVariants.{Listed};
ghost use Rattle.loda_mine.specs.declared.status.Status.{Status as status};
ghost use Rattle.loda_mine.specs.Answer.{IsDecided, Refuses, IsOutput, bytes_in};

use crate::files::Contents;
use crate::status::Status;
use command_words::Task;
use mine_workers::{JobSource, OpenGate, finish};
use publish_desk::{Desk, Origin, write_report};
use std::alloc::{AllocError, Global};
use std::sync::Arc;

// A desk on what stands in the files.
fn open_desk(alloc: Global, contents: Contents, limit: u64) -> Result<Desk, Status>
    requires limit { IsStepLimit limit }
    requires bounded { IsBounded contents.terms }
    ensures charter { IfOk result (λ d. d.charter ≡ record { opening = contents.store; terms = contents.terms; limit = limit; source = Listed contents.candidates; jobs = length contents.candidates }) }
    ensures journal { IfOk result (λ d. d.journal ≡ []) }
    ensures kept { IfOk result IsKept }
    ensures refused { (s : status) → result ≡ Err s → Refuses Task.Publish limit contents s }
{
    let jobs = contents.candidates.len();
    let terms = Arc::new(alloc, contents.terms)?;
    let origin = Origin::Listed(Arc::new(alloc, contents.candidates)?);
    let desk = Desk::start(alloc, contents.store, terms, limit, origin, jobs)?;
    Ok(desk)
}

/// The report of a desk.
pub fn report_of(alloc: Global, desk: &Desk) -> Result<Vec<u8>, AllocError>
    ensures report { IfOk result (λ output. output.items ≡ report desk.now.journal desk.now.version desk.now.store) }
    ensures kept { IsKept desk.now }
{
    let mut output = Vec::new(alloc);
    // What is kept of each desk.
    let _ = desk.version();
    write_report(desk, &mut output)?;
    Ok(output)
}

/// A desk that was opened on what stands in the files, and has decided every candidate, in order.
pub fn decided(alloc: Global, contents: Contents, limit: u64) -> Result<Desk, Status>
    requires limit { IsStepLimit limit }
    requires bounded { IsBounded contents.terms }
    ensures decided { IfOk result (IsDecided contents limit) }
    ensures refused { (s : status) → result ≡ Err s → Refuses Task.Publish limit contents s }
{
    let opened = open_desk(alloc, contents, limit)?;
    let source = JobSource::of(alloc, &opened)?;
    let desk = finish(alloc, &source, opened, &OpenGate)?;
    Ok(desk)
}

/// The report of the one journal that takes the candidates in order, each with the version at its place as its base.
pub fn publish(alloc: Global, contents: Contents, limit: u64) -> Result<Vec<u8>, Status>
    requires limit { IsStepLimit limit }
    requires bounded { IsBounded contents.terms }
    ensures { IsOutput Task.Publish limit contents (bytes_in result) }
{
    let desk = decided(alloc, contents, limit)?;
    let output = report_of(alloc, &desk)?;
    Ok(output)
}
