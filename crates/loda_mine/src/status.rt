//! How a run ends.

ghost use Rattle.std.specs.Prelude.{◌≡◌};
ghost use Rattle.loda_mine.specs.Endings.{exit_number};

use crate::text::Reason;
use judge::{CheckError, Unsound};
use oeis_terms::TermsKind;
use program_store::StoreKind;
use publish_desk::OpenError;
use std::alloc::{AllocError, AllocFailed};
use thiserror::Error;

/// A file of a command.
#[derive(Clone, Copy, Debug, PartialEq, Eq, Error)]
pub enum FileRole {
    #[error("terms")]
    Terms,
    #[error("store")]
    Store,
    #[error("candidates")]
    Candidates,
}

/// How a run ends, in the order in which it is tested. Lines, columns and sizes count from 1.
#[derive(Clone, Copy, Debug, PartialEq, Eq, Error)]
pub enum Status {
    /// The words are in no command's grammar.
    #[error("usage")]
    Usage,
    /// The shelf failed to read the file, and has counted it.
    #[error("cannot read {file}")]
    ReadFault { file: FileRole },
    /// The file has more than 268,435,456 bytes.
    #[error("{file} too large at byte {size}")]
    FileTooLarge { file: FileRole, size: u64 },
    /// The line has more than 65,536 bytes.
    #[error("{file} line {line} too long")]
    LineTooLong { file: FileRole, line: u64 },
    /// The first bad line of the terms.
    #[error("terms line {line}: {kind}")]
    BadTerms { line: u64, kind: TermsKind },
    /// The first fault of the store file.
    #[error("store line {line}: {kind}")]
    BadStore { line: u64, kind: StoreKind },
    /// The first fault of the candidates file.
    #[error("candidates line {line}: {kind}")]
    BadCandidates { line: u64, kind: StoreKind },
    /// The opening store is not sound.
    #[error("unsound: {}", Reason(*.0))]
    Unsound(Unsound),
    /// No program of that name is published.
    #[error("no program A{name:06}")]
    Absent { name: u32 },
    /// The sink failed, and has counted it. A first part of the output was written.
    #[error("cannot write")]
    WriteFault,
    /// Memory ran out.
    #[error("out of memory")]
    Memory,
    /// All inputs were read to their ends, and the whole output was written.
    #[error("done")]
    Done,
}

impl From<AllocError> for Status {
    ghost use Rattle.loda_mine.specs.declared.status.Status.TheVariants.{Memory};

    ghost from_gives = { λ _ given. given ≡ Memory };

    fn from(_error: AllocError) -> Status {
        Status::Memory
    }
}

impl<T: Drop> From<AllocFailed<T>> for Status {
    ghost use Rattle.loda_mine.specs.declared.status.Status.TheVariants.{Memory};

    ghost from_gives = { λ _ given. given ≡ Memory };

    fn from(_error: AllocFailed<T>) -> Status {
        Status::Memory
    }
}

impl From<CheckError> for Status {
    ghost use Rattle.loda_mine.specs.Answer.{check_status};

    ghost from_gives = { λ error given. given ≡ check_status error };

    fn from(error: CheckError) -> Status {
        match error {
            CheckError::Unsound(reason) => Status::Unsound(reason),
            CheckError::Memory => Status::Memory,
        }
    }
}

impl From<OpenError> for Status {
    ghost use Rattle.loda_mine.specs.Answer.{open_status};

    ghost from_gives = { λ error given. given ≡ open_status error };

    fn from(error: OpenError) -> Status {
        match error {
            OpenError::Unsound(reason) => Status::Unsound(reason),
            OpenError::Memory => Status::Memory,
        }
    }
}

impl Status {
    /// The number that the program ends with.
    pub fn number(self) -> u8
        ensures { result ≡ exit_number self }
    {
        match self {
            Status::Usage => 2,
            Status::ReadFault { .. } => 3,
            Status::WriteFault => 4,
            Status::FileTooLarge { .. } => 5,
            Status::LineTooLong { .. } => 6,
            Status::BadTerms { .. } => 7,
            Status::BadStore { .. } => 8,
            Status::BadCandidates { .. } => 9,
            Status::Unsound(_) => 10,
            Status::Memory => 11,
            Status::Absent { .. } => 12,
            Status::Done => 0,
        }
    }
}
