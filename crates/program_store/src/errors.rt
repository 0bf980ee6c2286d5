//! Why a store or a candidates file was not read.

use loda_io::ReadError;
use loda_syntax::SyntaxKind;
use std::alloc::AllocError;
use thiserror::Error;

/// What is wrong with a line of a store or a candidates file.
#[derive(Clone, Copy, Debug, PartialEq, Eq, Error)]
pub enum StoreKind {
    /// The line isn't a header, and has to be one.
    #[error("bad-header")]
    BadHeader,
    /// The name is that of the section before it. Store files alone.
    #[error("repeated")]
    Repeated,
    /// The name is below that of the section before it. Store files alone.
    #[error("out-of-order")]
    OutOfOrder,
    /// The count is below 8 or above 32,768. Store files alone.
    #[error("bad-count")]
    BadCount,
    /// It is header number 1,000,001. Candidates files alone.
    #[error("too-many")]
    TooMany,
    /// The section's text isn't a program's.
    #[error("{0}")]
    Syntax(SyntaxKind),
}

/// Why a store or a candidates file was not read.
#[derive(Clone, Copy, Debug, PartialEq, Eq, Error)]
pub enum StoreError {
    /// The shelf failed to read the file.
    #[error("cannot read")]
    Failed,
    /// The file has more than 268,435,456 bytes.
    #[error("too large at byte {size}")]
    FileTooLarge { size: u64 },
    /// A line has more than 65,536 bytes.
    #[error("line {line} too long")]
    LineTooLong { line: u64 },
    /// The first fault of the file, with its line, counted from 1.
    #[error("line {line}: {kind}")]
    Bad { line: u64, kind: StoreKind },
    /// Memory ran out.
    #[error("out of memory")]
    Memory,
}

impl From<ReadError> for StoreError {
    ghost use Rattle.std.specs.Prelude.{◌≡◌};
    ghost use Rattle.program_store.specs.Answers.{error_of};

    ghost from_gives = { λ error given. given ≡ error_of error };

    fn from(error: ReadError) -> StoreError {
        match error {
            ReadError::Failed => StoreError::Failed,
            ReadError::FileTooLarge { size } => StoreError::FileTooLarge { size },
            ReadError::LineTooLong { line } => StoreError::LineTooLong { line },
            ReadError::Memory => StoreError::Memory,
        }
    }
}

impl From<AllocError> for StoreError {
    ghost use Rattle.std.specs.Prelude.{◌≡◌};
    ghost use Rattle.program_store.specs.declared.errors.StoreError.TheVariants.{Memory};

    ghost from_gives = { λ _ given. given ≡ Memory };

    fn from(_error: AllocError) -> StoreError {
        StoreError::Memory
    }
}
