//! Why terms were not read.

ghost use Rattle.std.specs.Prelude.{◌≡◌};
ghost use Rattle.oeis_terms.specs.declared.error.TermsError.TheVariants.{Memory};
ghost use Rattle.oeis_terms.specs.declared.error.LineError.TheVariants.{Memory as NoMemory};

use std::alloc::{AllocError, AllocFailed};
use thiserror::Error;

/// What is wrong with a line of a stripped file. Columns count bytes, from 1.
#[derive(Clone, Copy, Debug, PartialEq, Eq, Error)]
pub enum TermsKind {
    /// It begins with no A-number: `A` and six digits that are not all 0.
    #[error("bad-name")]
    BadName,
    /// No space and comma stand behind the name, or the last term has no comma.
    #[error("no-comma")]
    NoComma,
    /// A term isn't an optional `-` and at least one digit. The column is that of its first byte, or of
    /// its comma where it is empty.
    #[error("bad-term column {column}")]
    BadTerm { column: u64 },
    /// An earlier line has the name.
    #[error("repeated A{name:06}")]
    Repeated { name: u32 },
}

/// Why a table of terms was not read.
#[derive(Clone, Copy, Debug, PartialEq, Eq, Error)]
pub enum TermsError {
    /// A read failed, which the shelf has counted for that name.
    #[error("cannot read")]
    Failed,
    /// The file has a byte past the first 268,435,456, which is the byte of this number.
    #[error("too large at byte {size}")]
    FileTooLarge { size: u64 },
    /// The line has more than 65,536 bytes without its line feed.
    #[error("line {line} too long")]
    LineTooLong { line: u64 },
    /// The line is the first that isn't in the form of the stripped file. Lines are counted from 1.
    #[error("line {line}: {kind}")]
    Bad { line: u64, kind: TermsKind },
    /// There was no memory for the table.
    #[error("out of memory")]
    Memory,
}

impl From<AllocError> for TermsError {
    ghost from_gives = { λ _ e. e ≡ Memory };

    fn from(_e: AllocError) -> TermsError {
        TermsError::Memory
    }
}

// Why a line was not read.
#[derive(Clone, Copy)]
pub enum LineError {
    Bad(TermsKind),
    Memory,
}

impl From<AllocError> for LineError {
    ghost from_gives = { λ _ e. e ≡ NoMemory };

    fn from(_e: AllocError) -> LineError {
        LineError::Memory
    }
}

impl<T: Drop> From<AllocFailed<T>> for LineError {
    ghost from_gives = { λ _ e. e ≡ NoMemory };

    fn from(_e: AllocFailed<T>) -> LineError {
        LineError::Memory
    }
}
