//! Why a text isn't a program.

ghost use Rattle.std.specs.Prelude.{◌≡◌};
ghost use Rattle.loda_syntax.specs.declared.error.ParseError.TheVariants.{Memory};

use std::alloc::AllocFailed;
use thiserror::Error;

/// What is wrong with a line of a program's text.
#[derive(Clone, Copy, Debug, PartialEq, Eq, Error)]
pub enum SyntaxKind {
    /// The line begins with `#`.
    #[error("directive")]
    Directive,
    /// The word isn't an operation of the LODA language.
    #[error("unknown-op")]
    UnknownOp,
    /// The word, or a region whose length or start isn't fixed, belongs to the LODA language but isn't read here.
    #[error("unsupported")]
    Unsupported,
    /// The number of operands is wrong, or one has no form of an operand or is out of its range.
    #[error("bad-operand")]
    BadOperand,
    /// A number has an absolute value above `2^127 - 1`.
    #[error("wide-literal")]
    WideLiteral,
    /// The first operand is a number.
    #[error("constant-target")]
    ConstantTarget,
    /// `lpe` stands where no loop is open.
    #[error("loop-close")]
    LoopClose,
    /// It is instruction number 1,001.
    #[error("too-long")]
    TooLong,
    /// The loop that this `lpb` starts isn't ended.
    #[error("loop-open")]
    LoopOpen,
}

/// Why a text was not read as a program.
#[derive(Clone, Copy, Debug, PartialEq, Eq, Error)]
pub enum ParseError {
    /// The first fault of the text, with its line, counted from 1.
    #[error("line {line}: {kind}")]
    Syntax { line: u64, kind: SyntaxKind },
    /// Memory ran out.
    #[error("out of memory")]
    Memory,
}

impl<T: Drop> From<AllocFailed<T>> for ParseError {
    ghost from_gives = { λ _ e. e ≡ Memory };

    fn from(_failed: AllocFailed<T>) -> ParseError {
        ParseError::Memory
    }
}
