//! Where a run stops, and what may be asked of a machine.

use checked_numbers::Num;
use loda_semantics::FaultKind;

/// Why a run stopped.
#[derive(Clone, Copy, Debug, PartialEq, Eq)]
pub enum Stop {
    /// The program has ended, with this result.
    Done(Num),
    /// The program calls the program of a name, and waits for its value at an argument.
    Call {
        /// The name, from 1 to 999,999.
        name: u32,
        /// The argument.
        arg: Num,
    },
    /// An instruction failed; its cost is charged.
    Fault(FaultKind),
    /// The next cost is greater than the steps that are left.
    Spent,
}

/// What may be asked of a machine next.
#[derive(Clone, Copy, Debug, PartialEq, Eq)]
pub enum Phase {
    /// It may advance.
    Ready,
    /// It waits for the answer to a call.
    Waiting,
    /// Its run is over.
    Ended,
}
