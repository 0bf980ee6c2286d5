//! What judging answers.

use checked_numbers::Num;

/// What a run came to in the place of a term or of an old value: a value, a fault, or the steps ran out.
#[derive(Clone, Copy, Debug, PartialEq, Eq)]
pub enum Got {
    Value(Num),
    Overflow,
    DivideByZero,
    BadCell,
    Missing,
    OutOfSteps,
}

/// What is answered to a proposed program: the first of the others that holds, in the order in which they stand here, and
/// else acceptance. Terms and checked arguments are counted from 0.
#[derive(Clone, Copy, Debug, PartialEq, Eq)]
pub enum Answer {
    /// The program is published, and gives so many leading terms.
    Accepted {
        checked: u32,
    },
    /// The name has no row of usable terms.
    Unlisted,
    /// The first name that the program calls from which the proposed name is reached by calls, or that is that name.
    Cycle {
        through: u32,
    },
    /// The first term that is not given, with what was got in its place.
    WrongTerm {
        index: u32,
        got: Got,
    },
    /// The least demanded argument at which the value would not stay as it was, the least pair of a published name and
    /// one of its checked arguments whose run demands it, and what the two runs come to.
    BrokenDependant {
        at: Num,
        caller: u32,
        index: u32,
        was: Num,
        now: Got,
    },
    /// The least checked or demanded argument that would take more steps, with the steps of both runs.
    Costlier {
        at: Num,
        was: u64,
        now: u64,
    },
    /// The name is published, as many terms are checked as before, each in as many steps, and the program is no shorter.
    NoGain,
}

/// Why a store is not sound, in the order in which it is tested.
#[derive(Clone, Copy, Debug, PartialEq, Eq)]
pub enum Unsound {
    /// The least name that reaches itself by calls.
    Cycle {
        through: u32,
    },
    /// The name has no row of usable terms.
    NoRow {
        name: u32,
    },
    /// The checked count is below 8 or above the number of usable terms.
    Count {
        name: u32,
        checked: u32,
        usable: u32,
    },
    /// The first checked term that the program does not give, with what was got in its place.
    Unmet {
        name: u32,
        index: u32,
        got: Got,
    },
}
