//! The loops that are open.

/// An open loop, as it was when its iteration began.
#[derive(Clone, Copy, Debug, PartialEq, Eq)]
pub struct Mark {
    /// The place of the first instruction of its body.
    pub body: usize,
    /// The first cell of its region.
    pub start: u16,
    /// The number of cells of its region.
    pub len: u8,
    /// The length of the undo log when the iteration began.
    pub logged: usize,
}
