//! The law of lines, proved as the clause of a function that does nothing.

ghost use Rattle.term_index.specs.Lines.{LinesAreFound};

/// The numbers a and b of terms and values are found exactly where there are any, and then they are the only ones.
pub fn lines_are_found()
    ensures { LinesAreFound }
{}
