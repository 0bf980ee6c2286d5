//! How the program ends.

ghost use Rattle.std.specs.Prelude.{◌≡◌};
ghost use Rattle.loda_mine.specs.Endings.{exit_number};

use crate::status::Status;
use std::io::Write;

/// Writes the line that tells how a run ended, unless it is done, and answers the number that the program ends with. A
/// line that cannot be written is left out.
pub fn tell<W: Write>(status: Status, errors: &mut W) -> u8
    ensures { result ≡ exit_number status }
{
    if !matches!(status, Status::Done) {
        let _ = writeln!(errors, "loda_mine: {status}");
    }
    status.number()
}

#[cfg(test)]
mod tests;
