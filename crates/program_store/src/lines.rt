//! The lines of a file, and what counts of a line.

ghost use Rattle.std.specs.Prelude.{◌≡◌, ◌+◌, ◌<◌, ◌≤◌, ◌==◌, ◌||◌, ◌∷◌, length, take, drop};
ghost use Rattle.text_parts.specs.Blanks.{is_blank, trim_front, without_return, trim_back};
ghost use Rattle.program_store.specs.Sections.{whole_lines, without_feed, bare};
ghost use Rattle.program_store.specs.Files.{has_text};
ghost use Rattle.program_store.specs.Headers.{header_content};

use text_parts::{trim_back, trim_front, without_return};

// How many bytes the first line has, with its LF.
pub fn line_length(bytes: &[u8]) -> usize
    requires { 0 < length bytes.now }
    ensures some { 0 < result }
    ensures bound { result ≤ length bytes.now }
    ensures cut { whole_lines bytes.now ≡ take result bytes.now ∷ whole_lines (drop result bytes.now) }
{
    for (at, byte) in bytes.iter().enumerate() {
        if *byte == b'\n' {
            return at + 1;
        }
    }
    bytes.len()
}

#[tactic(auto, unfolding(crate::specs::Sections::without_feed))]
fn without_feed(line: &[u8]) -> &[u8]
    ensures { result.now ≡ without_feed line.now }
{
    if !line.is_empty() && line[line.len() - 1] == b'\n' {
        &line[..line.len() - 1]
    } else {
        line
    }
}

fn bare(line: &[u8]) -> &[u8]
    ensures { result.now ≡ bare line.now }
{
    without_return(without_feed(line))
}

/// What counts of a header's line: its line end and the blanks before it are dropped.
#[tactic(auto, unfolding(crate::specs::Headers::header_content))]
pub fn header_content(line: &[u8]) -> &[u8]
    ensures { result.now ≡ header_content line.now }
{
    trim_back(bare(line))
}

/// Whether there is more in the line than blanks and a comment.
#[tactic(auto, unfolding(crate::specs::Files::has_text))]
pub fn has_text(line: &[u8]) -> bool
    ensures { result ≡ has_text line.now }
{
    match trim_front(bare(line)) {
        [] => false,
        [first, ..] => *first != b';',
    }
}
