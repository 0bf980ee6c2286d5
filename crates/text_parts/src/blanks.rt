//! Blanks at the ends of a text, and the carriage return at a line's end.

ghost use Rattle.std.specs.Prelude.{◌≡◌, ◌≤◌, length};
ghost use Rattle.text_parts.specs.Blanks.{is_blank, trim_front, trim_back, trim, without_return};

/// Whether a byte is a blank: a space or a tab.
pub fn is_blank(byte: u8) -> bool
    ensures { result ≡ is_blank byte }
{
    byte == b' ' || byte == b'\t'
}

/// The text without the blanks at its front.
pub fn trim_front(text: &[u8]) -> &[u8]
    ensures { result.now ≡ trim_front text.now }
{
    let mut rest = text;
    while let [first, tail @ ..] = rest {
        if !is_blank(*first) {
            return rest;
        }
        rest = tail;
    }
    rest
}

/// The text without the blanks at its end.
pub fn trim_back(text: &[u8]) -> &[u8]
    ensures { result.now ≡ trim_back text.now }
{
    let mut rest = text;
    while let [front @ .., last] = rest {
        if !is_blank(*last) {
            return rest;
        }
        rest = front;
    }
    rest
}

/// The text without the blanks at both ends.
#[tactic(auto, unfolding(crate::specs::Blanks::trim))]
pub fn trim(text: &[u8]) -> &[u8]
    ensures { result.now ≡ trim text.now }
{
    trim_back(trim_front(text))
}

/// The line without one carriage return at its end.
#[tactic(auto, unfolding(crate::specs::Blanks::without_return))]
pub fn without_return(line: &[u8]) -> &[u8]
    ensures { result.now ≡ without_return line.now }
{
    if !line.is_empty() && line[line.len() - 1] == b'\r' {
        &line[..line.len() - 1]
    } else {
        line
    }
}
