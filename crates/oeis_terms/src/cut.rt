//! Lines, and pieces before commas.

ghost use Rattle.std.specs.Prelude.{◌≡◌, ◌+◌, ◌<◌, ◌∷◌, length, IfSome};
ghost use Rattle.std.specs.Option.{option_map};
ghost use Rattle.text_parts.specs.Blanks.{without_return, trim_back, is_blank};
ghost use Rattle.oeis_terms.specs.Cut.{first_cut, lines, lines_left, ends_with, trimmed};

use text_parts::{trim_back, without_return};

// The bytes before the first `byte`, and those after it.
pub fn first_cut(text: &[u8], byte: u8) -> Option<(&[u8], &[u8])>
    ensures cut { option_map (λ p. (p.0.now, p.1.now)) result ≡ first_cut byte text.now }
    ensures length { IfSome result (λ p. length p.0.now + length p.1.now + 1 ≡ length text.now) }
{
    for (at, b) in text.iter().enumerate() {
        if *b == byte {
            return Some((&text[..at], &text[at + 1..]));
        }
    }
    None
}

// The first line, and the text after its line feed where it has one.
pub fn first_line(text: &[u8]) -> (&[u8], Option<&[u8]>)
    ensures line { lines text.now ≡ result.0.now ∷ lines_left (option_map (λ t. t.now) result.1) }
    ensures length { IfSome result.1 (λ t. length t.now < length text.now) }
{
    match first_cut(text, b'\n') {
        Some((line, after)) => (line, Some(after)),
        None => (text, None),
    }
}

// A line without its carriage return and the blanks at its end.
pub fn trimmed(line: &[u8]) -> &[u8]
    ensures { result.now ≡ trimmed line.now }
{
    trim_back(without_return(line))
}

pub fn ends_with(line: &[u8], byte: u8) -> bool
    ensures { result ≡ ends_with byte line.now }
{
    !line.is_empty() && line[line.len() - 1] == byte
}
