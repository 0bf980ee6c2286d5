//! The parts of a line.

ghost use Rattle.std.specs.Prelude.{◌≡◌, ◌==◌, ◌≤◌, length, position, IfSome, IfNone};
ghost use Rattle.std.specs.List.{before_first, after_first};
ghost use Rattle.loda_syntax.specs.Cuts.{IsFirstPass, IsUncut};
ghost use Rattle.text_parts.specs.Blanks.{is_blank, trim_front, trim_back, trim, without_return};
ghost use Rattle.loda_syntax.specs.Lines.{content, word_of};

use text_parts::{is_blank, trim, without_return};

fn place_of(text: &[u8], byte: u8) -> Option<usize>
    ensures { result ≡ position (λ b. b == byte) text.now }
{
    text.iter().position(|b| *b == byte)
}

/// The bytes before the first such byte, and those after it.
pub(crate) fn cut_at(text: &[u8], byte: u8) -> Option<(&[u8], &[u8])>
    ensures some { IfSome result (λ parts. IsFirstPass (λ b. b == byte) text.now parts.0.now parts.1.now) }
    ensures none { IfNone result (IsUncut (λ b. b == byte) text.now) }
{
    match place_of(text, byte) {
        Some(at) => Some((&text[..at], &text[at + 1..])),
        None => None,
    }
}

fn before_comment(line: &[u8]) -> &[u8]
    ensures { result.now ≡ before_first (λ b. b == 59) line.now }
{
    match cut_at(line, b';') {
        Some((front, _)) => front,
        None => line,
    }
}

/// What counts of a line: the bytes before its comment, without blanks at both ends.
#[tactic(auto, unfolding(crate::specs::Lines::content))]
pub(crate) fn content(line: &[u8]) -> &[u8]
    ensures { result.now ≡ content line.now }
{
    trim(before_comment(without_return(line)))
}

fn blank_place(text: &[u8]) -> Option<usize>
    ensures { result ≡ position is_blank text.now }
{
    text.iter().position(|b| is_blank(*b))
}

/// The word of a content, and what follows it.
pub(crate) fn cut_word(text: &[u8]) -> (&[u8], &[u8])
    ensures word { result.0.now ≡ word_of text.now }
    ensures rest { result.1.now ≡ trim (after_first is_blank text.now) }
{
    match blank_place(text) {
        Some(at) => (&text[..at], trim(&text[at + 1..])),
        None => (text, &[]),
    }
}
