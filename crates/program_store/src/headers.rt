//! The headers of sections.

ghost use Rattle.std.specs.Prelude.{◌≡◌, ◌+◌, ◌*◌, ◌<◌, ◌≤◌, min, length, position, IfSome};
ghost use Rattle.std.specs.Option.{option_copied};
ghost use Rattle.std.specs.List.{before_first, after_first};
ghost use Rattle.text_parts.specs.Digits.{decimal_spelled, up_to};
ghost use Rattle.text_parts.specs.Names.{IsName, name_read};
ghost use Rattle.program_store.specs.Headers.{text_behind, is_space, name_and_count, store_header_read, candidate_header_read, capped_header};

use crate::lines::header_content;
use text_parts::{decimal_up_to, name_of};

// More than any count that a store may have.
const PAST_COUNTS: u128 = 1_000_000;

/// The name and the count of a store file's header. A count of `PAST_COUNTS` or more is answered as `PAST_COUNTS`.
#[tactic(auto, unfolding(crate::specs::Headers::store_header_read))]
pub fn store_header_of(line: &[u8]) -> Option<(u32, u32)>
    ensures value { result ≡ capped_header (store_header_read line.now) }
    ensures named { IfSome result (λ header. IsName header.0) }
{
    name_and_count(behind(b"= ", header_content(line))?)
}

/// The name of a candidates file's header.
#[tactic(auto, unfolding(crate::specs::Headers::candidate_header_read))]
pub fn candidate_header_of(line: &[u8]) -> Option<u32>
    ensures value { result ≡ candidate_header_read line.now }
    ensures named { IfSome result IsName }
{
    name_of(behind(b"? ", header_content(line))?)
}

// What stands behind this text, where it stands first.
fn behind<'a>(first: &[u8], text: &'a [u8]) -> Option<&'a [u8]>
    ensures { option_copied result ≡ text_behind first.now text.now }
{
    if text.starts_with(first) {
        Some(&text[first.len()..])
    } else {
        None
    }
}

// A name, one space and a count.
#[tactic(auto, unfolding(crate::specs::Headers::name_and_count))]
fn name_and_count(text: &[u8]) -> Option<(u32, u32)>
    ensures value { result ≡ capped_header (name_and_count text.now) }
    ensures named { IfSome result (λ header. IsName header.0) }
{
    let (name, count) = cut_at_space(text);
    let name = name_of(name)?;
    let count = count_of(count)?;
    Some((name, count))
}

fn space_place(text: &[u8]) -> Option<usize>
    ensures { result ≡ position is_space text.now }
{
    text.iter().position(|b| *b == b' ')
}

// What stands before the first space, and behind it.
fn cut_at_space(text: &[u8]) -> (&[u8], &[u8])
    ensures before { result.0.now ≡ before_first is_space text.now }
    ensures after { result.1.now ≡ after_first is_space text.now }
{
    match space_place(text) {
        Some(at) => (&text[..at], &text[at + 1..]),
        None => (text, &[]),
    }
}

// A decimal number without a sign or a leading 0, or `PAST_COUNTS` where it is no less.
fn count_of(text: &[u8]) -> Option<u32>
    ensures { result ≡ up_to PAST_COUNTS (decimal_spelled text.now) }
{
    let count = decimal_up_to(text, PAST_COUNTS)?;
    Some(count as u32)
}
