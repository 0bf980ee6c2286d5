//! Files cut into sections, each a header's line and the text of the lines behind it.

ghost use Rattle.std.specs.Prelude.{◌≡◌, ℕ, ◌+◌, ◌<◌, ◌≤◌, ◌^◌, [], ◌∷◌, ◌++◌, length, find, IfSome, OnSome, IfNone};
ghost use Rattle.std.specs.Option.{option_map};
ghost use Rattle.program_store.specs.Files.{has_text};
ghost use Rattle.program_store.specs.Sections.{Line, whole_lines, is_inner, cut_from, bytes_of_lines};

use crate::lines::{has_text, line_length};

// A header with its line's number, and the text of the lines behind it, up to the next header or the end.
#[derive(Clone, Copy)]
pub struct Section<'a> {
    pub line: u64,
    pub header: &'a [u8],
    pub text: &'a [u8],
}

// What is left of a file: its bytes, and the number of their first line. A header is a line whose first byte is the sign.
#[derive(Drop)]
pub struct Cursor<'a> {
    pub sign: u8,
    pub line: u64,
    pub rest: &'a [u8],
}

impl<'a> Cursor<'a> {
    // The beginning of a file.
    pub fn new(sign: u8, bytes: &'a [u8]) -> Cursor<'a>
        ensures sign { result.sign ≡ sign }
        ensures line { result.line ≡ 1 }
        ensures rest { result.rest.now ≡ bytes.now }
    {
        Cursor {
            sign,
            line: 1,
            rest: bytes,
        }
    }

    // Goes on to the first header. Where a line before it has text, the answer is the number of the first such line.
    pub fn first_text(&mut self) -> Option<u64>
        requires { self.old.line + length self.old.rest.now < 2 ^ 64 }
        ensures sign { self.new.sign ≡ self.old.sign }
        ensures fits { self.new.line + length self.new.rest.now ≤ self.old.line + length self.old.rest.now }
        ensures text { let cut = cut_from self.old.sign self.old.line self.old.rest.now in
            result ≡ option_map (λ (line : Line). line.number) (find (λ (line : Line). has_text line.bytes) cut.before) }
        ensures none { let cut = cut_from self.old.sign self.old.line self.old.rest.now in
            IfNone result (cut_from self.new.sign self.new.line self.new.rest.now ≡ record cut { before = [] }) }
    {
        while self.is_before_header() {
            let number = self.line;
            let line = self.next_line();
            if has_text(line) {
                return Some(number);
            }
        }
        None
    }

    // Goes on behind the section whose header comes next.
    pub fn next_section(&mut self) -> Option<Section<'a>>
        requires fits { self.old.line + length self.old.rest.now < 2 ^ 64 }
        requires at_header { (cut_from self.old.sign self.old.line self.old.rest.now).before ≡ [] }
        ensures sign { self.new.sign ≡ self.old.sign }
        ensures less { OnSome result (length self.new.rest.now < length self.old.rest.now) }
        ensures some { IfSome result (λ s. (cut_from self.old.sign self.old.line self.old.rest.now).sections
            ≡ record { line = s.line; header = s.header.now; text = s.text.now } ∷ (cut_from self.new.sign self.new.line self.new.rest.now).sections) }
        ensures fits { IfSome result (λ s. s.line + length s.text.now + 1 ≤ self.old.line + length self.old.rest.now) }
        ensures none { IfNone result ((cut_from self.old.sign self.old.line self.old.rest.now).sections ≡ []) }
        ensures rest_fits { self.new.line + length self.new.rest.now ≤ self.old.line + length self.old.rest.now }
        ensures at_header { (cut_from self.new.sign self.new.line self.new.rest.now).before ≡ [] }
    {
        if self.rest.is_empty() {
            return None;
        }
        let line = self.line;
        let header = self.next_line();
        let text = self.text();
        Some(Section { line, header, text })
    }

    // The text up to the next header or the end.
    fn text(&mut self) -> &'a [u8]
        requires { self.old.line + length self.old.rest.now < 2 ^ 64 }
        ensures sign { self.new.sign ≡ self.old.sign }
        ensures fits { self.new.line + length self.new.rest.now ≤ self.old.line + length self.old.rest.now }
        ensures text { result.now ≡ bytes_of_lines (cut_from self.old.sign self.old.line self.old.rest.now).before }
        ensures rest { self.old.rest.now ≡ result.now ++ self.new.rest.now }
        ensures cut { let cut = cut_from self.old.sign self.old.line self.old.rest.now in
            cut_from self.new.sign self.new.line self.new.rest.now ≡ record cut { before = [] } }
    {
        let text = self.rest;
        while self.is_before_header() {
            self.next_line();
        }
        &text[..text.len() - self.rest.len()]
    }

    // Whether there is a next line, and it is no header.
    fn is_before_header(&self) -> bool
        ensures { result ≡ is_inner self.now.sign self.now.rest.now }
    {
        match self.rest {
            [] => false,
            [first, ..] => *first != self.sign,
        }
    }

    // The next line, with its LF.
    fn next_line(&mut self) -> &'a [u8]
        requires some { 0 < length self.old.rest.now }
        requires fits { self.old.line + length self.old.rest.now < 2 ^ 64 }
        ensures sign { self.new.sign ≡ self.old.sign }
        ensures line { self.new.line ≡ self.old.line + 1 }
        ensures some { 0 < length result.now }
        ensures rest { self.old.rest.now ≡ result.now ++ self.new.rest.now }
        ensures cut { whole_lines self.old.rest.now ≡ result.now ∷ whole_lines self.new.rest.now }
    {
        let (line, rest) = self.rest.split_at(line_length(self.rest));
        self.line += 1;
        self.rest = rest;
        line
    }
}
