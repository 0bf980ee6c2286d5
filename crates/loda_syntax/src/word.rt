//! The word that begins an instruction.

ghost use Rattle.std.specs.Prelude.{◌≡◌, bytes_eq, find};
ghost use Rattle.std.specs.List.{list_any};
ghost use Rattle.loda_syntax.specs.Words.{word_read, word_text, verb_text, is_directive, refused, words};

use crate::error::SyntaxKind;
use crate::instr::Verb;

/// The word that begins an instruction.
#[derive(Clone, Copy, Debug, PartialEq, Eq)]
pub(crate) enum Word {
    Operation(Verb),
    Clear,
    LoopStart,
    LoopEnd,
    Call,
}

const WORDS: [Word; 21] = [
    Word::Operation(Verb::Mov),
    Word::Operation(Verb::Add),
    Word::Operation(Verb::Sub),
    Word::Operation(Verb::Trn),
    Word::Operation(Verb::Mul),
    Word::Operation(Verb::Div),
    Word::Operation(Verb::Dif),
    Word::Operation(Verb::Mod),
    Word::Operation(Verb::Pow),
    Word::Operation(Verb::Gcd),
    Word::Operation(Verb::Bin),
    Word::Operation(Verb::Equ),
    Word::Operation(Verb::Neq),
    Word::Operation(Verb::Leq),
    Word::Operation(Verb::Geq),
    Word::Operation(Verb::Min),
    Word::Operation(Verb::Max),
    Word::Clear,
    Word::LoopStart,
    Word::LoopEnd,
    Word::Call,
];

// Words of the LODA language that are refused by name.
const REFUSED: [[u8; 3]; 15] = [
    *b"dir", *b"lex", *b"fac", *b"ban", *b"bor", *b"bxo", *b"rol", *b"ror", *b"fil", *b"prg",
    *b"cmp", *b"nrt", *b"log", *b"dgs", *b"dgr",
];

fn verb_text(verb: Verb) -> [u8; 3]
    ensures { result ≡ verb_text verb }
{
    match verb {
        Verb::Mov => *b"mov",
        Verb::Add => *b"add",
        Verb::Sub => *b"sub",
        Verb::Trn => *b"trn",
        Verb::Mul => *b"mul",
        Verb::Div => *b"div",
        Verb::Dif => *b"dif",
        Verb::Mod => *b"mod",
        Verb::Pow => *b"pow",
        Verb::Gcd => *b"gcd",
        Verb::Bin => *b"bin",
        Verb::Equ => *b"equ",
        Verb::Neq => *b"neq",
        Verb::Leq => *b"leq",
        Verb::Geq => *b"geq",
        Verb::Min => *b"min",
        Verb::Max => *b"max",
    }
}

/// The word's text.
pub(crate) fn word_text(word: Word) -> [u8; 3]
    ensures { result ≡ word_text word }
{
    match word {
        Word::Operation(verb) => verb_text(verb),
        Word::Clear => *b"clr",
        Word::LoopStart => *b"lpb",
        Word::LoopEnd => *b"lpe",
        Word::Call => *b"seq",
    }
}

fn is_refused(text: &[u8]) -> bool
    ensures { result ≡ list_any (λ other. bytes_eq other text.now) refused }
{
    REFUSED.iter().any(|other| other.as_slice() == text)
}

fn is_directive(text: &[u8]) -> bool
    ensures { result ≡ is_directive text.now }
{
    match text {
        [first, ..] => *first == b'#',
        [] => false,
    }
}

fn known_word(text: &[u8]) -> Option<Word>
    ensures { result ≡ find (λ word. bytes_eq (word_text word) text.now) words }
{
    WORDS
        .iter()
        .copied()
        .find(|word| word_text(*word).as_slice() == text)
}

/// The word that a text is, or why it begins no instruction.
#[tactic(auto, unfolding(crate::specs::Words::word_read))]
pub(crate) fn word_of(text: &[u8]) -> Result<Word, SyntaxKind>
    ensures { result ≡ word_read text.now }
{
    if is_directive(text) {
        return Err(SyntaxKind::Directive);
    }
    if let Some(word) = known_word(text) {
        return Ok(word);
    }
    if is_refused(text) {
        return Err(SyntaxKind::Unsupported);
    }
    Err(SyntaxKind::UnknownOp)
}
