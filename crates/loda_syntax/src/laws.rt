//! Laws of the definitions, each the clause of a function that only looks at its argument.

ghost use Rattle.loda_syntax.specs.Canon.{canon};
ghost use Rattle.loda_syntax.specs.Laws.{IsTextOf, CanonReadsBack, HasOneMeaning, ReadsAgain};
ghost use Rattle.loda_syntax.specs.Programs.{instrs};
ghost use Rattle.loda_syntax.specs.Sections.{IsSection};
ghost use Rattle.loda_syntax.specs.Trees.{IsSpelledByTree};

use crate::program::Program;

/// The canonical text of a program reads as that program: `parse` of what `print` adds answers an equal program, and the
/// lines of the text are the program's instructions.
pub fn canonical_text_reads_back(program: &Program)
    ensures reader { CanonReadsBack program.now }
    ensures relation { IsTextOf (canon program.now) program.now }
{
    let _list = program.instrs();
}

/// A text has exactly one program or exactly one first fault, and never both.
pub fn text_has_one_meaning(text: &[u8])
    ensures { HasOneMeaning text.now }
{
    let _length = text.len();
}

/// What a text reads as prints, and reads again as the same program.
pub fn text_reads_again(text: &[u8])
    ensures { ReadsAgain text.now }
{
    let _length = text.len();
}

/// The canonical text stands in a file of sections: none of its lines begins with `=` or `?`, and it ends with LF or is empty.
pub fn canonical_text_is_a_section(program: &Program)
    ensures { IsSection (canon program.now) }
{
    let _list = program.instrs();
}

/// The tree of a program is the program: spelled out, a step as its instruction and a loop as its start, its body and its
/// end, it gives the program's list back.
pub fn tree_spells_its_program(program: &Program)
    ensures { IsSpelledByTree (instrs program.now) }
{
    let _list = program.instrs();
}
