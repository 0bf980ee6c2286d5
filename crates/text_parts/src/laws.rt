//! Laws over texts, each the clause of a function that does nothing.

ghost use Rattle.text_parts.specs.Names.{NameTextReadsBack};

/// The text of a name is read as that name.
pub fn name_text_reads_back()
    ensures { NameTextReadsBack }
{}
