//! Laws of the definitions, each the clause of a function that only looks at its argument.

ghost use Rattle.program_store.specs.StoreText.{StoreReadsBack};

use crate::view::View;

/// The canonical text of a store whose counts are from 8 to 32,768 is read as that store: `parse_store` of what `print_store`
/// adds answers an equal store.
pub fn store_text_reads_back<V: View>(view: &V)
    ensures { StoreReadsBack (V.store view.now) }
{
    let _name = view.next_name(0);
}
