//! The canonical text of a store.

ghost use Rattle.std.specs.Prelude.{◌≡◌, ◌++◌, [], ◌∷◌, ◌+◌, ◌%◌, OnOk, OnErr};
ghost use Rattle.loda_syntax.specs.Answers.{AddsFront};
ghost use Rattle.text_parts.specs.Names.{name_text};
ghost use Rattle.program_store.specs.Headers.{store_header};
ghost use Rattle.program_store.specs.StoreText.{published_text, store_text};

use crate::published::Published;
use crate::view::View;
use loda_syntax::print;
use std::alloc::AllocError;
use text_parts::{name_text, write_count};

/// Adds the canonical text of a store: its entries in ascending order of their names, each as its header and its program's
/// canonical text. After want of memory `out` has its old bytes and a first part of the text.
pub fn print_store<V: View>(view: &V, out: &mut Vec<u8>) -> Result<(), AllocError>
    ensures ok { OnOk result (out.new.items ≡ out.old.items ++ store_text (V.store view.now)) }
    ensures err { OnErr result (AddsFront out.old.items out.new.items (store_text (V.store view.now))) }
{
    let mut last = 0;
    while let Some(name) = view.next_name(last) {
        print_entry(name, view.published(name).unwrap(), out)?;
        last = name;
    }
    Ok(())
}

// Adds an entry: its header, LF, and its program's text.
#[tactic(auto, unfolding(crate::specs::StoreText::published_text))]
fn print_entry(name: u32, published: &Published, out: &mut Vec<u8>) -> Result<(), AllocError>
    ensures ok { OnOk result (out.new.items ≡ out.old.items ++ published_text (name, published.now)) }
    ensures err { OnErr result (AddsFront out.old.items out.new.items (published_text (name, published.now))) }
{
    print_header(name, published.checked, out)?;
    print(&published.program, out)
}

// Adds a header and LF.
#[tactic(auto, unfolding(crate::specs::Headers::store_header))]
fn print_header(name: u32, count: u32, out: &mut Vec<u8>) -> Result<(), AllocError>
    ensures ok { OnOk result (out.new.items ≡ out.old.items ++ store_header name count ++ 10 ∷ []) }
    ensures err { OnErr result (AddsFront out.old.items out.new.items (store_header name count ++ 10 ∷ [])) }
{
    out.extend_from_slice(b"= ")?;
    out.extend_from_slice(&name_text(name))?;
    out.extend_from_slice(b" ")?;
    write_count(out, u64::from(count))?;
    out.extend_from_slice(b"\n")
}
