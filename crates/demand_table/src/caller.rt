//! Who demands an argument.

ghost use Rattle.std.specs.Prelude.{◌≡◌, IfOk, IfSome, IfNone};
ghost use Rattle.text_parts.specs.Names.{IsName};
ghost use Rattle.program_store.specs.Store.{checked_at};
ghost use Rattle.seq_calls.specs.Demand.{InDem, LeastCaller};
ghost use Rattle.demand_table.specs.Tabled.{IsTabled};

use crate::holding::Known;
use crate::leading::first_leading;
use checked_numbers::Num;
use loda_semantics::Pair;
use program_store::Published;
use std::alloc::{AllocError, Global};
use std::collections::BTreeSet;
use version_pages::Pages;

/// A published name, and the index of one of its checked arguments.
#[derive(Clone, Copy, Debug, PartialEq, Eq)]
pub struct Caller {
    pub name: u32,
    pub index: u32,
}

// At how many arguments a name was checked.
fn checked_count(programs: &Pages<Published>, name: u32) -> u32
    requires { IsName name }
    ensures { result ≡ checked_at programs.now name }
{
    match programs.get(name) {
        Some(published) => published.checked,
        None => 0,
    }
}

/// The least published name with the least index of a checked run that demands the pair, if one does.
pub fn least_caller(
    alloc: Global,
    programs: &Pages<Published>,
    known: &Known<'_>,
    to: &Pair,
) -> Result<Option<Caller>, AllocError>
    requires { IsTabled programs.now known.now.pages.now }
    ensures some { IfOk result (λ found. IfSome found (λ c. LeastCaller programs.now to.now.name to.now.arg c.name c.index)) }
    ensures none { IfOk result (λ found. IfNone found (InDem programs.now to.now.name to.now.arg → ⊥)) }
{
    let mut pairs = Vec::new(alloc);
    let mut met: BTreeSet<(u32, Num)> = BTreeSet::new(alloc);
    let mut last = 0;
    while let Some(name) = programs.next_name(last) {
        let checked = checked_count(programs, name);
        if let Some(index) = first_leading(known, &mut pairs, &mut met, name, checked, to)? {
            return Ok(Some(Caller { name, index }));
        }
        last = name;
    }
    Ok(None)
}
