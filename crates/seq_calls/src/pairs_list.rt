//! Lists that contracts see as lists.

ghost use Rattle.std.specs.Prelude.{◌≡◌};

use loda_semantics::Pair;
use std::marker::Model;

/// Names with arguments.
#[derive(Debug, Drop)]
pub struct Pairs {
    list: Vec<Pair>,
}

impl Model for Pairs {
    ghost use Rattle.std.specs.Prelude.{List};
    ghost use Rattle.loda_semantics.specs.declared.kinds.Pair.{Pair};

    ghost Value = { List Pair };

    ghost view = { λ pairs. pairs.list.items };
}

impl Pairs {
    /// The pairs of a list.
    pub fn of(list: Vec<Pair>) -> Pairs
        ensures { result ≡ list.items }
    {
        Pairs { list }
    }

    /// The pairs, in order.
    pub fn list(&self) -> &[Pair]
        ensures { result.now ≡ self.now }
    {
        &self.list
    }
}
