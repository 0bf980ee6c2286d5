//! The table of terms.

ghost use Rattle.std.specs.Prelude.{◌≡◌, ℕ, ◌<◌, length, Some, slice_get};
ghost use Rattle.std.specs.Option.{option_map};

use checked_numbers::Num;
use std::marker::Model;

/// A name and its usable terms.
#[derive(Drop)]
pub struct Row {
    name: u32,
    terms: Vec<Num>,
}

impl Model for Row {
    ghost use Rattle.std.specs.Prelude.{ℕ, ℤ, List};

    ghost Value = { ℕ × List ℤ };

    ghost view = { λ r. (r.name, r.terms.items) };
}

impl Row {
    /// The row of a name with these terms.
    pub fn of(name: u32, terms: Vec<Num>) -> Row
        ensures { result ≡ (name, terms.items) }
    {
        Row { name, terms }
    }

    /// The name.
    pub fn name(&self) -> u32
        ensures { result ≡ self.now.0 }
    {
        self.name
    }

    /// The terms.
    pub fn terms(&self) -> &[Num]
        ensures { result.now ≡ self.now.1 }
    {
        self.terms.as_slice()
    }
}

/// Usable terms by name: rows in ascending order of name, each with at least eight terms, and how many
/// rows were skipped for having fewer.
#[derive(Drop)]
pub struct TermTable {
    rows: Vec<Row>,
    skipped: u64,
}

impl Model for TermTable {
    ghost use Rattle.oeis_terms.specs.Table.{Table, IsTable};

    ghost Value = { Table };

    ghost view = { λ t. record { rows = t.rows.items; skipped = t.skipped } };

    ghost invariant = { λ t. IsTable (record { rows = t.rows.items; skipped = t.skipped }) };
}

impl TermTable {
    ghost use Rattle.std.specs.Prelude.{◌≡◌, ◌<◌, ◌≤◌, length, Some, IfSome, All, slice_get};
    ghost use Rattle.std.specs.Option.{option_map};
    ghost use Rattle.oeis_terms.specs.Table.{IsRow, IsTable, IsBounded, NamesDiffer, by_name, row_of};

    /// The table of rows in any order, whose names differ, and how many more were skipped.
    pub fn of(rows: Vec<Row>, skipped: u64) -> TermTable
        requires rows { All IsRow rows.items }
        requires names { NamesDiffer rows.items }
        ensures { result ≡ record { rows = by_name rows.items; skipped = skipped } }
    {
        let mut rows = rows;
        rows.sort_unstable_by_key(|row| row.name());
        TermTable { rows, skipped }
    }

    /// The usable terms of a name, of which there are at least eight. None exactly where it has no row.
    pub fn row(&self, name: u32) -> Option<&[Num]>
        ensures row { option_map (λ terms. terms.now) result ≡ row_of self.now name }
        ensures enough { IfSome result (λ terms. 8 ≤ length terms.now) }
        ensures bounded { IsBounded self.now → IfSome result (λ terms. length terms.now ≤ 32_768) }
        ensures table { IsTable self.now }
    {
        match self.rows.binary_search_by_key(&name, |row| row.name()) {
            Ok(place) => Some(self.rows[place].terms()),
            Err(_) => None,
        }
    }

    /// How many rows there are.
    pub fn rows(&self) -> usize
        ensures rows { result ≡ length self.now.rows }
        ensures table { IsTable self.now }
    {
        self.rows.len()
    }

    /// The name and the usable terms at a place, counted from 0 in ascending order of name.
    pub fn row_at(&self, place: usize) -> (u32, &[Num])
        requires { place < length self.now.rows }
        ensures row { slice_get self.now.rows place ≡ Some (result.0, result.1.now) }
        ensures enough { 8 ≤ length result.1.now }
        ensures bounded { IsBounded self.now → length result.1.now ≤ 32_768 }
        ensures table { IsTable self.now }
    {
        let row = &self.rows[place];
        (row.name(), row.terms())
    }

    /// How many rows of the file have fewer than eight usable terms.
    pub fn skipped(&self) -> u64
        ensures { result ≡ self.now.skipped }
    {
        self.skipped
    }
}
