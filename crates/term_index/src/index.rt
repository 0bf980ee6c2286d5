//! The index of a table of terms.
ghost use Rattle.std.specs.Prelude.{ℕ, ◌≡◌, ◌≢◌, ◌≤◌, nat_le, ◌++◌, ◌∷◌, [], length, take, filter, map, pos, IfOk, OnOk};
ghost use Rattle.std.specs.List.{filter_map};
ghost use Rattle.term_index.specs.declared.form.Form.TheVariants as forms;
ghost use Rattle.term_index.specs.Matching as spec;
ghost use Rattle.term_index.specs.Matching.{shortened, matching, equal_match, linear_match, differences, matches_of};
ghost use Rattle.term_index.specs.Keys.{line_key as line_key_of, terms_key as terms_key_of};
ghost use Rattle.term_index.specs.Buckets.{under, has_key, AllNumbers, AreOfNumbers};

use crate::entry::Entry;
use crate::form::{Form, Match};
use crate::key::{line_key, terms_key};
use crate::line::line_of;
use crate::wanted;
use checked_numbers::Num;
use indexmap::IndexMap;
use oeis_terms::TermTable;
use std::alloc::{AllocError, Global};
use std::marker::Model;
use std::snapshot::Snapshot;

/// The rows of a table by the keys of their first eight terms: of the terms themselves, and of the lines that they are on.
#[derive(Drop)]
pub struct Index {
    of: Snapshot<TermTable>,
    equals: IndexMap<u64, Vec<Entry>>,
    lines: IndexMap<u64, Vec<Entry>>,
}

impl Model for Index {
    ghost use Rattle.oeis_terms.specs.Table.{Table};
    ghost use Rattle.term_index.specs.Buckets.{AreBuckets};

    ghost Value = { Table };

    ghost view = { λ x. x.of.value };

    ghost invariant = { λ x. AreBuckets x.of.value.rows x.equals x.lines };
}

// Puts a row last under a key.
fn add_row(
    alloc: Global,
    buckets: &mut IndexMap<u64, Vec<Entry>>,
    key: u64,
    name: u32,
    terms: &[Num],
) -> Result<(), AllocError>
    ensures added { OnOk result (under buckets.new key ≡ under buckets.old key ++ (name, terms.now) ∷ []) }
    ensures others { OnOk result ((other : ℕ) → other ≢ key → under buckets.new other ≡ under buckets.old other) }
{
    let entry = Entry::of(name, terms.to_vec(alloc)?);
    buckets.entry(key)?.or_default().push(entry)?;
    Ok(())
}

// Whether there are as many matches as are kept.
fn is_full(found: &[Match]) -> bool
    ensures { result ≡ nat_le 16 (length found.now) }
{
    found.len() >= 16
}

// Puts a match last where there are fewer than 16.
fn add_match(found: &mut Vec<Match>, name: u32, form: &Form) -> Result<(), AllocError>
    requires { length found.old.items ≤ 16 }
    ensures { OnOk result (found.new.items ≡ take 16 (found.old.items ++ matching form.now (name, []) ∷ [])) }
{
    if found.len() < 16 {
        found.push(Match { name, form: *form })?;
    }
    Ok(())
}

// Puts a match of this entry last, where it has these terms and there are fewer than 16.
fn add_equal_entry(
    found: &mut Vec<Match>,
    entry: &Entry,
    wanted: &[Num],
    form: &Form,
) -> Result<(), AllocError>
    requires { length found.old.items ≤ 16 }
    ensures { OnOk result (found.new.items ≡ take 16 (found.old.items ++ filter_map (equal_match form.now wanted.now) (entry.now ∷ []))) }
{
    if entry.terms() == wanted {
        add_match(found, entry.name(), form)
    } else {
        Ok(())
    }
}

// Puts a match of this entry last, where its terms are a times the values and b and there are fewer than 16.
fn add_linear_entry(found: &mut Vec<Match>, entry: &Entry, values: &[Num]) -> Result<(), AllocError>
    requires { length found.old.items ≤ 16 }
    ensures { OnOk result (found.new.items ≡ take 16 (found.old.items ++ filter_map (linear_match values.now) (entry.now ∷ []))) }
{
    match line_of(values, entry.terms()) {
        Some((a, b)) => add_match(found, entry.name(), &Form::Linear { a, b }),
        None => Ok(()),
    }
}

// Puts the matches of the entries with these terms behind what was found, up to 16.
fn add_equal(
    found: &mut Vec<Match>,
    entries: &[Entry],
    wanted: &[Num],
    form: &Form,
) -> Result<(), AllocError>
    requires { length found.old.items ≤ 16 }
    ensures { OnOk result (found.new.items ≡ take 16 (found.old.items ++ filter_map (equal_match form.now wanted.now) entries.now)) }
{
    for entry in entries {
        if is_full(found) {
            return Ok(());
        }
        add_equal_entry(found, entry, wanted, form)?;
    }
    Ok(())
}

// Puts the matches of the entries whose terms are a times the values and b behind what was found, up to 16.
fn add_lines(found: &mut Vec<Match>, entries: &[Entry], values: &[Num]) -> Result<(), AllocError>
    requires { length found.old.items ≤ 16 }
    ensures { OnOk result (found.new.items ≡ take 16 (found.old.items ++ filter_map (linear_match values.now) entries.now)) }
{
    for entry in entries {
        if is_full(found) {
            return Ok(());
        }
        add_linear_entry(found, entry, values)?;
    }
    Ok(())
}

// The first eight.
fn first_eight(alloc: Global, terms: &[Num]) -> Result<Vec<Num>, AllocError>
    requires { 8 ≤ length terms.now }
    ensures items { IfOk result (λ first. first.items ≡ take 8 terms.now) }
    ensures numbers { IfOk result (λ first. AllNumbers first.items) }
{
    let mut first = Vec::with_capacity(alloc, 8)?;
    for place in 0..8 {
        let term = terms[place];
        let _value = term.get();
        first.push(term)?;
    }
    Ok(first)
}

impl Index {
    /// The index of a table.
    pub fn build(alloc: Global, terms: &TermTable) -> Result<Index, AllocError>
        ensures { IfOk result (λ index. index ≡ terms.now) }
    {
        let mut equals = IndexMap::new(alloc);
        let mut lines = IndexMap::new(alloc);
        for place in 0..terms.rows() {
            let (name, row) = terms.row_at(place);
            let first = first_eight(alloc, row)?;
            let eight = first.as_slice();
            add_row(alloc, &mut equals, terms_key(eight), name, eight)?;
            add_row(alloc, &mut lines, line_key(eight), name, eight)?;
        }
        Ok(Index {
            of: Snapshot::of(terms),
            equals,
            lines,
        })
    }

    // How many keys there are. The rows are of numbers.
    fn keys(&self) -> usize
        ensures { AreOfNumbers (map shortened self.now.rows) }
    {
        self.lines.len()
    }

    // The rows whose terms have this key.
    fn equal_bucket(&self, key: u64) -> &[Entry]
        ensures { result.now ≡ filter (has_key terms_key_of key) (map shortened self.now.rows) }
    {
        match self.equals.get(&key) {
            Some(entries) => entries.as_slice(),
            None => &[],
        }
    }

    // The rows on lines of this key.
    fn line_bucket(&self, key: u64) -> &[Entry]
        ensures { result.now ≡ filter (has_key line_key_of key) (map shortened self.now.rows) }
    {
        match self.lines.get(&key) {
            Some(entries) => entries.as_slice(),
            None => &[],
        }
    }

    fn add_equal_rows(
        &self,
        found: &mut Vec<Match>,
        wanted: &[Num],
        form: &Form,
    ) -> Result<(), AllocError>
        requires { length found.old.items ≤ 16 }
        ensures { OnOk result (found.new.items ≡ take 16 (found.old.items ++ filter_map (equal_match form.now wanted.now) (map shortened self.now.rows))) }
    {
        add_equal(found, self.equal_bucket(terms_key(wanted)), wanted, form)
    }

    fn add_difference_rows(
        &self,
        alloc: Global,
        found: &mut Vec<Match>,
        values: &[Num],
    ) -> Result<(), AllocError>
        requires { length found.old.items ≤ 16 }
        ensures { OnOk result (found.new.items ≡ take 16 (found.old.items ++ filter_map (equal_match forms.Difference (differences values.now)) (map shortened self.now.rows))) }
    {
        let _keys = self.keys();
        match wanted::differences(alloc, values)? {
            Some(wanted) => self.add_equal_rows(found, wanted.as_slice(), &Form::Difference),
            None => Ok(()),
        }
    }

    fn add_sum_rows(
        &self,
        alloc: Global,
        found: &mut Vec<Match>,
        values: &[Num],
    ) -> Result<(), AllocError>
        requires { length found.old.items ≤ 16 }
        ensures { OnOk result (found.new.items ≡ take 16 (found.old.items ++ filter_map (equal_match forms.Sum (spec.sums_from (pos 0) values.now)) (map shortened self.now.rows))) }
    {
        let Some(zero) = Num::new(0) else {
            unreachable!()
        };
        let _keys = self.keys();
        match wanted::sums_from(alloc, zero, values)? {
            Some(wanted) => self.add_equal_rows(found, wanted.as_slice(), &Form::Sum),
            None => Ok(()),
        }
    }

    fn add_linear_rows(&self, found: &mut Vec<Match>, values: &[Num]) -> Result<(), AllocError>
        requires { length found.old.items ≤ 16 }
        ensures { OnOk result (found.new.items ≡ take 16 (found.old.items ++ filter_map (linear_match values.now) (map shortened self.now.rows))) }
    {
        add_lines(found, self.line_bucket(line_key(values)), values)
    }

    /// The first 16 matches of nine values, by form and then by name.
    pub fn matches(&self, alloc: Global, values: &[Num; 9]) -> Result<Vec<Match>, AllocError>
        ensures { IfOk result (λ found. found.items ≡ matches_of values.now self.now) }
    {
        let first = &values[..8];
        let mut found = Vec::with_capacity(alloc, 16)?;
        self.add_equal_rows(&mut found, first, &Form::Direct)?;
        self.add_difference_rows(alloc, &mut found, values)?;
        self.add_sum_rows(alloc, &mut found, first)?;
        self.add_linear_rows(&mut found, first)?;
        Ok(found)
    }
}
