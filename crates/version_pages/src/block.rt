//! A block of places, whose values are held by `Arc` and so shared with its copies.

ghost use Rattle.std.specs.Prelude.{◌≡◌, ℕ, ◌<◌, ◌≤◌, [], length, IfOk, IfSome, IfNone, IsSome, ◌≢◌, vec_len};
ghost use Rattle.std.specs.Option.{option_copied, option_map};
ghost use Rattle.std.specs.Arc.{arc_value};
ghost use Rattle.version_pages.specs.Table.{place, held};

use std::alloc::{AllocError, Global};
use std::marker::Model;
use std::sync::Arc;

/// A few places, each of which holds a value or nothing. Those past the last that was ever filled take no memory.
#[derive(Drop)]
pub struct Block<X> {
    places: Vec<Option<Arc<X>>>,
}

impl<X> Model for Block<X> {
    ghost use Rattle.std.specs.Prelude.{List, Option};
    ghost use Rattle.version_pages.specs.Table.{held};

    ghost Value = { List (Option X) };

    ghost view = { λ block. held block.places.items };
}

impl<X> Block<X> {
    pub fn new(alloc: Global) -> Self
        ensures { result ≡ [] }
    {
        Self {
            places: Vec::new(alloc),
        }
    }

    pub fn get(&self, at: usize) -> Option<&X>
        ensures { option_copied result ≡ place self.now at }
    {
        held_at(&self.places, at)
    }

    /// What a place holds, with one more owner.
    pub fn share(&self, at: usize) -> Result<Option<Arc<X>>, AllocError>
        ensures { IfOk result (λ copy. option_map arc_value copy ≡ place self.now at) }
    {
        match self.places.get(at) {
            Some(place) => shared(place),
            None => Ok(None),
        }
    }

    /// The least place from `from` on and below `below` that holds something.
    pub fn next(&self, from: usize, below: usize) -> Option<usize>
        ensures range { IfSome result (λ at. (from ≤ at) × (at < below)) }
        ensures found { IfSome result (λ at. IsSome (place self.now at)) }
        ensures least { IfSome result (λ at. (k : ℕ) → from ≤ k → k < at → place self.now k ≡ None) }
        ensures none { IfNone result ((k : ℕ) → from ≤ k → k < below → place self.now k ≡ None) }
    {
        first_held(&self.places, from, below)
    }
}

impl<X: Drop> Block<X> {
    /// The block with this value at this place. It shares the other values with this block.
    pub fn with(&self, at: usize, value: X) -> Result<Self, AllocError>
        requires { at < 1000 }
        ensures here { IfOk result (λ block. place block at ≡ Some value) }
        ensures others { IfOk result (λ block. (k : ℕ) → k ≢ at → place block k ≡ place self.now k) }
    {
        let places = with_at(*self.places.allocator(), &self.places, at, value)?;
        Ok(Self { places })
    }

    /// This block with this value at this place, in the memory that the block had.
    pub fn into_with(self, at: usize, value: X) -> Result<Self, AllocError>
        requires { at < 1000 }
        ensures here { IfOk result (λ block. place block at ≡ Some value) }
        ensures others { IfOk result (λ block. (k : ℕ) → k ≢ at → place block k ≡ place self k) }
    {
        let places = into_with_at(self.places, at, value)?;
        Ok(Self { places })
    }

    /// Takes what a place holds out of this block.
    pub fn take(&mut self, at: usize) -> Option<Arc<X>>
        ensures taken { option_map arc_value result ≡ place self.old at }
        ensures others { (k : ℕ) → k ≢ at → place self.new k ≡ place self.old k }
    {
        taken(&mut self.places, at)
    }
}

/// What a place holds.
pub fn held_at<X>(places: &[Option<Arc<X>>], at: usize) -> Option<&X>
    ensures { option_copied result ≡ place (held places.now) at }
{
    match places.get(at) {
        Some(Some(held)) => Some(held),
        _ => None,
    }
}

/// The places with this value at one of them, each of the others sharing its value.
pub fn with_at<X: Drop>(
    alloc: Global,
    places: &[Option<Arc<X>>],
    at: usize,
    value: X,
) -> Result<Vec<Option<Arc<X>>>, AllocError>
    requires { at < 1000 }
    ensures here { IfOk result (λ new. place (held new.items) at ≡ Some value) }
    ensures others { IfOk result (λ new. (k : ℕ) → k ≢ at → place (held new.items) k ≡ place (held places.now) k) }
    ensures bound { IfOk result (λ new. (n : ℕ) → length places.now ≤ n → at < n → vec_len new ≤ n) }
{
    let mut new = copied(alloc, places, at + 1)?;
    new[at] = Some(Arc::new(alloc, value)?);
    Ok(new)
}

/// These places with this value at one of them, in the memory that they had.
pub fn into_with_at<X: Drop>(
    places: Vec<Option<Arc<X>>>,
    at: usize,
    value: X,
) -> Result<Vec<Option<Arc<X>>>, AllocError>
    requires { at < 1000 }
    ensures here { IfOk result (λ new. place (held new.items) at ≡ Some value) }
    ensures others { IfOk result (λ new. (k : ℕ) → k ≢ at → place (held new.items) k ≡ place (held places.items) k) }
    ensures bound { IfOk result (λ new. (n : ℕ) → vec_len places ≤ n → at < n → vec_len new ≤ n) }
{
    let alloc = *places.allocator();
    let mut new = filled(places, at + 1)?;
    new[at] = Some(Arc::new(alloc, value)?);
    Ok(new)
}

/// Takes what a place holds out.
pub fn taken<X: Drop>(places: &mut Vec<Option<Arc<X>>>, at: usize) -> Option<Arc<X>>
    ensures taken { option_map arc_value result ≡ place (held places.old.items) at }
    ensures others { (k : ℕ) → k ≢ at → place (held places.new.items) k ≡ place (held places.old.items) k }
    ensures len { length places.new.items ≡ length places.old.items }
{
    if at >= places.len() {
        return None;
    }
    places[at].take()
}

// The places, and behind them empty ones up to at least `least`.
fn filled<X: Drop>(
    mut places: Vec<Option<Arc<X>>>,
    least: usize,
) -> Result<Vec<Option<Arc<X>>>, AllocError>
    ensures enough { IfOk result (λ all. least ≤ vec_len all) }
    ensures bound { IfOk result (λ all. (n : ℕ) → vec_len places ≤ n → least ≤ n → vec_len all ≤ n) }
    ensures same { IfOk result (λ all. (k : ℕ) → place (held all.items) k ≡ place (held places.items) k) }
{
    'fill: for _filled in places.len()..least {
        places.push(None)?;
    }
    Ok(places)
}

// The places, each sharing its value, and behind them empty ones up to at least `least`.
fn copied<X: Drop>(
    alloc: Global,
    places: &[Option<Arc<X>>],
    least: usize,
) -> Result<Vec<Option<Arc<X>>>, AllocError>
    ensures enough { IfOk result (λ copy. least ≤ vec_len copy) }
    ensures bound { IfOk result (λ copy. (n : ℕ) → length places.now ≤ n → least ≤ n → vec_len copy ≤ n) }
    ensures same { IfOk result (λ copy. (k : ℕ) → place (held copy.items) k ≡ place (held places.now) k) }
{
    let mut copy = Vec::with_capacity(alloc, places.len().max(least))?;
    for place in places {
        copy.push(shared(place)?)?;
    }
    'fill: for _filled in places.len()..least {
        copy.push(None)?;
    }
    Ok(copy)
}

// The same value, with one more owner.
fn shared<X>(place: &Option<Arc<X>>) -> Result<Option<Arc<X>>, AllocError>
    ensures { IfOk result (λ copy. option_map arc_value copy ≡ option_map arc_value place.now) }
{
    match place {
        Some(held) => Ok(Some(Arc::try_clone(held)?)),
        None => Ok(None),
    }
}

// The least place from `from` on and below `below` that holds something.
#[tactic(auto, using(crate::proofs::Rows::place_held_none, crate::proofs::Rows::place_held_some))]
fn first_held<X>(places: &[Option<Arc<X>>], from: usize, below: usize) -> Option<usize>
    ensures range { IfSome result (λ at. (from ≤ at) × (at < below)) }
    ensures found { IfSome result (λ at. IsSome (place (held places.now) at)) }
    ensures least { IfSome result (λ at. (k : ℕ) → from ≤ k → k < at → place (held places.now) k ≡ None) }
    ensures none { IfNone result ((k : ℕ) → from ≤ k → k < below → place (held places.now) k ≡ None) }
{
    for at in from..places.len().min(below) {
        if places[at].is_some() {
            return Some(at);
        }
    }
    None
}

#[cfg(test)]
impl<X> Block<X> {
    /// How many blocks own what a place holds: none where it holds nothing.
    pub fn owners(&self, at: usize) -> usize {
        match self.places.get(at) {
            Some(Some(held)) => Arc::strong_count(held),
            _ => 0,
        }
    }
}
