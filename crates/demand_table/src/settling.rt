//! The totals of runs.

ghost use Rattle.std.specs.Prelude.{◌≡◌, ◌+◌, ◌<◌, ◌≤◌, ◌^◌, ℕ, [], length, IfOk, IfSome, IfErr, OnOk, IsSome, Contains, sum_by, slice_index_or};
ghost use Rattle.std.specs.declared.option.Option.TheVariants.{None, Some};
ghost use Rattle.loda_semantics.specs.declared.kinds.Pair.{Pair};
ghost use Rattle.demand_table.specs.declared.entry.Entry.{Entry};
ghost use Rattle.demand_table.specs.Loaded.{slots_of};
ghost use Rattle.demand_table.specs.Work.{IsSet, with_total};
ghost use Rattle.demand_table.specs.Settling.{IsUnsettled, CanSettle, AreRight, IsStep, IsSettling, Settles};

use crate::entry::Entry;
use crate::frame::Frame;
use crate::holding::Known;
use crate::known;
use crate::slots::touched;
use crate::step::Step;
use crate::work::Work;
use loda_semantics::Pair;
use std::alloc::{AllocError, Global};

/// The total of a pair, where it is known.
fn total(known: &Known<'_>, work: &Work, pair: &Pair) -> Option<u64>
    ensures { result ≡ (slots_of known.now.pages.now work.now pair.now).total }
{
    match touched(work, pair) {
        Some(slot) => slot.total,
        None => match known::node(known, pair) {
            Some(node) => Some(node.total),
            None => None,
        },
    }
}

// The run of a pair whose total is not known. It was stored, since the old table knows its totals.
fn run<'w>(known: &Known<'_>, work: &'w Work, pair: &Pair) -> &'w Entry
    requires { IsUnsettled (slots_of known.now.pages.now work.now) pair.now }
    ensures { (slots_of known.now.pages.now work.now pair.now).entry ≡ Some result.now }
{
    match touched(work, pair) {
        Some(slot) => match &slot.entry {
            Some(entry) => entry,
            None => unreachable!(),
        },
        None => unreachable!(),
    }
}

// Writes the total of a pair whose total is not known. Its slot was touched, since the old table knows its totals.
fn set_total(known: &Known<'_>, work: &mut Work, pair: &Pair, total: u64)
    requires { IsUnsettled (slots_of known.now.pages.now work.old) pair.now }
    ensures { IsSet (slots_of known.now.pages.now work.old) (slots_of known.now.pages.now work.new) pair.now (with_total (slots_of known.now.pages.now work.old pair.now) total) }
{
    match work.touched.get_mut(&pair.name) {
        Some(slots) => match slots.get_mut(&pair.arg) {
            Some(slot) => slot.total = Some(total),
            None => unreachable!(),
        },
        None => unreachable!(),
    }
}

// The first place from `from` on at which the total isn't known. From 0 on the sum finds it.
fn next_unknown(known: &Known<'_>, work: &Work, calls: &[Pair], from: usize) -> Option<usize>
    ensures range { IfSome result (λ at. at < length calls.now) }
    ensures found { IfSome result (λ at. (d : Pair) → (slots_of known.now.pages.now work.now (slice_index_or calls.now at d)).total ≡ None) }
{
    if from == 0 {
        return None;
    }
    for at in from..calls.len() {
        let call = calls[at];
        if total(known, work, &call).is_none() {
            return Some(at);
        }
    }
    None
}

// A run's own steps and the totals of its calls, or the first place at which a total isn't known.
fn summed(known: &Known<'_>, work: &Work, own: u64, calls: &[Pair]) -> Result<u64, usize>
    requires stand { (q : Pair) → Contains calls.now q → IsSome (slots_of known.now.pages.now work.now q).entry }
    requires fits { (t : Pair → ℕ) × AreRight (slots_of known.now.pages.now work.now) t × (own + sum_by t calls.now < 2 ^ 64) }
    ensures sum { IfOk result (λ sum. (t : Pair → ℕ) → AreRight (slots_of known.now.pages.now work.now) t → sum ≡ own + sum_by t calls.now) }
    ensures range { IfErr result (λ at. at < length calls.now) }
    ensures found { IfErr result (λ at. (d : Pair) → (slots_of known.now.pages.now work.now (slice_index_or calls.now at d)).total ≡ None) }
{
    let mut sum = own;
    for at in 0..calls.len() {
        let call = calls[at];
        match total(known, work, &call) {
            Some(total) => sum += total,
            None => return Err(at),
        }
    }
    Ok(sum)
}

// What the walk finds at a pair.
fn step(known: &Known<'_>, work: &Work, pair: &Pair, from: usize) -> Step
    requires can { CanSettle (slots_of known.now.pages.now work.now) }
    requires unsettled { IsUnsettled (slots_of known.now.pages.now work.now) pair.now }
    ensures { IsStep (slots_of known.now.pages.now work.now) pair.now result }
{
    let entry = run(known, work, pair);
    let calls = entry.calls.list();
    if let Some(at) = next_unknown(known, work, calls, from) {
        return Step::Waits {
            at,
            call: calls[at],
        };
    }
    match summed(known, work, entry.own, calls) {
        Ok(total) => Step::Total(total),
        Err(at) => Step::Waits {
            at,
            call: calls[at],
        },
    }
}

// Settles the total of a pair, and first those of the calls on which it waits, with a stack of the pairs that wait, whose memory
// serves again. Says how many are left.
fn settle(
    alloc: Global,
    known: &Known<'_>,
    work: &mut Work,
    stack: &mut Vec<Frame>,
    pair: &Pair,
    many: u64,
) -> Result<u64, AllocError>
    requires empty { stack.old.items ≡ [] }
    requires settling { IsSettling (slots_of known.now.pages.now work.old) many }
    requires unsettled { IsUnsettled (slots_of known.now.pages.now work.old) pair.now }
    ensures settles { OnOk result (Settles (slots_of known.now.pages.now work.old) (slots_of known.now.pages.now work.new)) }
    ensures here { OnOk result (IsSome (slots_of known.now.pages.now work.new pair.now).total) }
    ensures left { IfOk result (λ left. IsSettling (slots_of known.now.pages.now work.new) left) }
    ensures empty { OnOk result (stack.new.items ≡ []) }
{
    let mut left = many;
    let first = Frame {
        pair: *pair,
        from: 0,
    };
    stack.push(first)?;
    while let Some(frame) = stack.pop() {
        match step(known, work, &frame.pair, frame.from) {
            Step::Total(total) => {
                set_total(known, work, &frame.pair, total);
                left -= 1;
            }
            Step::Waits { at, call } => {
                let waiting = Frame {
                    pair: frame.pair,
                    from: at,
                };
                stack.push(waiting)?;
                let next = Frame {
                    pair: call,
                    from: 0,
                };
                stack.push(next)?;
            }
        }
    }
    Ok(left)
}

/// Settles the totals of the pairs, among which is each that is unsettled.
pub fn settle_all(
    alloc: Global,
    known: &Known<'_>,
    work: &mut Work,
    pairs: &[Pair],
    many: u64,
) -> Result<(), AllocError>
    requires settling { IsSettling (slots_of known.now.pages.now work.old) many }
    requires all { (q : Pair) → IsUnsettled (slots_of known.now.pages.now work.old) q → Contains pairs.now q }
    requires stand { (q : Pair) → Contains pairs.now q → IsSome (slots_of known.now.pages.now work.old q).entry }
    ensures settles { OnOk result (Settles (slots_of known.now.pages.now work.old) (slots_of known.now.pages.now work.new)) }
    ensures can { OnOk result (CanSettle (slots_of known.now.pages.now work.new)) }
    ensures known { OnOk result ((q : Pair) → IsUnsettled (slots_of known.now.pages.now work.new) q → ⊥) }
{
    let mut left = many;
    let mut stack = Vec::new(alloc);
    for pair in pairs {
        if total(known, work, pair).is_none() {
            left = settle(alloc, known, work, &mut stack, pair, left)?;
        }
    }
    Ok(())
}
