//! Intervals in order.

ghost use Rattle.std.specs.Prelude.{true, [], ◌≡◌, ℕ, Ok, IfOk, IsOk, filter};
ghost use Rattle.std.specs.List.Sorted.{IsNonDecreasingBy, IsPermutation};
ghost use Rattle.mysql_repl.specs.MergedIntervals as spec;
ghost use Rattle.mysql_repl.specs.GnoInterval as interval;
ghost use Rattle.mysql_repl.specs.Sid.{uuid, tag, intervals};

use crate::gno_interval::GnoInterval;
use crate::sid::Sid;
use std::alloc::{AllocError, Global};
use std::cmp::max;

/// Whether an interval is nonempty.
fn has_any(interval: &GnoInterval) -> bool
    ensures value { result ≡ spec.has_any interval.now }
{
    interval.start() < interval.end()
}

/// Whether each interval is nonempty, and begins after this number, or after the end of the previous one.
fn are_apart_after(first: u64, intervals: &[GnoInterval]) -> bool
    ensures value { result ≡ spec.are_apart_after first intervals.now }
{
    let mut last = first;
    for interval in intervals {
        if interval.start() <= last || !has_any(interval) {
            return false;
        }
        last = interval.end();
    }
    true
}

/// Whether each interval is nonempty, and begins after the end of the previous one.
fn are_apart(intervals: &[GnoInterval]) -> bool
    ensures value { result ≡ spec.are_apart intervals.now }
{
    let Some((first, more)) = intervals.split_first() else {
        return true;
    };
    has_any(first) && are_apart_after(first.end(), more)
}

/// Returns the nonempty intervals.
fn some_of(alloc: Global, intervals: &[GnoInterval]) -> Result<Vec<GnoInterval>, AllocError>
    ensures value { IfOk result (λ some. some.items ≡ filter spec.has_any intervals.now) }
    ensures no_memory { filter spec.has_any intervals.now ≡ [] → IsOk result }
{
    let mut some = Vec::new(alloc);
    for interval in intervals {
        if has_any(interval) {
            some.push(*interval)?;
        }
    }
    Ok(some)
}

/// Sorts intervals by their starts.
fn sort(intervals: &mut Vec<GnoInterval>)
    ensures permutation { IsPermutation intervals.old.items intervals.new.items }
    ensures sorted { IsNonDecreasingBy interval.start intervals.new.items }
{
    intervals.sort_unstable_by_key(|interval| interval.start());
}

/// Merges sorted intervals.
fn merged(alloc: Global, sorted: &[GnoInterval]) -> Result<Vec<GnoInterval>, AllocError>
    ensures value { IfOk result (λ merged. merged.items ≡ spec.merged sorted.now) }
    ensures no_memory { sorted.now ≡ [] → IsOk result }
{
    let mut merged = Vec::new(alloc);
    let Some((first, more)) = sorted.split_first() else {
        return Ok(merged);
    };
    let mut last = *first;
    for interval in more {
        if last.end() < interval.start() {
            merged.push(last)?;
            last = *interval;
        } else {
            last = GnoInterval::new(last.start(), max(last.end(), interval.end()));
        }
    }
    merged.push(last)?;
    Ok(merged)
}

/// Returns the numbers of all intervals, as intervals in order and apart.
fn put_in_order(alloc: Global, intervals: &[GnoInterval]) -> Result<Vec<GnoInterval>, AllocError>
    ensures in_order { IfOk result (λ merged. spec.are_apart merged.items ≡ true) }
    ensures same { IfOk result (λ merged. (n : ℕ) → spec.any_has n merged.items ≡ spec.any_has n intervals.now) }
    ensures no_memory { filter spec.has_any intervals.now ≡ [] → IsOk result }
{
    let mut sorted = some_of(alloc, intervals)?;
    sort(&mut sorted);
    merged(alloc, sorted.as_slice())
}

impl<'a> Sid<'a> {
    /// Returns the sid with its transactions in intervals that are in order, nonempty, and apart: none touch or
    /// overlap.
    ///
    /// Servers write them in this form: [`is_canonical`](Sid::is_canonical) holds if the numbers are from 1 to
    /// 2^63 - 2.
    ///
    /// Any intervals are accepted: an empty one, whose start is not less than its end, is dropped. Intervals
    /// that are already normalized are returned unchanged, without memory; if all are empty, no memory is taken
    /// either. If the allocation fails, the sid is dropped.
    pub fn normalized(self, alloc: Global) -> Result<Self, AllocError>
        ensures uuid { IfOk result (λ s. uuid s ≡ uuid self.entry) }
        ensures tag { IfOk result (λ s. tag s ≡ tag self.entry) }
        ensures in_order { IfOk result (λ s. spec.are_apart (intervals s) ≡ true) }
        // A number is in an interval exactly if it was in one before.
        ensures same { IfOk result (λ s. (n : ℕ) → spec.any_has n (intervals s) ≡ spec.any_has n (intervals self.entry)) }
        ensures stays { spec.are_apart (intervals self.entry) ≡ true → result ≡ Ok self.entry }
        ensures no_memory { filter spec.has_any (intervals self.entry) ≡ [] → IsOk result }
    {
        if are_apart(self.intervals()) {
            return Ok(self);
        }
        let merged = put_in_order(alloc, self.intervals())?;
        Ok(self.with_intervals(merged))
    }
}
