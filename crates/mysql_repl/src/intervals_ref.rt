//! Borrowed intervals of a sid.
#![tactic(auto, using(mysql_wire::proofs::Packets::packets))]

ghost use Rattle.std.specs.Prelude.{false, [], ◌≡◌, length, option_map, refl, IfOk, IsOk, ⊤};
ghost use Rattle.std.specs.Cmp.Lexicographic.{pointwise};
ghost use Rattle.mysql_wire.specs.Int.{le_u64, number_of};
ghost use Rattle.mysql_wire.specs.Reading.{Answers};
ghost use Rattle.mysql_wire.specs.Seq.{counted, seq};
ghost use Rattle.mysql_repl.specs.GnoInterval.{interval};
ghost use Rattle.mysql_repl.specs.InPlace.{NextItem, StandIn, joined, passed};

use crate::gno_interval::GnoInterval;
use mysql_wire::{AnyWidth, FaultOf, LeU64, MyDeserialize, ParseBuf, RawInt};
use std::alloc::{AllocError, Global};
use std::fmt;
use std::fmt::Debug;
use std::marker::Model;

/// The intervals of a sid, borrowed from the packet: the list of [`Sid::intervals`](crate::Sid::intervals). It
/// takes no memory.
///
/// An iterator over the intervals. All of them are read when it is created, so none of them fails later. In a
/// clause it is the list of the remaining intervals.
///
/// ```
/// let request: ComBinlogDumpGtidRef<'_> = ParseBuf::new(alloc, payload).parse(())?;
/// let mut count: u64 = 0;
/// for sid in request.sids() {
/// for interval in sid.intervals() {
///     count = count.saturating_add(interval.end().saturating_sub(interval.start()));
/// }
/// }
/// Ok(count)
/// ```
#[derive(Drop)]
pub struct IntervalsRef<'a> {
    count: u64,
    /// The length in bytes.
    len: usize,
    /// The bytes of the intervals, and the bytes after them.
    bytes: ParseBuf<'a>,
}

impl<'a> Model for IntervalsRef<'a> {
    ghost use Rattle.std.specs.Prelude.{List};
    ghost use Rattle.mysql_repl.specs.declared.gno_interval.GnoInterval.{GnoInterval};
    ghost use Rattle.mysql_repl.specs.GnoInterval.{interval};
    ghost use Rattle.mysql_repl.specs.InPlace.{AreThere, items_in};

    ghost Value = { List GnoInterval };

    ghost view = { λ p. items_in (interval.form tt) p.count p.bytes };

    ghost invariant = { λ p. AreThere (interval.form tt) p.count p.len p.bytes };
}

/// Skips `count` intervals.
fn skip_intervals<'s>(count: u64, buf: &mut ParseBuf<'_>) -> Result<(), FaultOf<'s>>
    ensures value { Answers false result buf.new (passed ((counted count (interval.form tt)).reads buf.old)) }
{
    for _ in 0..count {
        let _interval: GnoInterval = buf.parse(())?;
    }
    Ok(())
}

/// Reads `count` intervals.
#[tactic(auto, using(crate::proofs::InPlace::places))]
fn read_counted<'s, 'a>(count: u64, buf: &mut ParseBuf<'a>) -> Result<IntervalsRef<'a>, FaultOf<'s>>
    ensures value { Answers false result buf.new ((counted count (interval.form tt)).reads buf.old) }
{
    let bytes = buf.rest();
    skip_intervals(count, buf)?;
    let len = bytes.len().saturating_sub(buf.len());
    Ok(IntervalsRef { count, len, bytes })
}

/// Returns the first interval and the others, if one is left.
#[tactic(auto, using(crate::proofs::InPlace::one_by_one))]
fn first_and_others<'a>(intervals: &IntervalsRef<'a>) -> Option<(GnoInterval, IntervalsRef<'a>)>
    ensures value { intervals.now ≡ joined (option_map (λ p. (p.0, p.1)) result) }
{
    if intervals.count == 0 {
        return None;
    }
    let mut bytes = intervals.bytes.rest();
    let first: GnoInterval = bytes.parse(()).ok()?;
    let taken = intervals.bytes.len().saturating_sub(bytes.len());
    let others = IntervalsRef {
        count: intervals.count - 1,
        len: intervals.len.saturating_sub(taken),
        bytes,
    };
    Some((first, others))
}

impl<'a> IntervalsRef<'a> {
    /// The number of remaining intervals.
    #[inline]
    #[tactic(auto, using(crate::proofs::InPlace::how_many))]
    pub fn left(&self) -> u64
        ensures value { result ≡ length self.now }
    {
        self.count
    }

    /// The bytes of the remaining intervals, without their count.
    #[inline]
    pub fn as_bytes(&self) -> &'a [u8]
        ensures value { StandIn (interval.form tt) (length self.now) result.now self.now }
    {
        let mut bytes = self.bytes.rest();
        bytes.eat(self.len)
    }

    /// Returns an iterator over the remaining intervals.
    #[inline]
    pub fn iter(&self) -> IntervalsRef<'a>
        ensures value { result ≡ self.now }
    {
        IntervalsRef {
            count: self.count,
            len: self.len,
            bytes: self.bytes.rest(),
        }
    }

    /// Copies the intervals. Without intervals it takes no memory.
    pub fn to_owned(&self, alloc: Global) -> Result<Vec<GnoInterval>, AllocError>
        ensures value { IfOk result (λ intervals. intervals.items ≡ self.now) }
        ensures no_memory { self.now ≡ [] → IsOk result }
    {
        let mut intervals = Vec::with_capacity(alloc, self.left() as usize)?;
        for interval in self.iter() {
            intervals.push(interval)?;
        }
        Ok(intervals)
    }
}

/// Whether both yield the same intervals, in the same order.
fn give_the_same(one: &IntervalsRef<'_>, other: &IntervalsRef<'_>) -> bool
    ensures value { result ≡ pointwise ⟦<GnoInterval as PartialEq>⟧.eq one.now other.now }
{
    let mut others = other.iter();
    for interval in one.iter() {
        match others.next() {
            Some(other) => {
                if interval != other {
                    return false;
                }
            }
            None => return false,
        }
    }
    others.next().is_none()
}

impl Clone for IntervalsRef<'_> {
    ghost is_clone = { λ p copy. copy ≡ p };

    ghost is_infallible = { λ _. ⊤ };

    fn clone(&self) -> Result<Self, AllocError> {
        Ok(self.iter())
    }
}

/// Compares the intervals, in order.
impl PartialEq for IntervalsRef<'_> {
    ghost use Rattle.std.specs.Cmp.Lexicographic.{lists_per, pointwise};
    ghost use Rattle.mysql_repl.specs.contracts.gno_interval.GnoIntervalPartialEq.TheImpl.Laws.{laws-law};

    ghost eq = { pointwise ⟦<GnoInterval as PartialEq>⟧.eq };

    ghost laws = { lists_per laws-law };

    fn eq(&self, other: &Self) -> bool {
        give_the_same(self, other)
    }
}

impl Eq for IntervalsRef<'_> {
    ghost use Rattle.std.specs.Cmp.Lexicographic.{lists_equiv};
    ghost use Rattle.mysql_repl.specs.contracts.gno_interval.GnoIntervalEq.TheImpl.Laws.{laws-law};

    ghost laws = { lists_equiv laws-law };
}

impl Debug for IntervalsRef<'_> {
    fn fmt<W: fmt::Write>(&self, f: &mut fmt::Formatter<W>) -> fmt::Result {
        let mut list = f.debug_list();
        for interval in self.iter() {
            list.entry(&interval);
        }
        list.finish()
    }
}

impl<'a> Iterator for IntervalsRef<'a> {
    type Item = GnoInterval;

    ghost use Rattle.std.specs.Prelude.{length, ⊤};
    ghost use Rattle.std.specs.Iterator.{at_most};

    ghost can_next = { λ _. ⊤ };

    ghost next_gives = { NextItem };

    ghost remaining = { λ left. at_most (length left) };

    fn next(&mut self) -> Option<GnoInterval> {
        let (first, others) = first_and_others(self)?;
        *self = others;
        Some(first)
    }
}

/// A count of eight bytes, and this number of intervals. Missing bytes are `UnexpectedEof`.
impl<'de> MyDeserialize<'de> for IntervalsRef<'de> {
    const SIZE: Option<usize> = None;

    type Size = AnyWidth;

    type Ctx = ();

    ghost form = { λ _. seq (number_of le_u64) (interval.form tt) };

    fn deserialize<'s>(_ctx: (), buf: &mut ParseBuf<'de>) -> Result<Self, FaultOf<'s>> {
        let mut rest = buf.rest();
        let count: RawInt<LeU64> = rest.parse(())?;
        let intervals = read_counted(count.0, &mut rest)?;
        *buf = rest;
        Ok(intervals)
    }

    ghost size_is = { λ _. refl };
}
