//! The intervals of a sid: a count of eight bytes, and this number of intervals.
#![tactic(auto, using(mysql_wire::proofs::Packets::packets))]

ghost use Rattle.std.specs.Prelude.{◌≡◌, ◌+◌, ◌/◌, ◌++◌, ◌≤◌, length, min, drop};
ghost use Rattle.std.specs.List.{flat_map};
ghost use Rattle.mysql_wire.specs.Int.{le_u64, number_of};
ghost use Rattle.mysql_wire.specs.Reading.{Answers};
ghost use Rattle.mysql_wire.specs.Seq.{counted, counts_any, is_any, items_of, seq};
ghost use Rattle.mysql_repl.specs.GnoInterval.{interval};
ghost use Rattle.mysql_repl.specs.Space.{interval_space};

use crate::gno_interval::GnoInterval;
use mysql_wire::{Buffer, FaultOf, IntRepr, LeU64, MySerialize, ParseBuf, RawInt, Seq};
use std::cmp::min;

/// The length of an interval in bytes.
const INTERVAL_LEN: usize = 16;

/// Reads `count` intervals. It reserves memory for at most as many as the bytes can hold.
#[inline(always)]
fn read_counted<'s>(count: u64, buf: &mut ParseBuf<'_>) -> Result<Vec<GnoInterval>, FaultOf<'s>>
    ensures value { Answers (is_any (min count (length buf.old / 16))) (items_of result) buf.new ((counted count (interval.form tt)).reads buf.old) }
{
    let capacity = min(count as usize, buf.len() / INTERVAL_LEN);
    let mut intervals = Vec::with_capacity(buf.alloc(), capacity)?;
    for _ in 0..count {
        let item = buf.parse(())?;
        intervals.push_reserved(item);
    }
    Ok(intervals)
}

/// Reads a count, and that many intervals. Without intervals it takes no memory.
#[inline(always)]
#[tactic(auto, using(mysql_wire::proofs::Packets::packets), unfolding(mysql_wire::specs::Seq::counted))]
pub(crate) fn read_intervals<'s, 'de>(
    buf: &mut ParseBuf<'de>,
) -> Result<Seq<'de, GnoInterval, LeU64>, FaultOf<'s>>
    ensures value { Answers (counts_any (interval_space.reads buf.old)) result buf.new ((seq (number_of le_u64) (interval.form tt)).reads buf.old) }
{
    let count: RawInt<LeU64> = buf.parse(())?;
    if count.0 == 0 {
        return Ok(Seq::borrowed(&[]));
    }
    Ok(Seq::owned(read_counted(count.0, buf)?))
}

/// Intervals that are written after their count.
#[derive(Drop)]
pub(crate) struct Intervals<'b>(pub(crate) &'b [GnoInterval]);

/// Writes the intervals to the end of a buffer that has capacity for them.
#[inline(always)]
#[tactic(auto, using(mysql_wire::proofs::After::after))]
fn append_each<O: Buffer>(intervals: &[GnoInterval], out: &mut O)
    requires { length (O.held out.old) + length (flat_map interval.bytes intervals.now) ≤ O.capacity out.old }
    ensures items { O.held out.new ≡ O.held out.old ++ flat_map interval.bytes intervals.now }
    ensures after { O.after out.new ≡ drop (length (flat_map interval.bytes intervals.now)) (O.after out.old) }
    ensures capacity { O.capacity out.old ≤ O.capacity out.new }
    ensures kept { O.kept out.new ≡ O.kept out.old }
{
    for numbers in intervals {
        numbers.append(out);
    }
}

impl MySerialize for Intervals<'_> {
    ghost use Rattle.mysql_wire.specs.Seq.{seq_bytes};
    ghost use Rattle.mysql_wire.specs.Writing.{le_bytes};

    ghost bytes = { λ i. seq_bytes (le_bytes 8) interval.bytes i.0.now };

    #[inline(always)]
    #[tactic(auto, using(crate::proofs::IntervalLengths::interval_lengths), unfolding(mysql_wire::specs::Writing::saturated))]
    fn defined_len(&self) -> usize {
        self.0.len().saturating_mul(INTERVAL_LEN).saturating_add(8)
    }

    #[inline(always)]
    #[tactic(auto, using(mysql_wire::proofs::After::after))]
    fn append<O: Buffer>(&self, out: &mut O) {
        <LeU64 as IntRepr>::append(self.0.len() as u64, out);
        append_each(self.0, out);
    }
}
