//! Whether the intervals of sids are in the form that servers write.

ghost use Rattle.std.specs.Prelude.{◌≡◌};
ghost use Rattle.mysql_repl.specs.BinlogDumpGtid.{sids};
ghost use Rattle.mysql_repl.specs.ServerSids as spec;

use crate::binlog_dump_gtid::ComBinlogDumpGtid;
use crate::gno_interval::GnoInterval;
use crate::sid::Sid;

/// Whether an interval is nonempty, begins after this number, and ends below 2^63.
fn is_after(last: u64, interval: &GnoInterval) -> bool
    ensures value { result ≡ spec.is_after last interval.now }
{
    let start = interval.start();
    let end = interval.end();
    last < start && start < end && end < 1 << 63
}

/// Whether the intervals are in order, do not touch, and begin after 0.
fn are_in_order(intervals: &[GnoInterval]) -> bool
    ensures value { result ≡ spec.are_after 0 intervals.now }
{
    let mut last = 0;
    for interval in intervals {
        if !is_after(last, interval) {
            return false;
        }
        last = interval.end();
    }
    true
}

impl Sid<'_> {
    /// Whether the intervals are in the form that servers write.
    ///
    /// They are in order, with a gap between each two, so that none overlap or touch; each has at least one
    /// transaction; the first starts at 1 or later, and the last has an end of at most 2^63 - 1. A sid without
    /// intervals is canonical too.
    ///
    /// MySQL refuses a dump by GTID set with other intervals (error 1773).
    pub fn is_canonical(&self) -> bool
        ensures value { result ≡ spec.is_canonical self.now }
    {
        are_in_order(self.intervals())
    }
}

impl ComBinlogDumpGtid<'_> {
    /// Whether the intervals of each sid are in the form that servers write: see [`Sid::is_canonical`].
    ///
    /// The readers don't check this: [`parse_strict`](Self::parse_strict) rejects blocks of another layout and
    /// bytes after the last sid, and accepts intervals of any two numbers in any order.
    pub fn is_canonical(&self) -> bool
        ensures value { result ≡ spec.are_as_servers_write (sids self.now) }
    {
        self.sids().iter().all(|sid| sid.is_canonical())
    }
}
