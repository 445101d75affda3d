//! The text of a sid, whose intervals are stored in the caller's array.

ghost use Rattle.std.specs.Prelude.{◌≡◌, ◌≤◌, IfOk, length, option_map, take};
ghost use Rattle.std.specs.Result.{result_ok};
ghost use Rattle.mysql_repl.specs.SidText as lib;
ghost use Rattle.mysql_packets_c.specs.Sid.{intervals_of};
ghost use Rattle.mysql_packets_c.specs.SidText.{Found};

use crate::sid::CInterval;
use mysql_repl::{IntervalTextsRef, SidTextRef};

/// The parts of a sid's text, and the number of its intervals.
#[derive(Drop)]
pub(crate) struct SidText<'a> {
    pub(crate) parts: SidTextRef<'a>,
    pub(crate) count: usize,
}

/// Stores as many intervals as fit in the first elements, and returns the number of all intervals, or `None` if
/// one is invalid.
#[tactic(auto, using(crate::proofs::SidsRead::sids_read))]
pub(crate) fn put_intervals(texts: IntervalTextsRef<'_>, places: &mut [CInterval]) -> Option<usize>
    ensures len { length places.new ≡ length places.old }
    ensures value { result ≡ option_map length (result_ok (lib.all_read texts.entry)) }
    ensures places { IfOk (lib.all_read texts.entry) (λ list. length list ≤ length places.old → intervals_of (take (length list) places.new) ≡ list) }
{
    // (they are no more than a `usize` holds)
    let _total = texts.left();
    let mut count: usize = 0;
    for interval in texts {
        let interval = interval.ok()?;
        if count < places.len() {
            places[count] = CInterval {
                start: interval.start(),
                end: interval.end(),
            };
        }
        count += 1;
    }
    Some(count)
}

/// Parses a text as a sid.
#[tactic(auto, using(crate::proofs::SidsRead::sids_in))]
pub(crate) fn sid_in(text: &str) -> Option<SidText<'_>>
    ensures value { Found result (lib.read_sid text.now) }
{
    let parts = SidTextRef::new(text).ok()?;
    let count = put_intervals(parts.intervals(), &mut [])?;
    Some(SidText { parts, count })
}
