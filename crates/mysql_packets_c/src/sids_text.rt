//! The text of a GTID set, written from the sids of a packet.
#![tactic(auto, using(mysql_wire::proofs::Packets::packets, crate::proofs::SidsTexts::parts))]

ghost use Rattle.std.specs.Prelude.{◌≡◌};
ghost use Rattle.mysql_repl.specs.GtidSetWritten as text;

use crate::set_text::{IntervalText, UuidText, words};
use crate::sid::CInterval;
use mysql_repl::{IntervalsRef, SidRef, SidsRef};
use mysql_wire::{Buffer, MySerialize, Parts, Sink, parts};

/// The intervals, each after its colon.
#[derive(Drop)]
struct IntervalsText<'a>(IntervalsRef<'a>);

impl MySerialize for IntervalsText<'_> {
    ghost use Rattle.std.specs.List.{flat_map};
    ghost use Rattle.mysql_repl.specs.SidText.{interval_text};

    ghost bytes = { λ s. flat_map interval_text s.0 };

    #[tactic(auto, unfolding(mysql_wire::specs::Writing::saturated))]
    fn defined_len(&self) -> usize {
        let mut total: usize = 0;
        for interval in self.0.iter() {
            let numbers = CInterval {
                start: interval.start(),
                end: interval.end(),
            };
            total = total.saturating_add(IntervalText(&numbers).defined_len());
        }
        total
    }

    fn append<O: Buffer>(&self, out: &mut O) {
        let mut bytes = out.taken();
        for interval in self.0.iter() {
            let numbers = CInterval {
                start: interval.start(),
                end: interval.end(),
            };
            IntervalText(&numbers).append(&mut bytes);
        }
        *out = bytes;
    }
}

/// The tag and the intervals of a sid.
#[derive(Drop)]
struct WordsText<'b, 'a>(&'b SidRef<'a>);

impl Parts for WordsText<'_, '_> {
    ghost use Rattle.mysql_repl.specs.GtidSetWritten.{words_text};

    ghost bytes = { λ s. words_text s.0.now };

    fn put<S: Sink>(&self, sink: &mut S) {
        let intervals = IntervalsText(self.0.intervals());
        match self.0.tag() {
            Some(tag) => sink.part(&parts!(words(b":"), words(tag.as_str().as_bytes()), intervals)),
            None => sink.part(&intervals),
        }
    }
}

/// Whether a sid has a tag and the same uuid as the previous one.
fn goes_on(before: &SidRef<'_>, after: &SidRef<'_>) -> bool
    ensures value { result ≡ text.goes_on before.now after.now }
{
    after.tag().is_some() && before.uuid() == after.uuid()
}

/// A sid after another one, or the first.
#[derive(Drop)]
struct NextText<'b, 'a> {
    before: Option<&'b SidRef<'a>>,
    sid: &'b SidRef<'a>,
}

impl Parts for NextText<'_, '_> {
    ghost use Rattle.std.specs.Prelude.{option_map};
    ghost use Rattle.mysql_repl.specs.GtidSetWritten.{next_text};

    ghost bytes = { λ s. next_text (option_map (λ t. t.now) s.before) s.sid.now };

    fn put<S: Sink>(&self, sink: &mut S) {
        let uuid = UuidText(self.sid.uuid());
        let words_after = WordsText(self.sid);
        match self.before {
            None => sink.part(&parts!(uuid, words_after)),
            Some(before) if goes_on(before, self.sid) => sink.part(&words_after),
            Some(_) => sink.part(&parts!(words(b",\n"), uuid, words_after)),
        }
    }
}

/// The text of the sids.
#[derive(Drop)]
pub(crate) struct SidsText<'a>(pub(crate) SidsRef<'a>);

impl MySerialize for SidsText<'_> {
    ghost use Rattle.mysql_repl.specs.GtidSetWritten.{set_text};

    ghost bytes = { λ s. set_text s.0 };

    #[tactic(auto, unfolding(mysql_wire::specs::Writing::saturated, mysql_repl::specs::GtidSetWritten::set_text))]
    fn defined_len(&self) -> usize {
        let mut total: usize = 0;
        let mut before: Option<SidRef<'_>> = None;
        for sid in self.0.iter() {
            let next = NextText {
                before: before.as_ref(),
                sid: &sid,
            };
            total = total.saturating_add(next.defined_len());
            before = Some(sid);
        }
        total
    }

    #[tactic(auto, unfolding(mysql_repl::specs::GtidSetWritten::set_text))]
    fn append<O: Buffer>(&self, out: &mut O) {
        let mut bytes = out.taken();
        let mut before: Option<SidRef<'_>> = None;
        for sid in self.0.iter() {
            let next = NextText {
                before: before.as_ref(),
                sid: &sid,
            };
            next.append(&mut bytes);
            before = Some(sid);
        }
        *out = bytes;
    }
}
