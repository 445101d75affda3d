//! The text of a GTID set, written from the caller's structs.
#![tactic(auto, using(mysql_wire::proofs::Packets::packets, crate::proofs::SetTexts::parts))]

ghost use Rattle.std.specs.Prelude.{◌≡◌};
ghost use Rattle.mysql_repl.specs.GtidSetWritten as text;
ghost use Rattle.mysql_packets_c.specs.Sid as spec;

use crate::sid::{CInterval, CSid};
use crate::sid_block::{has_tag, tag_place};
use mysql_stmt::{ItemForm, Items};
use mysql_wire::{Buffer, EofBytes, MySerialize, Parts, RawBytes, Sink, parts};
use std::borrow::CowSlice;
use uuid::Uuid;

/// A number in decimal digits.
#[derive(Drop)]
struct Digits(u64);

#[tactic(auto, unfolding(mysql_wire::specs::Writing::saturated))]
impl MySerialize for Digits {
    ghost use Rattle.std.specs.Fmt.{decimal};

    ghost bytes = { λ number. decimal number.0 };

    fn defined_len(&self) -> usize {
        let mut text = itoa::Buffer::new();
        text.format(self.0).len()
    }

    fn append<O: Buffer>(&self, out: &mut O) {
        let mut text = itoa::Buffer::new();
        out.push_bytes(text.format(self.0).as_bytes());
    }
}

/// A uuid in lower case, with hyphens.
#[derive(Drop)]
pub(crate) struct UuidText(pub(crate) [u8; 16]);

#[tactic(auto, unfolding(mysql_wire::specs::Writing::saturated))]
impl MySerialize for UuidText {
    ghost use Rattle.uuid.specs.Text.{hyphenated_text, lower};

    ghost bytes = { λ uuid. hyphenated_text lower uuid.0 };

    fn defined_len(&self) -> usize {
        let mut text = [0; 36];
        Uuid::from_bytes(self.0)
            .hyphenated()
            .encode_lower(&mut text)
            .len()
    }

    fn append<O: Buffer>(&self, out: &mut O) {
        let mut text = [0; 36];
        let uuid = Uuid::from_bytes(self.0).hyphenated();
        out.push_bytes(uuid.encode_lower(&mut text).as_bytes());
    }
}

/// The separator between the words.
pub(crate) fn words(bytes: &[u8]) -> RawBytes<'_, EofBytes>
    ensures { result ≡ bytes.now }
{
    RawBytes::new(CowSlice::Borrowed(bytes))
}

/// An interval after its colon.
#[derive(Drop)]
pub(crate) struct IntervalText<'b>(pub(crate) &'b CInterval);

impl Parts for IntervalText<'_> {
    ghost use Rattle.mysql_repl.specs.SidText.{interval_text};
    ghost use Rattle.mysql_packets_c.specs.Sid.{interval_of};

    ghost bytes = { λ i. interval_text (interval_of i.0.now) };

    fn put<S: Sink>(&self, sink: &mut S) {
        let start = self.0.start;
        let end = self.0.end;
        if start.checked_add(1) == Some(end) {
            sink.part(&parts!(words(b":"), Digits(start)));
        } else {
            let last = Digits(end.saturating_sub(1));
            sink.part(&parts!(words(b":"), Digits(start), words(b"-"), last));
        }
    }
}

/// Intervals are written as text.
#[derive(Drop)]
struct AsTexts;

impl ItemForm<CInterval> for AsTexts {
    ghost use Rattle.mysql_repl.specs.SidText.{interval_text};
    ghost use Rattle.mysql_packets_c.specs.Sid.{interval_of};

    ghost item_bytes = { λ _ i. interval_text (interval_of i) };

    fn item_len(&self, item: &CInterval) -> usize {
        IntervalText(item).defined_len()
    }

    fn append_item<O: Buffer>(&self, item: &CInterval, out: &mut O) {
        IntervalText(item).append(out);
    }
}

/// The tag and the intervals of a sid.
#[derive(Drop)]
struct WordsText<'b, 'a>(&'b CSid<'a>);

impl Parts for WordsText<'_, '_> {
    ghost use Rattle.mysql_repl.specs.GtidSetWritten.{words_text};
    ghost use Rattle.mysql_packets_c.specs.Sid.{sid_or};

    ghost bytes = { λ s. words_text (sid_or s.0.now) };

    fn put<S: Sink>(&self, sink: &mut S) {
        let sid = self.0;
        let intervals = Items {
            items: sid.intervals,
            form: AsTexts,
        };
        if has_tag(sid) {
            sink.part(&parts!(words(b":"), words(tag_place(sid)), intervals));
        } else {
            sink.part(&intervals);
        }
    }
}

/// Whether a sid has a tag and the same uuid as the previous one.
fn goes_on(before: &CSid<'_>, after: &CSid<'_>) -> bool
    ensures value { result ≡ text.goes_on (spec.sid_or before.now) (spec.sid_or after.now) }
{
    has_tag(after) && before.uuid == after.uuid
}

/// A sid after another one, or the first.
#[derive(Drop)]
struct NextText<'b, 'a> {
    before: Option<&'b CSid<'a>>,
    sid: &'b CSid<'a>,
}

impl Parts for NextText<'_, '_> {
    ghost use Rattle.std.specs.Prelude.{option_map};
    ghost use Rattle.mysql_repl.specs.GtidSetWritten.{next_text};
    ghost use Rattle.mysql_packets_c.specs.Sid.{sid_or};

    ghost bytes = { λ s. next_text (option_map (λ t. sid_or t.now) s.before) (sid_or s.sid.now) };

    fn put<S: Sink>(&self, sink: &mut S) {
        let uuid = UuidText(self.sid.uuid);
        let words_after = WordsText(self.sid);
        match self.before {
            None => sink.part(&parts!(uuid, words_after)),
            Some(before) if goes_on(before, self.sid) => sink.part(&words_after),
            Some(_) => sink.part(&parts!(words(b",\n"), uuid, words_after)),
        }
    }
}

/// The text of the sids.
#[derive(Drop)]
pub(crate) struct SetText<'b, 'a>(pub(crate) &'b [CSid<'a>]);

impl MySerialize for SetText<'_, '_> {
    ghost use Rattle.mysql_repl.specs.GtidSetWritten.{set_text};
    ghost use Rattle.mysql_packets_c.specs.Sid.{sids_or};

    ghost bytes = { λ s. set_text (sids_or s.0.now) };

    #[tactic(auto, unfolding(mysql_wire::specs::Writing::saturated))]
    fn defined_len(&self) -> usize {
        let mut total: usize = 0;
        let mut before = None;
        for sid in self.0 {
            total = total.saturating_add(NextText { before, sid }.defined_len());
            before = Some(sid);
        }
        total
    }

    #[tactic(auto, using(mysql_wire::proofs::After::after))]
    fn append<O: Buffer>(&self, out: &mut O) {
        let mut bytes = out.taken();
        let mut before = None;
        for sid in self.0 {
            NextText { before, sid }.append(&mut bytes);
            before = Some(sid);
        }
        *out = bytes;
    }
}
