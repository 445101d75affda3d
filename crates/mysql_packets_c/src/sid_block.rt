//! The sids of a dump, written from the caller's structs.
#![tactic(auto, using(mysql_wire::proofs::Packets::packets, crate::proofs::WrittenSids::written_sids))]

ghost use Rattle.std.specs.List.{list_any};
ghost use Rattle.std.specs.Prelude.{◌≡◌, is_some, length, min};
ghost use Rattle.mysql_repl.specs.SidBlock as block;
ghost use Rattle.mysql_repl.specs.TagString.{tag_bytes};
ghost use Rattle.mysql_packets_c.specs.Sid as spec;

use crate::gtid_dump::tag_held;
use crate::sid::{CInterval, CSid};
use mysql_repl::GnoInterval;
use mysql_stmt::{ItemForm, Items};
use mysql_wire::{
    Buffer, EofBytes, LeU32, LeU64, MySerialize, Parts, RawBytes, RawInt, Sink, VarLen, parts,
};
use std::borrow::CowSlice;

/// Intervals are written as two numbers.
#[derive(Drop)]
struct AsIntervals;

impl ItemForm<CInterval> for AsIntervals {
    ghost use Rattle.mysql_repl.specs.GnoInterval.{interval};
    ghost use Rattle.mysql_packets_c.specs.Sid.{interval_of};

    ghost item_bytes = { λ _ i. interval.bytes (interval_of i) };

    #[inline(always)]
    fn item_len(&self, item: &CInterval) -> usize {
        GnoInterval::new(item.start, item.end).defined_len()
    }

    #[inline(always)]
    fn append_item<O: Buffer>(&self, item: &CInterval, out: &mut O) {
        GnoInterval::new(item.start, item.end).append(out);
    }
}

/// The bytes of a sid's tag; empty if it has none, or an invalid one.
#[tactic(auto, using(crate::proofs::WrittenSids::tag_stands))]
pub(crate) fn tag_place<'b>(sid: &'b CSid<'_>) -> &'b [u8]
    ensures { result.now ≡ tag_bytes (spec.tag_or sid.now) }
{
    match tag_held(sid) {
        Some(_) => &sid.tag[..usize::from(sid.tag_length)],
        None => &[],
    }
}

/// Whether a sid has a tag.
pub(crate) fn has_tag(sid: &CSid<'_>) -> bool
    ensures { result ≡ is_some (spec.tag_or sid.now) }
{
    match tag_held(sid) {
        Some(tag) => tag.is_some(),
        None => false,
    }
}

/// A sid that is written in the form with or without tags.
#[derive(Drop)]
struct WrittenSid<'b, 'a> {
    tagged: bool,
    sid: &'b CSid<'a>,
}

#[tactic(auto, using(mysql_wire::proofs::Packets::packets, crate::proofs::WrittenSids::written_sids), unfolding(mysql_repl::specs::Sid::sid, mysql_repl::specs::Sid::tagged_sid))]
impl Parts for WrittenSid<'_, '_> {
    ghost use Rattle.mysql_repl.specs.Sid.{sid_as};
    ghost use Rattle.mysql_packets_c.specs.Sid.{sid_or};

    ghost bytes = { λ s. (sid_as s.tagged).bytes (sid_or s.sid.now) };

    #[inline(always)]
    fn put<S: Sink>(&self, sink: &mut S) {
        let sid = self.sid;
        let id = RawBytes::<EofBytes>::new(CowSlice::Borrowed(&sid.uuid));
        let count = RawInt::<LeU64>::new(sid.intervals.len() as u64);
        let intervals = Items {
            items: sid.intervals,
            form: AsIntervals,
        };
        if self.tagged {
            let tag = RawBytes::<VarLen>::new(CowSlice::Borrowed(tag_place(sid)));
            sink.part(&parts!(id, tag, count, intervals));
        } else {
            sink.part(&parts!(id, count, intervals));
        }
    }
}

/// Sids are written in the form with or without tags.
#[derive(Drop)]
struct AsSids {
    tagged: bool,
}

impl ItemForm<CSid<'_>> for AsSids {
    ghost use Rattle.mysql_repl.specs.Sid.{sid_as};
    ghost use Rattle.mysql_packets_c.specs.Sid.{sid_or};

    ghost item_bytes = { λ form sid. (sid_as form.tagged).bytes (sid_or sid) };

    #[inline(always)]
    fn item_len(&self, sid: &CSid<'_>) -> usize {
        let tagged = self.tagged;
        WrittenSid { tagged, sid }.defined_len()
    }

    #[inline(always)]
    fn append_item<O: Buffer>(&self, sid: &CSid<'_>, out: &mut O) {
        let tagged = self.tagged;
        WrittenSid { tagged, sid }.append(out);
    }
}

/// Returns the length that is written for `len` bytes: at most 2^32 - 1.
pub(crate) fn length_field(len: usize) -> u32
    ensures { result ≡ min len 4294967295 }
{
    if len < u32::MAX as usize {
        len as u32
    } else {
        u32::MAX
    }
}

/// The head before `count` sids.
#[tactic(auto, unfolding(mysql_repl::specs::SidBlock::head_for))]
pub(crate) fn head_of(tagged: bool, count: u64) -> RawInt<LeU64>
    ensures { result.0 ≡ block.head_for tagged count }
{
    if tagged {
        RawInt::new((1 << 56) + (1 << 8) * (count % (1 << 48)))
    } else {
        RawInt::new(count % (1 << 56))
    }
}

/// The sids of a dump, as they are written: all in the form with tags if any sid has one.
#[derive(Drop)]
pub(crate) struct WrittenSids<'b, 'a>(pub(crate) &'b [CSid<'a>]);

impl WrittenSids<'_, '_> {
    /// Whether any sid has a tag.
    fn any_tag(&self) -> bool
        ensures { result ≡ list_any (λ s. is_some (spec.tag_or s)) self.now.0.now }
    {
        self.0.iter().any(|sid| has_tag(sid))
    }

    /// The head before the sids.
    fn head(&self, tagged: bool) -> RawInt<LeU64>
        ensures { result.0 ≡ block.head_for tagged (length self.now.0.now) }
    {
        head_of(tagged, self.0.len() as u64)
    }
}

#[tactic(auto, using(mysql_wire::proofs::Packets::packets, mysql_wire::specs::Writing::lengths, crate::proofs::WrittenSids::written_sids), unfolding(mysql_repl::specs::SidBlock::block_bytes, mysql_repl::specs::SidBlock::content, mysql_wire::specs::Writing::saturated))]
impl Parts for WrittenSids<'_, '_> {
    ghost use Rattle.mysql_repl.specs.SidBlock.{block_bytes};
    ghost use Rattle.mysql_packets_c.specs.Sid.{sids_or};

    ghost bytes = { λ s. block_bytes (sids_or s.0.now) };

    #[inline(always)]
    fn put<S: Sink>(&self, sink: &mut S) {
        let tagged = self.any_tag();
        let sids = Items {
            items: self.0,
            form: AsSids { tagged },
        };
        let content_len = sids.defined_len().saturating_add(8);
        let len = RawInt::<LeU32>::new(length_field(content_len));
        sink.part(&parts!(len, self.head(tagged), sids));
    }
}
