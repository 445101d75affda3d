//! Requests for a binary log with the sids in a text, which are written as they are parsed.
#![tactic(auto, using(mysql_wire::proofs::Packets::packets, crate::proofs::TextDumps::parts))]

ghost use Rattle.std.specs.List.{list_any};
ghost use Rattle.std.specs.Prelude.{◌≡◌, MatchOption, true};
ghost use Rattle.mysql_repl.specs.GtidSetEntries.{text_entries};
ghost use Rattle.mysql_repl.specs.TagString.{tag_bytes};
ghost use Rattle.mysql_packets_c.specs.GtidEntries as spec;
ghost use Rattle.mysql_packets_c.specs.TextDump.{Adds, IsLayout};

use crate::gtid_dump::{CGtidDump, through_gtid};
use crate::set_text::words;
use crate::sid_block::{head_of, length_field};
use mysql_repl::{
    BinlogDumpFlags, ComBinlogDumpGtidHeader, GtidSetEntries, GtidSetEntry, GtidSetSid, InvalidSid,
    TagText,
};
use mysql_stmt::{ItemForm, Items};
use mysql_wire::{
    Buffer, Const, EofBytes, LeU16, LeU32, LeU64, MySerialize, Parts, RawBytes, RawInt, Sink,
    U32Bytes, VarLen, parts,
};
use std::borrow::CowSlice;

/// The layout of a text's sids in a packet.
#[derive(Clone, Copy, Drop)]
pub(crate) struct Layout {
    /// Whether there is any sid.
    some: bool,
    /// Whether any sid has a tag.
    tagged: bool,
    /// The number of sids, modulo 2^64: a head has fewer bits for it.
    count: u64,
}

impl Layout {
    /// Returns the layout with one more entry.
    #[tactic(auto, using(crate::proofs::TextLayouts::adds))]
    fn with(self, entry: &GtidSetEntry<'_>) -> Layout
        ensures value { Adds self entry.now result }
    {
        match entry {
            GtidSetEntry::Interval(_) => self,
            GtidSetEntry::Sid(sid) => Layout {
                some: true,
                tagged: self.tagged || sid.tag.is_some(),
                count: self.count.wrapping_add(1),
            },
        }
    }
}

/// The encoded sids of a text, or `None` if it is invalid.
#[tactic(auto, using(crate::proofs::TextLayouts::layouts))]
pub(crate) fn layout_of(text: &str) -> Option<Layout>
    ensures value { MatchOption result (list_any spec.is_refused (text_entries text.now) ≡ true) (λ l. IsLayout l (text_entries text.now)) }
{
    let mut layout = Layout {
        some: false,
        tagged: false,
        count: 0,
    };
    let mut left = GtidSetEntries::new(text);
    while let Some(entry) = left.next() {
        layout = layout.with(&entry.ok()?);
    }
    Some(layout)
}

/// Bytes are written in lower case.
#[derive(Drop)]
struct InLowerCase;

#[tactic(auto, unfolding(mysql_wire::specs::Writing::saturated))]
impl ItemForm<u8> for InLowerCase {
    ghost use Rattle.std.specs.Char.{to_ascii_lowercase};
    ghost use Rattle.std.specs.Prelude.{◌∷◌, []};

    ghost item_bytes = { λ _ byte. to_ascii_lowercase byte ∷ [] };

    fn item_len(&self, _item: &u8) -> usize {
        1
    }

    fn append_item<O: Buffer>(&self, item: &u8, out: &mut O) {
        out.push_byte(item.to_ascii_lowercase());
    }
}

/// The text of a tag, or an empty one if there is no tag.
fn tag_text<'a>(tag: &Option<TagText<'a>>) -> &'a str
    ensures value { result.now ≡ tag_bytes tag.now }
{
    match tag {
        Some(tag) => tag.as_str(),
        None => "",
    }
}

/// A tag in lower case after its length, which is 0 if there is none.
#[derive(Drop)]
struct WrittenTag<'b, 'a>(&'b Option<TagText<'a>>);

impl Parts for WrittenTag<'_, '_> {
    ghost use Rattle.mysql_repl.specs.TagString.{tag_bytes};
    ghost use Rattle.mysql_repl.specs.GtidSetEntries.{lower_tag};
    ghost use Rattle.mysql_wire.specs.Varlen.{varlen_string_bytes};

    ghost bytes = { λ t. varlen_string_bytes (tag_bytes (lower_tag t.0.now)) };

    fn put<S: Sink>(&self, sink: &mut S) {
        let text = tag_text(self.0);
        let len = RawInt::<VarLen>::new(text.len() as u64);
        let bytes = Items {
            items: text.as_bytes(),
            form: InLowerCase,
        };
        sink.part(&parts!(len, bytes));
    }
}

/// The fields before the intervals of a sid, in the form with or without tags.
#[derive(Drop)]
struct WrittenHead<'b, 'a> {
    tagged: bool,
    sid: &'b GtidSetSid<'a>,
}

impl Parts for WrittenHead<'_, '_> {
    ghost use Rattle.mysql_packets_c.specs.GtidEntries.{head_bytes};
    ghost use Rattle.mysql_repl.specs.GtidSetEntries.{lower_tag};

    ghost bytes = { λ s. head_bytes s.tagged s.sid.now.uuid (lower_tag s.sid.now.tag) s.sid.now.intervals };

    fn put<S: Sink>(&self, sink: &mut S) {
        let id = RawBytes::<EofBytes>::new(CowSlice::Borrowed(&self.sid.uuid));
        let count = RawInt::<LeU64>::new(self.sid.intervals);
        if self.tagged {
            sink.part(&parts!(id, WrittenTag(&self.sid.tag), count));
        } else {
            sink.part(&parts!(id, count));
        }
    }
}

/// The encoding of an item.
#[derive(Drop)]
struct WrittenEntry<'b, 'a> {
    tagged: bool,
    entry: &'b Result<GtidSetEntry<'a>, InvalidSid>,
}

impl Parts for WrittenEntry<'_, '_> {
    ghost use Rattle.mysql_packets_c.specs.GtidEntries.{entry_bytes};

    ghost bytes = { λ s. entry_bytes s.tagged s.entry.now };

    fn put<S: Sink>(&self, sink: &mut S) {
        let tagged = self.tagged;
        match self.entry {
            Err(_) => sink.part(&words(b"")),
            Ok(GtidSetEntry::Sid(sid)) => sink.part(&WrittenHead { tagged, sid }),
            Ok(GtidSetEntry::Interval(interval)) => sink.part(interval),
        }
    }
}

/// The sids of a text.
#[derive(Drop)]
struct TextSids<'a> {
    tagged: bool,
    text: &'a str,
}

impl MySerialize for TextSids<'_> {
    ghost use Rattle.std.specs.List.{flat_map};
    ghost use Rattle.mysql_repl.specs.GtidSetEntries.{text_entries};
    ghost use Rattle.mysql_packets_c.specs.GtidEntries.{entry_bytes};

    ghost bytes = { λ s. flat_map (entry_bytes s.tagged) (text_entries s.text.now) };

    #[tactic(auto, unfolding(mysql_wire::specs::Writing::saturated))]
    fn defined_len(&self) -> usize {
        let mut total: usize = 0;
        let mut left = GtidSetEntries::new(self.text);
        while let Some(entry) = left.next() {
            let written = WrittenEntry {
                tagged: self.tagged,
                entry: &entry,
            };
            total = total.saturating_add(written.defined_len());
        }
        total
    }

    fn append<O: Buffer>(&self, out: &mut O) {
        let mut bytes = out.taken();
        let mut left = GtidSetEntries::new(self.text);
        while let Some(entry) = left.next() {
            let written = WrittenEntry {
                tagged: self.tagged,
                entry: &entry,
            };
            written.append(&mut bytes);
        }
        *out = bytes;
    }
}

/// The block of a text's sids in a dump.
#[derive(Drop)]
struct TextBlock<'a> {
    layout: Layout,
    text: &'a str,
}

impl Parts for TextBlock<'_> {
    ghost use Rattle.mysql_repl.specs.GtidSetEntries.{text_entries};
    ghost use Rattle.mysql_packets_c.specs.GtidEntries.{entries_block};

    ghost bytes = { λ s. entries_block s.layout.tagged s.layout.count (text_entries s.text.now) };

    fn put<S: Sink>(&self, sink: &mut S) {
        let tagged = self.layout.tagged;
        let sids = TextSids {
            tagged,
            text: self.text,
        };
        let content_len = sids.defined_len().saturating_add(8);
        let len = RawInt::<LeU32>::new(length_field(content_len));
        sink.part(&parts!(len, head_of(tagged, self.layout.count), sids));
    }
}

/// The request of these fields, with the sids of a text.
#[derive(Drop)]
pub(crate) struct TextDump<'b, 'a> {
    pub(crate) dump: &'b CGtidDump<'a>,
    pub(crate) layout: Layout,
    pub(crate) text: &'b str,
}

impl Parts for TextDump<'_, '_> {
    ghost use Rattle.mysql_repl.specs.GtidSetEntries.{text_entries};
    ghost use Rattle.mysql_packets_c.specs.GtidEntries.{entries_dump};

    ghost bytes = { λ d. entries_dump d.dump.now d.layout.some d.layout.tagged d.layout.count (text_entries d.text.now) };

    #[inline(always)]
    fn put<S: Sink>(&self, sink: &mut S) {
        let header = ComBinlogDumpGtidHeader::new();
        let flags = through_gtid(self.dump.flags, self.layout.some);
        let flags = Const::<BinlogDumpFlags, LeU16>::new(flags);
        let server_id = RawInt::<LeU32>::new(self.dump.server_id);
        let head = parts!(header, flags, server_id);
        let file_name = RawBytes::<U32Bytes>::new(CowSlice::Borrowed(self.dump.file_name));
        let position = RawInt::<LeU64>::new(self.dump.position);
        let sids = TextBlock {
            layout: self.layout,
            text: self.text,
        };
        sink.part(&parts!(head, file_name, position, sids));
    }
}
