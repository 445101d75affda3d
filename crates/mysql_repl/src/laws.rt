//! Laws over the grammars and the defined bytes of this crate's packets, and over texts.
//!
//! Each law is an empty function, whose contract holds for all values. Exceptions: those about sizes return
//! them, those that begin with `this` are about a given value, and `request_written` makes two calls.
#![tactic(auto, using(mysql_wire::proofs::Packets::packets, crate::proofs::Fits::plain_fits, crate::proofs::SidFits::sid_fits))]

ghost use Rattle.std.specs.Prelude.{◌≡◌, ◌++◌, ℕ, List, None, Some, Ok, OnErr, OnOk, IsTrue, IsUtf8, ◌↔◌, true, false, Bool, length, map};
ghost use Rattle.mysql_wire.specs.Int.{le_u64, number_of};
ghost use Rattle.mysql_wire.specs.Seq.{seq};
ghost use Rattle.mysql_repl.specs.declared.binlog_dump.ComBinlogDump.{ComBinlogDump};
ghost use Rattle.mysql_repl.specs.declared.binlog_dump_gtid.ComBinlogDumpGtid.{ComBinlogDumpGtid};
ghost use Rattle.mysql_repl.specs.declared.binlog_request.BinlogRequest.{BinlogRequest};
ghost use Rattle.mysql_repl.specs.declared.binlog_stream_packet.BinlogStreamPacket.{BinlogStreamPacket};
ghost use Rattle.mysql_repl.specs.declared.register_slave.ComRegisterSlave.{ComRegisterSlave};
ghost use Rattle.mysql_repl.specs.declared.semi_sync_ack.SemiSyncAckPacket.{SemiSyncAckPacket};
ghost use Rattle.mysql_repl.specs.declared.gno_interval.GnoInterval.{GnoInterval};
ghost use Rattle.mysql_repl.specs.declared.sid.Sid.{Sid};
ghost use Rattle.mysql_repl.specs.declared.table_dump.ComTableDump.{ComTableDump};
ghost use Rattle.mysql_repl.specs.BinlogDump.{binlog_dump, BinlogDumpFits};
ghost use Rattle.mysql_repl.specs.BinlogDumpGtid.{gtid_dump, GtidDumpFits, TellsSids, KeepsOthers, flag_bits, with_flags, with_sids};
ghost use Rattle.mysql_repl.specs.BinlogRequest as request_spec;
ghost use Rattle.mysql_repl.specs.BinlogStreamPacket.{stream_packet, StreamPacketFits};
ghost use Rattle.mysql_repl.specs.GnoInterval.{interval};
ghost use Rattle.mysql_repl.specs.RegisterSlave.{register_slave, RegisterSlaveFits};
ghost use Rattle.mysql_repl.specs.SemiSyncAck.{semi_sync_ack, SemiSyncAckFits};
ghost use Rattle.mysql_repl.specs.Sid.{sid, tagged_sid, intervals, IsSid, AreSids};
ghost use Rattle.mysql_repl.specs.MergedIntervals.{any_has, are_apart, NumbersFit};
ghost use Rattle.mysql_repl.specs.ProperSid.{ProperSid};
ghost use Rattle.mysql_repl.specs.ServerSids.{is_canonical};
ghost use Rattle.mysql_repl.specs.GtidSetEntries.{alone, counts, sids_of, text_entries};
ghost use Rattle.mysql_repl.specs.GtidSetText.{read_sids};
ghost use Rattle.mysql_repl.specs.GtidSetWritten.{set_text, SidsInSet};
ghost use Rattle.mysql_repl.specs.RequestBytes.{request_bytes};
ghost use Rattle.mysql_repl.specs.SidGrammar.{SpellsSid};
ghost use Rattle.mysql_repl.specs.SidText.{read_sid, sid_text};
ghost use Rattle.mysql_repl.specs.Tag.{IsTag, tag_fault};
ghost use Rattle.mysql_repl.specs.TableDump.{table_dump, TableDumpFits};

use crate::binlog_request::BinlogRequest;
use crate::tag::Tag;
use mysql_wire::{MyDeserialize, MySerialize};
use std::alloc::AllocError;
use std::hash::Hash;

mod values;

pub use values::{
    this_binlog_dump_gtid_round_trips, this_binlog_dump_round_trips,
    this_binlog_stream_packet_round_trips, this_gtid_set_text_round_trips,
    this_register_slave_round_trips, this_semi_sync_ack_round_trips, this_sid_round_trips,
    this_sid_text_round_trips, this_table_dump_round_trips,
};

/// A registration is read back, whatever bytes follow.
pub fn register_slave_round_trips()
    ensures spelled { (p : ComRegisterSlave) (rest : List ℕ) → RegisterSlaveFits p → (register_slave.form tt).Spells p (register_slave.bytes p ++ rest) rest }
{}

/// A request for a table is read back, whatever bytes follow.
pub fn table_dump_round_trips()
    ensures spelled { (p : ComTableDump) (rest : List ℕ) → TableDumpFits p → (table_dump.form tt).Spells p (table_dump.bytes p ++ rest) rest }
{}

/// A dump by position is read back if nothing follows.
pub fn binlog_dump_round_trips()
    ensures spelled { (p : ComBinlogDump) (rest : List ℕ) → BinlogDumpFits p rest → (binlog_dump.form tt).Spells p (binlog_dump.bytes p ++ rest) rest }
{}

/// An acknowledgement is read back if nothing follows.
pub fn semi_sync_ack_round_trips()
    ensures spelled { (p : SemiSyncAckPacket) (rest : List ℕ) → SemiSyncAckFits p rest → (semi_sync_ack.form tt).Spells p (semi_sync_ack.bytes p ++ rest) rest }
{}

/// A packet of a stream is read back if nothing follows: with the header of semi-synchronous replication if
/// that is agreed on, otherwise without it.
#[tactic(auto, using(crate::proofs::StreamFits::streams))]
pub fn binlog_stream_packet_round_trips()
    ensures spelled { (agreed : Bool) (p : BinlogStreamPacket) (rest : List ℕ) → StreamPacketFits agreed p rest → (stream_packet.form agreed).Spells p (stream_packet.bytes p ++ rest) rest }
{}

/// A sid without a tag is read back, whatever bytes follow, and any sid is read back in the form with tags.
pub fn sid_round_trips()
    ensures untagged { (s : Sid) (rest : List ℕ) → IsSid s → s.tag ≡ None → (sid.form tt).Spells s (sid.bytes s ++ rest) rest }
    ensures tagged { (s : Sid) (rest : List ℕ) → IsSid s → (tagged_sid.form tt).Spells s (tagged_sid.bytes s ++ rest) rest }
{}

/// A dump by GTID set is read back, whatever bytes follow, by either reader.
pub fn binlog_dump_gtid_round_trips()
    ensures lenient { (p : ComBinlogDumpGtid) (rest : List ℕ) → GtidDumpFits p → (gtid_dump.form false).Spells p (gtid_dump.bytes p ++ rest) rest }
    ensures strict { (p : ComBinlogDumpGtid) (rest : List ℕ) → GtidDumpFits p → (gtid_dump.form true).Spells p (gtid_dump.bytes p ++ rest) rest }
{}

/// A dump by GTID set that the strict reader accepts is read by the other reader as the same request with the
/// same rest.
pub fn strict_is_lenient()
    ensures spelled { (p : ComBinlogDumpGtid) (bytes rest : List ℕ) → (gtid_dump.form true).Spells p bytes rest → (gtid_dump.form false).Spells p bytes rest }
{}

/// A borrowed form is read from the same bytes as the owned one, and has the same value.
pub fn borrowed_requests_read_requests()
    ensures registration { (bytes : List ℕ) → (⟦<crate::register_slave_ref::ComRegisterSlaveRef<'static> as MyDeserialize<'static>>⟧.form tt).reads bytes ≡ (register_slave.form tt).reads bytes }
    ensures dump { (bytes : List ℕ) → (⟦<crate::binlog_dump_ref::ComBinlogDumpRef<'static> as MyDeserialize<'static>>⟧.form tt).reads bytes ≡ (binlog_dump.form tt).reads bytes }
    ensures gtid_dump { (bytes : List ℕ) → (⟦<crate::binlog_dump_gtid_ref::ComBinlogDumpGtidRef<'static> as MyDeserialize<'static>>⟧.form tt).reads bytes ≡ (gtid_dump.form false).reads bytes }
    ensures sid { (bytes : List ℕ) → (⟦<crate::sid_ref::SidRef<'static> as MyDeserialize<'static>>⟧.form tt).reads bytes ≡ (sid.form tt).reads bytes }
    ensures intervals { (bytes : List ℕ) → (⟦<crate::intervals_ref::IntervalsRef<'static> as MyDeserialize<'static>>⟧.form tt).reads bytes ≡ (seq (number_of le_u64) (interval.form tt)).reads bytes }
{}

/// A dump that was created or changed has the flag BINLOG_THROUGH_GTID exactly if it has a sid. The other flags are those that
/// were passed, or unchanged.
#[tactic(auto, using(crate::proofs::ThroughGtid::through_gtids))]
pub fn through_gtid_is_set_for_sids()
    ensures flags { (bits : ℕ) (p : ComBinlogDumpGtid) → TellsSids (with_flags bits p) × KeepsOthers bits (with_flags bits p) }
    ensures sids { (list : List Sid) (p : ComBinlogDumpGtid) → TellsSids (with_sids list p) × KeepsOthers (flag_bits p) (with_sids list p) }
    ensures request { (r : BinlogRequest) → TellsSids (request_spec.gtid_dump r) × KeepsOthers (request_spec.flags r).0 (request_spec.gtid_dump r) }
{}

/// A text spells at most one sid, and is parsed as that sid; a text that spells none is an error.
#[tactic(auto, using(crate::proofs::SidTextRead::texts_spelled))]
pub fn sid_text_is_spelled()
    ensures one { (text : List ℕ) (s t : Sid) → SpellsSid text s → SpellsSid text t → s ≡ t }
    ensures read { (text : List ℕ) (s : Sid) → SpellsSid text s → read_sid text ≡ Ok s }
    ensures spelled { (text : List ℕ) (s : Sid) → IsUtf8 text → read_sid text ≡ Ok s → SpellsSid text s }
{}

/// The written text of a sid is parsed as that sid, if it has at least one interval, and each is valid.
#[tactic(auto, using(crate::proofs::SidTextAgain::sid_texts_again))]
pub fn sid_text_round_trips()
    ensures spelled { (s : Sid) → ProperSid s → SpellsSid (sid_text s) s }
    ensures read { (s : Sid) → ProperSid s → read_sid (sid_text s) ≡ Ok s }
{}

/// A text in UTF-8 that was parsed, printed and parsed again gives the same sid as at first.
#[tactic(auto, using(crate::proofs::SidTextRead::sid_reads_again))]
pub fn read_sid_text_round_trips()
    ensures read { (text : List ℕ) (s : Sid) → IsUtf8 text → read_sid text ≡ Ok s → read_sid (sid_text s) ≡ Ok s }
{}

/// Intervals in order that don't touch are canonical if their numbers are from 1 to 2^63 - 2; the numbers of merged intervals
/// are if those of the given ones are.
pub fn merged_intervals_are_as_servers_write()
    ensures fit { (merged given : List GnoInterval) → are_apart merged ≡ true → NumbersFit given → ((n : ℕ) → any_has n merged ≡ any_has n given) → NumbersFit merged }
    ensures servers { (s : Sid) → are_apart (intervals s) ≡ true → NumbersFit (intervals s) → is_canonical s ≡ true }
{}

/// The written text of sids is parsed as these sids, if each has at least one interval, and each interval is
/// valid and ends below 2^63.
pub fn gtid_set_text_round_trips()
    ensures read { (sids : List Sid) → SidsInSet sids → read_sids (set_text sids) ≡ Ok sids }
{}

/// The written text of sids that were parsed from a text is parsed as these sids.
#[tactic(auto, using(crate::proofs::GtidSetReadAgain::sets_read_again))]
pub fn read_gtid_set_text_round_trips()
    ensures read { (text : List ℕ) (sids : List Sid) → AreSids sids → read_sids text ≡ Ok sids → read_sids (set_text sids) ≡ Ok sids }
{}

/// The text of a GTID set is parsed as the sids of its entries, each with the intervals after it, or returns
/// the first error among them; and each sid has the number of intervals that follow.
#[tactic(auto, using(crate::proofs::GtidEntriesRead::entries_read))]
pub fn gtid_set_entries_are_read()
    ensures read { (text : List ℕ) → sids_of (text_entries text) ≡ alone (read_sids text) }
    ensures counted { (text : List ℕ) (sids : List Sid) → read_sids text ≡ Ok sids → counts (text_entries text) ≡ map (λ s. length (intervals s)) sids }
{}

/// A text is a tag exactly if it has no error of [`InvalidTag`](crate::InvalidTag).
#[tactic(auto, using(crate::proofs::Tags::tag_faults))]
pub fn tag_has_no_fault()
    ensures none { (text : List ℕ) → IsTag text → tag_fault text ≡ None }
    ensures tag { (text : List ℕ) → IsUtf8 text → tag_fault text ≡ None → IsTag text }
{}

/// A request is written as the bytes of its command, after the bytes that the buffer had. If an allocation
/// fails, the buffer is unchanged.
///
/// This law makes the two calls.
#[tactic(auto, using(crate::proofs::RequestBytes::commands_written))]
pub fn request_written(request: &BinlogRequest<'_>, out: &mut Vec<u8>) -> Result<(), AllocError>
    ensures written { OnOk result (out.new.items ≡ out.old.items ++ request_bytes request.now) }
    ensures refused { OnErr result (out.new.items ≡ out.old.items) }
{
    request.as_cmd().serialize(out)
}

/// Tags, intervals and sids compare equal exactly if they have the same value, borrowed or owned.
#[tactic(auto, using(crate::proofs::EqualRequests::equal_requests))]
pub fn equal_sids_are_the_same()
    ensures tag { (x y : List ℕ) → IsTrue (⟦<Tag<'static> as PartialEq>⟧.eq x y) ↔ (x ≡ y) }
    ensures interval { (x y : GnoInterval) → IsTrue (⟦<crate::gno_interval::GnoInterval as PartialEq>⟧.eq x y) ↔ (x ≡ y) }
    ensures sid { (x y : Sid) → IsTrue (⟦<crate::sid::Sid<'static> as PartialEq>⟧.eq x y) ↔ (x ≡ y) }
    ensures intervals { (xs ys : List GnoInterval) → IsTrue (⟦<crate::intervals_ref::IntervalsRef<'static> as PartialEq>⟧.eq xs ys) ↔ (xs ≡ ys) }
    ensures sids { (xs ys : List Sid) → IsTrue (⟦<crate::sids_ref::SidsRef<'static> as PartialEq>⟧.eq xs ys) ↔ (xs ≡ ys) }
{}

/// Requests compare equal exactly if they have the same value.
#[tactic(auto, using(crate::proofs::EqualRequests::equal_requests))]
pub fn equal_requests_are_the_same()
    ensures registration { (x y : ComRegisterSlave) → IsTrue (⟦<crate::register_slave::ComRegisterSlave<'static> as PartialEq>⟧.eq x y) ↔ (x ≡ y) }
    ensures table_dump { (x y : ComTableDump) → IsTrue (⟦<crate::table_dump::ComTableDump<'static> as PartialEq>⟧.eq x y) ↔ (x ≡ y) }
    ensures binlog_dump { (x y : ComBinlogDump) → IsTrue (⟦<crate::binlog_dump::ComBinlogDump<'static> as PartialEq>⟧.eq x y) ↔ (x ≡ y) }
    ensures gtid_dump { (x y : ComBinlogDumpGtid) → IsTrue (⟦<crate::binlog_dump_gtid::ComBinlogDumpGtid<'static> as PartialEq>⟧.eq x y) ↔ (x ≡ y) }
    ensures request { (x y : BinlogRequest) → IsTrue (⟦<BinlogRequest<'static> as PartialEq>⟧.eq x y) ↔ (x ≡ y) }
    ensures ack { (x y : SemiSyncAckPacket) → IsTrue (⟦<crate::semi_sync_ack::SemiSyncAckPacket<'static> as PartialEq>⟧.eq x y) ↔ (x ≡ y) }
{}

/// Packets of a replication stream compare equal exactly if they have the same value.
#[tactic(auto, using(crate::proofs::EqualRequests::equal_requests))]
pub fn equal_stream_packets_are_the_same()
    ensures packet { (x y : BinlogStreamPacket) → IsTrue (⟦<crate::binlog_stream_packet::BinlogStreamPacket<'static> as PartialEq>⟧.eq x y) ↔ (x ≡ y) }
{}

/// Equal tags hash equally, borrowed or owned.
pub fn equal_tags_hash_equally()
    ensures hash { (x y : List ℕ) → ⟦<Tag<'static> as PartialEq>⟧.eq x y ≡ true → ⟦<Tag<'static> as Hash>⟧.hash_input x ≡ ⟦<Tag<'static> as Hash>⟧.hash_input y }
{}

/// A tag has at most 32 bytes.
pub fn tag_max_len() -> usize
    ensures value { result ≡ 32 }
{
    Tag::MAX_LEN
}

/// An interval takes 16 bytes, and nothing else has a constant size.
pub fn each_packet_has_its_size() -> bool
    ensures value { IsTrue result }
{
    crate::GnoInterval::SIZE == Some(16)
        && crate::ComRegisterSlave::<'static>::SIZE.is_none()
        && crate::ComTableDump::<'static>::SIZE.is_none()
        && crate::ComBinlogDump::<'static>::SIZE.is_none()
        && crate::SemiSyncAckPacket::<'static>::SIZE.is_none()
        && crate::BinlogStreamEvent::<'static>::SIZE.is_none()
        && crate::BinlogStreamPacket::<'static>::SIZE.is_none()
        && crate::Sid::<'static>::SIZE.is_none()
        && crate::ComBinlogDumpGtid::<'static>::SIZE.is_none()
}
