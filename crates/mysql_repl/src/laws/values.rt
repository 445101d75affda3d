//! Laws on a given value: facts about a packet that a caller has created or read.
//!
//! Each function reads the numbers of its value, which shows that they fit their widths.

ghost use Rattle.std.specs.Prelude.{◌≡◌, ◌++◌, ◌<◌, ◌^◌, [], ℕ, List, None, Ok, length, true, false};
ghost use Rattle.std.specs.List.{All};
ghost use Rattle.mysql_repl.specs.BinlogDump.{binlog_dump};
ghost use Rattle.mysql_repl.specs.BinlogDumpGtid.{gtid_dump};
ghost use Rattle.mysql_repl.specs.BinlogStreamPacket.{stream_packet, StreamPacketPartsFit};
ghost use Rattle.mysql_repl.specs.GtidSetText.{read_sids};
ghost use Rattle.mysql_repl.specs.GtidSetWritten.{set_text};
ghost use Rattle.mysql_repl.specs.RegisterSlave.{register_slave, hostname, user, password};
ghost use Rattle.mysql_repl.specs.SemiSyncAck.{semi_sync_ack};
ghost use Rattle.mysql_repl.specs.ProperSid.{ProperIntervals};
ghost use Rattle.mysql_repl.specs.Sid as spec;
ghost use Rattle.mysql_repl.specs.SidGrammar.{SpellsSid};
ghost use Rattle.mysql_repl.specs.SidText.{read_sid, sid_text};
ghost use Rattle.mysql_repl.specs.TableDump.{table_dump, database, table};

use crate::binlog_dump::ComBinlogDump;
use crate::binlog_dump_gtid::ComBinlogDumpGtid;
use crate::binlog_stream_packet::BinlogStreamPacket;
use crate::register_slave::ComRegisterSlave;
use crate::semi_sync_ack::SemiSyncAckPacket;
use crate::sid::{Sid, UUID_LEN};
use crate::table_dump::ComTableDump;

/// This registration is read back, whatever bytes follow, if no string has more than 255 bytes.
pub fn this_register_slave_round_trips(registration: &ComRegisterSlave<'_>)
    ensures spelled { (rest : List ℕ) → length (hostname registration.now) < 2 ^ 8 → length (user registration.now) < 2 ^ 8 → length (password registration.now) < 2 ^ 8
        → (register_slave.form tt).Spells registration.now (register_slave.bytes registration.now ++ rest) rest }
{
    let _server_id = registration.server_id();
    let _port = registration.port();
    let _replication_rank = registration.replication_rank();
    let _master_id = registration.master_id();
}

/// This request for a table is read back, whatever bytes follow, if no name has more than 255 bytes.
#[tactic(auto, using(crate::proofs::Fits::plain_fits))]
pub fn this_table_dump_round_trips(request: &ComTableDump<'_>)
    ensures spelled { (rest : List ℕ) → length (database request.now) < 2 ^ 8 → length (table request.now) < 2 ^ 8
        → (table_dump.form tt).Spells request.now (table_dump.bytes request.now ++ rest) rest }
{}

/// This dump by position is read back if nothing follows.
pub fn this_binlog_dump_round_trips(dump: &ComBinlogDump<'_>)
    ensures spelled { (binlog_dump.form tt).Spells dump.now (binlog_dump.bytes dump.now) [] }
{
    let _pos = dump.pos();
    let _flags = dump.flags();
    let _server_id = dump.server_id();
}

/// This acknowledgement is read back if nothing follows.
pub fn this_semi_sync_ack_round_trips(ack: &SemiSyncAckPacket<'_>)
    ensures spelled { (semi_sync_ack.form tt).Spells ack.now (semi_sync_ack.bytes ack.now) [] }
{
    let _position = ack.position();
}

/// This packet of a stream is read back if nothing follows: with the header of semi-synchronous replication if
/// that is agreed on, otherwise without it.
#[tactic(auto, using(crate::proofs::StreamFits::streams))]
pub fn this_binlog_stream_packet_round_trips(agreed: bool, packet: &BinlogStreamPacket<'_>)
    ensures spelled { StreamPacketPartsFit agreed packet.now → (stream_packet.form agreed).Spells packet.now (stream_packet.bytes packet.now) [] }
{
    if let BinlogStreamPacket::Event(event) = packet {
        let _wants_ack = event.wants_ack();
    }
}

/// This sid is read back, whatever bytes follow, in the form without tags if it has no tag, and in the form with tags.
pub fn this_sid_round_trips(sid: &Sid<'_>)
    ensures untagged { (rest : List ℕ) → spec.tag sid.now ≡ None → (spec.sid.form tt).Spells sid.now (spec.sid.bytes sid.now ++ rest) rest }
    ensures tagged { (rest : List ℕ) → (spec.tagged_sid.form tt).Spells sid.now (spec.tagged_sid.bytes sid.now ++ rest) rest }
{
    is_sid(sid);
}

/// A sid is valid: its uuid has sixteen bytes, its tag is a tag, and its numbers fit their widths.
fn is_sid(sid: &Sid<'_>)
    ensures value { spec.IsSid sid.now }
{
    let _uuid = sid.uuid();
    let _tag = sid.tag();
    for interval in sid.intervals() {
        let _start = interval.start();
        let _end = interval.end();
    }
}

/// The sids of a list are valid.
fn are_sids(sids: &[Sid<'_>])
    ensures value { spec.AreSids sids.now }
{
    for sid in sids {
        is_sid(sid);
    }
}

/// This dump by GTID set is read back, whatever bytes follow, by either reader, if it is written in less than
/// 2^32 bytes.
pub fn this_binlog_dump_gtid_round_trips(dump: &ComBinlogDumpGtid<'_>)
    ensures lenient { (rest : List ℕ) → length (gtid_dump.bytes dump.now) < 2 ^ 32 → (gtid_dump.form false).Spells dump.now (gtid_dump.bytes dump.now ++ rest) rest }
    ensures strict { (rest : List ℕ) → length (gtid_dump.bytes dump.now) < 2 ^ 32 → (gtid_dump.form true).Spells dump.now (gtid_dump.bytes dump.now ++ rest) rest }
{
    let _flags = dump.flags();
    let _server_id = dump.server_id();
    let _pos = dump.pos();
    are_sids(dump.sids());
}

/// The written text of this sid is parsed as this sid, if it has at least one interval, and each is valid.
pub fn this_sid_text_round_trips(sid: &Sid<'_>)
    ensures spelled { ProperIntervals (spec.intervals sid.now) → SpellsSid (sid_text sid.now) sid.now }
    ensures read { ProperIntervals (spec.intervals sid.now) → read_sid (sid_text sid.now) ≡ Ok sid.now }
{
    is_sid(sid);
    has_bytes(sid.uuid());
}

/// The written text of these sids is parsed as these sids, if they were parsed from a text.
#[inline]
#[tactic(auto, using(crate::proofs::GtidSetReadAgain::sets_read_again))]
pub fn this_gtid_set_text_round_trips(sids: &[Sid<'_>])
    ensures read { (text : List ℕ) → read_sids text ≡ Ok sids.now → read_sids (set_text sids.now) ≡ Ok sids.now }
{
    are_sids(sids);
}

/// The items of an array of bytes are bytes.
fn has_bytes(array: [u8; UUID_LEN])
    ensures value { All (λ b. b < 256) array }
{
    for byte in &array {
        let _byte = *byte;
    }
}
