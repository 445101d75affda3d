//! The request for a binary log without the transactions of a GTID set.
#![tactic(auto, using(crate::proofs::Codes::codes))]

ghost use Rattle.std.specs.List.{list_all};
ghost use Rattle.std.specs.Prelude.{false, ◌≡◌, ◌<◌, [], is_some};
ghost use Rattle.mysql_repl.specs.BinlogDumpGtid as dump;
ghost use Rattle.mysql_repl.specs.TagString.{tag_of};
ghost use Rattle.mysql_wire.specs.FlagMasks.{BINLOG_THROUGH_GTID};
ghost use Rattle.mysql_wire.specs.Flags.{switched};
ghost use Rattle.mysql_packets_c.specs.Code.{ReadsInto};
ghost use Rattle.mysql_packets_c.specs.Given.{is_set};
ghost use Rattle.mysql_packets_c.specs.GtidDump.{PutsDump, dump_with, KeepsOthers, IsGtidDump, SidsStand};
ghost use Rattle.mysql_packets_c.specs.Sid as spec;

use crate::code::{INVALID_INPUT, OK, code_of};
use crate::input::read;
use crate::output::put_packet;
use crate::sid::CSid;
use crate::sid_block::WrittenSids;
use mysql_repl::{BinlogDumpFlags, ComBinlogDumpGtidHeader, ComBinlogDumpGtidRef, SidsRef, Tag};
use mysql_wire::{
    Const, Flags, LeU16, LeU32, LeU64, Parts, RawBytes, RawInt, Sink, U32Bytes, parts,
};
use std::alloc::Global;
use std::borrow::{CowSlice, CowStr};
use std::str;

/// `myp_gtid_dump` of the C header.
#[repr(C)]
#[derive(Drop)]
pub struct CGtidDump<'a> {
    pub file_name: &'a [u8],
    pub sids: &'a [u8],
    pub n_sids: u64,
    pub position: u64,
    pub used: usize,
    pub server_id: u32,
    pub flags: u16,
    pub is_tagged: u8,
}

/// Returns 1 if the sids are in the form with tags, otherwise 0.
fn as_number(tagged: bool) -> u8
    ensures value { is_set result ≡ tagged }
    ensures flag { result < 2 }
{
    if tagged { 1 } else { 0 }
}

/// Stores the sids of a request in the caller's struct.
fn put_sids<'a>(found: SidsRef<'a>, out: &mut CGtidDump<'a>)
    ensures value { SidsStand found.entry out.new }
    ensures flag { out.new.is_tagged < 2 }
    ensures others { KeepsOthers out.old out.new }
{
    let (sids, is_tagged) = found.as_bytes();
    out.sids = sids;
    out.n_sids = found.left();
    out.is_tagged = as_number(is_tagged);
}

/// Reads `COM_BINLOG_DUMP_GTID`. After an error (1 or 2) the struct is unchanged.
#[unsafe(no_mangle)]
pub extern "C" fn myp_read_gtid_dump<'a>(
    alloc: Global,
    packet: &'a [u8],
    out: &mut CGtidDump<'a>,
) -> u32
    ensures value { ReadsInto (IsGtidDump packet.now) ((dump.gtid_dump.form false).reads packet.now) result out.old out.new }
{
    match read::<ComBinlogDumpGtidRef<'a>>(alloc, packet, ()) {
        Ok((found, used)) => {
            out.file_name = found.filename_raw();
            out.position = found.pos();
            out.used = used;
            out.server_id = found.server_id();
            out.flags = found.flags().0;
            put_sids(found.sids(), out);
            OK
        }
        Err(fault) => code_of(&fault),
    }
}

/// Returns the tag of some bytes, no tag if there are no bytes, or nothing if they are no tag.
pub(crate) fn tag_in(bytes: &[u8]) -> Option<Option<Tag<'_>>>
    ensures value { result ≡ tag_of bytes.now }
{
    if bytes.is_empty() {
        return Some(None);
    }
    let Ok(text) = str::from_utf8(bytes) else {
        return None;
    };
    match Tag::new(CowStr::Borrowed(text)) {
        Ok(tag) => Some(Some(tag)),
        Err(_) => None,
    }
}

/// Returns the tag of a sid, or nothing if its bytes are no tag.
#[tactic(auto, unfolding(crate::specs::Sid::tag_held))]
pub(crate) fn tag_held<'b>(sid: &'b CSid<'_>) -> Option<Option<Tag<'b>>>
    ensures value { result ≡ spec.tag_held sid.now }
{
    let n = usize::from(sid.tag_length);
    if n > 32 {
        return None;
    }
    tag_in(&sid.tag[..n])
}

/// Whether the tag of each sid is valid or absent.
pub(crate) fn are_tagged(sids: &[CSid<'_>]) -> bool
    ensures { result ≡ list_all (λ s. is_some (spec.tag_held s)) sids.now }
{
    sids.iter().all(|sid| tag_held(sid).is_some())
}

/// Returns the flags, with BINLOG_THROUGH_GTID set exactly if there is a sid.
pub(crate) fn through_gtid(bits: u16, some: bool) -> BinlogDumpFlags
    ensures { result.0 ≡ switched 16 some BINLOG_THROUGH_GTID (dump.through_gtid [] bits) }
{
    let mut flags = BinlogDumpFlags::from_bits_retain(bits);
    flags.set(BinlogDumpFlags::BINLOG_THROUGH_GTID, false);
    flags.set(BinlogDumpFlags::BINLOG_THROUGH_GTID, some);
    flags
}

/// The flags of a request with these sids.
#[tactic(auto, using(crate::proofs::WrittenSids::written_sids))]
fn flags_of(bits: u16, sids: &[CSid<'_>]) -> BinlogDumpFlags
    ensures { result.0 ≡ dump.through_gtid (spec.sids_or sids.now) (dump.through_gtid [] bits) }
{
    through_gtid(bits, !sids.is_empty())
}

/// A request with these fields.
#[derive(Drop)]
struct WrittenDump<'b, 'a> {
    dump: &'b CGtidDump<'b>,
    sids: &'b [CSid<'a>],
}

#[tactic(auto, using(mysql_wire::proofs::Packets::packets, crate::proofs::WrittenSids::written_sids), unfolding(mysql_repl::specs::BinlogDumpGtid::gtid_dump))]
impl Parts for WrittenDump<'_, '_> {
    ghost use Rattle.mysql_repl.specs.BinlogDumpGtid.{gtid_dump};
    ghost use Rattle.mysql_packets_c.specs.GtidDump.{dump_with};
    ghost use Rattle.mysql_packets_c.specs.Sid.{sids_or};

    ghost bytes = { λ d. gtid_dump.bytes (dump_with d.dump.now (sids_or d.sids.now)) };

    #[inline(always)]
    fn put<S: Sink>(&self, sink: &mut S) {
        let header = ComBinlogDumpGtidHeader::new();
        let flags = Const::<BinlogDumpFlags, LeU16>::new(flags_of(self.dump.flags, self.sids));
        let server_id = RawInt::<LeU32>::new(self.dump.server_id);
        let head = parts!(header, flags, server_id);
        let file_name = RawBytes::<U32Bytes>::new(CowSlice::Borrowed(self.dump.file_name));
        let position = RawInt::<LeU64>::new(self.dump.position);
        let sids = WrittenSids(self.sids);
        sink.part(&parts!(head, file_name, position, sids));
    }
}

/// Writes `COM_BINLOG_DUMP_GTID`. Errors: 5 if the buffer is too small, with the length needed; 4 if the length
/// overflows; 3 for an invalid tag.
#[tactic(auto, using(crate::proofs::Codes::codes, crate::proofs::WrittenSids::held_sids))]
#[unsafe(no_mangle)]
pub extern "C" fn myp_write_gtid_dump(
    dump: &CGtidDump<'_>,
    sids: &[CSid<'_>],
    out: &mut [u8],
    written: &mut usize,
) -> u32
    ensures value { PutsDump (spec.sids_held sids.now) (dump_with dump.now) result out.old out.new written.new }
{
    if !are_tagged(sids) {
        *written = 0;
        return INVALID_INPUT;
    }
    put_packet(&WrittenDump { dump, sids }, out, written)
}
