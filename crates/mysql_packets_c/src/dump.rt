//! The request for a binary log.
#![tactic(auto, using(crate::proofs::Codes::codes))]

ghost use Rattle.std.specs.Prelude.{◌≡◌, ◌≢◌};
ghost use Rattle.mysql_repl.specs.BinlogDump.{binlog_dump};
ghost use Rattle.mysql_packets_c.specs.Code.{ReadsInto};
ghost use Rattle.mysql_packets_c.specs.Dump.{IsDump, request_of};
ghost use Rattle.mysql_packets_c.specs.Output.{Puts};

use crate::code::{OK, code_of};
use crate::input::read;
use crate::output::put_packet;
use mysql_repl::{BinlogDumpFlags, ComBinlogDump, ComBinlogDumpRef};
use mysql_wire::Flags;
use std::alloc::Global;
use std::borrow::CowSlice;

/// `myp_dump` of the C header.
#[repr(C)]
#[derive(Drop)]
pub struct CDump<'a> {
    pub file_name: &'a [u8],
    pub server_id: u32,
    pub position: u32,
    pub flags: u16,
}

/// Reads `COM_BINLOG_DUMP`. After an error (1 or 2) the struct is unchanged.
#[unsafe(no_mangle)]
pub extern "C" fn myp_read_dump<'a>(alloc: Global, packet: &'a [u8], out: &mut CDump<'a>) -> u32
    ensures value { ReadsInto IsDump ((binlog_dump.form tt).reads packet.now) result out.old out.new }
{
    match read::<ComBinlogDumpRef<'a>>(alloc, packet, ()) {
        Ok((found, _used)) => {
            out.file_name = found.filename_raw();
            out.server_id = found.server_id();
            out.position = found.pos();
            out.flags = found.flags().0;
            OK
        }
        Err(fault) => code_of(&fault),
    }
}

/// Writes `COM_BINLOG_DUMP`. If the buffer is too small (5), `written` is the length needed.
#[tactic(auto, using(crate::proofs::Codes::codes), unfolding(mysql_repl::specs::BinlogDump::binlog_dump, mysql_wire::specs::Writing::le_bytes))]
#[unsafe(no_mangle)]
pub extern "C" fn myp_write_dump(dump: &CDump<'_>, out: &mut [u8], written: &mut usize) -> u32
    ensures { Puts (binlog_dump.bytes (request_of dump.now)) result out.old out.new written.new }
{
    let packet = ComBinlogDump::new(dump.server_id)
        .with_pos(dump.position)
        .with_flags(BinlogDumpFlags::from_bits_retain(dump.flags))
        .with_filename(CowSlice::Borrowed(dump.file_name));
    put_packet(&packet, out, written)
}
