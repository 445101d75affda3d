//! Data that is sent ahead of an execution.
#![tactic(auto, using(crate::proofs::Codes::codes))]

ghost use Rattle.std.specs.Prelude.{◌≡◌, ◌≢◌};
ghost use Rattle.mysql_stmt.specs.LongData.{long_data};
ghost use Rattle.mysql_packets_c.specs.Code.{ReadsInto};
ghost use Rattle.mysql_packets_c.specs.LongData.{IsLongData, packet_of};
ghost use Rattle.mysql_packets_c.specs.Output.{Puts};

use crate::code::{OK, code_of};
use crate::input::read;
use crate::output::put_packet;
use mysql_stmt::{ComStmtSendLongData, ComStmtSendLongDataRef};
use std::alloc::Global;
use std::borrow::CowSlice;

/// `myp_long_data` of the C header.
#[repr(C)]
#[derive(Drop)]
pub struct CLongData<'a> {
    pub content: &'a [u8],
    pub statement_id: u32,
    pub param_index: u16,
}

/// Reads `COM_STMT_SEND_LONG_DATA`. After an error (1 or 2) the struct is unchanged.
#[unsafe(no_mangle)]
pub extern "C" fn myp_read_long_data<'a>(
    alloc: Global,
    packet: &'a [u8],
    out: &mut CLongData<'a>,
) -> u32
    ensures value { ReadsInto IsLongData ((long_data.form tt).reads packet.now) result out.old out.new }
{
    match read::<ComStmtSendLongDataRef<'a>>(alloc, packet, ()) {
        Ok((found, _used)) => {
            out.content = found.data();
            out.statement_id = found.stmt_id();
            out.param_index = found.param_index();
            OK
        }
        Err(fault) => code_of(&fault),
    }
}

/// Writes `COM_STMT_SEND_LONG_DATA`. If the buffer is too small (5), `written` is the length needed.
#[tactic(auto, using(crate::proofs::Codes::codes), unfolding(mysql_stmt::specs::LongData::long_data, mysql_wire::specs::Writing::le_bytes))]
#[unsafe(no_mangle)]
pub extern "C" fn myp_write_long_data(
    part: &CLongData<'_>,
    out: &mut [u8],
    written: &mut usize,
) -> u32
    ensures { Puts (long_data.bytes (packet_of part.now)) result out.old out.new written.new }
{
    let packet = ComStmtSendLongData::new(
        part.statement_id,
        part.param_index,
        CowSlice::Borrowed(part.content),
    );
    put_packet(&packet, out, written)
}
