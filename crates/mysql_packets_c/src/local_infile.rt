//! The server's request for a file of the client.
#![tactic(auto, using(crate::proofs::Codes::codes))]

ghost use Rattle.std.specs.Prelude.{◌≡◌, ◌≢◌};
ghost use Rattle.mysql_replies.specs.LocalInfile.{local_infile, request_for};
ghost use Rattle.mysql_packets_c.specs.Code.{ReadsInto};
ghost use Rattle.mysql_packets_c.specs.LocalInfile.{IsInfile};
ghost use Rattle.mysql_packets_c.specs.Output.{Puts};

use crate::code::{OK, code_of};
use crate::input::read;
use crate::output::put_packet;
use crate::text::CBytes;
use mysql_replies::{LocalInfilePacket, LocalInfilePacketRef};
use std::alloc::Global;
use std::borrow::CowSlice;

/// Reads the file's name from a `LOCAL INFILE` request. After an error (1 or 2) the output is unchanged.
#[unsafe(no_mangle)]
pub extern "C" fn myp_read_local_infile<'a>(
    alloc: Global,
    packet: &'a [u8],
    file_name: &mut CBytes<'a>,
) -> u32
    ensures value { ReadsInto IsInfile ((local_infile.form tt).reads packet.now) result file_name.old file_name.new }
{
    match read::<LocalInfilePacketRef<'a>>(alloc, packet, ()) {
        Ok((request, _used)) => {
            file_name.bytes = request.file_name();
            OK
        }
        Err(fault) => code_of(&fault),
    }
}

/// Writes a `LOCAL INFILE` request. If the buffer is too small (5), `written` is the length needed.
#[tactic(auto, using(crate::proofs::Codes::codes), unfolding(mysql_replies::specs::LocalInfile::local_infile, mysql_wire::specs::Writing::le_bytes))]
#[unsafe(no_mangle)]
pub extern "C" fn myp_write_local_infile(
    file_name: &[u8],
    out: &mut [u8],
    written: &mut usize,
) -> u32
    ensures { Puts (local_infile.bytes (request_for file_name.now)) result out.old out.new written.new }
{
    let packet = LocalInfilePacket::new(CowSlice::Borrowed(file_name));
    put_packet(&packet, out, written)
}
