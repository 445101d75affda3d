//! The acknowledgement of semi-synchronous replication.
#![tactic(auto, using(crate::proofs::Codes::codes))]

ghost use Rattle.std.specs.Prelude.{◌≡◌, [], Ok, IfErr, IfOk, false};
ghost use Rattle.mysql_repl.specs.SemiSyncAck.{ack_of, semi_sync_ack};
ghost use Rattle.mysql_wire.specs.Reading.{Faults};
ghost use Rattle.mysql_packets_c.specs.Code.{ReadsInto};
ghost use Rattle.mysql_packets_c.specs.Output.{Puts};
ghost use Rattle.mysql_packets_c.specs.SemiSyncAck.{IsAck, acknowledgement_of};

use crate::code::{OK, code_of};
use crate::output::put_packet;
use mysql_repl::{SemiSyncAckPacket, SemiSyncAckPacketPacketHeader};
use mysql_wire::{Fault, FixedInt, LeU64, ParseBuf};
use std::alloc::Global;
use std::borrow::CowSlice;

/// `myp_semi_sync_ack` of the C header.
#[repr(C)]
#[derive(Drop)]
pub struct CSemiSyncAck<'a> {
    pub file_name: &'a [u8],
    pub position: u64,
}

/// Reads the position and the name of the log.
#[inline(always)]
#[tactic(auto, using(mysql_wire::proofs::Packets::packets), unfolding(mysql_repl::specs::SemiSyncAck::semi_sync_ack, mysql_wire::specs::Int::raw))]
fn read_ack<'a>(alloc: Global, packet: &'a [u8]) -> Result<(u64, &'a [u8]), Fault>
    ensures read { IfOk result (λ x. (semi_sync_ack.form tt).reads packet.now ≡ Ok (ack_of x.0 x.1.now, [])) }
    ensures refused { IfErr result (λ e. Faults false e ((semi_sync_ack.form tt).reads packet.now)) }
{
    let mut rest = ParseBuf::new(alloc, packet);
    let mut head: ParseBuf<'a> = rest.parse(9)?;
    let _header: SemiSyncAckPacketPacketHeader = head.parse_unchecked(())?;
    Ok((LeU64::take(&mut head), rest.eat_all()))
}

/// Reads the acknowledgement of semi-synchronous replication. After an error (1 or 2) the struct is unchanged.
#[unsafe(no_mangle)]
pub extern "C" fn myp_read_semi_sync_ack<'a>(
    alloc: Global,
    packet: &'a [u8],
    out: &mut CSemiSyncAck<'a>,
) -> u32
    ensures value { ReadsInto IsAck ((semi_sync_ack.form tt).reads packet.now) result out.old out.new }
{
    match read_ack(alloc, packet) {
        Ok((position, file_name)) => {
            out.file_name = file_name;
            out.position = position;
            OK
        }
        Err(fault) => code_of(&fault),
    }
}

/// Writes the acknowledgement of semi-synchronous replication. If the buffer is too small (5), `written` is the length needed.
#[tactic(auto, using(crate::proofs::Codes::codes), unfolding(mysql_repl::specs::SemiSyncAck::semi_sync_ack, mysql_wire::specs::Writing::le_bytes))]
#[unsafe(no_mangle)]
pub extern "C" fn myp_write_semi_sync_ack(
    ack: &CSemiSyncAck<'_>,
    out: &mut [u8],
    written: &mut usize,
) -> u32
    ensures { Puts (semi_sync_ack.bytes (acknowledgement_of ack.now)) result out.old out.new written.new }
{
    let packet = SemiSyncAckPacket::new(ack.position, CowSlice::Borrowed(ack.file_name));
    put_packet(&packet, out, written)
}
