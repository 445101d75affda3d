//! OK packets with a session's state.

use crate::packets::Packets;
use mysql_replies::{CommonOkPacket, OkPacketDeserializer, OkPacketRefDeserializer};
use mysql_session::{ChangeRef, SessionStateChange};
use mysql_wire::{CapabilityFlags, Fault, ParseBuf};
use std::alloc::Global;

fn sum_of(alloc: Global, packet: &[u8]) -> Result<u64, Fault> {
    let mut buf = ParseBuf::new(alloc, packet);
    let ok: OkPacketDeserializer<'_, CommonOkPacket> = buf.parse(
        CapabilityFlags::CLIENT_SESSION_TRACK,
    )?;
    let ok = ok.into_inner();
    let mut sum = ok.affected_rows();
    for info in ok.session_state_info(alloc)?.as_slice() {
        let change: SessionStateChange<'_> = info.decode(alloc)?;
        sum = sum.wrapping_add(match change {
            SessionStateChange::SystemVariables(_) => 1,
            SessionStateChange::Schema(schema) => schema.as_bytes().len() as u64,
            _ => 0,
        });
    }
    Ok(sum)
}

/// Reads OK packets down to the changes of the session's state, and answers a sum over their fields.
#[unsafe(no_mangle)]
pub extern "C" fn bench_ok_packets_read(alloc: Global, batch: &[u8]) -> u64 {
    let mut sum = 0u64;
    for packet in Packets::new(batch) {
        sum = sum.wrapping_add(sum_of(alloc, packet).unwrap_or(0));
    }
    sum
}

fn sum_in_place(alloc: Global, packet: &[u8]) -> Result<u64, Fault> {
    let mut buf = ParseBuf::new(alloc, packet);
    let ok: OkPacketRefDeserializer<'_, CommonOkPacket> = buf.parse(
        CapabilityFlags::CLIENT_SESSION_TRACK,
    )?;
    let ok = ok.into_inner();
    let mut sum = ok.affected_rows();
    for change in ok.session_state_changes() {
        sum = sum.wrapping_add(match change?.into_change() {
            ChangeRef::SystemVariables(_) => 1,
            ChangeRef::Schema(schema) => schema.len() as u64,
            _ => 0,
        });
    }
    Ok(sum)
}

/// Reads OK packets down to the changes of the session's state, where they lie, and answers a sum over their fields.
#[unsafe(no_mangle)]
pub extern "C" fn bench_ok_packets_viewed(alloc: Global, batch: &[u8]) -> u64 {
    let mut sum = 0u64;
    for packet in Packets::new(batch) {
        sum = sum.wrapping_add(sum_in_place(alloc, packet).unwrap_or(0));
    }
    sum
}
