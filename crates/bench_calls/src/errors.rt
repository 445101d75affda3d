//! Errors.

use crate::packets::Packets;
use mysql_replies::ErrPacket;
use mysql_wire::{CapabilityFlags, Fault, MySerialize, ParseBuf};
use std::alloc::Global;

fn read(alloc: Global, packet: &[u8]) -> Result<ErrPacket<'_>, Fault> {
    ParseBuf::new(alloc, packet).parse(CapabilityFlags::CLIENT_PROTOCOL_41)
}

/// Reads errors with an SQL state, and answers a sum over their fields.
#[unsafe(no_mangle)]
pub extern "C" fn bench_errors_read(alloc: Global, batch: &[u8]) -> u64 {
    let mut sum = 0u64;
    for packet in Packets::new(batch) {
        if let Ok(ErrPacket::Error(error)) = read(alloc, packet) {
            sum = sum.wrapping_add(u64::from(error.error_code()));
            sum = sum.wrapping_add(error.message_ref().len() as u64);
        }
    }
    sum
}

/// Reads errors and writes each again, and answers how many bytes were written.
#[unsafe(no_mangle)]
pub extern "C" fn bench_errors_written(alloc: Global, batch: &[u8]) -> u64 {
    let Ok(mut out) = Vec::with_capacity(alloc, batch.len()) else {
        return 0;
    };
    for packet in Packets::new(batch) {
        if let Ok(error) = read(alloc, packet) {
            let _ = error.serialize(&mut out);
        }
    }
    out.len() as u64
}
