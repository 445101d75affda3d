//! Handshakes, and what clients answer to them.

use crate::packets::Packets;
use mysql_auth::{HandshakePacket, HandshakeResponse};
use mysql_wire::{Fault, MySerialize, ParseBuf};
use std::alloc::Global;

fn read(alloc: Global, packet: &[u8]) -> Result<HandshakePacket<'_>, Fault> {
    ParseBuf::new(alloc, packet).parse(())
}

/// Reads handshakes, and answers a sum over their fields.
#[unsafe(no_mangle)]
pub extern "C" fn bench_handshakes_read(alloc: Global, batch: &[u8]) -> u64 {
    let mut sum = 0u64;
    for packet in Packets::new(batch) {
        if let Ok(handshake) = read(alloc, packet) {
            sum = sum.wrapping_add(u64::from(handshake.connection_id()));
            sum = sum.wrapping_add(handshake.server_version_ref().len() as u64);
            if let Some(name) = handshake.auth_plugin_name_ref() {
                sum = sum.wrapping_add(name.len() as u64);
            }
        }
    }
    sum
}

/// Reads handshakes and writes each again, and answers how many bytes were written.
#[unsafe(no_mangle)]
pub extern "C" fn bench_handshakes_written(alloc: Global, batch: &[u8]) -> u64 {
    let Ok(mut out) = Vec::with_capacity(alloc, batch.len()) else {
        return 0;
    };
    for packet in Packets::new(batch) {
        if let Ok(handshake) = read(alloc, packet) {
            let _ = handshake.serialize(&mut out);
        }
    }
    out.len() as u64
}

fn read_response(alloc: Global, packet: &[u8]) -> Result<HandshakeResponse<'_>, Fault> {
    ParseBuf::new(alloc, packet).parse(())
}

/// Reads responses to handshakes and writes each again, and answers how many bytes were written.
#[unsafe(no_mangle)]
pub extern "C" fn bench_responses_written(alloc: Global, batch: &[u8]) -> u64 {
    let Ok(mut out) = Vec::with_capacity(alloc, batch.len()) else {
        return 0;
    };
    for packet in Packets::new(batch) {
        if let Ok(response) = read_response(alloc, packet) {
            let _ = response.serialize(&mut out);
        }
    }
    out.len() as u64
}
