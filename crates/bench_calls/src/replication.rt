//! What a replica sends.

use crate::packets::Packets;
use mysql_repl::{ComBinlogDumpGtid, ComRegisterSlave};
use mysql_wire::{Fault, MySerialize, ParseBuf};
use std::alloc::Global;

fn read_registration(alloc: Global, packet: &[u8]) -> Result<ComRegisterSlave<'_>, Fault> {
    ParseBuf::new(alloc, packet).parse(())
}

fn read_dump(alloc: Global, packet: &[u8]) -> Result<ComBinlogDumpGtid<'_>, Fault> {
    ParseBuf::new(alloc, packet).parse(())
}

/// Reads registrations and writes each again, and answers how many bytes were written.
#[unsafe(no_mangle)]
pub extern "C" fn bench_registrations_written(alloc: Global, batch: &[u8]) -> u64 {
    let Ok(mut out) = Vec::with_capacity(alloc, batch.len()) else {
        return 0;
    };
    for packet in Packets::new(batch) {
        if let Ok(registration) = read_registration(alloc, packet) {
            let _ = registration.serialize(&mut out);
        }
    }
    out.len() as u64
}

/// Reads dumps by GTID set, and answers how many intervals their sids have.
#[unsafe(no_mangle)]
pub extern "C" fn bench_gtid_dumps_read(alloc: Global, batch: &[u8]) -> u64 {
    let mut sum = 0u64;
    for packet in Packets::new(batch) {
        if let Ok(dump) = read_dump(alloc, packet) {
            for sid in dump.sids() {
                sum = sum.wrapping_add(sid.intervals().len() as u64);
            }
        }
    }
    sum
}

/// Reads dumps by GTID set and writes each again, and answers how many bytes were written.
#[unsafe(no_mangle)]
pub extern "C" fn bench_gtid_dumps_written(alloc: Global, batch: &[u8]) -> u64 {
    let Ok(mut out) = Vec::with_capacity(alloc, batch.len()) else {
        return 0;
    };
    for packet in Packets::new(batch) {
        if let Ok(dump) = read_dump(alloc, packet) {
            let _ = dump.serialize(&mut out);
        }
    }
    out.len() as u64
}
