//! Statement packets.

use mysql_stmt::StmtPacket;
use mysql_wire::{Fault, MySerialize, ParseBuf};
use std::alloc::Global;

const SIZE: usize = 12;

/// Reads statement packets, and answers the sum of their fields.
#[unsafe(no_mangle)]
pub extern "C" fn bench_statements_read(alloc: Global, bytes: &[u8]) -> u64 {
    let mut buf = ParseBuf::new(alloc, bytes);
    let mut sum = 0u64;
    for _ in 0..bytes.len() / SIZE {
        let read: Result<StmtPacket, Fault> = buf.parse(());
        if let Ok(packet) = read {
            let counts = u64::from(packet.num_columns())
                + u64::from(packet.num_params())
                + u64::from(packet.warning_count());
            sum = sum.wrapping_add(u64::from(packet.statement_id()) + counts);
        }
    }
    sum
}

/// Reads statement packets and writes each again, and answers how many bytes were written.
#[unsafe(no_mangle)]
pub extern "C" fn bench_statements_written(alloc: Global, bytes: &[u8]) -> u64 {
    let mut buf = ParseBuf::new(alloc, bytes);
    let Ok(mut out) = Vec::with_capacity(alloc, bytes.len()) else {
        return 0;
    };
    for _ in 0..bytes.len() / SIZE {
        let read: Result<StmtPacket, Fault> = buf.parse(());
        if let Ok(packet) = read {
            let _ = packet.serialize(&mut out);
        }
    }
    out.len() as u64
}
