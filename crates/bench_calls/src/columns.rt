//! Columns.

use crate::packets::Packets;
use mysql_replies::{Column, ColumnRef};
use mysql_wire::{Fault, MySerialize, ParseBuf};
use std::alloc::Global;

fn read(alloc: Global, packet: &[u8]) -> Result<Column, Fault> {
    ParseBuf::new(alloc, packet).parse(())
}

/// Reads columns, and answers a sum over their fields.
#[unsafe(no_mangle)]
pub extern "C" fn bench_columns_read(alloc: Global, batch: &[u8]) -> u64 {
    let mut sum = 0u64;
    for packet in Packets::new(batch) {
        if let Ok(column) = read(alloc, packet) {
            sum = sum.wrapping_add(u64::from(column.column_length()));
            sum = sum.wrapping_add(column.org_name_ref().len() as u64);
        }
    }
    sum
}

fn read_borrowed<'a>(alloc: Global, packet: &'a [u8]) -> Result<ColumnRef<'a>, Fault> {
    ParseBuf::new(alloc, packet).parse(())
}

/// Reads columns whose names stay in their packets, and answers a sum over their fields.
#[unsafe(no_mangle)]
pub extern "C" fn bench_columns_borrowed(alloc: Global, batch: &[u8]) -> u64 {
    let mut sum = 0u64;
    for packet in Packets::new(batch) {
        if let Ok(column) = read_borrowed(alloc, packet) {
            sum = sum.wrapping_add(u64::from(column.column_length()));
            sum = sum.wrapping_add(column.org_name().len() as u64);
        }
    }
    sum
}

/// Reads columns and writes each again, and answers how many bytes were written.
#[unsafe(no_mangle)]
pub extern "C" fn bench_columns_written(alloc: Global, batch: &[u8]) -> u64 {
    let Ok(mut out) = Vec::with_capacity(alloc, batch.len()) else {
        return 0;
    };
    for packet in Packets::new(batch) {
        if let Ok(column) = read(alloc, packet) {
            let _ = column.serialize(&mut out);
        }
    }
    out.len() as u64
}
