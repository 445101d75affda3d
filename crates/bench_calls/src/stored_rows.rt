//! Rows that are kept after their packets are gone.

use crate::packets::Packets;
use crate::row_views::part;
use crate::rows::ten_columns;
use mysql_replies::Column;
use mysql_stmt::{BinaryRowView, StoredRow};
use mysql_values::ServerSide;
use mysql_wire::{Fault, ParseBuf};
use std::alloc::Global;

fn sum_of(row: &StoredRow) -> u64 {
    let mut sum = 0u64;
    for place in 0..row.len() {
        if let Some(value) = row.value(place) {
            sum = sum.wrapping_add(part(value));
        }
    }
    sum
}

fn stored(alloc: Global, columns: &[Column], packet: &[u8]) -> Result<StoredRow, Fault> {
    let view: BinaryRowView<'_, '_, ServerSide, Column> = BinaryRowView::new(
        columns,
        ParseBuf::new(alloc, packet),
    )?;
    let mut row = StoredRow::new(alloc);
    row.store(view)?;
    Ok(row)
}

/// Stores binary rows of ten columns, each in a block of its own, and answers a sum over their values.
#[unsafe(no_mangle)]
pub extern "C" fn bench_rows_stored(alloc: Global, batch: &[u8]) -> u64 {
    let Ok(columns) = ten_columns(alloc) else {
        return 0;
    };
    let mut sum = 0u64;
    for packet in Packets::new(batch) {
        if let Ok(row) = stored(alloc, &columns, packet) {
            sum = sum.wrapping_add(sum_of(&row)).wrapping_add(1);
        }
    }
    sum
}
