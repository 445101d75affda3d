//! Rows of a binary result.

use crate::packets::Packets;
use mysql_replies::Column;
use mysql_stmt::{Row, RowDeserializer};
use mysql_values::{Binary, ServerSide, Value};
use mysql_wire::{ColumnType, Fault, ParseBuf};
use std::alloc::{AllocError, Global};
use std::rc::RcSlice;

/// Columns of five numbers, and of five strings after them.
pub(crate) fn ten_columns(alloc: Global) -> Result<RcSlice<Column>, AllocError> {
    let mut columns = Vec::with_capacity(alloc, 10)?;
    for _ in 0..5 {
        columns.push(Column::new(ColumnType::MYSQL_TYPE_LONGLONG))?;
    }
    for _ in 0..5 {
        columns.push(Column::new(ColumnType::MYSQL_TYPE_VAR_STRING))?;
    }
    RcSlice::from_vec(columns)
}

fn read(alloc: Global, columns: &RcSlice<Column>, packet: &[u8]) -> Result<Row, Fault> {
    let mut buf = ParseBuf::new(alloc, packet);
    let row: RowDeserializer<ServerSide, Binary> = buf.parse(columns.clone()?)?;
    Ok(row.into_inner())
}

/// The sum of the numbers and of the lengths of the strings.
fn sum_of(row: &Row) -> u64 {
    let mut sum = 0u64;
    for place in 0..row.len() {
        sum = sum.wrapping_add(match row.as_ref(place) {
            Some(Value::Int(number)) => number.cast_unsigned(),
            Some(Value::Bytes(bytes)) => bytes.len() as u64,
            _ => 0,
        });
    }
    sum
}

/// Reads binary rows of ten columns, and answers a sum over their values.
#[unsafe(no_mangle)]
pub extern "C" fn bench_rows_read(alloc: Global, batch: &[u8]) -> u64 {
    let Ok(columns) = ten_columns(alloc) else {
        return 0;
    };
    let mut sum = 0u64;
    for packet in Packets::new(batch) {
        if let Ok(row) = read(alloc, &columns, packet) {
            sum = sum.wrapping_add(sum_of(&row));
        }
    }
    sum
}

/// Reads binary rows as `bench_rows_read` does, in a second place of the library: so the reader can't be made a part of
/// its only caller. The answer counts the rows too.
#[unsafe(no_mangle)]
pub extern "C" fn bench_rows_counted(alloc: Global, batch: &[u8]) -> u64 {
    let Ok(columns) = ten_columns(alloc) else {
        return 0;
    };
    let mut sum = 0u64;
    for packet in Packets::new(batch) {
        if let Ok(row) = read(alloc, &columns, packet) {
            sum = sum.wrapping_add(sum_of(&row)).wrapping_add(1);
        }
    }
    sum
}
