//! Rows that stay in their packets: by a view, and in places that are used again.

use crate::packets::Packets;
use crate::rows::ten_columns;
use mysql_replies::Column;
use mysql_stmt::{BinaryRowView, TextRowView};
use mysql_values::{ServerSide, ValueRef};
use mysql_wire::{Fault, ParseBuf};
use std::alloc::Global;

type View<'a, 'c> = BinaryRowView<'a, 'c, ServerSide, Column>;

/// What a value adds to the sum: a number itself, a string its length.
#[inline(always)]
pub(crate) fn part(value: ValueRef<'_>) -> u64 {
    match value {
        ValueRef::Int(number) => number.cast_unsigned(),
        ValueRef::Bytes(bytes) => bytes.len() as u64,
        _ => 0,
    }
}

fn binary(alloc: Global, columns: &[Column], packet: &[u8]) -> Result<u64, Fault> {
    let mut row: View<'_, '_> = BinaryRowView::new(columns, ParseBuf::new(alloc, packet))?;
    let mut sum = 0u64;
    while let Some(value) = row.next_value()? {
        sum = sum.wrapping_add(part(value));
    }
    Ok(sum)
}

#[inline(always)]
pub(crate) fn text(alloc: Global, packet: &[u8]) -> Result<u64, Fault> {
    sum_of_text(TextRowView::new(10, ParseBuf::new(alloc, packet)))
}

/// A sum over the values of a row.
#[inline(always)]
pub(crate) fn sum_of_text(row: TextRowView<'_>) -> Result<u64, Fault> {
    let mut row = row;
    let mut sum = 0u64;
    while let Some(value) = row.next_value()? {
        sum = sum.wrapping_add(part(value));
    }
    Ok(sum)
}

fn sum_of(values: &[ValueRef<'_>]) -> u64 {
    let mut sum = 0u64;
    for value in values {
        sum = sum.wrapping_add(part(*value));
    }
    sum
}

fn binary_places<'a>(
    alloc: Global,
    columns: &[Column],
    packet: &'a [u8],
    values: &mut [ValueRef<'a>; 10],
) -> Result<u64, Fault> {
    let mut row: View<'a, '_> = BinaryRowView::new(columns, ParseBuf::new(alloc, packet))?;
    if row.left() > 10 {
        return Ok(0);
    }
    row.read_rest(values)?;
    Ok(sum_of(values))
}

fn text_places<'a>(
    alloc: Global,
    packet: &'a [u8],
    values: &mut [ValueRef<'a>; 10],
) -> Result<u64, Fault> {
    TextRowView::new(10, ParseBuf::new(alloc, packet)).read_rest(values)?;
    Ok(sum_of(values))
}

/// Views binary rows of ten columns, and answers a sum over their values.
#[unsafe(no_mangle)]
pub extern "C" fn bench_rows_viewed(alloc: Global, batch: &[u8]) -> u64 {
    let Ok(columns) = ten_columns(alloc) else {
        return 0;
    };
    let mut sum = 0u64;
    for packet in Packets::new(batch) {
        if let Ok(one) = binary(alloc, &columns, packet) {
            sum = sum.wrapping_add(one);
        }
    }
    sum
}

/// Reads binary rows of ten columns into places that are used again, and answers a sum over their values.
#[unsafe(no_mangle)]
pub extern "C" fn bench_rows_placed(alloc: Global, batch: &[u8]) -> u64 {
    let Ok(columns) = ten_columns(alloc) else {
        return 0;
    };
    let mut values = [ValueRef::NULL; 10];
    let mut sum = 0u64;
    for packet in Packets::new(batch) {
        if let Ok(one) = binary_places(alloc, &columns, packet, &mut values) {
            sum = sum.wrapping_add(one);
        }
    }
    sum
}

/// Views text rows of ten columns, and answers a sum over their values.
#[unsafe(no_mangle)]
pub extern "C" fn bench_text_rows_viewed(alloc: Global, batch: &[u8]) -> u64 {
    let mut sum = 0u64;
    for packet in Packets::new(batch) {
        if let Ok(one) = text(alloc, packet) {
            sum = sum.wrapping_add(one);
        }
    }
    sum
}

/// Reads text rows of ten columns into places that are used again, and answers a sum over their values.
#[unsafe(no_mangle)]
pub extern "C" fn bench_text_rows_placed(alloc: Global, batch: &[u8]) -> u64 {
    let mut values = [ValueRef::NULL; 10];
    let mut sum = 0u64;
    for packet in Packets::new(batch) {
        if let Ok(one) = text_places(alloc, packet, &mut values) {
            sum = sum.wrapping_add(one);
        }
    }
    sum
}
