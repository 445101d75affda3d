//! Bulk requests.

use mysql_bulk::{BulkRequestWriter, ComStmtBulkExecuteRequestBuilder};
use mysql_values::{ParamType, Value, ValueRef};
use mysql_wire::{ColumnType, Flags, MySerialize, StmtExecuteParamFlags};
use std::alloc::{AllocError, Global};

/// The most bytes that a packet may have: 16 MiB.
const MAX_ALLOWED_PACKET: usize = 1 << 24;

/// A row of a number, 20 bytes and NULL, out of 28 bytes.
fn row_of(alloc: Global, bytes: &[u8]) -> Result<Vec<Value>, AllocError> {
    let mut row = Vec::with_capacity(alloc, 3)?;
    if let Some((number, text)) = bytes.split_first_chunk::<8>() {
        row.push(Value::Int(i64::from_le_bytes(*number)))?;
        row.push(Value::Bytes(Vec::from_slice(alloc, text)?))?;
        row.push(Value::NULL)?;
    }
    Ok(row)
}

fn rows_of(alloc: Global, batch: &[u8]) -> Result<Vec<Vec<Value>>, AllocError> {
    let mut rows = Vec::with_capacity(alloc, batch.len() / 28)?;
    for bytes in batch.chunks_exact(28) {
        rows.push(row_of(alloc, bytes)?)?;
    }
    Ok(rows)
}

/// Makes rows of 28 bytes each, and answers how many there are. What it takes is to be taken off from the next.
#[unsafe(no_mangle)]
pub extern "C" fn bench_bulk_rows_made(alloc: Global, batch: &[u8]) -> u64 {
    match rows_of(alloc, batch) {
        Ok(rows) => rows.len() as u64,
        Err(_) => 0,
    }
}

/// Makes rows of 28 bytes each, builds the requests of all of them and writes these, and answers how many bytes were
/// written.
#[unsafe(no_mangle)]
pub extern "C" fn bench_bulk_rows_written(alloc: Global, batch: &[u8]) -> u64 {
    let Ok(rows) = rows_of(alloc, batch) else {
        return 0;
    };
    let mut out = Vec::new(alloc);
    let mut sum = 0u64;
    let mut builder = ComStmtBulkExecuteRequestBuilder::new(alloc, 1, MAX_ALLOWED_PACKET);
    for request in &builder.build_all(rows).requests {
        out.clear();
        if request.serialize(&mut out).is_ok() {
            sum = sum.wrapping_add(out.len() as u64);
        }
    }
    sum
}

/// Makes rows of 28 bytes each, builds their requests one at a time, writes each before the next is built, and answers how many
/// bytes were written.
#[unsafe(no_mangle)]
pub extern "C" fn bench_bulk_rows_iterated(alloc: Global, batch: &[u8]) -> u64 {
    let Ok(rows) = rows_of(alloc, batch) else {
        return 0;
    };
    let mut out = Vec::new(alloc);
    let mut sum = 0u64;
    let mut builder = ComStmtBulkExecuteRequestBuilder::new(alloc, 1, MAX_ALLOWED_PACKET);
    for request in builder.build_iter(rows.into_iter()) {
        let Ok(request) = request else {
            return 0;
        };
        out.clear();
        if request.serialize(&mut out).is_ok() {
            sum = sum.wrapping_add(out.len() as u64);
        }
    }
    sum
}

/// Builds a request of the rows that wait, writes it, and answers how many bytes were written.
fn written(builder: &mut ComStmtBulkExecuteRequestBuilder<'_>, out: &mut Vec<u8>) -> u64 {
    out.clear();
    if let Ok(request) = builder.build() {
        let _ = request.serialize(out);
    }
    out.len() as u64
}

/// Offers each row as a slice, and builds and writes a request wherever the next row does not fit.
fn offered(alloc: Global, batch: &[u8]) -> Result<u64, AllocError> {
    let mut out = Vec::new(alloc);
    let mut sum = 0u64;
    let mut builder = ComStmtBulkExecuteRequestBuilder::new(alloc, 1, MAX_ALLOWED_PACKET);
    for bytes in batch.chunks_exact(28) {
        if let Some((number, text)) = bytes.split_first_chunk::<8>() {
            let row = [
                Value::Int(i64::from_le_bytes(*number)),
                Value::Bytes(Vec::from_slice(alloc, text)?),
                Value::NULL,
            ];
            if let Ok(false) = builder.add_row_slice(&row) {
                sum = sum.wrapping_add(written(&mut builder, &mut out));
                let _ = builder.add_row_slice(&row);
            }
        }
    }
    Ok(sum.wrapping_add(written(&mut builder, &mut out)))
}

/// Makes rows of 28 bytes each, one at a time and without a list of its own, offers each as a slice, builds the requests
/// and writes these, and answers how many bytes were written.
#[unsafe(no_mangle)]
pub extern "C" fn bench_bulk_rows_offered(alloc: Global, batch: &[u8]) -> u64 {
    offered(alloc, batch).unwrap_or(0)
}

/// Offers each row as borrowed values, and builds and writes a request wherever the next row does not fit.
fn offered_refs(alloc: Global, batch: &[u8]) -> u64 {
    let mut out = Vec::new(alloc);
    let mut sum = 0u64;
    let mut builder = ComStmtBulkExecuteRequestBuilder::new(alloc, 1, MAX_ALLOWED_PACKET);
    for bytes in batch.chunks_exact(28) {
        if let Some((number, text)) = bytes.split_first_chunk::<8>() {
            let row = [
                ValueRef::Int(i64::from_le_bytes(*number)),
                ValueRef::Bytes(text),
                ValueRef::NULL,
            ];
            if let Ok(false) = builder.add_row_refs(&row) {
                sum = sum.wrapping_add(written(&mut builder, &mut out));
                let _ = builder.add_row_refs(&row);
            }
        }
    }
    sum.wrapping_add(written(&mut builder, &mut out))
}

/// Offers rows of 28 bytes each as values whose bytes stay where they are, builds the requests and writes these, and answers
/// how many bytes were written.
#[unsafe(no_mangle)]
pub extern "C" fn bench_bulk_rows_offered_refs(alloc: Global, batch: &[u8]) -> u64 {
    offered_refs(alloc, batch)
}

/// Lets the request of a writer go, and answers how many bytes it has.
fn finished(writer: &mut BulkRequestWriter<'_>) -> u64 {
    let sent = match writer.request() {
        Some(request) => request.len() as u64,
        None => 0,
    };
    writer.finish();
    sent
}

/// Writes each row into the request, which is let go wherever the next row does not fit.
fn streamed(alloc: Global, batch: &[u8]) -> u64 {
    let flags = StmtExecuteParamFlags::empty();
    let types = [
        ParamType::new(ColumnType::MYSQL_TYPE_LONGLONG, flags),
        ParamType::new(ColumnType::MYSQL_TYPE_VAR_STRING, flags),
        ParamType::new(ColumnType::MYSQL_TYPE_VAR_STRING, flags),
    ];
    let buffer = Vec::new(alloc);
    let Ok(mut writer) = BulkRequestWriter::new(buffer, 1, MAX_ALLOWED_PACKET, &types) else {
        return 0;
    };
    let mut sum = 0u64;
    for bytes in batch.chunks_exact(28) {
        if let Some((number, text)) = bytes.split_first_chunk::<8>() {
            let row = [
                ValueRef::Int(i64::from_le_bytes(*number)),
                ValueRef::Bytes(text),
                ValueRef::NULL,
            ];
            if let Ok(false) = writer.add_row_refs(&row) {
                sum = sum.wrapping_add(finished(&mut writer));
                let _ = writer.add_row_refs(&row);
            }
        }
    }
    sum.wrapping_add(finished(&mut writer))
}

/// Writes rows of 28 bytes each straight into requests, and answers how many bytes were written.
#[unsafe(no_mangle)]
pub extern "C" fn bench_bulk_rows_streamed(alloc: Global, batch: &[u8]) -> u64 {
    streamed(alloc, batch)
}
