//! Executions of prepared statements.

use mysql_stmt::{ComStmtExecuteRequestBuilder, TypedExecutionError};
use mysql_values::{Value, ValueRef};
use mysql_wire::MySerialize;
use std::alloc::{AllocError, Global};

/// The bytes of the numbers of an execution.
const SIZE: usize = 40;

/// Five numbers, and five strings of 20 bytes after them.
fn ten_values(alloc: Global) -> Result<Vec<Value>, AllocError> {
    let mut values = Vec::with_capacity(alloc, 10)?;
    for _ in 0..5 {
        values.push(Value::Int(0))?;
    }
    for _ in 0..5 {
        values.push(Value::Bytes(Vec::from_slice(alloc, &[b'a'; 20])?))?;
    }
    Ok(values)
}

/// Puts numbers of 8 bytes each in the place of the first values.
fn put_numbers(values: &mut [Value], bytes: &[u8]) {
    for (value, number) in values.iter_mut().zip(bytes.chunks_exact(8)) {
        if let Some(number) = number.first_chunk::<8>() {
            *value = Value::Int(i64::from_le_bytes(*number));
        }
    }
}

/// Writes the execution with these values to an empty buffer, and answers how many bytes it has.
fn written(alloc: Global, values: &[Value], out: &mut Vec<u8>) -> Result<u64, AllocError> {
    let (request, _) = ComStmtExecuteRequestBuilder::new(1).build(alloc, values)?;
    out.clear();
    request.serialize(out)?;
    Ok(out.len() as u64)
}

/// Writes executions with ten values, of which five are numbers of the batch, and answers how many bytes were written.
#[unsafe(no_mangle)]
pub extern "C" fn bench_executions_written(alloc: Global, batch: &[u8]) -> u64 {
    let Ok(mut values) = ten_values(alloc) else {
        return 0;
    };
    let mut out = Vec::new(alloc);
    let mut sum = 0u64;
    for bytes in batch.chunks_exact(SIZE) {
        put_numbers(&mut values, bytes);
        sum = sum.wrapping_add(written(alloc, &values, &mut out).unwrap_or(0));
    }
    sum
}

/// Writes the execution with these borrowed values to an empty buffer at once, and answers how many bytes it has.
fn written_by_reference(
    values: &[ValueRef<'_>],
    out: &mut Vec<u8>,
) -> Result<u64, TypedExecutionError> {
    out.clear();
    let _leaves_out = ComStmtExecuteRequestBuilder::new(1).write_ref(values, out)?;
    Ok(out.len() as u64)
}

/// The same of borrowed values, each written at once.
#[unsafe(no_mangle)]
pub extern "C" fn bench_executions_borrowed(alloc: Global, batch: &[u8]) -> u64 {
    let text = [b'a'; 20];
    let mut values = [ValueRef::Bytes(&text); 10];
    let mut out = Vec::new(alloc);
    let mut sum = 0u64;
    for bytes in batch.chunks_exact(SIZE) {
        for (value, number) in values.iter_mut().zip(bytes.chunks_exact(8)) {
            if let Some(number) = number.first_chunk::<8>() {
                *value = ValueRef::Int(i64::from_le_bytes(*number));
            }
        }
        sum = sum.wrapping_add(written_by_reference(&values, &mut out).unwrap_or(0));
    }
    sum
}
