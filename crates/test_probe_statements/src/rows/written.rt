//! Rows that are written: `write_row_text CELLS` of byte strings and `-`, and `write_row COLUMNS VALUES`; and rows that are
//! read and written anew, `row_text_again COLUMNS BYTES` and `row_again COLUMNS BYTES`.

use crate::prelude::*;
use crate::rows::views::{binary_view, text_view};
use crate::rows::{columns, has_values};

/// Writes a text row of the byte strings among these values, with NULL for each other.
fn write_cells<T: AsValue>(out: &mut Out, values: &[T], bytes: Option<&[u8]>) {
    let cells = values.iter().map(|value| match value.as_value() {
        ValueRef::Bytes(content) => Some(content),
        _ => None,
    });
    let cells = or_empty(out, cells.collect(out.alloc()));
    let mut buffer = begun(out);
    let made = counted!(out.alloc(); write_text_row(&cells, &mut buffer));
    show_written(out, made.is_ok(), &buffer, bytes);
}

/// Writes a binary row of these values, or shows why it is refused. The answer is the buffer.
fn write_values(
    out: &mut Out,
    columns: &[Column],
    values: &[ValueRef<'_>],
    bytes: Option<&[u8]>,
) -> Vec<u8> {
    let mut buffer = begun(out);
    match counted!(out.alloc(); write_binary_row(columns, values, &mut buffer)) {
        Ok(()) => show_written(out, true, &buffer, bytes),
        Err(BinaryRowError::Memory) => show_written(out, false, &buffer, bytes),
        Err(refused) => {
            out.word("refused");
            if let BinaryRowError::Value(place) = refused {
                out.show("place", place);
            }
            let is_kept = buffer.as_slice() == b"\xaa".as_slice();
            out.word(if is_kept { "kept" } else { "TAKEN" });
            out.text("text", &refused);
        }
    }
    buffer
}

pub fn text(out: &mut Out, request: &Request<'_>) {
    let cells = list::<Option<Value>>(out, request.word(1), "()", ',');
    write_cells(out, &cells, None);
}

/// Whether the row at the front of a slice has the same bytes.
fn is_in_slice(columns: &[Column], values: &[ValueRef<'_>], written: &[u8]) -> bool {
    let mut places = [0xaa; 256];
    match write_binary_row_to_slice(columns, values, &mut places) {
        Ok(len) if len <= places.len() => &places[..len] == written,
        Ok(len) => len == written.len(),
        Err(_) => false,
    }
}

/// What is written is read again as the same values.
pub fn binary(out: &mut Out, request: &Request<'_>) -> Result {
    let columns = columns(request)?;
    let words = Vec::<Value>::from_word(out, request.word(2));
    let values = refs(out, &words);
    let buffer = write_values(out, &columns, &values, None);
    let written = after(&buffer);
    if !written.is_empty() {
        let alloc = out.alloc();
        let in_slice = is_in_slice(&columns, &values, written);
        let (read, left) = parsed::<RowDeserializer<ServerSide, Binary>>(alloc, written, columns);
        let is_same = read.is_ok_and(|row| left == 0 && has_values(row, &values));
        out.same("again", Ok(is_same));
        out.or_other("slice", Ok(in_slice));
    }
    Ok(())
}

pub fn text_again(out: &mut Out, request: &Request<'_>) {
    let bytes = request.bytes.as_slice();
    let columns = or_empty(out, request.columns());
    let row = text_view(out, columns.len(), bytes);
    out.show("values", row.values.len());
    write_cells(out, &row.values, Some(bytes));
}

pub fn binary_again(out: &mut Out, request: &Request<'_>) -> Result {
    let bytes = request.bytes.as_slice();
    let columns = columns(request)?;
    let row = binary_view::<ServerSide>(out, &columns, bytes);
    out.show("values", row.values.len());
    let _ = write_values(out, &columns, &row.values, Some(bytes));
    Ok(())
}
