//! Bulk executions.
//!
//! `bulk COLUMNS BYTES` reads a request of one row, `bulk_rows COLUMNS BYTES` the rows of a request, `bulk_type BYTES` a
//! type, `bulk_value COLUMN BYTES` a value after its indicator, `bulk_values COLUMNS BYTES` a row of them.
//!
//! `bulk_new FLAGS ROWS` makes the request of some rows and reads it again by the types of its first row,
//! `bulk_value_new VALUE` and `bulk_values_new ROW` make a value and a row of them, `bulk_same COLUMNS BYTES BYTES`
//! compares two requests, and `bulk_error NAME ROW` copies an error that holds a row.
//!
//! `fewest LIMIT COLUMNS SIZES ENDS` says whether a cut of rows into requests is one of the fewest. LIMIT is the most bytes
//! of a request, with `types` and `rows=K` after commas. SIZES are the bytes of the rows, and ENDS the rows that requests
//! end with, with commas between them, or `()`. `row_size ROW` says the bytes of a row.

use crate::builder::answers::show_error;
use crate::builder::settings::{number, setting};
use crate::forms::{column, show_type};
use crate::prelude::*;
use mysql_wire::{MyDeserialize, StmtBulkExecuteFlags, StmtExecuteParamFlags};
use std::convert::AsSlice;

/// Types of columns, and their flags.
type Columns = Vec<(ColumnType, ColumnFlags)>;

/// The types, the values, and the indicators before them, up to the place that has none.
impl Shows<ComStmtBulkExecuteRequest> for Statements {
    fn show(it: &ComStmtBulkExecuteRequest, out: &mut Out) {
        fields!(out, it; stmt_id, bulk_flags);
        for column in it.types() {
            show_type(column, out);
        }
        out.show("values", SpelledRow(it.values()));
        out.field("indicators", "");
        for place in 0..it.values().len().saturating_add(1) {
            match counted!(out.alloc(); value it.indicator(place)) {
                Some(indicator) => u8::from(indicator).shown(out),
                None => out.push("."),
            }
        }
        out.same("made", is_cloned(out.alloc(), it, it))
    }
}

fn show_value(value: &StmtBulkExecuteParamValue, out: &mut Out) {
    out.show("indicator", u8::from(value.indicator()));
    out.show("value", Spelled(value.value().as_ref()))
}

impl Shows<StmtBulkExecuteParamValue> for Statements {
    fn show(it: &StmtBulkExecuteParamValue, out: &mut Out) {
        show_value(it, out);
        out.same("made", is_cloned(out.alloc(), it, it))
    }
}

impl Shows<StmtBulkExecuteParamValues> for Statements {
    fn show(it: &StmtBulkExecuteParamValues, out: &mut Out) {
        for value in it.as_slice() {
            show_value(value, out);
        }
        out.same("made", is_cloned(out.alloc(), it, it))
    }
}

/// Shows a record that was made as one that is read, and writes it. The answer is what is written after a byte.
fn show_made<P: Shows<T>, T: MySerialize>(out: &mut Out, made: &T) -> Option<Vec<u8>> {
    P::show(made, out);
    write(out, made, b"")
}

/// A record that is read by the columns of the request.
pub fn by_columns<'a, T>(out: &mut Out, request: &'a Request<'_>)
where
    Statements: Shows<T>,
    T: MyDeserialize<'a, Ctx = Columns> + MySerialize + PartialEq + Drop,
{
    let columns = or_empty(out, request.columns());
    let again = or_empty(out, request.columns());
    round_trip::<Statements, T>(out, request, columns, again);
}

pub fn value(out: &mut Out, request: &Request<'_>) {
    let column = column(out, request);
    round_trip::<Statements, StmtBulkExecuteParamValue>(out, request, column, column);
}

pub fn bulk_rows(out: &mut Out, request: &Request<'_>) {
    let alloc = out.alloc();
    let bytes = request.bytes.as_slice();
    let columns = or_empty(out, request.columns());
    let mut buf = ParseBuf::new(alloc, bytes);
    let answer: Result<_, Fault> = counted!(alloc; read_bulk_rows(&columns, &mut buf));
    if let Some(rows) = taken(out, answer, buf.len() == bytes.len()) {
        for row in &rows {
            out.show("values", SpelledRow(row));
        }
        out.show("rest", buf.len());
    }
}

/// The request of rows, or why there is none.
pub fn bulk_new(out: &mut Out, request: &Request<'_>) {
    let alloc = out.alloc();
    let flags = StmtBulkExecuteFlags::from_bits_retain((request.number(1) & 0xffff) as u16);
    let handed = rows(out, request.word(2));
    match counted!(alloc; ComStmtBulkExecuteRequest::new(alloc, 1, flags, handed)) {
        Ok(made) => show_again(out, &made, request.word(2)),
        Err(BulkExecuteRequestError::Memory) => out.word("Memory"),
        Err(error) => show_error(out, &error),
    }
}

/// Shows a request of rows, and whether what is written is read as the same rows, and as the same request.
fn show_again(out: &mut Out, made: &ComStmtBulkExecuteRequest, text: &str) {
    let Some(buffer) = show_made::<Statements, _>(out, made) else {
        return;
    };
    let written = after(&buffer);
    let handed = rows(out, text);
    let first = handed.as_slice().iter().take(1).flatten();
    let columns = or_empty(out, first.map(column_of).collect(out.alloc()));
    let mut buf = ParseBuf::new(out.alloc(), written);
    let again: Result<_, Fault> = read_bulk_rows(&columns, &mut buf);
    out.same("rows_again", Ok(again.is_ok_and(|again| again == handed)));
    let (again, left) = parsed::<ComStmtBulkExecuteRequest>(out.alloc(), written, columns);
    out.same("again", Ok(again.is_ok_and(|again| again == *made)));
    out.show("left", left);
}

/// The column of a value's type.
fn column_of(value: &Value) -> (ColumnType, ColumnFlags) {
    let sent = StmtBulkExecuteParamType::from_value(value);
    let mut flags = ColumnFlags::empty();
    if sent.flags() == StmtExecuteParamFlags::UNSIGNED {
        flags = ColumnFlags::UNSIGNED_FLAG;
    }
    (sent.column_type(), flags)
}

/// Whether both are read, and as the same request.
pub fn are_same(out: &mut Out, request: &Request<'_>) {
    let first = bytes(out, request.word(2));
    let columns = or_empty(out, request.columns());
    let (one, _) = parsed::<ComStmtBulkExecuteRequest>(out.alloc(), &first, columns);
    let columns = or_empty(out, request.columns());
    let (other, _) = parsed::<ComStmtBulkExecuteRequest>(out.alloc(), &request.bytes, columns);
    match (&one, &other) {
        (Ok(one), Ok(other)) => same_or_other(out, counted!(out.alloc(); value one == other)),
        _ => out.word("refused"),
    }
}

/// Copies an error of a builder that hands a row back.
pub fn bulk_error(out: &mut Out, request: &Request<'_>) {
    let row = Vec::<Value>::from_word(out, request.word(2));
    let error = BulkExecuteRequestBuilderError::from(match request.word(1) {
        "RowTooLarge" => BulkExecuteRequestError::RowTooLarge(row),
        "MixedTypes" => BulkExecuteRequestError::MixedTypes(row),
        _ => BulkExecuteRequestError::MemoryRow(row),
    });
    out.same("copy", is_cloned(out.alloc(), &error, &error));
    out.text("text", &error);
}

pub fn value_new(out: &mut Out, request: &Request<'_>) {
    let value = Value::from_word(out, request.word(1));
    let made = counted!(out.alloc(); value StmtBulkExecuteParamValue::new(value));
    let _ = show_made::<Statements, _>(out, &made);
}

pub fn values_new(out: &mut Out, request: &Request<'_>) {
    let alloc = out.alloc();
    let values = Vec::<Value>::from_word(out, request.word(1));
    let made = counted!(alloc; StmtBulkExecuteParamValues::new(alloc, values));
    if let Some(made) = or_memory(out, made) {
        let _ = show_made::<Statements, _>(out, &made);
    }
}

pub fn row_size(out: &mut Out, request: &Request<'_>) {
    let row = Vec::<Value>::from_word(out, request.word(1));
    out.show("bytes", counted!(out.alloc(); value bulk_row_size(&row)));
}

/// Whether a cut of rows into requests is one of the fewest.
pub fn fewest(out: &mut Out, request: &Request<'_>) {
    let settings = request.word(1);
    let rule = BulkRule {
        types_always: setting(settings, "types").is_some(),
        max_rows: setting(settings, "rows=").and_then(|digits| digits.parse::<usize>().ok()),
    };
    let limit = number(settings, "") as u64;
    let arity = number(request.word(2), "");
    let sizes = request
        .word(3)
        .split(',')
        .filter_map(|it| it.parse::<u64>().ok());
    let sizes = or_empty(out, sizes.collect(out.alloc()));
    let ends = request
        .word(4)
        .split(',')
        .filter_map(|it| it.parse::<usize>().ok());
    let ends = or_empty(out, ends.collect(out.alloc()));
    out.item(counted!(out.alloc(); value cut_is_fewest(rule, limit, arity, &sizes, &ends)));
}
