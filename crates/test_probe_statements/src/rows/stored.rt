//! Rows that are kept in one block: `store_text COLUMNS BYTES` and `store COLUMNS BYTES` (binary) of a server, of named columns.
//!
//! The answer has each value by the name of its column, and then: whether the same row takes the place of this one in the same
//! block, and whether an owned row has the same values.

use crate::prelude::*;
use crate::rows::named_columns;
use std::str;

/// Adds the value that a name finds.
fn show_named(out: &mut Out, row: &StoredRow, columns: &[Column], name: &str) {
    match row.value_by(columns, name) {
        Some(value) => out.show(name, Spelled(value)),
        None => out.field(name, "none"),
    }
}

/// Whether an owned row has the values of a stored one.
fn has_the_same(row: &Row, stored: &StoredRow) -> bool {
    let mut is_same = row.len() == stored.len();
    for place in 0..stored.len() {
        is_same = is_same && row.as_ref(place).map(Value::as_ref) == stored.value(place);
    }
    is_same
}

/// Adds whether the owned row is the same. There is a column for each value, or nothing is added.
fn compare(out: &mut Out, row: &StoredRow, columns: RcSlice<Column>) {
    if row.len() == columns.len() {
        let owned = counted!(out.alloc(); row.to_row(out.alloc(), columns));
        out.same("row", owned.map(|owned| has_the_same(&owned, row)));
    }
}

/// Stores a row, and once more in its place: the borrow checker covers no function that is generic over the view.
macro_rules! store {
    ($out:expr, $view:expr, $again:expr, $columns:expr) => {{
        let mut row = StoredRow::new($out.alloc());
        let stored: Result<(), Fault> = counted!($out.alloc(); row.store($view));
        match stored {
            Ok(()) => {
                show_all($out, &row, $columns.as_slice());
                let (count, capacity) = (row.len(), row.capacity());
                let again: Result<(), Fault> = counted!($out.alloc(); row.store($again));
                let is_same = again.is_ok() && row.len() == count && row.capacity() == capacity;
                $out.or_other("again", Ok(is_same));
                compare($out, &row, $columns);
            }
            Err(fault) => $out.refused(fault, row.is_empty() && row.capacity() == 0),
        }
    }};
}

/// Adds the value of each column, found by its name.
fn show_all(out: &mut Out, row: &StoredRow, columns: &[Column]) {
    out.word("stored");
    for column in columns {
        show_named(
            out,
            row,
            columns,
            str::from_utf8(column.name_ref()).unwrap_or("?"),
        );
    }
}

pub fn text(out: &mut Out, request: &Request<'_>) -> Result {
    let columns = named_columns(out, request)?;
    let alloc = out.alloc();
    let view = TextRowView::new(columns.len(), ParseBuf::new(alloc, &request.bytes));
    let again = TextRowView::new(columns.len(), ParseBuf::new(alloc, &request.bytes));
    store!(out, view, again, columns);
    Ok(())
}

pub fn binary(out: &mut Out, request: &Request<'_>) -> Result {
    let columns = named_columns(out, request)?;
    let alloc = out.alloc();
    let types = columns.clone()?;
    let view = BinaryRowView::<ServerSide, _>::new(&types, ParseBuf::new(alloc, &request.bytes));
    let again = BinaryRowView::<ServerSide, _>::new(&types, ParseBuf::new(alloc, &request.bytes));
    match (view, again) {
        (Ok(view), Ok(again)) => store!(out, view, again, columns),
        (Err(fault), _) => out.refused(fault, true),
        _ => out.word("other"),
    }
    Ok(())
}
