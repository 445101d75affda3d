//! Rows.
//!
//! Read: `row_text COLUMNS BYTES` and `row COLUMNS BYTES` (binary) of a server, `row_text_client ..` and `row_client ..`
//! of a client, by `RowDeserializer` and by the views of `rows/views.rt`; `row_equal COLUMNS BYTES BYTES` compares two text
//! rows.
//!
//! Written: by the requests of `rows/written.rt`.
//!
//! Made: `new_row COLUMNS VALUES CALL ..`, and `new_row_raw ..`, where `-` stands for a value that was taken; and
//! `unwrap COLUMNS VALUES`, of two values. Their columns are names with types, as `a:8,b:253`. The calls stand in
//! `rows/calls.rt`.
//!
//! `column_typed BYTES` reads a column, and says whether the one that stays in its packet types values as it does.

mod calls;
pub mod stored;
pub mod views;
pub mod written;

use crate::prelude::*;
use crate::rows::calls::call;
use test_probe::request::column_type;

/// The columns of a request, without names.
pub fn columns(request: &Request<'_>) -> Result<RcSlice<Column>> {
    let columns = request.columns()?.into_iter();
    let columns = columns.map(|(column_type, flags)| Column::new(column_type).with_flags(flags));
    RcSlice::from_vec(columns.collect(request.alloc)?)
}

/// Adds a value that is there, or `-`.
fn push_cell(out: &mut Out, cell: Option<&Value>) {
    match cell {
        Some(value) => Spelled(value.as_ref()).shown(out),
        None => out.push("-"),
    }
}

impl<S, P> Shows<RowDeserializer<S, P>> for Statements {
    fn show(record: &RowDeserializer<S, P>, out: &mut Out) {
        if let Some(copy) = or_lost(out, record.clone()) {
            let row = copy.into_inner();
            for place in 0..row.len() {
                out.word("");
                push_cell(out, row.as_ref(place));
            }
            let copy = counted!(out.alloc(); record.clone());
            let is_same = copy.map(|copy| copy == *record && Row::from(copy) == row);
            out.same("made", is_same);
        }
    }
}

/// Whether a row has these values.
fn has_values<S, P>(row: RowDeserializer<S, P>, values: &[ValueRef<'_>]) -> bool {
    let cells = row.into_inner().unwrap_raw();
    let mut is_same = cells.len() == values.len();
    for (cell, value) in cells.as_slice().iter().zip(values) {
        is_same = is_same && cell.as_ref().map(Value::as_ref) == Some(*value);
    }
    is_same
}

/// A text row of a server.
type TextRow = RowDeserializer<ServerSide, Text>;

/// The text row that digits spell.
fn text_row(out: &Out, digits: &str, columns: RcSlice<Column>) -> Option<TextRow> {
    let (read, _) = parsed::<TextRow>(out.alloc(), &bytes(out, digits), columns);
    read.ok()
}

pub fn row_equal(out: &mut Out, request: &Request<'_>) -> Result {
    let one = text_row(out, request.word(2), columns(request)?);
    let other = text_row(out, request.word(3), columns(request)?);
    match (&one, &other) {
        (Some(one), Some(other)) => {
            out.same("equal", Ok(one == other));
            out.same("not_unequal", Ok(!(one != other)));
        }
        _ => out.word("refused"),
    }
    Ok(())
}

/// A name and a type, as `a:8`.
impl FromWord for Column {
    fn from_word(out: &mut Out, word: &str) -> Self {
        let (name, digits) = word.split_once(':').unwrap_or((word, ""));
        let column_type = column_type(digits);
        let named = Column::new(column_type).with_name(out.alloc(), name.as_bytes());
        or_lost(out, named).unwrap_or(Column::new(column_type))
    }
}

/// The columns with names that stand at place 1.
fn named_columns(out: &mut Out, request: &Request<'_>) -> Result<RcSlice<Column>> {
    RcSlice::from_vec(list(out, request.word(1), "()", ','))
}

/// The row of these cells; or `?` is added, where there are not as many columns.
fn raw_row(out: &mut Out, cells: Vec<Option<Value>>, columns: RcSlice<Column>) -> Option<Row> {
    if cells.len() != columns.len() {
        out.word("?");
        return None;
    }
    Some(new_row_raw(cells, columns))
}

/// Answers the calls that stand from the fourth word on.
fn answer_calls(out: &mut Out, row: &mut Row, request: &Request<'_>) {
    for word in request.line.split(' ').skip(3) {
        call(out, row, word);
    }
}

pub fn made_row(out: &mut Out, request: &Request<'_>) -> Result {
    let columns = named_columns(out, request)?;
    let values = Vec::<Value>::from_word(out, request.word(2));
    if values.len() != columns.len() {
        out.word("?");
        return Ok(());
    }
    let made = counted!(out.alloc(); new_row(out.alloc(), values, columns));
    if let Some(mut row) = or_memory(out, made) {
        answer_calls(out, &mut row, request);
    }
    Ok(())
}

pub fn made_row_raw(out: &mut Out, request: &Request<'_>) -> Result {
    let columns = named_columns(out, request)?;
    let cells = list::<Option<Value>>(out, request.word(2), "()", ',');
    if let Some(mut row) = raw_row(out, cells, columns) {
        answer_calls(out, &mut row, request);
    }
    Ok(())
}

pub fn unwrap(out: &mut Out, request: &Request<'_>) -> Result {
    let alloc = request.alloc;
    let columns = named_columns(out, request)?;
    let mut values = Vec::<Value>::from_word(out, request.word(2));
    let second = values.pop().unwrap_or(Value::NULL);
    let first = values.pop().unwrap_or(Value::NULL);
    let cells = vec![in alloc; Some(first), Some(second)]?;
    if cells.len() == columns.len() {
        let values = counted!(alloc; new_row_raw(cells, columns).unwrap(alloc));
        out.show("values", values.map(SpelledRow));
    } else {
        out.word("?");
    }
    Ok(())
}

/// The type of a column's values, and whether they have no sign.
fn typed<C: TypedColumn>(column: &C) -> (ColumnType, bool) {
    (column.value_type(), column.is_unsigned())
}

pub fn column_typed(out: &mut Out, request: &Request<'_>) {
    let (alloc, bytes) = (request.alloc, request.bytes.as_slice());
    let (owned, _) = parsed::<Column>(alloc, bytes, ());
    let (borrowed, _) = parsed::<ColumnRef<'_>>(alloc, bytes, ());
    let is_same = match (&owned, &borrowed) {
        (Ok(owned), Ok(borrowed)) => typed(owned) == typed(borrowed),
        _ => false,
    };
    out.same("typed", Ok(is_same));
}
