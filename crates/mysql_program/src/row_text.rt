//! Rows as text: one per line, with values separated by single spaces.

ghost use Rattle.std.specs.Prelude.{◌≡◌, IfOk, map, option_map};
ghost use Rattle.mysql_values.specs.Value.{content_of};
ghost use Rattle.mysql_bulk.specs.BulkValue.{cell_of};
ghost use Rattle.mysql_bulk.specs.Row.{contents_of_row, contents_of_rows};
ghost use Rattle.mysql_bulk.specs.ValuesRun.{cells_of_row, cells_of_rows};
ghost use Rattle.mysql_program.specs.RowText as spec;

use crate::decimal::{i64_of, u64_of};
use crate::digits::HexDigits;
use crate::parts::parts_of;
use crate::time_text::{date_of, double_of, float_of, time_of};
use mysql_bulk::BulkValue;
use mysql_values::Value;
use std::alloc::{AllocError, Global};

/// The parsed word of a row.
#[derive(Drop)]
pub enum RowCell {
    Given(Value),
    Default,
    Ignore,
}

impl RowCell {
    /// Borrows the cell as a bulk value.
    fn as_bulk_value(&self) -> BulkValue<'_>
        ensures value { cell_of result ≡ spec.cell_read self.now }
    {
        match self {
            RowCell::Given(value) => BulkValue::Value(value.as_ref()),
            RowCell::Default => BulkValue::Default,
            RowCell::Ignore => BulkValue::Ignore,
        }
    }

    /// Copies the value, if it is NULL, bytes or an integer.
    fn to_value(&self, alloc: Global) -> Result<Option<Value>, AllocError>
        ensures value { IfOk result (λ value. option_map content_of value ≡ spec.value_in (spec.cell_read self.now)) }
    {
        match self {
            RowCell::Given(value) if is_plain(value) => Ok(Some(value.as_ref().to_owned(alloc)?)),
            _ => Ok(None),
        }
    }
}

/// Whether the value is NULL, bytes or an integer, which need no declared type.
fn is_plain(value: &Value) -> bool
    ensures { result ≡ spec.is_plain (content_of value.now) }
{
    matches!(
        value,
        Value::NULL | Value::Bytes(_) | Value::Int(_) | Value::UInt(_)
    )
}

/// Parses each line of a text as a row.
pub fn read_rows(alloc: Global, text: &[u8]) -> Result<Option<Vec<Vec<RowCell>>>, AllocError>
    ensures value { IfOk result (λ rows. option_map (λ rows. spec.rows_read rows.items) rows ≡ spec.rows_of text.now) }
{
    let mut rows = Vec::new(alloc);
    for line in lines_of(alloc, text)?.as_slice() {
        match read_row(alloc, line)? {
            Some(row) => rows.push(row)?,
            None => return Ok(None),
        }
    }
    Ok(Some(rows))
}

/// Parses a line as a row.
fn read_row(alloc: Global, line: &[u8]) -> Result<Option<Vec<RowCell>>, AllocError>
    ensures value { IfOk result (λ row. option_map spec.row_read row ≡ spec.row_of_line line.now) }
{
    let mut row = Vec::new(alloc);
    for word in words_of(alloc, line)?.as_slice() {
        match read_cell(alloc, word)? {
            Some(cell) => row.push(cell)?,
            None => return Ok(None),
        }
    }
    Ok(Some(row))
}

/// Parses a word.
fn read_cell(alloc: Global, word: &[u8]) -> Result<Option<RowCell>, AllocError>
    ensures value { IfOk result (λ cell. option_map spec.cell_read cell ≡ spec.cell_of_word word.now) }
{
    if word == b"D".as_slice() {
        return Ok(Some(RowCell::Default));
    }
    if word == b"I".as_slice() {
        return Ok(Some(RowCell::Ignore));
    }
    Ok(read_value(alloc, word)?.map(RowCell::Given))
}

/// Parses a word as a value.
fn read_value(alloc: Global, word: &[u8]) -> Result<Option<Value>, AllocError>
    ensures value { IfOk result (λ value. option_map content_of value ≡ spec.value_of word.now) }
{
    let Some((kind, digits)) = word.split_first() else {
        return Ok(None);
    };
    Ok(match *kind {
        b'N' if digits.is_empty() => Some(Value::NULL),
        b'i' => i64_of(digits).map(Value::Int),
        b'u' => u64_of(digits).map(Value::UInt),
        b'b' => match HexDigits::new(digits) {
            Some(digits) => Some(Value::Bytes(digits.decode(alloc)?)),
            None => None,
        },
        b'f' => float_of(digits),
        b'd' => double_of(digits),
        b'y' => date_of(digits),
        b't' => time_of(digits),
        _ => None,
    })
}

/// Borrows each row as bulk values.
pub fn borrowed_rows(
    alloc: Global,
    rows: &[Vec<RowCell>],
) -> Result<Vec<Vec<BulkValue<'_>>>, AllocError>
    ensures value { IfOk result (λ borrowed. cells_of_rows borrowed.items ≡ spec.rows_read rows.now) }
{
    let mut borrowed = Vec::with_capacity(alloc, rows.len())?;
    for row in rows {
        borrowed.push(borrowed_row(alloc, row.as_slice())?)?;
    }
    Ok(borrowed)
}

/// Borrows a row as bulk values.
fn borrowed_row(alloc: Global, row: &[RowCell]) -> Result<Vec<BulkValue<'_>>, AllocError>
    ensures value { IfOk result (λ borrowed. cells_of_row borrowed ≡ map spec.cell_read row.now) }
{
    let mut borrowed = Vec::with_capacity(alloc, row.len())?;
    for cell in row {
        borrowed.push(cell.as_bulk_value())?;
    }
    Ok(borrowed)
}

/// Copies the values of the rows, or returns `None` if a row has a float, a date, a time, DEFAULT or IGNORE.
pub fn rows_of_values(
    alloc: Global,
    rows: &[Vec<RowCell>],
) -> Result<Option<Vec<Vec<Value>>>, AllocError>
    ensures value { IfOk result (λ values. option_map (λ values. contents_of_rows values.items) values ≡ spec.value_rows (spec.rows_read rows.now)) }
{
    let mut values = Vec::new(alloc);
    for row in rows {
        match values_of_row(alloc, row.as_slice())? {
            Some(row) => values.push(row)?,
            None => return Ok(None),
        }
    }
    Ok(Some(values))
}

/// Copies the values of a row, or returns `None` if it has a float, a date, a time, DEFAULT or IGNORE.
fn values_of_row(alloc: Global, row: &[RowCell]) -> Result<Option<Vec<Value>>, AllocError>
    ensures value { IfOk result (λ values. option_map contents_of_row values ≡ spec.values_in (map spec.cell_read row.now)) }
{
    let mut values = Vec::new(alloc);
    for cell in row {
        match cell.to_value(alloc)? {
            Some(value) => values.push(value)?,
            None => return Ok(None),
        }
    }
    Ok(Some(values))
}

/// The lines of a text. The last one may lack its line feed.
#[tactic(auto, using(crate::proofs::Rows::feeds), unfolding(crate::specs::RowText::lines_of))]
fn lines_of(alloc: Global, text: &[u8]) -> Result<Vec<&[u8]>, AllocError>
    ensures value { IfOk result (λ lines. map (λ line. line.now) lines.items ≡ spec.lines_of text.now) }
{
    if text.is_empty() {
        return Ok(Vec::new(alloc));
    }
    parts_of(alloc, text.strip_suffix(b"\n").unwrap_or(text), b'\n')
}

/// The words of a line, separated by single spaces.
#[tactic(auto, unfolding(crate::specs::RowText::words_of))]
fn words_of(alloc: Global, line: &[u8]) -> Result<Vec<&[u8]>, AllocError>
    ensures value { IfOk result (λ words. map (λ word. word.now) words.items ≡ spec.words_of line.now) }
{
    if line.is_empty() {
        return Ok(Vec::new(alloc));
    }
    parts_of(alloc, line, b' ')
}
