//! The values of a binary row.

ghost use Rattle.std.specs.Prelude.{◌≡◌, ◌+◌, ◌*◌, ◌<◌, ◌≤◌, ℕ, Ok, length, vec_len, vec_capacity, All, IfOk, IfErr, OnOk, IsTrue, ◌↔◌};
ghost use Rattle.mysql_wire.specs.Reading.{Answers};
ghost use Rattle.mysql_wire.specs.Seq.{is_any};
ghost use Rattle.mysql_values.specs.Cells.{held, with_cell, RefusesValue};
ghost use Rattle.mysql_stmt.specs.Bitmap.{cell};
ghost use Rattle.mysql_stmt.specs.RowForm.{bin_cells, bin_value_unless, cells_in};

use crate::null_bitmap::NullBitmap;
use mysql_replies::Column;
use mysql_values::{SerializationSide, Value, read_bin_cell};
use mysql_wire::{FaultOf, ParseBuf};

/// Appends the value of a column, or NULL, which takes no bytes.
#[inline(always)]
fn put_cell<'s>(
    is_null: bool,
    column: &Column,
    buf: &mut ParseBuf<'_>,
    cells: &mut Vec<Option<Value>>,
) -> Result<(), FaultOf<'s>>
    requires capacity { vec_len cells.old < vec_capacity cells.old }
    ensures put { OnOk result ((with_cell (held cells.old.items) (bin_value_unless is_null column.now)).reads buf.old ≡ Ok (held cells.new.items, buf.new)) }
    ensures refused { IfErr result (λ fault. RefusesValue fault ((bin_value_unless is_null column.now).reads buf.old)) }
    ensures len { OnOk result (vec_len cells.new ≡ vec_len cells.old + 1) }
    ensures capacity { vec_capacity cells.old ≤ vec_capacity cells.new }
{
    if is_null {
        cells.push_reserved(Some(Value::NULL));
        return Ok(());
    }
    read_bin_cell((column.column_type(), column.flags()), buf, cells)
}

/// Whether the value at this position is NULL; `none` says that no value is.
#[inline(always)]
pub(crate) fn is_null_at<S: SerializationSide>(
    nulls: &NullBitmap<'_, S>,
    none: bool,
    i: usize,
) -> bool
    requires there { i + S.BIT_OFFSET < 8 * length nulls.now.bytes }
    requires none { IsTrue none → All (λ b. b ≡ 0) nulls.now.bytes }
    ensures value { IsTrue result ↔ (cell nulls.now.bytes (i + S.BIT_OFFSET) ≡ 1) }
{
    if none {
        return false;
    }
    nulls.is_null(i)
}

/// The values of a binary row after its bitmap, which has a bit for each column.
///
/// Most rows have no NULL; in these the bits aren't tested one by one.
#[inline(never)]
pub(crate) fn read_values<'s, S: SerializationSide>(
    nulls: &NullBitmap<'_, S>,
    columns: &[Column],
    buf: &mut ParseBuf<'_>,
) -> Result<Vec<Option<Value>>, FaultOf<'s>>
    requires { (i : ℕ) → i < length columns.now → i + S.BIT_OFFSET < 8 * length nulls.now.bytes }
    ensures value { Answers (is_any (length columns.now)) (cells_in result) buf.new ((bin_cells nulls.now.bytes S.BIT_OFFSET columns.now).reads buf.old) }
    ensures len { IfOk result (λ cells. length cells.items ≡ length columns.now) }
{
    let none = nulls.as_bytes().iter().all(|byte| *byte == 0);
    let mut rest = buf.rest();
    let mut cells = Vec::with_capacity(buf.alloc(), columns.len())?;
    for (i, column) in columns.iter().enumerate() {
        put_cell(is_null_at(nulls, none, i), column, &mut rest, &mut cells)?;
    }
    *buf = rest;
    Ok(cells)
}
