//! Writes binary rows: each value is visited once to compute its length, and once to write it.
#![tactic(auto, using(crate::proofs::BinaryRows::binary_rows))]

ghost use Rattle.std.specs.Prelude.{◌≡◌, ◌≢◌, ◌+◌, ◌*◌, ◌<◌, ◌≤◌, ◌^◌, ℕ, IsTrue, MatchOption, false, length, replicate, true};
ghost use Rattle.mysql_wire.specs.Writing.{saturated};
ghost use Rattle.mysql_stmt.specs.BinaryRow.{IsRowBytes, bin_in, takes, values_bytes};
ghost use Rattle.mysql_stmt.specs.BinaryRow as row;
ghost use Rattle.mysql_stmt.specs.Bitmap.{bytes_for, cell};
ghost use Rattle.mysql_stmt.specs.ExecuteParam.{contents, value_of};
ghost use Rattle.mysql_stmt.specs.NullMarks.{MarksNulls, is_null};
ghost use Rattle.mysql_values.specs.Value.{Bytes};
ghost use Rattle.mysql_values.specs.ValueRef.{ref_content};
ghost use Rattle.mysql_packets_c.specs.Appends.{Appends};
ghost use Rattle.mysql_packets_c.specs.BinaryRow.{cell_in, has_null, takes_value};
ghost use Rattle.mysql_packets_c.specs.ColumnType.{type_of, unsigned_of};
ghost use Rattle.mysql_packets_c.specs.Execution.{param};
ghost use Rattle.mysql_packets_c.specs.Rows as spec;
ghost use Rattle.mysql_packets_c.specs.Value.{value_content, values_contents};

use crate::rows::CColumnType;
use crate::value::{CValue, to_ref};
use mysql_stmt::{AsExecuteParam, NullBitmap, TypedColumn};
use mysql_values::{ServerSide, ValueRef};
use mysql_wire::{Buffer, BytesRepr, ColumnType, LenEnc, MySerialize, SliceWriter};

/// The length of a value in a column of the type, or `usize::MAX` if it is greater; `None` if it doesn't fit.
#[inline(always)]
fn taken_len(column_type: ColumnType, is_unsigned: bool, value: ValueRef<'_>) -> Option<usize>
    ensures { MatchOption result (takes column_type is_unsigned (ref_content value.entry) ≡ false) (λ n. (takes column_type is_unsigned (ref_content value.entry) ≡ true) × (n ≡ saturated (length (bin_in column_type (ref_content value.entry))))) }
{
    if !value.is_taken_by(column_type, is_unsigned) {
        return None;
    }
    Some(value.cell_len(column_type))
}

/// The length of a value of any kind, which may be invalid.
// (by a call, so that what counts numbers and strings stays small enough to be in line)
#[inline(never)]
fn any_len(column: &CColumnType, value: &CValue<'_>) -> Option<usize>
    ensures { MatchOption result (takes_value column.now value.now ≡ false) (λ n. (takes_value column.now value.now ≡ true) × (n ≡ saturated (length (cell_in column.now value.now)))) }
{
    taken_len(column.value_type(), column.is_unsigned(), to_ref(value)?)
}

/// The length of a number of eight bytes.
const LONGLONG_LEN: usize = 8;

/// Whether the value is a signed number in a column of such numbers.
#[inline(always)]
#[tactic(auto, unfolding(crate::specs::Value::value_content))]
fn is_longlong(column: &CColumnType, value: &CValue<'_>) -> bool
    ensures takes { IsTrue result → takes_value column.now value.now ≡ true }
    ensures len { IsTrue result → 8 ≡ saturated (length (cell_in column.now value.now)) }
{
    if value.kind != 2 || column.is_unsigned() {
        return false;
    }
    match column.value_type() {
        ColumnType::MYSQL_TYPE_LONGLONG => true,
        _ => false,
    }
}

/// The length of a byte string.
#[inline(always)]
fn string_len(column_type: ColumnType, is_unsigned: bool, bytes: &[u8]) -> Option<usize>
    ensures { MatchOption result (takes column_type is_unsigned (Bytes bytes.now) ≡ false) (λ size. (takes column_type is_unsigned (Bytes bytes.now) ≡ true) × (size ≡ saturated (length (bin_in column_type (Bytes bytes.now))))) }
{
    if !ValueRef::Bytes(bytes).is_taken_by(column_type, is_unsigned) {
        return None;
    }
    Some(<LenEnc as BytesRepr>::written_len(bytes))
}

/// The length of a value, by its kind.
#[inline(always)]
#[tactic(auto, unfolding(crate::specs::Value::value_content))]
fn cell_len(column: &CColumnType, value: &CValue<'_>) -> Option<usize>
    ensures { MatchOption result (takes_value column.now value.now ≡ false) (λ n. (takes_value column.now value.now ≡ true) × (n ≡ saturated (length (cell_in column.now value.now)))) }
{
    match value.kind {
        1 => string_len(column.value_type(), column.is_unsigned(), value.bytes),
        _ => any_len(column, value),
    }
}

/// The length of what is written, if all of it fits.
#[derive(Drop)]
pub(crate) struct Counted {
    /// In bytes, or `usize::MAX` if it is greater.
    pub(crate) len: usize,
    /// Whether a value takes no bytes, such as NULL.
    pub(crate) has_empty: bool,
}

/// The total length of the values of a row, one for each column.
#[tactic(auto, using(crate::proofs::BinaryRows::binary_rows, crate::proofs::BinaryRows::counted))]
fn values_len(columns: &[CColumnType], values: &[CValue<'_>]) -> Option<Counted>
    requires { length columns.now ≡ length values.now }
    ensures { MatchOption result (spec.row_fits columns.now values.now ≡ false) (λ found. (spec.row_fits columns.now values.now ≡ true) × (found.len ≡ saturated (length (values_bytes type_of unsigned_of columns.now (values_contents values.now)))) × (found.has_empty ≡ false → has_null values.now ≡ false)) }
{
    let mut len: usize = 0;
    let mut has_empty = false;
    for place in 0..values.len() {
        // (numbers first: what finds the length of any kind takes twice as long)
        if is_longlong(&columns[place], &values[place]) {
            len = len.saturating_add(LONGLONG_LEN);
            continue;
        }
        let more = cell_len(&columns[place], &values[place])?;
        len = len.saturating_add(more);
        has_empty = has_empty || more == 0;
    }
    Some(Counted { len, has_empty })
}

/// The length of a row; `None` if a value is invalid or doesn't fit its column, or there isn't one for each
/// column.
pub(crate) fn row_len(columns: &[CColumnType], values: &[CValue<'_>]) -> Option<Counted>
    requires { length values.now < 2 ^ 63 }
    ensures { MatchOption result (spec.row_fits columns.now values.now ≡ false) (λ found. (spec.row_fits columns.now values.now ≡ true) × (found.len ≡ saturated (row.row_len type_of unsigned_of columns.now (values_contents values.now))) × (found.has_empty ≡ false → has_null values.now ≡ false)) }
{
    if columns.len() != values.len() {
        return None;
    }
    let front = 1 + NullBitmap::<ServerSide>::bitmap_len(values.len());
    let counted = values_len(columns, values)?;
    Some(Counted {
        len: counted.len.saturating_add(front),
        has_empty: counted.has_empty,
    })
}

/// Sets one bit of a bitmap.
#[inline(always)]
fn set_bit(bytes: &mut [u8], at: usize, bit: usize)
    requires at { at < length bytes.old }
    requires bit { bit < 8 }
    ensures len { length bytes.new ≡ length bytes.old }
    ensures this { cell bytes.new (at * 8 + bit) ≡ 1 }
    ensures others { (j : ℕ) → j ≢ at * 8 + bit → cell bytes.new j ≡ cell bytes.old j }
{
    bytes[at] |= 1u8 << bit;
}

/// Whether the value is NULL.
#[inline(always)]
#[tactic(auto, unfolding(crate::specs::Value::value_content))]
fn holds_null(value: &CValue<'_>) -> bool
    ensures { result ≡ is_null (value_content value.now) }
{
    match value.kind {
        1 | 2 | 3 | 4 | 5 | 6 | 7 => false,
        _ => true,
    }
}

/// Sets the bits of the NULL values in a bitmap in which none is set.
fn mark_nulls(values: &[CValue<'_>], nulls: &mut [u8])
    requires count { length values.now < 2 ^ 63 }
    requires len { length nulls.old ≡ bytes_for 2 (length values.now) }
    requires clear { nulls.old ≡ replicate (bytes_for 2 (length values.now)) 0 }
    ensures { MarksNulls 2 (values_contents values.now) nulls.new }
{
    for (i, value) in values.iter().enumerate() {
        if holds_null(value) {
            let place = i + 2;
            set_bit(nulls, place / 8, place % 8);
        }
    }
}

/// Sets the bits of the NULL values, if there may be any, in a bitmap in which none is set.
#[inline(always)]
fn mark_any(values: &[CValue<'_>], may_have_null: bool, nulls: &mut [u8])
    requires count { length values.now < 2 ^ 63 }
    requires none { may_have_null ≡ false → has_null values.now ≡ false }
    requires len { length nulls.old ≡ bytes_for 2 (length values.now) }
    requires clear { nulls.old ≡ replicate (bytes_for 2 (length values.now)) 0 }
    ensures { MarksNulls 2 (values_contents values.now) nulls.new }
{
    if may_have_null {
        mark_nulls(values, nulls);
    }
}

/// Writes the NULL bitmap over a slice of its length.
#[inline(always)]
fn put_nulls(values: &[CValue<'_>], may_have_null: bool, nulls: &mut [u8])
    requires sent { contents param values.now ≡ values_contents values.now }
    requires count { length values.now < 2 ^ 63 }
    requires none { may_have_null ≡ false → has_null values.now ≡ false }
    requires len { length nulls.old ≡ bytes_for 2 (length values.now) }
    ensures { MarksNulls 2 (contents param values.now) nulls.new }
{
    nulls.fill(0);
    mark_any(values, may_have_null, nulls);
}

/// Writes a value of any kind in its column's width, for which there is capacity.
// (by a call, so that what writes numbers and strings stays small enough to be in line)
#[inline(never)]
fn append_any<O: Buffer>(column: &CColumnType, value: &CValue<'_>, out: &mut O)
    requires { length (O.held out.old) + length (bin_in (type_of column.now) (value_of (param value.now))) ≤ O.capacity out.old }
    ensures { Appends O.held O.after O.capacity O.kept (bin_in (type_of column.now) (value_of (param value.now))) out.old out.new }
{
    value.append_cell(column.value_type(), out);
}

/// Writes a value of any kind by a call, with the buffer in a variable of its own, so that the caller's stays
/// in registers.
#[inline(always)]
fn append_apart<O: Buffer>(column: &CColumnType, value: &CValue<'_>, out: &mut O)
    requires { length (O.held out.old) + length (bin_in (type_of column.now) (value_of (param value.now))) ≤ O.capacity out.old }
    ensures { Appends O.held O.after O.capacity O.kept (bin_in (type_of column.now) (value_of (param value.now))) out.old out.new }
{
    let mut taken = out.taken();
    append_any(column, value, &mut taken);
    *out = taken;
}

/// Writes an integer in its column's width, for which there is capacity.
#[inline(always)]
#[tactic(auto, unfolding(crate::specs::Value::value_content))]
fn append_integer<O: Buffer>(column: &CColumnType, value: &CValue<'_>, out: &mut O)
    requires capacity { length (O.held out.old) + length (bin_in (type_of column.now) (value_of (param value.now))) ≤ O.capacity out.old }
    requires integer { value.now.kind ≡ 2 }
    ensures { Appends O.held O.after O.capacity O.kept (bin_in (type_of column.now) (value_of (param value.now))) out.old out.new }
{
    match column.value_type() {
        ColumnType::MYSQL_TYPE_LONGLONG => ValueRef::Int(value.number.cast_signed()).append_cell(
            ColumnType::MYSQL_TYPE_LONGLONG,
            out,
        ),
        _ => append_apart(column, value, out),
    }
}

/// Writes a value in its column's width, for which there is capacity.
#[inline(always)]
#[tactic(auto, unfolding(crate::specs::Value::value_content))]
fn append_cell<O: Buffer>(column: &CColumnType, value: &CValue<'_>, out: &mut O)
    requires { length (O.held out.old) + length (bin_in (type_of column.now) (value_of (param value.now))) ≤ O.capacity out.old }
    ensures { Appends O.held O.after O.capacity O.kept (bin_in (type_of column.now) (value_of (param value.now))) out.old out.new }
{
    match value.kind {
        1 => ValueRef::Bytes(value.bytes).append(out),
        2 => append_integer(column, value, out),
        _ => append_apart(column, value, out),
    }
}

/// Writes the values of a row, each in its column's width, for which there is capacity.
// (the buffer is moved to a local one, whose place in memory no write to its bytes can change: so those of a number are one
// store)
fn append_values<O: Buffer>(columns: &[CColumnType], values: &[CValue<'_>], out: &mut O)
    requires same { length columns.now ≡ length values.now }
    requires capacity { length (O.held out.old) + length (values_bytes type_of unsigned_of columns.now (contents param values.now)) ≤ O.capacity out.old }
    ensures { Appends O.held O.after O.capacity O.kept (values_bytes type_of unsigned_of columns.now (contents param values.now)) out.old out.new }
{
    let mut bytes = out.taken();
    for place in 0..values.len() {
        append_cell(&columns[place], &values[place], &mut bytes);
    }
    *out = bytes;
}

/// Writes the values of a row over a slice of their length.
#[inline(always)]
fn put_values(columns: &[CColumnType], values: &[CValue<'_>], out: &mut [u8])
    requires same { length columns.now ≡ length values.now }
    requires len { length out.old ≡ length (values_bytes type_of unsigned_of columns.now (contents param values.now)) }
    ensures { out.new ≡ values_bytes type_of unsigned_of columns.now (contents param values.now) }
{
    let mut writer = SliceWriter::new(out);
    append_values(columns, values, &mut writer);
}

/// Writes a row over a slice of its length.
pub(crate) fn put_row(
    columns: &[CColumnType],
    values: &[CValue<'_>],
    may_have_null: bool,
    out: &mut [u8],
)
    requires sent { contents param values.now ≡ values_contents values.now }
    requires same { length columns.now ≡ length values.now }
    requires count { length values.now < 2 ^ 63 }
    requires none { may_have_null ≡ false → has_null values.now ≡ false }
    requires len { length out.old ≡ row.row_len type_of unsigned_of columns.now (contents param values.now) }
    ensures { IsRowBytes type_of unsigned_of columns.now (contents param values.now) out.new }
{
    let (first, after) = out.split_at_mut(1);
    first.fill(0);
    let (nulls, rest) = after.split_at_mut(NullBitmap::<ServerSide>::bitmap_len(values.len()));
    put_nulls(values, may_have_null, nulls);
    put_values(columns, values, rest);
}
