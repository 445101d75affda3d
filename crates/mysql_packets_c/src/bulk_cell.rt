//! A row of a bulk request: values, DEFAULT and IGNORE, each after its indicator and under the type of its column.
#![tactic(auto, using(crate::proofs::BulkCells::bulk_cells, mysql_wire::proofs::After::after), unfolding(mysql_wire::specs::Writing::saturated))]

ghost use Rattle.std.specs.Prelude.{◌≡◌, ◌+◌, ◌<◌, ◌≤◌, MatchOption, false, if◌then◌else◌, length, true};
ghost use Rattle.mysql_bulk.specs.BulkValue.{Given, cell_bytes};
ghost use Rattle.mysql_stmt.specs.NullMarks.{is_null};
ghost use Rattle.mysql_values.specs.Value.{NULL};
ghost use Rattle.mysql_values.specs.ValueRef.{ref_content};
ghost use Rattle.mysql_wire.specs.Writing.{saturated};
ghost use Rattle.mysql_packets_c.specs.Appends.{Appends};
ghost use Rattle.mysql_packets_c.specs.Bulk as spec;
ghost use Rattle.mysql_packets_c.specs.Value.{is_value, value_content};

use crate::bulk::declared_type;
use crate::rows::CColumnType;
use crate::value::{CValue, to_ref};
use mysql_values::{ParamType, TypedValue, ValueRef};
use mysql_wire::{Buffer, ColumnType, MariadbBulkIndicator, MySerialize};

/// The kind of a value that is the default of its column, and that of a column that is left unchanged.
const KIND_DEFAULT: u8 = 9;

const KIND_IGNORE: u8 = 10;

/// The indicator before a value, and those without a value.
const INDICATOR_NONE: u8 = MariadbBulkIndicator::BULK_INDICATOR_NONE as u8;

const INDICATOR_NULL: u8 = MariadbBulkIndicator::BULK_INDICATOR_NULL as u8;

const INDICATOR_DEFAULT: u8 = MariadbBulkIndicator::BULK_INDICATOR_DEFAULT as u8;

const INDICATOR_IGNORE: u8 = MariadbBulkIndicator::BULK_INDICATOR_IGNORE as u8;

/// The code of numbers of eight bytes.
const LONGLONG: u8 = ColumnType::MYSQL_TYPE_LONGLONG as u8;

/// The first and the last code of texts: the code of `VAR_STRING` stands between them.
const BLOB: u8 = ColumnType::MYSQL_TYPE_BLOB as u8;

const STRING: u8 = ColumnType::MYSQL_TYPE_STRING as u8;

/// Converts the value. An invalid one is NULL.
#[inline(always)]
fn given<'a>(value: &CValue<'a>) -> ValueRef<'a>
    ensures { ref_content result ≡ (if is_value value.now then value_content value.now else NULL) }
{
    match to_ref(value) {
        Some(value) => value,
        None => ValueRef::NULL,
    }
}

/// Whether the value is NULL, or a signed number of eight bytes or a text under its own type: such values are
/// encoded in line.
#[inline(always)]
#[tactic(auto, unfolding(mysql_wire::specs::ColumnType::column_type_code))]
fn is_plain(column: &CColumnType, value: &CValue<'_>) -> bool
    ensures { result ≡ spec.is_plain column.now value.now }
{
    match value.kind {
        0 => true,
        1 => column.column_type >= BLOB && column.column_type <= STRING,
        2 => column.column_type == LONGLONG && column.is_unsigned == 0,
        _ => false,
    }
}

/// Converts NULL, the number or the text.
#[inline(always)]
#[tactic(auto, unfolding(crate::specs::Value::value_content))]
fn plain<'a>(value: &CValue<'a>) -> ValueRef<'a>
    requires { value.now.kind < 3 }
    ensures { ref_content result ≡ value_content value.now }
{
    match value.kind {
        0 => ValueRef::NULL,
        1 => ValueRef::Bytes(value.bytes),
        _ => ValueRef::Int(value.number.cast_signed()),
    }
}

/// The indicator before a value.
#[inline(always)]
fn indicator_of(value: &ValueRef<'_>) -> u8
    ensures { result ≡ (if is_null (ref_content value.now) then 1 else 0) }
{
    match value {
        ValueRef::NULL => INDICATOR_NULL,
        _ => INDICATOR_NONE,
    }
}

/// The length of a value under a type with its indicator; `None` if the type can't encode it.
#[inline(always)]
fn typed_len(param_type: ParamType, value: ValueRef<'_>) -> Option<usize>
    ensures { spec.IsLen param_type (Given (ref_content value.entry)) result }
{
    let typed = TypedValue::new(param_type, value)?;
    Some(typed.defined_len().saturating_add(1))
}

/// The length of a value of any kind in a column; `None` if it is invalid, or the type can't encode it.
// (by a call, so that what counts NULLs, numbers and texts stays small enough to be in line)
#[inline(never)]
fn any_len(column: &CColumnType, value: &CValue<'_>) -> Option<usize>
    ensures { spec.IsValueLen column.now value.now result }
{
    match value.kind {
        KIND_DEFAULT => Some(1),
        KIND_IGNORE => Some(1),
        _ => typed_len(declared_type(column), to_ref(value)?),
    }
}

/// The length of a value in a column; `None` if it is invalid, or the type can't encode it.
#[inline(always)]
fn value_len(column: &CColumnType, value: &CValue<'_>) -> Option<usize>
    ensures { spec.IsValueLen column.now value.now result }
{
    // (the result of the call is tested where it is made)
    let len = if is_plain(column, value) {
        plain(value).defined_len().saturating_add(1)
    } else {
        any_len(column, value)?
    };
    Some(len)
}

/// Computes [`row_len`] with a sum that saturates.
#[inline(never)]
fn long_row_len(columns: &[CColumnType], row: &[CValue<'_>]) -> Option<usize>
    requires { length columns.now ≡ length row.now }
    ensures { MatchOption result (spec.takes_row columns.now row.now ≡ false) (λ n. (spec.takes_row columns.now row.now ≡ true) × (n ≡ saturated (length (spec.row_bytes columns.now row.now)))) }
{
    let mut len: usize = 0;
    for place in 0..row.len() {
        len = len.saturating_add(value_len(&columns[place], &row[place])?);
    }
    Some(len)
}

/// The length of a row, which has a value for each column; `None` if one of them is invalid, or its type can't
/// encode it.
pub(crate) fn row_len(columns: &[CColumnType], row: &[CValue<'_>]) -> Option<usize>
    requires { length columns.now ≡ length row.now }
    ensures { MatchOption result (spec.takes_row columns.now row.now ≡ false) (λ n. (spec.takes_row columns.now row.now ≡ true) × (n ≡ saturated (length (spec.row_bytes columns.now row.now)))) }
{
    let mut len: usize = 0;
    for place in 0..row.len() {
        let more = value_len(&columns[place], &row[place])?;
        // (a sum that saturates takes three instructions more)
        let Some(sum) = len.checked_add(more) else {
            return long_row_len(columns, row);
        };
        len = sum;
    }
    Some(len)
}

/// Writes a value under a type after its indicator, for which there is capacity.
#[inline(always)]
fn append_typed<O: Buffer>(param_type: ParamType, value: ValueRef<'_>, out: &mut O)
    requires { length (O.held out.old) + length (cell_bytes param_type (Given (ref_content value))) ≤ O.capacity out.old }
    ensures { Appends O.held O.after O.capacity O.kept (cell_bytes param_type (Given (ref_content value.entry))) out.old out.new }
{
    if let Some(typed) = TypedValue::new(param_type, value) {
        out.push_byte(indicator_of(&value));
        typed.append(out);
    }
}

/// Writes a value of any kind after its indicator, for which there is capacity.
// (by a call, so that what writes numbers and texts stays small enough to be in line)
#[inline(never)]
fn append_any<O: Buffer>(column: &CColumnType, value: &CValue<'_>, out: &mut O)
    requires { length (O.held out.old) + length (spec.value_bytes column.now value.now) ≤ O.capacity out.old }
    ensures { Appends O.held O.after O.capacity O.kept (spec.value_bytes column.now value.now) out.old out.new }
{
    match value.kind {
        KIND_DEFAULT => out.push_byte(INDICATOR_DEFAULT),
        KIND_IGNORE => out.push_byte(INDICATOR_IGNORE),
        _ => append_typed(declared_type(column), given(value), out),
    }
}

/// Writes a value of any kind by a call, with the buffer in a variable of its own, so that the caller's stays
/// in registers.
#[inline(always)]
fn append_apart<O: Buffer>(column: &CColumnType, value: &CValue<'_>, out: &mut O)
    requires { length (O.held out.old) + length (spec.value_bytes column.now value.now) ≤ O.capacity out.old }
    ensures { Appends O.held O.after O.capacity O.kept (spec.value_bytes column.now value.now) out.old out.new }
{
    let mut taken = out.taken();
    append_any(column, value, &mut taken);
    *out = taken;
}

/// Writes a value of a column after its indicator, for which there is capacity.
#[inline(always)]
fn append_value<O: Buffer>(column: &CColumnType, value: &CValue<'_>, out: &mut O)
    requires { length (O.held out.old) + length (spec.value_bytes column.now value.now) ≤ O.capacity out.old }
    ensures { Appends O.held O.after O.capacity O.kept (spec.value_bytes column.now value.now) out.old out.new }
{
    if is_plain(column, value) {
        let held = plain(value);
        out.push_byte(indicator_of(&held));
        held.append(out);
        return;
    }
    append_apart(column, value, out);
}

/// Writes a row, which has a value for each column, and for which there is capacity.
// (the buffer is moved to a local one, whose place in memory no write to its bytes can change: so those of a number are one
// store)
#[inline(always)]
pub(crate) fn append_row<O: Buffer>(columns: &[CColumnType], row: &[CValue<'_>], out: &mut O)
    requires lengths { length columns.now ≡ length row.now }
    requires capacity { length (O.held out.old) + length (spec.row_bytes columns.now row.now) ≤ O.capacity out.old }
    ensures { Appends O.held O.after O.capacity O.kept (spec.row_bytes columns.now row.now) out.old out.new }
{
    let mut bytes = out.taken();
    for place in 0..row.len() {
        append_value(&columns[place], &row[place], &mut bytes);
    }
    *out = bytes;
}
