//! Binary rows, written from their values.

ghost use Rattle.std.specs.Prelude.{◌≡◌, ◌≢◌, ◌+◌, ◌++◌, ◌<◌, ◌≤◌, ◌^◌, [], drop, length, vec_len, vec_capacity, OnOk, OnErr, IfErr, IfNone, IfOk, IfSome, IsTrue, List, ℕ};
ghost use Rattle.mysql_wire.specs.Writing.{saturated};
ghost use Rattle.mysql_values.specs.Value.{Int};
ghost use Rattle.mysql_values.specs.ValueKind.{kind_of};
ghost use Rattle.mysql_values.specs.ValueRef.{ref_content};
ghost use Rattle.mysql_stmt.specs.ExecuteParam.{contents, param_of, ref_param};
ghost use Rattle.mysql_stmt.specs.RowView.{refs_held};
ghost use Rattle.mysql_stmt.specs.BinaryRow as spec;

use crate::execute_param::{AsExecuteParam, ExecuteParam};
use crate::items::put_over;
use crate::null_bitmap::NullBitmap;
use crate::null_marks::{append_nulls, put_nulls};
use crate::typed_column::TypedColumn;
use mysql_values::{ServerSide, ValueKind, ValueRef, string_type};
use mysql_wire::{Buffer, ColumnType, IntRepr, LeU64, MySerialize};
use thiserror::Error;

/// Why a binary row can't be written.
///
/// ```
/// write_binary_row(columns, &[ValueRef::Int(7), ValueRef::NULL], out)
/// ```
#[derive(Clone, Copy, Debug, PartialEq, Eq, Error)]
pub enum BinaryRowError {
    /// The numbers of columns and values differ.
    #[error("number of values differs from the number of columns")]
    Count,
    /// The first position whose column does not accept its value.
    #[error("value does not fit the type of its column")]
    Value(usize),
    /// Allocating the row failed.
    #[error("Memory")]
    Memory,
}

/// Whether an integer is in the range of a signed type, from -half to half - 1, or of an unsigned one, from 0
/// to 2 half - 1.
#[inline]
fn has_width(is_unsigned: bool, half: u64, n: i64) -> bool
    requires { half ≤ 2147483648 }
    ensures { result ≡ spec.has_width is_unsigned half n }
{
    if n < 0 {
        !is_unsigned && n.unsigned_abs() <= half
    } else if is_unsigned {
        n.unsigned_abs() < 2 * half
    } else {
        n.unsigned_abs() < half
    }
}

fn takes_integer(column_type: ColumnType, is_unsigned: bool, n: i64) -> bool
    ensures { result ≡ spec.takes_integer (kind_of column_type) is_unsigned n }
{
    match column_type {
        ColumnType::MYSQL_TYPE_TINY => has_width(is_unsigned, 1 << 7, n),
        ColumnType::MYSQL_TYPE_SHORT | ColumnType::MYSQL_TYPE_YEAR => {
            has_width(is_unsigned, 1 << 15, n)
        }
        ColumnType::MYSQL_TYPE_LONG | ColumnType::MYSQL_TYPE_INT24 => {
            has_width(is_unsigned, 1 << 31, n)
        }
        ColumnType::MYSQL_TYPE_LONGLONG => !is_unsigned,
        _ => false,
    }
}

/// Whether a column of the type can be read as the value.
// Inlined, like the next two, so that a value made for the call stays in registers.
#[inline(always)]
pub(crate) fn takes(column_type: ColumnType, is_unsigned: bool, value: &ValueRef<'_>) -> bool
    ensures { result ≡ spec.takes column_type is_unsigned (ref_content value.now) }
{
    match value {
        ValueRef::NULL => true,
        ValueRef::Bytes(_) => matches!(column_type, string_type!()),
        ValueRef::Int(n) => takes_integer(column_type, is_unsigned, *n),
        ValueRef::UInt(_) => {
            matches!(column_type, ColumnType::MYSQL_TYPE_LONGLONG) && is_unsigned
        }
        value => ValueKind::of(column_type).matches_type(value),
    }
}

/// Whether a binary row can hold a parameter in a column of the type: it can't hold a date with an offset, or a
/// value kept as raw bytes.
#[inline(always)]
pub(crate) fn takes_param(
    column_type: ColumnType,
    is_unsigned: bool,
    param: ExecuteParam<'_>,
) -> bool
    ensures { result ≡ spec.takes_param column_type is_unsigned (param_of param.entry) }
{
    match param {
        ExecuteParam::Value(value) => takes(column_type, is_unsigned, &value),
        ExecuteParam::SentAhead => takes(column_type, is_unsigned, &ValueRef::Bytes(&[])),
        ExecuteParam::DateTimeWithOffset(_) | ExecuteParam::AsSent { .. } => false,
    }
}

/// The first position whose column does not accept its value. There is a value for each column.
fn refused_at<C: TypedColumn, V: AsExecuteParam>(columns: &[C], values: &[V]) -> Option<usize>
    requires { length columns.now ≡ length values.now }
    ensures none { IfNone result (IsTrue (spec.takes_values C.type_of C.unsigned V.param columns.now values.now)) }
    ensures some { IfSome result (λ place. spec.IsFirstRefused C.type_of C.unsigned V.param columns.now values.now place) }
{
    for place in 0..values.len() {
        let column = &columns[place];
        if !values[place].is_taken_by(column.value_type(), column.is_unsigned()) {
            return Some(place);
        }
    }
    None
}

/// The length of an integer in a column of the type, in bytes.
#[inline]
fn integer_size(column_type: ColumnType) -> usize
    ensures { result ≡ spec.integer_size (kind_of column_type) }
{
    match column_type {
        ColumnType::MYSQL_TYPE_TINY => 1,
        ColumnType::MYSQL_TYPE_SHORT | ColumnType::MYSQL_TYPE_YEAR => 2,
        ColumnType::MYSQL_TYPE_LONG | ColumnType::MYSQL_TYPE_INT24 => 4,
        ColumnType::MYSQL_TYPE_LONGLONG => 8,
        _ => 0,
    }
}

/// The length of a value in a column of the type in bytes, or `usize::MAX` if it is greater.
#[inline(always)]
#[tactic(auto, unfolding(mysql_wire::specs::Writing::saturated))]
pub(crate) fn cell_len(column_type: ColumnType, value: &ValueRef<'_>) -> usize
    ensures { result ≡ saturated (length (spec.bin_in column_type (ref_content value.now))) }
{
    match value {
        ValueRef::Int(_) => integer_size(column_type),
        value => value.defined_len(),
    }
}

/// The total length of the values of a row.
fn values_len<C: TypedColumn, V: AsExecuteParam>(columns: &[C], values: &[V]) -> usize
    requires { length columns.now ≡ length values.now }
    ensures { result ≡ saturated (length (spec.values_bytes C.type_of C.unsigned columns.now (contents V.param values.now))) }
{
    let mut total: usize = 0;
    for place in 0..values.len() {
        total = total.saturating_add(values[place].cell_len(columns[place].value_type()));
    }
    total
}

/// Writes the low bytes of an integer: those that it takes in a column of the type.
#[inline]
#[tactic(auto, using(crate::proofs::RowBytes::row_bytes))]
fn append_integer<O: Buffer>(column_type: ColumnType, n: i64, out: &mut O)
    requires { length (O.held out.old) + length (spec.bin_in column_type (Int n)) ≤ O.capacity out.old }
    ensures items { O.held out.new ≡ O.held out.old ++ spec.bin_in column_type (Int n) }
    ensures after { O.after out.new ≡ drop (length (spec.bin_in column_type (Int n))) (O.after out.old) }
    ensures capacity { O.capacity out.old ≤ O.capacity out.new }
    ensures kept { O.kept out.new ≡ O.kept out.old }
{
    // With a known width it is one store.
    if let ColumnType::MYSQL_TYPE_LONGLONG = column_type {
        <LeU64 as IntRepr>::append(n.cast_unsigned(), out);
        return;
    }
    let bytes = n.cast_unsigned().to_le_bytes();
    let size = integer_size(column_type);
    out.push_bytes(&bytes[..size]);
}

/// Writes a value in a column of the type.
#[inline(always)]
pub(crate) fn append_cell<O: Buffer>(column_type: ColumnType, value: &ValueRef<'_>, out: &mut O)
    requires { length (O.held out.old) + length (spec.bin_in column_type (ref_content value.now)) ≤ O.capacity out.old }
    ensures items { O.held out.new ≡ O.held out.old ++ spec.bin_in column_type (ref_content value.now) }
    ensures after { O.after out.new ≡ drop (length (spec.bin_in column_type (ref_content value.now))) (O.after out.old) }
    ensures capacity { O.capacity out.old ≤ O.capacity out.new }
    ensures kept { O.kept out.new ≡ O.kept out.old }
{
    match value {
        ValueRef::Int(n) => append_integer(column_type, *n, out),
        value => value.append(out),
    }
}

/// Writes the values of a row.
// A local buffer: writes to its bytes can't alias the buffer itself, so each number is one store.
fn append_values<C: TypedColumn, V: AsExecuteParam, O: Buffer>(
    columns: &[C],
    values: &[V],
    out: &mut O,
)
    requires same { length columns.now ≡ length values.now }
    requires capacity { length (O.held out.old) + length (spec.values_bytes C.type_of C.unsigned columns.now (contents V.param values.now)) ≤ O.capacity out.old }
    ensures items { O.held out.new ≡ O.held out.old ++ spec.values_bytes C.type_of C.unsigned columns.now (contents V.param values.now) }
    ensures after { O.after out.new ≡ drop (length (spec.values_bytes C.type_of C.unsigned columns.now (contents V.param values.now))) (O.after out.old) }
    ensures capacity { O.capacity out.old ≤ O.capacity out.new }
    ensures kept { O.kept out.new ≡ O.kept out.old }
{
    let mut bytes = out.taken();
    for place in 0..values.len() {
        values[place].append_cell(columns[place].value_type(), &mut bytes);
    }
    *out = bytes;
}

/// The values of a row, each in the width of its column: one for each column.
#[derive(Drop)]
struct RowValues<'a, C, V> {
    columns: &'a [C],
    values: &'a [V],
    ghost same: { length columns.now ≡ length values.now },
}

impl<C: TypedColumn, V: AsExecuteParam> MySerialize for RowValues<'_, C, V> {
    ghost use Rattle.mysql_stmt.specs.BinaryRow.{values_bytes};
    ghost use Rattle.mysql_stmt.specs.ExecuteParam.{contents};

    ghost bytes = { λ r. values_bytes C.type_of C.unsigned r.columns.now (contents V.param r.values.now) };

    fn defined_len(&self) -> usize {
        values_len(self.columns, self.values)
    }

    fn append<O: Buffer>(&self, out: &mut O) {
        append_values(self.columns, self.values, out);
    }
}

/// Writes a row over a slice of its length.
fn put_row<C: TypedColumn, V: AsExecuteParam>(columns: &[C], values: &[V], out: &mut [u8])
    requires same { length columns.now ≡ length values.now }
    requires count { length values.now < 2 ^ 63 }
    requires len { length out.old ≡ spec.row_len C.type_of C.unsigned columns.now (contents V.param values.now) }
    ensures { spec.IsRowBytes C.type_of C.unsigned columns.now (contents V.param values.now) out.new }
{
    let (first, after) = out.split_at_mut(1);
    first.fill(0);
    let (nulls, rest) = after.split_at_mut(NullBitmap::<ServerSide>::bitmap_len(values.len()));
    put_nulls::<ServerSide, V>(values, nulls);
    put_over(&RowValues { columns, values }, rest);
}

/// Appends a server's binary row (`ProtocolBinary::ResultsetRow`) to a buffer, which grows at most once.
///
/// | Bytes | Field |
/// |---|---|
/// | 1 | a zero |
/// | 1 for 8 columns and 2 bits more | a bit for each value, the first one the third, set for NULL |
/// | to the end | the values that are not NULL, one after another, each in the form of its column's type |
///
/// A column accepts NULL, and the values that its type is read as:
///
/// | Type | Values |
/// |---|---|
/// | `TINY`; `SHORT`, `YEAR`; `LONG`, `INT24` | `Int` of 8, 16, 32 bits: unsigned if the column is unsigned, otherwise signed |
/// | `LONGLONG` | `Int` |
/// | `LONGLONG`, unsigned | `UInt` |
/// | `FLOAT`, `DOUBLE` | `Float`, `Double` |
/// | `DATETIME`, `TIMESTAMP` | `Date` |
/// | `DATE` | `Date` without a time of day |
/// | `TIME` | `Time` |
/// | `VARCHAR`, `VAR_STRING`, `STRING`, the four `BLOB`s, `DECIMAL`, `NEWDECIMAL`, `ENUM`, `SET`, `BIT`, `JSON`, `VECTOR`, `GEOMETRY` | `Bytes` |
///
/// The row is read back as the same values, except that a negative time span of zero loses its sign. After an
/// error the buffer is unchanged. `Count` is returned before `Value`, which has the first such position, and
/// `Memory` last; it isn't returned if the buffer has the capacity. The capacity never shrinks.
///
/// ```
/// write_binary_row(columns, &[ValueRef::Int(7), ValueRef::NULL], out)
/// ```
pub fn write_binary_row<C: TypedColumn>(
    columns: &[C],
    values: &[ValueRef<'_>],
    out: &mut Vec<u8>,
) -> Result<(), BinaryRowError>
    ensures taken { OnOk result (IsTrue (spec.takes_row C.type_of C.unsigned columns.now (refs_held values.now))) }
    ensures ok { OnOk result (spec.AppendsRow C.type_of C.unsigned columns.now (refs_held values.now) out.old.items out.new.items) }
    ensures refused { IfErr result (λ e. spec.RefusesRow C.type_of C.unsigned ref_param columns.now values.now e) }
    ensures err { OnErr result (out.new.items ≡ out.old.items) }
    ensures no_memory { vec_len out.old + spec.row_len C.type_of C.unsigned columns.now (refs_held values.now) ≤ vec_capacity out.old → result ≢ Err BinaryRowError.Memory }
    ensures capacity { vec_capacity out.old ≤ vec_capacity out.new }
{
    if columns.len() != values.len() {
        return Err(BinaryRowError::Count);
    }
    if let Some(place) = refused_at(columns, values) {
        return Err(BinaryRowError::Value(place));
    }
    let front = 1 + NullBitmap::<ServerSide>::bitmap_len(values.len());
    let len = values_len(columns, values).saturating_add(front);
    if out.reserve(len).is_err() {
        return Err(BinaryRowError::Memory);
    }
    out.push_reserved(0);
    append_nulls::<ServerSide, ValueRef<'_>>(values, out);
    append_values(columns, values, out);
    Ok(())
}

/// Writes a server's row to the front of a slice, from values of any type that can be a parameter. It takes no memory.
///
/// A date with an offset, and a parameter as it was sent, fit no column. A parameter that was sent ahead is
/// written as an empty string.
///
/// Returns the length in bytes, or `usize::MAX` if it is greater. A slice that is too short is unchanged, as it
/// is after an error, which is `Count` or `Value`.
pub fn write_binary_row_to_slice<C: TypedColumn, V: AsExecuteParam>(
    columns: &[C],
    values: &[V],
    out: &mut [u8],
) -> Result<usize, BinaryRowError>
    requires { length values.now < 2 ^ 63 }
    ensures taken { OnOk result (IsTrue (spec.takes_row C.type_of C.unsigned columns.now (contents V.param values.now))) }
    ensures plain { OnOk result (IsTrue (spec.takes_values C.type_of C.unsigned V.param columns.now values.now)) }
    ensures len { IfOk result (λ len. len ≡ saturated (spec.row_len C.type_of C.unsigned columns.now (contents V.param values.now))) }
    ensures written { IfOk result (λ len. len ≤ length out.old → (bytes : List ℕ) × spec.IsRowBytes C.type_of C.unsigned columns.now (contents V.param values.now) bytes × (out.new ≡ bytes ++ drop len out.old)) }
    ensures small { IfOk result (λ len. length out.old < len → out.new ≡ out.old) }
    ensures refused { IfErr result (λ e. spec.RefusesRow C.type_of C.unsigned V.param columns.now values.now e) }
    ensures no_memory { result ≢ Err BinaryRowError.Memory }
    ensures err { OnErr result (out.new ≡ out.old) }
{
    if columns.len() != values.len() {
        return Err(BinaryRowError::Count);
    }
    if let Some(place) = refused_at(columns, values) {
        return Err(BinaryRowError::Value(place));
    }
    let front = 1 + NullBitmap::<ServerSide>::bitmap_len(values.len());
    let len = values_len(columns, values).saturating_add(front);
    // No slice has `usize::MAX` bytes.
    if len <= out.len() {
        put_row(columns, values, &mut out[..len]);
    }
    Ok(len)
}
