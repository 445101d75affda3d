//! Rows of a result.
#![tactic(auto, using(crate::proofs::Codes::codes, crate::proofs::FilledRows::rows))]

ghost use Rattle.std.specs.List.{list_all};
ghost use Rattle.std.specs.Prelude.{◌≡◌, ◌<◌, ◌≤◌, OnOk, IfErr, take, length, IsFalse, IsTrue};
ghost use Rattle.mysql_stmt.specs.RowView.{IsDone, RefusesNext, bin_row_of, text_row_of};
ghost use Rattle.mysql_stmt.specs.TextRow.{text_row_bytes};
ghost use Rattle.mysql_packets_c.specs.ColumnType.{type_of, unsigned_of};
ghost use Rattle.mysql_packets_c.specs.Output.{PutsUnlessTooLong};
ghost use Rattle.mysql_packets_c.specs.Rows as spec;
ghost use Rattle.mysql_packets_c.specs.Rows.{Fills, FillsGood, RowInto, TakesRow};

use crate::binary_row::{put_row, row_len};
use crate::code::{BUFFER_TOO_SMALL, INVALID_INPUT, OK, code_of};
use crate::output::answer_count;
use crate::text_row::{cells_len, put_cells};
use crate::value::{CValue, put_ref};
use mysql_stmt::{BinaryRowView, TextRowView, TypedColumn};
use mysql_values::ServerSide;
use mysql_wire::{ColumnType, ConstValue, Fault, ParseBuf};
use std::alloc::Global;

/// `myp_column_type` of the C header: the properties of a column that a reader of binary rows needs.
#[repr(C)]
#[derive(Clone, Copy, Drop)]
pub struct CColumnType {
    pub column_type: u8,
    pub is_unsigned: u8,
}

/// An unknown code is treated as a type without values.
impl TypedColumn for CColumnType {
    ghost type_of = { type_of };

    #[inline(always)]
    fn value_type(&self) -> ColumnType {
        match ColumnType::from_code(self.column_type) {
            Some(column_type) => column_type,
            None => ColumnType::MYSQL_TYPE_CODE_14,
        }
    }

    ghost unsigned = { unsigned_of };

    #[inline(always)]
    fn is_unsigned(&self) -> bool {
        self.is_unsigned != 0
    }
}

/// The code of numbers of eight bytes.
const LONGLONG: u8 = ColumnType::MYSQL_TYPE_LONGLONG as u8;

/// The code of strings.
const VAR_STRING: u8 = ColumnType::MYSQL_TYPE_VAR_STRING as u8;

/// Reads the next value of a binary row, which exists, into its place.
#[inline(always)]
fn put_next<'a>(
    row: &mut BinaryRowView<'a, '_, ServerSide, CColumnType>,
    place: &mut CValue<'a>,
) -> Result<(), Fault>
    requires { 0 < row.old.left }
    ensures { spec.PutsNext result row.old row.new place.old place.new }
{
    if let Some(value) = row.next_value()? {
        put_ref(place, value);
    }
    Ok(())
}

/// Reads the next value of a binary row, which exists, into its place, by code of its own for each of the most
/// frequent types: in such an arm the compiler knows the type, and the kind of the value.
#[inline(always)]
fn put_by_type<'a>(
    row: &mut BinaryRowView<'a, '_, ServerSide, CColumnType>,
    place: &mut CValue<'a>,
) -> Result<(), Fault>
    requires { 0 < row.old.left }
    ensures { spec.PutsNext result row.old row.new place.old place.new }
{
    let (code, is_unsigned) = match row.next_column() {
        Some(column) => (column.column_type, column.is_unsigned),
        None => (0, 0),
    };
    match code {
        LONGLONG => {
            if is_unsigned == 0 {
                put_next(row, place)
            } else {
                put_next(row, place)
            }
        }
        VAR_STRING => put_next(row, place),
        _ => put_next(row, place),
    }
}

/// Reads the remaining values of a binary row into the first elements.
#[inline(always)]
fn fill_binary<'a>(
    row: &mut BinaryRowView<'a, '_, ServerSide, CColumnType>,
    values: &mut [CValue<'a>],
) -> Result<(), Fault>
    requires { row.old.left ≤ length values.old }
    ensures good { Fills row.old row.new values.old values.new }
    ensures all { OnOk result (IsDone row.new) }
    ensures refused { IfErr result (λ e. RefusesNext e row.new) }
{
    let mut place = 0;
    while row.left() > 0 {
        put_by_type(row, &mut values[place])?;
        place += 1;
    }
    Ok(())
}

/// Reads a binary row into values, one for each column, and returns the number of its bytes.
#[inline(always)]
fn read_binary<'a>(
    alloc: Global,
    packet: &'a [u8],
    columns: &[CColumnType],
    values: &mut [CValue<'a>],
) -> Result<usize, Fault>
    requires { length columns.now ≤ length values.old }
    ensures value { TakesRow packet.now result (take (length columns.now) values.new) ((bin_row_of type_of unsigned_of 2 columns.now).reads packet.now) }
    ensures places { FillsGood (spec.good_binary columns.now packet.now) values.old values.new }
{
    let mut row = BinaryRowView::<ServerSide, CColumnType>::new(
        columns,
        ParseBuf::new(alloc, packet),
    )?;
    fill_binary(&mut row, values)?;
    Ok(packet.len().saturating_sub(row.rest().len()))
}

/// Reads `ProtocolBinary::ResultsetRow` into values, one for each column.
///
/// Errors: 5 if there are fewer elements than columns, and nothing changes; 1 or 2, with the values before the
/// faulty one set. The other elements are unchanged.
#[unsafe(no_mangle)]
pub extern "C" fn myp_read_binary_row<'a>(
    alloc: Global,
    packet: &'a [u8],
    columns: &[CColumnType],
    values: &mut [CValue<'a>],
    used: &mut usize,
) -> u32
    ensures small { length values.old < length columns.now → (result ≡ 5) × (values.new ≡ values.old) × (used.new ≡ used.old) }
    ensures value { length columns.now ≤ length values.old → RowInto packet.now (take (length columns.now) values.new) ((bin_row_of type_of unsigned_of 2 columns.now).reads packet.now) result used.old used.new }
    ensures places { length columns.now ≤ length values.old → FillsGood (spec.good_binary columns.now packet.now) values.old values.new }
{
    if values.len() < columns.len() {
        return BUFFER_TOO_SMALL;
    }
    match read_binary(alloc, packet, columns, values) {
        Ok(taken) => {
            *used = taken;
            OK
        }
        Err(fault) => code_of(&fault),
    }
}

/// Reads the remaining values of a text row into the first elements.
#[inline(always)]
fn fill_text<'a>(row: &mut TextRowView<'a>, values: &mut [CValue<'a>]) -> Result<(), Fault>
    requires { row.old.left ≤ length values.old }
    ensures good { Fills row.old row.new values.old values.new }
    ensures all { OnOk result (IsDone row.new) }
    ensures refused { IfErr result (λ e. RefusesNext e row.new) }
{
    let mut place = 0;
    while let Some(value) = row.next_value()? {
        put_ref(&mut values[place], value);
        place += 1;
    }
    Ok(())
}

/// Reads a text row into values, and returns the number of its bytes.
#[inline(always)]
fn read_text<'a>(alloc: Global, packet: &'a [u8], values: &mut [CValue<'a>]) -> Result<usize, Fault>
    ensures value { TakesRow packet.now result values.new ((text_row_of (length values.old)).reads packet.now) }
    ensures places { FillsGood (spec.good_text (length values.old) packet.now) values.old values.new }
{
    let mut row = TextRowView::new(values.len(), ParseBuf::new(alloc, packet));
    fill_text(&mut row, values)?;
    Ok(packet.len() - row.rest().len())
}

/// Reads `ProtocolText::ResultsetRow` into values, one for each column. After an error (1 or 2) the values
/// before the faulty one are set.
#[unsafe(no_mangle)]
pub extern "C" fn myp_read_text_row<'a>(
    alloc: Global,
    packet: &'a [u8],
    values: &mut [CValue<'a>],
    used: &mut usize,
) -> u32
    ensures value { RowInto packet.now values.new ((text_row_of (length values.old)).reads packet.now) result used.old used.new }
    ensures places { FillsGood (spec.good_text (length values.old) packet.now) values.old values.new }
{
    match read_text(alloc, packet, values) {
        Ok(taken) => {
            *used = taken;
            OK
        }
        Err(fault) => code_of(&fault),
    }
}

/// Writes `ProtocolText::ResultsetRow`. Errors: 5 if the buffer is too small, with the length needed; 4 if the length
/// overflows; 3 for a value that is neither bytes nor NULL.
#[tactic(auto, using(crate::proofs::WrittenRows::text_rows))]
#[unsafe(no_mangle)]
pub extern "C" fn myp_write_text_row(
    values: &[CValue<'_>],
    out: &mut [u8],
    written: &mut usize,
) -> u32
    ensures refused { IsFalse (list_all spec.is_cell values.now) → (result ≡ 3) × (out.new ≡ out.old) × (written.new ≡ 0) }
    ensures value { IsTrue (list_all spec.is_cell values.now) → PutsUnlessTooLong (text_row_bytes (spec.cells_of values.now)) result out.old out.new written.new }
{
    let Some(len) = cells_len(values) else {
        *written = 0;
        return INVALID_INPUT;
    };
    // (no slice has `usize::MAX` bytes)
    if len <= out.len() {
        put_cells(values, &mut out[..len]);
    }
    answer_count(len, out.len(), written)
}

/// Writes `ProtocolBinary::ResultsetRow`. Errors: 5 if the buffer is too small, with the length needed; 4 if the length
/// overflows; 3 for a value that is invalid or doesn't fit its column's type, or if there isn't a value for each column.
#[unsafe(no_mangle)]
pub extern "C" fn myp_write_binary_row(
    columns: &[CColumnType],
    values: &[CValue<'_>],
    out: &mut [u8],
    written: &mut usize,
) -> u32
    ensures refused { IsFalse (spec.row_fits columns.now values.now) → (result ≡ 3) × (out.new ≡ out.old) × (written.new ≡ 0) }
    ensures value { IsTrue (spec.row_fits columns.now values.now) → spec.PutsRow columns.now values.now result out.old out.new written.new }
{
    let Some(counted) = row_len(columns, values) else {
        *written = 0;
        return INVALID_INPUT;
    };
    let len = counted.len;
    // (no slice has `usize::MAX` bytes)
    if len <= out.len() {
        put_row(columns, values, counted.has_empty, &mut out[..len]);
    }
    answer_count(len, out.len(), written)
}
