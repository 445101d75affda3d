//! The types and the rows of a bulk execution, as a server reads them.
#![tactic(auto, using(crate::proofs::ReadBulkRows::bulk_reads))]

ghost use Rattle.std.specs.Prelude.{◌≡◌, ◌≢◌, ◌<◌, ◌≤◌, ◌⊎◌, [], false, length, map, take, true};
ghost use Rattle.mysql_bulk.specs.HeadTypes.{types_block};
ghost use Rattle.mysql_bulk.specs.ParamValue.{param_value};
ghost use Rattle.mysql_bulk.specs.ReadRows.{row_of_columns};
ghost use Rattle.mysql_values.specs.ParamType.{param_type};
ghost use Rattle.mysql_wire.specs.Reading.{Answers};
ghost use Rattle.mysql_wire.specs.Seq.{counted};
ghost use Rattle.mysql_packets_c.specs.Input.{IsRestOf};
ghost use Rattle.mysql_packets_c.specs.ColumnType.{type_of, unsigned_of};
ghost use Rattle.mysql_packets_c.specs.BulkRow as spec;

use crate::code::{BUFFER_TOO_SMALL, END, INVALID_DATA, OK, code_of};
use crate::execution::type_held;
use crate::rows::CColumnType;
use crate::text::CBytes;
use crate::value::{CValue, put_ref};
use mysql_stmt::TypedColumn;
use mysql_values::{ParamType, ValueRef, read_bin_ref};
use mysql_wire::{Const, ConstValue, Fault, FaultOf, MariadbBulkIndicator, ParseBuf};
use std::alloc::Global;

/// Reads a given number of types of two bytes each.
fn fill_block(types: &mut [CColumnType], block: &mut ParseBuf<'_>) -> Result<(), Fault>
    ensures value { spec.ReadsTypes result types.new block.new ((counted (length types.old) (param_type.form tt)).reads block.old) }
    ensures places { spec.FillsTypes (spec.good_types (length types.old) block.old) types.old types.new }
{
    for place in 0..types.len() {
        let param_type: ParamType = block.parse(())?;
        types[place] = type_held(param_type);
    }
    Ok(())
}

/// Reads the types of the columns, as many as there are elements, in one block.
fn fill_types(types: &mut [CColumnType], buf: &mut ParseBuf<'_>) -> Result<(), Fault>
    ensures value { spec.ReadsTypes result types.new buf.new ((types_block true (length types.old)).reads buf.old) }
    ensures places { spec.FillsTypes (spec.good_block (length types.old) buf.old) types.old types.new }
{
    if buf.len() / 2 < types.len() {
        return Err(FaultOf::UnexpectedEof);
    }
    let mut block: ParseBuf = buf.parse(2 * types.len())?;
    fill_block(types, &mut block)
}

/// Takes as many types as the array has elements off the front of the bytes after the head of a bulk execution.
/// After an error (1 or 2) the bytes are unchanged.
#[unsafe(no_mangle)]
pub extern "C" fn myp_read_bulk_types<'a>(
    alloc: Global,
    rest: &mut CBytes<'a>,
    types: &mut [CColumnType],
) -> u32
    ensures value { spec.TypesInto ((types_block true (length types.old)).reads rest.old.bytes.now) result rest.old rest.new types.new }
    ensures places { spec.FillsTypes (spec.good_block (length types.old) rest.old.bytes.now) types.old types.new }
    ensures place { IsRestOf rest.new rest.old }
{
    let mut buf = ParseBuf::new(alloc, rest.bytes);
    match fill_types(types, &mut buf) {
        Ok(()) => {
            rest.move_to(&buf);
            OK
        }
        Err(fault) => code_of(&fault),
    }
}

/// Reads a value after its indicator. Only the indicator of a value is followed by one.
fn read_param<'s, 'a>(
    column: &CColumnType,
    buf: &mut ParseBuf<'a>,
) -> Result<(MariadbBulkIndicator, ValueRef<'a>), FaultOf<'s>>
    ensures value { Answers false (spec.param_read result) buf.new ((param_value (type_of column.now) (unsigned_of column.now)).reads buf.old) }
{
    let indicator: Const<MariadbBulkIndicator, u8> = buf.parse(())?;
    let value = match indicator.0 {
        MariadbBulkIndicator::BULK_INDICATOR_NONE => {
            read_bin_ref(column.value_type(), column.is_unsigned(), buf)?
        }
        _ => ValueRef::NULL,
    };
    Ok((indicator.0, value))
}

/// Reads a value for each column into the first elements, and how each is given.
fn fill_row<'a>(
    types: &[CColumnType],
    buf: &mut ParseBuf<'a>,
    values: &mut [CValue<'a>],
    indicators: &mut [u8],
) -> Result<(), Fault>
    requires values { length types.now ≤ length values.old }
    requires indicators { length types.now ≤ length indicators.old }
    ensures value { spec.ReadsRow result (take (length types.now) values.new) (take (length types.now) indicators.new) buf.new ((spec.bulk_row types.now).reads buf.old) }
    ensures places { spec.FillsRow (spec.good_row types.now buf.old) values.old values.new indicators.old indicators.new }
{
    for place in 0..types.len() {
        let param = read_param(&types[place], buf)?;
        put_ref(&mut values[place], param.1);
        indicators[place] = param.0.code();
    }
    Ok(())
}

/// Takes the next row of a bulk execution off the front of the bytes after its types: reads a value for each
/// column into the first elements, and how each is given.
///
/// Returns 7 if no byte is left. Errors: 2 if bytes are left and there is no column; 5 if there are fewer
/// elements than columns; 1 or 2, with the values and indicators before the faulty one set. After any code
/// other than 0, the bytes are unchanged. Elements after those of the columns are unchanged.
#[unsafe(no_mangle)]
pub extern "C" fn myp_next_bulk_row<'a>(
    alloc: Global,
    rest: &mut CBytes<'a>,
    types: &[CColumnType],
    values: &mut [CValue<'a>],
    indicators: &mut [u8],
) -> u32
    ensures end { rest.old.bytes.now ≡ [] → (result ≡ 7) × (rest.new ≡ rest.old) × (values.new ≡ values.old) × (indicators.new ≡ indicators.old) }
    ensures no_column { rest.old.bytes.now ≢ [] → types.now ≡ [] → (result ≡ 2) × (rest.new ≡ rest.old) × (values.new ≡ values.old) × (indicators.new ≡ indicators.old) }
    ensures small { rest.old.bytes.now ≢ [] → (length values.old < length types.now) ⊎ (length indicators.old < length types.now) → (result ≡ 5) × (rest.new ≡ rest.old) × (values.new ≡ values.old) × (indicators.new ≡ indicators.old) }
    ensures value { rest.old.bytes.now ≢ [] → types.now ≢ [] → length types.now ≤ length values.old → length types.now ≤ length indicators.old
        → spec.RowInto ((spec.bulk_row types.now).reads rest.old.bytes.now) result rest.old rest.new (take (length types.now) values.new) (take (length types.now) indicators.new) }
    ensures contents { rest.old.bytes.now ≢ [] → types.now ≢ [] → length types.now ≤ length values.old → length types.now ≤ length indicators.old
        → spec.ContentsInto ((row_of_columns (map spec.column_of types.now)).reads rest.old.bytes.now) result (take (length types.now) values.new) rest.new.bytes.now }
    ensures places { rest.old.bytes.now ≢ [] → types.now ≢ [] → length types.now ≤ length values.old → length types.now ≤ length indicators.old
        → spec.FillsRow (spec.good_row types.now rest.old.bytes.now) values.old values.new indicators.old indicators.new }
    ensures place { IsRestOf rest.new rest.old }
{
    if rest.bytes.is_empty() {
        return END;
    }
    if types.is_empty() {
        return INVALID_DATA;
    }
    if values.len() < types.len() || indicators.len() < types.len() {
        return BUFFER_TOO_SMALL;
    }
    let mut buf = ParseBuf::new(alloc, rest.bytes);
    match fill_row(types, &mut buf, values, indicators) {
        Ok(()) => {
            rest.move_to(&buf);
            OK
        }
        Err(fault) => code_of(&fault),
    }
}
