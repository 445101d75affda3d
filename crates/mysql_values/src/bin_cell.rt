//! Values of a binary row, each read directly into its cell.

ghost use Rattle.std.specs.Prelude.{◌≡◌, ◌+◌, ◌<◌, ◌≤◌, ◌++◌, ◌∷◌, [], Some, vec_len, vec_capacity, Ok, IfErr, OnOk, OnErr};
ghost use Rattle.mysql_wire.specs.Reading.{Answers};
ghost use Rattle.mysql_values.specs.Cells.{held, with_cell, PutsCell, RefusesValue};
ghost use Rattle.mysql_values.specs.Value.{content_of, contents};
ghost use Rattle.mysql_values.specs.ValueDeserializer.{bin_value, reads_bytes, value_in_column};

use crate::string_type;
use crate::value::Value;
use crate::value_deserializer::{read_kind, read_long, read_longlong, read_string};
use crate::value_kind::ValueKind;
use bitflags::Flags;
use mysql_wire::{ColumnFlags, ColumnType, FaultOf, ParseBuf};

/// Appends a value to the cells.
#[inline(always)]
fn put(value: Value, cells: &mut Vec<Option<Value>>)
    requires { vec_len cells.old < vec_capacity cells.old }
    ensures held { held cells.new.items ≡ held cells.old.items ++ Some (content_of value) ∷ [] }
    ensures len { vec_len cells.new ≡ vec_len cells.old + 1 }
    ensures capacity { vec_capacity cells.old ≤ vec_capacity cells.new }
{
    cells.push_reserved(Some(value));
}

/// Reads a value in the form of the type, by a call.
#[inline(never)]
fn read_other<'s>(
    column_type: ColumnType,
    is_unsigned: bool,
    buf: &mut ParseBuf<'_>,
) -> Result<Value, FaultOf<'s>>
    ensures value { Answers (reads_bytes ((bin_value column_type is_unsigned).reads buf.old)) (contents result) buf.new ((bin_value column_type is_unsigned).reads buf.old) }
{
    read_kind(ValueKind::of(column_type), is_unsigned, buf)
}

/// Reads a value of the given type. The most frequent types have arms of their own, so that a value's parts are
/// written directly to its cell instead of being assembled and taken apart again.
// One match on the type: the compiler would otherwise match its kind as well.
#[inline(always)]
fn put_value<'s>(
    column_type: ColumnType,
    is_unsigned: bool,
    buf: &mut ParseBuf<'_>,
    cells: &mut Vec<Option<Value>>,
) -> Result<(), FaultOf<'s>>
    requires { vec_len cells.old < vec_capacity cells.old }
    ensures { PutsCell (bin_value column_type is_unsigned) result buf.old buf.new cells.old cells.new }
{
    match column_type {
        string_type!() => {
            put(read_string(buf)?, cells);
            Ok(())
        }
        ColumnType::MYSQL_TYPE_LONG | ColumnType::MYSQL_TYPE_INT24 => {
            put(read_long(is_unsigned, buf)?, cells);
            Ok(())
        }
        ColumnType::MYSQL_TYPE_LONGLONG => {
            put(read_longlong(is_unsigned, buf)?, cells);
            Ok(())
        }
        _ => {
            // A buffer of its own: the caller's stays in registers.
            let mut rest = buf.rest();
            let value = read_other(column_type, is_unsigned, &mut rest)?;
            *buf = rest;
            put(value, cells);
            Ok(())
        }
    }
}

/// Reads a value of its column's type, like [`ValueDeserializer<BinValue>`](crate::ValueDeserializer), and appends it to the
/// cells, which have capacity for it. After an error the cells and the buffer are unchanged.
#[inline(always)]
pub fn read_bin_cell<'s>(
    column: (ColumnType, ColumnFlags),
    buf: &mut ParseBuf<'_>,
    cells: &mut Vec<Option<Value>>,
) -> Result<(), FaultOf<'s>>
    requires capacity { vec_len cells.old < vec_capacity cells.old }
    ensures put { OnOk result ((with_cell (held cells.old.items) (value_in_column column)).reads buf.old ≡ Ok (held cells.new.items, buf.new)) }
    ensures len { OnOk result (vec_len cells.new ≡ vec_len cells.old + 1) }
    ensures capacity { vec_capacity cells.old ≤ vec_capacity cells.new }
    ensures refused { IfErr result (λ fault. RefusesValue fault ((value_in_column column).reads buf.old)) }
    ensures err { OnErr result (cells.new.items ≡ cells.old.items) }
    ensures stays { OnErr result (buf.new ≡ buf.old) }
{
    let (column_type, flags) = column;
    put_value(
        column_type,
        flags.contains(ColumnFlags::UNSIGNED_FLAG),
        buf,
        cells,
    )
}
