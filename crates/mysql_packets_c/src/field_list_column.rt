//! Column definitions in the answer to `COM_FIELD_LIST`.
#![tactic(auto, using(crate::proofs::Codes::codes))]

ghost use Rattle.std.specs.Prelude.{◌≡◌, None, Some};
ghost use Rattle.mysql_replies.specs.FieldListColumn.{field_list_column};
ghost use Rattle.mysql_wire.specs.ColumnType.{column_type_of};
ghost use Rattle.mysql_wire.specs.declared.codes.column_type.ColumnType.{ColumnType};
ghost use Rattle.mysql_packets_c.specs.Code.{ReadsInto};
ghost use Rattle.mysql_packets_c.specs.FieldListColumn as spec;
ghost use Rattle.mysql_packets_c.specs.FieldListColumn.{IsDefinition};
ghost use Rattle.mysql_packets_c.specs.Output.{PutsUnlessTooLong};

use crate::code::{INVALID_INPUT, OK, code_of};
use crate::column::{CColumn, given_bytes, places_of, put_column, sent_column};
use crate::flags::mariadb_of;
use crate::input::read;
use crate::output::put_packet;
use mysql_replies::FieldListColumn;
use mysql_wire::{ColumnType, ConstValue};
use std::alloc::Global;

/// `myp_field_list_column` of the C header.
#[repr(C)]
#[derive(Drop)]
pub struct CFieldListColumn<'a> {
    pub column: CColumn<'a>,
    pub default_value: &'a [u8],
    pub has_default_value: u8,
}

/// Reads a column in the answer to `COM_FIELD_LIST`, under the MariaDB flags of both sides. After an error (1 or 2) the struct
/// is unchanged.
#[unsafe(no_mangle)]
pub extern "C" fn myp_read_field_list_column<'a>(
    alloc: Global,
    packet: &'a [u8],
    mariadb_capabilities: u32,
    out: &mut CFieldListColumn<'a>,
) -> u32
    ensures value { ReadsInto (IsDefinition packet.now) ((field_list_column.form (record { 0 = mariadb_capabilities; 1 = record {} })).reads packet.now) result out.old out.new }
{
    match read::<FieldListColumn<'a>>(alloc, packet, mariadb_of(mariadb_capabilities)) {
        Ok((found, used)) => {
            put_column(found.column(), used, &mut out.column);
            let (default_value, has_default_value) = places_of(found.default_value());
            out.default_value = default_value;
            out.has_default_value = has_default_value;
            OK
        }
        Err(fault) => code_of(&fault),
    }
}

/// Writes a column in the answer to `COM_FIELD_LIST`. Errors: 5 if the buffer is too small, with the length needed; 4 if the
/// length overflows; 3 for an unknown type.
#[unsafe(no_mangle)]
pub extern "C" fn myp_write_field_list_column(
    definition: &CFieldListColumn<'_>,
    out: &mut [u8],
    written: &mut usize,
) -> u32
    ensures unknown { column_type_of definition.now.column.column_type ≡ None → (result ≡ 3) × (out.new ≡ out.old) × (written.new ≡ 0) }
    ensures value { (t : ColumnType) → column_type_of definition.now.column.column_type ≡ Some t → PutsUnlessTooLong (field_list_column.bytes (spec.definition_given t definition.now)) result out.old out.new written.new }
{
    let Some(column_type) = ColumnType::from_code(definition.column.column_type) else {
        *written = 0;
        return INVALID_INPUT;
    };
    let default_value = given_bytes(definition.has_default_value, definition.default_value);
    let column = sent_column(column_type, &definition.column);
    put_packet(&FieldListColumn::new(column, default_value), out, written)
}
