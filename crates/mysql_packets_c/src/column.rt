//! The definition of a column.
#![tactic(auto, using(crate::proofs::Codes::codes))]

ghost use Rattle.std.specs.Prelude.{◌≡◌, ◌≢◌, ◌<◌, None, Some, option_map};
ghost use Rattle.mysql_replies.specs.ExtendedColumn.{attribute_bytes, extended_column};
ghost use Rattle.mysql_wire.specs.ColumnType.{column_type_of};
ghost use Rattle.mysql_wire.specs.declared.codes.column_type.ColumnType.{ColumnType};
ghost use Rattle.mysql_packets_c.specs.Code.{ReadsInto};
ghost use Rattle.mysql_packets_c.specs.Column as spec;
ghost use Rattle.mysql_packets_c.specs.Column.{HoldsColumn, IsColumn};
ghost use Rattle.mysql_packets_c.specs.Given.{if_set};
ghost use Rattle.mysql_packets_c.specs.Output.{PutsUnlessTooLong};

use crate::code::{INVALID_INPUT, OK, code_of};
use crate::flags::{column_flags_of, mariadb_of};
use crate::input::read;
use crate::output::put_packet;
use mysql_replies::{ColumnNamesRef, ColumnRef, ExtendedColumnRef};
use mysql_wire::{ColumnType, ConstValue};
use std::alloc::Global;

/// `myp_column` of the C header.
#[repr(C)]
#[derive(Drop)]
pub struct CColumn<'a> {
    pub schema: &'a [u8],
    pub table: &'a [u8],
    pub org_table: &'a [u8],
    pub name: &'a [u8],
    pub org_name: &'a [u8],
    pub metadata: &'a [u8],
    pub column_length: u32,
    pub character_set: u16,
    pub flags: u16,
    pub column_type: u8,
    pub decimals: u8,
    pub has_metadata: u8,
    pub used: usize,
}

/// Returns the bytes, and whether there are any.
#[inline(always)]
pub(crate) fn places_of<'a>(bytes: Option<&'a [u8]>) -> (&'a [u8], u8)
    ensures value { if_set result.1 result.0.now ≡ option_map (λ m. m.now) bytes.entry }
    ensures bytes { result.0.now ≡ attribute_bytes (option_map (λ m. m.now) bytes.entry) }
    ensures flag { result.1 < 2 }
{
    match bytes {
        Some(bytes) => (bytes, 1),
        None => (&[], 0),
    }
}

/// Stores a column in the caller's struct, and the number of bytes that were read.
#[inline(always)]
pub(crate) fn put_column<'a>(found: &ExtendedColumnRef<'a>, used: usize, out: &mut CColumn<'a>)
    ensures value { HoldsColumn found.now used out.new }
{
    let column = found.column();
    let (metadata, has_metadata) = places_of(found.metadata());
    out.schema = column.schema();
    out.table = column.table();
    out.org_table = column.org_table();
    out.name = column.name();
    out.org_name = column.org_name();
    out.metadata = metadata;
    out.column_length = column.column_length();
    out.character_set = column.character_set();
    out.flags = column.flags().0;
    out.column_type = column.column_type().code();
    out.decimals = column.decimals();
    out.has_metadata = has_metadata;
    out.used = used;
}

/// Reads `Protocol::ColumnDefinition41`, under the agreed MariaDB capabilities. After an error (1 or 2) the
/// struct is unchanged.
#[unsafe(no_mangle)]
pub extern "C" fn myp_read_column<'a>(
    alloc: Global,
    packet: &'a [u8],
    mariadb_capabilities: u32,
    out: &mut CColumn<'a>,
) -> u32
    ensures value { ReadsInto (IsColumn packet.now) ((extended_column.form (record { 0 = mariadb_capabilities; 1 = record {} })).reads packet.now) result out.old out.new }
{
    let capabilities = mariadb_of(mariadb_capabilities);
    match read::<ExtendedColumnRef<'a>>(alloc, packet, capabilities) {
        Ok((column, used)) => {
            put_column(&column, used, out);
            OK
        }
        Err(fault) => code_of(&fault),
    }
}

/// Returns the bytes, if the flag says that there are any.
pub(crate) fn given_bytes<'a>(is_given: u8, bytes: &'a [u8]) -> Option<&'a [u8]>
    ensures value { option_map (λ b. b.now) result ≡ if_set is_given bytes.now }
{
    if is_given != 0 { Some(bytes) } else { None }
}

/// Returns the column of this type, and of the caller's other fields.
pub(crate) fn sent_column<'a>(
    column_type: ColumnType,
    fields: &CColumn<'a>,
) -> ExtendedColumnRef<'a>
    ensures value { result ≡ spec.column_given column_type fields.now }
{
    let names = ColumnNamesRef {
        schema: fields.schema,
        table: fields.table,
        org_table: fields.org_table,
        name: fields.name,
        org_name: fields.org_name,
    };
    let column = ColumnRef::new(
        names,
        fields.character_set,
        fields.column_length,
        column_type,
        column_flags_of(fields.flags),
        fields.decimals,
    );
    ExtendedColumnRef::new(column, given_bytes(fields.has_metadata, fields.metadata))
}

/// Writes `Protocol::ColumnDefinition41`, with extended metadata, if any. Errors: 5 if the buffer is too small,
/// with the length needed; 4 if the length overflows; 3 for an unknown type.
#[unsafe(no_mangle)]
pub extern "C" fn myp_write_column(column: &CColumn<'_>, out: &mut [u8], written: &mut usize) -> u32
    ensures unknown { column_type_of column.now.column_type ≡ None → (result ≡ 3) × (out.new ≡ out.old) × (written.new ≡ 0) }
    ensures value { (t : ColumnType) → column_type_of column.now.column_type ≡ Some t → PutsUnlessTooLong (extended_column.bytes (spec.column_given t column.now)) result out.old out.new written.new }
{
    let Some(column_type) = ColumnType::from_code(column.column_type) else {
        *written = 0;
        return INVALID_INPUT;
    };
    put_packet(&sent_column(column_type, column), out, written)
}
