//! The fields of a server's packet.

ghost use Rattle.std.specs.Prelude.{◌≡◌, ◌++◌, List, OnOk};
ghost use Rattle.mysql_replies.specs.FieldListColumn.{default_of};
ghost use Rattle.mysql_values.specs.ValueRef.{ref_content};
ghost use Rattle.mysql_show.specs.Fields.{Said};
ghost use Rattle.mysql_show.specs.Logins.{greeting_fields as after_versions, version_fields as versions};
ghost use Rattle.mysql_recorder.specs.ServerFields as spec;

use crate::change_fields::append_changes;
use crate::client_fields::{append, append_length};
use crate::values::{append_row, append_text_row};
use mysql_auth::HandshakePacketRef;
use mysql_observer::ServerPacket;
use mysql_repl::BinlogStreamEvent;
use mysql_replies::{ErrPacketRef, ExtendedColumnRef, FieldListColumn};
use mysql_show::{
    Field, add_fields, column_names, column_numbers, count_fields, end_fields, error_fields,
    greeting_fields, infile_fields, ok_fields, plugin_fields, report_fields, statement_fields,
    terminator_fields, version_fields,
};
use mysql_stmt::TypedColumn;
use mysql_values::ValueRef;
use std::alloc::AllocError;

/// Appends the fields of a packet of the server, with the values of a row.
pub(crate) fn server_fields<'p, C: TypedColumn>(
    packet: &mut ServerPacket<'p, '_, C>,
    fields: &mut Vec<Field<'p>>,
) -> Result<(), AllocError>
    ensures ok { OnOk result (spec.AppendsServer packet.old fields.old.items fields.new.items) }
{
    match packet {
        ServerPacket::Handshake(greeting) => append_greeting(greeting, fields),
        ServerPacket::GreetingError(error) => {
            add_fields(&error_fields(error.server_error()), fields)
        }
        ServerPacket::AuthSwitch(switch) => add_fields(&plugin_fields(switch), fields),
        ServerPacket::OldAuthSwitch(_) => Ok(()),
        ServerPacket::AuthMoreData(data) => append(Field::bytes("data", data.data()), fields),
        ServerPacket::AuthNextFactor(factor) => add_fields(&plugin_fields(factor), fields),
        ServerPacket::AuthPluginData(data) => append(Field::bytes("data", data.as_bytes()), fields),
        ServerPacket::Ok(ok) => {
            add_fields(&ok_fields(ok), fields)?;
            append_changes(ok, fields)
        },
        ServerPacket::Error(error) => append_err(error, fields),
        ServerPacket::UnsolicitedError(error) => append_err(error, fields),
        ServerPacket::ProgressReport(report) => add_fields(&report_fields(report), fields),
        ServerPacket::LocalInfile(file) => add_fields(&infile_fields(file), fields),
        ServerPacket::ColumnCount(count) => add_fields(&count_fields(count), fields),
        ServerPacket::Column(column) => append_column(column, fields),
        ServerPacket::FieldListColumn(column) => append_field_list_column(column, fields),
        ServerPacket::Eof(end) => add_fields(&end_fields(end), fields),
        ServerPacket::OkTerminator(end) => {
            add_fields(&terminator_fields(end), fields)?;
            append_changes(end, fields)
        },
        ServerPacket::TextRow(row) => append_text_row(row, fields),
        ServerPacket::BinaryRow(row) => append_row(row, fields),
        ServerPacket::UntypedRow(_) => append(Field::word("columns", "unknown"), fields),
        ServerPacket::PrepareOk(statement) => {
            add_fields(&statement_fields(statement.packet()), fields)
        }
        ServerPacket::Statistics(text) => append(Field::bytes("text", text.as_bytes()), fields),
        ServerPacket::BinlogEvent(event) => append_event(event, fields),
        ServerPacket::Clone(bytes) => append_length(bytes.as_bytes(), fields),
    }
}

fn append_greeting<'p>(
    greeting: &HandshakePacketRef<'p>,
    fields: &mut Vec<Field<'p>>,
) -> Result<(), AllocError>
    ensures ok { OnOk result (fields.new.items ≡ fields.old.items ++ (versions greeting.now ++ after_versions greeting.now)) }
{
    add_fields(&version_fields(greeting), fields)?;
    add_fields(&greeting_fields(greeting), fields)
}

fn append_err<'p>(packet: &ErrPacketRef<'p>, fields: &mut Vec<Field<'p>>) -> Result<(), AllocError>
    ensures ok { OnOk result (fields.new.items ≡ fields.old.items ++ spec.err_fields packet.now) }
{
    if packet.is_error() {
        add_fields(&error_fields(packet.server_error()), fields)
    } else {
        add_fields(&report_fields(packet.progress_report()), fields)
    }
}

/// The size of an event, without the header of semi-synchronous replication.
fn append_event<'p>(
    event: &BinlogStreamEvent<'p>,
    fields: &mut Vec<Field<'p>>,
) -> Result<(), AllocError>
    ensures ok { OnOk result (fields.new.items ≡ fields.old.items ++ spec.event_fields event.now) }
{
    let size = event.event().len() as u64;
    append(Field::number("event_size", size), fields)
}

fn append_column<'p>(
    extended: &ExtendedColumnRef<'p>,
    fields: &mut Vec<Field<'p>>,
) -> Result<(), AllocError>
    ensures ok { OnOk result (fields.new.items ≡ fields.old.items ++ spec.column_fields extended.now) }
{
    add_fields(&column_names(extended.column()), fields)?;
    add_fields(&column_numbers(extended.column()), fields)?;
    match extended.metadata() {
        Some(metadata) => append(Field::bytes("extended_metadata", metadata), fields),
        None => Ok(()),
    }
}

/// Appends the fields of a column, and its default value, which is shown like a value of a row.
fn append_field_list_column<'p>(
    column: &FieldListColumn<'p>,
    fields: &mut Vec<Field<'p>>,
) -> Result<(), AllocError>
    ensures ok { OnOk result (fields.new.items ≡ fields.old.items ++ spec.field_list_fields column.now) }
{
    append_column(column.column(), fields)?;
    append(Field::value("default_value", default_value(column)), fields)
}

/// The default value: its text, or NULL.
fn default_value<'p>(column: &FieldListColumn<'p>) -> ValueRef<'p>
    ensures { ref_content result ≡ spec.default_content (default_of column.now) }
{
    match column.default_value() {
        Some(text) => ValueRef::Bytes(text),
        None => ValueRef::NULL,
    }
}
