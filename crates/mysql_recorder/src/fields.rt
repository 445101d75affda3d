//! The fields of a packet.

ghost use Rattle.std.specs.Prelude.{◌≡◌, ◌++◌, List, OnOk};
ghost use Rattle.mysql_wire.specs.ServerCommand.{server_command_of};
ghost use Rattle.mysql_observer.specs.Observed.{tracked};
ghost use Rattle.mysql_show.specs.Fields.{Said};
ghost use Rattle.mysql_recorder.specs.ClientFields.{named_command};
ghost use Rattle.mysql_recorder.specs.RecordFields as spec;

use crate::client_fields::{append, client_fields};
use crate::command_fields::append_head;
use crate::execution_fields::{EXECUTE_HEAD, append_params, append_unknown, is_execution};
use crate::partial_column::append_partial_column;
use crate::partial_query::append_partial_query;
use crate::server_fields::server_fields;
use crate::values::{append_refused, fault_name};
use mysql_conversation::{PacketKind, Side};
use mysql_observer::{ClientRecord, Observer, client_packet};
use mysql_replies::SessionCapabilities;
use mysql_show::{Field, command_name};
use mysql_wire::{ConstValue, FaultOf, ServerCommand};
use std::alloc::{AllocError, Global};

/// The name of a command, or its number if it has none.
fn command_field<'p>(code: u8) -> Field<'p>
    ensures { result ≡ named_command (server_command_of code) code }
{
    match ServerCommand::from_code(code) {
        Some(command) => Field::word("command", command_name(command)),
        None => Field::number("command", u64::from(code)),
    }
}

/// Appends the fields of the client's packet that was observed last, with the parameters of an execution whose
/// statement and types are known.
fn append_client<'p>(
    alloc: Global,
    observer: &Observer,
    kind: PacketKind,
    payload: &'p [u8],
    fields: &mut Vec<Field<'p>>,
) -> Result<(), AllocError>
    ensures ok { OnOk result ((more : List Said) × spec.AreClientFields observer.now kind payload.now more × (fields.new.items ≡ fields.old.items ++ more)) }
{
    append_command_name(kind, fields)?;
    match observer.client_packet(kind, payload) {
        Ok(record) => append_record(alloc, kind, payload, record, fields),
        Err(fault) => append_faulty(alloc, observer.agreed(), kind, payload, &fault, fields),
    }
}

/// Appends the name of a command.
fn append_command_name<'p>(kind: PacketKind, fields: &mut Vec<Field<'p>>) -> Result<(), AllocError>
    ensures ok { OnOk result (fields.new.items ≡ fields.old.items ++ spec.command_name kind) }
{
    match kind {
        PacketKind::Command(code) => append(command_field(code), fields),
        _ => Ok(()),
    }
}

/// Appends the fields of the client's record.
fn append_record<'p>(
    alloc: Global,
    kind: PacketKind,
    payload: &'p [u8],
    returned: ClientRecord<'p, '_>,
    fields: &mut Vec<Field<'p>>,
) -> Result<(), AllocError>
    ensures ok { OnOk result ((more : List Said) × spec.AreOfClient kind payload.now (Ok returned.entry) more × (fields.new.items ≡ fields.old.items ++ more)) }
{
    match returned {
        ClientRecord::Packet(packet) => {
            client_fields(alloc, &packet, fields)?;
            append_unknown(kind, payload, fields)
        }
        ClientRecord::Execution(head, params) => {
            append_head(&head, payload.len().saturating_sub(EXECUTE_HEAD), fields)?;
            append_params(params, fields)
        }
    }
}

/// Appends what can be read of a packet of the client that is refused.
fn append_faulty<'p>(
    alloc: Global,
    agreed: Option<SessionCapabilities>,
    kind: PacketKind,
    payload: &'p [u8],
    fault: &FaultOf<'_>,
    fields: &mut Vec<Field<'p>>,
) -> Result<(), AllocError>
    ensures ok { OnOk result ((more : List Said) × spec.HasFault fault.now more × (fields.new.items ≡ fields.old.items ++ more)) }
{
    // (an execution whose parameters are malformed before the first value)
    if is_execution(kind) {
        if let Ok(packet) = client_packet(alloc, agreed, kind, payload) {
            client_fields(alloc, &packet, fields)?;
            return append_refused(fault, &payload[payload.len().min(EXECUTE_HEAD)..], fields);
        }
    }
    fields.push(Field::word("refused", fault_name(fault)))?;
    append_partial_query(alloc, agreed, kind, payload, fields)
}

/// Appends the parameters of a pipelined execution that the server has reached, which weren't known when the
/// command was sent, and the number of its exchange.
fn append_reached<'p>(observer: &'p Observer, fields: &mut Vec<Field<'p>>) -> Result<(), AllocError>
    ensures ok { OnOk result ((more : List Said) × spec.AreReachedFields observer.now (tracked observer.now).reached more × (fields.new.items ≡ fields.old.items ++ more)) }
{
    let Some(execution) = observer.reached_execution() else {
        return Ok(());
    };
    let payload = execution.payload();
    if payload.len() <= EXECUTE_HEAD {
        return Ok(());
    }
    match observer.reached_packet(payload) {
        Ok(record) => append_reached_record(execution.number(), record, fields),
        Err(fault) => {
            fields.push(Field::number("parameters_of", execution.number()))?;
            append_refused(&fault, &payload[EXECUTE_HEAD..], fields)
        }
    }
}

/// Appends the parameters of a pipelined execution of this number, if their types are known.
fn append_reached_record<'p>(
    number: u64,
    returned: ClientRecord<'p, '_>,
    fields: &mut Vec<Field<'p>>,
) -> Result<(), AllocError>
    ensures ok { OnOk result ((more : List Said) × spec.AreKnownParams number returned.entry more × (fields.new.items ≡ fields.old.items ++ more)) }
{
    match returned {
        ClientRecord::Packet(_packet) => Ok(()),
        ClientRecord::Execution(_head, params) => {
            fields.push(Field::number("parameters_of", number))?;
            append_params(params, fields)
        }
    }
}

/// Appends the fields of the server's packet that was observed last. The first packet that answers a pipelined
/// execution is shown with the parameters of the execution. If the columns of a row aren't known, a notice says
/// so.
fn append_server<'p>(
    alloc: Global,
    observer: &'p Observer,
    kind: PacketKind,
    payload: &'p [u8],
    fields: &mut Vec<Field<'p>>,
) -> Result<(), AllocError>
    ensures ok { OnOk result ((more : List Said) × spec.AreServerFields observer.now kind payload.now more × (fields.new.items ≡ fields.old.items ++ more)) }
{
    append_reached(observer, fields)?;
    match observer.server_packet(kind, payload) {
        Ok(mut packet) => server_fields(&mut packet, fields),
        Err(fault) => match kind {
            PacketKind::Column | PacketKind::FieldListColumn => {
                append_partial_column(alloc, payload, &fault, fields)
            }
            _ => append_refused(&fault, payload, fields),
        },
    }
}

/// Appends the fields of a packet, the last that was observed.
pub(crate) fn append_fields<'p>(
    alloc: Global,
    observer: &'p Observer,
    side: Side,
    kind: PacketKind,
    payload: &'p [u8],
    fields: &mut Vec<Field<'p>>,
) -> Result<(), AllocError>
    ensures ok { OnOk result ((more : List Said) × spec.AreFields observer.now side kind payload.now more × (fields.new.items ≡ fields.old.items ++ more)) }
{
    match side {
        Side::Client => append_client(alloc, observer, kind, payload, fields),
        Side::Server => append_server(alloc, observer, kind, payload, fields),
    }
}
