//! The fields of a client's packet.

ghost use Rattle.std.specs.Prelude.{[], ◌∷◌, ◌≡◌, ◌++◌, List, OnOk};
ghost use Rattle.mysql_show.specs.Fields.{Said};
ghost use Rattle.mysql_recorder.specs.ClientFields as spec;
ghost use Rattle.mysql_recorder.specs.ServerFields.{length_field};

use crate::command_fields::append_command;
use mysql_observer::ClientPacket;
use mysql_show::{Field, add_fields, login_fields, ssl_request_fields};
use std::alloc::{AllocError, Global};

/// Appends the fields of a packet of the client.
pub(crate) fn client_fields<'p>(
    alloc: Global,
    packet: &ClientPacket<'p>,
    fields: &mut Vec<Field<'p>>,
) -> Result<(), AllocError>
    ensures ok { OnOk result (fields.new.items ≡ fields.old.items ++ spec.client_fields packet.now) }
{
    match packet {
        ClientPacket::SslRequest(request) => add_fields(&ssl_request_fields(request), fields),
        ClientPacket::Login(login) => {
            let mut login = login_fields(alloc, login)?;
            fields.append(&mut login)
        },
        // (what a client proves itself by is not shown)
        ClientPacket::AuthData(_) => Ok(()),
        ClientPacket::Command(command) => append_command(command, fields),
        ClientPacket::InfileContent(content) | ClientPacket::Clone(content) => {
            append_length(content.as_bytes(), fields)
        }
        ClientPacket::InfileEnd => Ok(()),
        ClientPacket::SemiSyncAck(ack) => append(Field::number("position", ack.position()), fields),
    }
}

/// Appends a field.
pub(crate) fn append<'p>(field: Field<'p>, fields: &mut Vec<Field<'p>>) -> Result<(), AllocError>
    ensures ok { OnOk result (fields.new.items ≡ fields.old.items ++ field.entry ∷ []) }
{
    Ok(fields.push(field)?)
}

/// Appends the number of bytes.
pub(crate) fn append_length<'p>(bytes: &[u8], fields: &mut Vec<Field<'p>>) -> Result<(), AllocError>
    ensures ok { OnOk result (fields.new.items ≡ fields.old.items ++ length_field bytes.now) }
{
    append(Field::number("length", bytes.len() as u64), fields)
}
