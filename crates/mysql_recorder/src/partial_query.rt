//! A query whose attributes are malformed, as far as it can be read.

ghost use Rattle.std.specs.Prelude.{OnOk};
ghost use Rattle.mysql_recorder.specs.RecordFields.{BeginsWith};

use crate::values::{append_attributes, append_unread};
use mysql_commands::read_query_attributes;
use mysql_conversation::PacketKind;
use mysql_replies::SessionCapabilities;
use mysql_show::Field;
use mysql_wire::command_code::COM_QUERY;
use mysql_wire::{CapabilityFlags, Flags, ParseBuf};
use std::alloc::{AllocError, Global};

/// Appends the readable part of a malformed query: the attributes before the first malformed one, and the bytes
/// from there on, which contain the text.
pub(crate) fn append_partial_query<'p>(
    alloc: Global,
    agreed: Option<SessionCapabilities>,
    kind: PacketKind,
    payload: &'p [u8],
    fields: &mut Vec<Field<'p>>,
) -> Result<(), AllocError>
    ensures ok { OnOk result (BeginsWith fields.old.items fields.new.items) }
{
    let Some(agreed) = agreed else {
        return Ok(());
    };
    if kind != PacketKind::Command(COM_QUERY)
        || !agreed
            .mysql
            .contains(CapabilityFlags::CLIENT_QUERY_ATTRIBUTES)
    {
        return Ok(());
    }
    match read_query_attributes(ParseBuf::new(alloc, payload)) {
        Ok(attributes) => append_attributes(attributes, true, fields),
        Err(_) => append_unread(&payload[payload.len().min(1)..], fields),
    }
}
