//! Changes of the session by a statement.

use crate::connection::Connection;
use crate::error::Result;
use crate::errors::answer;
use mysql_packets::constants::CapabilityFlags;
use mysql_packets::io::ParseBuf;
use mysql_packets::packets::session_state_change::SessionStateChange;
use mysql_packets::packets::{CommonOkPacket, OkPacketDeserializer, SessionStateInfo};
use std::alloc::Global;
use std::io::{Read, Write};

/// Returns the changes of the session in the answer to a statement without rows, such as `use other` or `set autocommit=0`.
///
/// The server says those that its `session_track_..` variables name.
pub fn session_changes<R: Read, W: Write>(
    connection: &mut Connection<R, W>,
    sql: &str,
) -> Result<Vec<SessionStateChange<'static>>> {
    connection.command_text(0x03, sql)?;
    let (_, payload) = answer(connection)?;
    changes_in(connection.alloc, &payload, connection.capabilities())
}

fn changes_in(
    alloc: Global,
    payload: &[u8],
    capabilities: CapabilityFlags,
) -> Result<Vec<SessionStateChange<'static>>> {
    let mut buf = ParseBuf::new(alloc, payload);
    let ok: OkPacketDeserializer<'_, CommonOkPacket> = buf.parse(capabilities)?;
    let ok = ok.into_inner();
    let infos = ok.session_state_info(alloc)?;
    infos
        .iter()
        .map(|info| owned_change(alloc, info))
        .try_collect(alloc)
}

fn owned_change(alloc: Global, info: &SessionStateInfo<'_>) -> Result<SessionStateChange<'static>> {
    let change = info.decode_wire(alloc)?;
    Ok(change.into_owned(alloc)?)
}
