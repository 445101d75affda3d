//! A file of the client's, which the server asks for.

use crate::connection::Connection;
use crate::error::{Error, Result};
use crate::errors::answer;
use mysql_packets::constants::CapabilityFlags;
use mysql_packets::conversation::PacketKind;
use mysql_packets::io::ParseBuf;
use mysql_packets::packets::{CommonOkPacket, LocalInfilePacket, OkPacketRefDeserializer};
use std::alloc::Global;
use std::io::{Read, Write};

/// Runs `load data local infile 'NAME' ..`, and returns the number of rows.
///
/// A server may ask for any file after any query. So only the file that the caller names is sent; for another one the recipe
/// sends an empty file, and returns an error.
pub fn load<R: Read, W: Write, F: Read>(
    connection: &mut Connection<R, W>,
    sql: &str,
    name: &str,
    content: &mut F,
) -> Result<u64> {
    connection.command_text(0x03, sql)?;
    let (PacketKind::LocalInfile, payload) = answer(connection)? else {
        return Err(Error::Unknown("an answer without a file"));
    };
    let is_meant = asks_for(connection.alloc, &payload, name)?;
    if is_meant {
        send_content(connection, content)?;
    }
    connection.send(&[])?;
    let (_, payload) = answer(connection)?;
    if !is_meant {
        return Err(Error::Unknown("a file that was not meant"));
    }
    affected_rows(connection.alloc, &payload, connection.capabilities())
}

/// Whether the server asks for the file of this name.
fn asks_for(alloc: Global, payload: &[u8], name: &str) -> Result<bool> {
    let asked: LocalInfilePacket<'_> = ParseBuf::new(alloc, payload).parse(())?;
    Ok(asked.file_name_ref() == name.as_bytes())
}

fn affected_rows(alloc: Global, payload: &[u8], capabilities: CapabilityFlags) -> Result<u64> {
    let mut buf = ParseBuf::new(alloc, payload);
    let ok: OkPacketRefDeserializer<'_, CommonOkPacket> = buf.parse(capabilities)?;
    Ok(ok.into_inner().affected_rows())
}

/// Sends the content in packets of some thousand bytes. An empty packet, which follows, ends it.
fn send_content<R: Read, W: Write, F: Read>(
    connection: &mut Connection<R, W>,
    content: &mut F,
) -> Result<()> {
    let mut part = [0u8; 8192];
    for _ in 0..u64::MAX {
        let count = content.read(&mut part)?;
        if count == 0 {
            break;
        }
        connection.send(&part[..count])?;
    }
    Ok(())
}
