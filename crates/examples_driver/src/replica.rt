//! A replica: its registration, and the dump of a binary log by the text of a GTID set.

use crate::connection::Connection;
use crate::error::Result;
use crate::errors::answer;
use crate::query::query;
use mysql_packets::constants::BinlogDumpFlags;
use mysql_packets::conversation::PacketKind;
use mysql_packets::packets::{ComBinlogDump, ComBinlogDumpGtid, ComRegisterSlave};
use std::io::{Read, Write};

/// The first position of a binary log. The server finds the file by the set.
const FIRST: u32 = 4;

/// Registers a replica of this number.
pub fn register<R: Read, W: Write>(
    connection: &mut Connection<R, W>,
    server_id: u32,
) -> Result<()> {
    let request = ComRegisterSlave::new(server_id).with_port(3306);
    connection.command_packet(&request)?;
    answer(connection).map(|_| ())
}

/// Asks for all events that are not in a GTID set. [`next_event`] hands them out.
///
/// MySQL takes the set in the command, as it shows one in `@@gtid_executed`. MariaDB takes it as a variable, as it shows
/// one in `@@gtid_binlog_pos`, and a command without it.
pub fn dump<R: Read, W: Write>(
    connection: &mut Connection<R, W>,
    server_id: u32,
    flags: BinlogDumpFlags,
    gtids: &str,
) -> Result<()> {
    // A server whose events end in checksums sends them only where this is set.
    query(
        connection,
        "set @master_binlog_checksum=@@global.binlog_checksum",
    )?;
    if connection.is_mariadb {
        return dump_mariadb(connection, server_id, flags, gtids);
    }
    let request = ComBinlogDumpGtid::new(server_id)
        .with_flags(flags)
        .with_pos(u64::from(FIRST))
        .with_gtid_set(connection.alloc, gtids)?;
    connection.command_packet(&request)
}

fn dump_mariadb<R: Read, W: Write>(
    connection: &mut Connection<R, W>,
    server_id: u32,
    flags: BinlogDumpFlags,
    gtids: &str,
) -> Result<()> {
    query(connection, "set @mariadb_slave_capability=4")?;
    let set = format!(in connection.alloc; "set @slave_connect_state='{gtids}'")?;
    query(connection, set.as_str())?;
    let request = ComBinlogDump::new(server_id)
        .with_flags(flags)
        .with_pos(FIRST);
    connection.command_packet(&request)
}

/// The next event's bytes, and none where the dump ends.
pub fn next_event<R: Read, W: Write>(connection: &mut Connection<R, W>) -> Result<Option<Vec<u8>>> {
    let (kind, payload) = answer(connection)?;
    match (kind, payload.split_first()) {
        (PacketKind::BinlogEvent, Some((_, event))) => Ok(Some(Vec::from_slice(
            connection.alloc,
            event,
        )?)),
        _ => Ok(None),
    }
}
