//! Errors in place of an answer, and progress reports before an answer.

use crate::connection::Connection;
use crate::error::{Error, Result};
use mysql_packets::conversation::PacketKind;
use mysql_packets::observer::{ReadContext, ServerPacket, server_packet};
use mysql_packets::packets::{Column, ErrPacket, ErrPacketRef, ServerError};
use std::alloc::Global;
use std::io::{Read, Write};

/// Receives the next packet that is neither an error nor a progress report: its kind and its payload. Reports are collected; an
/// error is returned as one.
pub fn answer<R: Read, W: Write>(
    connection: &mut Connection<R, W>,
) -> Result<(PacketKind, Vec<u8>)> {
    for _ in 0..u64::MAX {
        let (kind, payload) = connection.receive()?;
        match kind {
            PacketKind::Error | PacketKind::UnsolicitedError | PacketKind::ProgressReport => {
                keep(connection, kind, &payload)?;
            }
            _ => return Ok((kind, payload)),
        }
    }
    Err(Error::Unknown("reports without an end"))
}

/// Keeps a report of progress, or fails with the server's error: one in place of the greeting may have no SQL state.
fn keep<R: Read, W: Write>(
    connection: &mut Connection<R, W>,
    kind: PacketKind,
    payload: &[u8],
) -> Result<()> {
    let alloc = connection.alloc;
    let context = ReadContext::<Column> {
        agreed: connection.agreed(),
        column_count: 0,
        columns: None,
        semi_sync: false,
    };
    let packet = server_packet(alloc, &context, kind, payload)?;
    keep_packet(connection, &packet)
}

fn keep_packet<R: Read, W: Write>(
    connection: &mut Connection<R, W>,
    packet: &ServerPacket<'_, '_, Column>,
) -> Result<()> {
    let alloc = connection.alloc;
    match packet {
        ServerPacket::ProgressReport(report) => {
            let report = report.to_owned().into_owned(alloc)?;
            Ok(connection.reports.push(report)?)
        }
        ServerPacket::GreetingError(packet) => {
            let error = packet.server_error().to_owned();
            Err(Error::Server(error.into_owned(alloc)?))
        }
        ServerPacket::Error(packet) | ServerPacket::UnsolicitedError(packet) => {
            Err(Error::Server(error_of(alloc, packet)?))
        }
        _ => Err(Error::Unknown("an error of another kind")),
    }
}

fn error_of(alloc: Global, packet: &ErrPacketRef<'_>) -> Result<ServerError<'static>> {
    match packet.to_owned() {
        ErrPacket::Error(error) => Ok(error.into_owned(alloc)?),
        ErrPacket::Progress(_) => Err(Error::Unknown("a report in place of an error")),
    }
}
