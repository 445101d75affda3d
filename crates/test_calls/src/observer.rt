//! A connection that is observed, from its greeting on.
//!
//! `observer WAITING STATEMENTS TYPES EARLY BYTES COLUMNS WORD ..`: a given number of commands may wait, a given number of statements are kept with a given number of types, and this many
//! early commands of a given number of bytes, and the types of this many columns of a result. A word is `>` or `<` with the bytes of a payload of the client or the server; `tls`: what comes is deciphered;
//! or `resume=FLAGS` or `resume=FLAGS>BYTES`: the connection is resumed at the next command, or after this one, under these capabilities.
//! Of an execution its parameters are read, of each row its values, and of an event its size. After a value of a row of text stands `=i` or `=u` and the number that it converts to, if the type of its column is known
//! and is one of integers, signed or unsigned.

use crate::conversation::{piece_of, show_kind};
use crate::statements::{show, show_param, show_value};
use mysql_packets::constants::{CapabilityFlags, ColumnType, Flags, MariadbCapabilities};
use mysql_packets::conversation::{SessionError, Side};
use mysql_packets::io::FaultOf;
use mysql_packets::observer::{
    ClientRecord, ObservedPacket, Observer, ObserverLimits, ServerPacket,
};
use mysql_packets::packets::{ExecuteParamsView, SessionCapabilities};
use mysql_packets::row::{BinaryRowView, TextRowView};
use mysql_packets::statements::{PipelinedLimits, RowColumn, StatementLimits};
use mysql_packets::value::convert::FromValueRef;
use mysql_packets::value::{ServerSide, ValueRef};
use test_probe::counted;
use test_probe::prelude::{Out, Request};

/// Adds the parameters of an execution.
fn show_params<'s>(out: &mut Out, view: ExecuteParamsView<'_, '_>) -> Result<(), FaultOf<'s>> {
    let mut view = view;
    for _ in 0..view.left() {
        if let Some(it) = view.next_param()? {
            out.push(":");
            show_param(out, it.param);
        }
    }
    Ok(())
}

/// Adds the values of a binary row.
fn show_binary_row<'s>(
    out: &mut Out,
    row: BinaryRowView<'_, '_, ServerSide, RowColumn>,
) -> Result<(), FaultOf<'s>> {
    let mut row = row;
    for _ in 0..row.left() {
        if let Some(value) = row.next_value()? {
            out.push(":");
            show_value(out, value);
        }
    }
    Ok(())
}

/// Adds the number that a value of a row of text is under the type of its column.
fn show_converted(out: &mut Out, column: &RowColumn, value: ValueRef<'_>) {
    if !is_integer(column.column_type) {
        return;
    }
    if column.is_unsigned {
        if let Ok(number) = u64::from_value_ref_opt(value) {
            out.push("=u");
            out.display(&number);
        }
    } else if let Ok(number) = i64::from_value_ref_opt(value) {
        out.push("=i");
        out.display(&number);
    }
}

/// Whether the values of a column are integers.
fn is_integer(column_type: ColumnType) -> bool {
    matches!(
        column_type,
        ColumnType::MYSQL_TYPE_TINY
            | ColumnType::MYSQL_TYPE_SHORT
            | ColumnType::MYSQL_TYPE_YEAR
            | ColumnType::MYSQL_TYPE_INT24
            | ColumnType::MYSQL_TYPE_LONG
            | ColumnType::MYSQL_TYPE_LONGLONG
    )
}

/// Adds the values of a row of text, and what they convert to.
fn show_text_row<'s>(
    out: &mut Out,
    row: TextRowView<'_>,
    columns: &[RowColumn],
) -> Result<(), FaultOf<'s>> {
    let mut row = row;
    for place in 0..row.left() {
        if let Some(value) = row.next_value()? {
            out.push(":");
            show_value(out, value);
            if let Some(column) = columns.get(place) {
                show_converted(out, column, value);
            }
        }
    }
    Ok(())
}

/// Adds a fault.
fn show_fault(out: &mut Out, read: Result<(), FaultOf<'_>>) {
    if read.is_err() {
        out.push(":fault");
    }
}

/// Adds the values of a row, and the size of an event.
fn show_packet(out: &mut Out, packet: ServerPacket<'_, '_, RowColumn>, columns: &[RowColumn]) {
    match packet {
        ServerPacket::BinaryRow(row) => {
            let shown = show_binary_row(out, row);
            show_fault(out, shown);
        }
        ServerPacket::TextRow(row) => {
            let shown = show_text_row(out, row, columns);
            show_fault(out, shown);
        }
        ServerPacket::UntypedRow(bytes) => {
            out.push(":untyped:");
            show(out, bytes.as_bytes());
        }
        ServerPacket::BinlogEvent(event) => {
            out.push(":");
            out.display(&event.event().len());
        }
        _other => {}
    }
}

/// Adds what a packet of the server holds.
fn show_server(out: &mut Out, observer: &Observer, packet: &ObservedPacket, payload: &[u8]) {
    let read: Result<ServerPacket<'_, '_, RowColumn>, FaultOf<'_>> = observer.server_packet(
        packet.kind,
        payload,
    );
    match read {
        Ok(packet) => {
            let columns = observer.result_columns().unwrap_or(&[]);
            show_packet(out, packet, columns)
        }
        Err(_) => out.push(":fault"),
    }
}

/// Adds the statement and the parameters of an execution.
fn show_record(out: &mut Out, read: Result<ClientRecord<'_, '_>, FaultOf<'_>>) {
    match read {
        Ok(ClientRecord::Execution(head, view)) => {
            out.push(":");
            out.display(&head.stmt_id());
            let shown = show_params(out, view);
            show_fault(out, shown);
        }
        Ok(ClientRecord::Packet(_other)) => {}
        Err(_) => out.push(":fault"),
    }
}

/// Adds what a packet of the client holds.
fn show_client(out: &mut Out, observer: &Observer, packet: &ObservedPacket, payload: &[u8]) {
    let read: Result<ClientRecord<'_, '_>, FaultOf<'_>> = observer.client_packet(
        packet.kind,
        payload,
    );
    show_record(out, read);
}

/// Adds the pipelined execution that the server has reached.
fn show_reached(out: &mut Out, observer: &Observer) {
    let Some(execution) = observer.reached_execution() else {
        return;
    };
    out.push(":reached");
    let read: Result<ClientRecord<'_, '_>, FaultOf<'_>> = observer.reached_packet(
        execution.payload(),
    );
    show_record(out, read);
}

/// Adds a packet, and whether it came. A call that memory is refused for is made again.
fn take(out: &mut Out, observer: &mut Observer, side: Side, payload: &[u8]) -> bool {
    for _ in 0..2 {
        match counted!(out.alloc(); observer.next(side, payload)) {
            Ok(packet) => {
                if !packet.has_memory {
                    out.field("kept", "Memory");
                }
                show_kind(out, side, packet.kind);
                out.push("#");
                out.display(&packet.exchange);
                match side {
                    Side::Server => {
                        show_server(out, observer, &packet, payload);
                        show_reached(out, observer);
                    }
                    Side::Client => show_client(out, observer, &packet, payload),
                }
                return true;
            }
            Err(SessionError::Memory) => out.field("next", "Memory"),
            Err(_) => {
                out.word("refused");
                return false;
            }
        }
    }
    false
}

/// Resumes the connection, and returns whether the word says so.
fn resume(request: &Request<'_>, observer: &mut Observer, word: &str) -> bool {
    let Some(words) = word.strip_prefix("resume=") else {
        return false;
    };
    let (flags, command) = match words.split_once('>') {
        Some((flags, command)) => (flags, Some(command)),
        None => (words, None),
    };
    let agreed = SessionCapabilities {
        mysql: CapabilityFlags::from_bits_retain(u32::from_str_radix(flags, 16).unwrap_or(0)),
        mariadb: MariadbCapabilities::from_bits_retain(0),
    };
    let command = match command {
        Some(digits) => hex::decode(request.alloc, digits).ok(),
        None => None,
    };
    match command {
        Some(command) => observer.resume_after(agreed, command.as_slice()),
        None => observer.resume(agreed),
    }
    true
}

/// Adds what becomes of the packets.
pub fn observer(out: &mut Out, request: &Request<'_>) {
    let limits = ObserverLimits {
        waiting: request.number(1) as usize,
        statements: StatementLimits {
            statements: request.number(2) as usize,
            types: request.number(3) as usize,
        },
        early: PipelinedLimits {
            commands: request.number(4) as usize,
            bytes: request.number(5) as usize,
        },
        columns: request.number(6) as usize,
    };
    let mut observer = Observer::new(request.alloc, limits);
    for word in request.line.split(' ').skip(7) {
        if word == "tls" {
            observer.tls_established();
            continue;
        }
        if resume(request, &mut observer, word) {
            out.word("resumed");
            out.push("#");
            out.display(&observer.last_exchange());
            continue;
        }
        let Some((side, payload)) = piece_of(request.alloc, word) else {
            return out.word("bad");
        };
        if !take(out, &mut observer, side, payload.as_slice()) {
            break;
        }
    }
    out.show("at_rest", observer.is_idle());
}
