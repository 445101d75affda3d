//! A proxy: what a side sends is read, and written on to the other.
//!
//! It does no I/O: the caller passes the bytes of each side as they arrive, in any pieces, and sends what is appended.

use crate::error::{Error, Result};
use mysql_packets::constants::{CapabilityFlags, ColumnType, Flags};
use mysql_packets::conversation::{PacketKind, SessionError, Side};
use mysql_packets::frames::{FrameReader, write_frames};
use mysql_packets::io::FaultOf;
use mysql_packets::observer::{
    ClientPacket, ClientRecord, Observer, ObserverLimits, ServerPacket, client_packet,
};
use mysql_packets::packets::{
    CommonOkPacket, ExecuteParamsView, OkPacketLayout, OkPacketRef, OkPacketSerializer,
    OldEofPacket, ResultSetTerminator,
};
use mysql_packets::proto::MySerialize;
use mysql_packets::row::{BinaryRowView, TextRowView};
use mysql_packets::statements::{PipelinedLimits, RowColumn, StatementLimits};
use mysql_packets::value::convert::FromValueRef;
use mysql_packets::value::{ServerSide, ValueRef};
use std::alloc::{AllocError, Global};

/// The longest payload to forward: the maximum of a server's `max_allowed_packet`.
const LONGEST: usize = 1 << 30;

/// The maximum number of pipelined commands, and the limits for prepared statements.
const LIMITS: ObserverLimits = ObserverLimits {
    waiting: 1 << 10,
    statements: StatementLimits {
        statements: 1 << 12,
        types: 1 << 18,
    },
    early: PipelinedLimits {
        commands: 1 << 11,
        bytes: 1 << 16,
    },
    columns: 1 << 12,
};

/// How a packet went on.
#[derive(Clone, Copy)]
struct Passed {
    /// Whether its record was written, and is what came.
    is_as_read: bool,
    /// The number of its values that were read.
    values: u64,
}

/// A proxy between a client and a server.
#[derive(Drop)]
pub struct Proxy {
    /// The number of packets that were forwarded as their records are written.
    pub as_read: u64,
    /// The number of packets that were forwarded as they were received.
    pub as_sent: u64,
    /// The number of values of rows and parameters of executions that were read.
    pub values: u64,
    alloc: Global,
    observer: Observer,
    client: FrameReader,
    server: FrameReader,
}

impl Proxy {
    /// A proxy through which nothing went yet.
    pub fn new(alloc: Global) -> Self {
        Proxy {
            as_read: 0,
            as_sent: 0,
            values: 0,
            alloc,
            observer: Observer::new(alloc, LIMITS),
            client: FrameReader::new(alloc, LONGEST),
            server: FrameReader::new(alloc, LONGEST),
        }
    }

    /// Takes the next bytes of a side, and appends the packets that are complete to the other side's output.
    ///
    /// An error ends the connection. A request for TLS is one, and so is a login that agrees on compression, since the packets
    /// after it can't be found: to prevent them, remove these capabilities from the greeting.
    pub fn pass(&mut self, from: Side, bytes: &[u8], out: &mut Vec<u8>) -> Result<()> {
        let mut bytes = bytes;
        for _ in 0..u64::MAX {
            // Each command begins the numbers anew, so the number of a frame is the one that it was sent with.
            let frames = self.frames(from);
            frames.resync_sequence(bytes);
            let number = frames.number();
            let Some(payload) = frames.read(&mut bytes)? else {
                break;
            };
            self.write_on(from, number, payload.as_slice(), out)?;
            self.frames(from).recycle(payload);
        }
        Ok(())
    }

    /// Returns the reader of a side, which holds the bytes of an incomplete packet.
    fn frames(&mut self, from: Side) -> &mut FrameReader {
        match from {
            Side::Client => &mut self.client,
            Side::Server => &mut self.server,
        }
    }

    /// Appends a packet in frames of the numbers that it came with: the other side counts them on.
    fn write_on(
        &mut self,
        from: Side,
        number: u8,
        payload: &[u8],
        out: &mut Vec<u8>,
    ) -> Result<()> {
        let kind = self.observer.next(from, payload)?.kind;
        if let PacketKind::SslRequest = kind {
            return Err(Error::Session(SessionError::Encrypted));
        }
        let mut written = Vec::new(self.alloc);
        let passed = match from {
            Side::Client => self.client_as_read(kind, payload, &mut written),
            Side::Server => self.server_as_read(kind, payload, &mut written),
        }?;
        let reached = self.reached_values();
        self.values = self
            .values
            .saturating_add(passed.values)
            .saturating_add(reached);
        if passed.is_as_read {
            self.as_read = self.as_read.saturating_add(1);
        } else {
            written.extend_from_slice(payload)?;
            self.as_sent = self.as_sent.saturating_add(1);
        }
        write_frames(out, number, &written)?;
        Ok(())
    }

    /// Reads the parameters of the pipelined execution that the server has reached by this packet, if it has reached one.
    ///
    /// When such an execution came, its statement was not known, or an earlier command could still change it.
    fn reached_values(&self) -> u64 {
        let Some(execution) = self.observer.reached_execution() else {
            return 0;
        };
        let read: Result<ClientRecord<'_, '_>, FaultOf<'_>> = self
            .observer
            .reached_packet(execution.payload());
        match read {
            Ok(ClientRecord::Execution(_head, params)) => params_of(params),
            _ => 0,
        }
    }

    /// Writes the record of a client's packet, and reads the parameters of an execution.
    ///
    /// A packet that can't be parsed is forwarded as it was received: the observer knows its kind, and the other side answers
    /// it.
    fn client_as_read(
        &self,
        kind: PacketKind,
        payload: &[u8],
        written: &mut Vec<u8>,
    ) -> Result<Passed, AllocError> {
        let read: Result<ClientRecord<'_, '_>, FaultOf<'_>> = self
            .observer
            .client_packet(kind, payload);
        match read {
            Ok(ClientRecord::Packet(packet)) => Ok(Passed {
                is_as_read: write_client(self.alloc, &packet, payload, written)?,
                values: 0,
            }),
            Ok(ClientRecord::Execution(_head, params)) => Ok(Passed {
                is_as_read: self.execution_as_read(kind, payload, written)?,
                values: params_of(params),
            }),
            Err(_) => Ok(Passed {
                is_as_read: false,
                values: 0,
            }),
        }
    }

    /// Writes an execution, by its record as a command.
    fn execution_as_read(
        &self,
        kind: PacketKind,
        payload: &[u8],
        written: &mut Vec<u8>,
    ) -> Result<bool, AllocError> {
        match client_packet(self.alloc, self.observer.agreed(), kind, payload) {
            Ok(packet) => write_client(self.alloc, &packet, payload, written),
            Err(_) => Ok(false),
        }
    }

    /// Writes the record of a server's packet, and reads the values of a row, whose columns the observer knows.
    fn server_as_read(
        &self,
        kind: PacketKind,
        payload: &[u8],
        written: &mut Vec<u8>,
    ) -> Result<Passed, AllocError> {
        let capabilities = match self.observer.agreed() {
            Some(agreed) => agreed.mysql,
            None => CapabilityFlags::from_bits_retain(0),
        };
        let read: Result<ServerPacket<'_, '_, RowColumn>, FaultOf<'_>> = self
            .observer
            .server_packet(kind, payload);
        match read {
            Ok(packet) => Ok(Passed {
                is_as_read: write_server(self.alloc, capabilities, &packet, payload, written)?,
                values: values_of(packet, self.observer.result_columns().unwrap_or(&[])),
            }),
            Err(_) => Ok(Passed {
                is_as_read: false,
                values: 0,
            }),
        }
    }
}

/// Returns the number of values of a row that can be read. A firewall would examine each value here.
fn values_of(packet: ServerPacket<'_, '_, RowColumn>, columns: &[RowColumn]) -> u64 {
    match packet {
        ServerPacket::TextRow(row) => text_values_of(row, columns),
        ServerPacket::BinaryRow(row) => binary_values_of(row),
        _other => 0,
    }
}

/// A value of a row of text under the type of its column: an integer, if it has one. A value that is none of its type stays bytes.
fn converted<'p>(value: ValueRef<'p>, column: Option<&RowColumn>) -> ValueRef<'p> {
    let Some(column) = column else {
        return value;
    };
    match column.column_type {
        ColumnType::MYSQL_TYPE_TINY
        | ColumnType::MYSQL_TYPE_SHORT
        | ColumnType::MYSQL_TYPE_YEAR
        | ColumnType::MYSQL_TYPE_INT24
        | ColumnType::MYSQL_TYPE_LONG
        | ColumnType::MYSQL_TYPE_LONGLONG => integer(value, column.is_unsigned),
        _ => value,
    }
}

/// Converts a value to an integer, or returns it if it is none.
fn integer<'p>(value: ValueRef<'p>, is_unsigned: bool) -> ValueRef<'p> {
    if is_unsigned {
        return match u64::from_value_ref_opt(value) {
            Ok(number) => ValueRef::UInt(number),
            Err(_error) => value,
        };
    }
    match i64::from_value_ref_opt(value) {
        Ok(number) => ValueRef::Int(number),
        Err(_error) => value,
    }
}

/// The values of a row of text, each under the type of its column, up to the first that can't be read.
fn text_values_of(row: TextRowView<'_>, columns: &[RowColumn]) -> u64 {
    let mut row = row;
    let mut count: u64 = 0;
    for place in 0..row.left() {
        let Ok(Some(value)) = row.next_value() else {
            break;
        };
        let _value = converted(value, columns.get(place));
        count = count.saturating_add(1);
    }
    count
}

/// The values of a binary row, up to the first that can't be read.
fn binary_values_of(row: BinaryRowView<'_, '_, ServerSide, RowColumn>) -> u64 {
    let mut row = row;
    let mut count: u64 = 0;
    for _ in 0..row.left() {
        let Ok(Some(_value)) = row.next_value() else {
            break;
        };
        count = count.saturating_add(1);
    }
    count
}

/// The parameters of an execution, up to the first that can't be read.
fn params_of(params: ExecuteParamsView<'_, '_>) -> u64 {
    let mut params = params;
    let mut count: u64 = 0;
    for _ in 0..params.left() {
        let Ok(Some(_param)) = params.next_param() else {
            break;
        };
        count = count.saturating_add(1);
    }
    count
}

/// Writes a record, where its writer writes the bytes that came.
///
/// If a number takes more bytes than it needs, or bytes follow the record, nothing is written, so that no byte is lost. To
/// change a packet, write another record here.
fn as_read<P: MySerialize>(
    packet: &P,
    payload: &[u8],
    written: &mut Vec<u8>,
) -> Result<bool, AllocError> {
    packet.serialize(written)?;
    let is_as_read = written.as_slice() == payload;
    if !is_as_read {
        written.clear();
    }
    Ok(is_as_read)
}

/// Writes an OK packet of the kind `T`, under what both sides can do.
fn ok_as_read<T: OkPacketLayout>(
    capabilities: CapabilityFlags,
    packet: &OkPacketRef<'_>,
    payload: &[u8],
    written: &mut Vec<u8>,
) -> Result<bool, AllocError> {
    let packet = packet.to_owned();
    let sent = OkPacketSerializer::<T>::new(&packet, capabilities);
    as_read(&sent, payload, written)
}

/// Writes a packet of the client. A part of a file is forwarded as it was received, and so is its end.
fn write_client(
    alloc: Global,
    packet: &ClientPacket<'_>,
    payload: &[u8],
    written: &mut Vec<u8>,
) -> Result<bool, AllocError> {
    match packet {
        ClientPacket::Login(packet) => as_read(&packet.to_owned(alloc)?, payload, written),
        ClientPacket::AuthData(data) | ClientPacket::Clone(data) => as_read(data, payload, written),
        ClientPacket::Command(command) => as_read(command, payload, written),
        ClientPacket::SemiSyncAck(packet) => as_read(packet, payload, written),
        ClientPacket::SslRequest(_) | ClientPacket::InfileContent(_) | ClientPacket::InfileEnd => {
            Ok(false)
        }
    }
}

/// Writes a packet of the server. A row is forwarded as it was received, and so is a progress report.
fn write_server(
    alloc: Global,
    capabilities: CapabilityFlags,
    packet: &ServerPacket<'_, '_, RowColumn>,
    payload: &[u8],
    written: &mut Vec<u8>,
) -> Result<bool, AllocError> {
    match packet {
        ServerPacket::Handshake(packet) => as_read(&packet.to_owned(), payload, written),
        ServerPacket::GreetingError(packet) => as_read(&packet.to_owned(), payload, written),
        ServerPacket::AuthSwitch(packet) => as_read(&packet.to_owned(), payload, written),
        ServerPacket::OldAuthSwitch(packet) => as_read(packet, payload, written),
        ServerPacket::AuthMoreData(packet) => as_read(&packet.to_owned(), payload, written),
        ServerPacket::AuthNextFactor(packet) => as_read(&packet.to_owned(), payload, written),
        ServerPacket::AuthPluginData(data) => as_read(data, payload, written),
        ServerPacket::Ok(ok) => ok_as_read::<CommonOkPacket>(capabilities, ok, payload, written),
        ServerPacket::Eof(eof) => ok_as_read::<OldEofPacket>(capabilities, eof, payload, written),
        ServerPacket::OkTerminator(ok) => {
            ok_as_read::<ResultSetTerminator>(capabilities, ok, payload, written)
        }
        ServerPacket::Error(error) => as_read(&error.to_owned(), payload, written),
        ServerPacket::UnsolicitedError(error) => as_read(&error.to_owned(), payload, written),
        ServerPacket::LocalInfile(packet) => as_read(&packet.to_owned(), payload, written),
        ServerPacket::ColumnCount(count) => as_read(count, payload, written),
        ServerPacket::Column(column) => as_read(column, payload, written),
        ServerPacket::FieldListColumn(column) => as_read(column, payload, written),
        ServerPacket::PrepareOk(statement) => as_read(statement, payload, written),
        ServerPacket::Statistics(text) | ServerPacket::Clone(text) => {
            as_read(text, payload, written)
        }
        ServerPacket::BinlogEvent(event) => as_read(event, payload, written),
        ServerPacket::ProgressReport(_)
        | ServerPacket::TextRow(_)
        | ServerPacket::BinaryRow(_)
        | ServerPacket::UntypedRow(_) => Ok(false),
    }
}
