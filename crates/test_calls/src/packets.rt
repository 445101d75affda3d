//! The records of a session: `packets LIMIT WORD ..`, whose words are those of `session`. After each kind come a few fields of its
//! record, and after `+` how many bytes follow it; a fault stands in the record's place.

use crate::conversation::Tracker;
use mysql_packets::constants::{ColumnFlags, ColumnType, Flags};
use mysql_packets::conversation::{PacketKind, PacketKindTag, Session, SessionError, Side};
use mysql_packets::io::{Fault, ParseBuf};
use mysql_packets::misc::raw::ConstValue;
use mysql_packets::observer::{
    ClientPacket, ReadContext, ServerPacket, client_packet, read_client_packet, read_server_packet,
    server_packet,
};
use mysql_packets::packets::{
    ColumnRef, Command, ErrPacketRef, HandshakePacketRef, HandshakeResponseRef, OkPacketRef,
    ProgressReportRef, StmtPacketWithMetadata,
};
use mysql_packets::row::{BinaryRowView, TextRowView, TypedColumn};
use mysql_packets::value::{ServerSide, ValueRef};
use std::alloc::Global;
use test_probe::prelude::Out;

/// A column's type, and whether its numbers have no sign.
#[derive(Clone, Copy, Debug)]
struct Typed {
    column_type: ColumnType,
    is_unsigned: bool,
}

impl TypedColumn for Typed {
    ghost type_of = { λ c. c.column_type };

    fn value_type(&self) -> ColumnType {
        self.column_type
    }

    ghost unsigned = { λ c. c.is_unsigned };

    fn is_unsigned(&self) -> bool {
        self.is_unsigned
    }
}

/// A session, and the columns of its last result.
#[derive(Drop)]
pub struct Watched {
    alloc: Global,
    session: Session,
    count: usize,
    columns: Vec<Typed>,
}

/// Adds a number to the last word.
fn number(out: &mut Out, number: u64) {
    out.push(":");
    out.display(&number);
}

/// Adds a length to the last word.
fn length(out: &mut Out, bytes: &[u8]) {
    number(out, bytes.len() as u64);
}

/// Adds the name of a fault to the last word.
fn fault(out: &mut Out, fault: Fault) {
    out.push(match fault {
        Fault::UnexpectedEof => ":UnexpectedEof",
        Fault::InvalidData(_) => ":InvalidData",
        Fault::InvalidInput(_) => ":InvalidInput",
        Fault::Memory => ":Memory",
    });
}

/// Adds how many bytes follow, where there are any.
fn rest(out: &mut Out, buf: &ParseBuf<'_>) {
    if !buf.is_empty() {
        out.push("+");
        out.display(&buf.len());
    }
}

/// Says where the payload's own call answers otherwise.
fn same(out: &mut Out, is_read: bool, is_read_too: bool) {
    if is_read != is_read_too {
        out.push(":other");
    }
}

fn handshake(out: &mut Out, packet: &HandshakePacketRef<'_>) {
    number(out, u64::from(packet.connection_id()));
    length(out, packet.server_version());
}

fn ok(out: &mut Out, packet: &OkPacketRef<'_>) {
    number(out, packet.affected_rows());
    number(out, packet.last_insert_id().unwrap_or(0));
    number(out, u64::from(packet.status_flags().bits()));
    number(out, u64::from(packet.warnings()));
}

fn error(out: &mut Out, packet: &ErrPacketRef<'_>) {
    if packet.is_error() {
        number(out, u64::from(packet.server_error().error_code()));
        length(out, packet.server_error().message());
    }
}

fn report(out: &mut Out, report: &ProgressReportRef<'_>) {
    number(out, u64::from(report.stage()));
    number(out, u64::from(report.max_stage()));
    number(out, u64::from(report.progress()));
}

fn column(out: &mut Out, column: &ColumnRef<'_>) {
    length(out, column.name());
    number(out, u64::from(column.column_type().code()));
    number(out, u64::from(column.flags().bits()));
}

fn statement(out: &mut Out, packet: &StmtPacketWithMetadata) {
    number(out, u64::from(packet.packet().statement_id()));
    number(out, u64::from(packet.packet().warning_count()));
}

/// Adds a value to the last word: the length of bytes, or a number.
fn value(out: &mut Out, value: ValueRef<'_>) {
    match value {
        ValueRef::NULL => out.push(":NULL"),
        ValueRef::Bytes(bytes) => length(out, bytes),
        ValueRef::Int(n) => {
            out.push(":");
            out.display(&n);
        }
        ValueRef::UInt(n) => number(out, n),
        ValueRef::Float(bits) => number(out, u64::from(bits)),
        ValueRef::Double(bits) => number(out, bits),
        ValueRef::Date(year, month, day, _, _, _, _) => {
            number(out, u64::from(year));
            number(out, u64::from(month));
            number(out, u64::from(day));
        }
        ValueRef::Time(_, days, hours, _, _, _) => {
            number(out, u64::from(days));
            number(out, u64::from(hours));
        }
    }
}

fn text_row(out: &mut Out, mut row: TextRowView<'_>) {
    for _ in 0..row.left() {
        match row.next_value() {
            Ok(Some(next)) => value(out, next),
            Ok(None) => break,
            Err(why) => return fault(out, why),
        }
    }
    rest(out, &row.rest());
}

fn binary_row(out: &mut Out, mut row: BinaryRowView<'_, '_, ServerSide, Typed>) {
    for _ in 0..row.left() {
        match row.next_value() {
            Ok(Some(next)) => value(out, next),
            Ok(None) => break,
            Err(why) => return fault(out, why),
        }
    }
    rest(out, &row.rest());
}

fn login(out: &mut Out, packet: &HandshakeResponseRef<'_>) {
    number(out, u64::from(packet.capabilities().bits()));
    length(out, packet.user());
    length(out, packet.scramble_buf());
}

fn command(out: &mut Out, command: &Command<'_>) {
    match command {
        Command::Query(query) => length(out, query.text()),
        Command::StmtPrepare(text) => length(out, text.as_bytes()),
        Command::StmtExecute(execute) => length(out, execute.params()),
        _ => {}
    }
}

/// Adds a few fields of a packet of the server.
fn server(out: &mut Out, packet: ServerPacket<'_, '_, Typed>) {
    match packet {
        ServerPacket::Handshake(packet) => handshake(out, &packet),
        ServerPacket::GreetingError(packet) => {
            number(out, u64::from(packet.server_error().error_code()));
        }
        ServerPacket::AuthSwitch(packet) => length(out, packet.auth_plugin_name()),
        ServerPacket::OldAuthSwitch(_) => {}
        ServerPacket::AuthMoreData(packet) => length(out, packet.data()),
        ServerPacket::AuthNextFactor(packet) => length(out, packet.auth_plugin_name()),
        ServerPacket::AuthPluginData(data) => length(out, data.as_bytes()),
        ServerPacket::Ok(packet) => ok(out, &packet),
        ServerPacket::Error(packet) => error(out, &packet),
        ServerPacket::UnsolicitedError(packet) => error(out, &packet),
        ServerPacket::ProgressReport(packet) => report(out, &packet),
        ServerPacket::LocalInfile(packet) => length(out, packet.file_name()),
        ServerPacket::ColumnCount(packet) => number(out, packet.count()),
        ServerPacket::Column(packet) => column(out, packet.column()),
        ServerPacket::FieldListColumn(packet) => {
            column(out, packet.column().column());
            if let Some(text) = packet.default_value() {
                length(out, text);
            }
        }
        ServerPacket::Eof(packet) => ok(out, &packet),
        ServerPacket::OkTerminator(packet) => ok(out, &packet),
        ServerPacket::TextRow(row) => text_row(out, row),
        ServerPacket::BinaryRow(row) => binary_row(out, row),
        ServerPacket::PrepareOk(packet) => statement(out, &packet),
        ServerPacket::UntypedRow(bytes)
        | ServerPacket::Statistics(bytes)
        | ServerPacket::Clone(bytes) => length(out, bytes.as_bytes()),
        ServerPacket::BinlogEvent(event) => length(out, event.event()),
    }
}

/// Adds a few fields of a packet of the client.
fn client(out: &mut Out, packet: ClientPacket<'_>) {
    match packet {
        ClientPacket::SslRequest(packet) => number(out, u64::from(packet.capabilities().bits())),
        ClientPacket::Login(packet) => login(out, &packet),
        ClientPacket::AuthData(data) | ClientPacket::Clone(data) => length(out, data.as_bytes()),
        ClientPacket::Command(packet) => command(out, &packet),
        ClientPacket::InfileContent(data) => length(out, data.as_bytes()),
        ClientPacket::InfileEnd => {}
        ClientPacket::SemiSyncAck(packet) => number(out, packet.position()),
    }
}

/// What a packet says of the rows to come: how many columns they have and whether their definitions follow, or one of them.
#[derive(Clone, Copy, Debug)]
enum Shape {
    Count(u64, bool),
    Column(Typed),
}

fn shape_in(packet: &ServerPacket<'_, '_, Typed>) -> Option<Shape> {
    match packet {
        ServerPacket::ColumnCount(count) => {
            Some(Shape::Count(count.count(), count.metadata_follows()))
        }
        ServerPacket::Column(column) => Some(Shape::Column(Typed {
            column_type: column.column().column_type(),
            is_unsigned: column.column().flags().contains(ColumnFlags::UNSIGNED_FLAG),
        })),
        _ => None,
    }
}

impl Watched {
    /// A session of which no packet has come.
    pub fn new(alloc: Global, limit: usize) -> Self {
        Watched {
            alloc,
            session: Session::new(alloc, limit),
            count: 0,
            columns: Vec::new(alloc),
        }
    }

    /// Keeps what a packet says of the rows to come.
    fn keep(&mut self, out: &mut Out, shape: Shape) {
        match shape {
            Shape::Count(count, follow) => {
                self.count = count as usize;
                if follow {
                    self.columns = Vec::new(self.alloc);
                }
            }
            Shape::Column(column) => {
                if self.columns.push(column).is_err() {
                    out.lose();
                }
            }
        }
    }
}

impl Tracker for Watched {
    fn next(&mut self, from: Side, payload: &[u8]) -> Result<(PacketKind, u64), SessionError> {
        self.session.next(from, payload)
    }

    fn may_receive(&self, from: Side, name: PacketKindTag) -> bool {
        self.session.may_receive(from, name)
    }

    fn tls_established(&mut self) {
        self.session.tls_established()
    }

    fn see(&mut self, out: &mut Out, from: Side, kind: PacketKind, payload: &[u8]) {
        let agreed = self.session.agreed();
        let mut buf = ParseBuf::new(self.alloc, payload);
        if let Side::Client = from {
            let is_read = match read_client_packet(agreed, kind, &mut buf) {
                Ok(packet) => {
                    client(out, packet);
                    true
                }
                Err(why) => {
                    fault(out, why);
                    false
                }
            };
            rest(out, &buf);
            return same(
                out,
                is_read,
                client_packet(self.alloc, agreed, kind, payload).is_ok(),
            );
        }
        let context = ReadContext {
            agreed,
            column_count: self.count,
            columns: Some(self.columns.as_slice()),
            semi_sync: false,
        };
        let (is_read, shape) = match read_server_packet(&context, kind, &mut buf) {
            Ok(packet) => {
                let shape = shape_in(&packet);
                server(out, packet);
                (true, shape)
            }
            Err(why) => {
                fault(out, why);
                (false, None)
            }
        };
        rest(out, &buf);
        same(
            out,
            is_read,
            server_packet(self.alloc, &context, kind, payload).is_ok(),
        );
        if let Some(shape) = shape {
            self.keep(out, shape);
        }
    }
}
