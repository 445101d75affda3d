//! Packets of the server, by kind.

use mysql_auth::{
    AuthMoreDataRef, AuthNextFactorRef, AuthSwitchRequestRef, HandshakePacketRef,
    OldAuthSwitchRequest,
};
use mysql_commands::BytesRef;
use mysql_repl::BinlogStreamEvent;
use mysql_replies::{
    ColumnCount, ErrPacketRef, ExtendedColumnRef, FieldListColumn, GreetingErrorRef,
    LocalInfilePacketRef, OkPacketRef, ProgressReportRef,
};
use mysql_stmt::{BinaryRowView, StmtPacketWithMetadata, TextRowView, TypedColumn};
use mysql_values::ServerSide;

/// A packet of the server: the record of its kind, whose texts and values stay in the payload.
#[derive(Drop)]
pub enum ServerPacket<'a, 'c, C: TypedColumn> {
    /// The greeting.
    Handshake(HandshakePacketRef<'a>),
    /// An error before the login: instead of the greeting or of the login, or in answer to a packet that is no login.
    GreetingError(GreetingErrorRef<'a>),
    /// A request for another authentication plugin.
    AuthSwitch(AuthSwitchRequestRef<'a>),
    /// A switch to the old plugin.
    OldAuthSwitch(OldAuthSwitchRequest),
    /// Further authentication data.
    AuthMoreData(AuthMoreDataRef<'a>),
    /// A request for the next factor.
    AuthNextFactor(AuthNextFactorRef<'a>),
    /// Data of a server's plugin: the whole payload.
    AuthPluginData(BytesRef<'a>),
    /// An OK packet.
    Ok(OkPacketRef<'a>),
    /// An error that ends the answer to a command.
    Error(ErrPacketRef<'a>),
    /// An error that answers no command: the server ends the connection.
    UnsolicitedError(ErrPacketRef<'a>),
    /// A progress report.
    ProgressReport(ProgressReportRef<'a>),
    /// The server's request for a local file.
    LocalInfile(LocalInfilePacketRef<'a>),
    /// The number of columns.
    ColumnCount(ColumnCount),
    /// The definition of a column or a parameter, with MariaDB's extended metadata if these are agreed on.
    Column(ExtendedColumnRef<'a>),
    /// The definition of a column in the answer to `COM_FIELD_LIST`, with its default value.
    FieldListColumn(FieldListColumn<'a>),
    /// An EOF packet: its status flags and its warning count.
    Eof(OkPacketRef<'a>),
    /// The end of rows as an OK packet.
    OkTerminator(OkPacketRef<'a>),
    /// A text row, whose values are read one by one.
    TextRow(TextRowView<'a>),
    /// A binary row, whose values are read one by one.
    BinaryRow(BinaryRowView<'a, 'c, ServerSide, C>),
    /// A binary row whose columns are unknown: the whole payload.
    UntypedRow(BytesRef<'a>),
    /// A prepared statement.
    PrepareOk(StmtPacketWithMetadata),
    /// The text in the answer to `COM_STATISTICS`: the whole payload.
    Statistics(BytesRef<'a>),
    /// An event of a binary log stream.
    BinlogEvent(BinlogStreamEvent<'a>),
    /// A packet of the clone plugin's own protocol: the whole payload.
    Clone(BytesRef<'a>),
}
