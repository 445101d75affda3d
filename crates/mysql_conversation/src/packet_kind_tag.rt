//! Kinds of packets without data: written by tools/tables.py from tables/packet_kinds.txt.

ghost use Rattle.std.specs.Prelude.{◌≡◌};
ghost use Rattle.mysql_conversation.specs.PacketKindTag as spec;

use crate::packet_kind::{PacketKind, RowFormat};

/// A kind of packet without its data: a [`PacketKind`], with separate variants for text rows and binary rows.
///
/// ```
/// if !connection.may_receive(PacketKindTag::Column) {
///     break;
/// }
/// ```
#[derive(Clone, Copy, Debug, PartialEq, Eq)]
pub enum PacketKindTag {
    /// The server's greeting, the initial handshake.
    Handshake = 0,
    /// A request for TLS.
    SslRequest = 1,
    /// The client's response to the greeting.
    Login = 2,
    /// The server's request for another authentication plugin, during a login or a change of user.
    AuthSwitch = 3,
    /// A switch to the old plugin: the single byte `fe`.
    OldAuthSwitch = 4,
    /// Further authentication data, after the byte `01`.
    AuthMoreData = 5,
    /// A request for the next factor, after the byte `02`.
    AuthNextFactor = 6,
    /// Data of an authentication plugin of the server.
    AuthPluginData = 7,
    /// The client's answer to any of these.
    AuthData = 8,
    /// A command, with its first byte.
    Command = 9,
    /// An OK packet.
    Ok = 10,
    /// An error. It ends the answer to a command.
    Error = 11,
    /// An error that answers no command: the server ends the connection.
    UnsolicitedError = 12,
    /// A progress report.
    ProgressReport = 13,
    /// The server's request for a local file.
    LocalInfile = 14,
    /// A part of the file.
    InfileContent = 15,
    /// The file's end: an empty packet.
    InfileEnd = 16,
    /// The number of columns, and whether their definitions follow.
    ColumnCount = 17,
    /// The definition of a column or a parameter.
    Column = 18,
    /// The definition of a column in the answer to `COM_FIELD_LIST`, with its default value.
    FieldListColumn = 19,
    /// An EOF packet: the end of definitions or rows, or, under any capabilities, of a stream of events.
    Eof = 20,
    /// The end of rows as an OK packet, under `CLIENT_DEPRECATE_EOF`.
    OkTerminator = 21,
    /// A row of the text protocol.
    TextRow = 22,
    /// A row of the binary protocol.
    BinaryRow = 23,
    /// A prepared statement: the counts of its columns and of its parameters, and whether their definitions follow.
    PrepareOk = 24,
    /// The text in the answer to `COM_STATISTICS`.
    Statistics = 25,
    /// An event of a binary log stream.
    BinlogEvent = 26,
    /// A replica's acknowledgement of an event.
    SemiSyncAck = 27,
    /// After `COM_CLONE`, a packet of the clone plugin's own protocol, from either side.
    Clone = 28,
}

impl PacketKindTag {
    /// All kinds, in order.
    pub const ALL: [PacketKindTag; 29] = [
        PacketKindTag::Handshake,
        PacketKindTag::SslRequest,
        PacketKindTag::Login,
        PacketKindTag::AuthSwitch,
        PacketKindTag::OldAuthSwitch,
        PacketKindTag::AuthMoreData,
        PacketKindTag::AuthNextFactor,
        PacketKindTag::AuthPluginData,
        PacketKindTag::AuthData,
        PacketKindTag::Command,
        PacketKindTag::Ok,
        PacketKindTag::Error,
        PacketKindTag::UnsolicitedError,
        PacketKindTag::ProgressReport,
        PacketKindTag::LocalInfile,
        PacketKindTag::InfileContent,
        PacketKindTag::InfileEnd,
        PacketKindTag::ColumnCount,
        PacketKindTag::Column,
        PacketKindTag::FieldListColumn,
        PacketKindTag::Eof,
        PacketKindTag::OkTerminator,
        PacketKindTag::TextRow,
        PacketKindTag::BinaryRow,
        PacketKindTag::PrepareOk,
        PacketKindTag::Statistics,
        PacketKindTag::BinlogEvent,
        PacketKindTag::SemiSyncAck,
        PacketKindTag::Clone,
    ];

    /// Returns the position in [`ALL`](Self::ALL).
    #[inline]
    pub fn index(self) -> u8
        ensures value { result ≡ spec.index self }
    {
        self as u8
    }

    /// Returns the name in lower case with underscores: `text_row`.
    pub fn as_str(self) -> &'static str
        ensures value { result.now ≡ spec.text_of self }
    {
        match self {
            PacketKindTag::Handshake => "handshake",
            PacketKindTag::SslRequest => "ssl_request",
            PacketKindTag::Login => "login",
            PacketKindTag::AuthSwitch => "auth_switch",
            PacketKindTag::OldAuthSwitch => "old_auth_switch",
            PacketKindTag::AuthMoreData => "auth_more_data",
            PacketKindTag::AuthNextFactor => "auth_next_factor",
            PacketKindTag::AuthPluginData => "auth_plugin_data",
            PacketKindTag::AuthData => "auth_data",
            PacketKindTag::Command => "command",
            PacketKindTag::Ok => "ok",
            PacketKindTag::Error => "error",
            PacketKindTag::UnsolicitedError => "unsolicited_error",
            PacketKindTag::ProgressReport => "progress_report",
            PacketKindTag::LocalInfile => "local_infile",
            PacketKindTag::InfileContent => "infile_content",
            PacketKindTag::InfileEnd => "infile_end",
            PacketKindTag::ColumnCount => "column_count",
            PacketKindTag::Column => "column",
            PacketKindTag::FieldListColumn => "field_list_column",
            PacketKindTag::Eof => "eof",
            PacketKindTag::OkTerminator => "ok_terminator",
            PacketKindTag::TextRow => "text_row",
            PacketKindTag::BinaryRow => "binary_row",
            PacketKindTag::PrepareOk => "prepare_ok",
            PacketKindTag::Statistics => "statistics",
            PacketKindTag::BinlogEvent => "binlog_event",
            PacketKindTag::SemiSyncAck => "semi_sync_ack",
            PacketKindTag::Clone => "clone",
        }
    }
}

impl PacketKind {
    /// Returns the kind without its data.
    pub fn name(self) -> PacketKindTag
        ensures value { result ≡ spec.name_of self }
    {
        match self {
            PacketKind::Handshake => PacketKindTag::Handshake,
            PacketKind::SslRequest => PacketKindTag::SslRequest,
            PacketKind::Login => PacketKindTag::Login,
            PacketKind::AuthSwitch => PacketKindTag::AuthSwitch,
            PacketKind::OldAuthSwitch => PacketKindTag::OldAuthSwitch,
            PacketKind::AuthMoreData => PacketKindTag::AuthMoreData,
            PacketKind::AuthNextFactor => PacketKindTag::AuthNextFactor,
            PacketKind::AuthPluginData => PacketKindTag::AuthPluginData,
            PacketKind::AuthData => PacketKindTag::AuthData,
            PacketKind::Command(_) => PacketKindTag::Command,
            PacketKind::Ok => PacketKindTag::Ok,
            PacketKind::Error => PacketKindTag::Error,
            PacketKind::UnsolicitedError => PacketKindTag::UnsolicitedError,
            PacketKind::ProgressReport => PacketKindTag::ProgressReport,
            PacketKind::LocalInfile => PacketKindTag::LocalInfile,
            PacketKind::InfileContent => PacketKindTag::InfileContent,
            PacketKind::InfileEnd => PacketKindTag::InfileEnd,
            PacketKind::ColumnCount(_, _) => PacketKindTag::ColumnCount,
            PacketKind::Column => PacketKindTag::Column,
            PacketKind::FieldListColumn => PacketKindTag::FieldListColumn,
            PacketKind::Eof => PacketKindTag::Eof,
            PacketKind::OkTerminator => PacketKindTag::OkTerminator,
            PacketKind::Row(RowFormat::Text) => PacketKindTag::TextRow,
            PacketKind::Row(RowFormat::Binary) => PacketKindTag::BinaryRow,
            PacketKind::PrepareOk(_, _, _) => PacketKindTag::PrepareOk,
            PacketKind::Statistics => PacketKindTag::Statistics,
            PacketKind::BinlogEvent => PacketKindTag::BinlogEvent,
            PacketKind::SemiSyncAck => PacketKindTag::SemiSyncAck,
            PacketKind::Clone => PacketKindTag::Clone,
        }
    }
}
