//! The kinds of packets.

/// The sender of a packet.
///
/// ```
/// for reply in replies {
/// let (kind, command) = pipeline.next(Side::Server, reply)?;
/// if let PacketKind::Error = kind {
///     return Ok(command == 2);
/// }
/// }
/// Ok(false)
/// ```
#[derive(Clone, Copy, Debug, PartialEq, Eq)]
pub enum Side {
    /// The client.
    Client,
    /// The server.
    Server,
}

/// The format of the values of rows.
#[derive(Clone, Copy, Debug, PartialEq, Eq)]
pub enum RowFormat {
    /// Text, in the answer to a query.
    Text,
    /// Binary, in the answer to an execution.
    Binary,
}

/// The kind of a packet, with the data that depends on the kind.
///
/// ```
/// for reply in replies {
/// let (kind, command) = pipeline.next(Side::Server, reply)?;
/// if let PacketKind::Error = kind {
///     return Ok(command == 2);
/// }
/// }
/// Ok(false)
/// ```
#[derive(Clone, Copy, Debug, PartialEq, Eq)]
pub enum PacketKind {
    /// The server's greeting, the initial handshake.
    Handshake,
    /// A request for TLS.
    SslRequest,
    /// The client's response to the greeting.
    Login,
    /// The server's request for another authentication plugin, during a login or a change of user.
    AuthSwitch,
    /// A switch to the old plugin: the single byte `fe`.
    OldAuthSwitch,
    /// Further authentication data, after the byte `01`.
    AuthMoreData,
    /// A request for the next factor, after the byte `02`.
    AuthNextFactor,
    /// Data of an authentication plugin of the server.
    AuthPluginData,
    /// The client's answer to any of these.
    AuthData,
    /// A command, with its first byte.
    Command(u8),
    /// An OK packet.
    Ok,
    /// An error. It ends the answer to a command.
    Error,
    /// An error that answers no command: the server ends the connection.
    UnsolicitedError,
    /// A progress report.
    ProgressReport,
    /// The server's request for a local file.
    LocalInfile,
    /// A part of the file.
    InfileContent,
    /// The file's end: an empty packet.
    InfileEnd,
    /// The number of columns, and whether their definitions follow.
    ColumnCount(u64, bool),
    /// The definition of a column or a parameter.
    Column,
    /// The definition of a column in the answer to `COM_FIELD_LIST`, with its default value.
    FieldListColumn,
    /// An EOF packet: the end of definitions or rows, or, under any capabilities, of a stream of events.
    Eof,
    /// The end of rows as an OK packet, under `CLIENT_DEPRECATE_EOF`.
    OkTerminator,
    /// A row.
    Row(RowFormat),
    /// A prepared statement: the counts of its columns and of its parameters, and whether their definitions follow.
    PrepareOk(u16, u16, bool),
    /// The text in the answer to `COM_STATISTICS`.
    Statistics,
    /// An event of a binary log stream.
    BinlogEvent,
    /// A replica's acknowledgement of an event.
    SemiSyncAck,
    /// After `COM_CLONE`, a packet of the clone plugin's own protocol, from either side.
    Clone,
}

/// A packet that may not come next.
///
/// ```
/// let mut conversation = Conversation::new(alloc, agreed, InitialPhase::Commands);
/// conversation.next(Side::Client, query)?;
/// conversation.next(Side::Server, reply)?;
/// Ok(conversation.is_idle())
/// ```
#[derive(Clone, Copy, Debug, PartialEq, Eq)]
pub struct UnexpectedPacket;

/// The phase in which a conversation starts.
///
/// ```
/// let mut conversation = Conversation::new(alloc, agreed, InitialPhase::Commands);
/// conversation.next(Side::Client, query)?;
/// conversation.next(Side::Server, reply)?;
/// Ok(conversation.is_idle())
/// ```
#[derive(Clone, Copy, Debug, PartialEq, Eq)]
pub enum InitialPhase {
    /// After the greeting and the client's response: the server authenticates the client.
    Login,
    /// Between two commands.
    Commands,
}
