//! Packets of the client, by kind.

use mysql_auth::{HandshakeResponseRef, SslRequest};
use mysql_commands::{BytesRef, Command};
use mysql_repl::SemiSyncAckPacket;

/// A packet of the client: the record of its kind, whose texts stay in the payload.
#[derive(Drop)]
pub enum ClientPacket<'a> {
    /// A request to continue in TLS.
    SslRequest(SslRequest),
    /// The response to the greeting.
    Login(HandshakeResponseRef<'a>),
    /// The client's data for a plugin of the server: the whole payload.
    AuthData(BytesRef<'a>),
    /// A command.
    Command(Command<'a>),
    /// A part of a local file: the whole payload.
    InfileContent(BytesRef<'a>),
    /// The file's end: an empty packet.
    InfileEnd,
    /// A replica's acknowledgement of an event.
    SemiSyncAck(SemiSyncAckPacket<'a>),
    /// A packet of the clone plugin's own protocol: the whole payload.
    Clone(BytesRef<'a>),
}
