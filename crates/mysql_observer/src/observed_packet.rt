//! The kind and the exchange of an observed packet.

use mysql_conversation::PacketKind;

/// The kind and the exchange of an observed packet.
#[derive(Clone, Copy, Debug, PartialEq, Eq)]
pub struct ObservedPacket {
    /// The kind of the packet.
    pub kind: PacketKind,
    /// The number of the command whose exchange the packet belongs to: 0 before the first command.
    pub exchange: u64,
    /// Whether there was memory for everything that later packets need. If not, their values, or the types of a
    /// result's columns, are unknown.
    pub has_memory: bool,
}
