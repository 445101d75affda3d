//! The records of a conversation's packets: of an observed connection, and of packets whose kind is known.

pub use mysql_observer::{
    ClientPacket, ClientRecord, ObservedPacket, Observer, ObserverLimits, ReadContext,
    ServerPacket, client_packet, read_client_packet, read_server_packet, server_packet,
};
