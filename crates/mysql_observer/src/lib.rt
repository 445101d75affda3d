//! The records of a connection's packets.
//!
//! [`server_packet`] and [`client_packet`] take the kind that a [`Session`](mysql_conversation::Session) returned, and read the payload
//! with the reader of that kind. Records borrow from the payload and do not allocate. If the reader refuses a payload, its fault is
//! returned, and the session continues as the kind says. An [`Observer`] does both and keeps the context.
//!
//! ```
//! let kind = observer.next(Side::Server, payload)?.kind;
//! let packet = observer.server_packet(kind, payload)?;
//! Ok(matches!(
//!     &packet,
//!     ServerPacket::TextRow(_) | ServerPacket::BinaryRow(_)
//! ))
//! ```
#![tactic(auto)]

mod client;
mod client_reader;
mod event;
mod execution;
mod latest;
pub mod laws;
mod limits;
mod observed_packet;
mod observer;
mod packets;
mod params;
mod reached;
mod read_context;
mod record;
mod server;
mod server_reader;
mod tracked;

pub use client::ClientPacket;
pub use client_reader::{client_packet, read_client_packet};
pub use limits::ObserverLimits;
pub use observed_packet::ObservedPacket;
pub use observer::Observer;
pub use read_context::ReadContext;
pub use record::ClientRecord;
pub use server::ServerPacket;
pub use server_reader::{read_server_packet, server_packet};
