//! Reads packets of the client by their kind.
#![tactic(auto, using(mysql_wire::proofs::Packets::packets))]

ghost use Rattle.std.specs.Prelude.{false, true, ◌≡◌, Ok, List, ℕ, OnErr, IfOk, IfErr};
ghost use Rattle.mysql_wire.specs.Reading.{Answers, Faults};
ghost use Rattle.mysql_observer.specs.Client as spec;
ghost use Rattle.mysql_observer.specs.Queries as queries;

use crate::client::ClientPacket;
use crate::read_context::agreed_or_none;
use mysql_commands::Command;
use mysql_conversation::PacketKind;
use mysql_replies::SessionCapabilities;
use mysql_wire::{FaultOf, ParseBuf};
use std::alloc::Global;

/// The first byte of `COM_QUERY`.
const QUERY: u8 = 0x03;

/// Reads the packet of this kind.
fn read_of_kind<'s, 'a>(
    agreed: Option<SessionCapabilities>,
    kind: PacketKind,
    buf: &mut ParseBuf<'a>,
) -> Result<ClientPacket<'a>, FaultOf<'s>>
    ensures value { Answers false result buf.new ((spec.client_packet agreed kind).reads buf.old) }
{
    match kind {
        PacketKind::SslRequest => Ok(ClientPacket::SslRequest(buf.parse(())?)),
        PacketKind::Login => Ok(ClientPacket::Login(buf.parse(())?)),
        PacketKind::AuthData => Ok(ClientPacket::AuthData(buf.parse(())?)),
        PacketKind::Command(_) => Ok(ClientPacket::Command(buf.parse(
            agreed_or_none(agreed).mysql,
        )?)),
        PacketKind::InfileContent => Ok(ClientPacket::InfileContent(buf.parse(())?)),
        PacketKind::InfileEnd => Ok(ClientPacket::InfileEnd),
        PacketKind::SemiSyncAck => Ok(ClientPacket::SemiSyncAck(buf.parse(())?)),
        PacketKind::Clone => Ok(ClientPacket::Clone(buf.parse(())?)),
        _ => Err(FaultOf::InvalidInput("A kind of the server's packets")),
    }
}

/// Whether a packet is a query: a command that begins with that byte.
#[inline(always)]
fn is_query(kind: PacketKind, buf: &ParseBuf<'_>) -> bool
    ensures { result ≡ true → queries.IsQuery kind buf.now }
{
    matches!(kind, PacketKind::Command(_)) && buf.first() == Some(QUERY)
}

/// Reads a query.
#[inline(always)]
fn read_query<'s, 'a>(
    agreed: Option<SessionCapabilities>,
    buf: &mut ParseBuf<'a>,
) -> Result<ClientPacket<'a>, FaultOf<'s>>
    ensures value { Answers false result buf.new ((queries.query_packet agreed).reads buf.old) }
{
    Ok(ClientPacket::Command(Command::Query(buf.parse(agreed_or_none(agreed).mysql)?)))
}

/// Reads the packet of this kind. A query is read without the moves of the other commands' records.
#[inline(always)]
fn read_packet<'s, 'a>(
    agreed: Option<SessionCapabilities>,
    kind: PacketKind,
    buf: &mut ParseBuf<'a>,
) -> Result<ClientPacket<'a>, FaultOf<'s>>
    ensures value { Answers false result buf.new ((spec.client_packet agreed kind).reads buf.old) }
{
    if is_query(kind, buf) {
        return read_query(agreed, buf);
    }
    read_of_kind(agreed, kind, buf)
}

/// Reads the packet of this kind from the front of the bytes, under the agreed capabilities, which are none
/// before the login: see [`Session::agreed`](mysql_conversation::Session::agreed). Bytes after the record
/// remain.
///
/// The fault is that of the kind's reader. A kind of the server's packets is `InvalidInput`. After an error the
/// bytes are unchanged. It takes no memory, and never returns `Memory`.
#[inline(always)]
pub fn read_client_packet<'s, 'a>(
    agreed: Option<SessionCapabilities>,
    kind: PacketKind,
    buf: &mut ParseBuf<'a>,
) -> Result<ClientPacket<'a>, FaultOf<'s>>
    ensures value { Answers false result buf.new ((spec.client_packet agreed kind).reads buf.old) }
    ensures err { OnErr result (buf.new ≡ buf.old) }
{
    let mut rest = buf.rest();
    let packet = read_packet(agreed, kind, &mut rest)?;
    *buf = rest;
    Ok(packet)
}

/// Reads a payload as the packet of this kind, like [`read_client_packet`]. Bytes may follow the record.
#[inline(always)]
pub fn client_packet<'s, 'a>(
    alloc: Global,
    agreed: Option<SessionCapabilities>,
    kind: PacketKind,
    payload: &'a [u8],
) -> Result<ClientPacket<'a>, FaultOf<'s>>
    ensures packet { IfOk result (λ packet. (rest : List ℕ) × (spec.client_packet agreed kind).reads payload.now ≡ Ok (packet, rest)) }
    ensures fault { IfErr result (λ e. Faults false e ((spec.client_packet agreed kind).reads payload.now)) }
{
    let mut buf = ParseBuf::new(alloc, payload);
    let packet = read_client_packet(agreed, kind, &mut buf)?;
    Ok(packet)
}
