//! Reads packets of the server by their kind.
#![tactic(auto, using(mysql_wire::proofs::Packets::packets))]

ghost use Rattle.std.specs.Prelude.{false, ◌≡◌, Ok, List, ℕ, OnErr, IfOk, IfErr};
ghost use Rattle.mysql_wire.specs.Reading.{Answers, Faults};
ghost use Rattle.mysql_observer.specs.Server as spec;

use crate::read_context::{ReadContext, agreed_or_none};
use crate::server::ServerPacket;
use mysql_conversation::{PacketKind, RowFormat};
use mysql_replies::{
    CommonOkPacket, OkPacketRef, OkPacketRefDeserializer, OldEofPacket, ProgressReportRef,
    ResultSetTerminator, SessionCapabilities,
};
use mysql_stmt::{BinaryRowView, TextRowView, TypedColumn};
use mysql_values::ServerSide;
use mysql_wire::{FaultOf, ParseBuf, Skip};
use std::alloc::Global;

/// Reads an OK packet.
fn read_ok<'s, 'a>(
    agreed: SessionCapabilities,
    buf: &mut ParseBuf<'a>,
) -> Result<OkPacketRef<'a>, FaultOf<'s>>
    ensures value { Answers false result buf.new ((spec.ok_form agreed).reads buf.old) }
{
    let packet: OkPacketRefDeserializer<'a, CommonOkPacket> = buf.parse(agreed.mysql)?;
    Ok(packet.into_inner())
}

/// Reads a progress report, after the three bytes that mark it.
fn read_progress_report<'s, 'a>(
    buf: &mut ParseBuf<'a>,
) -> Result<ProgressReportRef<'a>, FaultOf<'s>>
    ensures value { Answers false result buf.new (spec.report_form.reads buf.old) }
{
    let _head: Skip<3> = buf.parse(())?;
    buf.parse(())
}

/// Reads a text row.
#[inline(always)]
fn read_text_row<'a>(columns: usize, buf: &mut ParseBuf<'a>) -> TextRowView<'a>
    ensures value { (spec.text_row columns).reads buf.old ≡ Ok (result, buf.new) }
{
    let row = TextRowView::new(columns, buf.rest());
    buf.eat_all();
    row
}

/// Reads a binary row.
#[inline]
fn read_binary_row<'s, 'a, 'c, C: TypedColumn>(
    columns: &'c [C],
    buf: &mut ParseBuf<'a>,
) -> Result<BinaryRowView<'a, 'c, ServerSide, C>, FaultOf<'s>>
    ensures value { Answers false result buf.new ((spec.binary_row C.type_of C.unsigned columns.now).reads buf.old) }
{
    let row = BinaryRowView::new(columns, buf.rest())?;
    buf.eat_all();
    Ok(row)
}

/// Reads the packet of this kind.
// (a call, which a row of text doesn't pay for)
#[inline(never)]
fn read_of_kind<'s, 'a, 'c, C: TypedColumn>(
    context: &ReadContext<'c, C>,
    kind: PacketKind,
    buf: &mut ParseBuf<'a>,
) -> Result<ServerPacket<'a, 'c, C>, FaultOf<'s>>
    ensures value { Answers false result buf.new ((spec.server_packet C.type_of C.unsigned context.now kind).reads buf.old) }
{
    let agreed = agreed_or_none(context.agreed);
    match kind {
        PacketKind::Handshake => Ok(ServerPacket::Handshake(buf.parse(())?)),
        PacketKind::AuthSwitch => Ok(ServerPacket::AuthSwitch(buf.parse(())?)),
        PacketKind::OldAuthSwitch => Ok(ServerPacket::OldAuthSwitch(buf.parse(())?)),
        PacketKind::AuthMoreData => Ok(ServerPacket::AuthMoreData(buf.parse(())?)),
        PacketKind::AuthNextFactor => Ok(ServerPacket::AuthNextFactor(buf.parse(())?)),
        PacketKind::AuthPluginData => Ok(ServerPacket::AuthPluginData(buf.parse(())?)),
        PacketKind::Ok => Ok(ServerPacket::Ok(read_ok(agreed, buf)?)),
        PacketKind::Error => match context.agreed {
            Some(agreed) => Ok(ServerPacket::Error(buf.parse(agreed.mysql)?)),
            None => Ok(ServerPacket::GreetingError(buf.parse(())?)),
        },
        PacketKind::UnsolicitedError => match context.agreed {
            Some(agreed) => Ok(ServerPacket::UnsolicitedError(buf.parse(agreed.mysql)?)),
            None => Ok(ServerPacket::GreetingError(buf.parse(())?)),
        },
        PacketKind::ProgressReport => Ok(ServerPacket::ProgressReport(read_progress_report(buf)?)),
        PacketKind::LocalInfile => Ok(ServerPacket::LocalInfile(buf.parse(())?)),
        PacketKind::ColumnCount(_, _) => Ok(ServerPacket::ColumnCount(buf.parse(agreed)?)),
        PacketKind::Column => Ok(ServerPacket::Column(buf.parse(agreed.mariadb)?)),
        PacketKind::FieldListColumn => Ok(ServerPacket::FieldListColumn(buf.parse(
            agreed.mariadb,
        )?)),
        PacketKind::Eof => {
            let packet: OkPacketRefDeserializer<'a, OldEofPacket> = buf.parse(agreed.mysql)?;
            Ok(ServerPacket::Eof(packet.into_inner()))
        }
        PacketKind::OkTerminator => {
            let packet: OkPacketRefDeserializer<'a, ResultSetTerminator> = buf.parse(agreed.mysql)?;
            Ok(ServerPacket::OkTerminator(packet.into_inner()))
        }
        PacketKind::Row(RowFormat::Text) => {
            Ok(ServerPacket::TextRow(read_text_row(context.column_count, buf)))
        }
        PacketKind::Row(RowFormat::Binary) => match context.columns {
            Some(columns) => Ok(ServerPacket::BinaryRow(read_binary_row(columns, buf)?)),
            None => Ok(ServerPacket::UntypedRow(buf.parse(())?)),
        },
        PacketKind::PrepareOk(_, _, _) => Ok(ServerPacket::PrepareOk(buf.parse(agreed.mysql)?)),
        PacketKind::Statistics => Ok(ServerPacket::Statistics(buf.parse(())?)),
        PacketKind::BinlogEvent => Ok(ServerPacket::BinlogEvent(buf.parse(context.semi_sync)?)),
        PacketKind::Clone => Ok(ServerPacket::Clone(buf.parse(())?)),
        _ => Err(FaultOf::InvalidInput("A kind of the client's packets")),
    }
}

/// Reads the packet of this kind. An OK packet is read without the moves of the other records.
#[inline(always)]
fn read_packet<'s, 'a, 'c, C: TypedColumn>(
    context: &ReadContext<'c, C>,
    kind: PacketKind,
    buf: &mut ParseBuf<'a>,
) -> Result<ServerPacket<'a, 'c, C>, FaultOf<'s>>
    ensures value { Answers false result buf.new ((spec.server_packet C.type_of C.unsigned context.now kind).reads buf.old) }
{
    if let PacketKind::Ok = kind {
        return Ok(ServerPacket::Ok(read_ok(agreed_or_none(context.agreed), buf)?));
    }
    read_of_kind(context, kind, buf)
}

/// Reads the packet of this kind from the front of the bytes.
///
/// Bytes after the record remain. A row has all bytes, since its values are read later: [`TextRowView::rest`]
/// and [`BinaryRowView::rest`] return those after them.
///
/// The fault is that of the kind's reader. A binary row is returned if its first byte and its NULL bitmap are
/// complete: a fault of a value is returned by [`BinaryRowView::next_value`]. If its columns are unknown, it is
/// returned as bytes. A kind of the client's packets is `InvalidInput`. After an error the bytes are unchanged.
/// It takes no memory, and never returns `Memory`.
#[inline(always)]
pub fn read_server_packet<'s, 'a, 'c, C: TypedColumn>(
    context: &ReadContext<'c, C>,
    kind: PacketKind,
    buf: &mut ParseBuf<'a>,
) -> Result<ServerPacket<'a, 'c, C>, FaultOf<'s>>
    ensures value { Answers false result buf.new ((spec.server_packet C.type_of C.unsigned context.now kind).reads buf.old) }
    ensures err { OnErr result (buf.new ≡ buf.old) }
{
    if let PacketKind::Row(RowFormat::Text) = kind {
        return Ok(ServerPacket::TextRow(read_text_row(context.column_count, buf)));
    }
    let mut rest = buf.rest();
    let packet = read_packet(context, kind, &mut rest)?;
    *buf = rest;
    Ok(packet)
}

/// Reads a payload as the packet of this kind, like [`read_server_packet`]. Bytes may follow the record.
#[inline(always)]
pub fn server_packet<'s, 'a, 'c, C: TypedColumn>(
    alloc: Global,
    context: &ReadContext<'c, C>,
    kind: PacketKind,
    payload: &'a [u8],
) -> Result<ServerPacket<'a, 'c, C>, FaultOf<'s>>
    ensures packet { IfOk result (λ p. (rest : List ℕ) × ((spec.server_packet C.type_of C.unsigned context.now kind).reads payload.now ≡ Ok (p, rest))) }
    ensures fault { IfErr result (λ e. Faults false e ((spec.server_packet C.type_of C.unsigned context.now kind).reads payload.now)) }
{
    let mut buf = ParseBuf::new(alloc, payload);
    let packet = read_server_packet(context, kind, &mut buf)?;
    Ok(packet)
}
