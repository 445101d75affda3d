//! The tour of the README, as a request: `tour`.

use mysql_packets::constants::CapabilityFlags;
use mysql_packets::conversation::{Session, Side};
use mysql_packets::error::Error;
use mysql_packets::frames::FrameReader;
use mysql_packets::io::ParseBuf;
use mysql_packets::packets::{
    ComStmtBulkExecuteRequestBuilder, CommonOkPacket, OkPacket, OkPacketDeserializer, StmtPacket,
};
use mysql_packets::proto::MySerialize;
use mysql_packets::row::TextRowView;
use mysql_packets::value::{Value, ValueRef};
use std::alloc::Global;
use test_probe::prelude::Out;

/// A statement is read and written.
fn statement(out: &mut Out, alloc: Global, payload: &[u8]) -> Result<(), Error> {
    let shown = out;
    let out = &mut Vec::new(alloc);
    let mut buf = ParseBuf::new(alloc, payload);
    let packet: StmtPacket = buf.parse(())?; // or UnexpectedEof, InvalidData(text): the buffer is as it was
    packet.serialize(out)?; // appends the 12 defined bytes, or leaves `out` as it was
    shown.show("statement_id", packet.statement_id());
    shown.show("num_columns", packet.num_columns());
    shown.show("written", out.as_slice());
    Ok(())
}

/// An OK packet has changes.
fn changes(out: &mut Out, alloc: Global, payload: &[u8]) -> Result<(), Error> {
    let mut buf = ParseBuf::new(alloc, payload);
    let flags = CapabilityFlags::CLIENT_SESSION_TRACK;
    let ok: OkPacketDeserializer<'_, CommonOkPacket> = buf.parse(flags)?;
    let ok: OkPacket<'_> = ok.into_inner();
    let changes = ok.session_state_info(alloc)?; // every change of the session, or the first fault
    out.show("changes", changes.len());
    Ok(())
}

/// The first value of a text row of two columns is NULL, or is not.
fn first_value(out: &mut Out, alloc: Global, payload: &[u8]) -> Result<(), Error> {
    let mut row = TextRowView::new(2, ParseBuf::new(alloc, payload));
    let first = row.next_value()?; // NULL, or bytes where they lie in the packet: no memory is taken
    out.show("first_is_null", first == Some(ValueRef::NULL));
    Ok(())
}

/// Rows of one number are cut into requests.
fn requests(out: &mut Out, alloc: Global) -> Result<(), Error> {
    let mut rows = Vec::new(alloc);
    for number in 1..6 {
        rows.push(vec![in alloc; Value::Int(number)]?)?;
    }
    let mut builder = ComStmtBulkExecuteRequestBuilder::new(alloc, 1, 31);
    let run = builder.build_all(rows); // the fewest requests that fit, or which row has no place
    for end in run.ends {
        out.show("end", end);
    }
    Ok(())
}

/// The first payload of a server's stream, where it is whole.
fn stream(out: &mut Out, alloc: Global, piece: &[u8]) -> Result<(), Error> {
    let mut input = piece;
    let mut frames = FrameReader::new(alloc, 1 << 24);
    if let Some(payload) = frames.read(&mut input)? {
        // the next payload of a stream, whose bytes come in any pieces
        session(out, alloc, payload.as_slice())?;
        frames.recycle(payload);
    }
    Ok(())
}

/// Which packet it is.
fn session(out: &mut Out, alloc: Global, payload: &[u8]) -> Result<(), Error> {
    let mut session = Session::new(alloc, 16); // up to 16 commands may come before the answers to earlier ones
    let (kind, exchange) = session.next(Side::Server, payload)?; // which packet it is, or that none such comes here
    out.text("kind", &format_args!("{kind:?}"));
    out.show("exchange", exchange);
    Ok(())
}

fn calls(out: &mut Out, alloc: Global) -> Result<(), Error> {
    statement(out, alloc, &[0, 1, 0, 0, 0, 1, 0, 2, 0, 0, 0, 0])?;
    changes(
        out,
        alloc,
        b"\x00\x00\x00\x02\x40\x00\x00\x00\x11\x00\x0f\x0aautocommit\x03OFF",
    )?;
    first_value(out, alloc, b"\xfb\x011")?;
    first_value(out, alloc, b"\x011\xfb")?;
    requests(out, alloc)?;
    stream(
        out,
        alloc,
        b"\x17\x00\x00\x00\xff\x10\x04Too many connections",
    )
}

/// Makes the calls, and adds what they give.
pub fn tour(out: &mut Out, alloc: Global) {
    if let Err(error) = calls(out, alloc) {
        out.error(&error);
    }
}
