//! OK packets as a server sends them: `ok_sent FLAGS BYTES`, and `ok_end_sent`, `ok_eof_sent`, `ok_stream_sent`, `own_seventh_sent`.
//!
//! The packet that the bytes are read as is put together anew, and written as its kind under the same flags. The state
//! string is put together of the changes that its entries are decoded as.

use crate::prelude::*;
use crate::state::Decoded;
use test_probe::Ends;

/// Reads a packet of a kind, and writes it as that kind.
pub fn sent<'a, K: OkPacketKind + OkPacketLayout>(out: &mut Out, request: &'a Request<'_>) {
    let capabilities = request.capabilities();
    let bytes = request.bytes.as_slice();
    if let Some((record, _)) = parse::<OkPacketDeserializer<'a, K>>(out, bytes, capabilities) {
        if let Some(written) = write_packet::<K>(out, request, &record) {
            again(out, &record, request.keep(written), capabilities);
        }
        show_state(&record.into_inner(), out)
    }
}

/// Writes a packet of the same fields.
fn write_packet<'a, K: OkPacketLayout>(
    out: &mut Out,
    request: &Request<'_>,
    record: &OkPacketDeserializer<'a, K>,
) -> Option<Vec<u8>> {
    let packet = or_lost(out, record.clone())?.into_inner();
    let made = made(&packet);
    out.same("made", Ok(made == packet));
    let sent = OkPacketSerializer::<'_, '_, K>::new(&made, request.capabilities());
    write(out, &sent, request.bytes.as_slice())
}

/// The packet of the same fields.
fn made<'s>(packet: &'s OkPacket<'_>) -> OkPacket<'s> {
    let info = packet.info_ref().unwrap_or(b"");
    let state = packet.session_state_info_ref().unwrap_or(b"");
    OkPacket::new(
        packet.affected_rows(),
        packet.last_insert_id().unwrap_or(0),
        packet.status_flags(),
        packet.warnings(),
    )
    .with_info(CowSlice::Borrowed(info))
    .with_session_state_info(CowSlice::Borrowed(state))
}

/// Adds the state string of the packet's changes, which is the `same` where the packet has it; or why there is none.
fn show_state(packet: &OkPacket<'_>, out: &mut Out) {
    let mut state: Vec<u8> = Vec::new(out.alloc());
    let mut ended = Ok(());
    for change in packet.session_state_changes(out.alloc()) {
        if ended.is_ok() {
            ended = append_entry(&mut state, &change, out);
        }
    }
    match ended {
        Err(word) => out.field("state", word),
        Ok(()) if packet.session_state_info_ref().unwrap_or(b"") == state.as_slice() => {
            out.field("state", "same")
        }
        Ok(()) => out.show("state", state.as_slice()),
    }
}

/// Appends the entry of a change, or says in a word why there is none.
fn append_entry(
    state: &mut Vec<u8>,
    change: &Decoded<'_>,
    out: &mut Out,
) -> Result<(), &'static str> {
    let Ok(change) = change else {
        return Err("refused");
    };
    match counted!(out.alloc(); SessionStateInfo::from_change(out.alloc(), change)) {
        Ok(Some(info)) => {
            let content = CowSlice::Borrowed(info.data_ref());
            let entry = SessionStateInfo::new(info.data_type(), content);
            Ok(entry.serialize(state).end(out))
        }
        Ok(None) => Err("none"),
        Err(AllocError) => Err("Memory"),
    }
}
