//! The packets that follow a dump.
//!
//! `stream plain|semi_sync BYTES`, `stream_event plain|semi_sync BYTES`, `make_event none|yes|no BYTES`.

use crate::prelude::*;
use mysql_repl::laws;

/// Whether semi-synchronous replication is agreed on, as the request says.
pub fn is_semi_sync(request: &Request<'_>) -> bool {
    request.word(1) == "semi_sync"
}

fn show_event(it: &BinlogStreamEvent<'_>, out: &mut Out) {
    match it.wants_ack() {
        Some(wants_ack) => out.show("wants_ack", wants_ack),
        None => out.field("wants_ack", "none"),
    }
    fields!(out, it; event);
}

/// It is made anew of its copy: of its flags only one has a getter.
impl Shows<BinlogStreamEvent<'_>> for Connections {
    fn show(it: &BinlogStreamEvent<'_>, out: &mut Out) {
        show_event(it, out);
        anew!(out, it; owned it)
    }
}

impl Shows<BinlogStreamPacket<'_>> for Connections {
    fn show(it: &BinlogStreamPacket<'_>, out: &mut Out) {
        match it {
            BinlogStreamPacket::Event(event) => show_event(event, out),
            BinlogStreamPacket::End(payload) => out.show("end", payload.as_bytes()),
            BinlogStreamPacket::Error(payload) => out.show("err", payload.as_bytes()),
        }
        let is_same = is_cloned(out.alloc(), it, it);
        out.same("made", is_same);
        laws::this_binlog_stream_packet_round_trips(true, it)
    }
}

/// An event that is made of words, as it is written and read again.
pub fn make_event(out: &mut Out, request: &Request<'_>) {
    let event = BinlogStreamEvent::new(CowSlice::Borrowed(request.bytes.as_slice()));
    out.word("made");
    match request.word(1) {
        "none" => write_and_read(out, &event, request, false),
        wants_ack => {
            let event = event.with_semi_sync(wants_ack == "yes");
            write_and_read(out, &BinlogStreamPacket::Event(event), request, true)
        }
    }
}
