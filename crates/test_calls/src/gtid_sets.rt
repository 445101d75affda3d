//! The sets of GTIDs that the changes of an OK packet tell: `gtid_sets CAPABILITIES BYTES`.

use mysql_packets::packets::session_state_change::{Gtids, SessionStateChange};
use mysql_packets::packets::{CommonOkPacket, OkPacketDeserializer, sids_from_text};
use test_probe::prelude::{Out, Request, parse};

/// Adds the sids of each set, as a replica asks for them, or the fault of its text.
pub fn gtid_sets(out: &mut Out, request: &Request<'_>) {
    let (bytes, capabilities) = (request.bytes.as_slice(), request.capabilities());
    if let Some((read, _)) = parse::<OkPacketDeserializer<'_, CommonOkPacket>>(
        out,
        bytes,
        capabilities,
    ) {
        let packet = read.into_inner();
        for change in packet.session_state_changes(request.alloc) {
            if let Ok(change) = &change {
                show_change(change, out);
            }
        }
    }
}

fn show_change(change: &SessionStateChange<'_>, out: &mut Out) {
    if let SessionStateChange::Gtids(set) = change {
        show_set(set, out);
    }
}

fn show_set(set: &Gtids<'_>, out: &mut Out) {
    let alloc = out.alloc();
    match set.as_str(alloc) {
        Ok(text) => show_sids(text.as_str(), out),
        Err(_) => out.lose(),
    }
}

fn show_sids(text: &str, out: &mut Out) {
    match sids_from_text(out.alloc(), text) {
        Ok(sids) => {
            for sid in sids {
                out.text("sid", &sid);
            }
        }
        Err(error) => out.error(&error),
    }
}
