//! OK packets, of any kind.
//!
//! `ok CAPABILITIES BYTES`, `ok_end ..`, `ok_eof ..`, `ok_stream ..`; `ok_body CAPABILITIES BYTES` (what follows the first
//! byte of `ok`); and of kinds of a user's own `own_KIND CAPABILITIES BYTES`.

use crate::prelude::*;
use crate::state::{Decoded, is_same_change, show_decoded, show_info};
use mysql_wire::CapabilityFlags;
use test_probe::places::compare;

/// An OK packet of a kind.
pub fn own<'a, K: OkPacketKind>(out: &mut Out, request: &'a Request<'_>) {
    let (bytes, capabilities) = (request.bytes.as_slice(), request.capabilities());
    let _ = read::<Server, OkPacketDeserializer<'a, K>>(out, bytes, capabilities);
}

/// An OK packet of a kind, and the one that stays in its packet.
pub fn ok<'a, K: OkPacketRefKind>(out: &mut Out, request: &'a Request<'_>) {
    own::<K>(out, request);
    let (alloc, bytes) = (request.alloc, request.bytes.as_slice());
    let capabilities = request.capabilities();
    let (owned, left) = parsed::<OkPacketDeserializer<'a, K>>(alloc, bytes, capabilities);
    let (place, left_in_place) = counted!(alloc;
        value parsed::<OkPacketRefDeserializer<'a, K>>(alloc, bytes, capabilities));
    compare::<Server, OkPacket<'_>, OkPacketRef<'_>>(
        out,
        (place.map(|packet| packet.into_inner()), left_in_place),
        (inner(owned), left),
    )
}

/// The packet without its kind.
fn inner<'a, K>(packet: Result<OkPacketDeserializer<'a, K>, Fault>) -> Result<OkPacket<'a>, Fault> {
    Ok(packet?.into_inner())
}

impl<'a, K> Shows<OkPacketDeserializer<'a, K>> for Server {
    fn show(record: &OkPacketDeserializer<'a, K>, out: &mut Out) {
        if let Some(copy) = or_lost(out, record.clone()) {
            let packet = copy.into_inner();
            show_packet(&packet, out);
            let copy = counted!(out.alloc(); record.clone());
            anew!(out, &packet; copied copy.map(OkPacket::from))
        }
    }
}

fn show_packet(packet: &OkPacket<'_>, out: &mut Out) {
    let alloc = out.alloc();
    fields!(out, packet; affected_rows, last_insert_id, status_flags, warnings, info = info_ref,
        session_state_info = session_state_info_ref; texts info_str = info_str);
    let changes = counted!(alloc; packet.session_state_info(alloc));
    let mut sent = packet.session_state_changes(alloc);
    match &changes {
        Ok(changes) => show_changes(changes, &mut sent, out),
        Err(fault) => out.show("changes", Variant(&fault.kind())),
    }
    show_sent(sent, out)
}

/// Adds the entries of a state string, which an iterator must give as they are sent.
fn show_changes(infos: &[SessionStateInfo<'_>], sent: &mut SessionStateChanges<'_>, out: &mut Out) {
    out.show("changes", infos.len());
    for info in infos {
        show_info(info, out);
        let next = counted!(out.alloc(); value sent.next());
        same_change(next.as_ref(), &info.decode_wire(out.alloc()), out);
    }
}

/// Adds each change that is left, or the kind of its fault.
fn show_sent(sent: SessionStateChanges<'_>, out: &mut Out) {
    for change in sent {
        show_decoded("sent", &change, out);
    }
}

/// Adds a change, where it is not the wanted one.
fn same_change(next: Option<&Decoded<'_>>, wanted: &Decoded<'_>, out: &mut Out) {
    match next {
        Some(next) if next == wanted => {}
        Some(next) => show_decoded("sent", next, out),
        None => out.field("sent", "none"),
    }
}

/// Both have the same fields, and give the same changes, one after another.
impl<'a> InPlace<OkPacket<'a>, OkPacketRef<'a>> for Server {
    fn is(place: &OkPacketRef<'a>, owned: &OkPacket<'a>, out: &mut Out) -> bool {
        let mut changes = place.session_state_changes();
        gives_changes_of(&mut changes, owned, out)
            && changes.next().is_none()
            && fields!(place, owned; alike affected_rows, last_insert_id, status_flags, warnings, info with info_ref,
                session_state_info_ref)
            && place.to_owned() == *owned
    }
}

/// Whether an iterator gives each change of a packet.
fn gives_changes_of(
    changes: &mut SessionStateChangesRef<'_>,
    owned: &OkPacket<'_>,
    out: &mut Out,
) -> bool {
    let mut are_same = true;
    for change in owned.session_state_changes(out.alloc()) {
        let next = counted!(out.alloc(); value changes.next());
        are_same = match next {
            Some(next) => is_same_change(next, &change, out) && are_same,
            None => false,
        };
    }
    are_same
}

/// The body of an OK packet, and the packet with that body.
pub fn body(out: &mut Out, request: &Request<'_>) {
    let (alloc, bytes) = (request.alloc, request.bytes.as_slice());
    let mut buf = ParseBuf::new(alloc, bytes);
    let answer: Result<OkPacketBody<'_>, Fault> =
        counted!(alloc; CommonOkPacket::parse_body(request.capabilities(), &mut buf));
    if let Some(body) = taken(out, answer, buf.len() == bytes.len()) {
        show_body(&body, out);
        out.show("rest", buf.len());
        let is_same = lies_in(bytes, request.capabilities(), &body, out);
        out.or_other("borrowed", Ok(is_same))
    }
}

/// Whether the body that stays in these bytes is the same.
fn lies_in(
    bytes: &[u8],
    capabilities: CapabilityFlags,
    body: &OkPacketBody<'_>,
    out: &mut Out,
) -> bool {
    let alloc = out.alloc();
    let mut buf = ParseBuf::new(alloc, bytes);
    let place: Result<OkPacketBodyRef<'_>, Fault> =
        counted!(alloc; CommonOkPacket::parse_body_ref(capabilities, &mut buf));
    match place {
        Ok(place) => place.to_owned() == *body,
        Err(_) => false,
    }
}

/// Adds the packet of a copy of the body.
fn show_body(body: &OkPacketBody<'_>, out: &mut Out) {
    let alloc = out.alloc();
    match counted!(alloc; body.clone()) {
        Ok(copy) => match OkPacket::try_from(copy) {
            Ok(packet) => show_packet(&packet, out),
            Err(fault) => out.show("packet", Variant(&fault.kind())),
        },
        Err(AllocError) => out.field("copy", "Memory"),
    }
}
