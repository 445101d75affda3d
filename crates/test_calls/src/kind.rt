//! A kind of OK packets of a user's own, who names the one crate `mysql_packets`: `kind CAPABILITIES BYTES`.

ghost use Rattle.mysql_packets.specs.OkBody.{old_eof_body};

use mysql_packets::constants::CapabilityFlags;
use mysql_packets::io::{FaultOf, ParseBuf};
use mysql_packets::packets::{OkPacketBody, OkPacketDeserializer, OkPacketKind, OldEofPacket};
use test_probe::fields;
use test_probe::prelude::{Out, Request, parse};

/// A header of its own, and the body of an old end.
struct Eighth;

impl OkPacketKind for Eighth {
    ghost HEADER = { 8 };

    const HEADER: u8 = 8;

    ghost body = { old_eof_body };

    fn parse_body<'s, 'a>(
        capabilities: CapabilityFlags,
        buf: &mut ParseBuf<'a>,
    ) -> Result<OkPacketBody<'a>, FaultOf<'s>> {
        OldEofPacket::parse_body(capabilities, buf)
    }
}

/// Adds the packet that the bytes are read as, or the refusal.
pub fn kind(out: &mut Out, request: &Request<'_>) {
    let (bytes, capabilities) = (request.bytes.as_slice(), request.capabilities());
    if let Some((read, left)) = parse::<OkPacketDeserializer<'_, Eighth>>(
        out,
        bytes,
        capabilities,
    ) {
        let packet = read.into_inner();
        fields!(out, packet; status_flags, warnings);
        out.show("rest", left);
    }
}
