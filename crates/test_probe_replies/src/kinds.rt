//! Kinds of OK packets that a user makes, odd ones among them.

ghost use Rattle.mysql_replies.specs.OkKind.{common_ok_body};
ghost use Rattle.mysql_replies.specs.OkPacketSent.{common_bytes_with};
ghost use Rattle.test_probe_replies.specs.Bodies.{after_a_byte, never, nothing};

use crate::prelude::*;
use mysql_wire::{CapabilityFlags, FaultOf, RawInt, Sink};

/// The body of a kind, or the fault.
type Body<'s, 'a> = Result<OkPacketBody<'a>, FaultOf<'s>>;

/// A header of its own, and a body of its own: a byte that is skipped, and the body of an old end.
pub struct Versioned;

impl OkPacketKind for Versioned {
    ghost HEADER = { 0x2a };

    const HEADER: u8 = 0x2a;

    ghost body = { after_a_byte };

    fn parse_body<'s, 'a>(capabilities: CapabilityFlags, buf: &mut ParseBuf<'a>) -> Body<'s, 'a> {
        let mut rest = buf.rest();
        let _version: RawInt<u8> = rest.parse(())?;
        let body = OldEofPacket::parse_body(capabilities, &mut rest)?;
        *buf = rest;
        Ok(body)
    }
}

/// Refuses each body.
pub struct Refusing;

impl OkPacketKind for Refusing {
    ghost HEADER = { 0 };

    const HEADER: u8 = 0;

    ghost body = { never };

    fn parse_body<'s, 'a>(_capabilities: CapabilityFlags, _buf: &mut ParseBuf<'a>) -> Body<'s, 'a> {
        Err(FaultOf::InvalidData("No body is one"))
    }
}

/// Reads nothing: its body is that of an old end of zeros, wherever it stands.
pub struct Empty;

impl OkPacketKind for Empty {
    ghost HEADER = { 1 };

    const HEADER: u8 = 1;

    ghost body = { nothing };

    fn parse_body<'s, 'a>(capabilities: CapabilityFlags, buf: &mut ParseBuf<'a>) -> Body<'s, 'a> {
        let mut zeros = ParseBuf::new(buf.alloc(), &[0, 0, 0, 0]);
        match OldEofPacket::parse_body(capabilities, &mut zeros) {
            Ok(body) => Ok(body),
            Err(_) => Err(FaultOf::InvalidData("Four bytes are missing")),
        }
    }
}

/// A header of its own, and the body of a kind that is there.
pub struct Seventh;

impl OkPacketKind for Seventh {
    ghost HEADER = { 7 };

    const HEADER: u8 = 7;

    ghost body = { common_ok_body };

    fn parse_body<'s, 'a>(capabilities: CapabilityFlags, buf: &mut ParseBuf<'a>) -> Body<'s, 'a> {
        CommonOkPacket::parse_body(capabilities, buf)
    }
}

impl OkPacketLayout for Seventh {
    ghost bytes = { common_bytes_with };

    fn put<S: Sink>(header: u8, flags: CapabilityFlags, packet: &OkPacket<'_>, sink: &mut S) {
        CommonOkPacket::put(header, flags, packet, sink);
    }
}
