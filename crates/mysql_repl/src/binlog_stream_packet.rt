//! The packets that follow a dump.
#![tactic(auto, using(mysql_wire::proofs::Packets::packets), unfolding(crate::specs::BinlogStreamPacket::stream_packet))]

ghost use Rattle.mysql_repl.specs.BinlogStreamPacket as spec;

use crate::binlog_stream_event::BinlogStreamEvent;
use mysql_wire::{AnyWidth, EofBytes, FaultOf, MyDeserialize, ParseBuf, Parts, RawBytes, Sink};
use std::borrow::CowSlice;

/// A packet of the stream with which a server answers a dump ("Binlog Network Stream").
///
/// | First byte | Packet |
/// |---|---|
/// | `fe` | [`End`](BinlogStreamPacket::End) |
/// | `ff` | [`Error`](BinlogStreamPacket::Error) |
/// | `00` | [`Event`](BinlogStreamPacket::Event), with the same context |
///
/// A packet that ends before the event's bytes, and an empty packet, are `UnexpectedEof`; a packet that begins
/// with another byte is `InvalidData`. Reading takes no memory: the bytes stay in the payload.
///
/// ```
/// let packet: BinlogStreamPacket<'_> = ParseBuf::new(alloc, payload).parse(semi_sync)?;
/// if let BinlogStreamPacket::Event(event) = &packet {
///     out.extend_from_slice(event.event())?;
/// }
/// Ok(())
/// ```
#[derive(Clone, Debug, PartialEq, Eq, Drop)]
pub enum BinlogStreamPacket<'a> {
    /// An event of the log.
    Event(BinlogStreamEvent<'a>),
    /// The end of the stream, which the dump requested: the payload of an EOF packet.
    End(RawBytes<'a, EofBytes>),
    /// The stream is aborted: the payload of an error.
    Error(RawBytes<'a, EofBytes>),
}

impl<'de> MyDeserialize<'de> for BinlogStreamPacket<'de> {
    const SIZE: Option<usize> = None;

    type Size = AnyWidth;

    /// Whether semi-synchronous replication is agreed on.
    type Ctx = bool;

    ghost form = { spec.stream_packet.form };

    fn deserialize<'s>(agreed: bool, buf: &mut ParseBuf<'de>) -> Result<Self, FaultOf<'s>> {
        match buf.first() {
            Some(0xfe) => {
                let payload = RawBytes::new(CowSlice::Borrowed(buf.eat_all()));
                Ok(BinlogStreamPacket::End(payload))
            }
            Some(0xff) => {
                let payload = RawBytes::new(CowSlice::Borrowed(buf.eat_all()));
                Ok(BinlogStreamPacket::Error(payload))
            }
            _ => Ok(BinlogStreamPacket::Event(buf.parse(agreed)?)),
        }
    }

    ghost size_is = { spec.size-stream_packet };
}

impl Parts for BinlogStreamPacket<'_> {
    ghost bytes = { spec.stream_packet.bytes };

    #[inline(always)]
    fn put<S: Sink>(&self, sink: &mut S) {
        match self {
            BinlogStreamPacket::Event(event) => sink.part(event),
            BinlogStreamPacket::End(payload) => sink.part(payload),
            BinlogStreamPacket::Error(payload) => sink.part(payload),
        }
    }
}
