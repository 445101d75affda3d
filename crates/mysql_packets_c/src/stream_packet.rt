//! Packets of the stream that answers a dump.
#![tactic(auto, using(crate::proofs::Codes::codes))]

ghost use Rattle.std.specs.Prelude.{false, ◌≡◌, ◌≢◌, [], None, Some};
ghost use Rattle.mysql_wire.specs.Form.{size-block};
ghost use Rattle.mysql_repl.specs.BinlogStreamEvent.{agreed_header, stream_event};
ghost use Rattle.mysql_repl.specs.BinlogStreamPacket as stream;
ghost use Rattle.mysql_repl.specs.BinlogStreamPacket.{stream_packet};
ghost use Rattle.mysql_repl.specs.SemiSyncHeader.{semi_sync_header, semi_sync_header_fields};
ghost use Rattle.mysql_repl.specs.declared.binlog_stream_packet.BinlogStreamPacket.{BinlogStreamPacket};
ghost use Rattle.mysql_wire.specs.Reading.{Answers};
ghost use Rattle.mysql_packets_c.specs.Code.{ReadsInto};
ghost use Rattle.mysql_packets_c.specs.Given.{is_set};
ghost use Rattle.mysql_packets_c.specs.Output.{PutsUnlessTooLong};
ghost use Rattle.mysql_packets_c.specs.StreamPacket as spec;
ghost use Rattle.mysql_packets_c.specs.StreamPacket.{IsStreamPacket};

use crate::code::{INVALID_INPUT, OK, code_of};
use crate::input::read;
use crate::output::put_packet;
use mysql_repl::{
    BinlogStreamEvent, BinlogStreamEventHeader, BinlogStreamPacket, InvalidSemiSyncHeader,
};
use mysql_wire::{AnyWidth, ConstU8, FaultOf, Fixed, MyDeserialize, ParseBuf, RawBytes, RawInt};
use std::alloc::Global;
use std::borrow::CowSlice;
use std::marker::Model;

/// An event of the log.
const EVENT: u8 = 0;
/// The end of the stream.
const END: u8 = 1;
/// The stream is aborted.
const ERROR: u8 = 2;

/// `myp_stream_packet` of the C header.
#[repr(C)]
#[derive(Drop)]
pub struct CStreamPacket<'a> {
    pub content: &'a [u8],
    pub kind: u8,
    pub wants_ack: u8,
}

/// The header of semi-synchronous replication. In a clause it is that header.
#[derive(Drop)]
struct SemiSyncFlags {
    flags: RawInt<u8>,
}

impl Model for SemiSyncFlags {
    ghost use Rattle.mysql_repl.specs.declared.semi_sync_header.SemiSyncHeader.{SemiSyncHeader};

    ghost Value = { SemiSyncHeader };

    ghost view = { λ h. record { header = record { 0 = record {} }; flags = h.flags } };
}

#[tactic(auto, using(mysql_wire::proofs::Packets::packets), unfolding(mysql_repl::specs::SemiSyncHeader::semi_sync_header))]
impl<'de> MyDeserialize<'de> for SemiSyncFlags {
    const SIZE: Option<usize> = Some(2);

    type Size = Fixed<2>;

    type Ctx = ();

    ghost form = { semi_sync_header.form };

    fn deserialize<'s>(_ctx: (), buf: &mut ParseBuf<'de>) -> Result<Self, FaultOf<'s>> {
        let mut fields: ParseBuf<'de> = buf.parse(2)?;
        let _header: ConstU8<InvalidSemiSyncHeader, 0xef> = fields.parse_unchecked(())?;
        Ok(SemiSyncFlags {
            flags: fields.parse_unchecked(())?,
        })
    }

    ghost size_is = { λ _. unfold semi_sync_header in size-block 2 (semi_sync_header_fields.form tt) };
}

/// Reads the header of semi-synchronous replication, if that is agreed on.
#[tactic(auto, using(mysql_wire::proofs::Packets::packets), unfolding(mysql_repl::specs::BinlogStreamEvent::agreed_header))]
fn read_semi_sync<'s>(
    agreed: bool,
    buf: &mut ParseBuf<'_>,
) -> Result<Option<SemiSyncFlags>, FaultOf<'s>>
    ensures value { Answers false result buf.new ((agreed_header.form agreed).reads buf.old) }
{
    if !agreed {
        return Ok(None);
    }
    Ok(Some(buf.parse(())?))
}

/// The bytes of a packet, borrowed.
#[derive(Drop)]
enum StreamPlaces<'a> {
    /// An event, after the header of semi-synchronous replication if that is agreed on.
    Event(Option<SemiSyncFlags>, &'a [u8]),
    /// The payload of an end.
    End(&'a [u8]),
    /// The payload of an error.
    Error(&'a [u8]),
}

/// A borrowed packet of a stream. In a clause it is that packet.
#[derive(Drop)]
struct StreamPacketRef<'a> {
    places: StreamPlaces<'a>,
}

impl<'a> Model for StreamPacketRef<'a> {
    ghost use Rattle.mysql_repl.specs.declared.binlog_stream_packet.BinlogStreamPacket.{BinlogStreamPacket};
    ghost use Rattle.mysql_packets_c.specs.StreamPlaces.{packet_at};

    ghost Value = { BinlogStreamPacket };

    ghost view = { λ p. packet_at p.places };
}

#[tactic(auto, using(mysql_wire::proofs::Packets::packets), unfolding(mysql_repl::specs::BinlogStreamPacket::stream_packet, mysql_repl::specs::BinlogStreamEvent::stream_event))]
impl<'de> MyDeserialize<'de> for StreamPacketRef<'de> {
    const SIZE: Option<usize> = None;

    type Size = AnyWidth;

    /// Whether semi-synchronous replication is agreed on.
    type Ctx = bool;

    ghost form = { stream_packet.form };

    fn deserialize<'s>(agreed: bool, buf: &mut ParseBuf<'de>) -> Result<Self, FaultOf<'s>> {
        let places = match buf.first() {
            Some(0xfe) => StreamPlaces::End(buf.eat_all()),
            Some(0xff) => StreamPlaces::Error(buf.eat_all()),
            _ => {
                let mut rest = buf.rest();
                let _header: BinlogStreamEventHeader = rest.parse(())?;
                let semi_sync = read_semi_sync(agreed, &mut rest)?;
                let event = rest.eat_all();
                *buf = rest;
                StreamPlaces::Event(semi_sync, event)
            }
        };
        Ok(StreamPacketRef { places })
    }

    ghost size_is = { stream.size-stream_packet };
}

/// Returns 1 if the lowest bit of the flags requests an acknowledgement, otherwise 0.
fn wanted(header: Option<SemiSyncFlags>) -> u8
    ensures value { result ≡ spec.wanted header }
{
    match header {
        Some(header) => header.flags.0 % 2,
        None => 0,
    }
}

/// Stores a packet of a stream in a struct of the caller.
fn put_places<'a>(found: StreamPacketRef<'a>, out: &mut CStreamPacket<'a>)
    ensures value { IsStreamPacket found.entry [] out.new }
{
    let (kind, content, wants_ack) = match found.places {
        StreamPlaces::Event(semi_sync, event) => (EVENT, event, wanted(semi_sync)),
        StreamPlaces::End(payload) => (END, payload, 0),
        StreamPlaces::Error(payload) => (ERROR, payload, 0),
    };
    out.kind = kind;
    out.content = content;
    out.wants_ack = wants_ack;
}

/// Reads a packet of the stream that answers a dump. After an error (1 or 2) the struct is unchanged.
#[unsafe(no_mangle)]
pub extern "C" fn myp_read_stream_packet<'a>(
    alloc: Global,
    packet: &'a [u8],
    is_semi_sync: u8,
    out: &mut CStreamPacket<'a>,
) -> u32
    ensures value { ReadsInto IsStreamPacket ((stream_packet.form (is_set is_semi_sync)).reads packet.now) result out.old out.new }
{
    match read::<StreamPacketRef<'a>>(alloc, packet, is_semi_sync != 0) {
        Ok((found, _used)) => {
            put_places(found, out);
            OK
        }
        Err(fault) => code_of(&fault),
    }
}

/// Returns the event of the caller's fields.
fn event_of<'a>(is_semi_sync: bool, fields: &CStreamPacket<'a>) -> BinlogStreamPacket<'a>
    ensures value { result ≡ spec.event_given is_semi_sync fields.now }
{
    let event = BinlogStreamEvent::new(CowSlice::Borrowed(fields.content));
    if is_semi_sync {
        BinlogStreamPacket::Event(event.with_semi_sync(fields.wants_ack != 0))
    } else {
        BinlogStreamPacket::Event(event)
    }
}

/// Returns the packet of the caller's fields, if they are valid.
fn packet_of<'a>(is_semi_sync: bool, fields: &CStreamPacket<'a>) -> Option<BinlogStreamPacket<'a>>
    ensures value { result ≡ spec.packet_given is_semi_sync fields.now }
{
    let payload = RawBytes::new(CowSlice::Borrowed(fields.content));
    match (fields.kind, fields.content.first()) {
        (EVENT, _) => Some(event_of(is_semi_sync, fields)),
        (END, Some(0xfe)) => Some(BinlogStreamPacket::End(payload)),
        (ERROR, Some(0xff)) => Some(BinlogStreamPacket::Error(payload)),
        _ => None,
    }
}

/// Writes a packet of the stream that answers a dump. Errors: 5 if the buffer is too small, with the length needed; 4 if the
/// length overflows; 3 for fields that no packet has.
#[unsafe(no_mangle)]
pub extern "C" fn myp_write_stream_packet(
    packet: &CStreamPacket<'_>,
    is_semi_sync: u8,
    out: &mut [u8],
    written: &mut usize,
) -> u32
    ensures refused { spec.packet_given (is_set is_semi_sync) packet.now ≡ None → (result ≡ 3) × (out.new ≡ out.old) × (written.new ≡ 0) }
    ensures value { (p : BinlogStreamPacket) → spec.packet_given (is_set is_semi_sync) packet.now ≡ Some p → PutsUnlessTooLong (stream_packet.bytes p) result out.old out.new written.new }
{
    let Some(packet) = packet_of(is_semi_sync != 0, packet) else {
        *written = 0;
        return INVALID_INPUT;
    };
    put_packet(&packet, out, written)
}
