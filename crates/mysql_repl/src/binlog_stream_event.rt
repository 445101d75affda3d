//! An event of a binary log, as a server sends it.
#![tactic(auto, using(mysql_wire::proofs::Packets::packets), unfolding(crate::specs::BinlogStreamEvent::stream_event))]

ghost use Rattle.std.specs.Prelude.{false, [], ◌≡◌, ◌<◌, ◌^◌, IfOk, IsOk, None, Some, option_map};
ghost use Rattle.std.specs.Cow.{cow_slice_items};
ghost use Rattle.mysql_wire.specs.Reading.{Answers};
ghost use Rattle.mysql_repl.specs.BinlogStreamEvent as spec;
ghost use Rattle.mysql_repl.specs.SemiSyncHeader.{flags, header_of, wants_ack};
ghost use Rattle.mysql_repl.specs.declared.semi_sync_header.SemiSyncHeader.{SemiSyncHeader};

use crate::semi_sync_header::SemiSyncHeader;
use mysql_wire::{
    AnyWidth, ConstFault, ConstU8, EofBytes, FaultOf, MyDeserialize, ParseBuf, Parts, RawBytes,
    Sink, parts,
};
use std::alloc::{AllocError, Global};
use std::borrow::CowSlice;
use thiserror::Error;

/// The first byte of a packet with an event is not `00`.
#[derive(Clone, Copy, Debug, Default, PartialEq, Eq, Hash, Error)]
#[error("Invalid binlog stream event header")]
pub struct InvalidBinlogStreamEventHeader;

impl ConstFault for InvalidBinlogStreamEventHeader {
    const MESSAGE: &'static str = "Invalid binlog stream event header";
}

/// The first byte of a packet with an event: `00`.
pub type BinlogStreamEventHeader = ConstU8<InvalidBinlogStreamEventHeader, 0x00>;

/// An event of a binary log, as a server sends it.
///
/// It is the byte `00`; if semi-synchronous replication is agreed on, the byte `ef` and a byte of flags, whose
/// lowest bit requests a [`SemiSyncAckPacket`](crate::SemiSyncAckPacket); and the event's bytes to the end of
/// the packet. `ef` is `kPacketMagicNum` of MySQL's `plugin/semisync/semisync.h`.
///
/// The context says whether it is agreed on: the replica sets `@rpl_semi_sync_slave` (`@rpl_semi_sync_replica`)
/// to 1 before it requests the dump, and the server has its side enabled.
///
/// Missing bytes before the event are `UnexpectedEof`, another value for `00` or `ef` is `InvalidData`. Reading
/// takes no memory.
///
/// ```
/// let event = BinlogStreamEvent::new(CowSlice::Borrowed(event)).with_semi_sync(true);
/// Ok(event.serialize(out)?)
/// ```
#[derive(Clone, Debug, PartialEq, Eq)]
pub struct BinlogStreamEvent<'a> {
    header: BinlogStreamEventHeader,
    semi_sync: Option<SemiSyncHeader>,
    event: RawBytes<'a, EofBytes>,
}

impl Drop for BinlogStreamEvent<'_> {
    #[inline(always)]
    fn drop(self) {
        let BinlogStreamEvent {
            header: _,
            semi_sync: _,
            event: _,
        } = self;
    }
}

impl<'a> BinlogStreamEvent<'a> {
    /// Creates the packet of an event, without the header of semi-synchronous replication.
    #[inline]
    pub fn new(event: CowSlice<'a, u8>) -> Self
        ensures value { result ≡ spec.event_of None (cow_slice_items event.entry) }
    {
        BinlogStreamEvent {
            header: ConstU8::new(),
            semi_sync: None,
            event: RawBytes::new(event),
        }
    }

    /// Adds the header of semi-synchronous replication, which requests an acknowledgement or not.
    #[inline]
    pub fn with_semi_sync(mut self, wants_ack: bool) -> Self
        ensures value { result ≡ spec.event_of (Some (header_of wants_ack)) (spec.event_bytes self.entry) }
    {
        self.semi_sync = Some(SemiSyncHeader::new(wants_ack));
        self
    }

    /// The event's bytes.
    #[inline]
    pub fn event(&self) -> &[u8]
        ensures value { result.now ≡ spec.event_bytes self.now }
    {
        self.event.as_bytes()
    }

    /// Whether an acknowledgement of the event is requested, or `None` if replication is not semi-synchronous.
    #[inline]
    pub fn wants_ack(&self) -> Option<bool>
        ensures value { result ≡ option_map wants_ack (spec.semi_sync self.now) }
        ensures width { (header : SemiSyncHeader) → spec.semi_sync self.now ≡ Some header → flags header < 2 ^ 8 }
    {
        match &self.semi_sync {
            Some(header) => Some(header.wants_ack()),
            None => None,
        }
    }

    /// Copies the event's bytes, so that it borrows nothing. An event without bytes needs no allocation.
    pub fn into_owned(self, alloc: Global) -> Result<BinlogStreamEvent<'static>, AllocError>
        ensures value { IfOk result (λ owned. owned ≡ self.entry) }
        ensures no_memory { spec.event_bytes self.entry ≡ [] → IsOk result }
    {
        let BinlogStreamEvent {
            header,
            semi_sync,
            event,
        } = self;
        Ok(BinlogStreamEvent {
            header,
            semi_sync,
            event: event.into_owned(alloc)?,
        })
    }
}

/// Reads the header of semi-synchronous replication, if that is agreed on.
#[tactic(auto, unfolding(crate::specs::BinlogStreamEvent::agreed_header))]
fn read_semi_sync<'s>(
    agreed: bool,
    buf: &mut ParseBuf<'_>,
) -> Result<Option<SemiSyncHeader>, FaultOf<'s>>
    ensures value { Answers false result buf.new ((spec.agreed_header.form agreed).reads buf.old) }
{
    if !agreed {
        return Ok(None);
    }
    Ok(Some(buf.parse(())?))
}

impl<'de> MyDeserialize<'de> for BinlogStreamEvent<'de> {
    const SIZE: Option<usize> = None;

    type Size = AnyWidth;

    /// Whether semi-synchronous replication is agreed on.
    type Ctx = bool;

    ghost form = { spec.stream_event.form };

    fn deserialize<'s>(agreed: bool, buf: &mut ParseBuf<'de>) -> Result<Self, FaultOf<'s>> {
        let mut rest = buf.rest();
        let header = rest.parse(())?;
        let semi_sync = read_semi_sync(agreed, &mut rest)?;
        let event = RawBytes::new(CowSlice::Borrowed(rest.eat_all()));
        *buf = rest;
        Ok(BinlogStreamEvent {
            header,
            semi_sync,
            event,
        })
    }

    ghost size_is = { spec.size-stream_event };
}

#[tactic(auto, using(mysql_wire::proofs::Packets::packets), unfolding(crate::specs::BinlogStreamEvent::stream_event, crate::specs::BinlogStreamEvent::agreed_header))]
impl Parts for BinlogStreamEvent<'_> {
    ghost bytes = { spec.stream_event.bytes };

    #[inline(always)]
    fn put<S: Sink>(&self, sink: &mut S) {
        sink.part(&parts!(self.header, self.semi_sync, self.event));
    }
}
