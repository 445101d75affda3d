//! The acknowledgement of a position.
#![tactic(auto, using(mysql_wire::proofs::Packets::packets), unfolding(crate::specs::SemiSyncAck::semi_sync_ack))]

ghost use Rattle.std.specs.Prelude.{◌≡◌};
ghost use Rattle.std.specs.Cow.{cow_slice_items};
ghost use Rattle.mysql_wire.specs.Text.{GivesText};
ghost use Rattle.mysql_repl.specs.SemiSyncAck as spec;

use mysql_wire::{
    AnyWidth, ConstFault, ConstU8, EofBytes, FaultOf, LeU64, MyDeserialize, ParseBuf, Parts,
    RawBytes, RawInt, Sink, parts,
};
use std::alloc::{AllocError, Global};
use std::borrow::{CowSlice, CowStr};
use thiserror::Error;

/// The first byte of an acknowledgement is not `ef`.
#[derive(Clone, Copy, Debug, Default, PartialEq, Eq, Hash, Error)]
#[error("Invalid semi-sync ack packet header")]
pub struct InvalidSemiSyncAckPacketPacketHeader;

impl ConstFault for InvalidSemiSyncAckPacketPacketHeader {
    const MESSAGE: &'static str = "Invalid semi-sync ack packet header";
}

/// The first byte of an acknowledgement: `ef`.
pub type SemiSyncAckPacketPacketHeader = ConstU8<InvalidSemiSyncAckPacketPacketHeader, 0xef>;

/// A replica's acknowledgement of an event that requested one (semi-synchronous replication): the byte `ef`,
/// the position after the event in eight bytes, little-endian, and the name of the binary log to the end of the
/// packet.
///
/// Fewer than 9 bytes are `UnexpectedEof`, another first byte is `InvalidData`. Reading takes no
/// memory.
///
/// ```
/// let ack = SemiSyncAckPacket::new(position, CowSlice::Borrowed(file));
/// Ok(ack.serialize(out)?)
/// ```
#[derive(PartialEq, Drop)]
pub struct SemiSyncAckPacket<'a> {
    header: SemiSyncAckPacketPacketHeader,
    position: RawInt<LeU64>,
    filename: RawBytes<'a, EofBytes>,
}

impl<'a> SemiSyncAckPacket<'a> {
    /// Creates the acknowledgement of this position in the binary log of this name.
    pub fn new(position: u64, filename: CowSlice<'a, u8>) -> Self
        ensures value { result ≡ spec.ack_of position (cow_slice_items filename.entry) }
    {
        SemiSyncAckPacket {
            header: ConstU8::new(),
            position: RawInt::new(position),
            filename: RawBytes::new(filename),
        }
    }

    /// Sets the name of the binary log.
    pub fn with_filename(mut self, filename: CowSlice<'a, u8>) -> Self
        ensures value { result ≡ spec.with_filename (cow_slice_items filename.entry) self.entry }
    {
        self.filename = RawBytes::new(filename);
        self
    }

    /// Sets the position.
    pub fn with_position(mut self, position: u64) -> Self
        ensures value { result ≡ spec.with_position position self.entry }
    {
        self.position = RawInt::new(position);
        self
    }

    /// The bytes of the log's name.
    #[inline]
    pub fn filename_raw(&self) -> &[u8]
        ensures value { result.now ≡ spec.filename self.now }
    {
        self.filename.as_bytes()
    }

    /// The position after the event.
    #[inline]
    pub fn position(&self) -> u64
        ensures value { result ≡ spec.position self.now }
    {
        self.position.0
    }

    /// The log's name as text, with U+FFFD for invalid UTF-8. Valid UTF-8 is borrowed.
    pub fn filename(&self, alloc: Global) -> Result<CowStr<'_>, AllocError>
        ensures text { GivesText (spec.filename self.now) result }
    {
        self.filename.as_str(alloc)
    }
}

impl<'de> MyDeserialize<'de> for SemiSyncAckPacket<'de> {
    const SIZE: Option<usize> = None;

    type Size = AnyWidth;

    type Ctx = ();

    ghost form = { spec.semi_sync_ack.form };

    #[tactic(auto, using(mysql_wire::proofs::Packets::packets), unfolding(crate::specs::SemiSyncAck::semi_sync_ack, mysql_wire::specs::Int::raw))]
    fn deserialize<'s>(_ctx: (), buf: &mut ParseBuf<'de>) -> Result<Self, FaultOf<'s>> {
        let mut head: ParseBuf<'de> = buf.parse(9)?;
        Ok(SemiSyncAckPacket {
            header: head.parse_unchecked(())?,
            position: RawInt::take(&mut head),
            filename: RawBytes::new(CowSlice::Borrowed(buf.eat_all())),
        })
    }

    ghost size_is = { λ _. spec.size-semi_sync_ack };
}

impl Parts for SemiSyncAckPacket<'_> {
    ghost bytes = { spec.semi_sync_ack.bytes };

    #[inline(always)]
    fn put<S: Sink>(&self, sink: &mut S) {
        let head = parts!(self.header, self.position);
        sink.part(&parts!(head, self.filename));
    }
}
