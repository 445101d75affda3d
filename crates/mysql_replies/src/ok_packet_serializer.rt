//! OK packets as a server writes them.

ghost use Rattle.std.specs.Prelude.{◌≡◌, length, option_map};
ghost use Rattle.mysql_replies.specs.OkPacket.{bytes_or_none};
ghost use Rattle.mysql_replies.specs.OkPacketSent as sent;

use crate::ok_kind::{
    CommonOkPacket, NetworkStreamTerminator, OkPacketKind, OldEofPacket, ResultSetTerminator,
};
use crate::ok_packet::OkPacket;
use bitflags::Flags;
use mysql_wire::{
    CapabilityFlags, Const, LeU16, LenEnc, Parts, RawBytes, RawInt, Sink, StatusFlags, parts,
};
use std::borrow::CowSlice;
use std::marker::{Model, PhantomData};

/// How a kind of OK packet is written.
///
/// Users may implement it, like [`OkPacketKind`]: a kind of your own has its own header, and its `put` calls
/// `put` of the kind whose body it has.
///
/// ```
/// impl OkPacketLayout for Seventh {
/// ghost bytes = { common_bytes_with };
///
/// fn put<S: Sink>(header: u8, flags: CapabilityFlags, packet: &OkPacket<'_>, sink: &mut S) {
///     CommonOkPacket::put(header, flags, packet, sink);
/// }
/// }
/// ```
pub trait OkPacketLayout: OkPacketKind {
    ghost use Rattle.std.specs.Prelude.{◌≡◌, length, List, ℕ};
    ghost use Rattle.mysql_wire.specs.Flags as flags;
    ghost use Rattle.mysql_replies.specs.declared.ok_packet.OkPacket as declared;

    /// The defined bytes, by the header and the capabilities of both sides.
    ghost bytes: { ℕ → flags.CapabilityFlags → declared.OkPacket → List ℕ };

    /// Passes the parts to a sink: this header, and the fields of the packet.
    fn put<S: Sink>(header: u8, capabilities: CapabilityFlags, packet: &OkPacket<'_>, sink: &mut S)
        requires { S.capacity sink.old (length (bytes header capabilities packet.now)) }
        ensures value { S.took sink.old (bytes header capabilities packet.now) sink.new };
}

/// Writes an OK packet as the kind `T`, under the capabilities of both sides: the counterpart of
/// [`OkPacketDeserializer`](crate::OkPacketDeserializer).
///
/// | Bytes | Field, except in an EOF packet |
/// |---|---|
/// | 1 | the header of the kind: `00`, or `fe` at the end of a result set |
/// | length-encoded | affected rows; 0 at the end of a result set |
/// | length-encoded | insert id, 0 if there is none; 0 at the end of a result set |
/// | 2 | status flags, little-endian |
/// | 2 | warnings, little-endian |
/// | length-encoded | the info: only if it isn't empty, or if the state follows |
/// | length-encoded | the state: only if `CLIENT_SESSION_TRACK` is agreed on and the status has `SERVER_SESSION_STATE_CHANGED` |
///
/// An EOF packet (`Protocol::EOF_Packet`) is `fe`, the warnings and the status. Fields that the kind or the
/// flags don't have aren't written. Any packet can be written, under any flags.
///
/// ```
/// let sent = OkPacketSerializer::<CommonOkPacket>::new(&packet, capabilities);
/// sent.serialize(out).map_err(|_| FaultOf::Memory)
/// ```
#[derive(Drop)]
pub struct OkPacketSerializer<'p, 'a, T> {
    packet: &'p OkPacket<'a>,
    capabilities: CapabilityFlags,
    kind: PhantomData<T>,
}

impl<'p, 'a, T> Model for OkPacketSerializer<'p, 'a, T> {
    ghost use Rattle.mysql_replies.specs.OkPacketSent.{Sent};

    ghost Value = { Sent };

    ghost view = { λ s. (s.packet.now, s.capabilities) };
}

impl<'p, 'a, T> OkPacketSerializer<'p, 'a, T> {
    /// Creates a writer of this packet under the capabilities of both sides.
    #[inline]
    pub fn new(packet: &'p OkPacket<'a>, capabilities: CapabilityFlags) -> Self
        ensures value { result ≡ (packet.now, capabilities) }
    {
        OkPacketSerializer {
            packet,
            capabilities,
            kind: PhantomData,
        }
    }
}

impl<T: OkPacketLayout> Parts for OkPacketSerializer<'_, '_, T> {
    ghost bytes = { λ s. T.bytes T.HEADER s.1 s.0 };

    #[inline(always)]
    fn put<S: Sink>(&self, sink: &mut S) {
        T::put(T::HEADER, self.capabilities, self.packet, sink);
    }
}

/// Returns the content, or an empty one.
#[inline(always)]
fn content_or_empty<'a>(content: Option<&'a [u8]>) -> RawBytes<'a, LenEnc>
    ensures value { result ≡ bytes_or_none (option_map (λ bytes. bytes.now) content.entry) }
{
    match content {
        Some(bytes) => RawBytes::new(CowSlice::Borrowed(bytes)),
        None => RawBytes::default(),
    }
}

/// The insert id, or 0.
#[inline(always)]
fn id_or_zero(id: Option<u64>) -> u64
    ensures value { result ≡ sent.id_or_zero id }
{
    match id {
        Some(id) => id,
        None => 0,
    }
}

/// Writes a header, this row count and insert id, and the other fields of the packet.
#[inline(always)]
fn put_all<S: Sink>(
    header: u8,
    capabilities: CapabilityFlags,
    affected_rows: u64,
    last_insert_id: u64,
    packet: &OkPacket<'_>,
    sink: &mut S,
)
    requires { S.capacity sink.old (length (sent.sent_bytes header affected_rows last_insert_id capabilities packet.now)) }
    ensures value { S.took sink.old (sent.sent_bytes header affected_rows last_insert_id capabilities packet.now) sink.new }
{
    let header = [header];
    let affected_rows: RawInt<LenEnc> = RawInt::new(affected_rows);
    let last_insert_id: RawInt<LenEnc> = RawInt::new(last_insert_id);
    let status: Const<StatusFlags, LeU16> = Const::new(packet.status_flags());
    let warnings: RawInt<LeU16> = RawInt::new(packet.warnings());
    let numbers = parts!(status, warnings);
    let tracks = capabilities.contains(CapabilityFlags::CLIENT_SESSION_TRACK);
    let status_flags = packet.status_flags();
    if tracks && status_flags.contains(StatusFlags::SERVER_SESSION_STATE_CHANGED) {
        let info = content_or_empty(packet.info_ref());
        let state = content_or_empty(packet.session_state_info_ref());
        let tail = parts!(info, state);
        sink.part(&parts!(header, affected_rows, last_insert_id, numbers, tail));
    } else {
        sink.part(&parts!(header, affected_rows, last_insert_id, numbers, packet.info));
    }
}

impl OkPacketLayout for CommonOkPacket {
    ghost bytes = { sent.common_bytes_with };

    #[inline(always)]
    #[tactic(auto, unfolding(crate::specs::OkPacketSent::common_bytes_with))]
    fn put<S: Sink>(header: u8, flags: CapabilityFlags, packet: &OkPacket<'_>, sink: &mut S) {
        let rows = packet.affected_rows();
        let id = id_or_zero(packet.last_insert_id());
        put_all(header, flags, rows, id, packet, sink);
    }
}

impl OkPacketLayout for ResultSetTerminator {
    ghost bytes = { sent.terminator_bytes_with };

    #[inline(always)]
    #[tactic(auto, unfolding(crate::specs::OkPacketSent::terminator_bytes_with))]
    fn put<S: Sink>(header: u8, flags: CapabilityFlags, packet: &OkPacket<'_>, sink: &mut S) {
        put_all(header, flags, 0, 0, packet, sink);
    }
}

impl OkPacketLayout for OldEofPacket {
    ghost bytes = { λ header _ packet. sent.eof_bytes_with header packet };

    #[inline(always)]
    #[tactic(auto, unfolding(crate::specs::OkPacketSent::eof_bytes_with))]
    fn put<S: Sink>(header: u8, _flags: CapabilityFlags, packet: &OkPacket<'_>, sink: &mut S) {
        let header = [header];
        let warnings: RawInt<LeU16> = RawInt::new(packet.warnings());
        let status: Const<StatusFlags, LeU16> = Const::new(packet.status_flags());
        sink.part(&parts!(header, warnings, status));
    }
}

/// Written like an [`OldEofPacket`].
impl OkPacketLayout for NetworkStreamTerminator {
    ghost bytes = { λ header _ packet. sent.eof_bytes_with header packet };

    #[inline(always)]
    fn put<S: Sink>(header: u8, flags: CapabilityFlags, packet: &OkPacket<'_>, sink: &mut S) {
        OldEofPacket::put(header, flags, packet, sink);
    }
}
