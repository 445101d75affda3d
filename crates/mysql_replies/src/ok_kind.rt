//! The kinds of OK packets, and their bodies.

ghost use Rattle.std.specs.Prelude.{false, ℕ, OnErr};
ghost use Rattle.mysql_wire.specs.Flags as flags;
ghost use Rattle.mysql_wire.specs.Form.{Form};
ghost use Rattle.mysql_wire.specs.Reading.{Answers, IsTail};
ghost use Rattle.mysql_replies.specs.OkKind.{common_ok_body, terminator_body, old_eof_body};

use crate::ok_body::{OkPacketBodyRef, none, read_end};
use mysql_wire::{
    CapabilityFlags, Const, FaultOf, LeU16, LenEnc, ParseBuf, RawBytes, RawInt, StatusFlags,
};

/// The body of an OK packet: the fields after the header, in the layout of its kind.
///
/// `parse_body` of each kind returns it, and an [`OkPacket`](crate::OkPacket) is created from it.
#[derive(Clone, Debug, PartialEq, Eq, Drop)]
pub struct OkPacketBody<'a> {
    /// The number of rows that the statement changed.
    pub(crate) affected_rows: u64,
    /// The AUTO_INCREMENT value that the statement generated, or 0 (`last_insert_id`).
    pub(crate) last_insert_id: u64,
    /// The status flags of the server.
    pub(crate) status_flags: StatusFlags,
    /// The number of warnings.
    pub(crate) warnings: u16,
    /// A human-readable text, possibly empty.
    pub(crate) info: RawBytes<'a, LenEnc>,
    /// The changes of the session's state, possibly empty.
    pub(crate) session_state_info: RawBytes<'a, LenEnc>,
}

/// A kind of OK packet: its header, and the layout of its body.
///
/// Users may implement it: a kind of your own has its own header, and builds on the body of one of the four kinds here.
pub trait OkPacketKind {
    ghost use Rattle.std.specs.Prelude.{ℕ};
    ghost use Rattle.mysql_wire.specs.Flags as flags;
    ghost use Rattle.mysql_wire.specs.Form.{Form};
    ghost use Rattle.mysql_replies.specs.declared.ok_kind.OkPacketBody as declared;

    ghost HEADER: { ℕ };

    /// The first byte of the packet.
    const HEADER: u8;

    /// The grammar of the body, under the capabilities of both sides.
    ghost body: { flags.CapabilityFlags → Form declared.OkPacketBody };

    /// Reads the body after the header. It takes no memory.
    fn parse_body<'s, 'de>(
        capabilities: CapabilityFlags,
        buf: &mut ParseBuf<'de>,
    ) -> Result<OkPacketBody<'de>, FaultOf<'s>>
        ensures value { Answers false result buf.new ((body capabilities).reads buf.old) }
        ensures tail { OnErr result (IsTail buf.new buf.old) };
}

/// A kind of OK packet whose body can be borrowed. Users may implement it, like [`OkPacketKind`].
pub trait OkPacketRefKind: OkPacketKind {
    ghost use Rattle.std.specs.Prelude.{false, OnErr};
    ghost use Rattle.mysql_wire.specs.Reading.{Answers, IsTail};

    /// Reads the body after the header, as [`parse_body`](OkPacketKind::parse_body) does. It takes no memory.
    fn parse_body_ref<'s, 'de>(
        capabilities: CapabilityFlags,
        buf: &mut ParseBuf<'de>,
    ) -> Result<OkPacketBodyRef<'de>, FaultOf<'s>>
        ensures value { Answers false result buf.new ((Self.body capabilities).reads buf.old) }
        ensures tail { OnErr result (IsTail buf.new buf.old) };
}

/// A kind of OK packet of the protocol, whose body is always read borrowed.
pub trait ProtocolKind {
    ghost use Rattle.std.specs.Prelude.{ℕ, false, OnErr};
    ghost use Rattle.mysql_wire.specs.Flags as flags;
    ghost use Rattle.mysql_wire.specs.Form.{Form};
    ghost use Rattle.mysql_wire.specs.Reading.{Answers, IsTail};
    ghost use Rattle.mysql_replies.specs.declared.ok_kind.OkPacketBody as declared;

    ghost FIRST: { ℕ };

    /// The first byte of the packet.
    const FIRST: u8;

    /// The grammar of the body, under the capabilities of both sides.
    ghost layout: { flags.CapabilityFlags → Form declared.OkPacketBody };

    /// Reads the body after the header. It takes no memory.
    fn read<'s, 'de>(
        capabilities: CapabilityFlags,
        buf: &mut ParseBuf<'de>,
    ) -> Result<OkPacketBodyRef<'de>, FaultOf<'s>>
        ensures value { Answers false result buf.new ((layout capabilities).reads buf.old) }
        ensures tail { OnErr result (IsTail buf.new buf.old) };
}

impl<T: ProtocolKind> OkPacketKind for T {
    ghost HEADER = { T.FIRST };

    const HEADER: u8 = T::FIRST;

    ghost body = { T.layout };

    #[inline(always)]
    fn parse_body<'s, 'de>(
        capabilities: CapabilityFlags,
        buf: &mut ParseBuf<'de>,
    ) -> Result<OkPacketBody<'de>, FaultOf<'s>> {
        Ok(T::read(capabilities, buf)?.to_owned())
    }
}

impl<T: ProtocolKind> OkPacketRefKind for T {
    #[inline(always)]
    fn parse_body_ref<'s, 'de>(
        capabilities: CapabilityFlags,
        buf: &mut ParseBuf<'de>,
    ) -> Result<OkPacketBodyRef<'de>, FaultOf<'s>> {
        T::read(capabilities, buf)
    }
}

/// The OK packet that doesn't end a result set (`Protocol::OK_Packet`): header `00`, the affected rows and the
/// insert id, each a length-encoded number, two bytes of status flags and two of warnings, little-endian, and
/// the tail.
///
/// ```
/// let mut buf = ParseBuf::new(alloc, payload);
/// let ok: OkPacketRefDeserializer<'_, CommonOkPacket> = buf.parse(capabilities)?;
/// Ok(ok.into_inner().affected_rows())
/// ```
#[derive(Clone, Copy, Debug, PartialEq, Eq, Hash)]
pub struct CommonOkPacket;

impl ProtocolKind for CommonOkPacket {
    ghost FIRST = { 0 };

    const FIRST: u8 = 0;

    ghost layout = { common_ok_body };

    #[inline(always)]
    fn read<'s, 'de>(
        capabilities: CapabilityFlags,
        buf: &mut ParseBuf<'de>,
    ) -> Result<OkPacketBodyRef<'de>, FaultOf<'s>> {
        let mut rest = buf.rest();
        let affected_rows: RawInt<LenEnc> = rest.parse(())?;
        let last_insert_id: RawInt<LenEnc> = rest.parse(())?;
        let body = read_end(capabilities, affected_rows.0, last_insert_id.0, &mut rest)?;
        *buf = rest;
        Ok(body)
    }
}

/// The OK packet that ends a result set under `CLIENT_DEPRECATE_EOF`: header `fe`. Its affected rows and insert
/// id are read, and returned as 0.
///
/// ```
/// let end: OkPacketRefDeserializer<'_, ResultSetTerminator> = ParseBuf::new(alloc, payload).parse(
/// agreed,
/// )?;
/// let status = end.into_inner().status_flags();
/// Ok(status.contains(StatusFlags::SERVER_MORE_RESULTS_EXISTS))
/// ```
#[derive(Clone, Copy, Debug, PartialEq, Eq, Hash)]
pub struct ResultSetTerminator;

impl ProtocolKind for ResultSetTerminator {
    ghost FIRST = { 0xfe };

    const FIRST: u8 = 0xfe;

    ghost layout = { terminator_body };

    fn read<'s, 'de>(
        capabilities: CapabilityFlags,
        buf: &mut ParseBuf<'de>,
    ) -> Result<OkPacketBodyRef<'de>, FaultOf<'s>> {
        let mut rest = buf.rest();
        let _affected_rows: RawInt<LenEnc> = rest.parse(())?;
        let _last_insert_id: RawInt<LenEnc> = rest.parse(())?;
        let body = read_end(capabilities, 0, 0, &mut rest)?;
        *buf = rest;
        Ok(body)
    }
}

/// The EOF packet, which ends a result without `CLIENT_DEPRECATE_EOF` (`Protocol::EOF_Packet`): header `fe`,
/// two bytes of warnings and two of status flags, little-endian.
///
/// ```
/// let end: OkPacketRefDeserializer<'_, OldEofPacket> = ParseBuf::new(alloc, payload).parse(
/// agreed,
/// )?;
/// Ok(end.into_inner().warnings())
/// ```
#[derive(Clone, Copy, Debug, PartialEq, Eq, Hash)]
pub struct OldEofPacket;

impl ProtocolKind for OldEofPacket {
    ghost FIRST = { 0xfe };

    const FIRST: u8 = 0xfe;

    ghost layout = { old_eof_body };

    #[tactic(auto, using(mysql_wire::proofs::Blocks::blocks))]
    fn read<'s, 'de>(
        _capabilities: CapabilityFlags,
        buf: &mut ParseBuf<'de>,
    ) -> Result<OkPacketBodyRef<'de>, FaultOf<'s>> {
        let mut numbers: ParseBuf<'de> = buf.parse(4)?;
        let warnings: RawInt<LeU16> = RawInt::take(&mut numbers);
        let status_flags: Const<StatusFlags, LeU16> = numbers.parse_unchecked(())?;
        Ok(OkPacketBodyRef {
            affected_rows: 0,
            last_insert_id: 0,
            status_flags: status_flags.0,
            warnings: warnings.0,
            info: none(buf),
            session_state_info: none(buf),
        })
    }
}

/// The end of a stream of binlog events: the layout of an [`OldEofPacket`].
#[derive(Clone, Copy, Debug, PartialEq, Eq, Hash)]
pub struct NetworkStreamTerminator;

impl ProtocolKind for NetworkStreamTerminator {
    ghost FIRST = { 0xfe };

    const FIRST: u8 = 0xfe;

    ghost layout = { old_eof_body };

    fn read<'s, 'de>(
        capabilities: CapabilityFlags,
        buf: &mut ParseBuf<'de>,
    ) -> Result<OkPacketBodyRef<'de>, FaultOf<'s>> {
        OldEofPacket::read(capabilities, buf)
    }
}
