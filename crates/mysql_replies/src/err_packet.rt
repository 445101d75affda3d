//! Errors and progress reports, in one packet type.
#![tactic(auto, using(mysql_wire::proofs::Packets::packets), unfolding(crate::specs::ErrPacket::err_packet))]

ghost use Rattle.std.specs.Prelude.{◌≡◌, None, Some, refl, IsTrue};
ghost use Rattle.mysql_replies.specs.ErrPacket as spec;
ghost use Rattle.mysql_replies.specs.declared.err_packet.ErrPacketOf.TheVariants as err;

use crate::faults::InvalidErrPacketHeader;
use crate::progress_report::{ProgressReport, ProgressReportRef};
use crate::server_error::{ServerError, ServerErrorRef};
use bitflags::Flags;
use mysql_wire::{
    AnyWidth, CapabilityFlags, ConstU8, FaultOf, LeU16, MyDeserialize, ParseBuf, Parts, RawInt,
    Sink, parts,
};
use std::fmt;

/// The first byte of an error packet: `ff`.
pub type ErrPacketHeader = ConstU8<InvalidErrPacketHeader, 0xff>;

/// The code of a packet that may be a progress report.
const PROGRESS_CODE: u16 = 0xffff;

/// An [`ErrPacket`], whose error is an `E` and whose report is an `R`.
#[derive(Clone, Debug, PartialEq, Drop)]
pub enum ErrPacketOf<E, R> {
    /// An error.
    Error(E),
    /// A report on the progress of a long statement.
    Progress(R),
}

/// An error or a progress report (`Protocol::ERR_Packet`): the byte `ff`, a code of two bytes, little-endian,
/// and the rest of the error or the report.
///
/// If the code is `ffff` and the flags have `CLIENT_PROGRESS_OBSOLETE`, it is a progress report. Otherwise it
/// is an error, with an SQL state if the flags have `CLIENT_PROTOCOL_41`.
///
/// Before the handshake no flags are agreed: an error instead of the greeting, such as 'Too many connections',
/// is a [`GreetingError`](crate::GreetingError), with or without an SQL state.
///
/// ```
/// match packet.to_owned() {
/// ErrPacket::Error(error) => Ok(error.into_owned(alloc)?),
/// ErrPacket::Progress(_) => Err(Error::Unknown("a report in place of an error")),
/// }
/// ```
pub type ErrPacket<'a> = ErrPacketOf<ServerError<'a>, ProgressReport<'a>>;

/// An error or a progress report whose texts stay in the packet: an [`ErrPacket`] for as long as the packet lives.
///
/// It is read from the same bytes with the same faults, and in a clause it is that packet.
///
/// ```
/// match packet.to_owned() {
///     ErrPacket::Error(error) => Ok(error.into_owned(alloc)?),
///     ErrPacket::Progress(_) => Err(Error::Unknown("a report in place of an error")),
/// }
/// ```
pub type ErrPacketRef<'a> = ErrPacketOf<ServerErrorRef<'a>, ProgressReportRef<'a>>;

impl<E, R> ErrPacketOf<E, R> {
    /// Whether it is an error.
    #[inline]
    pub fn is_error(&self) -> bool
        ensures value { result ≡ spec.is_error self.now }
    {
        matches!(self, ErrPacketOf::Error(_))
    }

    /// Whether it is a progress report.
    #[inline]
    pub fn is_progress_report(&self) -> bool
        ensures value { result ≡ spec.is_progress_report self.now }
    {
        matches!(self, ErrPacketOf::Progress(_))
    }

    /// The progress report. The packet must be one: see [`is_progress_report`](Self::is_progress_report).
    pub fn progress_report(&self) -> &R
        requires { IsTrue (spec.is_progress_report self.now) }
        ensures value { self.now ≡ err.Progress result.now }
    {
        match self {
            ErrPacketOf::Progress(report) => report,
            ErrPacketOf::Error(_) => unreachable!(),
        }
    }

    /// The error. The packet must be one: see [`is_error`](Self::is_error).
    pub fn server_error(&self) -> &E
        requires { IsTrue (spec.is_error self.now) }
        ensures value { self.now ≡ err.Error result.now }
    {
        match self {
            ErrPacketOf::Error(error) => error,
            ErrPacketOf::Progress(_) => unreachable!(),
        }
    }
}

impl<'a> ErrPacketRef<'a> {
    /// Converts to an [`ErrPacket`], which still borrows the texts. It takes no memory.
    pub fn to_owned(&self) -> ErrPacket<'a>
        ensures value { result ≡ self.now }
    {
        match self {
            ErrPacketOf::Error(error) => ErrPacket::Error(error.to_owned()),
            ErrPacketOf::Progress(report) => ErrPacket::Progress(report.to_owned()),
        }
    }
}

/// Read like an [`ErrPacket`].
impl<'de> MyDeserialize<'de> for ErrPacketRef<'de> {
    const SIZE: Option<usize> = None;

    type Size = AnyWidth;

    /// The capabilities of both sides.
    type Ctx = CapabilityFlags;

    ghost form = { spec.err_packet.form };

    #[inline]
    #[tactic(auto, using(mysql_wire::proofs::Blocks::blocks), unfolding(crate::specs::ErrPacket::err_packet))]
    fn deserialize<'s>(agreed: Self::Ctx, buf: &mut ParseBuf<'de>) -> Result<Self, FaultOf<'s>> {
        let mut head: ParseBuf<'de> = buf.parse(3)?;
        let _header: ErrPacketHeader = head.parse_unchecked(())?;
        let code: RawInt<LeU16> = RawInt::take(&mut head);
        let takes_progress = agreed.contains(CapabilityFlags::CLIENT_PROGRESS_OBSOLETE);
        let packet = if takes_progress && code.0 == PROGRESS_CODE {
            ErrPacketOf::Progress(buf.parse(())?)
        } else {
            let has_state = agreed.contains(CapabilityFlags::CLIENT_PROTOCOL_41);
            ErrPacketOf::Error(buf.parse((code.0, has_state))?)
        };
        Ok(packet)
    }

    ghost size_is = { λ _. unfold spec.err_packet in refl };
}

impl<'de> MyDeserialize<'de> for ErrPacket<'de> {
    const SIZE: Option<usize> = None;

    type Size = AnyWidth;

    /// The capabilities of both sides.
    type Ctx = CapabilityFlags;

    ghost form = { spec.err_packet.form };

    fn deserialize<'s>(agreed: Self::Ctx, buf: &mut ParseBuf<'de>) -> Result<Self, FaultOf<'s>> {
        Ok(ErrPacketRef::deserialize(agreed, buf)?.to_owned())
    }

    ghost size_is = { λ _. unfold spec.err_packet in refl };
}

impl Parts for ErrPacket<'_> {
    ghost bytes = { spec.err_packet.bytes };

    #[inline(always)]
    fn put<S: Sink>(&self, sink: &mut S) {
        let code: RawInt<LeU16> = RawInt::new(match self {
            ErrPacket::Error(error) => error.error_code(),
            ErrPacket::Progress(_) => PROGRESS_CODE,
        });
        let header = ErrPacketHeader::new();
        let head = parts!(header, code);
        match self {
            ErrPacket::Error(error) => sink.part(&parts!(head, *error)),
            ErrPacket::Progress(report) => sink.part(&parts!(head, *report)),
        }
    }
}

impl fmt::Display for ErrPacket<'_> {
    ghost output = { λ p. Some (spec.err_text p) };

    fn fmt<W: fmt::Write>(&self, f: &mut fmt::Formatter<W>) -> fmt::Result {
        match self {
            ErrPacket::Error(error) => write!(f, "{error}"),
            ErrPacket::Progress(report) => write!(f, "{report}"),
        }
    }
}
