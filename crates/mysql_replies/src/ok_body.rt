//! The bodies of OK packets with borrowed texts, and their ends.

ghost use Rattle.std.specs.Prelude.{false, ◌≡◌, [], OnErr};
ghost use Rattle.mysql_wire.specs.Reading.{Answers};
ghost use Rattle.mysql_replies.specs.OkKind.{ok_end, ok_tail, size-ok_tail};

use crate::ok_kind::OkPacketBody;
use bitflags::Flags;
use mysql_wire::{
    AnyWidth, BytesRepr, CapabilityFlags, Const, FaultOf, LeU16, LenEnc, MyDeserialize, ParseBuf,
    RawBytes, RawInt, StatusFlags,
};
use std::borrow::CowSlice;
use std::marker::Model;

/// The body of an OK packet whose texts stay in the packet: an [`OkPacketBody`] for as long as the
/// packet lives.
///
/// In a clause it is that body.
#[derive(Drop)]
pub struct OkPacketBodyRef<'a> {
    pub(crate) affected_rows: u64,
    pub(crate) last_insert_id: u64,
    pub(crate) status_flags: StatusFlags,
    pub(crate) warnings: u16,
    pub(crate) info: ParseBuf<'a>,
    pub(crate) session_state_info: ParseBuf<'a>,
}

impl<'a> Model for OkPacketBodyRef<'a> {
    ghost use Rattle.mysql_replies.specs.declared.ok_kind.OkPacketBody.{OkPacketBody};
    ghost use Rattle.mysql_replies.specs.OkKind.{body_of};

    ghost Value = { OkPacketBody };

    ghost view = { λ b. body_of b.affected_rows b.last_insert_id b.status_flags b.warnings b.info b.session_state_info };
}

impl<'a> OkPacketBodyRef<'a> {
    /// Converts to an [`OkPacketBody`], which still borrows the texts. It takes no memory.
    #[inline(always)]
    pub fn to_owned(&self) -> OkPacketBody<'a>
        ensures value { result ≡ self.now }
    {
        let (mut info, mut session_state_info) = (self.info.rest(), self.session_state_info.rest());
        OkPacketBody {
            affected_rows: self.affected_rows,
            last_insert_id: self.last_insert_id,
            status_flags: self.status_flags,
            warnings: self.warnings,
            info: RawBytes::new(CowSlice::Borrowed(info.eat_all())),
            session_state_info: RawBytes::new(CowSlice::Borrowed(session_state_info.eat_all())),
        }
    }
}

/// The end of an OK packet: the info and the session's changes, each empty if it is not sent. In a clause it is
/// an `OkTail`.
///
/// Servers send the info length-encoded with and without CLIENT_SESSION_TRACK (`net_send_ok` in MySQL's
/// `sql/protocol_classic.cc`), where the page has `string<EOF>`.
#[derive(Drop)]
struct OkTailRef<'a> {
    info: ParseBuf<'a>,
    session_state_info: ParseBuf<'a>,
}

impl<'a> Model for OkTailRef<'a> {
    ghost use Rattle.mysql_replies.specs.OkKind.{OkTail, tail_of};

    ghost Value = { OkTail };

    ghost view = { λ t. tail_of t.info t.session_state_info };
}

/// An empty text.
#[inline(always)]
pub(crate) fn none<'a>(buf: &ParseBuf<'a>) -> ParseBuf<'a>
    ensures value { result ≡ [] }
{
    ParseBuf::new(buf.alloc(), &[])
}

impl<'de> MyDeserialize<'de> for OkTailRef<'de> {
    const SIZE: Option<usize> = None;

    type Size = AnyWidth;

    type Ctx = (CapabilityFlags, StatusFlags);

    ghost form = { λ ctx. ok_tail ctx.0 ctx.1 };

    #[inline(always)]
    #[tactic(auto, using(mysql_wire::proofs::Tails::tails), unfolding(crate::specs::OkKind::ok_tail))]
    fn deserialize<'s>(
        ctx: (CapabilityFlags, StatusFlags),
        buf: &mut ParseBuf<'de>,
    ) -> Result<Self, FaultOf<'s>> {
        let (capabilities, status_flags) = ctx;
        let tracks = capabilities.contains(CapabilityFlags::CLIENT_SESSION_TRACK);
        let state_changed = status_flags.contains(StatusFlags::SERVER_SESSION_STATE_CHANGED);
        if tracks && !buf.is_empty() {
            let mut rest = buf.rest();
            let info = <LenEnc as BytesRepr>::deserialize((), &mut rest)?;
            let session_state_info = if state_changed {
                <LenEnc as BytesRepr>::deserialize((), &mut rest)?
            } else {
                none(&rest)
            };
            *buf = rest;
            Ok(OkTailRef {
                info,
                session_state_info,
            })
        } else if buf.first().is_some_and(|first| first != 0) {
            Ok(OkTailRef {
                info: <LenEnc as BytesRepr>::deserialize((), buf)?,
                session_state_info: none(buf),
            })
        } else {
            Ok(OkTailRef {
                info: none(buf),
                session_state_info: none(buf),
            })
        }
    }

    ghost size_is = { λ ctx. size-ok_tail ctx.0 ctx.1 };
}

/// Reads the tail, which most packets don't have.
// (what reads its texts is large, and so a call)
#[inline(always)]
fn read_tail<'s, 'de>(
    capabilities: CapabilityFlags,
    status_flags: StatusFlags,
    buf: &mut ParseBuf<'de>,
) -> Result<OkTailRef<'de>, FaultOf<'s>>
    ensures value { Answers false result buf.new ((ok_tail capabilities status_flags).reads buf.old) }
    ensures err { OnErr result (buf.new ≡ buf.old) }
{
    if buf.is_empty() {
        return Ok(OkTailRef {
            info: none(buf),
            session_state_info: none(buf),
        });
    }
    buf.parse((capabilities, status_flags))
}

/// Reads the end of a body: two bytes of status flags and a warning count of two bytes, both little-endian, and
/// the tail.
#[inline(always)]
#[tactic(auto, using(mysql_wire::proofs::Blocks::blocks), unfolding(crate::specs::OkKind::ok_end))]
pub(crate) fn read_end<'s, 'de>(
    capabilities: CapabilityFlags,
    affected_rows: u64,
    last_insert_id: u64,
    buf: &mut ParseBuf<'de>,
) -> Result<OkPacketBodyRef<'de>, FaultOf<'s>>
    ensures value { Answers false result buf.new ((ok_end capabilities affected_rows last_insert_id).reads buf.old) }
    ensures err { OnErr result (buf.new ≡ buf.old) }
{
    let mut rest = buf.rest();
    let mut numbers: ParseBuf<'de> = rest.parse(4)?;
    let status_flags: Const<StatusFlags, LeU16> = numbers.parse_unchecked(())?;
    let warnings: RawInt<LeU16> = RawInt::take(&mut numbers);
    let tail = read_tail(capabilities, status_flags.0, &mut rest)?;
    *buf = rest;
    Ok(OkPacketBodyRef {
        affected_rows,
        last_insert_id,
        status_flags: status_flags.0,
        warnings: warnings.0,
        info: tail.info,
        session_state_info: tail.session_state_info,
    })
}
