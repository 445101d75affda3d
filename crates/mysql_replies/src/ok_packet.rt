//! OK packets, of each kind.

ghost use Rattle.std.specs.Prelude.{true, false, ◌≡◌, ℕ, List, [], Option, Some, None, Ok, IfOk, IsOk, option_map};
ghost use Rattle.std.specs.Cow.{cow_slice_items, cow_str_bytes};
ghost use Rattle.mysql_wire.specs.Reading.{Answers};
ghost use Rattle.mysql_wire.specs.Seq.{items_of};
ghost use Rattle.mysql_wire.specs.Text.{lossy_text, OptionBorrowsUtf8};
ghost use Rattle.mysql_replies.specs.OkKind.{body_of};
ghost use Rattle.mysql_replies.specs.OkPacket as spec;
ghost use Rattle.mysql_replies.specs.SessionStateInfo.{begins_with_entry, state_string};

use crate::faults::InvalidOkPacketHeader;
use crate::ok_kind::{OkPacketBody, OkPacketKind};
use crate::session_state_changes::SessionStateChanges;
use crate::session_state_info::SessionStateInfo;
use mysql_wire::{
    AnyWidth, CapabilityFlags, ConstFault, Fault, FaultOf, LenEnc, MyDeserialize, ParseBuf,
    RawBytes, RawInt, StatusFlags, read_all,
};
use std::alloc::{AllocError, Global};
use std::borrow::{CowSlice, CowStr};
use std::marker::PhantomData;

/// An OK packet of any kind. An insert id of 0, an empty info and an empty state are absent.
///
/// ```
/// let mut buf = ParseBuf::new(alloc, payload);
/// let flags = CapabilityFlags::CLIENT_SESSION_TRACK;
/// let ok: OkPacketDeserializer<'_, CommonOkPacket> = buf.parse(flags)?;
/// let ok: OkPacket<'_> = ok.into_inner();
/// let changes = ok.session_state_info(alloc)?; // every change of the session, or the first fault
/// ```
#[derive(Clone, Debug, PartialEq, Eq)]
pub struct OkPacket<'a> {
    affected_rows: u64,
    last_insert_id: Option<u64>,
    status_flags: StatusFlags,
    warnings: u16,
    pub(crate) info: Option<RawBytes<'a, LenEnc>>,
    session_state_info: Option<RawBytes<'a, LenEnc>>,
}

impl Drop for OkPacket<'_> {
    #[inline(always)]
    fn drop(self) {
        let OkPacket {
            affected_rows: _,
            last_insert_id: _,
            status_flags: _,
            warnings: _,
            info: _,
            session_state_info: _,
        } = self;
    }
}

/// Returns the content unless it is empty.
#[inline(always)]
fn unless_empty<'a>(content: RawBytes<'a, LenEnc>) -> Option<RawBytes<'a, LenEnc>>
    ensures value { result ≡ spec.unless_empty content.entry }
{
    if content.as_bytes().is_empty() {
        None
    } else {
        Some(content)
    }
}

/// Copies the content into memory of its own.
fn owned<'a>(
    content: Option<RawBytes<'a, LenEnc>>,
    alloc: Global,
) -> Result<Option<RawBytes<'static, LenEnc>>, AllocError>
    ensures value { IfOk result (λ owned. owned ≡ content.entry) }
    ensures no_memory { spec.bytes_or_none content.entry ≡ [] → IsOk result }
{
    match content {
        Some(content) => Ok(Some(content.into_owned(alloc)?)),
        None => Ok(None),
    }
}

impl<'a> OkPacket<'a> {
    /// Creates a packet with these numbers, without info and state. An insert id of 0 is absent.
    pub fn new(
        affected_rows: u64,
        last_insert_id: u64,
        status_flags: StatusFlags,
        warnings: u16,
    ) -> Self
        ensures value { result ≡ spec.packet_of (body_of affected_rows last_insert_id status_flags warnings [] []) }
    {
        OkPacket {
            affected_rows,
            last_insert_id: if last_insert_id == 0 {
                None
            } else {
                Some(last_insert_id)
            },
            status_flags,
            warnings,
            info: None,
            session_state_info: None,
        }
    }

    /// Sets the info, a human-readable text. An empty one is absent.
    pub fn with_info(self, info: CowSlice<'a, u8>) -> Self
        ensures value { result ≡ record self.entry { info = spec.unless_empty (cow_slice_items info.entry) } }
    {
        let mut packet = self;
        packet.info = unless_empty(RawBytes::new(info));
        packet
    }

    /// Sets the state string: entries ([`SessionStateInfo`]), one after another. An empty one is absent.
    ///
    /// It is sent if changes are tracked (`CLIENT_SESSION_TRACK`) and the status has `SERVER_SESSION_STATE_CHANGED`.
    pub fn with_session_state_info(self, state: CowSlice<'a, u8>) -> Self
        ensures value { result ≡ record self.entry { session_state_info = spec.unless_empty (cow_slice_items state.entry) } }
    {
        let mut packet = self;
        packet.session_state_info = unless_empty(RawBytes::new(state));
        packet
    }

    /// Creates a packet with this body.
    #[inline(always)]
    pub(crate) fn from_body(body: OkPacketBody<'a>) -> Self
        ensures value { result ≡ spec.packet_of body.entry }
    {
        OkPacket {
            affected_rows: body.affected_rows,
            last_insert_id: if body.last_insert_id == 0 {
                None
            } else {
                Some(body.last_insert_id)
            },
            status_flags: body.status_flags,
            warnings: body.warnings,
            info: unless_empty(body.info),
            session_state_info: unless_empty(body.session_state_info),
        }
    }

    /// The number of rows that the statement changed.
    #[inline]
    pub fn affected_rows(&self) -> u64
        ensures value { result ≡ spec.affected_rows self.now }
    {
        self.affected_rows
    }

    /// The AUTO_INCREMENT value that the statement generated, if any (`last_insert_id`).
    #[inline]
    pub fn last_insert_id(&self) -> Option<u64>
        ensures value { result ≡ spec.last_insert_id self.now }
    {
        self.last_insert_id
    }

    /// The status flags of the server.
    #[inline]
    pub fn status_flags(&self) -> StatusFlags
        ensures value { result ≡ spec.status_flags self.now }
    {
        self.status_flags
    }

    /// The number of warnings.
    #[inline]
    pub fn warnings(&self) -> u16
        ensures value { result ≡ spec.warnings self.now }
    {
        self.warnings
    }

    /// The bytes of the info, if it isn't empty.
    pub fn info_ref(&self) -> Option<&[u8]>
        ensures value { option_map (λ bytes. bytes.now) result ≡ spec.info self.now }
    {
        match &self.info {
            Some(info) => Some(info.as_bytes()),
            None => None,
        }
    }

    /// The info as text, with U+FFFD for invalid UTF-8. Valid UTF-8 is borrowed.
    pub fn info_str(&self, alloc: Global) -> Result<Option<CowStr<'_>>, AllocError>
        ensures text { IfOk result (λ text. option_map cow_str_bytes text ≡ option_map lossy_text (spec.info self.now)) }
        ensures utf8 { OptionBorrowsUtf8 (spec.info self.now) result }
    {
        match &self.info {
            Some(info) => Ok(Some(info.as_str(alloc)?)),
            None => Ok(None),
        }
    }

    /// The bytes of the state string, if it isn't empty.
    pub fn session_state_info_ref(&self) -> Option<&[u8]>
        ensures value { option_map (λ bytes. bytes.now) result ≡ spec.session_state self.now }
    {
        match &self.session_state_info {
            Some(state) => Some(state.as_bytes()),
            None => None,
        }
    }

    /// Returns the entries of the state string, or an empty list if there is none.
    ///
    /// The fault is that of the first faulty entry. Without a state, or before the first entry is read, no memory is taken.
    #[tactic(auto, using(crate::proofs::StateString::no_entries))]
    pub fn session_state_info(&self, alloc: Global) -> Result<Vec<SessionStateInfo<'_>>, Fault>
        ensures value { Answers (begins_with_entry (spec.state_bytes self.now)) (items_of result) [] (state_string.reads (spec.state_bytes self.now)) }
        ensures absent { spec.session_state self.now ≡ None → items_of result ≡ Ok [] }
        ensures spelled { IfOk result (λ infos. state_string.Spells infos.items (spec.state_bytes self.now) []) }
    {
        match &self.session_state_info {
            Some(state) => {
                let mut entries = ParseBuf::new(alloc, state.as_bytes());
                read_all(&mut entries)
            }
            None => Ok(Vec::new(alloc)),
        }
    }

    /// Iterates over the changes in the state string, in the layouts that servers send.
    ///
    /// Each item borrows from the packet, or is that change's fault, after which the next changes follow. Only a list of system
    /// variables takes memory.
    pub fn session_state_changes(&self, alloc: Global) -> SessionStateChanges<'_>
        ensures value { result ≡ spec.state_bytes self.now }
    {
        let bytes: &[u8] = match &self.session_state_info {
            Some(state) => state.as_bytes(),
            None => b"",
        };
        SessionStateChanges::new(ParseBuf::new(alloc, bytes))
    }

    /// Copies the info and the state, so that the packet borrows nothing. If both are absent, it needs no allocation.
    pub fn into_owned(self, alloc: Global) -> Result<OkPacket<'static>, AllocError>
        ensures value { IfOk result (λ owned. owned ≡ self.entry) }
        ensures no_memory { spec.info_bytes self.entry ≡ [] → spec.state_bytes self.entry ≡ [] → IsOk result }
    {
        let OkPacket {
            affected_rows,
            last_insert_id,
            status_flags,
            warnings,
            info,
            session_state_info,
        } = self;
        Ok(OkPacket {
            affected_rows,
            last_insert_id,
            status_flags,
            warnings,
            info: owned(info, alloc)?,
            session_state_info: owned(session_state_info, alloc)?,
        })
    }
}

impl<'a> TryFrom<OkPacketBody<'a>> for OkPacket<'a> {
    type Error = Fault;

    ghost try_from_gives = { λ body r. r ≡ Ok (spec.packet_of body) };

    /// Creates the packet from its body. It can't fail.
    fn try_from(body: OkPacketBody<'a>) -> Result<OkPacket<'a>, Fault> {
        Ok(OkPacket::from_body(body))
    }
}

/// Reads the header of a kind.
#[inline(always)]
#[tactic(auto, unfolding(crate::specs::OkPacket::ok_header))]
pub(crate) fn read_header<'s, T: OkPacketKind>(buf: &mut ParseBuf<'_>) -> Result<(), FaultOf<'s>>
    ensures value { Answers false result buf.new ((spec.ok_header T.HEADER).reads buf.old) }
{
    let header: RawInt<u8> = buf.parse(())?;
    if header.0 != T::HEADER {
        return Err(FaultOf::InvalidData(InvalidOkPacketHeader::MESSAGE));
    }
    Ok(())
}

/// An OK packet of the kind `T`: the header of `T`, and its body.
///
/// An empty payload is `UnexpectedEof`, another header is `InvalidData`; otherwise the fault is that of the body.
///
/// ```
/// let ok: OkPacketDeserializer<'_, CommonOkPacket> = buf.parse(flags)?;
/// let ok: OkPacket<'_> = ok.into_inner();
/// let changes = ok.session_state_info(alloc)?; // every change of the session, or the first fault
/// ```
#[derive(Drop)]
#[derive_where(Clone, Debug, PartialEq, Eq)]
pub struct OkPacketDeserializer<'de, T>(OkPacket<'de>, PhantomData<T>);

impl<'de, T> OkPacketDeserializer<'de, T> {
    /// Returns the packet.
    #[inline]
    pub fn into_inner(self) -> OkPacket<'de>
        ensures value { result ≡ spec.packet self.entry }
    {
        self.0
    }
}

impl<'de, T> From<OkPacketDeserializer<'de, T>> for OkPacket<'de> {
    ghost from_gives = { λ d p. p ≡ spec.packet d };

    fn from(deserializer: OkPacketDeserializer<'de, T>) -> OkPacket<'de> {
        deserializer.0
    }
}

impl<'de, T: OkPacketKind> MyDeserialize<'de> for OkPacketDeserializer<'de, T> {
    const SIZE: Option<usize> = None;

    type Size = AnyWidth;

    /// The capabilities of both sides.
    type Ctx = CapabilityFlags;

    ghost form = { λ capabilities. spec.ok_packet T.HEADER (T.body capabilities) };

    // Inlined: a caller then knows that the texts are borrowed, and drops nothing.
    #[inline(always)]
    #[tactic(auto, unfolding(crate::specs::OkPacket::ok_packet))]
    fn deserialize<'s>(agreed: Self::Ctx, buf: &mut ParseBuf<'de>) -> Result<Self, FaultOf<'s>> {
        let mut rest = buf.rest();
        read_header::<T>(&mut rest)?;
        let body = T::parse_body(agreed, &mut rest)?;
        *buf = rest;
        Ok(OkPacketDeserializer(OkPacket::from_body(body), PhantomData))
    }

    ghost size_is = { λ capabilities. spec.size-ok_packet _ T.HEADER (T.body capabilities) };
}
