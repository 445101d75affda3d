//! Borrowed OK packets, of each kind.
#![tactic(auto, unfolding(crate::specs::OkPacket::ok_packet))]

ghost use Rattle.std.specs.Prelude.{◌≡◌, option_map};
ghost use Rattle.mysql_replies.specs.OkPacket as spec;
ghost use Rattle.mysql_replies.specs.declared.ok_packet.OkPacket.{OkPacket};
ghost use Rattle.mysql_replies.specs.OkPacket.{packet_of};
ghost use Rattle.mysql_replies.specs.declared.ok_packet.OkPacketDeserializer.{OkPacketDeserializer};

use crate::ok_body::OkPacketBodyRef;
use crate::ok_kind::OkPacketRefKind;
use crate::ok_packet::{OkPacket, read_header};
use crate::session_state_changes_ref::SessionStateChangesRef;
use mysql_wire::{AnyWidth, CapabilityFlags, FaultOf, MyDeserialize, ParseBuf, StatusFlags};
use std::marker::{Model, PhantomData};

/// An OK packet of any kind whose texts stay in the packet: an [`OkPacket`] for as long as the packet lives.
///
/// An insert id of 0, an empty info and an empty state are absent. In a clause it is that packet.
///
/// ```
/// let mut buf = ParseBuf::new(alloc, payload);
/// let ok: OkPacketRefDeserializer<'_, CommonOkPacket> = buf.parse(capabilities)?;
/// Ok(ok.into_inner().affected_rows())
/// ```
#[derive(Drop)]
pub struct OkPacketRef<'a> {
    body: OkPacketBodyRef<'a>,
}

impl<'a> Model for OkPacketRef<'a> {
    ghost Value = { OkPacket };

    ghost view = { λ p. packet_of p.body };
}

/// Returns the bytes, if there are any.
#[inline]
fn unless_empty<'a>(content: &ParseBuf<'a>) -> Option<&'a [u8]>
    ensures value { option_map (λ bytes. bytes.now) result ≡ spec.unless_empty content.now }
{
    let mut rest = content.rest();
    let bytes = rest.eat_all();
    if bytes.is_empty() { None } else { Some(bytes) }
}

impl<'a> OkPacketRef<'a> {
    /// The number of rows that the statement changed.
    #[inline]
    pub fn affected_rows(&self) -> u64
        ensures value { result ≡ spec.affected_rows self.now }
    {
        self.body.affected_rows
    }

    /// The AUTO_INCREMENT value that the statement generated, if any (`last_insert_id`).
    #[inline]
    pub fn last_insert_id(&self) -> Option<u64>
        ensures value { result ≡ spec.last_insert_id self.now }
    {
        if self.body.last_insert_id == 0 {
            None
        } else {
            Some(self.body.last_insert_id)
        }
    }

    /// The status flags of the server.
    #[inline]
    pub fn status_flags(&self) -> StatusFlags
        ensures value { result ≡ spec.status_flags self.now }
    {
        self.body.status_flags
    }

    /// The number of warnings.
    #[inline]
    pub fn warnings(&self) -> u16
        ensures value { result ≡ spec.warnings self.now }
    {
        self.body.warnings
    }

    /// The bytes of the info, if it isn't empty.
    #[inline]
    pub fn info(&self) -> Option<&'a [u8]>
        ensures value { option_map (λ bytes. bytes.now) result ≡ spec.info self.now }
    {
        unless_empty(&self.body.info)
    }

    /// The bytes of the state string, if it isn't empty.
    #[inline]
    pub fn session_state_info_ref(&self) -> Option<&'a [u8]>
        ensures value { option_map (λ bytes. bytes.now) result ≡ spec.session_state self.now }
    {
        unless_empty(&self.body.session_state_info)
    }

    /// Iterates over the changes in the state string, in the layouts that servers send. Each borrows from the
    /// packet and takes no memory.
    #[inline]
    pub fn session_state_changes(&self) -> SessionStateChangesRef<'a>
        ensures value { result ≡ spec.state_bytes self.now }
    {
        SessionStateChangesRef::new(self.body.session_state_info.rest())
    }

    /// Converts to an [`OkPacket`], which still borrows the texts. It takes no memory.
    #[inline]
    pub fn to_owned(&self) -> OkPacket<'a>
        ensures value { result ≡ self.now }
    {
        OkPacket::from_body(self.body.to_owned())
    }
}

/// An OK packet of the kind `T` whose texts stay in the packet: the header of `T`, and its body.
///
/// It is read from the same bytes as an [`OkPacketDeserializer`](crate::OkPacketDeserializer), with the same faults, and in a
/// clause it is that packet.
///
/// ```
/// let mut buf = ParseBuf::new(alloc, payload);
/// let ok: OkPacketRefDeserializer<'_, CommonOkPacket> = buf.parse(capabilities)?;
/// Ok(ok.into_inner().affected_rows())
/// ```
#[derive(Drop)]
pub struct OkPacketRefDeserializer<'de, T> {
    packet: OkPacketRef<'de>,
    kind: PhantomData<T>,
}

impl<'de, T> Model for OkPacketRefDeserializer<'de, T> {
    ghost Value = { OkPacketDeserializer T };

    ghost view = { λ d. record { 0 = d.packet; 1 = record {} } };
}

impl<'de, T> OkPacketRefDeserializer<'de, T> {
    /// Returns the packet.
    #[inline]
    pub fn into_inner(self) -> OkPacketRef<'de>
        ensures value { result ≡ spec.packet self.entry }
    {
        self.packet
    }
}

impl<'de, T: OkPacketRefKind> MyDeserialize<'de> for OkPacketRefDeserializer<'de, T> {
    const SIZE: Option<usize> = None;

    type Size = AnyWidth;

    /// The capabilities of both sides.
    type Ctx = CapabilityFlags;

    ghost form = { λ capabilities. spec.ok_packet T.HEADER (T.body capabilities) };

    #[inline(always)]
    fn deserialize<'s>(agreed: Self::Ctx, buf: &mut ParseBuf<'de>) -> Result<Self, FaultOf<'s>> {
        let mut rest = buf.rest();
        read_header::<T>(&mut rest)?;
        let body = T::parse_body_ref(agreed, &mut rest)?;
        *buf = rest;
        let packet = OkPacketRef { body };
        Ok(OkPacketRefDeserializer {
            packet,
            kind: PhantomData,
        })
    }

    ghost size_is = { λ capabilities. spec.size-ok_packet _ T.HEADER (T.body capabilities) };
}
