//! The fields that every handshake has.
#![tactic(auto, using(mysql_wire::proofs::Packets::packets), unfolding(crate::specs::Handshake::handshake_head, crate::specs::Handshake::handshake_block))]

ghost use Rattle.std.specs.Prelude.{false, [], ◌+◌, ◌≡◌, ◌≤◌, length, IfOk, IsOk, Ok};
ghost use Rattle.mysql_wire.specs.Reading.{Answers};
ghost use Rattle.mysql_auth.specs.Handshake as spec;

use crate::first_scramble::FirstScramble;
use bitflags::Flags;
use mysql_wire::{
    BytesRef, CapabilityFlags, Const, FaultOf, FixedInt, LeU16, LeU32, MariadbCapabilities,
    NullBytes, ParseBuf, RawBytes, RawInt, Skip, StatusFlags,
};
use std::alloc::{AllocError, Global};
use std::borrow::CowSlice;
use std::cmp::max;

/// The length of the second scramble, from the length of both in the handshake: without the first 8 bytes, and
/// at least 13. Servers send `SCRAMBLE_LENGTH` bytes and a zero (`send_server_handshake_packet` in
/// `sql/auth/sql_authentication.cc`).
#[inline]
pub(crate) fn scramble_length(data_length: u8) -> usize
    ensures value { result ≡ spec.scramble_length data_length }
{
    max(13, usize::from(data_length).saturating_sub(8))
}

/// The fields that every handshake has: the versions, and 31 bytes.
///
/// The length of both scrambles, one of these bytes, isn't kept: it follows from the second scramble.
#[derive(Clone, Debug, PartialEq, Eq, Hash, Drop)]
pub(crate) struct HandshakeHead<V, S> {
    pub(crate) protocol_version: RawInt<u8>,
    pub(crate) server_version: V,
    pub(crate) connection_id: RawInt<LeU32>,
    pub(crate) scramble_1: S,
    pub(crate) filler: Skip<1>,
    pub(crate) capabilities_low: RawInt<LeU16>,
    pub(crate) default_collation: RawInt<u8>,
    pub(crate) status_flags: Const<StatusFlags, LeU16>,
    pub(crate) capabilities_high: RawInt<LeU16>,
    pub(crate) reserved: Skip<6>,
    pub(crate) mariadb_capabilities: Const<MariadbCapabilities, LeU32>,
}

/// The head of a [`HandshakePacket`](crate::HandshakePacket).
pub(crate) type OwnedHead<'a> = HandshakeHead<RawBytes<'a, NullBytes>, [u8; 8]>;

/// The head of a [`HandshakePacketRef`](crate::HandshakePacketRef).
pub(crate) type HandshakeHeadRef<'a> = HandshakeHead<BytesRef<'a>, FirstScramble<'a>>;

impl<V, S> HandshakeHead<V, S> {
    /// The server's capabilities, from both halves.
    #[inline]
    pub(crate) fn capabilities(&self) -> CapabilityFlags
        ensures value { result.0 ≡ spec.capabilities_of self.now }
        ensures halves { spec.HalvesFitIn self.now }
    {
        let low = u32::from(self.capabilities_low.0);
        let high = u32::from(self.capabilities_high.0);
        CapabilityFlags::from_bits_retain(low + high * 0x1_0000)
    }
}

impl OwnedHead<'_> {
    /// Copies all texts, so that the head borrows nothing.
    pub(crate) fn into_owned(self, alloc: Global) -> Result<OwnedHead<'static>, AllocError>
        ensures value { IfOk result (λ owned. owned ≡ self.entry) }
        ensures no_memory { self.entry.server_version ≡ [] → IsOk result }
    {
        Ok(HandshakeHead {
            protocol_version: self.protocol_version,
            server_version: self.server_version.into_owned(alloc)?,
            connection_id: self.connection_id,
            scramble_1: self.scramble_1,
            filler: Skip,
            capabilities_low: self.capabilities_low,
            default_collation: self.default_collation,
            status_flags: self.status_flags,
            capabilities_high: self.capabilities_high,
            reserved: Skip,
            mariadb_capabilities: self.mariadb_capabilities,
        })
    }
}

impl<'a> HandshakeHeadRef<'a> {
    /// Converts to an [`OwnedHead`], which still borrows the version.
    pub(crate) fn to_owned(&self) -> OwnedHead<'a>
        ensures value { result ≡ self.now }
    {
        HandshakeHead {
            protocol_version: RawInt::new(self.protocol_version.0),
            server_version: RawBytes::new(CowSlice::Borrowed(self.server_version.as_bytes())),
            connection_id: RawInt::new(self.connection_id.0),
            scramble_1: *self.scramble_1.as_array(),
            filler: Skip,
            capabilities_low: RawInt::new(self.capabilities_low.0),
            default_collation: RawInt::new(self.default_collation.0),
            status_flags: Const::new(self.status_flags.0),
            capabilities_high: RawInt::new(self.capabilities_high.0),
            reserved: Skip,
            mariadb_capabilities: Const::new(self.mariadb_capabilities.0),
        }
    }

    /// Reads the 31 bytes, and returns the head with these versions, and the length of both scrambles.
    fn read_block(
        protocol_version: RawInt<u8>,
        server_version: BytesRef<'a>,
        fixed: &mut ParseBuf<'a>,
    ) -> (HandshakeHeadRef<'a>, u8)
        requires { 31 ≤ length fixed.old }
        ensures value { ((spec.handshake_block protocol_version server_version.entry).form tt).reads fixed.old ≡ Ok (result, fixed.new) }
        ensures exact { length fixed.old ≡ 31 + length fixed.new }
    {
        let connection_id = RawInt::take(fixed);
        let scramble_1 = FirstScramble::eat(fixed);
        let filler = Skip::take(fixed);
        let capabilities_low = RawInt::take(fixed);
        let default_collation = RawInt::take(fixed);
        let status_flags = Const::new(StatusFlags::from_bits_retain(LeU16::take(fixed)));
        let capabilities_high = RawInt::take(fixed);
        let data_length = u8::take(fixed);
        let head = HandshakeHead {
            protocol_version,
            server_version,
            connection_id,
            scramble_1,
            filler,
            capabilities_low,
            default_collation,
            status_flags,
            capabilities_high,
            reserved: Skip::take(fixed),
            mariadb_capabilities: Const::new(MariadbCapabilities::from_bits_retain(LeU32::take(
                fixed,
            ))),
        };
        (head, data_length)
    }

    /// Reads the head, and the length of both scrambles.
    pub(crate) fn read<'s>(
        buf: &mut ParseBuf<'a>,
    ) -> Result<(HandshakeHeadRef<'a>, u8), FaultOf<'s>>
        ensures value { Answers false result buf.new ((spec.handshake_head.form tt).reads buf.old) }
    {
        let protocol_version = buf.parse(())?;
        let server_version = BytesRef::read::<NullBytes>((), buf)?;
        let mut fixed: ParseBuf<'a> = buf.parse(31)?;
        Ok(HandshakeHeadRef::read_block(protocol_version, server_version, &mut fixed))
    }
}
