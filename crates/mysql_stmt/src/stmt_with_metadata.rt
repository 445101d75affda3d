//! The answer to the preparation of a statement, under the capabilities of the session.
#![tactic(auto, using(mysql_wire::proofs::Packets::packets), unfolding(crate::specs::StmtWithMetadata::stmt_with_metadata))]

ghost use Rattle.std.specs.Prelude.{◌≡◌, None, refl};
ghost use Rattle.mysql_stmt.specs.StmtWithMetadata as spec;

use crate::stmt::StmtPacket;
use mysql_wire::{
    AnyWidth, CapabilityFlags, FaultOf, Flags, MyDeserialize, ParseBuf, Parts, RawInt, Sink, parts,
};

/// A server's answer to the preparation of a statement, `COM_STMT_PREPARE_OK`, under the capabilities of both sides.
///
/// | Bytes | Field |
/// |---|---|
/// | 12 | the [`StmtPacket`] |
/// | 1 | `metadata`, only with CLIENT_OPTIONAL_RESULTSET_METADATA (`02000000`, in hexadecimal): 1 if definitions of columns and parameters follow, 0 if they don't |
///
/// Fewer bytes are `UnexpectedEof`, another status of the statement packet is `InvalidData`. The metadata byte
/// may have any value.
///
/// ```
/// let answer: StmtPacketWithMetadata = ParseBuf::new(alloc, payload).parse(agreed)?;
/// Ok(answer.metadata() != Some(0) && answer.packet().num_columns() > 0)
/// ```
#[derive(Clone, Debug, PartialEq, Eq, Drop)]
pub struct StmtPacketWithMetadata {
    packet: StmtPacket,
    metadata: Option<RawInt<u8>>,
}

impl StmtPacketWithMetadata {
    /// Creates the answer of a statement packet, with this metadata byte or without one.
    ///
    /// It is read back under capabilities with CLIENT_OPTIONAL_RESULTSET_METADATA if it has the byte, and under
    /// others if it doesn't.
    pub fn new(packet: StmtPacket, metadata: Option<u8>) -> Self
        ensures packet { spec.packet_of result ≡ packet }
        ensures metadata { spec.metadata_of result ≡ metadata }
    {
        StmtPacketWithMetadata {
            packet,
            metadata: match metadata {
                Some(byte) => Some(RawInt::new(byte)),
                None => None,
            },
        }
    }

    /// The statement packet.
    pub fn packet(&self) -> &StmtPacket
        ensures value { result.now ≡ spec.packet_of self.now }
    {
        &self.packet
    }

    /// The metadata byte, if there is one: 1 if definitions of columns and parameters follow, 0 if they don't.
    /// Without the byte they follow.
    pub fn metadata(&self) -> Option<u8>
        ensures value { result ≡ spec.metadata_of self.now }
    {
        match &self.metadata {
            Some(byte) => Some(byte.0),
            None => None,
        }
    }
}

impl<'de> MyDeserialize<'de> for StmtPacketWithMetadata {
    const SIZE: Option<usize> = None;

    type Size = AnyWidth;

    /// The capabilities of both sides.
    type Ctx = CapabilityFlags;

    ghost form = { spec.stmt_with_metadata.form };

    fn deserialize<'s>(
        capabilities: CapabilityFlags,
        buf: &mut ParseBuf<'de>,
    ) -> Result<Self, FaultOf<'s>> {
        let packet: StmtPacket = buf.parse(())?;
        let flag = CapabilityFlags::CLIENT_OPTIONAL_RESULTSET_METADATA;
        let metadata = if capabilities.contains(flag) {
            Some(buf.parse(())?)
        } else {
            None
        };
        Ok(StmtPacketWithMetadata { packet, metadata })
    }

    ghost size_is = { λ _. unfold spec.stmt_with_metadata in refl };
}

impl Parts for StmtPacketWithMetadata {
    ghost bytes = { spec.stmt_with_metadata.bytes };

    #[inline(always)]
    fn put<S: Sink>(&self, sink: &mut S) {
        sink.part(&parts!(self.packet, self.metadata));
    }
}
