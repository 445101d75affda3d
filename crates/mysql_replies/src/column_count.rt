//! The column count that a result begins with.
#![tactic(auto, using(mysql_wire::proofs::Packets::packets), unfolding(crate::specs::ColumnCount::column_count))]

ghost use Rattle.std.specs.Prelude.{◌≡◌, None, refl, option_map};
ghost use Rattle.mysql_wire.specs.Codecs.{raw_int};
ghost use Rattle.mysql_replies.specs.ColumnCount as spec;

use crate::session_capabilities::SessionCapabilities;
use bitflags::Flags;
use mysql_wire::{
    AnyWidth, CapabilityFlags, FaultOf, LenEnc, MariadbCapabilities, MyDeserialize, ParseBuf,
    Parts, RawInt, Sink, parts,
};

/// The first packet of a result: the number of columns, and whether their definitions follow.
///
/// | Bytes | Field |
/// |---|---|
/// | 1, 3, 4 or 9 | `count`, length-encoded |
/// | 1 | `metadata_follows`, if both sides have `CLIENT_OPTIONAL_RESULTSET_METADATA` or `MARIADB_CLIENT_CACHE_METADATA` |
///
/// The byte is 0 if the server omits the definitions: MySQL, because the client asked for none (`resultset_metadata`); MariaDB,
/// because they are those of the statement's last execution. Without the byte, the definitions follow. MySQL writes the count
/// first and then the byte (`start_result_metadata` in `sql/protocol_classic.cc`), although the protocol's page has the byte
/// first. Missing bytes are `UnexpectedEof`, a count that begins with `fb` or `ff` is `InvalidData`.
///
/// ```
/// let packet: ColumnCount = ParseBuf::new(alloc, payload).parse(agreed)?;
/// Ok((packet.count(), packet.metadata_follows()))
/// ```
#[derive(Clone, Debug, PartialEq, Eq, Drop)]
pub struct ColumnCount {
    count: RawInt<LenEnc>,
    metadata_follows: Option<RawInt<u8>>,
}

impl ColumnCount {
    /// Creates a column count without the metadata byte: the definitions follow.
    #[inline]
    pub fn new(count: u64) -> Self
        ensures value { result ≡ spec.columns count }
    {
        ColumnCount {
            count: RawInt::new(count),
            metadata_follows: None,
        }
    }

    /// Adds the metadata byte, which says whether the definitions follow, for sessions whose flags ask for it.
    #[inline]
    pub fn with_metadata_follows(self, follows: bool) -> Self
        ensures value { result ≡ spec.with_metadata_follows follows self }
    {
        ColumnCount {
            count: self.count,
            metadata_follows: Some(RawInt::new(if follows { 1 } else { 0 })),
        }
    }

    /// The number of columns.
    #[inline]
    pub fn count(&self) -> u64
        ensures value { result ≡ spec.count self.now }
    {
        self.count.0
    }

    /// Whether the definitions of the columns follow: the byte is not 0, or there is none.
    #[inline]
    pub fn metadata_follows(&self) -> bool
        ensures value { result ≡ spec.metadata_follows self.now }
    {
        match &self.metadata_follows {
            Some(byte) => byte.0 != 0,
            None => true,
        }
    }

    /// The metadata byte, which says whether the definitions follow, if there is one.
    #[inline]
    pub fn metadata_byte(&self) -> Option<u8>
        ensures value { option_map raw_int result ≡ self.now.metadata_follows }
    {
        match &self.metadata_follows {
            Some(byte) => Some(byte.0),
            None => None,
        }
    }
}

/// Whether the packet has the metadata byte: MySQL's flag or MariaDB's asks for it.
#[inline]
fn says_follow(agreed: SessionCapabilities) -> bool
    ensures value { result ≡ spec.says_follow agreed }
{
    agreed
        .mysql
        .contains(CapabilityFlags::CLIENT_OPTIONAL_RESULTSET_METADATA)
        || agreed
            .mariadb
            .contains(MariadbCapabilities::MARIADB_CLIENT_CACHE_METADATA)
}

impl<'de> MyDeserialize<'de> for ColumnCount {
    const SIZE: Option<usize> = None;

    type Size = AnyWidth;

    /// The capabilities of both sides.
    type Ctx = SessionCapabilities;

    ghost form = { spec.column_count.form };

    fn deserialize<'s>(agreed: Self::Ctx, buf: &mut ParseBuf<'de>) -> Result<Self, FaultOf<'s>> {
        let mut rest = buf.rest();
        let count = rest.parse(())?;
        let metadata_follows = if says_follow(agreed) {
            Some(rest.parse(())?)
        } else {
            None
        };
        *buf = rest;
        Ok(ColumnCount {
            count,
            metadata_follows,
        })
    }

    ghost size_is = { λ _. unfold spec.column_count in refl };
}

impl Parts for ColumnCount {
    ghost bytes = { spec.column_count.bytes };

    #[inline(always)]
    fn put<S: Sink>(&self, sink: &mut S) {
        sink.part(&parts!(self.count, self.metadata_follows));
    }
}
