//! The header that semi-synchronous replication puts before an event.
#![tactic(auto, using(mysql_wire::proofs::Packets::packets), unfolding(crate::specs::SemiSyncHeader::semi_sync_header))]

ghost use Rattle.std.specs.Prelude.{◌≡◌, ◌<◌, ◌^◌};
ghost use Rattle.mysql_wire.specs.Form.{size-block};
ghost use Rattle.mysql_repl.specs.SemiSyncHeader as spec;

use mysql_wire::{
    ConstFault, ConstU8, FaultOf, Fixed, MyDeserialize, ParseBuf, Parts, RawInt, Sink, parts,
};
use thiserror::Error;

/// The first byte before an event of semi-synchronous replication is not `ef`.
#[derive(Clone, Copy, Debug, Default, PartialEq, Eq, Hash, Error)]
#[error("Invalid semi-sync header")]
pub struct InvalidSemiSyncHeader;

impl ConstFault for InvalidSemiSyncHeader {
    const MESSAGE: &'static str = "Invalid semi-sync header";
}

/// The byte `ef`, and a byte of flags, whose lowest bit requests an acknowledgement.
///
/// Fewer than two bytes are `UnexpectedEof`, another first byte is `InvalidData`.
#[derive(Clone, Debug, PartialEq, Eq, Drop)]
pub(crate) struct SemiSyncHeader {
    header: ConstU8<InvalidSemiSyncHeader, 0xef>,
    flags: RawInt<u8>,
}

impl SemiSyncHeader {
    /// Creates a header that requests an acknowledgement, or doesn't.
    #[inline]
    pub(crate) fn new(wants_ack: bool) -> Self
        ensures value { result ≡ spec.header_of wants_ack }
    {
        SemiSyncHeader {
            header: ConstU8::new(),
            flags: RawInt::new(if wants_ack { 1 } else { 0 }),
        }
    }

    /// Whether an acknowledgement is requested.
    #[inline]
    pub(crate) fn wants_ack(&self) -> bool
        ensures value { result ≡ spec.wants_ack self.now }
        ensures width { spec.flags self.now < 2 ^ 8 }
    {
        self.flags.0 % 2 == 1
    }
}

impl<'de> MyDeserialize<'de> for SemiSyncHeader {
    const SIZE: Option<usize> = Some(2);

    type Size = Fixed<2>;

    type Ctx = ();

    ghost form = { spec.semi_sync_header.form };

    #[inline]
    fn deserialize<'s>(_ctx: (), buf: &mut ParseBuf<'de>) -> Result<Self, FaultOf<'s>> {
        let mut fields: ParseBuf<'de> = buf.parse(2)?;
        Ok(SemiSyncHeader {
            header: fields.parse_unchecked(())?,
            flags: fields.parse_unchecked(())?,
        })
    }

    ghost size_is = { λ _. unfold spec.semi_sync_header in size-block 2 (spec.semi_sync_header_fields.form tt) };
}

impl Parts for SemiSyncHeader {
    ghost bytes = { spec.semi_sync_header.bytes };

    #[inline(always)]
    fn put<S: Sink>(&self, sink: &mut S) {
        sink.part(&parts!(self.header, self.flags));
    }
}
