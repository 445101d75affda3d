//! A query.
#![tactic(auto, using(mysql_wire::proofs::Packets::packets), unfolding(crate::specs::Query::query))]

ghost use Rattle.std.specs.Prelude.{◌≡◌, None, option_map, refl};
ghost use Rattle.mysql_commands.specs.WithRawBytes.{value};
ghost use Rattle.mysql_commands.specs.Query as spec;

use crate::query_attributes::QueryAttributesRef;
use crate::with_raw_bytes::WithRawBytes;
use mysql_wire::command_code::COM_QUERY;
use mysql_wire::{
    AnyWidth, BytesRef, CapabilityFlags, ConstFault, ConstU8, FaultOf, Flags, MyDeserialize,
    ParseBuf, Parts, Sink, parts,
};
use thiserror::Error;

/// The first byte of a query is not `03`.
#[derive(Clone, Copy, Debug, Default, PartialEq, Eq, Hash, Error)]
#[error("Invalid header for COM_QUERY")]
pub struct InvalidComQueryHeader;

impl ConstFault for InvalidComQueryHeader {
    const MESSAGE: &'static str = "Invalid header for COM_QUERY";
}

/// The first byte of a query: `03`.
pub type ComQueryHeader = ConstU8<InvalidComQueryHeader, COM_QUERY>;

/// `COM_QUERY`: a query as text, which stays in the packet.
///
/// | Bytes | Field |
/// |---|---|
/// | 1 | the byte `03` |
/// | variable | the attributes, if both sides have CLIENT_QUERY_ATTRIBUTES: [`QueryAttributesRef`] |
/// | to the end | the text |
///
/// An empty payload is `UnexpectedEof`, another first byte is `InvalidData`; the attributes have faults of
/// their own. It is written byte for byte as it was read.
///
/// ```
/// let query: ComQueryRef<'_> = ParseBuf::new(alloc, payload).parse(agreed)?;
/// Ok(query.text())
/// ```
#[derive(Clone, Debug, PartialEq, Eq, Drop)]
pub struct ComQueryRef<'a> {
    attributes: Option<WithRawBytes<'a, QueryAttributesRef<'a>>>,
    text: BytesRef<'a>,
}

impl<'a> ComQueryRef<'a> {
    /// Creates a query of this text, for a session without CLIENT_QUERY_ATTRIBUTES.
    pub fn new(text: &'a [u8]) -> Self
        ensures value { result ≡ spec.query_of None text.now }
    {
        ComQueryRef {
            attributes: None,
            text: BytesRef::new(text),
        }
    }

    /// The bytes of the text.
    #[inline]
    pub fn text(&self) -> &'a [u8]
        ensures value { result.now ≡ spec.text self.now }
    {
        self.text.as_bytes()
    }

    /// The attributes, if they are sent before the text.
    #[inline]
    pub fn attributes(&self) -> Option<&QueryAttributesRef<'a>>
        ensures value { option_map (λ a. a.now) result ≡ option_map value (spec.sent_attributes self.now) }
    {
        match &self.attributes {
            Some(attributes) => Some(attributes.value()),
            None => None,
        }
    }
}

impl<'de> MyDeserialize<'de> for ComQueryRef<'de> {
    const SIZE: Option<usize> = None;

    type Size = AnyWidth;

    /// The capabilities of both sides.
    type Ctx = CapabilityFlags;

    ghost form = { spec.query.form };

    fn deserialize<'s>(
        capabilities: CapabilityFlags,
        buf: &mut ParseBuf<'de>,
    ) -> Result<Self, FaultOf<'s>> {
        let _header: ComQueryHeader = buf.parse(())?;
        let attributes = if capabilities.contains(CapabilityFlags::CLIENT_QUERY_ATTRIBUTES) {
            Some(buf.parse(())?)
        } else {
            None
        };
        Ok(ComQueryRef {
            attributes,
            text: buf.parse(())?,
        })
    }

    ghost size_is = { λ _. unfold spec.query in refl };
}

impl Parts for ComQueryRef<'_> {
    ghost bytes = { spec.query.bytes };

    #[inline(always)]
    fn put<S: Sink>(&self, sink: &mut S) {
        let header: ComQueryHeader = ConstU8::new();
        sink.part(&parts!(header, self.attributes, self.text));
    }
}
