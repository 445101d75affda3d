//! One attribute of a connection.
#![tactic(auto, using(mysql_wire::proofs::Packets::packets), unfolding(crate::specs::Attributes::attribute))]

ghost use Rattle.std.specs.Prelude.{false, [], ◌≡◌, nat_eq, string_bytes, ℕ, List, IfOk};
ghost use Rattle.std.specs.Cmp.Lexicographic.{pointwise};
ghost use Rattle.std.specs.List.{list_any};
ghost use Rattle.mysql_wire.specs.Reading.{Answers};
ghost use Rattle.mysql_wire.specs.Text.{lossy_text};
ghost use Rattle.mysql_auth.specs.Attributes as spec;

use mysql_wire::{FaultOf, LenEnc, ParseBuf, Parts, RawBytes, Sink, parts};
use std::alloc::{AllocError, Global};
use std::marker::Model;

/// Copies the content as text, with U+FFFD for invalid UTF-8.
fn text_of(content: &RawBytes<'_, LenEnc>, alloc: Global) -> Result<String, AllocError>
    ensures value { IfOk result (λ text. string_bytes text ≡ lossy_text content.now) }
{
    content.as_str(alloc)?.into_owned(alloc)
}

/// A key with its value.
///
/// In a clause it is the pair of their bytes.
#[derive(Drop)]
pub(crate) struct Attribute<'a> {
    pub(crate) key: RawBytes<'a, LenEnc>,
    pub(crate) value: RawBytes<'a, LenEnc>,
}

impl<'a> Model for Attribute<'a> {
    ghost use Rattle.std.specs.Prelude.{ℕ, List};

    ghost Value = { List ℕ × List ℕ };

    ghost view = { λ p. (p.key, p.value) };
}

impl<'a> Attribute<'a> {
    /// Creates an attribute of this key and this value.
    #[inline(always)]
    pub(crate) fn new(key: RawBytes<'a, LenEnc>, value: RawBytes<'a, LenEnc>) -> Self
        ensures value { result ≡ (key.entry, value.entry) }
    {
        Attribute { key, value }
    }

    /// Reads a key and its value.
    #[inline(always)]
    pub(crate) fn read<'s>(buf: &mut ParseBuf<'a>) -> Result<Attribute<'a>, FaultOf<'s>>
        ensures value { Answers false result buf.new ((spec.attribute.form tt).reads buf.old) }
    {
        let key = buf.parse(())?;
        let value = buf.parse(())?;
        Ok(Attribute { key, value })
    }

    /// Copies the key and the value, so that the attribute borrows nothing.
    pub(crate) fn into_owned(self, alloc: Global) -> Result<Attribute<'static>, AllocError>
        ensures value { IfOk result (λ owned. owned ≡ self.entry) }
    {
        let key = self.key.into_owned(alloc)?;
        let value = self.value.into_owned(alloc)?;
        Ok(Attribute { key, value })
    }

    /// Copies the key and the value as text, with U+FFFD for invalid UTF-8.
    pub(crate) fn texts(&self, alloc: Global) -> Result<(String, String), AllocError>
        ensures value { IfOk result (λ texts. spec.text_pair texts ≡ spec.lossy_pair self.now) }
    {
        let key = text_of(&self.key, alloc)?;
        let value = text_of(&self.value, alloc)?;
        Ok((key, value))
    }
}

/// Whether one of the attributes has the key.
#[inline(always)]
pub(crate) fn has_key(attributes: &[Attribute<'_>], key: &[u8]) -> bool
    ensures value { result ≡ list_any (λ p. pointwise nat_eq key.now p.0) attributes.now }
{
    attributes
        .iter()
        .any(|attribute| key == attribute.key.as_bytes())
}

impl Clone for Attribute<'_> {
    ghost is_clone = { λ a copy. copy ≡ a };

    ghost is_infallible = { λ a. (a.0 ≡ []) × (a.1 ≡ []) };

    fn clone(&self) -> Result<Self, AllocError> {
        Ok(Attribute {
            key: self.key.clone()?,
            value: self.value.clone()?,
        })
    }
}

impl PartialEq for Attribute<'_> {
    ghost eq = { spec.attribute_eq };

    ghost laws = { spec.attribute_per };

    fn eq(&self, other: &Self) -> bool {
        self.key == other.key && self.value == other.value
    }
}

impl Eq for Attribute<'_> {
    ghost laws = { spec.attribute_equiv };
}

impl Parts for Attribute<'_> {
    ghost bytes = { spec.attribute.bytes };

    #[inline(always)]
    fn put<S: Sink>(&self, sink: &mut S) {
        sink.part(&parts!(self.key, self.value));
    }
}
