//! Borrowed connection attributes, one by one.
#![tactic(auto, using(mysql_wire::proofs::Packets::packets), unfolding(crate::specs::Attributes::attribute))]

ghost use Rattle.std.specs.Prelude.{◌≡◌, refl, ⊤};
ghost use Rattle.mysql_auth.specs.Attributes as spec;

use mysql_wire::{AnyWidth, BytesRef, BytesRepr, FaultOf, LenEnc, MyDeserialize, ParseBuf};
use std::alloc::AllocError;
use std::fmt;
use std::fmt::Debug;
use std::marker::Model;

/// A borrowed connection attribute: a key and its value, each a length-encoded string.
///
/// In a clause it is the pair of their bytes.
///
/// ```
/// let login: HandshakeResponseRef<'_> = ParseBuf::new(alloc, payload).parse(())?;
/// let Some(mut attributes) = login.connect_attributes() else {
///     return Ok(None);
/// };
/// Ok(
///     attributes
///         .find(|attribute| attribute.key() == key)
///         .map(|attribute| attribute.value()),
/// )
/// ```
#[derive(Drop)]
pub struct ConnectAttributeRef<'a> {
    key: &'a [u8],
    value: &'a [u8],
}

impl<'a> Model for ConnectAttributeRef<'a> {
    ghost use Rattle.std.specs.Prelude.{ℕ, List};

    ghost Value = { List ℕ × List ℕ };

    ghost view = { λ p. (p.key.now, p.value.now) };
}

impl<'a> ConnectAttributeRef<'a> {
    /// The bytes of the key.
    #[inline]
    pub fn key(&self) -> &'a [u8]
        ensures value { result.now ≡ self.now.0 }
    {
        self.key
    }

    /// The bytes of the value.
    #[inline]
    pub fn value(&self) -> &'a [u8]
        ensures value { result.now ≡ self.now.1 }
    {
        self.value
    }
}

impl Clone for ConnectAttributeRef<'_> {
    ghost is_clone = { λ p copy. copy ≡ p };

    ghost is_infallible = { λ _. ⊤ };

    fn clone(&self) -> Result<Self, AllocError> {
        Ok(ConnectAttributeRef {
            key: self.key,
            value: self.value,
        })
    }
}

impl PartialEq for ConnectAttributeRef<'_> {
    ghost eq = { spec.attribute_eq };

    ghost laws = { spec.attribute_per };

    fn eq(&self, other: &Self) -> bool {
        self.key == other.key && self.value == other.value
    }
}

impl Eq for ConnectAttributeRef<'_> {
    ghost laws = { spec.attribute_equiv };
}

impl Debug for ConnectAttributeRef<'_> {
    fn fmt<W: fmt::Write>(&self, f: &mut fmt::Formatter<W>) -> fmt::Result {
        f.debug_struct("ConnectAttributeRef")
            .field("key", &BytesRef::new(self.key))
            .field("value", &BytesRef::new(self.value))
            .finish()
    }
}

impl<'de> MyDeserialize<'de> for ConnectAttributeRef<'de> {
    const SIZE: Option<usize> = None;

    type Size = AnyWidth;

    type Ctx = ();

    ghost form = { spec.attribute.form };

    fn deserialize<'s>(_ctx: (), buf: &mut ParseBuf<'de>) -> Result<Self, FaultOf<'s>> {
        let mut rest = buf.rest();
        let key = <LenEnc as BytesRepr>::deserialize((), &mut rest)?.eat_all();
        let value = <LenEnc as BytesRepr>::deserialize((), &mut rest)?.eat_all();
        *buf = rest;
        Ok(ConnectAttributeRef { key, value })
    }

    ghost size_is = { λ _. spec.size-attribute };
}
