//! Borrowed lists of connection attributes.

ghost use Rattle.std.specs.Prelude.{false, [], ◌≡◌, List, IfErr, IfOk, IsOk, OnOk, option_map, length, ⊤};
ghost use Rattle.std.specs.Cmp.Lexicographic.{pointwise};
ghost use Rattle.std.specs.Option.{unwrap_or};
ghost use Rattle.mysql_wire.specs.Many.{NextItem};
ghost use Rattle.mysql_wire.specs.Reading.{Answers};
ghost use Rattle.mysql_auth.specs.Attributes as spec;
ghost use Rattle.mysql_auth.specs.Attributes.{Attribute};
ghost use Rattle.mysql_auth.specs.ConnectAttributesRef.{ArePairs, pairs_in};
ghost use Rattle.std.specs.Iterator.{at_most};

use crate::attributes::{Attributes, read_pairs};
use crate::connect_attribute_ref::ConnectAttributeRef;
use mysql_wire::{BytesRef, BytesRepr, FaultOf, LenEnc, ParseBuf, check_all, next_item};
use std::alloc::{AllocError, Global};
use std::fmt;
use std::fmt::Debug;
use std::marker::Model;

/// A client's connection attributes, which borrow from the packet: an iterator over the keys and values in the order in which
/// they were sent, without memory.
///
/// A key may be repeated: its last value counts, at its first position. All pairs are read when the iterator is
/// created, so none of them fails later. In a clause it is the list of the remaining pairs.
///
/// ```
/// let login: HandshakeResponseRef<'_> = ParseBuf::new(alloc, payload).parse(())?;
/// let Some(mut attributes) = login.connect_attributes() else {
///     return Ok(None);
/// };
/// Ok(
///     attributes
///         .find(|attribute| attribute.key() == key)
///         .map(|attribute| attribute.value()),
/// )
/// ```
#[derive(Drop)]
pub struct ConnectAttributesRef<'a> {
    pairs: ParseBuf<'a>,
}

impl<'a> Model for ConnectAttributesRef<'a> {
    ghost Value = { List Attribute };

    ghost view = { λ a. pairs_in a.pairs };

    ghost invariant = { λ a. ArePairs a.pairs };
}

impl<'a> ConnectAttributesRef<'a> {
    /// Reads the attributes after their total length.
    #[tactic(auto, using(mysql_wire::proofs::Packets::packets), unfolding(crate::specs::Attributes::attributes_as_sent))]
    pub(crate) fn read<'s>(buf: &mut ParseBuf<'a>) -> Result<ConnectAttributesRef<'a>, FaultOf<'s>>
        ensures value { Answers false result buf.new ((spec.attributes_as_sent.form tt).reads buf.old) }
    {
        let pairs = <LenEnc as BytesRepr>::deserialize((), buf)?;
        check_all::<ConnectAttributeRef<'a>>(pairs.rest())?;
        Ok(ConnectAttributesRef { pairs })
    }

    /// Returns an iterator over the remaining pairs.
    #[inline]
    pub fn iter(&self) -> ConnectAttributesRef<'a>
        ensures value { result ≡ self.now }
    {
        ConnectAttributesRef {
            pairs: self.pairs.rest(),
        }
    }

    /// The bytes of the remaining pairs: each key and each value a length-encoded string.
    #[inline]
    pub fn as_bytes(&self) -> &'a [u8]
        ensures value { pairs_in result.now ≡ self.now }
        ensures spelled { ArePairs result.now }
    {
        let mut pairs = self.pairs.rest();
        pairs.eat_all()
    }

    /// Converts to a list with each key once, which still borrows the texts. It takes memory for the list.
    #[tactic(auto, using(crate::proofs::PairsMerged::pairs_merged))]
    pub(crate) fn to_attributes(&self, alloc: Global) -> Result<Attributes<'a>, AllocError>
        ensures value { IfOk result (λ attributes. attributes ≡ spec.merged self.now) }
        ensures no_memory { self.now ≡ [] → IsOk result }
    {
        let bytes = self.as_bytes();
        match read_pairs(ParseBuf::new(alloc, bytes)) {
            Ok(attributes) => Ok(attributes),
            Err(_) => Err(AllocError),
        }
    }
}

/// Iterates over the pairs if there are attributes.
#[inline]
pub(crate) fn iter_given<'a>(
    attributes: &Option<ConnectAttributesRef<'a>>,
) -> Option<ConnectAttributesRef<'a>>
    ensures value { result ≡ attributes.now }
{
    match attributes {
        Some(attributes) => Some(attributes.iter()),
        None => None,
    }
}

/// Converts optional attributes. Without attributes it takes no memory.
#[inline]
pub(crate) fn attributes_given<'a>(
    attributes: &Option<ConnectAttributesRef<'a>>,
    alloc: Global,
) -> Result<Option<Attributes<'a>>, AllocError>
    ensures value { IfOk result (λ given. given ≡ option_map spec.merged attributes.now) }
    ensures no_memory { unwrap_or attributes.now [] ≡ [] → IsOk result }
{
    match attributes {
        Some(attributes) => Ok(Some(attributes.to_attributes(alloc)?)),
        None => Ok(None),
    }
}

/// Whether both yield the same pairs, in the same order.
fn give_the_same(one: &ConnectAttributesRef<'_>, other: &ConnectAttributesRef<'_>) -> bool
    ensures value { result ≡ pointwise spec.attribute_eq one.now other.now }
{
    let mut others = other.iter();
    for pair in one.iter() {
        match others.next() {
            Some(other) => {
                if pair != other {
                    return false;
                }
            }
            None => return false,
        }
    }
    others.next().is_none()
}

impl Clone for ConnectAttributesRef<'_> {
    ghost is_clone = { λ p copy. copy ≡ p };

    ghost is_infallible = { λ _. ⊤ };

    fn clone(&self) -> Result<Self, AllocError> {
        Ok(self.iter())
    }
}

/// Compares the pairs as they were sent, in order.
impl PartialEq for ConnectAttributesRef<'_> {
    ghost use Rattle.std.specs.Cmp.Lexicographic.{pointwise, lists_per};

    ghost eq = { pointwise spec.attribute_eq };

    ghost laws = { lists_per spec.attribute_per };

    fn eq(&self, other: &Self) -> bool {
        give_the_same(self, other)
    }
}

impl Eq for ConnectAttributesRef<'_> {
    ghost use Rattle.std.specs.Cmp.Lexicographic.{lists_equiv};

    ghost laws = { lists_equiv spec.attribute_equiv };
}

impl Debug for ConnectAttributesRef<'_> {
    fn fmt<W: fmt::Write>(&self, f: &mut fmt::Formatter<W>) -> fmt::Result {
        let mut map = f.debug_map();
        for pair in self.iter() {
            map.entry(&BytesRef::new(pair.key()), &BytesRef::new(pair.value()));
        }
        map.finish()
    }
}

impl<'a> Iterator for ConnectAttributesRef<'a> {
    type Item = ConnectAttributeRef<'a>;

    ghost can_next = { λ _. ⊤ };

    ghost next_gives = { NextItem };

    ghost remaining = { λ left. at_most (length left) };

    fn next(&mut self) -> Option<ConnectAttributeRef<'a>> {
        next_item(&mut self.pairs)
    }
}
