//! Attributes of a connection.
#![tactic(auto, using(mysql_wire::proofs::Packets::packets), unfolding(crate::specs::Attributes::attributes, crate::specs::Attributes::attribute))]

ghost use Rattle.std.specs.Prelude.{true, drop, ◌≡◌, ◌≢◌, ◌+◌, ◌++◌, ◌≤◌, [], List, ℕ, length, map, option_map, IfOk, IsOk, refl};
ghost use Rattle.std.specs.Option.{option_map_or, unwrap_or};
ghost use Rattle.mysql_wire.specs.Reading.{Answers};
ghost use Rattle.mysql_wire.specs.Seq.{counts_any, is_any};
ghost use Rattle.mysql_wire.specs.Writing.{saturated};
ghost use Rattle.mysql_auth.specs.AttributeBytes.{attributes_room, pairs_room};
ghost use Rattle.mysql_auth.specs.Attributes as spec;

use crate::attribute::{Attribute, has_key};
use crate::merged::read_merged;
use indexmap::IndexMap;
use mysql_wire::{
    AnyWidth, Buffer, BytesRepr, FaultOf, IntRepr, LenEnc, MyDeserialize, MySerialize, ParseBuf,
    Parts, RawBytes, RawInt, Sink, Skip, append_items, items_len, parts,
};
use std::alloc::{AllocError, Global};
use std::borrow::CowSlice;
use std::cmp::min;
use std::fmt;
use std::fmt::Debug;
use std::marker::Model;

/// A client's connection attributes: keys and values, with each key once, in the order of their first occurrence.
///
/// They are encoded as one length-encoded string, whose content is the pairs: the key and the value, each a
/// length-encoded string. A repeated key keeps its first position and takes the last value.
///
/// In a clause it is the list of the pairs.
#[derive(Drop)]
pub(crate) struct Attributes<'a> {
    list: Vec<Attribute<'a>>,
}

impl<'a> Model for Attributes<'a> {
    ghost use Rattle.std.specs.Prelude.{◌≡◌, ℕ, List};
    ghost use Rattle.mysql_auth.specs.Attributes.{merged};

    ghost Value = { List (List ℕ × List ℕ) };

    ghost view = { λ a. a.list.items };

    ghost invariant = { λ a. merged a.list.items ≡ a.list.items };
}

/// The number of pairs that are searched for a key one by one. More pairs go into a map.
const FEW: usize = 16;

/// Reads a few pairs to the end. If there are many, or a key is repeated, all are read again into a map.
#[tactic(auto, using(crate::proofs::PairsRead::new_pairs, crate::proofs::Merging::distinct))]
fn read_few<'s, 'a>(inside: ParseBuf<'a>) -> Result<Attributes<'a>, FaultOf<'s>>
    requires some { inside ≢ [] }
    ensures value { Answers (is_any (pairs_room (length inside.entry))) result [] (spec.pairs.reads inside.entry) }
{
    // A pair takes at least two bytes.
    let capacity = min(FEW, inside.len() / 2);
    let mut list = Vec::with_capacity(inside.alloc(), capacity)?;
    let mut rest = inside.rest();
    while !rest.is_empty() {
        let attribute = Attribute::read(&mut rest)?;
        if list.len() == FEW || has_key(&list, attribute.key.as_bytes()) {
            return read_many(inside);
        }
        list.push(attribute)?;
    }
    Ok(Attributes { list })
}

/// Reads pairs to the end.
fn read_many<'s, 'a>(inside: ParseBuf<'a>) -> Result<Attributes<'a>, FaultOf<'s>>
    ensures value { Answers true result [] (spec.pairs.reads inside.entry) }
{
    let alloc = inside.alloc();
    let merged = read_merged(inside)?;
    let list = merged.into_list(alloc)?;
    Ok(Attributes { list })
}

/// Reads the attributes whose pairs these bytes are.
#[tactic(auto, using(crate::proofs::PairsRead::pair_loops))]
pub(crate) fn read_pairs<'s, 'a>(inside: ParseBuf<'a>) -> Result<Attributes<'a>, FaultOf<'s>>
    ensures value { Answers (is_any (pairs_room (length inside.entry))) result [] (spec.pairs.reads inside.entry) }
{
    if inside.is_empty() {
        return Ok(Attributes {
            list: Vec::new(inside.alloc()),
        });
    }
    read_few(inside)
}

impl<'a> Attributes<'a> {
    /// Creates attributes of these texts.
    #[tactic(auto, using(crate::proofs::Merging::merges))]
    pub(crate) fn from_texts(
        alloc: Global,
        texts: IndexMap<String, String>,
    ) -> Result<Attributes<'static>, AllocError>
        ensures value { IfOk result (λ a. a ≡ map spec.text_pair texts.entries) }
        ensures no_memory { texts.entries ≡ [] → IsOk result }
    {
        let mut list = Vec::with_capacity(alloc, texts.len())?;
        for (key, value) in texts {
            let key = RawBytes::new(CowSlice::Owned(key.into_bytes()));
            let value = RawBytes::new(CowSlice::Owned(value.into_bytes()));
            list.push_reserved(Attribute::new(key, value));
        }
        Ok(Attributes { list })
    }

    /// Each key occurs once.
    pub(crate) fn keys_stand_once(&self)
        ensures value { spec.merged self.now ≡ self.now }
    {
        let _list = &self.list;
    }

    /// Copies the attributes as text, with U+FFFD for invalid UTF-8. If two keys become the same text, it keeps
    /// the first position and takes the later value.
    #[tactic(auto, using(crate::proofs::Merging::merges))]
    pub(crate) fn texts(&self, alloc: Global) -> Result<IndexMap<String, String>, AllocError>
        ensures value { IfOk result (λ texts. map spec.text_pair texts.entries ≡ spec.lossy_pairs self.now) }
        ensures no_memory { self.now ≡ [] → IsOk result }
        ensures once { spec.merged self.now ≡ self.now }
    {
        let mut texts = IndexMap::with_capacity(alloc, self.list.len())?;
        for attribute in self.list.iter() {
            let (key, value) = attribute.texts(alloc)?;
            texts.insert(key, value)?;
        }
        Ok(texts)
    }

    /// Copies keys and values, so that the attributes borrow nothing.
    pub(crate) fn into_owned(self, alloc: Global) -> Result<Attributes<'static>, AllocError>
        ensures value { IfOk result (λ owned. owned ≡ self.entry) }
        ensures no_memory { self.entry ≡ [] → IsOk result }
    {
        let mut list = Vec::with_capacity(alloc, self.list.len())?;
        for attribute in self.list {
            list.push_reserved(attribute.into_owned(alloc)?);
        }
        Ok(Attributes { list })
    }

    /// Writes the pairs to the end of a buffer that has capacity for them.
    fn append_pairs<O: Buffer>(&self, out: &mut O)
        requires { length (O.held out.old) + length (spec.pairs_bytes self.now) ≤ O.capacity out.old }
        ensures items { O.held out.new ≡ O.held out.old ++ spec.pairs_bytes self.now }
        ensures after { O.after out.new ≡ drop (length (spec.pairs_bytes self.now)) (O.after out.old) }
        ensures capacity { O.capacity out.old ≤ O.capacity out.new }
        ensures kept { O.kept out.new ≡ O.kept out.old }
    {
        append_items(self.list.as_slice(), out);
    }

    /// The encoded length of the pairs in bytes, or `usize::MAX` if it is greater.
    fn pairs_len(&self) -> usize
        ensures value { result ≡ saturated (length (spec.pairs_bytes self.now)) }
    {
        items_len(self.list.as_slice())
    }
}

/// Optional attributes as they are written: `None` is an empty list.
#[derive(Drop)]
pub(crate) struct GivenAttributes<'b, 'a>(pub(crate) &'b Option<Attributes<'a>>);

impl<'b, 'a> Model for GivenAttributes<'b, 'a> {
    ghost use Rattle.std.specs.Prelude.{ℕ, List, Option};

    ghost Value = { Option (List (List ℕ × List ℕ)) };

    ghost view = { λ given. given.0.now };
}

#[tactic(auto, using(mysql_wire::proofs::Packets::packets, crate::proofs::PairsWritten::empty_lists), unfolding(crate::specs::Attributes::attributes))]
impl Parts for GivenAttributes<'_, '_> {
    ghost bytes = { λ given. spec.attributes.bytes (unwrap_or given []) };

    #[inline(always)]
    fn put<S: Sink>(&self, sink: &mut S) {
        match self.0 {
            Some(attributes) => sink.part(attributes),
            None => sink.part(&parts!(Skip::<1>)),
        }
    }
}

/// Creates attributes of these texts, if any.
pub(crate) fn attributes_of(
    alloc: Global,
    texts: Option<IndexMap<String, String>>,
) -> Result<Option<Attributes<'static>>, AllocError>
    ensures value { IfOk result (λ a. a ≡ option_map (λ texts. map spec.text_pair texts.entries) texts) }
    ensures no_memory { option_map_or (λ texts. texts.entries) texts [] ≡ [] → IsOk result }
{
    match texts {
        Some(texts) => Ok(Some(Attributes::from_texts(alloc, texts)?)),
        None => Ok(None),
    }
}

impl Clone for Attributes<'_> {
    ghost is_clone = { λ a copy. copy ≡ a };

    ghost is_infallible = { λ a. a ≡ [] };

    fn clone(&self) -> Result<Self, AllocError> {
        // By its contract, cloning a list may fail.
        if self.list.is_empty() {
            return Ok(Attributes {
                list: Vec::new(*self.list.allocator()),
            });
        }
        Ok(Attributes {
            list: self.list.clone()?,
        })
    }
}

impl PartialEq for Attributes<'_> {
    ghost use Rattle.std.specs.Cmp.Lexicographic.{pointwise, lists_per};

    ghost eq = { pointwise spec.attribute_eq };

    ghost laws = { lists_per spec.attribute_per };

    /// Compares the pairs, in order.
    fn eq(&self, other: &Self) -> bool {
        self.list == other.list
    }
}

impl Eq for Attributes<'_> {
    ghost use Rattle.std.specs.Cmp.Lexicographic.{lists_equiv};

    ghost laws = { lists_equiv spec.attribute_equiv };
}

impl Debug for Attributes<'_> {
    fn fmt<W: fmt::Write>(&self, f: &mut fmt::Formatter<W>) -> fmt::Result {
        let mut map = f.debug_map();
        for attribute in self.list.iter() {
            map.entry(&attribute.key, &attribute.value);
        }
        map.finish()
    }
}

impl<'de> MyDeserialize<'de> for Attributes<'de> {
    const SIZE: Option<usize> = None;

    type Size = AnyWidth;

    ghost takes_memory = { λ _ bytes. counts_any (attributes_room.reads bytes) };

    type Ctx = ();

    ghost form = { spec.attributes.form };

    #[tactic(auto, using(mysql_wire::proofs::Packets::packets), unfolding(crate::specs::Attributes::attributes, mysql_wire::specs::LenEnc::lenenc_string))]
    fn deserialize<'s>(_ctx: (), buf: &mut ParseBuf<'de>) -> Result<Self, FaultOf<'s>> {
        let length: RawInt<LenEnc> = buf.parse(())?;
        let inside = buf.parse(length.0 as usize)?;
        read_pairs(inside)
    }

    ghost size_is = { λ _. spec.size-attributes };
}

impl MySerialize for Attributes<'_> {
    ghost bytes = { spec.attributes.bytes };

    #[tactic(auto, using(crate::proofs::PairsWritten::counted_lengths), unfolding(crate::specs::Attributes::attributes))]
    fn defined_len(&self) -> usize {
        let inside = self.pairs_len();
        <LenEnc as IntRepr>::written_len(inside as u64).saturating_add(inside)
    }

    fn append<O: Buffer>(&self, out: &mut O) {
        out.is_in_memory();
        <LenEnc as IntRepr>::append(self.pairs_len() as u64, out);
        self.append_pairs(out);
    }
}
