//! The attributes of a connection.
#![tactic(auto, using(crate::proofs::Codes::codes))]

ghost use Rattle.std.specs.Prelude.{[], ◌≡◌, ◌≢◌, ◌+◌, ◌<◌, ◌≤◌, length, option_map};
ghost use Rattle.std.specs.Str.{is_utf8};
ghost use Rattle.mysql_auth.specs.Attributes.{attribute, pairs_bytes};
ghost use Rattle.mysql_wire.specs.Writing.{saturated};
ghost use Rattle.mysql_packets_c.specs.Appends.{Appends};
ghost use Rattle.mysql_packets_c.specs.Input.{IsRestOf};
ghost use Rattle.mysql_packets_c.specs.Attributes as given;
ghost use Rattle.mysql_packets_c.specs.Attributes.{NextInto};

use crate::code::{END, OK, code_of};
use crate::input::read_front;
use crate::text::CBytes;
use mysql_auth::ConnectAttributeRef;
use mysql_wire::{Buffer, IntRepr, LenEnc, MySerialize, Parts, RawBytes, Sink, parts};
use std::alloc::Global;
use std::borrow::CowSlice;

/// Takes the next attribute off the front; returns 7 if none is left. After any other code, all outputs are unchanged.
#[unsafe(no_mangle)]
pub extern "C" fn myp_next_connection_attribute<'a>(
    alloc: Global,
    rest: &mut CBytes<'a>,
    name: &mut CBytes<'a>,
    value: &mut CBytes<'a>,
) -> u32
    ensures end { rest.old.bytes.now ≡ [] → (result ≡ 7) × (rest.new ≡ rest.old) × (name.new ≡ name.old) × (value.new ≡ value.old) }
    ensures value { rest.old.bytes.now ≢ [] → NextInto ((attribute.form tt).reads rest.old.bytes.now) result rest.old rest.new name.old name.new value.old value.new }
    ensures place { IsRestOf rest.new rest.old }
{
    if rest.bytes.is_empty() {
        return END;
    }
    match read_front::<ConnectAttributeRef<'a>>(alloc, rest.bytes, ()) {
        Ok((pair, after)) => {
            name.bytes = pair.key();
            value.bytes = pair.value();
            rest.move_to(&after);
            OK
        }
        Err(fault) => code_of(&fault),
    }
}

/// `myp_connection_attribute` of the C header.
#[repr(C)]
#[derive(Clone, Copy, Drop)]
pub struct CAttribute<'a> {
    pub name: &'a [u8],
    pub value: &'a [u8],
}

#[tactic(auto, using(crate::proofs::MergedNames::texts))]
fn is_text(bytes: &[u8]) -> bool
    ensures { result ≡ is_utf8 bytes.now }
{
    str::from_utf8(bytes).is_ok()
}

/// Whether all names and values are UTF-8.
pub(crate) fn are_texts(attributes: &[CAttribute<'_>]) -> bool
    ensures { result ≡ given.are_texts attributes.now }
{
    attributes.iter().all(|attribute| is_text(attribute.name) && is_text(attribute.value))
}

/// An attribute, as it is written: the name and the value, each length-encoded.
#[derive(Drop)]
struct WrittenPair<'a>(CAttribute<'a>);

#[tactic(auto, using(mysql_wire::proofs::Packets::packets), unfolding(mysql_auth::specs::Attributes::attribute))]
impl Parts for WrittenPair<'_> {
    ghost use Rattle.mysql_auth.specs.Attributes.{attribute};
    ghost use Rattle.mysql_packets_c.specs.Attributes.{pair_of};

    ghost bytes = { λ p. attribute.bytes (pair_of p.0) };

    #[inline(always)]
    fn put<S: Sink>(&self, sink: &mut S) {
        let name = RawBytes::<LenEnc>::new(CowSlice::Borrowed(self.0.name));
        let value = RawBytes::<LenEnc>::new(CowSlice::Borrowed(self.0.value));
        sink.part(&parts!(name, value));
    }
}

/// Whether one of the attributes has this name.
fn has_name(attributes: &[CAttribute<'_>], name: &[u8]) -> bool
    ensures { result ≡ given.has_name name.now attributes.now }
{
    attributes.iter().any(|attribute| name == attribute.name)
}

/// Returns the last value of an attribute's name among this attribute and the following ones.
#[tactic(auto, using(crate::proofs::MergedNames::last_values))]
fn last_of<'a>(attributes: &[CAttribute<'a>], first: &CAttribute<'a>) -> &'a [u8]
    ensures { result.now ≡ given.last_of first.now.name.now first.now.value.now (given.pairs_of attributes.now) }
{
    let mut value = first.value;
    for attribute in attributes {
        if attribute.name == first.name {
            value = attribute.value;
        }
    }
    value
}

/// Returns the attribute at this position with its last value, unless an earlier one has the same name.
fn first_at<'a>(attributes: &[CAttribute<'a>], place: usize) -> Option<CAttribute<'a>>
    requires { place < length attributes.now }
    ensures { given.firsts_from place attributes.now ≡ given.with_pair (option_map given.pair_of result) (given.firsts_from (place + 1) attributes.now) }
{
    let attribute = &attributes[place];
    if has_name(&attributes[..place], attribute.name) {
        return None;
    }
    let value = last_of(&attributes[place + 1..], attribute);
    Some(CAttribute {
        name: attribute.name,
        value,
    })
}

/// The encoded length of the pairs, or `usize::MAX` if it is greater. If a name is repeated, the last value
/// counts, at the position of the first.
fn pairs_len(attributes: &[CAttribute<'_>]) -> usize
    ensures { result ≡ saturated (length (pairs_bytes (given.merged_pairs attributes.now))) }
{
    let mut total: usize = 0;
    for place in 0..attributes.len() {
        if let Some(pair) = first_at(attributes, place) {
            total = total.saturating_add(WrittenPair(pair).defined_len());
        }
    }
    total
}

/// Writes the pairs to the end of a buffer that has capacity for them.
fn append_pairs<O: Buffer>(attributes: &[CAttribute<'_>], out: &mut O)
    requires { length (O.held out.old) + length (pairs_bytes (given.merged_pairs attributes.now)) ≤ O.capacity out.old }
    ensures { Appends O.held O.after O.capacity O.kept (pairs_bytes (given.merged_pairs attributes.now)) out.old out.new }
{
    for place in 0..attributes.len() {
        if let Some(pair) = first_at(attributes, place) {
            WrittenPair(pair).append(out);
        }
    }
}

/// The attributes, as they are written: the length of all pairs, length-encoded, then the pairs.
#[derive(Drop)]
pub(crate) struct WrittenAttributes<'b, 'a>(pub(crate) &'b [CAttribute<'a>]);

impl MySerialize for WrittenAttributes<'_, '_> {
    ghost use Rattle.mysql_auth.specs.Attributes.{attributes};
    ghost use Rattle.mysql_packets_c.specs.Attributes.{merged_pairs};

    ghost bytes = { λ a. attributes.bytes (merged_pairs a.0.now) };

    #[tactic(auto, using(mysql_auth::proofs::PairsWritten::counted_lengths), unfolding(mysql_auth::specs::Attributes::attributes))]
    fn defined_len(&self) -> usize {
        let inside = pairs_len(self.0);
        <LenEnc as IntRepr>::written_len(inside as u64).saturating_add(inside)
    }

    fn append<O: Buffer>(&self, out: &mut O) {
        out.is_in_memory();
        <LenEnc as IntRepr>::append(pairs_len(self.0) as u64, out);
        append_pairs(self.0, out);
    }
}
