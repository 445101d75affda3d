//! A server's transactions.
#![tactic(auto, using(mysql_wire::proofs::Packets::packets), unfolding(crate::specs::Sid::sid, crate::specs::Sid::tagged_sid))]

ghost use Rattle.std.specs.Prelude.{false, true, ◌≡◌, IfOk, option_map, Option, List, ℕ};
ghost use Rattle.mysql_wire.specs.Reading.{Answers};
ghost use Rattle.mysql_wire.specs.Seq.{counts_any};
ghost use Rattle.mysql_repl.specs.Space.{space_in_sid};
ghost use Rattle.mysql_repl.specs.Sid as spec;
ghost use Rattle.mysql_repl.specs.TagString.{OptionalTag};

use crate::gno_interval::GnoInterval;
use crate::id::Id;
use crate::intervals::{Intervals, read_intervals};
use crate::tag::Tag;
use crate::tag_field::{read_tag, tag_bytes};
use mysql_wire::{
    AnyWidth, FaultOf, LeU64, MyDeserialize, ParseBuf, Parts, RawBytes, Seq, Sink, VarLen, parts,
};
use std::alloc::{AllocError, Global};
use std::borrow::CowSlice;

/// The length of a server's identifier in bytes.
pub const UUID_LEN: usize = 16;

/// The transactions of one server, or those with one tag: a part of a GTID set.
///
/// Its own reader and writer use the form without tags, which drops the tag: the identifier's 16 bytes, a count
/// of eight bytes, and this number of intervals of 16 bytes each. Missing bytes are `UnexpectedEof`. Reading
/// takes memory only for the intervals. The packet [`ComBinlogDumpGtid`](crate::ComBinlogDumpGtid) has the form
/// with tags.
///
/// ```
/// let merged = sid.normalized(alloc)?;
/// merged_intervals_are_as_servers_write();
/// Ok(merged)
/// ```
#[derive(Debug, PartialEq, Eq, Hash)]
pub struct Sid<'a> {
    uuid: [u8; UUID_LEN],
    tag: Option<Tag<'a>>,
    intervals: Seq<'a, GnoInterval, LeU64>,
}

impl Drop for Sid<'_> {
    #[inline(always)]
    fn drop(self) {
        let Sid {
            uuid: _,
            tag: _,
            intervals: _,
        } = self;
    }
}

impl<'a> Sid<'a> {
    /// Creates a sid of the server with this identifier, without a tag and without intervals.
    pub fn new(uuid: [u8; UUID_LEN]) -> Self
        ensures value { result ≡ spec.new_sid uuid }
    {
        Sid {
            uuid,
            tag: None,
            intervals: Seq::default(),
        }
    }

    /// The server's identifier.
    #[inline]
    pub fn uuid(&self) -> [u8; UUID_LEN]
        ensures value { result ≡ spec.uuid self.now }
    {
        self.uuid
    }

    /// The tag, if there is one.
    #[inline]
    pub fn tag(&self) -> Option<&Tag<'a>>
        ensures value { option_map (λ t. t.now) result ≡ spec.tag self.now }
        ensures tag { OptionalTag (spec.tag self.now) }
    {
        match &self.tag {
            Some(tag) => {
                // The text is a valid tag.
                let _text = tag.as_str();
                Some(tag)
            }
            None => None,
        }
    }

    /// The intervals.
    #[inline]
    pub fn intervals(&self) -> &[GnoInterval]
        ensures value { result.now ≡ spec.intervals self.now }
    {
        self.intervals.as_slice()
    }

    /// Appends an interval. Borrowed intervals are copied first. If an allocation fails, the sid is dropped.
    pub fn with_interval(mut self, alloc: Global, interval: GnoInterval) -> Result<Self, AllocError>
        ensures value { IfOk result (λ s. s ≡ spec.with_interval interval self.entry) }
    {
        self.intervals.push(alloc, interval)?;
        Ok(self)
    }

    /// Replaces the intervals.
    pub fn with_intervals(mut self, intervals: Vec<GnoInterval>) -> Self
        ensures value { result ≡ spec.with_intervals intervals.items self.entry }
    {
        self.intervals = Seq::owned(intervals);
        self
    }

    /// Sets the tag.
    ///
    /// A packet in which any sid has a tag is written in the form with tags.
    pub fn with_tag(mut self, tag: Tag<'a>) -> Self
        ensures value { result ≡ spec.with_tag tag.entry self.entry }
    {
        self.tag = Some(tag);
        self
    }
}

impl Clone for Sid<'_> {
    ghost is_clone = { λ s copy. copy ≡ s };

    fn clone(&self) -> Result<Self, AllocError> {
        let tag = match &self.tag {
            Some(tag) => Some(tag.clone()?),
            None => None,
        };
        Ok(Sid {
            uuid: self.uuid,
            tag,
            intervals: self.intervals.clone()?,
        })
    }
}

impl<'de> MyDeserialize<'de> for Sid<'de> {
    const SIZE: Option<usize> = None;

    type Size = AnyWidth;

    ghost takes_memory = { λ _ bytes. counts_any ((space_in_sid false).reads bytes) };

    type Ctx = ();

    ghost form = { spec.sid.form };

    #[inline(always)]
    #[tactic(auto, using(mysql_wire::proofs::Packets::packets, crate::proofs::Ids::ids), unfolding(crate::specs::Sid::sid))]
    fn deserialize<'s>(_ctx: (), buf: &mut ParseBuf<'de>) -> Result<Self, FaultOf<'s>> {
        let mut rest = buf.rest();
        if rest.len() < UUID_LEN {
            return Err(FaultOf::UnexpectedEof);
        }
        let uuid = rest.eat_array();
        let intervals = read_intervals(&mut rest)?;
        *buf = rest;
        Ok(Sid {
            uuid,
            tag: None,
            intervals,
        })
    }

    ghost size_is = { λ _. spec.size-sid };
}

impl Parts for Sid<'_> {
    ghost bytes = { spec.sid.bytes };

    #[inline(always)]
    fn put<S: Sink>(&self, sink: &mut S) {
        sink.part(&parts!(Id(self.uuid), Intervals(self.intervals())));
    }
}

/// Reads a sid in the form with tags.
fn read_tagged<'s, 'de>(buf: &mut ParseBuf<'de>) -> Result<Sid<'de>, FaultOf<'s>>
    ensures value { Answers (counts_any ((space_in_sid true).reads buf.old)) result buf.new ((spec.tagged_sid.form tt).reads buf.old) }
{
    Ok(Sid {
        uuid: buf.parse(())?,
        tag: read_tag(buf)?,
        intervals: read_intervals(buf)?,
    })
}

/// Reads a sid in the form with or without tags.
#[inline(always)]
pub(crate) fn read_sid<'s, 'de>(
    tagged: bool,
    buf: &mut ParseBuf<'de>,
) -> Result<Sid<'de>, FaultOf<'s>>
    ensures value { Answers (counts_any ((space_in_sid tagged).reads buf.old)) result buf.new (((spec.sid_as tagged).form tt).reads buf.old) }
{
    if tagged {
        read_tagged(buf)
    } else {
        Sid::deserialize((), buf)
    }
}

/// A sid that is written in the form with or without tags.
#[derive(Drop)]
pub(crate) struct SidAs<'b, 'a> {
    pub(crate) tagged: bool,
    pub(crate) sid: &'b Sid<'a>,
}

impl Parts for SidAs<'_, '_> {
    ghost bytes = { λ s. (spec.sid_as s.tagged).bytes s.sid.now };

    #[inline(always)]
    fn put<S: Sink>(&self, sink: &mut S) {
        let sid = self.sid;
        if self.tagged {
            let tag = tag_bytes(&sid.tag);
            let tag: RawBytes<'_, VarLen> = RawBytes::new(CowSlice::Borrowed(tag));
            sink.part(&parts!(Id(sid.uuid), tag, Intervals(sid.intervals())));
        } else {
            sink.part(sid);
        }
    }
}
