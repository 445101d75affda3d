//! Borrowed transactions of a server.
#![tactic(auto, using(mysql_wire::proofs::Packets::packets), unfolding(crate::specs::Sid::sid, crate::specs::Sid::tagged_sid))]

ghost use Rattle.std.specs.Prelude.{false, ◌≡◌, [], option_map, IfOk, IsOk, OnErr, ⊤};
ghost use Rattle.mysql_wire.specs.Reading.{Answers};
ghost use Rattle.mysql_repl.specs.Sid as spec;

use crate::intervals_ref::IntervalsRef;
use crate::sid::{Sid, UUID_LEN};
use crate::tag_field::read_tag_ref;
use crate::tag_ref::TagRef;
use mysql_wire::{AnyWidth, Fault, FaultOf, MyDeserialize, ParseBuf};
use std::alloc::{AllocError, Global};
use std::marker::Model;

/// The transactions of one server, or those that have one tag: a [`Sid`] that borrows from the packet, and takes no memory.
///
/// It is read from the same bytes with the same faults except for `Memory`, and in a clause it is that sid.
///
/// ```
/// let request: ComBinlogDumpGtidRef<'_> = ParseBuf::new(alloc, payload).parse(())?;
/// let mut count: u64 = 0;
/// for sid in request.sids() {
///     for interval in sid.intervals() {
///         count = count.saturating_add(interval.end().saturating_sub(interval.start()));
///     }
/// }
/// Ok(count)
/// ```
#[derive(Debug, Drop)]
pub struct SidRef<'a> {
    uuid: [u8; UUID_LEN],
    tag: Option<TagRef<'a>>,
    intervals: IntervalsRef<'a>,
}

impl<'a> Model for SidRef<'a> {
    ghost use Rattle.mysql_repl.specs.declared.sid.Sid.{Sid};

    ghost Value = { Sid };

    ghost view = { λ s. record { uuid = s.uuid; tag = s.tag; intervals = s.intervals } };
}

impl<'a> SidRef<'a> {
    /// The server's identifier.
    #[inline]
    pub fn uuid(&self) -> [u8; UUID_LEN]
        ensures value { result ≡ spec.uuid self.now }
    {
        self.uuid
    }

    /// The tag, if there is one.
    #[inline]
    pub fn tag(&self) -> Option<&TagRef<'a>>
        ensures value { option_map (λ t. t.now) result ≡ spec.tag self.now }
    {
        self.tag.as_ref()
    }

    /// The intervals.
    #[inline]
    pub fn intervals(&self) -> IntervalsRef<'a>
        ensures value { result ≡ spec.intervals self.now }
    {
        self.intervals.iter()
    }

    /// Reads a sid in the form with or without tags. After an error the buffer is unchanged.
    pub fn parse_as(tagged: bool, buf: &mut ParseBuf<'a>) -> Result<Self, Fault>
        ensures value { Answers false result buf.new (((spec.sid_as tagged).form tt).reads buf.old) }
        ensures err { OnErr result (buf.new ≡ buf.old) }
    {
        let mut rest = buf.rest();
        let sid = read_sid_ref(tagged, &mut rest)?;
        *buf = rest;
        Ok(sid)
    }

    /// Converts to a [`Sid`], which still borrows the tag and copies the intervals. Without intervals it takes no memory.
    pub fn to_owned(&self, alloc: Global) -> Result<Sid<'a>, AllocError>
        ensures value { IfOk result (λ sid. sid ≡ self.now) }
        ensures no_memory { spec.intervals self.now ≡ [] → IsOk result }
    {
        let sid = Sid::new(self.uuid).with_intervals(self.intervals.to_owned(alloc)?);
        match &self.tag {
            Some(tag) => Ok(sid.with_tag(tag.to_owned())),
            None => Ok(sid),
        }
    }
}

/// Reads a sid in the form with tags.
fn read_tagged<'s, 'a>(buf: &mut ParseBuf<'a>) -> Result<SidRef<'a>, FaultOf<'s>>
    ensures value { Answers false result buf.new ((spec.tagged_sid.form tt).reads buf.old) }
{
    Ok(SidRef {
        uuid: buf.parse(())?,
        tag: read_tag_ref(buf)?,
        intervals: buf.parse(())?,
    })
}

/// Reads a sid in the form with or without tags.
pub(crate) fn read_sid_ref<'s, 'a>(
    tagged: bool,
    buf: &mut ParseBuf<'a>,
) -> Result<SidRef<'a>, FaultOf<'s>>
    ensures value { Answers false result buf.new (((spec.sid_as tagged).form tt).reads buf.old) }
{
    if tagged {
        read_tagged(buf)
    } else {
        SidRef::deserialize((), buf)
    }
}

impl Clone for SidRef<'_> {
    ghost is_clone = { λ p copy. copy ≡ p };

    ghost is_infallible = { λ _. ⊤ };

    fn clone(&self) -> Result<Self, AllocError> {
        let tag = match &self.tag {
            Some(tag) => Some(tag.clone()?),
            None => None,
        };
        Ok(SidRef {
            uuid: self.uuid,
            tag,
            intervals: self.intervals.iter(),
        })
    }
}

impl PartialEq for SidRef<'_> {
    ghost use Rattle.mysql_repl.specs.contracts.sid.SidPartialEq.TheImpl.Laws.{laws-law};

    ghost eq = { ⟦<Sid<'static> as PartialEq>⟧.eq };

    ghost laws = { laws-law };

    fn eq(&self, other: &Self) -> bool {
        self.uuid == other.uuid && self.tag == other.tag && self.intervals == other.intervals
    }
}

impl Eq for SidRef<'_> {
    ghost use Rattle.mysql_repl.specs.contracts.sid.SidEq.TheImpl.Laws.{laws-law};

    ghost laws = { laws-law };
}

/// Read like a [`Sid`], in the form without tags, but never `Memory`.
impl<'de> MyDeserialize<'de> for SidRef<'de> {
    const SIZE: Option<usize> = None;

    type Size = AnyWidth;

    type Ctx = ();

    ghost form = { spec.sid.form };

    fn deserialize<'s>(_ctx: (), buf: &mut ParseBuf<'de>) -> Result<Self, FaultOf<'s>> {
        Ok(SidRef {
            uuid: buf.parse(())?,
            tag: None,
            intervals: buf.parse(())?,
        })
    }

    ghost size_is = { λ _. spec.size-sid };
}
