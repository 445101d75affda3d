//! Borrowed sids of a dump.
#![tactic(auto, using(mysql_wire::proofs::Packets::packets))]

ghost use Rattle.std.specs.Prelude.{false, [], ◌≡◌, length, option_map, IfOk, IsOk, ⊤};
ghost use Rattle.std.specs.Cmp.Lexicographic.{pointwise};
ghost use Rattle.mysql_wire.specs.Reading.{Answers};
ghost use Rattle.mysql_wire.specs.Seq.{counted};
ghost use Rattle.mysql_repl.specs.InPlace.{NextItem, StandIn, joined, passed};
ghost use Rattle.mysql_repl.specs.Sid.{sid_as};
ghost use Rattle.mysql_repl.specs.SidBlock as block;

use crate::sid::Sid;
use crate::sid_block::{count_of, layout};
use crate::sid_ref::{SidRef, read_sid_ref};
use mysql_wire::{BytesRepr, FaultOf, LeU64, ParseBuf, RawInt, U32Bytes};
use std::alloc::{AllocError, Global};
use std::fmt;
use std::fmt::Debug;
use std::marker::Model;

/// The sids of a dump, borrowed from the packet: the list of
/// [`ComBinlogDumpGtid::sids`](crate::ComBinlogDumpGtid::sids). It takes no memory.
///
/// An iterator over the sids. All of them are read when it is created, so none of them fails later. In a clause
/// it is the list of the remaining sids.
///
/// ```
/// let request: ComBinlogDumpGtidRef<'_> = ParseBuf::new(alloc, payload).parse(())?;
/// let mut count: u64 = 0;
/// for sid in request.sids() {
/// for interval in sid.intervals() {
///     count = count.saturating_add(interval.end().saturating_sub(interval.start()));
/// }
/// }
/// Ok(count)
/// ```
#[derive(Drop)]
pub struct SidsRef<'a> {
    tagged: bool,
    count: u64,
    /// The length in bytes.
    len: usize,
    /// The bytes of the sids, and the bytes after them.
    bytes: ParseBuf<'a>,
}

impl<'a> Model for SidsRef<'a> {
    ghost use Rattle.std.specs.Prelude.{List};
    ghost use Rattle.mysql_repl.specs.declared.sid.Sid.{Sid};
    ghost use Rattle.mysql_repl.specs.InPlace.{AreThere, items_in};
    ghost use Rattle.mysql_repl.specs.Sid.{sid_as};

    ghost Value = { List Sid };

    ghost view = { λ p. items_in ((sid_as p.tagged).form tt) p.count p.bytes };

    ghost invariant = { λ p. AreThere ((sid_as p.tagged).form tt) p.count p.len p.bytes };
}

/// Skips `count` sids.
fn skip_sids<'s>(tagged: bool, count: u64, buf: &mut ParseBuf<'_>) -> Result<(), FaultOf<'s>>
    ensures value { Answers false result buf.new (passed ((counted count ((sid_as tagged).form tt)).reads buf.old)) }
{
    for _ in 0..count {
        let _sid = read_sid_ref(tagged, buf)?;
    }
    Ok(())
}

/// Reads `count` sids.
#[tactic(auto, using(crate::proofs::InPlace::places))]
fn read_counted<'s, 'a>(
    tagged: bool,
    count: u64,
    buf: &mut ParseBuf<'a>,
) -> Result<SidsRef<'a>, FaultOf<'s>>
    ensures value { Answers false result buf.new ((counted count ((sid_as tagged).form tt)).reads buf.old) }
{
    let bytes = buf.rest();
    skip_sids(tagged, count, buf)?;
    let len = bytes.len().saturating_sub(buf.len());
    Ok(SidsRef {
        tagged,
        count,
        len,
        bytes,
    })
}

/// Reads the head, and this number of sids.
#[tactic(auto, using(mysql_wire::proofs::Packets::packets), unfolding(crate::specs::SidBlock::sids_form))]
fn read_sids<'s, 'a>(buf: &mut ParseBuf<'a>) -> Result<SidsRef<'a>, FaultOf<'s>>
    ensures value { Answers false result buf.new ((block.sids_form false).reads buf.old) }
{
    let head: RawInt<LeU64> = buf.parse(())?;
    read_counted(layout(head.0) == 1, count_of(head.0), buf)
}

/// Reads a block after its length. Bytes after the last sid are ignored.
#[tactic(auto, using(mysql_wire::proofs::Packets::packets), unfolding(crate::specs::SidBlock::block_form))]
pub(crate) fn read_block_ref<'s, 'a>(buf: &mut ParseBuf<'a>) -> Result<SidsRef<'a>, FaultOf<'s>>
    ensures value { Answers false result buf.new ((block.block_form false).reads buf.old) }
{
    let mut inside = <U32Bytes as BytesRepr>::deserialize((), buf)?;
    let sids = read_sids(&mut inside)?;
    Ok(sids)
}

/// Returns the first sid and the others, if one is left.
#[tactic(auto, using(crate::proofs::InPlace::one_by_one))]
fn first_and_others<'a>(sids: &SidsRef<'a>) -> Option<(SidRef<'a>, SidsRef<'a>)>
    ensures value { sids.now ≡ joined (option_map (λ p. (p.0, p.1)) result) }
{
    if sids.count == 0 {
        return None;
    }
    let mut bytes = sids.bytes.rest();
    let first = read_sid_ref(sids.tagged, &mut bytes).ok()?;
    let taken = sids.bytes.len().saturating_sub(bytes.len());
    let others = SidsRef {
        tagged: sids.tagged,
        count: sids.count - 1,
        len: sids.len.saturating_sub(taken),
        bytes,
    };
    Some((first, others))
}

impl<'a> SidsRef<'a> {
    /// The number of remaining sids.
    #[inline]
    #[tactic(auto, using(crate::proofs::InPlace::how_many))]
    pub fn left(&self) -> u64
        ensures value { result ≡ length self.now }
    {
        self.count
    }

    /// The bytes of the remaining sids, without their head, and whether they are in the form with tags. Without
    /// sids the form is the one without tags.
    #[inline]
    #[tactic(auto, using(mysql_wire::proofs::Packets::packets, crate::proofs::InPlace::standing))]
    pub fn as_bytes(&self) -> (&'a [u8], bool)
        ensures value { StandIn ((sid_as result.1).form tt) (length self.now) result.0.now self.now }
        ensures none { self.now ≡ [] → result.1 ≡ false }
    {
        if self.count == 0 {
            return (&[], false);
        }
        let mut bytes = self.bytes.rest();
        (bytes.eat(self.len), self.tagged)
    }

    /// Returns an iterator over the remaining sids.
    #[inline]
    pub fn iter(&self) -> SidsRef<'a>
        ensures value { result ≡ self.now }
    {
        SidsRef {
            tagged: self.tagged,
            count: self.count,
            len: self.len,
            bytes: self.bytes.rest(),
        }
    }

    /// Converts to a list of [`Sid`](crate::Sid)s, which still borrow the tags. Without sids it takes no memory.
    pub fn to_owned(&self, alloc: Global) -> Result<Vec<Sid<'a>>, AllocError>
        ensures value { IfOk result (λ sids. sids.items ≡ self.now) }
        ensures no_memory { self.now ≡ [] → IsOk result }
    {
        let mut sids = Vec::with_capacity(alloc, self.left() as usize)?;
        for sid in self.iter() {
            sids.push(sid.to_owned(alloc)?)?;
        }
        Ok(sids)
    }
}

/// Whether both yield the same sids, in the same order.
fn give_the_same(one: &SidsRef<'_>, other: &SidsRef<'_>) -> bool
    ensures value { result ≡ pointwise ⟦<Sid<'static> as PartialEq>⟧.eq one.now other.now }
{
    let mut others = other.iter();
    for sid in one.iter() {
        match others.next() {
            Some(other) => {
                if sid != other {
                    return false;
                }
            }
            None => return false,
        }
    }
    others.next().is_none()
}

impl Clone for SidsRef<'_> {
    ghost is_clone = { λ p copy. copy ≡ p };

    ghost is_infallible = { λ _. ⊤ };

    fn clone(&self) -> Result<Self, AllocError> {
        Ok(self.iter())
    }
}

/// Compares the sids, in order, whichever form they are in.
impl PartialEq for SidsRef<'_> {
    ghost use Rattle.std.specs.Cmp.Lexicographic.{lists_per, pointwise};
    ghost use Rattle.mysql_repl.specs.contracts.sid.SidPartialEq.TheImpl.Laws.{laws-law};

    ghost eq = { pointwise ⟦<Sid<'static> as PartialEq>⟧.eq };

    ghost laws = { lists_per laws-law };

    fn eq(&self, other: &Self) -> bool {
        give_the_same(self, other)
    }
}

impl Eq for SidsRef<'_> {
    ghost use Rattle.std.specs.Cmp.Lexicographic.{lists_equiv};
    ghost use Rattle.mysql_repl.specs.contracts.sid.SidEq.TheImpl.Laws.{laws-law};

    ghost laws = { lists_equiv laws-law };
}

impl Debug for SidsRef<'_> {
    fn fmt<W: fmt::Write>(&self, f: &mut fmt::Formatter<W>) -> fmt::Result {
        let mut list = f.debug_list();
        for sid in self.iter() {
            list.entry(&sid);
        }
        list.finish()
    }
}

impl<'a> Iterator for SidsRef<'a> {
    type Item = SidRef<'a>;

    ghost use Rattle.std.specs.Prelude.{length, ⊤};
    ghost use Rattle.std.specs.Iterator.{at_most};

    ghost can_next = { λ _. ⊤ };

    ghost next_gives = { NextItem };

    ghost remaining = { λ left. at_most (length left) };

    fn next(&mut self) -> Option<SidRef<'a>> {
        let (first, others) = first_and_others(self)?;
        *self = others;
        Some(first)
    }
}
