//! The sids of a dump by GTID set.
#![tactic(auto, using(mysql_wire::proofs::Packets::packets))]

ghost use Rattle.std.specs.Prelude.{false, true, ◌≡◌, ◌+◌, ◌/◌, ◌++◌, ◌<◌, ◌≤◌, length, min, drop, OnErr, List, ℕ};
ghost use Rattle.std.specs.List.{flat_map};
ghost use Rattle.mysql_wire.specs.Reading.{Answers, IsTail};
ghost use Rattle.mysql_wire.specs.Seq.{items_of, counted, counts_any, is_any};
ghost use Rattle.mysql_wire.specs.Writing.{saturated};
ghost use Rattle.mysql_repl.specs.Space.{least_len, space_in_sids, space_in_block};
ghost use Rattle.mysql_repl.specs.Sid.{sid_as};
ghost use Rattle.mysql_repl.specs.SidBlock as spec;

use crate::sid::{Sid, SidAs, read_sid};
use mysql_wire::{
    Buffer, BytesRepr, FaultOf, LeU32, LeU64, MySerialize, ParseBuf, RawInt, Seq, U32Bytes,
};
use std::cmp::min;

/// Returns the layout from the head: its top byte.
pub(crate) fn layout(head: u64) -> u64
    ensures value { result ≡ spec.layout head }
{
    head >> 56
}

/// Returns the number of sids from the head.
pub(crate) fn count_of(head: u64) -> u64
    ensures value { result ≡ spec.count_of head }
{
    if layout(head) == 1 {
        (head >> 8) % (1 << 48)
    } else {
        head % (1 << 56)
    }
}

/// The minimum length of a sid in bytes: its identifier, the length of its tag if it has one, and its count.
fn least_len(tagged: bool) -> usize
    ensures value { result ≡ least_len tagged }
    ensures some { 0 < result }
{
    if tagged { 25 } else { 24 }
}

/// Reads `count` sids, in the form with or without tags. It reserves memory for at most as many as the bytes can hold.
#[inline(always)]
fn read_counted<'s, 'de>(
    tagged: bool,
    count: u64,
    block: &mut ParseBuf<'de>,
) -> Result<Vec<Sid<'de>>, FaultOf<'s>>
    ensures value { Answers (is_any (min count (length block.old / least_len tagged))) (items_of result) block.new ((counted count ((sid_as tagged).form tt)).reads block.old) }
{
    let capacity = min(count as usize, block.len() / least_len(tagged));
    let mut sids = Vec::with_capacity(block.alloc(), capacity)?;
    for _ in 0..count {
        let sid = read_sid(tagged, block)?;
        sids.push(sid)?;
    }
    Ok(sids)
}

/// Reads `count` sids in the form with tags. It isn't inlined, so that it costs the other form nothing.
#[inline(never)]
fn read_tagged<'s, 'de>(count: u64, block: &mut ParseBuf<'de>) -> Result<Vec<Sid<'de>>, FaultOf<'s>>
    ensures value { Answers (is_any (min count (length block.old / least_len true))) (items_of result) block.new ((counted count ((sid_as true).form tt)).reads block.old) }
{
    read_counted(true, count, block)
}

/// Reads the head, and this number of sids. A strict reader accepts only the layouts 0 and 1.
#[tactic(auto, using(mysql_wire::proofs::Packets::packets), unfolding(crate::specs::SidBlock::sids_form))]
fn read_sids<'s, 'de>(strict: bool, block: &mut ParseBuf<'de>) -> Result<Vec<Sid<'de>>, FaultOf<'s>>
    ensures value { Answers (counts_any ((space_in_sids strict).reads block.old)) (items_of result) block.new ((spec.sids_form strict).reads block.old) }
{
    let head: RawInt<LeU64> = block.parse(())?;
    let head = head.0;
    if strict && layout(head) > 1 {
        return Err(FaultOf::InvalidData("Unknown sid block format"));
    }
    let count = count_of(head);
    if layout(head) == 1 {
        read_tagged(count, block)
    } else {
        read_counted(false, count, block)
    }
}

/// Reads a block after its length, strictly: no bytes may follow the last sid.
#[tactic(auto, using(mysql_wire::proofs::Packets::packets), unfolding(crate::specs::SidBlock::block_form))]
fn read_whole_block<'s, 'de>(
    buf: &mut ParseBuf<'de>,
) -> Result<Seq<'de, Sid<'de>, LeU64>, FaultOf<'s>>
    ensures value { Answers (counts_any ((space_in_block true).reads buf.old)) result buf.new ((spec.block_form true).reads buf.old) }
{
    let mut block = <U32Bytes as BytesRepr>::deserialize((), buf)?;
    let sids = read_sids(true, &mut block)?;
    if !block.is_empty() {
        return Err(FaultOf::InvalidData("Bytes behind the last sid"));
    }
    Ok(Seq::owned(sids))
}

/// Reads a block after its length. Bytes after the last sid are ignored.
#[tactic(auto, using(mysql_wire::proofs::Packets::packets), unfolding(crate::specs::SidBlock::block_form))]
fn read_lenient_block<'s, 'de>(
    buf: &mut ParseBuf<'de>,
) -> Result<Seq<'de, Sid<'de>, LeU64>, FaultOf<'s>>
    ensures value { Answers (counts_any ((space_in_block false).reads buf.old)) result buf.new ((spec.block_form false).reads buf.old) }
{
    let mut block = <U32Bytes as BytesRepr>::deserialize((), buf)?;
    let sids = read_sids(false, &mut block)?;
    Ok(Seq::owned(sids))
}

/// Reads a block after its length, strictly or not.
pub(crate) fn read_block<'s, 'de>(
    strict: bool,
    buf: &mut ParseBuf<'de>,
) -> Result<Seq<'de, Sid<'de>, LeU64>, FaultOf<'s>>
    ensures value { Answers (counts_any ((space_in_block strict).reads buf.old)) result buf.new ((spec.block_form strict).reads buf.old) }
{
    if strict {
        read_whole_block(buf)
    } else {
        read_lenient_block(buf)
    }
}

/// The sids of a dump, as they are written: all in the form with tags if any sid has one.
#[derive(Drop)]
pub(crate) struct SidBlock<'b, 'a>(pub(crate) &'b [Sid<'a>]);

impl<'a> SidBlock<'_, 'a> {
    /// Whether any sid has a tag.
    #[tactic(auto, unfolding(crate::specs::SidBlock::any_tag))]
    fn any_tag(&self) -> bool
        ensures value { result ≡ spec.any_tag self.now.0.now }
    {
        self.0.iter().any(|sid| sid.tag().is_some())
    }

    /// The head before the sids.
    #[tactic(auto, unfolding(crate::specs::SidBlock::head_for))]
    fn head(&self, tagged: bool) -> RawInt<LeU64>
        ensures value { result.0 ≡ spec.head_for tagged (length self.now.0.now) }
    {
        let count = self.0.len() as u64;
        if tagged {
            RawInt::new((1 << 56) + (1 << 8) * (count % (1 << 48)))
        } else {
            RawInt::new(count % (1 << 56))
        }
    }

    /// The encoded length of the sids in bytes, or `usize::MAX` if it is greater.
    #[tactic(auto, unfolding(mysql_wire::specs::Writing::saturated))]
    fn sids_len(&self, tagged: bool) -> usize
        ensures value { result ≡ saturated (length (flat_map (sid_as tagged).bytes self.now.0.now)) }
    {
        let mut total: usize = 0;
        for sid in self.0 {
            let len = SidAs { tagged, sid }.defined_len();
            total = total.saturating_add(len);
        }
        total
    }

    /// The encoded length of the head and the sids in bytes, or `usize::MAX` if it is greater.
    #[tactic(auto, using(mysql_wire::specs::Writing::lengths), unfolding(crate::specs::SidBlock::content, mysql_wire::specs::Writing::le_bytes, mysql_wire::specs::Writing::saturated))]
    fn content_len(&self, tagged: bool) -> usize
        requires { tagged ≡ spec.any_tag self.now.0.now }
        ensures value { result ≡ saturated (length (spec.content self.now.0.now)) }
    {
        self.sids_len(tagged).saturating_add(8)
    }

    /// Writes the sids to a buffer that has capacity for them. Sids with tags are written by a call, for which
    /// the buffer is moved: the arguments of a call do not stay in registers.
    #[inline(always)]
    fn append_sids<O: Buffer>(&self, tagged: bool, out: &mut O)
        requires { length (O.held out.old) + length (flat_map (sid_as tagged).bytes self.now.0.now) ≤ O.capacity out.old }
        ensures items { O.held out.new ≡ O.held out.old ++ flat_map (sid_as tagged).bytes self.now.0.now }
        ensures after { O.after out.new ≡ drop (length (flat_map (sid_as tagged).bytes self.now.0.now)) (O.after out.old) }
        ensures capacity { O.capacity out.old ≤ O.capacity out.new }
        ensures kept { O.kept out.new ≡ O.kept out.old }
    {
        if tagged {
            let mut moved = out.taken();
            self.append_apart(tagged, &mut moved);
            *out = moved;
        } else {
            self.append_each(tagged, out);
        }
    }

    #[inline(never)]
    fn append_apart<O: Buffer>(&self, tagged: bool, out: &mut O)
        requires { length (O.held out.old) + length (flat_map (sid_as tagged).bytes self.now.0.now) ≤ O.capacity out.old }
        ensures items { O.held out.new ≡ O.held out.old ++ flat_map (sid_as tagged).bytes self.now.0.now }
        ensures after { O.after out.new ≡ drop (length (flat_map (sid_as tagged).bytes self.now.0.now)) (O.after out.old) }
        ensures capacity { O.capacity out.old ≤ O.capacity out.new }
        ensures kept { O.kept out.new ≡ O.kept out.old }
    {
        self.append_each(tagged, out);
    }

    #[inline(always)]
    #[tactic(auto, using(mysql_wire::proofs::After::after))]
    fn append_each<O: Buffer>(&self, tagged: bool, out: &mut O)
        requires { length (O.held out.old) + length (flat_map (sid_as tagged).bytes self.now.0.now) ≤ O.capacity out.old }
        ensures items { O.held out.new ≡ O.held out.old ++ flat_map (sid_as tagged).bytes self.now.0.now }
        ensures after { O.after out.new ≡ drop (length (flat_map (sid_as tagged).bytes self.now.0.now)) (O.after out.old) }
        ensures capacity { O.capacity out.old ≤ O.capacity out.new }
        ensures kept { O.kept out.new ≡ O.kept out.old }
    {
        for sid in self.0 {
            SidAs { tagged, sid }.append(out);
        }
    }
}

impl MySerialize for SidBlock<'_, '_> {
    ghost bytes = { λ b. spec.block_bytes b.0.now };

    #[inline(always)]
    #[tactic(auto, using(mysql_wire::specs::Writing::lengths), unfolding(crate::specs::SidBlock::block_bytes, mysql_wire::specs::Writing::le_bytes, mysql_wire::specs::Writing::saturated))]
    fn defined_len(&self) -> usize {
        self.content_len(self.any_tag()).saturating_add(4)
    }

    #[inline(always)]
    #[tactic(auto, using(mysql_wire::specs::Writing::lengths, mysql_wire::proofs::After::after), unfolding(crate::specs::SidBlock::block_bytes, crate::specs::SidBlock::content, mysql_wire::specs::Writing::saturated))]
    fn append<O: Buffer>(&self, out: &mut O) {
        let tagged = self.any_tag();
        let len = min(self.content_len(tagged), u32::MAX as usize) as u32;
        let len: RawInt<LeU32> = RawInt::new(len);
        len.append(out);
        self.head(tagged).append(out);
        self.append_sids(tagged, out);
    }
}
