//! The request for a binary log without the transactions of a GTID set.
#![tactic(auto, using(mysql_wire::proofs::Packets::packets), unfolding(crate::specs::BinlogDumpGtid::gtid_dump))]

ghost use Rattle.std.specs.Prelude.{false, true, ◌≡◌, [], IfOk, OnErr, Ok, List, ℕ};
ghost use Rattle.std.specs.Cow.{cow_slice_items};
ghost use Rattle.mysql_wire.specs.Reading.{Answers, IsTail};
ghost use Rattle.mysql_wire.specs.Seq.{counts_any};
ghost use Rattle.mysql_wire.specs.Text.{GivesText};
ghost use Rattle.mysql_repl.specs.declared.binlog_dump_gtid.ComBinlogDumpGtid.{ComBinlogDumpGtid};
ghost use Rattle.mysql_repl.specs.BinlogDumpGtid as spec;
ghost use Rattle.mysql_repl.specs.Space.{space_in_dump};

use crate::sid::Sid;
use crate::sid_block::{SidBlock, read_block};
use crate::taken::append_taken;
use mysql_wire::command_code::COM_BINLOG_DUMP_GTID;
use mysql_wire::{
    AnyWidth, BinlogDumpFlags, Buffer, BytesRepr, Const, ConstFault, ConstU8, Fault, FaultOf,
    FixedInt, Flags, LeU16, LeU32, LeU64, MyDeserialize, MySerialize, ParseBuf, Parts, RawBytes,
    RawInt, Seq, Sink, U32Bytes, parts,
};
use std::alloc::{AllocError, Global};
use std::borrow::{CowSlice, CowStr};
use thiserror::Error;

/// The first byte of a dump by GTID set is not `1e`.
#[derive(Clone, Copy, Debug, Default, PartialEq, Eq, Hash, Error)]
#[error("Invalid header for COM_BINLOG_DUMP_GTID")]
pub struct InvalidComBinlogDumpGtidHeader;

impl ConstFault for InvalidComBinlogDumpGtidHeader {
    const MESSAGE: &'static str = "Invalid header for COM_BINLOG_DUMP_GTID";
}

/// The first byte of a dump by GTID set: `1e`.
pub type ComBinlogDumpGtidHeader = ConstU8<InvalidComBinlogDumpGtidHeader, COM_BINLOG_DUMP_GTID>;

/// A replica's request for a binary log without the transactions that it has
/// (`COM_BINLOG_DUMP_GTID`).
///
/// | Bytes | Field |
/// |---|---|
/// | 1 | `1e` |
/// | 2 | `flags` |
/// | 4 | `server_id` |
/// | 4 + n | `filename`, after its length |
/// | 8 | `pos` |
/// | 4 + n | the block of `sids`, after its length |
///
/// Numbers are little-endian. The block is a head of eight bytes and the sids. If the head's top byte is 1, the
/// sids are in the form with tags, and their count is in the bits 8 to 55. With any other top byte they are in
/// the form without tags, and the count is in the bits 0 to 55. A sid is 16 bytes; with tags, the tag after a
/// length of variable width; a count of eight bytes, and that many pairs of numbers of eight bytes. Bytes of
/// the block after the last sid are ignored, unless the reader is [`parse_strict`](Self::parse_strict).
///
/// Missing bytes are `UnexpectedEof`. Another first byte, or an invalid tag, is `InvalidData`. Reading takes memory for the
/// sids as it reaches them, and returns `Memory` if an allocation fails; without sids it takes none.
///
/// The block is written with tags if any sid has one, and always whole; a length above 2^32 - 1 is written as
/// 2^32 - 1. At most the first 2^32 - 1 bytes of the name are written.
///
/// ```
/// let request = ComBinlogDumpGtid::new(server_id)
///     .with_flags(flags)
///     .with_pos(u64::from(FIRST))
///     .with_gtid_set(connection.alloc, gtids)?;
/// connection.command_packet(&request)
/// ```
#[derive(Debug, PartialEq, Eq, Hash)]
pub struct ComBinlogDumpGtid<'a> {
    header: ComBinlogDumpGtidHeader,
    flags: Const<BinlogDumpFlags, LeU16>,
    server_id: RawInt<LeU32>,
    filename: RawBytes<'a, U32Bytes>,
    pos: RawInt<LeU64>,
    sid_block: Seq<'a, Sid<'a>, LeU64>,
}

impl Drop for ComBinlogDumpGtid<'_> {
    #[inline(always)]
    fn drop(self) {
        let ComBinlogDumpGtid {
            header: _,
            flags: _,
            server_id: _,
            filename: _,
            pos: _,
            sid_block: _,
        } = self;
    }
}

impl<'a> ComBinlogDumpGtid<'a> {
    /// Creates the request of the replica with this server id, from position 0, without flags, a file name or sids.
    pub fn new(server_id: u32) -> Self
        ensures value { result ≡ spec.dump_of server_id 0 0 [] [] }
    {
        ComBinlogDumpGtid {
            header: ConstU8::new(),
            flags: Const::new(BinlogDumpFlags::empty()),
            server_id: RawInt::new(server_id),
            filename: RawBytes::default(),
            pos: RawInt::new(0),
            sid_block: Seq::default(),
        }
    }

    /// The replica's server id.
    #[inline]
    pub fn server_id(&self) -> u32
        ensures value { result ≡ spec.server_id self.now }
    {
        self.server_id.0
    }

    /// The flags: how the log is sent.
    #[inline]
    pub fn flags(&self) -> BinlogDumpFlags
        ensures value { result.0 ≡ spec.flag_bits self.now }
    {
        self.flags.0
    }

    /// The bytes of the log's name.
    #[inline]
    pub fn filename_raw(&self) -> &[u8]
        ensures value { result.now ≡ spec.filename self.now }
    {
        self.filename.as_bytes()
    }

    /// The position from which the log is sent.
    #[inline]
    pub fn pos(&self) -> u64
        ensures value { result ≡ spec.pos self.now }
    {
        self.pos.0
    }

    /// The transactions that the replica has.
    #[inline]
    pub fn sids(&self) -> &[Sid<'a>]
        ensures value { result.now ≡ spec.sids self.now }
    {
        self.sid_block.as_slice()
    }

    /// The log's name as text, with U+FFFD for invalid UTF-8. Valid UTF-8 is borrowed.
    pub fn filename(&self, alloc: Global) -> Result<CowStr<'_>, AllocError>
        ensures text { GivesText (spec.filename self.now) result }
    {
        self.filename.as_str(alloc)
    }

    /// Sets the name of the binary log.
    pub fn with_filename(mut self, filename: CowSlice<'a, u8>) -> Self
        ensures value { result ≡ spec.with_filename (cow_slice_items filename.entry) self.entry }
    {
        self.filename = RawBytes::new(filename);
        self
    }

    /// Sets the replica's server id.
    pub fn with_server_id(mut self, server_id: u32) -> Self
        ensures value { result ≡ spec.with_server_id server_id self.entry }
    {
        self.server_id = RawInt::new(server_id);
        self
    }

    /// Sets the flags, except for BINLOG_THROUGH_GTID, which is set exactly if there is a sid.
    pub fn with_flags(mut self, flags: BinlogDumpFlags) -> Self
        ensures value { result ≡ spec.with_flags flags.0 self.entry }
    {
        self.flags = Const::new(through_gtid(flags, self.sids()));
        self
    }

    /// Sets the position from which the log is sent.
    pub fn with_pos(mut self, pos: u64) -> Self
        ensures value { result ≡ spec.with_pos pos self.entry }
    {
        self.pos = RawInt::new(pos);
        self
    }

    /// Appends a sid, and sets the flag BINLOG_THROUGH_GTID. Borrowed sids are copied first. If an allocation fails, the
    /// request is dropped.
    pub fn with_sid(mut self, alloc: Global, sid: Sid<'a>) -> Result<Self, AllocError>
        ensures value { IfOk result (λ p. p ≡ spec.with_sid sid.entry self.entry) }
    {
        self.sid_block.push(alloc, sid)?;
        self.flags = Const::new(through_gtid(self.flags.0, self.sids()));
        Ok(self)
    }

    /// Sets the sids, instead of the current ones. The flag BINLOG_THROUGH_GTID is set exactly if there is a sid.
    pub fn with_sids(mut self, sids: CowSlice<'a, Sid<'a>>) -> Self
        ensures value { result ≡ spec.with_sids (cow_slice_items sids.entry) self.entry }
    {
        self.sid_block = list_of(sids);
        self.flags = Const::new(through_gtid(self.flags.0, self.sids()));
        self
    }

    /// Reads a request like [`ParseBuf::parse`], but strictly.
    ///
    /// It also refuses, as `InvalidData`, a block whose head's top byte is neither 0 nor 1, before any sid is
    /// read; and bytes of the block after the last sid.
    ///
    /// It is strict only about the block's layout: any two numbers are an interval, and intervals may overlap,
    /// touch and come in any order. [`is_canonical`](Self::is_canonical) says whether MySQL accepts them.
    ///
    /// It returns the same request as `parse`. After an error the buffer is unchanged.
    pub fn parse_strict(buf: &mut ParseBuf<'a>) -> Result<Self, Fault>
        ensures value { Answers (counts_any ((space_in_dump true).reads buf.old)) result buf.new ((spec.gtid_dump.form true).reads buf.old) }
        ensures spelled { IfOk result (λ p. (spec.gtid_dump.form true).Spells p buf.old buf.new) }
        ensures read { (p : ComBinlogDumpGtid) (rest : List ℕ) → (spec.gtid_dump.form true).Spells p buf.old rest → Answers (counts_any ((space_in_dump true).reads buf.old)) result buf.new (Ok (p, rest)) }
        ensures err { OnErr result (buf.new ≡ buf.old) }
    {
        let mut rest = buf.rest();
        let request = read(true, &mut rest)?;
        *buf = rest;
        Ok(request)
    }
}

/// Creates the request of these parts.
pub(crate) fn of_parts<'a>(
    flags: BinlogDumpFlags,
    server_id: u32,
    filename: &'a [u8],
    pos: u64,
    sids: Vec<Sid<'a>>,
) -> ComBinlogDumpGtid<'a>
    ensures value { result ≡ spec.dump_of server_id pos flags.0 filename.now sids.entry.items }
{
    ComBinlogDumpGtid {
        header: ConstU8::new(),
        flags: Const::new(flags),
        server_id: RawInt::new(server_id),
        filename: RawBytes::new(CowSlice::Borrowed(filename)),
        pos: RawInt::new(pos),
        sid_block: Seq::owned(sids),
    }
}

/// Creates the list of these values.
fn list_of<'a, T, L>(values: CowSlice<'a, T>) -> Seq<'a, T, L>
    ensures value { result ≡ cow_slice_items values.entry }
{
    let values = match values {
        CowSlice::Owned(values) => return Seq::owned(values),
        CowSlice::Borrowed(values) => values,
    };
    Seq::borrowed(values)
}

/// Returns the flags, with BINLOG_THROUGH_GTID set exactly if there is a sid.
fn through_gtid(mut flags: BinlogDumpFlags, sids: &[Sid<'_>]) -> BinlogDumpFlags
    ensures value { result.0 ≡ spec.through_gtid sids.now flags.0 }
{
    flags.set(BinlogDumpFlags::BINLOG_THROUGH_GTID, !sids.is_empty());
    flags
}

/// Reads the first seven bytes: the header, the flags and the replica's server id.
#[tactic(auto, using(mysql_wire::proofs::Packets::packets), unfolding(crate::specs::BinlogDumpGtid::gtid_dump_head, mysql_wire::specs::Int::raw, mysql_wire::specs::ConstantValue::coded))]
pub(crate) fn read_head<'s>(
    strict: bool,
    buf: &mut ParseBuf<'_>,
) -> Result<
    (
        ComBinlogDumpGtidHeader,
        Const<BinlogDumpFlags, LeU16>,
        RawInt<LeU32>,
    ),
    FaultOf<'s>,
>
    ensures value { Answers false result buf.new ((spec.gtid_dump_head.form strict).reads buf.old) }
{
    let mut head: ParseBuf<'_> = buf.parse(7)?;
    let header = head.parse_unchecked(())?;
    let flags = Const::new(BinlogDumpFlags::from_bits_retain(LeU16::take(&mut head)));
    let server_id = RawInt::take(&mut head);
    Ok((header, flags, server_id))
}

/// Reads a request, strictly or not.
fn read<'s, 'de>(
    strict: bool,
    buf: &mut ParseBuf<'de>,
) -> Result<ComBinlogDumpGtid<'de>, FaultOf<'s>>
    ensures value { Answers (counts_any ((space_in_dump strict).reads buf.old)) result buf.new ((spec.gtid_dump.form strict).reads buf.old) }
{
    let (header, flags, server_id) = read_head(strict, buf)?;
    let filename = <U32Bytes as BytesRepr>::deserialize((), buf)?.eat_all();
    let pos = buf.parse(())?;
    let sid_block = read_block(strict, buf)?;
    Ok(ComBinlogDumpGtid {
        header,
        flags,
        server_id,
        filename: RawBytes::new(CowSlice::Borrowed(filename)),
        pos,
        sid_block,
    })
}

impl Clone for ComBinlogDumpGtid<'_> {
    ghost is_clone = { λ p copy. copy ≡ p };

    fn clone(&self) -> Result<Self, AllocError> {
        Ok(ComBinlogDumpGtid {
            header: self.header,
            flags: self.flags,
            server_id: RawInt::new(self.server_id.0),
            filename: self.filename.clone()?,
            pos: RawInt::new(self.pos.0),
            sid_block: self.sid_block.clone()?,
        })
    }
}

impl<'de> MyDeserialize<'de> for ComBinlogDumpGtid<'de> {
    const SIZE: Option<usize> = None;

    type Size = AnyWidth;

    ghost takes_memory = { λ _ bytes. counts_any ((space_in_dump false).reads bytes) };

    type Ctx = ();

    ghost form = { λ _. spec.gtid_dump.form false };

    fn deserialize<'s>(_ctx: (), buf: &mut ParseBuf<'de>) -> Result<Self, FaultOf<'s>> {
        let mut rest = buf.rest();
        let request = read(false, &mut rest)?;
        *buf = rest;
        Ok(request)
    }

    ghost size_is = { λ _. spec.size-gtid_dump false };
}

/// A request in its parts.
#[derive(Drop)]
struct RequestParts<'b, 'a>(&'b ComBinlogDumpGtid<'a>);

impl Parts for RequestParts<'_, '_> {
    ghost bytes = { λ p. spec.gtid_dump.bytes p.0.now };

    #[inline(always)]
    fn put<S: Sink>(&self, sink: &mut S) {
        let it = self.0;
        let head = parts!(it.header, it.flags, it.server_id);
        let sids = SidBlock(it.sids());
        sink.part(&parts!(head, it.filename, it.pos, sids));
    }
}

impl MySerialize for ComBinlogDumpGtid<'_> {
    ghost bytes = { spec.gtid_dump.bytes };

    #[inline(always)]
    fn defined_len(&self) -> usize {
        RequestParts(self).defined_len()
    }

    #[inline(always)]
    fn append<O: Buffer>(&self, out: &mut O) {
        append_taken(&RequestParts(self), out);
    }
}
