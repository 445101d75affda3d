//! Borrowed requests for a binary log without the transactions of a GTID set.
#![tactic(auto, using(mysql_wire::proofs::Packets::packets), unfolding(crate::specs::BinlogDumpGtid::gtid_dump))]

ghost use Rattle.std.specs.Prelude.{false, ◌≡◌, [], IfOk, IsOk, ⊤};
ghost use Rattle.mysql_repl.specs.BinlogDumpGtid as spec;

use crate::binlog_dump_gtid::{ComBinlogDumpGtid, of_parts, read_head};
use crate::sids_ref::{SidsRef, read_block_ref};
use mysql_wire::{
    AnyWidth, BinlogDumpFlags, BytesRepr, Const, FaultOf, LeU16, LeU32, LeU64, MyDeserialize,
    ParseBuf, RawBytes, RawInt, U32Bytes,
};
use std::alloc::{AllocError, Global};
use std::borrow::CowSlice;
use std::fmt;
use std::fmt::Debug;
use std::marker::Model;

/// A replica's request for a binary log without the transactions that it has, whose file name and sids stay in
/// the packet: a [`ComBinlogDumpGtid`] for as long as the packet lives, without memory.
///
/// It is read from the same bytes with the same faults except for `Memory`, and in a clause it is that request.
///
/// ```
/// let request: ComBinlogDumpGtidRef<'_> = ParseBuf::new(alloc, payload).parse(())?;
/// let mut count: u64 = 0;
/// for sid in request.sids() {
///     for interval in sid.intervals() {
///         count = count.saturating_add(interval.end().saturating_sub(interval.start()));
///     }
/// }
/// Ok(count)
/// ```
#[derive(Drop)]
pub struct ComBinlogDumpGtidRef<'a> {
    flags: BinlogDumpFlags,
    server_id: u32,
    filename: &'a [u8],
    pos: u64,
    sids: SidsRef<'a>,
}

impl<'a> Model for ComBinlogDumpGtidRef<'a> {
    ghost use Rattle.mysql_repl.specs.declared.binlog_dump_gtid.ComBinlogDumpGtid.{ComBinlogDumpGtid};
    ghost use Rattle.mysql_repl.specs.BinlogDumpGtid.{dump_of};

    ghost Value = { ComBinlogDumpGtid };

    ghost view = { λ p. dump_of p.server_id p.pos p.flags.0 p.filename.now p.sids };
}

impl<'a> ComBinlogDumpGtidRef<'a> {
    /// Like [`ComBinlogDumpGtid::server_id`].
    #[inline]
    pub fn server_id(&self) -> u32
        ensures value { result ≡ spec.server_id self.now }
    {
        self.server_id
    }

    /// Like [`ComBinlogDumpGtid::flags`].
    #[inline]
    pub fn flags(&self) -> BinlogDumpFlags
        ensures value { result.0 ≡ spec.flag_bits self.now }
    {
        self.flags
    }

    /// The bytes of the log's name.
    #[inline]
    pub fn filename_raw(&self) -> &'a [u8]
        ensures value { result.now ≡ spec.filename self.now }
    {
        self.filename
    }

    /// Like [`ComBinlogDumpGtid::pos`].
    #[inline]
    pub fn pos(&self) -> u64
        ensures value { result ≡ spec.pos self.now }
    {
        self.pos
    }

    /// The transactions that the replica has.
    #[inline]
    pub fn sids(&self) -> SidsRef<'a>
        ensures value { result ≡ spec.sids self.now }
    {
        self.sids.iter()
    }

    /// Converts to a [`ComBinlogDumpGtid`], which still borrows the name and the tags. Without sids it takes no memory.
    pub fn to_owned(&self, alloc: Global) -> Result<ComBinlogDumpGtid<'a>, AllocError>
        ensures value { IfOk result (λ packet. packet ≡ self.now) }
        ensures no_memory { spec.sids self.now ≡ [] → IsOk result }
    {
        let sids = self.sids.to_owned(alloc)?;
        Ok(of_parts(self.flags, self.server_id, self.filename, self.pos, sids))
    }
}

impl Clone for ComBinlogDumpGtidRef<'_> {
    ghost is_clone = { λ p copy. copy ≡ p };

    ghost is_infallible = { λ _. ⊤ };

    fn clone(&self) -> Result<Self, AllocError> {
        Ok(ComBinlogDumpGtidRef {
            flags: self.flags,
            server_id: self.server_id,
            filename: self.filename,
            pos: self.pos,
            sids: self.sids.iter(),
        })
    }
}

impl PartialEq for ComBinlogDumpGtidRef<'_> {
    ghost use Rattle.mysql_repl.specs.contracts.binlog_dump_gtid.ComBinlogDumpGtidPartialEq.TheImpl.Laws.{laws-law};

    ghost eq = { ⟦<ComBinlogDumpGtid<'static> as PartialEq>⟧.eq };

    ghost laws = { laws-law };

    fn eq(&self, other: &Self) -> bool {
        self.flags == other.flags
            && self.server_id == other.server_id
            && self.filename == other.filename
            && self.pos == other.pos
            && self.sids == other.sids
    }
}

impl Eq for ComBinlogDumpGtidRef<'_> {
    ghost use Rattle.mysql_repl.specs.contracts.binlog_dump_gtid.ComBinlogDumpGtidEq.TheImpl.Laws.{laws-law};

    ghost laws = { laws-law };
}

impl Debug for ComBinlogDumpGtidRef<'_> {
    fn fmt<W: fmt::Write>(&self, f: &mut fmt::Formatter<W>) -> fmt::Result {
        let filename: RawBytes<'_, U32Bytes> = RawBytes::new(CowSlice::Borrowed(self.filename));
        f.debug_struct("ComBinlogDumpGtidRef")
            .field("flags", &self.flags)
            .field("server_id", &self.server_id)
            .field("filename", &filename)
            .field("pos", &self.pos)
            .field("sids", &self.sids)
            .finish()
    }
}

/// Read like a [`ComBinlogDumpGtid`], but never `Memory`.
impl<'de> MyDeserialize<'de> for ComBinlogDumpGtidRef<'de> {
    const SIZE: Option<usize> = None;

    type Size = AnyWidth;

    type Ctx = ();

    ghost form = { λ _. spec.gtid_dump.form false };

    fn deserialize<'s>(_ctx: (), buf: &mut ParseBuf<'de>) -> Result<Self, FaultOf<'s>> {
        let mut rest = buf.rest();
        let (_header, flags, server_id) = read_head(false, &mut rest)?;
        let filename = <U32Bytes as BytesRepr>::deserialize((), &mut rest)?.eat_all();
        let pos: RawInt<LeU64> = rest.parse(())?;
        let sids = read_block_ref(&mut rest)?;
        *buf = rest;
        Ok(ComBinlogDumpGtidRef {
            flags: flags.0,
            server_id: server_id.0,
            filename,
            pos: pos.0,
            sids,
        })
    }

    ghost size_is = { λ _. spec.size-gtid_dump false };
}
