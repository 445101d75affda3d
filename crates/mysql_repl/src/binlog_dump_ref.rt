//! Borrowed requests for a binary log from a position.
#![tactic(auto, using(mysql_wire::proofs::Packets::packets), unfolding(crate::specs::BinlogDump::binlog_dump, mysql_wire::specs::Int::raw, mysql_wire::specs::ConstantValue::coded))]

ghost use Rattle.std.specs.Prelude.{◌≡◌, ⊤};
ghost use Rattle.mysql_repl.specs.BinlogDump as spec;

use crate::binlog_dump::{ComBinlogDump, ComBinlogDumpHeader};
use mysql_wire::{
    AnyWidth, BinlogDumpFlags, FaultOf, FixedInt, Flags, LeU16, LeU32, MyDeserialize, ParseBuf,
};
use std::alloc::AllocError;
use std::borrow::CowSlice;
use std::fmt;
use std::fmt::Debug;
use std::marker::Model;

/// A replica's request for a binary log from a position, whose file name stays in the packet: a
/// [`ComBinlogDump`] for as long as the packet lives.
///
/// It is read from the same bytes with the same faults, and in a clause it is that request.
///
/// ```
/// let request: ComBinlogDumpRef<'_> = ParseBuf::new(alloc, payload).parse(())?;
/// Ok((request.filename_raw(), request.pos()))
/// ```
#[derive(Drop)]
pub struct ComBinlogDumpRef<'a> {
    pos: u32,
    flags: BinlogDumpFlags,
    server_id: u32,
    filename: &'a [u8],
}

impl<'a> Model for ComBinlogDumpRef<'a> {
    ghost use Rattle.mysql_repl.specs.declared.binlog_dump.ComBinlogDump.{ComBinlogDump};
    ghost use Rattle.mysql_repl.specs.BinlogDump.{dump_of};

    ghost Value = { ComBinlogDump };

    ghost view = { λ p. dump_of p.server_id p.pos p.flags.0 p.filename.now };
}

impl<'a> ComBinlogDumpRef<'a> {
    /// Like [`ComBinlogDump::pos`].
    #[inline]
    pub fn pos(&self) -> u32
        ensures value { result ≡ spec.pos self.now }
    {
        self.pos
    }

    /// Like [`ComBinlogDump::flags`].
    #[inline]
    pub fn flags(&self) -> BinlogDumpFlags
        ensures value { result ≡ spec.flags_of self.now }
    {
        self.flags
    }

    /// Like [`ComBinlogDump::server_id`].
    #[inline]
    pub fn server_id(&self) -> u32
        ensures value { result ≡ spec.server_id self.now }
    {
        self.server_id
    }

    /// The bytes of the log's name.
    #[inline]
    pub fn filename_raw(&self) -> &'a [u8]
        ensures value { result.now ≡ spec.filename self.now }
    {
        self.filename
    }

    /// Converts to a [`ComBinlogDump`], which still borrows the name. It takes no memory.
    #[inline]
    pub fn to_owned(&self) -> ComBinlogDump<'a>
        ensures value { result ≡ self.now }
    {
        ComBinlogDump::new(self.server_id)
            .with_pos(self.pos)
            .with_flags(self.flags)
            .with_filename(CowSlice::Borrowed(self.filename))
    }
}

impl Clone for ComBinlogDumpRef<'_> {
    ghost is_clone = { λ p copy. copy ≡ p };

    ghost is_infallible = { λ _. ⊤ };

    fn clone(&self) -> Result<Self, AllocError> {
        Ok(ComBinlogDumpRef {
            pos: self.pos,
            flags: self.flags,
            server_id: self.server_id,
            filename: self.filename,
        })
    }
}

impl PartialEq for ComBinlogDumpRef<'_> {
    ghost use Rattle.mysql_repl.specs.contracts.binlog_dump.ComBinlogDumpPartialEq.TheImpl.Laws.{laws-law};

    ghost eq = { ⟦<ComBinlogDump<'static> as PartialEq>⟧.eq };

    ghost laws = { laws-law };

    fn eq(&self, other: &Self) -> bool {
        self.to_owned() == other.to_owned()
    }
}

impl Eq for ComBinlogDumpRef<'_> {
    ghost use Rattle.mysql_repl.specs.contracts.binlog_dump.ComBinlogDumpEq.TheImpl.Laws.{laws-law};

    ghost laws = { laws-law };
}

impl Debug for ComBinlogDumpRef<'_> {
    fn fmt<W: fmt::Write>(&self, f: &mut fmt::Formatter<W>) -> fmt::Result {
        self.to_owned().fmt(f)
    }
}

/// Read like a [`ComBinlogDump`].
impl<'de> MyDeserialize<'de> for ComBinlogDumpRef<'de> {
    const SIZE: Option<usize> = None;

    type Size = AnyWidth;

    type Ctx = ();

    ghost form = { spec.binlog_dump.form };

    #[inline]
    fn deserialize<'s>(_ctx: (), buf: &mut ParseBuf<'de>) -> Result<Self, FaultOf<'s>> {
        let mut head: ParseBuf<'de> = buf.parse(11)?;
        let _header: ComBinlogDumpHeader = head.parse_unchecked(())?;
        Ok(ComBinlogDumpRef {
            pos: LeU32::take(&mut head),
            flags: BinlogDumpFlags::from_bits_retain(LeU16::take(&mut head)),
            server_id: LeU32::take(&mut head),
            filename: buf.eat_all(),
        })
    }

    ghost size_is = { λ _. spec.size-binlog_dump };
}
