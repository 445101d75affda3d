//! The request for a binary log from a position.
#![tactic(auto, using(mysql_wire::proofs::Packets::packets), unfolding(crate::specs::BinlogDump::binlog_dump))]

ghost use Rattle.std.specs.Prelude.{◌≡◌, []};
ghost use Rattle.std.specs.Cow.{cow_slice_items};
ghost use Rattle.mysql_wire.specs.Text.{GivesText};
ghost use Rattle.mysql_repl.specs.BinlogDump as spec;

use crate::binlog_dump_ref::ComBinlogDumpRef;
use mysql_wire::command_code::COM_BINLOG_DUMP;
use mysql_wire::{
    AnyWidth, BinlogDumpFlags, Const, ConstFault, ConstU8, EofBytes, FaultOf, Flags, LeU16, LeU32,
    MyDeserialize, ParseBuf, Parts, RawBytes, RawInt, Sink, parts,
};
use std::alloc::{AllocError, Global};
use std::borrow::{CowSlice, CowStr};
use thiserror::Error;

/// The first byte of a dump by position is not `12`.
#[derive(Clone, Copy, Debug, Default, PartialEq, Eq, Hash, Error)]
#[error("Invalid header for COM_BINLOG_DUMP")]
pub struct InvalidComBinlogDumpHeader;

impl ConstFault for InvalidComBinlogDumpHeader {
    const MESSAGE: &'static str = "Invalid header for COM_BINLOG_DUMP";
}

/// The first byte of a dump by position: `12`.
pub type ComBinlogDumpHeader = ConstU8<InvalidComBinlogDumpHeader, COM_BINLOG_DUMP>;

/// A replica's request for a binary log from a position (`COM_BINLOG_DUMP`).
///
/// | Bytes | Field |
/// |---|---|
/// | 1 | `12` |
/// | 4 | `pos` |
/// | 2 | `flags` |
/// | 4 | `server_id` |
/// | the rest | `filename` |
///
/// Numbers are little-endian. Fewer than 11 bytes are `UnexpectedEof`, another first byte is
/// `InvalidData`. Reading takes no memory.
///
/// ```
/// let request = ComBinlogDump::new(server_id)
///     .with_flags(flags)
///     .with_pos(FIRST);
/// connection.command_packet(&request)
/// ```
#[derive(Debug, PartialEq, Eq, Hash, Drop)]
pub struct ComBinlogDump<'a> {
    header: ComBinlogDumpHeader,
    pos: RawInt<LeU32>,
    flags: Const<BinlogDumpFlags, LeU16>,
    server_id: RawInt<LeU32>,
    filename: RawBytes<'a, EofBytes>,
}

impl<'a> ComBinlogDump<'a> {
    /// Creates the request of the replica with this server id, from position 0, without flags and without a
    /// file name: the server then sends its first binary log.
    pub fn new(server_id: u32) -> Self
        ensures value { result ≡ spec.dump_of server_id 0 0 [] }
    {
        ComBinlogDump {
            header: ConstU8::new(),
            pos: RawInt::new(0),
            flags: Const::new(BinlogDumpFlags::empty()),
            server_id: RawInt::new(server_id),
            filename: RawBytes::default(),
        }
    }

    /// Sets the position from which the log is sent.
    pub fn with_pos(mut self, pos: u32) -> Self
        ensures value { result ≡ spec.with_pos pos self.entry }
    {
        self.pos = RawInt::new(pos);
        self
    }

    /// Sets the flags.
    pub fn with_flags(mut self, flags: BinlogDumpFlags) -> Self
        ensures value { result ≡ spec.with_flags flags self.entry }
    {
        self.flags = Const::new(flags);
        self
    }

    /// Sets the name of the binary log.
    pub fn with_filename(mut self, filename: CowSlice<'a, u8>) -> Self
        ensures value { result ≡ spec.with_filename (cow_slice_items filename.entry) self.entry }
    {
        self.filename = RawBytes::new(filename);
        self
    }

    /// The bytes of the log's name.
    #[inline]
    pub fn filename_raw(&self) -> &[u8]
        ensures value { result.now ≡ spec.filename self.now }
    {
        self.filename.as_bytes()
    }

    /// The position from which the log is sent.
    #[inline]
    pub fn pos(&self) -> u32
        ensures value { result ≡ spec.pos self.now }
    {
        self.pos.0
    }

    /// The flags: how the log is sent.
    #[inline]
    pub fn flags(&self) -> BinlogDumpFlags
        ensures value { result ≡ spec.flags_of self.now }
    {
        self.flags.0
    }

    /// The replica's server id.
    #[inline]
    pub fn server_id(&self) -> u32
        ensures value { result ≡ spec.server_id self.now }
    {
        self.server_id.0
    }

    /// The log's name as text, with U+FFFD for invalid UTF-8. Valid UTF-8 is borrowed.
    pub fn filename(&self, alloc: Global) -> Result<CowStr<'_>, AllocError>
        ensures text { GivesText (spec.filename self.now) result }
    {
        self.filename.as_str(alloc)
    }
}

impl Clone for ComBinlogDump<'_> {
    ghost is_clone = { λ p copy. copy ≡ p };

    ghost is_infallible = { λ p. spec.filename p ≡ [] };

    fn clone(&self) -> Result<Self, AllocError> {
        Ok(ComBinlogDump {
            header: self.header,
            pos: RawInt::new(self.pos.0),
            flags: self.flags,
            server_id: RawInt::new(self.server_id.0),
            filename: self.filename.clone()?,
        })
    }
}

impl<'de> MyDeserialize<'de> for ComBinlogDump<'de> {
    const SIZE: Option<usize> = None;

    type Size = AnyWidth;

    type Ctx = ();

    ghost form = { spec.binlog_dump.form };

    fn deserialize<'s>(_ctx: (), buf: &mut ParseBuf<'de>) -> Result<Self, FaultOf<'s>> {
        let request: ComBinlogDumpRef<'de> = buf.parse(())?;
        Ok(request.to_owned())
    }

    ghost size_is = { λ _. spec.size-binlog_dump };
}

impl Parts for ComBinlogDump<'_> {
    ghost bytes = { spec.binlog_dump.bytes };

    #[inline(always)]
    fn put<S: Sink>(&self, sink: &mut S) {
        let head = parts!(self.header, self.pos, self.flags, self.server_id);
        sink.part(&parts!(head, self.filename));
    }
}
