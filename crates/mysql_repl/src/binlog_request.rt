//! A request for a binary log, by either of the two commands.

ghost use Rattle.std.specs.Prelude.{false, ◌≡◌, []};
ghost use Rattle.std.specs.Cow.{cow_slice_items};
ghost use Rattle.mysql_repl.specs.BinlogRequest as spec;

use crate::binlog_dump::ComBinlogDump;
use crate::binlog_dump_gtid::ComBinlogDumpGtid;
use crate::sid::Sid;
use mysql_wire::{BinlogDumpFlags, Either, EofBytes, Flags, LeU64, RawBytes, Seq};
use std::alloc::AllocError;
use std::borrow::CowSlice;

/// A request for a binary log, which [`as_cmd`](Self::as_cmd) converts to a command: a dump by position or a
/// dump by GTID set.
///
/// ```
/// let request = BinlogRequest::new(server_id).with_use_gtid(use_gtid);
/// Ok(match request.as_cmd() {
/// Either::Left(by_file) => by_file.serialize(out)?,
/// Either::Right(by_gtids) => by_gtids.serialize(out)?,
/// })
/// ```
#[derive(Debug, PartialEq, Eq, Hash)]
pub struct BinlogRequest<'a> {
    server_id: u32,
    use_gtid: bool,
    flags: BinlogDumpFlags,
    filename: RawBytes<'a, EofBytes>,
    pos: u64,
    sids: Seq<'a, Sid<'a>, LeU64>,
}

impl Drop for BinlogRequest<'_> {
    #[inline(always)]
    fn drop(self) {
        let BinlogRequest {
            server_id: _,
            use_gtid: _,
            flags: _,
            filename: _,
            pos: _,
            sids: _,
        } = self;
    }
}

impl<'a> BinlogRequest<'a> {
    /// Creates the request of the replica with this server id: by position, from position 4, without flags, a
    /// file name or sids.
    pub fn new(server_id: u32) -> Self
        ensures server_id { spec.server_id result ≡ server_id }
        ensures use_gtid { spec.use_gtid result ≡ false }
        ensures flags { (spec.flags result).0 ≡ 0 }
        ensures filename { spec.filename result ≡ [] }
        ensures pos { spec.pos result ≡ 4 }
        ensures sids { spec.sids result ≡ [] }
    {
        BinlogRequest {
            server_id,
            use_gtid: false,
            flags: BinlogDumpFlags::empty(),
            filename: RawBytes::default(),
            pos: 4,
            sids: Seq::default(),
        }
    }

    /// The replica's server id.
    #[inline]
    pub fn server_id(&self) -> u32
        ensures value { result ≡ spec.server_id self.now }
    {
        self.server_id
    }

    /// Whether the command is a dump by GTID set.
    #[inline]
    pub fn use_gtid(&self) -> bool
        ensures value { result ≡ spec.use_gtid self.now }
    {
        self.use_gtid
    }

    /// The flags: how the log is sent. A dump by position keeps only BINLOG_DUMP_NON_BLOCK.
    #[inline]
    pub fn flags(&self) -> BinlogDumpFlags
        ensures value { result ≡ spec.flags self.now }
    {
        self.flags
    }

    /// The bytes of the log's name.
    #[inline]
    pub fn filename_raw(&self) -> &[u8]
        ensures value { result.now ≡ spec.filename self.now }
    {
        self.filename.as_bytes()
    }

    /// The bytes of the log's name.
    #[inline]
    pub fn filename(&self) -> &[u8]
        ensures value { result.now ≡ spec.filename self.now }
    {
        self.filename.as_bytes()
    }

    /// The position from which the log is sent. A dump by position keeps its low 32 bits.
    #[inline]
    pub fn pos(&self) -> u64
        ensures value { result ≡ spec.pos self.now }
    {
        self.pos
    }

    /// The transactions that the replica has. A dump by position omits them.
    #[inline]
    pub fn sids(&self) -> &[Sid<'a>]
        ensures value { result.now ≡ spec.sids self.now }
    {
        self.sids.as_slice()
    }

    /// Sets the replica's server id.
    pub fn with_server_id(mut self, server_id: u32) -> Self
        ensures value { result ≡ spec.with_server_id server_id self.entry }
    {
        self.server_id = server_id;
        self
    }

    /// Sets whether the command is a dump by GTID set, or by position.
    pub fn with_use_gtid(mut self, use_gtid: bool) -> Self
        ensures value { result ≡ spec.with_use_gtid use_gtid self.entry }
    {
        self.use_gtid = use_gtid;
        self
    }

    /// Sets the flags.
    pub fn with_flags(mut self, flags: BinlogDumpFlags) -> Self
        ensures value { result ≡ spec.with_flags flags self.entry }
    {
        self.flags = flags;
        self
    }

    /// Sets the name of the binary log.
    pub fn with_filename(mut self, filename: CowSlice<'a, u8>) -> Self
        ensures value { result ≡ spec.with_filename (cow_slice_items filename.entry) self.entry }
    {
        self.filename = RawBytes::new(filename);
        self
    }

    /// Sets the position from which the log is sent.
    pub fn with_pos(mut self, pos: u64) -> Self
        ensures value { result ≡ spec.with_pos pos self.entry }
    {
        self.pos = pos;
        self
    }

    /// Sets the sids, instead of the current ones.
    pub fn with_sids(mut self, sids: Vec<Sid<'a>>) -> Self
        ensures value { result ≡ spec.with_sids sids.entry.items self.entry }
    {
        self.sids = Seq::owned(sids);
        self
    }

    /// Returns the command.
    ///
    /// It is a dump by position, with the low 32 bits of the position and only BINLOG_DUMP_NON_BLOCK of the
    /// flags; or a dump by GTID set, with all fields, and with the flag BINLOG_THROUGH_GTID exactly if there is
    /// a sid.
    ///
    /// It borrows the name and the sids, and takes no memory.
    pub fn as_cmd(&self) -> Either<ComBinlogDump<'_>, ComBinlogDumpGtid<'_>>
        ensures value { result ≡ spec.command self.now }
    {
        let filename = CowSlice::Borrowed(self.filename());
        if self.use_gtid {
            let command = ComBinlogDumpGtid::new(self.server_id)
                .with_pos(self.pos)
                .with_filename(filename)
                .with_sids(CowSlice::Borrowed(self.sids()))
                .with_flags(self.flags);
            Either::Right(command)
        } else {
            let command = ComBinlogDump::new(self.server_id)
                .with_pos((self.pos % (1 << 32)) as u32)
                .with_filename(filename)
                .with_flags(self.flags & BinlogDumpFlags::BINLOG_DUMP_NON_BLOCK);
            Either::Left(command)
        }
    }
}

impl Clone for BinlogRequest<'_> {
    ghost is_clone = { λ r copy. copy ≡ r };

    fn clone(&self) -> Result<Self, AllocError> {
        Ok(BinlogRequest {
            server_id: self.server_id,
            use_gtid: self.use_gtid,
            flags: self.flags,
            filename: self.filename.clone()?,
            pos: self.pos,
            sids: self.sids.clone()?,
        })
    }
}
