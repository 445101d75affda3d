//! How a binary log is sent: written by tools/tables.py from tables/binlog_dump_flags.txt.

ghost use Rattle.std.specs.Prelude.{[], ◌∷◌, codes};
ghost use Rattle.mysql_wire.specs.FlagMasks.{BINLOG_DUMP_NON_BLOCK, BINLOG_THROUGH_POSITION, BINLOG_THROUGH_GTID};

use crate::flags::{FlagNames, FlagWord, named_flags};
use bitflags::Flag;
use std::marker::PhantomData;

/// The names of [`BinlogDumpFlags`].
pub struct BinlogDumpNames;

/// `COM_BINLOG_DUMP`'s flags: how the binary log is sent, in two bytes.
pub type BinlogDumpFlags = FlagWord<BinlogDumpNames, u16>;

impl FlagWord<BinlogDumpNames, u16> {
    /// At the end of the log, the server sends an EOF packet instead of waiting.
    pub const BINLOG_DUMP_NON_BLOCK: BinlogDumpFlags = FlagWord(1 << 0, PhantomData);

    /// The log is sent from a position.
    pub const BINLOG_THROUGH_POSITION: BinlogDumpFlags = FlagWord(1 << 1, PhantomData);

    /// The log is sent without the transactions that the client names.
    pub const BINLOG_THROUGH_GTID: BinlogDumpFlags = FlagWord(1 << 2, PhantomData);

    const FLAGS: &'static [Flag<BinlogDumpFlags>] =
        named_flags!(BinlogDumpFlags: BINLOG_DUMP_NON_BLOCK, BINLOG_THROUGH_POSITION, BINLOG_THROUGH_GTID);
}

impl FlagNames<u16> for BinlogDumpNames {
    const NAME: &'static str = "BinlogDumpFlags";

    ghost table = { (codes "BINLOG_DUMP_NON_BLOCK", BINLOG_DUMP_NON_BLOCK) ∷ (codes "BINLOG_THROUGH_POSITION", BINLOG_THROUGH_POSITION) ∷ (codes "BINLOG_THROUGH_GTID", BINLOG_THROUGH_GTID) ∷ [] };

    fn flags<'a>() -> &'a [Flag<BinlogDumpFlags>] {
        BinlogDumpFlags::FLAGS
    }
}
