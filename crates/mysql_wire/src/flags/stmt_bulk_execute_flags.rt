//! The flags of a bulk execution: written by tools/tables.py from tables/stmt_bulk_execute_flags.txt.

ghost use Rattle.std.specs.Prelude.{[], ◌∷◌, codes};
ghost use Rattle.mysql_wire.specs.FlagMasks.{SEND_UNIT_RESULTS, SEND_TYPES_TO_SERVER};

use crate::flags::{FlagNames, FlagWord, named_flags};
use bitflags::Flag;
use std::marker::PhantomData;

/// The names of [`StmtBulkExecuteFlags`].
pub struct StmtBulkExecuteNames;

/// The flags of `COM_STMT_BULK_EXECUTE`, in two bytes.
pub type StmtBulkExecuteFlags = FlagWord<StmtBulkExecuteNames, u16>;

impl FlagWord<StmtBulkExecuteNames, u16> {
    /// Each row has its own result.
    pub const SEND_UNIT_RESULTS: StmtBulkExecuteFlags = FlagWord(1 << 6, PhantomData);

    /// The types of the parameters are sent too.
    pub const SEND_TYPES_TO_SERVER: StmtBulkExecuteFlags = FlagWord(1 << 7, PhantomData);

    const FLAGS: &'static [Flag<StmtBulkExecuteFlags>] =
        named_flags!(StmtBulkExecuteFlags: SEND_UNIT_RESULTS, SEND_TYPES_TO_SERVER);
}

impl FlagNames<u16> for StmtBulkExecuteNames {
    const NAME: &'static str = "StmtBulkExecuteFlags";

    ghost table = { (codes "SEND_UNIT_RESULTS", SEND_UNIT_RESULTS) ∷ (codes "SEND_TYPES_TO_SERVER", SEND_TYPES_TO_SERVER) ∷ [] };

    fn flags<'a>() -> &'a [Flag<StmtBulkExecuteFlags>] {
        StmtBulkExecuteFlags::FLAGS
    }
}
