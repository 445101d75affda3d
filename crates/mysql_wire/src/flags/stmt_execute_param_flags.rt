//! The flags of one parameter of a statement: written by tools/tables.py from tables/stmt_execute_param_flags.txt.

ghost use Rattle.std.specs.Prelude.{[], ◌∷◌, codes};
ghost use Rattle.mysql_wire.specs.FlagMasks.{UNSIGNED};

use crate::flags::{FlagNames, FlagWord, named_flags};
use bitflags::Flag;
use std::marker::PhantomData;

/// The names of [`StmtExecuteParamFlags`].
pub struct StmtExecuteParamNames;

/// The flags of one parameter of a statement, in the byte after its type.
pub type StmtExecuteParamFlags = FlagWord<StmtExecuteParamNames, u8>;

impl FlagWord<StmtExecuteParamNames, u8> {
    /// The number is unsigned.
    pub const UNSIGNED: StmtExecuteParamFlags = FlagWord(1 << 7, PhantomData);

    const FLAGS: &'static [Flag<StmtExecuteParamFlags>] =
        named_flags!(StmtExecuteParamFlags: UNSIGNED);
}

impl FlagNames<u8> for StmtExecuteParamNames {
    const NAME: &'static str = "StmtExecuteParamFlags";

    ghost table = { (codes "UNSIGNED", UNSIGNED) ∷ [] };

    fn flags<'a>() -> &'a [Flag<StmtExecuteParamFlags>] {
        StmtExecuteParamFlags::FLAGS
    }
}
