//! How the parameters of a statement are sent: written by tools/tables.py from tables/stmt_execute_params_flags.txt.

ghost use Rattle.std.specs.Prelude.{[], ◌∷◌, codes};
ghost use Rattle.mysql_wire.specs.FlagMasks.{NEW_PARAMS_BOUND};

use crate::flags::{FlagNames, FlagWord, named_flags};
use bitflags::Flag;
use std::marker::PhantomData;

/// The names of [`StmtExecuteParamsFlags`].
pub struct StmtExecuteParamsNames;

/// `COM_STMT_EXECUTE`'s `new_params_bind_flag`: how the parameters are sent, in a byte.
pub type StmtExecuteParamsFlags = FlagWord<StmtExecuteParamsNames, u8>;

impl FlagWord<StmtExecuteParamsNames, u8> {
    /// The types of the parameters are sent too.
    pub const NEW_PARAMS_BOUND: StmtExecuteParamsFlags = FlagWord(1 << 0, PhantomData);

    const FLAGS: &'static [Flag<StmtExecuteParamsFlags>] =
        named_flags!(StmtExecuteParamsFlags: NEW_PARAMS_BOUND);
}

impl FlagNames<u8> for StmtExecuteParamsNames {
    const NAME: &'static str = "StmtExecuteParamsFlags";

    ghost table = { (codes "NEW_PARAMS_BOUND", NEW_PARAMS_BOUND) ∷ [] };

    fn flags<'a>() -> &'a [Flag<StmtExecuteParamsFlags>] {
        StmtExecuteParamsFlags::FLAGS
    }
}
