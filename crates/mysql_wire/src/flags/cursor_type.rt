//! Which cursor a statement opens: written by tools/tables.py from tables/cursor_type.txt.

ghost use Rattle.std.specs.Prelude.{[], ◌∷◌, codes};
ghost use Rattle.mysql_wire.specs.FlagMasks.{CURSOR_TYPE_NO_CURSOR, CURSOR_TYPE_READ_ONLY, CURSOR_TYPE_FOR_UPDATE, CURSOR_TYPE_SCROLLABLE, PARAMETER_COUNT_AVAILABLE};

use crate::flags::{FlagNames, FlagWord, named_flags};
use bitflags::Flag;
use std::marker::PhantomData;

/// The names of [`CursorType`].
pub struct CursorNames;

/// `COM_STMT_EXECUTE`'s flags: which cursor the statement opens, in a byte.
pub type CursorType = FlagWord<CursorNames, u8>;

impl FlagWord<CursorNames, u8> {
    /// No cursor.
    pub const CURSOR_TYPE_NO_CURSOR: CursorType = FlagWord(0, PhantomData);

    /// A cursor that only reads rows.
    pub const CURSOR_TYPE_READ_ONLY: CursorType = FlagWord(1 << 0, PhantomData);

    /// A cursor for updates.
    pub const CURSOR_TYPE_FOR_UPDATE: CursorType = FlagWord(1 << 1, PhantomData);

    /// A scrollable cursor: rows are fetched in any order.
    pub const CURSOR_TYPE_SCROLLABLE: CursorType = FlagWord(1 << 2, PhantomData);

    /// The count of parameters is sent (MySQL, under CLIENT_QUERY_ATTRIBUTES).
    pub const PARAMETER_COUNT_AVAILABLE: CursorType = FlagWord(1 << 3, PhantomData);

    const FLAGS: &'static [Flag<CursorType>] =
        named_flags!(CursorType: CURSOR_TYPE_NO_CURSOR, CURSOR_TYPE_READ_ONLY, CURSOR_TYPE_FOR_UPDATE, CURSOR_TYPE_SCROLLABLE, PARAMETER_COUNT_AVAILABLE);
}

impl FlagNames<u8> for CursorNames {
    const NAME: &'static str = "CursorType";

    ghost table = { (codes "CURSOR_TYPE_NO_CURSOR", CURSOR_TYPE_NO_CURSOR) ∷ (codes "CURSOR_TYPE_READ_ONLY", CURSOR_TYPE_READ_ONLY) ∷ (codes "CURSOR_TYPE_FOR_UPDATE", CURSOR_TYPE_FOR_UPDATE) ∷ (codes "CURSOR_TYPE_SCROLLABLE", CURSOR_TYPE_SCROLLABLE) ∷ (codes "PARAMETER_COUNT_AVAILABLE", PARAMETER_COUNT_AVAILABLE) ∷ [] };

    fn flags<'a>() -> &'a [Flag<CursorType>] {
        CursorType::FLAGS
    }
}
