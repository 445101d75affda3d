//! The attributes of a column: written by tools/tables.py from tables/column_flags.txt.

ghost use Rattle.std.specs.Prelude.{[], ◌∷◌, codes};
ghost use Rattle.mysql_wire.specs.FlagMasks.{NOT_NULL_FLAG, PRI_KEY_FLAG, UNIQUE_KEY_FLAG, MULTIPLE_KEY_FLAG, BLOB_FLAG, UNSIGNED_FLAG, ZEROFILL_FLAG, BINARY_FLAG, ENUM_FLAG, AUTO_INCREMENT_FLAG, TIMESTAMP_FLAG, SET_FLAG, NO_DEFAULT_VALUE_FLAG, ON_UPDATE_NOW_FLAG, PART_KEY_FLAG, NUM_FLAG};

use crate::flags::{FlagNames, FlagWord, named_flags};
use bitflags::Flag;
use std::marker::PhantomData;

/// The names of [`ColumnFlags`].
pub struct ColumnFlagNames;

/// `Protocol::ColumnDefinition41`'s flags: the attributes of a column, in two bytes.
pub type ColumnFlags = FlagWord<ColumnFlagNames, u16>;

impl FlagWord<ColumnFlagNames, u16> {
    /// No value is NULL.
    pub const NOT_NULL_FLAG: ColumnFlags = FlagWord(1 << 0, PhantomData);

    /// The column is part of the primary key.
    pub const PRI_KEY_FLAG: ColumnFlags = FlagWord(1 << 1, PhantomData);

    /// The column is part of a unique key.
    pub const UNIQUE_KEY_FLAG: ColumnFlags = FlagWord(1 << 2, PhantomData);

    /// The column is part of a key that isn't unique.
    pub const MULTIPLE_KEY_FLAG: ColumnFlags = FlagWord(1 << 3, PhantomData);

    /// The column is a BLOB or a TEXT.
    pub const BLOB_FLAG: ColumnFlags = FlagWord(1 << 4, PhantomData);

    /// Numbers are unsigned.
    pub const UNSIGNED_FLAG: ColumnFlags = FlagWord(1 << 5, PhantomData);

    /// Numbers are shown with leading zeros.
    pub const ZEROFILL_FLAG: ColumnFlags = FlagWord(1 << 6, PhantomData);

    /// Strings are bytes, or are compared by their bytes.
    pub const BINARY_FLAG: ColumnFlags = FlagWord(1 << 7, PhantomData);

    /// The column is an ENUM.
    pub const ENUM_FLAG: ColumnFlags = FlagWord(1 << 8, PhantomData);

    /// The column is AUTO_INCREMENT.
    pub const AUTO_INCREMENT_FLAG: ColumnFlags = FlagWord(1 << 9, PhantomData);

    /// The column is a TIMESTAMP.
    pub const TIMESTAMP_FLAG: ColumnFlags = FlagWord(1 << 10, PhantomData);

    /// The column is a SET.
    pub const SET_FLAG: ColumnFlags = FlagWord(1 << 11, PhantomData);

    /// The column has no default value.
    pub const NO_DEFAULT_VALUE_FLAG: ColumnFlags = FlagWord(1 << 12, PhantomData);

    /// An update sets the column to the current time.
    pub const ON_UPDATE_NOW_FLAG: ColumnFlags = FlagWord(1 << 13, PhantomData);

    /// The column is part of a key.
    pub const PART_KEY_FLAG: ColumnFlags = FlagWord(1 << 14, PhantomData);

    /// The column is a number.
    pub const NUM_FLAG: ColumnFlags = FlagWord(1 << 15, PhantomData);

    const FLAGS: &'static [Flag<ColumnFlags>] =
        named_flags!(ColumnFlags: NOT_NULL_FLAG, PRI_KEY_FLAG, UNIQUE_KEY_FLAG, MULTIPLE_KEY_FLAG, BLOB_FLAG, UNSIGNED_FLAG, ZEROFILL_FLAG, BINARY_FLAG, ENUM_FLAG, AUTO_INCREMENT_FLAG, TIMESTAMP_FLAG, SET_FLAG, NO_DEFAULT_VALUE_FLAG, ON_UPDATE_NOW_FLAG, PART_KEY_FLAG, NUM_FLAG);
}

impl FlagNames<u16> for ColumnFlagNames {
    const NAME: &'static str = "ColumnFlags";

    ghost table = { (codes "NOT_NULL_FLAG", NOT_NULL_FLAG) ∷ (codes "PRI_KEY_FLAG", PRI_KEY_FLAG) ∷ (codes "UNIQUE_KEY_FLAG", UNIQUE_KEY_FLAG) ∷ (codes "MULTIPLE_KEY_FLAG", MULTIPLE_KEY_FLAG) ∷ (codes "BLOB_FLAG", BLOB_FLAG) ∷ (codes "UNSIGNED_FLAG", UNSIGNED_FLAG) ∷ (codes "ZEROFILL_FLAG", ZEROFILL_FLAG) ∷ (codes "BINARY_FLAG", BINARY_FLAG) ∷ (codes "ENUM_FLAG", ENUM_FLAG) ∷ (codes "AUTO_INCREMENT_FLAG", AUTO_INCREMENT_FLAG) ∷ (codes "TIMESTAMP_FLAG", TIMESTAMP_FLAG) ∷ (codes "SET_FLAG", SET_FLAG) ∷ (codes "NO_DEFAULT_VALUE_FLAG", NO_DEFAULT_VALUE_FLAG) ∷ (codes "ON_UPDATE_NOW_FLAG", ON_UPDATE_NOW_FLAG) ∷ (codes "PART_KEY_FLAG", PART_KEY_FLAG) ∷ (codes "NUM_FLAG", NUM_FLAG) ∷ [] };

    fn flags<'a>() -> &'a [Flag<ColumnFlags>] {
        ColumnFlags::FLAGS
    }
}
