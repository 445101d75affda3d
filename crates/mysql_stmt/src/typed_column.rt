//! The properties of a column that a reader of binary rows needs.

ghost use Rattle.std.specs.Prelude.{◌≡◌};

use mysql_replies::{Column, ColumnRef};
use mysql_wire::{ColumnFlags, ColumnType, Flags};

/// A column as a reader of binary rows sees it: its type, and whether its numbers are unsigned.
///
/// [`Column`] and [`ColumnRef`] implement it, and so can a type of the caller that keeps only these two.
pub trait TypedColumn {
    ghost use Rattle.std.specs.Prelude.{Bool};
    ghost use Rattle.mysql_wire.specs.declared.codes.column_type.ColumnType.{ColumnType};

    ghost type_of: { Self → ColumnType };

    /// The type of the values.
    fn value_type(&self) -> ColumnType
        ensures { result ≡ type_of self.now };

    ghost unsigned: { Self → Bool };

    /// Whether the numbers are unsigned.
    fn is_unsigned(&self) -> bool
        ensures { result ≡ unsigned self.now };
}

impl TypedColumn for Column {
    ghost use Rattle.mysql_replies.specs.Column.{column_type, flags};
    ghost use Rattle.mysql_wire.specs.FlagMasks.{UNSIGNED_FLAG};
    ghost use Rattle.mysql_wire.specs.Flags.{has};

    ghost type_of = { column_type };

    #[inline(always)]
    fn value_type(&self) -> ColumnType {
        self.column_type()
    }

    ghost unsigned = { λ c. has (flags c).0 UNSIGNED_FLAG };

    #[inline(always)]
    fn is_unsigned(&self) -> bool {
        self.flags().contains(ColumnFlags::UNSIGNED_FLAG)
    }
}

/// The type and the sign of the column.
impl TypedColumn for ColumnRef<'_> {
    ghost type_of = { ⟦<Column as TypedColumn>⟧.type_of };

    #[inline(always)]
    fn value_type(&self) -> ColumnType {
        self.column_type()
    }

    ghost unsigned = { ⟦<Column as TypedColumn>⟧.unsigned };

    #[inline(always)]
    fn is_unsigned(&self) -> bool {
        self.flags().contains(ColumnFlags::UNSIGNED_FLAG)
    }
}
