//! The kept properties of a column.

ghost use Rattle.std.specs.Prelude.{◌≡◌};
ghost use Rattle.mysql_statements.specs.Statement as spec;

use mysql_stmt::TypedColumn;
use mysql_values::ParamType;
use mysql_wire::{ColumnType, Flags, StmtExecuteParamFlags};

/// The kept properties of a column, by which binary rows are read: its type, and whether its integers are unsigned.
///
/// ```
/// statements.columns_of_rows().unwrap_or(&[])
/// ```
#[derive(Clone, Copy, Debug, PartialEq, Eq)]
pub struct RowColumn {
    /// The type of the column.
    pub column_type: ColumnType,
    /// Whether the numbers are unsigned.
    pub is_unsigned: bool,
}

impl RowColumn {
    /// Converts to the type of a parameter.
    pub(crate) fn param_type(&self) -> ParamType
        ensures { result ≡ spec.param_type_of self.now }
    {
        let flags = if self.is_unsigned {
            StmtExecuteParamFlags::UNSIGNED
        } else {
            StmtExecuteParamFlags::from_bits_retain(0)
        };
        ParamType::new(self.column_type, flags)
    }
}

impl TypedColumn for RowColumn {
    ghost type_of = { λ c. c.column_type };

    #[inline(always)]
    fn value_type(&self) -> ColumnType {
        self.column_type
    }

    ghost unsigned = { λ c. c.is_unsigned };

    #[inline(always)]
    fn is_unsigned(&self) -> bool {
        self.is_unsigned
    }
}
