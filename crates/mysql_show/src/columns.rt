//! The fields of a column's definition.

ghost use Rattle.std.specs.Prelude.{◌≡◌};
ghost use Rattle.mysql_show.specs.Columns as spec;

use crate::field::Field;
use mysql_replies::ColumnRef;
use mysql_wire::Flags;

/// The names of a column, as fields.
pub fn column_names<'p>(column: &ColumnRef<'p>) -> [Field<'p>; 5]
    ensures value { result ≡ spec.column_names column.now }
{
    [
        Field::bytes("schema", column.schema()),
        Field::bytes("table", column.table()),
        Field::bytes("org_table", column.org_table()),
        Field::bytes("name", column.name()),
        Field::bytes("org_name", column.org_name()),
    ]
}

/// The numbers of a column, as fields; they follow the names.
pub fn column_numbers<'p>(column: &ColumnRef<'p>) -> [Field<'p>; 5]
    ensures value { result ≡ spec.column_numbers column.now }
{
    [
        Field::number("character_set", u64::from(column.character_set())),
        Field::number("column_length", u64::from(column.column_length())),
        Field::number("column_type", u64::from(u8::from(column.column_type()))),
        Field::number("flags", u64::from(column.flags().bits())),
        Field::number("decimals", u64::from(column.decimals())),
    ]
}
