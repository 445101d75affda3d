//! The types of a bulk request's columns, updated row by row.

ghost use Rattle.std.specs.Prelude.{◌≡◌, ◌+◌, ◌≤◌, ◌⊎◌, [], length, map, vec_capacity, true, if◌then◌else◌};
ghost use Rattle.mysql_bulk.specs.DeclaredTypes.{type_with, types_with_row};

use crate::row_value::RowValue;
use mysql_values::ParamType;
use mysql_wire::{ColumnType, StmtExecuteParamFlags};

/// Joins a value to the type of its column so far.
// A type is written only when it changes.
#[inline]
fn join_value<V: RowValue>(kind: &mut ParamType, value: &V)
    ensures { kind.new ≡ type_with kind.old (V.content value.now) }
{
    let known = kind.column_type();
    if known == ColumnType::MYSQL_TYPE_NULL {
        *kind = value.param_type();
    } else if value.is_unsigned_number() && known == ColumnType::MYSQL_TYPE_LONGLONG {
        *kind = ParamType::new(
            ColumnType::MYSQL_TYPE_LONGLONG,
            StmtExecuteParamFlags::UNSIGNED,
        );
    }
}

/// Stores the types of the first row. There is capacity for them.
#[inline(never)]
#[tactic(auto, using(crate::proofs::DeclaredTypes::first_more))]
fn first_types<V: RowValue>(types: &mut Vec<ParamType>, row: &[V])
    requires empty { types.old.items ≡ [] }
    requires capacity { length row.now ≤ vec_capacity types.old }
    ensures items { types.new.items ≡ types_with_row [] (map V.content row.now) }
    ensures kept { vec_capacity types.old ≤ vec_capacity types.new }
{
    for value in row {
        types.push_reserved(value.param_type());
    }
}

/// Joins the values of a further row to the types of their columns so far.
#[inline(never)]
fn further_types<V: RowValue>(types: &mut [ParamType], row: &[V])
    requires { length types.old ≡ length row.now }
    ensures { types.new ≡ types_with_row types.old (map V.content row.now) }
{
    for place in 0..row.len() {
        join_value(&mut types[place], &row[place]);
    }
}

/// Joins the values of a row to the types of their columns so far, if types are due. There are none before the
/// first row.
#[inline(always)]
pub(crate) fn join_row<V: RowValue>(types: &mut Vec<ParamType>, types_due: bool, row: &[V])
    requires lengths { types_due ≡ true → (length types.old.items ≡ length row.now) ⊎ (types.old.items ≡ []) }
    requires capacity { types_due ≡ true → length row.now ≤ vec_capacity types.old }
    ensures items { types.new.items ≡ (if types_due then types_with_row types.old.items (map V.content row.now) else types.old.items) }
    ensures kept { vec_capacity types.old ≤ vec_capacity types.new }
{
    if !types_due {
        return;
    }
    if types.is_empty() {
        first_types(types, row);
    } else {
        further_types(types, row);
    }
}
