//! The column types that a caller declares.

ghost use Rattle.std.specs.Prelude.{◌≡◌, ◌≤◌, ◌⊎◌, [], length, map, position, not, true, vec_capacity, if◌then◌else◌};
ghost use Rattle.std.specs.Option.{option_copied};
ghost use Rattle.mysql_values.specs.ValueKind.{kind_of, is_longlong};
ghost use Rattle.mysql_values.specs.ValueRef.{ref_content};
ghost use Rattle.mysql_bulk.specs.ColumnTypes as spec;

use crate::declared_types::join_row;
use crate::row_value::RowValue;
use mysql_values::{ParamType, ValueKind, ValueRef, string_type};
use mysql_wire::{ColumnType, Flags, StmtExecuteParamFlags};

/// Whether values of the type have the same encoding as without a declared type.
fn is_declarable_type(column_type: ColumnType) -> bool
    ensures { result ≡ spec.is_declarable_type column_type }
{
    if let ColumnType::MYSQL_TYPE_BIT = column_type {
        return false;
    }
    !matches!(
        ValueKind::of(column_type),
        ValueKind::Tiny
            | ValueKind::Short
            | ValueKind::Long
            | ValueKind::Null
            | ValueKind::Unsupported
    )
}

fn is_longlong(column_type: ColumnType) -> bool
    ensures { result ≡ is_longlong (kind_of column_type) }
{
    matches!(column_type, ColumnType::MYSQL_TYPE_LONGLONG)
}

fn is_unsigned(kind: ParamType) -> bool
    ensures { result ≡ spec.is_unsigned kind }
{
    kind.flags().contains(StmtExecuteParamFlags::UNSIGNED)
}

/// Whether the type can be declared for a column: values of it have the same encoding as without a declared type, and only an
/// integer type may be unsigned.
#[inline]
pub fn is_declarable(kind: ParamType) -> bool
    ensures { result ≡ spec.is_declarable kind }
{
    let column_type = kind.column_type();
    let bits = kind.flags().bits();
    is_declarable_type(column_type) && (bits == 0 || (bits == 128 && is_longlong(column_type)))
}

/// The first position of a type that may not be declared.
pub(crate) fn first_refused(types: &[ParamType]) -> Option<usize>
    ensures { result ≡ position (λ kind. not (spec.is_declarable kind)) types.now }
{
    types.iter().position(|kind| !is_declarable(*kind))
}

/// Whether a value has the same encoding under the type as under its own.
// The most common types are matched by themselves: the compiler makes another jump for their kinds.
#[inline]
pub fn can_encode(kind: ParamType, value: &ValueRef<'_>) -> bool
    ensures { result ≡ spec.can_encode kind (ref_content value.now) }
{
    let column_type = kind.column_type();
    match value {
        ValueRef::NULL => true,
        ValueRef::Bytes(_) => matches!(column_type, string_type!()),
        ValueRef::Int(n) => is_longlong(column_type) && !(is_unsigned(kind) && *n < 0),
        ValueRef::UInt(n) => is_longlong(column_type) && (is_unsigned(kind) || *n < 1 << 63),
        value => ValueKind::of(column_type).matches_type(value),
    }
}

/// Whether the row has one value for each type, and each fits its type.
pub(crate) fn spell_row<V: RowValue>(types: &[ParamType], row: &[V]) -> bool
    ensures { result ≡ spec.spell_row types.now (map V.content row.now) }
{
    if types.len() != row.len() {
        return false;
    }
    for place in 0..row.len() {
        if !can_encode(types[place], &row[place].as_value_ref()) {
            return false;
        }
    }
    true
}

/// The types of the columns after another row, if they are to be sent: the declared ones, otherwise those of
/// its values and the rows before it.
#[inline(always)]
pub(crate) fn join_types<V: RowValue>(
    types: &mut Vec<ParamType>,
    types_due: bool,
    columns: Option<&[ParamType]>,
    row: &[V],
)
    requires may_follow { types_due ≡ true → spec.MayFollow (option_copied columns) types.old.items (map V.content row.now) }
    requires capacity { types_due ≡ true → length row.now ≤ vec_capacity types.old }
    ensures items { types.new.items ≡ (if types_due then spec.types_after_row (option_copied columns.entry) types.old.items (map V.content row.now) else types.old.items) }
    ensures kept { vec_capacity types.old ≤ vec_capacity types.new }
{
    match columns {
        None => join_row(types, types_due, row),
        Some(declared) => {
            if types_due && types.is_empty() {
                declare(types, declared);
            }
        }
    }
}

/// Copies the declared types. There is capacity for them.
fn declare(types: &mut Vec<ParamType>, declared: &[ParamType])
    requires empty { types.old.items ≡ [] }
    requires capacity { length declared.now ≤ vec_capacity types.old }
    ensures items { types.new.items ≡ declared.now }
    ensures kept { vec_capacity types.old ≤ vec_capacity types.new }
{
    for kind in declared {
        types.push_reserved(*kind);
    }
}
