//! The kinds of values, by column type.

ghost use Rattle.std.specs.Prelude.{◌≡◌};
ghost use Rattle.mysql_values.specs.ValueKind.{kind_of, matches_type};
ghost use Rattle.mysql_values.specs.ValueRef.{ref_content};

use crate::value_ref::ValueRef;
use mysql_wire::ColumnType;

/// The kind of a column type's values.
#[derive(Clone, Copy, Debug, PartialEq, Eq)]
pub enum ValueKind {
    /// Strings of bytes.
    String,
    /// Integers of one byte.
    Tiny,
    /// Integers of two bytes.
    Short,
    /// Integers of four bytes.
    Long,
    /// Integers of eight bytes.
    LongLong,
    /// Floats of four bytes.
    Float,
    /// Floats of eight bytes.
    Double,
    /// Dates without a time of day.
    Date,
    /// Dates with a time of day.
    DateTime,
    /// Time spans.
    Time,
    /// Only NULL.
    Null,
    /// The type has no values.
    Unsupported,
}

/// A pattern of the [`ColumnType`]s whose values are strings.
#[macro_export]
macro_rules! string_type {
    () => {
        (ColumnType::MYSQL_TYPE_DECIMAL
        | ColumnType::MYSQL_TYPE_VARCHAR
        | ColumnType::MYSQL_TYPE_BIT
        | ColumnType::MYSQL_TYPE_VECTOR
        | ColumnType::MYSQL_TYPE_JSON
        | ColumnType::MYSQL_TYPE_NEWDECIMAL
        | ColumnType::MYSQL_TYPE_ENUM
        | ColumnType::MYSQL_TYPE_SET
        | ColumnType::MYSQL_TYPE_TINY_BLOB
        | ColumnType::MYSQL_TYPE_MEDIUM_BLOB
        | ColumnType::MYSQL_TYPE_LONG_BLOB
        | ColumnType::MYSQL_TYPE_BLOB
        | ColumnType::MYSQL_TYPE_VAR_STRING
        | ColumnType::MYSQL_TYPE_STRING
        | ColumnType::MYSQL_TYPE_GEOMETRY)
    };
}

impl ValueKind {
    /// Returns the kind of values of a column type.
    #[inline(always)]
    pub fn of(column_type: ColumnType) -> Self
        ensures value { result ≡ kind_of column_type }
    {
        match column_type {
            string_type!() => ValueKind::String,
            ColumnType::MYSQL_TYPE_TINY => ValueKind::Tiny,
            ColumnType::MYSQL_TYPE_SHORT | ColumnType::MYSQL_TYPE_YEAR => ValueKind::Short,
            ColumnType::MYSQL_TYPE_LONG | ColumnType::MYSQL_TYPE_INT24 => ValueKind::Long,
            ColumnType::MYSQL_TYPE_LONGLONG => ValueKind::LongLong,
            ColumnType::MYSQL_TYPE_FLOAT => ValueKind::Float,
            ColumnType::MYSQL_TYPE_DOUBLE => ValueKind::Double,
            ColumnType::MYSQL_TYPE_DATE => ValueKind::Date,
            ColumnType::MYSQL_TYPE_TIMESTAMP | ColumnType::MYSQL_TYPE_DATETIME => {
                ValueKind::DateTime
            }
            ColumnType::MYSQL_TYPE_TIME => ValueKind::Time,
            ColumnType::MYSQL_TYPE_NULL => ValueKind::Null,
            ColumnType::MYSQL_TYPE_CODE_14
            | ColumnType::MYSQL_TYPE_CODE_17
            | ColumnType::MYSQL_TYPE_CODE_18
            | ColumnType::MYSQL_TYPE_CODE_19
            | ColumnType::MYSQL_TYPE_CODE_20
            | ColumnType::MYSQL_TYPE_CODE_243 => ValueKind::Unsupported,
        }
    }

    /// Whether a value is NULL or of this kind, if the kind isn't one of integers. A value of the kind `Date`
    /// has no time of day.
    #[inline(always)]
    pub fn matches_type(self, value: &ValueRef<'_>) -> bool
        ensures value { result ≡ matches_type self (ref_content value.now) }
    {
        match value {
            ValueRef::NULL => true,
            ValueRef::Bytes(_) => matches!(self, ValueKind::String),
            ValueRef::Int(_) | ValueRef::UInt(_) => false,
            ValueRef::Float(_) => matches!(self, ValueKind::Float),
            ValueRef::Double(_) => matches!(self, ValueKind::Double),
            ValueRef::Date(_, _, _, hour, minute, second, micros) => match self {
                ValueKind::Date => *micros == 0 && *hour == 0 && *minute == 0 && *second == 0,
                ValueKind::DateTime => true,
                _ => false,
            },
            ValueRef::Time(..) => matches!(self, ValueKind::Time),
        }
    }
}
