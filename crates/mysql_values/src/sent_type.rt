//! The type that a value is sent as.

ghost use Rattle.std.specs.Prelude.{◌≡◌};
ghost use Rattle.mysql_values.specs.Value.{content_of};
ghost use Rattle.mysql_values.specs.SentType as sent;
ghost use Rattle.mysql_values.specs.ValueRef.{ref_content};

use crate::value::Value;
use crate::value_ref::ValueRef;
use mysql_wire::ColumnType;

impl Value {
    /// Returns the column type that the value is sent as; unsigned numbers also have a flag: see
    /// [`is_uint`](Self::is_uint).
    #[inline]
    pub fn sent_type(&self) -> ColumnType
        ensures { result ≡ sent.sent_type (content_of self.now) }
    {
        match self {
            Value::NULL => ColumnType::MYSQL_TYPE_NULL,
            Value::Bytes(_) => ColumnType::MYSQL_TYPE_VAR_STRING,
            Value::Int(_) | Value::UInt(_) => ColumnType::MYSQL_TYPE_LONGLONG,
            Value::Float(_) => ColumnType::MYSQL_TYPE_FLOAT,
            Value::Double(_) => ColumnType::MYSQL_TYPE_DOUBLE,
            Value::Date(..) => ColumnType::MYSQL_TYPE_DATETIME,
            Value::Time(..) => ColumnType::MYSQL_TYPE_TIME,
        }
    }

    /// Whether the value is an unsigned number.
    #[inline]
    pub fn is_uint(&self) -> bool
        ensures { result ≡ sent.is_uint (content_of self.now) }
    {
        matches!(self, Value::UInt(_))
    }
}

impl ValueRef<'_> {
    /// Returns the column type that the value is sent as, like [`Value::sent_type`].
    #[inline]
    pub fn sent_type(&self) -> ColumnType
        ensures { result ≡ sent.sent_type (ref_content self.now) }
    {
        match self {
            ValueRef::NULL => ColumnType::MYSQL_TYPE_NULL,
            ValueRef::Bytes(_) => ColumnType::MYSQL_TYPE_VAR_STRING,
            ValueRef::Int(_) | ValueRef::UInt(_) => ColumnType::MYSQL_TYPE_LONGLONG,
            ValueRef::Float(_) => ColumnType::MYSQL_TYPE_FLOAT,
            ValueRef::Double(_) => ColumnType::MYSQL_TYPE_DOUBLE,
            ValueRef::Date(..) => ColumnType::MYSQL_TYPE_DATETIME,
            ValueRef::Time(..) => ColumnType::MYSQL_TYPE_TIME,
        }
    }

    /// Whether the value is an unsigned number.
    #[inline]
    pub fn is_uint(&self) -> bool
        ensures { result ≡ sent.is_uint (ref_content self.now) }
    {
        matches!(self, ValueRef::UInt(_))
    }
}
