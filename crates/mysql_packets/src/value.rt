//! The values of statements and rows.

pub use mysql_values::{
    BinValue, ClientSide, DateTimeWithOffset, InvalidOffsetDateLength, ParamType, ParamValue,
    SerializationSide, ServerSide, TextValue, TypedValue, Value, ValueDeserializer, ValueRef,
    read_bin_cell, read_bin_ref, read_text_ref,
};

/// Conversions of values.
pub mod convert {
    pub use mysql_values::{FromValue, FromValueError, FromValueRef, FromValueRefError};
}
