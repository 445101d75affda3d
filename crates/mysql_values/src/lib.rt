//! The values of statements and rows: their binary and text forms, and their conversions.
#![tactic(auto)]

mod bin_cell;
mod date_time_with_offset;
mod from_value;
mod from_value_ref;
pub mod laws;
mod param_type;
mod param_value;
mod params;
mod sent_type;
mod side;
mod temporal;
mod typed_value;
mod value;
mod value_deserializer;
mod value_kind;
mod value_ref;
mod value_ref_reader;

pub use bin_cell::read_bin_cell;
pub use date_time_with_offset::{DateTimeWithOffset, InvalidOffsetDateLength};
pub use from_value::{FromValue, FromValueError};
pub use from_value_ref::{FromValueRef, FromValueRefError};
pub use param_type::ParamType;
pub use param_value::{ParamValue, read_param_value};
pub use params::{Params, ParamsError};
pub use side::{Binary, ClientSide, SerializationSide, ServerSide, Text};
pub use typed_value::TypedValue;
pub use value::Value;
pub use value_deserializer::{BinValue, TextValue, ValueDeserializer};
pub use value_kind::ValueKind;
pub use value_ref::ValueRef;
pub use value_ref_reader::{
    read_bin_ref, read_kind_ref, read_long_ref, read_longlong_ref, read_string_ref, read_text_ref,
};
