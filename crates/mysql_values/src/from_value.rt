//! Conversions of values.

ghost use Rattle.std.specs.Prelude.{◌≡◌, ℕ, ℤ, IfOk, IfErr, MatchOption};

use crate::value::Value;
use std::str;
use thiserror::Error;

/// A value that does not convert to the requested type: the value itself, unchanged.
///
/// ```
/// u64::from_value_opt(value)
/// ```
#[derive(Clone, Debug, PartialEq, Drop, Error)]
#[error("FromValueError")]
pub struct FromValueError(pub Value);

/// A type that values convert to.
///
/// ```
/// u64::from_value_opt(value)
/// ```
pub trait FromValue: Sized {
    ghost use Rattle.mysql_values.specs.declared.value.Value.{Value};

    /// Whether a value converts to this one.
    ghost Converts: { Value → Self → Type 0 };

    /// Converts a value, or returns it unchanged in the error.
    fn from_value_opt(value: Value) -> Result<Self, FromValueError>
        ensures ok { IfOk result (λ converted. Converts value converted) }
        ensures err { IfErr result (λ refusal. (refusal.0 ≡ value) × ((x : Self) → Converts value x → ⊥)) };

    ghost use Rattle.mysql_values.specs.ByContent.{GoesByContent};

    /// Conversion depends only on a value's content: a clone converts exactly if the value does.
    ghost by_content: { GoesByContent Converts };
}

/// Any value, unchanged.
impl FromValue for Value {
    ghost Converts = { λ value converted. value ≡ converted };

    fn from_value_opt(value: Value) -> Result<Value, FromValueError> {
        Ok(value)
    }

    ghost use Rattle.mysql_values.specs.ByContent.{value_by_content};

    ghost by_content = { value_by_content };
}

/// An integer in range, or bytes that spell one in decimal, with an optional `+` or `-`.
impl FromValue for i64 {
    ghost use Rattle.mysql_values.specs.FromValue.{AsI64};

    ghost Converts = { AsI64 };

    fn from_value_opt(value: Value) -> Result<i64, FromValueError> {
        match value {
            Value::Int(number) => Ok(number),
            Value::UInt(number) => {
                i64::try_from(number).map_err(|_| FromValueError(Value::UInt(number)))
            }
            Value::Bytes(bytes) => match parse_i64(&bytes) {
                Some(number) => Ok(number),
                None => Err(FromValueError(Value::Bytes(bytes))),
            },
            other => Err(FromValueError(other)),
        }
    }

    ghost use Rattle.mysql_values.specs.ByContent.{i64_by_content};

    ghost by_content = { i64_by_content };
}

/// An integer in range, or bytes that spell one in decimal, with an optional `+`.
impl FromValue for u64 {
    ghost use Rattle.mysql_values.specs.FromValue.{AsU64};

    ghost Converts = { AsU64 };

    fn from_value_opt(value: Value) -> Result<u64, FromValueError> {
        match value {
            Value::UInt(number) => Ok(number),
            Value::Int(number) => {
                u64::try_from(number).map_err(|_| FromValueError(Value::Int(number)))
            }
            Value::Bytes(bytes) => match parse_u64(&bytes) {
                Some(number) => Ok(number),
                None => Err(FromValueError(Value::Bytes(bytes))),
            },
            other => Err(FromValueError(other)),
        }
    }

    ghost use Rattle.mysql_values.specs.ByContent.{u64_by_content};

    ghost by_content = { u64_by_content };
}

/// Bytes, unchanged.
impl FromValue for Vec<u8> {
    ghost use Rattle.mysql_values.specs.FromValue.{AsBytes};

    ghost Converts = { AsBytes };

    fn from_value_opt(value: Value) -> Result<Vec<u8>, FromValueError> {
        match value {
            Value::Bytes(bytes) => Ok(bytes),
            other => Err(FromValueError(other)),
        }
    }

    ghost use Rattle.mysql_values.specs.ByContent.{bytes_by_content};

    ghost by_content = { bytes_by_content };
}

/// Bytes that are valid UTF-8.
impl FromValue for String {
    ghost use Rattle.mysql_values.specs.FromValue.{AsText};

    ghost Converts = { AsText };

    fn from_value_opt(value: Value) -> Result<String, FromValueError> {
        match value {
            Value::Bytes(bytes) => match String::from_utf8(bytes) {
                Ok(text) => Ok(text),
                Err(error) => Err(FromValueError(Value::Bytes(error.into_bytes()))),
            },
            other => Err(FromValueError(other)),
        }
    }

    ghost use Rattle.mysql_values.specs.ByContent.{text_by_content};

    ghost by_content = { text_by_content };
}

/// NULL converts to `None`, any other value as it converts to `T`.
impl<T: FromValue> FromValue for Option<T> {
    ghost use Rattle.mysql_values.specs.FromValue.{AsOption};

    ghost Converts = { AsOption T.Converts };

    fn from_value_opt(value: Value) -> Result<Option<T>, FromValueError> {
        match value {
            Value::NULL => Ok(None),
            other => Ok(Some(T::from_value_opt(other)?)),
        }
    }

    ghost use Rattle.mysql_values.specs.ByContent.{option_by_content};

    ghost by_content = { option_by_content T.Converts T.by_content };
}

ghost use Rattle.mysql_values.specs.Numeral.{WritesSigned, WritesUnsigned};

/// Returns the number that the bytes spell.
pub(crate) fn parse_i64(bytes: &[u8]) -> Option<i64>
    ensures { MatchOption result ((x : ℤ) → WritesSigned bytes.now x → ⊥) (WritesSigned bytes.now) }
{
    match str::from_utf8(bytes) {
        Ok(text) => text.parse().ok(),
        Err(_) => None,
    }
}

/// Returns the number that the bytes spell.
pub(crate) fn parse_u64(bytes: &[u8]) -> Option<u64>
    ensures { MatchOption result ((n : ℕ) → WritesUnsigned bytes.now n → ⊥) (WritesUnsigned bytes.now) }
{
    match str::from_utf8(bytes) {
        Ok(text) => text.parse().ok(),
        Err(_) => None,
    }
}
