//! Conversions of values whose bytes are borrowed.

ghost use Rattle.std.specs.Prelude.{◌≡◌, IfOk, IfErr};
ghost use Rattle.mysql_values.specs.ValueRef.{ref_content};

use crate::from_value::{parse_i64, parse_u64};
use crate::value_ref::ValueRef;
use std::str;
use thiserror::Error;

/// A value that does not convert to the requested type: the value itself, unchanged.
#[derive(Clone, Copy, Debug, PartialEq, Error)]
#[error("FromValueError")]
pub struct FromValueRefError<'a>(pub ValueRef<'a>);

/// A type that values convert to without memory: bytes are borrowed.
///
/// [`ValueRef::to_owned`] makes an owned value, which converts by [`FromValue`](crate::FromValue).
///
/// ```
/// let row = TextRowView::new(columns, ParseBuf::new(alloc, payload));
/// let value = value_at(row, place)?;
/// u64::from_value_ref_opt(value).ok()
/// ```
pub trait FromValueRef<'a>: Sized {
    ghost use Rattle.mysql_values.specs.Value.{Content};

    /// Whether a value with this content converts to this one.
    ghost Converts: { Content → Self → Type 0 };

    /// Converts a value, or returns it unchanged in the error.
    fn from_value_ref_opt(value: ValueRef<'a>) -> Result<Self, FromValueRefError<'a>>
        ensures ok { IfOk result (λ converted. Converts (ref_content value.entry) converted) }
        ensures err { IfErr result (λ refusal. (refusal.0 ≡ value.entry) × ((x : Self) → Converts (ref_content value.entry) x → ⊥)) };
}

/// Any value, unchanged.
impl<'a> FromValueRef<'a> for ValueRef<'a> {
    ghost use Rattle.std.specs.Prelude.{◌≡◌};
    ghost use Rattle.mysql_values.specs.ValueRef.{ref_content};

    ghost Converts = { λ content converted. content ≡ ref_content converted };

    fn from_value_ref_opt(value: ValueRef<'a>) -> Result<Self, FromValueRefError<'a>> {
        Ok(value)
    }
}

/// An integer in range, or bytes that spell one in decimal, with an optional `+` or `-`.
impl<'a> FromValueRef<'a> for i64 {
    ghost use Rattle.mysql_values.specs.FromValueRef.{ContentAsI64};

    ghost Converts = { ContentAsI64 };

    fn from_value_ref_opt(value: ValueRef<'a>) -> Result<Self, FromValueRefError<'a>> {
        match value {
            ValueRef::Int(number) => Ok(number),
            ValueRef::UInt(number) => {
                i64::try_from(number).map_err(|_| FromValueRefError(ValueRef::UInt(number)))
            }
            ValueRef::Bytes(bytes) => match parse_i64(bytes) {
                Some(number) => Ok(number),
                None => Err(FromValueRefError(value)),
            },
            _ => Err(FromValueRefError(value)),
        }
    }
}

/// An integer in range, or bytes that spell one in decimal, with an optional `+`.
impl<'a> FromValueRef<'a> for u64 {
    ghost use Rattle.mysql_values.specs.FromValueRef.{ContentAsU64};

    ghost Converts = { ContentAsU64 };

    fn from_value_ref_opt(value: ValueRef<'a>) -> Result<Self, FromValueRefError<'a>> {
        match value {
            ValueRef::UInt(number) => Ok(number),
            ValueRef::Int(number) => {
                u64::try_from(number).map_err(|_| FromValueRefError(ValueRef::Int(number)))
            }
            ValueRef::Bytes(bytes) => match parse_u64(bytes) {
                Some(number) => Ok(number),
                None => Err(FromValueRefError(value)),
            },
            _ => Err(FromValueRefError(value)),
        }
    }
}

/// Bytes, borrowed.
impl<'a> FromValueRef<'a> for &'a [u8] {
    ghost use Rattle.mysql_values.specs.FromValueRef.{ContentAsBytes};

    ghost Converts = { λ content bytes. ContentAsBytes content bytes.now };

    fn from_value_ref_opt(value: ValueRef<'a>) -> Result<Self, FromValueRefError<'a>> {
        match value {
            ValueRef::Bytes(bytes) => Ok(bytes),
            _ => Err(FromValueRefError(value)),
        }
    }
}

/// Bytes that are valid UTF-8, borrowed.
impl<'a> FromValueRef<'a> for &'a str {
    ghost use Rattle.mysql_values.specs.FromValueRef.{ContentAsText};

    ghost Converts = { λ content text. ContentAsText content text.now };

    fn from_value_ref_opt(value: ValueRef<'a>) -> Result<Self, FromValueRefError<'a>> {
        match value {
            ValueRef::Bytes(bytes) => match str::from_utf8(bytes) {
                Ok(text) => Ok(text),
                Err(_) => Err(FromValueRefError(value)),
            },
            _ => Err(FromValueRefError(value)),
        }
    }
}

/// NULL converts to `None`, any other value as it converts to `T`.
impl<'a, T: FromValueRef<'a>> FromValueRef<'a> for Option<T> {
    ghost use Rattle.mysql_values.specs.FromValueRef.{ContentAsOption};

    ghost Converts = { ContentAsOption T.Converts };

    fn from_value_ref_opt(value: ValueRef<'a>) -> Result<Self, FromValueRefError<'a>> {
        match value {
            ValueRef::NULL => Ok(None),
            other => Ok(Some(T::from_value_ref_opt(other)?)),
        }
    }
}
