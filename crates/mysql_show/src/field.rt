//! The fields of a packet.

ghost use Rattle.std.specs.Prelude.{◌≡◌, ◌++◌, OnErr, OnOk, option_map};
ghost use Rattle.mysql_values.specs.ParamValue.{param_content};
ghost use Rattle.mysql_values.specs.ValueRef.{ref_content};
ghost use Rattle.mysql_show.specs.Fields as spec;

use mysql_values::{DateTimeWithOffset, ParamValue, ValueRef};
use std::alloc::AllocError;
use std::marker::Model;

/// The value of a field.
#[derive(Clone, Copy)]
pub(crate) enum Shown<'a> {
    /// A number.
    Number(u64),
    /// Bytes; in JSON a string if they are UTF-8.
    Bytes(&'a [u8]),
    /// Bytes that are only shown as hexadecimal digits.
    Digits(&'a [u8]),
    /// A word.
    Word(&'a str),
    /// A flag.
    Flag(bool),
    /// A value of a row or a parameter.
    Value(ValueRef<'a>),
    /// A date and a time with an offset from UTC, in a parameter or an attribute.
    DateTimeWithOffset(DateTimeWithOffset),
    /// A number, if the packet has one.
    OptionalNumber(Option<u64>),
    /// Bytes, if the packet has them.
    OptionalBytes(Option<&'a [u8]>),
}

/// A field: its name and its value.
///
/// A packet may have several fields with the name `attribute`, `attribute_value`, `parameter`, `value`,
/// `variable`, `variable_value` or `expected`.
#[derive(Drop)]
pub struct Field<'a> {
    /// The name.
    pub(crate) name: &'static str,
    /// The value.
    pub(crate) shown: Shown<'a>,
}

impl<'a> Model for Field<'a> {
    ghost use Rattle.mysql_show.specs.Fields.{Said, said, held_of};

    ghost Value = { Said };

    ghost view = { λ f. said f.name.now (held_of f.shown) };
}

impl<'a> Field<'a> {
    /// Creates a field with a number.
    pub fn number(name: &'static str, number: u64) -> Self
        ensures value { result ≡ spec.said name.now (spec.Number number) }
    {
        Field {
            name,
            shown: Shown::Number(number),
        }
    }

    /// Creates a field with bytes.
    pub fn bytes(name: &'static str, bytes: &'a [u8]) -> Self
        ensures value { result ≡ spec.said name.now (spec.Bytes bytes.now) }
    {
        Field {
            name,
            shown: Shown::Bytes(bytes),
        }
    }

    /// Creates a field with bytes that are only shown as hexadecimal digits.
    pub fn digits(name: &'static str, bytes: &'a [u8]) -> Self
        ensures value { result ≡ spec.said name.now (spec.Digits bytes.now) }
    {
        Field {
            name,
            shown: Shown::Digits(bytes),
        }
    }

    /// Creates a field with a word.
    pub fn word(name: &'static str, word: &'a str) -> Self
        ensures value { result ≡ spec.said name.now (spec.Word word.now) }
    {
        Field {
            name,
            shown: Shown::Word(word),
        }
    }

    /// Creates a field with a flag.
    pub fn flag(name: &'static str, flag: bool) -> Self
        ensures value { result ≡ spec.said name.now (spec.Flag flag) }
    {
        Field {
            name,
            shown: Shown::Flag(flag),
        }
    }

    /// Creates a field with a value of a row or a parameter.
    pub fn value(name: &'static str, value: ValueRef<'a>) -> Self
        ensures value { result ≡ spec.said name.now (spec.Value (ref_content value.entry)) }
    {
        Field {
            name,
            shown: Shown::Value(value),
        }
    }

    /// Creates a field with a value of a parameter or an attribute.
    pub fn param(name: &'static str, value: ParamValue<'a>) -> Self
        ensures value { result ≡ spec.said name.now (spec.param_held (param_content value.entry)) }
    {
        match value {
            ParamValue::Value(value) => Field::value(name, value),
            ParamValue::DateTimeWithOffset(date) => Field {
                name,
                shown: Shown::DateTimeWithOffset(date),
            },
        }
    }

    /// Creates a field with a number, or without a value.
    pub fn optional_number(name: &'static str, number: Option<u64>) -> Self
        ensures value { result ≡ spec.said name.now (spec.OptionalNumber number) }
    {
        Field {
            name,
            shown: Shown::OptionalNumber(number),
        }
    }

    /// Creates a field with bytes, or without a value.
    pub fn optional_bytes(name: &'static str, bytes: Option<&'a [u8]>) -> Self
        ensures value { result ≡ spec.said name.now (spec.OptionalBytes (option_map (λ b. b.now) bytes.entry)) }
    {
        Field {
            name,
            shown: Shown::OptionalBytes(bytes),
        }
    }

    /// Copies the field.
    fn copied(&self) -> Self
        ensures value { result ≡ self.now }
    {
        Field {
            name: self.name,
            shown: self.shown,
        }
    }
}

/// Appends fields. After an error the list is as it was.
pub fn add_fields<'a>(more: &[Field<'a>], fields: &mut Vec<Field<'a>>) -> Result<(), AllocError>
    ensures ok { OnOk result (fields.new.items ≡ fields.old.items ++ more.now) }
    ensures err { OnErr result (fields.new.items ≡ fields.old.items) }
{
    fields.reserve(more.len())?;
    for field in more {
        fields.push_reserved(field.copied());
    }
    Ok(())
}
