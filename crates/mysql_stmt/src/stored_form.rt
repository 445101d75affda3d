//! How the values of a stored row are encoded.

ghost use Rattle.std.specs.Prelude.{false, ◌≡◌, List, ℕ};
ghost use Rattle.mysql_wire.specs.Reading.{Answers};
ghost use Rattle.mysql_values.specs.ValueDeserializer.{value_of_kind};
ghost use Rattle.mysql_values.specs.ValueRef.{refs_contents};
ghost use Rattle.mysql_stmt.specs.StoredRow.{IsCode, IsStoredAs, form_of_code};

use mysql_values::{
    ValueKind, ValueRef, read_kind_ref, read_long_ref, read_longlong_ref, read_string_ref,
};
use mysql_wire::{FaultOf, ParseBuf};

/// How a value of a [`StoredRow`](crate::StoredRow) is encoded: its kind, and whether a number is signed.
#[derive(Clone, Copy, Debug, PartialEq, Eq)]
pub enum StoredForm {
    /// NULL, which takes no bytes.
    Null,
    /// A length-encoded string.
    String,
    /// A signed integer of one byte.
    Tiny,
    /// An unsigned integer of one byte.
    UnsignedTiny,
    /// A signed integer of two bytes.
    Short,
    /// An unsigned integer of two bytes.
    UnsignedShort,
    /// A signed integer of four bytes.
    Long,
    /// An unsigned integer of four bytes.
    UnsignedLong,
    /// A signed integer of eight bytes.
    LongLong,
    /// An unsigned integer of eight bytes.
    UnsignedLongLong,
    /// A float of four bytes.
    Float,
    /// A float of eight bytes.
    Double,
    /// A date, with or without a time of day.
    Date,
    /// A time span.
    Time,
}

impl StoredForm {
    /// Returns the form of the values of a kind. No value has the kind `Unsupported`.
    #[inline(always)]
    pub(crate) fn of(kind: ValueKind, is_unsigned: bool) -> Self
        ensures value { IsStoredAs kind is_unsigned result }
    {
        match kind {
            ValueKind::String => StoredForm::String,
            ValueKind::Tiny if is_unsigned => StoredForm::UnsignedTiny,
            ValueKind::Tiny => StoredForm::Tiny,
            ValueKind::Short if is_unsigned => StoredForm::UnsignedShort,
            ValueKind::Short => StoredForm::Short,
            ValueKind::Long if is_unsigned => StoredForm::UnsignedLong,
            ValueKind::Long => StoredForm::Long,
            ValueKind::LongLong if is_unsigned => StoredForm::UnsignedLongLong,
            ValueKind::LongLong => StoredForm::LongLong,
            ValueKind::Float => StoredForm::Float,
            ValueKind::Double => StoredForm::Double,
            ValueKind::Date | ValueKind::DateTime => StoredForm::Date,
            ValueKind::Time => StoredForm::Time,
            ValueKind::Null | ValueKind::Unsupported => StoredForm::Null,
        }
    }

    /// The number of the form.
    #[inline(always)]
    pub(crate) fn code(self) -> u8
        ensures value { IsCode self result }
    {
        self as u8
    }
}

/// The kind of the values whose form has this number, and whether they are unsigned.
#[inline(always)]
fn kind_of_code(code: u64) -> (ValueKind, bool)
    ensures reads { (bytes : List ℕ) → (form_of_code code).reads bytes ≡ (value_of_kind result.0 result.1).reads bytes }
{
    match code {
        1 => (ValueKind::String, false),
        2 => (ValueKind::Tiny, false),
        3 => (ValueKind::Tiny, true),
        4 => (ValueKind::Short, false),
        5 => (ValueKind::Short, true),
        6 => (ValueKind::Long, false),
        7 => (ValueKind::Long, true),
        8 => (ValueKind::LongLong, false),
        9 => (ValueKind::LongLong, true),
        10 => (ValueKind::Float, false),
        11 => (ValueKind::Double, false),
        12 => (ValueKind::Date, false),
        13 => (ValueKind::Time, false),
        _ => (ValueKind::Null, false),
    }
}

/// Reads a value of a less frequent form.
#[inline(never)]
fn read_seldom<'s, 'de>(code: u64, buf: &mut ParseBuf<'de>) -> Result<ValueRef<'de>, FaultOf<'s>>
    ensures value { Answers false (refs_contents result) buf.new ((form_of_code code).reads buf.old) }
{
    let (kind, is_unsigned) = kind_of_code(code);
    read_kind_ref(kind, is_unsigned, buf)
}

/// Reads a value of the form with this number, by code of its own for the most frequent forms.
#[inline(always)]
pub(crate) fn read_coded<'s, 'de>(
    code: u64,
    buf: &mut ParseBuf<'de>,
) -> Result<ValueRef<'de>, FaultOf<'s>>
    ensures value { Answers false (refs_contents result) buf.new ((form_of_code code).reads buf.old) }
{
    match code {
        0 => Ok(ValueRef::NULL),
        1 => read_string_ref(buf),
        6 => read_long_ref(false, buf),
        7 => read_long_ref(true, buf),
        8 => read_longlong_ref(false, buf),
        9 => read_longlong_ref(true, buf),
        _ => {
            // (a buffer of its own, so that those of the other arms stay in registers)
            let mut rest = buf.rest();
            let value = read_seldom(code, &mut rest)?;
            *buf = rest;
            Ok(value)
        }
    }
}
