//! Fields as lines.

ghost use Rattle.std.specs.Prelude.{◌≡◌, ◌++◌, List, ℕ, Some, IfOk, OnOk, OnErr, string_bytes, true, false, codes};
ghost use Rattle.hex.specs.Hex.{encode_lower};
ghost use Rattle.mysql_values.specs.ValueRef.{ref_content};
ghost use Rattle.mysql_show.specs.Appended.{Stays};
ghost use Rattle.mysql_show.specs.FieldText as spec;
ghost use Rattle.mysql_show.specs.Fields.{have_float, held_of, is_temporal};
ghost use Rattle.mysql_show.specs.Floats as floats;

use crate::field::{Field, Shown};
use crate::float::{double_of, float_of};
use mysql_values::{DateTimeWithOffset, ValueRef};
use std::alloc::{AllocError, Global};

/// Appends a line for each field: `name: value`, with bytes as `x` and digits, a flag as `yes` or `no`, and `none` for an
/// absent value.
///
/// A float has the same digits as in JSON.
pub fn append_lines(alloc: Global, out: &mut String, fields: &[Field<'_>]) -> Result<(), AllocError>
    ensures ok { OnOk result (have_float fields.now ≡ false → string_bytes out.new ≡ string_bytes out.old ++ spec.lines_of fields.now) }
    ensures lines { OnOk result (spec.AppendsLines fields.now (string_bytes out.old) (string_bytes out.new)) }
    ensures stays { OnOk result (Stays (string_bytes out.old) (string_bytes out.new)) }
    ensures err { OnErr result (Stays (string_bytes out.old) (string_bytes out.new)) }
{
    for field in fields {
        append_line(alloc, out, field)?;
    }
    Ok(())
}

/// Appends the line of a field.
fn append_line(alloc: Global, out: &mut String, field: &Field<'_>) -> Result<(), AllocError>
    ensures line { OnOk result ((line : List ℕ) × spec.IsLine field.now line × (string_bytes out.new ≡ string_bytes out.old ++ line)) }
    ensures err { OnErr result (Stays (string_bytes out.old) (string_bytes out.new)) }
{
    let text = shown_text(alloc, &field.shown)?;
    put_line(out, field.name, text.as_str())
}

/// Appends a name and a text. (No clause says what `write!` leaves after an error.)
fn put_line(out: &mut String, name: &str, text: &str) -> Result<(), AllocError>
    ensures ok { OnOk result (string_bytes out.new ≡ string_bytes out.old ++ (name.now ++ (codes ": " ++ (text.now ++ codes "\n")))) }
    ensures err { OnErr result (Stays (string_bytes out.old) (string_bytes out.new)) }
{
    out.push_str(name)?;
    out.push_str(": ")?;
    out.push_str(text)?;
    out.push_str("\n")
}

/// The text of a field's value.
fn shown_text(alloc: Global, shown: &Shown<'_>) -> Result<String, AllocError>
    ensures text { IfOk result (λ text. spec.IsHeldText (held_of shown.now) (string_bytes text)) }
{
    match shown {
        Shown::Number(number) => format!(in alloc; "{number}"),
        Shown::Bytes(bytes) => prefixed(alloc, bytes),
        Shown::Digits(bytes) => hex::encode(alloc, *bytes),
        Shown::Word(word) => String::from_str(alloc, word),
        Shown::Flag(true) => String::from_str(alloc, "yes"),
        Shown::Flag(false) => String::from_str(alloc, "no"),
        Shown::Value(value) => value_text(alloc, value),
        Shown::DateTimeWithOffset(date) => offset_date_text(alloc, date),
        Shown::OptionalNumber(Some(number)) => format!(in alloc; "{number}"),
        Shown::OptionalBytes(Some(bytes)) => prefixed(alloc, bytes),
        Shown::OptionalNumber(None) | Shown::OptionalBytes(None) => {
            String::from_str(alloc, "none")
        }
    }
}

/// Returns an `x` and the hexadecimal digits of bytes.
fn prefixed(alloc: Global, bytes: &[u8]) -> Result<String, AllocError>
    ensures text { IfOk result (λ text. string_bytes text ≡ spec.prefixed bytes.now) }
{
    let digits = hex::encode(alloc, bytes)?;
    format!(in alloc; "x{digits}")
}

/// The text of a value.
fn value_text(alloc: Global, value: &ValueRef<'_>) -> Result<String, AllocError>
    ensures text { IfOk result (λ text. spec.IsValueText (ref_content value.now) (string_bytes text)) }
{
    match value {
        ValueRef::NULL => String::from_str(alloc, "NULL"),
        ValueRef::Bytes(bytes) => prefixed(alloc, bytes),
        ValueRef::Int(number) => format!(in alloc; "{number}"),
        ValueRef::UInt(number) => format!(in alloc; "{number}"),
        ValueRef::Float(bits) => match float_of(*bits) {
            Some(number) => number_text(alloc, f64::from(number)),
            None => String::from_str(alloc, "none"),
        },
        ValueRef::Double(bits) => match double_of(*bits) {
            Some(number) => number_text(alloc, number),
            None => String::from_str(alloc, "none"),
        },
        ValueRef::Date(_, _, _, _, _, _, _) | ValueRef::Time(_, _, _, _, _, _) => {
            temporal_text(alloc, value)
        }
    }
}

/// Returns a number as in JSON: `null` if it is infinite.
fn number_text(alloc: Global, number: f64) -> Result<String, AllocError>
    ensures text { IfOk result (λ text. floats.IsFloatText (Some number) (string_bytes text)) }
{
    serde_json::Value::from(number).to_string(alloc)
}

/// A date with its time of day, or a time: `2024-02-29 23:59:59.000001`, `-1 02:03:04.000000` with the days before the hours.
pub(crate) fn temporal_text(alloc: Global, value: &ValueRef<'_>) -> Result<String, AllocError>
    ensures text { IfOk result (λ text. is_temporal (ref_content value.now) ≡ true → string_bytes text ≡ spec.value_text (ref_content value.now)) }
{
    match value {
        ValueRef::Date(year, month, day, hour, minute, second, micros) => {
            let clock = clock_text(alloc, *hour, *minute, *second, *micros)?;
            format!(in alloc; "{year:04}-{month:02}-{day:02} {clock}")
        }
        ValueRef::Time(negative, days, hour, minute, second, micros) => {
            let clock = clock_text(alloc, *hour, *minute, *second, *micros)?;
            let sign = if *negative { "-" } else { "" };
            format!(in alloc; "{sign}{days} {clock}")
        }
        _ => String::from_str(alloc, "none"),
    }
}

/// A date and a time with its offset from UTC: `2011-02-03 04:05:06.123456+12:34`.
pub(crate) fn offset_date_text(
    alloc: Global,
    date: &DateTimeWithOffset,
) -> Result<String, AllocError>
    ensures text { IfOk result (λ text. string_bytes text ≡ spec.offset_date_text date.now) }
{
    let local = ValueRef::Date(
        date.year,
        date.month,
        date.day,
        date.hour,
        date.minute,
        date.second,
        date.micros,
    );
    let text = temporal_text(alloc, &local)?;
    let offset = offset_text(alloc, date.offset_minutes)?;
    format!(in alloc; "{text}{offset}")
}

/// An offset from UTC in minutes: its sign, the hours and the minutes.
fn offset_text(alloc: Global, minutes: i16) -> Result<String, AllocError>
    ensures text { IfOk result (λ text. string_bytes text ≡ spec.offset_text minutes) }
{
    let magnitude = minutes.unsigned_abs();
    if minutes < 0 {
        minutes_text(alloc, "-", magnitude)
    } else {
        minutes_text(alloc, "+", magnitude)
    }
}

/// Minutes as hours and minutes, after a sign.
fn minutes_text(alloc: Global, sign: &str, minutes: u16) -> Result<String, AllocError>
    ensures text { IfOk result (λ text. string_bytes text ≡ spec.minutes_text sign.now minutes) }
{
    let hours = minutes / 60;
    let rest = minutes % 60;
    format!(in alloc; "{sign}{hours:02}:{rest:02}")
}

/// Hours, minutes, seconds and microseconds.
#[tactic(auto, unfolding(crate::specs::FieldText::clock_text))]
fn clock_text(
    alloc: Global,
    hour: u8,
    minute: u8,
    second: u8,
    micros: u32,
) -> Result<String, AllocError>
    ensures text { IfOk result (λ text. string_bytes text ≡ spec.clock_text hour minute second micros) }
{
    format!(in alloc; "{hour:02}:{minute:02}:{second:02}.{micros:06}")
}
