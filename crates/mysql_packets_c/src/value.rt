//! Values in C.
#![tactic(auto, unfolding(crate::specs::Value::value_content, crate::specs::Value::param_content))]

ghost use Rattle.std.specs.Int.{w64, cast_signed};
ghost use Rattle.std.specs.List.{list_all};
ghost use Rattle.std.specs.Prelude.{◌≡◌, [], IfSome, is_some};
ghost use Rattle.mysql_values.specs.ValueRef.{ref_content};
ghost use Rattle.mysql_values.specs.ParamValue.{Plain, WithOffset};
ghost use Rattle.mysql_packets_c.specs.Value.{KeepsDate, Sets, SetsParam, date_with_offset_of, is_offset, is_offset_date, is_param, is_value, param_content, value_content};

use mysql_values::{DateTimeWithOffset, ValueRef};

/// A value of a row or of a parameter: `myp_value` of the C header.
#[repr(C)]
#[derive(Clone, Copy, Drop)]
pub struct CValue<'a> {
    /// The kind: 0 NULL, 1 bytes, 2 a signed and 3 an unsigned number, 4 and 5 the bits of floats of 4 and 8
    /// bytes, 6 a date, 7 a time span, 8 a date with an offset from UTC, which only parameters and attributes
    /// have.
    pub kind: u8,
    pub is_negative: u8,
    pub month: u8,
    pub day: u8,
    pub hour: u8,
    pub minute: u8,
    pub second: u8,
    pub reserved: u8,
    pub micros: u32,
    /// The year of a date, or the days of a time span.
    pub days: u32,
    pub number: u64,
    pub bytes: &'a [u8],
}

#[inline(always)]
fn put_number(place: &mut CValue<'_>, kind: u8, number: u64)
    ensures kind { place.new.kind ≡ kind }
    ensures number { place.new.number ≡ number }
    ensures bytes { place.new.bytes.now ≡ [] }
    ensures date { KeepsDate place.old place.new }
    ensures reserved { place.new.reserved ≡ place.old.reserved }
{
    place.kind = kind;
    place.number = number;
    place.bytes = &[];
}

/// Stores a value in one of the caller. The fields of dates are only set for dates and time spans.
#[inline(always)]
pub(crate) fn put_ref<'a>(place: &mut CValue<'a>, value: ValueRef<'a>)
    ensures content { value_content place.new ≡ ref_content value.entry }
    ensures param { param_content place.new ≡ Plain (ref_content value.entry) }
    ensures set { Sets (ref_content value.entry) place.old place.new }
{
    match value {
        ValueRef::NULL => put_number(place, 0, 0),
        ValueRef::Bytes(bytes) => {
            place.kind = 1;
            place.bytes = bytes;
        }
        ValueRef::Int(n) => put_number(place, 2, n.cast_unsigned()),
        ValueRef::UInt(n) => put_number(place, 3, n),
        ValueRef::Float(bits) => put_number(place, 4, u64::from(bits)),
        ValueRef::Double(bits) => put_number(place, 5, bits),
        ValueRef::Date(year, month, day, hour, minute, second, micros) => {
            put_number(place, 6, 0);
            place.is_negative = 0;
            place.month = month;
            place.day = day;
            place.hour = hour;
            place.minute = minute;
            place.second = second;
            place.micros = micros;
            place.days = u32::from(year);
        }
        ValueRef::Time(is_negative, days, hour, minute, second, micros) => {
            put_number(place, 7, 0);
            place.is_negative = is_negative as u8;
            place.month = 0;
            place.day = 0;
            place.hour = hour;
            place.minute = minute;
            place.second = second;
            place.micros = micros;
            place.days = days;
        }
    }
}

/// Stores a date with an offset from UTC in a value of the caller: the offset is the number, in minutes.
pub(crate) fn put_date_with_offset(place: &mut CValue<'_>, date: DateTimeWithOffset)
    ensures content { param_content place.new ≡ WithOffset date }
    ensures set { SetsParam (WithOffset date) place.old place.new }
{
    put_ref(
        place,
        ValueRef::Date(
            date.year,
            date.month,
            date.day,
            date.hour,
            date.minute,
            date.second,
            date.micros,
        ),
    );
    place.kind = 8;
    place.number = i64::from(date.offset_minutes).cast_unsigned();
}

/// Converts the caller's value; `None` if it is invalid: its kind is unknown, or its number doesn't fit its kind.
#[inline(always)]
pub(crate) fn to_ref<'a>(value: &CValue<'a>) -> Option<ValueRef<'a>>
    ensures value { IfSome result (λ v. ref_content v ≡ value_content value.now) }
    ensures is_there { is_some result ≡ is_value value.now }
{
    match value.kind {
        0 => Some(ValueRef::NULL),
        1 => Some(ValueRef::Bytes(value.bytes)),
        2 => Some(ValueRef::Int(value.number.cast_signed())),
        3 => Some(ValueRef::UInt(value.number)),
        4 => Some(ValueRef::Float(u32::try_from(value.number).ok()?)),
        5 => Some(ValueRef::Double(value.number)),
        6 => Some(ValueRef::Date(
            u16::try_from(value.days).ok()?,
            value.month,
            value.day,
            value.hour,
            value.minute,
            value.second,
            value.micros,
        )),
        7 => Some(ValueRef::Time(
            value.is_negative != 0,
            value.days,
            value.hour,
            value.minute,
            value.second,
            value.micros,
        )),
        _ => None,
    }
}

/// Whether the value is valid: its kind is known, and its number fits the kind.
pub(crate) fn is_value(value: &CValue<'_>) -> bool
    ensures { result ≡ is_value value.now }
{
    match value.kind {
        // (the kinds that most values have are found by one comparison, and 5 and 7 by a bit: a match on all of them is a table,
        // which takes longer)
        0 | 1 | 2 | 3 => true,
        kind if kind % 2 == 1 => kind < 8,
        4 => value.number < 1 << 32,
        6 => value.days < 1 << 16,
        _ => false,
    }
}

/// Whether the number is an offset: it fits 16 bits, in two's complement.
fn is_offset(number: u64) -> bool
    ensures { result ≡ is_offset number }
{
    number < 1 << 15 || number >= u64::MAX - 0x7fff
}

/// Returns the offset in the number, if it is one.
#[tactic(auto, using(crate::proofs::Offsets::offsets))]
fn offset_of(number: u64) -> Option<i16>
    ensures value { IfSome result (λ offset. offset ≡ cast_signed w64 number) }
    ensures is_there { is_some result ≡ is_offset number }
{
    i16::try_from(number.cast_signed()).ok()
}

/// Whether the value is a date with an offset, whose year and offset fit 16 bits.
pub(crate) fn is_offset_date(value: &CValue<'_>) -> bool
    ensures { result ≡ is_offset_date value.now }
{
    value.kind == 8 && value.days < 1 << 16 && is_offset(value.number)
}

/// Converts the caller's date with an offset; `None` if it is invalid: its kind is another one, or its year or
/// its offset doesn't fit in 16 bits.
pub(crate) fn to_date_with_offset(value: &CValue<'_>) -> Option<DateTimeWithOffset>
    ensures value { IfSome result (λ date. date ≡ date_with_offset_of value.now) }
    ensures is_there { is_some result ≡ is_offset_date value.now }
{
    if value.kind != 8 {
        return None;
    }
    Some(DateTimeWithOffset {
        year: u16::try_from(value.days).ok()?,
        month: value.month,
        day: value.day,
        hour: value.hour,
        minute: value.minute,
        second: value.second,
        micros: value.micros,
        offset_minutes: offset_of(value.number)?,
    })
}

/// Whether the value is valid for a parameter or an attribute: a value, or a date with an offset.
#[inline(always)]
pub(crate) fn is_param(value: &CValue<'_>) -> bool
    ensures { result ≡ is_param value.now }
{
    is_value(value) || is_offset_date(value)
}

/// Whether all values are valid for parameters.
#[inline(always)]
pub(crate) fn are_params(values: &[CValue<'_>]) -> bool
    ensures { result ≡ list_all is_param values.now }
{
    values.iter().all(|value| is_param(value))
}

/// Whether all values are valid.
#[inline(always)]
pub(crate) fn are_values(values: &[CValue<'_>]) -> bool
    ensures { result ≡ list_all is_value values.now }
{
    values.iter().all(|value| is_value(value))
}
