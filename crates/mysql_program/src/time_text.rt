//! Floats, dates and times as text.

ghost use Rattle.std.specs.Prelude.{◌≡◌, option_map};
ghost use Rattle.mysql_values.specs.Value.{content_of};
ghost use Rattle.mysql_program.specs.TimeText as spec;

use crate::decimal::{u8_of, u16_of, u32_of};
use crate::digits::are_digits;
use mysql_values::Value;
use std::str;

/// A time of day.
#[derive(Clone, Copy)]
struct TimeOfDay {
    hour: u8,
    minute: u8,
    second: u8,
    micros: u32,
}

/// Whether these are `count` hexadecimal digits.
#[tactic(auto, unfolding(crate::specs::TimeText::is_bit_word))]
fn is_bit_word(count: usize, word: &[u8]) -> bool
    ensures value { result ≡ spec.is_bit_word count word.now }
{
    word.len() == count && are_digits(word)
}

/// Parses eight hexadecimal digits as the bits of a float of 4 bytes.
#[tactic(auto, using(crate::proofs::Words::bit_words))]
pub fn float_of(word: &[u8]) -> Option<Value>
    ensures value { option_map content_of result ≡ spec.float_in word.now }
{
    if !is_bit_word(8, word) {
        return None;
    }
    let text = str::from_utf8(word).ok()?;
    Some(Value::Float(u32::from_str_radix(text, 16).ok()?))
}

/// Parses sixteen hexadecimal digits as the bits of a float of 8 bytes.
#[tactic(auto, using(crate::proofs::Words::bit_words))]
pub fn double_of(word: &[u8]) -> Option<Value>
    ensures value { option_map content_of result ≡ spec.double_in word.now }
{
    if !is_bit_word(16, word) {
        return None;
    }
    let text = str::from_utf8(word).ok()?;
    Some(Value::Double(u64::from_str_radix(text, 16).ok()?))
}

/// Whether the text has the length of a time of day, with the separators between its numbers.
#[tactic(auto, unfolding(crate::specs::TimeText::has_time_marks))]
fn has_time_marks(word: &[u8]) -> bool
    ensures value { result ≡ spec.has_time_marks word.now }
{
    word.len() == 16 && word[0] == b'T' && word[3] == b':' && word[6] == b':' && word[9] == b'.'
}

/// Parses a time of day: `THH:MM:SS.FFFFFF`.
#[tactic(auto, unfolding(crate::specs::TimeText::has_time_marks))]
fn time_of_day(word: &[u8]) -> Option<TimeOfDay>
    ensures value { result ≡ spec.time_of_day word.now }
{
    if !has_time_marks(word) {
        return None;
    }
    Some(TimeOfDay {
        hour: u8_of(&word[1..3])?,
        minute: u8_of(&word[4..6])?,
        second: u8_of(&word[7..9])?,
        micros: u32_of(&word[10..16])?,
    })
}

/// Whether the text has the length of a date, with the separators between its numbers.
#[tactic(auto, unfolding(crate::specs::TimeText::has_date_marks))]
fn has_date_marks(word: &[u8]) -> bool
    ensures value { result ≡ spec.has_date_marks word.now }
{
    10 <= word.len() && word[4] == b'-' && word[7] == b'-'
}

/// Parses a date with a time of day: `YYYY-MM-DDTHH:MM:SS.FFFFFF`.
#[tactic(auto, unfolding(crate::specs::TimeText::has_date_marks))]
pub fn date_of(word: &[u8]) -> Option<Value>
    ensures value { option_map content_of result ≡ spec.date_in word.now }
{
    if !has_date_marks(word) {
        return None;
    }
    let year = u16_of(&word[..4])?;
    let month = u8_of(&word[5..7])?;
    let day = u8_of(&word[8..10])?;
    let time = time_of_day(&word[10..])?;
    Some(Value::Date(
        year,
        month,
        day,
        time.hour,
        time.minute,
        time.second,
        time.micros,
    ))
}

/// Parses a time span of days and a time of day.
fn span_of(is_negative: bool, word: &[u8]) -> Option<Value>
    ensures value { option_map content_of result ≡ spec.span_in is_negative word.now }
{
    let end = word.len().saturating_sub(16);
    let days = u32_of(&word[..end])?;
    let time = time_of_day(&word[end..])?;
    Some(Value::Time(
        is_negative,
        days,
        time.hour,
        time.minute,
        time.second,
        time.micros,
    ))
}

/// Parses a time span, with an optional minus: `DTHH:MM:SS.FFFFFF`.
#[tactic(auto, using(crate::proofs::Decimals::signed))]
pub fn time_of(word: &[u8]) -> Option<Value>
    ensures value { option_map content_of result ≡ spec.time_in word.now }
{
    match word.strip_prefix(b"-") {
        Some(span) => span_of(true, span),
        None => span_of(false, word),
    }
}
