//! Numbers of text rows.
#![tactic(auto, unfolding(crate::specs::TextNumber::after_sign))]

ghost use Rattle.std.specs.Char.{is_ascii_digit};
ghost use Rattle.std.specs.Float.{binary64};
ghost use Rattle.std.specs.Float.Parse.{parse_float};
ghost use Rattle.std.specs.Int.{w64};
ghost use Rattle.std.specs.List.{list_all};
ghost use Rattle.std.specs.Prelude.{FitsSigned, ◌≡◌, ◌<◌, ◌^◌};
ghost use Rattle.std.specs.Str.Parse.{IsNumeral, digits_value, signed_digits_value, without_leading_plus, without_leading_sign};
ghost use Rattle.mysql_packets_c.specs.TextNumber as spec;

use crate::code::{INVALID_DATA, OK, OUT_OF_RANGE};

/// The text after its sign, if it has one.
fn after_sign(text: &[u8]) -> &[u8]
    ensures { result.now ≡ spec.after_sign text.now }
{
    match text.split_first() {
        Some((first, rest)) if *first == b'+' || *first == b'-' => rest,
        _ => text,
    }
}

fn are_digits(text: &[u8]) -> bool
    ensures { result ≡ list_all is_ascii_digit text.now }
{
    text.iter().all(|byte| byte.is_ascii_digit())
}

/// Whether the text is one or more digits.
fn is_numeral(text: &[u8]) -> bool
    ensures { result ≡ spec.is_numeral text.now }
{
    match text.split_first() {
        Some((first, rest)) => first.is_ascii_digit() && are_digits(rest),
        None => false,
    }
}

/// Whether the text is digits, after an optional sign.
fn is_integer(text: &[u8]) -> bool
    ensures { result ≡ spec.is_integer text.now }
{
    is_numeral(after_sign(text))
}

fn has_digit(text: &[u8]) -> bool
    ensures { result ≡ spec.has_digit text.now }
{
    text.iter().any(|byte| byte.is_ascii_digit())
}

/// Returns the code for a text that is not a number of a type.
fn code_of_integer(text: &[u8]) -> u32
    ensures { result ≡ spec.integer_code text.now }
{
    if is_integer(text) {
        OUT_OF_RANGE
    } else {
        INVALID_DATA
    }
}

/// Parses a text as a signed integer of 64 bits. Errors: 8 for an integer out of range; 2 for another text.
/// After an error the output is unchanged.
#[unsafe(no_mangle)]
pub extern "C" fn myp_text_to_int(text: &[u8], out: &mut i64) -> u32
    ensures value { spec.Converts (IsNumeral 10 (without_leading_sign text.now) × FitsSigned w64 (signed_digits_value 10 text.now)) (signed_digits_value 10 text.now) (spec.integer_code text.now) result out.old out.new }
{
    match fast_float::parse_i64(text) {
        Ok(number) => {
            *out = number;
            OK
        }
        Err(_) => code_of_integer(text),
    }
}

/// Parses a text as an unsigned integer of 64 bits, with an optional plus. Errors: 8 for an integer out of
/// range; 2 for another text. After an error the output is unchanged.
#[unsafe(no_mangle)]
pub extern "C" fn myp_text_to_uint(text: &[u8], out: &mut u64) -> u32
    ensures value { spec.Converts (IsNumeral 10 (without_leading_plus text.now) × (digits_value 10 (without_leading_plus text.now) < 2 ^ 64)) (digits_value 10 (without_leading_plus text.now)) (spec.integer_code text.now) result out.old out.new }
{
    match fast_float::parse_u64(text) {
        Ok(number) => {
            *out = number;
            OK
        }
        Err(_) => code_of_integer(text),
    }
}

/// Parses a text as a number, and stores the nearest float. Errors: 8 for a number beyond the range of floats;
/// 2 for another text. After an error the output is unchanged.
#[unsafe(no_mangle)]
pub extern "C" fn myp_text_to_double(text: &[u8], out: &mut f64) -> u32
    ensures value { spec.ConvertsFloat (parse_float binary64 text.now) (spec.has_digit text.now) result out.old out.new }
{
    match fast_float::parse::<f64, &[u8]>(text) {
        Ok(number) => {
            if number.is_finite() {
                *out = number;
                OK
            } else if has_digit(text) {
                OUT_OF_RANGE
            } else {
                INVALID_DATA
            }
        }
        Err(_) => INVALID_DATA,
    }
}
