//! Numbers in decimal.

ghost use Rattle.std.specs.Prelude.{◌≡◌, ◌^◌, ◌+◌, option_map, neg_ℤ, pos, nat_lt, Some, None, if◌then◌else◌};
ghost use Rattle.std.specs.Char.{is_ascii_digit};
ghost use Rattle.std.specs.List.{list_all};
ghost use Rattle.mysql_program.specs.Decimal as spec;

use std::str;

/// Whether these are decimal digits, at least one.
#[tactic(auto, unfolding(crate::specs::Decimal::is_decimal))]
fn is_decimal(word: &[u8]) -> bool
    ensures value { result ≡ spec.is_decimal word.now }
{
    !word.is_empty() && are_decimal(word)
}

/// Whether each of these is a decimal digit.
fn are_decimal(word: &[u8]) -> bool
    ensures value { result ≡ list_all is_ascii_digit word.now }
{
    word.iter().all(|digit| digit.is_ascii_digit())
}

/// Parses one or more digits as a number of at most 64 bits.
#[tactic(auto, using(crate::proofs::Decimals::numbers))]
pub fn u64_of(word: &[u8]) -> Option<u64>
    ensures value { result ≡ spec.number_below (2 ^ 64) word.now }
{
    if !is_decimal(word) {
        return None;
    }
    let text = str::from_utf8(word).ok()?;
    text.parse().ok()
}

/// Parses a decimal number of 32 bits.
#[tactic(auto, using(crate::proofs::Decimals::narrower))]
pub fn u32_of(word: &[u8]) -> Option<u32>
    ensures value { result ≡ spec.number_below (2 ^ 32) word.now }
{
    u32::try_from(u64_of(word)?).ok()
}

/// Parses a decimal number of 16 bits.
#[tactic(auto, using(crate::proofs::Decimals::narrower))]
pub fn u16_of(word: &[u8]) -> Option<u16>
    ensures value { result ≡ spec.number_below (2 ^ 16) word.now }
{
    u16::try_from(u64_of(word)?).ok()
}

/// Parses a decimal number of 8 bits.
#[tactic(auto, using(crate::proofs::Decimals::narrower))]
pub fn u8_of(word: &[u8]) -> Option<u8>
    ensures value { result ≡ spec.number_below (2 ^ 8) word.now }
{
    u8::try_from(u64_of(word)?).ok()
}

/// Parses a signed number of 64 bits: digits with an optional minus.
#[tactic(auto, using(crate::proofs::Decimals::signed), unfolding(crate::specs::Decimal::i64_of))]
pub fn i64_of(word: &[u8]) -> Option<i64>
    ensures value { result ≡ spec.i64_of word.now }
{
    match word.strip_prefix(b"-") {
        Some(digits) => negative(u64_of(digits)?),
        None => i64::try_from(u64_of(word)?).ok(),
    }
}

fn negative(number: u64) -> Option<i64>
    ensures value { result ≡ (if nat_lt number (2 ^ 63 + 1) then Some (neg_ℤ (pos number)) else None) }
{
    i64::try_from(-i128::from(number)).ok()
}
