//! The words of the text of a GTID set.

ghost use Rattle.std.specs.Prelude.{◌≡◌, ◌<◌, ◌∷◌, Some, option_map};
ghost use Rattle.mysql_repl.specs.GtidSetEntries.{lead};
ghost use Rattle.mysql_repl.specs.GtidSetText as spec;
ghost use Rattle.mysql_repl.specs.GtidSetTextParts.{left_words};
ghost use Rattle.mysql_repl.specs.SidText.{colon, comma};
ghost use Rattle.mysql_repl.specs.SidTextParts.{left_len};

use crate::gno_interval::GnoInterval;
use crate::sid_text::{InvalidSid, checked, cut_at_comma, cut_at_hyphen, first_part, number_of};

/// The maximum number of a transaction: 2^63 - 2.
const LAST_GNO: u64 = (1 << 63) - 2;

/// The text without ASCII white space at either end.
#[tactic(auto, using(crate::proofs::GtidSetTexts::trims))]
pub(crate) fn trimmed(text: &str) -> &str
    ensures value { result.now ≡ spec.trimmed text.now }
{
    text.trim_ascii_start().trim_ascii_end()
}

/// Parses digits as a number of 64 bits.
#[tactic(auto, unfolding(crate::specs::GtidSetText::plain_number))]
fn plain_number(text: &str) -> Option<u64>
    ensures value { result ≡ spec.plain_number text.now }
{
    let Some(first) = text.as_bytes().first() else {
        return None;
    };
    if *first == b'+' {
        return None;
    }
    number_of(text)
}

/// The interval from the first number to the last, if both are numbers of transactions.
fn server_numbers(first: Option<u64>, last: Option<u64>) -> Result<GnoInterval, InvalidSid>
    ensures value { result ≡ spec.server_numbers first last }
{
    let (Some(first), Some(last)) = (first, last) else {
        return Err(InvalidSid::Number);
    };
    if last > LAST_GNO {
        return Err(InvalidSid::TooLarge);
    }
    checked(first, last)
}

/// Parses a word as an interval.
#[tactic(auto, unfolding(crate::specs::GtidSetText::server_interval))]
pub(crate) fn server_interval(word: &str) -> Result<GnoInterval, InvalidSid>
    ensures value { result ≡ spec.server_interval word.now }
{
    let Some((first, last)) = cut_at_hyphen(word) else {
        let number = plain_number(word);
        return server_numbers(number, number);
    };
    if cut_at_hyphen(last).is_some() {
        return Err(InvalidSid::Parts);
    }
    server_numbers(plain_number(trimmed(first)), plain_number(trimmed(last)))
}

/// Splits a text at its first separator, and trims the part before it. The second part is `None` without a separator.
#[derive(Drop)]
pub(crate) struct Word<'a> {
    pub(crate) word: &'a str,
    pub(crate) left: Option<&'a str>,
}

/// The word up to the first colon.
#[tactic(auto, using(crate::proofs::GtidSetTexts::first_words))]
pub(crate) fn first_word(text: &str) -> Word<'_>
    ensures words { spec.words colon text.now ≡ result.word.now ∷ left_words colon (option_map (λ t. t.now) result.left) }
    ensures shorter { left_len (option_map (λ t. t.now) result.left) < left_len (Some text.now) }
{
    let first = first_part(text);
    Word {
        word: trimmed(first.part),
        left: first.left,
    }
}

/// The word up to the first comma.
#[tactic(auto, using(crate::proofs::GtidSetTexts::first_words))]
pub(crate) fn first_piece(text: &str) -> Word<'_>
    ensures words { spec.words comma text.now ≡ result.word.now ∷ left_words comma (option_map (λ t. t.now) result.left) }
    ensures shorter { left_len (option_map (λ t. t.now) result.left) < left_len (Some text.now) }
{
    match cut_at_comma(text) {
        Some((piece, left)) => Word {
            word: trimmed(piece),
            left: Some(left),
        },
        None => Word {
            word: trimmed(text),
            left: None,
        },
    }
}

/// Whether a word is an interval, not a tag.
pub(crate) fn is_interval(word: &str) -> bool
    ensures value { result ≡ spec.is_interval word.now }
{
    match word.as_bytes().first() {
        Some(first) => first.is_ascii_digit(),
        None => false,
    }
}

/// Returns the number of intervals that a text begins with.
fn intervals_before(text: &str) -> u64
    ensures value { result ≡ lead (spec.words colon text.now) }
{
    let mut count: u64 = 0;
    let mut left = Some(text);
    while let Some(text) = left {
        let first = first_word(text);
        if !is_interval(first.word) {
            return count;
        }
        count += 1;
        left = first.left;
    }
    count
}

/// Returns the number of intervals before the first tag.
pub(crate) fn leading_intervals(left: Option<&str>) -> u64
    ensures value { result ≡ lead (left_words colon (option_map (λ t. t.now) left.entry)) }
{
    match left {
        Some(text) => intervals_before(text),
        None => 0,
    }
}
