//! Borrowed parts of a sid's text.

ghost use Rattle.std.specs.Prelude.{◌≡◌, ◌≢◌, IfErr, length, option_map};
ghost use Rattle.mysql_repl.specs.declared.sid_text.InvalidSid.TheVariants as fault;
ghost use Rattle.mysql_repl.specs.SidText as spec;

use crate::gno_interval::GnoInterval;
use crate::sid::UUID_LEN;
use crate::sid_text::{
    InvalidSid, checked, cut_at_colon, cut_at_hyphen, first_part, number_of, uuid_of,
};
use crate::tag_ref::TagRef;
use std::marker::Model;

/// The interval from one number to another, if both are numbers.
fn from_numbers(first: Option<u64>, last: Option<u64>) -> Result<GnoInterval, InvalidSid>
    ensures value { result ≡ spec.from_numbers first last }
{
    match (first, last) {
        (Some(first), Some(last)) => checked(first, last),
        _ => Err(InvalidSid::Number),
    }
}

/// Parses an interval.
#[tactic(auto, unfolding(crate::specs::SidText::read_interval))]
fn read_interval(text: &str) -> Result<GnoInterval, InvalidSid>
    ensures value { result ≡ spec.read_interval text.now }
{
    let Some((first, last)) = cut_at_hyphen(text) else {
        let number = number_of(text);
        return from_numbers(number, number);
    };
    if cut_at_hyphen(last).is_some() {
        return Err(InvalidSid::Parts);
    }
    from_numbers(number_of(first), number_of(last))
}

/// An iterator over the intervals in a text, which are separated by colons. It takes no memory.
///
/// Each interval is parsed by itself: after an error the next ones follow. In a clause it is the list of the
/// results of the remaining intervals.
///
/// ```
/// let sid = SidTextRef::new(text)?;
/// let mut count: usize = 0;
/// for interval in sid.intervals() {
///     interval?;
///     count = count.saturating_add(1);
/// }
/// Ok(count)
/// ```
#[derive(Debug, Drop)]
pub struct IntervalTextsRef<'a> {
    /// The text that isn't parsed yet; `None` after the last interval.
    rest: Option<&'a str>,
}

impl<'a> Model for IntervalTextsRef<'a> {
    ghost use Rattle.std.specs.Prelude.{List, Result, option_map};
    ghost use Rattle.mysql_repl.specs.declared.gno_interval.GnoInterval.{GnoInterval};
    ghost use Rattle.mysql_repl.specs.declared.sid_text.InvalidSid.{InvalidSid};
    ghost use Rattle.mysql_repl.specs.SidText.{read_each};
    ghost use Rattle.mysql_repl.specs.SidTextParts.{left_parts};

    ghost Value = { List (Result GnoInterval InvalidSid) };

    ghost view = { λ p. read_each (left_parts (option_map (λ t. t.now) p.rest)) };
}

/// Returns the number of parts of a text that are separated by colons.
#[tactic(auto, using(crate::proofs::IntervalTexts::counts))]
fn count_parts(text: &str) -> usize
    ensures value { result ≡ length (spec.parts_of text.now) }
{
    let mut colons: usize = 0;
    for byte in text.as_bytes() {
        if *byte == b':' {
            colons += 1;
        }
    }
    colons + 1
}

impl IntervalTextsRef<'_> {
    /// The number of remaining intervals.
    #[tactic(auto, using(crate::proofs::IntervalTexts::counts))]
    pub fn left(&self) -> usize
        ensures value { result ≡ length self.now }
    {
        match self.rest {
            Some(text) => count_parts(text),
            None => 0,
        }
    }
}

impl<'a> Iterator for IntervalTextsRef<'a> {
    type Item = Result<GnoInterval, InvalidSid>;

    ghost use Rattle.std.specs.Prelude.{length, ⊤};
    ghost use Rattle.std.specs.Iterator.{at_most};
    ghost use Rattle.mysql_repl.specs.InPlace.{NextItem};

    ghost can_next = { λ _. ⊤ };

    ghost next_gives = { NextItem };

    ghost remaining = { λ left. at_most (length left) };

    #[tactic(auto, using(crate::proofs::IntervalTexts::next_reads))]
    fn next(&mut self) -> Option<Result<GnoInterval, InvalidSid>> {
        let text = self.rest?;
        let first = first_part(text);
        self.rest = first.left;
        Some(read_interval(first.part))
    }
}

/// The borrowed parts of a sid's text: its uuid, its tag if there is one, and its intervals, which aren't parsed yet. It takes
/// no memory.
///
/// In a clause it is these parts, with the result of parsing each interval.
///
/// ```
/// let sid = SidTextRef::new(text)?;
/// let mut count: usize = 0;
/// for interval in sid.intervals() {
///     interval?;
///     count = count.saturating_add(1);
/// }
/// Ok(count)
/// ```
#[derive(Debug, Drop)]
pub struct SidTextRef<'a> {
    uuid: [u8; UUID_LEN],
    tag: Option<TagRef<'a>>,
    intervals: &'a str,
}

impl<'a> Model for SidTextRef<'a> {
    ghost use Rattle.mysql_repl.specs.SidText.{SidParts, parts_with};

    ghost Value = { SidParts };

    ghost view = { λ s. parts_with s.uuid s.tag s.intervals.now };
}

/// Parses the text after a uuid.
#[tactic(auto, unfolding(crate::specs::SidText::parts_after))]
fn after_uuid(uuid: [u8; UUID_LEN], text: &str) -> Result<SidTextRef<'_>, InvalidSid>
    ensures value { result ≡ spec.parts_after uuid text.now }
    ensures no_memory { IfErr result (λ refusal. refusal ≢ fault.Memory) }
{
    let Some(first) = text.as_bytes().first() else {
        return Err(InvalidSid::Empty);
    };
    if first.is_ascii_digit() {
        return Ok(SidTextRef {
            uuid,
            tag: None,
            intervals: text,
        });
    }
    let Some((tag, intervals)) = cut_at_colon(text) else {
        return Err(InvalidSid::NoIntervals);
    };
    let tag = Some(TagRef::new(tag)?);
    Ok(SidTextRef {
        uuid,
        tag,
        intervals,
    })
}

impl<'a> SidTextRef<'a> {
    /// Splits a text into its parts, in the form that [`Sid::from_str`](crate::Sid::from_str) reads. An invalid
    /// text returns the same first error, except for errors of intervals, which aren't parsed yet.
    #[tactic(auto, unfolding(crate::specs::SidText::sid_parts, crate::specs::SidText::read_sid))]
    pub fn new(text: &'a str) -> Result<Self, InvalidSid>
        ensures value { result ≡ spec.sid_parts text.now }
        ensures sid { spec.read_sid text.now ≡ spec.sid_of result }
        ensures no_memory { IfErr result (λ refusal. refusal ≢ fault.Memory) }
    {
        let Some((uuid, text)) = cut_at_colon(text) else {
            return Err(InvalidSid::NoColon);
        };
        let Some(uuid) = uuid_of(uuid) else {
            return Err(InvalidSid::Uuid);
        };
        after_uuid(uuid, text)
    }

    /// The server's identifier.
    #[inline]
    pub fn uuid(&self) -> [u8; UUID_LEN]
        ensures value { result ≡ self.now.uuid }
    {
        self.uuid
    }

    /// The tag, if there is one.
    #[inline]
    pub fn tag(&self) -> Option<&TagRef<'a>>
        ensures value { option_map (λ t. t.now) result ≡ self.now.tag }
    {
        self.tag.as_ref()
    }

    /// Returns an iterator over the intervals.
    #[inline]
    pub fn intervals(&self) -> IntervalTextsRef<'a>
        ensures value { result ≡ self.now.intervals }
    {
        IntervalTextsRef {
            rest: Some(self.intervals),
        }
    }
}
