//! The text of a sid.

ghost use Rattle.std.specs.Prelude.{◌≡◌, ◌++◌, ◌+◌, ◌<◌, ◌∷◌, ℕ, List, Option, Some, None, Ok, Err, true, false, option_map, MatchOption, IfOk, IfSome, codes};
ghost use Rattle.std.specs.List.{flat_map};
ghost use Rattle.uuid.specs.Text.{parsed};
ghost use Rattle.mysql_repl.specs.declared.sid.Sid.{Sid};
ghost use Rattle.mysql_repl.specs.declared.sid_text.InvalidSid.TheVariants as fault;
ghost use Rattle.mysql_repl.specs.SidGrammar.{SpellsSid};
ghost use Rattle.mysql_repl.specs.SidText as spec;
ghost use Rattle.mysql_repl.specs.SidTextParts.{left_parts, left_len, items_read};

use crate::gno_interval::{GnoInterval, InvalidGno};
use crate::sid::Sid;
use crate::sid_text_ref::{IntervalTextsRef, SidTextRef};
use crate::tag::{InvalidTag, Tag};
use std::alloc::{AllocError, AllocFailed, Global};
use std::fmt;
use thiserror::Error;
use uuid::Uuid;

/// The first error in the text of a sid or of a GTID set.
///
/// ```
/// let sid = SidTextRef::new(text)?;
/// let mut count: usize = 0;
/// for interval in sid.intervals() {
///     interval?;
///     count = count.saturating_add(1);
/// }
/// Ok(count)
/// ```
#[derive(Clone, Debug, PartialEq, Drop, Error)]
pub enum InvalidSid {
    /// No colon follows the uuid.
    #[error("NoColon")]
    NoColon,
    /// The text before the first colon isn't a uuid.
    #[error("Uuid")]
    Uuid,
    /// Nothing follows the first colon, or in a GTID set, any colon.
    #[error("Empty")]
    Empty,
    /// The text before the intervals isn't a tag.
    #[error("{0}")]
    Tag(InvalidTag),
    /// No colon follows the tag, or in a GTID set, no interval.
    #[error("NoIntervals")]
    NoIntervals,
    /// An interval has more than one hyphen.
    #[error("Parts")]
    Parts,
    /// An interval has a character that isn't a digit, or a number of more than 64 bits. In a GTID set a plus
    /// sign is an error too.
    #[error("Number")]
    Number,
    /// The last number of an interval is 2^64 - 1, so that there is no next one, or in a GTID set, it is above
    /// 2^63 - 2.
    #[error("TooLarge")]
    TooLarge,
    /// The numbers are no interval of transactions.
    #[error("{0}")]
    Gno(InvalidGno),
    /// An allocation failed. The same text can be parsed again once memory is available.
    #[error("Memory")]
    Memory,
}

impl From<InvalidTag> for InvalidSid {
    ghost from_gives = { λ fault_of_tag e. e ≡ fault.Tag fault_of_tag };

    fn from(error: InvalidTag) -> InvalidSid {
        InvalidSid::Tag(error)
    }
}

impl From<InvalidGno> for InvalidSid {
    ghost from_gives = { λ fault_of_gno e. e ≡ fault.Gno fault_of_gno };

    fn from(error: InvalidGno) -> InvalidSid {
        InvalidSid::Gno(error)
    }
}

impl From<AllocError> for InvalidSid {
    ghost from_gives = { λ _ e. e ≡ fault.Memory };

    fn from(_error: AllocError) -> InvalidSid {
        InvalidSid::Memory
    }
}

impl<T: Drop> From<AllocFailed<T>> for InvalidSid {
    ghost from_gives = { λ _ e. e ≡ fault.Memory };

    fn from(_error: AllocFailed<T>) -> InvalidSid {
        InvalidSid::Memory
    }
}

/// Splits at the first colon.
#[tactic(auto, using(crate::proofs::SidTexts::cuts))]
pub(crate) fn cut_at_colon(text: &str) -> Option<(&str, &str)>
    ensures value { MatchOption result (spec.has spec.colon text.now ≡ false) (λ cut. (spec.has spec.colon text.now ≡ true) × (cut.0.now ≡ spec.before spec.colon text.now) × (cut.1.now ≡ spec.after spec.colon text.now)) }
{
    text.split_once(':')
}

/// Splits at the first hyphen.
#[tactic(auto, using(crate::proofs::SidTexts::cuts))]
pub(crate) fn cut_at_hyphen(text: &str) -> Option<(&str, &str)>
    ensures value { MatchOption result (spec.has spec.hyphen text.now ≡ false) (λ cut. (spec.has spec.hyphen text.now ≡ true) × (cut.0.now ≡ spec.before spec.hyphen text.now) × (cut.1.now ≡ spec.after spec.hyphen text.now)) }
{
    text.split_once('-')
}

/// Splits at the first comma.
#[tactic(auto, using(crate::proofs::SidTexts::cuts))]
pub(crate) fn cut_at_comma(text: &str) -> Option<(&str, &str)>
    ensures value { MatchOption result (spec.has spec.comma text.now ≡ false) (λ cut. (spec.has spec.comma text.now ≡ true) × (cut.0.now ≡ spec.before spec.comma text.now) × (cut.1.now ≡ spec.after spec.comma text.now)) }
{
    text.split_once(',')
}

/// Parses digits, with an optional plus, as a number of 64 bits.
pub(crate) fn number_of(text: &str) -> Option<u64>
    ensures { result ≡ spec.number_of text.now }
{
    text.parse().ok()
}

/// The interval from the first number to the last.
pub(crate) fn checked(first: u64, last: u64) -> Result<GnoInterval, InvalidSid>
    ensures value { result ≡ spec.checked first last }
{
    let Some(end) = last.checked_add(1) else {
        return Err(InvalidSid::TooLarge);
    };
    Ok(GnoInterval::check_and_new(first, end)?)
}

/// Splits a text at its first colon. The second part is `None` without a colon.
#[derive(Drop)]
pub(crate) struct FirstPart<'a> {
    pub(crate) part: &'a str,
    pub(crate) left: Option<&'a str>,
}

#[tactic(auto, using(crate::proofs::SidTexts::first_parts))]
pub(crate) fn first_part(text: &str) -> FirstPart<'_>
    ensures parts { spec.parts_of text.now ≡ result.part.now ∷ left_parts (option_map (λ t. t.now) result.left) }
    ensures shorter { left_len (option_map (λ t. t.now) result.left) < left_len (Some text.now) }
{
    match cut_at_colon(text) {
        Some((part, left)) => FirstPart {
            part,
            left: Some(left),
        },
        None => FirstPart {
            part: text,
            left: None,
        },
    }
}

/// Reads the intervals one after another, into memory of their own.
#[tactic(auto, using(crate::proofs::SidLoops::loops))]
fn read_intervals(
    alloc: Global,
    texts: IntervalTextsRef<'_>,
) -> Result<Vec<GnoInterval>, InvalidSid>
    ensures value { spec.Answered (items_read result) (spec.all_read texts.entry) }
    ensures early { IfSome (spec.first_refusal texts.entry) (λ e. result ≡ Err e) }
{
    let mut intervals = Vec::new(alloc);
    for interval in texts {
        intervals.push(interval?)?;
    }
    Ok(intervals)
}

impl Sid<'static> {
    /// Parses the text of a sid: `UUID:1-5:7`, or with a tag `UUID:tag:1-5:7`.
    ///
    /// The text is a uuid in any form without a colon; a colon; optionally a tag and a colon; and intervals
    /// separated by colons. An interval is a number, or the first and the last number with a hyphen between
    /// them: the first is at least 1 and at most the last, and the last is below 2^64 - 1. A number is one or
    /// more digits, with an optional plus. Without a tag the intervals begin with a digit.
    ///
    /// [`sids_from_text`](crate::sids_from_text) parses the text of a whole GTID set, with several uuids or
    /// several tags after one.
    ///
    /// An invalid text returns its first error. No memory is taken before the uuid and the tag with its colon,
    /// or without a tag the first interval, are read.
    #[tactic(auto, using(crate::proofs::SidTextRead::answers))]
    pub fn from_str(alloc: Global, text: &str) -> Result<Sid<'static>, InvalidSid>
        ensures spelled { IfOk result (SpellsSid text.now) }
        ensures read { (s : Sid) → SpellsSid text.now s → spec.Answered result (Ok s) }
        ensures value { spec.Answered result (spec.read_sid text.now) }
        // Memory is requested only after these errors.
        ensures early { IfSome (spec.early_refusal text.now) (λ e. result ≡ Err e) }
    {
        read_sid(alloc, text)
    }
}

/// Parses the text of a sid, or returns its first error.
#[tactic(auto, unfolding(crate::specs::SidText::read_sid, crate::specs::SidText::early_refusal))]
fn read_sid(alloc: Global, text: &str) -> Result<Sid<'static>, InvalidSid>
    ensures value { spec.Answered result (spec.read_sid text.now) }
    ensures early { IfSome (spec.early_refusal text.now) (λ e. result ≡ Err e) }
{
    let text = SidTextRef::new(text)?;
    let Some(tag) = text.tag() else {
        let intervals = read_intervals(alloc, text.intervals())?;
        return Ok(Sid::new(text.uuid()).with_intervals(intervals));
    };
    let tag = tag.to_owned().into_owned(alloc)?;
    let intervals = read_intervals(alloc, text.intervals())?;
    Ok(
        Sid::new(text.uuid())
            .with_intervals(intervals)
            .with_tag(tag),
    )
}

/// Parses a uuid in any of its forms, and returns its bytes.
pub(crate) fn uuid_of(text: &str) -> Option<[u8; 16]>
    ensures value { result ≡ parsed text.now }
{
    match Uuid::parse_str(text) {
        Ok(uuid) => Some(uuid.into_bytes()),
        Err(_) => None,
    }
}

/// An interval after its colon.
#[derive(Drop)]
struct ShownInterval<'b>(&'b GnoInterval);

impl fmt::Display for ShownInterval<'_> {
    ghost output = { λ i. Some (spec.interval_text i.0.now) };

    fn fmt<W: fmt::Write>(&self, f: &mut fmt::Formatter<W>) -> fmt::Result {
        let start = self.0.start();
        let end = self.0.end();
        if start.checked_add(1) == Some(end) {
            write!(f, ":{start}")
        } else {
            let last = end.saturating_sub(1);
            write!(f, ":{start}-{last}")
        }
    }
}

/// Intervals, each after its colon.
#[derive(Drop)]
pub(crate) struct ShownIntervals<'b>(pub(crate) &'b [GnoInterval]);

impl fmt::Display for ShownIntervals<'_> {
    ghost output = { λ s. Some (flat_map spec.interval_text s.0.now) };

    fn fmt<W: fmt::Write>(&self, f: &mut fmt::Formatter<W>) -> fmt::Result {
        for interval in self.0 {
            let interval = ShownInterval(interval);
            write!(f, "{interval}")?;
        }
        Ok(())
    }
}

/// A tag after its colon, or nothing.
#[derive(Drop)]
pub(crate) struct ShownTag<'b, 'a>(pub(crate) Option<&'b Tag<'a>>);

impl fmt::Display for ShownTag<'_, '_> {
    ghost output = { λ s. Some (spec.tag_text (option_map (λ t. t.now) s.0)) };

    fn fmt<W: fmt::Write>(&self, f: &mut fmt::Formatter<W>) -> fmt::Result {
        match self.0 {
            Some(tag) => write!(f, ":{tag}"),
            None => Ok(()),
        }
    }
}

/// Displays the uuid in lower case with hyphens, the tag if there is one, and the intervals, separated by
/// colons. An interval of one number is that number, another one its first and its last number with a hyphen
/// between them. Every interval is shown; an end of 0 has the last number 0.
impl fmt::Display for Sid<'_> {
    ghost use Rattle.mysql_repl.specs.SidText.{sid_text};

    ghost output = { λ s. Some (sid_text s) };

    fn fmt<W: fmt::Write>(&self, f: &mut fmt::Formatter<W>) -> fmt::Result {
        let uuid = Uuid::from_bytes(self.uuid());
        let tag = ShownTag(self.tag());
        let intervals = ShownIntervals(self.intervals());
        write!(f, "{uuid}{tag}{intervals}")
    }
}
