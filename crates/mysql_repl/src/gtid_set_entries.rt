//! The text of a GTID set, one sid and one interval after another.
#![tactic(auto, using(crate::proofs::GtidEntries::entries))]

ghost use Rattle.std.specs.Prelude.{◌≡◌, ◌≢◌, ◌∷◌, [], None, option_map};
ghost use Rattle.mysql_repl.specs.GtidSetEntries as spec;
ghost use Rattle.mysql_repl.specs.GtidSetLeft.{entries_left};
ghost use Rattle.mysql_repl.specs.GtidSetText.{server_interval as interval_in, server_tag, words};
ghost use Rattle.mysql_repl.specs.GtidSetTextParts.{left_words};
ghost use Rattle.mysql_repl.specs.InPlace.{NextItem};
ghost use Rattle.mysql_repl.specs.SidText.{colon};

use crate::gno_interval::GnoInterval;
use crate::gtid_words::{
    first_piece, first_word, is_interval, leading_intervals, server_interval, trimmed,
};
use crate::sid::UUID_LEN;
use crate::sid_text::{InvalidSid, cut_at_colon, uuid_of};
use crate::tag_text::TagText;
use std::marker::Model;

/// A sid of the text of a GTID set, before its intervals.
#[derive(Clone, Debug, PartialEq, Eq, Drop)]
pub struct GtidSetSid<'a> {
    /// The server's identifier.
    pub uuid: [u8; UUID_LEN],
    /// The tag of its transactions, if any.
    pub tag: Option<TagText<'a>>,
    /// The number of intervals that follow, before the next sid.
    pub intervals: u64,
}

/// An item of the text of a GTID set.
#[derive(Clone, Debug, PartialEq, Eq, Drop)]
pub enum GtidSetEntry<'a> {
    /// A sid, whose intervals follow.
    Sid(GtidSetSid<'a>),
    /// An interval of the sid before it.
    Interval(GnoInterval),
}

/// Parses a word as an interval.
fn interval_entry<'a>(word: &str) -> Result<GtidSetEntry<'a>, InvalidSid>
    ensures value { result ≡ spec.interval_entry (interval_in word.now) }
{
    Ok(GtidSetEntry::Interval(server_interval(word)?))
}

/// Parses a word as a tag, and returns its sid; the intervals after it belong to this sid.
fn tag_entry<'a>(
    uuid: [u8; UUID_LEN],
    word: &'a str,
    left: Option<&str>,
) -> Result<GtidSetEntry<'a>, InvalidSid>
    ensures value { result ≡ spec.tag_entry uuid word.now (server_tag word.now (left_words colon (option_map (λ t. t.now) left.entry))) (spec.lead (left_words colon (option_map (λ t. t.now) left.entry))) }
{
    if word.is_empty() {
        return Err(InvalidSid::Empty);
    }
    let tag = TagText::new(word)?;
    let intervals = leading_intervals(left);
    if intervals == 0 {
        return Err(InvalidSid::NoIntervals);
    }
    Ok(GtidSetEntry::Sid(GtidSetSid {
        uuid,
        tag: Some(tag),
        intervals,
    }))
}

/// The rest of the text of a GTID set: words after a uuid, and the pieces after them.
#[derive(Drop)]
struct Left<'a> {
    uuid: [u8; UUID_LEN],
    words: Option<&'a str>,
    pieces: Option<&'a str>,
}

impl<'a> Left<'a> {
    /// Returns the item of the first word after a uuid.
    fn next_word(&mut self, text: &'a str) -> Result<GtidSetEntry<'a>, InvalidSid>
        ensures value { spec.word_entries self.old.uuid (words colon text.now) ≡ result ∷ spec.word_entries self.new.uuid (left_words colon (option_map (λ t. t.now) self.new.words)) }
        ensures pieces { self.new.pieces ≡ self.old.pieces }
    {
        let first = first_word(text);
        self.words = first.left;
        if is_interval(first.word) {
            interval_entry(first.word)
        } else {
            tag_entry(self.uuid, first.word, first.left)
        }
    }

    /// Returns the first item of a piece that isn't blank.
    #[tactic(auto, using(crate::proofs::GtidEntries::entries), unfolding(crate::specs::GtidSetEntries::piece_entries))]
    fn open(&mut self, piece: &'a str) -> Result<GtidSetEntry<'a>, InvalidSid>
        requires some { piece.now ≢ [] }
        requires none { self.old.words ≡ None }
        ensures value { spec.piece_entries piece.now ≡ result ∷ spec.word_entries self.new.uuid (left_words colon (option_map (λ t. t.now) self.new.words)) }
        ensures pieces { self.new.pieces ≡ self.old.pieces }
    {
        let Some((uuid, text)) = cut_at_colon(piece) else {
            return Err(InvalidSid::NoColon);
        };
        let Some(uuid) = uuid_of(trimmed(uuid)) else {
            return Err(InvalidSid::Uuid);
        };
        self.uuid = uuid;
        let intervals = leading_intervals(Some(text));
        if intervals == 0 {
            return self.next_word(text);
        }
        self.words = Some(text);
        Ok(GtidSetEntry::Sid(GtidSetSid {
            uuid,
            tag: None,
            intervals,
        }))
    }

    /// Returns the next item.
    fn next(&mut self) -> Option<Result<GtidSetEntry<'a>, InvalidSid>>
        ensures value { NextItem (entries_left self.old) result (entries_left self.new) }
    {
        if let Some(text) = self.words {
            return Some(self.next_word(text));
        }
        while let Some(text) = self.pieces {
            let first = first_piece(text);
            self.pieces = first.left;
            if !first.word.is_empty() {
                return Some(self.open(first.word));
            }
        }
        None
    }
}

/// The text of a GTID set, as MySQL shows one in `@@gtid_executed`, one sid and one interval after another. It takes no
/// memory.
///
/// Up to the first error these are the sids and intervals of [`sids_from_text`](crate::sids_from_text), in
/// their order, and that error is the same. Parsing then continues after the faulty word, or after the piece
/// without a uuid. In a clause it is the list of the remaining items.
///
/// ```
/// let mut left = GtidSetEntries::new(text);
/// while let Some(entry) = left.next() {
///     entry?;
/// }
/// ```
#[derive(Drop)]
pub struct GtidSetEntries<'a> {
    left: Left<'a>,
}

impl<'a> Model for GtidSetEntries<'a> {
    ghost use Rattle.std.specs.Prelude.{List, Result};
    ghost use Rattle.mysql_repl.specs.declared.gtid_set_entries.GtidSetEntry.{GtidSetEntry};
    ghost use Rattle.mysql_repl.specs.declared.sid_text.InvalidSid.{InvalidSid};
    ghost use Rattle.mysql_repl.specs.GtidSetLeft.{entries_left};

    ghost Value = { List (Result GtidSetEntry InvalidSid) };

    ghost view = { λ p. entries_left p.left };
}

impl<'a> GtidSetEntries<'a> {
    /// Creates an iterator over a whole text.
    #[tactic(auto, unfolding(crate::specs::GtidSetEntries::text_entries))]
    pub fn new(text: &'a str) -> Self
        ensures value { result ≡ spec.text_entries text.now }
    {
        GtidSetEntries {
            left: Left {
                uuid: [0; UUID_LEN],
                words: None,
                pieces: Some(text),
            },
        }
    }
}

impl<'a> Iterator for GtidSetEntries<'a> {
    type Item = Result<GtidSetEntry<'a>, InvalidSid>;

    ghost use Rattle.std.specs.Prelude.{length, ⊤};
    ghost use Rattle.std.specs.Iterator.{at_most};

    ghost can_next = { λ _. ⊤ };

    ghost next_gives = { NextItem };

    ghost remaining = { λ left. at_most (length left) };

    fn next(&mut self) -> Option<Result<GtidSetEntry<'a>, InvalidSid>> {
        self.left.next()
    }
}
