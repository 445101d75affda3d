//! The text of a GTID set.

ghost use Rattle.std.specs.Prelude.{◌≡◌, ◌++◌, [], Ok, Err, IfSome, option_map};
ghost use Rattle.mysql_repl.specs.GtidSetEarly.{early_tag, early_word, early_words, early_piece, early_answer};
ghost use Rattle.mysql_repl.specs.GtidSetText as spec;
ghost use Rattle.mysql_repl.specs.GtidSetTextParts.{left_words, sids_read, with_front, Takes};
ghost use Rattle.mysql_repl.specs.SidText.{Answered, colon};

use crate::binlog_dump_gtid::ComBinlogDumpGtid;
use crate::gtid_words::{Word, first_piece, first_word, is_interval, server_interval, trimmed};
use crate::sid::Sid;
use crate::sid_text::{InvalidSid, cut_at_colon, uuid_of};
use crate::tag::Tag;
use std::alloc::Global;
use std::borrow::CowSlice;

/// Whether an interval follows.
fn interval_follows(left: Option<&str>) -> bool
    ensures value { result ≡ spec.interval_follows (left_words colon (option_map (λ t. t.now) left.entry)) }
{
    let Some(text) = left else {
        return false;
    };
    is_interval(first_word(text).word)
}

/// Parses a word as a tag, in lower case.
#[tactic(auto, unfolding(crate::specs::GtidSetText::server_tag))]
fn server_tag(alloc: Global, word: &str, left: Option<&str>) -> Result<Tag<'static>, InvalidSid>
    ensures value { Answered result (spec.server_tag word.now (left_words colon (option_map (λ t. t.now) left.entry))) }
    ensures early { IfSome (early_tag word.now) (λ e. result ≡ Err e) }
{
    if word.is_empty() {
        return Err(InvalidSid::Empty);
    }
    let mut text = String::from_str(alloc, word)?;
    text.make_ascii_lowercase();
    let tag = Tag::try_from(text)?;
    if !interval_follows(left) {
        return Err(InvalidSid::NoIntervals);
    }
    Ok(tag)
}

/// Appends a sid, if it has a tag or an interval.
fn with_kept(
    mut sids: Vec<Sid<'static>>,
    sid: Sid<'static>,
) -> Result<Vec<Sid<'static>>, InvalidSid>
    ensures value { Answered (sids_read result) (Ok (sids.entry.items ++ spec.kept sid.entry)) }
{
    if sid.tag().is_some() || !sid.intervals().is_empty() {
        sids.push(sid)?;
    }
    Ok(sids)
}

/// The complete sids, and the one whose intervals are being read.
#[derive(Drop)]
struct Building {
    sids: Vec<Sid<'static>>,
    sid: Sid<'static>,
}

impl Building {
    /// Adds a word: an interval of the sid, or the tag of the next one.
    #[tactic(auto, using(crate::proofs::GtidSetTexts::takes))]
    fn with_word(
        self,
        alloc: Global,
        uuid: [u8; 16],
        first: &Word<'_>,
    ) -> Result<Building, InvalidSid>
        ensures value { Takes uuid self.sids.items self.sid result first.now.word.now (left_words colon (option_map (λ t. t.now) first.now.left)) }
        ensures early { IfSome (early_word first.now.word.now) (λ e. result ≡ Err e) }
    {
        if is_interval(first.word) {
            let interval = server_interval(first.word)?;
            return Ok(Building {
                sids: self.sids,
                sid: self.sid.with_interval(alloc, interval)?,
            });
        }
        let tag = server_tag(alloc, first.word, first.left)?;
        Ok(Building {
            sids: with_kept(self.sids, self.sid)?,
            sid: Sid::new(uuid).with_tag(tag),
        })
    }
}

/// Appends the sids in the words after a uuid.
#[tactic(auto, using(crate::proofs::GtidSetTexts::word_loops))]
fn with_words(
    alloc: Global,
    sids: Vec<Sid<'static>>,
    uuid: [u8; 16],
    text: &str,
) -> Result<Vec<Sid<'static>>, InvalidSid>
    ensures value { Answered (sids_read result) (with_front sids.entry.items (spec.sids_found uuid (spec.found_in uuid (spec.words colon text.now)))) }
    ensures early { IfSome (early_words (spec.words colon text.now)) (λ e. result ≡ Err e) }
{
    let mut building = Building {
        sids,
        sid: Sid::new(uuid),
    };
    let mut left = Some(text);
    while let Some(text) = left {
        let first = first_word(text);
        building = building.with_word(alloc, uuid, &first)?;
        left = first.left;
    }
    with_kept(building.sids, building.sid)
}

/// Appends the sids in a piece between commas.
#[tactic(auto, unfolding(crate::specs::GtidSetText::read_piece, crate::specs::GtidSetEarly::early_piece))]
fn with_piece(
    alloc: Global,
    sids: Vec<Sid<'static>>,
    piece: &str,
) -> Result<Vec<Sid<'static>>, InvalidSid>
    ensures value { Answered (sids_read result) (with_front sids.entry.items (spec.read_piece piece.now)) }
    ensures early { IfSome (early_piece piece.now) (λ e. result ≡ Err e) }
    ensures blank { piece.now ≡ [] → result ≡ Ok sids.entry }
{
    if piece.is_empty() {
        return Ok(sids);
    }
    let Some((uuid, text)) = cut_at_colon(piece) else {
        return Err(InvalidSid::NoColon);
    };
    let Some(uuid) = uuid_of(trimmed(uuid)) else {
        return Err(InvalidSid::Uuid);
    };
    with_words(alloc, sids, uuid, text)
}

/// Parses the text of a GTID set, as MySQL shows one in `@@gtid_executed`: pieces separated by commas, such as
/// `UUID:1-8:_x9:4-5:app:1-3:5-6, UUID:7`.
///
/// A piece is a uuid, in any form without a colon, and words, each after a colon. A word that begins with a
/// digit is an interval: a number, or the first and the last number with a hyphen between them. Any other word
/// is a tag, in upper or lower case, and the intervals after it belong to the tag: each tag is a sid of its
/// own, and so are the intervals before the first tag. A tag is converted to lower case, and has at least one
/// interval. The first number of an interval is at least 1 and at most the last, and the last is at most 2^63 -
/// 2. ASCII white space is allowed around uuids, tags and numbers. A blank piece has no sid, so an empty text
/// is the empty set.
///
/// Sids and intervals are returned in the order of the text, including repeated ones. An invalid text returns its first error.
/// No memory is taken before the first uuid is read, and its first interval or the first byte of its first tag, so an empty
/// set, or an error up to there, never returns `Memory`.
///
/// ```
/// let sids = sids_from_text(alloc, text)?;
/// this_gtid_set_text_round_trips(&sids);
/// let set = GtidSetText(&sids);
/// Ok(format!(in alloc; "{set}")?)
/// ```
#[tactic(auto, using(crate::proofs::GtidSetTexts::piece_loops), unfolding(crate::specs::GtidSetText::read_sids, crate::specs::GtidSetEarly::early_answer))]
pub fn sids_from_text(alloc: Global, text: &str) -> Result<Vec<Sid<'static>>, InvalidSid>
    ensures value { Answered (sids_read result) (spec.read_sids text.now) }
    ensures early { IfSome (early_answer text.now) (λ read. sids_read result ≡ read) }
{
    let mut sids = Vec::new(alloc);
    let mut left = Some(text);
    while let Some(text) = left {
        let first = first_piece(text);
        sids = with_piece(alloc, sids, first.word)?;
        left = first.left;
    }
    Ok(sids)
}

impl<'a> ComBinlogDumpGtid<'a> {
    /// Sets the sids from the text of a GTID set, as MySQL shows one in `@@gtid_executed`, instead of the current ones.
    ///
    /// They are those of [`sids_from_text`], in their order. The flag BINLOG_THROUGH_GTID is set exactly if
    /// there is a sid. It returns the same errors, and then drops the request.
    #[tactic(auto, using(crate::proofs::GtidSetTexts::dumps))]
    pub fn with_gtid_set(self, alloc: Global, text: &str) -> Result<Self, InvalidSid>
        ensures value { Answered result (spec.with_read_sids (spec.read_sids text.now) self.entry) }
        // Before any allocation.
        ensures early { IfSome (early_answer text.now) (λ read. result ≡ spec.with_read_sids read self.entry) }
    {
        let sids = sids_from_text(alloc, text)?;
        Ok(self.with_sids(CowSlice::Owned(sids)))
    }
}
