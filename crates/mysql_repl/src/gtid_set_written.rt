//! Writes the text of a GTID set.

ghost use Rattle.std.specs.Prelude.{◌≡◌, Some, option_map};
ghost use Rattle.mysql_repl.specs.GtidSetWritten as spec;

use crate::sid::Sid;
use crate::sid_text::{ShownIntervals, ShownTag};
use std::fmt;

/// Whether a sid has a tag and the same uuid as the previous one.
fn goes_on(before: &Sid<'_>, after: &Sid<'_>) -> bool
    ensures value { result ≡ spec.goes_on before.now after.now }
{
    after.tag().is_some() && before.uuid() == after.uuid()
}

/// The tag and the intervals of a sid.
#[derive(Drop)]
struct ShownWords<'b, 'a>(&'b Sid<'a>);

impl fmt::Display for ShownWords<'_, '_> {
    ghost output = { λ s. Some (spec.words_text s.0.now) };

    fn fmt<W: fmt::Write>(&self, f: &mut fmt::Formatter<W>) -> fmt::Result {
        let tag = ShownTag(self.0.tag());
        let intervals = ShownIntervals(self.0.intervals());
        write!(f, "{tag}{intervals}")
    }
}

/// A sid after another one, or the first.
#[derive(Drop)]
struct ShownNext<'b, 'a> {
    before: Option<&'b Sid<'a>>,
    sid: &'b Sid<'a>,
}

impl fmt::Display for ShownNext<'_, '_> {
    ghost output = { λ s. Some (spec.next_text (option_map (λ t. t.now) s.before) s.sid.now) };

    fn fmt<W: fmt::Write>(&self, f: &mut fmt::Formatter<W>) -> fmt::Result {
        let sid = self.sid;
        let Some(before) = self.before else {
            return write!(f, "{sid}");
        };
        if goes_on(before, sid) {
            let words = ShownWords(sid);
            return write!(f, "{words}");
        }
        write!(f, ",\n{sid}")
    }
}

/// Displays sids as the text of a GTID set, which [`sids_from_text`](crate::sids_from_text) parses:
/// `UUID:1-8:_x9:4-5:app:1-3,\nUUID:7`.
///
/// Each sid is written as its own text, after a comma and a newline except for the first. A sid with a tag that follows one of
/// the same uuid is written without its uuid. The sids are written in the order of the list.
///
/// MySQL writes the sids of a set in the order of their uuids, those of a uuid in the order of their tags, the
/// one without a tag first, each with merged intervals ([`Sid::normalized`]). A list in that order is written
/// as MySQL writes it, and [`sids_from_text`](crate::sids_from_text) parses such a text to a list in that
/// order. An empty list is an empty text.
///
/// ```
/// let sids = sids_from_text(alloc, text)?;
/// this_gtid_set_text_round_trips(&sids);
/// let set = GtidSetText(&sids);
/// Ok(format!(in alloc; "{set}")?)
/// ```
#[derive(Drop)]
pub struct GtidSetText<'b, 'a>(pub &'b [Sid<'a>]);

impl fmt::Display for GtidSetText<'_, '_> {
    ghost use Rattle.mysql_repl.specs.GtidSetWritten.{set_text};

    ghost output = { λ s. Some (set_text s.0.now) };

    fn fmt<W: fmt::Write>(&self, f: &mut fmt::Formatter<W>) -> fmt::Result {
        let mut before = None;
        for sid in self.0 {
            let next = ShownNext { before, sid };
            write!(f, "{next}")?;
            before = Some(sid);
        }
        Ok(())
    }
}
