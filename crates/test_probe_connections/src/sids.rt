//! Sids, their intervals and their tags.
//!
//! `sid TEXT`, `gtid_set TEXT`, `sid_bytes BYTES`, `make_sid TAG INTERVALS`, `merge_sid TAG INTERVALS`, `interval BYTES`, `check_interval START END`, `tag TEXT`.

use crate::borrowed::is_copied;
use crate::prelude::*;
use mysql_repl::laws::{this_sid_round_trips, this_sid_text_round_trips};
use std::borrow::CowStr;
use std::str;

/// Adds a sid, except for its text.
pub fn show_sid(sid: &Sid<'_>, out: &mut Out) {
    out.show("uuid", sid.uuid());
    out.show("tag", sid.tag().map(|tag| tag.as_str()));
    out.show("intervals", sid.intervals().len());
    for interval in sid.intervals() {
        fields!(out, interval; start, end);
    }
}

/// The same, and its text.
fn show_with_text(sid: &Sid<'_>, out: &mut Out) {
    show_sid(sid, out);
    out.text("shown", sid)
}

/// It is made anew in the form without tags.
impl Shows<Sid<'_>> for Connections {
    fn show(it: &Sid<'_>, out: &mut Out) {
        show_with_text(it, out);
        let intervals = or_empty(out, Vec::from_slice(out.alloc(), it.intervals()));
        anew!(out, it; Sid::new(it.uuid()).with_intervals(intervals));
        this_sid_round_trips(it);
        this_sid_text_round_trips(it)
    }
}

/// Whether a tag that stays in its packet is this one.
fn is_tag(place: &TagRef<'_>, owned: &Tag<'_>) -> bool {
    let again = TagRef::new(place.as_str()).map(|tag| tag.to_owned());
    place.as_str() == owned.as_str() && again.is_ok_and(|tag| tag == *owned)
}

fn are_tags(place: Option<&TagRef<'_>>, owned: Option<&Tag<'_>>) -> bool {
    match (place, owned) {
        (Some(place), Some(owned)) => is_tag(place, owned),
        (None, None) => true,
        _ => false,
    }
}

/// Whether intervals that stay in their packet are these: one by one, in a list, and by their bytes.
fn are_intervals(place: &IntervalsRef<'_>, owned: &[GnoInterval], out: &mut Out) -> bool {
    let alloc = out.alloc();
    let listed = counted!(alloc; place.to_owned(alloc));
    let mut left = place.iter();
    let are_same = owned
        .iter()
        .all(|owned| left.next().as_ref() == Some(owned));
    are_same
        && left.next().is_none()
        && (left == *place) == owned.is_empty()
        && is_copied(place, out)
        && place.left() == owned.len() as u64
        && place.as_bytes().len() == 16 * owned.len()
        && or_lost(out, listed).is_some_and(|listed| listed.as_slice() == owned)
}

/// (a copy is made of it where its fields are the same, too)
impl InPlace<Sid<'_>, SidRef<'_>> for Connections {
    fn is(place: &SidRef<'_>, owned: &Sid<'_>, out: &mut Out) -> bool {
        let alloc = out.alloc();
        let made = counted!(alloc; place.to_owned(alloc));
        or_lost(out, made).is_some_and(|made| made == *owned)
            && place.uuid() == owned.uuid()
            && are_tags(place.tag(), owned.tag())
            && is_copied(place, out)
            && are_intervals(&place.intervals(), owned.intervals(), out)
    }
}

impl Shows<Tag<'_>> for Connections {
    fn show(it: &Tag<'_>, out: &mut Out) {
        anew!(out, it; owned it)
    }
}

impl Shows<GnoInterval> for Connections {
    fn show(it: &GnoInterval, out: &mut Out) {
        fields!(out, it; start, end);
        out.same("made", Ok(GnoInterval::new(it.start(), it.end()) == *it))
    }
}

/// Whether texts are read as these intervals, one by one.
fn are_read(mut texts: IntervalTextsRef<'_>, owned: &[GnoInterval]) -> bool {
    texts.left() == owned.len()
        && owned.iter().all(|owned| texts.next() == Some(Ok(*owned)))
        && texts.next().is_none()
        && texts.left() == 0
}

/// The first refusal of texts of intervals.
fn refusal_in(texts: IntervalTextsRef<'_>) -> Option<InvalidSid> {
    for interval in texts {
        if let Err(refusal) = interval {
            return Some(refusal);
        }
    }
    None
}

/// Whether the parts of a text are those of the sid that was read of it, or its refusal is the same. (`Memory` is of the sid alone)
fn is_in_parts(text: &str, answer: &Result<Sid<'static>, InvalidSid>) -> bool {
    match (SidTextRef::new(text), answer) {
        (_, Err(InvalidSid::Memory)) => true,
        (Ok(parts), Ok(sid)) => {
            parts.uuid() == sid.uuid()
                && are_tags(parts.tag(), sid.tag())
                && are_read(parts.intervals(), sid.intervals())
        }
        (Ok(parts), Err(refusal)) => refusal_in(parts.intervals()).as_ref() == Some(refusal),
        (Err(fault), Err(refusal)) => fault == *refusal,
        (Err(_), Ok(_)) => false,
    }
}

/// A sid of a text, and its text again; and its parts, where they lie.
pub fn of_text(out: &mut Out, request: &Request<'_>) {
    let text = request.word(1);
    let answer = counted!(request.alloc; Sid::from_str(request.alloc, text));
    let is_same = is_in_parts(text, &answer);
    out.or_other("in_parts", Ok(is_same));
    if let Some(sid) = out.accepted("read", answer) {
        show_with_text(&sid, out);
        write_made(out, &sid)
    }
}

/// The text of a request after its first word, or that of its bytes: `()` stands for no text.
pub fn text_of<'b>(request: &'b Request<'_>) -> &'b str {
    let text = str::from_utf8(request.bytes.as_slice());
    match (request.line.split_once(' '), text) {
        (Some((_, "()")), _) => "",
        (Some((_, text)), Ok("")) => text,
        (_, text) => text.unwrap_or(""),
    }
}

/// Whether a text is read as these sids.
fn is_read_as(alloc: Global, text: &str, sids: &[Sid<'static>]) -> Result<bool> {
    let Ok(again) = sids_from_text(alloc, text) else {
        return Ok(false);
    };
    let dump = ComBinlogDumpGtid::new(0).with_sids(CowSlice::Borrowed(sids));
    Ok(dump == ComBinlogDumpGtid::new(0).with_sids(CowSlice::Owned(again)))
}

/// Adds the text of sids, and whether it is read as the same.
fn show_set(out: &mut Out, sids: &[Sid<'static>]) {
    let (alloc, set) = (out.alloc(), GtidSetText(sids));
    let Ok(text) = format!(in alloc; "{set}") else {
        return out.lose();
    };
    out.show("text", text.as_str().as_bytes());
    out.same("again", is_read_as(alloc, text.as_str(), sids))
}

/// Whether this comes next in the text of a set: a sid, and how many intervals it has.
fn is_next(entries: &mut GtidSetEntries<'_>, sid: &Sid<'_>) -> bool {
    let Some(Ok(GtidSetEntry::Sid(head))) = entries.next() else {
        return false;
    };
    let tag = head.tag.and_then(|tag| TagText::new(tag.as_str()).ok());
    let wanted = sid.tag().and_then(|tag| TagText::new(tag.as_str()).ok());
    head.uuid == sid.uuid() && tag == wanted && head.intervals == sid.intervals().len() as u64
}

/// Whether these intervals come next.
fn are_next(entries: &mut GtidSetEntries<'_>, intervals: &[GnoInterval]) -> bool {
    intervals.iter().all(|interval| entries.next() == Some(Ok(GtidSetEntry::Interval(*interval))))
}

/// Whether a text gives these sids and their intervals, one after another.
fn gives_sids(text: &str, sids: &[Sid<'_>]) -> bool {
    let mut entries = GtidSetEntries::new(text);
    sids.iter().all(|sid| is_next(&mut entries, sid) && are_next(&mut entries, sid.intervals()))
        && entries.next().is_none()
}

/// What a text gives that is refused, first.
fn first_refusal(text: &str) -> Option<InvalidSid> {
    for entry in GtidSetEntries::new(text) {
        if let Err(refusal) = entry {
            return Some(refusal);
        }
    }
    None
}

/// Whether a text gives what was read of it.
fn gives_the_same(text: &str, read: &Result<Vec<Sid<'static>>, InvalidSid>) -> bool {
    match read {
        Ok(sids) => gives_sids(text, sids.as_slice()),
        Err(InvalidSid::Memory) => true,
        Err(refusal) => first_refusal(text).as_ref() == Some(refusal),
    }
}

/// The sids of a text, each with its own text, and whether its intervals are as servers write them.
pub fn of_set(out: &mut Out, request: &Request<'_>) {
    let text = text_of(request);
    let answer = counted!(request.alloc; sids_from_text(request.alloc, text));
    let are_entries = gives_the_same(text, &answer);
    if let Some(sids) = out.accepted("read", answer) {
        for sid in &sids {
            out.text("sid", sid);
            out.show("as_servers", sid.is_canonical());
        }
        show_set(out, sids.as_slice())
    }
    out.or_other("entries", Ok(are_entries))
}

/// The sid with the intervals of a word, as `1-6,8-9`, one after another: each of the number after the last.
fn with_intervals<'a>(alloc: Global, mut sid: Sid<'a>, word: &str) -> Result<Sid<'a>> {
    if word != "()" {
        for interval in word.split(',') {
            let (start, end) = interval.split_once('-').unwrap_or((interval, ""));
            let interval = GnoInterval::new(words::number(start), words::number(end));
            sid = sid.with_interval(alloc, interval)?;
        }
    }
    Ok(sid)
}

/// The sid with the tag of a word, where it is one.
fn with_tag<'a>(sid: Sid<'a>, word: &'a str) -> Sid<'a> {
    match Tag::try_from(word) {
        Ok(tag) => sid.with_tag(tag),
        Err(_) => sid,
    }
}

/// A sid that is made of words, as it is shown, written and read again: it is the same where it has no tag.
pub fn make(out: &mut Out, request: &Request<'_>) {
    let alloc = out.alloc();
    let made = counted!(alloc; with_intervals(alloc, Sid::new([0x11; 16]), request.word(2)));
    if let Some(sid) = out.made(made) {
        let sid = with_tag(sid, request.word(1));
        show_with_text(&sid, out);
        out.same("copy", is_cloned(alloc, &sid, &sid));
        write_and_read(out, &sid, request, ())
    }
}

/// A sid that is made of words, with its intervals merged.
pub fn merge(out: &mut Out, request: &Request<'_>) -> Result {
    let alloc = request.alloc;
    let sid = with_intervals(alloc, Sid::new([0x11; 16]), request.word(2))?;
    let sid = with_tag(sid, request.word(1));
    match counted!(alloc; sid.normalized(alloc)) {
        Ok(sid) => {
            out.text("merged", &sid);
            out.show("as_servers", sid.is_canonical());
        }
        Err(AllocError) => out.error(&"Memory"),
    }
    Ok(())
}

/// A sid with the interval of the transactions 1 to 5.
pub fn one_sid(alloc: Global) -> Result<Sid<'static>> {
    Sid::new([0x11; 16]).with_interval(alloc, GnoInterval::new(1, 6))
}

/// The sids of a word, as `tag/1-6,8-9;..`, each of its tag, which may be empty, and its intervals: the first has a uuid of ones.
pub fn made_sids<'a>(alloc: Global, word: &'a str) -> Result<Vec<Sid<'a>>> {
    let mut sids = Vec::new(alloc);
    if word != "()" {
        for (number, sid) in (1..=255_u8).zip(word.split(';')) {
            let (tag, intervals) = sid.split_once('/').unwrap_or(("", sid));
            let sid = with_intervals(alloc, Sid::new([number; 16]), intervals)?;
            sids.push(with_tag(sid, tag))?;
        }
    }
    Ok(sids)
}

/// Sids of the shape of the original's own cases: the i-th has i intervals, every other one the tag.
pub fn numbered_sids<'a>(alloc: Global, count: u8, tag: &'a str) -> Result<Vec<Sid<'a>>> {
    let mut sids = Vec::new(alloc);
    for number in 0..count {
        let mut sid = Sid::new([number; 16]);
        for j in 0..number {
            sid = sid.with_interval(alloc, GnoInterval::new(u64::from(number), u64::from(j)))?;
        }
        sids.push(with_tag(sid, if number % 2 == 0 { tag } else { "" }))?;
    }
    Ok(sids)
}

/// An interval of two numbers, if they are one.
pub fn check_interval(out: &mut Out, request: &Request<'_>) {
    let (start, end) = (request.word(1), request.word(2));
    let answer = GnoInterval::check_and_new(words::number(start), words::number(end));
    if let Some(interval) = out.accepted("made", answer) {
        fields!(out, interval; start, end)
    }
}

/// The tag of a text, if it is one: `()` stands for no text.
pub fn tag(out: &mut Out, request: &Request<'_>) {
    let alloc = out.alloc();
    let word = request.word(1);
    let text = if word == "()" { "" } else { word };
    let answer = counted!(alloc; Tag::new(CowStr::Borrowed(text)));
    if let Some(tag) = out.accepted("read", answer) {
        out.field("text", tag.as_str());
        out.text("shown", &tag);
        Connections::show(&tag, out);
        out.same("of_text", is_of_text(alloc, &tag))
    }
}

/// Whether the tag of a text on memory of its own is the same, and made owned keeps it.
fn is_of_text(alloc: Global, tag: &Tag<'_>) -> Result<bool> {
    let text = String::from_str(alloc, tag.as_str())?;
    let Ok(other) = Tag::try_from(text) else {
        return Ok(false);
    };
    let owned = counted!(alloc; other.into_owned(alloc))?;
    Ok(owned == *tag)
}
