//! A server's transactions.
#![tactic(auto, using(crate::proofs::Codes::codes))]

ghost use Rattle.std.specs.Prelude.{[], ◌≡◌, ◌≢◌, ◌≤◌, length, option_map, take, Some};
ghost use Rattle.std.specs.Str.{IsUtf8};
ghost use Rattle.mysql_repl.specs.GnoInterval.{interval};
ghost use Rattle.mysql_repl.specs.Sid as lib;
ghost use Rattle.mysql_repl.specs.SidText.{read_sid};
ghost use Rattle.mysql_repl.specs.declared.sid.Sid.{Sid};
ghost use Rattle.mysql_packets_c.specs.Input.{IsRestOf};
ghost use Rattle.mysql_packets_c.specs.Given.{is_set};
ghost use Rattle.mysql_packets_c.specs.Sid as spec;
ghost use Rattle.mysql_packets_c.specs.Sid.{PutsParts, RefusesText, SidInto, tag_held};
ghost use Rattle.mysql_packets_c.specs.SidText.{Tells};

use crate::code::{BUFFER_TOO_SMALL, END, INVALID_DATA, OK, code_of};
use crate::sid_text::{SidText, put_intervals, sid_in};
use crate::text::CBytes;
use mysql_repl::{GnoInterval, SidRef, TagRef};
use mysql_wire::ParseBuf;
use std::alloc::Global;
use std::str;

/// `myp_sid_places` of the C header.
#[repr(C)]
#[derive(Drop)]
pub struct CSidPlaces<'a> {
    pub tag: &'a [u8],
    pub intervals: &'a [u8],
    pub n_intervals: u64,
    pub uuid: [u8; 16],
}

/// Takes the next interval off the front; returns 7 if none is left. After any other code, all outputs are unchanged.
#[unsafe(no_mangle)]
pub extern "C" fn myp_next_interval<'a>(
    alloc: Global,
    rest: &mut CBytes<'a>,
    out: &mut CInterval,
) -> u32
    ensures end { rest.old.bytes.now ≡ [] → (result ≡ 7) × (rest.new ≡ rest.old) × (out.new ≡ out.old) }
    ensures value { rest.old.bytes.now ≢ [] → spec.NextInterval ((interval.form tt).reads rest.old.bytes.now) result rest.old rest.new out.old out.new }
    ensures place { IsRestOf rest.new rest.old }
{
    if rest.bytes.is_empty() {
        return END;
    }
    let mut buf = ParseBuf::new(alloc, rest.bytes);
    let next: GnoInterval = match buf.parse(()) {
        Ok(next) => next,
        Err(fault) => return code_of(&fault),
    };
    out.start = next.start();
    out.end = next.end();
    rest.move_to(&buf);
    OK
}

/// The bytes of a tag; empty if there is none.
#[tactic(auto, using(crate::proofs::SidHeld::tag_places))]
fn tag_place<'a>(tag: Option<&TagRef<'a>>) -> &'a [u8]
    ensures value { spec.tag_in result.now ≡ option_map (λ t. t.now) tag.entry }
{
    match tag {
        Some(tag) => tag.as_str().as_bytes(),
        None => &[],
    }
}

/// Stores a sid in a struct of the caller.
fn put_places<'a>(found: SidRef<'a>, out: &mut CSidPlaces<'a>)
    ensures value { spec.HoldsPlaces found.entry out.new }
{
    out.uuid = found.uuid();
    out.tag = tag_place(found.tag());
    let intervals = found.intervals();
    out.n_intervals = intervals.left();
    out.intervals = intervals.as_bytes();
}

/// Takes the next sid off the front; returns 7 if none is left. After any other code, all outputs are unchanged.
#[unsafe(no_mangle)]
pub extern "C" fn myp_next_sid<'a>(
    alloc: Global,
    rest: &mut CBytes<'a>,
    is_tagged: u8,
    out: &mut CSidPlaces<'a>,
) -> u32
    ensures end { rest.old.bytes.now ≡ [] → (result ≡ 7) × (rest.new ≡ rest.old) × (out.new ≡ out.old) }
    ensures value { rest.old.bytes.now ≢ [] → spec.NextSid (((lib.sid_as (is_set is_tagged)).form tt).reads rest.old.bytes.now) result rest.old rest.new out.old out.new }
    ensures place { IsRestOf rest.new rest.old }
{
    if rest.bytes.is_empty() {
        return END;
    }
    let mut buf = ParseBuf::new(alloc, rest.bytes);
    match SidRef::parse_as(is_tagged != 0, &mut buf) {
        Ok(found) => {
            put_places(found, out);
            rest.move_to(&buf);
            OK
        }
        Err(fault) => code_of(&fault),
    }
}

/// `myp_interval` of the C header.
#[repr(C)]
#[derive(Clone, Copy, Drop)]
pub struct CInterval {
    pub start: u64,
    pub end: u64,
}

/// `myp_sid` of the C header.
#[repr(C)]
#[derive(Drop)]
pub struct CSid<'a> {
    pub intervals: &'a [CInterval],
    pub uuid: [u8; 16],
    /// The tag, copied into the first `tag_length` bytes, so that the struct doesn't depend on the text.
    pub tag: [u8; 32],
    pub tag_length: u8,
}

/// Stores a tag, or none, in a struct of the caller.
fn put_tag(tag: &[u8], out: &mut CSid<'_>)
    requires { length tag.now ≤ 32 }
    ensures len { out.new.tag_length ≡ length tag.now }
    ensures value { take (length tag.now) out.new.tag ≡ tag.now }
    ensures uuid { out.new.uuid ≡ out.old.uuid }
    ensures intervals { out.new.intervals.now ≡ out.old.intervals.now }
{
    let n = tag.len();
    out.tag = [0; 32];
    out.tag[..n].copy_from_slice(tag);
    out.tag_length = n as u8;
}

/// Stores the tag of a sid, or none.
#[tactic(auto, using(crate::proofs::SidHeld::tags_put))]
fn put_optional_tag(tag: Option<&TagRef<'_>>, out: &mut CSid<'_>)
    ensures value { tag_held out.new ≡ Some (option_map (λ t. t.now) tag.entry) }
    ensures uuid { out.new.uuid ≡ out.old.uuid }
    ensures intervals { out.new.intervals.now ≡ out.old.intervals.now }
{
    match tag {
        Some(tag) => put_tag(tag.as_str().as_bytes(), out),
        None => put_tag(&[], out),
    }
}

/// Stores a sid in a struct of the caller, and its intervals in the first elements of an array.
#[tactic(auto, using(crate::proofs::SidsRead::sids_found))]
fn put_sid(
    found: &SidText<'_>,
    out: &mut CSid<'_>,
    places: &mut [CInterval],
    count: &mut usize,
) -> u32
    ensures value { (s : Sid) → Tells found.now s → PutsParts s result out.old out.new places.old places.new count.new }
    ensures kept { result ≢ 0 → places.new ≡ places.old }
    ensures few { result ≡ 0 → count.new ≤ length places.new }
    ensures code { result ≢ 0 → result ≡ 5 }
    ensures len { length places.new ≡ length places.old }
{
    let n = found.count;
    *count = n;
    if places.len() < n {
        return BUFFER_TOO_SMALL;
    }
    let parts = &found.parts;
    put_intervals(parts.intervals(), places);
    out.uuid = parts.uuid();
    put_optional_tag(parts.tag(), out);
    OK
}

/// Parses the text of a sid, and stores its intervals in the first elements. Errors: 2 for an invalid text; 5
/// if there are too few elements, with their number.
#[tactic(auto, using(crate::proofs::SidsRead::sids_found))]
#[unsafe(no_mangle)]
pub extern "C" fn myp_sid_from_text<'a>(
    text: &[u8],
    out: &mut CSid<'a>,
    intervals: &'a mut [CInterval],
    count: &mut usize,
) -> u32
    ensures bytes { (IsUtf8 text.now → ⊥) → RefusesText result out.old out.new count.new }
    ensures value { IsUtf8 text.now → SidInto (read_sid text.now) (length intervals.old) result out.old out.new count.new }
{
    *count = 0;
    let Ok(text) = str::from_utf8(text) else {
        return INVALID_DATA;
    };
    match sid_in(text) {
        Some(found) => {
            let code = put_sid(&found, out, intervals, count);
            if code == OK {
                out.intervals = &intervals[..*count];
            }
            code
        }
        None => INVALID_DATA,
    }
}
