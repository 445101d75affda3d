//! An optional tag in its encoding.

ghost use Rattle.std.specs.Prelude.{false, ◌≡◌, List, ℕ};
ghost use Rattle.mysql_wire.specs.Form.{looked_up};
ghost use Rattle.mysql_wire.specs.Reading.{Answers};
ghost use Rattle.mysql_repl.specs.TagString as spec;

use crate::tag::Tag;
use crate::tag_ref::TagRef;
use mysql_wire::{BytesRepr, FaultOf, ParseBuf, VarLen};
use std::str;

/// The error text of an invalid tag.
const INVALID: &str = "Invalid tag";

/// Returns the tag of some bytes, or `None` if there are no bytes.
fn tag_of<'s, 'a>(bytes: &'a [u8]) -> Result<Option<TagRef<'a>>, FaultOf<'s>>
    ensures value { (rest : List ℕ) → Answers false result rest (looked_up (spec.tag_of bytes.now) rest) }
{
    if bytes.is_empty() {
        return Ok(None);
    }
    let Ok(text) = str::from_utf8(bytes) else {
        return Err(FaultOf::InvalidData(INVALID));
    };
    match TagRef::new(text) {
        Ok(tag) => Ok(Some(tag)),
        Err(_) => Err(FaultOf::InvalidData(INVALID)),
    }
}

/// Reads a tag after its length, which is 0 for no tag. It takes no memory.
///
/// Bytes that aren't a tag are `InvalidData`.
#[tactic(auto, unfolding(crate::specs::TagString::tag_form))]
pub(crate) fn read_tag_ref<'s, 'de>(
    buf: &mut ParseBuf<'de>,
) -> Result<Option<TagRef<'de>>, FaultOf<'s>>
    ensures value { Answers false result buf.new (spec.tag_form.reads buf.old) }
{
    let mut content = <VarLen as BytesRepr>::deserialize((), buf)?;
    tag_of(content.eat_all())
}

/// Reads a tag that can outlive its packet.
pub(crate) fn read_tag<'s, 'de>(buf: &mut ParseBuf<'de>) -> Result<Option<Tag<'de>>, FaultOf<'s>>
    ensures value { Answers false result buf.new (spec.tag_form.reads buf.old) }
{
    match read_tag_ref(buf)? {
        Some(tag) => Ok(Some(tag.to_owned())),
        None => Ok(None),
    }
}

/// The bytes of the tag; empty if there is none.
pub(crate) fn tag_bytes<'b>(tag: &'b Option<Tag<'_>>) -> &'b [u8]
    ensures value { result.now ≡ spec.tag_bytes tag.now }
{
    match tag {
        Some(tag) => tag.as_str().as_bytes(),
        None => &[],
    }
}
