//! The attributes in the extended metadata of a column, one after another.
#![tactic(auto, using(crate::proofs::Codes::codes, crate::proofs::Changes::changes, crate::proofs::AttributeKinds::kinds))]

ghost use Rattle.std.specs.Prelude.{◌≡◌, ◌≢◌, []};
ghost use Rattle.mysql_replies.specs.ColumnAttribute.{attribute_of, column_attribute};
ghost use Rattle.mysql_packets_c.specs.Input.{IsRestOf};
ghost use Rattle.mysql_packets_c.specs.ColumnAttribute.{IsAttribute};
ghost use Rattle.mysql_packets_c.specs.Output.{PutsUnlessTooLong};
ghost use Rattle.mysql_packets_c.specs.SessionChange.{NextInto};

use crate::code::{END, OK, code_of};
use crate::input::read_front;
use crate::output::put_packet;
use crate::text::CBytes;
use mysql_replies::{ColumnAttribute, ColumnAttributeKind, ColumnAttributeRef};
use std::alloc::Global;
use std::borrow::CowSlice;

/// `myp_column_attribute` of the C header.
#[repr(C)]
#[derive(Drop)]
pub struct CColumnAttribute<'a> {
    pub text: &'a [u8],
    pub kind: u8,
}

/// Takes the next attribute off the front; returns 7 if none is left. After any other code, both outputs are unchanged.
#[unsafe(no_mangle)]
pub extern "C" fn myp_next_column_attribute<'a>(
    alloc: Global,
    rest: &mut CBytes<'a>,
    out: &mut CColumnAttribute<'a>,
) -> u32
    ensures end { rest.old.bytes.now ≡ [] → (result ≡ 7) × (rest.new ≡ rest.old) × (out.new ≡ out.old) }
    ensures value { rest.old.bytes.now ≢ [] → NextInto IsAttribute ((column_attribute.form tt).reads rest.old.bytes.now) result rest.old rest.new out.old out.new }
    ensures place { IsRestOf rest.new rest.old }
{
    if rest.bytes.is_empty() {
        return END;
    }
    match read_front::<ColumnAttributeRef<'a>>(alloc, rest.bytes, ()) {
        Ok((attribute, after)) => {
            out.text = attribute.text();
            out.kind = attribute.kind().code();
            rest.move_to(&after);
            OK
        }
        Err(fault) => code_of(&fault),
    }
}

/// Writes an attribute, a byte with its kind and the text, length-encoded. Errors: 5 if the buffer is too small, with the
/// length needed; 4 if the length overflows.
#[unsafe(no_mangle)]
pub extern "C" fn myp_write_column_attribute(
    attribute: &CColumnAttribute<'_>,
    out: &mut [u8],
    written: &mut usize,
) -> u32
    ensures { PutsUnlessTooLong (column_attribute.bytes (attribute_of attribute.now.kind attribute.now.text.now)) result out.old out.new written.new }
{
    let kind = ColumnAttributeKind::of(attribute.kind);
    let packet = ColumnAttribute::new(kind, CowSlice::Borrowed(attribute.text));
    put_packet(&packet, out, written)
}
