//! A query, with its attributes.
#![tactic(auto, using(crate::proofs::WrittenExecutions::queries))]

ghost use Rattle.std.specs.Prelude.{◌≡◌, Some, false, true};
ghost use Rattle.mysql_stmt.specs.ComQuery.{query_bytes};
ghost use Rattle.mysql_packets_c.specs.Output.{PutsUnlessTooLong};
ghost use Rattle.mysql_packets_c.specs.Parameter.{if_agreed, named_type, param_given};
ghost use Rattle.mysql_packets_c.specs.Query as spec;

use crate::code::INVALID_INPUT;
use crate::output::put_packet;
use crate::parameter::{CParameter, are_agreed, are_parameters};
use mysql_stmt::ComQuery;

/// Writes the query with these attributes, or nothing if a type can't encode its value.
fn put_with_attributes(
    text: &[u8],
    attributes: &[CParameter<'_>],
    out: &mut [u8],
    written: &mut usize,
) -> u32
    ensures encoded { spec.are_encoded attributes.now ≡ true → PutsUnlessTooLong (query_bytes param_given named_type (spec.query_of (Some attributes.now) text.now)) result out.old out.new written.new }
    ensures refused { spec.are_encoded attributes.now ≡ false → (result ≡ 3) × (out.new ≡ out.old) × (written.new ≡ 0) }
{
    match ComQuery::new(text).with_attributes(attributes) {
        Ok(query) => put_packet(&query, out, written),
        Err(_) => {
            *written = 0;
            INVALID_INPUT
        }
    }
}

/// Writes `COM_QUERY`, with its attributes if both sides agreed on them. Errors: 5 if the buffer is too small, with the length
/// needed; 4 if the length overflows; 3 if an attribute has an invalid value or type, or its value doesn't fit its type.
#[unsafe(no_mangle)]
pub extern "C" fn myp_write_query(
    text: &[u8],
    attributes: &[CParameter<'_>],
    capabilities: u32,
    out: &mut [u8],
    written: &mut usize,
) -> u32
    ensures refused { spec.may_write capabilities attributes.now ≡ false → (result ≡ 3) × (out.new ≡ out.old) × (written.new ≡ 0) }
    ensures value { spec.may_write capabilities attributes.now ≡ true → PutsUnlessTooLong (query_bytes param_given named_type (spec.query_of (if_agreed capabilities attributes.now) text.now)) result out.old out.new written.new }
{
    if !are_parameters(attributes) {
        *written = 0;
        return INVALID_INPUT;
    }
    if are_agreed(capabilities) {
        return put_with_attributes(text, attributes, out, written);
    }
    put_packet(&ComQuery::new(text), out, written)
}
