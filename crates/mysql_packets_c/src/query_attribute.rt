//! The attributes of a query.
#![tactic(auto, using(crate::proofs::QueryAttributes::attributes))]

ghost use Rattle.std.specs.Prelude.{◌≡◌, option_map};
ghost use Rattle.mysql_commands.specs.Query.{query};
ghost use Rattle.mysql_stmt.specs.Attributes as prepared;
ghost use Rattle.mysql_stmt.specs.Attributes.{IsGood, attributes_read};
ghost use Rattle.mysql_packets_c.specs.QueryAttribute as spec;
ghost use Rattle.mysql_packets_c.specs.QueryAttribute.{AttributeInto, IsQueryAttribute};

use crate::code::{END, OK, code_of};
use crate::execution::put_param;
use crate::flags::capabilities_of;
use crate::input::read;
use crate::parameter::CParameter;
use bitflags::Flags;
use mysql_commands::ComQueryRef;
use mysql_stmt::{ExecuteParam, QueryAttribute, QueryAttributesView};
use mysql_wire::{ConstValue, StmtExecuteParamFlags};
use std::alloc::Global;

/// The flag under which attributes are sent.
const CLIENT_QUERY_ATTRIBUTES: u32 = 1 << 27;

/// Returns the next attribute of a query, all of whose attributes are valid.
fn next_of<'a>(view: &mut QueryAttributesView<'a>) -> Option<QueryAttribute<'a>>
    requires { IsGood view.old }
    ensures value { spec.TakesFirst view.old (option_map prepared.attribute_of result) view.new }
    ensures good { IsGood view.new }
{
    match view.next_attribute() {
        Ok(Some(found)) => Some(found),
        Ok(None) => {
            let _rest = view.rest();
            None
        }
        Err(_) => None,
    }
}

/// Returns the attribute at this index, from 0.
pub(crate) fn attribute_at<'a>(
    mut view: QueryAttributesView<'a>,
    place: usize,
) -> Option<QueryAttribute<'a>>
    requires { IsGood view }
    ensures value { option_map prepared.attribute_of result ≡ spec.at (attributes_read view.entry.all) place }
{
    let mut before = place;
    while before > 0 {
        if next_of(&mut view).is_none() {
            return None;
        }
        before -= 1;
    }
    next_of(&mut view)
}

/// Stores an attribute in a struct of the caller.
pub(crate) fn put_attribute<'a>(found: &QueryAttribute<'a>, out: &mut CParameter<'a>)
    ensures value { IsQueryAttribute (prepared.attribute_of found.now) out.old out.new }
{
    let param_type = found.param_type;
    out.name = found.name;
    out.has_type = 1;
    out.column_type = param_type.column_type().code();
    out.is_unsigned = u8::from(param_type.flags().contains(StmtExecuteParamFlags::UNSIGNED));
    out.is_sent_ahead = 0;
    put_param(&mut out.value, ExecuteParam::sent(found.value));
}

/// Returns the attribute of a query at this index.
fn attribute_of<'a>(query: &ComQueryRef<'a>, place: usize) -> Option<QueryAttribute<'a>>
    ensures value { option_map prepared.attribute_of result ≡ spec.at (spec.attributes_of query.now) place }
{
    match query.attributes() {
        Some(attributes) => attribute_at(attributes.view(), place),
        None => None,
    }
}

/// Reads one attribute of a `COM_QUERY`, by its index from 0; returns 7 if there are fewer. The struct is
/// unchanged unless the code is 0.
#[unsafe(no_mangle)]
pub extern "C" fn myp_read_query_attribute<'a>(
    alloc: Global,
    packet: &'a [u8],
    place: usize,
    out: &mut CParameter<'a>,
) -> u32
    ensures value { AttributeInto spec.attributes_of place ((query.form (record { 0 = 0x0800_0000; 1 = record {} })).reads packet.now) result out.old out.new }
{
    let capabilities = capabilities_of(CLIENT_QUERY_ATTRIBUTES);
    match read::<ComQueryRef<'a>>(alloc, packet, capabilities) {
        Ok((found, _used)) => match attribute_of(&found, place) {
            Some(attribute) => {
                put_attribute(&attribute, out);
                OK
            }
            None => END,
        },
        Err(fault) => code_of(&fault),
    }
}
