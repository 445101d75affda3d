//! The attributes of an execution.
#![tactic(auto, using(crate::proofs::QueryAttributes::attributes, crate::proofs::Executions::executions))]

ghost use Rattle.std.specs.Prelude.{◌≡◌, IfErr, OnOk, length};
ghost use Rattle.mysql_stmt.specs.ExecuteHead.{cursor_flags};
ghost use Rattle.mysql_stmt.specs.ExecuteRead.{RefusesParam};
ghost use Rattle.mysql_packets_c.specs.Execution.{KeepsRest, bound_list, last_left};
ghost use Rattle.mysql_packets_c.specs.ExecutionAttribute as spec;
ghost use Rattle.mysql_packets_c.specs.QueryAttribute.{AttributeInto, AttributesAre};

use crate::code::{END, OK, code_of};
use crate::execution::{CBoundParam, attributes_of, param_at};
use crate::flags::capabilities_of;
use crate::parameter::CParameter;
use crate::query_attribute::{attribute_at, put_attribute};
use mysql_stmt::{ComStmtExecuteHead, ExecuteParamsBytes, QueryAttributesView};
use mysql_wire::{CapabilityFlags, Fault, ParseBuf};
use std::alloc::Global;

/// Skips all the parameters.
fn pass_params(sent: &mut ExecuteParamsBytes<'_>, params: &[CBoundParam]) -> Result<(), Fault>
    requires all { sent.old.left ≡ length params.now }
    ensures rest { KeepsRest (last_left sent.old params.now) (last_left sent.new params.now) }
    ensures all { OnOk result (sent.new.left ≡ 0) }
    ensures refused { IfErr result (λ e. RefusesParam e (last_left sent.new params.now)) }
{
    for place in 0..params.len() {
        let _passed = param_at(sent, params, place)?;
    }
    Ok(())
}

/// Returns the attributes of an execution after these parameters, which must be valid.
fn attributes_after<'a>(
    capabilities: CapabilityFlags,
    head: &ComStmtExecuteHead,
    params: &[CBoundParam],
    buf: ParseBuf<'a>,
) -> Result<QueryAttributesView<'a>, Fault>
    ensures value { AttributesAre (spec.attributes_after capabilities (cursor_flags head.now) (bound_list params.now) buf.entry) result }
{
    let mut sent = ExecuteParamsBytes::new(capabilities, head, params.len(), buf)?;
    pass_params(&mut sent, params)?;
    let attributes = attributes_of(&sent);
    let _rest = attributes.pass()?;
    Ok(attributes)
}

/// Returns the attributes of an execution that begins with these bytes.
fn execution_attributes<'a>(
    buf: &mut ParseBuf<'a>,
    capabilities: CapabilityFlags,
    params: &[CBoundParam],
) -> Result<QueryAttributesView<'a>, Fault>
    ensures value { AttributesAre (spec.attributes_in capabilities (bound_list params.now) buf.old) result }
{
    let head: ComStmtExecuteHead = buf.parse(())?;
    attributes_after(capabilities, &head, params, buf.rest())
}

/// Reads one attribute of `COM_STMT_EXECUTE`, by its index from 0; returns 7 if there are fewer. The struct is
/// unchanged unless the code is 0.
#[unsafe(no_mangle)]
pub extern "C" fn myp_read_execution_attribute<'a>(
    alloc: Global,
    packet: &'a [u8],
    capabilities: u32,
    params: &[CBoundParam],
    place: usize,
    out: &mut CParameter<'a>,
) -> u32
    ensures value { AttributeInto (λ x. x) place (spec.attributes_in (record { 0 = capabilities; 1 = record {} }) (bound_list params.now) packet.now) result out.old out.new }
{
    let mut buf = ParseBuf::new(alloc, packet);
    match execution_attributes(&mut buf, capabilities_of(capabilities), params) {
        Ok(attributes) => match attribute_at(attributes, place) {
            Some(attribute) => {
                put_attribute(&attribute, out);
                OK
            }
            None => END,
        },
        Err(fault) => code_of(&fault),
    }
}
