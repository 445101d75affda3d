//! The names of an execution's parameters.
#![tactic(auto, using(crate::proofs::Codes::codes, crate::proofs::Executions::executions, crate::proofs::ExecutionNames::execution_names))]

ghost use Rattle.std.specs.Prelude.{◌≡◌, ◌<◌, ◌≤◌, IfErr, OnOk, length, take};
ghost use Rattle.mysql_stmt.specs.ExecuteHead.{cursor_flags, execute_head};
ghost use Rattle.mysql_stmt.specs.ExecuteRead.{RefusesParam};
ghost use Rattle.mysql_packets_c.specs.Execution.{bound_list, good_execution, good_params, last_left};
ghost use Rattle.mysql_packets_c.specs.ExecutionNames as spec;

use crate::code::{BUFFER_TOO_SMALL, OK, code_of};
use crate::execution::{CBoundParam, attributes_of, param_at};
use crate::flags::capabilities_of;
use crate::text::CBytes;
use mysql_stmt::{ComStmtExecuteHead, ExecuteParamsBytes};
use mysql_wire::{CapabilityFlags, Fault, ParseBuf};
use std::alloc::Global;

/// Reads all the parameters, and stores their names in the first elements.
fn fill_names<'a>(
    sent: &mut ExecuteParamsBytes<'a>,
    params: &[CBoundParam],
    names: &mut [CBytes<'a>],
) -> Result<(), Fault>
    requires all { sent.old.left ≡ length params.now }
    requires places { length params.now ≤ length names.old }
    ensures good { spec.FillsNames (last_left sent.old params.now) (last_left sent.new params.now) names.old names.new }
    ensures all { OnOk result (sent.new.left ≡ 0) }
    ensures refused { IfErr result (λ e. RefusesParam e (last_left sent.new params.now)) }
{
    for place in 0..params.len() {
        let it = param_at(sent, params, place)?;
        names[place] = CBytes { bytes: it.name };
    }
    Ok(())
}

/// Stores the names of the parameters after the head in the first elements.
fn names_after<'a>(
    capabilities: CapabilityFlags,
    head: &ComStmtExecuteHead,
    params: &[CBoundParam],
    buf: ParseBuf<'a>,
    names: &mut [CBytes<'a>],
) -> Result<(), Fault>
    requires { length params.now ≤ length names.old }
    ensures value { spec.NamesAre (spec.names_after capabilities (cursor_flags head.now) (bound_list params.now) buf.entry) result (take (length params.now) names.new) }
    ensures places { spec.FillsGoodNames names.old names.new (good_params capabilities (cursor_flags head.now) (bound_list params.now) buf.entry) }
{
    let mut sent = ExecuteParamsBytes::new(capabilities, head, params.len(), buf)?;
    fill_names(&mut sent, params, names)?;
    let attributes = attributes_of(&sent);
    let _rest = attributes.pass()?;
    Ok(())
}

/// Stores the names of the parameters of an execution that begins with these bytes in the first elements.
fn execution_names<'a>(
    buf: &mut ParseBuf<'a>,
    capabilities: CapabilityFlags,
    params: &[CBoundParam],
    names: &mut [CBytes<'a>],
) -> Result<(), Fault>
    requires { length params.now ≤ length names.old }
    ensures value { spec.NamesAre (spec.names_in capabilities (bound_list params.now) buf.old) result (take (length params.now) names.new) }
    ensures places { spec.FillsGoodNames names.old names.new (good_execution capabilities (bound_list params.now) ((execute_head.form tt).reads buf.old)) }
{
    let head: ComStmtExecuteHead = buf.parse(())?;
    names_after(capabilities, &head, params, buf.rest(), names)
}

/// Reads the names of an execution's parameters into the first elements; they are empty if the execution sends none.
///
/// Errors: 5 if there are fewer elements than parameters, and nothing changes; 1 or 2, with the names before
/// the faulty parameter set. Elements after those of the parameters are unchanged.
#[unsafe(no_mangle)]
pub extern "C" fn myp_read_execution_names<'a>(
    alloc: Global,
    packet: &'a [u8],
    capabilities: u32,
    params: &[CBoundParam],
    names: &mut [CBytes<'a>],
) -> u32
    ensures small { length names.old < length params.now → (result ≡ 5) × (names.new ≡ names.old) }
    ensures value { length params.now ≤ length names.old → spec.NamesInto (spec.names_in (record { 0 = capabilities; 1 = record {} }) (bound_list params.now) packet.now) result (take (length params.now) names.new) }
    ensures places { length params.now ≤ length names.old → spec.FillsGoodNames names.old names.new (good_execution (record { 0 = capabilities; 1 = record {} }) (bound_list params.now) ((execute_head.form tt).reads packet.now)) }
{
    if names.len() < params.len() {
        return BUFFER_TOO_SMALL;
    }
    let mut buf = ParseBuf::new(alloc, packet);
    match execution_names(&mut buf, capabilities_of(capabilities), params, names) {
        Ok(()) => OK,
        Err(fault) => code_of(&fault),
    }
}
