//! Writing executions.
#![tactic(auto, using(crate::proofs::WrittenExecutions::written_executions))]

ghost use Rattle.std.specs.Option.{option_copied};
ghost use Rattle.std.specs.Prelude.{◌≡◌, ◌≤◌, ◌-◌, ◌^◌, ◌&&◌, List, None, false, length, true};
ghost use Rattle.mysql_stmt.specs.Execution.{execution_bytes};
ghost use Rattle.mysql_wire.specs.Writing.{saturated};
ghost use Rattle.mysql_packets_c.specs.CheckedParams.{may_send};
ghost use Rattle.mysql_packets_c.specs.CheckedExecution.{plain_of};
ghost use Rattle.mysql_packets_c.specs.Output.{PutsUnlessTooLong};
ghost use Rattle.mysql_stmt.specs.ExecuteWithOptions as library;
ghost use Rattle.mysql_packets_c.specs.Parameter.{are_parameters, if_agreed, named_type, param_given, sent};
ghost use Rattle.mysql_packets_c.specs.WrittenExecution as spec;
ghost use Rattle.mysql_packets_c.specs.WrittenExecution.{IsRefused, PutsExecution};
ghost use Rattle.mysql_packets_c.specs.declared.parameter.CParameter.{CParameter};

use crate::checked_execution::{CheckedExecution, put_over};
use crate::checked_params::checked;
use crate::code::{BUFFER_TOO_SMALL, INVALID_INPUT, OK};
use crate::output::answer_count;
use crate::parameter::{CParameter, are_agreed, are_parameters};
use bitflags::Flags;
use mysql_stmt::{ComStmtExecuteHead, ComStmtExecuteOptionsBuilder};
use mysql_wire::CursorType;

/// `myp_execution_options` of the C header: all zero means no cursor, and types are sent.
#[repr(C)]
#[derive(Drop)]
pub struct CExecutionOptions {
    pub iteration_count: u32,
    pub flags: u8,
    pub omits_types: u8,
}

/// Returns the flags that are sent: under CLIENT_QUERY_ATTRIBUTES they say that a parameter count follows.
fn flags_sent(capabilities: u32, flags: u8) -> CursorType
    ensures value { result.0 ≡ spec.flags_sent capabilities flags }
{
    let asked = CursorType::from_bits_retain(flags);
    if are_agreed(capabilities) {
        asked.union(CursorType::PARAMETER_COUNT_AVAILABLE)
    } else {
        asked
    }
}

/// The attributes, if both sides agreed on them.
fn if_agreed<'r, 'a>(
    capabilities: u32,
    attributes: &'r [CParameter<'a>],
) -> Option<&'r [CParameter<'a>]>
    ensures { option_copied result ≡ if_agreed capabilities attributes.now }
{
    if are_agreed(capabilities) {
        Some(attributes)
    } else {
        None
    }
}

/// Returns the iteration count that is sent: 1 if none is given.
fn iterations_sent(count: u32) -> u32
    ensures { result ≡ spec.iterations_sent count }
{
    if count == 0 { 1 } else { count }
}

/// Returns the builder of an execution with these attributes and options.
#[inline(always)]
fn builder_of<'r, 'a>(
    statement_id: u32,
    attributes: &'r [CParameter<'a>],
    options: &CExecutionOptions,
    capabilities: u32,
) -> ComStmtExecuteOptionsBuilder<'r, CParameter<'a>>
    ensures { (params : List CParameter) → library.asked param_given named_type result (sent params) ≡ spec.execution_of statement_id params attributes.now options.now capabilities }
{
    ComStmtExecuteOptionsBuilder {
        stmt_id: statement_id,
        flags: flags_sent(capabilities, options.flags),
        iteration_count: iterations_sent(options.iteration_count),
        sends_types: options.omits_types == 0,
        attributes: if_agreed(capabilities, attributes),
    }
}

/// Writes the execution that the builder builds of these parameters, or nothing if a type can't encode its value.
#[inline(never)]
#[tactic(auto, using(crate::proofs::WrittenExecutions::written_executions), unfolding(mysql_wire::specs::Writing::saturated))]
fn put_execution(
    builder: ComStmtExecuteOptionsBuilder<'_, CParameter<'_>>,
    params: &[CParameter<'_>],
    out: &mut [u8],
    written: &mut usize,
    as_long_data: &mut u8,
) -> u32
    ensures spelled { spec.is_spelled (library.asked param_given named_type builder.entry (sent params.now)) ≡ true → PutsExecution (library.asked param_given named_type builder.entry (sent params.now)) result out.old out.new written.new as_long_data.new }
    ensures refused { spec.is_spelled (library.asked param_given named_type builder.entry (sent params.now)) ≡ false → IsRefused result out.old out.new written.new as_long_data.old as_long_data.new }
{
    match builder.write_to_slice(params, out) {
        Ok((len, leaves_out)) => {
            *as_long_data = leaves_out as u8;
            answer_count(len, out.len(), written)
        }
        Err(_) => {
            *written = 0;
            INVALID_INPUT
        }
    }
}

/// The maximum length of a payload in one frame.
const MAX_PAYLOAD_LEN: usize = 0xff_ffff;

/// Writes an execution whose length was computed.
#[inline(always)]
#[tactic(auto, using(crate::proofs::CheckedParams::puts))]
fn put_counted(
    execution: &CheckedExecution<'_, '_>,
    len: usize,
    out: &mut [u8],
    written: &mut usize,
) -> u32
    requires counted { len ≡ saturated (length (execution_bytes (plain_of execution.now))) }
    requires short { len ≤ 2 ^ 24 - 1 }
    ensures { PutsUnlessTooLong (execution_bytes (plain_of execution.now)) result out.old out.new written.new }
{
    *written = len;
    if out.len() < len {
        return BUFFER_TOO_SMALL;
    }
    put_over(execution, &mut out[..len]);
    OK
}

/// Writes an execution without names and attributes. If it is too long for one frame, the library's builder
/// writes it, which omits byte strings.
#[inline(always)]
fn put_plain(
    builder: ComStmtExecuteOptionsBuilder<'_, CParameter<'_>>,
    params: &[CParameter<'_>],
    out: &mut [u8],
    written: &mut usize,
    as_long_data: &mut u8,
) -> u32
    requires { option_copied builder.attributes ≡ None }
    ensures spelled { may_send params.now ≡ true → PutsExecution (library.asked param_given named_type builder.entry (sent params.now)) result out.old out.new written.new as_long_data.new }
    ensures refused { may_send params.now ≡ false → IsRefused result out.old out.new written.new as_long_data.old as_long_data.new }
{
    let Some(checked) = checked(params) else {
        *written = 0;
        return INVALID_INPUT;
    };
    let head = ComStmtExecuteHead::new(builder.stmt_id, builder.flags);
    let execution = CheckedExecution {
        head: head.with_iteration_count(builder.iteration_count),
        params: checked,
        sends_types: builder.sends_types,
    };
    let len = execution.len();
    if len > MAX_PAYLOAD_LEN {
        return put_execution(builder, params, out, written, as_long_data);
    }
    *as_long_data = 0;
    put_counted(&execution, len, out, written)
}

/// Writes the execution that the builder builds of these parameters, if all are valid.
fn put_asked(
    builder: ComStmtExecuteOptionsBuilder<'_, CParameter<'_>>,
    params: &[CParameter<'_>],
    out: &mut [u8],
    written: &mut usize,
    as_long_data: &mut u8,
) -> u32
    ensures spelled { (are_parameters params.now && spec.is_spelled (library.asked param_given named_type builder.entry (sent params.now))) ≡ true → PutsExecution (library.asked param_given named_type builder.entry (sent params.now)) result out.old out.new written.new as_long_data.new }
    ensures refused { (are_parameters params.now && spec.is_spelled (library.asked param_given named_type builder.entry (sent params.now))) ≡ false → IsRefused result out.old out.new written.new as_long_data.old as_long_data.new }
{
    if builder.attributes.is_none() {
        return put_plain(builder, params, out, written, as_long_data);
    }
    if !are_parameters(params) {
        *written = 0;
        return INVALID_INPUT;
    }
    put_execution(builder, params, out, written, as_long_data)
}

/// Writes `COM_STMT_EXECUTE` with these parameters, and with attributes if both sides agreed on them.
///
/// Errors: 5 if the buffer is too small, with the length needed; 4 if the length overflows; 3 if a parameter or an attribute
/// has an invalid value or type, or its value doesn't fit its type, and then `as_long_data` is unchanged.
#[unsafe(no_mangle)]
pub extern "C" fn myp_write_execution(
    statement_id: u32,
    params: &[CParameter<'_>],
    attributes: &[CParameter<'_>],
    options: &CExecutionOptions,
    capabilities: u32,
    out: &mut [u8],
    written: &mut usize,
    as_long_data: &mut u8,
) -> u32
    ensures refused { spec.may_write (spec.execution_of statement_id params.now attributes.now options.now capabilities) params.now attributes.now ≡ false → IsRefused result out.old out.new written.new as_long_data.old as_long_data.new }
    ensures value { spec.may_write (spec.execution_of statement_id params.now attributes.now options.now capabilities) params.now attributes.now ≡ true → PutsExecution (spec.execution_of statement_id params.now attributes.now options.now capabilities) result out.old out.new written.new as_long_data.new }
{
    if !are_parameters(attributes) {
        *written = 0;
        return INVALID_INPUT;
    }
    let builder = builder_of(statement_id, attributes, options, capabilities);
    put_asked(builder, params, out, written, as_long_data)
}
