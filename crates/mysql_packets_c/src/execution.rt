//! The execution of a prepared statement.
#![tactic(auto, using(crate::proofs::Codes::codes, crate::proofs::Executions::executions))]

ghost use Rattle.std.specs.Prelude.{◌≡◌, ◌≢◌, ◌+◌, ◌<◌, ◌≤◌, ◌⊎◌, Ok, Err, IfErr, IfOk, OnOk, length, take, false, true};
ghost use Rattle.mysql_stmt.specs.ExecuteParam.{param_of};
ghost use Rattle.mysql_stmt.specs.Attributes.{attributes_left};
ghost use Rattle.mysql_stmt.specs.ExecuteHead.{cursor_flags, execute_head};
ghost use Rattle.mysql_stmt.specs.ExecuteRead.{Gives, HasNoParam, RefusesParam, read_as};
ghost use Rattle.mysql_packets_c.specs.Code.{ReadsInto};
ghost use Rattle.mysql_packets_c.specs.Execution as spec;
ghost use Rattle.mysql_packets_c.specs.Value.{SetsParam, param_content};

use crate::code::{BUFFER_TOO_SMALL, OK, code_of};
use crate::flags::capabilities_of;
use crate::input::read;
use crate::rows::CColumnType;
use crate::value::{CValue, put_date_with_offset, put_ref};
use mysql_stmt::{
    BoundParam, ComStmtExecuteHead, ExecuteParam, ExecuteParamsBytes, QueryAttributesView,
    TypedExecuteParam,
};
use mysql_values::{ParamType, ValueRef};
use mysql_wire::{
    CapabilityFlags, ColumnType, ConstValue, Fault, Flags, ParseBuf, StmtExecuteParamFlags,
};
use std::alloc::Global;

/// `myp_execution_head` of the C header.
#[repr(C)]
#[derive(Drop)]
pub struct CExecutionHead {
    pub used: usize,
    pub statement_id: u32,
    pub iteration_count: u32,
    pub flags: u8,
}

/// `myp_bound_param` of the C header.
#[repr(C)]
#[derive(Clone, Copy, Drop)]
pub struct CBoundParam {
    pub column_type: u8,
    pub is_unsigned: u8,
    pub is_sent_ahead: u8,
}

/// `myp_execution` of the C header.
#[repr(C)]
#[derive(Drop)]
pub struct CExecution {
    pub used: usize,
    pub attributes: usize,
    pub statement_id: u32,
    pub flags: u8,
    pub sends_types: u8,
}

/// Reads the first ten bytes of `COM_STMT_EXECUTE`. After an error (1 or 2) the struct is unchanged.
#[unsafe(no_mangle)]
pub extern "C" fn myp_read_execution_head(
    alloc: Global,
    packet: &[u8],
    out: &mut CExecutionHead,
) -> u32
    ensures value { ReadsInto (spec.IsHead packet.now) ((execute_head.form tt).reads packet.now) result out.old out.new }
{
    match read::<ComStmtExecuteHead>(alloc, packet, ()) {
        Ok((head, used)) => {
            out.used = used;
            out.statement_id = head.stmt_id();
            out.iteration_count = head.iteration_count();
            out.flags = head.flags().0;
            OK
        }
        Err(fault) => code_of(&fault),
    }
}

/// Converts a parameter.
pub(crate) fn bound_of(param: &CBoundParam) -> BoundParam
    ensures value { result ≡ spec.bound_of param.now }
{
    let column_type = match ColumnType::from_code(param.column_type) {
        Some(column_type) => column_type,
        None => ColumnType::MYSQL_TYPE_CODE_14,
    };
    let flags = if param.is_unsigned == 0 {
        StmtExecuteParamFlags::from_bits_retain(0)
    } else {
        StmtExecuteParamFlags::UNSIGNED
    };
    BoundParam {
        param_type: ParamType::new(column_type, flags),
        is_sent_ahead: param.is_sent_ahead != 0,
    }
}

/// Stores a parameter in the caller's value. One that was sent ahead is stored as NULL.
#[inline(always)]
pub(crate) fn put_param<'a>(place: &mut CValue<'a>, param: ExecuteParam<'a>)
    ensures content { param_content place.new ≡ spec.content_of (param_of param.entry) }
    ensures set { SetsParam (spec.content_of (param_of param.entry)) place.old place.new }
{
    match param {
        ExecuteParam::Value(value) => put_ref(place, value),
        ExecuteParam::DateTimeWithOffset(date) => put_date_with_offset(place, date),
        ExecuteParam::SentAhead => put_ref(place, ValueRef::NULL),
        ExecuteParam::AsSent { bytes, .. } => put_ref(place, ValueRef::Bytes(bytes)),
    }
}

pub(crate) fn type_held(param_type: ParamType) -> CColumnType
    ensures value { result ≡ spec.type_held param_type }
{
    let is_unsigned = param_type.flags().contains(StmtExecuteParamFlags::UNSIGNED);
    CColumnType {
        column_type: param_type.column_type().code(),
        is_unsigned: if is_unsigned { 1 } else { 0 },
    }
}

/// Reads the first of the remaining parameters, which has this place in the list.
#[inline(always)]
pub(crate) fn param_at<'a>(
    sent: &mut ExecuteParamsBytes<'a>,
    params: &[CBoundParam],
    place: usize,
) -> Result<TypedExecuteParam<'a>, Fault>
    requires here { place < length params.now }
    requires count { place + sent.old.left ≡ length params.now }
    ensures given { IfOk result (λ it. Gives (spec.last_left sent.old params.now) (read_as it) (spec.last_left sent.new params.now)) }
    ensures refused { IfErr result (λ e. RefusesParam e (spec.last_left sent.old params.now) × (sent.new ≡ sent.old)) }
{
    sent.next_param(bound_of(&params[place]))
}

/// Reads all the parameters into the first elements.
#[tactic(auto, using(crate::proofs::Executions::fills))]
fn fill_params<'a>(
    sent: &mut ExecuteParamsBytes<'a>,
    params: &[CBoundParam],
    values: &mut [CValue<'a>],
    types: &mut [CColumnType],
) -> Result<(), Fault>
    requires all { sent.old.left ≡ length params.now }
    requires values { length params.now ≤ length values.old }
    requires types { length params.now ≤ length types.old }
    ensures good { spec.FillsParams (spec.last_left sent.old params.now) (spec.last_left sent.new params.now) values.old values.new types.old types.new }
    ensures all { OnOk result (HasNoParam (spec.last_left sent.new params.now)) }
    ensures refused { IfErr result (λ e. RefusesParam e (spec.last_left sent.new params.now)) }
{
    for place in 0..params.len() {
        let it = param_at(sent, params, place)?;
        put_param(&mut values[place], it.param);
        types[place] = type_held(it.param_type);
    }
    Ok(())
}

/// Returns the attributes, which follow the parameters, none of which is left.
pub(crate) fn attributes_of<'a>(sent: &ExecuteParamsBytes<'a>) -> QueryAttributesView<'a>
    requires { sent.now.left ≡ 0 }
    ensures { result ≡ attributes_left sent.now.nulls sent.now.place sent.now.types sent.now.values }
{
    sent.attributes().unwrap()
}

/// Reads parameters into the first elements, and returns whether types are sent, the number of attributes, and
/// the bytes after the parameters.
fn params_into<'a>(
    capabilities: CapabilityFlags,
    head: &ComStmtExecuteHead,
    params: &[CBoundParam],
    buf: ParseBuf<'a>,
    values: &mut [CValue<'a>],
    types: &mut [CColumnType],
) -> Result<(bool, usize, ParseBuf<'a>), Fault>
    requires values { length params.now ≤ length values.old }
    requires types { length params.now ≤ length types.old }
    ensures value { spec.TakesParams capabilities (cursor_flags head.now) (spec.bound_list params.now) result (take (length params.now) values.new) (take (length params.now) types.new) buf.entry }
    ensures places { spec.FillsGood (spec.good_params capabilities (cursor_flags head.now) (spec.bound_list params.now) buf.entry) values.old values.new types.old types.new }
{
    let mut sent = ExecuteParamsBytes::new(capabilities, head, params.len(), buf)?;
    let sends_types = sent.sends_types();
    fill_params(&mut sent, params, values, types)?;
    let attributes = attributes_of(&sent);
    let rest = attributes.pass()?;
    Ok((sends_types, attributes.left(), rest))
}

/// Reads an execution of these parameters into the first elements.
fn execution_into<'a>(
    buf: &mut ParseBuf<'a>,
    capabilities: CapabilityFlags,
    params: &[CBoundParam],
    values: &mut [CValue<'a>],
    types: &mut [CColumnType],
    out: &mut CExecution,
) -> u32
    requires values { length params.now ≤ length values.old }
    requires types { length params.now ≤ length types.old }
    ensures code { result ≢ 4 }
    ensures value { spec.ExecutionInto capabilities buf.old (spec.bound_list params.now) ((execute_head.form tt).reads buf.old) (take (length params.now) values.new) (take (length params.now) types.new) result out.old out.new }
    ensures places { spec.FillsGood (spec.good_execution capabilities (spec.bound_list params.now) ((execute_head.form tt).reads buf.old)) values.old values.new types.old types.new }
{
    let len = buf.len();
    let head: ComStmtExecuteHead = match buf.parse(()) {
        Ok(head) => head,
        Err(fault) => return code_of(&fault),
    };
    match params_into(capabilities, &head, params, buf.rest(), values, types) {
        Ok((sends_types, attributes, rest)) => {
            out.used = len.saturating_sub(rest.len());
            out.attributes = attributes;
            out.statement_id = head.stmt_id();
            out.flags = head.flags().0;
            out.sends_types = if sends_types { 1 } else { 0 };
            OK
        }
        Err(fault) => code_of(&fault),
    }
}

/// Reads `COM_STMT_EXECUTE`, under the capabilities of both sides, into values and types, one for each parameter.
///
/// Errors: 5 if there are fewer elements than parameters; 1 or 2, with the values and types before the faulty
/// one set. Elements after those of the parameters are unchanged.
#[unsafe(no_mangle)]
pub extern "C" fn myp_read_execution<'a>(
    alloc: Global,
    packet: &'a [u8],
    capabilities: u32,
    params: &[CBoundParam],
    values: &mut [CValue<'a>],
    types: &mut [CColumnType],
    out: &mut CExecution,
) -> u32
    ensures no_memory { result ≢ 4 }
    ensures small { (length values.old < length params.now) ⊎ (length types.old < length params.now) → (result ≡ 5) × (values.new ≡ values.old) × (types.new ≡ types.old) × (out.new ≡ out.old) }
    ensures value { length params.now ≤ length values.old → length params.now ≤ length types.old → spec.ExecutionInto (record { 0 = capabilities; 1 = record {} }) packet.now (spec.bound_list params.now) ((execute_head.form tt).reads packet.now) (take (length params.now) values.new) (take (length params.now) types.new) result out.old out.new }
    ensures places { length params.now ≤ length values.old → length params.now ≤ length types.old → spec.FillsGood (spec.good_execution (record { 0 = capabilities; 1 = record {} }) (spec.bound_list params.now) ((execute_head.form tt).reads packet.now)) values.old values.new types.old types.new }
{
    if values.len() < params.len() || types.len() < params.len() {
        return BUFFER_TOO_SMALL;
    }
    let mut buf = ParseBuf::new(alloc, packet);
    execution_into(
        &mut buf,
        capabilities_of(capabilities),
        params,
        values,
        types,
        out,
    )
}
