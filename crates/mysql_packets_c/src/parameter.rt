//! Parameters of an execution, and attributes of a query or an execution.
#![tactic(auto, using(mysql_stmt::proofs::SentBytes::plain))]

ghost use Rattle.std.specs.List.{list_all};
ghost use Rattle.std.specs.Prelude.{◌≡◌, ◌≤◌, ◌+◌, length};
ghost use Rattle.mysql_stmt.specs.ExecuteParam.{param_of};
ghost use Rattle.mysql_stmt.specs.SentParam.{bytes_under};
ghost use Rattle.mysql_packets_c.specs.Appends.{Appends};
ghost use Rattle.mysql_packets_c.specs.Parameter as spec;

use crate::bulk::declared_type;
use crate::flags::capabilities_of;
use crate::rows::CColumnType;
use crate::value::{CValue, is_param};
use bitflags::Flags;
use mysql_stmt::{AsExecuteParam, ExecuteParam, TypedExecuteParam};
use mysql_values::{ParamType, ValueRef};
use mysql_wire::{Buffer, CapabilityFlags, ColumnType, ConstValue};

/// `myp_parameter` of the C header: a value with a name, and with a type of the caller's or that of its kind.
#[repr(C)]
#[derive(Clone, Copy, Drop)]
pub struct CParameter<'a> {
    pub value: CValue<'a>,
    pub name: &'a [u8],
    pub has_type: u8,
    pub column_type: u8,
    pub is_unsigned: u8,
    pub is_sent_ahead: u8,
}

/// Returns the parameter with its type.
#[inline(always)]
fn typed<'r>(parameter: &'r CParameter<'_>) -> TypedExecuteParam<'r>
    ensures param { param_of result.param ≡ spec.param_given parameter.now }
    ensures param_type { result.param_type ≡ (spec.named_type parameter.now).param_type }
{
    TypedExecuteParam {
        param_type: parameter.sent_type(),
        name: parameter.name,
        param: parameter.as_execute_param(),
    }
}

/// Writes a parameter under its type, for which there is capacity.
// (by a call, so that what writes plain ones stays small enough to be in line)
#[inline(never)]
fn append_typed<O: Buffer>(parameter: &CParameter<'_>, as_long_data: bool, out: &mut O)
    requires { length (O.held out.old) + length (bytes_under as_long_data (spec.named_type parameter.now).param_type (spec.param_given parameter.now)) ≤ O.capacity out.old }
    ensures { Appends O.held O.after O.capacity O.kept (bytes_under as_long_data (spec.named_type parameter.now).param_type (spec.param_given parameter.now)) out.old out.new }
{
    typed(parameter).append_sent(as_long_data, out);
}

/// Writes a parameter under its type by a call, with the buffer in a variable of its own, so that the caller's
/// stays in registers.
#[inline(always)]
fn append_apart<O: Buffer>(parameter: &CParameter<'_>, as_long_data: bool, out: &mut O)
    requires { length (O.held out.old) + length (bytes_under as_long_data (spec.named_type parameter.now).param_type (spec.param_given parameter.now)) ≤ O.capacity out.old }
    ensures { Appends O.held O.after O.capacity O.kept (bytes_under as_long_data (spec.named_type parameter.now).param_type (spec.param_given parameter.now)) out.old out.new }
{
    let mut taken = out.taken();
    append_typed(parameter, as_long_data, &mut taken);
    *out = taken;
}

impl AsExecuteParam for CParameter<'_> {
    ghost use Rattle.mysql_packets_c.specs.Parameter.{named_type, param_given};

    ghost param = { param_given };

    ghost named_type = { named_type };

    #[inline(always)]
    fn as_execute_param(&self) -> ExecuteParam<'_> {
        if self.is_sent_ahead != 0 {
            return ExecuteParam::SentAhead;
        }
        self.value.as_execute_param()
    }

    #[inline(always)]
    fn sent_type(&self) -> ParamType {
        if self.has_type != 0 {
            return declared_type(&CColumnType {
                column_type: self.column_type,
                is_unsigned: self.is_unsigned,
            });
        }
        if self.is_sent_ahead != 0 {
            return ParamType::from_value_ref(&ValueRef::Bytes(&[]));
        }
        self.value.sent_type()
    }

    #[inline(always)]
    fn name(&self) -> &[u8] {
        self.name
    }

    #[inline(always)]
    fn is_null(&self) -> bool {
        self.is_sent_ahead == 0 && self.value.is_null()
    }

    #[inline(always)]
    fn is_spelled(&self) -> bool {
        // (the type of its kind encodes each value)
        (self.has_type == 0 && self.is_sent_ahead == 0) || typed(self).is_spelled()
    }

    #[inline(always)]
    fn sent_len(&self, as_long_data: bool) -> usize {
        if self.has_type == 0 && self.is_sent_ahead == 0 {
            return self.value.sent_len(as_long_data);
        }
        typed(self).sent_len(as_long_data)
    }

    #[inline(always)]
    fn append_sent<O: Buffer>(&self, as_long_data: bool, out: &mut O) {
        if self.has_type == 0 && self.is_sent_ahead == 0 {
            self.value.append_sent(as_long_data, out);
            return;
        }
        append_apart(self, as_long_data, out);
    }
}

/// Whether the parameter's type is valid, if it has one of the caller's.
fn has_valid_type(parameter: &CParameter<'_>) -> bool
    ensures { result ≡ spec.has_valid_type parameter.now }
{
    parameter.has_type == 0 || ColumnType::from_code(parameter.column_type).is_some()
}

/// Whether the parameter was sent ahead or its value is valid, and its type is valid.
pub(crate) fn is_parameter(parameter: &CParameter<'_>) -> bool
    ensures { result ≡ spec.is_parameter parameter.now }
{
    (parameter.is_sent_ahead != 0 || is_param(&parameter.value)) && has_valid_type(parameter)
}

/// Whether each of them is a valid parameter.
pub(crate) fn are_parameters(parameters: &[CParameter<'_>]) -> bool
    ensures { result ≡ list_all spec.is_parameter parameters.now }
{
    parameters.iter().all(|parameter| is_parameter(parameter))
}

/// Whether both sides agreed on attributes.
pub(crate) fn are_agreed(capabilities: u32) -> bool
    ensures { result ≡ spec.are_agreed capabilities }
{
    capabilities_of(capabilities).contains(CapabilityFlags::CLIENT_QUERY_ATTRIBUTES)
}
