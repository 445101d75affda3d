//! The parameters of an execution.

ghost use Rattle.std.specs.Prelude.{◌≡◌, ◌++◌, List, OnOk, codes};
ghost use Rattle.mysql_stmt.specs.ExecuteParam.{param_of};
ghost use Rattle.mysql_show.specs.Fields.{Said, said};
ghost use Rattle.mysql_observer.specs.Tracked.{is_execution as executes};
ghost use Rattle.mysql_recorder.specs.RecordFields.{unknown_types};
ghost use Rattle.mysql_recorder.specs.ValueFields as spec;

use crate::values::{append_attributes, append_refused};
use mysql_conversation::PacketKind;
use mysql_show::Field;
use mysql_stmt::{ExecuteParam, ExecuteParamsView};
use mysql_values::{ParamValue, ValueRef};
use mysql_wire::command_code::COM_STMT_EXECUTE;
use std::alloc::AllocError;

/// The length of the fields before the parameters of `COM_STMT_EXECUTE` in bytes.
pub(crate) const EXECUTE_HEAD: usize = 10;

/// Whether the kind is `COM_STMT_EXECUTE`.
pub(crate) fn is_execution(kind: PacketKind) -> bool
    ensures { result ≡ executes kind }
{
    kind == PacketKind::Command(COM_STMT_EXECUTE)
}

/// Appends a notice that the types of the parameters aren't known, if the packet is an execution that has any.
pub(crate) fn append_unknown<'p>(
    kind: PacketKind,
    payload: &[u8],
    fields: &mut Vec<Field<'p>>,
) -> Result<(), AllocError>
    ensures ok { OnOk result (fields.new.items ≡ fields.old.items ++ unknown_types kind payload.now) }
{
    if is_execution(kind) && payload.len() > EXECUTE_HEAD {
        fields.push(Field::word("parameter_types", "unknown"))?;
    }
    Ok(())
}

/// Appends the parameters and the attributes of an execution, up to the first that can't be read.
pub(crate) fn append_params<'p>(
    params: ExecuteParamsView<'p, '_>,
    fields: &mut Vec<Field<'p>>,
) -> Result<(), AllocError>
    ensures ok { OnOk result ((more : List Said) × spec.AreParams params.entry more × (fields.new.items ≡ fields.old.items ++ more)) }
{
    let mut params = params;
    'params: loop {
        let mut rest = params.rest();
        match params.next_param() {
            Ok(Some(it)) => fields.push(field_of(it.param))?,
            Ok(None) => break,
            Err(fault) => return append_refused(&fault, rest.eat_all(), fields),
        }
    }
    match params.attributes() {
        Some(attributes) => append_attributes(attributes, false, fields),
        None => Ok(()),
    }
}

/// Converts a parameter to a field.
fn field_of<'p>(param: ExecuteParam<'p>) -> Field<'p>
    ensures { result ≡ said (codes "parameter") (spec.param_shown (param_of param.entry)) }
{
    match param {
        ExecuteParam::Value(value) => Field::value("parameter", value),
        ExecuteParam::DateTimeWithOffset(date) => {
            Field::param("parameter", ParamValue::DateTimeWithOffset(date))
        }
        ExecuteParam::SentAhead => Field::word("parameter", "sent ahead"),
        ExecuteParam::AsSent { bytes, .. } => Field::value("parameter", ValueRef::Bytes(bytes)),
    }
}
