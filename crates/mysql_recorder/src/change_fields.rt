//! The session changes of an OK packet, as fields.

ghost use Rattle.std.specs.Prelude.{◌≡◌, ◌++◌, OnOk};
ghost use Rattle.mysql_session.specs.SessionStateChangeRef.{change_of};
ghost use Rattle.mysql_recorder.specs.ChangeFields as spec;

use crate::values::fault_name;
use mysql_replies::OkPacketRef;
use mysql_session::{ChangeRef, SystemVariablesRef};
use mysql_show::Field;
use std::alloc::AllocError;

/// Appends the changes of the session, as servers send them.
pub(crate) fn append_changes<'p>(
    ok: &OkPacketRef<'p>,
    fields: &mut Vec<Field<'p>>,
) -> Result<(), AllocError>
    ensures ok { OnOk result (spec.AppendsChanges ok.now fields.old.items fields.new.items) }
{
    for change in ok.session_state_changes() {
        match change {
            Ok(change) => append_change(change.into_change(), fields)?,
            Err(fault) => fields.push(Field::word("refused", fault_name(&fault)))?,
        }
    }
    Ok(())
}

fn append_change<'p>(change: ChangeRef<'p>, fields: &mut Vec<Field<'p>>) -> Result<(), AllocError>
    ensures ok { OnOk result (fields.new.items ≡ fields.old.items ++ spec.change_fields (change_of change.entry)) }
{
    let field = match change {
        ChangeRef::IsTracked(is_tracked) => Field::flag("state_changed", is_tracked),
        ChangeRef::Schema(schema) => Field::bytes("schema", schema),
        ChangeRef::SystemVariables(variables) => return append_variables(variables, fields),
        ChangeRef::Gtids(gtids) => Field::bytes("gtids", gtids),
        ChangeRef::TransactionCharacteristics(statements) => {
            Field::bytes("transaction_characteristics", statements)
        }
        ChangeRef::TransactionState(state) => Field::bytes("transaction_state", state),
    };
    Ok(fields.push(field)?)
}

fn append_variables<'p>(
    variables: SystemVariablesRef<'p>,
    fields: &mut Vec<Field<'p>>,
) -> Result<(), AllocError>
    ensures ok { OnOk result (fields.new.items ≡ fields.old.items ++ spec.variable_fields variables.entry) }
{
    for variable in variables {
        fields.push(Field::bytes("variable", variable.name()))?;
        fields.push(Field::bytes("variable_value", variable.value()))?;
    }
    Ok(())
}
