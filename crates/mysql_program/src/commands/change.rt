//! The line of one change of a session's state.

ghost use Rattle.std.specs.Prelude.{◌≡◌, ◌++◌, IfOk, OnOk, codes, string_bytes};
ghost use Rattle.std.specs.List.{flat_map};
ghost use Rattle.mysql_show.specs.FieldText.{prefixed};
ghost use Rattle.mysql_program.specs.Change.{change_value, variable_text};

use mysql_session::{SessionStateChange, SystemVariable};
use std::alloc::{AllocError, Global};

/// The value of the line `change`: the kind of the change, and its data.
pub fn change_value(alloc: Global, change: &SessionStateChange<'_>) -> Result<String, AllocError>
    ensures value { IfOk result (λ text. string_bytes text ≡ change_value change.now) }
{
    match change {
        SessionStateChange::IsTracked(true) => String::from_str(alloc, "IsTracked true"),
        SessionStateChange::IsTracked(false) => String::from_str(alloc, "IsTracked false"),
        SessionStateChange::Schema(schema) => kind_and_bytes(alloc, "Schema", schema.as_bytes()),
        SessionStateChange::SystemVariables(variables) => variables_text(
            alloc,
            variables.as_slice(),
        ),
        SessionStateChange::Gtids(gtids) => kind_and_bytes(alloc, "Gtids", gtids.as_bytes()),
        SessionStateChange::TransactionCharacteristics(characteristics) => {
            kind_and_bytes(
                alloc,
                "TransactionCharacteristics",
                characteristics.as_bytes(),
            )
        }
        SessionStateChange::TransactionState(state) => {
            kind_and_bytes(alloc, "TransactionState", state.as_bytes())
        }
        SessionStateChange::Unsupported(data) => kind_and_bytes(
            alloc,
            "Unsupported",
            data.as_bytes(),
        ),
    }
}

/// A kind, and its bytes.
fn kind_and_bytes(alloc: Global, kind: &str, bytes: &[u8]) -> Result<String, AllocError>
    ensures value { IfOk result (λ text. string_bytes text ≡ kind.now ++ (codes " " ++ prefixed bytes.now)) }
{
    let digits = hex::encode(alloc, bytes)?;
    format!(in alloc; "{kind} x{digits}")
}

fn variables_text(alloc: Global, variables: &[SystemVariable<'_>]) -> Result<String, AllocError>
    ensures value { IfOk result (λ text. string_bytes text ≡ codes "SystemVariables" ++ flat_map variable_text variables.now) }
{
    let mut text = String::from_str(alloc, "SystemVariables")?;
    for variable in variables {
        append_variable(alloc, &mut text, variable)?;
    }
    Ok(text)
}

fn append_variable(
    alloc: Global,
    out: &mut String,
    variable: &SystemVariable<'_>,
) -> Result<(), AllocError>
    ensures ok { OnOk result (string_bytes out.new ≡ string_bytes out.old ++ variable_text variable.now) }
{
    let name = hex::encode(alloc, variable.name_bytes())?;
    let value = hex::encode(alloc, variable.value_bytes())?;
    write!(out, " x{name}=x{value}")
}
