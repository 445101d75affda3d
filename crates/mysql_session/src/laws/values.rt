//! Laws on a given value: facts about a change that a caller has created or read.
//!
//! Each function reads the lengths of its value, which shows that they fit in eight bytes. It returns nothing
//! and has no effect: inlined, it costs no instruction.
#![tactic(auto, using(crate::proofs::PlainFits::plain))]

ghost use Rattle.std.specs.Prelude.{◌++◌, [], ℕ, List};
ghost use Rattle.std.specs.List.{All};
ghost use Rattle.mysql_wire.specs.declared.codes.session_state_type.SessionStateType.{SessionStateType};
ghost use Rattle.mysql_session.specs.SessionStateChange.{session_state_change, session_state_change_bytes, ChangeIsShort, IsOfKind};
ghost use Rattle.mysql_session.specs.SessionText.{lenenc_text, gtids};
ghost use Rattle.mysql_session.specs.SystemVariable.{system_variable, SystemVariableFits};
ghost use Rattle.mysql_session.specs.SystemVariables.{system_variables};

use crate::session_state_change::SessionStateChange;
use crate::session_text::{Gtids, SessionText};
use crate::system_variable::SystemVariable;
use crate::system_variables::SystemVariables;
use mysql_wire::LenEnc;

/// This part of a change is read back, whatever bytes follow.
#[inline]
pub fn this_session_text_round_trips<N>(text: &SessionText<'_, N, LenEnc>)
    ensures spelled { (rest : List ℕ) → (lenenc_text.form tt).Spells text.now (lenenc_text.bytes text.now ++ rest) rest }
{
    let _bytes = text.as_bytes().len();
}

/// These GTIDs are read back if nothing follows.
#[inline]
pub fn these_gtids_round_trips(set: &Gtids<'_>)
    ensures spelled { (gtids.form tt).Spells set.now (gtids.bytes set.now) [] }
{}

/// This system variable is read back, whatever bytes follow.
#[inline]
pub fn this_system_variable_round_trips(variable: &SystemVariable<'_>)
    ensures fits { SystemVariableFits variable.now }
    ensures spelled { (rest : List ℕ) → (system_variable.form tt).Spells variable.now (system_variable.bytes variable.now ++ rest) rest }
{
    let _name = variable.name_bytes().len();
    let _value = variable.value_bytes().len();
}

/// These system variables are read back if nothing follows.
#[inline]
pub fn these_system_variables_round_trips(variables: &SystemVariables<'_>)
    ensures fits { All SystemVariableFits variables.now }
    ensures spelled { (system_variables.form tt).Spells variables.now (system_variables.bytes variables.now) [] }
{
    are_short(variables.as_slice());
}

/// The lengths of system variables fit in eight bytes.
#[inline]
fn are_short(variables: &[SystemVariable<'_>])
    ensures value { All SystemVariableFits variables.now }
{
    for variable in variables {
        this_system_variable_round_trips(variable);
    }
}

/// This change is read back if nothing follows and the reader is passed its type.
#[inline]
pub fn this_session_state_change_round_trips(change: &SessionStateChange<'_>)
    ensures fits { ChangeIsShort change.now }
    ensures spelled { (kind : SessionStateType) → IsOfKind kind change.now → (session_state_change kind).Spells change.now (session_state_change_bytes change.now) [] }
{
    match change {
        SessionStateChange::IsTracked(_) | SessionStateChange::Gtids(_) => {}
        SessionStateChange::SystemVariables(variables) => these_system_variables_round_trips(
            variables,
        ),
        SessionStateChange::Schema(schema) => {
            let _bytes = schema.as_bytes().len();
        }
        SessionStateChange::TransactionCharacteristics(characteristics) => {
            let _bytes = characteristics.as_bytes().len();
        }
        SessionStateChange::TransactionState(state) => {
            let _bytes = state.as_bytes().len();
        }
        SessionStateChange::Unsupported(change) => {
            let _bytes = change.as_bytes().len();
        }
    }
}
