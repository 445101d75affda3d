//! Changes of a session's state, which servers report in OK packets.
#![tactic(auto)]

pub mod laws;
mod session_state_change;
mod session_state_change_ref;
mod session_text;
mod system_variable;
mod system_variable_ref;
mod system_variables;
mod system_variables_ref;

pub use session_state_change::SessionStateChange;
pub use session_state_change_ref::{ChangeRef, SessionStateChangeRef};
pub use session_text::{
    Gtids, GtidsText, Schema, SchemaName, SessionText, TransactionCharacteristics,
    TransactionCharacteristicsText, TransactionState, TransactionStateText, Unsupported,
    UnsupportedText,
};
pub use system_variable::SystemVariable;
pub use system_variable_ref::SystemVariableRef;
pub use system_variables::SystemVariables;
pub use system_variables_ref::SystemVariablesRef;
