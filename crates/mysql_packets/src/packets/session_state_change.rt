//! Changes of a session's state.

pub use mysql_session::{
    ChangeRef, Gtids, Schema, SessionStateChange, SessionStateChangeRef, SystemVariable,
    SystemVariableRef, SystemVariables, SystemVariablesRef, TransactionCharacteristics,
    TransactionState, Unsupported,
};
