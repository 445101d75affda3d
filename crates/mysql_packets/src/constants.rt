//! Flag words and codes.

pub use mysql_auth::supported_capabilities;
pub use mysql_wire::{
    BinlogDumpFlags, CapabilityFlags, ColumnFlags, ColumnType, CursorType, FlagNames, FlagWord,
    Flags, MariadbBulkIndicator, MariadbCapabilities, ServerCommand, SessionStateType, StatusFlags,
    StmtBulkExecuteFlags, StmtExecuteParamFlags, StmtExecuteParamsFlags, UnknownColumnType,
    UnknownMariadbBulkIndicator, UnknownServerCommand, UnknownSessionStateType, command_code,
};
