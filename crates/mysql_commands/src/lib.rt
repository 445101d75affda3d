//! Commands: the payloads that a client sends after its login, by their first byte.
#![tactic(auto)]

mod bulk_execute;
mod command;
mod command_reader;
mod command_writer;
mod field_list;
pub mod laws;
mod partial_query;
mod query;
mod query_attributes;
mod set_option;
mod stmt_execute;
mod unknown;
mod with_raw_bytes;

pub use bulk_execute::ComStmtBulkExecuteRef;
pub use command::Command;
pub use field_list::{ComFieldListHeader, ComFieldListRef, InvalidComFieldListHeader};
pub use mysql_wire::BytesRef;
pub use partial_query::read_query_attributes;
pub use query::{ComQueryHeader, ComQueryRef, InvalidComQueryHeader};
pub use query_attributes::{InvalidParameterSetCount, QueryAttributesRef};
pub use set_option::{ComSetOption, ComSetOptionHeader, InvalidComSetOptionHeader, ServerOption};
pub use stmt_execute::ComStmtExecuteRef;
pub use unknown::UnknownCommand;
pub use with_raw_bytes::WithRawBytes;
