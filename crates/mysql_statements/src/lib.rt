//! The table of the prepared statements of an observed connection.
#![tactic(auto)]

mod binding;
pub mod laws;
mod layout;
mod limits;
mod packets;
mod pipelined_command;
mod pipelined_commands;
mod places;
mod result_columns;
mod row_column;
mod statement;
mod table;
mod take;
mod task;

pub use limits::{PipelinedLimits, StatementLimits};
pub use pipelined_command::PipelinedCommand;
pub use pipelined_commands::PipelinedCommands;
pub use result_columns::ResultColumns;
pub use row_column::RowColumn;
pub use statement::Statement;
pub use table::Statements;
