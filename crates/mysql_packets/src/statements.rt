//! The prepared statements of an observed connection.

pub use mysql_statements::{
    PipelinedCommand, PipelinedCommands, PipelinedLimits, ResultColumns, RowColumn, Statement,
    StatementLimits, Statements,
};
