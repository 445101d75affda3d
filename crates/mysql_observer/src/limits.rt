//! The limits of an observer.

use mysql_statements::{PipelinedLimits, StatementLimits};

/// The limits of an [`Observer`](crate::Observer)'s memory.
#[derive(Clone, Copy, Debug, PartialEq, Eq)]
pub struct ObserverLimits {
    /// The maximum number of waiting commands.
    pub waiting: usize,
    /// The limits for prepared statements.
    pub statements: StatementLimits,
    /// The limits for the pipelined commands that are kept until the server reaches them. Between two packets
    /// of the server there may be twice as many of these as there are waiting commands.
    pub early: PipelinedLimits,
    /// The maximum number of columns of a result whose types are kept.
    pub columns: usize,
}
