//! Limits for statements and pipelined commands.

/// The limits for prepared statements.
///
/// ```
/// let limits = StatementLimits {
/// statements: 100,
/// types: 10_000, // of parameters and columns, of all statements
/// };
/// let pipelined = PipelinedLimits {
/// commands: 16,
/// bytes: 1 << 16, // of one command
/// };
/// (
/// Statements::new(alloc, limits),
/// PipelinedCommands::new(alloc, pipelined),
/// )
/// ```
#[derive(Clone, Copy, Debug, PartialEq, Eq)]
pub struct StatementLimits {
    /// The maximum number of statements.
    pub statements: usize,
    /// The maximum total number of types of their parameters and columns.
    pub types: usize,
}

/// The limits for pipelined commands.
///
/// ```
/// let limits = StatementLimits {
///     statements: 100,
///     types: 10_000, // of parameters and columns, of all statements
/// };
/// let pipelined = PipelinedLimits {
///     commands: 16,
///     bytes: 1 << 16, // of one command
/// };
/// (
///     Statements::new(alloc, limits),
///     PipelinedCommands::new(alloc, pipelined),
/// )
/// ```
#[derive(Clone, Copy, Debug, PartialEq, Eq)]
pub struct PipelinedLimits {
    /// The maximum number of commands.
    pub commands: usize,
    /// The maximum length of a command in bytes.
    pub bytes: usize,
}
