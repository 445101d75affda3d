//! The task of the current exchange.

/// The effect of the current exchange on statements.
#[derive(Clone, Copy, Debug, PartialEq, Eq)]
pub(crate) enum Task {
    /// None.
    Other,
    /// It prepares a statement.
    Prepare,
    /// The definitions of the statement of this number follow: first of its parameters, then of its columns.
    Definitions(u32, usize, u64),
    /// It executes the statement of this number, and this number of column definitions is to be kept.
    Execution(u32, u64),
}
