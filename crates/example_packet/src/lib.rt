//! The example packet of docs/CONTRIBUTING.md.
#![tactic(auto)]

pub mod laws;
mod stmt_reset;
#[cfg(test)]
mod tests;

pub use stmt_reset::{ComStmtReset, InvalidComStmtResetHeader};
