//! The examples of doc comments: each body is in the docs of the items that it shows.
#![tactic(auto)]

pub mod commands;
pub mod connection;
pub mod conversations;
pub mod replication;
pub mod replies;
pub mod statements;
#[cfg(test)]
mod tests;
pub mod values;
