//! The packets of the MySQL and MariaDB protocol, re-exported from one crate.
//!
//! A crate that reads or writes packets depends only on this one; the modules have the original's names.
#![tactic(auto)]

pub mod constants;
pub mod conversation;
pub mod error;
pub mod frames;
pub mod io;
pub mod laws;
pub mod misc;
pub mod observer;
pub mod packets;
pub mod params;
pub mod proto;
pub mod row;
pub mod statements;
pub mod value;

pub use mysql_program::{refuse_memory, run};
