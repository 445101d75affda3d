//! The program's commands, one per file.

pub mod bulk;
mod change;
pub mod change_layout;
pub mod column;
pub mod err;
pub mod gtid;
pub mod gtid_set;
pub mod handshake;
pub mod infile;
pub mod ok;
pub mod sid;
pub mod stmt;
