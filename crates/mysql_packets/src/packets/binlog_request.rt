//! The request for a binary log, by file or by GTID set.

pub use mysql_repl::BinlogRequest;
