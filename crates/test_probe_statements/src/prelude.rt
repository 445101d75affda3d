//! What the answers share.

pub(crate) use crate::Statements;
pub use crate::values::{
    AsValue, FromWord, Spelled, SpelledRow, bytes, list, or_memory, refs, rows, same_or_other,
};
pub use mysql_bulk::*;
pub use mysql_commands::*;
pub use mysql_cuts::{BulkRule, cut_is_fewest};
pub use mysql_replies::{Column, ColumnRef};
pub use mysql_stmt::*;
pub use mysql_values::*;
pub use mysql_wire::{CapabilityFlags, ColumnFlags, ColumnType, ConstValue, FaultOf};
pub use std::rc::RcSlice;
pub use test_probe::Ends;
pub use test_probe::prelude::*;
