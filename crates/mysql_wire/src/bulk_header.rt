//! The first byte of a bulk request.

use crate::codes::command_code::COM_STMT_BULK_EXECUTE;
use crate::constant::{ConstFault, ConstU8};
use thiserror::Error;

/// The header of a bulk request is not `fa`.
#[derive(Clone, Copy, Debug, Default, PartialEq, Eq, Hash, Error)]
#[error("Invalid header for COM_STMT_BULK_EXECUTE")]
pub struct InvalidComStmtBulkExecuteHeader;

impl ConstFault for InvalidComStmtBulkExecuteHeader {
    const MESSAGE: &'static str = "Invalid header for COM_STMT_BULK_EXECUTE";
}

/// The first byte of a bulk request.
pub type ComStmtBulkExecuteHeader = ConstU8<InvalidComStmtBulkExecuteHeader, COM_STMT_BULK_EXECUTE>;
