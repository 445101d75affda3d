//! The layout of an execution.

use mysql_wire::CapabilityFlags;

/// The layout of an execution, as far as its types are concerned.
#[derive(Clone, Copy, Debug, PartialEq, Eq)]
pub(crate) enum Layout {
    /// `COM_STMT_EXECUTE`, under these capabilities of both sides.
    Single(CapabilityFlags),
    /// `COM_STMT_BULK_EXECUTE`.
    Bulk,
}
