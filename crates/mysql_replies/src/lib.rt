//! A server's answers: OK, errors, progress reports, requests for a local file, and the columns of a result.
#![tactic(auto)]

mod column;
mod column_attribute;
mod column_attribute_ref;
mod column_attributes;
mod column_count;
mod column_fields;
mod column_names;
mod column_ref;
mod err_packet;
mod extended_column;
mod extended_column_ref;
mod faults;
mod field_list_column;
mod greeting_error;
pub mod laws;
mod local_infile;
mod local_infile_ref;
mod ok_body;
mod ok_kind;
mod ok_packet;
mod ok_packet_ref;
mod ok_packet_serializer;
mod progress_report;
mod sent_change;
mod sent_gtids;
mod server_error;
mod session_capabilities;
mod session_state_changes;
mod session_state_changes_ref;
mod session_state_info;
mod session_state_info_ref;
mod sql_state;
mod sql_state_ref;

pub use column::{Catalog, Column, ColumnDefinitionCatalog};
pub use column_attribute::{ColumnAttribute, ColumnAttributeKind};
pub use column_attribute_ref::ColumnAttributeRef;
pub use column_attributes::ColumnAttributes;
pub use column_count::ColumnCount;
pub use column_fields::FixedLengthFieldsLen;
pub use column_names::ColumnNamesRef;
pub use column_ref::ColumnRef;
pub use err_packet::{ErrPacket, ErrPacketHeader, ErrPacketRef};
pub use extended_column::ExtendedColumn;
pub use extended_column_ref::ExtendedColumnRef;
pub use faults::{
    InvalidCatalog, InvalidErrPacketHeader, InvalidFixedLengthFieldsLen, InvalidGtidsEncoding,
    InvalidLocalInfileHeader, InvalidOkPacketHeader, InvalidSqlStateMarker,
};
pub use field_list_column::FieldListColumn;
pub use greeting_error::{GreetingError, GreetingErrorRef};
pub use local_infile::{LocalInfileHeader, LocalInfilePacket};
pub use local_infile_ref::LocalInfilePacketRef;
pub use ok_body::OkPacketBodyRef;
pub use ok_kind::{
    CommonOkPacket, NetworkStreamTerminator, OkPacketBody, OkPacketKind, OkPacketRefKind,
    OldEofPacket, ResultSetTerminator,
};
pub use ok_packet::{OkPacket, OkPacketDeserializer};
pub use ok_packet_ref::{OkPacketRef, OkPacketRefDeserializer};
pub use ok_packet_serializer::{OkPacketLayout, OkPacketSerializer};
pub use progress_report::{ProgressReport, ProgressReportRef};
pub use sent_gtids::GtidsEncoding;
pub use server_error::{ServerError, ServerErrorRef};
pub use session_capabilities::SessionCapabilities;
pub use session_state_changes::SessionStateChanges;
pub use session_state_changes_ref::SessionStateChangesRef;
pub use session_state_info::SessionStateInfo;
pub use session_state_info_ref::SessionStateInfoRef;
pub use sql_state::{SqlState, SqlStateMarker};
pub use sql_state_ref::SqlStateRef;
