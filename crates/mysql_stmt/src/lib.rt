//! Prepared statements: the answer to a preparation, executions, long data, fetches, resets and closes,
//! NULL bitmaps, and the rows of results.
#![tactic(auto)]

mod attributes_view;
mod binary_row;
mod binary_row_view;
mod bind_front;
mod close;
mod column_index;
mod com_query;
mod execute;
mod execute_bytes;
mod execute_head;
mod execute_param;
mod execute_params;
mod execute_view;
mod execute_with_options;
mod execution;
mod items;
pub mod laws;
mod long_data;
mod long_data_ref;
mod null_bitmap;
mod null_marks;
mod payload;
mod row;
mod row_deserializer;
mod row_protocol;
mod row_values;
mod row_view;
mod sent_nulls;
mod sent_params;
mod sent_types;
mod stmt;
mod stmt_fetch;
mod stmt_reset;
mod stmt_with_metadata;
mod stored_form;
mod stored_row;
mod text_row;
mod text_row_view;
mod typed_column;
mod typed_param;

pub use attributes_view::QueryAttributesView;
pub use binary_row::{BinaryRowError, write_binary_row, write_binary_row_to_slice};
pub use binary_row_view::BinaryRowView;
pub use close::{ComStmtClose, ComStmtCloseHeader, InvalidComStmtCloseHeader};
pub use column_index::ColumnIndex;
pub use com_query::ComQuery;
pub use execute::{
    ComStmtExecuteHeader, ComStmtExecuteRequest, ComStmtExecuteRequestBuilder,
    InvalidComStmtExecuteHeader, InvalidIterationCount, IterationCount,
};
pub use execute_bytes::ExecuteParamsBytes;
pub use execute_head::ComStmtExecuteHead;
pub use execute_param::{AsExecuteParam, ExecuteParam, QueryAttribute};
pub use execute_view::{BoundParam, ExecuteParamsView};
pub use execute_with_options::{ComStmtExecuteOptionsBuilder, Cursor};
pub use execution::ComStmtExecuteWithOptions;
pub use items::{ItemForm, Items};
pub use long_data::{
    ComStmtSendLongData, ComStmtSendLongDataHeader, InvalidComStmtSendLongDataHeader,
};
pub use long_data_ref::ComStmtSendLongDataRef;
pub use null_bitmap::NullBitmap;
pub use row::{Row, new_row, new_row_raw};
pub use row_deserializer::RowDeserializer;
pub use row_protocol::RowProtocol;
pub use row_view::RowView;
pub use sent_nulls::SentNulls;
pub use sent_types::SentParamTypes;
pub use stmt::{InvalidStmtPacketStatus, StmtPacket};
pub use stmt_fetch::{ComStmtFetch, ComStmtFetchHeader, InvalidComStmtFetchHeader};
pub use stmt_reset::{ComStmtReset, ComStmtResetHeader, InvalidComStmtResetHeader};
pub use stmt_with_metadata::StmtPacketWithMetadata;
pub use stored_form::StoredForm;
pub use stored_row::StoredRow;
pub use text_row::write_text_row;
pub use text_row_view::TextRowView;
pub use typed_column::TypedColumn;
pub use typed_param::{TypedExecuteParam, TypedExecutionError};
