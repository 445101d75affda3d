//! Bulk execution of a prepared statement (`COM_STMT_BULK_EXECUTE`): requests, and a builder that cuts rows into the
//! fewest of them.
#![tactic(auto)]

mod builder;
mod bulk_value;
mod cells;
mod column_types;
mod declared_types;
mod error;
mod head;
pub mod laws;
mod param_value;
mod param_values;
mod params_run;
mod read_rows;
mod request;
mod request_writer;
mod row;
mod row_value;
mod run;
mod sent_values;
mod size;
mod whole_run;

pub use builder::ComStmtBulkExecuteRequestBuilder;
pub use bulk_value::BulkValue;
pub use column_types::{can_encode, is_declarable};
pub use error::{
    BulkColumnTypeError, BulkExecuteRequestBuilderError, BulkExecuteRequestError, BulkRowError,
};
pub use mysql_values::ParamType as StmtBulkExecuteParamType;
pub use mysql_wire::{ComStmtBulkExecuteHeader, InvalidComStmtBulkExecuteHeader};
pub use param_value::StmtBulkExecuteParamValue;
pub use param_values::StmtBulkExecuteParamValues;
pub use params_run::BulkParamsRequests;
pub use read_rows::read_bulk_rows;
pub use request::ComStmtBulkExecuteRequest;
pub use request_writer::{BulkRequestWriter, BulkValuesRun};
pub use row::bulk_row_size;
pub use run::BulkRequests;
pub use whole_run::BulkRun;
