//! Shows packets: the fields of each record, written as lines and as JSON objects.
#![tactic(auto)]

mod call;
mod columns;
mod field;
mod float;
mod json;
mod logins;
mod names;
mod output;
mod replicas;
mod replies;
mod text;

pub use call::arguments;
pub use columns::{column_names, column_numbers};
pub use field::{Field, add_fields};
pub use json::append_object;
pub use logins::{
    change_user_fields, greeting_fields, login_fields, plugin_fields, ssl_request_fields,
    version_fields,
};
pub use names::command_name;
pub use output::write_front;
pub use replicas::{dump_fields, replica_fields};
pub use replies::{
    count_fields, end_fields, error_fields, infile_fields, ok_fields, report_fields,
    statement_fields, terminator_fields,
};
pub use text::append_lines;
