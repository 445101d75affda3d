//! The parameters of a statement.

pub use mysql_values::{Params, ParamsError};
