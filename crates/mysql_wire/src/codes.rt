//! Values that are coded in one byte.

mod column_type;
pub mod command_code;
mod mariadb_bulk_indicator;
mod server_command;
mod session_state_type;

pub use column_type::{ColumnType, UnknownColumnType};
pub use mariadb_bulk_indicator::{MariadbBulkIndicator, UnknownMariadbBulkIndicator};
pub use server_command::{ServerCommand, UnknownServerCommand};
pub use session_state_type::{SessionStateType, UnknownSessionStateType};
