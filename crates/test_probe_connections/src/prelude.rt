//! What the modules use.

pub(crate) use crate::{Connections, words};
pub use indexmap::IndexMap;
pub use mysql_auth::*;
pub use mysql_repl::*;
pub use mysql_wire::*;
pub use test_probe::prelude::*;
