//! What the modules use.

pub(crate) use crate::Server;
pub use mysql_replies::laws::values as laws;
pub use mysql_replies::*;
pub use mysql_session::*;
pub use test_probe::prelude::*;

/// Whether a copy of a record that stays in its packet is the same.
pub fn is_copied<T: Clone + PartialEq + Drop>(place: &T, out: &mut Out) -> bool {
    let copy = counted!(out.alloc(); place.clone());
    or_lost(out, copy).is_some_and(|copy| copy == *place)
}
