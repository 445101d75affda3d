//! The buffer that packets are read from.

pub use mysql_wire::{Fault, FaultKind, FaultOf, ParseBuf};
