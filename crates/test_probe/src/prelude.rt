//! What the modules of programs share.

pub use crate::out::{Out, or_empty, or_lost, push};
pub use crate::places::InPlace;
pub use crate::record::{
    Shows, after, again, begun, is_cloned, made_anew, parse, parsed, read, record, round_trip,
    show_written, taken, write, write_and_read, write_made,
};
pub use crate::request::Request;
pub use crate::shown::{Shown, Variant};
pub use crate::{anew, answers, counted, error_texts, fields, sizes};
pub use mysql_wire::{Fault, Flags, MyDeserialize, MySerialize, ParseBuf};
pub use std::alloc::{AllocError, Global};
pub use std::borrow::CowSlice;

/// What is made, or that memory ran out.
pub type Result<T = (), E = AllocError> = std::result::Result<T, E>;
