//! Requests as lines, and their answers: what the programs that answer rows share.
//!
//! A request is words parted by spaces: what is read or called, its context (flags, columns, a kind), and its bytes as
//! hexadecimal digits, or texts and values. An answer is what came of it, in words: the fields of a record, what is left,
//! what is written, and how that is read again; or the fault, its text, and that the buffer is as it was.
#![tactic(auto)]

mod answering;
pub mod marker;
pub mod marks;
pub mod out;
pub mod places;
pub mod prelude;
pub mod record;
pub mod request;
pub mod shown;

pub use answering::{Answers, Ends, run, text_of};
