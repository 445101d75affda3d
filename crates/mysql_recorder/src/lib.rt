//! Recordings: the bytes that both sides of a connection sent, shown packet by packet.
#![tactic(auto)]

mod change_fields;
mod client_fields;
mod command_fields;
mod entry;
mod error;
mod execution_fields;
mod fields;
pub mod laws;
mod line;
mod loss;
mod mark;
mod packets;
mod partial_column;
mod partial_query;
mod piece;
mod program;
mod recording;
mod server_fields;
mod sides;
mod stream;
mod sum_lines;
mod sums;
mod unheard;
mod values;

pub use entry::Layout;
pub use error::RecordingError;
pub use program::{refuse_call, refuse_memory, run};
pub use recording::Recording;
