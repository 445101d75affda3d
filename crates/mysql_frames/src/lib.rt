//! Frames: how payloads are transmitted in the byte stream between a client and a server.
//!
//! A payload is sent in frames of at most 16,777,215 bytes. Each has a header of four bytes: the length in three, little-endian, and the
//! sequence number. A payload of 16,777,215 bytes or more continues in the next frame, and ends with a shorter one, which may be empty.
//! The protocol's pages call both a frame and its payload a packet.
//!
//! [`FrameReader`] takes a stream in pieces of any size and returns its payloads; [`write_packet`] and [`write_frames`] append frames to a
//! buffer. None of them does I/O. Sequence numbers restart at 0 with each command of a client and continue from side to side within its
//! exchange, so the caller sets the expected number with [`FrameReader::expect`].
#![tactic(auto)]

mod error;
mod frame;
mod header;
pub mod laws;
mod reader;
mod unfinished;
mod writer;

pub use error::FrameError;
pub use frame::{Frame, next_frame};
pub use header::{MAX_FRAME_LEN, sequence_id_at};
pub use reader::FrameReader;
pub use writer::{write_frames, write_packet};
