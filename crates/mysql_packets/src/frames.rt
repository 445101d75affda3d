//! Frames: payloads out of a stream of bytes, and packets into it.

pub use mysql_frames::{
    Frame, FrameError, FrameReader, MAX_FRAME_LEN, next_frame, sequence_id_at, write_frames,
    write_packet,
};
