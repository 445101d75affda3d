//! Errors of frames.

ghost use Rattle.std.specs.Prelude.{◌≡◌};
ghost use Rattle.mysql_frames.specs.declared.error.FrameError.TheVariants.{Memory};

use std::alloc::AllocError;
use thiserror::Error;

/// The error of a frame reader.
///
/// No byte is lost: the bytes held and the rest of the input are, together, those before the call, and the
/// expected number is unchanged. The reader may have taken part of the input.
#[derive(Clone, Copy, Debug, PartialEq, Eq, Error)]
pub enum FrameError {
    /// An allocation failed for a payload that is joined from pieces or frames. Repeat the call with the rest of the input.
    #[error("out of memory for a payload")]
    Memory,
    /// A frame's sequence number is not the expected one.
    #[error("packets are out of order")]
    OutOfOrder,
    /// The payload exceeds the limit, according to its headers.
    #[error("a payload is longer than the limit")]
    TooLong,
}

impl From<AllocError> for FrameError {
    ghost from_gives = { λ _ e. e ≡ Memory };

    fn from(_error: AllocError) -> Self {
        FrameError::Memory
    }
}
