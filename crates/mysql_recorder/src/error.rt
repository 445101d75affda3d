//! Errors of a recording.

use crate::line::LineError;
use crate::loss::Loss;
use mysql_conversation::SessionError;
use mysql_frames::FrameError;
use std::alloc::AllocError;
use thiserror::Error;

/// The error that ends a recording.
#[derive(Clone, Copy, Debug, PartialEq, Eq, Error)]
pub enum RecordingError {
    /// An allocation failed.
    #[error("Memory")]
    Memory,
    /// The input has a malformed line.
    #[error("InvalidInput")]
    Line,
    /// A frame has an unexpected sequence number.
    #[error("OutOfOrder")]
    OutOfOrder,
    /// A payload exceeds the limit.
    #[error("TooLong")]
    TooLong,
    /// Bytes are missing before both sides have agreed on capabilities.
    #[error("Missing")]
    Missing,
    /// A packet is unexpected before the login is done; it is the last packet that is shown.
    #[error("refused")]
    Refused(SessionError),
}

impl From<AllocError> for RecordingError {
    ghost use Rattle.std.specs.Prelude.{◌≡◌};
    ghost use Rattle.mysql_recorder.specs.declared.error.RecordingError.TheVariants.{Memory};

    ghost from_gives = { λ _ e. e ≡ Memory };

    fn from(_error: AllocError) -> Self {
        RecordingError::Memory
    }
}

impl From<FrameError> for RecordingError {
    ghost use Rattle.mysql_recorder.specs.Refusals.{IfLine, IfRefused};

    ghost from_gives = { λ _ e. IfRefused e (λ why. ⊥) × IfLine e ⊥ };

    fn from(error: FrameError) -> Self {
        match error {
            FrameError::Memory => RecordingError::Memory,
            FrameError::OutOfOrder => RecordingError::OutOfOrder,
            FrameError::TooLong => RecordingError::TooLong,
        }
    }
}

impl From<Loss> for RecordingError {
    ghost use Rattle.mysql_recorder.specs.Refusals.{IfLine, IfRefused};

    ghost from_gives = { λ _ e. IfRefused e (λ why. ⊥) × IfLine e ⊥ };

    fn from(loss: Loss) -> Self {
        match loss {
            Loss::Missing(_) => RecordingError::Missing,
            Loss::Frame(error) => RecordingError::from(error),
        }
    }
}

impl From<LineError> for RecordingError {
    ghost use Rattle.std.specs.Prelude.{◌≡◌};
    ghost use Rattle.mysql_recorder.specs.declared.error.RecordingError.TheVariants.{Line};

    ghost from_gives = { λ _ e. e ≡ Line };

    fn from(_error: LineError) -> Self {
        RecordingError::Line
    }
}
