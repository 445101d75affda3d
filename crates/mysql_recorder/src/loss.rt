//! Losses in a recording, and where its streams are resynchronized.

ghost use Rattle.std.specs.Prelude.{◌≡◌};
ghost use Rattle.mysql_recorder.specs.Steps as spec;

use mysql_frames::FrameError;
use mysql_show::Field;
use mysql_wire::{ConstValue, ServerCommand};

/// The kind of a loss.
#[derive(Clone, Copy, Debug, PartialEq, Eq)]
pub(crate) enum Loss {
    /// The capture lacks a given number of bytes.
    Missing(u64),
    /// The bytes are not the expected frames.
    Frame(FrameError),
}

impl Loss {
    /// Whether bytes are missing in the capture.
    pub(crate) fn is_missing(self) -> bool {
        matches!(self, Loss::Missing(_))
    }

    /// The notice of a loss, as a field.
    pub(crate) fn field(self) -> Field<'static> {
        match self {
            Loss::Missing(count) => Field::number("missing", count),
            Loss::Frame(FrameError::Memory) => Field::word("refused", "Memory"),
            Loss::Frame(FrameError::OutOfOrder) => Field::word("refused", "OutOfOrder"),
            Loss::Frame(FrameError::TooLong) => Field::word("refused", "TooLong"),
        }
    }
}

/// The number of bytes that determine whether a line begins with a command.
pub(crate) const HEAD: usize = 5;

/// Whether a line of the client begins with a command: a frame with the number 0, whose first byte is a command's.
pub(crate) fn begins_command(line: &[u8]) -> bool
    ensures { result ≡ spec.begins_command line.now }
{
    match line {
        [low, middle, high, 0, code, ..] => {
            (*low, *middle, *high) != (0, 0, 0) && ServerCommand::from_code(*code).is_some()
        }
        _ => false,
    }
}

/// Whether a line of the server begins with a frame of this number.
pub(crate) fn begins_with(number: u8, line: &[u8]) -> bool
    ensures { result ≡ spec.begins_with number line.now }
{
    match line {
        [_, _, _, first, ..] => *first == number,
        _ => false,
    }
}
