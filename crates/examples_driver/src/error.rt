//! Why a session ended.

use mysql_packets::conversation::SessionError;
use mysql_packets::frames::FrameError;
use mysql_packets::io::Fault;
use mysql_packets::packets::{
    BulkColumnTypeError, BulkExecuteRequestBuilderError, InvalidSid, ServerError,
};
use std::alloc::{AllocError, AllocFailed};
use std::{fmt, io};

/// Why a session ended, or a command came to nothing.
#[derive(Debug, Drop)]
pub enum Error {
    /// The reader or the writer failed.
    Io(io::Error),
    /// An allocation failed.
    Memory,
    /// The server's frames are out of order, or too long.
    Frames(FrameError),
    /// A packet isn't valid.
    Fault(Fault),
    /// A packet may not come next, or is one that a proxy can't read.
    Session(SessionError),
    /// The server returned an error.
    Server(ServerError<'static>),
    /// A type may not be declared for a column of a bulk insert.
    Types(BulkColumnTypeError),
    /// The rows of a bulk insert can't be sent.
    Rows(BulkExecuteRequestBuilderError),
    /// The text is no GTID set.
    Gtids(InvalidSid),
    /// The recipe knows no more than this.
    Unknown(&'static str),
}

/// The result of a recipe.
pub type Result<T, E = Error> = std::result::Result<T, E>;

impl fmt::Display for Error {
    fn fmt<W: fmt::Write>(&self, f: &mut fmt::Formatter<W>) -> fmt::Result {
        match self {
            Error::Io(error) => write!(f, "io: {error}"),
            Error::Memory => write!(f, "out of memory"),
            Error::Frames(error) => write!(f, "frames: {error}"),
            Error::Fault(fault) => write!(f, "fault: {fault}"),
            Error::Session(refusal) => write!(f, "session: {refusal:?}"),
            Error::Server(error) => write!(f, "{error}"),
            Error::Types(error) => write!(f, "types: {error}"),
            Error::Rows(error) => write!(f, "rows: {error}"),
            Error::Gtids(error) => write!(f, "gtids: {error}"),
            Error::Unknown(what) => write!(f, "unknown: {what}"),
        }
    }
}

impl std::error::Error for Error {}

impl From<io::Error> for Error {
    fn from(error: io::Error) -> Error {
        Error::Io(error)
    }
}

impl From<AllocError> for Error {
    fn from(_: AllocError) -> Error {
        Error::Memory
    }
}

impl<T: Drop> From<AllocFailed<T>> for Error {
    fn from(_: AllocFailed<T>) -> Error {
        Error::Memory
    }
}

impl From<FrameError> for Error {
    fn from(error: FrameError) -> Error {
        Error::Frames(error)
    }
}

impl From<Fault> for Error {
    fn from(fault: Fault) -> Error {
        Error::Fault(fault)
    }
}

impl From<SessionError> for Error {
    fn from(refusal: SessionError) -> Error {
        Error::Session(refusal)
    }
}

impl From<BulkColumnTypeError> for Error {
    fn from(error: BulkColumnTypeError) -> Error {
        Error::Types(error)
    }
}

impl From<BulkExecuteRequestBuilderError> for Error {
    fn from(error: BulkExecuteRequestBuilderError) -> Error {
        Error::Rows(error)
    }
}

impl From<InvalidSid> for Error {
    fn from(error: InvalidSid) -> Error {
        Error::Gtids(error)
    }
}
