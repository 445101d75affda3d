//! One error for callers that follow a connection.

ghost use Rattle.std.specs.Prelude.{◌≡◌, ◌≢◌};

use mysql_conversation::SessionError;
use mysql_frames::FrameError;
use mysql_wire::{Fault, FaultOf};
use std::alloc::{AllocError, AllocFailed};
use thiserror::Error;

/// The error of a call that finds, classifies, reads or writes packets.
///
/// `?` converts each of those errors. `Memory` covers every failed allocation: the reader, session or buffer is
/// unchanged, so the call can be repeated.
///
/// # Examples
///
/// ```
/// fn first_value(out: &mut Out, alloc: Global, payload: &[u8]) -> Result<(), Error> {
///     let mut row = TextRowView::new(2, ParseBuf::new(alloc, payload));
///     let first = row.next_value()?; // NULL, or bytes where they lie in the packet: no memory is taken
///     out.show("first_is_null", first == Some(ValueRef::NULL));
///     Ok(())
/// }
/// ```
#[derive(Clone, Copy, Debug, PartialEq, Eq, Error)]
pub enum Error {
    /// An allocation failed.
    #[error("out of memory")]
    Memory,
    /// The stream is not a sequence of frames, or a payload is longer than the limit.
    #[error("{0}")]
    Frame(FrameError),
    /// A packet is malformed.
    #[error("malformed packet: {0}")]
    Packet(Fault),
    /// A packet may not come next, or its bytes are encrypted or compressed.
    #[error("{0}")]
    Session(SessionError),
}

impl From<AllocError> for Error {
    ghost use Rattle.mysql_packets.specs.declared.error.Error.TheVariants as error;

    ghost from_gives = { λ _ e. e ≡ error.Memory };

    fn from(_: AllocError) -> Self {
        Error::Memory
    }
}

impl<T: Drop> From<AllocFailed<T>> for Error {
    ghost use Rattle.mysql_packets.specs.declared.error.Error.TheVariants as error;

    ghost from_gives = { λ _ e. e ≡ error.Memory };

    fn from(_: AllocFailed<T>) -> Self {
        Error::Memory
    }
}

impl From<Fault> for Error {
    ghost use Rattle.mysql_wire.specs.declared.fault.FaultOf.TheVariants as fault;
    ghost use Rattle.mysql_packets.specs.declared.error.Error.TheVariants as error;

    ghost from_gives = { λ f e. (f ≡ fault.Memory → e ≡ error.Memory) × (f ≢ fault.Memory → e ≡ error.Packet f) };

    fn from(fault: Fault) -> Self {
        match fault {
            FaultOf::Memory => Error::Memory,
            _ => Error::Packet(fault),
        }
    }
}

impl From<FrameError> for Error {
    ghost use Rattle.mysql_frames.specs.declared.error.FrameError.TheVariants as frame;
    ghost use Rattle.mysql_packets.specs.declared.error.Error.TheVariants as error;

    ghost from_gives = { λ f e. (f ≡ frame.Memory → e ≡ error.Memory) × (f ≢ frame.Memory → e ≡ error.Frame f) };

    fn from(found: FrameError) -> Self {
        match found {
            FrameError::Memory => Error::Memory,
            _ => Error::Frame(found),
        }
    }
}

impl From<SessionError> for Error {
    ghost use Rattle.mysql_conversation.specs.declared.pipeline.SessionError.TheVariants as session;
    ghost use Rattle.mysql_packets.specs.declared.error.Error.TheVariants as error;

    ghost from_gives = { λ f e. (f ≡ session.Memory → e ≡ error.Memory) × (f ≢ session.Memory → e ≡ error.Session f) };

    fn from(found: SessionError) -> Self {
        match found {
            SessionError::Memory => Error::Memory,
            _ => Error::Session(found),
        }
    }
}
