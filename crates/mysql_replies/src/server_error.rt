//! An error that a server reports.
#![tactic(auto, using(mysql_wire::proofs::Packets::packets), unfolding(crate::specs::ServerError::server_error))]

ghost use Rattle.std.specs.Prelude.{◌≡◌, [], None, Some, refl, IfOk, IsOk, option_map};
ghost use Rattle.std.specs.Cow.{cow_slice_items};
ghost use Rattle.mysql_wire.specs.Text.{GivesText};
ghost use Rattle.mysql_replies.specs.ServerError as spec;
ghost use Rattle.mysql_replies.specs.SqlState.{state_bytes};

use crate::sql_state::SqlState;
use crate::sql_state_ref::SqlStateRef;
use bstr::BStr;
use mysql_wire::{
    AnyWidth, BytesRef, EofBytes, FaultOf, MyDeserialize, ParseBuf, Parts, RawBytes, Sink, parts,
};
use std::alloc::{AllocError, Global};
use std::borrow::{CowSlice, CowStr};
use std::fmt;
use std::fmt::Debug;

/// A [`ServerError`], whose SQL state is an `S` and whose message is a `B`.
#[derive(Clone, PartialEq, Drop)]
pub struct ServerErrorOf<S, B> {
    code: u16,
    state: Option<S>,
    message: B,
}

/// An error that a server reports: its code, its SQL state if one was sent, and its message.
///
/// The code is a field of the packet around the error: it is passed to the reader, and isn't written.
///
/// ```
/// match packet.to_owned() {
/// ErrPacket::Error(error) => Ok(error.into_owned(alloc)?),
/// ErrPacket::Progress(_) => Err(Error::Unknown("a report in place of an error")),
/// }
/// ```
pub type ServerError<'a> = ServerErrorOf<SqlState, RawBytes<'a, EofBytes>>;

/// An error whose SQL state and message stay in the packet: a [`ServerError`] for as long as the packet lives.
///
/// It is read from the same bytes with the same faults, and in a clause it is that error.
///
/// ```
/// let packet: ErrPacketRef<'_> = ParseBuf::new(alloc, payload).parse(agreed)?;
/// if packet.is_progress_report() {
///     return Ok(None);
/// }
/// Ok(Some(packet.server_error().error_code()))
/// ```
pub type ServerErrorRef<'a> = ServerErrorOf<SqlStateRef<'a>, BytesRef<'a>>;

impl<S, B> ServerErrorOf<S, B> {
    /// The error's number.
    #[inline]
    pub fn error_code(&self) -> u16
        ensures value { result ≡ spec.error_code self.now }
    {
        self.code
    }
}

impl<'a> ServerError<'a> {
    /// Creates an error of this code, state and message.
    #[inline]
    pub fn new(code: u16, state: Option<SqlState>, msg: CowSlice<'a, u8>) -> Self
        ensures value { result ≡ spec.error_of code state (cow_slice_items msg.entry) }
    {
        ServerErrorOf {
            code,
            state,
            message: RawBytes::new(msg),
        }
    }

    /// The SQL state, if one was sent.
    #[inline]
    pub fn sql_state_ref(&self) -> Option<&SqlState>
        ensures value { option_map (λ s. s.now) result ≡ spec.sql_state_of self.now }
    {
        self.state.as_ref()
    }

    /// The bytes of the message.
    #[inline]
    pub fn message_ref(&self) -> &[u8]
        ensures value { result.now ≡ spec.message self.now }
    {
        self.message.as_bytes()
    }

    /// The message as text, with U+FFFD for invalid UTF-8. Valid UTF-8 is borrowed.
    pub fn message_str(&self, alloc: Global) -> Result<CowStr<'_>, AllocError>
        ensures text { GivesText (spec.message self.now) result }
    {
        self.message.as_str(alloc)
    }

    /// Copies the message, so that the error borrows nothing. An empty message needs no allocation.
    pub fn into_owned(self, alloc: Global) -> Result<ServerError<'static>, AllocError>
        ensures value { IfOk result (λ owned. owned ≡ self.entry) }
        ensures no_memory { spec.message self.entry ≡ [] → IsOk result }
    {
        Ok(ServerErrorOf {
            code: self.code,
            state: self.state,
            message: self.message.into_owned(alloc)?,
        })
    }
}

impl<'a> ServerErrorRef<'a> {
    /// The five bytes of the SQL state, if one was sent.
    #[inline]
    pub fn sql_state(&self) -> Option<&'a [u8]>
        ensures value { option_map (λ s. s.now) result ≡ option_map state_bytes (spec.sql_state_of self.now) }
    {
        match &self.state {
            Some(state) => Some(state.as_bytes()),
            None => None,
        }
    }

    /// The bytes of the message.
    #[inline]
    pub fn message(&self) -> &'a [u8]
        ensures value { result.now ≡ spec.message self.now }
    {
        self.message.as_bytes()
    }

    /// Converts to a [`ServerError`], which still borrows the message. It takes no memory.
    pub fn to_owned(&self) -> ServerError<'a>
        ensures value { result ≡ self.now }
    {
        let state = match &self.state {
            Some(state) => Some(state.to_owned()),
            None => None,
        };
        ServerError::new(
            self.code,
            state,
            CowSlice::Borrowed(self.message.as_bytes()),
        )
    }
}

impl<S: Debug, B: Debug> Debug for ServerErrorOf<S, B> {
    fn fmt<W: fmt::Write>(&self, f: &mut fmt::Formatter<W>) -> fmt::Result {
        f.debug_struct("ServerError")
            .field("code", &self.code)
            .field("state", &self.state)
            .field("message", &self.message)
            .finish()
    }
}

/// Read like a [`ServerError`].
impl<'de> MyDeserialize<'de> for ServerErrorRef<'de> {
    const SIZE: Option<usize> = None;

    type Size = AnyWidth;

    /// The code, and whether an SQL state precedes the message.
    type Ctx = (u16, bool);

    ghost form = { spec.server_error.form };

    #[inline]
    fn deserialize<'s>(ctx: (u16, bool), buf: &mut ParseBuf<'de>) -> Result<Self, FaultOf<'s>> {
        let (code, is_sent) = ctx;
        let state = if is_sent { Some(buf.parse(())?) } else { None };
        Ok(ServerErrorOf {
            code,
            state,
            message: buf.parse(())?,
        })
    }

    ghost size_is = { λ _. unfold spec.server_error in refl };
}

impl<'de> MyDeserialize<'de> for ServerError<'de> {
    const SIZE: Option<usize> = None;

    type Size = AnyWidth;

    /// The code, and whether an SQL state precedes the message.
    type Ctx = (u16, bool);

    ghost form = { spec.server_error.form };

    fn deserialize<'s>(ctx: (u16, bool), buf: &mut ParseBuf<'de>) -> Result<Self, FaultOf<'s>> {
        let error: ServerErrorRef<'de> = buf.parse(ctx)?;
        Ok(error.to_owned())
    }

    ghost size_is = { λ _. unfold spec.server_error in refl };
}

impl Parts for ServerError<'_> {
    ghost bytes = { spec.server_error.bytes };

    #[inline(always)]
    fn put<S: Sink>(&self, sink: &mut S) {
        sink.part(&parts!(self.state, self.message));
    }
}

impl fmt::Display for ServerError<'_> {
    ghost output = { λ e. Some (spec.error_text e) };

    fn fmt<W: fmt::Write>(&self, f: &mut fmt::Formatter<W>) -> fmt::Result {
        let code = self.code;
        let message = BStr::new(self.message.as_bytes());
        match self.state {
            Some(state) => {
                let bytes = state.as_bytes();
                let state = BStr::new(&bytes);
                write!(f, "ERROR {code} ({state}): {message}")
            }
            None => write!(f, "ERROR {code}: {message}"),
        }
    }
}
