//! An error instead of the greeting.
#![tactic(auto, using(mysql_wire::proofs::Packets::packets), unfolding(crate::specs::GreetingError::greeting_error))]

ghost use Rattle.std.specs.Prelude.{◌≡◌, [], None, Some, refl, IfOk, IsOk};
ghost use Rattle.mysql_replies.specs.GreetingError as spec;
ghost use Rattle.mysql_replies.specs.ServerError.{error_text, message};

use crate::err_packet::ErrPacketHeader;
use crate::server_error::{ServerError, ServerErrorRef};
use mysql_wire::{AnyWidth, FaultOf, LeU16, MyDeserialize, ParseBuf, Parts, RawInt, Sink, parts};
use std::alloc::{AllocError, Global};
use std::fmt;
use std::fmt::Debug;

/// A [`GreetingError`], whose error is an `E`.
#[derive(Clone, PartialEq, Drop)]
pub struct GreetingErrorOf<E> {
    error: E,
}

/// An error that a server sends instead of the greeting, such as 'Too many connections'
/// (`Protocol::ERR_Packet`): no flags are agreed yet, and MySQL sends an SQL state (`net_send_error` in
/// `sql/protocol_classic.cc`), MariaDB none.
///
/// | Bytes | Field |
/// |---|---|
/// | 1 | the byte `ff` |
/// | 2 | the code, little-endian |
/// | 6 | the SQL state, if there is a `#` and at least five more bytes follow |
/// | the rest | the message |
///
/// Fewer than three bytes are `UnexpectedEof`, another first byte is `InvalidData`. A message without a state
/// that begins with `#` and has at least five more bytes is read as one with a state.
///
/// ```
/// let packet: GreetingErrorRef<'_> = ParseBuf::new(alloc, payload).parse(())?;
/// Ok(packet.server_error().message())
/// ```
pub type GreetingError<'a> = GreetingErrorOf<ServerError<'a>>;

/// An error instead of the greeting whose texts stay in the packet: a [`GreetingError`] for as long as the
/// packet lives.
///
/// It is read from the same bytes with the same faults, and in a clause it is that packet.
///
/// ```
/// let packet: GreetingErrorRef<'_> = ParseBuf::new(alloc, payload).parse(())?;
/// Ok(packet.server_error().message())
/// ```
pub type GreetingErrorRef<'a> = GreetingErrorOf<ServerErrorRef<'a>>;

impl<E> GreetingErrorOf<E> {
    /// The error.
    #[inline]
    pub fn server_error(&self) -> &E
        ensures value { result.now ≡ spec.error_of_greeting self.now }
    {
        &self.error
    }
}

impl<'a> GreetingError<'a> {
    /// Creates the packet of this error.
    #[inline]
    pub fn new(error: ServerError<'a>) -> Self
        ensures value { result ≡ spec.greeting_error_of error.entry }
    {
        GreetingErrorOf { error }
    }

    /// Returns the error.
    #[inline]
    pub fn into_server_error(self) -> ServerError<'a>
        ensures value { result ≡ spec.error_of_greeting self.entry }
    {
        self.error
    }

    /// Copies the message, so that the error borrows nothing. An empty message needs no allocation.
    pub fn into_owned(self, alloc: Global) -> Result<GreetingError<'static>, AllocError>
        ensures value { IfOk result (λ owned. owned ≡ self.entry) }
        ensures no_memory { message (spec.error_of_greeting self.entry) ≡ [] → IsOk result }
    {
        Ok(GreetingErrorOf {
            error: self.error.into_owned(alloc)?,
        })
    }
}

impl<'a> GreetingErrorRef<'a> {
    /// Converts to a [`GreetingError`], which still borrows the message. It takes no memory.
    pub fn to_owned(&self) -> GreetingError<'a>
        ensures value { result ≡ self.now }
    {
        GreetingError::new(self.error.to_owned())
    }
}

/// Whether the bytes begin with an SQL state: `#` and at least five more bytes.
#[inline]
fn begins_with_state(buf: &ParseBuf<'_>) -> bool
    ensures value { result ≡ spec.begins_with_state buf.now }
{
    buf.first() == Some(b'#') && buf.len() > 5
}

impl<E: Debug> Debug for GreetingErrorOf<E> {
    fn fmt<W: fmt::Write>(&self, f: &mut fmt::Formatter<W>) -> fmt::Result {
        f.debug_struct("GreetingError")
            .field("error", &self.error)
            .finish()
    }
}

/// Read like a [`GreetingError`].
impl<'de> MyDeserialize<'de> for GreetingErrorRef<'de> {
    const SIZE: Option<usize> = None;

    type Size = AnyWidth;

    type Ctx = ();

    ghost form = { spec.greeting_error.form };

    #[inline]
    #[tactic(auto, using(mysql_wire::proofs::Blocks::blocks), unfolding(crate::specs::GreetingError::greeting_error))]
    fn deserialize<'s>(_ctx: (), buf: &mut ParseBuf<'de>) -> Result<Self, FaultOf<'s>> {
        let mut head: ParseBuf<'de> = buf.parse(3)?;
        let _header: ErrPacketHeader = head.parse_unchecked(())?;
        let code: RawInt<LeU16> = RawInt::take(&mut head);
        let has_state = begins_with_state(buf);
        Ok(GreetingErrorOf {
            error: buf.parse((code.0, has_state))?,
        })
    }

    ghost size_is = { λ _. unfold spec.greeting_error in refl };
}

impl<'de> MyDeserialize<'de> for GreetingError<'de> {
    const SIZE: Option<usize> = None;

    type Size = AnyWidth;

    type Ctx = ();

    ghost form = { spec.greeting_error.form };

    fn deserialize<'s>(_ctx: (), buf: &mut ParseBuf<'de>) -> Result<Self, FaultOf<'s>> {
        let packet: GreetingErrorRef<'de> = buf.parse(())?;
        Ok(packet.to_owned())
    }

    ghost size_is = { λ _. unfold spec.greeting_error in refl };
}

impl Parts for GreetingError<'_> {
    ghost bytes = { spec.greeting_error.bytes };

    #[inline(always)]
    fn put<S: Sink>(&self, sink: &mut S) {
        let header = ErrPacketHeader::new();
        let code: RawInt<LeU16> = RawInt::new(self.error.error_code());
        sink.part(&parts!(header, code, self.error));
    }
}

impl fmt::Display for GreetingError<'_> {
    ghost output = { λ g. Some (error_text (spec.error_of_greeting g)) };

    fn fmt<W: fmt::Write>(&self, f: &mut fmt::Formatter<W>) -> fmt::Result {
        let error = &self.error;
        write!(f, "{error}")
    }
}
