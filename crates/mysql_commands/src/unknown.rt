//! Commands without a record of their own.
#![tactic(auto, using(mysql_wire::proofs::Packets::packets), unfolding(crate::specs::Unknown::unknown))]

ghost use Rattle.std.specs.Prelude.{◌≡◌, refl};
ghost use Rattle.mysql_commands.specs.Unknown as spec;

use mysql_wire::{
    AnyWidth, BytesRef, FaultOf, MyDeserialize, ParseBuf, Parts, RawInt, Sink, parts,
};

/// A command whose first byte has no record of its own: a code that is used inside servers, a later one, or an
/// unknown one.
///
/// | Bytes | Field |
/// |---|---|
/// | 1 | the command's code |
/// | to the end | its content |
///
/// An empty payload is `UnexpectedEof`.
///
/// ```
/// Ok(UnknownCommand::new(code, content).serialize(out)?)
/// ```
#[derive(Clone, Debug, PartialEq, Eq, Drop)]
pub struct UnknownCommand<'a> {
    code: u8,
    content: BytesRef<'a>,
}

impl<'a> UnknownCommand<'a> {
    /// Creates a command of this code, with this content.
    pub fn new(code: u8, content: &'a [u8]) -> Self
        ensures value { result ≡ spec.unknown_of code content.now }
    {
        UnknownCommand {
            code,
            content: BytesRef::new(content),
        }
    }

    /// The first byte. [`ServerCommand`](mysql_wire::ServerCommand) names all known codes.
    #[inline]
    pub fn code(&self) -> u8
        ensures value { result ≡ spec.code self.now }
    {
        self.code
    }

    /// The bytes after the first.
    #[inline]
    pub fn content(&self) -> &'a [u8]
        ensures value { result.now ≡ spec.content self.now }
    {
        self.content.as_bytes()
    }
}

impl<'de> MyDeserialize<'de> for UnknownCommand<'de> {
    const SIZE: Option<usize> = None;

    type Size = AnyWidth;

    type Ctx = ();

    ghost form = { spec.unknown.form };

    fn deserialize<'s>(_ctx: (), buf: &mut ParseBuf<'de>) -> Result<Self, FaultOf<'s>> {
        let code: RawInt<u8> = buf.parse(())?;
        Ok(UnknownCommand {
            code: code.0,
            content: buf.parse(())?,
        })
    }

    ghost size_is = { λ _. unfold spec.unknown in refl };
}

impl Parts for UnknownCommand<'_> {
    ghost bytes = { spec.unknown.bytes };

    #[inline(always)]
    fn put<S: Sink>(&self, sink: &mut S) {
        let code: RawInt<u8> = RawInt::new(self.code);
        sink.part(&parts!(code, self.content));
    }
}
