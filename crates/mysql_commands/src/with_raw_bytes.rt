//! Values with the bytes that they were read from.
#![tactic(auto, using(mysql_wire::proofs::Packets::packets), unfolding(mysql_wire::specs::Writing::saturated))]

ghost use Rattle.std.specs.Prelude.{◌≡◌, ◌++◌, refl};
ghost use Rattle.mysql_wire.specs.Reading.{IsTail};
ghost use Rattle.mysql_commands.specs.WithRawBytes as spec;

use mysql_wire::{AnyWidth, Buffer, BytesRef, FaultOf, MyDeserialize, MySerialize, ParseBuf};

/// A value with the bytes that it was read from. It is written back byte for byte, even if the protocol has
/// several encodings.
///
/// Only reading creates one; other values are written by their own type. Two are equal if their bytes are:
/// under the same context their values are then the same.
///
/// ```
/// let command: Command<'_> = ParseBuf::new(alloc, payload).parse(agreed)?;
/// Ok(command.serialize(out)?)
/// ```
#[derive(Clone, Debug, Drop)]
#[derive_where(PartialEq, Eq)]
pub struct WithRawBytes<'a, T> {
    #[derive_where(skip(EqHashOrd))]
    value: T,
    bytes: BytesRef<'a>,
}

impl<'a, T> WithRawBytes<'a, T> {
    /// Returns the value that the bytes were read as.
    #[inline]
    pub fn value(&self) -> &T
        ensures value { result.now ≡ spec.value self.now }
    {
        &self.value
    }

    /// The bytes that it was read from, for as long as the packet lives.
    #[inline]
    pub fn as_bytes(&self) -> &'a [u8]
        ensures value { result.now ≡ spec.bytes self.now }
    {
        self.bytes.as_bytes()
    }
}

/// Returns the bytes before the remaining ones.
fn front_of<'a>(bytes: &ParseBuf<'a>, left: &ParseBuf<'a>) -> BytesRef<'a>
    requires { IsTail left.now bytes.now }
    ensures value { result ≡ spec.front_of bytes.now left.now }
{
    let mut bytes = bytes.rest();
    let taken = bytes.len() - left.len();
    BytesRef::new(bytes.eat(taken))
}

impl<'de, T: MyDeserialize<'de>> MyDeserialize<'de> for WithRawBytes<'de, T> {
    const SIZE: Option<usize> = None;

    type Size = AnyWidth;

    type Ctx = T::Ctx;

    ghost takes_memory = { T.takes_memory };

    ghost form = { λ ctx. spec.as_sent_form (T.form ctx) };

    fn deserialize<'s>(ctx: T::Ctx, buf: &mut ParseBuf<'de>) -> Result<Self, FaultOf<'s>> {
        let mut left = buf.rest();
        let value: T = left.parse(ctx)?;
        let bytes = front_of(buf, &left);
        *buf = left;
        Ok(WithRawBytes { value, bytes })
    }

    ghost size_is = { λ _. refl };
}

impl<T> MySerialize for WithRawBytes<'_, T> {
    ghost bytes = { spec.bytes };

    #[inline(always)]
    fn defined_len(&self) -> usize {
        self.bytes.defined_len()
    }

    #[inline(always)]
    fn append<O: Buffer>(&self, out: &mut O) {
        self.bytes.append(out);
    }
}
