//! Borrowed bytes that run to the end of their packet.
#![tactic(auto, unfolding(crate::specs::Writing::saturated))]

ghost use Rattle.std.specs.Prelude.{false, ◌≡◌, ⊤, refl, OnErr};
ghost use Rattle.mysql_wire.specs.Reading.{Answers, IsTail};

use crate::buf::ParseBuf;
use crate::buffer::Buffer;
use crate::bytes::BytesRepr;
use crate::fault::FaultOf;
use crate::proto::{AnyWidth, MyDeserialize, MySerialize};
use std::alloc::AllocError;
use std::fmt;
use std::fmt::Debug;
use std::marker::Model;

/// Borrowed bytes that run to the end of a packet (`string<EOF>`), such as a query's text or a schema's name.
///
/// In a clause they are the list of the bytes, like a [`RawBytes`](crate::RawBytes). So a record that is generic in
/// what holds its strings is one type in a clause, whether it borrows them or may own them. Reading and writing
/// take no memory.
#[derive(Drop)]
pub struct BytesRef<'a> {
    bytes: &'a [u8],
}

impl<'a> Model for BytesRef<'a> {
    ghost use Rattle.std.specs.Prelude.{ℕ, List};

    ghost Value = { List ℕ };

    ghost view = { λ b. b.bytes.now };
}

impl<'a> BytesRef<'a> {
    /// Creates a field of these bytes.
    #[inline]
    pub fn new(bytes: &'a [u8]) -> Self
        ensures value { result ≡ bytes.now }
    {
        BytesRef { bytes }
    }

    /// Reads a byte string in the encoding `R` from the front of the buffer, like a [`RawBytes`](crate::RawBytes).
    #[inline(always)]
    pub fn read<'s, R: BytesRepr>(
        ctx: R::Ctx,
        buf: &mut ParseBuf<'a>,
    ) -> Result<BytesRef<'a>, FaultOf<'s>>
        ensures value { Answers false result buf.new ((R.form ctx).reads buf.old) }
        ensures tail { OnErr result (IsTail buf.new buf.old) }
    {
        let mut content = R::deserialize(ctx, buf)?;
        Ok(BytesRef {
            bytes: content.eat_all(),
        })
    }

    /// The bytes, for as long as the packet lives.
    #[inline]
    pub fn as_bytes(&self) -> &'a [u8]
        ensures value { result.now ≡ self.now }
    {
        self.bytes
    }
}

impl Clone for BytesRef<'_> {
    ghost is_clone = { λ b copy. copy ≡ b };

    ghost is_infallible = { λ _. ⊤ };

    fn clone(&self) -> Result<Self, AllocError> {
        Ok(BytesRef { bytes: self.bytes })
    }
}

impl PartialEq for BytesRef<'_> {
    ghost use Rattle.std.specs.Prelude.{nat_eq};
    ghost use Rattle.std.specs.Cmp.Lexicographic.{pointwise};
    ghost use Rattle.std.proofs.Common.{rules};
    ghost use Rattle.std.specs.Cmp.Rules.{comparing};

    ghost eq = { pointwise nat_eq };

    ghost laws = { Prim.search (comparing, rules) };

    fn eq(&self, other: &Self) -> bool {
        self.bytes == other.bytes
    }
}

impl Eq for BytesRef<'_> {
    ghost use Rattle.std.proofs.Common.{rules};
    ghost use Rattle.std.specs.Cmp.Rules.{comparing};

    ghost laws = { Prim.search (comparing, rules) };
}

/// Prints the bytes like a [`RawBytes`](crate::RawBytes).
impl Debug for BytesRef<'_> {
    fn fmt<W: fmt::Write>(&self, f: &mut fmt::Formatter<W>) -> fmt::Result {
        write!(f, "\"{}\"", self.bytes.escape_ascii())
    }
}

impl<'de> MyDeserialize<'de> for BytesRef<'de> {
    const SIZE: Option<usize> = None;

    type Size = AnyWidth;

    type Ctx = ();

    ghost use Rattle.mysql_wire.specs.Form.{all_left};

    ghost form = { λ _. all_left };

    #[inline]
    fn deserialize<'s>(_ctx: (), buf: &mut ParseBuf<'de>) -> Result<Self, FaultOf<'s>> {
        Ok(BytesRef {
            bytes: buf.eat_all(),
        })
    }

    ghost size_is = { λ _. refl };
}

impl MySerialize for BytesRef<'_> {
    ghost bytes = { λ b. b };

    #[inline(always)]
    fn defined_len(&self) -> usize {
        self.bytes.len()
    }

    #[inline(always)]
    #[tactic(auto, using(crate::proofs::After::after))]
    fn append<O: Buffer>(&self, out: &mut O) {
        out.push_bytes(self.bytes);
    }
}
