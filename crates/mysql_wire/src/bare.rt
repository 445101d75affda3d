//! Byte strings whose length is given elsewhere.

ghost use Rattle.std.specs.Prelude.{◌≡◌, take, ◌≤◌, length, refl};

use crate::buf::ParseBuf;
use crate::buffer::Buffer;
use crate::bytes::BytesRepr;
use crate::fault::FaultOf;
use std::cmp::min;

// At most this many of the first bytes.
#[inline(always)]
pub(crate) fn first_bytes(content: &[u8], most: usize) -> &[u8]
    ensures value { result.now ≡ take most content.now }
    ensures bound { length result.now ≤ most }
{
    &content[..min(content.len(), most)]
}

/// A byte string whose length the caller passes. Fewer bytes are `UnexpectedEof`.
///
/// At most the first `MAX` bytes are written. Reading has no such limit.
#[derive(Clone, Copy, Debug)]
pub struct BareBytes<const MAX: usize>;

impl<const MAX: usize> BytesRepr for BareBytes<MAX> {
    type Ctx = usize;

    ghost use Rattle.mysql_wire.specs.Bare.{bare};

    ghost form = { bare };

    #[inline(always)]
    fn deserialize<'s, 'de>(
        n: usize,
        buf: &mut ParseBuf<'de>,
    ) -> Result<ParseBuf<'de>, FaultOf<'s>> {
        buf.parse(n)
    }

    ghost kept = { take MAX };

    #[inline(always)]
    fn kept(content: &[u8]) -> &[u8] {
        first_bytes(content, MAX)
    }

    ghost written = { take MAX };

    #[inline(always)]
    #[tactic(auto, unfolding(crate::specs::Writing::saturated))]
    fn written_len(content: &[u8]) -> usize {
        Self::kept(content).len()
    }

    #[inline(always)]
    #[tactic(auto, using(crate::proofs::After::after))]
    fn append<O: Buffer>(content: &[u8], out: &mut O) {
        out.push_bytes(Self::kept(content));
    }

    ghost size_is = { λ _. refl };
}
