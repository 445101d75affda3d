//! Bytes that are skipped.

ghost use Rattle.std.specs.Prelude.{false, replicate, ◌≡◌, ◌+◌, ◌≤◌, length, Ok};
ghost use Rattle.mysql_wire.specs.Skip.{skip};

use crate::buf::ParseBuf;
use crate::buffer::Buffer;
use crate::fault::FaultOf;
use crate::proto::{Fixed, MyDeserialize, MySerialize};

/// `N` bytes that may have any value when they are read, and are written as zeros: fillers and
/// reserved bytes.
#[derive(Clone, Copy, Debug, PartialEq, Eq, Hash, Default)]
pub struct Skip<const N: usize>;

impl<const N: usize> Skip<N> {
    /// Skips the next `N` bytes, which must remain in the buffer.
    #[inline(always)]
    #[tactic(auto, using(crate::proofs::Arrays::arrays), unfolding(crate::specs::Skip::skip))]
    pub fn take(buf: &mut ParseBuf<'_>) -> Self
        requires { N ≤ length buf.old }
        ensures value { (skip N).reads buf.old ≡ Ok (result, buf.new) }
        ensures exact { length buf.old ≡ N + length buf.new }
    {
        buf.skip(N);
        Skip
    }
}

impl<'de, const N: usize> MyDeserialize<'de> for Skip<N> {
    const SIZE: Option<usize> = Some(N);

    type Size = Fixed<N>;

    type Ctx = ();

    ghost use Rattle.mysql_wire.specs.Skip.{skip, size-skip};

    ghost form = { λ _. skip N };

    #[inline(always)]
    fn deserialize<'s>(_ctx: (), buf: &mut ParseBuf<'de>) -> Result<Self, FaultOf<'s>> {
        Ok(Skip::take(buf))
    }

    ghost size_is = { λ _. size-skip N };
}

impl<const N: usize> MySerialize for Skip<N> {
    ghost bytes = { λ _. replicate N 0 };

    #[inline(always)]
    #[tactic(auto, unfolding(crate::specs::Writing::saturated))]
    fn defined_len(&self) -> usize {
        N
    }

    #[inline(always)]
    #[tactic(auto, using(crate::proofs::After::after))]
    fn append<O: Buffer>(&self, out: &mut O) {
        out.is_in_memory();
        [0; N].append(out);
    }
}
