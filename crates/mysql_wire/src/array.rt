//! Byte strings whose length is part of their type.

ghost use Rattle.std.specs.Prelude.{false, ◌≡◌, ◌+◌, ◌++◌, ◌≤◌, length, drop};

use crate::buf::ParseBuf;
use crate::buffer::Buffer;
use crate::fault::FaultOf;
use crate::proto::{Fixed, MyDeserialize, MySerialize};

/// A given number of bytes (`string<fix>`).
impl<'de, const N: usize> MyDeserialize<'de> for [u8; N] {
    const SIZE: Option<usize> = Some(N);

    type Size = Fixed<N>;

    type Ctx = ();

    ghost use Rattle.mysql_wire.specs.Form.{bytes, size-bytes};

    ghost form = { λ _. bytes N };

    #[inline(always)]
    #[tactic(auto, using(crate::proofs::Arrays::arrays))]
    fn deserialize<'s>(_ctx: (), buf: &mut ParseBuf<'de>) -> Result<Self, FaultOf<'s>> {
        Ok(<[u8; N]>::try_from(buf.eat(N)).unwrap())
    }

    ghost size_is = { λ _. size-bytes N };
}

impl<const N: usize> MySerialize for [u8; N] {
    ghost bytes = { λ content. content };

    #[inline(always)]
    #[tactic(auto, unfolding(crate::specs::Writing::saturated))]
    fn defined_len(&self) -> usize {
        N
    }

    #[inline(always)]
    #[tactic(auto, using(crate::proofs::After::after))]
    fn append<O: Buffer>(&self, out: &mut O) {
        if N <= 8 {
            append_few(*self, out);
        } else {
            out.push_bytes(self);
        }
    }
}

/// Writes a few bytes one by one, which the compiler turns into one or two stores.
#[inline(always)]
#[tactic(auto, using(crate::proofs::After::after))]
fn append_few<const N: usize, O: Buffer>(bytes: [u8; N], out: &mut O)
    requires { length (O.held out.old) + N ≤ O.capacity out.old }
    ensures items { O.held out.new ≡ O.held out.old ++ bytes.entry }
    ensures after { O.after out.new ≡ drop N (O.after out.old) }
    ensures capacity { O.capacity out.old ≤ O.capacity out.new }
    ensures kept { O.kept out.new ≡ O.kept out.old }
{
    for byte in &bytes {
        out.push_byte(*byte);
    }
}
