//! The NULL bitmap of parameters.
#![tactic(auto)]

ghost use Rattle.std.specs.Prelude.{◌≡◌, ◌+◌, ◌≤◌, false, length, replicate};
ghost use Rattle.mysql_packets_c.specs.Appends.{Appends};
ghost use Rattle.mysql_packets_c.specs.CheckedParams.{bitmap_for, has_null};

use crate::parameter::CParameter;
use mysql_stmt::{NullBitmap, SentNulls};
use mysql_values::ClientSide;
use mysql_wire::{Buffer, MySerialize};

/// The bitmap: a bit for each parameter, the first one the lowest, set for NULL.
#[derive(Drop)]
pub(crate) struct CheckedNulls<'r, 'a> {
    pub(crate) params: &'r [CParameter<'a>],
    /// Whether any bit may be set.
    pub(crate) may_have_null: bool,
    ghost none: { may_have_null ≡ false → has_null params.now ≡ false },
}

/// Writes zeros, for which there is capacity.
#[inline(always)]
#[tactic(auto, using(mysql_wire::proofs::After::after))]
fn append_zeros<O: Buffer>(count: usize, out: &mut O)
    requires { length (O.held out.old) + count ≤ O.capacity out.old }
    ensures { Appends O.held O.after O.capacity O.kept (replicate count 0) out.old out.new }
{
    for _ in 0..count {
        out.push_byte(0);
    }
}

/// Writes the bits of parameters, for which there is capacity.
// (by a call, so that what writes a bitmap without bits stays small enough to be in line)
#[inline(never)]
fn append_bits<O: Buffer>(params: &[CParameter<'_>], out: &mut O)
    requires { length (O.held out.old) + length (bitmap_for params.now) ≤ O.capacity out.old }
    ensures { Appends O.held O.after O.capacity O.kept (bitmap_for params.now) out.old out.new }
{
    let attributes: &[CParameter<'_>] = &[];
    SentNulls { params, attributes }.append(out);
}

impl MySerialize for CheckedNulls<'_, '_> {
    ghost use Rattle.mysql_packets_c.specs.CheckedParams.{bitmap_for};

    ghost bytes = { λ n. bitmap_for n.params.now };

    #[inline(always)]
    #[tactic(auto, using(crate::proofs::CheckedParams::bitmaps), unfolding(mysql_wire::specs::Writing::saturated))]
    fn defined_len(&self) -> usize {
        NullBitmap::<ClientSide>::bitmap_len(self.params.len())
    }

    #[inline(always)]
    #[tactic(auto, using(crate::proofs::CheckedParams::bitmaps, crate::proofs::CheckedParams::clear))]
    fn append<O: Buffer>(&self, out: &mut O) {
        if self.may_have_null {
            append_bits(self.params, out);
            return;
        }
        append_zeros(NullBitmap::<ClientSide>::bitmap_len(self.params.len()), out);
    }
}
