//! Values of a slice, written one after another.

ghost use Rattle.std.specs.Prelude.{◌≡◌, ◌+◌, ◌++◌, ◌≤◌, length, drop};
ghost use Rattle.std.specs.List.{flat_map};
ghost use Rattle.mysql_wire.specs.Writing.{saturated};

use crate::buffer::Buffer;
use crate::proto::MySerialize;

/// The encoded length of all the values, or `usize::MAX` if it is greater.
#[tactic(auto, unfolding(crate::specs::Writing::saturated))]
pub fn items_len<T: MySerialize>(values: &[T]) -> usize
    ensures value { result ≡ saturated (length (flat_map T.bytes values.now)) }
{
    let mut total: usize = 0;
    for value in values {
        total = total.saturating_add(value.defined_len());
    }
    total
}

/// Writes the values, in order, to the end of a buffer that has capacity for them.
///
/// It takes no memory.
pub fn append_items<T: MySerialize, O: Buffer>(values: &[T], out: &mut O)
    requires { length (O.held out.old) + length (flat_map T.bytes values.now) ≤ O.capacity out.old }
    ensures items { O.held out.new ≡ O.held out.old ++ flat_map T.bytes values.now }
    ensures after { O.after out.new ≡ drop (length (flat_map T.bytes values.now)) (O.after out.old) }
    ensures capacity { O.capacity out.old ≤ O.capacity out.new }
    ensures kept { O.kept out.new ≡ O.kept out.old }
{
    let mut taken = out.taken();
    append_each(values, &mut taken);
    *out = taken;
}

#[inline(always)]
#[tactic(auto, using(crate::proofs::After::after))]
fn append_each<T: MySerialize, O: Buffer>(values: &[T], out: &mut O)
    requires { length (O.held out.old) + length (flat_map T.bytes values.now) ≤ O.capacity out.old }
    ensures items { O.held out.new ≡ O.held out.old ++ flat_map T.bytes values.now }
    ensures after { O.after out.new ≡ drop (length (flat_map T.bytes values.now)) (O.after out.old) }
    ensures capacity { O.capacity out.old ≤ O.capacity out.new }
    ensures kept { O.kept out.new ≡ O.kept out.old }
{
    for value in values {
        value.append(out);
    }
}
