//! Values in a request, each after its own indicator.

ghost use Rattle.std.specs.Prelude.{◌≡◌, ◌+◌, ◌≤◌, ◌++◌, length, drop};
ghost use Rattle.std.specs.List.{flat_map};
ghost use Rattle.mysql_bulk.specs.ParamValue.{cell};

use crate::row_value::RowValue;
use mysql_wire::Buffer;

/// Writes values, each after its indicator, for which there is capacity.
// A local buffer: writes to its bytes can't alias the buffer itself, so each number is one store.
#[inline(always)]
#[tactic(auto, using(mysql_wire::proofs::After::after))]
pub(crate) fn append_cells<V: RowValue, O: Buffer>(out: &mut O, values: &[V])
    requires { length (O.held out.old) + length (flat_map (λ v. cell (V.content v)) values.now) ≤ O.capacity out.old }
    ensures items { O.held out.new ≡ O.held out.old ++ flat_map (λ v. cell (V.content v)) values.now }
    ensures after { O.after out.new ≡ drop (length (flat_map (λ v. cell (V.content v)) values.now)) (O.after out.old) }
    ensures capacity { O.capacity out.old ≤ O.capacity out.new }
    ensures kept { O.kept out.new ≡ O.kept out.old }
{
    let mut bytes = out.taken();
    for value in values {
        value.append_cell(&mut bytes);
    }
    *out = bytes;
}
