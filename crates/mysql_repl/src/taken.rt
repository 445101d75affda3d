//! Writing into a buffer that is a variable of its own.

ghost use Rattle.std.specs.Prelude.{◌≡◌, ◌+◌, ◌++◌, ◌≤◌, length, drop};

use mysql_wire::{Buffer, MySerialize};

/// Writes a value to the end of a buffer that has capacity for it.
///
/// While the buffer is a variable of its own, the compiler keeps its length and its address in registers, and
/// merges a number's bytes into one store.
#[inline(always)]
pub(crate) fn append_taken<T: MySerialize, O: Buffer>(value: &T, out: &mut O)
    requires { length (O.held out.old) + length (T.bytes value.now) ≤ O.capacity out.old }
    ensures items { O.held out.new ≡ O.held out.old ++ T.bytes value.now }
    ensures after { O.after out.new ≡ drop (length (T.bytes value.now)) (O.after out.old) }
    ensures capacity { O.capacity out.old ≤ O.capacity out.new }
    ensures kept { O.kept out.new ≡ O.kept out.old }
{
    let mut taken = out.taken();
    value.append(&mut taken);
    *out = taken;
}
