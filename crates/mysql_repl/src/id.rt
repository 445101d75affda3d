//! A server's identifier, as it is written.

ghost use Rattle.std.specs.Prelude.{◌≡◌, ◌+◌, ◌++◌, ◌≤◌, length, drop};

use mysql_wire::{Buffer, MySerialize};

/// The 16 bytes of a server's identifier.
#[derive(Drop)]
pub(crate) struct Id(pub(crate) [u8; 16]);

/// Writes the bytes one by one, which the compiler turns into one store.
#[inline(always)]
#[tactic(auto, using(mysql_wire::proofs::After::after))]
fn append_bytes<O: Buffer>(bytes: [u8; 16], out: &mut O)
    requires { length (O.held out.old) + 16 ≤ O.capacity out.old }
    ensures items { O.held out.new ≡ O.held out.old ++ bytes }
    ensures after { O.after out.new ≡ drop (16) (O.after out.old) }
    ensures capacity { O.capacity out.old ≤ O.capacity out.new }
    ensures kept { O.kept out.new ≡ O.kept out.old }
{
    for byte in &bytes {
        out.push_byte(*byte);
    }
}

impl MySerialize for Id {
    ghost bytes = { λ i. i.0 };

    #[inline(always)]
    #[tactic(auto, unfolding(mysql_wire::specs::Writing::saturated))]
    fn defined_len(&self) -> usize {
        self.0.len()
    }

    #[inline(always)]
    fn append<O: Buffer>(&self, out: &mut O) {
        append_bytes(self.0, out);
    }
}
