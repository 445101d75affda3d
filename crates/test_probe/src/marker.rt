//! A constant of a user's own.

use mysql_wire::{ConstBytesValue, ConstFault};

/// Four bytes that stand at the head of a packet of a user's, with the text of their refusal.
#[derive(Clone, Copy, Debug)]
pub struct Marker;

impl ConstFault for Marker {
    const MESSAGE: &'static str = "Invalid marker";
}

impl ConstBytesValue<4> for Marker {
    ghost use Rattle.std.specs.Prelude.{◌∷◌, [], refl};

    ghost VALUE = { 3 ∷ 100 ∷ 101 ∷ 102 ∷ [] };

    const VALUE: [u8; 4] = [3, b'd', b'e', b'f'];

    type Error = Marker;

    ghost len_is = { refl };
}
