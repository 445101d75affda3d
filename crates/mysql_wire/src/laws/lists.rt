//! Round trips of lists and of numbers of variable length.

ghost use Rattle.std.specs.Prelude.{◌^◌, ◌<◌, [], length, ℕ, List};
ghost use Rattle.std.specs.List.{All, flat_map};
ghost use Rattle.mysql_wire.specs.Int.{le_u64, number_of};
ghost use Rattle.mysql_wire.specs.Many.{many};
ghost use Rattle.mysql_wire.specs.Seq.{seq, seq_bytes};
ghost use Rattle.mysql_wire.specs.Spelling.{IsSpelling};
ghost use Rattle.mysql_wire.specs.Varlen.{varlen, varlen_bytes};
ghost use Rattle.mysql_wire.specs.Writing.{le_bytes};

use crate::proto::{MyDeserialize, MySerialize};
use crate::seq::SeqRepr;

/// A number of variable length of up to 64 bits is read back, whatever bytes follow.
#[tactic(auto, using(crate::specs::Varlen::Again::varlen_round_trips))]
pub fn varlen_round_trips()
    ensures { (n : ℕ) → n < 2 ^ 64 → IsSpelling varlen n (varlen_bytes n) }
{}

/// A list is read back if its count and each of its values are, whatever bytes follow.
pub fn list_round_trips<'de, T: MyDeserialize<'de, Ctx = ()> + MySerialize, L: SeqRepr>()
    ensures { (ctx : L.Ctx) (xs : List T) → IsSpelling (L.form ctx) (length xs) (L.written (length xs)) → All (λ x. IsSpelling (T.form tt) x (T.bytes x)) xs
        → IsSpelling (seq (L.form ctx) (T.form tt)) xs (seq_bytes L.written T.bytes xs) }
{}

/// A count of eight bytes is read back, whatever bytes follow.
#[tactic(auto, using(crate::specs::ListAgain::lists_again))]
pub fn count_round_trips()
    ensures { (n : ℕ) → n < 2 ^ 64 → IsSpelling (number_of le_u64) n (le_bytes 8 n) }
{}

/// Values up to the end of the bytes are read back, if each value is and takes at least one byte.
pub fn values_to_the_end_round_trips<'de, T: MyDeserialize<'de, Ctx = ()> + MySerialize>()
    ensures { (xs : List T) → All (λ x. IsSpelling (T.form tt) x (T.bytes x) × (0 < length (T.bytes x))) xs
        → (many (T.form tt)).Spells xs (flat_map T.bytes xs) [] }
{}
