//! Laws of the grammars, and round trips.
//!
//! Each function here has an empty body: its contract is the law, proved for every value. A form
//! `f` has `f.Spells value bytes rest`, which says that `bytes` are a spelling of `value` and then
//! `rest`, and `f.reads bytes`, which is what reading `bytes` gives.

ghost use Rattle.std.specs.Prelude.{◌≡◌, ◌+◌, ◌^◌, ◌<◌, length, ℕ, List, Some, Ok};
ghost use Rattle.mysql_wire.specs.Reading.{IsTail};
ghost use Rattle.mysql_wire.specs.Int.{byte, le_u16, le_u24, le_u32, le_u64, raw_int};
ghost use Rattle.mysql_wire.specs.LenEnc.{lenenc, lenenc_bytes, lenenc_string, lenenc_string_bytes};
ghost use Rattle.mysql_wire.specs.Writing.{le_bytes};
ghost use Rattle.mysql_wire.specs.Spelling.{IsSpelling};

mod byte_strings;
mod constant_values;
mod constants;
mod equality;
mod faults;
mod lists;

pub use crate::block::block_has_no_constant_size;
use crate::proto::MyDeserialize;
pub use byte_strings::{
    array_round_trips, bare_string_round_trips, const_bytes_round_trips, null_string_round_trips,
    rest_round_trips, u8_string_round_trips, u32_string_round_trips,
};
pub use constant_values::{
    coded_byte_round_trips, flag_word_round_trips, switching_changes_one_flag,
};
pub use constants::{
    block_round_trips, const_u8_round_trips, const_u32_round_trips, skip_round_trips,
};
pub use equality::{
    equal_byte_strings_hash_equally, equal_coded_values_hash_equally,
    equal_flag_words_hash_equally, equal_integers_hash_equally, equal_lists_hash_equally,
};
pub use faults::{block_faults, first_fault_comes_first};
pub use lists::{
    count_round_trips, list_round_trips, values_to_the_end_round_trips, varlen_round_trips,
};

/// Bytes spell at most one value of a type, with one rest.
pub fn at_most_one_value<'de, T: MyDeserialize<'de>>()
    ensures value { (ctx : T.Ctx) (v w : T) (bytes rest more : List ℕ) → (T.form ctx).Spells v bytes rest → (T.form ctx).Spells w bytes more → v ≡ w }
    ensures rest { (ctx : T.Ctx) (v w : T) (bytes rest more : List ℕ) → (T.form ctx).Spells v bytes rest → (T.form ctx).Spells w bytes more → rest ≡ more }
{}

/// A reader takes bytes from the front, and leaves the rest unchanged.
pub fn reading_takes_a_front<'de, T: MyDeserialize<'de>>()
    ensures { (ctx : T.Ctx) (v : T) (bytes rest : List ℕ) → (T.form ctx).Spells v bytes rest → IsTail rest bytes }
{}

/// A spelling of a type with a constant size has that size.
pub fn constant_size_is_exact<'de, T: MyDeserialize<'de>>()
    ensures { (n : ℕ) → T.Size.SIZE ≡ Some n → (ctx : T.Ctx) (v : T) (bytes rest : List ℕ) → (T.form ctx).Spells v bytes rest → length bytes ≡ n + length rest }
{}

/// `reads` and `Spells` agree: each value that is read is spelled by the bytes, and the other way round.
pub fn reading_is_spelling<'de, T: MyDeserialize<'de>>()
    ensures read { (ctx : T.Ctx) (v : T) (bytes rest : List ℕ) → (T.form ctx).Spells v bytes rest → (T.form ctx).reads bytes ≡ Ok (v, rest) }
    ensures spelled { (ctx : T.Ctx) (v : T) (bytes rest : List ℕ) → (T.form ctx).reads bytes ≡ Ok (v, rest) → (T.form ctx).Spells v bytes rest }
{}

/// A number that fits its width is read back, whatever bytes follow.
#[tactic(auto, using(crate::specs::Spelling::numbers_again))]
pub fn number_round_trips()
    ensures one_byte { (n : ℕ) → n < 2 ^ 8 → IsSpelling byte (raw_int n) (le_bytes 1 n) }
    ensures two_bytes { (n : ℕ) → n < 2 ^ 16 → IsSpelling le_u16 (raw_int n) (le_bytes 2 n) }
    ensures three_bytes { (n : ℕ) → n < 2 ^ 24 → IsSpelling le_u24 (raw_int n) (le_bytes 3 n) }
    ensures four_bytes { (n : ℕ) → n < 2 ^ 32 → IsSpelling le_u32 (raw_int n) (le_bytes 4 n) }
    ensures eight_bytes { (n : ℕ) → n < 2 ^ 64 → IsSpelling le_u64 (raw_int n) (le_bytes 8 n) }
{}

/// A length-encoded number of up to 64 bits is read back, whatever bytes follow.
#[tactic(auto, using(crate::specs::Again::lenenc_round_trips))]
pub fn lenenc_round_trips()
    ensures { (n : ℕ) → n < 2 ^ 64 → IsSpelling lenenc n (lenenc_bytes n) }
{}

/// A length-encoded byte string is read back, whatever bytes follow.
#[tactic(auto, using(crate::specs::Again::lenenc_round_trips))]
pub fn lenenc_string_round_trips()
    ensures { (content : List ℕ) → length content < 2 ^ 64 → IsSpelling lenenc_string content (lenenc_string_bytes content) }
{}
