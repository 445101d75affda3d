//! Round trips of byte strings.

ghost use Rattle.std.specs.Prelude.{◌≡◌, ◌^◌, ◌<◌, ◌≤◌, ◌++◌, [], length, take, ℕ, List};
ghost use Rattle.mysql_wire.specs.Bare.{bare};
ghost use Rattle.mysql_wire.specs.ConstBytes.{const_bytes};
ghost use Rattle.mysql_wire.specs.CountedBytes.{u8_string, u8_string_bytes, u32_string, u32_string_bytes};
ghost use Rattle.mysql_wire.specs.Form.{all_left, bytes};
ghost use Rattle.mysql_wire.specs.Null.{HasNoZero, null_string, null_bytes};
ghost use Rattle.mysql_wire.specs.Spelling.{IsSpelling};

use crate::const_bytes::{ConstBytes, ConstBytesValue};

/// A content without a zero byte, with a terminating zero, is read back, whatever bytes follow.
#[tactic(auto, using(crate::specs::BytesAgain::byte_strings_again))]
pub fn null_string_round_trips()
    ensures { (content : List ℕ) → HasNoZero content → IsSpelling null_string content (null_bytes content) }
{}

/// A content of at most 255 bytes, after its count of one byte, is read back, whatever bytes follow.
#[tactic(auto, using(crate::specs::BytesAgain::byte_strings_again))]
pub fn u8_string_round_trips()
    ensures { (content : List ℕ) → length content < 2 ^ 8 → IsSpelling u8_string content (u8_string_bytes content) }
{}

/// A content of less than 2^32 bytes, after its count of four bytes, is read back, whatever bytes follow.
#[tactic(auto, using(crate::specs::BytesAgain::byte_strings_again))]
pub fn u32_string_round_trips()
    ensures { (content : List ℕ) → length content < 2 ^ 32 → IsSpelling u32_string content (u32_string_bytes content) }
{}

/// A content within the encoding's limit is read back if its length is passed, whatever bytes follow.
#[tactic(auto, using(crate::specs::BytesAgain::byte_strings_again))]
pub fn bare_string_round_trips()
    ensures { (most n : ℕ) (content : List ℕ) → length content ≡ n → n ≤ most → IsSpelling (bare n) content (take most content) }
{}

/// A content that runs to the end of the packet is read back if nothing follows it.
#[tactic(auto, using(crate::specs::BytesAgain::byte_strings_again))]
pub fn rest_round_trips()
    ensures { (content : List ℕ) → all_left.Spells content (content ++ []) [] }
{}

/// An array is read back, whatever bytes follow.
#[tactic(auto, using(crate::specs::BytesAgain::byte_strings_again))]
pub fn array_round_trips()
    ensures { (n : ℕ) (content : List ℕ) → length content ≡ n → IsSpelling (bytes n) content content }
{}

/// A constant byte string is read back, whatever bytes follow.
#[tactic(auto, using(crate::specs::BytesAgain::byte_strings_again))]
pub fn const_bytes_round_trips<T: ConstBytesValue<LEN>, const LEN: usize>()
    ensures { (v : ConstBytes T LEN) → IsSpelling (const_bytes LEN T.VALUE) v T.VALUE }
{}
