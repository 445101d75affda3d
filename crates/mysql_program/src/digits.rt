//! Bytes as hexadecimal digits.

ghost use Rattle.std.specs.Prelude.{◌≡◌, IfOk};
ghost use Rattle.std.specs.Char.{is_ascii_hexdigit};
ghost use Rattle.std.specs.List.{list_all};
ghost use Rattle.mysql_program.specs.Digits.{are_pairs, bytes_of};

use std::alloc::{AllocError, Global};
use std::marker::Model;

/// Hexadecimal digits, two for each byte, in either case.
#[derive(Drop)]
pub struct HexDigits<'a> {
    digits: &'a [u8],
}

impl<'a> Model for HexDigits<'a> {
    ghost use Rattle.std.specs.Prelude.{ℕ, List};
    ghost use Rattle.std.specs.Char.{is_ascii_hexdigit};
    ghost use Rattle.std.specs.List.{list_all};
    ghost use Rattle.mysql_program.specs.Digits.{digits_bytes};

    ghost Value = { List ℕ };

    ghost view = { λ d. digits_bytes d.digits.now };
}

impl<'a> HexDigits<'a> {
    /// Checks the digits, which must be pairs. It takes no memory.
    #[tactic(auto, using(crate::proofs::Checked::judged_digits))]
    pub fn new(digits: &'a [u8]) -> Option<HexDigits<'a>>
        ensures value { result ≡ bytes_of digits.now }
    {
        if are_pairs(digits) {
            Some(HexDigits { digits })
        } else {
            None
        }
    }

    /// Decodes the digits to bytes.
    pub fn decode(self, alloc: Global) -> Result<Vec<u8>, AllocError>
        ensures value { IfOk result (λ bytes. bytes.items ≡ self.entry) }
    {
        hex::decode(alloc, self.digits).map_err(|_| AllocError)
    }
}

/// Whether these are digits, two for each byte.
#[tactic(auto, unfolding(crate::specs::Digits::are_pairs))]
fn are_pairs(digits: &[u8]) -> bool
    ensures value { result ≡ are_pairs digits.now }
{
    digits.len().is_multiple_of(2) && are_digits(digits)
}

/// Whether each of these is a digit.
pub fn are_digits(digits: &[u8]) -> bool
    ensures value { result ≡ list_all is_ascii_hexdigit digits.now }
{
    digits.iter().all(|digit| digit.is_ascii_hexdigit())
}
