//! Capability flags as digits.

ghost use Rattle.std.specs.Prelude.{◌≡◌};
ghost use Rattle.mysql_program.specs.Capabilities.{capabilities_of, is_flag_word};

use crate::digits::are_digits;
use bitflags::Flags;
use mysql_wire::CapabilityFlags;

/// Parses flags of one to eight hexadecimal digits, in upper or lower case.
#[tactic(auto, using(crate::proofs::Words::flag_words))]
pub fn capabilities_of(word: &str) -> Option<CapabilityFlags>
    ensures value { result ≡ capabilities_of word.now }
{
    if !is_flag_word(word.as_bytes()) {
        return None;
    }
    let bits = u32::from_str_radix(word, 16).ok()?;
    Some(CapabilityFlags::from_bits_retain(bits))
}

#[tactic(auto, unfolding(crate::specs::Capabilities::is_flag_word))]
fn is_flag_word(word: &[u8]) -> bool
    ensures value { result ≡ is_flag_word word.now }
{
    !word.is_empty() && word.len() <= 8 && are_digits(word)
}
