//! Floats, which the protocol sends as their bits.

ghost use Rattle.std.specs.Prelude.{◌≡◌};
ghost use Rattle.mysql_show.specs.Floats.{double_in, float_in};

/// Returns the number with these bits, which may be infinite, or `None` if they are not a number.
#[tactic(auto, using(std::proofs::lemmas::Float::not_nan_f64_bits))]
pub(crate) fn double_of(bits: u64) -> Option<f64>
    ensures value { result ≡ double_in bits }
{
    if bits % 0x8000_0000_0000_0000 <= 0x7ff0_0000_0000_0000 {
        Some(f64::from_bits(bits))
    } else {
        None
    }
}

/// Returns the float of four bytes with these bits, which may be infinite, or `None` if they are not a number.
#[tactic(auto, using(std::proofs::lemmas::Float::not_nan_f32_bits))]
pub(crate) fn float_of(bits: u32) -> Option<f32>
    ensures value { result ≡ float_in bits }
{
    if bits % 0x8000_0000 <= 0x7f80_0000 {
        Some(f32::from_bits(bits))
    } else {
        None
    }
}
