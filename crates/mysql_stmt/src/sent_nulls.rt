//! The NULL bitmap of parameters and attributes, as a client sends it.
#![tactic(auto, using(crate::proofs::ParamNulls::sent_nulls))]

ghost use Rattle.std.specs.Prelude.{◌≡◌, ◌<◌, ◌+◌, ◌^◌, length, drop, get_or, if◌then◌else◌};
ghost use Rattle.mysql_stmt.specs.Bitmap.{bytes_for};
ghost use Rattle.mysql_stmt.specs.NullMarks.{first_eight, first_four};
ghost use Rattle.mysql_stmt.specs.SentNulls.{bits_with};

use crate::execute_param::AsExecuteParam;
use mysql_wire::{Buffer, MySerialize};

/// The bits of the remaining parameters and attributes.
#[derive(Drop)]
struct NullBits<'a, V, A> {
    params: &'a [V],
    attributes: &'a [A],
}

impl<V: AsExecuteParam, A: AsExecuteParam> NullBits<'_, V, A> {
    /// Removes the first value and returns whether it is NULL; past the last value it returns `false`.
    #[inline(always)]
    fn next_is_null(&mut self) -> bool
        ensures value { get_or (bits_with V.param A.param self.old.params.now self.old.attributes.now) 0 0 ≡ (if result then 1 else 0) }
        ensures rest { bits_with V.param A.param self.new.params.now self.new.attributes.now ≡ drop 1 (bits_with V.param A.param self.old.params.now self.old.attributes.now) }
    {
        if let Some((first, rest)) = self.params.split_first() {
            self.params = rest;
            return first.is_null();
        }
        if let Some((first, rest)) = self.attributes.split_first() {
            self.attributes = rest;
            return first.is_null();
        }
        false
    }

    /// Removes the first value and returns its bit.
    #[inline(always)]
    fn next_bit(&mut self) -> u8
        ensures value { result ≡ get_or (bits_with V.param A.param self.old.params.now self.old.attributes.now) 0 0 }
        ensures small { result < 2 }
        ensures rest { bits_with V.param A.param self.new.params.now self.new.attributes.now ≡ drop 1 (bits_with V.param A.param self.old.params.now self.old.attributes.now) }
    {
        if self.next_is_null() { 1 } else { 0 }
    }

    /// Removes the first four values and returns their bits, the first one the lowest.
    #[inline(always)]
    fn next_four(&mut self) -> u8
        ensures value { result ≡ first_four (bits_with V.param A.param self.old.params.now self.old.attributes.now) }
        ensures small { result < 16 }
        ensures rest { bits_with V.param A.param self.new.params.now self.new.attributes.now ≡ drop 4 (bits_with V.param A.param self.old.params.now self.old.attributes.now) }
    {
        let first = self.next_bit();
        let second = self.next_bit();
        let third = self.next_bit();
        let fourth = self.next_bit();
        first + 2 * second + 4 * third + 8 * fourth
    }

    /// Removes the first eight values and returns their byte.
    #[inline(always)]
    fn next_byte(&mut self) -> u8
        ensures value { result ≡ first_eight (bits_with V.param A.param self.old.params.now self.old.attributes.now) }
        ensures rest { bits_with V.param A.param self.new.params.now self.new.attributes.now ≡ drop 8 (bits_with V.param A.param self.old.params.now self.old.attributes.now) }
    {
        let low = self.next_four();
        let high = self.next_four();
        low + 16 * high
    }
}

/// The NULL bitmap: a bit for each parameter and then for each attribute, the first one the lowest, set for
/// NULL. It is written byte by byte, without memory.
#[derive(Drop)]
pub struct SentNulls<'a, V, A> {
    /// The parameters.
    pub params: &'a [V],
    /// The attributes.
    pub attributes: &'a [A],
}

impl<V, A> SentNulls<'_, V, A> {
    /// The length of the bitmap in bytes. No sum overflows, whatever the lengths.
    fn bitmap_len(&self) -> usize
        ensures value { result ≡ bytes_for 0 (length self.now.params.now + length self.now.attributes.now) }
        ensures small { result < 2 ^ 63 }
    {
        let (params, attributes) = (self.params.len(), self.attributes.len());
        params / 8 + attributes / 8 + (params % 8 + attributes % 8 + 7) / 8
    }
}

impl<V: AsExecuteParam, A: AsExecuteParam> MySerialize for SentNulls<'_, V, A> {
    ghost use Rattle.mysql_stmt.specs.SentNulls.{bitmap_with};

    ghost bytes = { λ n. bitmap_with V.param A.param n.params.now n.attributes.now };

    #[tactic(auto, using(crate::proofs::ParamNulls::bitmap_lengths), unfolding(mysql_wire::specs::Writing::saturated))]
    fn defined_len(&self) -> usize {
        self.bitmap_len()
    }

    #[tactic(auto, using(mysql_wire::proofs::After::after, crate::proofs::ParamNulls::bitmap_lengths))]
    fn append<O: Buffer>(&self, out: &mut O) {
        let mut bytes = out.taken();
        let mut bits = NullBits {
            params: self.params,
            attributes: self.attributes,
        };
        for _ in 0..self.bitmap_len() {
            bytes.push_byte(bits.next_byte());
        }
        *out = bytes;
    }
}
