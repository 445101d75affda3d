//! Integers of fixed widths, little-endian.
//!
//! Their bytes are pushed to capacity that is proved to be there (`push_byte`), so the buffer's capacity is not
//! tested for each field of a packet, and the compiler merges the bytes into one store.

ghost use Rattle.std.specs.Prelude.{Some, Ok, ◌≡◌, ◌+◌, ◌≤◌, length};
ghost use Rattle.mysql_wire.specs.Writing.{le_bytes};
ghost use Rattle.mysql_wire.specs.Form.{number, size-number};

use crate::buf::ParseBuf;
use crate::buffer::Buffer;
use crate::fault::FaultOf;
use crate::int::{FixedInt, IntRepr};

/// A number of 16 bits: two bytes, little-endian (`int<2>`).
#[derive(Clone, Copy, Debug)]
pub struct LeU16;

impl IntRepr for LeU16 {
    type Primitive = u16;

    const SIZE: Option<usize> = Some(2);

    ghost SIZE = { Some 2 };

    ghost form = { number 2 };

    #[inline(always)]
    fn deserialize<'s>(buf: &mut ParseBuf<'_>) -> Result<u16, FaultOf<'s>> {
        Ok(Self::take(buf))
    }

    ghost written = { le_bytes 2 };

    #[inline(always)]
    #[tactic(auto, unfolding(crate::specs::Writing::le_bytes))]
    fn written_len(_value: u16) -> usize {
        2
    }

    #[inline(always)]
    #[tactic(auto, using(crate::proofs::After::after), unfolding(crate::specs::Writing::le_bytes))]
    fn append<O: Buffer>(value: u16, out: &mut O) {
        let [low, high] = value.to_le_bytes();
        out.push_byte(low);
        out.push_byte(high);
    }

    ghost size_is = { size-number 2 };
}

impl FixedInt for LeU16 {
    ghost width = { 2 };

    #[inline(always)]
    #[tactic(auto, using(crate::proofs::Numbers::numbers))]
    fn take(buf: &mut ParseBuf<'_>) -> u16 {
        u16::from_le_bytes(buf.eat_array())
    }
}

/// A number of 32 bits: four bytes, little-endian (`int<4>`).
///
/// ```
/// let number: RawInt<LeU32> = buf.parse(())?;
/// let text: RawBytes<'a, NullBytes> = buf.parse(())?;
/// Ok((number.0, text))
/// ```
#[derive(Clone, Copy, Debug)]
pub struct LeU32;

impl IntRepr for LeU32 {
    type Primitive = u32;

    const SIZE: Option<usize> = Some(4);

    ghost SIZE = { Some 4 };

    ghost form = { number 4 };

    #[inline(always)]
    fn deserialize<'s>(buf: &mut ParseBuf<'_>) -> Result<u32, FaultOf<'s>> {
        Ok(Self::take(buf))
    }

    ghost written = { le_bytes 4 };

    #[inline(always)]
    #[tactic(auto, unfolding(crate::specs::Writing::le_bytes))]
    fn written_len(_value: u32) -> usize {
        4
    }

    #[inline(always)]
    #[tactic(auto, using(crate::proofs::After::after), unfolding(crate::specs::Writing::le_bytes))]
    fn append<O: Buffer>(value: u32, out: &mut O) {
        let [b0, b1, b2, b3] = value.to_le_bytes();
        out.push_byte(b0);
        out.push_byte(b1);
        out.push_byte(b2);
        out.push_byte(b3);
    }

    ghost size_is = { size-number 4 };
}

impl FixedInt for LeU32 {
    ghost width = { 4 };

    #[inline(always)]
    #[tactic(auto, using(crate::proofs::Numbers::numbers))]
    fn take(buf: &mut ParseBuf<'_>) -> u32 {
        u32::from_le_bytes(buf.eat_array())
    }
}

/// A number of 24 bits, held in a `u32`: three bytes, little-endian (`int<3>`).
///
/// Only the low 24 bits of a larger number are written.
#[derive(Clone, Copy, Debug)]
pub struct LeU24;

impl IntRepr for LeU24 {
    type Primitive = u32;

    const SIZE: Option<usize> = Some(3);

    ghost SIZE = { Some 3 };

    ghost form = { number 3 };

    #[inline(always)]
    fn deserialize<'s>(buf: &mut ParseBuf<'_>) -> Result<u32, FaultOf<'s>> {
        Ok(Self::take(buf))
    }

    ghost written = { le_bytes 3 };

    #[inline(always)]
    #[tactic(auto, unfolding(crate::specs::Writing::le_bytes))]
    fn written_len(_value: u32) -> usize {
        3
    }

    #[inline(always)]
    #[tactic(auto, using(crate::proofs::After::after), unfolding(crate::specs::Writing::le_bytes))]
    fn append<O: Buffer>(value: u32, out: &mut O) {
        let [low, middle, high, _top] = value.to_le_bytes();
        out.push_byte(low);
        out.push_byte(middle);
        out.push_byte(high);
    }

    ghost size_is = { size-number 3 };
}

impl FixedInt for LeU24 {
    ghost width = { 3 };

    #[inline(always)]
    #[tactic(auto, using(crate::proofs::Numbers::numbers))]
    fn take(buf: &mut ParseBuf<'_>) -> u32 {
        let [low, middle, high] = buf.eat_array::<3>();
        u32::from_le_bytes([low, middle, high, 0])
    }
}

/// A number of 64 bits: eight bytes, little-endian (`int<8>`).
#[derive(Clone, Copy, Debug)]
pub struct LeU64;

impl IntRepr for LeU64 {
    type Primitive = u64;

    const SIZE: Option<usize> = Some(8);

    ghost SIZE = { Some 8 };

    ghost form = { number 8 };

    #[inline(always)]
    fn deserialize<'s>(buf: &mut ParseBuf<'_>) -> Result<u64, FaultOf<'s>> {
        Ok(Self::take(buf))
    }

    ghost written = { le_bytes 8 };

    #[inline(always)]
    #[tactic(auto, unfolding(crate::specs::Writing::le_bytes))]
    fn written_len(_value: u64) -> usize {
        8
    }

    #[inline(always)]
    #[tactic(auto, using(crate::proofs::After::after), unfolding(crate::specs::Writing::le_bytes))]
    fn append<O: Buffer>(value: u64, out: &mut O) {
        let [b0, b1, b2, b3, b4, b5, b6, b7] = value.to_le_bytes();
        out.push_byte(b0);
        out.push_byte(b1);
        out.push_byte(b2);
        out.push_byte(b3);
        out.push_byte(b4);
        out.push_byte(b5);
        out.push_byte(b6);
        out.push_byte(b7);
    }

    ghost size_is = { size-number 8 };
}

impl FixedInt for LeU64 {
    ghost width = { 8 };

    #[inline(always)]
    #[tactic(auto, using(crate::proofs::Numbers::numbers))]
    fn take(buf: &mut ParseBuf<'_>) -> u64 {
        u64::from_le_bytes(buf.eat_array())
    }
}

/// A byte (`int<1>`).
impl IntRepr for u8 {
    type Primitive = u8;

    const SIZE: Option<usize> = Some(1);

    ghost SIZE = { Some 1 };

    ghost form = { number 1 };

    #[inline(always)]
    fn deserialize<'s>(buf: &mut ParseBuf<'_>) -> Result<u8, FaultOf<'s>> {
        Ok(Self::take(buf))
    }

    ghost written = { le_bytes 1 };

    #[inline(always)]
    #[tactic(auto, unfolding(crate::specs::Writing::le_bytes))]
    fn written_len(_value: u8) -> usize {
        1
    }

    #[inline(always)]
    #[tactic(auto, using(crate::proofs::After::after), unfolding(crate::specs::Writing::le_bytes))]
    fn append<O: Buffer>(value: u8, out: &mut O) {
        out.push_byte(value);
    }

    ghost size_is = { size-number 1 };
}

impl FixedInt for u8 {
    ghost width = { 1 };

    #[inline(always)]
    #[tactic(auto, using(crate::proofs::Numbers::numbers))]
    fn take(buf: &mut ParseBuf<'_>) -> u8 {
        buf.eat(1)[0]
    }
}
