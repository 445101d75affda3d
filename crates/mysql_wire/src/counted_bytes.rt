//! Byte strings after a count of a fixed width.

ghost use Rattle.std.specs.Prelude.{take};

use crate::bare::first_bytes;
use crate::buf::ParseBuf;
use crate::buffer::Buffer;
use crate::bytes::BytesRepr;
use crate::fault::FaultOf;
use crate::int::{IntRepr, RawInt};
use crate::little_endian::LeU32;

/// A byte string after a count of one byte. Fewer bytes than the count are `UnexpectedEof`.
///
/// At most the first 255 bytes are written.
#[derive(Clone, Copy, Debug)]
pub struct U8Bytes;

impl BytesRepr for U8Bytes {
    type Ctx = ();

    ghost use Rattle.mysql_wire.specs.Int.{byte};
    ghost use Rattle.mysql_wire.specs.CountedBytes.{u8_string, size-counted_bytes};

    ghost form = { λ _. u8_string };

    #[inline(always)]
    #[tactic(auto, using(crate::proofs::Tails::tails), unfolding(crate::specs::CountedBytes::counted_bytes))]
    fn deserialize<'s, 'de>(
        _ctx: (),
        buf: &mut ParseBuf<'de>,
    ) -> Result<ParseBuf<'de>, FaultOf<'s>> {
        let count: RawInt<u8> = buf.parse(())?;
        buf.parse(usize::from(count.0))
    }

    ghost use Rattle.mysql_wire.specs.CountedBytes.{u8_string_bytes};

    ghost kept = { take 255 };

    #[inline(always)]
    fn kept(content: &[u8]) -> &[u8] {
        first_bytes(content, u8::MAX as usize)
    }

    ghost written = { u8_string_bytes };

    #[inline(always)]
    #[tactic(auto, using(crate::proofs::CountedBytes::cuts), unfolding(crate::specs::Writing::saturated, crate::specs::Writing::le_bytes, crate::specs::CountedBytes::counted_bytes_of))]
    fn written_len(content: &[u8]) -> usize {
        1 + Self::kept(content).len()
    }

    #[inline(always)]
    #[tactic(auto, using(crate::proofs::After::after), unfolding(crate::specs::CountedBytes::counted_bytes_of))]
    fn append<O: Buffer>(content: &[u8], out: &mut O) {
        let kept = first_bytes(content, u8::MAX as usize);
        <u8 as IntRepr>::append(kept.len() as u8, out);
        out.push_bytes(kept);
    }

    ghost size_is = { λ _. size-counted_bytes byte };
}

/// A byte string after a count of four bytes, little-endian. Fewer bytes than the count are `UnexpectedEof`.
///
/// At most the first 4,294,967,295 bytes are written.
#[derive(Clone, Copy, Debug)]
pub struct U32Bytes;

impl BytesRepr for U32Bytes {
    type Ctx = ();

    ghost use Rattle.mysql_wire.specs.Int.{le_u32};
    ghost use Rattle.mysql_wire.specs.CountedBytes.{u32_string, size-counted_bytes};

    ghost form = { λ _. u32_string };

    #[inline(always)]
    #[tactic(auto, using(crate::proofs::Tails::tails), unfolding(crate::specs::CountedBytes::counted_bytes))]
    fn deserialize<'s, 'de>(
        _ctx: (),
        buf: &mut ParseBuf<'de>,
    ) -> Result<ParseBuf<'de>, FaultOf<'s>> {
        let count: RawInt<LeU32> = buf.parse(())?;
        buf.parse(count.0 as usize)
    }

    ghost use Rattle.mysql_wire.specs.CountedBytes.{u32_string_bytes};

    ghost kept = { take 4294967295 };

    #[inline(always)]
    fn kept(content: &[u8]) -> &[u8] {
        first_bytes(content, u32::MAX as usize)
    }

    ghost written = { u32_string_bytes };

    #[inline(always)]
    #[tactic(auto, using(crate::proofs::CountedBytes::cuts), unfolding(crate::specs::Writing::saturated, crate::specs::Writing::le_bytes, crate::specs::CountedBytes::counted_bytes_of))]
    fn written_len(content: &[u8]) -> usize {
        4 + Self::kept(content).len()
    }

    #[inline(always)]
    #[tactic(auto, using(crate::proofs::After::after), unfolding(crate::specs::CountedBytes::counted_bytes_of))]
    fn append<O: Buffer>(content: &[u8], out: &mut O) {
        let kept = first_bytes(content, u32::MAX as usize);
        <LeU32 as IntRepr>::append(kept.len() as u32, out);
        out.push_bytes(kept);
    }

    ghost size_is = { λ _. size-counted_bytes le_u32 };
}
