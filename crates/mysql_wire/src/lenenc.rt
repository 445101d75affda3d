//! Length-encoded integers and byte strings.

ghost use Rattle.std.specs.Prelude.{None};

use crate::buf::ParseBuf;
use crate::buffer::Buffer;
use crate::bytes::BytesRepr;
use crate::fault::FaultOf;
use crate::int::{IntRepr, RawInt};
use crate::little_endian::{LeU16, LeU24, LeU64};

/// The length-encoded form, of integers (`int<lenenc>`) and of byte strings (`string<lenenc>`).
///
/// An integer is one byte up to `fa`; or `fc`, `fd` or `fe` and a number of 2, 3 or 8 bytes after it,
/// little-endian. A longer spelling than needed is read too; `fb` and `ff` are `InvalidData`. The shortest
/// spelling is written.
///
/// A byte string is the length-encoded length of its content, and then the content.
///
/// ```
/// let count: RawInt<LenEnc> = RawInt::new(count);
/// Ok(count.serialize(out)?)
/// ```
#[derive(Clone, Copy, Debug)]
pub struct LenEnc;

impl IntRepr for LenEnc {
    type Primitive = u64;

    const SIZE: Option<usize> = None;

    ghost SIZE = { None };

    ghost use Rattle.mysql_wire.specs.LenEnc.{lenenc, size-lenenc};

    ghost form = { lenenc };

    #[inline(always)]
    #[tactic(auto, using(crate::proofs::Tails::tails), unfolding(crate::specs::LenEnc::lenenc))]
    fn deserialize<'s>(buf: &mut ParseBuf<'_>) -> Result<u64, FaultOf<'s>> {
        let first: RawInt<u8> = buf.parse(())?;
        if first.0 <= 250 {
            return Ok(u64::from(first.0));
        }
        match first.0 {
            252 => {
                let number: RawInt<LeU16> = buf.parse(())?;
                Ok(u64::from(number.0))
            }
            253 => {
                let number: RawInt<LeU24> = buf.parse(())?;
                Ok(u64::from(number.0))
            }
            254 => {
                let number: RawInt<LeU64> = buf.parse(())?;
                Ok(number.0)
            }
            _ => Err(FaultOf::InvalidData("Invalid length-encoded integer")),
        }
    }

    ghost use Rattle.mysql_wire.specs.LenEnc.{lenenc_bytes};

    ghost written = { lenenc_bytes };

    #[inline(always)]
    #[tactic(auto, unfolding(crate::specs::Writing::le_bytes, crate::specs::LenEnc::lenenc_bytes))]
    fn written_len(value: u64) -> usize {
        match value {
            0..251 => 1,
            251..0x1_0000 => 3,
            0x1_0000..0x100_0000 => 4,
            _ => 9,
        }
    }

    #[inline(always)]
    #[tactic(auto, using(crate::proofs::After::after), unfolding(crate::specs::Writing::le_bytes, crate::specs::LenEnc::lenenc_bytes))]
    fn append<O: Buffer>(value: u64, out: &mut O) {
        match value {
            0..251 => out.push_byte(value as u8),
            251..0x1_0000 => {
                out.push_byte(252);
                <LeU16 as IntRepr>::append(value as u16, out);
            }
            0x1_0000..0x100_0000 => {
                out.push_byte(253);
                <LeU24 as IntRepr>::append(value as u32, out);
            }
            _ => {
                out.push_byte(254);
                <LeU64 as IntRepr>::append(value, out);
            }
        }
    }

    ghost size_is = { size-lenenc };
}

impl BytesRepr for LenEnc {
    type Ctx = ();

    ghost use Rattle.mysql_wire.specs.LenEnc.{lenenc_string, size-lenenc_string};

    ghost form = { λ _. lenenc_string };

    #[inline(always)]
    #[tactic(auto, using(crate::proofs::Tails::tails), unfolding(crate::specs::LenEnc::lenenc_string))]
    fn deserialize<'s, 'de>(
        _ctx: (),
        buf: &mut ParseBuf<'de>,
    ) -> Result<ParseBuf<'de>, FaultOf<'s>> {
        let length: RawInt<LenEnc> = buf.parse(())?;
        buf.parse(length.0 as usize)
    }

    ghost use Rattle.mysql_wire.specs.LenEnc.{lenenc_string_bytes};

    ghost kept = { λ content. content };

    fn kept(content: &[u8]) -> &[u8] {
        content
    }

    ghost written = { lenenc_string_bytes };

    #[inline(always)]
    #[tactic(auto, unfolding(crate::specs::Writing::saturated, crate::specs::LenEnc::lenenc_string_bytes, crate::specs::LenEnc::lenenc_bytes, crate::specs::Writing::le_bytes))]
    fn written_len(content: &[u8]) -> usize {
        <LenEnc as IntRepr>::written_len(content.len() as u64) + content.len()
    }

    #[inline(always)]
    #[tactic(auto, using(crate::proofs::After::after), unfolding(crate::specs::LenEnc::lenenc_string_bytes))]
    fn append<O: Buffer>(content: &[u8], out: &mut O) {
        <LenEnc as IntRepr>::append(content.len() as u64, out);
        out.push_bytes(content);
    }

    ghost size_is = { λ _. size-lenenc_string };
}
