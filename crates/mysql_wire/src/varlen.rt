//! Numbers of variable length, and byte strings with such a length.

ghost use Rattle.std.specs.Prelude.{false, ◌≡◌, ◌+◌, ◌-◌, ◌*◌, ◌^◌, ◌++◌, ◌<◌, ◌≤◌, length, None, OnOk, OnErr, IsOk, vec_len, vec_capacity};
ghost use Rattle.mysql_wire.specs.Reading.{Answers};
ghost use Rattle.mysql_wire.specs.Varlen.{varlen, varlen_bytes, varlen_size, size-varlen, varlen_string, varlen_string_bytes, size-varlen_string};

use crate::buf::ParseBuf;
use crate::buffer::Buffer;
use crate::bytes::BytesRepr;
use crate::fault::FaultOf;
use crate::int::{IntRepr, RawInt};
use crate::little_endian::LeU64;
use crate::proto::MySerialize;
use std::alloc::AllocError;

/// A number of variable length: the first byte's trailing one bits count the bytes that follow; the number's
/// low bits are above them, after a zero bit. The byte `ff` is followed by a number of eight bytes,
/// little-endian.
///
/// A byte string is the length of its content in this form, and then the content.
#[derive(Clone, Copy, Debug)]
pub struct VarLen;

impl IntRepr for VarLen {
    type Primitive = u64;

    const SIZE: Option<usize> = None;

    ghost SIZE = { None };

    ghost form = { varlen };

    fn deserialize<'s>(buf: &mut ParseBuf<'_>) -> Result<u64, FaultOf<'s>> {
        read_varlen_uint(buf)
    }

    ghost written = { varlen_bytes };

    #[inline]
    fn written_len(value: u64) -> usize {
        varlen_uint_size(value)
    }

    #[tactic(auto, using(crate::proofs::After::after, crate::proofs::Varlens::writing))]
    fn append<O: Buffer>(value: u64, out: &mut O) {
        let size = varlen_uint_size(value);
        if size == 9 {
            out.push_byte(0xff);
            <LeU64 as IntRepr>::append(value, out);
        } else {
            let word = above_ones(value, size);
            out.push_bytes(&word.to_le_bytes()[..size]);
        }
    }

    ghost size_is = { size-varlen };
}

impl BytesRepr for VarLen {
    type Ctx = ();

    ghost form = { λ _. varlen_string };

    #[tactic(auto, using(crate::proofs::Tails::tails), unfolding(crate::specs::Varlen::varlen_string))]
    fn deserialize<'s, 'de>(
        _ctx: (),
        buf: &mut ParseBuf<'de>,
    ) -> Result<ParseBuf<'de>, FaultOf<'s>> {
        let mut rest = buf.rest();
        let length = read_varlen_uint(&mut rest)?;
        let content = rest.parse(length as usize)?;
        *buf = rest;
        Ok(content)
    }

    ghost kept = { λ content. content };

    fn kept(content: &[u8]) -> &[u8] {
        content
    }

    ghost written = { varlen_string_bytes };

    #[tactic(auto, using(crate::specs::Writing::lengths), unfolding(crate::specs::Writing::saturated))]
    fn written_len(content: &[u8]) -> usize {
        varlen_uint_size(content.len() as u64).saturating_add(content.len())
    }

    #[tactic(auto, using(crate::proofs::After::after))]
    fn append<O: Buffer>(content: &[u8], out: &mut O) {
        <VarLen as IntRepr>::append(content.len() as u64, out);
        out.push_bytes(content);
    }

    ghost size_is = { λ _. size-varlen_string };
}

/// The number in the first byte, above the zero bit and the one bits, which count the bytes that follow.
#[inline]
fn above_ones(value: u64, size: usize) -> u64
    requires some { 0 < size }
    requires most { size ≤ 8 }
    requires fits { value < 2 ^ (7 * size) }
    ensures { result ≡ value * 2 ^ size + (2 ^ (size - 1) - 1) }
{
    (value << size) + ((1 << (size - 1)) - 1)
}

/// Reads a number of variable length. A spelling that is longer than the shortest is read too.
///
/// Missing bytes are `UnexpectedEof`, and the buffer is then unchanged.
#[tactic(auto, using(crate::proofs::Varlens::reading))]
pub fn read_varlen_uint<'s>(buf: &mut ParseBuf<'_>) -> Result<u64, FaultOf<'s>>
    ensures value { Answers false result buf.new (varlen.reads buf.old) }
    ensures err { OnErr result (buf.new ≡ buf.old) }
{
    let mut rest = buf.rest();
    let Some(first) = rest.checked_eat_u8() else {
        return Err(FaultOf::UnexpectedEof);
    };
    if first == 0xff {
        let number: RawInt<LeU64> = rest.parse(())?;
        *buf = rest;
        return Ok(number.0);
    }
    let size = first.trailing_ones() as usize + 1;
    let Some(front) = buf.checked_eat(size) else {
        return Err(FaultOf::UnexpectedEof);
    };
    let mut bytes = [0; 8];
    bytes[..size].copy_from_slice(front);
    Ok(u64::from_le_bytes(bytes) >> size)
}

/// Appends a number in the fewest bytes, each of which adds seven bits; a number that doesn't fit in eight such
/// bytes is written as `ff` and eight bytes. It reserves at most once.
///
/// If that allocation fails, the buffer is unchanged. It takes no memory, and can't fail, if the buffer has
/// enough capacity.
pub fn write_varlen_uint(out: &mut Vec<u8>, value: u64) -> Result<(), AllocError>
    ensures ok { OnOk result (out.new.items ≡ out.old.items ++ varlen_bytes value) }
    ensures err { OnErr result (out.new.items ≡ out.old.items) }
    ensures no_memory { vec_len out.old + length (varlen_bytes value) ≤ vec_capacity out.old → IsOk result }
{
    RawInt::<VarLen>::new(value).serialize(out)
}

/// The encoded length of a number: 1 to 9 bytes.
#[tactic(auto, using(crate::proofs::Varlens::sizes), unfolding(crate::specs::Varlen::varlen_size))]
pub fn varlen_uint_size(value: u64) -> usize
    ensures value { result ≡ varlen_size value }
    ensures len { result ≡ length (varlen_bytes value) }
{
    match value {
        0..0x80 => 1,
        0x80..0x4000 => 2,
        0x4000..0x20_0000 => 3,
        0x20_0000..0x1000_0000 => 4,
        0x1000_0000..0x8_0000_0000 => 5,
        0x8_0000_0000..0x400_0000_0000 => 6,
        0x400_0000_0000..0x2_0000_0000_0000 => 7,
        0x2_0000_0000_0000..0x100_0000_0000_0000 => 8,
        _ => 9,
    }
}
