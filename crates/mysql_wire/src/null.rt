//! Byte strings that end in a zero.

ghost use Rattle.std.specs.Prelude.{false, ◌≡◌, ◌<◌, ◌≤◌, ⊤, length, MatchOption};
ghost use Rattle.mysql_wire.specs.Null.{HasNoZero};

use crate::buf::ParseBuf;
use crate::buffer::Buffer;
use crate::bytes::BytesRepr;
use crate::fault::FaultOf;
use memchr::memchr;

/// The bytes up to a zero (`string<NUL>`), which is taken too. Bytes without a zero are `UnexpectedEof`.
///
/// A content is written up to its first zero, and then a zero.
///
/// ```
/// let number: RawInt<LeU32> = buf.parse(())?;
/// let text: RawBytes<'a, NullBytes> = buf.parse(())?;
/// Ok((number.0, text))
/// ```
#[derive(Clone, Copy, Debug)]
pub struct NullBytes;

impl BytesRepr for NullBytes {
    type Ctx = ();

    ghost use Rattle.mysql_wire.specs.Null.{before_zero, null_string, size-null_string};

    ghost form = { λ _. null_string };

    #[inline(always)]
    #[tactic(auto, using(crate::proofs::Zeros::null_strings))]
    fn deserialize<'s, 'de>(
        _ctx: (),
        buf: &mut ParseBuf<'de>,
    ) -> Result<ParseBuf<'de>, FaultOf<'s>> {
        let content = buf.eat_null_str().ok_or(FaultOf::UnexpectedEof)?;
        Ok(ParseBuf::new(buf.alloc(), content))
    }

    ghost kept = { before_zero };

    #[inline(always)]
    #[tactic(auto, using(crate::proofs::Zeros::befores))]
    fn kept(content: &[u8]) -> &[u8] {
        if content.len() < 64 && !has_zero(content) {
            return content;
        }
        match memchr(0, content) {
            Some(n) => &content[..n],
            None => content,
        }
    }

    ghost use Rattle.mysql_wire.specs.Null.{null_bytes};

    ghost written = { null_bytes };

    #[inline(always)]
    #[tactic(auto, unfolding(crate::specs::Writing::saturated))]
    fn written_len(content: &[u8]) -> usize {
        Self::kept(content).len().saturating_add(1)
    }

    #[inline(always)]
    #[tactic(auto, using(crate::proofs::After::after), unfolding(crate::specs::Null::null_bytes))]
    fn append<O: Buffer>(content: &[u8], out: &mut O) {
        out.push_bytes(Self::kept(content));
        out.push_byte(0);
    }

    ghost size_is = { λ _. size-null_string };
}

/// Whether some byte is a zero. For short texts, such as names and versions, it takes fewer instructions than `memchr`.
fn has_zero(bytes: &[u8]) -> bool
    ensures none { result ≡ false → HasNoZero bytes.now }
{
    let Some(rest) = after_chunks::<16>(bytes) else {
        return true;
    };
    let Some(rest) = after_chunks::<4>(rest) else {
        return true;
    };
    after_chunks::<1>(rest).is_none()
}

/// The bytes after all chunks of `N` at the front, or `None` if a chunk has a zero.
#[inline(always)]
fn after_chunks<const N: usize>(bytes: &[u8]) -> Option<&[u8]>
    requires some { 0 < N }
    requires few { N ≤ 16 }
    ensures rest { MatchOption result ⊤ (λ rest. (length rest.now < N) × (HasNoZero rest.now → HasNoZero bytes.now)) }
{
    let mut rest = bytes;
    while let Some((front, after)) = rest.split_first_chunk::<N>() {
        if chunk_has_zero(front) {
            return None;
        }
        rest = after;
    }
    Some(rest)
}

/// Whether a byte of a chunk is zero. It tests every byte, so that the compiler compares all of them at once.
#[inline(always)]
fn chunk_has_zero<const N: usize>(chunk: &[u8; N]) -> bool
    requires few { N ≤ 16 }
    ensures none { result ≡ false → HasNoZero chunk.now }
{
    let mut found = false;
    for byte in chunk {
        found |= *byte == 0;
    }
    found
}
