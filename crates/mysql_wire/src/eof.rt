//! Byte strings that run to the end of the packet.

ghost use Rattle.std.specs.Prelude.{refl};

use crate::buf::ParseBuf;
use crate::buffer::Buffer;
use crate::bytes::BytesRepr;
use crate::fault::FaultOf;

/// All remaining bytes (`string<EOF>`). The whole content is written.
#[derive(Clone, Copy, Debug)]
pub struct EofBytes;

impl BytesRepr for EofBytes {
    type Ctx = ();

    ghost use Rattle.mysql_wire.specs.Form.{all_left};

    ghost form = { λ _. all_left };

    #[inline(always)]
    fn deserialize<'s, 'de>(
        _ctx: (),
        buf: &mut ParseBuf<'de>,
    ) -> Result<ParseBuf<'de>, FaultOf<'s>> {
        Ok(ParseBuf::new(buf.alloc(), buf.eat_all()))
    }

    ghost kept = { λ content. content };

    #[inline(always)]
    fn kept(content: &[u8]) -> &[u8] {
        content
    }

    ghost written = { λ content. content };

    #[inline(always)]
    #[tactic(auto, unfolding(crate::specs::Writing::saturated))]
    fn written_len(content: &[u8]) -> usize {
        content.len()
    }

    #[inline(always)]
    #[tactic(auto, using(crate::proofs::After::after))]
    fn append<O: Buffer>(content: &[u8], out: &mut O) {
        out.push_bytes(content);
    }

    ghost size_is = { λ _. refl };
}
