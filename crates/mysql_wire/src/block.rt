//! A block of a given number of bytes: its fields are read from these bytes only.

ghost use Rattle.std.specs.Prelude.{false, ◌≡◌, refl};
ghost use Rattle.mysql_wire.specs.Form.{bytes};

use crate::buf::ParseBuf;
use crate::fault::FaultOf;
use crate::proto::{AnyWidth, MyDeserialize};

/// A block of `n` bytes, where `n` is the context: a buffer over these bytes only.
///
/// Fewer bytes are `UnexpectedEof`, before any field of the block is read.
impl<'de> MyDeserialize<'de> for ParseBuf<'de> {
    const SIZE: Option<usize> = None;

    type Size = AnyWidth;

    type Ctx = usize;

    ghost use Rattle.mysql_wire.specs.Form.{unsized};

    ghost form = { λ n. unsized (bytes n) };

    #[inline(always)]
    #[tactic(auto, unfolding(crate::specs::Form::bytes))]
    fn deserialize<'s>(n: usize, buf: &mut ParseBuf<'de>) -> Result<Self, FaultOf<'s>> {
        let front = buf.checked_eat(n).ok_or(FaultOf::UnexpectedEof)?;
        Ok(ParseBuf::new(buf.alloc(), front))
    }

    ghost size_is = { λ _. refl };
}

/// A block has no constant size.
pub fn block_has_no_constant_size() -> Option<usize>
    ensures { result ≡ None }
{
    <ParseBuf as MyDeserialize>::SIZE
}
