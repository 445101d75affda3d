//! A name to the end of the packet, with an optional zero at its end.

ghost use Rattle.std.specs.Prelude.{false, ◌≡◌, ◌+◌, ◌++◌, ◌≤◌, vec_len, vec_capacity, length, List, ℕ, refl, OnErr};
ghost use Rattle.mysql_wire.specs.Writing.{saturated};
ghost use Rattle.mysql_wire.specs.Form.{Form};
ghost use Rattle.mysql_wire.specs.Reading.{Answers, IsTail};
ghost use Rattle.mysql_auth.specs.EofName.{without_last_zero};

use mysql_wire::{Buffer, BytesRepr, FaultOf, NullBytes, ParseBuf};

/// The bytes, without one zero at their end.
#[inline]
pub(crate) fn without_last_zero(bytes: &[u8]) -> &[u8]
    ensures value { result.now ≡ without_last_zero bytes.now }
{
    match bytes {
        [front @ .., 0] => front,
        _ => bytes,
    }
}

/// All remaining bytes, without one zero at their end. MySQL before 5.5.10 and 5.6.2 sent the plugin's name in
/// a handshake without its zero (bug 59453).
///
/// A content is written up to its first zero, and then a zero.
#[derive(Clone, Copy, Debug)]
pub struct EofName;

impl BytesRepr for EofName {
    type Ctx = ();

    ghost use Rattle.mysql_auth.specs.EofName.{name_left};

    ghost form = { λ _. name_left };

    fn deserialize<'s, 'de>(
        _ctx: (),
        buf: &mut ParseBuf<'de>,
    ) -> Result<ParseBuf<'de>, FaultOf<'s>> {
        let name = without_last_zero(buf.eat_all());
        Ok(ParseBuf::new(buf.alloc(), name))
    }

    ghost use Rattle.mysql_wire.specs.Null.{before_zero, null_bytes};

    ghost kept = { before_zero };

    fn kept(content: &[u8]) -> &[u8] {
        <NullBytes as BytesRepr>::kept(content)
    }

    ghost written = { null_bytes };

    fn written_len(content: &[u8]) -> usize {
        <NullBytes as BytesRepr>::written_len(content)
    }

    fn append<O: Buffer>(content: &[u8], out: &mut O) {
        <NullBytes as BytesRepr>::append(content, out)
    }

    ghost size_is = { λ _. refl };
}
