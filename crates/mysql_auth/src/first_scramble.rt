//! The first scramble of a handshake, borrowed from the packet.

ghost use Rattle.std.proofs.Common.{rules};
ghost use Rattle.std.specs.Cmp.Lexicographic.{pointwise};
ghost use Rattle.std.specs.Cmp.Rules.{comparing};
ghost use Rattle.std.specs.Prelude.{◌+◌, ◌≡◌, ◌≤◌, length, nat_eq, Ok, ⊤};
ghost use Rattle.mysql_wire.specs.Form.{bytes};

use mysql_wire::ParseBuf;
use std::alloc::AllocError;
use std::fmt;
use std::fmt::Debug;
use std::marker::Model;

/// The first scramble of a handshake, borrowed from the packet. In a clause it is its eight bytes.
#[derive(Drop)]
pub struct FirstScramble<'a> {
    bytes: &'a [u8; 8],
}

impl<'a> Model for FirstScramble<'a> {
    ghost use Rattle.std.specs.Prelude.{ℕ, List};

    ghost Value = { List ℕ };

    ghost view = { λ s. s.bytes.now };
}

impl<'a> FirstScramble<'a> {
    /// Takes the next eight bytes, which must remain in the buffer.
    #[inline]
    #[tactic(auto, using(mysql_wire::proofs::Arrays::arrays))]
    pub(crate) fn eat(buf: &mut ParseBuf<'a>) -> FirstScramble<'a>
        requires { 8 ≤ length buf.old }
        ensures value { (bytes 8).reads buf.old ≡ Ok (result, buf.new) }
        ensures exact { length buf.old ≡ 8 + length buf.new }
    {
        FirstScramble {
            bytes: <&[u8; 8]>::try_from(buf.eat(8)).unwrap(),
        }
    }

    /// The eight bytes, for as long as the packet lives.
    #[inline]
    pub(crate) fn as_array(&self) -> &'a [u8; 8]
        ensures value { result.now ≡ self.now }
    {
        self.bytes
    }
}

impl Clone for FirstScramble<'_> {
    ghost is_clone = { λ s copy. copy ≡ s };

    ghost is_infallible = { λ _. ⊤ };

    fn clone(&self) -> Result<Self, AllocError> {
        Ok(FirstScramble { bytes: self.bytes })
    }
}

impl PartialEq for FirstScramble<'_> {
    ghost eq = { pointwise nat_eq };

    ghost laws = { Prim.search (comparing, rules) };

    fn eq(&self, other: &Self) -> bool {
        self.bytes == other.bytes
    }
}

impl Eq for FirstScramble<'_> {
    ghost laws = { Prim.search (comparing, rules) };
}

impl Debug for FirstScramble<'_> {
    fn fmt<W: fmt::Write>(&self, f: &mut fmt::Formatter<W>) -> fmt::Result {
        self.bytes.fmt(f)
    }
}
