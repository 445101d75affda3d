//! Constant byte strings.

ghost use Rattle.std.specs.Prelude.{false, ◌≡◌, length, List, ℕ};

use crate::buf::ParseBuf;
use crate::buffer::Buffer;
use crate::constant::ConstFault;
use crate::fault::FaultOf;
use crate::proto::{Fixed, MyDeserialize, MySerialize};
use std::fmt::{self, Debug};
use std::marker::PhantomData;

/// The value of a constant byte string, and the error for any other value.
pub trait ConstBytesValue<const LEN: usize> {
    ghost VALUE: { List ℕ };

    /// The constant's bytes.
    const VALUE: [u8; LEN];

    /// The marker with the error text for other bytes.
    type Error: ConstFault;

    /// The value has the length `LEN`.
    ghost len_is: { length VALUE ≡ LEN };
}

/// A constant byte string: the `LEN` bytes of `T::VALUE`.
///
/// Other bytes are `InvalidData` with the text of the marker `T::Error`.
#[derive_where(Clone, Copy, PartialEq, Eq, Hash)]
pub struct ConstBytes<T, const LEN: usize>(PhantomData<T>);

/// Prints the type's name, since all its values are the same.
impl<T, const LEN: usize> Debug for ConstBytes<T, LEN> {
    fn fmt<W: fmt::Write>(&self, f: &mut fmt::Formatter<W>) -> fmt::Result {
        f.write_str("ConstBytes")
    }
}

impl<T, const LEN: usize> ConstBytes<T, LEN> {
    /// Creates the constant.
    #[inline(always)]
    pub fn new() -> Self {
        ConstBytes(PhantomData)
    }
}

impl<T, const LEN: usize> Default for ConstBytes<T, LEN> {
    fn default() -> Self {
        ConstBytes::new()
    }
}

impl<'de, T: ConstBytesValue<LEN>, const LEN: usize> MyDeserialize<'de> for ConstBytes<T, LEN> {
    const SIZE: Option<usize> = Some(LEN);

    type Size = Fixed<LEN>;

    type Ctx = ();

    ghost use Rattle.mysql_wire.specs.ConstBytes.{const_bytes, size-const_bytes};

    ghost form = { λ _. const_bytes LEN T.VALUE };

    #[inline(always)]
    #[tactic(auto, using(crate::proofs::Arrays::arrays), unfolding(crate::specs::ConstBytes::const_bytes))]
    fn deserialize<'s>(_ctx: (), buf: &mut ParseBuf<'de>) -> Result<Self, FaultOf<'s>> {
        let front = buf.eat(LEN);
        // (in an array, whose constant length leaves no call)
        let mut found: [u8; LEN] = [0; LEN];
        found.copy_from_slice(front);
        if found != T::VALUE {
            return Err(FaultOf::InvalidData(<T::Error as ConstFault>::MESSAGE));
        }
        Ok(ConstBytes::new())
    }

    ghost size_is = { λ _. size-const_bytes _ LEN T.VALUE };
}

impl<T: ConstBytesValue<LEN>, const LEN: usize> MySerialize for ConstBytes<T, LEN> {
    ghost bytes = { λ _. T.VALUE };

    #[inline(always)]
    #[tactic(auto, unfolding(crate::specs::Writing::saturated))]
    fn defined_len(&self) -> usize {
        LEN
    }

    #[inline(always)]
    #[tactic(auto, using(crate::proofs::After::after))]
    fn append<O: Buffer>(&self, out: &mut O) {
        out.is_in_memory();
        out.push_bytes(&T::VALUE);
    }
}
