//! Constant fields.

ghost use Rattle.std.specs.Prelude.{false, [], ◌∷◌};

use crate::buf::ParseBuf;
use crate::buffer::Buffer;
use crate::fault::FaultOf;
use crate::int::RawInt;
use crate::little_endian::LeU32;
use crate::proto::{Fixed, MyDeserialize, MySerialize};
use std::fmt::{self, Debug};
use std::marker::PhantomData;

/// The marker of a constant field, with the error for any other value.
pub trait ConstFault {
    /// The text of the `InvalidData`.
    const MESSAGE: &'static str;
}

/// A constant byte, for example a packet's header.
///
/// Another byte is `InvalidData` with the text of the marker `T`.
#[derive_where(Clone, Copy, PartialEq, Eq, Hash)]
pub struct ConstU8<T, const VALUE: u8>(PhantomData<T>);

/// Prints the value.
impl<T, const VALUE: u8> Debug for ConstU8<T, VALUE> {
    fn fmt<W: fmt::Write>(&self, f: &mut fmt::Formatter<W>) -> fmt::Result {
        VALUE.fmt(f)
    }
}

impl<T, const VALUE: u8> ConstU8<T, VALUE> {
    /// Creates the constant.
    #[inline(always)]
    pub fn new() -> Self {
        ConstU8(PhantomData)
    }
}

impl<T, const VALUE: u8> Default for ConstU8<T, VALUE> {
    fn default() -> Self {
        ConstU8::new()
    }
}

impl<'de, T: ConstFault, const VALUE: u8> MyDeserialize<'de> for ConstU8<T, VALUE> {
    const SIZE: Option<usize> = Some(1);

    type Size = Fixed<1>;

    type Ctx = ();

    ghost use Rattle.mysql_wire.specs.Constant.{const_byte, size-const_byte};

    ghost form = { λ _. const_byte VALUE };

    #[inline(always)]
    #[tactic(auto, unfolding(crate::specs::Form::bytes, crate::specs::Form::number, crate::specs::Constant::const_byte))]
    fn deserialize<'s>(_ctx: (), buf: &mut ParseBuf<'de>) -> Result<Self, FaultOf<'s>> {
        if buf.checked_eat_u8() != Some(VALUE) {
            return Err(FaultOf::InvalidData(T::MESSAGE));
        }
        Ok(ConstU8::new())
    }

    ghost size_is = { λ _. size-const_byte _ VALUE };
}

impl<T, const VALUE: u8> MySerialize for ConstU8<T, VALUE> {
    ghost bytes = { λ _. VALUE ∷ [] };

    #[inline(always)]
    #[tactic(auto, unfolding(crate::specs::Writing::saturated))]
    fn defined_len(&self) -> usize {
        1
    }

    #[inline(always)]
    #[tactic(auto, using(crate::proofs::After::after))]
    fn append<O: Buffer>(&self, out: &mut O) {
        out.push_byte(VALUE);
    }
}

/// A constant number of 32 bits, in four bytes, little-endian.
///
/// Another number is `InvalidData` with the text of the marker `T`.
#[derive_where(Clone, Copy, PartialEq, Eq, Hash)]
pub struct ConstU32<T, const VALUE: u32>(PhantomData<T>);

/// Prints the value.
impl<T, const VALUE: u32> Debug for ConstU32<T, VALUE> {
    fn fmt<W: fmt::Write>(&self, f: &mut fmt::Formatter<W>) -> fmt::Result {
        VALUE.fmt(f)
    }
}

impl<T, const VALUE: u32> ConstU32<T, VALUE> {
    /// Creates the constant.
    #[inline(always)]
    pub fn new() -> Self {
        ConstU32(PhantomData)
    }
}

impl<T, const VALUE: u32> Default for ConstU32<T, VALUE> {
    fn default() -> Self {
        ConstU32::new()
    }
}

impl<'de, T: ConstFault, const VALUE: u32> MyDeserialize<'de> for ConstU32<T, VALUE> {
    const SIZE: Option<usize> = Some(4);

    type Size = Fixed<4>;

    type Ctx = ();

    ghost use Rattle.mysql_wire.specs.Constant.{const_le_u32, size-const_le_u32};

    ghost form = { λ _. const_le_u32 VALUE };

    #[inline(always)]
    #[tactic(auto, unfolding(crate::specs::Constant::const_le_u32))]
    fn deserialize<'s>(_ctx: (), buf: &mut ParseBuf<'de>) -> Result<Self, FaultOf<'s>> {
        let number: RawInt<LeU32> = buf.parse_unchecked(())?;
        if number.0 != VALUE {
            return Err(FaultOf::InvalidData(T::MESSAGE));
        }
        Ok(ConstU32::new())
    }

    ghost size_is = { λ _. size-const_le_u32 _ VALUE };
}

impl<T, const VALUE: u32> MySerialize for ConstU32<T, VALUE> {
    ghost use Rattle.mysql_wire.specs.Writing.{le_bytes};

    ghost bytes = { λ _. le_bytes 4 VALUE };

    #[inline(always)]
    #[tactic(auto, unfolding(crate::specs::Writing::saturated, crate::specs::Writing::le_bytes))]
    fn defined_len(&self) -> usize {
        4
    }

    #[inline(always)]
    #[tactic(auto, using(crate::proofs::After::after))]
    fn append<O: Buffer>(&self, out: &mut O) {
        RawInt::<LeU32>::new(VALUE).append(out);
    }
}
