//! Flag words and coded values in their wire form.

ghost use Rattle.std.specs.Prelude.{false, ◌≡◌, Option, Some};

use crate::buf::ParseBuf;
use crate::buffer::Buffer;
use crate::fault::FaultOf;
use crate::int::{IntRepr, IntWidth};
use crate::proto::{MyDeserialize, MySerialize};
use std::fmt::{self, Debug};
use std::marker::PhantomData;

/// A value that is encoded as an integer of type `P`: a flag word or a code.
pub trait ConstValue<P>: Sized {
    /// The integer of a value.
    ghost code: { Self → P };

    /// The value of an integer, if there is one.
    ghost of_code: { P → Option Self };

    /// The text of the `InvalidData` for an integer that has no value.
    const MESSAGE: &'static str;

    /// Returns the integer of this value.
    fn code(&self) -> P
        ensures { result ≡ code self.now };

    /// Returns the value of an integer, if there is one.
    fn from_code(number: P) -> Option<Self>
        ensures { result ≡ of_code number };

    /// Converting a value to its integer and back gives the same value.
    ghost read_back: { (value : Self) → of_code (code value) ≡ Some value };
}

/// A flag word or a code, encoded as the integer type `U`: `Const<StatusFlags, LeU16>`, `Const<ColumnType, u8>`.
///
/// The value is field 0. An integer that is no value of `T` is `InvalidData` with the text of `T`; missing
/// bytes are `UnexpectedEof`.
#[derive_where(Clone, Copy, PartialEq, Eq, Hash, Default; T)]
pub struct Const<T, U>(pub T, PhantomData<U>);

/// Prints the value.
impl<T: Debug, U> Debug for Const<T, U> {
    fn fmt<W: fmt::Write>(&self, f: &mut fmt::Formatter<W>) -> fmt::Result {
        self.0.fmt(f)
    }
}

impl<T, U> Const<T, U> {
    /// Wraps a value, to be written in the form `U`.
    #[inline(always)]
    pub fn new(value: T) -> Self
        ensures { result.0 ≡ value }
    {
        Const(value, PhantomData)
    }
}

impl<'de, T: ConstValue<U::Primitive>, U: IntRepr> MyDeserialize<'de> for Const<T, U> {
    const SIZE: Option<usize> = U::SIZE;

    type Size = IntWidth<U>;

    type Ctx = ();

    ghost use Rattle.mysql_wire.specs.ConstantValue.{coded, size-coded};

    ghost form = { λ _. coded T.of_code U.form };

    #[inline(always)]
    #[tactic(auto, unfolding(crate::specs::ConstantValue::coded))]
    fn deserialize<'s>(_ctx: (), buf: &mut ParseBuf<'de>) -> Result<Self, FaultOf<'s>> {
        match T::from_code(U::deserialize(buf)?) {
            Some(value) => Ok(Const::new(value)),
            None => Err(FaultOf::InvalidData(T::MESSAGE)),
        }
    }

    ghost size_is = { λ _. size-coded _ _ T.of_code U.form U.SIZE U.size_is };
}

impl<T: ConstValue<U::Primitive>, U: IntRepr> MySerialize for Const<T, U> {
    ghost bytes = { λ c. U.written (T.code c.0) };

    #[inline(always)]
    #[tactic(auto, unfolding(crate::specs::Writing::saturated))]
    fn defined_len(&self) -> usize {
        U::written_len(self.0.code())
    }

    #[inline(always)]
    #[tactic(auto, using(crate::proofs::After::after))]
    fn append<O: Buffer>(&self, out: &mut O) {
        U::append(self.0.code(), out)
    }
}
