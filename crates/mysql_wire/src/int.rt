//! Integers of fixed widths.

ghost use Rattle.std.specs.Prelude.{false, ◌≡◌, ◌+◌, ◌++◌, ◌≤◌, length, drop, List, ℕ, Ok, Option, OnErr};
ghost use Rattle.mysql_wire.specs.Form.{Form};
ghost use Rattle.mysql_wire.specs.Reading.{Answers, IsTail, HasBytes};

use crate::buf::ParseBuf;
use crate::buffer::Buffer;
use crate::fault::FaultOf;
use crate::proto::{MyDeserialize, MySerialize, Width};
use std::fmt::{self, Debug};
use std::hash::Hash;
use std::marker::PhantomData;

/// The encoding of an integer: a marker for [`RawInt`].
pub trait IntRepr {
    /// The type of the number.
    type Primitive: Copy + Eq + Hash + Debug;

    /// The number of bytes that each number takes, if that is constant.
    const SIZE: Option<usize>;

    ghost SIZE: { Option ℕ };

    /// The grammar of a number.
    ghost form: { Form Self.Primitive };

    /// Reads a number from the front. If the encoding has a constant size, the caller ensures that this many bytes are left.
    fn deserialize<'s>(buf: &mut ParseBuf<'_>) -> Result<Self::Primitive, FaultOf<'s>>
        requires { HasBytes SIZE buf.old }
        ensures value { Answers false result buf.new (form.reads buf.old) }
        ensures tail { OnErr result (IsTail buf.new buf.old) };

    /// The bytes that a number is written as.
    ghost written: { Self.Primitive → List ℕ };

    /// The encoded length of the number.
    fn written_len(value: Self::Primitive) -> usize
        ensures { result ≡ length (written value) };

    /// Writes the number to the end of a buffer that has capacity.
    fn append<O: Buffer>(value: Self::Primitive, out: &mut O)
        requires { length (O.held out.old) + length (written value) ≤ O.capacity out.old }
        ensures items { O.held out.new ≡ O.held out.old ++ written value }
        ensures after { O.after out.new ≡ drop (length (written value)) (O.after out.old) }
        ensures capacity { O.capacity out.old ≤ O.capacity out.new }
        ensures kept { O.kept out.new ≡ O.kept out.old };

    /// The form has that size.
    ghost size_is: { form.size ≡ SIZE };
}

/// An integer of a fixed width. All bytes are valid, so reading fails only if bytes are missing.
pub trait FixedInt: IntRepr {
    /// The width in bytes.
    ghost width: { ℕ };

    /// Takes the number off the front.
    fn take(buf: &mut ParseBuf<'_>) -> Self::Primitive
        requires { width ≤ length buf.old }
        ensures value { Self.form.reads buf.old ≡ Ok (result, buf.new) }
        ensures exact { length buf.old ≡ width + length buf.new };
}

/// An integer in its wire form, as the marker `R` says: `RawInt<LeU32>`, `RawInt<LenEnc>`.
///
/// The number is field 0.
///
/// ```
/// let number: RawInt<LeU32> = buf.parse(())?;
/// let text: RawBytes<'a, NullBytes> = buf.parse(())?;
/// Ok((number.0, text))
/// ```
#[derive(Drop)]
#[derive_where(Clone, PartialEq, Eq, Hash)]
pub struct RawInt<R: IntRepr>(pub R::Primitive, PhantomData<R>);

/// Prints the number.
impl<R: IntRepr> Debug for RawInt<R> {
    fn fmt<W: fmt::Write>(&self, f: &mut fmt::Formatter<W>) -> fmt::Result {
        self.0.fmt(f)
    }
}

impl<R: IntRepr> RawInt<R> {
    /// Wraps a number, to be written in the form `R`.
    #[inline(always)]
    pub fn new(value: R::Primitive) -> Self
        ensures { result.0 ≡ value }
    {
        RawInt(value, PhantomData)
    }
}

impl<R: FixedInt> RawInt<R> {
    ghost use Rattle.mysql_wire.specs.Int.{raw};

    /// Takes the integer off the front. Its bytes must remain in the buffer.
    #[inline(always)]
    #[tactic(auto, unfolding(crate::specs::Int::raw))]
    pub fn take(buf: &mut ParseBuf<'_>) -> Self
        requires { R.width ≤ length buf.old }
        ensures value { (raw R.form).reads buf.old ≡ Ok (result, buf.new) }
        ensures exact { length buf.old ≡ R.width + length buf.new }
    {
        RawInt::new(R::take(buf))
    }
}

/// The width of an integer's form, as a type.
pub struct IntWidth<R>(PhantomData<R>);

impl<R: IntRepr> Width for IntWidth<R> {
    ghost SIZE = { R.SIZE };

    const SIZE: Option<usize> = R::SIZE;
}

impl<'de, R: IntRepr> MyDeserialize<'de> for RawInt<R> {
    const SIZE: Option<usize> = R::SIZE;

    type Size = IntWidth<R>;

    type Ctx = ();

    ghost use Rattle.mysql_wire.specs.Int.{raw, size-raw};

    ghost form = { λ _. raw R.form };

    #[inline(always)]
    #[tactic(auto, unfolding(crate::specs::Int::raw))]
    fn deserialize<'s>(_ctx: (), buf: &mut ParseBuf<'de>) -> Result<Self, FaultOf<'s>> {
        Ok(RawInt::new(R::deserialize(buf)?))
    }

    ghost size_is = { λ _. size-raw _ R.form R.SIZE R.size_is };
}

impl<R: IntRepr> MySerialize for RawInt<R> {
    ghost bytes = { λ n. R.written n.0 };

    #[inline(always)]
    #[tactic(auto, unfolding(crate::specs::Writing::saturated))]
    fn defined_len(&self) -> usize {
        R::written_len(self.0)
    }

    #[inline(always)]
    #[tactic(auto, using(crate::proofs::After::after))]
    fn append<O: Buffer>(&self, out: &mut O) {
        R::append(self.0, out)
    }
}
