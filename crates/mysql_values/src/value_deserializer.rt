//! Values read from rows and requests.

ghost use Rattle.std.specs.Int.{w32};
ghost use Rattle.std.specs.Prelude.{false, ◌≡◌, OnErr, refl};
ghost use Rattle.mysql_wire.specs.Reading.{Answers, IsTail};

use crate::value::Value;
use crate::value_kind::ValueKind;
use crate::value_ref::copied;
use crate::value_ref_reader::read_kind_ref;
use bitflags::Flags;
use mysql_wire::{
    AnyWidth, BytesRepr, ColumnFlags, ColumnType, FaultOf, LeU32, LeU64, LenEnc, MyDeserialize,
    ParseBuf, RawInt,
};
use std::marker::{Model, PhantomData};

/// The form of values in rows of text (`ProtocolText::ResultsetRow`).
#[derive(Clone, Copy, Debug)]
pub struct TextValue;

/// The form of values in binary rows and requests (`ProtocolBinary::ResultsetRow`).
#[derive(Clone, Copy, Debug)]
pub struct BinValue;

/// A value that is read in the form `T`: [`TextValue`] or [`BinValue`].
#[derive(Drop)]
#[derive_where(Debug)]
pub struct ValueDeserializer<T>(pub Value, PhantomData<T>);

impl<T> Model for ValueDeserializer<T> {
    ghost use Rattle.mysql_values.specs.Value.{Content, content_of};

    ghost Value = { Content };

    ghost view = { λ read. content_of read.0 };
}

impl<T> ValueDeserializer<T> {
    ghost use Rattle.mysql_values.specs.Value.{content_of};

    fn new(value: Value) -> Self
        ensures { result ≡ content_of value }
    {
        ValueDeserializer(value, PhantomData)
    }
}

/// NULL is the byte `fb`; any other value is a length-encoded string, whatever its column's type.
impl<'de> MyDeserialize<'de> for ValueDeserializer<TextValue> {
    const SIZE: Option<usize> = None;

    type Size = AnyWidth;

    ghost takes_memory = { λ _ bytes. reads_bytes (text_value.reads bytes) };

    type Ctx = ();

    ghost use Rattle.mysql_values.specs.ValueDeserializer.{reads_bytes, text_value, size-text_value};

    ghost form = { λ _. text_value };

    #[tactic(auto, using(mysql_wire::proofs::Tails::tails), unfolding(crate::specs::ValueDeserializer::text_value, mysql_wire::specs::Form::bytes))]
    fn deserialize<'s>(_ctx: (), buf: &mut ParseBuf<'de>) -> Result<Self, FaultOf<'s>> {
        if buf.first() == Some(0xfb) {
            buf.skip(1);
            return Ok(ValueDeserializer::new(Value::NULL));
        }
        Ok(ValueDeserializer::new(read_string(buf)?))
    }

    ghost size_is = { λ _. size-text_value };
}

ghost use Rattle.mysql_values.specs.Value.{contents};
ghost use Rattle.mysql_values.specs.ValueDeserializer.{reads_bytes, string_value, short_integer, long_integer, value_of_kind};

/// Reads a length-encoded string into memory of its own; an empty one takes none.
#[tactic(auto, using(mysql_wire::proofs::Tails::tails))]
#[inline(always)]
pub(crate) fn read_string<'s>(buf: &mut ParseBuf<'_>) -> Result<Value, FaultOf<'s>>
    ensures value { Answers (reads_bytes (string_value.reads buf.old)) (contents result) buf.new (string_value.reads buf.old) }
    ensures stays { OnErr result (buf.new ≡ buf.old) }
    ensures tail { OnErr result (IsTail buf.new buf.old) }
{
    let mut rest = buf.rest();
    let mut content = <LenEnc as BytesRepr>::deserialize((), &mut rest)?;
    let bytes = copied(buf.alloc(), content.eat_all())?;
    *buf = rest;
    Ok(Value::Bytes(bytes))
}

/// An integer of four bytes, signed unless the column is unsigned.
#[tactic(auto, unfolding(mysql_wire::specs::Int::raw))]
#[inline(always)]
pub(crate) fn read_long<'s>(is_unsigned: bool, buf: &mut ParseBuf<'_>) -> Result<Value, FaultOf<'s>>
    ensures value { Answers false (contents result) buf.new ((short_integer w32 4 is_unsigned).reads buf.old) }
    ensures stays { OnErr result (buf.new ≡ buf.old) }
{
    let number: RawInt<LeU32> = buf.parse(())?;
    Ok(Value::Int(if is_unsigned {
        i64::from(number.0)
    } else {
        i64::from(number.0.cast_signed())
    }))
}

/// An integer of eight bytes.
#[tactic(auto, unfolding(mysql_wire::specs::Int::raw))]
#[inline(always)]
pub(crate) fn read_longlong<'s>(
    is_unsigned: bool,
    buf: &mut ParseBuf<'_>,
) -> Result<Value, FaultOf<'s>>
    ensures value { Answers false (contents result) buf.new ((long_integer is_unsigned).reads buf.old) }
    ensures stays { OnErr result (buf.new ≡ buf.old) }
{
    let number: RawInt<LeU64> = buf.parse(())?;
    Ok(if is_unsigned {
        Value::UInt(number.0)
    } else {
        Value::Int(number.0.cast_signed())
    })
}

/// Reads a value of the kind. Only a nonempty string takes memory.
#[inline(always)]
pub(crate) fn read_kind<'s>(
    kind: ValueKind,
    is_unsigned: bool,
    buf: &mut ParseBuf<'_>,
) -> Result<Value, FaultOf<'s>>
    ensures value { Answers (reads_bytes ((value_of_kind kind is_unsigned).reads buf.old)) (contents result) buf.new ((value_of_kind kind is_unsigned).reads buf.old) }
    ensures tail { OnErr result (IsTail buf.new buf.old) }
{
    let mut rest = buf.rest();
    let value = read_kind_ref(kind, is_unsigned, &mut rest)?;
    let value = value.to_owned(buf.alloc())?;
    *buf = rest;
    Ok(value)
}

/// A value in the form of its column's type: see `ProtocolBinary::ResultsetRow`.
///
/// A type without values and an invalid length of a date or time are `InvalidData`.
impl<'de> MyDeserialize<'de> for ValueDeserializer<BinValue> {
    const SIZE: Option<usize> = None;

    type Size = AnyWidth;

    ghost takes_memory = { λ column bytes. reads_bytes ((value_in_column column).reads bytes) };

    type Ctx = (ColumnType, ColumnFlags);

    ghost use Rattle.mysql_wire.specs.Form.{unsized};
    ghost use Rattle.mysql_values.specs.ValueDeserializer.{value_in_column};

    ghost form = { λ column. unsized (value_in_column column) };

    #[inline(always)]
    fn deserialize<'s>(
        column: (ColumnType, ColumnFlags),
        buf: &mut ParseBuf<'de>,
    ) -> Result<Self, FaultOf<'s>> {
        let (column_type, flags) = column;
        let kind = ValueKind::of(column_type);
        let is_unsigned = flags.contains(ColumnFlags::UNSIGNED_FLAG);
        Ok(ValueDeserializer::new(read_kind(kind, is_unsigned, buf)?))
    }

    ghost size_is = { λ _. refl };
}

/// Values have no constant size, neither in text nor in binary form.
pub fn no_value_has_a_constant_size() -> (Option<usize>, Option<usize>)
    ensures { result ≡ record { 0 = None; 1 = None } }
{
    (
        <ValueDeserializer<TextValue> as MyDeserialize>::SIZE,
        <ValueDeserializer<BinValue> as MyDeserialize>::SIZE,
    )
}
