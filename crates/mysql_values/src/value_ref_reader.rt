//! Readers of values that borrow from rows and requests.

ghost use Rattle.std.specs.Prelude.{◌≡◌, IsFalse, IsTrue};
ghost use Rattle.mysql_values.specs.Value.{Int};
ghost use Rattle.mysql_values.specs.declared.value_kind.ValueKind.TheVariants as kind;
ghost use Rattle.mysql_values.specs.ValueRef.{ReadsRef, ref_content};
ghost use Rattle.mysql_values.specs.ValueDeserializer.{text_value, bin_value, value_of_kind, string_value, long_integer, date_value, time_value};

use crate::temporal::{DateTime, TimeSpan};
use crate::value_kind::ValueKind;
use crate::value_ref::ValueRef;
use mysql_wire::{BytesRepr, ColumnType, FaultOf, LeU16, LeU32, LeU64, LenEnc, ParseBuf, RawInt};

/// Reads a length-encoded string. It takes no memory, and on an error the buffer is unchanged.
#[inline(always)]
pub fn read_string_ref<'s, 'de>(buf: &mut ParseBuf<'de>) -> Result<ValueRef<'de>, FaultOf<'s>>
    ensures { ReadsRef string_value result buf.old buf.new }
{
    let mut rest = buf.rest();
    let mut content = <LenEnc as BytesRepr>::deserialize((), &mut rest)?;
    *buf = rest;
    Ok(ValueRef::Bytes(content.eat_all()))
}

/// Reads a value of a text row: the byte `fb`, or a length-encoded string. It takes no memory, and on an error
/// the buffer is unchanged.
///
/// ```
/// read_text_ref(buf)
/// ```
#[inline(always)]
#[tactic(auto, using(mysql_wire::proofs::Tails::tails), unfolding(crate::specs::ValueDeserializer::text_value, mysql_wire::specs::Form::bytes))]
pub fn read_text_ref<'s, 'de>(buf: &mut ParseBuf<'de>) -> Result<ValueRef<'de>, FaultOf<'s>>
    ensures { ReadsRef text_value result buf.old buf.new }
{
    if buf.first() == Some(0xfb) {
        buf.skip(1);
        return Ok(ValueRef::NULL);
    }
    read_string_ref(buf)
}

#[inline(never)]
fn date_ref<'s, 'de>(buf: &mut ParseBuf<'de>) -> Result<ValueRef<'de>, FaultOf<'s>>
    ensures { ReadsRef date_value result buf.old buf.new }
{
    let date: DateTime = buf.parse(())?;
    Ok(ValueRef::Date(
        date.day.year,
        date.day.month,
        date.day.day,
        date.clock.hour,
        date.clock.minute,
        date.clock.second,
        date.micros,
    ))
}

#[inline(never)]
fn time_ref<'s, 'de>(buf: &mut ParseBuf<'de>) -> Result<ValueRef<'de>, FaultOf<'s>>
    ensures { ReadsRef time_value result buf.old buf.new }
{
    let time: TimeSpan = buf.parse(())?;
    Ok(ValueRef::Time(
        time.is_negative,
        time.days,
        time.clock.hour,
        time.clock.minute,
        time.clock.second,
        time.micros,
    ))
}

/// An integer of fewer than eight bytes, given both as unsigned and as signed: signed unless the column is unsigned.
#[inline(always)]
fn short_integer<'de>(is_unsigned: bool, unsigned: i64, signed: i64) -> ValueRef<'de>
    ensures unsigned { IsTrue is_unsigned → ref_content result ≡ Int unsigned }
    ensures signed { IsFalse is_unsigned → ref_content result ≡ Int signed }
{
    ValueRef::Int(if is_unsigned { unsigned } else { signed })
}

/// Reads an integer of four bytes. It takes no memory, and on an error the buffer is unchanged.
#[tactic(auto, unfolding(mysql_wire::specs::Int::raw))]
#[inline(always)]
pub fn read_long_ref<'s, 'de>(
    is_unsigned: bool,
    buf: &mut ParseBuf<'de>,
) -> Result<ValueRef<'de>, FaultOf<'s>>
    ensures { ReadsRef (value_of_kind kind.Long is_unsigned) result buf.old buf.new }
{
    let number: RawInt<LeU32> = buf.parse(())?;
    let signed = i64::from(number.0.cast_signed());
    Ok(short_integer(is_unsigned, i64::from(number.0), signed))
}

/// Reads an integer of eight bytes. It takes no memory, and on an error the buffer is unchanged.
#[tactic(auto, unfolding(mysql_wire::specs::Int::raw))]
#[inline(always)]
pub fn read_longlong_ref<'s, 'de>(
    is_unsigned: bool,
    buf: &mut ParseBuf<'de>,
) -> Result<ValueRef<'de>, FaultOf<'s>>
    ensures { ReadsRef (long_integer is_unsigned) result buf.old buf.new }
{
    let number: RawInt<LeU64> = buf.parse(())?;
    Ok(if is_unsigned {
        ValueRef::UInt(number.0)
    } else {
        ValueRef::Int(number.0.cast_signed())
    })
}

/// Reads a value of the kind. It takes no memory, and on an error the buffer is unchanged.
#[tactic(auto, unfolding(mysql_wire::specs::Int::raw))]
#[inline(always)]
pub fn read_kind_ref<'s, 'de>(
    kind: ValueKind,
    is_unsigned: bool,
    buf: &mut ParseBuf<'de>,
) -> Result<ValueRef<'de>, FaultOf<'s>>
    ensures { ReadsRef (value_of_kind kind is_unsigned) result buf.old buf.new }
{
    match kind {
        ValueKind::String => read_string_ref(buf),
        ValueKind::Tiny => {
            let number: RawInt<u8> = buf.parse(())?;
            let signed = i64::from(number.0.cast_signed());
            Ok(short_integer(is_unsigned, i64::from(number.0), signed))
        }
        ValueKind::Short => {
            let number: RawInt<LeU16> = buf.parse(())?;
            let signed = i64::from(number.0.cast_signed());
            Ok(short_integer(is_unsigned, i64::from(number.0), signed))
        }
        ValueKind::Long => read_long_ref(is_unsigned, buf),
        ValueKind::LongLong => read_longlong_ref(is_unsigned, buf),
        ValueKind::Float => {
            let bits: RawInt<LeU32> = buf.parse(())?;
            Ok(ValueRef::Float(bits.0))
        }
        ValueKind::Double => {
            let bits: RawInt<LeU64> = buf.parse(())?;
            Ok(ValueRef::Double(bits.0))
        }
        ValueKind::Date | ValueKind::DateTime => {
            // A buffer of its own, so that those of the other arms stay in registers.
            let mut rest = buf.rest();
            let value = date_ref(&mut rest)?;
            *buf = rest;
            Ok(value)
        }
        ValueKind::Time => {
            let mut rest = buf.rest();
            let value = time_ref(&mut rest)?;
            *buf = rest;
            Ok(value)
        }
        ValueKind::Null => Ok(ValueRef::NULL),
        ValueKind::Unsupported => Err(FaultOf::InvalidData("Unsupported column type")),
    }
}

/// Reads a value in the form of its column's type, as [`ValueDeserializer<BinValue>`](crate::ValueDeserializer) does. It
/// takes no memory, and on an error the buffer is unchanged.
///
/// ```
/// read_bin_ref(ColumnType::MYSQL_TYPE_LONG, true, buf)
/// ```
#[inline(always)]
pub fn read_bin_ref<'s, 'de>(
    column_type: ColumnType,
    is_unsigned: bool,
    buf: &mut ParseBuf<'de>,
) -> Result<ValueRef<'de>, FaultOf<'s>>
    ensures { ReadsRef (bin_value column_type is_unsigned) result buf.old buf.new }
{
    read_kind_ref(ValueKind::of(column_type), is_unsigned, buf)
}
