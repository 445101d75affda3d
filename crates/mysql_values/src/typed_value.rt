//! Values encoded under a given type.

ghost use Rattle.std.specs.Prelude.{◌≡◌, ◌*◌, ◌^◌, ◌≤◌, ◌<◌, length, IfSome, Some, Option, ℕ, None, pos};
ghost use Rattle.std.specs.Option.{option_map};
ghost use Rattle.mysql_values.specs.TypedValue.{content_bits, kind_spelled, kind_typed, number_bits, spelled, typed_bytes, typed_under, wide_typed, wide_value};
ghost use Rattle.mysql_values.specs.ParamValue.{param_content, param_spelled, param_typed};
ghost use Rattle.mysql_values.specs.ValueRef.{ref_content};

use crate::date_time_with_offset::DateTimeWithOffset;
use crate::param_type::ParamType;
use crate::param_value::ParamValue;
use crate::value_kind::ValueKind;
use crate::value_ref::ValueRef;
use mysql_wire::{Buffer, Flags, IntRepr, LeU16, LeU32, MySerialize, StmtExecuteParamFlags};

/// A value encoded under the type of a parameter or a column, in the width of that type.
///
/// ```
/// let small = ParamType::new(
/// ColumnType::MYSQL_TYPE_SHORT,
/// StmtExecuteParamFlags::from_bits_retain(0),
/// );
/// TypedValue::new(small, value).is_some()
/// ```
#[derive(Clone, Copy, Debug, PartialEq)]
pub enum TypedValue<'a> {
    /// The bits of a number of one byte.
    Tiny(u8),
    /// The bits of a number of two bytes.
    Short(u16),
    /// The bits of a number of four bytes.
    Long(u32),
    /// A number of eight bytes, a float, a date, a time or bytes, in its binary form; NULL, which has no bytes.
    Wide(ValueRef<'a>),
    /// A date and a time with an offset from UTC, which only parameters and attributes have.
    WithOffset(DateTimeWithOffset),
}

/// The number of negative values of a signed type of one, two or four bytes.
const TINY: u32 = 1 << 7;

const SHORT: u32 = 1 << 15;

const LONG: u32 = 1 << 31;

/// Returns the bits of a nonnegative number, if the type can hold it.
fn natural_bits(half: u32, is_unsigned: bool, number: u64) -> Option<u64>
    ensures value { result ≡ number_bits half is_unsigned (pos number) }
{
    let half = u64::from(half);
    let end = if is_unsigned { 2 * half } else { half };
    if number < end { Some(number) } else { None }
}

/// Returns the bits of a number in two's complement, if the type can hold it.
fn signed_bits(half: u32, is_unsigned: bool, number: i64) -> Option<u64>
    ensures value { result ≡ number_bits half is_unsigned number }
{
    if number >= 0 {
        return natural_bits(half, is_unsigned, number.cast_unsigned());
    }
    let half = u64::from(half);
    let below = number.unsigned_abs();
    if is_unsigned || half < below {
        return None;
    }
    Some(2 * half - below)
}

/// Returns the bits of a value that is a number, if the type can hold it.
fn bits_of(half: u32, is_unsigned: bool, value: &ValueRef<'_>) -> Option<u64>
    requires { half ≤ 2 ^ 31 }
    ensures value { result ≡ content_bits half is_unsigned (ref_content value.now) }
    ensures fits { IfSome result (λ bits. bits < 2 * half) }
{
    match value {
        ValueRef::Int(number) => signed_bits(half, is_unsigned, *number),
        ValueRef::UInt(number) => natural_bits(half, is_unsigned, *number),
        _ => None,
    }
}

impl<'a> TypedValue<'a> {
    /// Encodes a value under a type, or returns `None` if it doesn't fit.
    ///
    /// These fit: an integer in the range of the type, in its width; a float of four bytes under FLOAT, and one
    /// of eight under DOUBLE; a date, under DATE only without a time of day; a time span under TIME; bytes
    /// under each string type; NULL under any type.
    pub fn new(param_type: ParamType, value: ValueRef<'a>) -> Option<Self>
        ensures variant { result ≡ typed_under param_type value.entry }
        ensures value { option_map typed_bytes result ≡ spelled param_type (ref_content value.entry) }
    {
        let is_unsigned = param_type.flags().contains(StmtExecuteParamFlags::UNSIGNED);
        TypedValue::of_kind(ValueKind::of(param_type.column_type()), is_unsigned, value)
    }

    /// Encodes the value of a parameter or an attribute under its type, or returns `None` if it doesn't fit.
    ///
    /// Like [`new`](Self::new), but `INT24`, `YEAR` and the reserved types are strings
    /// ([`read_param_value`](crate::read_param_value)), and a date with an offset fits `DATETIME` and
    /// `TIMESTAMP`.
    pub fn of_param(param_type: ParamType, value: ParamValue<'a>) -> Option<Self>
        ensures variant { result ≡ param_typed param_type value.entry }
        ensures value { option_map typed_bytes result ≡ param_spelled param_type (param_content value.entry) }
    {
        let is_unsigned = param_type.flags().contains(StmtExecuteParamFlags::UNSIGNED);
        let kind = ValueKind::of_param(param_type.column_type());
        match value {
            ParamValue::Value(value) => TypedValue::of_kind(kind, is_unsigned, value),
            ParamValue::DateTimeWithOffset(date) => match kind {
                ValueKind::DateTime => Some(TypedValue::WithOffset(date)),
                _ => None,
            },
        }
    }

    /// Encodes the value under a kind, if it fits.
    fn of_kind(kind: ValueKind, is_unsigned: bool, value: ValueRef<'a>) -> Option<Self>
        ensures variant { result ≡ kind_typed kind is_unsigned value.entry }
        ensures value { option_map typed_bytes result ≡ kind_spelled kind is_unsigned (ref_content value.entry) }
    {
        if let ValueRef::NULL = value {
            return Some(TypedValue::Wide(value));
        }
        match kind {
            ValueKind::Tiny => {
                let bits = bits_of(TINY, is_unsigned, &value)?;
                Some(TypedValue::Tiny(bits as u8))
            }
            ValueKind::Short => {
                let bits = bits_of(SHORT, is_unsigned, &value)?;
                Some(TypedValue::Short(bits as u16))
            }
            ValueKind::Long => {
                let bits = bits_of(LONG, is_unsigned, &value)?;
                Some(TypedValue::Long(bits as u32))
            }
            kind => wide(kind, is_unsigned, value),
        }
    }

    /// The encoded length in bytes.
    #[tactic(auto, using(crate::proofs::Sizes::sizes), unfolding(mysql_wire::specs::Writing::le_bytes))]
    #[inline(always)]
    pub fn bin_len(&self) -> u64
        ensures { result ≡ length (typed_bytes self.now) }
    {
        match self {
            TypedValue::Tiny(_) => 1,
            TypedValue::Short(_) => 2,
            TypedValue::Long(_) => 4,
            TypedValue::Wide(value) => value.bin_len(),
            TypedValue::WithOffset(_) => 14,
        }
    }
}

/// Encodes a value of eight bytes or of variable width, if it fits the kind.
fn wide(kind: ValueKind, is_unsigned: bool, value: ValueRef<'_>) -> Option<TypedValue<'_>>
    ensures variant { result ≡ wide_typed kind is_unsigned value.entry }
    ensures value { option_map typed_bytes result ≡ wide_value kind is_unsigned (ref_content value.entry) }
{
    let spells = match value {
        ValueRef::Int(number) => {
            matches!(kind, ValueKind::LongLong) && !(is_unsigned && number < 0)
        }
        ValueRef::UInt(number) => {
            matches!(kind, ValueKind::LongLong) && (is_unsigned || number < 1 << 63)
        }
        value => kind.matches_type(&value),
    };
    if spells {
        Some(TypedValue::Wide(value))
    } else {
        None
    }
}

impl MySerialize for TypedValue<'_> {
    ghost use Rattle.mysql_values.specs.TypedValue.{typed_bytes};

    ghost bytes = { typed_bytes };

    #[inline(always)]
    #[tactic(auto, unfolding(mysql_wire::specs::Writing::saturated, mysql_wire::specs::Writing::le_bytes))]
    fn defined_len(&self) -> usize {
        match self {
            TypedValue::Tiny(_) => 1,
            TypedValue::Short(_) => 2,
            TypedValue::Long(_) => 4,
            TypedValue::Wide(value) => value.defined_len(),
            TypedValue::WithOffset(date) => date.defined_len(),
        }
    }

    #[inline(always)]
    fn append<O: Buffer>(&self, out: &mut O) {
        match self {
            TypedValue::Tiny(bits) => <u8 as IntRepr>::append(*bits, out),
            TypedValue::Short(bits) => <LeU16 as IntRepr>::append(*bits, out),
            TypedValue::Long(bits) => <LeU32 as IntRepr>::append(*bits, out),
            TypedValue::Wide(value) => value.append(out),
            TypedValue::WithOffset(date) => date.append(out),
        }
    }
}
