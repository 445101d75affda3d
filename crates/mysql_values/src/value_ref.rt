//! Values whose bytes are borrowed.

ghost use Rattle.std.specs.Prelude.{◌≡◌, IfOk, IfErr, IsTrue};

use crate::temporal::{Clock, DateTime, Day, TimeSpan};
use crate::value::Value;
use mysql_wire::{Buffer, BytesRepr, IntRepr, LeU32, LeU64, LenEnc, MySerialize};
use std::alloc::{AllocError, Global};

/// A [`Value`] that borrows its bytes, for example from the packet of a row. It takes no memory.
///
/// Floats are compared by their bits.
///
/// ```
/// value.to_owned(alloc)
/// ```
#[derive(Clone, Copy, PartialEq, Debug)]
pub enum ValueRef<'a> {
    /// SQL NULL.
    NULL,
    /// The bytes of a string, a blob or a decimal number, or of any value of a text row.
    Bytes(&'a [u8]),
    /// A signed number.
    Int(i64),
    /// An unsigned number.
    UInt(u64),
    /// The bits of a float of 4 bytes.
    Float(u32),
    /// The bits of a float of 8 bytes.
    Double(u64),
    /// Year, month, day, hour, minute, second and microseconds.
    Date(u16, u8, u8, u8, u8, u8, u32),
    /// Whether the span is negative, its days, hours, minutes, seconds and microseconds.
    Time(bool, u32, u8, u8, u8, u32),
}

impl ValueRef<'_> {
    ghost use Rattle.mysql_values.specs.Value.{bin_size};
    ghost use Rattle.mysql_values.specs.ValueRef.{ref_content};

    /// The length of the binary form in bytes.
    #[tactic(auto, using(crate::proofs::Sizes::sizes))]
    #[inline(always)]
    pub fn bin_len(&self) -> u64
        ensures { result ≡ bin_size (ref_content self.now) }
    {
        match self {
            ValueRef::NULL => 0,
            ValueRef::Bytes(bytes) => {
                let len = bytes.len();
                <LenEnc as IntRepr>::written_len(len as u64) as u64 + len as u64
            }
            ValueRef::Int(_) | ValueRef::UInt(_) | ValueRef::Double(_) => 8,
            ValueRef::Float(_) => 4,
            ValueRef::Date(year, month, day, hour, minute, second, micros) => {
                let day = Day::new(*year, *month, *day);
                let clock = Clock::new(*hour, *minute, *second);
                u64::from(DateTime::new(day, clock, *micros).len())
            }
            ValueRef::Time(is_negative, days, hour, minute, second, micros) => {
                let clock = Clock::new(*hour, *minute, *second);
                u64::from(TimeSpan::new(*is_negative, *days, clock, *micros).len())
            }
        }
    }

    ghost use Rattle.mysql_values.specs.Value.{content_of};
    ghost use Rattle.mysql_values.specs.ValueDeserializer.{has_bytes};

    /// Copies the value into an owned one. Only nonempty bytes take memory.
    pub fn to_owned(&self, alloc: Global) -> Result<Value, AllocError>
        ensures value { IfOk result (λ value. content_of value ≡ ref_content self.now) }
        ensures memory { IfErr result (λ _. IsTrue (has_bytes (ref_content self.now))) }
    {
        Ok(match self {
            ValueRef::NULL => Value::NULL,
            ValueRef::Bytes(bytes) => Value::Bytes(copied(alloc, bytes)?),
            ValueRef::Int(n) => Value::Int(*n),
            ValueRef::UInt(n) => Value::UInt(*n),
            ValueRef::Float(bits) => Value::Float(*bits),
            ValueRef::Double(bits) => Value::Double(*bits),
            ValueRef::Date(year, month, day, hour, minute, second, micros) => {
                Value::Date(*year, *month, *day, *hour, *minute, *second, *micros)
            }
            ValueRef::Time(is_negative, days, hour, minute, second, micros) => {
                Value::Time(*is_negative, *days, *hour, *minute, *second, *micros)
            }
        })
    }
}

ghost use Rattle.mysql_values.specs.Value.{Bytes};
ghost use Rattle.mysql_values.specs.ValueDeserializer.{has_bytes};

/// Copies the bytes. An empty slice takes no memory.
#[inline(always)]
pub(crate) fn copied(alloc: Global, bytes: &[u8]) -> Result<Vec<u8>, AllocError>
    ensures value { IfOk result (λ copy. copy.items ≡ bytes.now) }
    ensures memory { IfErr result (λ _. IsTrue (has_bytes (Bytes bytes.now))) }
{
    if bytes.is_empty() {
        return Ok(Vec::new(alloc));
    }
    Vec::from_slice(alloc, bytes)
}

impl Value {
    ghost use Rattle.mysql_values.specs.Value.{content_of};
    ghost use Rattle.mysql_values.specs.ValueRef.{ref_content};

    /// Returns the value with borrowed bytes.
    #[inline]
    pub fn as_ref(&self) -> ValueRef<'_>
        ensures value { ref_content result ≡ content_of self.now }
    {
        match self {
            Value::NULL => ValueRef::NULL,
            Value::Bytes(bytes) => ValueRef::Bytes(bytes.as_slice()),
            Value::Int(n) => ValueRef::Int(*n),
            Value::UInt(n) => ValueRef::UInt(*n),
            Value::Float(bits) => ValueRef::Float(*bits),
            Value::Double(bits) => ValueRef::Double(*bits),
            Value::Date(year, month, day, hour, minute, second, micros) => {
                ValueRef::Date(*year, *month, *day, *hour, *minute, *second, *micros)
            }
            Value::Time(is_negative, days, hour, minute, second, micros) => {
                ValueRef::Time(*is_negative, *days, *hour, *minute, *second, *micros)
            }
        }
    }
}

impl MySerialize for ValueRef<'_> {
    ghost use Rattle.mysql_values.specs.Value.{bin};
    ghost use Rattle.mysql_values.specs.ValueRef.{ref_content};

    ghost bytes = { λ value. bin (ref_content value) };

    #[tactic(auto, using(crate::proofs::Sizes::sizes), unfolding(mysql_wire::specs::Writing::saturated))]
    fn defined_len(&self) -> usize {
        self.bin_len() as usize
    }

    #[inline(always)]
    fn append<O: Buffer>(&self, out: &mut O) {
        match self {
            ValueRef::NULL => {}
            ValueRef::Bytes(bytes) => <LenEnc as BytesRepr>::append(bytes, out),
            ValueRef::Int(n) => <LeU64 as IntRepr>::append(n.cast_unsigned(), out),
            ValueRef::UInt(n) | ValueRef::Double(n) => <LeU64 as IntRepr>::append(*n, out),
            ValueRef::Float(bits) => <LeU32 as IntRepr>::append(*bits, out),
            ValueRef::Date(year, month, day, hour, minute, second, micros) => {
                let day = Day::new(*year, *month, *day);
                let clock = Clock::new(*hour, *minute, *second);
                DateTime::new(day, clock, *micros).append(out);
            }
            ValueRef::Time(is_negative, days, hour, minute, second, micros) => {
                let clock = Clock::new(*hour, *minute, *second);
                TimeSpan::new(*is_negative, *days, clock, *micros).append(out);
            }
        }
    }
}
