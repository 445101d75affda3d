//! Values of parameters and rows.

ghost use Rattle.std.specs.Prelude.{◌≡◌};

use crate::temporal::{Clock, DateTime, Day, TimeSpan};
use crate::value_ref::copied;
use mysql_wire::{Buffer, BytesRepr, IntRepr, LeU32, LeU64, LenEnc, MySerialize};
use std::alloc::AllocError;
use std::fmt;
use std::fmt::Debug;

/// A parameter of a statement, or a value of a row.
///
/// Floats are compared by their bits. Cloning a nonempty string allocates; cloning anything else doesn't.
///
/// ```
/// let year = u16::try_from(number(word, 0)).unwrap_or(0);
/// let (month, day) = (small(word, 1), small(word, 2));
/// let (hour, minute, second) = (small(word, 3), small(word, 4), small(word, 5));
/// Value::Date(year, month, day, hour, minute, second, number(word, 6))
/// ```
#[derive(PartialEq, Drop)]
pub enum Value {
    /// SQL NULL.
    NULL,
    /// The bytes of a string, a blob or a decimal number, or of any value of a text row.
    Bytes(Vec<u8>),
    /// A signed number.
    Int(i64),
    /// An unsigned number.
    UInt(u64),
    /// The bits of a float of 4 bytes.
    Float(u32),
    /// The bits of a float of 8 bytes.
    Double(u64),
    /// Year, month, day, hour, minute, second and microseconds.
    Date(u16, u8, u8, u8, u8, u8, u32),
    /// Whether the span is negative, its days, hours, minutes, seconds and microseconds.
    Time(bool, u32, u8, u8, u8, u32),
}

impl Value {
    ghost use Rattle.mysql_values.specs.Value.{size_of};

    /// The length of the binary form in bytes.
    #[tactic(auto, using(crate::proofs::Sizes::sizes))]
    pub fn bin_len(&self) -> u64
        ensures { result ≡ size_of self.now }
    {
        match self {
            Value::NULL => 0,
            Value::Bytes(bytes) => {
                let len = bytes.len();
                <LenEnc as IntRepr>::written_len(len as u64) as u64 + len as u64
            }
            Value::Int(_) | Value::UInt(_) | Value::Double(_) => 8,
            Value::Float(_) => 4,
            Value::Date(year, month, day, hour, minute, second, micros) => {
                let day = Day::new(*year, *month, *day);
                let clock = Clock::new(*hour, *minute, *second);
                u64::from(DateTime::new(day, clock, *micros).len())
            }
            Value::Time(is_negative, days, hour, minute, second, micros) => {
                let clock = Clock::new(*hour, *minute, *second);
                u64::from(TimeSpan::new(*is_negative, *days, clock, *micros).len())
            }
        }
    }
}

impl Debug for Value {
    fn fmt<W: fmt::Write>(&self, f: &mut fmt::Formatter<W>) -> fmt::Result {
        self.as_ref().fmt(f)
    }
}

impl Clone for Value {
    ghost use Rattle.std.specs.Prelude.{◌≡◌, IsFalse};
    ghost use Rattle.mysql_values.specs.Value.{content_of};
    ghost use Rattle.mysql_values.specs.ValueDeserializer.{has_bytes};

    ghost is_clone = { λ value copy. content_of copy ≡ content_of value };

    ghost is_infallible = { λ value. IsFalse (has_bytes (content_of value)) };

    fn clone(&self) -> Result<Self, AllocError> {
        Ok(match self {
            Value::NULL => Value::NULL,
            Value::Bytes(bytes) => Value::Bytes(copied(*bytes.allocator(), bytes)?),
            Value::Int(n) => Value::Int(*n),
            Value::UInt(n) => Value::UInt(*n),
            Value::Float(bits) => Value::Float(*bits),
            Value::Double(bits) => Value::Double(*bits),
            Value::Date(year, month, day, hour, minute, second, micros) => {
                Value::Date(*year, *month, *day, *hour, *minute, *second, *micros)
            }
            Value::Time(is_negative, days, hour, minute, second, micros) => {
                Value::Time(*is_negative, *days, *hour, *minute, *second, *micros)
            }
        })
    }
}

impl MySerialize for Value {
    ghost use Rattle.mysql_values.specs.Value.{content_of, bin};

    ghost bytes = { λ value. bin (content_of value) };

    #[tactic(auto, using(crate::proofs::Sizes::sizes), unfolding(mysql_wire::specs::Writing::saturated))]
    fn defined_len(&self) -> usize {
        self.bin_len() as usize
    }

    #[inline(always)]
    fn append<O: Buffer>(&self, out: &mut O) {
        match self {
            Value::NULL => {}
            Value::Bytes(bytes) => <LenEnc as BytesRepr>::append(bytes, out),
            Value::Int(n) => <LeU64 as IntRepr>::append(n.cast_unsigned(), out),
            Value::UInt(n) | Value::Double(n) => <LeU64 as IntRepr>::append(*n, out),
            Value::Float(bits) => <LeU32 as IntRepr>::append(*bits, out),
            Value::Date(year, month, day, hour, minute, second, micros) => {
                let day = Day::new(*year, *month, *day);
                let clock = Clock::new(*hour, *minute, *second);
                DateTime::new(day, clock, *micros).append(out);
            }
            Value::Time(is_negative, days, hour, minute, second, micros) => {
                let clock = Clock::new(*hour, *minute, *second);
                TimeSpan::new(*is_negative, *days, clock, *micros).append(out);
            }
        }
    }
}
