//! Dates and times with an offset from UTC, as parameters have them.
#![tactic(auto, using(mysql_wire::proofs::Packets::packets), unfolding(crate::specs::DateTimeWithOffset::date_with_offset))]

ghost use Rattle.std.specs.Prelude.{◌≡◌};
ghost use Rattle.mysql_wire.specs.Form.{size-block};
ghost use Rattle.mysql_values.specs.DateTimeWithOffset as spec;

use mysql_wire::{
    ConstFault, ConstU8, FaultOf, Fixed, LeU16, LeU32, MyDeserialize, ParseBuf, Parts, RawInt,
    Sink, parts,
};
use thiserror::Error;

/// The length byte of a date with an offset is not 13.
#[derive(Clone, Copy, Debug, Default, PartialEq, Eq, Hash, Error)]
#[error("Invalid temporal length")]
pub struct InvalidOffsetDateLength;

impl ConstFault for InvalidOffsetDateLength {
    const MESSAGE: &'static str = "Invalid temporal length";
}

/// A date and a time with an offset from UTC: a parameter or an attribute of the type `DATETIME` or `TIMESTAMP`.
///
/// It takes 14 bytes, numbers little-endian:
///
/// | Bytes | Field |
/// |---|---|
/// | 1 | the length of what follows, `0d` |
/// | 2 | the year |
/// | 1 each | the month, the day, the hour, the minute, the second |
/// | 4 | the microseconds |
/// | 2 | the offset in minutes, in two's complement |
///
/// Fewer bytes are `UnexpectedEof`, another length is `InvalidData`. Servers read it in `set_param_datetime`
/// (`sql/sql_prepare.cc`), and send none in rows.
#[derive(Clone, Copy, Debug, PartialEq, Eq)]
pub struct DateTimeWithOffset {
    /// The year.
    pub year: u16,
    /// The month.
    pub month: u8,
    /// The day of the month.
    pub day: u8,
    /// The hour.
    pub hour: u8,
    /// The minute.
    pub minute: u8,
    /// The second.
    pub second: u8,
    /// The microseconds.
    pub micros: u32,
    /// The offset from UTC in minutes: negative west of Greenwich.
    pub offset_minutes: i16,
}

impl<'de> MyDeserialize<'de> for DateTimeWithOffset {
    const SIZE: Option<usize> = Some(14);

    type Size = Fixed<14>;

    type Ctx = ();

    ghost form = { spec.date_with_offset.form };

    #[tactic(auto, using(mysql_wire::proofs::There::blocks_there), unfolding(crate::specs::DateTimeWithOffset::date_with_offset, mysql_wire::specs::Int::raw))]
    fn deserialize<'s>(_ctx: (), buf: &mut ParseBuf<'de>) -> Result<Self, FaultOf<'s>> {
        let mut fields = ParseBuf::new(buf.alloc(), buf.eat(14));
        let _length: ConstU8<InvalidOffsetDateLength, 13> = fields.parse_unchecked(())?;
        let year: RawInt<LeU16> = fields.parse_unchecked(())?;
        let month: RawInt<u8> = fields.parse_unchecked(())?;
        let day: RawInt<u8> = fields.parse_unchecked(())?;
        let hour: RawInt<u8> = fields.parse_unchecked(())?;
        let minute: RawInt<u8> = fields.parse_unchecked(())?;
        let second: RawInt<u8> = fields.parse_unchecked(())?;
        let micros: RawInt<LeU32> = fields.parse_unchecked(())?;
        let offset: RawInt<LeU16> = fields.parse_unchecked(())?;
        Ok(DateTimeWithOffset {
            year: year.0,
            month: month.0,
            day: day.0,
            hour: hour.0,
            minute: minute.0,
            second: second.0,
            micros: micros.0,
            offset_minutes: offset.0.cast_signed(),
        })
    }

    ghost size_is = { λ _. unfold spec.date_with_offset in size-block 14 (spec.date_with_offset_fields.form tt) };
}

/// A date with an offset takes 14 bytes.
pub fn date_with_offset_size() -> Option<usize>
    ensures { result ≡ Some 14 }
{
    <DateTimeWithOffset as MyDeserialize>::SIZE
}

impl Parts for DateTimeWithOffset {
    ghost bytes = { spec.date_with_offset.bytes };

    fn put<S: Sink>(&self, sink: &mut S) {
        let length: ConstU8<InvalidOffsetDateLength, 13> = ConstU8::new();
        let year: RawInt<LeU16> = RawInt::new(self.year);
        let month: RawInt<u8> = RawInt::new(self.month);
        let day: RawInt<u8> = RawInt::new(self.day);
        let hour: RawInt<u8> = RawInt::new(self.hour);
        let minute: RawInt<u8> = RawInt::new(self.minute);
        let second: RawInt<u8> = RawInt::new(self.second);
        let micros: RawInt<LeU32> = RawInt::new(self.micros);
        let offset: RawInt<LeU16> = RawInt::new(self.offset_minutes.cast_unsigned());
        sink.part(&parts!(
            length, year, month, day, hour, minute, second, micros, offset
        ));
    }
}
