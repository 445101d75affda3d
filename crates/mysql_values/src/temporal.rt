//! Dates and times in the binary protocol.

ghost use Rattle.std.specs.Prelude.{false, ◌≡◌, ◌≤◌, ◌+◌, ◌==◌, ℕ, Ok, length};

use mysql_wire::{
    AnyWidth, Buffer, FaultOf, IntRepr, LeU16, LeU32, MyDeserialize, MySerialize, ParseBuf, RawInt,
};

/// A calendar date.
#[derive(Clone, Copy, Debug, PartialEq, Eq)]
pub struct Day {
    pub year: u16,
    pub month: u8,
    pub day: u8,
}

/// A time of day.
#[derive(Clone, Copy, Debug, PartialEq, Eq)]
pub struct Clock {
    pub hour: u8,
    pub minute: u8,
    pub second: u8,
}

/// A date and a time of day (`ProtocolBinary::MYSQL_TYPE_DATETIME`).
#[derive(Clone, Copy, Debug, PartialEq, Eq)]
pub struct DateTime {
    pub day: Day,
    pub clock: Clock,
    pub micros: u32,
}

/// A time span with a sign (`ProtocolBinary::MYSQL_TYPE_TIME`).
#[derive(Clone, Copy, Debug, PartialEq, Eq)]
pub struct TimeSpan {
    pub is_negative: bool,
    pub days: u32,
    pub clock: Clock,
    pub micros: u32,
}

impl Day {
    ghost use Rattle.mysql_values.specs.Temporal.{is_zero_day};

    /// Creates a calendar date.
    #[inline]
    pub fn new(year: u16, month: u8, day: u8) -> Self
        ensures { result ≡ record { year = year; month = month; day = day } }
    {
        Day { year, month, day }
    }

    fn is_zero(&self) -> bool
        ensures { result ≡ is_zero_day self.now }
    {
        self.year == 0 && self.month == 0 && self.day == 0
    }
}

impl Clock {
    ghost use Rattle.mysql_values.specs.Temporal.{is_midnight};

    /// Creates a time of day.
    #[inline]
    pub fn new(hour: u8, minute: u8, second: u8) -> Self
        ensures { result ≡ record { hour = hour; minute = minute; second = second } }
    {
        Clock {
            hour,
            minute,
            second,
        }
    }

    fn is_midnight(&self) -> bool
        ensures { result ≡ is_midnight self.now }
    {
        self.hour == 0 && self.minute == 0 && self.second == 0
    }
}

impl DateTime {
    ghost use Rattle.mysql_values.specs.Temporal.{date_time_size};

    /// Creates a date with a time of day and microseconds.
    #[inline]
    pub fn new(day: Day, clock: Clock, micros: u32) -> Self
        ensures { result ≡ record { day = day; clock = clock; micros = micros } }
    {
        DateTime { day, clock, micros }
    }

    /// The length of the date in bytes.
    #[inline]
    pub fn len(&self) -> u8
        ensures { result ≡ date_time_size self.now }
    {
        if self.micros != 0 {
            12
        } else if !self.clock.is_midnight() {
            8
        } else if !self.day.is_zero() {
            5
        } else {
            1
        }
    }
}

impl TimeSpan {
    ghost use Rattle.mysql_values.specs.Temporal.{time_span_size};

    /// Creates a time span of a sign, days, time and microseconds.
    #[inline]
    pub fn new(is_negative: bool, days: u32, clock: Clock, micros: u32) -> Self
        ensures { result ≡ record { is_negative = is_negative; days = days; clock = clock; micros = micros } }
    {
        TimeSpan {
            is_negative,
            days,
            clock,
            micros,
        }
    }

    /// The length of the time span in bytes.
    #[inline]
    pub fn len(&self) -> u8
        ensures { result ≡ time_span_size self.now }
    {
        if self.micros != 0 {
            13
        } else if self.days != 0 || !self.clock.is_midnight() {
            9
        } else {
            1
        }
    }
}

impl MySerialize for DateTime {
    ghost use Rattle.mysql_values.specs.Temporal.{date_time_bytes};

    ghost bytes = { date_time_bytes };

    #[tactic(auto, using(crate::proofs::Sizes::sizes), unfolding(mysql_wire::specs::Writing::saturated))]
    fn defined_len(&self) -> usize {
        self.len() as usize
    }

    #[tactic(auto, using(mysql_wire::proofs::After::after), unfolding(mysql_wire::specs::Writing::le_bytes, crate::specs::Temporal::date_time_bytes, crate::specs::Temporal::day_bytes))]
    #[inline(never)]
    fn append<O: Buffer>(&self, out: &mut O) {
        let len = self.len();
        out.push_byte(len - 1);
        if len == 1 {
            return;
        }
        <LeU16 as IntRepr>::append(self.day.year, out);
        out.push_bytes(&[self.day.month, self.day.day]);
        if len == 5 {
            return;
        }
        out.push_bytes(&[self.clock.hour, self.clock.minute, self.clock.second]);
        if len == 8 {
            return;
        }
        <LeU32 as IntRepr>::append(self.micros, out);
    }
}

impl MySerialize for TimeSpan {
    ghost use Rattle.mysql_values.specs.Temporal.{time_span_bytes};

    ghost bytes = { time_span_bytes };

    #[tactic(auto, using(crate::proofs::Sizes::sizes), unfolding(mysql_wire::specs::Writing::saturated))]
    fn defined_len(&self) -> usize {
        self.len() as usize
    }

    #[tactic(auto, using(mysql_wire::proofs::After::after), unfolding(mysql_wire::specs::Writing::le_bytes, crate::specs::Temporal::time_span_bytes))]
    #[inline(never)]
    fn append<O: Buffer>(&self, out: &mut O) {
        let len = self.len();
        out.push_byte(len - 1);
        if len == 1 {
            return;
        }
        out.push_byte(self.is_negative as u8);
        <LeU32 as IntRepr>::append(self.days, out);
        out.push_bytes(&[self.clock.hour, self.clock.minute, self.clock.second]);
        if len == 9 {
            return;
        }
        <LeU32 as IntRepr>::append(self.micros, out);
    }
}

ghost use Rattle.mysql_wire.specs.Int.{raw_int, byte, le_u32};
ghost use Rattle.mysql_values.specs.Temporal.{day, clock};

/// Takes a date off the front. Its bytes must remain in the buffer.
#[inline(always)]
#[tactic(auto, using(crate::proofs::There::there))]
fn eat_day(buf: &mut ParseBuf<'_>) -> Day
    requires { 4 ≤ length buf.old }
    ensures value { day.reads buf.old ≡ Ok (result, buf.new) }
    ensures len { length buf.old ≡ 4 + length buf.new }
{
    let [low, high, month, day] = buf.eat_array::<4>();
    Day::new(u16::from_le_bytes([low, high]), month, day)
}

/// Takes a time of day off the front. Its bytes must remain in the buffer.
#[inline(always)]
#[tactic(auto, using(crate::proofs::There::there))]
fn eat_clock(buf: &mut ParseBuf<'_>) -> Clock
    requires { 3 ≤ length buf.old }
    ensures value { clock.reads buf.old ≡ Ok (result, buf.new) }
    ensures len { length buf.old ≡ 3 + length buf.new }
{
    let [hour, minute, second] = buf.eat_array::<3>();
    Clock::new(hour, minute, second)
}

/// Takes a number of four bytes off the front. They must remain in the buffer.
#[inline(always)]
#[tactic(auto, using(crate::proofs::There::there))]
fn eat_u32(buf: &mut ParseBuf<'_>) -> u32
    requires { 4 ≤ length buf.old }
    ensures value { le_u32.reads buf.old ≡ Ok (raw_int result, buf.new) }
    ensures len { length buf.old ≡ 4 + length buf.new }
{
    u32::from_le_bytes(buf.eat_array())
}

/// Takes a byte off the front, which must remain in the buffer: 1 means a negative span.
#[inline(always)]
#[tactic(auto, using(crate::proofs::There::there))]
fn eat_sign(buf: &mut ParseBuf<'_>) -> bool
    requires { 1 ≤ length buf.old }
    ensures value { (sign : ℕ) × (byte.reads buf.old ≡ Ok (raw_int sign, buf.new)) × (result ≡ (sign == 1)) }
    ensures len { length buf.old ≡ 1 + length buf.new }
{
    let [sign] = buf.eat_array::<1>();
    sign == 1
}

impl<'de> MyDeserialize<'de> for DateTime {
    const SIZE: Option<usize> = None;

    type Size = AnyWidth;

    type Ctx = ();

    ghost use Rattle.mysql_values.specs.Temporal.{date_time, size-date_time};

    ghost form = { λ _. date_time };

    #[tactic(auto, using(mysql_wire::proofs::Tails::tails, crate::proofs::There::short), unfolding(crate::specs::Temporal::date_time))]
    fn deserialize<'s>(_ctx: (), buf: &mut ParseBuf<'de>) -> Result<Self, FaultOf<'s>> {
        let length: RawInt<u8> = buf.parse(())?;
        match length.0 {
            0 => Ok(DateTime::new(Day::new(0, 0, 0), Clock::new(0, 0, 0), 0)),
            4 if buf.len() >= 4 => Ok(DateTime::new(eat_day(buf), Clock::new(0, 0, 0), 0)),
            7 if buf.len() >= 7 => Ok(DateTime::new(eat_day(buf), eat_clock(buf), 0)),
            11 if buf.len() >= 11 => {
                Ok(DateTime::new(eat_day(buf), eat_clock(buf), eat_u32(buf)))
            }
            4 | 7 | 11 => Err(FaultOf::UnexpectedEof),
            _ => Err(FaultOf::InvalidData("Invalid temporal length")),
        }
    }

    ghost size_is = { λ _. size-date_time };
}

impl<'de> MyDeserialize<'de> for TimeSpan {
    const SIZE: Option<usize> = None;

    type Size = AnyWidth;

    type Ctx = ();

    ghost use Rattle.mysql_values.specs.Temporal.{time_span, size-time_span};

    ghost form = { λ _. time_span };

    #[tactic(auto, using(mysql_wire::proofs::Tails::tails, crate::proofs::There::short), unfolding(crate::specs::Temporal::time_span))]
    fn deserialize<'s>(_ctx: (), buf: &mut ParseBuf<'de>) -> Result<Self, FaultOf<'s>> {
        let length: RawInt<u8> = buf.parse(())?;
        match length.0 {
            0 => Ok(TimeSpan::new(false, 0, Clock::new(0, 0, 0), 0)),
            8 if buf.len() >= 8 => {
                let is_negative = eat_sign(buf);
                Ok(TimeSpan::new(is_negative, eat_u32(buf), eat_clock(buf), 0))
            }
            12 if buf.len() >= 12 => {
                let is_negative = eat_sign(buf);
                Ok(TimeSpan::new(is_negative, eat_u32(buf), eat_clock(buf), eat_u32(buf)))
            }
            8 | 12 => Err(FaultOf::UnexpectedEof),
            _ => Err(FaultOf::InvalidData("Invalid temporal length")),
        }
    }

    ghost size_is = { λ _. size-time_span };
}

/// Neither a date with a time nor a time span has a constant size.
pub fn no_date_or_time_has_a_constant_size() -> (Option<usize>, Option<usize>)
    ensures { result ≡ record { 0 = None; 1 = None } }
{
    (
        <DateTime as MyDeserialize>::SIZE,
        <TimeSpan as MyDeserialize>::SIZE,
    )
}
