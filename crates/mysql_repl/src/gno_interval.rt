//! Intervals of transaction numbers.
#![tactic(auto, using(mysql_wire::proofs::Packets::packets), unfolding(crate::specs::GnoInterval::interval))]

ghost use Rattle.std.specs.Prelude.{◌≡◌, ◌<◌, ◌≤◌, ◌^◌, Ok, Err};
ghost use Rattle.mysql_repl.specs.GnoInterval as spec;
ghost use Rattle.mysql_repl.specs.declared.gno_interval.InvalidGno.TheVariants.{Order, Zero};

use mysql_wire::{
    FaultOf, Fixed, FixedInt, LeU64, MyDeserialize, ParseBuf, Parts, RawInt, Sink, parts,
};
use thiserror::Error;

/// Why two numbers are no interval of transactions.
///
/// ```
/// GnoInterval::check_and_new(first, last.saturating_add(1))
/// ```
#[derive(Clone, Copy, Debug, PartialEq, Eq, Hash, Error)]
pub enum InvalidGno {
    /// The start is not less than the end.
    #[error("start({start}) >= end({end}) in GnoInterval")]
    Order {
        /// The first number.
        start: u64,
        /// The number after the last one.
        end: u64,
    },
    /// The start is 0, which is not the number of a transaction.
    #[error("Gno can't be zero")]
    Zero,
}

/// The transactions from `start` up to, but not including, `end`: two numbers of eight bytes, little-endian.
///
/// Fewer than 16 bytes are `UnexpectedEof`. Any two numbers are read and written.
///
/// ```
/// GnoInterval::check_and_new(first, last.saturating_add(1))
/// ```
#[derive(Clone, Copy, Debug, PartialEq, Eq, Hash)]
pub struct GnoInterval {
    start: u64,
    end: u64,
}

impl GnoInterval {
    /// Creates the interval of two numbers, which aren't checked.
    #[inline]
    pub fn new(start: u64, end: u64) -> Self
        ensures value { result ≡ spec.interval_of start end }
    {
        GnoInterval { start, end }
    }

    /// The first transaction.
    #[inline]
    pub fn start(&self) -> u64
        ensures value { result ≡ spec.start self.now }
        ensures range { spec.start self.now < 2 ^ 64 }
    {
        self.start
    }

    /// The number after the last transaction.
    #[inline]
    pub fn end(&self) -> u64
        ensures value { result ≡ spec.end self.now }
        ensures range { spec.end self.now < 2 ^ 64 }
    {
        self.end
    }

    /// Creates the interval of two numbers, or returns an error if the first is 0 or not less than the second.
    pub fn check_and_new(start: u64, end: u64) -> Result<Self, InvalidGno>
        ensures order { end ≤ start → result ≡ Err (Order start end) }
        ensures zero { start < end → start ≡ 0 → result ≡ Err Zero }
        ensures value { 0 < start → start < end → result ≡ Ok (spec.interval_of start end) }
    {
        if start >= end {
            return Err(InvalidGno::Order { start, end });
        }
        if start == 0 {
            return Err(InvalidGno::Zero);
        }
        Ok(GnoInterval::new(start, end))
    }
}

impl<'de> MyDeserialize<'de> for GnoInterval {
    const SIZE: Option<usize> = Some(16);

    type Size = Fixed<16>;

    type Ctx = ();

    ghost form = { spec.interval.form };

    #[tactic(auto, using(mysql_wire::proofs::Packets::packets), unfolding(crate::specs::GnoInterval::interval, mysql_wire::specs::Int::raw))]
    fn deserialize<'s>(_ctx: (), buf: &mut ParseBuf<'de>) -> Result<Self, FaultOf<'s>> {
        let mut numbers: ParseBuf<'de> = buf.parse(16)?;
        let start = LeU64::take(&mut numbers);
        let end = LeU64::take(&mut numbers);
        Ok(GnoInterval::new(start, end))
    }

    ghost size_is = { λ _. spec.size-interval };
}

impl Parts for GnoInterval {
    ghost bytes = { spec.interval.bytes };

    #[inline(always)]
    fn put<S: Sink>(&self, sink: &mut S) {
        let start: RawInt<LeU64> = RawInt::new(self.start);
        let end: RawInt<LeU64> = RawInt::new(self.end);
        sink.part(&parts!(start, end));
    }
}
