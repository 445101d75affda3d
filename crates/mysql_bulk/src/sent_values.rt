//! Values of a request, each after its indicator.

ghost use Rattle.std.specs.Prelude.{◌≡◌, ◌+◌, ◌<◌, ◌≤◌, ◌++◌, length, List, ℕ, IfOk, Some, slice_get};
ghost use Rattle.std.specs.Cmp.Lexicographic.{pointwise};
ghost use Rattle.mysql_wire.specs.Writing.{saturated};
ghost use Rattle.mysql_values.specs.Value.{contents_of};
ghost use Rattle.mysql_bulk.specs.Row.{row_size};
ghost use Rattle.mysql_bulk.specs.SentValues.{sent_values};

use crate::cells::append_cells;
use crate::param_value::{StmtBulkExecuteParamValue, indicator_of};
use mysql_values::Value;
use mysql_wire::{Buffer, Const, MariadbBulkIndicator, MySerialize, Parts, Sink, items_len, parts};
use std::alloc::{AllocError, Global};
use std::marker::Model;

/// The length of values after their indicators in bytes, or `usize::MAX` if it is greater.
#[tactic(auto, using(crate::proofs::RequestBytes::request_lengths), unfolding(mysql_wire::specs::Writing::saturated))]
pub(crate) fn sent_len(values: &[Value]) -> usize
    ensures { result ≡ saturated (row_size (contents_of values.now)) }
{
    items_len(values).saturating_add(values.len())
}

/// A value with its indicator.
#[derive(Drop)]
pub(crate) struct SentValue<'a> {
    indicator: MariadbBulkIndicator,
    value: &'a Value,
}

impl<'a> Model for SentValue<'a> {
    ghost use Rattle.mysql_bulk.specs.ParamValue.{ParamValue};
    ghost use Rattle.mysql_values.specs.Value.{content_of};

    ghost Value = { ParamValue };

    ghost view = { λ v. record { indicator = v.indicator; content = content_of v.value.now } };
}

impl<'a> SentValue<'a> {
    /// The indicator: how the value is given.
    pub(crate) fn indicator(&self) -> MariadbBulkIndicator
        ensures { result ≡ self.now.indicator }
    {
        self.indicator
    }
}

impl<'a> Parts for SentValue<'a> {
    ghost use Rattle.mysql_bulk.specs.ParamValue.{param_value_bytes};

    ghost bytes = { param_value_bytes };

    #[inline(always)]
    fn put<S: Sink>(&self, sink: &mut S) {
        let indicator = Const::<MariadbBulkIndicator, u8>::new(self.indicator);
        sink.part(&parts!(indicator, *self.value));
    }
}

/// Values, each after the indicator that was read, or after its own if none was read at its position.
#[derive(Drop)]
pub(crate) struct SentValues<'a> {
    pub(crate) values: &'a [Value],
    /// The indicators that were read: none if the request was built.
    pub(crate) indicators: &'a [MariadbBulkIndicator],
}

impl<'a> SentValues<'a> {
    /// Returns the value at a position.
    #[inline(always)]
    #[tactic(auto, using(crate::proofs::SentValues::sent_places))]
    pub(crate) fn at(&self, place: usize) -> SentValue<'a>
        requires { place < length self.now.values.now }
        ensures { slice_get (sent_values self.now.indicators.now (contents_of self.now.values.now)) place ≡ Some result }
    {
        let value = &self.values[place];
        if place < self.indicators.len() {
            return SentValue {
                indicator: self.indicators[place],
                value,
            };
        }
        SentValue {
            indicator: indicator_of(value),
            value,
        }
    }
}

impl<'a> PartialEq for SentValue<'a> {
    ghost use Rattle.mysql_wire.specs.contracts.codes.mariadb_bulk_indicator.MariadbBulkIndicatorPartialEq.TheImpl.Laws.{laws-law};
    ghost use Rattle.mysql_bulk.specs.ParamValueEq.{param_value_eq, param_value_per};

    ghost eq = { param_value_eq ⟦<MariadbBulkIndicator as PartialEq>⟧.eq };

    ghost laws = { param_value_per ⟦<MariadbBulkIndicator as PartialEq>⟧.eq laws-law };

    fn eq(&self, other: &Self) -> bool {
        self.indicator == other.indicator && *self.value == *other.value
    }
}

/// Whether the values at each position have the same indicator and the same content.
pub(crate) fn same_values(a: &SentValues<'_>, b: &SentValues<'_>) -> bool
    ensures { result ≡ pointwise ⟦<StmtBulkExecuteParamValue as PartialEq>⟧.eq (sent_values a.now.indicators.now (contents_of a.now.values.now)) (sent_values b.now.indicators.now (contents_of b.now.values.now)) }
{
    if a.values.len() != b.values.len() {
        return false;
    }
    for place in 0..a.values.len() {
        if a.at(place) != b.at(place) {
            return false;
        }
    }
    true
}

impl<'a> MySerialize for SentValues<'a> {
    ghost use Rattle.mysql_bulk.specs.ParamValue.{values_bytes};
    ghost use Rattle.mysql_bulk.specs.SentValues.{sent_values};
    ghost use Rattle.mysql_values.specs.Value.{contents_of};

    ghost bytes = { λ sent. values_bytes (sent_values sent.indicators.now (contents_of sent.values.now)) };

    fn defined_len(&self) -> usize {
        sent_len(self.values)
    }

    // A local buffer: writes to its bytes can't alias the buffer itself, so each number is one store.
    fn append<O: Buffer>(&self, out: &mut O) {
        if self.indicators.is_empty() {
            append_cells(out, self.values);
            return;
        }
        let mut bytes = out.taken();
        for place in 0..self.values.len() {
            self.at(place).append(&mut bytes);
        }
        *out = bytes;
    }
}

/// Values and the indicators that they were read with.
#[derive(Drop)]
pub(crate) struct ReadValues {
    pub(crate) values: Vec<Value>,
    pub(crate) indicators: Vec<MariadbBulkIndicator>,
}

/// Separates values from the indicators that they were read with.
pub(crate) fn part_from_indicators(
    alloc: Global,
    read: Vec<StmtBulkExecuteParamValue>,
) -> Result<ReadValues, AllocError>
    ensures { IfOk result (λ parts. sent_values parts.indicators.items (contents_of parts.values.items) ≡ read.items) }
{
    let mut values = Vec::with_capacity(alloc, read.len())?;
    let mut indicators = Vec::with_capacity(alloc, read.len())?;
    for value in read {
        indicators.push_reserved(value.indicator());
        values.push_reserved(value.into_value());
    }
    Ok(ReadValues { values, indicators })
}
