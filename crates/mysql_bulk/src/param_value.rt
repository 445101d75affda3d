//! A value in a bulk request, with its indicator.

ghost use Rattle.std.specs.Prelude.{◌≡◌, Option, None, refl};
ghost use Rattle.mysql_bulk.specs.ParamValue.{indicator_of};
ghost use Rattle.mysql_values.specs.Value.{content_of};

use mysql_values::{BinValue, Value, ValueDeserializer};
use mysql_wire::{
    AnyWidth, ColumnFlags, ColumnType, Const, FaultOf, Flags, MariadbBulkIndicator, MyDeserialize,
    ParseBuf, Parts, Sink, parts,
};
use std::alloc::AllocError;
use std::marker::Model;

/// The indicator of a value that wasn't read with one: `BULK_INDICATOR_NULL` for `NULL`, otherwise `BULK_INDICATOR_NONE`.
#[inline(always)]
pub(crate) fn indicator_of(value: &Value) -> MariadbBulkIndicator
    ensures { result ≡ indicator_of (content_of value.now) }
{
    match value {
        Value::NULL => MariadbBulkIndicator::BULK_INDICATOR_NULL,
        _ => MariadbBulkIndicator::BULK_INDICATOR_NONE,
    }
}

/// A value in a bulk request: the indicator in a byte, and after `BULK_INDICATOR_NONE` the value's binary form.
#[derive(Debug)]
pub struct StmtBulkExecuteParamValue {
    indicator: MariadbBulkIndicator,
    value: Value,
}

impl Drop for StmtBulkExecuteParamValue {
    #[inline(always)]
    fn drop(self) {
        let StmtBulkExecuteParamValue {
            indicator: _,
            value: _,
        } = self;
    }
}

impl Model for StmtBulkExecuteParamValue {
    ghost use Rattle.mysql_bulk.specs.ParamValue.{ParamValue};
    ghost use Rattle.mysql_values.specs.Value.{content_of};

    ghost Value = { ParamValue };

    ghost view = { λ v. record { indicator = v.indicator; content = content_of v.value } };
}

impl StmtBulkExecuteParamValue {
    ghost use Rattle.mysql_bulk.specs.ParamValue.{with_indicator};
    ghost use Rattle.mysql_values.specs.Value.{content_of};

    /// Creates the value with its indicator: `BULK_INDICATOR_NULL` for `NULL`, otherwise `BULK_INDICATOR_NONE`.
    #[inline]
    pub fn new(value: Value) -> Self
        ensures { result ≡ with_indicator (content_of value) }
    {
        let indicator = indicator_of(&value);
        StmtBulkExecuteParamValue { indicator, value }
    }

    /// The indicator: how the value is given.
    pub fn indicator(&self) -> MariadbBulkIndicator
        ensures value { result ≡ self.now.indicator }
    {
        self.indicator
    }

    /// The value; `NULL` if none follows the indicator.
    pub fn value(&self) -> &Value
        ensures value { content_of result.now ≡ self.now.content }
    {
        &self.value
    }

    /// Returns the value without its indicator.
    pub(crate) fn into_value(self) -> Value
        ensures { content_of result ≡ self.content }
    {
        let StmtBulkExecuteParamValue {
            indicator: _,
            value,
        } = self;
        value
    }
}

impl Clone for StmtBulkExecuteParamValue {
    ghost use Rattle.std.specs.Prelude.{◌≡◌, IsFalse};
    ghost use Rattle.mysql_values.specs.ValueDeserializer.{has_bytes};

    ghost is_clone = { λ value copy. copy ≡ value };

    ghost is_infallible = { λ value. IsFalse (has_bytes value.content) };

    fn clone(&self) -> Result<Self, AllocError> {
        Ok(StmtBulkExecuteParamValue {
            indicator: self.indicator,
            value: self.value.clone()?,
        })
    }
}

impl PartialEq for StmtBulkExecuteParamValue {
    ghost use Rattle.mysql_wire.specs.contracts.codes.mariadb_bulk_indicator.MariadbBulkIndicatorPartialEq.TheImpl.Laws.{laws-law};
    ghost use Rattle.mysql_bulk.specs.ParamValueEq.{param_value_eq, param_value_per};

    ghost eq = { param_value_eq ⟦<MariadbBulkIndicator as PartialEq>⟧.eq };

    ghost laws = { param_value_per ⟦<MariadbBulkIndicator as PartialEq>⟧.eq laws-law };

    fn eq(&self, other: &Self) -> bool {
        self.indicator == other.indicator && self.value == other.value
    }
}

/// The indicator in a byte, and after `BULK_INDICATOR_NONE` a value of the column's type. Only a nonempty string takes memory.
impl<'de> MyDeserialize<'de> for StmtBulkExecuteParamValue {
    const SIZE: Option<usize> = None;

    type Size = AnyWidth;

    ghost takes_memory = { λ column bytes. param_has_bytes ((param_value column.0 (has column.1.0 UNSIGNED_FLAG)).reads bytes) };

    type Ctx = (ColumnType, ColumnFlags);

    ghost use Rattle.mysql_wire.specs.FlagMasks.{UNSIGNED_FLAG};
    ghost use Rattle.mysql_wire.specs.Flags.{has};
    ghost use Rattle.mysql_bulk.specs.ParamValue.{param_has_bytes, param_value};

    ghost form = { λ column. param_value column.0 (has column.1.0 UNSIGNED_FLAG) };

    #[tactic(auto, using(mysql_wire::proofs::Tails::tails))]
    fn deserialize<'s>(
        column: (ColumnType, ColumnFlags),
        buf: &mut ParseBuf<'de>,
    ) -> Result<Self, FaultOf<'s>> {
        let mut rest = buf.rest();
        let indicator: Const<MariadbBulkIndicator, u8> = rest.parse(())?;
        let value = match indicator.0 {
            MariadbBulkIndicator::BULK_INDICATOR_NONE => {
                let value: ValueDeserializer<BinValue> = rest.parse(column)?;
                value.0
            }
            _ => Value::NULL,
        };
        *buf = rest;
        Ok(StmtBulkExecuteParamValue {
            indicator: indicator.0,
            value,
        })
    }

    ghost size_is = { λ _. refl };
}

/// A value after its indicator has no constant size.
pub fn param_value_has_no_constant_size() -> Option<usize>
    ensures value { result ≡ None }
{
    <StmtBulkExecuteParamValue as MyDeserialize>::SIZE
}

impl Parts for StmtBulkExecuteParamValue {
    ghost use Rattle.mysql_bulk.specs.ParamValue.{param_value_bytes};

    ghost bytes = { param_value_bytes };

    #[inline(always)]
    fn put<S: Sink>(&self, sink: &mut S) {
        let indicator = Const::<MariadbBulkIndicator, u8>::new(self.indicator);
        sink.part(&parts!(indicator, self.value));
    }
}
