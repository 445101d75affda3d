//! The values of a row in a bulk request.

ghost use Rattle.std.specs.Prelude.{◌≡◌, [], map, List, None, IsOk, IfOk, OnErr};
ghost use Rattle.mysql_wire.specs.Reading.{Answers};
ghost use Rattle.mysql_wire.specs.Seq.{items_of};
ghost use Rattle.mysql_values.specs.Value.{contents_of};
ghost use Rattle.mysql_bulk.specs.ParamValue.{with_indicator};
ghost use Rattle.mysql_bulk.specs.ParamValues.{reads_first, values_of_columns};

use crate::param_value::StmtBulkExecuteParamValue;
use crate::row::clone_list;
use mysql_values::Value;
use mysql_wire::{
    AnyWidth, Buffer, ColumnFlags, ColumnType, FaultOf, MyDeserialize, MySerialize, ParseBuf,
    append_items, items_len,
};
use std::alloc::{AllocError, Global};
use std::convert::AsSlice;
use std::marker::Model;

/// Reads a value for each column. It takes memory once the first one is read. After an error the buffer is unchanged.
pub(crate) fn read_values<'s>(
    columns: &[(ColumnType, ColumnFlags)],
    buf: &mut ParseBuf<'_>,
) -> Result<Vec<StmtBulkExecuteParamValue>, FaultOf<'s>>
    ensures value { Answers (reads_first columns.now buf.old) (items_of result) buf.new ((values_of_columns columns.now).reads buf.old) }
    ensures err { OnErr result (buf.new ≡ buf.old) }
{
    let mut rest = buf.rest();
    let mut values = Vec::new(buf.alloc());
    for column in columns {
        let value: StmtBulkExecuteParamValue = rest.parse(*column)?;
        values.push(value)?;
    }
    *buf = rest;
    Ok(values)
}

/// The values of a row in a bulk request, each with its indicator.
#[derive(Debug, Drop)]
pub struct StmtBulkExecuteParamValues {
    values: Vec<StmtBulkExecuteParamValue>,
}

impl Model for StmtBulkExecuteParamValues {
    ghost use Rattle.std.specs.Prelude.{List};
    ghost use Rattle.mysql_bulk.specs.ParamValue.{ParamValue};

    ghost Value = { List ParamValue };

    ghost view = { λ row. row.values.items };
}

impl StmtBulkExecuteParamValues {
    /// Creates the values of a row, each with its indicator.
    pub fn new(alloc: Global, values: Vec<Value>) -> Result<Self, AllocError>
        ensures value { IfOk result (λ row. row ≡ map with_indicator (contents_of values.items)) }
        ensures no_memory { values.items ≡ [] → IsOk result }
    {
        let mut row = Vec::with_capacity(alloc, values.len())?;
        for value in values {
            row.push_reserved(StmtBulkExecuteParamValue::new(value));
        }
        Ok(StmtBulkExecuteParamValues { values: row })
    }
}

impl Clone for StmtBulkExecuteParamValues {
    ghost is_clone = { λ row copy. copy ≡ row };

    ghost is_infallible = { λ row. row ≡ [] };

    fn clone(&self) -> Result<Self, AllocError> {
        Ok(StmtBulkExecuteParamValues {
            values: clone_list(&self.values)?,
        })
    }
}

impl PartialEq for StmtBulkExecuteParamValues {
    ghost use Rattle.std.specs.Cmp.Lexicographic.{pointwise, lists_per};
    ghost use Rattle.mysql_bulk.specs.contracts.param_value.StmtBulkExecuteParamValuePartialEq.TheImpl.Laws as of_one;

    ghost eq = { pointwise ⟦<StmtBulkExecuteParamValue as PartialEq>⟧.eq };

    ghost laws = { lists_per of_one.laws-law };

    fn eq(&self, other: &Self) -> bool {
        self.values == other.values
    }
}

impl AsSlice<StmtBulkExecuteParamValue> for StmtBulkExecuteParamValues {
    ghost items = { λ row. row };

    fn as_slice(&self) -> &[StmtBulkExecuteParamValue] {
        self.values.as_slice()
    }
}

/// A value for each column, whose types and flags are the context. It takes memory once the first value is read.
impl<'de> MyDeserialize<'de> for StmtBulkExecuteParamValues {
    const SIZE: Option<usize> = None;

    type Size = AnyWidth;

    ghost takes_memory = { λ columns bytes. reads_first columns.items bytes };

    type Ctx = Vec<(ColumnType, ColumnFlags)>;

    ghost use Rattle.mysql_wire.specs.Each.{size-each};
    ghost use Rattle.mysql_bulk.specs.ParamValues.{value_of_column};

    ghost form = { λ columns. values_of_columns columns.items };

    #[tactic(auto, using(mysql_wire::proofs::Tails::tails))]
    fn deserialize<'s>(
        columns: Vec<(ColumnType, ColumnFlags)>,
        buf: &mut ParseBuf<'de>,
    ) -> Result<Self, FaultOf<'s>> {
        Ok(StmtBulkExecuteParamValues {
            values: read_values(columns.as_slice(), buf)?,
        })
    }

    ghost size_is = { λ columns. size-each value_of_column 0 columns.items };
}

/// The values of a row have no constant size.
pub fn param_values_have_no_constant_size() -> Option<usize>
    ensures value { result ≡ None }
{
    <StmtBulkExecuteParamValues as MyDeserialize>::SIZE
}

impl MySerialize for StmtBulkExecuteParamValues {
    ghost use Rattle.mysql_bulk.specs.ParamValue.{values_bytes};

    ghost bytes = { values_bytes };

    fn defined_len(&self) -> usize {
        items_len(self.values.as_slice())
    }

    fn append<O: Buffer>(&self, out: &mut O) {
        append_items(self.values.as_slice(), out);
    }
}
