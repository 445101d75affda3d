//! The parameters of an execution.

ghost use Rattle.std.specs.Prelude.{◌≡◌, ◌+◌, ◌≤◌, ◌<◌, ◌↔◌, IsTrue, IfOk, IsOk, [], length};
ghost use Rattle.mysql_wire.specs.Writing.{saturated};
ghost use Rattle.mysql_values.specs.Value.{contents_of};
ghost use Rattle.mysql_stmt.specs.ExecuteParams.{params_bytes, values_bytes, whole_size};
ghost use Rattle.mysql_stmt.specs.NullMarks.{MarksNulls};
ghost use Rattle.mysql_stmt.specs.Payload.{max_payload};

use crate::execute::ComStmtExecuteRequestBuilder;
use crate::null_bitmap::NullBitmap;
use crate::null_marks::nulls_of;
use crate::payload::MAX_PAYLOAD_LEN;
use crate::sent_nulls::SentNulls;
use crate::sent_params::SentParams;
use mysql_values::{ClientSide, Value};
use mysql_wire::{
    BareBytes, Const, MySerialize, Parts, RawBytes, Sink, StmtExecuteParamsFlags, parts,
};
use std::alloc::{AllocError, Global};
use std::borrow::CowSlice;

/// The written form of a bitmap: 8,192 bytes hold the bits of the maximum number of parameters of a statement.
type WrittenBitmap = BareBytes<8192>;

/// Returns the types and the values as they are written after this bitmap.
#[inline(always)]
fn sent<N: MySerialize>(
    nulls: N,
    values: &[Value],
    as_long_data: bool,
) -> SentParams<'_, N, Value, Value>
    ensures value { ⟦<SentParams<'static, N, Value, Value> as MySerialize>⟧.bytes result ≡ values_bytes (N.bytes nulls) as_long_data values.now }
{
    SentParams {
        nulls,
        types_follow: true,
        has_names: false,
        params: values,
        attributes: &[],
        as_long_data,
    }
}

/// The length in bytes of a request that sends all its values, of which there is at least one.
fn whole_len(params: &[Value]) -> usize
    ensures { result ≡ saturated (whole_size params.now) }
{
    let none: &[Value] = &[];
    let nulls = SentNulls {
        params,
        attributes: none,
    };
    sent(nulls, params, false)
        .defined_len()
        .saturating_add(ComStmtExecuteRequestBuilder::NULL_BITMAP_OFFSET)
}

/// The parameters of an execution: nothing if there are none, otherwise
///
/// | Bytes | Field |
/// |---|---|
/// | 1 for 8 parameters | the NULL bitmap, its first 8,192 bytes |
/// | 1 | flags: whether types follow |
/// | 2 for each | its type |
/// | to the end | the values, without byte strings if these are sent ahead as long data |
#[derive(Clone, Debug, PartialEq, Drop)]
pub(crate) struct ExecuteParams<'a> {
    pub(crate) bitmap: NullBitmap<'a, ClientSide>,
    pub(crate) flags: Const<StmtExecuteParamsFlags, u8>,
    pub(crate) values: &'a [Value],
    pub(crate) as_long_data: bool,
}

impl<'a> ExecuteParams<'a> {
    /// Creates the parameters of these values.
    pub(crate) fn new(alloc: Global, values: &'a [Value]) -> Result<Self, AllocError>
        ensures values { IfOk result (λ p. p.values.now ≡ values.now) }
        ensures bitmap { IfOk result (λ p. MarksNulls 0 (contents_of values.now) p.bitmap.bytes) }
        ensures flags { IfOk result (λ p. p.flags.0.0 ≡ 1) }
        ensures as_long_data { IfOk result (λ p. IsTrue p.as_long_data ↔ (max_payload < whole_size values.now)) }
        ensures fits { IfOk result (λ p. length values.now ≤ 65535 → 10 + length (params_bytes p) ≤ max_payload) }
        ensures no_memory { values.now ≡ [] → IsOk result }
    {
        Ok(ExecuteParams {
            bitmap: nulls_of(alloc, values)?,
            flags: Const::new(StmtExecuteParamsFlags::NEW_PARAMS_BOUND),
            values,
            as_long_data: whole_len(values) > MAX_PAYLOAD_LEN,
        })
    }
}

impl Parts for ExecuteParams<'_> {
    ghost bytes = { params_bytes };

    #[tactic(auto, using(crate::proofs::ParamLengths::whole))]
    fn put<S: Sink>(&self, sink: &mut S) {
        if self.values.is_empty() {
            sink.part(&parts!());
        } else {
            let bitmap: RawBytes<'_, WrittenBitmap> = RawBytes::new(CowSlice::Borrowed(
                self.bitmap.as_bytes(),
            ));
            sink.part(&sent(bitmap, self.values, self.as_long_data));
        }
    }
}
