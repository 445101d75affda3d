//! A bulk request.

ghost use Rattle.std.specs.Prelude.{◌≡◌, ◌≢◌, ◌+◌, ◌*◌, length, None, refl, Err, IfOk, IsOk, if◌then◌else◌, fold, [], slice_get};
ghost use Rattle.std.specs.Option.{option_map};
ghost use Rattle.mysql_wire.specs.Writing.{saturated};
ghost use Rattle.mysql_cuts.specs.Cut.{rows_in};
ghost use Rattle.mysql_bulk.specs.DeclaredTypes.{types_with_row};
ghost use Rattle.mysql_bulk.specs.RequestNew.{MakesRequest};
ghost use Rattle.mysql_bulk.specs.ParamValue.{ParamValue, contents};
ghost use Rattle.mysql_bulk.specs.RequestForm.{with_head};
ghost use Rattle.mysql_bulk.specs.Row.{row_size, contents_of_rows, EqualLengths};
ghost use Rattle.mysql_bulk.specs.SentValues.{sent_values};
ghost use Rattle.mysql_values.specs.Value.{contents_of};

use crate::declared_types::join_row;
use crate::error::BulkExecuteRequestError;
use crate::head::{Head, read_head, sends_types};
use crate::param_values::read_values;
use crate::row::{append_row, clone_list, equally_long, find_capacity};
use crate::sent_values::{SentValues, part_from_indicators, same_values, sent_len};
use mysql_values::{ParamType, Value};
use mysql_wire::{
    AnyWidth, Buffer, ColumnFlags, ColumnType, ComStmtBulkExecuteHeader, Const, FaultOf, LeU16,
    LeU32, MariadbBulkIndicator, MyDeserialize, MySerialize, ParseBuf, RawInt, Seq,
    StmtBulkExecuteFlags, Unknown, items_len, parts,
};
use std::alloc::{AllocError, Global};
use std::marker::Model;

/// Creates the request of a head and its values, with the indicators that were read with them, if any.
#[tactic(auto, using(crate::proofs::SentValues::contents_of_sent))]
fn with_head(
    head: Head,
    values: Vec<Value>,
    indicators: Vec<MariadbBulkIndicator>,
) -> ComStmtBulkExecuteRequest
    ensures { result ≡ with_head head (sent_values indicators.items (contents_of values.items)) }
{
    let size = written_len(head.types.as_slice(), values.as_slice());
    ComStmtBulkExecuteRequest {
        stmt_id: head.stmt_id,
        bulk_flags: head.bulk_flags,
        types: head.types,
        values,
        indicators,
        size,
    }
}

/// The encoded length in bytes, or `usize::MAX` if it is greater.
#[tactic(auto, using(crate::proofs::RequestBytes::request_lengths), unfolding(mysql_wire::specs::Writing::saturated))]
fn written_len(types: &[ParamType], values: &[Value]) -> usize
    ensures { result ≡ saturated (7 + 2 * length types.now + row_size (contents_of values.now)) }
{
    items_len(types)
        .saturating_add(sent_len(values))
        .saturating_add(7)
}

/// The types of the columns of some rows, and their values one after another.
#[derive(Drop)]
struct Parts {
    types: Vec<ParamType>,
    values: Vec<Value>,
}

/// Takes the values out of rows of one length, and the types of the columns if they are sent.
fn gather(
    alloc: Global,
    sent: bool,
    arity: usize,
    rows: Vec<Vec<Value>>,
) -> Result<Parts, AllocError>
    requires { EqualLengths arity (contents_of_rows rows.items) }
    ensures types { IfOk result (λ parts. parts.types.items ≡ (if sent then fold types_with_row [] (contents_of_rows rows.items) else [])) }
    ensures values { IfOk result (λ parts. contents_of parts.values.items ≡ rows_in (contents_of_rows rows.items)) }
    ensures no_memory { arity ≡ 0 → IsOk result }
{
    let mut types = Vec::new(alloc);
    let mut values = Vec::new(alloc);
    for row in rows {
        find_capacity(&mut values, &mut types, sent, arity)?;
        join_row(&mut types, sent, row.as_slice());
        append_row(&mut values, row);
    }
    Ok(Parts { types, values })
}

/// `COM_STMT_BULK_EXECUTE`: executes a prepared statement for each of some rows of values.
///
/// ```
/// let mut builder = builder.with_column_types(types)?;
/// let mut sent = 0usize;
/// for request in builder.build_iter(rows) {
/// send(connection, &request?)?;
/// sent = sent.saturating_add(1);
/// }
/// ```
#[derive(Debug)]
pub struct ComStmtBulkExecuteRequest {
    pub(crate) stmt_id: u32,
    pub(crate) bulk_flags: StmtBulkExecuteFlags,
    pub(crate) types: Vec<ParamType>,
    pub(crate) values: Vec<Value>,
    /// The indicators that were read with the values: none if the request was built.
    pub(crate) indicators: Vec<MariadbBulkIndicator>,
    /// The encoded length of the request in bytes, or `usize::MAX` if it is greater.
    pub(crate) size: usize,
}

impl Drop for ComStmtBulkExecuteRequest {
    #[inline(always)]
    fn drop(self) {
        let ComStmtBulkExecuteRequest {
            stmt_id: _,
            bulk_flags: _,
            types: _,
            values: _,
            indicators: _,
            size: _,
        } = self;
    }
}

impl Model for ComStmtBulkExecuteRequest {
    ghost use Rattle.std.specs.Prelude.{◌≡◌};
    ghost use Rattle.mysql_wire.specs.Writing.{saturated};
    ghost use Rattle.mysql_values.specs.Value.{contents_of};
    ghost use Rattle.mysql_bulk.specs.Request.{BulkRequest, written_size};
    ghost use Rattle.mysql_bulk.specs.SentValues.{sent_values};

    ghost Value = { BulkRequest };

    ghost view = { λ a. record {
      stmt_id = a.stmt_id;
      bulk_flags = a.bulk_flags;
      types = a.types.items;
      values = sent_values a.indicators.items (contents_of a.values.items);
    } };

    ghost invariant = { λ a. a.size ≡ saturated (written_size (record {
      stmt_id = a.stmt_id;
      bulk_flags = a.bulk_flags;
      types = a.types.items;
      values = sent_values a.indicators.items (contents_of a.values.items);
    })) };
}

impl ComStmtBulkExecuteRequest {
    /// Creates the request of some rows, with the types of their columns if the flags say that types are sent.
    ///
    /// The error is `NoParams` if there is no row, otherwise `MixedArity` if two rows differ in length,
    /// otherwise `Memory` if an allocation fails. The rows are dropped in each case.
    pub fn new(
        alloc: Global,
        stmt_id: u32,
        bulk_flags: StmtBulkExecuteFlags,
        rows: Vec<Vec<Value>>,
    ) -> Result<Self, BulkExecuteRequestError>
        ensures makes { MakesRequest stmt_id bulk_flags (contents_of_rows rows.items) result }
        // Rows without values don't allocate.
        ensures no_memory { EqualLengths 0 (contents_of_rows rows.items) → result ≢ Err BulkExecuteRequestError.Memory }
    {
        if rows.is_empty() {
            return Err(BulkExecuteRequestError::NoParams);
        }
        let arity = rows[0].len();
        if !equally_long(rows.as_slice(), arity) {
            return Err(BulkExecuteRequestError::MixedArity);
        }
        match gather(alloc, sends_types(bulk_flags), arity, rows) {
            Ok(parts) => Ok(with_head(
                Head {
                    stmt_id,
                    bulk_flags,
                    types: parts.types,
                },
                parts.values,
                Vec::new(alloc),
            )),
            Err(_) => Err(BulkExecuteRequestError::Memory),
        }
    }

    /// The statement's number.
    pub fn stmt_id(&self) -> u32
        ensures value { result ≡ self.now.stmt_id }
    {
        self.stmt_id
    }

    /// Whether types are sent, and whether a result is requested for each row.
    pub fn bulk_flags(&self) -> StmtBulkExecuteFlags
        ensures value { result ≡ self.now.bulk_flags }
    {
        self.bulk_flags
    }

    /// The types of the columns; none if they are not sent.
    pub fn types(&self) -> &[ParamType]
        ensures value { result.now ≡ self.now.types }
    {
        self.types.as_slice()
    }

    /// The values, row after row.
    pub fn values(&self) -> &[Value]
        ensures value { contents_of result.now ≡ contents self.now.values }
    {
        self.values.as_slice()
    }

    /// The indicator of the value at this position, or `None` past the last value.
    ///
    /// It is the one that was read, or otherwise `BULK_INDICATOR_NULL` for `NULL` and `BULK_INDICATOR_NONE` for
    /// other values.
    pub fn indicator(&self, place: usize) -> Option<MariadbBulkIndicator>
        ensures value { result ≡ option_map (λ (v : ParamValue). v.indicator) (slice_get self.now.values place) }
    {
        if place < self.values.len() {
            Some(self.sent().at(place).indicator())
        } else {
            None
        }
    }

    /// The values, each after its indicator.
    #[inline(always)]
    fn sent(&self) -> SentValues<'_>
        ensures { sent_values result.indicators.now (contents_of result.values.now) ≡ self.now.values }
    {
        SentValues {
            values: self.values.as_slice(),
            indicators: self.indicators.as_slice(),
        }
    }
}

/// Clones the indicators of values. Without values there are none, which takes no memory.
fn clone_indicators(
    indicators: &Vec<MariadbBulkIndicator>,
    values: &[Value],
) -> Result<Vec<MariadbBulkIndicator>, AllocError>
    ensures same { IfOk result (λ copy. sent_values copy.items (contents_of values.now) ≡ sent_values indicators.now.items (contents_of values.now)) }
    ensures no_memory { values.now ≡ [] → IsOk result }
{
    if values.is_empty() {
        return Ok(Vec::new(*indicators.allocator()));
    }
    clone_list(indicators)
}

impl Clone for ComStmtBulkExecuteRequest {
    ghost is_clone = { λ request copy. copy ≡ request };

    ghost is_infallible = { λ request. (request.types ≡ []) × (request.values ≡ []) };

    #[tactic(auto, using(crate::proofs::SentValues::none_sent))]
    fn clone(&self) -> Result<Self, AllocError> {
        Ok(ComStmtBulkExecuteRequest {
            stmt_id: self.stmt_id,
            bulk_flags: self.bulk_flags,
            types: clone_list(&self.types)?,
            values: clone_list(&self.values)?,
            indicators: clone_indicators(&self.indicators, self.values.as_slice())?,
            size: self.size,
        })
    }
}

impl PartialEq for ComStmtBulkExecuteRequest {
    ghost use Rattle.mysql_bulk.specs.RequestEq.{request_eq, request_per};
    ghost use Rattle.mysql_values.specs.contracts.param_type.ParamTypePartialEq.TheImpl.Laws as of_types;
    ghost use Rattle.mysql_bulk.specs.contracts.param_value.StmtBulkExecuteParamValuePartialEq.TheImpl.Laws as of_values;

    ghost eq = { request_eq ⟦<ParamType as PartialEq>⟧.eq ⟦<crate::param_value::StmtBulkExecuteParamValue as PartialEq>⟧.eq };

    ghost laws = { request_per ⟦<ParamType as PartialEq>⟧.eq ⟦<crate::param_value::StmtBulkExecuteParamValue as PartialEq>⟧.eq of_types.laws-law of_values.laws-law };

    fn eq(&self, other: &Self) -> bool {
        self.stmt_id == other.stmt_id
            && self.bulk_flags == other.bulk_flags
            && self.types == other.types
            && same_values(&self.sent(), &other.sent())
    }
}

/// The header, the statement's number, the flags, the types if they are sent, and one row of values.
///
/// The context is the types and flags of the columns; if the request sends types, they replace these. Further
/// rows remain unread: see `read_bulk_rows`. Without columns, and for an invalid head, it takes no memory.
impl<'de> MyDeserialize<'de> for ComStmtBulkExecuteRequest {
    const SIZE: Option<usize> = None;

    type Size = AnyWidth;

    ghost takes_memory = { λ columns bytes. keeps_lists (length columns.items) bytes };

    type Ctx = Vec<(ColumnType, ColumnFlags)>;

    ghost use Rattle.mysql_bulk.specs.RequestForm.{bulk_request, keeps_lists};

    ghost form = { λ columns. bulk_request columns.items };

    #[tactic(auto, using(mysql_wire::proofs::Tails::tails))]
    fn deserialize<'s>(
        columns: Vec<(ColumnType, ColumnFlags)>,
        buf: &mut ParseBuf<'de>,
    ) -> Result<Self, FaultOf<'s>> {
        let mut rest = buf.rest();
        let count = columns.len();
        let head = read_head(count, &mut rest)?;
        // Without columns nothing is allocated.
        if count == 0 {
            *buf = rest;
            return Ok(with_head(head, Vec::new(buf.alloc()), Vec::new(buf.alloc())));
        }
        let columns = head.value_columns(buf.alloc(), columns.as_slice())?;
        let values = read_values(columns.as_slice(), &mut rest)?;
        let parts = part_from_indicators(buf.alloc(), values)?;
        *buf = rest;
        Ok(with_head(head, parts.values, parts.indicators))
    }

    ghost size_is = { λ _. refl };
}

/// A request has no constant size.
pub fn request_has_no_constant_size() -> Option<usize>
    ensures value { result ≡ None }
{
    <ComStmtBulkExecuteRequest as MyDeserialize>::SIZE
}

impl MySerialize for ComStmtBulkExecuteRequest {
    ghost use Rattle.mysql_bulk.specs.Request.{request_bytes};

    ghost bytes = { request_bytes };

    fn defined_len(&self) -> usize {
        self.size
    }

    #[tactic(auto, unfolding(crate::specs::Head::head))]
    fn append<O: Buffer>(&self, out: &mut O) {
        let header = ComStmtBulkExecuteHeader::new();
        let stmt_id = RawInt::<LeU32>::new(self.stmt_id);
        let bulk_flags = Const::<StmtBulkExecuteFlags, LeU16>::new(self.bulk_flags);
        let types = Seq::<ParamType, Unknown>::borrowed(self.types.as_slice());
        let values = self.sent();
        parts!(parts!(header, stmt_id, bulk_flags, types), values).append(out);
    }
}
