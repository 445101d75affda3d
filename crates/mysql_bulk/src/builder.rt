//! A builder of bulk requests: its settings, and its requests.
//!
//! Declared column types are in `builder/columns.rt`, rows by value in `builder/owned.rt`, borrowed rows in
//! `builder/borrowed.rt`, runs over rows and over parameters in `run.rt` and `params_run.rt`, and a whole run
//! in `whole_run.rt`.

ghost use Rattle.std.specs.Prelude.{◌≡◌, ◌≢◌, ◌+◌, ◌≤◌, ◌-◌, ◌^◌, ◌↔◌, ◌++◌, ◌∷◌, [], length, map, IsTrue, MatchOption, IfSome, OnOk, OnErr, Some, None, true, false, sum_by, List, ℕ};
ghost use Rattle.std.specs.Option.{option_copied};
ghost use Rattle.mysql_cuts.specs.Cut.{PartFits};
ghost use Rattle.mysql_values.specs.Value.{Content};
ghost use Rattle.mysql_bulk.specs.Builder.{TakesArity, RowFits, Builds, IsConsistent};
ghost use Rattle.mysql_bulk.specs.BuilderEq.{columns_eq, rows_eq};
ghost use Rattle.mysql_bulk.specs.Request.{request_flags};
ghost use Rattle.mysql_bulk.specs.Row.{row_size, rows_packing};

use crate::error::BulkExecuteRequestError;
use crate::request::ComStmtBulkExecuteRequest;
use crate::row::{clone_list, row_len_by_call};
use crate::row_value::RowValue;
use crate::size::size_within;
use mysql_cuts::BulkRule;
use mysql_values::{ParamType, Value};
use mysql_wire::{Flags, StmtBulkExecuteFlags};
use std::alloc::{AllocError, Global};
use std::marker::Model;
use std::mem;

mod borrowed;
mod columns;
mod owned;

/// Collects rows for requests of a bulk execution, each within the packet limit.
///
/// Rows are added until one does not fit; then a request is built of the waiting rows, and so on. Only the
/// first request sends types, except with `with_types_always`.
///
/// The types are those that `with_column_types` declares. If none are declared, they are those of each column's
/// first value that is not `NULL`, and an integer is unsigned if any value of its column is. A server then
/// stores other values, or stops in the middle, in two cases:
///
/// * Values of a column are of different kinds: the server reads all of them under one type. -1 in a column with an
///   unsigned 5 is stored as 18446744073709551615, and 1 in a column with the double 1.5 as another number; there is
///   no error.
/// * A column is `NULL` in each row of the first request, which then declares `MYSQL_TYPE_NULL`: a later request,
///   which sends no types, is rejected if the column has a value, after the rows of the first one are stored.
///
/// With declared types neither happens.
///
/// In a clause, `state` is the settings and the waiting rows, and the capacities are those of the lists of values
/// and of types.
///
/// ```
/// let mut builder = ComStmtBulkExecuteRequestBuilder::new(alloc, 1, 31);
/// let run = builder.build_all(rows); // the fewest requests that fit, or which row has no place
/// ```
#[derive(Debug)]
pub struct ComStmtBulkExecuteRequestBuilder<'a> {
    names: Option<&'a [Vec<u8>]>,
    alloc: Global,
    stmt_id: u32,
    limit: u64,
    results: bool,
    rule: BulkRule,
    columns: Option<&'a [ParamType]>,
    arity: Option<usize>,
    types_due: bool,
    /// The number of waiting rows, and their length in a request in bytes.
    count: usize,
    size: u64,
    /// The values of the waiting rows, row after row.
    values: Vec<Value>,
    /// The types of the columns so far, while types are to be sent.
    types: Vec<ParamType>,
}

impl Drop for ComStmtBulkExecuteRequestBuilder<'_> {
    #[inline(always)]
    fn drop(self) {
        let ComStmtBulkExecuteRequestBuilder {
            names: _,
            alloc: _,
            stmt_id: _,
            limit: _,
            results: _,
            rule: _,
            columns: _,
            arity: _,
            types_due: _,
            count: _,
            size: _,
            values: _,
            types: _,
        } = self;
    }
}

impl<'a> Model for ComStmtBulkExecuteRequestBuilder<'a> {
    ghost use Rattle.std.specs.Prelude.{vec_capacity};
    ghost use Rattle.std.specs.Option.{option_copied};
    ghost use Rattle.mysql_bulk.specs.Builder.{Builder, IsStoredAs, builder_state};
    ghost use Rattle.mysql_values.specs.Value.{contents_of};

    ghost Value = { Builder };

    ghost view = { λ a. record {
      state = builder_state a.stmt_id a.limit a.results a.rule (option_copied a.names) (option_copied a.columns) a.arity a.types_due a.count (contents_of a.values.items);
      values_capacity = vec_capacity a.values;
      types_capacity = vec_capacity a.types;
    } };

    ghost invariant = { λ a. IsStoredAs (builder_state a.stmt_id a.limit a.results a.rule (option_copied a.names) (option_copied a.columns) a.arity a.types_due a.count (contents_of a.values.items)) a.count a.size (contents_of a.values.items) a.types.items };
}

impl<'a> Clone for ComStmtBulkExecuteRequestBuilder<'a> {
    ghost is_clone = { λ builder copy. copy.state ≡ builder.state };

    ghost is_infallible = { λ builder. builder.state.waiting ≡ [] };

    fn clone(&self) -> Result<Self, AllocError> {
        Ok(ComStmtBulkExecuteRequestBuilder {
            names: self.names,
            alloc: self.alloc,
            stmt_id: self.stmt_id,
            limit: self.limit,
            results: self.results,
            rule: self.rule,
            columns: self.columns,
            arity: self.arity,
            types_due: self.types_due,
            count: self.count,
            size: self.size,
            values: clone_list(&self.values)?,
            types: clone_list(&self.types)?,
        })
    }
}

/// Compares the settings, and the values of the waiting rows.
impl<'a> PartialEq for ComStmtBulkExecuteRequestBuilder<'a> {
    ghost use Rattle.std.specs.Cmp.{on_per};
    ghost use Rattle.mysql_bulk.specs.BuilderEq.{builder_eq, builder_per};
    ghost use Rattle.mysql_cuts.specs.contracts.rule.BulkRulePartialEq.TheImpl.Laws as of_rules;
    ghost use Rattle.mysql_values.specs.contracts.param_type.ParamTypePartialEq.TheImpl.Laws as of_types;

    ghost eq = { λ a b. builder_eq ⟦<BulkRule as PartialEq>⟧.eq ⟦<ParamType as PartialEq>⟧.eq a.state b.state };

    ghost laws = { on_per (λ builder. builder.state) (builder_per ⟦<BulkRule as PartialEq>⟧.eq ⟦<ParamType as PartialEq>⟧.eq of_rules.laws-law of_types.laws-law) };

    fn eq(&self, other: &Self) -> bool {
        self.stmt_id == other.stmt_id
            && self.limit == other.limit
            && self.results == other.results
            && self.rule == other.rule
            && self.same_columns(other)
            && self.types_due == other.types_due
            && self.arity == other.arity
            && self.same_rows_wait(other)
    }
}

/// The length in bytes of a given number of waiting rows with one more of a given length, if these fit in one
/// request.
// (inlined: the length of a row of a known number of values is counted without a loop then)
#[inline(always)]
pub(crate) fn size_with<V: RowValue>(
    rule: BulkRule,
    limit: u64,
    types: bool,
    count: usize,
    size: u64,
    row: &[V],
    row_bytes: Option<u64>,
) -> Option<u64>
    requires { MatchOption row_bytes (2 ^ 64 ≤ row_size (map V.content row.now)) (λ n. n ≡ row_size (map V.content row.now)) }
    ensures size { IfSome result (λ n. n ≡ size + row_size (map V.content row.now)) }
    ensures fits { (rows : List (List Content)) → length rows ≡ count → size ≡ sum_by row_size rows →
        MatchOption result (PartFits (rows_packing rule limit (length row.now)) types (rows ++ map V.content row.now ∷ []) → ⊥)
        (λ n. PartFits (rows_packing rule limit (length row.now)) types (rows ++ map V.content row.now ∷ []) × (n ≡ sum_by row_size (rows ++ map V.content row.now ∷ []))) }
{
    size_within(rule, limit, row.len(), types, count, size, row_bytes?)
}

/// The flags of a request.
pub(crate) fn flags_of(types: bool, results: bool) -> StmtBulkExecuteFlags
    ensures { result ≡ request_flags types results }
{
    match (types, results) {
        (true, true) => {
            StmtBulkExecuteFlags::SEND_TYPES_TO_SERVER | StmtBulkExecuteFlags::SEND_UNIT_RESULTS
        }
        (true, false) => StmtBulkExecuteFlags::SEND_TYPES_TO_SERVER,
        (false, true) => StmtBulkExecuteFlags::SEND_UNIT_RESULTS,
        (false, false) => StmtBulkExecuteFlags::from_bits_retain(0),
    }
}

impl<'a> ComStmtBulkExecuteRequestBuilder<'a> {
    /// Creates a builder without rows. A request may be as long as a packet, minus four bytes. It takes no memory.
    pub fn new(alloc: Global, stmt_id: u32, max_allowed_packet: usize) -> Self
        requires { 4 ≤ max_allowed_packet }
        ensures { result ≡ record { state = record { stmt_id = stmt_id; limit = max_allowed_packet - 4; results = false; rule = record { types_always = false; max_rows = None }; names = None; columns = None; arity = None; types_due = true; waiting = [] }; values_capacity = 0; types_capacity = 0 } }
    {
        ComStmtBulkExecuteRequestBuilder {
            names: None,
            alloc,
            stmt_id,
            limit: (max_allowed_packet - 4) as u64,
            results: false,
            rule: BulkRule::PLAIN,
            columns: None,
            arity: None,
            types_due: true,
            count: 0,
            size: 0,
            values: Vec::new(alloc),
            types: Vec::new(alloc),
        }
    }

    /// Sets the names of the parameters, in the order of the statement, for `add_params`.
    pub fn with_named_params(self, names: Option<&'a [Vec<u8>]>) -> Self
        ensures { result ≡ record self.entry { state = record self.entry.state { names = option_copied names.entry } } }
    {
        let mut builder = self;
        builder.names = names;
        builder
    }

    /// Requests a result for each row from the server.
    pub fn with_results(self) -> Self
        ensures { result ≡ record self.entry { state = record self.entry.state { results = true } } }
    {
        let mut builder = self;
        builder.results = true;
        builder
    }

    /// Sends types in every request from now on, even if a request was built before.
    pub fn with_types_always(self) -> Self
        requires { self.state.waiting ≡ [] }
        ensures { result ≡ record self.entry { state = record self.entry.state { types_due = true; rule = record self.entry.state.rule { types_always = true } } } }
    {
        let mut builder = self;
        builder.types_due = true;
        builder.rule = BulkRule {
            types_always: true,
            max_rows: builder.rule.max_rows,
        };
        builder
    }

    /// Sends at most `k` rows in a request.
    pub fn with_max_rows(self, k: usize) -> Self
        requires none_waits { self.state.waiting ≡ [] }
        requires some { 1 ≤ k }
        ensures { result ≡ record self.entry { state = record self.entry.state { rule = record self.entry.state.rule { max_rows = Some k } } } }
    {
        let mut builder = self;
        builder.rule = BulkRule {
            types_always: builder.rule.types_always,
            max_rows: Some(k),
        };
        builder
    }

    /// The current rule: when types are sent, and the maximum number of rows.
    pub fn rule(&self) -> BulkRule
        ensures { result ≡ self.now.state.rule }
    {
        self.rule
    }

    /// Whether rows wait for a request.
    pub fn has_rows(&self) -> bool
        ensures { IsTrue result ↔ (self.now.state.waiting ≢ []) }
    {
        self.count != 0
    }

    /// Whether both have the same names, and the same declared types.
    fn same_columns(&self, other: &Self) -> bool
        ensures { result ≡ columns_eq ⟦<ParamType as PartialEq>⟧.eq self.now.state other.now.state }
    {
        self.names == other.names && self.columns == other.columns
    }

    /// Whether the waiting rows of both are equal, given that their rows have the same length.
    fn same_rows_wait(&self, other: &Self) -> bool
        ensures { self.now.state.arity ≡ other.now.state.arity → result ≡ rows_eq self.now.state.waiting other.now.state.waiting }
    {
        self.count == other.count && self.values == other.values
    }

    /// Does nothing; its contract states the invariant of every builder, for the proof of a run.
    #[inline(always)]
    pub(crate) fn is_consistent(&self)
        ensures { IsConsistent self.now.state }
    {
        let _names = &self.names;
    }

    /// The number of waiting rows.
    pub(crate) fn rows_waiting(&self) -> usize
        ensures { result ≡ length self.now.state.waiting }
    {
        self.count
    }

    /// Whether a row of `arity` values may follow the rows that were accepted.
    fn takes_arity(&self, arity: usize) -> bool
        ensures { IsTrue result ↔ TakesArity self.now.state.arity arity }
    {
        match self.arity {
            Some(known) => arity == known,
            None => true,
        }
    }

    /// The length in bytes of the waiting rows with one more, if these fit in one request.
    #[inline(always)]
    fn size_after<V: RowValue>(&self, row: &[V]) -> Option<u64>
        ensures { MatchOption result (RowFits self.now.state (map V.content row.now) → ⊥)
            (λ n. RowFits self.now.state (map V.content row.now) × (n ≡ sum_by row_size (self.now.state.waiting ++ map V.content row.now ∷ []))) }
    {
        // (the number of values is mostly not known: they are counted by a call)
        size_with(
            self.rule,
            self.limit,
            self.types_due,
            self.count,
            self.size,
            row,
            row_len_by_call(row),
        )
    }

    /// Builds the request of the waiting rows, which then no longer wait. Its length is that of rows of their
    /// sizes, which is within the limit, and it takes no memory.
    ///
    /// The error is `NoParams` exactly if no row waits; the builder is unchanged then.
    pub fn build(&mut self) -> Result<ComStmtBulkExecuteRequest, BulkExecuteRequestError>
        ensures builds { Builds self.old.state result self.new.state }
        ensures stays { OnErr result (self.new ≡ self.old) }
        // The lists of the next request have no memory yet.
        ensures no_buffer { OnOk result ((self.new.values_capacity ≡ 0) × (self.new.types_capacity ≡ 0)) }
    {
        if self.count == 0 {
            return Err(BulkExecuteRequestError::NoParams);
        }
        let values = mem::replace(&mut self.values, Vec::new(self.alloc));
        let types = mem::replace(&mut self.types, Vec::new(self.alloc));
        let size = 7 + 2 * types.len() as u64 + self.size;
        let bulk_flags = flags_of(self.types_due, self.results);
        self.count = 0;
        self.size = 0;
        self.types_due = self.rule.types_always;
        Ok(ComStmtBulkExecuteRequest {
            stmt_id: self.stmt_id,
            bulk_flags,
            types,
            values,
            indicators: Vec::new(self.alloc),
            size: size as usize,
        })
    }
}
