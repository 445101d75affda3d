//! Adding rows by value.

ghost use Rattle.std.specs.Prelude.{◌≡◌, ◌≢◌, ◌++◌, ◌∷◌, [], length, Ok, Err, IsOk, IfErr, OnOk, sum_by};
ghost use Rattle.std.specs.Global.{Vec};
ghost use Rattle.mysql_values.specs.declared.value.Value.{Value};
ghost use Rattle.mysql_values.specs.Params as given_by;
ghost use Rattle.mysql_bulk.specs.declared.error.BulkExecuteRequestBuilderError.TheVariants as refused;
ghost use Rattle.mysql_bulk.specs.Builder.{TakesRow, RowFits, Adds, AddsRow, AddsParams, HasRoom, KeepsCapacity, after_row};
ghost use Rattle.mysql_bulk.specs.Row.{contents_of_row, row_size};

use super::ComStmtBulkExecuteRequestBuilder;
use crate::column_types::join_types;
use crate::error::{BulkExecuteRequestBuilderError, BulkExecuteRequestError};
use crate::row::{append_row, find_capacity};
use mysql_values::{Params, Value};

impl<'a> ComStmtBulkExecuteRequestBuilder<'a> {
    /// Adds a row, or returns it if it doesn't fit with the waiting rows.
    // Inlined with `size_after`: a loop over rows is faster then.
    #[inline(always)]
    pub(crate) fn add(
        &mut self,
        row: Vec<Value>,
    ) -> Result<Option<Vec<Value>>, BulkExecuteRequestError>
        ensures adds { Adds self.old.state row result self.new.state }
        ensures no_memory { HasRoom self.old (length row.items) → (back : Vec Value) → result ≢ Err (BulkExecuteRequestError.MemoryRow back) }
        ensures capacity { KeepsCapacity self.old self.new }
    {
        if !self.takes_arity(row.len()) {
            return Err(BulkExecuteRequestError::MixedArity);
        }
        if !self.takes_types(row.as_slice()) {
            return Err(BulkExecuteRequestError::MixedTypes(row));
        }
        let Some(size) = self.size_after(row.as_slice()) else {
            return if self.has_rows() {
                Ok(Some(row))
            } else {
                Err(BulkExecuteRequestError::RowTooLarge(row))
            };
        };
        match self.keep(row, size) {
            Ok(()) => Ok(None),
            Err(row) => Err(BulkExecuteRequestError::MemoryRow(row)),
        }
    }

    /// Adds a row of a valid length that fits; with it, the waiting rows have `size` bytes. If the allocation
    /// fails, the row is returned.
    #[inline(always)]
    fn keep(&mut self, row: Vec<Value>, size: u64) -> Result<(), Vec<Value>>
        requires takes { TakesRow self.old.state (contents_of_row row) }
        requires fits { RowFits self.old.state (contents_of_row row) }
        requires size { size ≡ sum_by row_size (self.old.state.waiting ++ contents_of_row row ∷ []) }
        ensures kept { OnOk result (self.new.state ≡ after_row self.old.state (contents_of_row row)) }
        ensures back { IfErr result (λ back. (back ≡ row) × (self.new.state ≡ self.old.state)) }
        ensures no_memory { HasRoom self.old (length row.items) → IsOk result }
        ensures capacity { KeepsCapacity self.old self.new }
    {
        let arity = row.len();
        let Some(count) = self.count.checked_add(1) else {
            return Err(row);
        };
        let Ok(()) = find_capacity(&mut self.values, &mut self.types, self.types_due, arity) else {
            return Err(row);
        };
        join_types(
            &mut self.types,
            self.types_due,
            self.columns,
            row.as_slice(),
        );
        append_row(&mut self.values, row);
        self.size = size;
        self.count = count;
        self.arity = Some(arity);
        Ok(())
    }

    /// Adds a row. If it fits with the waiting rows, it waits too, and the result is `Ok(None)`.
    ///
    /// A row that doesn't fit with the waiting rows is returned as `Ok(Some(row))`; the caller then builds a
    /// request. Of the errors, `MixedArity` drops the row; `MixedTypes` (a value doesn't fit its declared
    /// type), `RowTooLarge` (it doesn't fit in a request of its own) and `MemoryRow` (the builder's lists couldn't
    /// grow) return it. If the row doesn't wait, the waiting rows and the settings are unchanged.
    pub fn add_row(
        &mut self,
        row: Vec<Value>,
    ) -> Result<Option<Vec<Value>>, BulkExecuteRequestBuilderError>
        ensures adds { AddsRow self.old.state row result self.new.state }
        ensures no_memory { HasRoom self.old (length row.items) → (back : Vec Value) → result ≢ Err (refused.Request (BulkExecuteRequestError.MemoryRow back)) }
        ensures capacity { KeepsCapacity self.old self.new }
    {
        match self.add(row) {
            Ok(back) => Ok(back),
            Err(e) => Err(BulkExecuteRequestBuilderError::Request(e)),
        }
    }

    /// Adds parameters, whose values are a row: see `add_row`. If the builder has names they are named,
    /// otherwise positional.
    ///
    /// Parameters that can't be converted to a row are the error `Params`, and the builder is unchanged.
    pub fn add_params(
        &mut self,
        params: Params,
    ) -> Result<Option<Vec<Value>>, BulkExecuteRequestBuilderError>
        ensures adds { AddsParams self.old.state params result self.new.state }
        ensures no_memory { (row back : Vec Value) → given_by.values_of params self.old.state.names ≡ Ok (contents_of_row row) → HasRoom self.old (length row.items) → result ≢ Err (refused.Request (BulkExecuteRequestError.MemoryRow back)) }
        ensures capacity { KeepsCapacity self.old self.new }
    {
        match params.into_values(self.alloc, self.names) {
            Ok(row) => self.add_row(row),
            Err(e) => Err(BulkExecuteRequestBuilderError::Params(e)),
        }
    }
}
