//! Adding copies of borrowed rows.

ghost use Rattle.std.specs.Prelude.{◌≡◌, ◌≢◌, ◌+◌, ◌≤◌, ◌↔◌, ◌++◌, ◌∷◌, [], length, map, Err, IsTrue, IfSome, MatchOption, List, ℕ, sum_by};
ghost use Rattle.std.specs.Bool.{OnTrue, OnFalse};
ghost use Rattle.mysql_cuts.specs.Cut.{PartFits};
ghost use Rattle.mysql_values.specs.Value.{Content, contents_of};
ghost use Rattle.mysql_values.specs.ValueRef.{ref_content};
ghost use Rattle.mysql_bulk.specs.Builder.{TakesRow, RowFits, AddsCopy, HasRoomForCopy, KeepsCapacity, after_row};
ghost use Rattle.mysql_bulk.specs.Row.{row_size, rows_packing};

use super::ComStmtBulkExecuteRequestBuilder;
use crate::column_types::join_types;
use crate::error::BulkRowError;
use crate::row::{append_copies, find_capacity};
use crate::row_value::RowValue;
use crate::size::request_len;
use mysql_cuts::BulkRule;
use mysql_values::{Value, ValueRef};

impl<'a> ComStmtBulkExecuteRequestBuilder<'a> {
    /// Adds a copy of a row that the caller keeps, so that one list of values can be filled and added again and
    /// again. The builder allocates only for the row's byte strings, and to grow its own lists.
    ///
    /// If the row fits with the waiting rows, its copy waits too, and the result is `Ok(true)`; if it doesn't,
    /// the result is `Ok(false)`, and the caller builds a request. The errors are those of `add_row`. If no
    /// copy waits, the builder is unchanged.
    // Inlined: a loop over rows of a known length is faster then.
    #[inline(always)]
    pub fn add_row_slice(&mut self, row: &[Value]) -> Result<bool, BulkRowError>
        ensures adds { AddsCopy self.old.state (contents_of row.now) result self.new.state }
        ensures no_memory { HasRoomForCopy self.old (contents_of row.now) → result ≢ Err BulkRowError.Memory }
        ensures capacity { KeepsCapacity self.old self.new }
    {
        self.offer(row)
    }

    /// Adds a copy of a row of values that borrow their bytes, for example from a packet: see
    /// [`add_row_slice`](Self::add_row_slice). A byte is only copied once the row is known to fit up to it.
    // Inlined for the same reason.
    #[inline(always)]
    pub fn add_row_refs(&mut self, row: &[ValueRef<'_>]) -> Result<bool, BulkRowError>
        ensures adds { AddsCopy self.old.state (map ref_content row.now) result self.new.state }
        ensures no_memory { HasRoomForCopy self.old (map ref_content row.now) → result ≢ Err BulkRowError.Memory }
        ensures capacity { KeepsCapacity self.old self.new }
    {
        self.offer(row)
    }

    /// Adds a copy of a row.
    #[inline(always)]
    fn offer<V: RowValue>(&mut self, row: &[V]) -> Result<bool, BulkRowError>
        ensures adds { AddsCopy self.old.state (map V.content row.now) result self.new.state }
        ensures no_memory { HasRoomForCopy self.old (map V.content row.now) → result ≢ Err BulkRowError.Memory }
        ensures capacity { KeepsCapacity self.old self.new }
    {
        if !self.takes_arity(row.len()) {
            return Err(BulkRowError::MixedArity);
        }
        if !self.takes_types(row) {
            return Err(BulkRowError::MixedTypes);
        }
        if self.takes_copy(row) {
            return Ok(true);
        }
        // Nothing has changed: why no copy was added is determined separately.
        if self.size_after(row).is_some() {
            Err(BulkRowError::Memory)
        } else if self.has_rows() {
            Ok(false)
        } else {
            Err(BulkRowError::TooLarge)
        }
    }

    /// Copies a row of a valid length if it fits with the waiting rows, and returns whether it waits now; after
    /// an error it doesn't.
    // The bytes are counted while they are copied, in one pass.
    #[inline(always)]
    fn takes_copy<V: RowValue>(&mut self, row: &[V]) -> bool
        requires { TakesRow self.old.state (map V.content row.now) }
        ensures waits { OnTrue result (RowFits self.old.state (map V.content row.now) × (self.new.state ≡ after_row self.old.state (map V.content row.now))) }
        ensures stays { OnFalse result (self.new.state ≡ self.old.state) }
        ensures no_memory { HasRoomForCopy self.old (map V.content row.now) → RowFits self.old.state (map V.content row.now) → IsTrue result }
        ensures capacity { KeepsCapacity self.old self.new }
    {
        let arity = row.len();
        let Some(most) = most_bytes(
            self.rule,
            self.limit,
            self.types_due,
            self.count,
            self.size,
            arity,
        ) else {
            return false;
        };
        let Some(count) = self.count.checked_add(1) else {
            return false;
        };
        let Ok(()) = find_capacity(&mut self.values, &mut self.types, self.types_due, arity) else {
            return false;
        };
        let Some(size) = append_copies(self.alloc, &mut self.values, row, most) else {
            return false;
        };
        join_types(&mut self.types, self.types_due, self.columns, row);
        self.size += size;
        self.count = count;
        self.arity = Some(arity);
        true
    }
}

/// The maximum length of another row, or `None` if the request can't have another one: a row fits exactly if it
/// is no longer.
fn most_bytes(
    rule: BulkRule,
    limit: u64,
    types: bool,
    count: usize,
    size: u64,
    arity: usize,
) -> Option<u64>
    ensures bound { IfSome result (λ most. size + most ≤ limit) }
    ensures fits { (rows : List (List Content)) (row : List Content) → length rows ≡ count → size ≡ sum_by row_size rows → length row ≡ arity →
        MatchOption result (PartFits (rows_packing rule limit arity) types (rows ++ row ∷ []) → ⊥)
        (λ most. PartFits (rows_packing rule limit arity) types (rows ++ row ∷ []) ↔ (row_size row ≤ most)) }
{
    if rule.max_rows.is_some_and(|rows| rows <= count) {
        return None;
    }
    limit.checked_sub(request_len(arity, types, size)?)
}
