//! Rows of values, DEFAULT and IGNORE that are added to a writer of bulk requests, under declared types of any width.

ghost use Rattle.std.specs.Prelude.{◌≡◌, ◌≢◌, ◌+◌, ◌-◌, ◌++◌, ◌∷◌, ◌≤◌, IfOk, IfSome, OnErr, MatchOption, [], length, map, false, List, sum_by, vec_capacity, Err};
ghost use Rattle.mysql_cuts.specs.Cut.{PartFits};
ghost use Rattle.mysql_bulk.specs.BulkValue.{Cell, cell_of, cells_size};
ghost use Rattle.mysql_bulk.specs.ValueRows as spec;
ghost use Rattle.mysql_bulk.specs.declared.error.BulkRowError.TheVariants as refused;

use super::BulkRequestWriter;
use super::offered::TypedRow;
use crate::bulk_value::{BulkValue, spells_values, values_len};
use crate::error::BulkRowError;
use crate::size::size_within;
use mysql_cuts::BulkRule;
use mysql_values::ParamType;

/// The length in bytes of a given number of rows with one more, which has a cell for each type, if these fit in
/// one request.
fn size_with_values(
    rule: BulkRule,
    limit: u64,
    types_due: bool,
    count: usize,
    size: u64,
    types: &[ParamType],
    row: &[BulkValue<'_>],
) -> Option<u64>
    requires { length types.now ≡ length row.now }
    ensures size { IfSome result (λ n. n ≡ size + cells_size types.now (map cell_of row.now)) }
    ensures fits { (rows : List (List Cell)) → length rows ≡ count → size ≡ sum_by (cells_size types.now) rows →
        MatchOption result (PartFits (spec.cells_packing rule limit types.now) types_due (rows ++ map cell_of row.now ∷ []) → ⊥)
        (λ n. PartFits (spec.cells_packing rule limit types.now) types_due (rows ++ map cell_of row.now ∷ [])) }
{
    let bytes = values_len(types, row)?;
    size_within(rule, limit, types.len(), types_due, count, size, bytes)
}

impl<'a> BulkRequestWriter<'a> {
    /// Creates a writer into a buffer, like [`new`](Self::new), for columns of any types: numbers of any width,
    /// floats, dates, times and strings.
    ///
    /// Its rows are written by [`add_row_values`](Self::add_row_values), which encodes each value under its
    /// type. [`add_row_refs`](Self::add_row_refs) only accepts values with the same encoding as without
    /// declared types.
    pub fn with_types(
        buffer: Vec<u8>,
        stmt_id: u32,
        max_allowed_packet: usize,
        types: &'a [ParamType],
    ) -> Self
        requires { 4 ≤ max_allowed_packet }
        ensures starts { result ≡ spec.new_writer stmt_id (max_allowed_packet - 4) types.now (vec_capacity buffer) }
    {
        let limit = (max_allowed_packet - 4) as u64;
        BulkRequestWriter::with_settings(buffer, stmt_id, limit, false, BulkRule::PLAIN, types)
    }

    /// Creates a writer with these settings.
    pub(crate) fn with_settings(
        buffer: Vec<u8>,
        stmt_id: u32,
        limit: u64,
        results: bool,
        rule: BulkRule,
        types: &'a [ParamType],
    ) -> Self
        ensures starts { result ≡ spec.writer_with stmt_id limit results rule types.now (vec_capacity buffer) }
    {
        let mut bytes = buffer;
        bytes.clear();
        BulkRequestWriter {
            stmt_id,
            limit,
            results,
            rule,
            types,
            types_due: true,
            count: 0,
            size: 0,
            bytes,
        }
    }

    /// Writes a row of values, DEFAULT and IGNORE, if it fits.
    ///
    /// If the row fits with the waiting rows, it is written after them, and the result is `Ok(true)`; if it
    /// doesn't, the result is `Ok(false)`, and the request is complete. The errors are `MixedArity` if the row
    /// does not have a cell for each type, `MixedTypes` if a value doesn't fit its type, `TooLarge` if it
    /// doesn't fit in a request of its own, and `Memory` if the buffer couldn't grow, but not if it has the
    /// capacity. If no row is written, the writer is unchanged. The length of the row is computed first, by the
    /// declared widths, and the buffer grows at most once.
    pub fn add_row_values(&mut self, row: &[BulkValue<'_>]) -> Result<bool, BulkRowError>
        ensures adds { spec.AddsCells self.old (map cell_of row.now) result self.new }
        ensures waits { IfOk result (λ taken. taken ≡ false → self.new ≡ self.old) }
        ensures err { OnErr result (self.new ≡ self.old) }
        ensures capacity { self.old.capacity ≤ self.new.capacity }
        ensures no_memory { spec.HasRoomFor self.old (map cell_of row.now) → result ≢ Err refused.Memory }
    {
        if row.len() != self.types.len() {
            return Err(BulkRowError::MixedArity);
        }
        if !spells_values(self.types, row) {
            return Err(BulkRowError::MixedTypes);
        }
        let Some(size) = self.size_after_values(row) else {
            return if self.count == 0 {
                Err(BulkRowError::TooLarge)
            } else {
                Ok(false)
            };
        };
        let types = self.types;
        if self.count == 0 {
            return if self.write_first(&TypedRow::new(types, row), size) {
                Ok(true)
            } else {
                Err(BulkRowError::Memory)
            };
        }
        if self.write_further(&TypedRow::new(types, row), size) {
            Ok(true)
        } else {
            Err(BulkRowError::Memory)
        }
    }

    /// The length in bytes of the rows with one more, if these fit in one request.
    fn size_after_values(&self, row: &[BulkValue<'_>]) -> Option<u64>
        requires { length self.now.types ≡ length row.now }
        ensures { MatchOption result ((rows : List (List Cell)) → spec.HoldsCells self.now rows → spec.CellsFit self.now rows (map cell_of row.now) → ⊥)
            (λ n. (n ≡ self.now.size + cells_size self.now.types (map cell_of row.now)) × ((rows : List (List Cell)) → spec.HoldsCells self.now rows → spec.CellsFit self.now rows (map cell_of row.now))) }
    {
        size_with_values(
            self.rule,
            self.limit,
            self.types_due,
            self.count,
            self.size,
            self.types,
            row,
        )
    }
}
