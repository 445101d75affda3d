//! A whole run of a writer over rows of values, DEFAULT and IGNORE.

ghost use Rattle.std.specs.Prelude.{◌≡◌, ◌≤◌, ◌++◌, ◌∷◌, [], map, IfErr, OnOk, OnErr, Ok, Err, List, if◌then◌else◌};
ghost use Rattle.mysql_bulk.specs.declared.error.BulkRowError.TheVariants.{TooLarge};
ghost use Rattle.mysql_bulk.specs.BulkValue.{Cell, cell_of};
ghost use Rattle.mysql_bulk.specs.ValueRows.{HoldsCells, LetsGo};
ghost use Rattle.mysql_bulk.specs.ValuesRun as spec;

use super::BulkRequestWriter;
use crate::bulk_value::BulkValue;
use crate::error::BulkRowError;
use std::alloc::{AllocError, Global};

/// The result of a run over rows of values, DEFAULT and IGNORE.
#[derive(Debug, Drop)]
pub struct BulkValuesRun {
    /// The bytes of the requests.
    pub requests: Vec<Vec<u8>>,
    /// Why the run ended before the rows did, if so.
    pub refusal: Option<BulkRowError>,
}

impl<'a> BulkRequestWriter<'a> {
    /// Appends a copy of the request to others, and finishes it.
    fn send_request(&mut self, alloc: Global, requests: &mut Vec<Vec<u8>>) -> Result<(), AllocError>
        ensures sent { OnOk result (spec.bytes_of requests.new.items ≡ spec.bytes_of requests.old.items ++ self.old.bytes ∷ []) }
        ensures lets_go { OnOk result (LetsGo self.old self.new) }
        ensures stays { OnErr result ((self.new ≡ self.old) × (spec.bytes_of requests.new.items ≡ spec.bytes_of requests.old.items)) }
        ensures capacity { self.new.capacity ≡ self.old.capacity }
    {
        let request = Vec::from_slice(alloc, self.bytes.as_slice())?;
        requests.push(request)?;
        self.finish();
        Ok(())
    }

    /// Adds a row; if it does not fit with the waiting rows, their request is sent first.
    fn offer_values(
        &mut self,
        alloc: Global,
        row: &[BulkValue<'_>],
        requests: &mut Vec<Vec<u8>>,
    ) -> Result<(), BulkRowError>
        ensures ok { OnOk result (spec.Offered self.old (map cell_of row.now) (spec.bytes_of requests.old.items) self.new (spec.bytes_of requests.new.items)) }
        ensures refused { IfErr result (λ e. spec.OfferRefused self.old (map cell_of row.now) (spec.bytes_of requests.old.items) e self.new (spec.bytes_of requests.new.items)) }
        ensures capacity { self.old.capacity ≤ self.new.capacity }
    {
        let is_taken = match self.add_row_values(row) {
            Ok(is_taken) => is_taken,
            Err(refusal) => return Err(refusal),
        };
        if is_taken {
            return Ok(());
        }
        let Ok(()) = self.send_request(alloc, requests) else {
            return Err(BulkRowError::Memory);
        };
        match self.add_row_values(row) {
            Ok(fits_alone) => answer_of(fits_alone),
            Err(refusal) => Err(refusal),
        }
    }

    /// Adds rows, and sends the request of the last ones.
    fn send_all_values(
        &mut self,
        alloc: Global,
        rows: &[Vec<BulkValue<'_>>],
        requests: &mut Vec<Vec<u8>>,
    ) -> Result<(), BulkRowError>
        requires { requests.old.items ≡ [] }
        ensures gives { (before : List (List Cell)) → HoldsCells self.old before → spec.CellsRunGives self.old before (spec.cells_of_rows rows.now) (spec.bytes_of requests.new.items) (spec.refusal_of result) self.new }
        ensures capacity { self.old.capacity ≤ self.new.capacity }
    {
        for row in rows {
            match self.offer_values(alloc, row.as_slice(), requests) {
                Ok(()) => {}
                Err(refusal) => return Err(refusal),
            }
        }
        if !self.has_rows() {
            return Ok(());
        }
        let Ok(()) = self.send_request(alloc, requests) else {
            return Err(BulkRowError::Memory);
        };
        Ok(())
    }

    /// Writes rows after the waiting ones, and returns the bytes of all their requests, or of those before the
    /// faulty row.
    ///
    /// Each request is full: the row after it would not fit. If the next request was to send types, as for a
    /// new writer, the requests are the fewest that fit, by the sizes of the rows under the declared types. The
    /// errors of a row are those of [`add_row_values`](Self::add_row_values), and the rows before it then wait,
    /// except for those that were sent; `Memory` is also returned if a request that is due can't be allocated,
    /// and its rows then wait.
    pub fn build_all_values(&mut self, alloc: Global, rows: &[Vec<BulkValue<'_>>]) -> BulkValuesRun
        ensures gives { (before : List (List Cell)) → HoldsCells self.old before → spec.CellsRunGives self.old before (spec.cells_of_rows rows.now) (spec.bytes_of result.requests.items) result.refusal self.new }
        // The buffer's capacity never shrinks, whatever is sent.
        ensures capacity { self.old.capacity ≤ self.new.capacity }
    {
        let mut requests = Vec::new(alloc);
        let refusal = match self.send_all_values(alloc, rows, &mut requests) {
            Ok(()) => None,
            Err(refusal) => Some(refusal),
        };
        BulkValuesRun { requests, refusal }
    }
}

/// A row that doesn't fit although no row waits is too large.
fn answer_of(fits_alone: bool) -> Result<(), BulkRowError>
    ensures { result ≡ (if fits_alone then Ok tt else Err TooLarge) }
{
    if fits_alone {
        Ok(())
    } else {
        Err(BulkRowError::TooLarge)
    }
}
