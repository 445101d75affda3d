//! A whole run over a list of rows.

ghost use Rattle.std.specs.Prelude.{◌≡◌, ◌≢◌, ◌+◌, ◌++◌, ◌∷◌, [], length, IfOk, OnOk, OnErr};
ghost use Rattle.mysql_bulk.specs.Row.{contents_of_rows};
ghost use Rattle.mysql_bulk.specs.WholeRun.{OfRows, RunGives, PutsRequest, refusal_of};

use crate::builder::ComStmtBulkExecuteRequestBuilder;
use crate::error::{BulkExecuteRequestBuilderError, BulkExecuteRequestError};
use crate::request::ComStmtBulkExecuteRequest;
use crate::run::fill;
use mysql_values::Value;
use std::alloc::AllocError;

/// The result of a whole run.
#[derive(Debug, Drop)]
pub struct BulkRun {
    /// The requests, in the order of the rows.
    pub requests: Vec<ComStmtBulkExecuteRequest>,
    /// The number of rows that were sent up to and with each request, counting those that had waited before the run.
    pub ends: Vec<usize>,
    /// Why the run ended before the rows did, if so. The rows not yet accepted are dropped then.
    pub refusal: Option<BulkExecuteRequestBuilderError>,
}

/// Builds the next request of a run, and records how many rows are sent with it. Capacity is reserved before anything changes.
fn send(
    builder: &mut ComStmtBulkExecuteRequestBuilder<'_>,
    requests: &mut Vec<ComStmtBulkExecuteRequest>,
    ends: &mut Vec<usize>,
    sent: usize,
) -> Result<usize, AllocError>
    requires { builder.old.state.waiting ≢ [] }
    ensures end { IfOk result (λ end. end ≡ sent + length builder.old.state.waiting) }
    ensures ends { IfOk result (λ end. ends.new.items ≡ ends.old.items ++ end ∷ []) }
    ensures requests { OnOk result (PutsRequest builder.old.state requests.old.items requests.new.items builder.new.state) }
    ensures unchanged { OnErr result ((builder.new.state ≡ builder.old.state) × (requests.new.items ≡ requests.old.items) × (ends.new.items ≡ ends.old.items)) }
{
    let end = sent.checked_add(builder.rows_waiting()).ok_or(AllocError)?;
    requests.reserve(1)?;
    ends.reserve(1)?;
    match builder.build() {
        Ok(request) => {
            requests.push_reserved(request);
            ends.push_reserved(end);
            Ok(end)
        }
        Err(_) => unreachable!(),
    }
}

impl<'a> ComStmtBulkExecuteRequestBuilder<'a> {
    /// Sends the waiting rows and these, request by request.
    fn send_rows(
        &mut self,
        rows: Vec<Vec<Value>>,
        requests: &mut Vec<ComStmtBulkExecuteRequest>,
        ends: &mut Vec<usize>,
    ) -> Result<(), BulkExecuteRequestError>
        requires no_requests { requests.old.items ≡ [] }
        requires no_ends { ends.old.items ≡ [] }
        ensures { RunGives self.old.state (self.old.state.waiting ++ contents_of_rows rows.items) requests.new.items ends.new.items (refusal_of result) self.new.state }
    {
        self.is_consistent();
        let mut input = rows.into_iter();
        let mut carried = None;
        let mut sent = 0;
        'rows: loop {
            match fill(self, carried, &mut input) {
                Ok(last) => carried = last,
                Err(e) => return Err(e),
            }
            if !self.has_rows() {
                return Ok(());
            }
            match send(self, requests, ends, sent) {
                Ok(end) => sent = end,
                Err(_) => return Err(BulkExecuteRequestError::Memory),
            }
            if carried.is_none() {
                return Ok(());
            }
        }
    }

    /// Runs over all the rows, like `build_iter` to its end, and returns the requests of the waiting rows and
    /// of these, the end of each among the rows, and why the run ended before the rows did, if so.
    ///
    /// No row is lost: the rows that were sent, those that wait now, and those that were rejected or not
    /// reached are all the rows that waited or were passed, in this order. The rows that were sent or wait have
    /// one length, the builder's arity if it had one. A request is built exactly when it is due: no row is
    /// left, or the next one has the same length and doesn't fit with the waiting rows, by the packet limit or
    /// by the maximum number of rows. Each request fits. The arity, and whether types are due, are those after
    /// the rows that were sent or wait.
    ///
    /// If an allocation fails it ends with `MemoryRow`, which returns a row that fits, or with `Memory`, if a
    /// request is due, whose rows wait; what was returned before remains valid.
    ///
    /// On a new builder it returns an error exactly if two rows differ in length (`MixedArity`) or no cut of
    /// the rows into requests fits the limit (`RowTooLarge`, with the first row that no fitting cut contains),
    /// and otherwise no cut that fits has fewer requests.
    ///
    /// ```
    /// let mut builder = ComStmtBulkExecuteRequestBuilder::new(alloc, 1, 31);
    /// let run = builder.build_all(rows); // the fewest requests that fit, or which row has no place
    /// ```
    pub fn build_all(&mut self, rows: Vec<Vec<Value>>) -> BulkRun
        ensures gives { RunGives self.old.state (self.old.state.waiting ++ contents_of_rows rows.items) result.requests.items result.ends.items result.refusal self.new.state }
        ensures of_rows { OfRows result.refusal }
    {
        let alloc = *rows.allocator();
        let mut requests = Vec::new(alloc);
        let mut ends = Vec::new(alloc);
        let refusal = match self.send_rows(rows, &mut requests, &mut ends) {
            Ok(()) => None,
            Err(e) => Some(BulkExecuteRequestBuilderError::Request(e)),
        };
        BulkRun {
            requests,
            ends,
            refusal,
        }
    }
}
