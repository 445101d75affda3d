//! A run of a builder over an iterator of rows.

ghost use Rattle.std.specs.Prelude.{◌≡◌, ◌+◌, ◌≤◌, [], length, IfOk, IfSome, MatchOption, None, false, option_to_list};
ghost use Rattle.std.specs.Iterator.{IsFinite, size};
ghost use Rattle.std.specs.Bool.{OnFalse};
ghost use Rattle.mysql_bulk.specs.Builder.{BuildsRequest};
ghost use Rattle.mysql_bulk.specs.Run.{AcceptsUntilFull, AnswersWaiting, NextRequest, results_left, carried_of, builder_of, state_of, SameBuilder};

use crate::builder::ComStmtBulkExecuteRequestBuilder;
use crate::error::{BulkExecuteRequestBuilderError, BulkExecuteRequestError};
use crate::request::ComStmtBulkExecuteRequest;
use mysql_values::Value;

/// Adds rows until one does not fit with the waiting rows, which is returned, or the input ends.
fn take_rows<I: Iterator<Item = Vec<Value>>>(
    builder: &mut ComStmtBulkExecuteRequestBuilder<'_>,
    rows: &mut I,
) -> Result<Option<Vec<Value>>, BulkExecuteRequestError>
    requires can { I.can_next rows.old }
    requires ends { IsFinite (I.remaining rows.old) }
    ensures accepts { AcceptsUntilFull I.next_gives builder.old.state None rows.old result builder.new.state rows.new }
    ensures progress { IfOk result (λ last. IfSome last (λ _. I.can_next rows.new × IsFinite (I.remaining rows.new)
        × (length builder.new.state.waiting + 1 + size (I.remaining rows.new) ≤ length builder.old.state.waiting + size (I.remaining rows.old)))) }
{
    while let Some(row) = rows.next() {
        if let Some(row) = builder.add(row)? {
            return Ok(Some(row));
        }
    }
    Ok(None)
}

/// Fills the builder from the rows, after a row that was returned as too large.
pub(crate) fn fill<I: Iterator<Item = Vec<Value>>>(
    builder: &mut ComStmtBulkExecuteRequestBuilder<'_>,
    carried: Option<Vec<Value>>,
    rows: &mut I,
) -> Result<Option<Vec<Value>>, BulkExecuteRequestError>
    requires can { I.can_next rows.old }
    requires ends { IsFinite (I.remaining rows.old) }
    ensures accepts { AcceptsUntilFull I.next_gives builder.old.state carried rows.old result builder.new.state rows.new }
    ensures progress { IfOk result (λ last. IfSome last (λ _. I.can_next rows.new × IsFinite (I.remaining rows.new)
        × (length builder.new.state.waiting + 1 + size (I.remaining rows.new) ≤ length builder.old.state.waiting + length (option_to_list carried) + size (I.remaining rows.old)))) }
{
    if let Some(row) = carried {
        if let Some(row) = builder.add(row)? {
            return Ok(Some(row));
        }
    }
    take_rows(builder, rows)
}

/// The result of a run once rows were taken: the request of the waiting rows, or `None` if none wait.
pub(crate) fn answer_waiting(
    builder: &mut ComStmtBulkExecuteRequestBuilder<'_>,
) -> Option<Result<ComStmtBulkExecuteRequest, BulkExecuteRequestBuilderError>>
    ensures { AnswersWaiting builder.old.state result builder.new.state }
{
    match builder.build() {
        Ok(request) => Some(Ok(request)),
        Err(_) => None,
    }
}

/// An iterator over the requests of a run: each `next` takes rows until one does not fit, which it carries over
/// to the next request.
///
/// When the input ends, the waiting rows are built, and then the result is `None`; the input isn't called
/// again. After an `Err` the result is `None` too. The rows that were accepted since the last request stay in
/// the builder.
#[derive(Drop)]
pub struct BulkRequests<'b, 'a, I, R = Vec<Value>> {
    builder: &'b mut ComStmtBulkExecuteRequestBuilder<'a>,
    rows: I,
    carried: Option<R>,
    ended: bool,
}

impl<'a> ComStmtBulkExecuteRequestBuilder<'a> {
    /// Iterates over the requests of the waiting rows and the rows of the input. The input must end.
    pub fn build_iter<'b, I: Iterator<Item = Vec<Value>>>(
        &'b mut self,
        rows: I,
    ) -> BulkRequests<'b, 'a, I>
        requires can { I.can_next rows }
        requires ends { IsFinite (I.remaining rows) }
        ensures builder { result.builder.ghost_name ≡ self.entry.ghost_name }
        ensures begins { state_of result ≡ record { builder = self.old.state; carried = None; rows = rows; ended = false } }
    {
        BulkRequests {
            builder: self,
            rows,
            carried: None,
            ended: false,
        }
    }
}

impl<'b, 'a, I: Iterator<Item = Vec<Value>>> Iterator for BulkRequests<'b, 'a, I> {
    type Item = Result<ComStmtBulkExecuteRequest, BulkExecuteRequestBuilderError>;

    ghost can_next = { λ s. OnFalse (state_of s).ended (I.can_next (state_of s).rows × IsFinite (I.remaining (state_of s).rows)) };

    ghost next_gives = { λ s r t. SameBuilder s t × NextRequest I.next_gives (state_of s) r (state_of t) };

    ghost remaining = { λ s. results_left I.remaining (state_of s) };

    fn next(
        &mut self,
    ) -> Option<Result<ComStmtBulkExecuteRequest, BulkExecuteRequestBuilderError>> {
        if self.ended {
            return None;
        }
        match fill(self.builder, self.carried.take(), &mut self.rows) {
            Ok(last) => {
                self.ended = last.is_none();
                self.carried = last;
                answer_waiting(self.builder)
            }
            Err(e) => {
                self.ended = true;
                Some(Err(BulkExecuteRequestBuilderError::Request(e)))
            }
        }
    }
}

impl<'b, 'a, I: Drop, R: Drop> BulkRequests<'b, 'a, I, R> {
    /// Returns the row that did not fit into the last request, with which the next one would have begun. It
    /// takes no memory.
    pub fn into_carried(self) -> Option<R>
        ensures row { result ≡ carried_of self.entry }
        ensures builder { self.exit.0.now ≡ builder_of self.entry }
    {
        self.carried
    }
}
