//! A run of a builder over an iterator of parameters.

ghost use Rattle.std.specs.Prelude.{◌≡◌, ◌+◌, ◌≤◌, length, IfOk, IfSome, None, false, option_to_list};
ghost use Rattle.std.specs.Iterator.{IsFinite, size};
ghost use Rattle.std.specs.Bool.{OnFalse};
ghost use Rattle.mysql_bulk.specs.Run.{results_left};
ghost use Rattle.mysql_bulk.specs.ParamsRun.{AcceptsParamsUntilFull, NextRequestOfParams, names_of, carried_of, builder_of, state_of, SameBuilder};

use crate::builder::ComStmtBulkExecuteRequestBuilder;
use crate::error::BulkExecuteRequestBuilderError;
use crate::request::ComStmtBulkExecuteRequest;
use crate::run::answer_waiting;
use mysql_values::{Params, Value};

/// Adds the rows of parameters until one does not fit with the waiting rows, which is returned, or the input ends.
fn take_params<I: Iterator<Item = Params>>(
    builder: &mut ComStmtBulkExecuteRequestBuilder<'_>,
    params: &mut I,
) -> Result<Option<Vec<Value>>, BulkExecuteRequestBuilderError>
    requires can { I.can_next params.old }
    requires ends { IsFinite (I.remaining params.old) }
    ensures accepts { AcceptsParamsUntilFull I.next_gives builder.old.state.names builder.old.state None params.old result builder.new.state params.new }
    ensures progress { IfOk result (λ last. IfSome last (λ _. I.can_next params.new × IsFinite (I.remaining params.new)
        × (length builder.new.state.waiting + 1 + size (I.remaining params.new) ≤ length builder.old.state.waiting + size (I.remaining params.old)))) }
{
    while let Some(entry) = params.next() {
        if let Some(row) = builder.add_params(entry)? {
            return Ok(Some(row));
        }
    }
    Ok(None)
}

/// Fills the builder from the parameters, after a row that was returned as too large.
fn fill_params<I: Iterator<Item = Params>>(
    builder: &mut ComStmtBulkExecuteRequestBuilder<'_>,
    carried: Option<Vec<Value>>,
    params: &mut I,
) -> Result<Option<Vec<Value>>, BulkExecuteRequestBuilderError>
    requires can { I.can_next params.old }
    requires ends { IsFinite (I.remaining params.old) }
    ensures accepts { AcceptsParamsUntilFull I.next_gives builder.old.state.names builder.old.state carried params.old result builder.new.state params.new }
    ensures progress { IfOk result (λ last. IfSome last (λ _. I.can_next params.new × IsFinite (I.remaining params.new)
        × (length builder.new.state.waiting + 1 + size (I.remaining params.new) ≤ length builder.old.state.waiting + length (option_to_list carried) + size (I.remaining params.old)))) }
{
    if let Some(row) = carried {
        if let Some(row) = builder.add_row(row)? {
            return Ok(Some(row));
        }
    }
    take_params(builder, params)
}

/// An iterator over the requests of a run over parameters, whose values are its rows: see `BulkRequests`.
///
/// Parameters that can't be converted to a row end the run with `Params`; the rows that were accepted before
/// them stay in the builder.
#[derive(Drop)]
pub struct BulkParamsRequests<'b, 'a, I, R = Vec<Value>> {
    builder: &'b mut ComStmtBulkExecuteRequestBuilder<'a>,
    params: I,
    carried: Option<R>,
    ended: bool,
}

impl<'a> ComStmtBulkExecuteRequestBuilder<'a> {
    /// Iterates over the requests of the waiting rows and those of the input's parameters, by the builder's
    /// names. The input must end.
    pub fn build_params_iter<'b, I: Iterator<Item = Params>>(
        &'b mut self,
        params: I,
    ) -> BulkParamsRequests<'b, 'a, I>
        requires can { I.can_next params }
        requires ends { IsFinite (I.remaining params) }
        ensures builder { result.builder.ghost_name ≡ self.entry.ghost_name }
        ensures begins { state_of result ≡ record { builder = self.old.state; carried = None; rows = params; ended = false } }
    {
        BulkParamsRequests {
            builder: self,
            params,
            carried: None,
            ended: false,
        }
    }
}

impl<'b, 'a, I: Iterator<Item = Params>> Iterator for BulkParamsRequests<'b, 'a, I> {
    type Item = Result<ComStmtBulkExecuteRequest, BulkExecuteRequestBuilderError>;

    ghost can_next = { λ s. OnFalse (state_of s).ended (I.can_next (state_of s).rows × IsFinite (I.remaining (state_of s).rows)) };

    ghost next_gives = { λ s r t. SameBuilder s t × NextRequestOfParams I.next_gives (names_of s) (state_of s) r (state_of t) };

    ghost remaining = { λ s. results_left I.remaining (state_of s) };

    fn next(
        &mut self,
    ) -> Option<Result<ComStmtBulkExecuteRequest, BulkExecuteRequestBuilderError>> {
        if self.ended {
            return None;
        }
        match fill_params(self.builder, self.carried.take(), &mut self.params) {
            Ok(last) => {
                self.ended = last.is_none();
                self.carried = last;
                answer_waiting(self.builder)
            }
            Err(e) => {
                self.ended = true;
                Some(Err(e))
            }
        }
    }
}

impl<'b, 'a, I: Drop, R: Drop> BulkParamsRequests<'b, 'a, I, R> {
    /// Returns the row that did not fit into the last request, with which the next one would have begun. It
    /// takes no memory.
    pub fn into_carried(self) -> Option<R>
        ensures row { result ≡ carried_of self.entry }
        ensures builder { self.exit.0.now ≡ builder_of self.entry }
    {
        self.carried
    }
}
