//! Calls on a bulk builder: `builder SETTINGS CALL ..`, with a `;` between the answers of each two calls.
//!
//! The settings of a builder of statement 1 are the packet limit, and after commas `results`, `types`, `rows=K`, and
//! `names=` with the names of the parameters and `/` between them. `columns=` declares types, spelled by their codes, with `u`
//! after an unsigned one and `/` between them; one that may not be declared is all of the answer. The calls:
//!
//! | Call | Is |
//! |---|---|
//! | `add:ROW`, `slice:ROW`, `refs:ROW` | `add_row`, `add_row_slice`, `add_row_refs` |
//! | `put:PARAMS` | `add_params` |
//! | `build`, `has`, `rule` | `build`, `has_rows`, `rule` |
//! | `all:ROWS` | `build_all` |
//! | `iter:N:INPUT`, `params:N:INPUT` | `build_iter`, `build_params_iter`: N calls of `next`, and `into_carried` |
//! | `again` | `add_row` of the row that the last broken run carried |
//! | `clone`, `other:SETTINGS` | puts a copy of the builder aside, or a new one |
//! | `equal`, `swap` | compares the builder with the one aside, or goes on with that one |
//!
//! A row is its values with commas between them, or `()`. Rows have `/` between them; in an INPUT `-` stands where the
//! input answers `None`. Parameters are spelled as in [`params`](crate::params).

pub mod answers;
mod runs;
pub mod settings;
pub mod writer;

use crate::builder::answers::*;
use crate::builder::runs::{run_of_params, run_of_rows};
use crate::builder::settings::{Given, list_in};
use crate::prelude::*;
use mysql_bulk::ComStmtBulkExecuteRequestBuilder as Builder;
use std::mem;

pub fn builder(out: &mut Out, request: &Request<'_>) {
    let settings = request.word(1);
    let names = list_in::<Vec<u8>>(out, settings, "names=");
    let types = list_in::<StmtBulkExecuteParamType>(out, settings, "columns=");
    let given = Given {
        names: &names,
        types: &types,
    };
    match given.builder(out.alloc(), settings) {
        Ok(builder) => answer_calls(out, request, given, builder),
        Err(refused) => show_undeclared(out, &refused),
    }
}

/// Answers the calls that stand from the third word on.
fn answer_calls<'a>(out: &mut Out, request: &Request<'_>, given: Given<'a>, builder: Builder<'a>) {
    let Some(aside) = or_lost(out, builder.clone()) else {
        return;
    };
    let mut session = Session {
        given,
        builder,
        aside,
        carried: None,
    };
    for (place, call) in request.line.split(' ').skip(2).enumerate() {
        if place > 0 {
            out.word(";");
        }
        session.answer(out, call);
    }
}

/// A builder, the one that is put aside, and the row that the last broken run carried.
#[derive(Drop)]
pub struct Session<'a> {
    given: Given<'a>,
    builder: Builder<'a>,
    aside: Builder<'a>,
    carried: Option<Vec<Value>>,
}

impl<'a> Session<'a> {
    /// Makes a call, and adds what it answered.
    fn answer(&mut self, out: &mut Out, call: &str) {
        let alloc = out.alloc();
        let (name, argument) = call.split_once(':').unwrap_or((call, ""));
        match name {
            "add" => {
                let row = Vec::<Value>::from_word(out, argument);
                show_added(out, counted!(alloc; self.builder.add_row(row)));
            }
            "slice" => {
                let row = Vec::<Value>::from_word(out, argument);
                show_copied(out, counted!(alloc; self.builder.add_row_slice(&row)));
            }
            "refs" => {
                let row = Vec::<Value>::from_word(out, argument);
                let values = refs(out, &row);
                show_copied(out, counted!(alloc; self.builder.add_row_refs(&values)));
            }
            "put" => {
                let params = Params::from_word(out, argument);
                show_added(out, counted!(alloc; self.builder.add_params(params)));
            }
            "all" => self.all(out, argument),
            "iter" => run_of_rows(out, self, argument).end(out),
            "params" => run_of_params(out, self, argument).end(out),
            _ => self.answer_of_one(out, name, argument),
        }
    }

    /// The same of calls that take no rows.
    fn answer_of_one(&mut self, out: &mut Out, name: &str, argument: &str) {
        let alloc = out.alloc();
        match name {
            "build" => {
                let built = counted!(alloc; self.builder.build());
                show_built(out, built.map_err(Refusal::from));
            }
            "again" => match self.carried.take() {
                Some(row) => show_added(out, counted!(alloc; self.builder.add_row(row))),
                None => out.word("nothing"),
            },
            "has" => out.item(counted!(alloc; value self.builder.has_rows())),
            "rule" => {
                let rule = counted!(alloc; value self.builder.rule());
                out.show("types_always", rule.types_always);
                out.show("max_rows", rule.max_rows);
            }
            _ => self.answer_of_two(out, name, argument),
        }
    }

    /// The same of calls that take the builder that is put aside.
    fn answer_of_two(&mut self, out: &mut Out, name: &str, argument: &str) {
        let alloc = out.alloc();
        match name {
            "clone" => {
                if let Some(copy) = or_memory(out, counted!(alloc; self.builder.clone())) {
                    self.aside = copy;
                    out.word("copied");
                }
            }
            "other" => match self.given.builder(alloc, argument) {
                Ok(other) => {
                    self.aside = other;
                    out.word("aside");
                }
                Err(refused) => out.show("Refused", refused.place),
            },
            "equal" => same_or_other(out, counted!(alloc; value self.builder == self.aside)),
            "swap" => {
                mem::swap(&mut self.builder, &mut self.aside);
                out.word("swapped");
            }
            _ => out.word("?"),
        }
    }

    /// A whole run: its requests, where they end, and its refusal.
    fn all(&mut self, out: &mut Out, argument: &str) {
        let rows = rows(out, argument);
        let run = counted!(out.alloc(); value self.builder.build_all(rows));
        for request in &run.requests {
            show_request(out, request);
        }
        for end in &run.ends {
            out.show("end", *end);
        }
        match &run.refusal {
            Some(refusal) => show_refusal(out, refusal),
            None => out.word("sent"),
        }
    }
}
