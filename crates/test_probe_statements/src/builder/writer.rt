//! Calls on a writer of bulk requests: `writer SETTINGS CALL ..`, with a `;` between the answers of each two calls.
//!
//! The settings are those of a builder that has declared types and no names. The calls `refs:ROW`, `build` and `has` are answered as
//! the builder's are: `build` is `request` and `finish`. After all of them stands what is left in the buffer.
//!
//! With the setting `any` the types are of any width, and `values:ROW` offers a row of values and of the words `default` and `ignore`;
//! `all:ROW/ROW` is a whole run, `take` is the writer's own `build`, and `id=N` the statement's number then; with `built` too a builder
//! gives the writer.

use crate::builder::answers::{show_copied, show_error, show_undeclared};
use crate::builder::settings::{list_in, setting, typed_writer_of, writer_of};
use crate::prelude::*;

pub fn writer(out: &mut Out, request: &Request<'_>) {
    let settings = request.word(1);
    let types = list_in::<StmtBulkExecuteParamType>(out, settings, "columns=");
    if setting(settings, "any").is_some() {
        let writer = typed_writer_of(out.alloc(), settings, &types);
        answer_calls(out, writer, request);
        return;
    }
    match writer_of(out.alloc(), settings, &types) {
        Ok(writer) => answer_calls(out, writer, request),
        Err(refused) => show_undeclared(out, &refused),
    }
}

/// Answers the calls that stand from the third word on.
fn answer_calls(out: &mut Out, writer: BulkRequestWriter<'_>, request: &Request<'_>) {
    let mut writer = writer;
    for call in request.line.split(' ').skip(2) {
        answer(out, &mut writer, call);
        out.word(";");
    }
    let left = counted!(request.alloc; value writer.into_buffer());
    out.show("left", left.as_slice());
}

/// What a word says of a column, of which this is the value.
fn cell_of<'v>((value, word): (&'v Value, &str)) -> BulkValue<'v> {
    match word {
        "default" => BulkValue::Default,
        "ignore" => BulkValue::Ignore,
        _ => BulkValue::Value(value.as_ref()),
    }
}

/// The row that a text spells, of which these are the values.
fn cells_of<'v>(out: &mut Out, text: &str, values: &'v [Value]) -> Vec<BulkValue<'v>> {
    let pairs = values.iter().zip(text.split(','));
    or_empty(out, pairs.map(cell_of).collect(out.alloc()))
}

/// Adds what a whole run over these rows gives.
fn show_run(out: &mut Out, writer: &mut BulkRequestWriter<'_>, text: &str) {
    let alloc = out.alloc();
    let mut values = Vec::new(alloc);
    for word in text.split('/') {
        let row = Vec::<Value>::from_word(out, word);
        push(out, &mut values, row);
    }
    let mut rows = Vec::new(alloc);
    for (row, word) in values.iter().zip(text.split('/')) {
        let cells = cells_of(out, word, row);
        push(out, &mut rows, cells);
    }
    let run = counted!(alloc; value writer.build_all_values(alloc, &rows));
    for request in &run.requests {
        out.show("request", request.as_slice());
    }
    match run.refusal {
        Some(refusal) => {
            out.item(Variant(&refusal));
            out.text("text", &refusal);
        }
        None => out.word("sent"),
    }
}

/// Makes a call, and adds what it answered.
fn answer(out: &mut Out, writer: &mut BulkRequestWriter<'_>, call: &str) {
    let alloc = out.alloc();
    let (name, argument) = call.split_once(':').unwrap_or((call, ""));
    match name {
        "refs" => {
            let row = Vec::<Value>::from_word(out, argument);
            let values = refs(out, &row);
            show_copied(out, counted!(alloc; writer.add_row_refs(&values)));
        }
        "values" => {
            let row = Vec::<Value>::from_word(out, argument);
            let cells = cells_of(out, argument, &row);
            show_copied(out, counted!(alloc; writer.add_row_values(&cells)));
        }
        "all" => show_run(out, writer, argument),
        "build" => {
            match counted!(alloc; value writer.request()) {
                Some(bytes) => out.show("request", bytes),
                None => show_error(out, &BulkExecuteRequestError::NoParams),
            }
            counted!(alloc; value writer.finish());
        }
        "take" => match counted!(alloc; value writer.build()) {
            Some(bytes) => out.show("request", bytes.as_slice()),
            None => out.word("none"),
        },
        "has" => out.item(counted!(alloc; value writer.has_rows())),
        _ => out.word("?"),
    }
}
