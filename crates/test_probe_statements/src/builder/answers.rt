//! What calls of a builder answered, as words.

use crate::prelude::*;
pub use mysql_bulk::BulkExecuteRequestBuilderError as Refusal;

/// Adds why there is no builder or writer with some declared types.
pub fn show_undeclared(out: &mut Out, refused: &BulkColumnTypeError) {
    out.show("Refused", refused.place);
    out.text("text", refused);
}

/// Adds the bytes of a request.
pub fn show_request(out: &mut Out, request: &ComStmtBulkExecuteRequest) {
    let mut bytes = Vec::new(out.alloc());
    request.serialize(&mut bytes).end(out);
    out.show("request", bytes.as_slice());
}

/// Adds why there is no request.
pub fn show_error(out: &mut Out, error: &BulkExecuteRequestError) {
    out.item(Variant(error));
    if let BulkExecuteRequestError::MixedTypes(row)
    | BulkExecuteRequestError::RowTooLarge(row)
    | BulkExecuteRequestError::MemoryRow(row) = error
    {
        out.push("=");
        SpelledRow(row.as_slice()).shown(out);
    }
    out.text("text", error);
}

/// Adds a refusal, whose text is that of the error that it holds.
pub fn show_refusal(out: &mut Out, refusal: &Refusal) {
    match refusal {
        Refusal::Request(error) => return show_error(out, error),
        Refusal::Params(ParamsError::Missing(name)) => out.show("Missing", name.as_slice()),
        Refusal::Params(error) => out.item(Variant(error)),
    }
    out.text("text", refusal);
}

/// Adds a request, or why there is none.
pub fn show_built(out: &mut Out, built: Result<ComStmtBulkExecuteRequest, Refusal>) {
    match built {
        Ok(request) => show_request(out, &request),
        Err(refusal) => show_refusal(out, &refusal),
    }
}

/// Adds what a call answered that adds a copy of a row.
pub fn show_copied(out: &mut Out, answer: Result<bool, BulkRowError>) {
    match answer {
        Ok(is_taken) => out.word(if is_taken { "taken" } else { "kept" }),
        Err(refusal) => {
            out.item(Variant(&refusal));
            out.text("text", &refusal);
        }
    }
}

/// Adds what a call answered that adds a row.
pub fn show_added(out: &mut Out, answer: Result<Option<Vec<Value>>, Refusal>) {
    match answer {
        Ok(Some(row)) => out.show("back", SpelledRow(&row)),
        Ok(None) => out.word("taken"),
        Err(refusal) => show_refusal(out, &refusal),
    }
}
