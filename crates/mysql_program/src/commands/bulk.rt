//! `bulk STMT MAX [types] [rows=K] [columns=TYPE,TYPE,..]`: the rows of the input, cut into the fewest requests.

ghost use Rattle.std.specs.Prelude.{◌≡◌, ◌++◌, IfOk, OnOk, map, string_bytes};
ghost use Rattle.mysql_values.specs.Value.{contents_of};
ghost use Rattle.mysql_bulk.specs.Row.{contents_of_rows};
ghost use Rattle.mysql_bulk.specs.Row.{first_length};
ghost use Rattle.mysql_bulk.specs.Row.{row_size};
ghost use Rattle.mysql_bulk.specs.ValuesRun.{bytes_of};
ghost use Rattle.mysql_program.specs.Answer.{done};
ghost use Rattle.mysql_program.specs.Bulk as spec;
ghost use Rattle.mysql_program.specs.RowText.{rows_read, value_rows};

use crate::answer::Answer;
use crate::bulk_call::BulkCall;
use crate::lines::append_lines;
use crate::row_text::{RowCell, borrowed_rows, read_rows, rows_of_values};
use mysql_bulk::laws::fewest_cut_is_named_by_its_ends;
use mysql_bulk::{
    BulkExecuteRequestBuilderError, BulkExecuteRequestError, BulkRowError, BulkRun, BulkValuesRun,
    ComStmtBulkExecuteRequest, bulk_row_size,
};
use mysql_cuts::cut_is_fewest;
use mysql_show::Field;
use mysql_values::{ParamType, Value};
use mysql_wire::MySerialize;
use std::alloc::{AllocError, Global};

/// Answers with the requests for the rows of the input.
pub fn answer(alloc: Global, call: &BulkCall<'_>, input: &[u8]) -> Result<Answer, AllocError>
    ensures value { IfOk result (λ answer. spec.IsBulkAnswer call.now input.now answer) }
{
    match read_rows(alloc, input)? {
        Some(rows) => with_rows(alloc, call, rows),
        None => Answer::usage(alloc),
    }
}

/// Answers with the requests of the rows, under the declared types, if any.
fn with_rows(
    alloc: Global,
    call: &BulkCall<'_>,
    rows: Vec<Vec<RowCell>>,
) -> Result<Answer, AllocError>
    ensures value { IfOk result (λ answer. spec.AnswersCall call.now.columns call.now (rows_read rows.items) answer) }
{
    match call.types(alloc)? {
        Some(types) => send_cells(alloc, call, types.as_slice(), rows.as_slice()),
        None => send_values(alloc, call, rows.as_slice()),
    }
}

/// Answers with the requests of rows that consist only of values.
fn send_values(
    alloc: Global,
    call: &BulkCall<'_>,
    rows: &[Vec<RowCell>],
) -> Result<Answer, AllocError>
    ensures value { IfOk result (λ answer. spec.AnswersValues call.now (value_rows (rows_read rows.now)) answer) }
{
    match rows_of_values(alloc, rows)? {
        Some(rows) => send(alloc, call, rows),
        None => Answer::usage(alloc),
    }
}

/// Answers with the requests of rows of values, DEFAULT and IGNORE under these types; once all rows are sent,
/// they are the fewest.
fn send_cells(
    alloc: Global,
    call: &BulkCall<'_>,
    types: &[ParamType],
    rows: &[Vec<RowCell>],
) -> Result<Answer, AllocError>
    ensures value { IfOk result (λ answer. spec.AnswersCells call.now types.now (rows_read rows.now) answer) }
{
    let cells = borrowed_rows(alloc, rows)?;
    let mut writer = call.builder(alloc).with_types(types);
    let BulkValuesRun { requests, refusal } = writer.build_all_values(alloc, cells.as_slice());
    let text = bytes_lines(alloc, requests.as_slice())?;
    match refusal {
        Some(refusal) => Answer::refused_by(alloc, text, row_refusal_name(refusal)),
        None => sent(alloc, text, requests.len(), rows.len(), true),
    }
}

fn bytes_lines(alloc: Global, requests: &[Vec<u8>]) -> Result<String, AllocError>
    ensures value { IfOk result (λ text. string_bytes text ≡ spec.bytes_lines (bytes_of requests.now)) }
{
    let mut text = String::new(alloc);
    for request in requests {
        append_bytes(alloc, &mut text, request.as_slice())?;
    }
    Ok(text)
}

fn append_bytes(alloc: Global, out: &mut String, request: &[u8]) -> Result<(), AllocError>
    ensures ok { OnOk result (string_bytes out.new ≡ string_bytes out.old ++ spec.bytes_line request.now) }
{
    append_lines(alloc, out, &[Field::digits("request", request)])
}

fn row_refusal_name(refusal: BulkRowError) -> &'static str
    ensures value { result.now ≡ spec.row_refusal_name refusal }
{
    match refusal {
        BulkRowError::MixedArity => "MixedArity",
        BulkRowError::MixedTypes => "MixedTypes",
        BulkRowError::TooLarge => "RowTooLarge",
        BulkRowError::Memory => "Memory",
    }
}

/// Answers with the requests of the rows; once all rows are sent, also says that they are the fewest, which is
/// checked by their sizes.
fn send(alloc: Global, call: &BulkCall<'_>, rows: Vec<Vec<Value>>) -> Result<Answer, AllocError>
    ensures value { IfOk result (λ answer. spec.AnswersRows call.now (contents_of_rows rows.items) answer) }
{
    let arity = first_length(rows.as_slice());
    let sizes = row_sizes(alloc, rows.as_slice())?;
    let mut builder = call.builder(alloc);
    let BulkRun {
        requests,
        ends,
        refusal,
    } = builder.build_all(rows);
    let text = request_lines(alloc, requests.as_slice())?;
    match refusal {
        Some(refusal) => Answer::refused_by(alloc, text, refusal_name(&refusal)),
        None => {
            let (sizes, ends) = (sizes.as_slice(), ends.as_slice());
            fewest_cut_is_named_by_its_ends();
            let fewest = cut_is_fewest(call.rule(), call.limit(), arity, sizes, ends);
            sent(alloc, text, requests.len(), sizes.len(), fewest)
        }
    }
}

/// The number of values of the first row.
fn first_length(rows: &[Vec<Value>]) -> usize
    ensures value { result ≡ first_length (contents_of_rows rows.now) }
{
    match rows.first() {
        Some(row) => row.len(),
        None => 0,
    }
}

/// The length of each row in a request in bytes. A sum of more than 64 bits counts as a failed allocation.
fn row_sizes(alloc: Global, rows: &[Vec<Value>]) -> Result<Vec<u64>, AllocError>
    ensures value { IfOk result (λ sizes. sizes.items ≡ map row_size (contents_of_rows rows.now)) }
{
    let mut sizes = Vec::with_capacity(alloc, rows.len())?;
    for row in rows {
        sizes.push(row_size(row.as_slice())?)?;
    }
    Ok(sizes)
}

/// The length of a row in a request in bytes. A sum of more than 64 bits counts as a failed allocation.
fn row_size(row: &[Value]) -> Result<u64, AllocError>
    ensures value { IfOk result (λ size. size ≡ row_size (contents_of row.now)) }
{
    bulk_row_size(row).ok_or(AllocError)
}

fn request_lines(
    alloc: Global,
    requests: &[ComStmtBulkExecuteRequest],
) -> Result<String, AllocError>
    ensures value { IfOk result (λ text. string_bytes text ≡ spec.request_lines requests.now) }
{
    let mut text = String::new(alloc);
    for request in requests {
        append_request(alloc, &mut text, request)?;
    }
    Ok(text)
}

fn append_request(
    alloc: Global,
    out: &mut String,
    request: &ComStmtBulkExecuteRequest,
) -> Result<(), AllocError>
    ensures ok { OnOk result (string_bytes out.new ≡ string_bytes out.old ++ spec.request_line request.now) }
{
    let mut written = Vec::new(alloc);
    request.serialize(&mut written)?;
    append_bytes(alloc, out, written.as_slice())
}

/// Returns the lines so far, and the last ones.
fn sent(
    alloc: Global,
    mut text: String,
    requests: usize,
    rows: usize,
    fewest: bool,
) -> Result<Answer, AllocError>
    ensures value { IfOk result (λ answer. answer ≡ done (string_bytes text ++ spec.last_lines requests rows fewest)) }
{
    append_lines(
        alloc,
        &mut text,
        &[
            Field::number("requests", requests as u64),
            Field::number("rows", rows as u64),
            Field::flag("fewest", fewest),
        ],
    )?;
    Ok(Answer::done(text))
}

fn refusal_name(refusal: &BulkExecuteRequestBuilderError) -> &'static str
    ensures value { result.now ≡ spec.bulk_refusal_name refusal.now }
{
    match refusal {
        BulkExecuteRequestBuilderError::Request(error) => match error {
            BulkExecuteRequestError::MixedArity => "MixedArity",
            BulkExecuteRequestError::MixedTypes(_) => "MixedTypes",
            BulkExecuteRequestError::RowTooLarge(_) => "RowTooLarge",
            BulkExecuteRequestError::MemoryRow(_) => "MemoryRow",
            BulkExecuteRequestError::NoParams => "NoParams",
            BulkExecuteRequestError::Memory => "Memory",
        },
        // Unreachable: this command has no parameters.
        BulkExecuteRequestBuilderError::Params(_) => "Params",
    }
}
