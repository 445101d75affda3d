//! Executions that are made.
//!
//! `execute ID VALUES`, and `execute_many ID COUNT VALUE` of this many of one value, with its sizes alone.
//!
//! `execute_with ID CURSOR ATTRIBUTES PARAMETERS`: with a cursor, or `-`; with attributes, `-` for none agreed to, `()`
//! for none, else `NAME=VALUE` with `/` between them, names in hexadecimal; and with parameters, of which `ahead` is one
//! sent ahead.
//!
//! `execute_at_once KIND ID PARAMETERS`: written at once, of `params`, of borrowed `refs`, or of `values`.

use crate::prelude::*;
use mysql_stmt::ComStmtExecuteRequest as Execution;

/// An execution, and whether its builder says that byte strings are long data.
type Made<T> = Result<(T, bool)>;

/// Adds whether byte strings are long data, and whether the execution says so as its builder does.
fn show_long_data(out: &mut Out, of_builder: bool, as_long_data: bool) {
    out.show("as_long_data", as_long_data);
    out.same("as_long_data_said", Ok(as_long_data == of_builder));
}

/// An execution with values, by a copy of its builder.
fn made<'a>(alloc: Global, id: u32, values: &'a [Value]) -> Made<Execution<'a>> {
    let copy = counted!(alloc; ComStmtExecuteRequestBuilder::new(id).clone())?;
    counted!(alloc; copy.build(alloc, values))
}

/// Shows an execution with values.
fn shown<'a>(out: &mut Out, request: &Request<'_>, values: &'a [Value]) -> Option<Execution<'a>> {
    let made = made(out.alloc(), request.number(1), values);
    let (execution, as_long_data) = or_memory(out, made)?;
    fields!(out, execution; stmt_id, flags, params_flags);
    out.show("params", execution.params().len());
    show_long_data(out, as_long_data, execution.as_long_data());
    Some(execution)
}

pub fn execute(out: &mut Out, request: &Request<'_>) {
    let values = Vec::<Value>::from_word(out, request.word(2));
    if let Some(execution) = shown(out, request, &values) {
        fields!(out, execution; bitmap);
        out.same("made", is_cloned(out.alloc(), &execution, &execution));
        write_made(out, &execution);
    }
}

pub fn execute_many(out: &mut Out, request: &Request<'_>) {
    let mut values = Vec::new(out.alloc());
    for _ in 0..request.number(2) {
        let value = Value::from_word(out, request.word(3));
        push(out, &mut values, value);
    }
    if let Some(execution) = shown(out, request, &values) {
        let bitmap_at = ComStmtExecuteRequestBuilder::NULL_BITMAP_OFFSET;
        out.show("bitmap_at", bitmap_at);
        out.show("bitmap_len", execution.bitmap().len());
        out.show("len", execution.defined_len());
        let mut written = Vec::new(out.alloc());
        execution.serialize(&mut written).end(out);
        out.show("written_len", written.len());
    }
}

/// A name in hexadecimal digits, and a value.
impl FromWord for (Vec<u8>, Value) {
    fn from_word(out: &mut Out, word: &str) -> Self {
        let (name, value) = word.split_once('=').unwrap_or((word, "N"));
        (bytes(out, name), Value::from_word(out, value))
    }
}

pub fn cursor_of(word: &str) -> Option<Cursor> {
    match word {
        "read_only" => Some(Cursor::ReadOnly),
        "for_update" => Some(Cursor::ForUpdate),
        "scrollable" => Some(Cursor::Scrollable),
        _ => None,
    }
}

/// The parameter of a word, of which this is the value.
fn param_of<'v>((value, word): (&'v Value, &str)) -> ExecuteParam<'v> {
    match word {
        "ahead" => ExecuteParam::SentAhead,
        _ => ExecuteParam::Value(value.as_ref()),
    }
}

/// The parameters that a text spells, of which these are the values.
fn params_of<'v>(out: &mut Out, text: &str, values: &'v [Value]) -> Vec<ExecuteParam<'v>> {
    let pairs = values.iter().zip(text.split(','));
    or_empty(out, pairs.map(param_of).collect(out.alloc()))
}

pub fn attribute_of<'n>(named: &'n (Vec<u8>, Value)) -> QueryAttribute<'n> {
    let (name, value) = (named.0.as_slice(), named.1.as_ref());
    QueryAttribute::new(name, value)
}

/// An execution with options, and whether its builder says that byte strings are long data.
pub type MadeWith<'a, V> = Result<(ComStmtExecuteWithOptions<'a, V>, bool), TypedExecutionError>;

/// The execution that a request asks for, with these parameters and attributes.
fn made_with<'a, 'v>(
    request: &Request<'_>,
    params: &'a [ExecuteParam<'v>],
    attributes: &'a [QueryAttribute<'a>],
) -> MadeWith<'a, ExecuteParam<'v>> {
    let alloc = request.alloc;
    let builder = ComStmtExecuteRequestBuilder::new(request.number(1));
    counted!(alloc; match (cursor_of(request.word(2)), request.word(3)) {
        (None, "-") => builder.build_ref(params),
        (None, _) => builder.with_query_attributes(attributes).build_ref(params),
        (Some(cursor), "-") => builder.with_cursor(cursor).build_ref(params),
        (Some(cursor), _) => builder.with_cursor(cursor).with_query_attributes(attributes).build_ref(params),
    })
}

/// Adds why there is no execution.
pub fn show_refused(out: &mut Out, error: &TypedExecutionError) {
    match error {
        TypedExecutionError::TypeMismatch { place } => out.show("TypeMismatch", *place),
        TypedExecutionError::AttributeTypeMismatch { place } => out.show(
            "AttributeTypeMismatch",
            *place,
        ),
        TypedExecutionError::Memory => out.word("Memory"),
    }
    out.text("text", error);
}

/// Shows an execution with options, and writes it.
pub fn show_with<V: AsExecuteParam>(out: &mut Out, made: MadeWith<'_, V>) {
    let (execution, as_long_data) = match made {
        Ok(made) => made,
        Err(error) => return show_refused(out, &error),
    };
    fields!(out, execution; stmt_id, flags);
    if execution.iteration_count() != 1 {
        out.show("iteration_count", execution.iteration_count());
    }
    if !execution.sends_types() {
        out.show("sends_types", false);
    }
    out.show("params", execution.params().len());
    let attributes = execution.attributes();
    out.show("attributes", attributes.map(|attributes| attributes.len()));
    show_long_data(out, as_long_data, execution.as_long_data());
    write_made(out, &execution);
}

pub fn execute_with(out: &mut Out, request: &Request<'_>) {
    let values = Vec::<Value>::from_word(out, request.word(4));
    let params = params_of(out, request.word(4), &values);
    let named = list::<(Vec<u8>, Value)>(out, request.word(3), "()", '/');
    let attributes = or_empty(out, named.iter().map(attribute_of).collect(out.alloc()));
    show_with(out, made_with(request, &params, &attributes));
}

/// Writes an execution at once.
fn write_at_once<V: AsExecuteParam>(out: &mut Out, id: u32, params: &[V]) {
    let mut buffer = begun(out);
    let builder = ComStmtExecuteRequestBuilder::new(id);
    let made = counted!(out.alloc(); builder.write_ref(params, &mut buffer));
    show_written(out, made.is_ok(), &buffer, None);
    if let Ok(as_long_data) = made {
        out.show("len", after(&buffer).len());
        out.show("as_long_data", as_long_data);
    }
}

pub fn at_once(out: &mut Out, request: &Request<'_>) {
    let (id, text) = (request.number(2), request.word(3));
    let values = Vec::<Value>::from_word(out, text);
    let (refs, params) = (refs(out, &values), params_of(out, text, &values));
    match request.word(1) {
        "values" => write_at_once(out, id, &values),
        "refs" => write_at_once(out, id, &refs),
        _ => write_at_once(out, id, &params),
    }
}
