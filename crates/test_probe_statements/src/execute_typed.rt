//! Executions whose types are chosen, and those that send none.
//!
//! `execute_typed ID CURSOR KIND PARAMETERS ATTRIBUTES`: with a cursor, or `-`; with `types`, or under those of an `earlier` execution;
//! each parameter `TYPE=VALUE`, with `/` between them, where `ahead` is one sent ahead and `ZOFFSET` before a date its offset from UTC in
//! minutes, and `!xHEX` or `!NxHEX` the bytes of one as it was sent, without its bit or with it; attributes `NAME:TYPE=VALUE`, names in
//! hexadecimal, or none where CLIENT_QUERY_ATTRIBUTES is not agreed on. It is built, and written at once to a buffer and to a slice.
//!
//! `write_row_params COLUMNS PARAMETERS`: a binary row of such parameters, which is written to a slice.

use crate::execute::{cursor_of, show_refused, show_with};
use crate::prelude::*;
use crate::rows::columns;

/// A parameter or an attribute of a request.
#[derive(Drop)]
struct TypedWord {
    name: Vec<u8>,
    param_type: ParamType,
    value: Value,
    offset: Option<i16>,
    is_ahead: bool,
    null_bit: Option<bool>,
}

impl FromWord for TypedWord {
    fn from_word(out: &mut Out, word: &str) -> Self {
        let (name, typed) = word.split_once(':').unwrap_or(("", word));
        let (param_type, text) = typed.split_once('=').unwrap_or((typed, "N"));
        let (offset, text) = match text.strip_prefix('Z').map(|text| text.split_once('D')) {
            Some(Some((offset, _))) => (
                offset.parse::<i16>().ok(),
                text.trim_start_matches(|c| c != 'D'),
            ),
            _ => (None, text),
        };
        let (null_bit, text) = match (text.strip_prefix("!N"), text.strip_prefix('!')) {
            (Some(text), _) => (Some(true), text),
            (None, Some(text)) => (Some(false), text),
            (None, None) => (None, text),
        };
        TypedWord {
            name: bytes(out, name),
            param_type: ParamType::from_word(out, param_type),
            value: Value::from_word(out, text),
            offset,
            is_ahead: text == "ahead",
            null_bit,
        }
    }
}

/// The value of a word.
fn value_of<'v>(word: &'v TypedWord) -> ParamValue<'v> {
    match (word.offset, word.value.as_ref()) {
        (Some(offset_minutes), ValueRef::Date(year, month, day, hour, minute, second, micros)) => {
            ParamValue::DateTimeWithOffset(DateTimeWithOffset {
                year,
                month,
                day,
                hour,
                minute,
                second,
                micros,
                offset_minutes,
            })
        }
        (_, value) => ParamValue::Value(value),
    }
}

fn param_of<'v>(word: &'v TypedWord) -> TypedExecuteParam<'v> {
    let param = match (word.null_bit, value_of(word)) {
        (Some(has_null_bit), ParamValue::Value(ValueRef::Bytes(bytes))) => ExecuteParam::AsSent {
            has_null_bit,
            bytes,
        },
        _ if word.is_ahead => ExecuteParam::SentAhead,
        (_, value) => ExecuteParam::sent(value),
    };
    TypedExecuteParam {
        param_type: word.param_type,
        name: word.name.as_slice(),
        param,
    }
}

fn attribute_of<'v>(word: &'v TypedWord) -> QueryAttribute<'v> {
    QueryAttribute {
        param_type: word.param_type,
        name: word.name.as_slice(),
        value: value_of(word),
    }
}

fn builder_of<'a>(
    request: &Request<'_>,
    attributes: &'a [QueryAttribute<'a>],
) -> ComStmtExecuteOptionsBuilder<'a> {
    let plain = ComStmtExecuteRequestBuilder::new(request.number(1));
    let builder = match (request.word(3), request.word(5)) {
        ("earlier", "") => plain.with_earlier_types(),
        ("earlier", _) => plain.with_earlier_types().with_query_attributes(attributes),
        (_, "") => ComStmtExecuteOptionsBuilder::new(request.number(1)),
        (_, _) => plain.with_query_attributes(attributes),
    };
    match cursor_of(request.word(2)) {
        Some(cursor) => builder.with_cursor(cursor),
        None => builder,
    }
}

/// Writes an execution to a buffer at once, and to a slice.
fn write_at_once(
    out: &mut Out,
    builder: ComStmtExecuteOptionsBuilder<'_>,
    params: &[TypedExecuteParam<'_>],
) {
    let alloc = out.alloc();
    let mut buffer = begun(out);
    match counted!(alloc; builder.write_ref(params, &mut buffer)) {
        Ok(as_long_data) => {
            out.show("at_once", after(&buffer));
            out.show("as_long_data", as_long_data);
        }
        Err(error) => {
            out.show("buffer", buffer.as_slice());
            show_refused(out, &error);
        }
    }
    let mut places = or_empty(out, Vec::from_slice(alloc, after(&buffer)));
    places.fill(0);
    let written = counted!(alloc; builder.write_to_slice(params, &mut places));
    if let Ok((len, _)) = written {
        out.or_other(
            "slice",
            Ok(len == places.len() && places.as_slice() == after(&buffer)),
        );
    }
}

pub fn execute_typed(out: &mut Out, request: &Request<'_>) {
    let alloc = out.alloc();
    let words = list::<TypedWord>(out, request.word(4), "()", '/');
    let params = or_empty(out, words.iter().map(param_of).collect(alloc));
    let named = list::<TypedWord>(out, request.word(5), "()", '/');
    let attributes = or_empty(out, named.iter().map(attribute_of).collect(alloc));
    let builder = builder_of(request, &attributes);
    let built = counted!(alloc; builder.build_ref(&params));
    show_with(out, built);
    write_at_once(out, builder, &params);
}

/// Writes a row to a slice of 64 bytes, or shows why it is refused, and whether the slice is then as it was.
pub fn write_row_params(out: &mut Out, request: &Request<'_>) -> Result {
    let alloc = out.alloc();
    let columns = columns(request)?;
    let words = list::<TypedWord>(out, request.word(2), "()", '/');
    let params = or_empty(out, words.iter().map(param_of).collect(alloc));
    let mut places = [0xaa; 64];
    match counted!(alloc; write_binary_row_to_slice(&columns, &params, &mut places)) {
        Ok(len) => out.show("written", places.get(..len).unwrap_or(&[])),
        Err(refused) => {
            out.word("refused");
            if let BinaryRowError::Value(place) = refused {
                out.show("place", place);
            }
            let is_kept = places.iter().all(|byte| *byte == 0xaa);
            out.word(if is_kept { "kept" } else { "TAKEN" });
            out.text("text", &refused);
        }
    }
    Ok(())
}
