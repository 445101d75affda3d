//! Values that are read and written.
//!
//! `cell COLUMN BYTES` reads a value of a binary row; `param_type BYTES` reads a type, `bin VALUE` writes a value, and
//! `bin_len VALUE` says its length; `typed TYPE VALUE` is a value under a type.
//!
//! `from_value TYPE VALUE` converts a value. The types are `value`, `i64`, `u64`, `bytes`, `text`, and each after `option_`.
//! A refusal hands the value back.
//!
//! `sizes` are those of records of a type with parameters.

use crate::borrowed::{converts, is_alike};
use crate::prelude::*;

/// The column of a request: a string where there is none.
pub fn column(out: &mut Out, request: &Request<'_>) -> (ColumnType, ColumnFlags) {
    let columns = or_empty(out, request.columns());
    let string = (ColumnType::MYSQL_TYPE_VAR_STRING, ColumnFlags::empty());
    columns.as_slice().first().copied().unwrap_or(string)
}

impl<T> Shows<ValueDeserializer<T>> for Statements {
    fn show(record: &ValueDeserializer<T>, out: &mut Out) {
        out.item(Spelled(record.0.as_ref()));
        out.show("bin_len", record.0.bin_len());
        out.same("made", is_copied(out.alloc(), &record.0))
    }
}

/// Adds a type of a parameter.
pub fn show_type(it: &ParamType, out: &mut Out) {
    out.show("type", u8::from(it.column_type()));
    out.show("flags", it.flags())
}

impl Shows<ParamType> for Statements {
    fn show(it: &ParamType, out: &mut Out) {
        show_type(it, out);
        let made = counted!(out.alloc(); value ParamType::new(it.column_type(), it.flags()));
        out.same("made", Ok(*it == made))
    }
}

/// A value that is put into a cell. Where it is refused the cells are as before; nothing is said of the buffer then.
pub fn cell(out: &mut Out, request: &Request<'_>) -> Result {
    let alloc = out.alloc();
    let column = column(out, request);
    let mut cells = Vec::with_capacity(alloc, 1)?;
    let mut buf = ParseBuf::new(alloc, request.bytes.as_slice());
    let answer: Result<(), Fault> = counted!(alloc; read_bin_cell(column, &mut buf, &mut cells));
    match (answer, cells.as_slice()) {
        (Ok(()), [Some(value)]) => {
            out.word("read");
            out.item(Spelled(value.as_ref()));
            out.show("rest", buf.len());
        }
        (Ok(()), _) => out.word("NONE"),
        (Err(fault), cells) => out.refused(fault, cells.is_empty()),
    }
    Ok(())
}

/// Whether a copy of a value is the same, and the value that is borrowed too.
fn is_copied(alloc: Global, value: &Value) -> Result<bool> {
    Ok(is_cloned(alloc, value, value)? && is_alike(alloc, value)?)
}

/// What a value is sent as, its copy, and its bytes.
pub fn bin(out: &mut Out, request: &Request<'_>) {
    let alloc = out.alloc();
    let value = Value::from_word(out, request.word(1));
    out.show("sent", u8::from(counted!(alloc; value value.sent_type())));
    out.show("uint", counted!(alloc; value value.is_uint()));
    let sent = counted!(alloc; value ParamType::from_value(&value));
    show_type(&sent, out);
    out.show("bin_len", counted!(alloc; value value.bin_len()));
    out.same("copy", is_copied(alloc, &value));
    write_made(out, &value);
}

pub fn bin_len(out: &mut Out, request: &Request<'_>) {
    let alloc = out.alloc();
    let value = Value::from_word(out, request.word(1));
    out.show("bin_len", counted!(alloc; value value.bin_len()));
    out.show("len", counted!(alloc; value value.defined_len()));
}

/// A conversion to one of some types, and to one that may be NULL.
pub fn from_value(out: &mut Out, request: &Request<'_>) {
    let value = Value::from_word(out, request.word(2));
    match request.word(1) {
        "value" => convert::<Value, ValueRef<'_>>(out, &value),
        "i64" => convert::<i64, i64>(out, &value),
        "u64" => convert::<u64, u64>(out, &value),
        "bytes" => convert::<Vec<u8>, &[u8]>(out, &value),
        "text" => convert::<String, &str>(out, &value),
        "option_value" => convert::<Option<Value>, Option<ValueRef<'_>>>(out, &value),
        "option_i64" => convert::<Option<i64>, Option<i64>>(out, &value),
        "option_u64" => convert::<Option<u64>, Option<u64>>(out, &value),
        "option_bytes" => convert::<Option<Vec<u8>>, Option<&[u8]>>(out, &value),
        "option_text" => convert::<Option<String>, Option<&str>>(out, &value),
        _ => out.word("unknown"),
    }
}

/// What a value is as another type, or the refusal, whose copy is the same; and the same of the borrowed value.
fn convert<'a, T, R>(out: &mut Out, value: &'a Value)
where
    T: FromValue + AsValue + Drop,
    R: FromValueRef<'a> + AsValue + Drop,
{
    let alloc = out.alloc();
    let Ok(copy) = value.clone() else {
        return out.lose();
    };
    match counted!(alloc; T::from_value_opt(copy)) {
        Ok(converted) => {
            out.show("is", Spelled(converted.as_value()));
            converts::<R>(out, value, Ok(converted.as_value()));
        }
        Err(refusal) => {
            out.show("back", Spelled(refusal.0.as_ref()));
            out.same("copy", is_cloned(alloc, &refusal, &refusal));
            out.text("text", &refusal);
            converts::<R>(out, value, Err(&refusal));
        }
    }
}

pub fn sizes(out: &mut Out, _request: &Request<'_>) {
    sizes!(out; ValueDeserializer<TextValue>, ValueDeserializer<BinValue>, NullBitmap<'_, ClientSide>,
        RowDeserializer<ServerSide, Text>, RowDeserializer<ServerSide, Binary>)
}

/// A value under a type: `typed TYPE VALUE`.
pub fn typed(out: &mut Out, request: &Request<'_>) {
    let alloc = out.alloc();
    let param_type = ParamType::from_word(out, request.word(1));
    let value = Value::from_word(out, request.word(2));
    match counted!(alloc; value TypedValue::new(param_type, value.as_ref())) {
        Some(typed) => {
            out.show("bin_len", counted!(alloc; value typed.bin_len()));
            write_made(out, &typed);
        }
        None => out.word("none"),
    }
}
