//! Calls on a row.
//!
//! | Call | Is |
//! |---|---|
//! | `len`, `is_empty`, `columns`, `columns_ref` | the count of the values, whether it is 0; the count of the columns |
//! | `idx:INDEX` | the place that an index finds |
//! | `ref:PLACE`, `at:INDEX` | `as_ref`, and `row[..]` where the value is there |
//! | `get:INDEX`, `take:INDEX` | the same of a copy, and of a value that is taken out |
//! | `get_opt:INDEX:TYPE`, `take_opt:INDEX:TYPE` | converted: `value`, `i64`, `u64`, `text`, `bytes`, `maybe` (an `i64` or NULL), `switch` (a user's own type) |
//! | `place:PLACE:VALUE` | puts a value |
//! | `clone`, `equal:VALUES` | whether a copy, and the row of these values in these columns, are equal |
//! | `cells` | the values of a copy, by `unwrap_raw` |
//!
//! An index is a place where it is digits, an index of a user's own that answers a place where it is as `odd2`, and else a name.

use crate::own::{Odd, Switch};
use crate::prelude::*;
use crate::rows::{push_cell, raw_row};

/// Makes a call, and adds what it answered.
pub fn call(out: &mut Out, row: &mut Row, word: &str) {
    let alloc = out.alloc();
    let (name, argument) = word.split_once(':').unwrap_or((word, ""));
    let (index, kind) = argument.split_once(':').unwrap_or((argument, ""));
    let place = index.parse::<usize>();
    match name {
        "len" => out.show("len", row.len()),
        "is_empty" => out.show("is_empty", row.is_empty()),
        "columns_ref" => out.show("columns_ref", row.columns_ref().len()),
        "columns" => {
            let columns = counted!(alloc; row.columns());
            out.show("columns", columns.map(|columns| columns.len()));
        }
        "ref" => {
            let value = row.as_ref(place.unwrap_or(0));
            out.show("ref", value.map(Value::as_ref).map(Spelled));
        }
        "clone" => out.same("clone", is_cloned(alloc, row, row)),
        "equal" => equal(out, row, argument).end(out),
        "cells" => cells(out, row).end(out),
        "place" => put(out, row, place.unwrap_or(usize::MAX), kind),
        "at" => match place {
            Ok(place) => at_place(out, row, place),
            Err(_) => at_name(out, row, index),
        },
        _ => match (place, Odd::of(index)) {
            (Ok(place), _) => by_index(out, row, name, place, kind),
            (Err(_), Some(odd)) => by_index(out, row, name, odd, kind),
            (Err(_), None) => by_index(out, row, name, index, kind),
        },
    }
}

/// Whether the row of these values, in the same columns, is equal.
fn equal(out: &mut Out, row: &Row, values: &str) -> Result {
    let values = list::<Option<Value>>(out, values, "()", ',');
    if let Some(other) = raw_row(out, values, row.columns()?) {
        out.same("equal", Ok(other == *row));
    }
    Ok(())
}

fn cells(out: &mut Out, row: &Row) -> Result {
    let cells = row.clone()?.unwrap_raw();
    out.field("cells", "");
    for (place, cell) in cells.as_slice().iter().enumerate() {
        out.push(if place > 0 { "," } else { "" });
        push_cell(out, cell.as_ref());
    }
    Ok(())
}

fn put(out: &mut Out, row: &mut Row, place: usize, word: &str) {
    if place >= row.len() {
        return out.word("?");
    }
    row.place(place, Value::from_word(out, word));
    out.word("placed");
}

fn at_place(out: &mut Out, row: &Row, place: usize) {
    if row.as_ref(place).is_some() {
        out.show("at", Spelled(row[place].as_ref()));
    } else {
        out.field("at", "none");
    }
}

fn at_name(out: &mut Out, row: &Row, name: &str) {
    match name.idx(row.columns_ref()) {
        Some(place) if row.as_ref(place).is_some() => out.show("at", Spelled(row[name].as_ref())),
        _ => out.field("at", "none"),
    }
}

fn by_index<I: ColumnIndex + Drop>(out: &mut Out, row: &mut Row, name: &str, index: I, kind: &str) {
    match (name, kind) {
        ("idx", _) => out.show("idx", index.idx(row.columns_ref())),
        ("get", _) => {
            let got = counted!(out.alloc(); row.get::<Value, _>(index));
            out.show("get", got.map(|value| value.map(Spelled)));
        }
        ("take", _) => {
            let taken = counted!(out.alloc(); value row.take::<Value, _>(index));
            out.show("take", taken.map(Spelled));
        }
        (_, "i64") => converted::<i64, I>(out, row, name, index),
        (_, "u64") => converted::<u64, I>(out, row, name, index),
        (_, "text") => converted::<String, I>(out, row, name, index),
        (_, "bytes") => converted::<Vec<u8>, I>(out, row, name, index),
        (_, "maybe") => converted::<Option<i64>, I>(out, row, name, index),
        (_, "value") => converted::<Value, I>(out, row, name, index),
        (_, "switch") => converted::<Switch, I>(out, row, name, index),
        _ => out.word("?"),
    }
}

/// The value that is converted to a type, or the one that does not convert, after `refused:`.
fn converted<T: FromValue + AsValue + Drop, I: ColumnIndex + Drop>(
    out: &mut Out,
    row: &mut Row,
    name: &str,
    index: I,
) {
    let answer = if name == "get_opt" {
        counted!(out.alloc(); row.get_opt::<T, _>(index))
    } else {
        Ok(counted!(out.alloc(); value row.take_opt::<T, _>(index)))
    };
    match answer {
        Ok(Some(Ok(value))) => out.show(name, Spelled(value)),
        Ok(Some(Err(FromValueError(value)))) => {
            out.field(name, "refused:");
            Spelled(value).shown(out);
        }
        Ok(None) => out.field(name, "none"),
        Err(AllocError) => out.field(name, "Memory"),
    }
}
