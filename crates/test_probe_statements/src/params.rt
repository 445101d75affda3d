//! Parameters, and the values that they give: `params NAMES PARAMS`, `params_same PARAMS PARAMS`.
//!
//! NAMES have commas between them, `()` stands for no name, and `none` for a statement without names. PARAMS are `empty`,
//! `named` (none by name), values by name with commas between them, as `a=i1,b=i2`, or else a row.

use crate::prelude::*;
use indexmap::IndexMap;

/// A name.
impl FromWord for Vec<u8> {
    fn from_word(out: &mut Out, word: &str) -> Self {
        or_empty(out, Vec::from_slice(out.alloc(), word.as_bytes()))
    }
}

impl FromWord for Params {
    fn from_word(out: &mut Out, word: &str) -> Self {
        if word == "empty" {
            Params::Empty
        } else if word == "named" || word.contains('=') {
            Params::Named(named(out, word))
        } else {
            Params::Positional(Vec::from_word(out, word))
        }
    }
}

/// The values that a text gives by name.
fn named(out: &mut Out, text: &str) -> IndexMap<Vec<u8>, Value> {
    let mut values = IndexMap::new(out.alloc());
    for word in text.split(',') {
        if let Some((name, word)) = word.split_once('=') {
            let (name, value) = (Vec::from_word(out, name), Value::from_word(out, word));
            if values.insert(name, value).is_err() {
                out.lose();
            }
        }
    }
    values
}

/// The copy of some parameters, and the values that they give.
pub fn into_values(out: &mut Out, request: &Request<'_>) {
    let alloc = out.alloc();
    let names = list::<Vec<u8>>(out, request.word(1), "()", ',');
    let names = Some(names.as_slice()).filter(|_| request.word(1) != "none");
    let params = Params::from_word(out, request.word(2));
    out.same("copy", is_cloned(alloc, &params, &params));
    match counted!(alloc; params.into_values(alloc, names)) {
        Ok(values) => out.show("values", SpelledRow(values.as_slice())),
        Err(refusal) => show_refusal(out, &refusal),
    }
}

/// Adds why there are no values: the name that has none, the copy of the refusal, and its text.
fn show_refusal(out: &mut Out, refusal: &ParamsError) {
    out.show("values", Variant(refusal));
    match refusal {
        ParamsError::Memory => return,
        ParamsError::Missing(name) => out.show("name", name.as_slice()),
        _ => {}
    }
    out.same("refusal_copy", is_cloned(out.alloc(), refusal, refusal));
    out.text("text", refusal);
}

pub fn are_same(out: &mut Out, request: &Request<'_>) {
    let one = Params::from_word(out, request.word(1));
    let other = Params::from_word(out, request.word(2));
    same_or_other(out, counted!(out.alloc(); value one == other));
}
