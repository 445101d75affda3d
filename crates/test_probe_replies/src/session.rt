//! What changed of a session's state.
//!
//! `change KIND BYTES`, `change other BYTES` (a change of a kind without a type of its own, which is made of its text);
//! and the parts of changes, each alone: `schema BYTES`, `gtids BYTES`, `characteristics BYTES`, `state BYTES`,
//! `unsupported BYTES`, `variable BYTES`, `variables BYTES`; and `sizes`.

use crate::prelude::*;
use mysql_session::{ChangeRef as Place, SessionStateChange as Change};
use mysql_wire::{BytesRepr, ConstValue, SessionStateType};
use test_probe::places::both;

pub fn change(out: &mut Out, request: &Request<'_>) {
    if request.word(1) == "other" {
        return other_change(out, request);
    }
    let code = request.word(1).parse::<u8>().unwrap_or(255);
    match SessionStateType::from_code(code) {
        Some(kind) => both::<Server, Change<'_>, SessionStateChangeRef<'_>>(out, request, kind),
        None => out.word("unknown"),
    }
}

/// A change of a kind that has no type of its own: no bytes are read as it.
fn other_change(out: &mut Out, request: &Request<'_>) {
    let bytes = request.bytes.as_slice();
    if let Some(text) = read::<Server, Unsupported<'_>>(out, bytes, ()) {
        let change = Change::Unsupported(text);
        show_change(&change, out);
        anew!(out, &change; owned change);
        let _ = write(out, &change, bytes);
    }
}

/// Adds what changed.
pub fn show_change(change: &Change<'_>, out: &mut Out) {
    match change {
        Change::IsTracked(is_tracked) => out.show("is_tracked", *is_tracked),
        Change::Schema(text) => show_text("schema", text, out),
        Change::SystemVariables(variables) => show_variables(variables, out),
        Change::Gtids(text) => show_text("gtids", text, out),
        Change::TransactionCharacteristics(text) => show_text("characteristics", text, out),
        Change::TransactionState(text) => show_text("state", text, out),
        Change::Unsupported(text) => show_text("unsupported", text, out),
    }
}

impl Shows<Change<'_>> for Server {
    fn show(it: &Change<'_>, out: &mut Out) {
        show_change(it, out);
        anew!(out, it; owned it)
    }
}

fn show_variable(variable: &SystemVariable<'_>, out: &mut Out) {
    fields!(out, variable; name = name_bytes, value = value_bytes; texts name_str = name_str, value_str = value_str)
}

impl Shows<SystemVariable<'_>> for Server {
    fn show(it: &SystemVariable<'_>, out: &mut Out) {
        show_variable(it, out);
        anew!(out, it; owned made_variable(it))
    }
}

fn show_variables(variables: &SystemVariables<'_>, out: &mut Out) {
    out.show("variables", variables.as_slice().len());
    for variable in variables.as_slice() {
        show_variable(variable, out);
        out.same("variable", Ok(made_variable(variable) == *variable));
    }
}

impl Shows<SystemVariables<'_>> for Server {
    fn show(it: &SystemVariables<'_>, out: &mut Out) {
        show_variables(it, out);
        let variables = it.as_slice().iter().map(made_variable);
        let variables = or_empty(out, variables.collect(out.alloc()));
        let made = SystemVariables::new(SystemVariables::new(variables).into_inner());
        anew!(out, it; owned made)
    }
}

impl<'a> InPlace<Change<'a>, SessionStateChangeRef<'a>> for Server {
    fn is(place: &SessionStateChangeRef<'a>, owned: &Change<'a>, out: &mut Out) -> bool {
        let alloc = out.alloc();
        let made = counted!(alloc; place.to_owned(alloc));
        let is_made = or_lost(out, made).is_some_and(|made| made == *owned);
        is_made && lies_there(place.change(), owned, out)
    }
}

/// Whether a place tells what a change tells.
fn lies_there<'a>(place: &Place<'a>, owned: &Change<'a>, out: &mut Out) -> bool {
    match (place, owned) {
        (Place::IsTracked(is_tracked), Change::IsTracked(it)) => is_tracked == it,
        (Place::Schema(text), Change::Schema(it)) => *text == it.as_bytes(),
        (Place::SystemVariables(all), Change::SystemVariables(it)) => Server::is(all, it, out),
        (Place::Gtids(text), Change::Gtids(it)) => *text == it.as_bytes(),
        (Place::TransactionCharacteristics(text), Change::TransactionCharacteristics(it)) => {
            *text == it.as_bytes()
        }
        (Place::TransactionState(text), Change::TransactionState(it)) => *text == it.as_bytes(),
        _ => false,
    }
}

fn show_text<N, R: BytesRepr>(name: &str, text: &SessionText<'_, N, R>, out: &mut Out) {
    out.show(name, text.as_bytes());
    fields!(out, text; ; texts as_str = as_str)
}

impl<'a, N, R: BytesRepr> Shows<SessionText<'a, N, R>> for Server {
    fn show(record: &SessionText<'a, N, R>, out: &mut Out) {
        show_text("bytes", record, out);
        let made = SessionText::<'_, N, R>::new(CowSlice::Borrowed(record.as_bytes()));
        anew!(out, record; owned made)
    }
}

/// The variable of the same name and value.
fn made_variable<'a>(variable: &'a SystemVariable<'_>) -> SystemVariable<'a> {
    let name = CowSlice::Borrowed(variable.name_bytes());
    SystemVariable::new(name, CowSlice::Borrowed(variable.value_bytes()))
}

impl<'a> InPlace<SystemVariable<'a>, SystemVariableRef<'a>> for Server {
    fn is(place: &SystemVariableRef<'a>, owned: &SystemVariable<'a>, _out: &mut Out) -> bool {
        fields!(place, owned; alike name with name_bytes, value with value_bytes)
            && place.to_owned() == *owned
    }
}

impl<'a> InPlace<SystemVariables<'a>, SystemVariablesRef<'a>> for Server {
    fn is(place: &SystemVariablesRef<'a>, owned: &SystemVariables<'a>, out: &mut Out) -> bool {
        let mut left = place.iter();
        let are_same = owned.as_slice().iter().all(|owned| {
            let next = counted!(out.alloc(); value left.next());
            next.is_some_and(|variable| Server::is(&variable, owned, out))
        });
        let alloc = out.alloc();
        let listed = counted!(alloc; place.to_owned(alloc));
        are_same
            && left.next().is_none()
            && or_lost(out, listed).is_some_and(|listed| listed == *owned)
    }
}

/// The sizes of records that vary, of a type with parameters.
pub fn sizes(out: &mut Out, _request: &Request<'_>) {
    sizes!(out; OkPacketDeserializer<'_, CommonOkPacket>, Schema<'_>, Gtids<'_>, TransactionCharacteristics<'_>,
        TransactionState<'_>, Unsupported<'_>)
}
