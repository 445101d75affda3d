//! Errors and progress reports, and their parts, each alone.
//!
//! `err CAPABILITIES BYTES`, `greeting_error BYTES`, `server_error CODE STATE BYTES` (STATE is 1 where an SQL state stands there),
//! `sql_state BYTES`, `progress BYTES`.

use crate::prelude::*;
use std::fmt::Display;

/// The context of an error: its code, and whether an SQL state follows.
pub fn context(request: &Request<'_>) -> (u16, bool) {
    ((request.number(1) & 0xffff) as u16, request.number(2) == 1)
}

/// Adds the text that a record is displayed as.
fn displayed<T: Display>(record: &T, out: &mut Out) {
    if let Some(text) = or_lost(out, format!(in out.alloc(); "{record}")) {
        out.show("shown", text.as_str().as_bytes())
    }
}

impl Shows<ErrPacket<'_>> for Server {
    fn show(it: &ErrPacket<'_>, out: &mut Out) {
        if it.is_error() {
            show_error(it.server_error(), out);
        }
        if it.is_progress_report() {
            show_progress(it.progress_report(), out);
        }
        displayed(it, out);
        let alloc = out.alloc();
        made_anew(out, it, made_packet(it, alloc))
    }
}

impl Shows<GreetingError<'_>> for Server {
    fn show(it: &GreetingError<'_>, out: &mut Out) {
        let alloc = out.alloc();
        show_error(it.server_error(), out);
        displayed(it, out);
        let made = made_error(it.server_error(), alloc).map(GreetingError::new);
        made_anew(out, it, made);
        if let Ok(copy) = counted!(alloc; it.clone()) {
            let owned = counted!(alloc; copy.into_owned(alloc));
            made_anew(
                out,
                it.server_error(),
                owned.map(|it| it.into_server_error()),
            )
        }
        laws::this_greeting_error_round_trips(it)
    }
}

impl Shows<ServerError<'_>> for Server {
    fn show(it: &ServerError<'_>, out: &mut Out) {
        show_error(it, out);
        displayed(it, out);
        made_anew(out, it, made_error(it, out.alloc()))
    }
}

impl Shows<SqlState> for Server {
    fn show(it: &SqlState, out: &mut Out) {
        fields!(out, it; sql_state = as_bytes; texts sql_state_str = as_str);
        out.same("made", Ok(SqlState::new(it.as_bytes()) == *it));
        laws::this_sql_state_round_trips(it)
    }
}

impl Shows<ProgressReport<'_>> for Server {
    fn show(it: &ProgressReport<'_>, out: &mut Out) {
        show_progress(it, out);
        displayed(it, out);
        made_anew(out, it, made_progress(it, out.alloc()))
    }
}

impl<'a> InPlace<ErrPacket<'a>, ErrPacketRef<'a>> for Server {
    fn is(place: &ErrPacketRef<'a>, owned: &ErrPacket<'a>, out: &mut Out) -> bool {
        let is_same = match owned {
            ErrPacket::Error(error) => place.is_error()
                && Server::is(place.server_error(), error, out),
            ErrPacket::Progress(report) => {
                place.is_progress_report() && Server::is(place.progress_report(), report, out)
            }
        };
        is_same && place.to_owned() == *owned
    }
}

impl<'a> InPlace<GreetingError<'a>, GreetingErrorRef<'a>> for Server {
    fn is(place: &GreetingErrorRef<'a>, owned: &GreetingError<'a>, out: &mut Out) -> bool {
        Server::is(place.server_error(), owned.server_error(), out)
            && is_copied(place, out)
            && place.to_owned() == *owned
    }
}

fn show_error(error: &ServerError<'_>, out: &mut Out) {
    fields!(out, error; error = error_code);
    let state = error.sql_state_ref().map(|state| state.as_bytes());
    out.show("sql_state", state);
    fields!(out, error; message = message_ref; texts message_str = message_str);
    laws::this_server_error_round_trips(error)
}

/// The packet of the same parts, on memory of its own.
fn made_packet(packet: &ErrPacket<'_>, alloc: Global) -> Result<ErrPacket<'static>> {
    match packet {
        ErrPacket::Error(error) => Ok(ErrPacket::Error(made_error(error, alloc)?)),
        ErrPacket::Progress(report) => Ok(ErrPacket::Progress(made_progress(report, alloc)?)),
    }
}

/// The error of the same parts, on memory of its own.
fn made_error(error: &ServerError<'_>, alloc: Global) -> Result<ServerError<'static>> {
    let message = CowSlice::Borrowed(error.message_ref());
    let made = ServerError::new(error.error_code(), error.sql_state_ref().copied(), message);
    counted!(alloc; made.into_owned(alloc))
}

impl<'a> InPlace<ServerError<'a>, ServerErrorRef<'a>> for Server {
    fn is(place: &ServerErrorRef<'a>, owned: &ServerError<'a>, out: &mut Out) -> bool {
        let state = owned.sql_state_ref().map(|state| state.as_bytes());
        is_copied(place, out)
            && place.sql_state() == state.as_ref().map(|state| state.as_slice())
            && fields!(place, owned; alike error_code, message with message_ref)
            && place.to_owned() == *owned
    }
}

impl InPlace<SqlState, SqlStateRef<'_>> for Server {
    fn is(place: &SqlStateRef<'_>, owned: &SqlState, out: &mut Out) -> bool {
        place.as_bytes() == owned.as_bytes().as_slice()
            && is_copied(place, out)
            && place.to_owned() == *owned
    }
}

fn show_progress(report: &ProgressReport<'_>, out: &mut Out) {
    fields!(out, report; stage, max_stage, progress, stage_info = stage_info_ref;
        texts stage_info_str = stage_info_str);
    laws::this_progress_report_round_trips(report)
}

/// The report of the same parts, on memory of its own.
fn made_progress(report: &ProgressReport<'_>, alloc: Global) -> Result<ProgressReport<'static>> {
    let info = CowSlice::Borrowed(report.stage_info_ref());
    let made = ProgressReport::new(report.stage(), report.max_stage(), report.progress(), info);
    counted!(alloc; made.into_owned(alloc))
}

impl<'a> InPlace<ProgressReport<'a>, ProgressReportRef<'a>> for Server {
    fn is(place: &ProgressReportRef<'a>, owned: &ProgressReport<'a>, _out: &mut Out) -> bool {
        fields!(place, owned; alike stage, max_stage, progress, stage_info with stage_info_ref)
            && place.to_owned() == *owned
    }
}
