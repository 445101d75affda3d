//! Answers rows of replies and session changes: a line for each line of its input.
#![tactic(auto)]

mod column;
mod errors;
mod extended;
mod field_list;
mod kinds;
mod ok;
mod prelude;
mod sent;
mod session;
mod state;
mod texts;

use crate::kinds::{Empty, Refusing, Seventh, Versioned};
use crate::prelude::*;
use std::io;
use test_probe::{Answers, run};

struct Server;

fn of_replies(out: &mut Out, request: &Request<'_>) -> bool {
    answers!(Server, out, request, request.word(0);
        with column::flags(request) => "column_count": ColumnCount,
        both () => "column": Column, ColumnRef<'_>,
            "local_infile": LocalInfilePacket<'_>, LocalInfilePacketRef<'_>,
            "sql_state": SqlState, SqlStateRef<'_>,
            "progress": ProgressReport<'_>, ProgressReportRef<'_>,
            "session_info": SessionStateInfo<'_>, SessionStateInfoRef<'_>,
            "greeting_error": GreetingError<'_>, GreetingErrorRef<'_>,
            "column_attribute": ColumnAttribute<'_>, ColumnAttributeRef<'_>,
        both extended::capabilities(request) => "extended_column": ExtendedColumn, ExtendedColumnRef<'_>,
        both request.capabilities() => "err": ErrPacket<'_>, ErrPacketRef<'_>,
        both errors::context(request) => "server_error": ServerError<'_>, ServerErrorRef<'_>,
        call "field_list_column": field_list::field_list_column, "ok": ok::ok::<CommonOkPacket>, "ok_end": ok::ok::<ResultSetTerminator>,
            "ok_eof": ok::ok::<OldEofPacket>, "ok_stream": ok::ok::<NetworkStreamTerminator>,
            "ok_sent": sent::sent::<CommonOkPacket>, "ok_end_sent": sent::sent::<ResultSetTerminator>,
            "ok_eof_sent": sent::sent::<OldEofPacket>, "ok_stream_sent": sent::sent::<NetworkStreamTerminator>,
            "ok_body": ok::body, "own_versioned": ok::own::<Versioned>, "own_refusing": ok::own::<Refusing>,
            "own_empty": ok::own::<Empty>, "own_seventh": ok::own::<Seventh>, "own_seventh_sent": sent::sent::<Seventh>,)
}

fn of_session(out: &mut Out, request: &Request<'_>) -> bool {
    answers!(Server, out, request, request.word(0);
        with () => "schema": Schema<'_>, "gtids": Gtids<'_>, "characteristics": TransactionCharacteristics<'_>,
            "state": TransactionState<'_>, "unsupported": Unsupported<'_>,
        both () => "variable": SystemVariable<'_>, SystemVariableRef<'_>,
            "variables": SystemVariables<'_>, SystemVariablesRef<'_>,
        call "change": session::change, "sizes": session::sizes,)
}

impl Answers for Server {
    fn answer(out: &mut Out, request: &Request<'_>) -> bool {
        match request.word(0) {
            "marker" => texts::marker(out, request),
            "text" => texts::text(out, request.word(1)),
            _ => of_replies(out, request) || of_session(out, request),
        }
    }
}

fn main(rt: HostRuntime) -> io::Result<()> {
    run::<Server>(&rt)
}
