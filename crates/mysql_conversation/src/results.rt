//! Steps over results: the kind of a packet that is no error, and the state after it.

ghost use Rattle.std.specs.Prelude.{◌≡◌, IfSome, IfNone, Some, None};
ghost use Rattle.mysql_conversation.specs.Agreements as agreements;
ghost use Rattle.mysql_conversation.specs.Conversation as grammar;
ghost use Rattle.mysql_conversation.specs.Machine as spec;
ghost use Rattle.mysql_conversation.specs.Payloads as payloads;
ghost use Rattle.mysql_conversation.specs.declared.state.State.TheVariants as spec_state;

use crate::agreed::deprecates_eof;
use crate::packet_kind::PacketKind;
use crate::payload::{first_is, has_more, old_end_of, opens_cursor, statement_at};
use crate::state::{After, Line, Reply, Request, State, format_of};
use mysql_replies::SessionCapabilities;
use mysql_stmt::StmtPacketWithMetadata;
use mysql_wire::StatusFlags;
use std::alloc::Global;

/// Returns the state after the definitions.
#[inline(always)]
fn enter(after: After) -> State
    ensures { result ≡ spec.enter after }
{
    match after {
        After::Rows(request) => State::Rows(request),
        After::Columns(columns) => match columns.checked_sub(1) {
            Some(left) => State::Definitions(left, After::Rest),
            None => State::Rest,
        },
        After::End => State::DefinitionsEnd(After::Rest),
        After::Rest => State::Rest,
    }
}

/// Returns the state before `count` definitions.
#[inline(always)]
fn define(count: u64, after: After) -> State
    ensures { result ≡ spec.define count after }
{
    match count.checked_sub(1) {
        Some(left) => State::Definitions(left, after),
        None => enter(after),
    }
}

/// Returns the state after a definition that is followed by `left` others.
#[inline(always)]
pub(crate) fn less(deprecates: bool, left: u64, after: After) -> State
    ensures { result ≡ spec.less deprecates left after }
{
    match left.checked_sub(1) {
        Some(left) => State::Definitions(left, after),
        None if deprecates => enter(after),
        None => State::DefinitionsEnd(after),
    }
}

/// Returns the state at the end of a result.
#[inline(always)]
fn ended(request: Request, more: bool) -> State
    ensures { result ≡ spec.ended request more }
{
    if more {
        State::Reply(request)
    } else {
        State::Rest
    }
}

/// Returns the state after a column count.
#[inline(always)]
fn counted(deprecates: bool, count: u64, follow: bool, after: After) -> State
    ensures { result ≡ spec.counted deprecates count follow after }
{
    if follow {
        define(count, after)
    } else if deprecates {
        enter(after)
    } else {
        State::DefinitionsEnd(after)
    }
}

/// Returns the kind of an end.
#[inline(always)]
fn ending(deprecates: bool) -> PacketKind
    ensures { result ≡ grammar.ending deprecates }
{
    if deprecates {
        PacketKind::OkTerminator
    } else {
        PacketKind::Eof
    }
}

/// Takes the first packet of a result.
#[inline(always)]
pub(crate) fn reply_step(
    state: &mut State,
    deprecates: bool,
    request: Request,
    reply: Option<Reply>,
) -> Option<PacketKind>
    ensures some { IfSome result (λ kind. spec.reply_step deprecates request reply ≡ Some (kind, state.new)) }
    ensures none { IfNone result ((spec.reply_step deprecates request reply ≡ None) × (state.new ≡ state.old)) }
{
    match reply? {
        Reply::Ok(more) => {
            *state = ended(request, more);
            Some(PacketKind::Ok)
        }
        Reply::Infile => {
            *state = State::Infile(request);
            Some(PacketKind::LocalInfile)
        }
        Reply::Columns(count, follow) => {
            *state = counted(deprecates, count, follow, After::Rows(request));
            Some(PacketKind::ColumnCount(count, follow))
        }
    }
}

/// Takes the answer to a file.
#[inline(always)]
pub(crate) fn infile_reply_step(
    state: &mut State,
    request: Request,
    reply: Option<Reply>,
) -> Option<PacketKind>
    ensures some { IfSome result (λ kind. spec.infile_reply_step request reply ≡ Some (kind, state.new)) }
    ensures none { IfNone result ((spec.infile_reply_step request reply ≡ None) × (state.new ≡ state.old)) }
{
    match reply? {
        Reply::Ok(more) => {
            *state = ended(request, more);
            Some(PacketKind::Ok)
        }
        _ => None,
    }
}

/// Takes the EOF packet after a result's definitions.
#[inline(always)]
fn columns_step(state: &mut State, status: StatusFlags, request: Request) -> PacketKind
    ensures { spec.columns_step status request ≡ Some (result, state.new) }
{
    *state = if matches!(request, Request::Cursor) && opens_cursor(status) {
        ended(Request::Cursor, has_more(status))
    } else {
        State::Rows(request)
    };
    PacketKind::Eof
}

/// Takes the EOF packet after definitions.
#[inline(always)]
pub(crate) fn definitions_end_step(
    state: &mut State,
    after: After,
    status: Option<StatusFlags>,
) -> Option<PacketKind>
    ensures some { IfSome result (λ kind. spec.definitions_end_step after status ≡ Some (kind, state.new)) }
    ensures none { IfNone result ((spec.definitions_end_step after status ≡ None) × (state.new ≡ state.old)) }
{
    let status = status?;
    match after {
        After::Rows(request) => Some(columns_step(state, status, request)),
        After::Columns(_) | After::End => {
            *state = enter(after);
            Some(PacketKind::Eof)
        }
        After::Rest => {
            *state = State::Rest;
            Some(PacketKind::Eof)
        }
    }
}

/// Takes a row, or the end.
#[inline(always)]
pub(crate) fn line_step(
    state: &mut State,
    deprecates: bool,
    request: Request,
    line: Option<Line>,
) -> Option<PacketKind>
    requires { state.old ≡ spec_state.Rows request }
    ensures some { IfSome result (λ kind. spec.line_step deprecates request line ≡ Some (kind, state.new)) }
    ensures none { IfNone result ((spec.line_step deprecates request line ≡ None) × (state.new ≡ state.old)) }
{
    match line? {
        Line::Row => Some(PacketKind::Row(format_of(request))),
        Line::End(more) => {
            *state = ended(request, more);
            Some(ending(deprecates))
        }
    }
}

/// Takes a packet of this kind, which another one or the end may follow.
#[inline(always)]
pub(crate) fn last_step(
    state: &mut State,
    deprecates: bool,
    kind: PacketKind,
    line: Option<Line>,
) -> Option<PacketKind>
    ensures some { IfSome result (λ found. spec.last_step deprecates kind state.old line ≡ Some (found, state.new)) }
    ensures none { IfNone result ((spec.last_step deprecates kind state.old line ≡ None) × (state.new ≡ state.old)) }
{
    match line? {
        Line::Row => Some(kind),
        Line::End(_) => {
            *state = State::Rest;
            Some(ending(deprecates))
        }
    }
}

/// Takes an event, or the EOF packet after the last, which is no OK packet under any capabilities.
#[inline(always)]
pub(crate) fn event_step(
    alloc: Global,
    agreed: SessionCapabilities,
    state: &mut State,
    payload: &[u8],
) -> Option<PacketKind>
    requires { state.old ≡ spec_state.Events }
    ensures some { IfSome result (λ kind. spec.event_step (payloads.first_is 0 payload.now) (spec.old_end_of agreed payload.now) ≡ Some (kind, state.new)) }
    ensures none { IfNone result ((spec.event_step (payloads.first_is 0 payload.now) (spec.old_end_of agreed payload.now) ≡ None) × (state.new ≡ state.old)) }
{
    if first_is(0, payload) {
        return Some(PacketKind::BinlogEvent);
    }
    old_end_of(alloc, agreed, payload)?;
    *state = State::Rest;
    Some(PacketKind::Eof)
}

/// Whether the definitions of a prepared statement follow: they do if no byte says otherwise.
#[inline(always)]
fn definitions_follow(statement: &StmtPacketWithMetadata) -> bool
    ensures { result ≡ payloads.definitions_follow statement.now }
{
    match statement.metadata() {
        Some(byte) => byte != 0,
        None => true,
    }
}

/// Returns the state if the definitions of `columns` columns are omitted, and EOF packets are not.
#[inline(always)]
fn column_end(columns: u16) -> State
    ensures { result ≡ spec.column_end columns }
{
    match columns.checked_sub(1) {
        Some(_left) => State::DefinitionsEnd(After::Rest),
        None => State::Rest,
    }
}

/// Returns the state if the definitions of `params` parameters are omitted too: an EOF packet follows the
/// parameters and one the columns, if there are any (`THD::send_result_metadata` in MySQL's
/// `sql/sql_class.cc`).
#[inline(always)]
fn param_end(params: u16, columns: u16) -> State
    ensures { result ≡ spec.param_end params columns }
{
    match params.checked_sub(1) {
        Some(_left) => match columns.checked_sub(1) {
            Some(_more) => State::DefinitionsEnd(After::End),
            None => State::DefinitionsEnd(After::Rest),
        },
        None => column_end(columns),
    }
}

/// Takes the answer to a preparation.
#[inline(always)]
pub(crate) fn prepared_step(
    alloc: Global,
    agreed: SessionCapabilities,
    state: &mut State,
    payload: &[u8],
) -> Option<PacketKind>
    ensures some { IfSome result (λ kind. spec.prepared_step (agreements.deprecates_eof agreed) (spec.statement_at agreed payload.now) ≡ Some (kind, state.new)) }
    ensures none { IfNone result ((spec.prepared_step (agreements.deprecates_eof agreed) (spec.statement_at agreed payload.now) ≡ None) × (state.new ≡ state.old)) }
{
    let statement = statement_at(alloc, agreed, payload)?;
    let columns = statement.packet().num_columns();
    let params = statement.packet().num_params();
    let follow = definitions_follow(&statement);
    *state = if follow {
        define(u64::from(params), After::Columns(u64::from(columns)))
    } else if deprecates_eof(agreed) {
        State::Rest
    } else {
        param_end(params, columns)
    };
    Some(PacketKind::PrepareOk(columns, params, follow))
}

/// Takes an OK packet that no more results follow.
#[inline(always)]
pub(crate) fn last_ok(state: &mut State, next: State, reply: Option<Reply>) -> Option<PacketKind>
    ensures some { IfSome result (λ kind. spec.last_ok next reply ≡ Some (kind, state.new)) }
    ensures none { IfNone result ((spec.last_ok next reply ≡ None) × (state.new ≡ state.old)) }
{
    match reply? {
        Reply::Ok(more) => {
            if more {
                return None;
            }
            *state = next;
            Some(PacketKind::Ok)
        }
        _ => None,
    }
}

/// Takes an OK packet, or an end if the server may send one.
#[inline(always)]
pub(crate) fn acknowledgement_step(
    state: &mut State,
    deprecates: bool,
    may_end: bool,
    line: Option<Line>,
    reply: Option<Reply>,
) -> Option<PacketKind>
    ensures some { IfSome result (λ kind. spec.acknowledgement_step deprecates may_end line reply ≡ Some (kind, state.new)) }
    ensures none { IfNone result ((spec.acknowledgement_step deprecates may_end line reply ≡ None) × (state.new ≡ state.old)) }
{
    match line? {
        Line::Row => last_ok(state, State::Rest, reply),
        Line::End(more) => {
            if more || !may_end {
                return None;
            }
            *state = State::Rest;
            Some(ending(deprecates))
        }
    }
}
