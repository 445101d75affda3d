//! The machine: the kind of a packet, and the state after it.

ghost use Rattle.std.specs.Prelude.{false, ◌≡◌, is_some, IfSome, IfNone, IfOk, OnErr, Some, None};
ghost use Rattle.mysql_conversation.specs.Machine as spec;
ghost use Rattle.mysql_conversation.specs.declared.state.State.TheVariants as spec_state;
ghost use Rattle.mysql_conversation.specs.declared.packet_kind.Side.TheVariants.{Client, Server};

use crate::agreed::deprecates_eof;
use crate::packet_kind::{InitialPhase, PacketKind, RowFormat, Side, UnexpectedPacket};
use crate::payload::{
    SEMI_SYNC_MARK, authentication_kind, command_of, first_is, has_more, is_report,
    is_row_by_first, line_of, ok_status, old_end_of, reply_of,
};
use crate::results::{
    acknowledgement_step, definitions_end_step, event_step, infile_reply_step, last_ok, last_step,
    less, line_step, prepared_step, reply_step,
};
use crate::state::{Answer, Request, State, format_of};
use mysql_replies::SessionCapabilities;
use std::alloc::Global;

/// Returns the first state of a conversation.
#[inline(always)]
pub(crate) fn entrance(opening: InitialPhase) -> State
    ensures { result ≡ spec.entrance opening }
{
    match opening {
        InitialPhase::Login => State::Authentication(true, false),
        InitialPhase::Commands => State::Rest,
    }
}

/// Returns the first state of an answer.
#[inline(always)]
pub(crate) fn answers(answer: Answer) -> State
    ensures { result ≡ spec.answers answer }
{
    match answer {
        Answer::Results(request) => State::Reply(request),
        Answer::Prepared => State::Prepared,
        Answer::Rows => State::Fetch,
        Answer::Acknowledgement(may_end) => State::Acknowledgement(may_end),
        Answer::Text => State::Text,
        Answer::Fields => State::Fields,
        Answer::Authentication => State::Authentication(false, false),
        Answer::Events => State::Events,
        Answer::Nothing => State::Rest,
        Answer::Quit => State::Quit,
        Answer::Clone => State::CloneReply,
        Answer::SessionError => State::SessionError,
    }
}

/// Takes a command.
#[inline(always)]
#[tactic(auto, using(crate::proofs::Turns::rest_command))]
fn command_step(state: &mut State, payload: &[u8]) -> Option<PacketKind>
    ensures some { IfSome result (λ kind. spec.command_step payload.now ≡ Some (kind, state.new)) }
    ensures none { IfNone result ((spec.command_step payload.now ≡ None) × (state.new ≡ state.old)) }
{
    let command = command_of(payload)?;
    *state = answers(command.answer);
    Some(PacketKind::Command(command.code))
}

/// Takes a part of a file, or its end.
#[inline(always)]
fn infile_step(state: &mut State, request: Request, payload: &[u8]) -> Option<PacketKind>
    requires { state.old ≡ spec_state.Infile request }
    ensures some { IfSome result (λ kind. spec.infile_step request payload.now ≡ Some (kind, state.new)) }
    ensures none { IfNone result ((spec.infile_step request payload.now ≡ None) × (state.new ≡ state.old)) }
{
    if payload.is_empty() {
        *state = State::InfileReply(request);
        Some(PacketKind::InfileEnd)
    } else {
        Some(PacketKind::InfileContent)
    }
}

/// Takes a client's answer during the login.
#[inline(always)]
fn answer_step(state: &mut State, is_login: bool, asked: bool) -> Option<PacketKind>
    ensures some { IfSome result (λ kind. spec.answer_step is_login asked ≡ Some (kind, state.new)) }
    ensures none { IfNone result ((spec.answer_step is_login asked ≡ None) × (state.new ≡ state.old)) }
{
    if asked {
        *state = State::Authentication(is_login, false);
        Some(PacketKind::AuthData)
    } else {
        None
    }
}

/// Takes an acknowledgement of an event.
#[inline(always)]
fn ack_step(state: &State, payload: &[u8]) -> Option<PacketKind>
    requires { state.now ≡ spec_state.Events }
    ensures some { IfSome result (λ kind. spec.ack_step payload.now ≡ Some (kind, state.now)) }
    ensures none { IfNone result (spec.ack_step payload.now ≡ None) }
{
    if first_is(SEMI_SYNC_MARK, payload) {
        Some(PacketKind::SemiSyncAck)
    } else {
        None
    }
}

/// Takes a packet of the client.
#[inline(always)]
fn client_step(state: &mut State, payload: &[u8]) -> Option<PacketKind>
    ensures some { IfSome result (λ kind. spec.client_step state.old payload.now ≡ Some (kind, state.new)) }
    ensures none { IfNone result ((spec.client_step state.old payload.now ≡ None) × (state.new ≡ state.old)) }
{
    match *state {
        State::Rest => command_step(state, payload),
        State::Authentication(is_login, asked) => answer_step(state, is_login, asked),
        State::Infile(request) => infile_step(state, request, payload),
        State::Events => ack_step(state, payload),
        State::Clone => Some(PacketKind::Clone),
        _ => None,
    }
}

/// Takes a server's packet during the login, unless it is an error.
#[inline(always)]
fn authentication_step(
    alloc: Global,
    agreed: SessionCapabilities,
    state: &mut State,
    is_login: bool,
    payload: &[u8],
) -> Option<PacketKind>
    ensures some { IfSome result (λ kind. spec.authentication_step agreed is_login payload.now (spec.ok_status agreed payload.now) ≡ Some (kind, state.new)) }
    ensures none { IfNone result ((spec.authentication_step agreed is_login payload.now (spec.ok_status agreed payload.now) ≡ None) × (state.new ≡ state.old)) }
{
    if first_is(0, payload) {
        if has_more(ok_status(alloc, agreed, payload)?) {
            return None;
        }
        *state = State::Rest;
        return Some(PacketKind::Ok);
    }
    *state = State::Authentication(is_login, true);
    Some(authentication_kind(agreed, payload))
}

/// Takes a packet of the server that is no error.
#[inline(always)]
fn serve(
    alloc: Global,
    agreed: SessionCapabilities,
    state: &mut State,
    payload: &[u8],
) -> Option<PacketKind>
    ensures some { IfSome result (λ kind. spec.serve agreed state.old payload.now ≡ Some (kind, state.new)) }
    ensures none { IfNone result ((spec.serve agreed state.old payload.now ≡ None) × (state.new ≡ state.old)) }
{
    let deprecates = deprecates_eof(agreed);
    match *state {
        State::Rest | State::Infile(_) | State::SessionError | State::Quit | State::Over => None,
        State::Authentication(is_login, _) => {
            authentication_step(alloc, agreed, state, is_login, payload)
        }
        State::Reply(request) => {
            reply_step(state, deprecates, request, reply_of(alloc, agreed, payload))
        }
        State::InfileReply(request) => {
            infile_reply_step(state, request, reply_of(alloc, agreed, payload))
        }
        State::Definitions(left, after) => {
            *state = less(deprecates, left, after);
            Some(PacketKind::Column)
        }
        State::DefinitionsEnd(after) => {
            definitions_end_step(state, after, old_end_of(alloc, agreed, payload))
        }
        State::Rows(request) => line_step(
            state,
            deprecates,
            request,
            line_of(alloc, agreed, format_of(request), payload),
        ),
        State::Prepared => prepared_step(alloc, agreed, state, payload),
        State::Fetch => last_step(
            state,
            deprecates,
            PacketKind::Row(RowFormat::Binary),
            line_of(alloc, agreed, RowFormat::Binary, payload),
        ),
        State::Acknowledgement(may_end) => acknowledgement_step(
            state,
            deprecates,
            may_end,
            line_of(alloc, agreed, RowFormat::Text, payload),
            reply_of(alloc, agreed, payload),
        ),
        State::Text => {
            *state = State::Rest;
            Some(PacketKind::Statistics)
        }
        State::Fields => last_step(
            state,
            deprecates,
            PacketKind::FieldListColumn,
            line_of(alloc, agreed, RowFormat::Text, payload),
        ),
        State::Events => event_step(alloc, agreed, state, payload),
        State::CloneReply => last_ok(state, State::Clone, reply_of(alloc, agreed, payload)),
        State::Clone => Some(PacketKind::Clone),
    }
}

/// Whether no exchange runs, and a command may come.
#[inline(always)]
pub(crate) fn is_rest(state: &State) -> bool
    ensures { result ≡ spec.is_rest state.now }
{
    matches!(state, State::Rest)
}

/// Whether no command may follow.
#[inline(always)]
pub(crate) fn is_shut(state: &State) -> bool
    ensures { result ≡ spec.is_shut state.now }
{
    matches!(state, State::Clone | State::Quit | State::Over)
}

/// Whether no exchange runs.
#[inline(always)]
pub(crate) fn rests(state: &State) -> bool
    ensures { result ≡ spec.rests state.now }
{
    matches!(
        state,
        State::Rest | State::Clone | State::Quit | State::Over
    )
}

/// Whether the client may answer by a packet that is no command.
#[inline(always)]
pub(crate) fn listens(state: &State) -> bool
    ensures { result ≡ spec.listens state.now }
{
    match state {
        State::Authentication(_, asked) => *asked,
        State::Infile(_) => true,
        _ => false,
    }
}

/// Whether the server is to send, and a packet of the client is not its answer.
#[inline(always)]
pub(crate) fn is_due(state: &State) -> bool
    ensures { result ≡ spec.is_due state.now }
{
    match state {
        State::Authentication(_, asked) => !*asked,
        State::Rest | State::Infile(_) | State::Clone | State::Quit | State::Over => false,
        _ => true,
    }
}

/// Whether a progress report may come: while a command is answered, and no packet of the client is requested.
#[inline(always)]
pub(crate) fn reports(state: &State) -> bool
    ensures { result ≡ spec.reports state.now }
{
    is_due(state) && !matches!(state, State::Authentication(true, _))
}

/// Takes an error: in an exchange, in a login, which ends the connection, or outside of any exchange, which does too.
#[inline(always)]
fn error_step(state: &mut State) -> Option<PacketKind>
    ensures some { IfSome result (λ kind. spec.error_step state.old ≡ Some (kind, state.new)) }
    ensures none { IfNone result ((spec.error_step state.old ≡ None) × (state.new ≡ state.old)) }
{
    match *state {
        State::Over => None,
        State::Clone => Some(PacketKind::Clone),
        State::Rest | State::Quit => {
            *state = State::Over;
            Some(PacketKind::UnsolicitedError)
        }
        State::Authentication(true, _) => {
            *state = State::Over;
            Some(PacketKind::Error)
        }
        _ => {
            *state = State::Rest;
            Some(PacketKind::Error)
        }
    }
}

/// Takes a packet of the server.
#[inline(always)]
#[tactic(auto, using(crate::proofs::Begun::no_report))]
fn server_step(
    alloc: Global,
    agreed: SessionCapabilities,
    state: &mut State,
    payload: &[u8],
) -> Option<PacketKind>
    ensures some { IfSome result (λ kind. spec.take_step agreed state.old Server payload.now ≡ Some (kind, state.new)) }
    ensures none { IfNone result ((spec.take_step agreed state.old Server payload.now ≡ None) × (state.new ≡ state.old)) }
{
    if first_is(0xff, payload) {
        if is_report(agreed, payload) {
            return match state {
                State::Clone => Some(PacketKind::Clone),
                _ if reports(state) => Some(PacketKind::ProgressReport),
                _ => None,
            };
        }
        return error_step(state);
    }
    serve(alloc, agreed, state, payload)
}

/// Classifies a packet of the server, and moves to the state after it.
// Not inlined, so that a row doesn't pay for it.
#[inline(never)]
pub(crate) fn take_served(
    alloc: Global,
    agreed: SessionCapabilities,
    state: &mut State,
    payload: &[u8],
) -> Result<PacketKind, UnexpectedPacket>
    ensures ok { IfOk result (λ kind. spec.take_step agreed state.old Server payload.now ≡ Some (kind, state.new)) }
    ensures err { OnErr result ((spec.take_step agreed state.old Server payload.now ≡ None) × (state.new ≡ state.old)) }
{
    match server_step(alloc, agreed, state, payload) {
        Some(kind) => Ok(kind),
        None => Err(UnexpectedPacket),
    }
}

/// Classifies a packet of the client, and moves to the state after it.
#[inline(never)]
pub(crate) fn take_sent(
    agreed: SessionCapabilities,
    state: &mut State,
    payload: &[u8],
) -> Result<PacketKind, UnexpectedPacket>
    ensures ok { IfOk result (λ kind. spec.take_step agreed state.old Client payload.now ≡ Some (kind, state.new)) }
    ensures err { OnErr result ((spec.take_step agreed state.old Client payload.now ≡ None) × (state.new ≡ state.old)) }
{
    match client_step(state, payload) {
        Some(kind) => Ok(kind),
        None => Err(UnexpectedPacket),
    }
}

/// Returns the row that a packet of the server is, if its first byte says so. The state is unchanged.
#[inline(always)]
#[tactic(auto, using(crate::proofs::Begun::no_report))]
pub(crate) fn row_at(
    agreed: SessionCapabilities,
    state: &State,
    payload: &[u8],
) -> Option<PacketKind>
    ensures some { IfSome result (λ kind. spec.take_step agreed state.now Server payload.now ≡ Some (kind, state.now)) }
    ensures quiet { IfSome result (λ _. (spec.listens state.now ≡ false) × (spec.is_shut state.now ≡ false) × (spec.is_rest state.now ≡ false)) }
    ensures when { is_some result ≡ spec.says_row state.now payload.now }
{
    let State::Rows(request) = *state else {
        return None;
    };
    let format = format_of(request);
    if is_row_by_first(format, payload) {
        Some(PacketKind::Row(format))
    } else {
        None
    }
}

/// Classifies a packet, and moves to the state after it. Rows are recognized here, by their first byte.
#[inline(always)]
pub(crate) fn take_step(
    alloc: Global,
    agreed: SessionCapabilities,
    state: &mut State,
    from: Side,
    payload: &[u8],
) -> Result<PacketKind, UnexpectedPacket>
    ensures ok { IfOk result (λ kind. spec.take_step agreed state.old from payload.now ≡ Some (kind, state.new)) }
    ensures err { OnErr result ((spec.take_step agreed state.old from payload.now ≡ None) × (state.new ≡ state.old)) }
{
    match from {
        Side::Client => take_sent(agreed, state, payload),
        Side::Server => {
            if let Some(row) = row_at(agreed, state, payload) {
                return Ok(row);
            }
            take_served(alloc, agreed, state, payload)
        }
    }
}
