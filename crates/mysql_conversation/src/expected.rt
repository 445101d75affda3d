//! The kinds of packets that may come next.

ghost use Rattle.std.specs.Prelude.{◌≡◌, ◌==◌};
ghost use Rattle.mysql_conversation.specs.Expected as spec;
ghost use Rattle.mysql_conversation.specs.PacketKindTag.{is_in, index};

use crate::agreed::{asks_factors, deprecates_eof, reports_progress};
use crate::packet_kind::Side;
use crate::packet_kind_tag::PacketKindTag;
use crate::state::{Request, State};
use crate::step::reports;
use mysql_replies::SessionCapabilities;

/// Whether the client may send a packet of this kind.
fn is_sent(state: &State, name: PacketKindTag) -> bool
    ensures { result ≡ is_in name (spec.sent_names state.now) }
{
    match *state {
        State::Rest => matches!(name, PacketKindTag::Command),
        State::Authentication(_, true) => matches!(name, PacketKindTag::AuthData),
        State::Infile(_) => matches!(
            name,
            PacketKindTag::InfileContent | PacketKindTag::InfileEnd
        ),
        State::Events => matches!(name, PacketKindTag::SemiSyncAck),
        State::Clone => matches!(name, PacketKindTag::Clone),
        _ => false,
    }
}

/// Whether this is the kind of an end.
fn is_end(deprecates: bool, name: PacketKindTag) -> bool
    ensures { result ≡ index name == index (spec.end_name deprecates) }
{
    if deprecates {
        matches!(name, PacketKindTag::OkTerminator)
    } else {
        matches!(name, PacketKindTag::Eof)
    }
}

/// Whether this is the kind of a row.
fn is_row(request: Request, name: PacketKindTag) -> bool
    ensures { result ≡ index name == index (spec.row_name request) }
{
    match request {
        Request::Query => matches!(name, PacketKindTag::TextRow),
        Request::Execution | Request::Cursor => matches!(name, PacketKindTag::BinaryRow),
    }
}

/// Whether the server may send a packet of this kind before the login is done.
fn is_asked(factors: bool, name: PacketKindTag) -> bool
    ensures { result ≡ is_in name (spec.asked_names factors) }
{
    match name {
        PacketKindTag::AuthSwitch
        | PacketKindTag::OldAuthSwitch
        | PacketKindTag::AuthMoreData
        | PacketKindTag::AuthPluginData => true,
        PacketKindTag::AuthNextFactor => factors,
        _ => false,
    }
}

/// Whether the server may send a packet of this kind, other than an error or a progress report.
fn is_served(agreed: SessionCapabilities, state: &State, name: PacketKindTag) -> bool
    ensures { result ≡ is_in name (spec.served_names agreed state.now) }
{
    let ends = is_end(deprecates_eof(agreed), name);
    match *state {
        State::Rest | State::Infile(_) | State::SessionError | State::Quit | State::Over => false,
        State::Authentication(_, _) => {
            matches!(name, PacketKindTag::Ok) || is_asked(asks_factors(agreed), name)
        }
        State::Reply(_) => matches!(
            name,
            PacketKindTag::Ok | PacketKindTag::LocalInfile | PacketKindTag::ColumnCount
        ),
        State::InfileReply(_) => matches!(name, PacketKindTag::Ok),
        State::Definitions(_, _) => matches!(name, PacketKindTag::Column),
        State::DefinitionsEnd(_) => matches!(name, PacketKindTag::Eof),
        State::Rows(request) => is_row(request, name) || ends,
        State::Prepared => matches!(name, PacketKindTag::PrepareOk),
        State::Fetch => matches!(name, PacketKindTag::BinaryRow) || ends,
        State::Acknowledgement(may_end) => matches!(name, PacketKindTag::Ok) || (may_end && ends),
        State::CloneReply => matches!(name, PacketKindTag::Ok),
        State::Clone => matches!(name, PacketKindTag::Clone),
        State::Text => matches!(name, PacketKindTag::Statistics),
        State::Fields => matches!(name, PacketKindTag::FieldListColumn) || ends,
        State::Events => matches!(name, PacketKindTag::BinlogEvent | PacketKindTag::Eof),
    }
}

/// Whether a packet that begins with `ff`, and is no progress report, has this kind.
fn is_error(state: &State, name: PacketKindTag) -> bool
    ensures { result ≡ is_in name (spec.error_names state.now) }
{
    match *state {
        State::Rest | State::Quit => matches!(name, PacketKindTag::UnsolicitedError),
        State::Clone => matches!(name, PacketKindTag::Clone),
        State::Over => false,
        _ => matches!(name, PacketKindTag::Error),
    }
}

/// Whether the connection is over after a server packet of this kind.
pub(crate) fn shuts(state: &State, name: PacketKindTag) -> bool
    ensures { result ≡ is_in name (spec.shutting_names state.now) }
{
    match *state {
        State::Rest | State::Quit => matches!(name, PacketKindTag::UnsolicitedError),
        State::Authentication(true, _) => matches!(name, PacketKindTag::Error),
        State::CloneReply => matches!(name, PacketKindTag::Ok),
        State::Clone => matches!(name, PacketKindTag::Clone),
        _ => false,
    }
}

/// Whether a packet of this kind may come from this side.
#[tactic(auto, using(crate::proofs::Named::reported_is, crate::proofs::Named::both_in))]
pub(crate) fn may_receive(
    agreed: SessionCapabilities,
    state: &State,
    from: Side,
    name: PacketKindTag,
) -> bool
    ensures { result ≡ spec.may_receive agreed state.now from name }
{
    match from {
        Side::Client => is_sent(state, name),
        Side::Server => {
            let may_report = reports_progress(agreed) && reports(state);
            is_error(state, name)
                || (may_report && matches!(name, PacketKindTag::ProgressReport))
                || is_served(agreed, state, name)
        }
    }
}

/// Whether the client may answer a packet of this kind by one that is no command.
pub(crate) fn asks(name: PacketKindTag) -> bool
    ensures { result ≡ is_in name spec.asking_names }
{
    matches!(
        name,
        PacketKindTag::AuthSwitch
            | PacketKindTag::OldAuthSwitch
            | PacketKindTag::AuthMoreData
            | PacketKindTag::AuthNextFactor
            | PacketKindTag::AuthPluginData
            | PacketKindTag::LocalInfile
            | PacketKindTag::InfileContent
    )
}

/// Whether this is the kind of a session's first packet.
pub(crate) fn is_greeting(from: Side, name: PacketKindTag) -> bool
    ensures { result ≡ is_in name (spec.greeting_names from) }
{
    match from {
        Side::Client => false,
        Side::Server => matches!(
            name,
            PacketKindTag::Handshake | PacketKindTag::UnsolicitedError
        ),
    }
}

/// Whether this is the kind of the answer to the greeting, in TLS or not.
pub(crate) fn is_login(in_tls: bool, from: Side, name: PacketKindTag) -> bool
    ensures { result ≡ is_in name (spec.login_names in_tls from) }
{
    match from {
        Side::Client => {
            matches!(name, PacketKindTag::Login)
                || (!in_tls && matches!(name, PacketKindTag::SslRequest))
        }
        Side::Server => matches!(name, PacketKindTag::UnsolicitedError),
    }
}

/// Whether this is the kind of the answer to a client packet that is no login.
pub(crate) fn is_login_error(from: Side, name: PacketKindTag) -> bool
    ensures { result ≡ is_in name (spec.login_error_names from) }
{
    match from {
        Side::Client => false,
        Side::Server => matches!(name, PacketKindTag::Error),
    }
}
