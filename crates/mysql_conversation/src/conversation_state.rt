//! The state of a conversation as plain numbers.

ghost use Rattle.std.specs.Prelude.{◌≡◌, is_some, IfSome, Some};
ghost use Rattle.mysql_conversation.specs.ConversationState as spec;
ghost use Rattle.mysql_conversation.specs.ConversationState.{after_at, request_at, state_at};

use crate::packet_kind::{InitialPhase, PacketKind};
use crate::state::{After, Request, State};
use crate::step::row_at;
use mysql_replies::SessionCapabilities;

/// The state of a conversation as plain numbers: that of the current exchange of a [`PipelineState`](crate::PipelineState).
#[derive(Clone, Copy, Debug, PartialEq, Eq)]
pub struct ConversationState {
    /// The phase in which the conversation began.
    pub opening: InitialPhase,
    /// The kind of state: which packet may come next.
    pub place: u8,
    /// The request for the current results.
    pub request: u8,
    /// The part that follows the definitions.
    pub after: u8,
    /// The number of definitions after the next one.
    pub definitions: u64,
    /// The number of column definitions after those of parameters.
    pub columns: u64,
}

impl ConversationState {
    /// Returns the kind of the server's next payload if its first byte says that it is a row. The state is
    /// unchanged.
    #[inline(always)]
    pub(crate) fn row(&self, agreed: SessionCapabilities, payload: &[u8]) -> Option<PacketKind>
        ensures stays { IfSome result (λ kind. spec.Stays agreed self.now payload.now kind) }
        ensures when { is_some result ≡ spec.says_row self.now payload.now }
    {
        // The state in a row, as in `state_at`.
        if self.place != 7 {
            return None;
        }
        let request = request_at(self.request)?;
        row_at(agreed, &State::Rows(request), payload)
    }
}

/// Returns the numbers of a state without counts.
fn at(opening: InitialPhase, place: u8, request: u8) -> ConversationState
    ensures { result ≡ spec.at opening place request }
{
    ConversationState {
        opening,
        place,
        request,
        after: 0,
        definitions: 0,
        columns: 0,
    }
}

fn number_of(request: Request) -> u8
    ensures request { request_at result ≡ Some request }
    ensures value { result ≡ spec.number_of request }
{
    match request {
        Request::Query => 0,
        Request::Execution => 1,
        Request::Cursor => 2,
    }
}

/// Returns the state before a definition that is followed by `definitions` others.
fn at_definitions(
    opening: InitialPhase,
    place: u8,
    definitions: u64,
    after: After,
) -> ConversationState
    ensures opening { result.opening ≡ opening }
    ensures place { result.place ≡ place }
    ensures definitions { result.definitions ≡ definitions }
    ensures after { after_at result ≡ Some after }
    ensures value { result ≡ spec.at_definitions opening place definitions after }
{
    let mut state = at(opening, place, 0);
    state.definitions = definitions;
    match after {
        After::Rest => {}
        After::Rows(request) => {
            state.after = 1;
            state.request = number_of(request);
        }
        After::Columns(columns) => {
            state.after = 2;
            state.columns = columns;
        }
        After::End => state.after = 3,
    }
    state
}

/// The number of a login's or a change of user's authentication.
fn asked_number(is_login: bool, is_asked: bool) -> u8
    ensures value { result ≡ spec.asked_number is_login is_asked }
{
    match (is_login, is_asked) {
        (false, false) => 0,
        (false, true) => 1,
        (true, false) => 2,
        (true, true) => 3,
    }
}

/// Returns the numbers of a state.
pub(crate) fn numbers_of(opening: InitialPhase, state: State) -> ConversationState
    ensures opening { result.opening ≡ opening }
    ensures state { state_at result ≡ Some state }
    ensures value { result ≡ spec.numbers_of opening state }
{
    match state {
        State::Rest => at(opening, 0, 0),
        State::Authentication(is_login, is_asked) => {
            at(opening, 1, asked_number(is_login, is_asked))
        }
        State::Reply(request) => at(opening, 2, number_of(request)),
        State::Infile(request) => at(opening, 3, number_of(request)),
        State::InfileReply(request) => at(opening, 4, number_of(request)),
        State::Definitions(left, after) => at_definitions(opening, 5, left, after),
        State::DefinitionsEnd(after) => at_definitions(opening, 6, 0, after),
        State::Rows(request) => at(opening, 7, number_of(request)),
        State::Prepared => at(opening, 8, 0),
        State::Fetch => at(opening, 9, 0),
        State::Acknowledgement(may_end) => at(opening, 10, u8::from(may_end)),
        State::Text => at(opening, 11, 0),
        State::Fields => at(opening, 12, 0),
        State::Events => at(opening, 13, 0),
        State::SessionError => at(opening, 14, 0),
        State::CloneReply => at(opening, 15, 0),
        State::Clone => at(opening, 16, 0),
        State::Over => at(opening, 17, 0),
        State::Quit => at(opening, 18, 0),
    }
}

fn request_at(number: u8) -> Option<Request>
    ensures { result ≡ request_at number }
{
    match number {
        0 => Some(Request::Query),
        1 => Some(Request::Execution),
        2 => Some(Request::Cursor),
        _ => None,
    }
}

fn truth_at(number: u8) -> Option<bool>
    ensures { result ≡ spec.truth_at number }
{
    match number {
        0 => Some(false),
        1 => Some(true),
        _ => None,
    }
}

fn authentication_at(number: u8) -> Option<State>
    ensures { result ≡ spec.authentication_at number }
{
    match number {
        0 => Some(State::Authentication(false, false)),
        1 => Some(State::Authentication(false, true)),
        2 => Some(State::Authentication(true, false)),
        3 => Some(State::Authentication(true, true)),
        _ => None,
    }
}

fn after_at(numbers: &ConversationState) -> Option<After>
    ensures { result ≡ after_at numbers.now }
{
    match numbers.after {
        0 => Some(After::Rest),
        1 => request_at(numbers.request).map(After::Rows),
        2 => Some(After::Columns(numbers.columns)),
        3 => Some(After::End),
        _ => None,
    }
}

/// Returns the state of these numbers, or `None` if they are not those of a state.
pub(crate) fn state_at(numbers: &ConversationState) -> Option<State>
    ensures { result ≡ state_at numbers.now }
{
    match numbers.place {
        0 => Some(State::Rest),
        1 => authentication_at(numbers.request),
        2 => request_at(numbers.request).map(State::Reply),
        3 => request_at(numbers.request).map(State::Infile),
        4 => request_at(numbers.request).map(State::InfileReply),
        5 => {
            let after = after_at(numbers)?;
            Some(State::Definitions(numbers.definitions, after))
        }
        6 => after_at(numbers).map(State::DefinitionsEnd),
        7 => request_at(numbers.request).map(State::Rows),
        8 => Some(State::Prepared),
        9 => Some(State::Fetch),
        10 => truth_at(numbers.request).map(State::Acknowledgement),
        11 => Some(State::Text),
        12 => Some(State::Fields),
        13 => Some(State::Events),
        14 => Some(State::SessionError),
        15 => Some(State::CloneReply),
        16 => Some(State::Clone),
        17 => Some(State::Over),
        18 => Some(State::Quit),
        _ => None,
    }
}
