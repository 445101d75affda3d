//! The states of a conversation.

ghost use Rattle.std.specs.Prelude.{◌≡◌};
ghost use Rattle.mysql_conversation.specs.Conversation as grammar;

use crate::packet_kind::RowFormat;

/// The request for results.
#[derive(Clone, Copy, Debug, PartialEq, Eq)]
pub(crate) enum Request {
    /// A query.
    Query,
    /// An execution.
    Execution,
    /// An execution that requests a cursor.
    Cursor,
}

/// The form of a command's answer.
#[derive(Clone, Copy, Debug, PartialEq, Eq)]
pub(crate) enum Answer {
    /// Results.
    Results(Request),
    /// A prepared statement.
    Prepared,
    /// Rows of a cursor.
    Rows,
    /// An OK packet, or an end if the server may send one.
    Acknowledgement(bool),
    /// A text.
    Text,
    /// Definitions of fields, and an end.
    Fields,
    /// Authentication.
    Authentication,
    /// A stream of events.
    Events,
    /// No answer.
    Nothing,
    /// No answer, and no command may follow.
    Quit,
    /// An OK packet, and then the clone plugin's own protocol.
    Clone,
    /// An error: no server knows the command.
    SessionError,
}

/// A command: its first byte, and the form of its answer.
#[derive(Clone, Copy, Debug, PartialEq, Eq)]
pub(crate) struct Command {
    pub(crate) code: u8,
    pub(crate) answer: Answer,
}

/// The part that follows the definitions.
#[derive(Clone, Copy, Debug, PartialEq, Eq)]
pub(crate) enum After {
    /// Rows.
    Rows(Request),
    /// The definitions of a given number of columns.
    Columns(u64),
    /// The EOF packet of columns whose definitions are omitted.
    End,
    /// Nothing.
    Rest,
}

/// What comes next.
#[derive(Clone, Copy, Debug, PartialEq, Eq)]
pub(crate) enum State {
    /// A command.
    Rest,
    /// A packet of authentication, during a login or a change of user: from the server, and after a request of
    /// the server also from the client.
    Authentication(bool, bool),
    /// The first packet of a result.
    Reply(Request),
    /// A part of a file, or its end.
    Infile(Request),
    /// The server's answer to a file.
    InfileReply(Request),
    /// A definition, and this many after it.
    Definitions(u64, After),
    /// The EOF packet after definitions.
    DefinitionsEnd(After),
    /// A row or the end.
    Rows(Request),
    /// The answer to a preparation.
    Prepared,
    /// A row of a cursor, or the end.
    Fetch,
    /// An OK packet, or an end if the server may send one.
    Acknowledgement(bool),
    /// A text.
    Text,
    /// The definition of a field, or the end.
    Fields,
    /// An event, or the end; and acknowledgements of the client.
    Events,
    /// An error.
    SessionError,
    /// The OK packet in the answer to `COM_CLONE`.
    CloneReply,
    /// A packet of the clone plugin's own protocol, from either side.
    Clone,
    /// After `COM_QUIT`: nothing, or an error.
    Quit,
    /// Nothing: the connection is over.
    Over,
}

/// The first packet of a result, unless it is an error.
#[derive(Clone, Copy, Debug, PartialEq, Eq)]
pub(crate) enum Reply {
    /// An OK packet; whether more results follow.
    Ok(bool),
    /// A request for a file.
    Infile,
    /// A count of columns, and whether their definitions follow.
    Columns(u64, bool),
}

/// A packet among rows, unless it is an error.
#[derive(Clone, Copy, Debug, PartialEq, Eq)]
pub(crate) enum Line {
    /// A row.
    Row,
    /// The end; whether more results follow.
    End(bool),
}

/// The format of the rows that a request asks for.
#[inline(always)]
pub(crate) fn format_of(request: Request) -> RowFormat
    ensures { result ≡ grammar.format_of request }
{
    match request {
        Request::Query => RowFormat::Text,
        Request::Execution | Request::Cursor => RowFormat::Binary,
    }
}
