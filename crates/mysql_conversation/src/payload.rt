//! Classifies payloads by their first bytes.

ghost use Rattle.std.specs.Prelude.{◌≡◌, true, false, Some, None, IsTrue};
ghost use Rattle.mysql_conversation.specs.declared.state.Line.TheVariants.{Row};
ghost use Rattle.mysql_conversation.specs.Machine as spec;
ghost use Rattle.mysql_conversation.specs.Conversation as grammar;
ghost use Rattle.mysql_conversation.specs.Payloads as payloads;
ghost use Rattle.mysql_conversation.specs.Standing as standing;

use crate::agreed::{asks_factors, deprecates_eof, reports_progress};
use crate::packet_kind::{PacketKind, RowFormat};
use crate::state::{Answer, Command, Line, Reply, Request};
use bitflags::Flags;
use mysql_replies::{
    ColumnCount, CommonOkPacket, OkPacketRefDeserializer, OldEofPacket, ResultSetTerminator,
    SessionCapabilities,
};
use mysql_stmt::StmtPacketWithMetadata;
use mysql_wire::{FaultOf, ParseBuf, StatusFlags, command_code as com};
use std::alloc::Global;

/// The first byte of an acknowledgement in semi-synchronous replication.
pub(crate) const SEMI_SYNC_MARK: u8 = 0xef;

#[inline(always)]
pub(crate) fn has_more(status: StatusFlags) -> bool
    ensures { result ≡ payloads.has_more status }
{
    status.contains(StatusFlags::SERVER_MORE_RESULTS_EXISTS)
}

#[inline(always)]
pub(crate) fn opens_cursor(status: StatusFlags) -> bool
    ensures { result ≡ payloads.opens_cursor status }
{
    status.contains(StatusFlags::SERVER_STATUS_CURSOR_EXISTS) && !has_more(status)
}

#[inline(always)]
pub(crate) fn first_is(byte: u8, payload: &[u8]) -> bool
    ensures { result ≡ payloads.first_is byte payload.now }
{
    match payload.first() {
        Some(first) => *first == byte,
        None => false,
    }
}

/// Whether the first byte says that a packet among rows is a row.
#[inline(always)]
pub(crate) fn is_row_by_first(format: RowFormat, payload: &[u8]) -> bool
    ensures value { result ≡ payloads.begins_row format payload.now }
    ensures row { IsTrue result → (payloads.first_is 0xff payload.now ≡ false) × (payloads.first_is 0xfe payload.now ≡ false) × (spec.row_of format payload.now ≡ Some Row) }
{
    match payload.first() {
        Some(first) => match format {
            RowFormat::Text => *first < 0xfe,
            RowFormat::Binary => *first == 0,
        },
        None => false,
    }
}

/// Whether a packet is a progress report, if those are agreed on.
#[tactic(auto, unfolding(crate::specs::Payloads::is_report))]
#[inline(always)]
pub(crate) fn is_report(agreed: SessionCapabilities, payload: &[u8]) -> bool
    ensures { result ≡ payloads.is_report agreed payload.now }
{
    reports_progress(agreed)
        && match payload {
            [first, second, third, ..] => *first == 0xff && *second == 0xff && *third == 0xff,
            _ => false,
        }
}

#[inline(always)]
fn is_one_byte(payload: &[u8]) -> bool
    ensures { result ≡ payloads.is_one_byte payload.now }
{
    matches!(payload, [_])
}

/// Whether an execution requests a cursor.
#[inline(always)]
fn asks_cursor(payload: &[u8]) -> bool
    ensures { result ≡ payloads.asks_cursor payload.now }
{
    match payload {
        [_, _, _, _, _, flags, ..] => *flags & 7 != 0,
        _ => false,
    }
}

#[inline(always)]
fn looks_like_end(deprecates: bool, payload: &[u8]) -> bool
    ensures { result ≡ payloads.looks_like_end deprecates payload.now }
{
    let below = if deprecates { 0xff_ffff } else { 9 };
    first_is(0xfe, payload) && payload.len() < below
}

#[tactic(auto, using(crate::proofs::Faults::faults), unfolding(crate::specs::Machine::ok_status))]
pub(crate) fn ok_status(
    alloc: Global,
    agreed: SessionCapabilities,
    payload: &[u8],
) -> Option<StatusFlags>
    ensures { result ≡ spec.ok_status agreed payload.now }
{
    let mut buf = ParseBuf::new(alloc, payload);
    let read: Result<OkPacketRefDeserializer<CommonOkPacket>, FaultOf> = buf.parse(agreed.mysql);
    match read {
        Ok(ok) => Some(ok.into_inner().status_flags()),
        Err(_) => None,
    }
}

#[tactic(auto, using(crate::proofs::Faults::faults), unfolding(crate::specs::Machine::old_end_status))]
fn old_end_status(alloc: Global, agreed: SessionCapabilities, payload: &[u8]) -> Option<StatusFlags>
    ensures { result ≡ spec.old_end_status agreed payload.now }
{
    let mut buf = ParseBuf::new(alloc, payload);
    let read: Result<OkPacketRefDeserializer<OldEofPacket>, FaultOf> = buf.parse(agreed.mysql);
    match read {
        Ok(ok) => Some(ok.into_inner().status_flags()),
        Err(_) => None,
    }
}

#[tactic(auto, using(crate::proofs::Faults::faults), unfolding(crate::specs::Machine::terminator_status))]
fn terminator_status(
    alloc: Global,
    agreed: SessionCapabilities,
    payload: &[u8],
) -> Option<StatusFlags>
    ensures { result ≡ spec.terminator_status agreed payload.now }
{
    let mut buf = ParseBuf::new(alloc, payload);
    let read: Result<OkPacketRefDeserializer<ResultSetTerminator>, FaultOf> = buf.parse(
        agreed.mysql,
    );
    match read {
        Ok(ok) => Some(ok.into_inner().status_flags()),
        Err(_) => None,
    }
}

#[tactic(auto, using(crate::proofs::Faults::faults), unfolding(crate::specs::Machine::count_at))]
fn count_at(alloc: Global, agreed: SessionCapabilities, payload: &[u8]) -> Option<ColumnCount>
    ensures { result ≡ spec.count_at agreed payload.now }
{
    let mut buf = ParseBuf::new(alloc, payload);
    let read: Result<ColumnCount, FaultOf> = buf.parse(agreed);
    match read {
        Ok(count) => Some(count),
        Err(_) => None,
    }
}

#[tactic(auto, using(crate::proofs::Faults::faults), unfolding(crate::specs::Machine::statement_at))]
pub(crate) fn statement_at(
    alloc: Global,
    agreed: SessionCapabilities,
    payload: &[u8],
) -> Option<StmtPacketWithMetadata>
    ensures { result ≡ spec.statement_at agreed payload.now }
{
    let mut buf = ParseBuf::new(alloc, payload);
    let read: Result<StmtPacketWithMetadata, FaultOf> = buf.parse(agreed.mysql);
    match read {
        Ok(statement) => Some(statement),
        Err(_) => None,
    }
}

#[inline(always)]
pub(crate) fn reply_of(alloc: Global, agreed: SessionCapabilities, payload: &[u8]) -> Option<Reply>
    ensures { result ≡ spec.reply_of agreed payload.now }
{
    if first_is(0, payload) {
        return Some(Reply::Ok(has_more(ok_status(alloc, agreed, payload)?)));
    }
    if first_is(0xfb, payload) {
        return Some(Reply::Infile);
    }
    let columns = count_at(alloc, agreed, payload)?;
    if 0 < columns.count() {
        Some(Reply::Columns(columns.count(), columns.metadata_follows()))
    } else {
        None
    }
}

#[inline(always)]
pub(crate) fn old_end_of(
    alloc: Global,
    agreed: SessionCapabilities,
    payload: &[u8],
) -> Option<StatusFlags>
    ensures { result ≡ spec.old_end_of agreed payload.now }
{
    if looks_like_end(false, payload) {
        old_end_status(alloc, agreed, payload)
    } else {
        None
    }
}

#[inline(always)]
fn end_status(
    alloc: Global,
    agreed: SessionCapabilities,
    deprecates: bool,
    payload: &[u8],
) -> Option<StatusFlags>
    ensures { result ≡ spec.end_status agreed deprecates payload.now }
{
    if deprecates {
        terminator_status(alloc, agreed, payload)
    } else {
        old_end_status(alloc, agreed, payload)
    }
}

#[inline(always)]
pub(crate) fn line_of(
    alloc: Global,
    agreed: SessionCapabilities,
    format: RowFormat,
    payload: &[u8],
) -> Option<Line>
    ensures { result ≡ spec.line_of agreed format payload.now }
{
    let deprecates = deprecates_eof(agreed);
    if looks_like_end(deprecates, payload) {
        let status = end_status(alloc, agreed, deprecates, payload)?;
        return Some(Line::End(has_more(status)));
    }
    match format {
        RowFormat::Text => Some(Line::Row),
        RowFormat::Binary => {
            if first_is(0, payload) {
                Some(Line::Row)
            } else {
                None
            }
        }
    }
}

/// Classifies a server's packet before the login is done, by the first byte.
#[inline(always)]
pub(crate) fn authentication_kind(agreed: SessionCapabilities, payload: &[u8]) -> PacketKind
    ensures { result ≡ grammar.authentication_kind agreed payload.now }
{
    if first_is(0xfe, payload) {
        return if is_one_byte(payload) {
            PacketKind::OldAuthSwitch
        } else {
            PacketKind::AuthSwitch
        };
    }
    if first_is(1, payload) {
        return PacketKind::AuthMoreData;
    }
    if first_is(2, payload) && asks_factors(agreed) {
        return PacketKind::AuthNextFactor;
    }
    PacketKind::AuthPluginData
}

/// Returns the form of the answer to a command with this first byte, if there is one.
#[inline(always)]
pub(crate) fn answering(code: u8, cursor: bool) -> Option<Answer>
    ensures { result ≡ grammar.answering code cursor }
{
    match code {
        com::COM_QUERY | com::COM_PROCESS_INFO => Some(Answer::Results(Request::Query)),
        com::COM_STMT_EXECUTE => Some(Answer::Results(if cursor {
            Request::Cursor
        } else {
            Request::Execution
        })),
        com::COM_STMT_BULK_EXECUTE => Some(Answer::Results(Request::Execution)),
        com::COM_STMT_PREPARE => Some(Answer::Prepared),
        com::COM_STMT_FETCH => Some(Answer::Rows),
        com::COM_STMT_CLOSE | com::COM_STMT_SEND_LONG_DATA => Some(Answer::Nothing),
        com::COM_QUIT => Some(Answer::Quit),
        com::COM_PING
        | com::COM_INIT_DB
        | com::COM_STMT_RESET
        | com::COM_RESET_CONNECTION
        | com::COM_CREATE_DB
        | com::COM_DROP_DB
        | com::COM_REFRESH
        | com::COM_PROCESS_KILL
        | com::COM_REGISTER_SLAVE => Some(Answer::Acknowledgement(false)),
        // See `my_eof` in MySQL's `dispatch_command`.
        com::COM_SET_OPTION | com::COM_SHUTDOWN | com::COM_DEBUG => {
            Some(Answer::Acknowledgement(true))
        }
        com::COM_STATISTICS => Some(Answer::Text),
        com::COM_FIELD_LIST => Some(Answer::Fields),
        com::COM_CHANGE_USER => Some(Answer::Authentication),
        com::COM_BINLOG_DUMP | com::COM_BINLOG_DUMP_GTID => Some(Answer::Events),
        com::COM_CLONE => Some(Answer::Clone),
        SEMI_SYNC_MARK => None,
        _ => Some(Answer::SessionError),
    }
}

/// The first byte of a command: a server treats an empty packet as `COM_SLEEP`.
#[inline(always)]
fn code_of(payload: &[u8]) -> u8
    ensures { result ≡ grammar.code_of payload.now }
{
    match payload.first() {
        Some(code) => *code,
        None => 0,
    }
}

/// Returns the command of a payload, if it is one.
#[inline(always)]
pub(crate) fn command_of(payload: &[u8]) -> Option<Command>
    ensures { result ≡ standing.command_of payload.now }
{
    let code = code_of(payload);
    let answer = answering(code, asks_cursor(payload))?;
    Some(Command { code, answer })
}
