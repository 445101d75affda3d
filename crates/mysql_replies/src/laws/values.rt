//! Laws on a given value: facts about a packet that a caller has created or read.
//!
//! Each function reads the numbers and lengths of its value, which shows that they fit their widths. It returns
//! nothing and has no effect: inlined, it costs no instruction.
#![tactic(auto, using(crate::proofs::PlainFits::plain))]

ghost use Rattle.std.specs.Prelude.{◌≡◌, ◌++◌, ◌<◌, ◌^◌, [], ℕ, List, Ok, IfSome, is_some};
ghost use Rattle.mysql_replies.specs.Column as spec;
ghost use Rattle.mysql_wire.specs.Flags.{CapabilityFlags, MariadbCapabilities};
ghost use Rattle.mysql_replies.specs.ColumnAttribute.{column_attribute};
ghost use Rattle.mysql_replies.specs.ExtendedColumn.{extended_column, metadata_of, sends_metadata};
ghost use Rattle.mysql_replies.specs.ColumnCount.{column_count, SuitsSession};
ghost use Rattle.mysql_replies.specs.ErrPacket.{err_packet, HasWidths, StateHasWidth, SuitsFlags};
ghost use Rattle.mysql_replies.specs.FieldListColumn.{column_of, field_list_column};
ghost use Rattle.mysql_replies.specs.LocalInfile.{local_infile};
ghost use Rattle.mysql_replies.specs.declared.session_capabilities.SessionCapabilities.{SessionCapabilities};
ghost use Rattle.mysql_replies.specs.declared.ok_kind.CommonOkPacket.{CommonOkPacket};
ghost use Rattle.mysql_replies.specs.declared.ok_kind.NetworkStreamTerminator.{NetworkStreamTerminator};
ghost use Rattle.mysql_replies.specs.declared.ok_kind.OldEofPacket.{OldEofPacket};
ghost use Rattle.mysql_replies.specs.declared.ok_kind.ResultSetTerminator.{ResultSetTerminator};
ghost use Rattle.mysql_replies.specs.OkKind.{common_ok_body, old_eof_body, terminator_body};
ghost use Rattle.mysql_replies.specs.OkPacket.{ok_packet};
ghost use Rattle.mysql_replies.specs.OkPacketSent.{HasOkWidths, common_bytes, deserializer_of, eof_bytes, terminator_bytes};
ghost use Rattle.mysql_replies.specs.ProgressReport.{progress_report, progress};
ghost use Rattle.mysql_replies.specs.ServerError.{server_error, error_code, sql_state_of};
ghost use Rattle.mysql_replies.specs.GreetingError.{greeting_error, HasPlainMessage};
ghost use Rattle.mysql_replies.specs.SentChange.{sent_info};
ghost use Rattle.mysql_replies.specs.SessionStateChanges.{decoded_as_sent};
ghost use Rattle.mysql_replies.specs.SessionStateInfo.{session_state_info};
ghost use Rattle.mysql_replies.specs.SqlState.{sql_state};

use crate::column::Column;
use crate::column_attribute::ColumnAttribute;
use crate::column_count::ColumnCount;
use crate::column_ref::ColumnRef;
use crate::err_packet::ErrPacket;
use crate::extended_column::ExtendedColumn;
use crate::field_list_column::FieldListColumn;
use crate::greeting_error::GreetingError;
use crate::local_infile::LocalInfilePacket;
use crate::ok_packet::OkPacket;
use crate::progress_report::ProgressReport;
use crate::server_error::ServerError;
use crate::session_state_info::SessionStateInfo;
use crate::sql_state::SqlState;
use mysql_session::SessionStateChange;
use mysql_session::laws::values::this_session_state_change_round_trips;

/// This column is read back, whatever bytes follow.
#[inline]
pub fn this_column_round_trips(column: &Column)
    ensures spelled { (rest : List ℕ) → (spec.column.form tt).Spells column.now (spec.column.bytes column.now ++ rest) rest }
{
    has_column_widths(column);
}

/// The lengths and numbers of a column fit their widths.
#[inline]
fn has_column_widths(column: &Column)
    ensures value { spec.ColumnFits column.now }
{
    let _schema = column.schema_ref().len();
    let _table = column.table_ref().len();
    let _org_table = column.org_table_ref().len();
    let _name = column.name_ref().len();
    let _org_name = column.org_name_ref().len();
    let _character_set = column.character_set();
    let _column_length = column.column_length();
    let _flags = column.flags();
    let _decimals = column.decimals();
}

/// This column is read back under these capabilities, whatever bytes follow, provided that it has metadata if and
/// only if the flag asks for it.
#[inline]
#[tactic(auto, using(crate::proofs::ExtendedColumns::extended_columns))]
pub fn this_extended_column_round_trips(column: &ExtendedColumn)
    ensures spelled { (capabilities : MariadbCapabilities) (rest : List ℕ) → is_some (metadata_of column.now) ≡ sends_metadata capabilities
        → (extended_column.form capabilities).Spells column.now (extended_column.bytes column.now ++ rest) rest }
{
    has_column_widths(column.column());
    if let Some(metadata) = column.metadata_ref() {
        let _metadata = metadata.len();
    }
}

/// This column with its default value is read back under these capabilities, whatever bytes follow, provided that
/// it has metadata if and only if the flag asks for it.
#[inline]
#[tactic(auto, using(crate::proofs::FieldListColumns::field_list_columns))]
pub fn this_field_list_column_round_trips(definition: &FieldListColumn<'_>)
    ensures spelled { (capabilities : MariadbCapabilities) (rest : List ℕ) → is_some (metadata_of (column_of definition.now)) ≡ sends_metadata capabilities
        → (field_list_column.form capabilities).Spells definition.now (field_list_column.bytes definition.now ++ rest) rest }
{
    let extended = definition.column();
    has_widths_in_place(extended.column());
    if let Some(metadata) = extended.metadata() {
        let _metadata = metadata.len();
    }
    if let Some(text) = definition.default_value() {
        let _text = text.len();
    }
}

/// The lengths and numbers of a borrowed column fit their widths.
#[inline]
fn has_widths_in_place(column: &ColumnRef<'_>)
    ensures value { spec.ColumnFits column.now }
{
    let _schema = column.schema().len();
    let _table = column.table().len();
    let _org_table = column.org_table().len();
    let _name = column.name().len();
    let _org_name = column.org_name().len();
    let _character_set = column.character_set();
    let _column_length = column.column_length();
    let _flags = column.flags();
    let _decimals = column.decimals();
}

/// This attribute of a column is read back, whatever bytes follow.
#[inline]
#[tactic(auto, using(crate::proofs::ExtendedColumns::extended_columns))]
pub fn this_column_attribute_round_trips(attribute: &ColumnAttribute<'_>)
    ensures spelled { (rest : List ℕ) → (column_attribute.form tt).Spells attribute.now (column_attribute.bytes attribute.now ++ rest) rest }
{
    let _code = attribute.code();
    let _text = attribute.text_ref().len();
}

/// This column count is read back, whatever bytes follow, provided that it has the metadata byte if and only if
/// the flags ask for it.
#[inline]
pub fn this_column_count_round_trips(columns: &ColumnCount)
    ensures spelled { (capabilities : SessionCapabilities) (rest : List ℕ) → SuitsSession capabilities columns.now
        → (column_count.form capabilities).Spells columns.now (column_count.bytes columns.now ++ rest) rest }
{
    let _count = columns.count();
    if let Some(byte) = columns.metadata_byte() {
        let _byte = byte;
    }
}

/// This request for a local file is read back if nothing follows.
#[inline]
pub fn this_local_infile_round_trips(request: &LocalInfilePacket<'_>)
    ensures spelled { (local_infile.form tt).Spells request.now (local_infile.bytes request.now) [] }
{}

/// This error instead of the greeting is read back if nothing follows and, without a state, its message doesn't
/// begin like a state.
#[inline]
#[tactic(auto, using(crate::proofs::GreetingErrors::greeting_errors))]
pub fn this_greeting_error_round_trips(packet: &GreetingError<'_>)
    ensures spelled { HasPlainMessage packet.now → (greeting_error.form tt).Spells packet.now (greeting_error.bytes packet.now) [] }
{
    has_error_widths(packet.server_error());
}

/// The numbers of an error fit their widths.
#[inline]
fn has_error_widths(error: &ServerError<'_>)
    ensures value { (error_code error.now < 2 ^ 16) × StateHasWidth (sql_state_of error.now) }
{
    let _code = error.error_code();
    if let Some(state) = error.sql_state_ref() {
        let _bytes = state.as_bytes();
    }
}

/// This progress report is read back, whatever bytes follow, if its progress fits in three bytes.
#[inline]
pub fn this_progress_report_round_trips(report: &ProgressReport<'_>)
    ensures spelled { (rest : List ℕ) → progress report.now < 2 ^ 24 → (progress_report.form tt).Spells report.now (progress_report.bytes report.now ++ rest) rest }
{
    let _stage = report.stage();
    let _max_stage = report.max_stage();
    let _stage_info = report.stage_info_ref().len();
}

/// This error is read back if nothing follows and the reader is passed its code and whether it has a state.
#[inline]
pub fn this_server_error_round_trips(error: &ServerError<'_>)
    ensures spelled { (server_error.form (error_code error.now, is_some (sql_state_of error.now))).Spells error.now (server_error.bytes error.now) [] }
{
    if let Some(state) = error.sql_state_ref() {
        let _bytes = state.as_bytes();
    }
}

/// This error packet is read back if nothing follows and it suits the flags of both sides: a report needs
/// `CLIENT_PROGRESS_OBSOLETE`, and its progress fits in three bytes; an error has a state exactly under
/// `CLIENT_PROTOCOL_41`, and its code doesn't make it a report.
#[inline]
#[tactic(auto, using(crate::proofs::PlainFits::plain, crate::proofs::ErrPacketFits::err_packets))]
pub fn this_err_packet_round_trips(packet: &ErrPacket<'_>)
    ensures spelled { (capabilities : CapabilityFlags) → SuitsFlags capabilities packet.now → (err_packet.form capabilities).Spells packet.now (err_packet.bytes packet.now) [] }
{
    has_widths(packet);
}

/// The numbers of an error packet fit their widths, except for a report's progress.
#[inline]
fn has_widths(packet: &ErrPacket<'_>)
    ensures value { HasWidths packet.now }
{
    match packet {
        ErrPacket::Error(error) => { has_error_widths(error) }
        ErrPacket::Progress(report) => {
            let _stage = report.stage();
            let _max_stage = report.max_stage();
            let _stage_info = report.stage_info_ref().len();
        }
    }
}

/// This entry of a state string is read back, whatever bytes follow.
#[inline]
pub fn this_session_state_info_round_trips(info: &SessionStateInfo<'_>)
    ensures spelled { (rest : List ℕ) → (session_state_info.form tt).Spells info.now (session_state_info.bytes info.now ++ rest) rest }
{
    let _data = info.data_ref().len();
}

/// The bytes that are written of this change are decoded as the same change.
#[inline]
#[tactic(auto, using(crate::proofs::SentChangeAgain::sent_changes))]
pub fn this_sent_change_round_trips(change: &SessionStateChange<'_>)
    ensures decoded { IfSome (sent_info change.now) (λ i. decoded_as_sent i ≡ Ok (change.now, [])) }
{
    this_session_state_change_round_trips(change);
    if let SessionStateChange::Gtids(gtids) = change {
        let _text = gtids.as_bytes().len();
    }
}

/// This SQL state is read back, whatever bytes follow.
#[inline]
pub fn this_sql_state_round_trips(state: &SqlState)
    ensures spelled { (rest : List ℕ) → (sql_state.form tt).Spells state.now (sql_state.bytes state.now ++ rest) rest }
{}

/// An OK packet that was read as a kind under some flags is read back if it is written as that kind under these flags.
#[inline]
#[tactic(auto, using(crate::proofs::OkPacketRead::read_again))]
pub fn this_ok_packet_round_trips(packet: &OkPacket<'_>)
    ensures widths { HasOkWidths packet.now }
    ensures common { (c : CapabilityFlags) (bytes rest : List ℕ) → (ok_packet {T = CommonOkPacket} 0 (common_ok_body c)).Spells (deserializer_of packet.now) bytes rest
        → (ok_packet {T = CommonOkPacket} 0 (common_ok_body c)).Spells (deserializer_of packet.now) (common_bytes c packet.now) [] }
    ensures terminator { (c : CapabilityFlags) (bytes rest : List ℕ) → (ok_packet {T = ResultSetTerminator} 0xfe (terminator_body c)).Spells (deserializer_of packet.now) bytes rest
        → (ok_packet {T = ResultSetTerminator} 0xfe (terminator_body c)).Spells (deserializer_of packet.now) (terminator_bytes c packet.now) [] }
    ensures old_eof { (c : CapabilityFlags) (bytes rest : List ℕ) → (ok_packet {T = OldEofPacket} 0xfe (old_eof_body c)).Spells (deserializer_of packet.now) bytes rest
        → (ok_packet {T = OldEofPacket} 0xfe (old_eof_body c)).Spells (deserializer_of packet.now) (eof_bytes packet.now) [] }
    ensures stream_end { (c : CapabilityFlags) (bytes rest : List ℕ) → (ok_packet {T = NetworkStreamTerminator} 0xfe (old_eof_body c)).Spells (deserializer_of packet.now) bytes rest
        → (ok_packet {T = NetworkStreamTerminator} 0xfe (old_eof_body c)).Spells (deserializer_of packet.now) (eof_bytes packet.now) [] }
{
    has_ok_widths(packet);
}

/// The numbers and lengths of an OK packet fit their widths.
#[inline]
fn has_ok_widths(packet: &OkPacket<'_>)
    ensures value { HasOkWidths packet.now }
{
    let _affected_rows = packet.affected_rows();
    let _last_insert_id = packet.last_insert_id();
    let _status_flags = packet.status_flags();
    let _warnings = packet.warnings();
    if let Some(info) = packet.info_ref() {
        let _len = info.len();
    }
    if let Some(state) = packet.session_state_info_ref() {
        let _len = state.len();
    }
}
