//! Laws over the grammars and the defined bytes of this crate's packets.
//!
//! Each law is a function with nothing in it, whose contract holds for all values.
#![tactic(auto, using(mysql_wire::proofs::Packets::packets))]

ghost use Rattle.std.specs.Prelude.{◌≡◌, ◌++◌, ◌<◌, ◌^◌, ◌↔◌, [], List, ℕ, length, Bool, None, Some, Ok, IfSome, IsTrue, false};
ghost use Rattle.mysql_wire.specs.Flags.{CapabilityFlags};
ghost use Rattle.mysql_replies.specs.declared.column.Column.{Column};
ghost use Rattle.mysql_replies.specs.declared.column_count.ColumnCount.{ColumnCount};
ghost use Rattle.mysql_replies.specs.ErrPacket.{ErrPacket, err_packet, ErrPacketFits};
ghost use Rattle.mysql_replies.specs.declared.local_infile.LocalInfilePacket.{LocalInfilePacket};
ghost use Rattle.mysql_replies.specs.declared.ok_packet.OkPacket.{OkPacket};
ghost use Rattle.mysql_replies.specs.ProgressReport.{ProgressReport, progress_report, ProgressReportFits};
ghost use Rattle.mysql_replies.specs.ServerError.{ServerError, server_error, error_code, sql_state_of, StateFits};
ghost use Rattle.mysql_replies.specs.declared.session_capabilities.SessionCapabilities.{SessionCapabilities};
ghost use Rattle.mysql_replies.specs.declared.session_state_info.SessionStateInfo.{SessionStateInfo};
ghost use Rattle.mysql_replies.specs.declared.sql_state.SqlState.{SqlState};
ghost use Rattle.mysql_replies.specs.Column.{column, ColumnFits};
ghost use Rattle.mysql_replies.specs.ColumnCount.{column_count, ColumnCountFits};
ghost use Rattle.mysql_replies.specs.GreetingError.{GreetingError, greeting_error, GreetingErrorFits};
ghost use Rattle.mysql_replies.specs.LocalInfile.{local_infile};
ghost use Rattle.mysql_replies.specs.OkKind.{common_ok_body, terminator_body, old_eof_body};
ghost use Rattle.mysql_replies.specs.OkPacket.{ok_packet};
ghost use Rattle.mysql_replies.specs.OkPacketSent.{common_bytes, terminator_bytes, eof_bytes, deserializer_of, OkPacketFits, TerminatorFits, OldEofFits};
ghost use Rattle.mysql_replies.specs.declared.ok_kind.CommonOkPacket.{CommonOkPacket};
ghost use Rattle.mysql_replies.specs.declared.ok_kind.ResultSetTerminator.{ResultSetTerminator};
ghost use Rattle.mysql_replies.specs.declared.ok_kind.OldEofPacket.{OldEofPacket};
ghost use Rattle.mysql_replies.specs.declared.ok_kind.NetworkStreamTerminator.{NetworkStreamTerminator};
ghost use Rattle.mysql_replies.specs.SessionStateInfo.{session_state_info, data_type, data_bytes, decoded, state_string};
ghost use Rattle.mysql_replies.specs.SessionStateChanges.{decoded_as_sent, is_gtids};
ghost use Rattle.mysql_replies.specs.SentChange.{sent_info, SentIsShort};
ghost use Rattle.mysql_session.specs.declared.session_state_change.SessionStateChange.{SessionStateChange};
ghost use Rattle.mysql_replies.specs.SqlState.{sql_state, state_bytes};

pub mod borrowed;
pub mod extended;
pub mod values;

use mysql_wire::MyDeserialize;
use std::hash::Hash;

/// A request for a local file is read back if nothing follows.
#[tactic(auto, using(mysql_wire::proofs::Packets::packets, crate::proofs::PlainFits::plain))]
pub fn local_infile_round_trips()
    ensures spelled { (p : LocalInfilePacket) (rest : List ℕ) → local_infile.fits tt p rest → (local_infile.form tt).Spells p (local_infile.bytes p ++ rest) rest }
    ensures plain { (p : LocalInfilePacket) → (local_infile.form tt).Spells p (local_infile.bytes p) [] }
{}

/// A column count is read back, whatever bytes follow, provided that it has the metadata byte if and only if the
/// flags ask for it.
#[tactic(auto, using(mysql_wire::proofs::Packets::packets, crate::proofs::PlainFits::plain))]
pub fn column_count_round_trips()
    ensures spelled { (capabilities : SessionCapabilities) (c : ColumnCount) (rest : List ℕ) → column_count.fits capabilities c rest → (column_count.form capabilities).Spells c (column_count.bytes c ++ rest) rest }
    ensures plain { (capabilities : SessionCapabilities) (c : ColumnCount) (rest : List ℕ) → ColumnCountFits capabilities c → (column_count.form capabilities).Spells c (column_count.bytes c ++ rest) rest }
{}

/// An SQL state is read back, whatever bytes follow.
#[tactic(auto, using(mysql_wire::proofs::Packets::packets, crate::proofs::PlainFits::plain))]
pub fn sql_state_round_trips()
    ensures spelled { (s : SqlState) (rest : List ℕ) → sql_state.fits tt s rest → (sql_state.form tt).Spells s (sql_state.bytes s ++ rest) rest }
    ensures plain { (s : SqlState) (rest : List ℕ) → length (state_bytes s) ≡ 5 → (sql_state.form tt).Spells s (sql_state.bytes s ++ rest) rest }
{}

/// Equal SQL states hash equally.
pub fn equal_sql_states_hash_equally()
    ensures hash { (x y : SqlState) → IsTrue (⟦<crate::sql_state::SqlState as PartialEq>⟧.eq x y) → ⟦<crate::sql_state::SqlState as Hash>⟧.hash_input x ≡ ⟦<crate::sql_state::SqlState as Hash>⟧.hash_input y }
{}

/// An error is read back if nothing follows and the reader is passed the code and whether there is a state.
#[tactic(auto, using(mysql_wire::proofs::Packets::packets, crate::proofs::PlainFits::plain))]
pub fn server_error_round_trips()
    ensures spelled { (context : ℕ × Bool) (e : ServerError) (rest : List ℕ) → server_error.fits context e rest → (server_error.form context).Spells e (server_error.bytes e ++ rest) rest }
    ensures plain { (has_state : Bool) (e : ServerError) → StateFits has_state (sql_state_of e) → (server_error.form (error_code e, has_state)).Spells e (server_error.bytes e) [] }
{}

/// An error instead of the greeting is read back if nothing follows.
#[tactic(auto, using(mysql_wire::proofs::Packets::packets, crate::proofs::GreetingErrors::greeting_errors))]
pub fn greeting_error_round_trips()
    ensures spelled { (g : GreetingError) (rest : List ℕ) → greeting_error.fits tt g rest → (greeting_error.form tt).Spells g (greeting_error.bytes g ++ rest) rest }
    ensures plain { (g : GreetingError) → GreetingErrorFits g → (greeting_error.form tt).Spells g (greeting_error.bytes g) [] }
{}

/// Errors instead of the greeting compare equal exactly if they have the same value.
#[tactic(auto, using(crate::proofs::GreetingErrors::greeting_errors))]
pub fn equal_greeting_errors_are_the_same()
    ensures same { (x y : GreetingError) → IsTrue (⟦<crate::GreetingError<'static> as PartialEq>⟧.eq x y) ↔ (x ≡ y) }
{}

/// A progress report is read back, whatever bytes follow.
#[tactic(auto, using(mysql_wire::proofs::Packets::packets, crate::proofs::PlainFits::plain))]
pub fn progress_report_round_trips()
    ensures spelled { (r : ProgressReport) (rest : List ℕ) → progress_report.fits tt r rest → (progress_report.form tt).Spells r (progress_report.bytes r ++ rest) rest }
    ensures plain { (r : ProgressReport) (rest : List ℕ) → ProgressReportFits r → (progress_report.form tt).Spells r (progress_report.bytes r ++ rest) rest }
{}

/// An error or a progress report is read back under the codec's condition, `err_packet.fits`.
pub fn err_packet_round_trips()
    ensures spelled { (capabilities : CapabilityFlags) (p : ErrPacket) (rest : List ℕ) → err_packet.fits capabilities p rest → (err_packet.form capabilities).Spells p (err_packet.bytes p ++ rest) rest }
{}

/// `ErrPacketFits` states in plain words when an error or a progress report is read back.
#[tactic(auto, using(crate::proofs::ErrPacketFits::err_packets))]
pub fn err_packet_fits()
    ensures fits { (capabilities : CapabilityFlags) (p : ErrPacket) (rest : List ℕ) → ErrPacketFits capabilities p rest → err_packet.fits capabilities p rest }
{}

/// An entry of a state string is read back, whatever bytes follow.
#[tactic(auto, using(mysql_wire::proofs::Packets::packets, crate::proofs::PlainFits::plain))]
pub fn session_state_info_round_trips()
    ensures spelled { (i : SessionStateInfo) (rest : List ℕ) → session_state_info.fits tt i rest → (session_state_info.form tt).Spells i (session_state_info.bytes i ++ rest) rest }
    ensures plain { (i : SessionStateInfo) (rest : List ℕ) → length (data_bytes i) < 2 ^ 64 → (session_state_info.form tt).Spells i (session_state_info.bytes i ++ rest) rest }
{}

/// Data that is read as a change in the written layout is read as the same change in the layouts that servers
/// send, except for GTIDs.
#[tactic(auto, using(crate::proofs::AsSent::as_sent))]
pub fn session_state_change_as_sent()
    ensures value { (i : SessionStateInfo) (change : SessionStateChange) → is_gtids (data_type i) ≡ false → decoded i ≡ Ok (change, []) → decoded_as_sent i ≡ Ok (change, []) }
{}

/// An OK packet is read back as its kind, under the same flags, if nothing follows.
pub fn ok_packet_round_trips()
    ensures common { (c : CapabilityFlags) (p : OkPacket) → OkPacketFits c p → (ok_packet {T = CommonOkPacket} 0 (common_ok_body c)).Spells (deserializer_of p) (common_bytes c p) [] }
    ensures terminator { (c : CapabilityFlags) (p : OkPacket) → TerminatorFits c p → (ok_packet {T = ResultSetTerminator} 0xfe (terminator_body c)).Spells (deserializer_of p) (terminator_bytes c p) [] }
    ensures old_eof { (c : CapabilityFlags) (p : OkPacket) → OldEofFits p → (ok_packet {T = OldEofPacket} 0xfe (old_eof_body c)).Spells (deserializer_of p) (eof_bytes p) [] }
    ensures stream_end { (c : CapabilityFlags) (p : OkPacket) → OldEofFits p → (ok_packet {T = NetworkStreamTerminator} 0xfe (old_eof_body c)).Spells (deserializer_of p) (eof_bytes p) [] }
{}

/// The bytes that are sent of a change are decoded as the same change.
#[tactic(auto, using(crate::proofs::SentChangeAgain::sent_changes))]
pub fn sent_change_round_trips()
    ensures decoded { (c : SessionStateChange) → SentIsShort c → IfSome (sent_info c) (λ i. decoded_as_sent i ≡ Ok (c, [])) }
{}

/// Bytes are the encoding of at most one list of entries of a state string.
#[tactic(auto, using(mysql_wire::specs::Once::once))]
pub fn state_string_once()
    ensures value { (xs ys : List SessionStateInfo) (bytes : List ℕ) → state_string.Spells xs bytes [] → state_string.Spells ys bytes [] → xs ≡ ys }
{}

/// A column is read back, whatever bytes follow.
#[tactic(auto, using(mysql_wire::proofs::Packets::packets, crate::proofs::PlainFits::plain))]
pub fn column_round_trips()
    ensures spelled { (c : Column) (rest : List ℕ) → column.fits tt c rest → (column.form tt).Spells c (column.bytes c ++ rest) rest }
    ensures plain { (c : Column) (rest : List ℕ) → ColumnFits c → (column.form tt).Spells c (column.bytes c ++ rest) rest }
{}

/// A borrowed column is read like an owned one.
pub fn borrowed_columns_read_columns()
    ensures read { (bytes : List ℕ) → (⟦<crate::column_ref::ColumnRef<'static> as MyDeserialize<'static>>⟧.form tt).reads bytes ≡ (column.form tt).reads bytes }
{}

/// The fixed fields of a column take 13 bytes, an SQL state 6, and no other packet has a constant size.
pub fn each_packet_has_its_size() -> bool
    ensures value { IsTrue result }
{
    crate::column_fields::ColumnFields::SIZE == Some(13)
        && crate::SqlState::SIZE == Some(6)
        && crate::Column::SIZE.is_none()
        && crate::ErrPacket::<'static>::SIZE.is_none()
        && crate::LocalInfilePacket::<'static>::SIZE.is_none()
        && crate::ProgressReport::<'static>::SIZE.is_none()
        && crate::ServerError::<'static>::SIZE.is_none()
        && crate::SessionStateInfo::<'static>::SIZE.is_none()
}

/// Columns compare equal exactly if they have the same value.
#[tactic(auto, using(crate::proofs::EqualColumns::equal_columns))]
pub fn equal_columns_are_the_same()
    ensures same { (x y : Column) → IsTrue (⟦<crate::column::Column as PartialEq>⟧.eq x y) ↔ (x ≡ y) }
{}

/// OK packets compare equal exactly if they have the same value.
#[tactic(auto, using(crate::proofs::EqualReplies::equal_replies))]
pub fn equal_ok_packets_are_the_same()
    ensures same { (x y : OkPacket) → IsTrue (⟦<crate::ok_packet::OkPacket<'static> as PartialEq>⟧.eq x y) ↔ (x ≡ y) }
{}

/// Entries of a state string compare equal exactly if they have the same value.
#[tactic(auto, using(crate::proofs::EqualReplies::equal_replies))]
pub fn equal_session_state_infos_are_the_same()
    ensures same { (x y : SessionStateInfo) → IsTrue (⟦<crate::session_state_info::SessionStateInfo<'static> as PartialEq>⟧.eq x y) ↔ (x ≡ y) }
{}

/// Requests for a local file compare equal exactly if they have the same value.
#[tactic(auto, using(crate::proofs::EqualReplies::equal_replies))]
pub fn equal_local_infiles_are_the_same()
    ensures same { (x y : LocalInfilePacket) → IsTrue (⟦<crate::local_infile::LocalInfilePacket<'static> as PartialEq>⟧.eq x y) ↔ (x ≡ y) }
{}

/// Errors and progress reports compare equal exactly if they have the same value.
#[tactic(auto, using(crate::proofs::EqualReplies::equal_replies))]
pub fn equal_err_packets_are_the_same()
    ensures packet { (x y : ErrPacket) → IsTrue (⟦<crate::err_packet::ErrPacket<'static> as PartialEq>⟧.eq x y) ↔ (x ≡ y) }
    ensures error { (x y : ServerError) → IsTrue (⟦<crate::server_error::ServerError<'static> as PartialEq>⟧.eq x y) ↔ (x ≡ y) }
    ensures report { (x y : ProgressReport) → IsTrue (⟦<crate::progress_report::ProgressReport<'static> as PartialEq>⟧.eq x y) ↔ (x ≡ y) }
    ensures state { (x y : SqlState) → IsTrue (⟦<crate::sql_state::SqlState as PartialEq>⟧.eq x y) ↔ (x ≡ y) }
{}
