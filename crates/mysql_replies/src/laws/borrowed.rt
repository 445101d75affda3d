//! A borrowed form is read from the same bytes as the owned one, and has the same value.
#![tactic(auto, using(mysql_wire::proofs::Packets::packets))]

ghost use Rattle.std.specs.Prelude.{◌≡◌, List, ℕ, Bool};
ghost use Rattle.mysql_wire.specs.Flags.{CapabilityFlags};
ghost use Rattle.mysql_replies.specs.ErrPacket.{ErrPacket, err_packet};
ghost use Rattle.mysql_replies.specs.GreetingError.{GreetingError, greeting_error};
ghost use Rattle.mysql_replies.specs.LocalInfile.{local_infile};
ghost use Rattle.mysql_replies.specs.OkPacket.{ok_packet};
ghost use Rattle.mysql_replies.specs.ProgressReport.{ProgressReport, progress_report};
ghost use Rattle.mysql_replies.specs.ServerError.{ServerError, server_error};
ghost use Rattle.mysql_replies.specs.SessionStateInfo.{session_state_info};
ghost use Rattle.mysql_replies.specs.SqlState.{sql_state};

use crate::ok_kind::OkPacketRefKind;
use mysql_wire::MyDeserialize;

/// Borrowed errors and progress reports are read like owned ones.
pub fn borrowed_errors_read_errors()
    ensures packet { (capabilities : CapabilityFlags) (bytes : List ℕ) → (⟦<crate::err_packet::ErrPacketRef<'static> as MyDeserialize<'static>>⟧.form capabilities).reads bytes ≡ (err_packet.form capabilities).reads bytes }
    ensures error { (context : ℕ × Bool) (bytes : List ℕ) → (⟦<crate::server_error::ServerErrorRef<'static> as MyDeserialize<'static>>⟧.form context).reads bytes ≡ (server_error.form context).reads bytes }
    ensures state { (bytes : List ℕ) → (⟦<crate::sql_state_ref::SqlStateRef<'static> as MyDeserialize<'static>>⟧.form tt).reads bytes ≡ (sql_state.form tt).reads bytes }
    ensures report { (bytes : List ℕ) → (⟦<crate::progress_report::ProgressReportRef<'static> as MyDeserialize<'static>>⟧.form tt).reads bytes ≡ (progress_report.form tt).reads bytes }
{}

/// Borrowed errors instead of the greeting are read like owned ones.
pub fn borrowed_greeting_errors_read_greeting_errors()
    ensures read { (bytes : List ℕ) → (⟦<crate::greeting_error::GreetingErrorRef<'static> as MyDeserialize<'static>>⟧.form tt).reads bytes ≡ (greeting_error.form tt).reads bytes }
{}

/// Borrowed errors and progress reports compare like owned ones.
pub fn borrowed_errors_compare_like_errors()
    ensures packet { (x y : ErrPacket) → ⟦<crate::err_packet::ErrPacketRef<'static> as PartialEq>⟧.eq x y ≡ ⟦<crate::err_packet::ErrPacket<'static> as PartialEq>⟧.eq x y }
    ensures error { (x y : ServerError) → ⟦<crate::server_error::ServerErrorRef<'static> as PartialEq>⟧.eq x y ≡ ⟦<crate::server_error::ServerError<'static> as PartialEq>⟧.eq x y }
    ensures report { (x y : ProgressReport) → ⟦<crate::progress_report::ProgressReportRef<'static> as PartialEq>⟧.eq x y ≡ ⟦<crate::progress_report::ProgressReport<'static> as PartialEq>⟧.eq x y }
    ensures greeting { (x y : GreetingError) → ⟦<crate::greeting_error::GreetingErrorRef<'static> as PartialEq>⟧.eq x y ≡ ⟦<crate::greeting_error::GreetingError<'static> as PartialEq>⟧.eq x y }
{}

/// A clone of a borrowed error or progress report is the same, and is made without memory.
pub fn clones_of_borrowed_errors_are_the_same()
    ensures packet { (x y : ErrPacket) → ⟦<crate::err_packet::ErrPacketRef<'static> as Clone>⟧.is_clone x y → y ≡ x }
    ensures error { (x y : ServerError) → ⟦<crate::server_error::ServerErrorRef<'static> as Clone>⟧.is_clone x y → y ≡ x }
    ensures report { (x y : ProgressReport) → ⟦<crate::progress_report::ProgressReportRef<'static> as Clone>⟧.is_clone x y → y ≡ x }
    ensures greeting { (x y : GreetingError) → ⟦<crate::greeting_error::GreetingErrorRef<'static> as Clone>⟧.is_clone x y → y ≡ x }
    ensures packet_infallible { (x : ErrPacket) → ⟦<crate::err_packet::ErrPacketRef<'static> as Clone>⟧.is_infallible x }
    ensures error_infallible { (x : ServerError) → ⟦<crate::server_error::ServerErrorRef<'static> as Clone>⟧.is_infallible x }
    ensures report_infallible { (x : ProgressReport) → ⟦<crate::progress_report::ProgressReportRef<'static> as Clone>⟧.is_infallible x }
    ensures greeting_infallible { (x : GreetingError) → ⟦<crate::greeting_error::GreetingErrorRef<'static> as Clone>⟧.is_infallible x }
{}

/// Borrowed requests for a local file are read like owned ones.
pub fn borrowed_local_infiles_read_local_infiles()
    ensures read { (bytes : List ℕ) → (⟦<crate::local_infile_ref::LocalInfilePacketRef<'static> as MyDeserialize<'static>>⟧.form tt).reads bytes ≡ (local_infile.form tt).reads bytes }
{}

/// Borrowed OK packets of any kind are read like owned ones.
pub fn borrowed_ok_packets_read_ok_packets<T: OkPacketRefKind>()
    ensures read { (capabilities : CapabilityFlags) (bytes : List ℕ) → (⟦<crate::ok_packet_ref::OkPacketRefDeserializer<'static, T> as MyDeserialize<'static>>⟧.form capabilities).reads bytes ≡ (ok_packet T.HEADER (T.body capabilities)).reads bytes }
{}

/// Borrowed entries of a state string are read like owned ones.
pub fn borrowed_session_state_infos_read_session_state_infos()
    ensures read { (bytes : List ℕ) → (⟦<crate::session_state_info_ref::SessionStateInfoRef<'static> as MyDeserialize<'static>>⟧.form tt).reads bytes ≡ (session_state_info.form tt).reads bytes }
{}
