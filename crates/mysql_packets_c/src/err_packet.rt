//! Errors and progress reports.
#![tactic(auto, using(crate::proofs::Codes::codes, crate::proofs::Answers::answers))]

ghost use Rattle.std.specs.Prelude.{◌≡◌, ◌≢◌, ◌<◌, ◌≤◌, length, None, Some};
ghost use Rattle.mysql_replies.specs.ErrPacket.{err_packet};
ghost use Rattle.mysql_replies.specs.SqlState.{state_of};
ghost use Rattle.mysql_packets_c.specs.Code.{ReadsInto};
ghost use Rattle.mysql_packets_c.specs.ErrPacket.{HoldsAnswer, HoldsError, HoldsReport, IsAnswer, error_given, report_given};
ghost use Rattle.mysql_packets_c.specs.Output.{Puts, PutsUnlessTooLong};

use crate::code::{INVALID_INPUT, OK, code_of};
use crate::input::read;
use crate::output::put_packet;
use bitflags::Flags;
use mysql_replies::{
    ErrPacket, ErrPacketRef, ProgressReport, ProgressReportRef, ServerError, ServerErrorRef,
    SqlState,
};
use mysql_wire::CapabilityFlags;
use std::alloc::Global;
use std::borrow::CowSlice;

/// `myp_error` of the C header.
#[repr(C)]
#[derive(Drop)]
pub struct CError<'a> {
    pub sql_state: &'a [u8],
    pub message: &'a [u8],
    pub used: usize,
    pub progress: u32,
    pub code: u16,
    pub is_progress: u8,
    pub stage: u8,
    pub max_stage: u8,
}

#[inline(always)]
fn put_error<'a>(error: &ServerErrorRef<'a>, used: usize, out: &mut CError<'a>)
    ensures value { HoldsError error.now used out.new }
{
    out.is_progress = 0;
    out.code = error.error_code();
    out.sql_state = match error.sql_state() {
        Some(state) => state,
        None => &[],
    };
    out.message = error.message();
    out.stage = 0;
    out.max_stage = 0;
    out.progress = 0;
    out.used = used;
}

#[inline(always)]
fn put_report<'a>(report: &ProgressReportRef<'a>, used: usize, out: &mut CError<'a>)
    ensures value { HoldsReport report.now used out.new }
{
    out.is_progress = 1;
    out.code = 0xffff;
    out.sql_state = &[];
    out.message = report.stage_info();
    out.stage = report.stage();
    out.max_stage = report.max_stage();
    out.progress = report.progress();
    out.used = used;
}

#[inline(always)]
fn put_answer<'a>(answer: &ErrPacketRef<'a>, used: usize, out: &mut CError<'a>)
    ensures value { HoldsAnswer answer.now used out.new }
{
    if answer.is_error() {
        put_error(answer.server_error(), used, out);
    } else {
        put_report(answer.progress_report(), used, out);
    }
}

/// Reads `ERR_Packet`, or a progress report. After an error (1 or 2) the struct is unchanged.
#[unsafe(no_mangle)]
pub extern "C" fn myp_read_error<'a>(
    alloc: Global,
    packet: &'a [u8],
    capabilities: u32,
    out: &mut CError<'a>,
) -> u32
    ensures value { ReadsInto (IsAnswer packet.now) ((err_packet.form (record { 0 = capabilities; 1 = record {} })).reads packet.now) result out.old out.new }
{
    let capabilities = CapabilityFlags::from_bits_retain(capabilities);
    match read::<ErrPacketRef<'a>>(alloc, packet, capabilities) {
        Ok((answer, used)) => {
            put_answer(&answer, used, out);
            OK
        }
        Err(fault) => code_of(&fault),
    }
}

/// The maximum progress, in three bytes.
const MAX_PROGRESS: u32 = 0xff_ffff;

/// Writes `ERR_Packet`. Errors: 5 if the buffer is too small, with the length needed; 3 for an SQL state whose
/// length is neither 5 nor 0.
#[tactic(auto, using(crate::proofs::Codes::codes), unfolding(mysql_replies::specs::ErrPacket::err_packet, mysql_replies::specs::ServerError::server_error, mysql_replies::specs::SqlState::sql_state, mysql_wire::specs::Writing::le_bytes))]
#[unsafe(no_mangle)]
pub extern "C" fn myp_write_error(error: &CError<'_>, out: &mut [u8], written: &mut usize) -> u32
    ensures refused { length error.now.sql_state.now ≢ 0 → length error.now.sql_state.now ≢ 5 → (result ≡ 3) × (out.new ≡ out.old) × (written.new ≡ 0) }
    ensures no_state { length error.now.sql_state.now ≡ 0 → Puts (err_packet.bytes (error_given None error.now)) result out.old out.new written.new }
    ensures with_state { length error.now.sql_state.now ≡ 5 → Puts (err_packet.bytes (error_given (Some (state_of error.now.sql_state.now)) error.now)) result out.old out.new written.new }
{
    let state = match error.sql_state.len() {
        0 => None,
        5 => Some(SqlState::new(<[u8; 5]>::try_from(error.sql_state).unwrap())),
        _ => {
            *written = 0;
            return INVALID_INPUT;
        }
    };
    let error = ServerError::new(error.code, state, CowSlice::Borrowed(error.message));
    put_packet(&ErrPacket::Error(error), out, written)
}

/// Writes a progress report. Errors: 5 if the buffer is too small, with the length needed; 3 for a progress
/// above 16,777,215.
#[unsafe(no_mangle)]
pub extern "C" fn myp_write_progress(
    report: &CError<'_>,
    out: &mut [u8],
    written: &mut usize,
) -> u32
    ensures refused { 0xffffff < report.now.progress → (result ≡ 3) × (out.new ≡ out.old) × (written.new ≡ 0) }
    ensures value { report.now.progress ≤ 0xffffff → PutsUnlessTooLong (err_packet.bytes (report_given report.now)) result out.old out.new written.new }
{
    if report.progress > MAX_PROGRESS {
        *written = 0;
        return INVALID_INPUT;
    }
    let report = ProgressReport::new(
        report.stage,
        report.max_stage,
        report.progress,
        CowSlice::Borrowed(report.message),
    );
    put_packet(&ErrPacket::Progress(report), out, written)
}
