//! OK packets, by their kinds.
#![tactic(auto, using(crate::proofs::Codes::codes))]

ghost use Rattle.std.specs.Prelude.{◌≡◌, ◌<◌, ◌≢◌, true, false};
ghost use Rattle.mysql_replies.specs.OkPacketSent.{common_bytes, eof_bytes, terminator_bytes};
ghost use Rattle.mysql_packets_c.specs.Code.{ReadsInto};
ghost use Rattle.mysql_packets_c.specs.OkPacket.{HoldsOk, IsOk, common_ok, loses_state, old_eof, stream_end, terminator, ok_of};
ghost use Rattle.mysql_packets_c.specs.Output.{PutsUnlessTooLong};

use crate::code::{INVALID_INPUT, OK, code_of};
use crate::flags::{capabilities_of, status_of};
use crate::input::read;
use crate::output::put_packet;
use bitflags::Flags;
use mysql_replies::{
    CommonOkPacket, NetworkStreamTerminator, OkPacket, OkPacketLayout, OkPacketRef,
    OkPacketRefDeserializer, OkPacketSerializer, OldEofPacket, ResultSetTerminator,
};
use mysql_wire::{CapabilityFlags, StatusFlags};
use std::alloc::Global;
use std::borrow::CowSlice;

/// `myp_ok` of the C header.
#[repr(C)]
#[derive(Drop)]
pub struct COk<'a> {
    pub affected_rows: u64,
    pub last_insert_id: u64,
    pub info: &'a [u8],
    pub session_state: &'a [u8],
    pub used: usize,
    pub status_flags: u16,
    pub warnings: u16,
}

/// Stores the fields of a packet in the caller's struct.
#[inline(always)]
fn put_ok<'a>(packet: &OkPacketRef<'a>, used: usize, out: &mut COk<'a>)
    ensures value { HoldsOk packet.now used out.new }
{
    out.affected_rows = packet.affected_rows();
    out.last_insert_id = match packet.last_insert_id() {
        Some(id) => id,
        None => 0,
    };
    out.status_flags = packet.status_flags().0;
    out.warnings = packet.warnings();
    out.info = match packet.info() {
        Some(info) => info,
        None => &[],
    };
    out.session_state = match packet.session_state_info_ref() {
        Some(state) => state,
        None => &[],
    };
    out.used = used;
}

/// Reads the OK packet that doesn't end a result.
fn read_common<'a>(
    alloc: Global,
    packet: &'a [u8],
    capabilities: CapabilityFlags,
    out: &mut COk<'a>,
) -> u32
    ensures value { ReadsInto (IsOk packet.now) ((common_ok capabilities).reads packet.now) result out.old out.new }
{
    match read::<OkPacketRefDeserializer<'a, CommonOkPacket>>(alloc, packet, capabilities) {
        Ok((found, used)) => {
            let ok = found.into_inner();
            put_ok(&ok, used, out);
            OK
        }
        Err(fault) => code_of(&fault),
    }
}

/// Reads the OK packet that ends a result instead of an EOF packet.
fn read_terminator<'a>(
    alloc: Global,
    packet: &'a [u8],
    capabilities: CapabilityFlags,
    out: &mut COk<'a>,
) -> u32
    ensures value { ReadsInto (IsOk packet.now) ((terminator capabilities).reads packet.now) result out.old out.new }
{
    match read::<OkPacketRefDeserializer<'a, ResultSetTerminator>>(alloc, packet, capabilities) {
        Ok((found, used)) => {
            let ok = found.into_inner();
            put_ok(&ok, used, out);
            OK
        }
        Err(fault) => code_of(&fault),
    }
}

/// Reads the EOF packet that ends a result.
fn read_old_eof<'a>(
    alloc: Global,
    packet: &'a [u8],
    capabilities: CapabilityFlags,
    out: &mut COk<'a>,
) -> u32
    ensures value { ReadsInto (IsOk packet.now) ((old_eof capabilities).reads packet.now) result out.old out.new }
{
    match read::<OkPacketRefDeserializer<'a, OldEofPacket>>(alloc, packet, capabilities) {
        Ok((found, used)) => {
            let ok = found.into_inner();
            put_ok(&ok, used, out);
            OK
        }
        Err(fault) => code_of(&fault),
    }
}

/// Reads the EOF packet that ends a replication stream.
fn read_stream_end<'a>(
    alloc: Global,
    packet: &'a [u8],
    capabilities: CapabilityFlags,
    out: &mut COk<'a>,
) -> u32
    ensures value { ReadsInto (IsOk packet.now) ((stream_end capabilities).reads packet.now) result out.old out.new }
{
    match read::<OkPacketRefDeserializer<'a, NetworkStreamTerminator>>(
        alloc,
        packet,
        capabilities,
    ) {
        Ok((found, used)) => {
            let ok = found.into_inner();
            put_ok(&ok, used, out);
            OK
        }
        Err(fault) => code_of(&fault),
    }
}

/// Reads `OK_Packet` or `EOF_Packet` of a kind. After an error (1 or 2, or 3 for an unknown kind) the struct is
/// unchanged.
///
/// The kinds are 0, the end of a statement; 1, the OK packet that ends a result instead of an EOF packet; 2,
/// that EOF packet; and 3, the end of a replication stream.
#[unsafe(no_mangle)]
pub extern "C" fn myp_read_ok<'a>(
    alloc: Global,
    packet: &'a [u8],
    kind: u32,
    capabilities: u32,
    out: &mut COk<'a>,
) -> u32
    ensures unknown { 3 < kind → (result ≡ 3) × (out.new ≡ out.old) }
    ensures common { kind ≡ 0 → ReadsInto (IsOk packet.now) ((common_ok (record { 0 = capabilities; 1 = record {} })).reads packet.now) result out.old out.new }
    ensures terminator { kind ≡ 1 → ReadsInto (IsOk packet.now) ((terminator (record { 0 = capabilities; 1 = record {} })).reads packet.now) result out.old out.new }
    ensures old_eof { kind ≡ 2 → ReadsInto (IsOk packet.now) ((old_eof (record { 0 = capabilities; 1 = record {} })).reads packet.now) result out.old out.new }
    ensures stream_end { kind ≡ 3 → ReadsInto (IsOk packet.now) ((stream_end (record { 0 = capabilities; 1 = record {} })).reads packet.now) result out.old out.new }
{
    let capabilities = CapabilityFlags::from_bits_retain(capabilities);
    match kind {
        0 => read_common(alloc, packet, capabilities, out),
        1 => read_terminator(alloc, packet, capabilities, out),
        2 => read_old_eof(alloc, packet, capabilities, out),
        3 => read_stream_end(alloc, packet, capabilities, out),
        _ => INVALID_INPUT,
    }
}

/// Returns the packet of the caller's fields.
fn packet_of<'a>(fields: &COk<'a>) -> OkPacket<'a>
    ensures value { result ≡ ok_of fields.now }
{
    let status = status_of(fields.status_flags);
    OkPacket::new(
        fields.affected_rows,
        fields.last_insert_id,
        status,
        fields.warnings,
    )
    .with_info(CowSlice::Borrowed(fields.info))
    .with_session_state_info(CowSlice::Borrowed(fields.session_state))
}

/// Writes a packet of the kind `T`.
fn write_kind<T: OkPacketLayout>(
    fields: &COk<'_>,
    capabilities: CapabilityFlags,
    out: &mut [u8],
    written: &mut usize,
) -> u32
    ensures { PutsUnlessTooLong (T.bytes T.HEADER capabilities (ok_of fields.now)) result out.old out.new written.new }
{
    let packet = packet_of(fields);
    let sent = OkPacketSerializer::<T>::new(&packet, capabilities);
    put_packet(&sent, out, written)
}

/// Whether session changes are given and would be written, but the status doesn't have their flag.
fn loses_state(packet: &COk<'_>, kind: u32, capabilities: CapabilityFlags) -> bool
    ensures { result ≡ loses_state kind capabilities.0 packet.now }
{
    kind < 2
        && capabilities.contains(CapabilityFlags::CLIENT_SESSION_TRACK)
        && !status_of(packet.status_flags).contains(StatusFlags::SERVER_SESSION_STATE_CHANGED)
        && 0 < packet.session_state.len()
}

/// Writes `OK_Packet` or `EOF_Packet` of a kind. Errors: 5 if the buffer is too small, with the length needed;
/// 4 if the length overflows; 3 for an unknown kind, or session changes without their status flag.
///
/// Fields that the kind or the flags don't have aren't written. An empty info and an empty state are absent.
#[unsafe(no_mangle)]
pub extern "C" fn myp_write_ok(
    packet: &COk<'_>,
    kind: u32,
    capabilities: u32,
    out: &mut [u8],
    written: &mut usize,
) -> u32
    ensures unknown { 3 < kind → (result ≡ 3) × (out.new ≡ out.old) × (written.new ≡ 0) }
    ensures loses { loses_state kind capabilities packet.now ≡ true → (result ≡ 3) × (out.new ≡ out.old) × (written.new ≡ 0) }
    ensures common { kind ≡ 0 → loses_state kind capabilities packet.now ≡ false → PutsUnlessTooLong (common_bytes (record { 0 = capabilities; 1 = record {} }) (ok_of packet.now)) result out.old out.new written.new }
    ensures terminator { kind ≡ 1 → loses_state kind capabilities packet.now ≡ false → PutsUnlessTooLong (terminator_bytes (record { 0 = capabilities; 1 = record {} }) (ok_of packet.now)) result out.old out.new written.new }
    ensures old_eof { kind ≡ 2 → PutsUnlessTooLong (eof_bytes (ok_of packet.now)) result out.old out.new written.new }
    ensures stream_end { kind ≡ 3 → PutsUnlessTooLong (eof_bytes (ok_of packet.now)) result out.old out.new written.new }
{
    let capabilities = capabilities_of(capabilities);
    if loses_state(packet, kind, capabilities) {
        *written = 0;
        return INVALID_INPUT;
    }
    match kind {
        0 => write_kind::<CommonOkPacket>(packet, capabilities, out, written),
        1 => write_kind::<ResultSetTerminator>(packet, capabilities, out, written),
        2 => write_kind::<OldEofPacket>(packet, capabilities, out, written),
        3 => write_kind::<NetworkStreamTerminator>(packet, capabilities, out, written),
        _ => {
            *written = 0;
            INVALID_INPUT
        }
    }
}
