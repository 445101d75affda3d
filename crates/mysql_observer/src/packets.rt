//! Reads what packets say about statements.

ghost use Rattle.std.specs.Prelude.{◌≡◌, ◌&&◌, not, false};
ghost use Rattle.mysql_wire.specs.Reading.{Answers};
ghost use Rattle.mysql_conversation.specs.Conversation.{code_of as first_byte};
ghost use Rattle.mysql_conversation.specs.Pipelined.{is_command as is_command_packet};
ghost use Rattle.mysql_conversation.specs.Taken.{packet};
ghost use Rattle.mysql_statements.specs.Packets as packets;
ghost use Rattle.mysql_observer.specs.PacketContext as context;
ghost use Rattle.mysql_observer.specs.Tracked as spec;
ghost use Rattle.mysql_observer.specs.Records as records;

use mysql_conversation::{PacketKind, Side};
use mysql_replies::SessionCapabilities;
use mysql_wire::command_code::{COM_STMT_BULK_EXECUTE, COM_STMT_EXECUTE};
use mysql_wire::{FaultOf, LeU32, ParseBuf, RawInt};
use std::alloc::Global;

/// Reads the number of a statement after the first byte.
fn read_number<'s>(buf: &mut ParseBuf<'_>) -> Result<u32, FaultOf<'s>>
    ensures value { Answers false result buf.new (packets.numbered.reads buf.old) }
{
    let _code: RawInt<u8> = buf.parse(())?;
    let id: RawInt<LeU32> = buf.parse(())?;
    Ok(id.0)
}

/// Returns the statement's number after the first byte of a command, or `None` if its four bytes are incomplete.
#[tactic(auto, using(mysql_statements::proofs::Refused::faults), unfolding(mysql_statements::specs::Packets::number_at))]
pub(crate) fn number_at(alloc: Global, payload: &[u8]) -> Option<u32>
    ensures { result ≡ packets.number_at payload.now }
{
    let mut buf = ParseBuf::new(alloc, payload);
    let read: Result<u32, FaultOf> = read_number(&mut buf);
    match read {
        Ok(id) => Some(id),
        Err(_) => None,
    }
}

/// The first byte of a command; 0 for an empty packet, which a server treats as COM_SLEEP.
pub(crate) fn code_of(payload: &[u8]) -> u8
    ensures { result ≡ first_byte payload.now }
{
    match payload {
        [code, ..] => *code,
        [] => 0,
    }
}

/// Returns the bytes of a pipelined command that determine its effect on a statement: all bytes of an
/// execution, since its types may be anywhere, otherwise the bytes before the data of
/// `COM_STMT_SEND_LONG_DATA`.
pub(crate) fn front_of(payload: &[u8]) -> &[u8]
    ensures { result.now ≡ spec.front payload.now }
{
    let code = code_of(payload);
    if code == COM_STMT_EXECUTE || code == COM_STMT_BULK_EXECUTE {
        payload
    } else {
        &payload[..payload.len().min(7)]
    }
}

/// Whether a packet is an execution.
pub(crate) fn is_execution(kind: PacketKind) -> bool
    ensures { result ≡ spec.is_execution kind }
{
    match kind {
        PacketKind::Command(code) => code == COM_STMT_EXECUTE,
        _ => false,
    }
}

/// Whether a packet is a command.
#[inline(always)]
fn is_command(from: Side, kind: PacketKind, payload: &[u8]) -> bool
    ensures { result ≡ is_command_packet (packet from payload.now kind) }
{
    match from {
        Side::Client => matches!(kind, PacketKind::Command(_)),
        Side::Server => false,
    }
}

/// Whether a packet is a command while an earlier one isn't answered.
#[inline(always)]
pub(crate) fn is_early(is_between: bool, from: Side, kind: PacketKind, payload: &[u8]) -> bool
    ensures { result ≡ not is_between && is_command_packet (packet from payload.now kind) }
{
    !is_between && is_command(from, kind, payload)
}

/// Whether a packet has parameters, which are known if those of its statement are: it is an execution, after the login.
pub(crate) fn has_params(agreed: Option<SessionCapabilities>, kind: PacketKind) -> bool
    ensures { result ≡ records.has_params agreed kind }
{
    match agreed {
        Some(_) => is_execution(kind),
        None => false,
    }
}

/// Whether a packet is an event of a stream.
#[inline(always)]
pub(crate) fn is_event(kind: PacketKind) -> bool
    ensures { result ≡ context.is_event kind }
{
    matches!(kind, PacketKind::BinlogEvent)
}

/// Whether a packet, such as a row or an OK packet, says nothing about later packets.
#[inline(always)]
pub(crate) fn is_silent(kind: PacketKind) -> bool
    ensures { result ≡ spec.is_silent kind }
{
    match kind {
        PacketKind::Command(_)
        | PacketKind::PrepareOk(_, _, _)
        | PacketKind::Column
        | PacketKind::ColumnCount(_, _)
        | PacketKind::Error => false,
        _ => true,
    }
}

/// Whether there was memory for both.
#[inline(always)]
pub(crate) fn are_both(is_kept: bool, is_defined: bool) -> bool
    ensures { result ≡ is_kept && is_defined }
{
    is_kept && is_defined
}
