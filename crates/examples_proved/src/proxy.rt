//! A proxy: invalid packets are named, and the bytes of a packet are forwarded unchanged.

ghost use Rattle.std.specs.Prelude.{◌≡◌, ◌++◌, [], List, ℕ, false, IfOk, IfErr, OnErr, OnOk};
ghost use Rattle.mysql_packets.specs.CommandForm.{command};
ghost use Rattle.mysql_packets.specs.Reading.{Faults};
ghost use Rattle.mysql_packets.specs.Stmt.{stmt};

use mysql_packets::constants::CapabilityFlags;
use mysql_packets::io::{FaultOf, ParseBuf};
use mysql_packets::laws::commands::read_commands_are_written_as_they_were;
use mysql_packets::laws::these_are_bytes;
use mysql_packets::packets::{Command, StmtPacket};
use mysql_packets::proto::{MyDeserialize, MySerialize};
use std::alloc::Global;

/// Parses the answer to a preparation, or returns the first fault of the grammar.
pub fn statement<'s>(alloc: Global, payload: &[u8]) -> Result<StmtPacket, FaultOf<'s>>
    ensures packet { IfOk result (λ packet. (rest : List ℕ) × (stmt.form tt).Spells packet payload.now rest) }
    ensures fault { IfErr result (λ fault. Faults false fault ((stmt.form tt).reads payload.now)) }
{
    let mut buf = ParseBuf::new(alloc, payload);
    buf.parse(())
}

/// Appends a payload to the output, unchanged, if it begins with a packet of that type.
///
/// If it doesn't, or the allocation fails, nothing is appended.
pub fn forward<'a, 's, T: MyDeserialize<'a> + Drop>(
    alloc: Global,
    ctx: T::Ctx,
    payload: &'a [u8],
    out: &mut Vec<u8>,
) -> Result<(), FaultOf<'s>>
    ensures sent { IfOk result (λ done. (packet : T) × (rest : List ℕ) × (T.form ctx).Spells packet payload.now rest × (out.new.items ≡ out.old.items ++ payload.now)) }
    ensures nothing { OnErr result (out.new.items ≡ out.old.items) }
{
    let mut buf = ParseBuf::new(alloc, payload);
    let _packet: T = buf.parse(ctx)?;
    out.extend_from_slice(payload).map_err(|_| FaultOf::Memory)
}

/// Parses a command, and appends it to the output as the same bytes.
///
/// If the payload isn't a command, or bytes follow it, or the allocation fails, nothing is appended.
pub fn forward_command<'a, 's>(
    alloc: Global,
    capabilities: CapabilityFlags,
    payload: &'a [u8],
    out: &mut Vec<u8>,
) -> Result<Command<'a>, FaultOf<'s>>
    ensures command { IfOk result (λ read. (command capabilities).Spells read payload.now []) }
    ensures sent { OnOk result (out.new.items ≡ out.old.items ++ payload.now) }
    ensures nothing { OnErr result (out.new.items ≡ out.old.items) }
{
    let mut buf = ParseBuf::new(alloc, payload);
    let read: Command<'a> = buf.parse(capabilities)?;
    if !buf.is_empty() {
        return Err(FaultOf::InvalidData("Bytes after the command"));
    }
    these_are_bytes(payload);
    read_commands_are_written_as_they_were();
    read.serialize(out).map_err(|_| FaultOf::Memory)?;
    Ok(read)
}
