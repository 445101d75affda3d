//! A server: an OK packet is sent as it was read, and a row is read as it was written.

ghost use Rattle.std.specs.Prelude.{◌≡◌, ◌++◌, [], List, ℕ, IfOk, Ok, OnErr, length, map};
ghost use Rattle.std.specs.List.{All};
ghost use Rattle.std.specs.Option.{option_copied};
ghost use Rattle.mysql_packets.specs.OkBody.{common_ok_body};
ghost use Rattle.mysql_packets.specs.OkPacket.{ok_packet};
ghost use Rattle.mysql_packets.specs.OkPacketSent.{deserializer_of};
ghost use Rattle.mysql_packets.specs.RowView.{text_row_of};
ghost use Rattle.mysql_packets.specs.TextRow.{TextCellFits, text_contents};
ghost use Rattle.mysql_packets.specs.declared.packets.CommonOkPacket.{CommonOkPacket};
ghost use Rattle.mysql_packets.specs.declared.packets.OkPacket.{OkPacket};

use mysql_packets::constants::CapabilityFlags;
use mysql_packets::io::{FaultOf, ParseBuf};
use mysql_packets::laws::replies::values::this_ok_packet_round_trips;
use mysql_packets::laws::stmt::text_row_round_trips;
use mysql_packets::packets::{CommonOkPacket, OkPacketDeserializer, OkPacketSerializer};
use mysql_packets::proto::MySerialize;
use mysql_packets::row::write_text_row;
use std::alloc::{AllocError, Global};

/// Reads an OK packet, and sends it: what is sent is read back as the packet that was read.
///
/// If the payload isn't an OK packet, or the allocation fails, nothing is sent.
pub fn resend<'s>(
    alloc: Global,
    capabilities: CapabilityFlags,
    payload: &[u8],
    out: &mut Vec<u8>,
) -> Result<(), FaultOf<'s>>
    ensures same { IfOk result (λ _. (sent : List ℕ) × (rest : List ℕ) × (p : OkPacket)
        × (ok_packet {T = CommonOkPacket} 0 (common_ok_body capabilities)).Spells (deserializer_of p) payload.now rest
        × (out.new.items ≡ out.old.items ++ sent)
        × (ok_packet {T = CommonOkPacket} 0 (common_ok_body capabilities)).Spells (deserializer_of p) sent []) }
    ensures nothing { OnErr result (out.new.items ≡ out.old.items) }
{
    let mut buf = ParseBuf::new(alloc, payload);
    let packet: OkPacketDeserializer<'_, CommonOkPacket> = buf.parse(capabilities)?;
    let packet = packet.into_inner();
    this_ok_packet_round_trips(&packet);
    let sent = OkPacketSerializer::<CommonOkPacket>::new(&packet, capabilities);
    sent.serialize(out).map_err(|_| FaultOf::Memory)
}

/// Appends a row of text. A client reads these cells of it, whatever follows.
pub fn send_row(cells: &[Option<&[u8]>], out: &mut Vec<u8>) -> Result<(), AllocError>
    requires fit { All TextCellFits (map option_copied cells.now) }
    ensures read { IfOk result (λ _. (sent : List ℕ) × (out.new.items ≡ out.old.items ++ sent)
        × ((rest : List ℕ) → (text_row_of (length (map option_copied cells.now))).reads (sent ++ rest) ≡ Ok (text_contents (map option_copied cells.now), rest))) }
    ensures nothing { OnErr result (out.new.items ≡ out.old.items) }
{
    text_row_round_trips();
    write_text_row(cells, out)
}
