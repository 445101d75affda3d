//! Payloads out of streams, and into them; and which packets they are.

use crate::packets::Packets;
use crate::row_views::text;
use mysql_conversation::{Conversation, InitialPhase, PacketKind, Side, UnexpectedPacket};
use mysql_frames::{FrameError, FrameReader, write_frames};
use mysql_replies::SessionCapabilities;
use mysql_wire::{CapabilityFlags, Fault, Flags, MariadbCapabilities};
use std::alloc::Global;

/// The longest payload that is joined.
pub(crate) const LIMIT: usize = 1 << 30;

/// How many bytes come at a time: what a TCP segment carries over Ethernet.
const SEGMENT: usize = 1460;

/// What a payload adds to the sum: its length and its first byte.
#[inline(always)]
fn seen(payload: &[u8]) -> u64 {
    match payload.first() {
        Some(first) => (payload.len() as u64).wrapping_add(u64::from(*first)),
        None => 0,
    }
}

/// A sum over the payloads that a piece ends.
fn payloads_of(reader: &mut FrameReader, piece: &[u8]) -> Result<u64, FrameError> {
    let mut input = piece;
    let mut left = piece.len();
    let mut sum = 0u64;
    'payloads: while left > 0 {
        left -= 1;
        match reader.read(&mut input)? {
            Some(payload) => {
                sum = sum.wrapping_add(seen(payload.as_slice()));
                reader.recycle(payload);
            }
            None => return Ok(sum),
        }
    }
    Ok(sum)
}

/// The payloads of a batch alone, and a sum over them.
#[unsafe(no_mangle)]
pub extern "C" fn bench_packets_passed(_alloc: Global, batch: &[u8]) -> u64 {
    let mut sum = 0u64;
    for packet in Packets::new(batch) {
        sum = sum.wrapping_add(seen(packet));
    }
    sum
}

/// Finds the payloads of a stream in one piece, and answers a sum over them.
#[unsafe(no_mangle)]
pub extern "C" fn bench_payloads_found(alloc: Global, batch: &[u8]) -> u64 {
    let mut reader = FrameReader::new(alloc, LIMIT);
    payloads_of(&mut reader, batch).unwrap_or(0)
}

/// Finds the payloads of a stream in pieces of a segment, and answers a sum over them.
#[unsafe(no_mangle)]
pub extern "C" fn bench_payloads_joined(alloc: Global, batch: &[u8]) -> u64 {
    let mut reader = FrameReader::new(alloc, LIMIT);
    let mut rest = batch;
    let mut sum = 0u64;
    'pieces: while !rest.is_empty() {
        let (piece, more) = rest.split_at(rest.len().min(SEGMENT));
        rest = more;
        match payloads_of(&mut reader, piece) {
            Ok(one) => sum = sum.wrapping_add(one),
            Err(_) => return 0,
        }
    }
    sum
}

/// Puts payloads into frames, and answers a sum over these.
#[unsafe(no_mangle)]
pub extern "C" fn bench_payloads_framed(alloc: Global, batch: &[u8]) -> u64 {
    let Ok(mut out) = Vec::with_capacity(alloc, 1024) else {
        return 0;
    };
    let mut number = 0u8;
    let mut sum = 0u64;
    for packet in Packets::new(batch) {
        out.clear();
        match write_frames(&mut out, number, packet) {
            Ok(after) => {
                number = after;
                sum = sum.wrapping_add(seen(&out));
            }
            Err(_) => return 0,
        }
    }
    sum
}

/// What keeps a stream from being read.
#[derive(Clone, Copy, Debug)]
pub(crate) enum Wrong {
    Frame,
    Packet,
    Value,
}

impl From<FrameError> for Wrong {
    fn from(_error: FrameError) -> Self {
        Wrong::Frame
    }
}

impl From<UnexpectedPacket> for Wrong {
    fn from(_error: UnexpectedPacket) -> Self {
        Wrong::Packet
    }
}

impl From<Fault> for Wrong {
    fn from(_error: Fault) -> Self {
        Wrong::Value
    }
}

/// A connection between two commands, of a client that speaks the protocol of 4.1 and a server that ends rows with EOF packets.
fn connection(alloc: Global) -> Conversation {
    let agreed = SessionCapabilities {
        mysql: CapabilityFlags::CLIENT_PROTOCOL_41,
        mariadb: MariadbCapabilities::from_bits_retain(0),
    };
    Conversation::new(alloc, agreed, InitialPhase::Commands)
}

/// The same after a query and what stands before the rows of its result: a count of columns of 1, a definition, an EOF packet.
fn before_rows(alloc: Global) -> Result<Conversation, UnexpectedPacket> {
    let mut conversation = connection(alloc);
    conversation.next(Side::Client, b"\x03SELECT a FROM t")?;
    conversation.next(Side::Server, b"\x01")?;
    conversation.next(
        Side::Server,
        b"\x03def\x00\x01t\x01t\x01a\x01a\x0c\x2d\x00\x14\x00\x00\x00\xfd\x00\x00\x00\x00\x00",
    )?;
    conversation.next(Side::Server, b"\xfe\x00\x00\x02\x00")?;
    Ok(conversation)
}

/// What a packet adds to the sum: a number of its kind.
#[inline(always)]
fn number_of(kind: PacketKind) -> u64 {
    match kind {
        PacketKind::Row(_) => 1,
        PacketKind::Command(code) => u64::from(code),
        PacketKind::Ok => 2,
        _ => 7,
    }
}

fn rows_distinguished(alloc: Global, batch: &[u8]) -> Result<u64, UnexpectedPacket> {
    let mut conversation = before_rows(alloc)?;
    let mut sum = 0u64;
    for packet in Packets::new(batch) {
        sum = sum.wrapping_add(number_of(conversation.next(Side::Server, packet)?));
    }
    Ok(sum)
}

/// Distinguishes the rows of a result from what could stand in their places, and answers a sum over their kinds.
#[unsafe(no_mangle)]
pub extern "C" fn bench_rows_distinguished(alloc: Global, batch: &[u8]) -> u64 {
    rows_distinguished(alloc, batch).unwrap_or(0)
}

fn exchanges_followed(alloc: Global, batch: &[u8]) -> Result<u64, UnexpectedPacket> {
    let mut conversation = connection(alloc);
    let mut side = Side::Client;
    let mut sum = 0u64;
    for packet in Packets::new(batch) {
        sum = sum.wrapping_add(number_of(conversation.next(side, packet)?));
        side = match side {
            Side::Client => Side::Server,
            Side::Server => Side::Client,
        };
    }
    Ok(sum)
}

/// Follows commands and their OK packets, and answers a sum over their kinds.
#[unsafe(no_mangle)]
pub extern "C" fn bench_exchanges_followed(alloc: Global, batch: &[u8]) -> u64 {
    exchanges_followed(alloc, batch).unwrap_or(0)
}

fn values_of(alloc: Global, batch: &[u8]) -> Result<u64, Wrong> {
    let mut conversation = before_rows(alloc)?;
    let mut reader = FrameReader::new(alloc, LIMIT);
    let mut input = batch;
    let mut left = batch.len();
    let mut sum = 0u64;
    'payloads: while left > 0 {
        left -= 1;
        match reader.read(&mut input)? {
            Some(payload) => {
                let payload = payload.as_slice();
                match conversation.next(Side::Server, payload)? {
                    PacketKind::Row(_) => sum = sum.wrapping_add(text(alloc, payload)?),
                    _ => return Ok(0),
                }
            }
            None => return Ok(sum),
        }
    }
    Ok(sum)
}

/// Reads a stream of text rows of ten columns down to their values, and answers a sum over these.
#[unsafe(no_mangle)]
pub extern "C" fn bench_text_rows_streamed(alloc: Global, batch: &[u8]) -> u64 {
    values_of(alloc, batch).unwrap_or(0)
}
