//! Payloads into frames.

ghost use Rattle.std.specs.Prelude.{◌≡◌, ◌+◌, ◌*◌, ◌/◌, ◌<◌, ◌≤◌, ◌++◌, length, IfOk, IsOk, OnErr, List, ℕ, vec_len, vec_capacity};
ghost use Rattle.mysql_frames.specs.Frames as spec;
ghost use Rattle.mysql_frames.specs.Frames.{AppendsFrames};

use crate::header::{HEADER_LEN, MAX_FRAME_LEN, push_header};
use mysql_wire::MySerialize;
use std::alloc::AllocError;
use std::mem;

/// Appends a frame, for which there is capacity.
///
/// While the buffer is a variable of its own, the compiler merges the four bytes into one store. The capacity
/// for the part is tested here once more: the compiler then omits the buffer's growth.
#[inline(always)]
fn push_frame(out: &mut Vec<u8>, number: u8, part: &[u8])
    requires length { length part.now ≤ 0xffffff }
    requires capacity { vec_len out.old + 4 + length part.now ≤ vec_capacity out.old }
    ensures items { out.new.items ≡ out.old.items ++ (spec.header (length part.now) number ++ part.now) }
    ensures len { vec_len out.new ≡ vec_len out.old + 4 + length part.now }
    ensures capacity { vec_capacity out.old ≤ vec_capacity out.new }
{
    let empty = Vec::new(*out.allocator());
    let mut taken = mem::replace(out, empty);
    push_header(&mut taken, part.len(), number);
    if part.len() <= taken.capacity() - taken.len() {
        taken.extend_from_slice(part).unwrap();
    }
    *out = taken;
}

/// Writes a payload of any length in frames, as [`write_frames`] does.
#[inline(never)]
fn write_long(out: &mut Vec<u8>, number: u8, payload: &[u8]) -> Result<u8, AllocError>
    ensures framed { IfOk result (λ after. AppendsFrames number payload.now after out.old.items out.new.items) }
    ensures err { OnErr result (out.new.items ≡ out.old.items) }
    ensures err_capacity { OnErr result (vec_capacity out.new ≡ vec_capacity out.old) }
    ensures capacity { vec_capacity out.old ≤ vec_capacity out.new }
    ensures no_memory { vec_len out.old + length payload.now + 4 * (length payload.now / 0xffffff + 1) ≤ vec_capacity out.old → IsOk result }
{
    out.reserve(payload.len() + HEADER_LEN * (payload.len() / MAX_FRAME_LEN + 1))?;
    let mut number = number;
    let mut left = payload;
    while left.len() >= MAX_FRAME_LEN {
        let (part, more) = left.split_at(MAX_FRAME_LEN);
        push_frame(out, number, part);
        number = number.wrapping_add(1);
        left = more;
    }
    push_frame(out, number, left);
    Ok(number.wrapping_add(1))
}

/// Appends a payload in frames, starting with this sequence number, and returns the number after the last one.
///
/// The buffer grows at most once and never shrinks. On an error it is unchanged, including its capacity; an error occurs only
/// if the capacity is too small.
///
/// ```
/// Ok(write_frames(out, number, payload)?)
/// ```
#[inline]
pub fn write_frames(out: &mut Vec<u8>, number: u8, payload: &[u8]) -> Result<u8, AllocError>
    ensures framed { IfOk result (λ after. AppendsFrames number payload.now after out.old.items out.new.items) }
    ensures err { OnErr result (out.new.items ≡ out.old.items) }
    ensures err_capacity { OnErr result (vec_capacity out.new ≡ vec_capacity out.old) }
    ensures capacity { vec_capacity out.old ≤ vec_capacity out.new }
    ensures no_memory { vec_len out.old + length payload.now + 4 * (length payload.now / 0xffffff + 1) ≤ vec_capacity out.old → IsOk result }
{
    // One frame, for which there is capacity.
    if payload.len() < MAX_FRAME_LEN && payload.len() + HEADER_LEN <= out.capacity() - out.len() {
        push_frame(out, number, payload);
        return Ok(number.wrapping_add(1));
    }
    write_long(out, number, payload)
}

/// Writes a packet that needs several frames, like [`write_packet`]: it is serialized separately first.
#[inline(never)]
fn write_long_packet<P: MySerialize>(
    out: &mut Vec<u8>,
    number: u8,
    packet: &P,
) -> Result<u8, AllocError>
    ensures framed { IfOk result (λ after. AppendsFrames number (P.bytes packet.now) after out.old.items out.new.items) }
    ensures err { OnErr result ((out.new.items ≡ out.old.items) × (vec_capacity out.new ≡ vec_capacity out.old)) }
    ensures capacity { vec_capacity out.old ≤ vec_capacity out.new }
{
    let mut payload = Vec::new(*out.allocator());
    packet.serialize(&mut payload)?;
    write_long(out, number, payload.as_slice())
}

/// Appends a packet in frames, starting with this sequence number, and returns the number after the last one.
///
/// A packet that fits in one frame is written in place, without a copy. The buffer grows at most once and never shrinks. On an
/// error it is unchanged, including its capacity; for a packet of one frame, an error occurs only if the capacity is too small.
///
/// ```
/// Ok(write_packet(out, number, packet)?)
/// ```
#[inline]
#[tactic(auto, unfolding(mysql_wire::specs::Writing::saturated))]
pub fn write_packet<P: MySerialize>(
    out: &mut Vec<u8>,
    number: u8,
    packet: &P,
) -> Result<u8, AllocError>
    ensures framed { IfOk result (λ after. AppendsFrames number (P.bytes packet.now) after out.old.items out.new.items) }
    ensures err { OnErr result (out.new.items ≡ out.old.items) }
    ensures err_capacity { OnErr result (vec_capacity out.new ≡ vec_capacity out.old) }
    ensures capacity { vec_capacity out.old ≤ vec_capacity out.new }
    ensures no_memory { length (P.bytes packet.now) < 0xffffff → vec_len out.old + 4 + length (P.bytes packet.now) ≤ vec_capacity out.old → IsOk result }
{
    let len = packet.defined_len();
    if len >= MAX_FRAME_LEN {
        return write_long_packet(out, number, packet);
    }
    out.reserve(HEADER_LEN + len)?;
    push_header(out, len, number);
    packet.append(out);
    Ok(number.wrapping_add(1))
}
