//! Writing to the caller's buffer.

ghost use Rattle.std.specs.Prelude.{◌≡◌, ◌≢◌, ◌<◌, ◌≤◌, ◌-◌, ◌^◌, length};
ghost use Rattle.mysql_packets_c.specs.Output.{Puts, PutsUnlessTooLong};

use crate::code::{BUFFER_TOO_SMALL, OK, TOO_LARGE};
use mysql_wire::{MySerialize, SliceWriter};

/// Writes bytes to the front of a buffer. If it is too small, it is unchanged, and `written` is the length needed.
pub(crate) fn put(bytes: &[u8], out: &mut [u8], written: &mut usize) -> u32
    ensures value { Puts bytes.now result out.old out.new written.new }
{
    let n = bytes.len();
    *written = n;
    if out.len() < n {
        return BUFFER_TOO_SMALL;
    }
    out[..n].copy_from_slice(bytes);
    OK
}

/// Writes a packet to the front of a buffer, without memory of its own.
///
/// The code is 4 if the length exceeds `usize`, since the total length of the caller's strings overflows.
#[inline(always)]
#[tactic(auto, unfolding(mysql_wire::specs::Writing::saturated))]
pub(crate) fn put_packet<P: MySerialize>(packet: &P, out: &mut [u8], written: &mut usize) -> u32
    ensures { PutsUnlessTooLong (P.bytes packet.now) result out.old out.new written.new }
{
    // (the bytes are counted once where they fit, and where their count is asked for)
    if out.is_empty() {
        return answer_count(packet.defined_len(), 0, written);
    }
    match packet.write_to_slice(out) {
        Some(len) => {
            *written = len;
            OK
        }
        None => answer_count(packet.defined_len(), out.len(), written),
    }
}

/// Stores the length of a packet, which is written if the buffer is at least that long. `usize::MAX` stands for
/// any greater length.
#[inline(always)]
pub(crate) fn answer_count(count: usize, capacity: usize, written: &mut usize) -> u32
    ensures fits { count < 2 ^ 64 - 1 → count ≤ capacity → result ≡ 0 }
    ensures small { count < 2 ^ 64 - 1 → capacity < count → result ≡ 5 }
    ensures count { count < 2 ^ 64 - 1 → written.new ≡ count }
    ensures too_long { count ≡ 2 ^ 64 - 1 → (result ≡ 4) × (written.new ≡ 0) }
{
    if count == usize::MAX {
        *written = 0;
        return TOO_LARGE;
    }
    *written = count;
    if count <= capacity {
        OK
    } else {
        BUFFER_TOO_SMALL
    }
}

/// Writes a part of a packet over a slice of its length.
#[inline(always)]
pub(crate) fn put_part<P: MySerialize>(part: &P, out: &mut [u8])
    requires { length out.old ≡ length (P.bytes part.now) }
    ensures { out.new ≡ P.bytes part.now }
{
    let mut writer = SliceWriter::new(out);
    part.append(&mut writer);
}
