//! Packet headers.
#![tactic(auto)]

ghost use Rattle.std.specs.Prelude.{◌≡◌, ◌<◌, ◌≤◌, length, take};
ghost use Rattle.mysql_frames.specs.Frames.{header};
ghost use Rattle.mysql_packets_c.specs.Output.{Puts};

use crate::code::{INVALID_INPUT, OK, UNEXPECTED_EOF};
use crate::output::put_packet;

/// The maximum length of a payload in one frame; a longer one continues in the next frame.
const MAX_PAYLOAD_LEN: u32 = 0xff_ffff;

/// The length of a header in bytes.
const HEADER_LEN: usize = 4;

/// `myp_header` of the C header.
#[repr(C)]
#[derive(Drop)]
pub struct CHeader {
    pub payload_length: u32,
    pub sequence_id: u8,
}

/// Returns the payload's length and the sequence number in a header.
#[inline(always)]
fn numbers_in(head: &[u8]) -> (u32, u8)
    requires { length head.now ≡ 4 }
    ensures { head.now ≡ header result.0 result.1 }
{
    let payload_length = head[0] as u32 + 256 * (head[1] as u32) + 65536 * (head[2] as u32);
    (payload_length, head[3])
}

/// Reads the four bytes before a payload. If there are fewer (1), the struct is unchanged.
#[unsafe(no_mangle)]
pub extern "C" fn myp_read_header(bytes: &[u8], out: &mut CHeader) -> u32
    ensures short { length bytes.now < 4 → (result ≡ 1) × (out.new ≡ out.old) }
    ensures value { 4 ≤ length bytes.now → (result ≡ 0) × (take 4 bytes.now ≡ header out.new.payload_length out.new.sequence_id) }
{
    if bytes.len() < HEADER_LEN {
        return UNEXPECTED_EOF;
    }
    let (payload_length, sequence_id) = numbers_in(&bytes[..HEADER_LEN]);
    out.payload_length = payload_length;
    out.sequence_id = sequence_id;
    OK
}

/// Writes the four bytes before a payload. For a length above 16,777,215 (3) the buffer is unchanged.
#[unsafe(no_mangle)]
pub extern "C" fn myp_write_header(
    payload_length: u32,
    sequence_id: u8,
    out: &mut [u8],
    written: &mut usize,
) -> u32
    ensures long { 0xffffff < payload_length → (result ≡ 3) × (out.new ≡ out.old) × (written.new ≡ 0) }
    ensures value { payload_length ≤ 0xffffff → Puts (header payload_length sequence_id) result out.old out.new written.new }
{
    if payload_length > MAX_PAYLOAD_LEN {
        *written = 0;
        return INVALID_INPUT;
    }
    let head = [
        (payload_length % 256) as u8,
        (payload_length / 256 % 256) as u8,
        (payload_length / 65536) as u8,
        sequence_id,
    ];
    put_packet(&head, out, written)
}
