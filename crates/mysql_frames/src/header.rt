//! The header before each frame.

ghost use Rattle.std.specs.Prelude.{◌≡◌, ◌+◌, ◌≤◌, ◌<◌, ◌++◌, length, slice_index, vec_len, vec_capacity, IfSome, IsSome, ◌↔◌};
ghost use Rattle.mysql_frames.specs.FrameHeader.{length_in};
ghost use Rattle.mysql_frames.specs.Frames as spec;

/// The maximum number of payload bytes in one frame.
pub const MAX_FRAME_LEN: usize = 0xff_ffff;

/// The length of a header in bytes.
pub(crate) const HEADER_LEN: usize = 4;

/// Returns the length in a header.
#[inline(always)]
pub(crate) fn length_in(head: &[u8]) -> usize
    requires { 3 ≤ length head.now }
    ensures value { result ≡ length_in head.now }
    ensures most { result ≤ 0xffffff }
    ensures header { length head.now ≡ 4 → head.now ≡ spec.header result (slice_index head.now 3) }
{
    head[0] as usize + 256 * (head[1] as usize) + 65536 * (head[2] as usize)
}

/// Returns the sequence number of the frame at the front of the bytes, once its header is complete.
///
/// A capture that starts in the middle of a connection starts with this number.
///
/// ```
/// Some(sequence_id_at(bytes)?.wrapping_add(1))
/// ```
#[inline]
pub fn sequence_id_at(bytes: &[u8]) -> Option<u8>
    ensures value { IfSome result (λ number. number ≡ slice_index bytes.now 3) }
    ensures there { IsSome result ↔ (4 ≤ length bytes.now) }
{
    bytes.get(HEADER_LEN - 1).copied()
}

/// Appends the header of a frame of a given number of bytes, for which there is capacity.
#[inline(always)]
pub(crate) fn push_header(out: &mut Vec<u8>, len: usize, number: u8)
    requires len { len ≤ 0xffffff }
    requires capacity { vec_len out.old + 4 ≤ vec_capacity out.old }
    ensures items { out.new.items ≡ out.old.items ++ spec.header len number }
    ensures capacity { vec_capacity out.old ≤ vec_capacity out.new }
{
    out.push_reserved((len % 256) as u8);
    out.push_reserved((len / 256 % 256) as u8);
    out.push_reserved((len / 65536) as u8);
    out.push_reserved(number);
}
