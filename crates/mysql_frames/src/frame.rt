//! Frames, one by one.

ghost use Rattle.std.specs.Prelude.{◌≡◌, ◌+◌, ◌<◌, ◌↔◌, IfSome, IfNone, IsTrue, List, ℕ, length};
ghost use Rattle.mysql_frames.specs.Frames.{IsFrame, most};
ghost use Rattle.mysql_frames.specs.Places.{at};

use crate::header::{HEADER_LEN, MAX_FRAME_LEN, length_in};

/// A frame that borrows its content.
///
/// ```
/// let (frame, _rest) = next_frame(bytes)?;
/// Some(frame.content)
/// ```
#[derive(Clone, Copy, Debug, PartialEq, Eq)]
pub struct Frame<'a> {
    /// The sequence number of the frame.
    pub sequence_id: u8,
    /// The part of the payload that the frame carries.
    pub content: &'a [u8],
}

impl<'a> Frame<'a> {
    /// Whether the payload ends with this frame: a full frame is followed by another, which may be empty.
    #[inline]
    pub fn is_last(&self) -> bool
        ensures value { IsTrue result ↔ (length self.now.content.now < most) }
    {
        self.content.len() < MAX_FRAME_LEN
    }
}

/// Returns the frame at the front of the bytes and the bytes after it, or `None` if it is incomplete.
///
/// It does not allocate. A payload is the contents of its frames up to the last one; [`FrameReader`](crate::FrameReader) joins them.
///
/// ```
/// let (frame, _rest) = next_frame(bytes)?;
/// Some(frame.content)
/// ```
#[inline]
pub fn next_frame(bytes: &[u8]) -> Option<(Frame<'_>, &[u8])>
    ensures there { IfSome result (λ x. IsFrame x.0.sequence_id x.0.content.now bytes.now x.1.now) }
    ensures none { IfNone result ((number : ℕ) (content rest : List ℕ) → IsFrame number content bytes.now rest → ⊥) }
    // Both are parts of the bytes themselves.
    ensures content { IfSome result (λ x. x.0.content.ref_ptr ≡ at 4 bytes.entry.ref_ptr) }
    ensures rest { IfSome result (λ x. x.1.ref_ptr ≡ at (4 + length x.0.content.now) bytes.entry.ref_ptr) }
{
    if bytes.len() < HEADER_LEN {
        return None;
    }
    let (head, after) = (&bytes[..HEADER_LEN], &bytes[HEADER_LEN..]);
    let len = length_in(head);
    if after.len() < len {
        return None;
    }
    let frame = Frame {
        sequence_id: head[3],
        content: &after[..len],
    };
    Some((frame, &after[len..]))
}
