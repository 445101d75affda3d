//! Frames, one after another.
#![tactic(auto)]

ghost use Rattle.std.specs.Prelude.{◌≡◌, ◌≢◌, ◌<◌, ◌↔◌, List, ℕ, length, ◌+◌};
ghost use Rattle.mysql_frames.specs.Places.{at};
ghost use Rattle.mysql_frames.specs.Frames.{IsFrame, most};

use crate::code::{END, OK};
use crate::text::CBytes;
use mysql_frames::next_frame;

/// `myp_frame` of the C header.
#[repr(C)]
#[derive(Drop)]
pub struct CFrame<'a> {
    pub content: &'a [u8],
    pub sequence_id: u8,
    pub is_last: u8,
}

/// Takes the next frame off the front. If it is incomplete (7), both outputs are unchanged.
#[unsafe(no_mangle)]
pub extern "C" fn myp_next_frame<'a>(rest: &mut CBytes<'a>, out: &mut CFrame<'a>) -> u32
    ensures frame { result ≡ 0 → IsFrame out.new.sequence_id out.new.content.now rest.old.bytes.now rest.new.bytes.now }
    ensures is_last { result ≡ 0 → (out.new.is_last ≡ 1) ↔ (length out.new.content.now < most) }
    ensures is_flag { result ≡ 0 → out.new.is_last < 2 }
    ensures none { result ≢ 0 → (number : ℕ) (content after : List ℕ) → IsFrame number content rest.old.bytes.now after → ⊥ }
    ensures stays { result ≢ 0 → (result ≡ 7) × (rest.new ≡ rest.old) × (out.new ≡ out.old) }
    // Both are parts of the bytes themselves.
    ensures content { result ≡ 0 → out.new.content.ref_ptr ≡ at 4 rest.old.bytes.ref_ptr }
    ensures place { result ≡ 0 → rest.new.bytes.ref_ptr ≡ at (4 + length out.new.content.now) rest.old.bytes.ref_ptr }
{
    match next_frame(rest.bytes) {
        Some((frame, after)) => {
            out.content = frame.content;
            out.sequence_id = frame.sequence_id;
            out.is_last = u8::from(frame.is_last());
            rest.bytes = after;
            OK
        }
        None => END,
    }
}
