//! A slice that is written from its front.

ghost use Rattle.std.specs.Prelude.{◌≡◌, ◌+◌, ◌++◌, ◌∷◌, [], ◌≤◌, length, take, drop, List, ℕ};

use crate::buffer::Buffer;
use std::mem;

/// A slice that is filled from its front, as a [`Buffer`]: its bytes are those written, and its capacity is the slice's length.
///
/// A single value is written by [`write_to_slice`](crate::MySerialize::write_to_slice); this is for writing to several slices in one pass.
#[derive(Drop)]
pub struct SliceWriter<'a> {
    /// The whole slice.
    pub out: &'a mut [u8],
    /// How many of its bytes are written.
    pub len: usize,
    ghost fits: { len ≤ length out.now },
}

impl<'a> SliceWriter<'a> {
    /// Creates a writer over a slice; nothing is written yet.
    #[inline(always)]
    pub fn new(out: &'a mut [u8]) -> Self
        ensures same_reference { result.out.ghost_name ≡ out.entry.ghost_name }
        ensures out { result.out.now ≡ out.old }
        ensures len { result.len ≡ 0 }
    {
        SliceWriter { out, len: 0 }
    }
}

#[tactic(auto, using(crate::proofs::After::after_slice))]
impl Buffer for SliceWriter<'_> {
    ghost Kept = { ℕ };

    ghost held = { λ w. take w.len w.out.now };

    ghost after = { λ w. drop w.len w.out.now };

    ghost capacity = { λ w. length w.out.now };

    ghost kept = { λ w. w.out.ghost_name };

    #[inline(always)]
    fn push_byte(&mut self, byte: u8) {
        self.out[self.len] = byte;
        self.len += 1;
    }

    #[inline(always)]
    fn push_bytes(&mut self, bytes: &[u8]) {
        let end = self.len + bytes.len();
        self.out[self.len..end].copy_from_slice(bytes);
        self.len = end;
    }

    #[inline(always)]
    fn is_in_memory(&self) {
        let _len = self.out.len();
    }

    #[inline(always)]
    fn taken(&mut self) -> Self {
        let len = self.len;
        self.len = 0;
        let out = mem::replace(&mut self.out, &mut []);
        SliceWriter { out, len }
    }
}
