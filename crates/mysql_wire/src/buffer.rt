//! Where values are written to.

ghost use Rattle.std.specs.Prelude.{◌≡◌, ◌+◌, ◌++◌, ◌∷◌, [], ◌^◌, ◌<◌, ◌≤◌, length, drop, vec_capacity, List, ℕ};

use std::mem;

/// A destination that values are appended to: a vector with reserved capacity, or a slice that is filled from
/// the front.
///
/// No method allocates.
pub trait Buffer: Sized + Drop {
    ghost Kept: { Type 0 };

    /// The bytes that it holds.
    ghost held: { Self → List ℕ };

    /// The bytes after those that were written.
    ghost after: { Self → List ℕ };

    /// Its capacity in bytes.
    ghost capacity: { Self → ℕ };

    /// What writing leaves unchanged.
    ghost kept: { Self → Kept };

    /// Writes a byte.
    fn push_byte(&mut self, byte: u8)
        requires { length (held self.old) + 1 ≤ capacity self.old }
        ensures items { held self.new ≡ held self.old ++ byte ∷ [] }
        ensures after { after self.new ≡ drop 1 (after self.old) }
        ensures capacity { capacity self.old ≤ capacity self.new }
        ensures kept { kept self.new ≡ kept self.old };

    /// Writes bytes.
    fn push_bytes(&mut self, bytes: &[u8])
        requires { length (held self.old) + length bytes.now ≤ capacity self.old }
        ensures items { held self.new ≡ held self.old ++ bytes.now }
        ensures after { after self.new ≡ drop (length bytes.now) (after self.old) }
        ensures capacity { capacity self.old ≤ capacity self.new }
        ensures kept { kept self.new ≡ kept self.old };

    /// Does nothing; its contract says that the capacity is less than 2^63.
    fn is_in_memory(&self)
        ensures { capacity self.now < 2 ^ 63 };

    /// Moves the buffer out, and leaves a placeholder until it is put back.
    ///
    /// While it is a variable of its own, the compiler keeps its length and its address in registers, and does not read
    /// them again after each byte.
    fn taken(&mut self) -> Self
        ensures items { held result ≡ held self.old }
        ensures after { after result ≡ after self.old }
        ensures capacity { capacity result ≡ capacity self.old }
        ensures kept { kept result ≡ kept self.old };
}

impl Buffer for Vec<u8> {
    ghost Kept = { Unit {0} };

    ghost held = { λ v. v.items };

    ghost after = { λ _. [] };

    ghost capacity = { λ v. vec_capacity v };

    ghost kept = { λ _. tt };

    #[inline(always)]
    fn push_byte(&mut self, byte: u8) {
        self.push_reserved(byte);
    }

    // The capacity is checked once more: the compiler then drops the code that grows the buffer.
    #[inline(always)]
    fn push_bytes(&mut self, bytes: &[u8]) {
        if bytes.len() <= self.capacity() - self.len() {
            self.extend_from_slice(bytes).unwrap();
        }
    }

    #[inline(always)]
    fn is_in_memory(&self) {
        let _capacity = self.capacity();
    }

    #[inline(always)]
    fn taken(&mut self) -> Self {
        let empty = Vec::new(*self.allocator());
        mem::replace(self, empty)
    }
}
