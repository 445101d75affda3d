//! A word of the call.

ghost use Rattle.std.specs.Prelude.{◌≡◌};

use std::marker::Model;

/// A word of the call. In a clause it is its bytes.
#[derive(Drop)]
pub struct Word<'a> {
    text: &'a str,
}

impl<'a> Model for Word<'a> {
    ghost use Rattle.std.specs.Prelude.{ℕ, List};

    ghost Value = { List ℕ };

    ghost view = { λ w. w.text.now };
}

impl<'a> Word<'a> {
    /// Creates a word from a text.
    pub fn new(text: &'a str) -> Word<'a>
        ensures value { result ≡ text.now }
    {
        Word { text }
    }

    /// Returns the word's text.
    pub fn as_str(&self) -> &str
        ensures value { result.now ≡ self.now }
    {
        self.text
    }
}
