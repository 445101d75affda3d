//! A borrowed tag.

ghost use Rattle.std.specs.Prelude.{◌≡◌, Some, None, IfOk, IfErr, ⊤};
ghost use Rattle.mysql_repl.specs.Tag.{IsTag, tag_fault};

use crate::tag::{InvalidTag, Tag, fault_in};
use std::alloc::AllocError;
use std::fmt;
use std::fmt::Debug;
use std::marker::Model;

/// A tag whose text stays in the packet: a [`Tag`] for as long as the packet lives. In a clause it is that tag.
#[derive(Drop)]
pub struct TagRef<'a> {
    text: &'a str,
}

impl<'a> Model for TagRef<'a> {
    ghost use Rattle.std.specs.Prelude.{ℕ, List};
    ghost use Rattle.mysql_repl.specs.Tag.{IsTag};

    ghost Value = { List ℕ };

    ghost view = { λ t. t.text.now };

    ghost invariant = { λ t. IsTag t.text.now };
}

impl<'a> TagRef<'a> {
    /// Creates a tag of this text, or returns the text's first error.
    #[tactic(auto, using(crate::proofs::Tags::tag_faults))]
    pub fn new(text: &'a str) -> Result<Self, InvalidTag>
        ensures ok { IfOk result (λ tag. (tag ≡ text.now) × (tag_fault text.now ≡ None)) }
        ensures err { IfErr result (λ fault. tag_fault text.now ≡ Some fault) }
    {
        match fault_in(text) {
            Some(fault) => Err(fault),
            None => Ok(TagRef { text }),
        }
    }

    /// Returns the text of the tag.
    #[inline]
    pub fn as_str(&self) -> &'a str
        ensures value { result.now ≡ self.now }
        ensures tag { IsTag self.now }
    {
        self.text
    }

    /// Converts to a [`Tag`], which still borrows the text. It takes no memory.
    #[inline]
    pub fn to_owned(&self) -> Tag<'a>
        ensures value { result ≡ self.now }
    {
        Tag::of(self.text)
    }
}

impl Clone for TagRef<'_> {
    ghost is_clone = { λ p copy. copy ≡ p };

    ghost is_infallible = { λ _. ⊤ };

    fn clone(&self) -> Result<Self, AllocError> {
        Ok(TagRef { text: self.text })
    }
}

impl PartialEq for TagRef<'_> {
    ghost use Rattle.mysql_repl.specs.contracts.tag.TagPartialEq.TheImpl.Laws.{laws-law};

    ghost eq = { ⟦<Tag<'static> as PartialEq>⟧.eq };

    ghost laws = { laws-law };

    fn eq(&self, other: &Self) -> bool {
        self.to_owned() == other.to_owned()
    }
}

impl Eq for TagRef<'_> {
    ghost use Rattle.mysql_repl.specs.contracts.tag.TagEq.TheImpl.Laws.{laws-law};

    ghost laws = { laws-law };
}

impl Debug for TagRef<'_> {
    fn fmt<W: fmt::Write>(&self, f: &mut fmt::Formatter<W>) -> fmt::Result {
        self.to_owned().fmt(f)
    }
}
