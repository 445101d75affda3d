//! A tag in the text of a GTID set.

ghost use Rattle.std.specs.Char.{to_ascii_lowercase};
ghost use Rattle.std.specs.Prelude.{◌≡◌, Some, None, IfOk, IfErr, map, ⊤};
ghost use Rattle.mysql_repl.specs.Tag.{IsTag, tag_fault};

use crate::tag::{InvalidTag, fault_in_lower_case};
use std::alloc::AllocError;
use std::fmt;
use std::fmt::Debug;
use std::marker::Model;

/// A borrowed tag in either case: in lower case it is a [`Tag`](crate::Tag). In a clause it is the text.
///
/// Tags are equal if they are the same in lower case.
///
/// ```
/// Ok(TagText::new(text)?.as_str())
/// ```
#[derive(Drop)]
pub struct TagText<'a> {
    text: &'a str,
}

impl<'a> Model for TagText<'a> {
    ghost use Rattle.std.specs.Char.{to_ascii_lowercase};
    ghost use Rattle.std.specs.Prelude.{ℕ, List, map};
    ghost use Rattle.mysql_repl.specs.Tag.{IsTag};

    ghost Value = { List ℕ };

    ghost view = { λ t. t.text.now };

    ghost invariant = { λ t. IsTag (map to_ascii_lowercase t.text.now) };
}

impl<'a> TagText<'a> {
    /// Creates a tag of this text, or returns its first error in lower case.
    #[tactic(auto, using(crate::proofs::LowerTexts::lower_tags))]
    pub fn new(text: &'a str) -> Result<Self, InvalidTag>
        ensures ok { IfOk result (λ tag. (tag ≡ text.now) × (tag_fault (map to_ascii_lowercase text.now) ≡ None)) }
        ensures err { IfErr result (λ fault. tag_fault (map to_ascii_lowercase text.now) ≡ Some fault) }
    {
        match fault_in_lower_case(text) {
            Some(fault) => Err(fault),
            None => Ok(TagText { text }),
        }
    }

    /// The text, in its original case.
    #[inline]
    pub fn as_str(&self) -> &'a str
        ensures value { result.now ≡ self.now }
        ensures tag { IsTag (map to_ascii_lowercase self.now) }
    {
        self.text
    }
}

impl Clone for TagText<'_> {
    ghost is_clone = { λ t copy. copy ≡ t };

    ghost is_infallible = { λ _. ⊤ };

    fn clone(&self) -> Result<Self, AllocError> {
        Ok(TagText { text: self.text })
    }
}

impl PartialEq for TagText<'_> {
    ghost use Rattle.mysql_repl.specs.TagString.{same_tag, same_tag_per};

    ghost eq = { same_tag };

    ghost laws = { same_tag_per };

    fn eq(&self, other: &Self) -> bool {
        self.text.eq_ignore_ascii_case(other.text)
    }
}

impl Eq for TagText<'_> {
    ghost use Rattle.mysql_repl.specs.TagString.{same_tag_equiv};

    ghost laws = { same_tag_equiv };
}

impl Debug for TagText<'_> {
    fn fmt<W: fmt::Write>(&self, f: &mut fmt::Formatter<W>) -> fmt::Result {
        self.text.fmt(f)
    }
}
