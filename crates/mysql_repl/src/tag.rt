//! Tags of transactions.

ghost use Rattle.std.specs.Char.{to_ascii_lowercase};
ghost use Rattle.std.proofs.Common.{rules};
ghost use Rattle.std.specs.Cmp.Lexicographic.{nat_list_cmp_total, pointwise, slice_cmp, texts_po, texts_ties};
ghost use Rattle.std.specs.Cmp.Rules.{comparing};
ghost use Rattle.std.specs.Hash as fed;
ghost use Rattle.std.specs.Ordering.{nat_cmp};
ghost use Rattle.std.specs.Prelude.{◌≡◌, ℕ, List, Option, Some, None, IfOk, IsOk, IfErr, map, nat_eq, not, option_map, slice_get};
ghost use Rattle.std.specs.Cow.{cow_str_bytes, IsOwnedStr};
ghost use Rattle.std.specs.List.{find};
ghost use Rattle.std.specs.Str.{chars};
ghost use Rattle.std.specs.String.{string_bytes};
ghost use Rattle.mysql_repl.specs.Tag as spec;
ghost use Rattle.mysql_repl.specs.Tag.{IsTag, tag_fault, is_first, is_later};

use std::alloc::{AllocError, Global};
use std::borrow::CowStr;
use std::cmp::Ordering;
use std::fmt;
use std::fmt::Debug;
use std::hash::{Hash, Hasher};
use std::marker::Model;
use thiserror::Error;

/// The error of an invalid tag.
///
/// The first of these is returned: the text is empty; it is too long; its first character is invalid; one of
/// its other characters, from the left, is invalid.
///
/// ```
/// Tag::new(CowStr::Borrowed(text))
/// ```
#[derive(Clone, Debug, PartialEq, Eq, Hash, Drop, Error)]
pub enum InvalidTag {
    /// The text is empty.
    #[error("tag is empty")]
    Empty,
    /// The text has this number of bytes, which is more than 32.
    #[error("tag is too long ({0} > 32)")]
    TooLong(usize),
    /// The text begins with this character.
    #[error("invalid first character '{0}' (must be lowercase letter or underscore)")]
    InvalidFirstChar(char),
    /// This later character is invalid.
    #[error("invalid character '{0}' (must be lowercase letter, digit, or underscore)")]
    InvalidChar(char),
}

/// Whether a tag may begin with the character.
fn is_first_char(c: char) -> bool
    ensures value { result ≡ is_first c }
{
    ('a' <= c && c <= 'z') || c == '_'
}

/// Whether a tag may contain the character.
fn is_later_char(c: char) -> bool
    ensures value { result ≡ is_later c }
{
    is_first_char(c) || ('0' <= c && c <= '9')
}

fn first_char(text: &str) -> Option<char>
    ensures value { result ≡ slice_get (chars text.now) 0 }
{
    text.chars().nth(0)
}

fn first_bad_char(text: &str) -> Option<char>
    ensures value { result ≡ find (λ c. not (is_later c)) (chars text.now) }
{
    text.chars().find(|c| !is_later_char(*c))
}

/// Returns the first error of a text of `len` bytes, by its first character and its first invalid one.
fn fault_of(len: usize, first: Option<char>, bad: Option<char>) -> Option<InvalidTag>
    ensures { result ≡ spec.fault_of len first bad }
{
    let Some(first) = first else {
        return Some(InvalidTag::Empty);
    };
    if len > Tag::MAX_LEN {
        return Some(InvalidTag::TooLong(len));
    }
    if !is_first_char(first) {
        return Some(InvalidTag::InvalidFirstChar(first));
    }
    Some(InvalidTag::InvalidChar(bad?))
}

/// The first fault of a text.
#[tactic(auto, unfolding(crate::specs::Tag::tag_fault))]
pub(crate) fn fault_in(text: &str) -> Option<InvalidTag>
    ensures { result ≡ tag_fault text.now }
{
    fault_of(text.len(), first_char(text), first_bad_char(text))
}

/// Returns the first character that a tag in lower case can't contain.
fn first_bad_char_in_lower_case(text: &str) -> Option<char>
    ensures value { result ≡ find (λ c. not (is_later (to_ascii_lowercase c))) (chars text.now) }
{
    text.chars()
        .find(|c| !is_later_char(c.to_ascii_lowercase()))
}

fn in_lower_case(c: Option<char>) -> Option<char>
    ensures value { result ≡ option_map to_ascii_lowercase c }
{
    match c {
        Some(c) => Some(c.to_ascii_lowercase()),
        None => None,
    }
}

/// Returns the first error of a text in lower case.
#[tactic(auto, using(crate::proofs::LowerTexts::lower_faults))]
pub(crate) fn fault_in_lower_case(text: &str) -> Option<InvalidTag>
    ensures { result ≡ tag_fault (map to_ascii_lowercase text.now) }
{
    let first = in_lower_case(first_char(text));
    let bad = in_lower_case(first_bad_char_in_lower_case(text));
    fault_of(text.len(), first, bad)
}

/// The tag of some transactions: a lowercase letter or an underscore, and then up to 31 lowercase
/// letters, digits and underscores.
///
/// Tags with the same text are equal, hash equally and compare as equal in the order, borrowed or owned. They
/// are ordered by their bytes.
///
/// ```
/// Tag::new(CowStr::Borrowed(text))
/// ```
pub struct Tag<'a>(CowStr<'a>);

impl Drop for Tag<'_> {
    #[inline(always)]
    fn drop(self) {
        let Tag(_) = self;
    }
}

impl<'a> Model for Tag<'a> {
    ghost use Rattle.std.specs.Prelude.{ℕ, List};
    ghost use Rattle.std.specs.Cow.{cow_str_bytes};
    ghost use Rattle.mysql_repl.specs.Tag.{IsTag};

    ghost Value = { List ℕ };

    ghost view = { λ t. cow_str_bytes t.0 };

    ghost invariant = { λ t. IsTag (cow_str_bytes t.0) };
}

impl<'a> Tag<'a> {
    /// The maximum length of a tag in bytes.
    pub const MAX_LEN: usize = 32;

    /// Creates a tag of this text, or returns the text's first error. It takes no memory.
    #[tactic(auto, using(crate::proofs::Tags::tag_faults))]
    pub fn new(text: CowStr<'a>) -> Result<Self, InvalidTag>
        ensures ok { IfOk result (λ tag. (tag ≡ cow_str_bytes text.entry) × (tag_fault (cow_str_bytes text.entry) ≡ None)) }
        ensures err { IfErr result (λ fault. tag_fault (cow_str_bytes text.entry) ≡ Some fault) }
    {
        match fault_in(text.as_str()) {
            Some(fault) => Err(fault),
            None => Ok(Tag(text)),
        }
    }

    /// Creates a tag from a valid text.
    #[inline]
    pub(crate) fn of(text: &'a str) -> Self
        requires { IsTag text.now }
        ensures value { result ≡ text.now }
    {
        Tag(CowStr::Borrowed(text))
    }

    /// Returns the text of the tag.
    #[inline]
    pub fn as_str(&self) -> &str
        ensures value { result.now ≡ self.now }
        ensures tag { IsTag self.now }
    {
        self.0.as_str()
    }

    /// Converts to an owned tag; an owned text is kept. If the allocation fails, the tag is dropped; the
    /// borrowed text isn't affected.
    pub fn into_owned(self, alloc: Global) -> Result<Tag<'static>, AllocError>
        ensures value { IfOk result (λ owned. owned ≡ self.entry) }
    {
        let Tag(text) = self;
        owned_tag(text, alloc)
    }
}

/// Creates a tag from a valid text. An owned text is kept.
fn owned_tag(text: CowStr<'_>, alloc: Global) -> Result<Tag<'static>, AllocError>
    requires { IsTag (cow_str_bytes text) }
    ensures value { IfOk result (λ owned. owned ≡ cow_str_bytes text.entry) }
    ensures owned_no_memory { IsOwnedStr text.entry → IsOk result }
{
    Ok(Tag(CowStr::Owned(text.into_owned(alloc)?)))
}

impl<'a> TryFrom<&'a str> for Tag<'a> {
    type Error = InvalidTag;

    fn try_from(text: &'a str) -> Result<Self, InvalidTag>
        ensures ok { IfOk result (λ tag. (tag ≡ text.now) × (tag_fault text.now ≡ None)) }
        ensures err { IfErr result (λ fault. tag_fault text.now ≡ Some fault) }
    {
        Tag::new(CowStr::Borrowed(text))
    }
}

impl TryFrom<String> for Tag<'static> {
    type Error = InvalidTag;

    fn try_from(text: String) -> Result<Self, InvalidTag>
        ensures ok { IfOk result (λ tag. (tag ≡ string_bytes text) × (tag_fault (string_bytes text) ≡ None)) }
        ensures err { IfErr result (λ fault. tag_fault (string_bytes text) ≡ Some fault) }
    {
        Tag::new(CowStr::Owned(text))
    }
}

impl Clone for Tag<'_> {
    ghost is_clone = { λ t copy. copy ≡ t };

    fn clone(&self) -> Result<Self, AllocError> {
        Ok(Tag(self.0.clone()?))
    }
}

impl PartialEq for Tag<'_> {
    ghost eq = { pointwise nat_eq };

    ghost laws = { Prim.search (comparing, rules) };

    fn eq(&self, other: &Self) -> bool {
        self.as_str() == other.as_str()
    }
}

impl Eq for Tag<'_> {
    ghost laws = { Prim.search (comparing, rules) };
}

impl PartialOrd for Tag<'_> {
    ghost partial_cmp = { λ s t. Some (slice_cmp nat_cmp s t) };

    ghost laws = { texts_po };

    fn partial_cmp(&self, other: &Self) -> Option<Ordering> {
        self.as_str().partial_cmp(other.as_str())
    }
}

impl Ord for Tag<'_> {
    ghost cmp = { slice_cmp nat_cmp };

    ghost total = { nat_list_cmp_total };

    ghost matches_partial_cmp = { Prim.search rules };

    ghost matches_eq = { texts_ties };

    fn cmp(&self, other: &Self) -> Ordering {
        self.as_str().cmp(other.as_str())
    }
}

impl Hash for Tag<'_> {
    ghost hash_input = { fed.str };

    ghost respects_eq = { Prim.search rules };

    fn hash<H: Hasher>(&self, state: &mut H) {
        self.as_str().hash(state);
    }
}

impl Debug for Tag<'_> {
    fn fmt<W: fmt::Write>(&self, f: &mut fmt::Formatter<W>) -> fmt::Result {
        self.as_str().fmt(f)
    }
}

/// Displays the text.
impl fmt::Display for Tag<'_> {
    ghost output = { λ tag. Some tag };

    fn fmt<W: fmt::Write>(&self, f: &mut fmt::Formatter<W>) -> fmt::Result {
        let text = self.as_str();
        write!(f, "{text}")
    }
}
