//! Byte strings in their wire forms.

ghost use Rattle.std.specs.Prelude.{false, ◌≡◌, ◌+◌, ◌++◌, ◌≤◌, ◌↔◌, length, drop, List, [], ℕ, None, OnErr, IfOk, IsOk, IsTrue};
ghost use Rattle.std.specs.Cow.{cow_slice_items, cow_str_bytes, IsOwnedSlice};
ghost use Rattle.mysql_wire.specs.Text.{lossy_text, BorrowsUtf8};
ghost use Rattle.mysql_wire.specs.Writing.{saturated};
ghost use Rattle.mysql_wire.specs.Form.{Form};
ghost use Rattle.mysql_wire.specs.Reading.{Answers, IsTail};

use crate::buf::ParseBuf;
use crate::buffer::Buffer;
use crate::fault::FaultOf;
use crate::proto::{AnyWidth, MyDeserialize, MySerialize};
use bstr::ByteSlice;
use std::alloc::{AllocError, Global};
use std::borrow::{CowSlice, CowStr};
use std::fmt;
use std::fmt::Debug;
use std::hash::{Hash, Hasher};
use std::marker::{Model, PhantomData};

/// The encoding of a byte string.
pub trait BytesRepr {
    /// The context of a reading, such as a length.
    type Ctx: Drop;

    /// The grammar of a byte string.
    ghost form: { Self.Ctx → Form (List ℕ) };

    /// Reads a byte string from the front, and returns a buffer over its content.
    fn deserialize<'s, 'de>(
        ctx: Self::Ctx,
        buf: &mut ParseBuf<'de>,
    ) -> Result<ParseBuf<'de>, FaultOf<'s>>
        ensures value { Answers false result buf.new ((form ctx).reads buf.old) }
        ensures tail { OnErr result (IsTail buf.new buf.old) };

    ghost kept: { List ℕ → List ℕ };

    /// The part of a content that is written: as much as the form can hold.
    fn kept(content: &[u8]) -> &[u8]
        ensures { result.now ≡ kept content.now };

    ghost written: { List ℕ → List ℕ };

    /// The encoded length of a content, or `usize::MAX` if it is greater.
    fn written_len(content: &[u8]) -> usize
        ensures { result ≡ saturated (length (written content.now)) };

    /// Writes a content to a buffer that has capacity.
    fn append<O: Buffer>(content: &[u8], out: &mut O)
        requires { length (O.held out.old) + length (written content.now) ≤ O.capacity out.old }
        ensures items { O.held out.new ≡ O.held out.old ++ written content.now }
        ensures after { O.after out.new ≡ drop (length (written content.now)) (O.after out.old) }
        ensures capacity { O.capacity out.old ≤ O.capacity out.new }
        ensures kept { O.kept out.new ≡ O.kept out.old };

    /// No form of bytes has a constant size.
    ghost size_is: { (ctx : Self.Ctx) → (form ctx).size ≡ None };
}

/// A byte string in the wire form `R`, borrowed or owned.
///
/// Only its content is its value: a borrowed and an owned string with the same bytes are equal and
/// hash equally. Reading borrows the content from the packet and takes no memory. Writing cuts the
/// content to what the form can hold, `len()` bytes.
///
/// ```
/// let number: RawInt<LeU32> = buf.parse(())?;
/// let text: RawBytes<'a, NullBytes> = buf.parse(())?;
/// Ok((number.0, text))
/// ```
pub struct RawBytes<'a, R>(CowSlice<'a, u8>, PhantomData<R>);

impl<R> Drop for RawBytes<'_, R> {
    #[inline(always)]
    fn drop(self) {
        let RawBytes(_, _) = self;
    }
}

impl<'a, R> Model for RawBytes<'a, R> {
    ghost use Rattle.std.specs.Prelude.{ℕ, List};
    ghost use Rattle.std.specs.Cow.{cow_slice_items};

    ghost Value = { List ℕ };

    ghost view = { λ b. cow_slice_items b.0 };
}

impl<'a, R> RawBytes<'a, R> {
    /// Creates a byte string with this content.
    #[inline(always)]
    pub fn new(content: CowSlice<'a, u8>) -> Self
        ensures { result ≡ cow_slice_items content.entry }
    {
        RawBytes(content, PhantomData)
    }

    /// The whole content, including any bytes past the encoding's limit.
    #[inline(always)]
    pub fn as_bytes(&self) -> &[u8]
        ensures value { result.now ≡ self.now }
    {
        self.0.as_slice()
    }

    /// The content as text, with U+FFFD for invalid UTF-8. Valid UTF-8 is borrowed.
    pub fn as_str(&self, alloc: Global) -> Result<CowStr<'_>, AllocError>
        ensures text { IfOk result (λ text. cow_str_bytes text ≡ lossy_text self.now) }
        ensures utf8 { BorrowsUtf8 self.now result }
    {
        self.as_bytes().to_str_lossy(alloc)
    }

    /// Returns the content, in the slice or the `Vec` that holds it.
    #[inline(always)]
    pub fn into_inner(self) -> CowSlice<'a, u8>
        ensures value { cow_slice_items result ≡ self.entry }
    {
        let RawBytes(content, _) = self;
        content
    }

    /// Converts to an owned string, which borrows nothing.
    ///
    /// A string that is already owned, or empty, takes no memory. If the allocation fails, the string is dropped.
    pub fn into_owned(self, alloc: Global) -> Result<RawBytes<'static, R>, AllocError>
        ensures value { IfOk result (λ owned. owned ≡ self.entry) }
        ensures no_memory { self.entry ≡ [] → IsOk result }
    {
        let content = owned_content(self.into_inner(), alloc)?;
        Ok(RawBytes(CowSlice::Owned(content), PhantomData))
    }
}

/// The content in a `Vec`: an owned one as it is, and a copy of a borrowed one.
fn owned_content(content: CowSlice<'_, u8>, alloc: Global) -> Result<Vec<u8>, AllocError>
    ensures value { IfOk result (λ owned. owned.items ≡ cow_slice_items content.entry) }
    ensures owned_no_memory { IsOwnedSlice content.entry → IsOk result }
    ensures empty_no_memory { cow_slice_items content.entry ≡ [] → IsOk result }
{
    match content {
        CowSlice::Owned(owned) => Ok(owned),
        CowSlice::Borrowed(borrowed) => {
            let mut copy = Vec::with_capacity(alloc, borrowed.len())?;
            copy.extend_from_slice(borrowed)?;
            Ok(copy)
        }
    }
}

impl<R: BytesRepr> RawBytes<'_, R> {
    /// The number of bytes of the content that are written: as many as the encoding can hold.
    #[inline(always)]
    pub fn len(&self) -> usize
        ensures value { result ≡ length (R.kept self.now) }
    {
        R::kept(self.as_bytes()).len()
    }

    /// Whether no byte of the content is written.
    #[inline(always)]
    pub fn is_empty(&self) -> bool
        ensures value { IsTrue result ↔ (R.kept self.now ≡ []) }
    {
        R::kept(self.as_bytes()).is_empty()
    }
}

impl<R> Default for RawBytes<'_, R> {
    ghost is_default = { λ content. content ≡ [] };

    fn default() -> Self {
        RawBytes(CowSlice::Borrowed(&[]), PhantomData)
    }
}

impl<R> Clone for RawBytes<'_, R> {
    ghost is_clone = { λ b copy. copy ≡ b };

    ghost is_infallible = { λ b. b ≡ [] };

    fn clone(&self) -> Result<Self, AllocError> {
        if self.as_bytes().is_empty() {
            return Ok(Self::default());
        }
        Ok(RawBytes(self.0.clone()?, PhantomData))
    }
}

impl<R> PartialEq for RawBytes<'_, R> {
    ghost use Rattle.std.specs.Prelude.{nat_eq};
    ghost use Rattle.std.specs.Cmp.Lexicographic.{pointwise};
    ghost use Rattle.std.proofs.Common.{rules};
    ghost use Rattle.std.specs.Cmp.Rules.{comparing};

    ghost eq = { pointwise nat_eq };

    ghost laws = { Prim.search (comparing, rules) };

    fn eq(&self, other: &Self) -> bool {
        self.as_bytes() == other.as_bytes()
    }
}

impl<R> Eq for RawBytes<'_, R> {
    ghost use Rattle.std.proofs.Common.{rules};
    ghost use Rattle.std.specs.Cmp.Rules.{comparing};

    ghost laws = { Prim.search (comparing, rules) };
}

impl<R> Hash for RawBytes<'_, R> {
    ghost use Rattle.std.proofs.Common.{rules};
    ghost use Rattle.std.specs.Hash as fed;

    ghost hash_input = { fed.slice fed.u8 };

    ghost respects_eq = { Prim.search rules };

    fn hash<H: Hasher>(&self, state: &mut H) {
        self.as_bytes().hash(state);
    }
}

/// Prints the content in quotes, with every byte that isn't visible ASCII escaped.
impl<R> Debug for RawBytes<'_, R> {
    fn fmt<W: fmt::Write>(&self, f: &mut fmt::Formatter<W>) -> fmt::Result {
        write!(f, "\"{}\"", self.as_bytes().escape_ascii())
    }
}

impl<'de, R: BytesRepr> MyDeserialize<'de> for RawBytes<'de, R> {
    const SIZE: Option<usize> = None;

    type Size = AnyWidth;

    type Ctx = R::Ctx;

    ghost form = { λ ctx. R.form ctx };

    #[inline(always)]
    fn deserialize<'s>(ctx: R::Ctx, buf: &mut ParseBuf<'de>) -> Result<Self, FaultOf<'s>> {
        let mut content = R::deserialize(ctx, buf)?;
        Ok(RawBytes(CowSlice::Borrowed(content.eat_all()), PhantomData))
    }

    ghost size_is = { λ ctx. R.size_is ctx };
}

impl<R: BytesRepr> MySerialize for RawBytes<'_, R> {
    ghost bytes = { λ content. R.written content };

    #[inline(always)]
    fn defined_len(&self) -> usize {
        R::written_len(self.as_bytes())
    }

    #[inline(always)]
    #[tactic(auto, using(crate::proofs::After::after))]
    fn append<O: Buffer>(&self, out: &mut O) {
        R::append(self.as_bytes(), out)
    }
}
