//! Bitmaps that say which values are NULL.

ghost use Rattle.std.proofs.Common.{rules};
ghost use Rattle.std.specs.Cmp.Lexicographic.{pointwise};
ghost use Rattle.std.specs.Cmp.Rules.{comparing};
ghost use Rattle.std.specs.Prelude.{nat_eq, false, ◌≡◌, ◌≢◌, ◌==◌, ◌+◌, ◌*◌, ◌/◌, ◌<◌, ◌≤◌, ◌^◌, ◌++◌, [], ◌∷◌, ℕ, List, Option, None, length, replicate, take, drop, IfOk, IsTrue, IsOk, ◌↔◌, OnOk, OnErr, if◌then◌else◌};
ghost use Rattle.std.specs.Cow.{cow_slice_items};
ghost use Rattle.mysql_wire.specs.Reading.{Answers, IsTail, HasBytes};
ghost use Rattle.mysql_wire.specs.Form.{Form};
ghost use Rattle.mysql_stmt.specs.Bitmap.{Bitmap, cell, bytes_for, is_owned};

use mysql_values::SerializationSide;
use mysql_wire::{AnyWidth, Buffer, FaultOf, MyDeserialize, MySerialize, ParseBuf};
use std::alloc::{AllocError, Global};
use std::borrow::CowSlice;
use std::convert::AsSlice;
use std::fmt;
use std::fmt::Debug;
use std::marker::{Model, PhantomData};

/// A NULL bitmap, borrowed or owned: a bit for each column or parameter, set if its value is NULL.
///
/// The bits are the binary digits of one number, whose bytes are little-endian. The bit of value `i` is the
/// digit at `i + T::BIT_OFFSET`: a server skips two digits, a client none.
///
/// In a clause a bitmap is its bytes, and whether it owns them. Bitmaps with the same bytes are equal.
///
/// ```
/// let mut nulls = NullBitmap::new(alloc, 10)?;
/// nulls.set(alloc, 3, true)?;
/// Ok(nulls)
/// ```
pub struct NullBitmap<'a, T> {
    bytes: CowSlice<'a, u8>,
    side: PhantomData<T>,
}

impl<T> Drop for NullBitmap<'_, T> {
    #[inline(always)]
    fn drop(self) {
        let NullBitmap { bytes: _, side: _ } = self;
    }
}

impl<'a, T> Model for NullBitmap<'a, T> {
    ghost use Rattle.std.specs.Cow.{cow_slice_items};
    ghost use Rattle.mysql_stmt.specs.Bitmap.{Bitmap, is_owned};

    ghost Value = { Bitmap };

    ghost view = { λ b. record { bytes = cow_slice_items b.bytes; owned = is_owned b.bytes } };
}

impl<T: SerializationSide> NullBitmap<'static, T> {
    /// Creates the bitmap of `num_columns` values, none of which is NULL.
    ///
    /// Requires that the count, plus seven and the side's offset, fits `usize`. A bitmap without bytes takes no memory.
    pub fn new(alloc: Global, num_columns: usize) -> Result<Self, AllocError>
        requires { num_columns + 7 + T.BIT_OFFSET < 2 ^ 64 }
        ensures value { IfOk result (λ bitmap. bitmap.bytes ≡ replicate (bytes_for T.BIT_OFFSET num_columns) 0) }
        ensures owned { IfOk result (λ bitmap. IsTrue bitmap.owned) }
        ensures no_memory { bytes_for T.BIT_OFFSET num_columns ≡ 0 → IsOk result }
    {
        let bytes = clear_bits(alloc, Self::bitmap_len(num_columns))?;
        Ok(NullBitmap::from_bytes(CowSlice::Owned(bytes)))
    }

    /// Copies the bitmap of `num_columns` values off the front of the bytes.
    ///
    /// Requires that the count, plus seven and the side's offset, fits `usize`, and that the bytes are
    /// complete: see [`bitmap_len`](Self::bitmap_len). If the allocation fails, no bytes are taken.
    pub fn read(alloc: Global, input: &mut &[u8], num_columns: usize) -> Result<Self, AllocError>
        requires fits { num_columns + 7 + T.BIT_OFFSET < 2 ^ 64 }
        requires there { bytes_for T.BIT_OFFSET num_columns ≤ length input.old.now }
        ensures value { IfOk result (λ bitmap. bitmap.bytes ≡ take (bytes_for T.BIT_OFFSET num_columns) input.old.now) }
        ensures owned { IfOk result (λ bitmap. IsTrue bitmap.owned) }
        ensures rest { OnOk result (input.new.now ≡ drop (bytes_for T.BIT_OFFSET num_columns) input.old.now) }
        ensures err { OnErr result (input.new.now ≡ input.old.now) }
        ensures no_memory { bytes_for T.BIT_OFFSET num_columns ≡ 0 → IsOk result }
    {
        let (front, rest) = input.split_at(Self::bitmap_len(num_columns));
        let bytes = copy_of(alloc, front)?;
        *input = rest;
        Ok(NullBitmap::from_bytes(CowSlice::Owned(bytes)))
    }
}

/// Returns `len` zero bytes. An empty list takes no memory.
pub(crate) fn clear_bits(alloc: Global, len: usize) -> Result<Vec<u8>, AllocError>
    ensures value { IfOk result (λ bytes. bytes.items ≡ replicate len 0) }
    ensures no_memory { len ≡ 0 → IsOk result }
{
    if len == 0 {
        return Ok(Vec::new(alloc));
    }
    vec![in alloc; 0; len]
}

/// Copies the bytes. An empty bitmap takes no memory.
fn copy_of(alloc: Global, bytes: &[u8]) -> Result<Vec<u8>, AllocError>
    ensures value { IfOk result (λ copy. copy.items ≡ bytes.now) }
    ensures no_memory { bytes.now ≡ [] → IsOk result }
{
    if bytes.is_empty() {
        return Ok(Vec::new(alloc));
    }
    Vec::from_slice(alloc, bytes)
}

impl<'a, T> NullBitmap<'a, T> {
    /// Creates a bitmap from its bytes.
    pub fn from_bytes(bytes: CowSlice<'a, u8>) -> Self
        ensures value { result.bytes ≡ cow_slice_items bytes.entry }
        ensures owned { result.owned ≡ is_owned bytes.entry }
    {
        NullBitmap {
            bytes,
            side: PhantomData,
        }
    }

    /// Returns the bytes of the bitmap.
    #[inline]
    pub fn as_bytes(&self) -> &[u8]
        ensures value { result.now ≡ self.now.bytes }
    {
        self.bytes.as_slice()
    }
}

impl<T: SerializationSide> NullBitmap<'_, T> {
    /// The length of a bitmap of `num_columns` values in bytes.
    ///
    /// Requires that the count, plus seven and the side's offset, fits `usize`.
    #[inline]
    pub fn bitmap_len(num_columns: usize) -> usize
        requires { num_columns + 7 + T.BIT_OFFSET < 2 ^ 64 }
        ensures value { result ≡ bytes_for T.BIT_OFFSET num_columns }
        ensures enough { num_columns + T.BIT_OFFSET ≤ 8 * result }
        ensures least { (n : ℕ) → num_columns + T.BIT_OFFSET ≤ 8 * n → result ≤ n }
    {
        (num_columns + 7 + T::BIT_OFFSET) / 8
    }

    /// Whether value `i` is NULL. Its bit must be in the bitmap.
    #[inline]
    pub fn is_null(&self, i: usize) -> bool
        requires { i + T.BIT_OFFSET < 8 * length self.now.bytes }
        ensures value { IsTrue result ↔ (cell self.now.bytes (i + T.BIT_OFFSET) ≡ 1) }
    {
        let (at, bit) = place_of(i, T::BIT_OFFSET);
        let bytes = self.bytes.as_slice();
        (bytes[at] >> bit) & 1 == 1
    }

    /// Sets whether value `i` is NULL. Its bit must be in the bitmap; the other bits are unchanged.
    ///
    /// Borrowed bytes are copied first. If that allocation fails, nothing changes.
    pub fn set(&mut self, alloc: Global, i: usize, is_null: bool) -> Result<(), AllocError>
        requires { i + T.BIT_OFFSET < 8 * length self.old.bytes }
        ensures len { length self.new.bytes ≡ length self.old.bytes }
        ensures this { OnOk result (cell self.new.bytes (i + T.BIT_OFFSET) ≡ (if is_null then 1 else 0)) }
        ensures others { (j : ℕ) → j ≢ i + T.BIT_OFFSET → cell self.new.bytes j ≡ cell self.old.bytes j }
        ensures owned { OnOk result (IsTrue self.new.owned) }
        ensures err { OnErr result (self.new ≡ self.old) }
        ensures no_memory { IsTrue self.old.owned → IsOk result }
    {
        let (at, bit) = place_of(i, T::BIT_OFFSET);
        match &mut self.bytes {
            CowSlice::Borrowed(bytes) => {
                let mut owned = Vec::from_slice(alloc, bytes)?;
                put(&mut owned, at, bit, is_null);
                self.bytes = CowSlice::Owned(owned);
            }
            CowSlice::Owned(bytes) => put(bytes, at, bit, is_null),
        }
        Ok(())
    }
}

/// Returns the byte and the bit of the digit at `i + offset`; the sum may exceed `usize`.
#[inline]
fn place_of(i: usize, offset: usize) -> (usize, usize)
    ensures place { result.0 * 8 + result.1 ≡ i + offset }
    ensures bit { result.1 < 8 }
{
    let low = i % 8 + offset % 8;
    (i / 8 + offset / 8 + low / 8, low % 8)
}

/// Sets one digit of the bytes' number to 1 or 0.
#[inline]
pub(crate) fn put(bytes: &mut [u8], at: usize, bit: usize, one: bool)
    requires at { at < length bytes.old }
    requires bit { bit < 8 }
    ensures len { length bytes.new ≡ length bytes.old }
    ensures this { cell bytes.new (at * 8 + bit) ≡ (if one then 1 else 0) }
    ensures others { (j : ℕ) → j ≢ at * 8 + bit → cell bytes.new j ≡ cell bytes.old j }
{
    let mask = 1u8 << bit;
    let byte = &mut bytes[at];
    if one {
        *byte |= mask;
    } else {
        *byte &= !mask;
    }
}

impl<T> AsSlice<u8> for NullBitmap<'_, T> {
    ghost items = { λ b. b.bytes };

    fn as_slice(&self) -> &[u8] {
        self.as_bytes()
    }
}

impl<T> Clone for NullBitmap<'_, T> {
    ghost is_clone = { λ b copy. copy ≡ b };

    ghost is_infallible = { λ b. IsTrue b.owned → b.bytes ≡ [] };

    /// Copies the bytes if the bitmap owns them. A borrowed or empty bitmap needs no allocation.
    fn clone(&self) -> Result<Self, AllocError> {
        let bytes = match &self.bytes {
            CowSlice::Borrowed(bytes) => CowSlice::Borrowed(bytes),
            CowSlice::Owned(bytes) => CowSlice::Owned(copy_of(*bytes.allocator(), bytes)?),
        };
        Ok(NullBitmap::from_bytes(bytes))
    }
}

impl<T> PartialEq for NullBitmap<'_, T> {
    ghost eq = { λ a b. pointwise nat_eq a.bytes b.bytes };

    ghost laws = { Prim.search (comparing, rules) };

    fn eq(&self, other: &Self) -> bool {
        self.as_bytes() == other.as_bytes()
    }
}

impl<T> Eq for NullBitmap<'_, T> {
    ghost laws = { Prim.search (comparing, rules) };
}

impl<T> Debug for NullBitmap<'_, T> {
    fn fmt<W: fmt::Write>(&self, f: &mut fmt::Formatter<W>) -> fmt::Result {
        self.as_bytes().fmt(f)
    }
}

/// The bytes that hold the bits of `n` values, borrowed, where `n` is the context.
///
/// Missing bytes are `UnexpectedEof`, and so is a count that, plus seven and the side's offset, overflows `usize`.
impl<'de, T: SerializationSide> MyDeserialize<'de> for NullBitmap<'de, T> {
    const SIZE: Option<usize> = None;

    type Size = AnyWidth;

    type Ctx = usize;

    ghost use Rattle.mysql_stmt.specs.NullBitmap.{null_bitmap, size-null_bitmap};

    ghost form = { λ count. null_bitmap T.BIT_OFFSET count };

    #[tactic(auto, unfolding(crate::specs::NullBitmap::null_bitmap, mysql_wire::specs::Form::bytes))]
    fn deserialize<'s>(num_columns: usize, buf: &mut ParseBuf<'de>) -> Result<Self, FaultOf<'s>> {
        let Some(count) = num_columns.checked_add(7) else {
            return Err(FaultOf::UnexpectedEof);
        };
        if count.checked_add(T::BIT_OFFSET).is_none() {
            return Err(FaultOf::UnexpectedEof);
        }
        let bytes = buf
            .checked_eat(Self::bitmap_len(num_columns))
            .ok_or(FaultOf::UnexpectedEof)?;
        Ok(NullBitmap::from_bytes(CowSlice::Borrowed(bytes)))
    }

    ghost size_is = { λ count. size-null_bitmap T.BIT_OFFSET count };
}

/// Written as its bytes.
impl<T> MySerialize for NullBitmap<'_, T> {
    ghost bytes = { λ b. b.bytes };

    #[tactic(auto, unfolding(mysql_wire::specs::Writing::saturated))]
    fn defined_len(&self) -> usize {
        self.as_bytes().len()
    }

    fn append<O: Buffer>(&self, out: &mut O) {
        out.push_bytes(self.as_bytes());
    }
}
