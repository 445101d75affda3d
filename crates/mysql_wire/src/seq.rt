//! Lists of values.

ghost use Rattle.std.specs.Prelude.{true, false, ◌≡◌, ◌≤◌, ◌+◌, ◌++◌, ◌∷◌, [], ◌↔◌, length, drop, List, ℕ, OnOk, OnErr, IfOk, IsOk, IsTrue, refl};
ghost use Rattle.std.specs.Cow.{cow_slice_items};
ghost use Rattle.mysql_wire.specs.Reading.{Answers, IsTail};
ghost use Rattle.mysql_wire.specs.Form.{Form, give};
ghost use Rattle.mysql_wire.specs.Seq.{counted, counts_first, asks_memory, items_of, seq, seq_bytes, IsHeld};

use crate::buf::ParseBuf;
use crate::buffer::Buffer;
use crate::fault::FaultOf;
use crate::int::{IntRepr, RawInt};
use crate::items::{append_items, items_len};
use crate::little_endian::LeU64;
use crate::many::take_first_capacity;
use crate::proto::{AnyWidth, MyDeserialize, MySerialize, Width};
use std::alloc::{AllocError, Global};
use std::borrow::CowSlice;
use std::fmt;
use std::fmt::Debug;
use std::hash::{Hash, Hasher};
use std::marker::{Model, PhantomData};

/// The capacity to reserve for a list: at most the count, and at most what the unread bytes can hold.
///
/// Values without a constant size, or without bytes, get none: their list grows as they are read.
fn capacity_for(count: u64, size: Option<usize>, unread: usize) -> usize
    ensures wanted { result ≤ count }
    ensures held { IsHeld size result unread }
{
    match size {
        None | Some(0) => 0,
        Some(size) => (count as usize).min(unread / size),
    }
}

/// Reads `count` values. A fault of the first one is returned before any memory is taken.
fn read_items<'s, 'a, T: MyDeserialize<'a, Ctx = ()> + Drop>(
    count: u64,
    buf: &mut ParseBuf<'a>,
) -> Result<Vec<T>, FaultOf<'s>>
    ensures value { Answers (asks_memory (T.takes_memory tt buf.old) ((T.form tt).reads buf.old)) (items_of result) buf.new ((counted count (T.form tt)).reads buf.old) }
{
    let capacity = capacity_for(count, <T::Size as Width>::SIZE, buf.len());
    let mut items = Vec::new(buf.alloc());
    for _ in 0..count {
        let item = buf.parse(())?;
        take_first_capacity(&mut items, capacity)?;
        items.push(item)?;
    }
    Ok(items)
}

/// The encoding of a list's count: [`LeU64`] or [`Unknown`].
pub trait SeqRepr {
    /// The context of a reading, such as the count.
    type Ctx: Drop;

    /// The grammar of the count.
    ghost form: { Self.Ctx → Form ℕ };

    /// Reads the count.
    fn read_count<'s>(ctx: Self::Ctx, buf: &mut ParseBuf<'_>) -> Result<u64, FaultOf<'s>>
        ensures value { Answers false result buf.new ((form ctx).reads buf.old) }
        ensures tail { OnErr result (IsTail buf.new buf.old) };

    /// The bytes that a count is written as.
    ghost written: { ℕ → List ℕ };

    /// The encoded length of a count.
    fn written_len(count: usize) -> usize
        ensures { result ≡ length (written count) };

    /// Writes the count to a buffer that has capacity.
    fn append<O: Buffer>(count: usize, out: &mut O)
        requires { length (O.held out.old) + length (written count) ≤ O.capacity out.old }
        ensures items { O.held out.new ≡ O.held out.old ++ written count }
        ensures after { O.after out.new ≡ drop (length (written count)) (O.after out.old) }
        ensures capacity { O.capacity out.old ≤ O.capacity out.new }
        ensures kept { O.kept out.new ≡ O.kept out.old };
}

/// A count of eight bytes, little-endian.
impl SeqRepr for LeU64 {
    type Ctx = ();

    ghost use Rattle.mysql_wire.specs.Int.{le_u64, number_of};

    ghost form = { λ _. number_of le_u64 };

    fn read_count<'s>(_ctx: (), buf: &mut ParseBuf<'_>) -> Result<u64, FaultOf<'s>> {
        let count: RawInt<LeU64> = buf.parse(())?;
        Ok(count.0)
    }

    ghost use Rattle.mysql_wire.specs.Writing.{le_bytes};

    ghost written = { le_bytes 8 };

    #[tactic(auto, unfolding(crate::specs::Writing::le_bytes))]
    fn written_len(_count: usize) -> usize {
        8
    }

    #[tactic(auto, using(crate::proofs::After::after))]
    fn append<O: Buffer>(count: usize, out: &mut O) {
        <LeU64 as IntRepr>::append(count as u64, out);
    }
}

/// A count that the caller passes, and that isn't in the bytes.
#[derive(Clone, Copy, Debug, PartialEq, Eq, Hash)]
pub struct Unknown;

impl SeqRepr for Unknown {
    type Ctx = usize;

    ghost form = { give };

    fn read_count<'s>(ctx: usize, _buf: &mut ParseBuf<'_>) -> Result<u64, FaultOf<'s>> {
        Ok(ctx as u64)
    }

    ghost written = { λ _. [] };

    fn written_len(_count: usize) -> usize {
        0
    }

    fn append<O: Buffer>(_count: usize, _out: &mut O) {}
}

/// A list of values in a wire form, borrowed or owned: the count in the form `L`, then the values.
///
/// Lists with the same values are equal, whoever owns them.
pub struct Seq<'a, T, L>(CowSlice<'a, T>, PhantomData<L>);

impl<T: Drop, L> Drop for Seq<'_, T, L> {
    #[inline(always)]
    fn drop(self) {
        let Seq(_, _) = self;
    }
}

impl<'a, T, L> Model for Seq<'a, T, L> {
    ghost use Rattle.std.specs.Prelude.{List};
    ghost use Rattle.std.specs.Cow.{cow_slice_items};

    ghost Value = { List T };

    ghost view = { λ s. cow_slice_items s.0 };
}

impl<'a, T, L> Seq<'a, T, L> {
    /// Creates a list that owns these values.
    pub fn owned(values: Vec<T>) -> Self
        ensures value { result ≡ values.items }
    {
        Seq(CowSlice::Owned(values), PhantomData)
    }

    /// Creates a list that borrows these values.
    pub fn borrowed(values: &'a [T]) -> Self
        ensures value { result ≡ values.now }
    {
        Seq(CowSlice::Borrowed(values), PhantomData)
    }

    /// The values.
    #[inline]
    pub fn as_slice(&self) -> &[T]
        ensures value { result.now ≡ self.now }
    {
        self.0.as_slice()
    }

    /// The number of values.
    #[inline]
    pub fn len(&self) -> usize
        ensures value { result ≡ length self.now }
    {
        self.0.len()
    }

    /// Whether there is no value.
    #[inline]
    pub fn is_empty(&self) -> bool
        ensures value { IsTrue result ↔ (self.now ≡ []) }
    {
        self.as_slice().is_empty()
    }

    /// Returns the values, as the slice or `Vec` that the list was created from.
    pub fn into_inner(self) -> CowSlice<'a, T>
        ensures value { cow_slice_items result ≡ self.entry }
    {
        let Seq(values, _) = self;
        values
    }

    /// Clones the list: borrowed values stay borrowed, and owned ones are cloned. An empty list takes no memory.
    ///
    /// Requires that a clone of a value equals it.
    pub fn clone(&self) -> Result<Seq<'a, T, L>, AllocError>
    where
        T: Clone,
        requires clones { (x y : T) → T.is_clone x y → y ≡ x }
        ensures value { IfOk result (λ copy. copy ≡ self.now) }
        ensures no_memory { self.now ≡ [] → IsOk result }
    {
        if self.is_empty() {
            return Ok(Seq::default());
        }
        Ok(Seq(self.0.clone()?, PhantomData))
    }

    /// Appends a value. Borrowed values are cloned first.
    ///
    /// Requires that a clone of a value equals it. If the allocation fails, the list is unchanged and the value
    /// is dropped.
    pub fn push(&mut self, alloc: Global, value: T) -> Result<(), AllocError>
    where
        T: Clone + Drop,
        requires clones { (x y : T) → T.is_clone x y → y ≡ x }
        ensures ok { OnOk result (self.new ≡ self.old ++ value ∷ []) }
        ensures err { OnErr result (self.new ≡ self.old) }
    {
        match &mut self.0 {
            CowSlice::Borrowed(values) => {
                let mut owned = Vec::from_clones(alloc, values)?;
                owned.push(value)?;
                self.0 = CowSlice::Owned(owned);
            }
            CowSlice::Owned(values) => values.push(value)?,
        }
        Ok(())
    }
}

impl<T, L> Default for Seq<'_, T, L> {
    ghost is_default = { λ s. s ≡ [] };

    /// Creates an empty list.
    fn default() -> Self {
        Seq::borrowed(&[])
    }
}

impl<T: PartialEq, L> PartialEq for Seq<'_, T, L> {
    ghost use Rattle.std.specs.Cmp.Lexicographic.{pointwise, lists_per};

    ghost eq = { pointwise T.eq };

    ghost laws = { lists_per T.laws };

    fn eq(&self, other: &Self) -> bool {
        self.as_slice() == other.as_slice()
    }
}

impl<T: Eq, L> Eq for Seq<'_, T, L> {
    ghost use Rattle.std.specs.Cmp.Lexicographic.{lists_equiv};

    ghost laws = { lists_equiv T.Eq.laws };
}

impl<T: Hash, L> Hash for Seq<'_, T, L> {
    ghost use Rattle.std.specs.Hash as fed;
    ghost use Rattle.std.specs.Hash.{items_Alike};

    ghost hash_input = { fed.slice T.hash_input };

    ghost respects_eq = { (items_Alike (record { fed = T.respects_eq })).fed };

    fn hash<H: Hasher>(&self, state: &mut H) {
        self.as_slice().hash(state);
    }
}

impl<T: Debug, L> Debug for Seq<'_, T, L> {
    fn fmt<W: fmt::Write>(&self, f: &mut fmt::Formatter<W>) -> fmt::Result {
        self.as_slice().fmt(f)
    }
}

impl<'de, T: MyDeserialize<'de, Ctx = ()> + Drop, L: SeqRepr> MyDeserialize<'de>
    for Seq<'de, T, L> {
    const SIZE: Option<usize> = None;

    type Size = AnyWidth;

    ghost takes_memory = { λ ctx bytes. counts_first (T.takes_memory tt) (T.form tt) ((L.form ctx).reads bytes) };

    type Ctx = L::Ctx;

    ghost form = { λ ctx. seq (L.form ctx) (T.form tt) };

    #[tactic(auto, unfolding(crate::specs::Seq::counted))]
    fn deserialize<'s>(ctx: L::Ctx, buf: &mut ParseBuf<'de>) -> Result<Self, FaultOf<'s>> {
        let mut rest = buf.rest();
        let count = L::read_count(ctx, &mut rest)?;
        // Without values nothing is allocated.
        if count == 0 {
            *buf = rest;
            return Ok(Seq::borrowed(&[]));
        }
        let items = read_items(count, &mut rest)?;
        *buf = rest;
        Ok(Seq::owned(items))
    }

    ghost size_is = { λ _. refl };
}

impl<T: MySerialize, L: SeqRepr> MySerialize for Seq<'_, T, L> {
    ghost bytes = { seq_bytes L.written T.bytes };

    #[tactic(auto, using(crate::specs::Writing::lengths_known), unfolding(crate::specs::Writing::saturated))]
    fn defined_len(&self) -> usize {
        L::written_len(self.len()).saturating_add(items_len(self.as_slice()))
    }

    #[tactic(auto, using(crate::proofs::After::after))]
    fn append<O: Buffer>(&self, out: &mut O) {
        L::append(self.len(), out);
        append_items(self.as_slice(), out);
    }
}
