//! Rows that outlive their packets, in one block of memory.

ghost use Rattle.std.specs.Prelude.{true, false, ◌≡◌, ◌+◌, ◌*◌, ◌≤◌, ◌<◌, ◌^◌, [], IfOk, IfErr, IfNone, IfSome, OnOk, OnErr, IsOk, IsTrue, Some, drop, map, ◌↔◌, length, nat_lt, option_map, slice_get, vec_capacity};
ghost use Rattle.mysql_wire.specs.Reading.{Faults};
ghost use Rattle.std.specs.Rc.{rc_slice_items};
ghost use Rattle.mysql_values.specs.Cells.{held};
ghost use Rattle.mysql_values.specs.ValueRef.{ref_content};
ghost use Rattle.mysql_stmt.specs.RowView.{read_of};
ghost use Rattle.mysql_stmt.specs.StoredRow.{FindsValue, HoldsRow, IsEntry, StoresRow, first_entry, is_storable, reads_to_store, stored_size};

use crate::column_index::ColumnIndex;
use crate::row::{Row, new_row_raw};
use crate::row_view::RowView;
use crate::stored_form::{StoredForm, read_coded};
use mysql_replies::Column;
use mysql_values::ValueRef;
use mysql_wire::{Buffer, FaultOf, FixedInt, IntRepr, LeU64, ParseBuf};
use std::alloc::{AllocError, Global};
use std::marker::Model;
use std::mem;
use std::rc::RcSlice;

/// The length of an entry: a number of eight bytes, which holds the place of a value's bytes and its form.
const ENTRY: usize = 8;

/// How many places there are: the form is in the entry's upper half.
const PLACES: u64 = 1 << 32;

/// The entry of a value.
#[inline(always)]
fn entry_of(form: StoredForm, place: usize) -> u64
    requires { place < 2 ^ 32 }
    ensures value { IsEntry form place result }
{
    u64::from(form.code()) * PLACES + place as u64
}

/// The length of a row's block, if each offset in it fits four bytes.
#[inline(always)]
fn block_len<'a, V: RowView<'a>>(view: &V) -> Option<usize>
    ensures none { IfNone result (is_storable (V.remains view.now) ≡ false) }
    ensures some { IfSome result (λ size. size ≡ stored_size (V.remains view.now)) }
    ensures storable { IfSome result (λ _. is_storable (V.remains view.now) ≡ true) }
    ensures small { IfSome result (λ size. size < 2 ^ 32) }
{
    let count = view.left();
    let len = view.rest().len();
    if count < 1 << 28 && len < 1 << 31 {
        Some(ENTRY * count + len)
    } else {
        None
    }
}

/// Fills an empty block, which has the capacity of the row.
#[inline(always)]
fn filled<'a, 's, V: RowView<'a>>(view: V, block: Vec<u8>) -> Result<Vec<u8>, FaultOf<'s>>
    requires empty { block.items ≡ [] }
    requires capacity { stored_size (V.remains view) ≤ vec_capacity block }
    requires small { stored_size (V.remains view) < 2 ^ 32 }
    ensures holds { IfOk result (λ filled. HoldsRow (V.remains view) filled.items) }
    ensures capacity { IfOk result (λ filled. vec_capacity block ≤ vec_capacity filled) }
    ensures err { IfErr result (λ e. Faults false e (read_of (V.remains view))) }
{
    let mut view = view;
    let mut block = block;
    let mut source = view.rest();
    let size = ENTRY * view.left() + source.len();
    'values: loop {
        let place = size - view.rest().len();
        let Some(form) = view.next_form()? else {
            break;
        };
        <LeU64 as IntRepr>::append(entry_of(form, place), &mut block);
    }
    view.rest();
    block.push_bytes(source.eat_all());
    Ok(block)
}

/// Returns the entry of a value, of which the block has one.
#[inline(always)]
fn entry_at(alloc: Global, block: &[u8], index: usize) -> u64
    requires { 8 * index + 8 ≤ length block.now }
    ensures value { result ≡ first_entry (drop (8 * index) block.now) }
{
    let mut entries = ParseBuf::new(alloc, &block[ENTRY * index..]);
    LeU64::take(&mut entries)
}

/// A row that outlives its packet, in one block of memory: an entry of eight bytes for each value, and the bytes of the values.
///
/// It holds the values that remained in the [`RowView`] of a text row or a binary row. They borrow from the
/// block, and convert by [`FromValueRef`](mysql_values::FromValueRef).
///
/// In a clause it is its values, and the capacity of its block.
///
/// ```
/// let view: BinaryRowView<'_, '_, ServerSide, Column> = BinaryRowView::new(columns, buf)?;
/// let mut row = StoredRow::new(alloc);
/// row.store(view)?;
/// ```
#[derive(Drop)]
pub struct StoredRow {
    block: Vec<u8>,
    count: usize,
}

impl Model for StoredRow {
    ghost use Rattle.std.specs.Prelude.{vec_capacity};
    ghost use Rattle.mysql_stmt.specs.StoredRow.{AreStored, Stored, stored_values};

    ghost Value = { Stored };

    ghost view = { λ r. record { values = stored_values r.count r.block.items r.block.items; capacity = vec_capacity r.block } };

    ghost invariant = { λ r. AreStored r.count r.block.items r.block.items };
}

impl StoredRow {
    /// Creates a row without values. It takes no memory.
    pub fn new(alloc: Global) -> Self
        ensures values { result.values ≡ [] }
        ensures no_buffer { result.capacity ≡ 0 }
    {
        StoredRow {
            block: Vec::new(alloc),
            count: 0,
        }
    }

    /// Replaces the values by the remaining values of a row.
    ///
    /// The block is reused if it is large enough; otherwise one of the row's size is allocated. The error is `InvalidData` if the row
    /// has 2^28 values or 2^31 bytes, `Memory` if allocating a block failed, or the first fault of the values. After an error this row is
    /// unchanged.
    #[inline(always)]
    pub fn store<'a, 's, V: RowView<'a>>(&mut self, view: V) -> Result<(), FaultOf<'s>>
        ensures value { StoresRow (nat_lt self.old.capacity (stored_size (V.remains view))) result self.new.values (reads_to_store (V.remains view)) }
        ensures err { OnErr result (self.new ≡ self.old) }
        ensures capacity { self.old.capacity ≤ self.new.capacity }
        ensures enough { OnOk result (stored_size (V.remains view) ≤ self.new.capacity) }
    {
        let Some(size) = block_len(&view) else {
            return Err(FaultOf::InvalidData("Row too long"));
        };
        let count = view.left();
        let alloc = *self.block.allocator();
        if self.block.capacity() < size {
            let block = Vec::with_capacity(alloc, size)?;
            self.block = filled(view, block)?;
        } else {
            // (nothing is overwritten before the whole row is read)
            view.check()?;
            let mut block = mem::replace(&mut self.block, Vec::new(alloc));
            block.clear();
            self.block = filled(view, block).unwrap();
        }
        self.count = count;
        Ok(())
    }

    /// The number of values.
    #[inline(always)]
    pub fn len(&self) -> usize
        ensures value { result ≡ length self.now.values }
    {
        self.count
    }

    /// Whether there is no value.
    pub fn is_empty(&self) -> bool
        ensures value { IsTrue result ↔ (self.now.values ≡ []) }
    {
        self.count == 0
    }

    /// The number of bytes that its block can hold.
    pub fn capacity(&self) -> usize
        ensures value { result ≡ self.now.capacity }
    {
        self.block.capacity()
    }

    /// The value at a position, if there is one.
    #[inline(always)]
    pub fn value(&self, index: usize) -> Option<ValueRef<'_>>
        ensures value { option_map ref_content result ≡ slice_get self.now.values index }
    {
        if index >= self.count {
            return None;
        }
        let block = self.block.as_slice();
        let alloc = *self.block.allocator();
        let entry = entry_at(alloc, block, index);
        let mut bytes = ParseBuf::new(alloc, &block[(entry % PLACES) as usize..]);
        match read_coded(entry / PLACES, &mut bytes) {
            Ok(value) => Some(value),
            Err(_) => None,
        }
    }

    /// The value of the column that the index finds in these columns, for example by its name. A position past
    /// the end of the row finds none.
    pub fn value_by<I: ColumnIndex + Drop>(
        &self,
        columns: &[Column],
        index: I,
    ) -> Option<ValueRef<'_>>
        ensures value { FindsValue (I.Finds index columns.now) self.now.values (option_map ref_content result) }
    {
        let Some(place) = index.idx(columns) else {
            return None;
        };
        self.value(place)
    }

    /// Copies the values to an owned row of these columns, one for each value.
    ///
    /// It takes a block for the values, and one for each nonempty string.
    pub fn to_row(&self, alloc: Global, columns: RcSlice<Column>) -> Result<Row, AllocError>
        requires { length self.now.values ≡ length (rc_slice_items columns) }
        ensures cells { IfOk result (λ row. held row.cells ≡ map Some self.now.values) }
        ensures columns { IfOk result (λ row. row.columns ≡ rc_slice_items columns) }
        ensures no_memory { self.now.values ≡ [] → IsOk result }
    {
        let count = self.len();
        let mut cells = Vec::with_capacity(alloc, count)?;
        for place in 0..count {
            let value = self.value(place).unwrap();
            cells.push_reserved(Some(value.to_owned(alloc)?));
        }
        Ok(new_row_raw(cells, columns))
    }
}
