//! Rows of a result.

ghost use Rattle.std.specs.Prelude.{◌≡◌, ◌<◌, ℕ, List, length, map, slice_index_or, slice_set, Option, Some, None, IsSome, IsOk, IfOk, IsTrue, ◌↔◌, []};
ghost use Rattle.std.specs.Option.{option_copied};
ghost use Rattle.std.specs.Rc.{rc_slice_items};
ghost use Rattle.mysql_values.specs.declared.value.Value.{Value};
ghost use Rattle.mysql_values.specs.Cells.{held};
ghost use Rattle.mysql_stmt.specs.Row.{AllThere, AnswersFound, ConvertsTo, CopyConvertsTo, FindsNoBytes, FoundConverts, IsCopyAs, TakesFound, place_of_name, value_at};

use crate::column_index::ColumnIndex;
use mysql_replies::Column;
use mysql_values::{FromValue, FromValueError, Value};
use std::alloc::{AllocError, Global};
use std::marker::Model;
use std::ops::Index;
use std::rc::RcSlice;

/// A row of a result: for each column a value, unless it has been taken.
///
/// In a clause a row is its values and its columns, of which there are as many.
///
/// ```
/// let mut buf = ParseBuf::new(alloc, payload);
/// let row: RowDeserializer<ServerSide, P> = buf.parse(columns.clone()?)?;
/// Ok(row.into_inner())
/// ```
#[derive(Debug)]
pub struct Row {
    values: Vec<Option<Value>>,
    columns: RcSlice<Column>,
}

impl Drop for Row {
    #[inline(always)]
    fn drop(self) {
        let Row {
            values: _,
            columns: _,
        } = self;
    }
}

impl Model for Row {
    ghost use Rattle.std.specs.Prelude.{◌≡◌, length};
    ghost use Rattle.std.specs.Rc.{rc_slice_items};
    ghost use Rattle.mysql_stmt.specs.Row.{Cells};

    ghost Value = { Cells };

    ghost view = { λ row. record { cells = row.values.items; columns = rc_slice_items row.columns } };

    ghost invariant = { λ row. length row.values.items ≡ length (rc_slice_items row.columns) };
}

/// Creates a row from its values, one for each column.
pub fn new_row(
    alloc: Global,
    values: Vec<Value>,
    columns: RcSlice<Column>,
) -> Result<Row, AllocError>
    requires { length values.items ≡ length (rc_slice_items columns) }
    ensures cells { IfOk result (λ row. row.cells ≡ map Some values.items) }
    ensures columns { IfOk result (λ row. row.columns ≡ rc_slice_items columns) }
    ensures no_memory { values.items ≡ [] → IsOk result }
{
    let mut cells = Vec::with_capacity(alloc, values.len())?;
    for value in values {
        cells.push_reserved(Some(value));
    }
    Ok(new_row_raw(cells, columns))
}

/// Creates a row from its values, some of which may have been taken. It takes no memory.
pub fn new_row_raw(values: Vec<Option<Value>>, columns: RcSlice<Column>) -> Row
    requires { length values.items ≡ length (rc_slice_items columns) }
    ensures cells { result.cells ≡ values.items }
    ensures columns { result.columns ≡ rc_slice_items columns }
{
    Row { values, columns }
}

impl Row {
    /// The number of columns, and of values including those that were taken.
    pub fn len(&self) -> usize
        ensures cells { result ≡ length self.now.cells }
        ensures columns { result ≡ length self.now.columns }
    {
        self.values.len()
    }

    /// Whether there is no column.
    pub fn is_empty(&self) -> bool
        ensures { IsTrue result ↔ (self.now.cells ≡ []) }
    {
        self.values.is_empty()
    }

    /// The columns.
    pub fn columns_ref(&self) -> &[Column]
        ensures value { result.now ≡ self.now.columns }
    {
        self.columns.as_slice()
    }

    /// Returns a shared reference to the columns.
    pub fn columns(&self) -> Result<RcSlice<Column>, AllocError>
        ensures value { IfOk result (λ columns. rc_slice_items columns ≡ self.now.columns) }
    {
        self.columns.clone()
    }

    /// The value at this position, if there is one.
    pub fn as_ref(&self, index: usize) -> Option<&Value>
        ensures value { option_copied result ≡ value_at self.now.cells (Some index) }
    {
        match self.values.get(index) {
            Some(Some(value)) => Some(value),
            _ => None,
        }
    }

    /// Returns a converted copy of the value that the index finds, or `None` if it finds none.
    ///
    /// The value must convert ([`get_opt`](Self::get_opt) returns an error instead). Only the copy of a
    /// nonempty string takes memory.
    pub fn get<T: FromValue, I: ColumnIndex + Drop>(
        &self,
        index: I,
    ) -> Result<Option<T>, AllocError>
        requires converts { FoundConverts (I.Finds index self.now.columns) self.now.cells T.Converts }
        ensures value { IfOk result (λ answer. AnswersFound (I.Finds index self.now.columns) self.now.cells (IsCopyAs T.Converts) answer) }
        ensures no_memory { FindsNoBytes (I.Finds index self.now.columns) self.now.cells → IsOk result }
    {
        let Some(place) = index.idx(&self.columns) else {
            return Ok(None);
        };
        let Some(value) = self.as_ref(place) else {
            return Ok(None);
        };
        let copy = value.clone()?;
        Ok(T::from_value_opt(copy).ok())
    }

    /// Returns a converted copy of the value that the index finds, or an error with the copy if it doesn't
    /// convert. The result is `None` if the index finds no value. Only the copy of a nonempty string takes
    /// memory.
    pub fn get_opt<T: FromValue, I: ColumnIndex + Drop>(
        &self,
        index: I,
    ) -> Result<Option<Result<T, FromValueError>>, AllocError>
        ensures value { IfOk result (λ answer. AnswersFound (I.Finds index self.now.columns) self.now.cells (CopyConvertsTo T.Converts) answer) }
        ensures no_memory { FindsNoBytes (I.Finds index self.now.columns) self.now.cells → IsOk result }
    {
        let Some(place) = index.idx(&self.columns) else {
            return Ok(None);
        };
        let Some(value) = self.as_ref(place) else {
            return Ok(None);
        };
        Ok(Some(T::from_value_opt(value.clone()?)))
    }

    /// Takes the value that the index finds out of the row, and converts it. The result is `None` if the index
    /// finds no value.
    ///
    /// The value must convert ([`take_opt`](Self::take_opt) returns an error instead). Other values are unchanged.
    pub fn take<T: FromValue, I: ColumnIndex + Drop>(&mut self, index: I) -> Option<T>
        requires converts { FoundConverts (I.Finds index self.old.columns) self.old.cells T.Converts }
        ensures value { TakesFound (I.Finds index self.old.columns) self.old.cells self.new.cells T.Converts result }
        ensures columns { self.new.columns ≡ self.old.columns }
    {
        let place = index.idx(&self.columns)?;
        let value = self.values.get_mut(place)?.take()?;
        T::from_value_opt(value).ok()
    }

    /// Takes the value that the index finds out of the row, and converts it, or returns it in the error if it
    /// doesn't convert. The result is `None` if the index finds no value.
    ///
    /// The value is removed in both cases. Other values are unchanged.
    pub fn take_opt<T: FromValue, I: ColumnIndex + Drop>(
        &mut self,
        index: I,
    ) -> Option<Result<T, FromValueError>>
        ensures value { TakesFound (I.Finds index self.old.columns) self.old.cells self.new.cells (ConvertsTo T.Converts) result }
        ensures columns { self.new.columns ≡ self.old.columns }
    {
        let place = index.idx(&self.columns)?;
        let value = self.values.get_mut(place)?.take()?;
        Some(T::from_value_opt(value))
    }

    /// Returns the values, none of which was taken.
    ///
    /// If the allocation fails, the row is dropped.
    pub fn unwrap(self, alloc: Global) -> Result<Vec<Value>, AllocError>
        requires { AllThere self.cells }
        ensures value { IfOk result (λ values. map Some values.items ≡ self.cells) }
        ensures no_memory { self.cells ≡ [] → IsOk result }
    {
        let cells = self.unwrap_raw();
        let mut values = Vec::with_capacity(alloc, cells.len())?;
        for cell in cells {
            values.push_reserved(cell.unwrap());
        }
        Ok(values)
    }

    /// Returns the values, some of which may have been taken. It takes no memory.
    pub fn unwrap_raw(self) -> Vec<Option<Value>>
        ensures value { result.items ≡ self.cells }
    {
        let Row { values, columns: _ } = self;
        values
    }

    /// Sets the value at a position in the row.
    pub fn place(&mut self, index: usize, value: Value)
        requires { index < length self.old.cells }
        ensures cells { self.new.cells ≡ slice_set self.old.cells index (Some value) }
        ensures columns { self.new.columns ≡ self.old.columns }
    {
        self.values[index] = Some(value);
    }
}

impl Clone for Row {
    ghost use Rattle.mysql_values.specs.Cells.{held};

    ghost is_clone = { λ row copy. (held copy.cells ≡ held row.cells) × (copy.columns ≡ row.columns) };

    /// Copies the values; the columns are shared.
    fn clone(&self) -> Result<Self, AllocError> {
        let values = self.values.clone()?;
        let columns = self.columns()?;
        Ok(new_row_raw(values, columns))
    }
}

/// Rows are equal if their values and their columns are.
impl PartialEq for Row {
    ghost use Rattle.mysql_stmt.specs.RowEq.{row_eq, row_per};
    ghost use Rattle.mysql_replies.specs.contracts.column.ColumnPartialEq.TheImpl.Laws.{laws-law};

    ghost eq = { row_eq ⟦<Column as PartialEq>⟧.eq };

    ghost laws = { row_per ⟦<Column as PartialEq>⟧.eq laws-law };

    #[tactic(auto, using(crate::proofs::CellsEq::same_cells))]
    fn eq(&self, other: &Self) -> bool {
        self.values == other.values && self.columns == other.columns
    }
}

/// The value at a position. There must be one: see [`Row::as_ref`].
impl Index<usize> for Row {
    type Output = Value;

    ghost can_index = { λ row i. IsSome (value_at row.cells (Some i)) };

    ghost index_gives = { λ row i value. value_at row.cells (Some i) ≡ Some value };

    fn index(&self, index: usize) -> &Value {
        self.as_ref(index).unwrap()
    }
}

/// The value of the first column of this name. There must be one.
impl Index<&str> for Row {
    type Output = Value;

    ghost can_index = { λ row name. IsSome (value_at row.cells (place_of_name name.now row.columns)) };

    ghost index_gives = { λ row name value. value_at row.cells (place_of_name name.now row.columns) ≡ Some value };

    fn index(&self, name: &str) -> &Value {
        let place = name.idx(&self.columns).unwrap();
        self.as_ref(place).unwrap()
    }
}
