//! Text rows that are read value by value, without memory.

ghost use Rattle.std.specs.Prelude.{◌≡◌, ◌≤◌, ℕ, List, Ok, length, IfOk, IfSome, IfErr, OnOk};
ghost use Rattle.mysql_values.specs.ValueDeserializer.{text_value};
ghost use Rattle.mysql_values.specs.ValueRef.{ref_content};
ghost use Rattle.mysql_stmt.specs.RowView.{Fills, GivesOne, IsDone, RefusesNext, read_of, text_row_left, text_row_of};
ghost use Rattle.mysql_stmt.specs.StoredRow.{ChecksRow, ReadsAs};

use crate::row_view::RowView;
use crate::stored_form::StoredForm;
use mysql_values::{ValueRef, read_text_ref};
use mysql_wire::{FaultOf, ParseBuf};
use std::marker::Model;

/// A text row (`ProtocolText::ResultsetRow`) that is read value by value. Each value is bytes, or NULL.
///
/// It takes no memory, and the bytes of a value stay in the row. A loop over [`next_value`](Self::next_value)
/// returns the same values as [`RowDeserializer`](crate::RowDeserializer), and the same fault;
/// [`read_rest`](Self::read_rest) reads them into a slice of the caller.
///
/// In a clause it is the number of remaining values, those before the first fault, the bytes after the last
/// value or the kind of that fault, and the bytes after the values that were read.
///
/// ```
/// let mut row = TextRowView::new(2, ParseBuf::new(alloc, payload));
/// let first = row.next_value()?; // NULL, or bytes where they lie in the packet: no memory is taken
/// ```
#[derive(Drop)]
pub struct TextRowView<'a> {
    buf: ParseBuf<'a>,
    left: usize,
}

impl<'a> Model for TextRowView<'a> {
    ghost use Rattle.mysql_stmt.specs.RowView.{RowLeft, text_row_left};

    ghost Value = { RowLeft };

    ghost view = { λ r. text_row_left r.left r.buf };
}

impl<'a> TextRowView<'a> {
    /// Creates a view of a row of `columns` columns.
    #[inline(always)]
    pub fn new(columns: usize, buf: ParseBuf<'a>) -> Self
        ensures left { result.left ≡ columns }
        ensures read { read_of result ≡ (text_row_of columns).reads buf.entry }
        ensures values { result ≡ text_row_left columns buf.entry }
    {
        TextRowView { buf, left: columns }
    }

    /// The number of remaining values.
    #[inline(always)]
    pub fn left(&self) -> usize
        ensures value { result ≡ self.now.left }
        ensures done { result ≡ 0 → IsDone self.now }
    {
        self.left
    }

    /// The bytes after the values that were read: after the last, the bytes that follow the row.
    #[inline(always)]
    pub fn rest(&self) -> ParseBuf<'a>
        ensures value { self.now.left ≡ 0 → self.now.end ≡ Ok result }
        ensures read { result ≡ self.now.rest }
    {
        self.buf.rest()
    }

    /// Reads the next value, which is NULL or bytes, or returns `None` after the last. After an error the row
    /// is unchanged.
    #[inline(always)]
    pub fn next_value<'s>(&mut self) -> Result<Option<ValueRef<'a>>, FaultOf<'s>>
        ensures value { GivesOne self.old result self.new }
        ensures read { IfOk result (λ found. IfSome found (λ value. text_value.reads self.old.rest ≡ Ok (ref_content value, self.new.rest))) }
    {
        let Some(left) = self.left.checked_sub(1) else {
            return Ok(None);
        };
        let mut rest = self.buf.rest();
        let value = read_text_ref(&mut rest)?;
        self.buf = rest;
        self.left = left;
        Ok(Some(value))
    }

    /// Reads the remaining values into the first elements of a slice, which must have at least as many.
    ///
    /// After an error the values before the faulty one are read: [`left`](Self::left) has decreased by their
    /// number, and the row continues at the faulty one. The other elements are unchanged.
    #[inline(always)]
    pub fn read_rest<'s>(&mut self, values: &mut [ValueRef<'a>]) -> Result<(), FaultOf<'s>>
        requires { self.old.left ≤ length values.old }
        ensures good { Fills self.old self.new values.old values.new }
        ensures all { OnOk result (IsDone self.new) }
        ensures refused { IfErr result (λ e. RefusesNext e self.new) }
    {
        let mut place = 0;
        while let Some(value) = self.next_value()? {
            values[place] = value;
            place += 1;
        }
        Ok(())
    }
}

/// The form of a value of a text row.
#[inline(always)]
fn text_form(value: ValueRef<'_>) -> StoredForm
    ensures value { (bytes rest : List ℕ) → text_value.reads bytes ≡ Ok (ref_content value.entry, rest) → ReadsAs result bytes (ref_content value.entry) }
{
    match value {
        ValueRef::NULL => StoredForm::Null,
        _other => StoredForm::String,
    }
}

/// Reads all remaining values, up to the first fault.
fn read_through<'s>(row: TextRowView<'_>) -> Result<(), FaultOf<'s>>
    ensures value { ChecksRow result row.entry }
{
    let mut row = row;
    'values: while let Some(_value) = row.next_value()? {}
    row.rest();
    Ok(())
}

/// Each value is stored as a string, or as NULL.
impl<'a> RowView<'a> for TextRowView<'a> {
    ghost remains = { λ row. row };

    #[inline(always)]
    fn remaining(&self) -> (usize, ParseBuf<'a>) {
        (self.left(), self.rest())
    }

    fn check<'s>(&self) -> Result<(), FaultOf<'s>> {
        read_through(TextRowView {
            buf: self.buf.rest(),
            left: self.left,
        })
    }

    #[inline(always)]
    fn next_form<'s>(&mut self) -> Result<Option<StoredForm>, FaultOf<'s>> {
        match self.next_value()? {
            Some(value) => Ok(Some(text_form(value))),
            None => Ok(None),
        }
    }
}
