//! Binary rows that are read value by value, without memory.

ghost use Rattle.std.specs.Prelude.{false, ◌≡◌, ◌<◌, ◌≤◌, ℕ, List, ◌∷◌, Ok, Some, length, MatchOption, IfSome, IfOk, IfErr, OnOk, OnErr};
ghost use Rattle.mysql_wire.specs.Reading.{Answers, Faults};
ghost use Rattle.mysql_values.specs.ValueDeserializer.{bin_value, value_of_kind};
ghost use Rattle.mysql_values.specs.ValueRef.{refs_contents};
ghost use Rattle.mysql_stmt.specs.RowView.{Fills, GivesOne, IsBinaryRow, IsDone, PutsValue, RefusesNext, bin_row_of, read_of, ref_cell, ref_unless, row_front, row_left};
ghost use Rattle.mysql_stmt.specs.StoredRow.{ChecksRow, PassesValue};

use crate::null_bitmap::NullBitmap;
use crate::row_values::is_null_at;
use crate::row_view::RowView;
use crate::stored_form::StoredForm;
use crate::typed_column::TypedColumn;
use mysql_values::{
    SerializationSide, ValueKind, ValueRef, read_bin_ref, read_kind_ref, read_long_ref,
    read_longlong_ref, read_string_ref, string_type,
};
use mysql_wire::{ColumnType, FaultOf, MyDeserialize, ParseBuf, Skip};
use std::borrow::CowSlice;
use std::marker::Model;

/// Reads the value of a column, or NULL, which takes no bytes.
#[inline(always)]
fn read_unless<'s, 'de, C: TypedColumn>(
    is_null: bool,
    column: &C,
    buf: &mut ParseBuf<'de>,
) -> Result<ValueRef<'de>, FaultOf<'s>>
    ensures value { Answers false (refs_contents result) buf.new ((ref_unless C.type_of C.unsigned is_null column.now).reads buf.old) }
{
    if is_null {
        return Ok(ValueRef::NULL);
    }
    read_bin_ref(column.value_type(), column.is_unsigned(), buf)
}

/// Reads a value of this type into its place.
#[inline]
fn put_value<'s, 'de>(
    column_type: ColumnType,
    is_unsigned: bool,
    buf: &mut ParseBuf<'de>,
    place: &mut ValueRef<'de>,
) -> Result<(), FaultOf<'s>>
    ensures { PutsValue (bin_value column_type is_unsigned) result buf.old buf.new place.old place.new }
{
    *place = read_bin_ref(column_type, is_unsigned, buf)?;
    Ok(())
}

/// Reads a value of a less frequent type into its place.
#[inline(never)]
fn put_seldom<'s, 'de>(
    column_type: ColumnType,
    is_unsigned: bool,
    buf: &mut ParseBuf<'de>,
    place: &mut ValueRef<'de>,
) -> Result<(), FaultOf<'s>>
    ensures { PutsValue (bin_value column_type is_unsigned) result buf.old buf.new place.old place.new }
{
    put_value(column_type, is_unsigned, buf, place)
}

/// Reads a value into its place through a buffer of its own, so that the caller's stays in registers.
#[inline(always)]
fn put_apart<'s, 'de>(
    column_type: ColumnType,
    is_unsigned: bool,
    buf: &mut ParseBuf<'de>,
    place: &mut ValueRef<'de>,
) -> Result<(), FaultOf<'s>>
    ensures { PutsValue (bin_value column_type is_unsigned) result buf.old buf.new place.old place.new }
{
    let mut rest = buf.rest();
    put_seldom(column_type, is_unsigned, &mut rest, place)?;
    *buf = rest;
    Ok(())
}

/// Reads the most frequent types by code for that type only, and the others by a call, so that a value is
/// written directly to its place. Types with the same encoding share an arm.
macro_rules! put_by_type {
    ($column_type:expr, $is_unsigned:expr, $buf:expr, $place:expr; $($often:ident $(| $alike:ident)*,)*) => {
        match $column_type {
            $(ColumnType::$often $(| ColumnType::$alike)* => put_value(ColumnType::$often, $is_unsigned, $buf, $place),)*
            string_type!() => put_value(ColumnType::MYSQL_TYPE_STRING, $is_unsigned, $buf, $place),
            other => put_apart(other, $is_unsigned, $buf, $place),
        }
    };
}

/// Reads the value of a column, or NULL, which takes no bytes, into its place.
#[inline(always)]
fn put_unless<'s, 'de, C: TypedColumn>(
    is_null: bool,
    column: &C,
    buf: &mut ParseBuf<'de>,
    place: &mut ValueRef<'de>,
) -> Result<(), FaultOf<'s>>
    ensures { PutsValue (ref_unless C.type_of C.unsigned is_null column.now) result buf.old buf.new place.old place.new }
{
    if is_null {
        *place = ValueRef::NULL;
        return Ok(());
    }
    put_by_type!(column.value_type(), column.is_unsigned(), buf, place;
        MYSQL_TYPE_TINY, MYSQL_TYPE_SHORT | MYSQL_TYPE_YEAR, MYSQL_TYPE_LONG | MYSQL_TYPE_INT24, MYSQL_TYPE_LONGLONG,
        MYSQL_TYPE_DOUBLE,)
}

/// The form in which a value of this kind is stored, once it is read.
#[inline(always)]
fn stored_as<'s>(
    kind: ValueKind,
    is_unsigned: bool,
    read: Result<ValueRef<'_>, FaultOf<'s>>,
) -> Result<StoredForm, FaultOf<'s>>
    ensures value { (bytes rest : List ℕ) → Answers false (refs_contents read.entry) rest ((value_of_kind kind is_unsigned).reads bytes) → PassesValue (value_of_kind kind is_unsigned) result bytes rest }
{
    match read {
        Ok(_value) => Ok(StoredForm::of(kind, is_unsigned)),
        Err(fault) => Err(fault),
    }
}

/// Reads a value of a less frequent kind, and returns how it is encoded.
#[inline(never)]
fn pass_seldom<'s, 'de>(
    kind: ValueKind,
    is_unsigned: bool,
    buf: &mut ParseBuf<'de>,
) -> Result<StoredForm, FaultOf<'s>>
    ensures value { PassesValue (value_of_kind kind is_unsigned) result buf.old buf.new }
{
    stored_as(kind, is_unsigned, read_kind_ref(kind, is_unsigned, buf))
}

/// Reads a value through a buffer of its own, so that the caller's stays in registers.
#[inline(always)]
fn pass_apart<'s, 'de>(
    kind: ValueKind,
    is_unsigned: bool,
    buf: &mut ParseBuf<'de>,
) -> Result<StoredForm, FaultOf<'s>>
    ensures value { PassesValue (value_of_kind kind is_unsigned) result buf.old buf.new }
{
    let mut rest = buf.rest();
    let form = pass_seldom(kind, is_unsigned, &mut rest)?;
    *buf = rest;
    Ok(form)
}

/// Reads a value in the form of the type, by code of its own for the most frequent types.
#[inline(always)]
fn pass_value<'s, 'de>(
    column_type: ColumnType,
    is_unsigned: bool,
    buf: &mut ParseBuf<'de>,
) -> Result<StoredForm, FaultOf<'s>>
    ensures value { PassesValue (bin_value column_type is_unsigned) result buf.old buf.new }
{
    match column_type {
        string_type!() => stored_as(ValueKind::String, is_unsigned, read_string_ref(buf)),
        ColumnType::MYSQL_TYPE_LONG | ColumnType::MYSQL_TYPE_INT24 => {
            stored_as(
                ValueKind::Long,
                is_unsigned,
                read_long_ref(is_unsigned, buf),
            )
        }
        ColumnType::MYSQL_TYPE_LONGLONG => {
            stored_as(
                ValueKind::LongLong,
                is_unsigned,
                read_longlong_ref(is_unsigned, buf),
            )
        }
        other => pass_apart(ValueKind::of(other), is_unsigned, buf),
    }
}

/// Reads the value of a column, or NULL, which takes no bytes, and returns how it is encoded.
#[inline(always)]
fn pass_unless<'s, 'de, C: TypedColumn>(
    is_null: bool,
    column: &C,
    buf: &mut ParseBuf<'de>,
) -> Result<StoredForm, FaultOf<'s>>
    ensures value { PassesValue (ref_unless C.type_of C.unsigned is_null column.now) result buf.old buf.new }
{
    if is_null {
        return Ok(StoredForm::Null);
    }
    pass_value(column.value_type(), column.is_unsigned(), buf)
}

/// A binary row (`ProtocolBinary::ResultsetRow`) that is read value by value, with columns of type `C`, written
/// by the side `S`.
///
/// It takes no memory, and the bytes of a value stay in the row. A loop over [`next_value`](Self::next_value)
/// returns the same values as [`RowDeserializer`](crate::RowDeserializer), and the same fault;
/// [`read_rest`](Self::read_rest) reads them into a slice of the caller.
///
/// In a clause it is the number of remaining values, those before the first fault, the bytes after the last
/// value or the kind of that fault, and the bytes after the values that were read.
///
/// ```
/// fn binary_values_of(row: BinaryRowView<'_, '_, ServerSide, RowColumn>) -> u64 {
///     let mut row = row;
///     let mut count: u64 = 0;
///     for _ in 0..row.left() {
///         let Ok(Some(_value)) = row.next_value() else {
///             break;
///         };
/// ```
#[derive(Drop)]
pub struct BinaryRowView<'a, 'c, S: SerializationSide, C: TypedColumn> {
    buf: ParseBuf<'a>,
    nulls: NullBitmap<'a, S>,
    none: bool,
    place: usize,
    columns: &'c [C],
}

impl<'a, 'c, S: SerializationSide, C: TypedColumn> Model for BinaryRowView<'a, 'c, S, C> {
    ghost use Rattle.std.specs.Prelude.{length};
    ghost use Rattle.mysql_stmt.specs.RowView.{RowLeft, HasBits, ref_cell, row_left};

    ghost Value = { RowLeft };

    ghost view = { λ r. row_left (ref_cell C.type_of C.unsigned r.nulls.bytes S.BIT_OFFSET) r.place r.columns.now r.buf };

    ghost invariant = { λ r. HasBits r.nulls.bytes S.BIT_OFFSET r.none r.place (length r.columns.now) };
}

impl<'a, 'c, S: SerializationSide, C: TypedColumn> BinaryRowView<'a, 'c, S, C> {
    /// Reads the fields before the values: a byte with any value, and the NULL bitmap. Fewer bytes are `UnexpectedEof`;
    /// faults of the values are returned by `next_value`.
    #[inline(always)]
    pub fn new<'s>(columns: &'c [C], buf: ParseBuf<'a>) -> Result<Self, FaultOf<'s>>
        ensures left { IfOk result (λ row. row.left ≡ length columns.now) }
        ensures read { IfOk result (λ row. read_of row ≡ (bin_row_of C.type_of C.unsigned S.BIT_OFFSET columns.now).reads buf.entry) }
        ensures values { IfOk result (IsBinaryRow C.type_of C.unsigned S.BIT_OFFSET columns.now buf.entry) }
        ensures fault { IfErr result (λ e. Faults false e ((bin_row_of C.type_of C.unsigned S.BIT_OFFSET columns.now).reads buf.entry)) }
        ensures front { IfErr result (λ e. Faults false e ((row_front C.type_of C.unsigned S.BIT_OFFSET columns.now).reads buf.entry)) }
    {
        let mut rest = buf;
        let _header: Skip<1> = rest.parse(())?;
        let nulls = NullBitmap::<'a, S>::deserialize(columns.len(), &mut rest)?;
        let none = nulls.as_bytes().iter().all(|byte| *byte == 0);
        Ok(BinaryRowView {
            buf: rest,
            nulls,
            none,
            place: 0,
            columns,
        })
    }

    /// The number of remaining values.
    #[inline(always)]
    pub fn left(&self) -> usize
        ensures value { result ≡ self.now.left }
        ensures done { result ≡ 0 → IsDone self.now }
    {
        self.columns.len()
    }

    /// The bytes after the values that were read: after the last, the bytes that follow the row.
    #[inline(always)]
    pub fn rest(&self) -> ParseBuf<'a>
        ensures value { self.now.left ≡ 0 → self.now.end ≡ Ok result }
        ensures read { result ≡ self.now.rest }
    {
        self.buf.rest()
    }

    /// The column of the next value, or `None` after the last.
    ///
    /// A caller that reads the next value in a branch for one type gets code for that type only.
    #[inline(always)]
    pub fn next_column(&self) -> Option<&'c C>
        ensures left { MatchOption result (self.now.left ≡ 0) (λ _. 0 < self.now.left) }
        // The rest of the row is what this column and the ones after it read.
        ensures column { IfSome result (λ column. (nulls : List ℕ) × (place : ℕ) × (others : List C)
            × (self.now ≡ row_left (ref_cell C.type_of C.unsigned nulls S.BIT_OFFSET) place (column.now ∷ others) self.now.rest)) }
    {
        let (column, _columns) = self.columns.split_first()?;
        Some(column)
    }

    /// Reads the next value, or returns `None` after the last. After an error the row is unchanged.
    #[inline(always)]
    #[tactic(auto, using(crate::proofs::NullBits::next_bits))]
    pub fn next_value<'s>(&mut self) -> Result<Option<ValueRef<'a>>, FaultOf<'s>>
        ensures value { GivesOne self.old result self.new }
    {
        let Some((column, columns)) = self.columns.split_first() else {
            return Ok(None);
        };
        let is_null = is_null_at(&self.nulls, self.none, self.place);
        let mut rest = self.buf.rest();
        let value = read_unless(is_null, column, &mut rest)?;
        self.buf = rest;
        self.columns = columns;
        self.place += 1;
        Ok(Some(value))
    }

    /// Reads the next value, which exists, into a place. After an error the row and the place are unchanged.
    #[inline(always)]
    #[tactic(auto, using(crate::proofs::NullBits::next_bits))]
    fn put_next<'s>(&mut self, place: &mut ValueRef<'a>) -> Result<(), FaultOf<'s>>
        requires { 0 < self.old.left }
        ensures value { OnOk result (GivesOne self.old (Ok (Some place.new)) self.new) }
        ensures refused { IfErr result (λ e. RefusesNext e self.old) }
        ensures row { OnErr result (self.new ≡ self.old) }
        ensures place { OnErr result (place.new ≡ place.old) }
    {
        let Some((column, columns)) = self.columns.split_first() else {
            return Ok(());
        };
        let is_null = is_null_at(&self.nulls, self.none, self.place);
        let mut rest = self.buf.rest();
        put_unless(is_null, column, &mut rest, place)?;
        self.buf = rest;
        self.columns = columns;
        self.place += 1;
        Ok(())
    }

    /// Reads the remaining values into the first elements of a slice, which must have at least as many.
    ///
    /// After an error the values before the faulty one are read: [`left`](Self::left) has decreased by their
    /// number, and the row continues at the faulty one. The other elements are unchanged.
    #[inline(always)]
    pub fn read_rest<'s>(&mut self, values: &mut [ValueRef<'a>]) -> Result<(), FaultOf<'s>>
        requires { self.old.left ≤ length values.old }
        ensures good { Fills self.old self.new values.old values.new }
        ensures all { OnOk result (IsDone self.new) }
        ensures refused { IfErr result (λ e. RefusesNext e self.new) }
    {
        let mut place = 0;
        while self.left() > 0 {
            self.put_next(&mut values[place])?;
            place += 1;
        }
        Ok(())
    }
}

/// Reads all remaining values, up to the first fault.
fn read_through<'s, S: SerializationSide, C: TypedColumn>(
    row: BinaryRowView<'_, '_, S, C>,
) -> Result<(), FaultOf<'s>>
    ensures value { ChecksRow result row.entry }
{
    let mut row = row;
    'values: while let Some(_value) = row.next_value()? {}
    row.rest();
    Ok(())
}

/// Each value is stored in the form of its column's type, or as NULL.
impl<'a, 'c, S: SerializationSide, C: TypedColumn> RowView<'a> for BinaryRowView<'a, 'c, S, C> {
    ghost remains = { λ row. row };

    #[inline(always)]
    fn remaining(&self) -> (usize, ParseBuf<'a>) {
        (self.left(), self.rest())
    }

    fn check<'s>(&self) -> Result<(), FaultOf<'s>> {
        let row: BinaryRowView<'_, 'c, S, C> = BinaryRowView {
            buf: self.buf.rest(),
            nulls: NullBitmap::from_bytes(CowSlice::Borrowed(self.nulls.as_bytes())),
            none: self.none,
            place: self.place,
            columns: self.columns,
        };
        read_through(row)
    }

    #[inline(always)]
    #[tactic(auto, using(crate::proofs::NullBits::next_bits))]
    fn next_form<'s>(&mut self) -> Result<Option<StoredForm>, FaultOf<'s>> {
        let Some((column, columns)) = self.columns.split_first() else {
            return Ok(None);
        };
        let is_null = is_null_at(&self.nulls, self.none, self.place);
        let mut rest = self.buf.rest();
        let form = pass_unless(is_null, column, &mut rest)?;
        self.buf = rest;
        self.columns = columns;
        self.place += 1;
        Ok(Some(form))
    }
}
