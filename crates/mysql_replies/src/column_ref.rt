//! A borrowed column of a result.
#![tactic(auto, using(mysql_wire::proofs::Packets::packets), unfolding(crate::specs::Column::column, crate::specs::ColumnNames::column_meta))]

ghost use Rattle.std.specs.Prelude.{◌≡◌, None, refl, IfOk, IfErr, IsTrue, ⊤};
ghost use Rattle.mysql_replies.specs.Column as spec;
ghost use Rattle.mysql_replies.specs.ColumnNames.{has_a_name};
ghost use Rattle.mysql_replies.specs.declared.column.Column.{Column};
ghost use Rattle.mysql_replies.specs.ColumnFields.{fields_of};

use crate::column::{Column, ColumnDefinitionCatalog, named};
use crate::column_fields::{ColumnFields, fields_of};
use crate::column_names::{ColumnNamesRef, read_names};
use mysql_wire::{AnyWidth, ColumnFlags, ColumnType, FaultOf, MyDeserialize, ParseBuf};
use std::alloc::{AllocError, Global};
use std::fmt;
use std::fmt::Debug;
use std::marker::Model;

/// A column of a result (`Protocol::ColumnDefinition41`) that borrows its names from the packet: a [`Column`]
/// that takes no memory.
///
/// It is read from the same bytes as a [`Column`], with the same faults except for `Memory`, and in a clause it
/// is that column.
///
/// ```
/// let column: ColumnRef<'_> = ParseBuf::new(alloc, payload).parse(())?;
/// Ok(column.name())
/// ```
#[derive(Drop)]
pub struct ColumnRef<'a> {
    pub(crate) names: ColumnNamesRef<'a>,
    character_set: u16,
    column_length: u32,
    column_type: ColumnType,
    flags: ColumnFlags,
    decimals: u8,
}

impl<'a> Model for ColumnRef<'a> {
    ghost Value = { Column };

    ghost view = { λ c. record {
      catalog = record { 0 = record {} };
      meta = c.names;
      fields = fields_of c.character_set c.column_length c.column_type c.flags c.decimals;
    } };
}

impl<'a> ColumnRef<'a> {
    /// Creates a column of these names and fields.
    #[inline]
    pub fn new(
        names: ColumnNamesRef<'a>,
        character_set: u16,
        column_length: u32,
        column_type: ColumnType,
        flags: ColumnFlags,
        decimals: u8,
    ) -> Self
        ensures value { result ≡ spec.column_with names.entry (fields_of character_set column_length column_type flags decimals) }
    {
        ColumnRef {
            names,
            character_set,
            column_length,
            column_type,
            flags,
            decimals,
        }
    }

    /// The bytes of the name of the schema.
    #[inline]
    pub fn schema(&self) -> &'a [u8]
        ensures value { result.now ≡ spec.schema self.now }
    {
        self.names.schema
    }

    /// The bytes of the name of the table, or of its alias.
    #[inline]
    pub fn table(&self) -> &'a [u8]
        ensures value { result.now ≡ spec.table self.now }
    {
        self.names.table
    }

    /// The bytes of the name of the table itself.
    #[inline]
    pub fn org_table(&self) -> &'a [u8]
        ensures value { result.now ≡ spec.org_table self.now }
    {
        self.names.org_table
    }

    /// The bytes of the name of the column, or of its alias.
    #[inline]
    pub fn name(&self) -> &'a [u8]
        ensures value { result.now ≡ spec.name self.now }
    {
        self.names.name
    }

    /// The bytes of the name of the column itself.
    #[inline]
    pub fn org_name(&self) -> &'a [u8]
        ensures value { result.now ≡ spec.org_name self.now }
    {
        self.names.org_name
    }

    /// Like [`Column::character_set`].
    #[inline]
    pub fn character_set(&self) -> u16
        ensures value { result ≡ spec.character_set self.now }
    {
        self.character_set
    }

    /// Like [`Column::column_length`].
    #[inline]
    pub fn column_length(&self) -> u32
        ensures value { result ≡ spec.column_length self.now }
    {
        self.column_length
    }

    /// Like [`Column::column_type`].
    #[inline]
    pub fn column_type(&self) -> ColumnType
        ensures value { result ≡ spec.column_type self.now }
    {
        self.column_type
    }

    /// Like [`Column::flags`].
    #[inline]
    pub fn flags(&self) -> ColumnFlags
        ensures value { result ≡ spec.flags self.now }
    {
        self.flags
    }

    /// Like [`Column::decimals`].
    #[inline]
    pub fn decimals(&self) -> u8
        ensures value { result ≡ spec.decimals self.now }
    {
        self.decimals
    }

    /// The fields of fixed lengths.
    pub(crate) fn fields(&self) -> ColumnFields
        ensures value { result ≡ self.now.fields }
    {
        fields_of(
            self.character_set,
            self.column_length,
            self.column_type,
            self.flags,
            self.decimals,
        )
    }

    /// Converts to an owned column. It takes memory unless all names are empty.
    pub fn to_owned(&self, alloc: Global) -> Result<Column, AllocError>
        ensures value { IfOk result (λ column. column ≡ self.now) }
        ensures memory { IfErr result (λ _. IsTrue (has_a_name (spec.names_of self.now))) }
    {
        named(alloc, &self.names, self.fields())
    }
}

impl Clone for ColumnRef<'_> {
    ghost is_clone = { λ c copy. copy ≡ c };

    ghost is_infallible = { λ _. ⊤ };

    fn clone(&self) -> Result<Self, AllocError> {
        Ok(ColumnRef {
            names: self.names.again(),
            character_set: self.character_set,
            column_length: self.column_length,
            column_type: self.column_type,
            flags: self.flags,
            decimals: self.decimals,
        })
    }
}

impl PartialEq for ColumnRef<'_> {
    ghost use Rattle.mysql_replies.specs.contracts.column.ColumnPartialEq.TheImpl.Laws.{laws-law};

    ghost eq = { ⟦<Column as PartialEq>⟧.eq };

    ghost laws = { laws-law };

    fn eq(&self, other: &Self) -> bool {
        self.names.meta() == other.names.meta() && self.fields() == other.fields()
    }
}

impl Eq for ColumnRef<'_> {
    ghost use Rattle.mysql_replies.specs.contracts.column.ColumnEq.TheImpl.Laws.{laws-law};

    ghost laws = { laws-law };
}

impl Debug for ColumnRef<'_> {
    fn fmt<W: fmt::Write>(&self, f: &mut fmt::Formatter<W>) -> fmt::Result {
        f.debug_struct("ColumnRef")
            .field("meta", &self.names.meta())
            .field("fields", &self.fields())
            .finish()
    }
}

/// Creates a column of these names and fields.
#[inline(always)]
pub(crate) fn placed<'a>(names: ColumnNamesRef<'a>, fields: &ColumnFields) -> ColumnRef<'a>
    ensures value { result ≡ spec.column_with names.entry fields.now }
{
    ColumnRef::new(
        names,
        fields.character_set.0,
        fields.column_length.0,
        fields.column_type.0,
        fields.flags.0,
        fields.decimals.0,
    )
}

/// Read like a [`Column`], but never `Memory`.
impl<'de> MyDeserialize<'de> for ColumnRef<'de> {
    const SIZE: Option<usize> = None;

    type Size = AnyWidth;

    type Ctx = ();

    ghost form = { spec.column.form };

    #[inline]
    #[tactic(auto, using(mysql_wire::proofs::Tails::tails), unfolding(crate::specs::Column::column, crate::specs::ColumnNames::column_meta))]
    fn deserialize<'s>(_ctx: (), buf: &mut ParseBuf<'de>) -> Result<Self, FaultOf<'s>> {
        let mut rest = buf.rest();
        let _catalog: ColumnDefinitionCatalog = rest.parse(())?;
        let names = read_names::<1>(&mut rest)?;
        let fields: ColumnFields = rest.parse(())?;
        *buf = rest;
        Ok(ColumnRef {
            names,
            character_set: fields.character_set.0,
            column_length: fields.column_length.0,
            column_type: fields.column_type.0,
            flags: fields.flags.0,
            decimals: fields.decimals.0,
        })
    }

    ghost size_is = { λ _. unfold spec.column in refl };
}
