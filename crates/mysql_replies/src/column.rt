//! A column of a result.
#![tactic(auto, using(mysql_wire::proofs::Packets::packets), unfolding(crate::specs::Column::column))]

ghost use Rattle.std.specs.Prelude.{◌≡◌, true, length, None, refl, IfOk, IsOk, OnErr, IsTrue, ◌∷◌};
ghost use Rattle.mysql_wire.specs.Text.{GivesText};
ghost use Rattle.mysql_replies.specs.Column as spec;
ghost use Rattle.mysql_replies.specs.ColumnNames.{has_a_name};

use crate::column_fields::{ColumnFields, fields_of};
use crate::column_names::{ColumnNames, ColumnNamesRef};
use crate::faults::InvalidCatalog;
use bstr::ByteSlice;
use mysql_wire::{
    AnyWidth, ColumnFlags, ColumnType, Const, ConstBytes, ConstBytesValue, ConstU8, FaultOf,
    MyDeserialize, ParseBuf, Parts, RawInt, Sink, Skip, parts,
};
use std::alloc::{AllocError, Global};
use std::borrow::CowStr;

/// The catalog of every column, `def`, as a length-encoded string.
#[derive(Clone, Copy, Debug, Default, PartialEq, Eq, Hash)]
pub struct Catalog;

impl ConstBytesValue<4> for Catalog {
    ghost VALUE = { spec.catalog_bytes };

    const VALUE: [u8; 4] = *b"\x03def";

    type Error = InvalidCatalog;

    ghost len_is = { refl };
}

/// The first bytes of a column's definition: `03 64 65 66`.
pub type ColumnDefinitionCatalog = ConstBytes<Catalog, 4>;

/// A column of a result (`Protocol::ColumnDefinition41`).
///
/// The catalog `def`; the schema, the table, the original table, the name and the original name,
/// each a length-encoded string; then 13 bytes: `0c`, the character set (two bytes), the length
/// (four), the type, the flags (two), the decimals, and two bytes that are skipped. Numbers are
/// little-endian.
///
/// A short definition is `UnexpectedEof`; another catalog, another byte for `0c`, or an unknown type is `InvalidData`. Reading
/// copies the names in one block once all five are there, unless all are empty; if that allocation fails, it returns `Memory`.
///
/// ```
/// fn column(alloc: Global, payload: &[u8]) -> Result<Column> {
///     Ok(ParseBuf::new(alloc, payload).parse(())?)
/// }
/// ```
#[derive(Clone, Debug, PartialEq, Eq, Drop)]
pub struct Column {
    pub(crate) catalog: ColumnDefinitionCatalog,
    pub(crate) meta: ColumnNames,
    pub(crate) fields: ColumnFields,
}

/// Creates a column of these names and fields, and copies the names.
pub(crate) fn named(
    alloc: Global,
    names: &ColumnNamesRef<'_>,
    fields: ColumnFields,
) -> Result<Column, AllocError>
    ensures value { IfOk result (λ column. (column.meta ≡ names.now) × (column.fields ≡ fields)) }
    ensures memory { OnErr result (IsTrue (has_a_name names.now)) }
{
    Ok(Column {
        catalog: ConstBytes::new(),
        meta: ColumnNames::of(alloc, names)?,
        fields,
    })
}

impl Column {
    /// Creates a column of this type, with empty names, and with 0 for its numbers and flags.
    pub fn new(column_type: ColumnType) -> Self
        ensures value { result ≡ spec.new_column column_type }
    {
        Column {
            catalog: ConstBytes::new(),
            meta: ColumnNames::default(),
            fields: fields_of(0, 0, column_type, ColumnFlags::default(), 0),
        }
    }

    /// Sets the schema's name. If the allocation fails, the column is dropped; if all names are empty, nothing is allocated.
    pub fn with_schema(self, alloc: Global, schema: &[u8]) -> Result<Column, AllocError>
        ensures value { IfOk result (λ column. column ≡ spec.with_schema self schema.now) }
        ensures no_memory { spec.HasNoName (spec.with_schema self schema.now) → IsOk result }
    {
        let names = ColumnNamesRef {
            schema,
            ..self.meta.names()
        };
        named(alloc, &names, self.fields)
    }

    /// Sets the name of the table or of its alias. If the allocation fails, the column is dropped; if all names are empty,
    /// nothing is allocated.
    pub fn with_table(self, alloc: Global, table: &[u8]) -> Result<Column, AllocError>
        ensures value { IfOk result (λ column. column ≡ spec.with_table self table.now) }
        ensures no_memory { spec.HasNoName (spec.with_table self table.now) → IsOk result }
    {
        let names = ColumnNamesRef {
            table,
            ..self.meta.names()
        };
        named(alloc, &names, self.fields)
    }

    /// Sets the table's original name. If the allocation fails, the column is dropped; if all names are empty, nothing is
    /// allocated.
    pub fn with_org_table(self, alloc: Global, org_table: &[u8]) -> Result<Column, AllocError>
        ensures value { IfOk result (λ column. column ≡ spec.with_org_table self org_table.now) }
        ensures no_memory { spec.HasNoName (spec.with_org_table self org_table.now) → IsOk result }
    {
        let names = ColumnNamesRef {
            org_table,
            ..self.meta.names()
        };
        named(alloc, &names, self.fields)
    }

    /// Sets the name of the column or of its alias. If the allocation fails, the column is dropped; if all names are empty,
    /// nothing is allocated.
    pub fn with_name(self, alloc: Global, name: &[u8]) -> Result<Column, AllocError>
        ensures value { IfOk result (λ column. column ≡ spec.with_name self name.now) }
        ensures no_memory { spec.HasNoName (spec.with_name self name.now) → IsOk result }
    {
        let names = ColumnNamesRef {
            name,
            ..self.meta.names()
        };
        named(alloc, &names, self.fields)
    }

    /// Sets the column's original name. If the allocation fails, the column is dropped; if all names are empty, nothing is
    /// allocated.
    pub fn with_org_name(self, alloc: Global, org_name: &[u8]) -> Result<Column, AllocError>
        ensures value { IfOk result (λ column. column ≡ spec.with_org_name self org_name.now) }
        ensures no_memory { spec.HasNoName (spec.with_org_name self org_name.now) → IsOk result }
    {
        let names = ColumnNamesRef {
            org_name,
            ..self.meta.names()
        };
        named(alloc, &names, self.fields)
    }

    /// Sets the flags.
    #[inline]
    pub fn with_flags(self, flags: ColumnFlags) -> Column
        ensures value { result ≡ spec.with_flags self flags }
    {
        let mut fields = self.fields;
        fields.flags = Const::new(flags);
        Column { fields, ..self }
    }

    /// Sets the length.
    #[inline]
    pub fn with_column_length(self, column_length: u32) -> Column
        ensures value { result ≡ spec.with_column_length self column_length }
    {
        let mut fields = self.fields;
        fields.column_length = RawInt::new(column_length);
        Column { fields, ..self }
    }

    /// Sets the character set.
    #[inline]
    pub fn with_character_set(self, character_set: u16) -> Column
        ensures value { result ≡ spec.with_character_set self character_set }
    {
        let mut fields = self.fields;
        fields.character_set = RawInt::new(character_set);
        Column { fields, ..self }
    }

    /// Sets the number of decimals.
    #[inline]
    pub fn with_decimals(self, decimals: u8) -> Column
        ensures value { result ≡ spec.with_decimals self decimals }
    {
        let mut fields = self.fields;
        fields.decimals = RawInt::new(decimals);
        Column { fields, ..self }
    }

    /// The maximum length of a value in characters, for display.
    #[inline]
    pub fn column_length(&self) -> u32
        ensures value { result ≡ spec.column_length self.now }
    {
        self.fields.column_length.0
    }

    /// The type of the values.
    #[inline]
    pub fn column_type(&self) -> ColumnType
        ensures value { result ≡ spec.column_type self.now }
    {
        self.fields.column_type.0
    }

    /// The number of the character set (collation).
    #[inline]
    pub fn character_set(&self) -> u16
        ensures value { result ≡ spec.character_set self.now }
    {
        self.fields.character_set.0
    }

    /// The flags.
    #[inline]
    pub fn flags(&self) -> ColumnFlags
        ensures value { result ≡ spec.flags self.now }
    {
        self.fields.flags.0
    }

    /// The maximum number of decimals: 0 for integers and strings of fixed length, 31 for other strings and floats, otherwise
    /// up to 81.
    #[inline]
    pub fn decimals(&self) -> u8
        ensures value { result ≡ spec.decimals self.now }
    {
        self.fields.decimals.0
    }

    /// The bytes of the name of the schema.
    #[inline]
    pub fn schema_ref(&self) -> &[u8]
        ensures value { result.now ≡ spec.schema self.now }
    {
        self.meta.schema()
    }

    /// The name of the schema as text, with U+FFFD for invalid UTF-8. Valid UTF-8 is borrowed.
    pub fn schema_str(&self, alloc: Global) -> Result<CowStr<'_>, AllocError>
        ensures text { GivesText (spec.schema self.now) result }
    {
        self.meta.schema().to_str_lossy(alloc)
    }

    /// The bytes of the name of the table, or of its alias.
    #[inline]
    pub fn table_ref(&self) -> &[u8]
        ensures value { result.now ≡ spec.table self.now }
    {
        self.meta.table()
    }

    /// The name of the table, or of its alias, as text, with U+FFFD for invalid UTF-8. Valid UTF-8 is borrowed.
    pub fn table_str(&self, alloc: Global) -> Result<CowStr<'_>, AllocError>
        ensures text { GivesText (spec.table self.now) result }
    {
        self.meta.table().to_str_lossy(alloc)
    }

    /// The bytes of the name of the table itself.
    #[inline]
    pub fn org_table_ref(&self) -> &[u8]
        ensures value { result.now ≡ spec.org_table self.now }
    {
        self.meta.org_table()
    }

    /// The name of the table itself as text, with U+FFFD for invalid UTF-8. Valid UTF-8 is borrowed.
    pub fn org_table_str(&self, alloc: Global) -> Result<CowStr<'_>, AllocError>
        ensures text { GivesText (spec.org_table self.now) result }
    {
        self.meta.org_table().to_str_lossy(alloc)
    }

    /// The bytes of the name of the column, or of its alias.
    #[inline]
    pub fn name_ref(&self) -> &[u8]
        ensures value { result.now ≡ spec.name self.now }
    {
        self.meta.name()
    }

    /// The name of the column, or of its alias, as text, with U+FFFD for invalid UTF-8. Valid UTF-8 is borrowed.
    pub fn name_str(&self, alloc: Global) -> Result<CowStr<'_>, AllocError>
        ensures text { GivesText (spec.name self.now) result }
    {
        self.meta.name().to_str_lossy(alloc)
    }

    /// The bytes of the name of the column itself.
    #[inline]
    pub fn org_name_ref(&self) -> &[u8]
        ensures value { result.now ≡ spec.org_name self.now }
    {
        self.meta.org_name()
    }

    /// The name of the column itself as text, with U+FFFD for invalid UTF-8. Valid UTF-8 is borrowed.
    pub fn org_name_str(&self, alloc: Global) -> Result<CowStr<'_>, AllocError>
        ensures text { GivesText (spec.org_name self.now) result }
    {
        self.meta.org_name().to_str_lossy(alloc)
    }
}

impl<'de> MyDeserialize<'de> for Column {
    const SIZE: Option<usize> = None;

    type Size = AnyWidth;

    ghost takes_memory = { λ _ bytes. spec.begins_with_names bytes };

    type Ctx = ();

    ghost form = { spec.column.form };

    #[tactic(auto, using(mysql_wire::proofs::Tails::tails), unfolding(crate::specs::Column::column))]
    fn deserialize<'s>(_ctx: (), buf: &mut ParseBuf<'de>) -> Result<Self, FaultOf<'s>> {
        Ok(Column {
            catalog: buf.parse(())?,
            meta: buf.parse(())?,
            fields: buf.parse(())?,
        })
    }

    ghost size_is = { λ _. unfold spec.column in refl };
}

impl Parts for Column {
    ghost bytes = { spec.column.bytes };

    #[inline(always)]
    fn put<S: Sink>(&self, sink: &mut S) {
        sink.part(&parts!(self.catalog, self.meta.meta(), self.fields));
    }
}
