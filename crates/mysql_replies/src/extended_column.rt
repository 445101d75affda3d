//! A column of a result with extended metadata.
#![tactic(auto, using(mysql_wire::proofs::Packets::packets), unfolding(crate::specs::ExtendedColumn::extended_column))]

ghost use Rattle.std.specs.Prelude.{◌≡◌, [], None, Some, refl, IfOk, IsOk, option_map};
ghost use Rattle.mysql_replies.specs.ExtendedColumn as spec;

use crate::column::Column;
use crate::column_attributes::ColumnAttributes;
use crate::extended_column_ref::ExtendedColumnRef;
use mysql_wire::{
    AnyWidth, FaultOf, LenEnc, MariadbCapabilities, MyDeserialize, ParseBuf, Parts, RawBytes, Sink,
    parts,
};
use std::alloc::{AllocError, Global};
use std::borrow::CowSlice;

/// A column of a result, by the capabilities of both sides: with `MARIADB_CLIENT_EXTENDED_METADATA` one more
/// length-encoded string, its extended metadata, follows the six names (MariaDB's "Result Set Packets", column
/// definition).
///
/// | Bytes | Field |
/// |---|---|
/// | 4 and more | the catalog and the names of a [`Column`] |
/// | 1 and more | `metadata`, a length-encoded string, only under the flag |
/// | 13 | the other fields of a [`Column`] |
///
/// The metadata are a list of [`ColumnAttribute`](crate::ColumnAttribute)s. Their bytes are kept, so that they are written as
/// they were read: [`attributes`](Self::attributes) iterates over them, and returns the fault of an incomplete one.
///
/// The faults are those of a [`Column`], and of a length-encoded string for the metadata. Reading copies the texts once the
/// whole column is there, unless all are empty; if that allocation fails, it returns `Memory`.
#[derive(Clone, Debug, PartialEq, Eq)]
pub struct ExtendedColumn {
    column: Column,
    metadata: Option<RawBytes<'static, LenEnc>>,
}

impl Drop for ExtendedColumn {
    #[inline(always)]
    fn drop(self) {
        let ExtendedColumn {
            column: _,
            metadata: _,
        } = self;
    }
}

impl ExtendedColumn {
    /// Creates a column without metadata, as it is sent if the flag is not agreed on.
    #[inline]
    pub fn new(column: Column) -> Self
        ensures value { result ≡ spec.extended column None }
    {
        ExtendedColumn {
            column,
            metadata: None,
        }
    }

    /// Sets the metadata, which are sent if the flag is agreed on: a list of attributes, or nothing. If the allocation fails,
    /// the column is dropped; an empty list takes no memory.
    pub fn with_metadata(self, alloc: Global, metadata: &[u8]) -> Result<Self, AllocError>
        ensures value { IfOk result (λ column. column ≡ spec.extended (spec.column_of self) (Some metadata.now)) }
        ensures no_memory { metadata.now ≡ [] → IsOk result }
    {
        let ExtendedColumn {
            column,
            metadata: _,
        } = self;
        let metadata = owned(alloc, metadata)?;
        Ok(ExtendedColumn {
            column,
            metadata: Some(metadata),
        })
    }

    /// Creates a column of these, and copies the metadata.
    pub(crate) fn of(
        alloc: Global,
        column: Column,
        metadata: Option<&[u8]>,
    ) -> Result<Self, AllocError>
        ensures value { IfOk result (λ extended. extended ≡ spec.extended column (option_map (λ m. m.now) metadata.entry)) }
        ensures no_memory { spec.attribute_bytes (option_map (λ m. m.now) metadata.entry) ≡ [] → IsOk result }
    {
        match metadata {
            Some(metadata) => ExtendedColumn::new(column).with_metadata(alloc, metadata),
            None => Ok(ExtendedColumn::new(column)),
        }
    }

    /// The column itself.
    #[inline]
    pub fn column(&self) -> &Column
        ensures value { result.now ≡ spec.column_of self.now }
    {
        &self.column
    }

    /// The column itself, without its metadata.
    #[inline]
    pub fn into_column(self) -> Column
        ensures value { result ≡ spec.column_of self }
    {
        let ExtendedColumn {
            column,
            metadata: _,
        } = self;
        column
    }

    /// The bytes of the metadata, if any: only under the flag.
    #[inline]
    pub fn metadata_ref(&self) -> Option<&[u8]>
        ensures value { option_map (λ m. m.now) result ≡ spec.metadata_of self.now }
    {
        match &self.metadata {
            Some(metadata) => Some(metadata.as_bytes()),
            None => None,
        }
    }

    /// Iterates over the attributes in the metadata, if any.
    pub fn attributes(&self, alloc: Global) -> ColumnAttributes<'_>
        ensures value { result ≡ spec.attribute_bytes (spec.metadata_of self.now) }
    {
        let bytes = self.metadata_ref().unwrap_or(&[]);
        ColumnAttributes::new(ParseBuf::new(alloc, bytes))
    }
}

/// Copies a text.
fn owned(alloc: Global, text: &[u8]) -> Result<RawBytes<'static, LenEnc>, AllocError>
    ensures value { IfOk result (λ copy. copy ≡ text.now) }
    ensures no_memory { text.now ≡ [] → IsOk result }
{
    let text: RawBytes<'_, LenEnc> = RawBytes::new(CowSlice::Borrowed(text));
    text.into_owned(alloc)
}

impl<'de> MyDeserialize<'de> for ExtendedColumn {
    const SIZE: Option<usize> = None;

    type Size = AnyWidth;

    ghost takes_memory = { λ capabilities bytes. spec.reads_text ((spec.extended_column.form capabilities).reads bytes) };

    /// The MariaDB capabilities of both sides.
    type Ctx = MariadbCapabilities;

    ghost form = { spec.extended_column.form };

    #[tactic(auto, using(mysql_wire::proofs::Packets::packets, crate::proofs::ExtendedColumns::texts))]
    fn deserialize<'s>(agreed: Self::Ctx, buf: &mut ParseBuf<'de>) -> Result<Self, FaultOf<'s>> {
        let column: ExtendedColumnRef<'de> = buf.parse(agreed)?;
        Ok(column.to_owned(buf.alloc())?)
    }

    ghost size_is = { λ _. unfold spec.extended_column in refl };
}

impl Parts for ExtendedColumn {
    ghost bytes = { spec.extended_column.bytes };

    #[inline(always)]
    fn put<S: Sink>(&self, sink: &mut S) {
        let column = &self.column;
        sink.part(&parts!(
            column.catalog,
            column.meta.meta(),
            self.metadata,
            column.fields
        ));
    }
}
