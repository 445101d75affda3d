//! A borrowed column of a result with extended metadata.
#![tactic(auto, using(mysql_wire::proofs::Packets::packets), unfolding(crate::specs::ExtendedColumn::extended_column))]

ghost use Rattle.std.specs.Prelude.{◌≡◌, None, false, refl, IfOk, OnErr, IsTrue, option_map, ⊤};
ghost use Rattle.mysql_replies.specs.ExtendedColumn as spec;
ghost use Rattle.mysql_replies.specs.declared.extended_column.ExtendedColumn.{ExtendedColumn};
ghost use Rattle.mysql_replies.specs.ExtendedColumn.{extended};
ghost use Rattle.mysql_wire.specs.Reading.{Answers};

use crate::column::ColumnDefinitionCatalog;
use crate::column_attributes::ColumnAttributes;
use crate::column_fields::ColumnFields;
use crate::column_names::{read_name, read_names};
use crate::column_ref::{ColumnRef, placed};
use crate::extended_column::ExtendedColumn;
use bitflags::Flags;
use mysql_wire::{
    AnyWidth, FaultOf, LenEnc, MariadbCapabilities, MyDeserialize, ParseBuf, Parts, RawBytes, Sink,
    parts,
};
use std::alloc::{AllocError, Global};
use std::borrow::CowSlice;
use std::fmt;
use std::fmt::Debug;
use std::marker::Model;

/// A column of a result whose names and extended metadata stay in the packet: an [`ExtendedColumn`] without memory.
///
/// It is read from the same bytes as an [`ExtendedColumn`], with the same faults except `Memory`, and written as the same bytes. In a
/// clause it is that column.
///
/// ```
/// let column: ExtendedColumnRef<'_> = ParseBuf::new(alloc, payload).parse(agreed)?;
/// let mut count: usize = 0;
/// for attribute in column.attributes(alloc) {
///     let _text = attribute?.text();
///     count = count.saturating_add(1);
/// }
/// Ok(count)
/// ```
#[derive(Drop)]
pub struct ExtendedColumnRef<'a> {
    column: ColumnRef<'a>,
    metadata: Option<&'a [u8]>,
}

impl<'a> Model for ExtendedColumnRef<'a> {
    ghost Value = { ExtendedColumn };

    ghost view = { λ c. extended c.column (option_map (λ m. m.now) c.metadata) };
}

impl<'a> ExtendedColumnRef<'a> {
    /// Creates a column with this metadata, or with none.
    #[inline]
    pub fn new(column: ColumnRef<'a>, metadata: Option<&'a [u8]>) -> Self
        ensures value { result ≡ extended column.entry (option_map (λ m. m.now) metadata.entry) }
    {
        ExtendedColumnRef { column, metadata }
    }

    /// The column itself.
    #[inline]
    pub fn column(&self) -> &ColumnRef<'a>
        ensures value { result.now ≡ spec.column_of self.now }
    {
        &self.column
    }

    /// The column itself, without its metadata.
    #[inline]
    pub fn into_column(self) -> ColumnRef<'a>
        ensures value { result ≡ spec.column_of self.entry }
    {
        self.column
    }

    /// The bytes of the metadata, if any: only under the flag.
    #[inline]
    pub fn metadata(&self) -> Option<&'a [u8]>
        ensures value { option_map (λ m. m.now) result ≡ spec.metadata_of self.now }
    {
        self.metadata
    }

    /// Iterates over the attributes in the metadata, if any.
    #[inline]
    pub fn attributes(&self, alloc: Global) -> ColumnAttributes<'a>
        ensures value { result ≡ spec.attribute_bytes (spec.metadata_of self.now) }
    {
        let bytes = match self.metadata {
            Some(metadata) => metadata,
            None => &[],
        };
        ColumnAttributes::new(ParseBuf::new(alloc, bytes))
    }

    /// Converts to an owned column. It takes memory unless all texts are empty.
    pub fn to_owned(&self, alloc: Global) -> Result<ExtendedColumn, AllocError>
        ensures value { IfOk result (λ column. column ≡ self.now) }
        ensures memory { OnErr result (IsTrue (spec.has_text self.now)) }
    {
        let column = self.column.to_owned(alloc)?;
        ExtendedColumn::of(alloc, column, self.metadata)
    }
}

impl Clone for ExtendedColumnRef<'_> {
    ghost is_clone = { λ c copy. copy ≡ c };

    ghost is_infallible = { λ _. ⊤ };

    fn clone(&self) -> Result<Self, AllocError> {
        Ok(ExtendedColumnRef {
            column: self.column.clone()?,
            metadata: self.metadata,
        })
    }
}

impl PartialEq for ExtendedColumnRef<'_> {
    ghost use Rattle.mysql_replies.specs.contracts.extended_column.ExtendedColumnPartialEq.TheImpl.Laws.{laws-law};

    ghost eq = { ⟦<ExtendedColumn as PartialEq>⟧.eq };

    ghost laws = { laws-law };

    fn eq(&self, other: &Self) -> bool {
        self.column == other.column && written(self.metadata) == written(other.metadata)
    }
}

impl Eq for ExtendedColumnRef<'_> {
    ghost use Rattle.mysql_replies.specs.contracts.extended_column.ExtendedColumnEq.TheImpl.Laws.{laws-law};

    ghost laws = { laws-law };
}

impl Debug for ExtendedColumnRef<'_> {
    fn fmt<W: fmt::Write>(&self, f: &mut fmt::Formatter<W>) -> fmt::Result {
        f.debug_struct("ExtendedColumnRef")
            .field("column", &self.column)
            .field("metadata", &written(self.metadata))
            .finish()
    }
}

/// Returns the metadata in the form in which they are written, borrowed.
fn written<'a>(metadata: Option<&'a [u8]>) -> Option<RawBytes<'a, LenEnc>>
    ensures value { result ≡ option_map (λ m. m.now) metadata.entry }
{
    match metadata {
        Some(metadata) => Some(RawBytes::new(CowSlice::Borrowed(metadata))),
        None => None,
    }
}

/// Written like the [`ExtendedColumn`].
impl Parts for ExtendedColumnRef<'_> {
    ghost bytes = { spec.extended_column.bytes };

    #[inline(always)]
    fn put<S: Sink>(&self, sink: &mut S) {
        let catalog = ColumnDefinitionCatalog::default();
        sink.part(&parts!(
            catalog,
            self.column.names.meta(),
            written(self.metadata),
            self.column.fields()
        ));
    }
}

/// Reads a column. After a fault the bytes are unchanged.
///
/// Each reader has its own instance, as of [`read_names`].
#[inline(always)]
#[tactic(auto, using(mysql_wire::proofs::Tails::tails), unfolding(crate::specs::ExtendedColumn::extended_column, crate::specs::ColumnNames::column_meta))]
pub(crate) fn read_column<'s, 'de, const READER: u8>(
    agreed: MariadbCapabilities,
    buf: &mut ParseBuf<'de>,
) -> Result<ExtendedColumnRef<'de>, FaultOf<'s>>
    ensures value { Answers false result buf.new ((spec.extended_column.form agreed).reads buf.old) }
    ensures err { OnErr result (buf.new ≡ buf.old) }
{
    let mut rest = buf.rest();
    let _catalog: ColumnDefinitionCatalog = rest.parse(())?;
    let names = read_names::<READER>(&mut rest)?;
    let extended = MariadbCapabilities::MARIADB_CLIENT_EXTENDED_METADATA;
    let metadata = if agreed.contains(extended) {
        Some(read_name(&mut rest)?)
    } else {
        None
    };
    let fields: ColumnFields = rest.parse(())?;
    *buf = rest;
    Ok(ExtendedColumnRef {
        column: placed(names, &fields),
        metadata,
    })
}

/// Read like an [`ExtendedColumn`], but never `Memory`.
impl<'de> MyDeserialize<'de> for ExtendedColumnRef<'de> {
    const SIZE: Option<usize> = None;

    type Size = AnyWidth;

    /// The MariaDB capabilities of both sides.
    type Ctx = MariadbCapabilities;

    ghost form = { spec.extended_column.form };

    #[inline(always)]
    #[tactic(auto, using(mysql_wire::proofs::Tails::tails), unfolding(crate::specs::ExtendedColumn::extended_column, crate::specs::ColumnNames::column_meta))]
    fn deserialize<'s>(agreed: Self::Ctx, buf: &mut ParseBuf<'de>) -> Result<Self, FaultOf<'s>> {
        read_column::<2>(agreed, buf)
    }

    ghost size_is = { λ _. unfold spec.extended_column in refl };
}
