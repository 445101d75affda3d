//! The names of a column, in memory of their own.
#![tactic(auto, using(crate::proofs::NamesAfter::names), unfolding(crate::specs::ColumnNames::column_meta))]

ghost use Rattle.std.specs.Prelude.{false, ◌≡◌, ◌≤◌, ◌+◌, ◌++◌, None, length, refl, vec_capacity, vec_len, Ok, IfOk, OnErr, IsTrue, MatchResult};
ghost use Rattle.mysql_wire.specs.LenEnc.{lenenc_string};
ghost use Rattle.mysql_wire.specs.Reading.{Answers, Faults};
ghost use Rattle.mysql_wire.specs.Writing.{saturated};
ghost use Rattle.mysql_replies.specs.ColumnNames as spec;

use mysql_wire::{
    AnyWidth, BytesRepr, EofBytes, FaultOf, LenEnc, MyDeserialize, ParseBuf, Parts, RawBytes, Sink,
    parts,
};
use std::alloc::{AllocError, Global};
use std::borrow::CowSlice;
use std::fmt;
use std::fmt::Debug;
use std::marker::Model;

/// The names of a column, each a length-encoded string.
#[derive(Debug, PartialEq, Eq)]
pub(crate) struct ColumnMeta<'a> {
    pub(crate) schema: RawBytes<'a, LenEnc>,
    pub(crate) table: RawBytes<'a, LenEnc>,
    pub(crate) org_table: RawBytes<'a, LenEnc>,
    pub(crate) name: RawBytes<'a, LenEnc>,
    pub(crate) org_name: RawBytes<'a, LenEnc>,
}

impl Drop for ColumnMeta<'_> {
    #[inline(always)]
    fn drop(self) {
        let ColumnMeta {
            schema: _,
            table: _,
            org_table: _,
            name: _,
            org_name: _,
        } = self;
    }
}

impl Parts for ColumnMeta<'_> {
    ghost bytes = { spec.column_meta.bytes };

    #[inline(always)]
    fn put<S: Sink>(&self, sink: &mut S) {
        sink.part(&parts!(
            self.schema,
            self.table,
            self.org_table,
            self.name,
            self.org_name
        ));
    }
}

/// The names of a [`ColumnRef`](crate::ColumnRef), borrowed. In a clause they are a column's names.
#[derive(Drop)]
pub struct ColumnNamesRef<'a> {
    /// The name of the schema.
    pub schema: &'a [u8],
    /// The name of the table, or of its alias.
    pub table: &'a [u8],
    /// The name of the table itself.
    pub org_table: &'a [u8],
    /// The name of the column, or of its alias.
    pub name: &'a [u8],
    /// The name of the column itself.
    pub org_name: &'a [u8],
}

impl<'a> Model for ColumnNamesRef<'a> {
    ghost use Rattle.mysql_replies.specs.declared.column_names.ColumnMeta.{ColumnMeta};
    ghost use Rattle.mysql_replies.specs.ColumnNames.{meta_of};

    ghost Value = { ColumnMeta };

    ghost view = { λ n. meta_of n.schema.now n.table.now n.org_table.now n.name.now n.org_name.now };
}

impl<'a> ColumnNamesRef<'a> {
    /// Returns the names in the form in which they are written, borrowed.
    pub(crate) fn meta(&self) -> ColumnMeta<'a>
        ensures value { result ≡ self.now }
    {
        ColumnMeta {
            schema: borrowed(self.schema),
            table: borrowed(self.table),
            org_table: borrowed(self.org_table),
            name: borrowed(self.name),
            org_name: borrowed(self.org_name),
        }
    }

    /// Copies the names; both borrow from the packet.
    pub(crate) fn again(&self) -> ColumnNamesRef<'a>
        ensures value { result ≡ self.now }
    {
        ColumnNamesRef {
            schema: self.schema,
            table: self.table,
            org_table: self.org_table,
            name: self.name,
            org_name: self.org_name,
        }
    }

    /// The length of the names in bytes, or `usize::MAX` if it is greater.
    #[inline(always)]
    #[tactic(auto, unfolding(mysql_wire::specs::Writing::saturated))]
    fn len(&self) -> usize
        ensures value { result ≡ saturated (spec.names_len self.now) }
    {
        self.schema
            .len()
            .saturating_add(self.table.len())
            .saturating_add(self.org_table.len())
            .saturating_add(self.name.len())
            .saturating_add(self.org_name.len())
    }
}

/// Reads a length-encoded string, which borrows from the packet.
#[inline(always)]
pub(crate) fn read_name<'s, 'de>(buf: &mut ParseBuf<'de>) -> Result<&'de [u8], FaultOf<'s>>
    ensures value { MatchResult result (λ name. lenenc_string.reads buf.old ≡ Ok (name.now, buf.new)) (λ fault. Faults false fault (lenenc_string.reads buf.old)) }
{
    let mut name = <LenEnc as BytesRepr>::deserialize((), buf)?;
    Ok(name.eat_all())
}

/// Reads five length-encoded strings. After a fault the bytes are unchanged.
///
/// Each reader of columns has its own instance, so that it is inlined there, and unused names cost nothing.
#[inline(always)]
pub(crate) fn read_names<'s, 'de, const READER: u8>(
    buf: &mut ParseBuf<'de>,
) -> Result<ColumnNamesRef<'de>, FaultOf<'s>>
    ensures value { Answers false result buf.new ((spec.column_meta.form tt).reads buf.old) }
    ensures err { OnErr result (buf.new ≡ buf.old) }
{
    let mut rest = buf.rest();
    let names = ColumnNamesRef {
        schema: read_name(&mut rest)?,
        table: read_name(&mut rest)?,
        org_table: read_name(&mut rest)?,
        name: read_name(&mut rest)?,
        org_name: read_name(&mut rest)?,
    };
    *buf = rest;
    Ok(names)
}

/// The names of a column in one block of memory: each begins where the previous one ends, and the original name extends to the
/// end.
#[derive(Default, Drop)]
pub(crate) struct ColumnNames {
    bytes: RawBytes<'static, EofBytes>,
    schema_end: usize,
    table_end: usize,
    org_table_end: usize,
    name_end: usize,
}

impl Model for ColumnNames {
    ghost use Rattle.mysql_replies.specs.declared.column_names.ColumnMeta.{ColumnMeta};

    ghost Value = { ColumnMeta };

    ghost use Rattle.mysql_replies.specs.ColumnNames.{names_in, AreInOrder};

    ghost view = { names_in };

    ghost invariant = { AreInOrder };
}

/// Returns a borrowed name.
fn borrowed(name: &[u8]) -> RawBytes<'_, LenEnc>
    ensures value { result ≡ name.now }
{
    RawBytes::new(CowSlice::Borrowed(name))
}

/// Appends a name, for which there is capacity, and returns where it ends.
#[inline(always)]
fn put(name: &[u8], bytes: &mut Vec<u8>) -> usize
    requires { vec_len bytes.old + length name.now ≤ vec_capacity bytes.old }
    ensures items { bytes.new.items ≡ bytes.old.items ++ name.now }
    ensures end { result ≡ length bytes.new.items }
    ensures len { vec_len bytes.new ≡ vec_len bytes.old + length name.now }
    ensures capacity { vec_capacity bytes.old ≤ vec_capacity bytes.new }
{
    bytes.extend_from_slice(name).unwrap();
    bytes.len()
}

impl ColumnNames {
    /// Copies these names.
    #[tactic(auto, using(crate::proofs::NamesAfter::names), unfolding(mysql_wire::specs::Writing::saturated))]
    pub(crate) fn of(alloc: Global, names: &ColumnNamesRef<'_>) -> Result<Self, AllocError>
        ensures value { IfOk result (λ copy. copy ≡ names.now) }
        ensures err { OnErr result (IsTrue (spec.has_a_name names.now)) }
    {
        // No buffer has capacity for `usize::MAX` bytes.
        let mut bytes = Vec::with_capacity(alloc, names.len())?;
        let schema_end = put(names.schema, &mut bytes);
        let table_end = put(names.table, &mut bytes);
        let org_table_end = put(names.org_table, &mut bytes);
        let name_end = put(names.name, &mut bytes);
        put(names.org_name, &mut bytes);
        Ok(ColumnNames {
            bytes: RawBytes::new(CowSlice::Owned(bytes)),
            schema_end,
            table_end,
            org_table_end,
            name_end,
        })
    }

    /// Returns the names as slices.
    pub(crate) fn names(&self) -> ColumnNamesRef<'_>
        ensures value { result ≡ self.now }
    {
        ColumnNamesRef {
            schema: self.schema(),
            table: self.table(),
            org_table: self.org_table(),
            name: self.name(),
            org_name: self.org_name(),
        }
    }

    /// Returns the names in the form in which they are written.
    pub(crate) fn meta(&self) -> ColumnMeta<'_>
        ensures value { result ≡ self.now }
    {
        ColumnMeta {
            schema: borrowed(self.schema()),
            table: borrowed(self.table()),
            org_table: borrowed(self.org_table()),
            name: borrowed(self.name()),
            org_name: borrowed(self.org_name()),
        }
    }

    pub(crate) fn schema(&self) -> &[u8]
        ensures value { result.now ≡ self.now.schema }
    {
        &self.bytes.as_bytes()[..self.schema_end]
    }

    pub(crate) fn table(&self) -> &[u8]
        ensures value { result.now ≡ self.now.table }
    {
        &self.bytes.as_bytes()[self.schema_end..self.table_end]
    }

    pub(crate) fn org_table(&self) -> &[u8]
        ensures value { result.now ≡ self.now.org_table }
    {
        &self.bytes.as_bytes()[self.table_end..self.org_table_end]
    }

    pub(crate) fn name(&self) -> &[u8]
        ensures value { result.now ≡ self.now.name }
    {
        &self.bytes.as_bytes()[self.org_table_end..self.name_end]
    }

    pub(crate) fn org_name(&self) -> &[u8]
        ensures value { result.now ≡ self.now.org_name }
    {
        &self.bytes.as_bytes()[self.name_end..]
    }
}

impl Clone for ColumnNames {
    ghost is_clone = { λ names copy. copy ≡ names };

    ghost is_infallible = { λ names. spec.has_a_name names ≡ false };

    fn clone(&self) -> Result<Self, AllocError> {
        Ok(ColumnNames {
            bytes: self.bytes.clone()?,
            schema_end: self.schema_end,
            table_end: self.table_end,
            org_table_end: self.org_table_end,
            name_end: self.name_end,
        })
    }
}

impl PartialEq for ColumnNames {
    ghost use Rattle.mysql_replies.specs.contracts.column_names.ColumnMetaPartialEq.TheImpl.Laws.{laws-law};

    ghost eq = { ⟦<ColumnMeta<'static> as PartialEq>⟧.eq };

    ghost laws = { laws-law };

    fn eq(&self, other: &Self) -> bool {
        self.schema() == other.schema()
            && self.table() == other.table()
            && self.org_table() == other.org_table()
            && self.name() == other.name()
            && self.org_name() == other.org_name()
    }
}

impl Eq for ColumnNames {
    ghost use Rattle.mysql_replies.specs.contracts.column_names.ColumnMetaEq.TheImpl.Laws.{laws-law};

    ghost laws = { laws-law };
}

impl Debug for ColumnNames {
    fn fmt<W: fmt::Write>(&self, f: &mut fmt::Formatter<W>) -> fmt::Result {
        self.meta().fmt(f)
    }
}

impl<'de> MyDeserialize<'de> for ColumnNames {
    const SIZE: Option<usize> = None;

    type Size = AnyWidth;

    ghost takes_memory = { λ _ bytes. spec.reads_a_name ((spec.column_meta.form tt).reads bytes) };

    type Ctx = ();

    ghost form = { spec.column_meta.form };

    fn deserialize<'s>(_ctx: (), buf: &mut ParseBuf<'de>) -> Result<Self, FaultOf<'s>> {
        let mut rest = buf.rest();
        let names = read_names::<0>(&mut rest)?;
        let copied = ColumnNames::of(buf.alloc(), &names)?;
        *buf = rest;
        Ok(copied)
    }

    ghost size_is = { λ _. unfold spec.column_meta in refl };
}
