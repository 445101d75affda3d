//! The request for the rows of a table.
#![tactic(auto, using(mysql_wire::proofs::Packets::packets), unfolding(crate::specs::TableDump::table_dump))]

ghost use Rattle.std.specs.Prelude.{◌≡◌};
ghost use Rattle.std.specs.Cow.{cow_slice_items};
ghost use Rattle.mysql_wire.specs.Text.{GivesText};
ghost use Rattle.mysql_repl.specs.TableDump as spec;

use mysql_wire::command_code::COM_TABLE_DUMP;
use mysql_wire::{
    AnyWidth, ConstFault, ConstU8, FaultOf, MyDeserialize, ParseBuf, Parts, RawBytes, Sink,
    U8Bytes, parts,
};
use std::alloc::{AllocError, Global};
use std::borrow::{CowSlice, CowStr};
use thiserror::Error;

/// The first byte of a request for a table is not `13`.
#[derive(Clone, Copy, Debug, Default, PartialEq, Eq, Hash, Error)]
#[error("Invalid header for COM_TABLE_DUMP")]
pub struct InvalidComTableDumpHeader;

impl ConstFault for InvalidComTableDumpHeader {
    const MESSAGE: &'static str = "Invalid header for COM_TABLE_DUMP";
}

/// The first byte of a request for a table: `13`.
pub type ComTableDumpHeader = ConstU8<InvalidComTableDumpHeader, COM_TABLE_DUMP>;

/// The request for the rows of a table (`COM_TABLE_DUMP`): the byte `13`, and the names of the
/// database and of the table, each after its length in one byte.
///
/// At most the first 255 bytes of a name are written. Missing bytes are `UnexpectedEof`, another first byte is
/// `InvalidData`. Reading takes no memory.
///
/// ```
/// let request = ComTableDump::new(CowSlice::Borrowed(database), CowSlice::Borrowed(table));
/// Ok(request.serialize(out)?)
/// ```
#[derive(Clone, Debug, PartialEq, Eq, Hash)]
pub struct ComTableDump<'a> {
    header: ComTableDumpHeader,
    database: RawBytes<'a, U8Bytes>,
    table: RawBytes<'a, U8Bytes>,
}

impl Drop for ComTableDump<'_> {
    #[inline(always)]
    fn drop(self) {
        let ComTableDump {
            header: _,
            database: _,
            table: _,
        } = self;
    }
}

impl<'a> ComTableDump<'a> {
    /// Creates the request for a table of a database.
    pub fn new(database: CowSlice<'a, u8>, table: CowSlice<'a, u8>) -> Self
        ensures value { result ≡ spec.dump_of (cow_slice_items database.entry) (cow_slice_items table.entry) }
    {
        ComTableDump {
            header: ConstU8::new(),
            database: RawBytes::new(database),
            table: RawBytes::new(table),
        }
    }

    /// The bytes of the database's name.
    #[inline]
    pub fn database_raw(&self) -> &[u8]
        ensures value { result.now ≡ spec.database self.now }
    {
        self.database.as_bytes()
    }

    /// The database's name as text, with U+FFFD for invalid UTF-8. Valid UTF-8 is borrowed.
    pub fn database(&self, alloc: Global) -> Result<CowStr<'_>, AllocError>
        ensures text { GivesText (spec.database self.now) result }
    {
        self.database.as_str(alloc)
    }

    /// The bytes of the table's name.
    #[inline]
    pub fn table_raw(&self) -> &[u8]
        ensures value { result.now ≡ spec.table self.now }
    {
        self.table.as_bytes()
    }

    /// The table's name as text, with U+FFFD for invalid UTF-8. Valid UTF-8 is borrowed.
    pub fn table(&self, alloc: Global) -> Result<CowStr<'_>, AllocError>
        ensures text { GivesText (spec.table self.now) result }
    {
        self.table.as_str(alloc)
    }
}

impl<'de> MyDeserialize<'de> for ComTableDump<'de> {
    const SIZE: Option<usize> = None;

    type Size = AnyWidth;

    type Ctx = ();

    ghost form = { spec.table_dump.form };

    fn deserialize<'s>(_ctx: (), buf: &mut ParseBuf<'de>) -> Result<Self, FaultOf<'s>> {
        Ok(ComTableDump {
            header: buf.parse(())?,
            database: buf.parse(())?,
            table: buf.parse(())?,
        })
    }

    ghost size_is = { λ _. spec.size-table_dump };
}

impl Parts for ComTableDump<'_> {
    ghost bytes = { spec.table_dump.bytes };

    #[inline(always)]
    fn put<S: Sink>(&self, sink: &mut S) {
        sink.part(&parts!(self.header, self.database, self.table));
    }
}
