//! The request for the columns of a table.
#![tactic(auto, using(mysql_wire::proofs::Packets::packets), unfolding(crate::specs::FieldList::field_list))]

ghost use Rattle.std.specs.Prelude.{◌≡◌, refl};
ghost use Rattle.mysql_commands.specs.FieldList as spec;

use mysql_wire::command_code::COM_FIELD_LIST;
use mysql_wire::{
    AnyWidth, BytesRef, BytesRepr, ConstFault, ConstU8, FaultOf, MyDeserialize, NullBytes,
    ParseBuf, Parts, RawBytes, Sink, parts,
};
use std::borrow::CowSlice;
use thiserror::Error;

/// The first byte of a request for columns is not `04`.
#[derive(Clone, Copy, Debug, Default, PartialEq, Eq, Hash, Error)]
#[error("Invalid header for COM_FIELD_LIST")]
pub struct InvalidComFieldListHeader;

impl ConstFault for InvalidComFieldListHeader {
    const MESSAGE: &'static str = "Invalid header for COM_FIELD_LIST";
}

/// The first byte of a request for columns: `04`.
pub type ComFieldListHeader = ConstU8<InvalidComFieldListHeader, COM_FIELD_LIST>;

/// `COM_FIELD_LIST`: requests the definitions of a table's columns.
///
/// | Bytes | Field |
/// |---|---|
/// | 1 | the byte `04` |
/// | up to a zero | the table's name |
/// | to the end | a pattern for the columns' names, as for LIKE |
///
/// A missing zero is `UnexpectedEof`, another first byte is `InvalidData`. The texts borrow from the packet. A table's name is
/// written up to its first zero.
///
/// ```
/// Ok(ComFieldListRef::new(table, b"%").serialize(out)?)
/// ```
#[derive(Clone, Debug, PartialEq, Eq, Drop)]
pub struct ComFieldListRef<'a> {
    table: BytesRef<'a>,
    wildcard: BytesRef<'a>,
}

impl<'a> ComFieldListRef<'a> {
    /// Creates the request for the columns of a table that match a pattern.
    pub fn new(table: &'a [u8], wildcard: &'a [u8]) -> Self
        ensures value { result ≡ spec.field_list_of table.now wildcard.now }
    {
        ComFieldListRef {
            table: BytesRef::new(table),
            wildcard: BytesRef::new(wildcard),
        }
    }

    /// The bytes of the table's name.
    #[inline]
    pub fn table(&self) -> &'a [u8]
        ensures value { result.now ≡ spec.table self.now }
    {
        self.table.as_bytes()
    }

    /// The bytes of the pattern.
    #[inline]
    pub fn wildcard(&self) -> &'a [u8]
        ensures value { result.now ≡ spec.wildcard self.now }
    {
        self.wildcard.as_bytes()
    }
}

impl<'de> MyDeserialize<'de> for ComFieldListRef<'de> {
    const SIZE: Option<usize> = None;

    type Size = AnyWidth;

    type Ctx = ();

    ghost form = { spec.field_list.form };

    fn deserialize<'s>(_ctx: (), buf: &mut ParseBuf<'de>) -> Result<Self, FaultOf<'s>> {
        let _header: ComFieldListHeader = buf.parse(())?;
        let mut table = <NullBytes as BytesRepr>::deserialize((), buf)?;
        Ok(ComFieldListRef {
            table: BytesRef::new(table.eat_all()),
            wildcard: buf.parse(())?,
        })
    }

    ghost size_is = { λ _. unfold spec.field_list in refl };
}

impl Parts for ComFieldListRef<'_> {
    ghost bytes = { spec.field_list.bytes };

    #[inline(always)]
    fn put<S: Sink>(&self, sink: &mut S) {
        let header: ComFieldListHeader = ConstU8::new();
        let table: RawBytes<'_, NullBytes> = RawBytes::new(CowSlice::Borrowed(self.table()));
        sink.part(&parts!(header, table, self.wildcard));
    }
}
