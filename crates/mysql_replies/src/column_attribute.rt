//! An attribute of a column, in its extended metadata.
#![tactic(auto, using(mysql_wire::proofs::Packets::packets), unfolding(crate::specs::ColumnAttribute::column_attribute))]

ghost use Rattle.std.specs.Prelude.{◌≡◌, [], None, refl, IfOk, IsOk};
ghost use Rattle.std.specs.Cow.{cow_slice_items};
ghost use Rattle.mysql_wire.specs.Text.{GivesText};
ghost use Rattle.mysql_replies.specs.ColumnAttribute as spec;

use crate::column_attribute_ref::ColumnAttributeRef;
use mysql_wire::{
    AnyWidth, FaultOf, LenEnc, MyDeserialize, ParseBuf, Parts, RawBytes, RawInt, Sink, parts,
};
use std::alloc::{AllocError, Global};
use std::borrow::{CowSlice, CowStr};

/// The kind of a column's attribute.
#[derive(Clone, Copy, Debug, PartialEq, Eq)]
pub enum ColumnAttributeKind {
    /// The name of the column's type, such as `uuid`, `inet6` or `point`: 0.
    TypeName,
    /// The name of the format of its values, such as `json`: 1.
    FormatName,
    /// Any other kind, by its number. `Unknown(0)` and `Unknown(1)` are written like the kinds above.
    Unknown(u8),
}

impl ColumnAttributeKind {
    /// Returns the kind with this number.
    pub fn of(code: u8) -> Self
        ensures value { result ≡ spec.kind_of code }
    {
        match code {
            0 => Self::TypeName,
            1 => Self::FormatName,
            _ => Self::Unknown(code),
        }
    }

    /// Returns the kind's number.
    pub fn code(self) -> u8
        ensures value { result ≡ spec.kind_code self }
    {
        match self {
            Self::TypeName => 0,
            Self::FormatName => 1,
            Self::Unknown(code) => code,
        }
    }
}

/// An attribute in the extended metadata of a column, which adds to its type (MariaDB's "Result Set Packets", extended
/// metadata).
///
/// | Bytes | Field |
/// |---|---|
/// | 1 | `kind` |
/// | 1 and more | `text`, a length-encoded string |
///
/// A byte of any value is a kind. A text that is cut is `UnexpectedEof`, one whose length begins with `fb` or `ff` is
/// `InvalidData`.
#[derive(Clone, Debug, PartialEq, Eq, Drop)]
pub struct ColumnAttribute<'a> {
    code: RawInt<u8>,
    text: RawBytes<'a, LenEnc>,
}

impl<'a> ColumnAttribute<'a> {
    /// The attribute of this kind, with this text.
    #[inline]
    pub fn new(kind: ColumnAttributeKind, text: CowSlice<'a, u8>) -> Self
        ensures value { result ≡ spec.attribute_of (spec.kind_code kind) (cow_slice_items text.entry) }
    {
        ColumnAttribute::of_code(kind.code(), text)
    }

    /// The attribute whose kind has this number.
    #[inline]
    pub(crate) fn of_code(code: u8, text: CowSlice<'a, u8>) -> Self
        ensures value { result ≡ spec.attribute_of code (cow_slice_items text.entry) }
    {
        ColumnAttribute {
            code: RawInt::new(code),
            text: RawBytes::new(text),
        }
    }

    /// The number of its kind.
    #[inline]
    pub(crate) fn code(&self) -> u8
        ensures value { result ≡ spec.attribute_code self.now }
    {
        self.code.0
    }

    /// Returns the kind.
    #[inline]
    pub fn kind(&self) -> ColumnAttributeKind
        ensures value { result ≡ spec.attribute_kind self.now }
    {
        ColumnAttributeKind::of(self.code.0)
    }

    /// The bytes of the text.
    #[inline]
    pub fn text_ref(&self) -> &[u8]
        ensures value { result.now ≡ spec.attribute_text self.now }
    {
        self.text.as_bytes()
    }

    /// The text, with U+FFFD for invalid UTF-8. Valid UTF-8 is borrowed, and takes no memory.
    pub fn text_str(&self, alloc: Global) -> Result<CowStr<'_>, AllocError>
        ensures text { GivesText (spec.attribute_text self.now) result }
    {
        self.text.as_str(alloc)
    }

    /// Copies the text, so that the attribute borrows nothing. An empty text needs no allocation.
    pub fn into_owned(self, alloc: Global) -> Result<ColumnAttribute<'static>, AllocError>
        ensures value { IfOk result (λ owned. owned ≡ self.entry) }
        ensures no_memory { spec.attribute_text self.entry ≡ [] → IsOk result }
    {
        Ok(ColumnAttribute {
            code: self.code,
            text: self.text.into_owned(alloc)?,
        })
    }
}

impl<'de> MyDeserialize<'de> for ColumnAttribute<'de> {
    const SIZE: Option<usize> = None;

    type Size = AnyWidth;

    type Ctx = ();

    ghost form = { spec.column_attribute.form };

    fn deserialize<'s>(_ctx: (), buf: &mut ParseBuf<'de>) -> Result<Self, FaultOf<'s>> {
        let attribute: ColumnAttributeRef<'de> = buf.parse(())?;
        Ok(attribute.to_owned())
    }

    ghost size_is = { λ _. unfold spec.column_attribute in refl };
}

impl Parts for ColumnAttribute<'_> {
    ghost bytes = { spec.column_attribute.bytes };

    #[inline(always)]
    fn put<S: Sink>(&self, sink: &mut S) {
        sink.part(&parts!(self.code, self.text));
    }
}
