//! Borrowed attributes of a column.
#![tactic(auto, using(mysql_wire::proofs::Packets::packets), unfolding(crate::specs::ColumnAttribute::column_attribute))]

ghost use Rattle.std.specs.Prelude.{◌≡◌, None, refl, ⊤};
ghost use Rattle.mysql_replies.specs.ColumnAttribute as spec;
ghost use Rattle.mysql_replies.specs.declared.column_attribute.ColumnAttribute.{ColumnAttribute};
ghost use Rattle.mysql_replies.specs.ColumnAttribute.{attribute_of};

use crate::column_attribute::{ColumnAttribute, ColumnAttributeKind};
use mysql_wire::{AnyWidth, BytesRepr, FaultOf, LenEnc, MyDeserialize, ParseBuf, RawInt};
use std::alloc::AllocError;
use std::borrow::CowSlice;
use std::fmt;
use std::fmt::Debug;
use std::marker::Model;

/// An attribute of a column whose text stays in the packet: a [`ColumnAttribute`] for as long as the packet lives.
///
/// It is read from the same bytes with the same faults, and in a clause it is that attribute.
///
/// ```
/// let column: ExtendedColumnRef<'_> = ParseBuf::new(alloc, payload).parse(agreed)?;
/// let mut count: usize = 0;
/// for attribute in column.attributes(alloc) {
///     let _text = attribute?.text();
///     count = count.saturating_add(1);
/// }
/// Ok(count)
/// ```
#[derive(Drop)]
pub struct ColumnAttributeRef<'a> {
    code: u8,
    text: &'a [u8],
}

impl<'a> Model for ColumnAttributeRef<'a> {
    ghost Value = { ColumnAttribute };

    ghost view = { λ a. attribute_of a.code a.text.now };
}

impl<'a> ColumnAttributeRef<'a> {
    /// Returns the kind.
    #[inline]
    pub fn kind(&self) -> ColumnAttributeKind
        ensures value { result ≡ spec.attribute_kind self.now }
    {
        ColumnAttributeKind::of(self.code)
    }

    /// The bytes of the text.
    #[inline]
    pub fn text(&self) -> &'a [u8]
        ensures value { result.now ≡ spec.attribute_text self.now }
    {
        self.text
    }

    /// Converts to a [`ColumnAttribute`], which still borrows the text. It takes no memory.
    #[inline]
    pub fn to_owned(&self) -> ColumnAttribute<'a>
        ensures value { result ≡ self.now }
    {
        ColumnAttribute::of_code(self.code, CowSlice::Borrowed(self.text))
    }
}

impl Clone for ColumnAttributeRef<'_> {
    ghost is_clone = { λ a copy. copy ≡ a };

    ghost is_infallible = { λ _. ⊤ };

    fn clone(&self) -> Result<Self, AllocError> {
        Ok(ColumnAttributeRef {
            code: self.code,
            text: self.text,
        })
    }
}

impl PartialEq for ColumnAttributeRef<'_> {
    ghost use Rattle.mysql_replies.specs.contracts.column_attribute.ColumnAttributePartialEq.TheImpl.Laws.{laws-law};

    ghost eq = { ⟦<ColumnAttribute<'static> as PartialEq>⟧.eq };

    ghost laws = { laws-law };

    fn eq(&self, other: &Self) -> bool {
        self.to_owned() == other.to_owned()
    }
}

impl Eq for ColumnAttributeRef<'_> {
    ghost use Rattle.mysql_replies.specs.contracts.column_attribute.ColumnAttributeEq.TheImpl.Laws.{laws-law};

    ghost laws = { laws-law };
}

impl Debug for ColumnAttributeRef<'_> {
    fn fmt<W: fmt::Write>(&self, f: &mut fmt::Formatter<W>) -> fmt::Result {
        self.to_owned().fmt(f)
    }
}

/// Read like a [`ColumnAttribute`].
impl<'de> MyDeserialize<'de> for ColumnAttributeRef<'de> {
    const SIZE: Option<usize> = None;

    type Size = AnyWidth;

    type Ctx = ();

    ghost form = { spec.column_attribute.form };

    #[inline]
    fn deserialize<'s>(_ctx: (), buf: &mut ParseBuf<'de>) -> Result<Self, FaultOf<'s>> {
        let code: RawInt<u8> = buf.parse(())?;
        let mut text: ParseBuf<'de> = <LenEnc as BytesRepr>::deserialize((), buf)?;
        Ok(ColumnAttributeRef {
            code: code.0,
            text: text.eat_all(),
        })
    }

    ghost size_is = { λ _. unfold spec.column_attribute in refl };
}
