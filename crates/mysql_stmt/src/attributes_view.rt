//! Borrowed attributes of a query or an execution.
#![tactic(auto, using(mysql_wire::proofs::Packets::packets))]

ghost use Rattle.std.specs.Prelude.{false, ◌≡◌, ◌<◌, ◌≤◌, ◌*◌, ◌+◌, ◌++◌, [], ⊤, Ok, length, IsTrue, ◌↔◌};
ghost use Rattle.mysql_wire.specs.Reading.{Answers, IsTail};
ghost use Rattle.mysql_values.specs.ParamValue.{param_contents};
ghost use Rattle.mysql_stmt.specs.Bitmap.{cell};
ghost use Rattle.mysql_stmt.specs.Attributes as spec;
ghost use Rattle.mysql_stmt.specs.BindFront.{AttributesThere};

use crate::bind_front::BindFront;
use crate::execute_param::{ExecuteParam, QueryAttribute};
use crate::null_bitmap::NullBitmap;
use crate::sent_types::SentParamTypes;
use crate::typed_param::TypedExecuteParam;
use mysql_values::{ClientSide, ParamType, ParamValue, ValueRef, read_param_value};
use mysql_wire::{FaultOf, ParseBuf};
use std::alloc::AllocError;
use std::borrow::CowSlice;
use std::marker::Model;

/// Whether that bit is set.
#[inline(always)]
pub(crate) fn is_marked(nulls: &ParseBuf<'_>, place: usize) -> bool
    requires { place < 8 * length nulls.now }
    ensures value { IsTrue result ↔ (cell nulls.now place ≡ 1) }
{
    let bytes = nulls.rest().eat_all();
    NullBitmap::<'_, ClientSide>::from_bytes(CowSlice::Borrowed(bytes)).is_null(place)
}

/// Reads the value of a parameter or an attribute; NULL takes no bytes.
#[inline(always)]
pub(crate) fn read_value<'s, 'de>(
    is_null: bool,
    param_type: ParamType,
    buf: &mut ParseBuf<'de>,
) -> Result<ParamValue<'de>, FaultOf<'s>>
    ensures value { Answers false (param_contents result) buf.new ((spec.value_of is_null param_type).reads buf.old) }
{
    if is_null {
        return Ok(ParamValue::Value(ValueRef::NULL));
    }
    read_param_value(param_type, buf)
}

/// Returns the bytes between the front of a buffer and its rest.
#[inline(always)]
pub(crate) fn bytes_before<'de>(buf: &ParseBuf<'de>, rest: &ParseBuf<'_>) -> &'de [u8]
    requires { IsTail rest.now buf.now }
    ensures value { buf.now ≡ result.now ++ rest.now }
{
    buf.rest().eat(buf.len() - rest.len())
}

/// The attributes of a query or an execution, one by one, without memory.
///
/// In a clause it is the number of remaining attributes, the result of reading them all, the bytes after those
/// that were read, the NULL bitmap, and the position of the next one in it.
///
/// ```
/// let query: ComQueryRef<'_> = ParseBuf::new(alloc, payload).parse(agreed)?;
/// Ok(match query.attributes() {
/// Some(attributes) => attributes.view().left(),
/// None => 0,
/// })
/// ```
#[derive(Drop)]
pub struct QueryAttributesView<'a> {
    nulls: ParseBuf<'a>,
    place: usize,
    types: SentParamTypes<'a>,
    values: ParseBuf<'a>,
}

impl<'a> Model for QueryAttributesView<'a> {
    ghost use Rattle.std.specs.Prelude.{length};
    ghost use Rattle.mysql_stmt.specs.Attributes.{AttributesLeft, HasMarks, attributes_left};

    ghost Value = { AttributesLeft };

    ghost view = { λ v. attributes_left v.nulls v.place v.types v.values };

    ghost invariant = { λ v. HasMarks v.nulls v.place (length v.types) };
}

impl Clone for QueryAttributesView<'_> {
    ghost is_clone = { λ v copy. copy ≡ v };

    ghost is_infallible = { λ _. ⊤ };

    fn clone(&self) -> Result<Self, AllocError> {
        Ok(self.again())
    }
}

impl<'a> QueryAttributesView<'a> {
    ghost use Rattle.mysql_stmt.specs.ExecuteRead.{NextAttributeAsSent};

    /// Creates a view of attributes of these types, whose bits begin at a position of the bitmap, and whose
    /// values are these bytes.
    #[inline]
    pub(crate) fn of(
        nulls: ParseBuf<'a>,
        place: usize,
        types: SentParamTypes<'a>,
        values: ParseBuf<'a>,
    ) -> Self
        requires { spec.HasMarks nulls place (length types) }
        ensures value { result ≡ spec.attributes_left nulls.entry place types.entry values.entry }
    {
        QueryAttributesView {
            nulls,
            place,
            types,
            values,
        }
    }

    /// Reads the fields before the values of a query's `count` attributes: the NULL bitmap, a byte that is not 0, and the
    /// types with the names.
    ///
    /// Missing bytes are `UnexpectedEof`; a byte 0 and an unknown type are `InvalidData`.
    pub fn read<'s>(count: usize, buf: ParseBuf<'a>) -> Result<Self, FaultOf<'s>>
        ensures value { AttributesThere count buf.entry result }
    {
        let mut rest = buf;
        let front = BindFront::read(true, count, 0, &mut rest)?;
        Ok(QueryAttributesView::of(front.nulls, 0, front.types, rest))
    }

    /// Copies the view, with the remaining attributes.
    #[inline]
    pub fn again(&self) -> Self
        ensures value { result ≡ self.now }
    {
        QueryAttributesView {
            nulls: self.nulls.rest(),
            place: self.place,
            types: self.types.again(),
            values: self.values.rest(),
        }
    }

    /// The number of remaining attributes.
    #[inline]
    pub fn left(&self) -> usize
        ensures value { result ≡ self.now.left }
    {
        self.types.left()
    }

    /// The bytes after the attributes that were read.
    #[inline]
    pub fn rest(&self) -> ParseBuf<'a>
        ensures value { result ≡ self.now.rest }
        ensures done { self.now.left ≡ 0 → self.now.all ≡ Ok ([], result) }
    {
        self.values.rest()
    }

    /// Reads the next attribute, or returns `None` after the last. After an error the view is unchanged.
    ///
    /// The attributes of a query were checked when it was read, so reading them doesn't fail.
    #[inline]
    pub fn next_attribute<'s>(&mut self) -> Result<Option<QueryAttribute<'a>>, FaultOf<'s>>
        ensures value { spec.NextAttribute self.old result self.new }
        ensures past { spec.MovesPast self.old result self.new }
    {
        let mut types = self.types.again();
        let Some(named_type) = types.next_type() else {
            return Ok(None);
        };
        let is_null = is_marked(&self.nulls, self.place);
        let mut rest = self.values.rest();
        let value = read_value(is_null, named_type.param_type, &mut rest)?;
        self.values = rest;
        self.types = types;
        self.place += 1;
        Ok(Some(QueryAttribute {
            param_type: named_type.param_type,
            name: named_type.name,
            value,
        }))
    }

    /// Returns the next attribute as it was sent, or `None` after the last: like [`next_attribute`](Self::next_attribute), with
    /// its bit in the NULL bitmap and the bytes of its value. The errors are the same, and leave the view unchanged.
    ///
    /// A [`ComQuery`](crate::ComQuery) or an execution with these attributes is written byte for byte as it was read.
    #[inline]
    pub fn next_as_sent<'s>(&mut self) -> Result<Option<TypedExecuteParam<'a>>, FaultOf<'s>>
        ensures value { NextAttributeAsSent self.old result self.new }
    {
        if self.left() == 0 {
            return Ok(None);
        }
        let has_null_bit = is_marked(&self.nulls, self.place);
        let values = self.values.rest();
        let Some(attribute) = self.next_attribute()? else {
            return Ok(None);
        };
        Ok(Some(TypedExecuteParam {
            param_type: attribute.param_type,
            name: attribute.name,
            param: ExecuteParam::AsSent {
                has_null_bit,
                bytes: bytes_before(&values, &self.values),
            },
        }))
    }

    /// Returns the bytes after the last attribute, or the first fault.
    pub fn pass<'s>(&self) -> Result<ParseBuf<'a>, FaultOf<'s>>
        ensures value { spec.PassedTo self.now result }
    {
        let mut view = self.again();
        for _ in 0..self.left() {
            view.next_attribute()?;
        }
        Ok(view.rest())
    }
}
