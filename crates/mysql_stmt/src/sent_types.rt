//! Borrowed types of parameters and attributes, with their names.
#![tactic(auto, using(mysql_wire::proofs::Packets::packets))]

ghost use Rattle.std.specs.Prelude.{false, ◌≡◌, ◌≢◌, ◌≤◌, ◌∷◌, [], length, IfOk, OnErr};
ghost use Rattle.mysql_wire.specs.Reading.{Answers};
ghost use Rattle.mysql_stmt.specs.SentTypes as spec;

use crate::execute_view::BoundParam;
use mysql_values::ParamType;
use mysql_wire::{BytesRepr, FaultOf, LenEnc, ParseBuf};
use std::marker::Model;

/// A type with its name, which stays in the packet.
#[derive(Drop)]
pub(crate) struct NamedTypeRef<'a> {
    pub(crate) param_type: ParamType,
    pub(crate) name: &'a [u8],
}

impl<'a> Model for NamedTypeRef<'a> {
    ghost use Rattle.mysql_stmt.specs.SentTypes.{NamedType};

    ghost Value = { NamedType };

    ghost view = { λ t. record { param_type = t.param_type; name = t.name.now } };
}

/// Reads a type, and its name after its length if names are sent.
#[inline(always)]
fn read_type<'s, 'a>(
    has_names: bool,
    buf: &mut ParseBuf<'a>,
) -> Result<NamedTypeRef<'a>, FaultOf<'s>>
    ensures value { Answers false result buf.new ((spec.sent_type has_names).reads buf.old) }
{
    let param_type: ParamType = buf.parse(())?;
    if !has_names {
        return Ok(NamedTypeRef {
            param_type,
            name: &[],
        });
    }
    let mut name = <LenEnc as BytesRepr>::deserialize((), buf)?;
    Ok(NamedTypeRef {
        param_type,
        name: name.eat_all(),
    })
}

/// Skips `count` types.
fn skip_types<'s>(has_names: bool, count: usize, buf: &mut ParseBuf<'_>) -> Result<(), FaultOf<'s>>
    ensures value { Answers false result buf.new ((spec.passed_types has_names count).reads buf.old) }
{
    for _ in 0..count {
        let _named_type = read_type(has_names, buf)?;
    }
    Ok(())
}

/// Types of parameters and attributes, one after another, without memory. All of them are read when the list is
/// created.
///
/// In a clause it is the list of the remaining types.
#[derive(Drop)]
pub struct SentParamTypes<'a> {
    has_names: bool,
    left: usize,
    /// The remaining types, and the bytes after them.
    bytes: ParseBuf<'a>,
}

impl<'a> Model for SentParamTypes<'a> {
    ghost use Rattle.std.specs.Prelude.{List};
    ghost use Rattle.mysql_stmt.specs.SentTypes.{HasTypes, NamedType, types_in};

    ghost Value = { List NamedType };

    ghost view = { λ p. types_in p.has_names p.left p.bytes };

    ghost invariant = { λ p. HasTypes p.has_names p.left p.bytes };
}

impl<'a> SentParamTypes<'a> {
    /// An empty list.
    #[tactic(auto, unfolding(mysql_wire::specs::Seq::counted))]
    pub(crate) fn none(buf: &ParseBuf<'a>) -> Self
        ensures value { result ≡ [] }
    {
        SentParamTypes {
            has_names: false,
            left: 0,
            bytes: buf.rest(),
        }
    }

    /// Reads `count` types. Missing bytes are `UnexpectedEof`, and an unknown type is `InvalidData`. On an
    /// error the buffer is unchanged.
    #[tactic(auto, using(crate::proofs::SentTypes::places))]
    pub fn read<'s>(
        has_names: bool,
        count: usize,
        buf: &mut ParseBuf<'a>,
    ) -> Result<Self, FaultOf<'s>>
        ensures value { Answers false result buf.new ((spec.types has_names count).reads buf.old) }
        ensures many { IfOk result (λ types. length types ≡ count) }
        ensures stays { OnErr result (buf.new ≡ buf.old) }
    {
        let bytes = buf.rest();
        let mut rest = buf.rest();
        skip_types(has_names, count, &mut rest)?;
        *buf = rest;
        Ok(SentParamTypes {
            has_names,
            left: count,
            bytes,
        })
    }

    /// The number of remaining types.
    #[inline]
    pub fn left(&self) -> usize
        ensures value { result ≡ length self.now }
    {
        self.left
    }

    /// Sets the types of parameters, in order; the types past the last parameter belong to attributes.
    pub fn set_types(&self, params: &mut [BoundParam])
        requires { length params.old ≤ length self.now }
        ensures { params.new ≡ spec.under_types params.old self.now }
    {
        let mut types = self.again();
        for place in 0..params.len() {
            match types.next_type() {
                Some(named_type) => params[place].param_type = named_type.param_type,
                None => return,
            }
        }
    }

    /// Copies the list, with the remaining types.
    #[inline(always)]
    pub fn again(&self) -> Self
        ensures value { result ≡ self.now }
    {
        SentParamTypes {
            has_names: self.has_names,
            left: self.left,
            bytes: self.bytes.rest(),
        }
    }

    /// Takes the first of the remaining types, of which there is at least one. All of them were read before, so
    /// it doesn't fail.
    #[inline(always)]
    pub(crate) fn take_type(&mut self) -> NamedTypeRef<'a>
        requires some { self.old ≢ [] }
        ensures value { self.old ≡ result ∷ self.new }
    {
        let mut bytes = self.bytes.rest();
        let read: Result<NamedTypeRef<'a>, FaultOf> = read_type(self.has_names, &mut bytes);
        match read {
            Ok(first) => {
                self.left -= 1;
                self.bytes = bytes;
                first
            }
            Err(_) => unreachable!(),
        }
    }

    /// Takes the first of the remaining types, if there is one.
    #[inline(always)]
    pub(crate) fn next_type(&mut self) -> Option<NamedTypeRef<'a>>
        ensures value { spec.TakesType self.old result self.new }
    {
        if self.left == 0 {
            return None;
        }
        Some(self.take_type())
    }
}
