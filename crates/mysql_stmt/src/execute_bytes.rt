//! The parameters of an execution, read one by one, each with what the caller knows of it.

ghost use Rattle.std.specs.Prelude.{false, ◌≡◌, ◌≢◌, ◌<◌, ◌*◌, ◌∷◌, ◌↔◌, [], List, length, All, IfOk, IfErr, IfSome, IfNone, IsTrue};
ghost use Rattle.mysql_wire.specs.Reading.{Answers, Faults};
ghost use Rattle.mysql_stmt.specs.Attributes.{attributes_left};
ghost use Rattle.mysql_stmt.specs.Bitmap.{cell};
ghost use Rattle.mysql_stmt.specs.BindFront.{HasFront};
ghost use Rattle.mysql_stmt.specs.ExecuteHead.{cursor_flags};
ghost use Rattle.mysql_stmt.specs.ExecuteRead as spec;
ghost use Rattle.mysql_stmt.specs.declared.execute_view.BoundParam.{BoundParam};

use crate::attributes_view::{QueryAttributesView, bytes_before, is_marked, read_value};
use crate::bind_front::BindFront;
use crate::execute_head::ComStmtExecuteHead;
use crate::execute_param::ExecuteParam;
use crate::execute_view::BoundParam;
use crate::sent_types::{NamedTypeRef, SentParamTypes};
use crate::typed_param::TypedExecuteParam;
use mysql_values::ParamType;
use mysql_wire::{CapabilityFlags, FaultOf, Flags, LenEnc, ParseBuf, RawInt};
use std::marker::Model;

/// The number of parameters and attributes, for a statement of `params` parameters.
#[tactic(auto, unfolding(mysql_wire::specs::Int::raw))]
fn read_count<'s>(
    capabilities: CapabilityFlags,
    head: &ComStmtExecuteHead,
    params: usize,
    buf: &mut ParseBuf<'_>,
) -> Result<usize, FaultOf<'s>>
    ensures value { Answers false result buf.new ((spec.count_of capabilities (cursor_flags head.now) params).reads buf.old) }
{
    let has_attributes = capabilities.contains(CapabilityFlags::CLIENT_QUERY_ATTRIBUTES);
    if !(has_attributes && (params != 0 || head.has_parameter_count())) {
        return Ok(params);
    }
    let count: RawInt<LenEnc> = buf.parse(())?;
    if count.0 < params as u64 {
        return Err(FaultOf::InvalidData("Malformed parameter count"));
    }
    Ok(count.0 as usize)
}

/// The fields before the values.
fn read_front<'s, 'a>(
    capabilities: CapabilityFlags,
    head: &ComStmtExecuteHead,
    params: usize,
    buf: &mut ParseBuf<'a>,
) -> Result<BindFront<'a>, FaultOf<'s>>
    ensures value { Answers false result buf.new ((spec.execution_front capabilities (cursor_flags head.now) params).reads buf.old) }
    ensures front { IfOk result (spec.HasFrontOf params) }
{
    let count = read_count(capabilities, head, params, buf)?;
    let has_names = capabilities.contains(CapabilityFlags::CLIENT_QUERY_ATTRIBUTES);
    BindFront::read(has_names, count, params, buf)
}

/// Returns the type in force: the next of those that are sent, which exists, or that of an earlier execution.
#[inline(always)]
fn next_type<'a>(
    sends_types: bool,
    earlier: ParamType,
    types: &mut SentParamTypes<'a>,
) -> NamedTypeRef<'a>
    requires { IsTrue sends_types → types.old ≢ [] }
    ensures value { spec.TakesInForce sends_types earlier types.old result types.new }
{
    if sends_types {
        return types.take_type();
    }
    NamedTypeRef {
        param_type: earlier,
        name: &[],
    }
}

/// Reads a parameter; one that was sent ahead takes no bytes, nor does NULL.
#[inline(always)]
fn read_param<'s, 'de>(
    is_sent_ahead: bool,
    is_null: bool,
    param_type: ParamType,
    buf: &mut ParseBuf<'de>,
) -> Result<ExecuteParam<'de>, FaultOf<'s>>
    ensures value { Answers false (spec.param_read result) buf.new ((spec.param_form is_sent_ahead is_null param_type).reads buf.old) }
{
    if is_sent_ahead {
        return Ok(ExecuteParam::SentAhead);
    }
    let value = read_value(is_null, param_type, buf)?;
    Ok(ExecuteParam::sent(value))
}

/// Whether the parameter at this position is NULL; `none` says that no parameter is.
#[inline(always)]
fn is_null_at(nulls: &ParseBuf<'_>, none: bool, place: usize) -> bool
    requires there { place < 8 * length nulls.now }
    requires none { IsTrue none → All (λ b. b ≡ 0) nulls.now }
    ensures value { IsTrue result ↔ (cell nulls.now place ≡ 1) }
{
    if none {
        return false;
    }
    is_marked(nulls, place)
}

/// The fields after a [`ComStmtExecuteHead`], read parameter by parameter: for each the caller passes what the
/// server knows of it.
///
/// It reads the layout of [`ExecuteParamsView`](crate::ExecuteParamsView), for callers without a list of
/// [`BoundParam`]. It takes no memory, and the bytes of a value stay in the packet.
///
/// In a clause it is whether types are sent, the number of remaining parameters, the NULL bitmap, the position
/// of the next parameter in it, the remaining types, and the bytes after the values that were read.
#[derive(Drop)]
pub struct ExecuteParamsBytes<'a> {
    buf: ParseBuf<'a>,
    nulls: ParseBuf<'a>,
    none: bool,
    place: usize,
    sends_types: bool,
    types: SentParamTypes<'a>,
    left: usize,
}

impl<'a> Model for ExecuteParamsBytes<'a> {
    ghost use Rattle.mysql_stmt.specs.ExecuteRead.{ParamsBytes};
    ghost use Rattle.mysql_stmt.specs.ExecuteBytes.{IsBound};

    ghost Value = { ParamsBytes };

    ghost view = { λ r. record { sends_types = r.sends_types; left = r.left; nulls = r.nulls; place = r.place; types = r.types; values = r.buf } };

    ghost invariant = { λ r. IsBound r.sends_types r.left r.nulls r.none r.place r.types };
}

impl<'a> ExecuteParamsBytes<'a> {
    /// Reads the fields before the values, for a statement of `count` parameters.
    ///
    /// Missing bytes are `UnexpectedEof`. An unknown type, a count less than that of the parameters, and
    /// attributes without types are `InvalidData`. An execution that sends no types is read under those of an
    /// earlier one; if there was none, check [`sends_types`](Self::sends_types) first.
    pub fn new<'s>(
        capabilities: CapabilityFlags,
        head: &ComStmtExecuteHead,
        count: usize,
        buf: ParseBuf<'a>,
    ) -> Result<Self, FaultOf<'s>>
        ensures left { IfOk result (λ bytes. bytes.left ≡ count) }
        ensures read { (params : List BoundParam) → length params ≡ count → IfOk result (λ bytes. spec.execution_of (spec.left_of bytes params) ≡ (spec.execution capabilities (cursor_flags head.now) params).reads buf.entry) }
        ensures front { IfOk result (spec.StandsAfter capabilities (cursor_flags head.now) count buf.entry) }
        ensures refused { IfErr result (λ e. Faults false e ((spec.execution_front capabilities (cursor_flags head.now) count).reads buf.entry)) }
        ensures fault { (params : List BoundParam) → length params ≡ count → IfErr result (λ e. Faults false e ((spec.execution capabilities (cursor_flags head.now) params).reads buf.entry)) }
    {
        let mut rest = buf;
        let front = read_front(capabilities, head, count, &mut rest)?;
        let none = front.nulls.rest().eat_all().iter().all(|byte| *byte == 0);
        Ok(ExecuteParamsBytes {
            buf: rest,
            nulls: front.nulls,
            none,
            place: 0,
            sends_types: front.sends_types,
            types: front.types,
            left: count,
        })
    }

    /// Whether the execution sends types.
    #[inline]
    pub fn sends_types(&self) -> bool
        ensures value { result ≡ self.now.sends_types }
    {
        self.sends_types
    }

    /// Sets the types of the remaining parameters, if the execution sends types.
    pub fn set_types(&self, params: &mut [BoundParam])
        requires { length params.old ≡ self.now.left }
        ensures { params.new ≡ spec.given_types self.now.sends_types params.old self.now.types }
    {
        if self.sends_types {
            self.types.set_types(params);
        }
    }

    /// The number of remaining parameters.
    #[inline]
    pub fn left(&self) -> usize
        ensures value { result ≡ self.now.left }
    {
        self.left
    }

    /// The bytes after the parameters that were read.
    #[inline]
    pub fn rest(&self) -> ParseBuf<'a>
        ensures value { result ≡ self.now.values }
    {
        self.buf.rest()
    }

    /// Returns the attributes, which follow the parameters, once all parameters have been read.
    #[inline]
    pub fn attributes(&self) -> Option<QueryAttributesView<'a>>
        ensures value { IfSome result (λ view. view ≡ attributes_left self.now.nulls self.now.place self.now.types self.now.values) }
        ensures last { IfSome result (λ view. self.now.left ≡ 0) }
        ensures none { IfNone result (self.now.left ≢ 0) }
    {
        if self.left != 0 {
            return None;
        }
        Some(QueryAttributesView::of(
            self.nulls.rest(),
            self.place,
            self.types.again(),
            self.buf.rest(),
        ))
    }

    /// Reads the next parameter with its type and its name; `bound` is what the server knows of it. After an
    /// error nothing has changed.
    ///
    /// A server keeps the types for later executions that send none.
    #[inline(always)]
    pub fn next_param<'s>(
        &mut self,
        bound: BoundParam,
    ) -> Result<TypedExecuteParam<'a>, FaultOf<'s>>
        requires some { self.old.left ≢ 0 }
        ensures value { (others : List BoundParam) → length (bound ∷ others) ≡ self.old.left → spec.GivesBound self.old bound others result self.new }
    {
        let mut types = self.types.again();
        let named_type = next_type(self.sends_types, bound.param_type, &mut types);
        let is_null = is_null_at(&self.nulls, self.none, self.place);
        let mut rest = self.buf.rest();
        let param = read_param(
            bound.is_sent_ahead,
            is_null,
            named_type.param_type,
            &mut rest,
        )?;
        self.buf = rest;
        self.types = types;
        self.left -= 1;
        self.place += 1;
        Ok(TypedExecuteParam {
            param_type: named_type.param_type,
            name: named_type.name,
            param,
        })
    }

    /// Reads the next parameter as it was sent: like [`next_param`](Self::next_param), with its bit in the NULL bitmap and
    /// the bytes of its value. The errors are the same, and change nothing.
    ///
    /// An execution with these parameters is written byte for byte as it was read.
    #[inline]
    pub fn next_as_sent<'s>(
        &mut self,
        bound: BoundParam,
    ) -> Result<TypedExecuteParam<'a>, FaultOf<'s>>
        requires some { self.old.left ≢ 0 }
        ensures value { (others : List BoundParam) → length (bound ∷ others) ≡ self.old.left → spec.GivesBoundAsSent self.old bound others result self.new }
    {
        let has_null_bit = is_null_at(&self.nulls, self.none, self.place);
        let values = self.buf.rest();
        let read = self.next_param(bound)?;
        Ok(TypedExecuteParam {
            param_type: read.param_type,
            name: read.name,
            param: ExecuteParam::AsSent {
                has_null_bit,
                bytes: bytes_before(&values, &self.buf),
            },
        })
    }
}
