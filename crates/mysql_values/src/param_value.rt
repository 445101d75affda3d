//! The values of parameters and attributes.

ghost use Rattle.std.specs.Prelude.{false, ◌≡◌, OnErr};
ghost use Rattle.mysql_wire.specs.Reading.{Answers};
ghost use Rattle.mysql_values.specs.ParamValue as spec;
ghost use Rattle.mysql_wire.specs.Form.{map};
ghost use Rattle.mysql_values.specs.ParamValue.{Plain};
ghost use Rattle.mysql_values.specs.ValueDeserializer.{value_of_kind};

use crate::date_time_with_offset::DateTimeWithOffset;
use crate::param_type::ParamType;
use crate::value_kind::ValueKind;
use crate::value_ref::ValueRef;
use crate::value_ref_reader::read_kind_ref;
use mysql_wire::{ColumnType, FaultOf, Flags, ParseBuf, StmtExecuteParamFlags};

/// The value of a parameter or an attribute of an execution or a query.
#[derive(Clone, Copy, Debug, PartialEq)]
pub enum ParamValue<'a> {
    /// A value, as in rows.
    Value(ValueRef<'a>),
    /// A date and a time with an offset from UTC, which only parameters and attributes have.
    DateTimeWithOffset(DateTimeWithOffset),
}

impl ValueKind {
    /// The kind of a parameter's values, by its type (`get_ps_param_len` in `sql/protocol_classic.cc`).
    ///
    /// `INT24`, `YEAR` and the reserved types are strings here, unlike in rows.
    #[inline(always)]
    pub fn of_param(column_type: ColumnType) -> Self
        ensures value { result ≡ spec.param_kind column_type }
    {
        match column_type {
            ColumnType::MYSQL_TYPE_TINY => ValueKind::Tiny,
            ColumnType::MYSQL_TYPE_SHORT => ValueKind::Short,
            ColumnType::MYSQL_TYPE_LONG => ValueKind::Long,
            ColumnType::MYSQL_TYPE_LONGLONG => ValueKind::LongLong,
            ColumnType::MYSQL_TYPE_FLOAT => ValueKind::Float,
            ColumnType::MYSQL_TYPE_DOUBLE => ValueKind::Double,
            ColumnType::MYSQL_TYPE_DATE => ValueKind::Date,
            ColumnType::MYSQL_TYPE_TIME => ValueKind::Time,
            ColumnType::MYSQL_TYPE_DATETIME | ColumnType::MYSQL_TYPE_TIMESTAMP => {
                ValueKind::DateTime
            }
            ColumnType::MYSQL_TYPE_NULL => ValueKind::Null,
            _ => ValueKind::String,
        }
    }
}

/// Reads a date with a time, which may have an offset.
#[inline(never)]
#[tactic(auto, unfolding(crate::specs::ParamValue::date_time_param))]
fn read_date_time<'s, 'de>(buf: &mut ParseBuf<'de>) -> Result<ParamValue<'de>, FaultOf<'s>>
    ensures value { Answers false (spec.param_contents result) buf.new (spec.date_time_param.reads buf.old) }
    ensures stays { OnErr result (buf.new ≡ buf.old) }
{
    if buf.first() == Some(13) {
        let date: DateTimeWithOffset = buf.parse(())?;
        return Ok(ParamValue::DateTimeWithOffset(date));
    }
    let date = read_kind_ref(ValueKind::DateTime, false, buf)?;
    Ok(ParamValue::Value(date))
}

/// Reads one from a buffer of its own, so that the caller's stays in registers.
#[inline(always)]
fn read_date_time_apart<'s, 'de>(buf: &mut ParseBuf<'de>) -> Result<ParamValue<'de>, FaultOf<'s>>
    ensures value { Answers false (spec.param_contents result) buf.new (spec.date_time_param.reads buf.old) }
    ensures stays { OnErr result (buf.new ≡ buf.old) }
{
    let mut rest = buf.rest();
    let value = read_date_time(&mut rest)?;
    *buf = rest;
    Ok(value)
}

/// Reads a value of the kind, which is not a date with a time.
#[inline(always)]
fn read_other<'s, 'de>(
    kind: ValueKind,
    is_unsigned: bool,
    buf: &mut ParseBuf<'de>,
) -> Result<ParamValue<'de>, FaultOf<'s>>
    ensures value { Answers false (spec.param_contents result) buf.new ((map Plain (value_of_kind kind is_unsigned)).reads buf.old) }
    ensures stays { OnErr result (buf.new ≡ buf.old) }
{
    let value = read_kind_ref(kind, is_unsigned, buf)?;
    Ok(ParamValue::Value(value))
}

/// Reads a value of a parameter or an attribute by its type. It takes no memory, and the value borrows its
/// bytes from the packet.
///
/// Types are read as by `get_ps_param_len` (`sql/protocol_classic.cc`): integers of 1, 2, 4 and 8 bytes and
/// floats of 4 and 8; dates and times after their length; NULL without bytes; every other type as a
/// length-encoded string. Missing bytes are `UnexpectedEof`, and an invalid length of a date or time is
/// `InvalidData`. On an error the buffer is unchanged.
#[inline(always)]
pub fn read_param_value<'s, 'de>(
    param_type: ParamType,
    buf: &mut ParseBuf<'de>,
) -> Result<ParamValue<'de>, FaultOf<'s>>
    ensures value { Answers false (spec.param_contents result) buf.new ((spec.param_value param_type).reads buf.old) }
    ensures stays { OnErr result (buf.new ≡ buf.old) }
{
    let is_unsigned = param_type.flags().contains(StmtExecuteParamFlags::UNSIGNED);
    match ValueKind::of_param(param_type.column_type()) {
        ValueKind::DateTime => read_date_time_apart(buf),
        kind => read_other(kind, is_unsigned, buf),
    }
}
