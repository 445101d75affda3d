//! The fields before the values of parameters and attributes: the NULL bitmap and the types.
#![tactic(auto, using(mysql_wire::proofs::Packets::packets))]

ghost use Rattle.std.specs.Prelude.{false, ◌≡◌, ◌≤◌, ◌*◌, length, IfOk};
ghost use Rattle.mysql_wire.specs.Reading.{Answers};
ghost use Rattle.mysql_wire.specs.Form.{bytes};
ghost use Rattle.mysql_stmt.specs.Bitmap.{bytes_for};
ghost use Rattle.mysql_stmt.specs.BindFront as spec;

use crate::sent_types::SentParamTypes;
use mysql_wire::{FaultOf, ParseBuf, RawInt};
use std::marker::Model;

/// The NULL bitmap, whether types are sent, and the types.
#[derive(Drop)]
pub(crate) struct BindFront<'a> {
    pub(crate) nulls: ParseBuf<'a>,
    pub(crate) sends_types: bool,
    pub(crate) types: SentParamTypes<'a>,
}

impl<'a> Model for BindFront<'a> {
    ghost use Rattle.mysql_stmt.specs.BindFront as spec;

    ghost Value = { spec.BindFront };

    ghost view = { λ f. record { nulls = f.nulls; sends_types = f.sends_types; types = f.types } };
}

/// The length of a bitmap of `count` bits in bytes.
fn bitmap_len(count: usize) -> usize
    ensures value { result ≡ bytes_for 0 count }
{
    let more = if count % 8 == 0 { 0 } else { 1 };
    count / 8 + more
}

/// Reads the bitmap, which has a bit for each of `count` values.
#[tactic(auto, using(mysql_wire::proofs::Packets::packets), unfolding(mysql_wire::specs::Form::bytes))]
fn read_nulls<'s, 'a>(count: usize, buf: &mut ParseBuf<'a>) -> Result<ParseBuf<'a>, FaultOf<'s>>
    ensures value { Answers false result buf.new ((bytes (bytes_for 0 count)).reads buf.old) }
    ensures enough { IfOk result (λ nulls. count ≤ 8 * length nulls) }
{
    buf.parse(bitmap_len(count))
}

/// Reads this many types, if they are sent: only parameters may be without.
fn read_types<'s, 'a>(
    sends_types: bool,
    has_names: bool,
    count: usize,
    params: usize,
    buf: &mut ParseBuf<'a>,
) -> Result<SentParamTypes<'a>, FaultOf<'s>>
    ensures value { Answers false result buf.new ((spec.types_sent sends_types has_names count params).reads buf.old) }
    ensures sent { IfOk result (spec.AreSent sends_types count) }
{
    if sends_types {
        return SentParamTypes::read(has_names, count, buf);
    }
    if count != params {
        return Err(FaultOf::InvalidData("Malformed query attributes"));
    }
    Ok(SentParamTypes::none(buf))
}

impl<'a> BindFront<'a> {
    /// Reads the fields before the values of `count` parameters and attributes, of which `params` are parameters.
    pub(crate) fn read<'s>(
        has_names: bool,
        count: usize,
        params: usize,
        buf: &mut ParseBuf<'a>,
    ) -> Result<Self, FaultOf<'s>>
        ensures value { Answers false result buf.new ((spec.bind_front has_names count params).reads buf.old) }
        ensures front { IfOk result (spec.HasFront count) }
    {
        if count == 0 {
            return Ok(BindFront {
                nulls: ParseBuf::new(buf.alloc(), &[]),
                sends_types: false,
                types: SentParamTypes::none(buf),
            });
        }
        let nulls = read_nulls(count, buf)?;
        let new_params_bound: RawInt<u8> = buf.parse(())?;
        let sends_types = new_params_bound.0 != 0;
        let types = read_types(sends_types, has_names, count, params, buf)?;
        Ok(BindFront {
            nulls,
            sends_types,
            types,
        })
    }
}
