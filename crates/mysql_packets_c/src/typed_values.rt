//! Types and values of parameters, written in one pass: each to a buffer of its own.

ghost use Rattle.std.specs.List.{flat_map};
ghost use Rattle.std.specs.Prelude.{◌≡◌, ◌+◌, ◌≤◌, length};
ghost use Rattle.mysql_packets_c.specs.Appends.{Appends};
ghost use Rattle.mysql_packets_c.specs.CheckedParams.{sent_bytes, type_sent};

use crate::left::Left;
use crate::parameter::CParameter;
use crate::sent_value::eight_bytes;
use mysql_stmt::AsExecuteParam;
use mysql_values::{ParamType, ValueRef};
use mysql_wire::{Buffer, BytesRepr, IntRepr, LeU64, LenEnc, MySerialize, SliceWriter};

/// Writes the type and the value of any parameter, for which there is capacity.
// (by a call, so that what writes numbers and strings stays small enough to be in line)
#[inline(never)]
fn append_any<T: Buffer, V: Buffer>(parameter: &CParameter<'_>, types: &mut T, values: &mut V)
    requires type_fits { length (T.held types.old) + length (type_sent parameter.now) ≤ T.capacity types.old }
    requires value_fits { length (V.held values.old) + length (sent_bytes parameter.now) ≤ V.capacity values.old }
    ensures types { Appends T.held T.after T.capacity T.kept (type_sent parameter.now) types.old types.new }
    ensures values { Appends V.held V.after V.capacity V.kept (sent_bytes parameter.now) values.old values.new }
{
    parameter.sent_type().append(types);
    parameter.append_sent(false, values);
}

/// Writes the type and the value of any parameter by a call, with the buffers in variables of its own, so that the
/// caller's stay in registers.
#[inline(always)]
fn append_apart<T: Buffer, V: Buffer>(parameter: &CParameter<'_>, types: &mut T, values: &mut V)
    requires type_fits { length (T.held types.old) + length (type_sent parameter.now) ≤ T.capacity types.old }
    requires value_fits { length (V.held values.old) + length (sent_bytes parameter.now) ≤ V.capacity values.old }
    ensures types { Appends T.held T.after T.capacity T.kept (type_sent parameter.now) types.old types.new }
    ensures values { Appends V.held V.after V.capacity V.kept (sent_bytes parameter.now) values.old values.new }
{
    let mut types_taken = types.taken();
    let mut values_taken = values.taken();
    append_any(parameter, &mut types_taken, &mut values_taken);
    *types = types_taken;
    *values = values_taken;
}

/// Writes the type and the value of a parameter, for which there is capacity.
#[inline(always)]
#[tactic(auto, using(mysql_stmt::proofs::SentBytes::plain), unfolding(crate::specs::Value::value_content))]
fn append_one<T: Buffer, V: Buffer>(parameter: &CParameter<'_>, types: &mut T, values: &mut V)
    requires type_fits { length (T.held types.old) + length (type_sent parameter.now) ≤ T.capacity types.old }
    requires value_fits { length (V.held values.old) + length (sent_bytes parameter.now) ≤ V.capacity values.old }
    ensures types { Appends T.held T.after T.capacity T.kept (type_sent parameter.now) types.old types.new }
    ensures values { Appends V.held V.after V.capacity V.kept (sent_bytes parameter.now) values.old values.new }
{
    if parameter.has_type == 0 && parameter.is_sent_ahead == 0 {
        match parameter.value.kind {
            2 => {
                ParamType::from_value_ref(&ValueRef::Int(0)).append(types);
                <LeU64 as IntRepr>::append(eight_bytes(&parameter.value), values);
                return;
            }
            1 => {
                ParamType::from_value_ref(&ValueRef::Bytes(&[])).append(types);
                <LenEnc as BytesRepr>::append(parameter.value.bytes, values);
                return;
            }
            _ => {}
        }
    }
    append_apart(parameter, types, values);
}

/// Writes the types and the values of parameters, for which there is capacity.
// (the buffers are moved to local ones, whose places in memory no write to their bytes can change: so those of a number are one
// store)
#[inline(always)]
#[tactic(auto, using(mysql_wire::proofs::After::after))]
fn append_all<T: Buffer, V: Buffer>(items: &[CParameter<'_>], types: &mut T, values: &mut V)
    requires type_fits { length (T.held types.old) + length (flat_map type_sent items.now) ≤ T.capacity types.old }
    requires value_fits { length (V.held values.old) + length (flat_map sent_bytes items.now) ≤ V.capacity values.old }
    ensures types { Appends T.held T.after T.capacity T.kept (flat_map type_sent items.now) types.old types.new }
    ensures values { Appends V.held V.after V.capacity V.kept (flat_map sent_bytes items.now) values.old values.new }
{
    let mut types_taken = types.taken();
    let mut values_taken = values.taken();
    let mut left = Left { items };
    while let Some(parameter) = left.next() {
        append_one(parameter, &mut types_taken, &mut values_taken);
    }
    *types = types_taken;
    *values = values_taken;
}

/// Writes the types and the values of parameters over slices of their lengths.
pub(crate) fn put_typed(items: &[CParameter<'_>], types: &mut [u8], values: &mut [u8])
    requires types { length types.old ≡ length (flat_map type_sent items.now) }
    requires values { length values.old ≡ length (flat_map sent_bytes items.now) }
    ensures types { types.new ≡ flat_map type_sent items.now }
    ensures values { values.new ≡ flat_map sent_bytes items.now }
{
    let mut types_writer = SliceWriter::new(types);
    let mut values_writer = SliceWriter::new(values);
    append_all(items, &mut types_writer, &mut values_writer);
}
