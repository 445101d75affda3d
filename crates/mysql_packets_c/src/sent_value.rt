//! The caller's values as parameters that are sent.
//!
//! The kind of a value determines most of it, so a value of the library is created only once, where its bytes
//! are written. The most frequent kinds are found by one comparison before the others: a table of all kinds
//! takes seven instructions for each value.

ghost use Rattle.std.specs.Prelude.{◌≡◌, ◌≤◌, ◌⊎◌, ◌+◌, Bool, false, length};
ghost use Rattle.mysql_stmt.specs.ExecuteParam.{param_bytes};
ghost use Rattle.mysql_stmt.specs.SentParam.{bytes_under};
ghost use Rattle.mysql_wire.specs.Writing.{le_bytes};
ghost use Rattle.mysql_packets_c.specs.Appends.{Appends};
ghost use Rattle.mysql_packets_c.specs.Execution as spec;

use crate::value::{CValue, is_offset_date, is_param, is_value, to_date_with_offset, to_ref};
use mysql_stmt::{AsExecuteParam, ExecuteParam};
use mysql_values::{ParamType, ValueRef};
use mysql_wire::{Buffer, BytesRepr, ColumnType, IntRepr, LeU64, LenEnc};

/// The eight bytes of a number, as one number: two's complement, or the bits of a float.
#[inline(always)]
#[tactic(auto, using(mysql_stmt::proofs::SentBytes::plain), unfolding(crate::specs::Value::value_content))]
pub(crate) fn eight_bytes(value: &CValue<'_>) -> u64
    requires { (value.now.kind ≡ 2) ⊎ ((value.now.kind ≡ 3) ⊎ (value.now.kind ≡ 5)) }
    ensures sent { (as_long_data : Bool) → bytes_under as_long_data (spec.own_type value.now).param_type (spec.param value.now) ≡ le_bytes 8 result }
    ensures not_long { bytes_under false (spec.own_type value.now).param_type (spec.param value.now) ≡ le_bytes 8 result }
{
    match value.kind {
        2 => value.number.cast_signed().cast_unsigned(),
        _ => value.number,
    }
}

/// Writes a value of any kind, for which there is capacity.
// (by a call, so that what writes numbers and strings stays small enough to be in line)
#[inline(never)]
#[tactic(auto, using(mysql_stmt::proofs::SentBytes::plain), unfolding(crate::specs::Value::value_content))]
fn append_any<O: Buffer>(value: &CValue<'_>, as_long_data: bool, out: &mut O)
    requires { length (O.held out.old) + length (param_bytes as_long_data (spec.param value.now)) ≤ O.capacity out.old }
    ensures { Appends O.held O.after O.capacity O.kept (param_bytes as_long_data (spec.param value.now)) out.old out.new }
{
    value.as_execute_param().append_sent(as_long_data, out);
}

/// Writes a value of any kind by a call, with the buffer in a variable of its own, so that the caller's stays
/// in registers.
#[inline(always)]
#[tactic(auto, using(mysql_stmt::proofs::SentBytes::plain), unfolding(crate::specs::Value::value_content))]
fn append_apart<O: Buffer>(value: &CValue<'_>, as_long_data: bool, out: &mut O)
    requires { length (O.held out.old) + length (param_bytes as_long_data (spec.param value.now)) ≤ O.capacity out.old }
    ensures { Appends O.held O.after O.capacity O.kept (param_bytes as_long_data (spec.param value.now)) out.old out.new }
{
    let mut taken = out.taken();
    append_any(value, as_long_data, &mut taken);
    *out = taken;
}

#[tactic(auto, using(mysql_stmt::proofs::SentBytes::plain), unfolding(crate::specs::Value::value_content))]
impl AsExecuteParam for CValue<'_> {
    ghost use Rattle.mysql_packets_c.specs.Execution.{own_type, param};

    ghost param = { param };

    ghost named_type = { own_type };

    #[inline(always)]
    fn as_execute_param(&self) -> ExecuteParam<'_> {
        match to_ref(self) {
            Some(value) => ExecuteParam::Value(value),
            None => match to_date_with_offset(self) {
                Some(date) => ExecuteParam::DateTimeWithOffset(date),
                None => ExecuteParam::Value(ValueRef::NULL),
            },
        }
    }

    #[inline(always)]
    fn name(&self) -> &[u8] {
        &[]
    }

    #[inline(always)]
    fn is_spelled(&self) -> bool {
        true
    }

    #[inline(always)]
    fn is_null(&self) -> bool {
        self.kind == 0 || !is_param(self)
    }

    #[inline(always)]
    fn sent_type(&self) -> ParamType {
        let kind = if is_value(self) {
            self.kind
        } else if is_offset_date(self) {
            6
        } else {
            0
        };
        let of_kind = match kind {
            1 => ValueRef::Bytes(&[]),
            2 => ValueRef::Int(0),
            3 => ValueRef::UInt(0),
            4 => ValueRef::Float(0),
            5 => ValueRef::Double(0),
            6 => ValueRef::Date(0, 0, 0, 0, 0, 0, 0),
            7 => ValueRef::Time(false, 0, 0, 0, 0, 0),
            _ => ValueRef::NULL,
        };
        ParamType::from_value_ref(&of_kind)
    }

    #[inline(always)]
    #[tactic(auto, using(mysql_stmt::proofs::SentBytes::plain), unfolding(crate::specs::Value::value_content, mysql_wire::specs::Writing::le_bytes, mysql_wire::specs::Writing::saturated))]
    fn sent_len(&self, as_long_data: bool) -> usize {
        match self.kind {
            2 | 3 | 5 => <LeU64 as IntRepr>::written_len(eight_bytes(self)),
            1 => ValueRef::Bytes(self.bytes).sent_len(as_long_data),
            _ => self.as_execute_param().sent_len(as_long_data),
        }
    }

    #[inline(always)]
    fn append_sent<O: Buffer>(&self, as_long_data: bool, out: &mut O) {
        match self.kind {
            2 | 3 => <LeU64 as IntRepr>::append(eight_bytes(self), out),
            _ => match self.kind {
                0 => {}
                1 => {
                    if !as_long_data {
                        <LenEnc as BytesRepr>::append(self.bytes, out);
                    }
                }
                5 => <LeU64 as IntRepr>::append(eight_bytes(self), out),
                _ => append_apart(self, as_long_data, out),
            },
        }
    }

    #[inline(always)]
    fn append_cell<O: Buffer>(&self, column_type: ColumnType, out: &mut O) {
        match self.kind {
            2 => ValueRef::Int(self.number.cast_signed()).append_cell(column_type, out),
            _ => self.as_execute_param().append_cell(column_type, out),
        }
    }
}
