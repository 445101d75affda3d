//! Parameters of an execution, whose values were checked, and whose lengths were computed.
//!
//! Each is visited once to check it and compute its length, and once to write it. The most frequent kinds are
//! found by one comparison each, and the others take calls, so that the loops stay small and keep what they
//! change in registers.

ghost use Rattle.std.specs.List.{flat_map};
ghost use Rattle.std.specs.Prelude.{◌≡◌, ◌≢◌, IsTrue, MatchOption, Some, false, length, true};
ghost use Rattle.mysql_wire.specs.Writing.{saturated};
ghost use Rattle.mysql_packets_c.specs.CheckedParams as spec;

use crate::parameter::{CParameter, is_parameter};
use crate::value::{CValue, is_param};
use mysql_stmt::{AsExecuteParam, ItemForm, Items};
use mysql_wire::{Buffer, BytesRepr, LenEnc, MySerialize};

/// The length of a value that is sent as the type of its kind; `None` if no parameter may have it.
#[inline(always)]
fn param_len(value: &CValue<'_>) -> Option<usize>
    ensures { spec.IsOwnLen value.now result }
{
    if !is_param(value) {
        return None;
    }
    Some(value.sent_len(false))
}

/// The length of a value of any kind.
// (by a call, so that what counts numbers and strings stays small enough to be in line)
#[inline(never)]
fn any_len(value: &CValue<'_>) -> Option<usize>
    ensures { spec.IsOwnLen value.now result }
{
    param_len(value)
}

/// The length of a byte string.
#[inline(always)]
#[tactic(auto, unfolding(crate::specs::Value::value_content, mysql_wire::specs::Writing::saturated))]
fn text_len(value: &CValue<'_>) -> usize
    requires { value.now.kind ≡ 1 }
    ensures len { spec.IsOwnLen value.now (Some result) }
    ensures some { result ≢ 0 }
{
    <LenEnc as BytesRepr>::written_len(value.bytes)
}

/// The length of a value that is sent as the type of its kind; `None` if no parameter may have it.
#[inline(always)]
#[tactic(auto, unfolding(crate::specs::Value::value_content, mysql_wire::specs::Writing::saturated))]
fn own_len(value: &CValue<'_>) -> Option<usize>
    ensures { spec.IsOwnLen value.now result }
{
    match value.kind {
        0 => Some(0),
        1 => Some(text_len(value)),
        3 => param_len(value),
        _ => any_len(value),
    }
}

/// The length of a parameter that has a type of the caller, or was sent ahead; `None` if it is invalid, or its
/// type can't encode the value.
#[inline(never)]
fn typed_len(parameter: &CParameter<'_>) -> Option<usize>
    ensures { spec.IsCheckedLen parameter.now result }
{
    if !is_parameter(parameter) || !parameter.is_spelled() {
        return None;
    }
    Some(parameter.sent_len(false))
}

/// The length of a parameter; `None` if it is invalid, or its type can't encode the value.
#[inline(always)]
fn checked_len(parameter: &CParameter<'_>) -> Option<usize>
    ensures { spec.IsCheckedLen parameter.now result }
{
    if parameter.has_type == 0 && parameter.is_sent_ahead == 0 {
        return own_len(&parameter.value);
    }
    typed_len(parameter)
}

/// The length of a number of eight bytes that is sent as the type of its kind.
const NUMBER_LEN: usize = 8;

/// Whether the parameter is such a number, and signed.
#[inline(always)]
fn is_number(parameter: &CParameter<'_>) -> bool
    ensures { IsTrue result → spec.IsCheckedLen parameter.now (Some 8) }
{
    if parameter.has_type != 0 || parameter.is_sent_ahead != 0 {
        return false;
    }
    match parameter.value.kind {
        2 => true,
        _ => false,
    }
}

/// The length of a byte string that is sent as the type of its kind; 0 for any other parameter.
#[inline(always)]
fn own_text_len(parameter: &CParameter<'_>) -> usize
    ensures { result ≢ 0 → spec.IsCheckedLen parameter.now (Some result) }
{
    if parameter.has_type != 0 || parameter.is_sent_ahead != 0 || parameter.value.kind != 1 {
        return 0;
    }
    text_len(&parameter.value)
}

/// Valid parameters, with the length of their values.
#[derive(Drop)]
pub(crate) struct CheckedParams<'r, 'a> {
    pub(crate) items: &'r [CParameter<'a>],
    pub(crate) len: usize,
    /// Whether one of them takes no bytes, such as NULL.
    pub(crate) has_empty: bool,
    ghost exact: { len ≡ saturated (length (flat_map spec.sent_bytes items.now)) },
    ghost nulls: { has_empty ≡ false → spec.has_null items.now ≡ false },
}

/// Checks parameters and computes the length of their values; `None` if one of them is invalid, or its type
/// can't encode its value.
#[tactic(auto, using(crate::proofs::CheckedParams::checked), unfolding(mysql_wire::specs::Writing::saturated))]
pub(crate) fn checked<'r, 'a>(items: &'r [CParameter<'a>]) -> Option<CheckedParams<'r, 'a>>
    ensures { MatchOption result (spec.may_send items.now ≡ false) (λ found. (spec.may_send items.now ≡ true) × (found.items.now ≡ items.now)) }
{
    let mut numbers: usize = 0;
    let mut len: usize = 0;
    let mut has_empty = false;
    for parameter in items {
        // (numbers first, and only counted: what finds the length of any kind takes twice as long)
        if is_number(parameter) {
            numbers += 1;
            continue;
        }
        // (apart from the calls, whose results are tested)
        let text = own_text_len(parameter);
        if text != 0 {
            len = len.saturating_add(text);
            continue;
        }
        let more = checked_len(parameter)?;
        len = len.saturating_add(more);
        has_empty = has_empty || more == 0;
    }
    Some(CheckedParams {
        items,
        len: len.saturating_add(numbers.saturating_mul(NUMBER_LEN)),
        has_empty,
    })
}

/// Parameters are written as the bytes of their values.
#[derive(Drop)]
struct AsSentValues;

impl ItemForm<CParameter<'_>> for AsSentValues {
    ghost use Rattle.mysql_packets_c.specs.CheckedParams.{sent_bytes};

    ghost item_bytes = { λ _ parameter. sent_bytes parameter };

    #[inline(always)]
    fn item_len(&self, parameter: &CParameter<'_>) -> usize {
        parameter.sent_len(false)
    }

    #[inline(always)]
    fn append_item<O: Buffer>(&self, parameter: &CParameter<'_>, out: &mut O) {
        parameter.append_sent(false, out);
    }
}

/// Written as the values of the parameters.
impl MySerialize for CheckedParams<'_, '_> {
    ghost use Rattle.std.specs.List.{flat_map};
    ghost use Rattle.mysql_packets_c.specs.CheckedParams.{sent_bytes};

    ghost bytes = { λ p. flat_map sent_bytes p.items.now };

    #[inline(always)]
    fn defined_len(&self) -> usize {
        self.len
    }

    #[inline(always)]
    fn append<O: Buffer>(&self, out: &mut O) {
        let values = Items {
            items: self.items,
            form: AsSentValues,
        };
        values.append(out);
    }
}
