//! The types and the values of an execution's parameters and attributes, as they are sent.
#![tactic(auto, using(crate::proofs::SentBytes::written), unfolding(mysql_wire::specs::Writing::saturated))]

ghost use Rattle.std.specs.Prelude.{◌≡◌, ◌+◌, ◌++◌, ◌≤◌, [], if◌then◌else◌, length, drop, unwrap_or};
ghost use Rattle.std.specs.Option.{option_map};
ghost use Rattle.mysql_wire.specs.Writing.{saturated};
ghost use Rattle.mysql_values.specs.ParamValue.{param_content};
ghost use Rattle.mysql_values.specs.TypedValue.{typed_bytes};
ghost use Rattle.mysql_values.specs.ValueRef.{ref_content};
ghost use Rattle.mysql_stmt.specs.ExecuteParam.{Sent, param_bytes, param_of, value_of};
ghost use Rattle.mysql_stmt.specs.SentParam.{bytes_under, is_spelled_under};

use crate::execute_param::{AsExecuteParam, ExecuteParam};
use crate::items::{ItemForm, Items};
use mysql_values::{ParamType, ParamValue, TypedValue, ValueRef};
use mysql_wire::{Buffer, BytesRepr, LenEnc, MySerialize, Parts, RawInt, Sink, parts};

/// The value that determines the type a parameter is sent as: a byte string if it was sent ahead, a date if it
/// has an offset. A parameter as it was sent is NULL if its bit is set, otherwise a byte string.
#[inline(always)]
pub(crate) fn typed_value(param: ExecuteParam<'_>) -> ValueRef<'_>
    ensures value { ref_content result ≡ value_of (param_of param.entry) }
{
    match param {
        ExecuteParam::Value(value) => value,
        ExecuteParam::DateTimeWithOffset(date) => ValueRef::Date(
            date.year,
            date.month,
            date.day,
            date.hour,
            date.minute,
            date.second,
            date.micros,
        ),
        ExecuteParam::SentAhead => ValueRef::Bytes(&[]),
        ExecuteParam::AsSent {
            has_null_bit: true,
            ..
        } => ValueRef::NULL,
        ExecuteParam::AsSent { bytes, .. } => ValueRef::Bytes(bytes),
    }
}

/// The length of a parameter that is sent as the type of its value, or `usize::MAX` if it is greater: 0 if it was sent ahead,
/// or is a byte string sent as long data. All bytes of a parameter as it was sent are sent.
#[inline(always)]
pub(crate) fn plain_len(param: ExecuteParam<'_>, as_long_data: bool) -> usize
    ensures value { result ≡ saturated (length (param_bytes as_long_data (param_of param.entry))) }
{
    match param {
        ExecuteParam::Value(ValueRef::Bytes(_)) if as_long_data => 0,
        ExecuteParam::Value(value) => value.defined_len(),
        ExecuteParam::DateTimeWithOffset(date) => date.defined_len(),
        ExecuteParam::SentAhead => 0,
        ExecuteParam::AsSent { bytes, .. } => bytes.len(),
    }
}

/// Writes the bytes of a parameter that is sent as the type of its value, for which there is capacity.
#[inline(always)]
pub(crate) fn append_plain<O: Buffer>(param: ExecuteParam<'_>, as_long_data: bool, out: &mut O)
    requires { length (O.held out.old) + length (param_bytes as_long_data (param_of param)) ≤ O.capacity out.old }
    ensures items { O.held out.new ≡ O.held out.old ++ param_bytes as_long_data (param_of param.entry) }
    ensures after { O.after out.new ≡ drop (length (param_bytes as_long_data (param_of param.entry))) (O.after out.old) }
    ensures capacity { O.capacity out.old ≤ O.capacity out.new }
    ensures kept { O.kept out.new ≡ O.kept out.old }
{
    match param {
        ExecuteParam::Value(ValueRef::Bytes(_)) if as_long_data => {}
        ExecuteParam::Value(value) => value.append(out),
        ExecuteParam::DateTimeWithOffset(date) => date.append(out),
        ExecuteParam::SentAhead => {}
        ExecuteParam::AsSent { bytes, .. } => out.push_bytes(bytes),
    }
}

/// Whether the value of the parameter fits the type, if the request sends one.
#[inline(always)]
pub(crate) fn is_spelled(param_type: ParamType, param: ExecuteParam<'_>) -> bool
    ensures value { result ≡ is_spelled_under param_type (param_of param.entry) }
{
    match param {
        ExecuteParam::Value(value) => {
            TypedValue::of_param(param_type, ParamValue::Value(value)).is_some()
        }
        ExecuteParam::DateTimeWithOffset(date) => {
            TypedValue::of_param(param_type, ParamValue::DateTimeWithOffset(date)).is_some()
        }
        ExecuteParam::SentAhead | ExecuteParam::AsSent { .. } => true,
    }
}

/// The value that is sent, under its type, or `None` for a byte string that is long data.
#[inline(always)]
fn sent_value(
    param_type: ParamType,
    value: ParamValue<'_>,
    as_long_data: bool,
) -> Option<TypedValue<'_>>
    ensures value { unwrap_or (option_map typed_bytes result) [] ≡ bytes_under as_long_data param_type (Sent (param_content value.entry)) }
{
    match value {
        ParamValue::Value(ValueRef::Bytes(_)) if as_long_data => None,
        value => TypedValue::of_param(param_type, value),
    }
}

/// The length of a parameter under a type, or `usize::MAX` if it is greater: 0 if it was sent ahead, or is a byte string sent
/// as long data. All bytes of a parameter as it was sent are sent.
#[inline(always)]
pub(crate) fn sent_len(param_type: ParamType, param: ExecuteParam<'_>, as_long_data: bool) -> usize
    ensures value { result ≡ saturated (length (bytes_under as_long_data param_type (param_of param.entry))) }
{
    let value = match param {
        ExecuteParam::Value(value) => ParamValue::Value(value),
        ExecuteParam::DateTimeWithOffset(date) => ParamValue::DateTimeWithOffset(date),
        ExecuteParam::SentAhead => return 0,
        ExecuteParam::AsSent { bytes, .. } => return bytes.len(),
    };
    match sent_value(param_type, value, as_long_data) {
        Some(value) => value.defined_len(),
        None => 0,
    }
}

/// Writes the bytes of a parameter under a type, for which there is capacity.
#[inline(always)]
#[tactic(auto, using(mysql_wire::proofs::After::after))]
pub(crate) fn append_sent<O: Buffer>(
    param_type: ParamType,
    param: ExecuteParam<'_>,
    as_long_data: bool,
    out: &mut O,
)
    requires { length (O.held out.old) + length (bytes_under as_long_data param_type (param_of param)) ≤ O.capacity out.old }
    ensures items { O.held out.new ≡ O.held out.old ++ bytes_under as_long_data param_type (param_of param.entry) }
    ensures after { O.after out.new ≡ drop (length (bytes_under as_long_data param_type (param_of param.entry))) (O.after out.old) }
    ensures capacity { O.capacity out.old ≤ O.capacity out.new }
    ensures kept { O.kept out.new ≡ O.kept out.old }
{
    let value = match param {
        ExecuteParam::Value(value) => ParamValue::Value(value),
        ExecuteParam::DateTimeWithOffset(date) => ParamValue::DateTimeWithOffset(date),
        ExecuteParam::SentAhead => return,
        ExecuteParam::AsSent { bytes, .. } => return out.push_bytes(bytes),
    };
    match sent_value(param_type, value, as_long_data) {
        Some(value) => value.append(out),
        None => {}
    }
}

/// Values are written as their types, each with its name if names are sent.
#[derive(Drop)]
pub(crate) struct AsTypes {
    pub(crate) has_names: bool,
}

impl<V: AsExecuteParam> ItemForm<V> for AsTypes {
    ghost use Rattle.mysql_stmt.specs.SentParam.{sent_param, type_bytes};

    ghost item_bytes = { λ form value. type_bytes form.has_names (sent_param V.param V.named_type value) };

    #[inline(always)]
    fn item_len(&self, value: &V) -> usize {
        if self.has_names {
            <LenEnc as BytesRepr>::written_len(value.name()).saturating_add(2)
        } else {
            2
        }
    }

    #[inline(always)]
    fn append_item<O: Buffer>(&self, value: &V, out: &mut O) {
        value.sent_type().append(out);
        if self.has_names {
            <LenEnc as BytesRepr>::append(value.name(), out);
        }
    }
}

/// The types of values, one after another, each with its name if names are sent.
#[derive(Drop)]
pub(crate) struct WrittenTypes<'a, V> {
    pub(crate) items: &'a [V],
    pub(crate) has_names: bool,
}

impl<V: AsExecuteParam> MySerialize for WrittenTypes<'_, V> {
    ghost use Rattle.std.specs.List.{flat_map};
    ghost use Rattle.mysql_stmt.specs.SentParam.{sent_param, type_bytes};

    ghost bytes = { λ t. flat_map (λ v. type_bytes t.has_names (sent_param V.param V.named_type v)) t.items.now };

    #[inline(always)]
    fn defined_len(&self) -> usize {
        if !self.has_names {
            return self.items.len().saturating_mul(2);
        }
        let types = Items {
            items: self.items,
            form: AsTypes {
                has_names: self.has_names,
            },
        };
        types.defined_len()
    }

    #[inline(always)]
    fn append<O: Buffer>(&self, out: &mut O) {
        let types = Items {
            items: self.items,
            form: AsTypes {
                has_names: self.has_names,
            },
        };
        types.append(out);
    }
}

/// Values are written under their types: without those that were sent ahead, and without byte strings if they
/// are long data.
#[derive(Drop)]
pub(crate) struct AsValues {
    pub(crate) as_long_data: bool,
}

impl<V: AsExecuteParam> ItemForm<V> for AsValues {
    ghost use Rattle.mysql_stmt.specs.SentParam.{sent_param, value_bytes};

    ghost item_bytes = { λ form value. value_bytes form.as_long_data (sent_param V.param V.named_type value) };

    #[inline(always)]
    fn item_len(&self, value: &V) -> usize {
        value.sent_len(self.as_long_data)
    }

    #[inline(always)]
    fn append_item<O: Buffer>(&self, value: &V, out: &mut O) {
        value.append_sent(self.as_long_data, out);
    }
}

/// Returns the byte that says whether types follow.
#[inline(always)]
fn types_flag(types_follow: bool) -> RawInt<u8>
    ensures value { result.0 ≡ (if types_follow then 1 else 0) }
{
    RawInt::new(if types_follow { 1 } else { 0 })
}

/// Returns the values whose types are sent: all of them, or none if no types follow.
#[inline(always)]
fn typed<V>(values: &[V], types_follow: bool) -> &[V]
    ensures value { result.now ≡ (if types_follow then values.now else []) }
{
    if types_follow { values } else { &[] }
}

/// The parameters and attributes of an execution or a query, of which there is at least one:
///
/// | Bytes | Field |
/// |---|---|
/// | 1 for 8 of them | `nulls`: the NULL bitmap |
/// | 1 | `types_follow` |
/// | 2 and a name | if types follow, the type of each, and if `has_names` its name |
/// | to the end | the values, without those that were sent ahead |
#[derive(Drop)]
pub(crate) struct SentParams<'a, N, V, A> {
    pub(crate) nulls: N,
    pub(crate) types_follow: bool,
    pub(crate) has_names: bool,
    pub(crate) params: &'a [V],
    pub(crate) attributes: &'a [A],
    pub(crate) as_long_data: bool,
}

impl<N: MySerialize, V: AsExecuteParam, A: AsExecuteParam> Parts for SentParams<'_, N, V, A> {
    ghost use Rattle.mysql_stmt.specs.SentParam.{bound_bytes, sent_params};

    ghost bytes = { λ s. bound_bytes (N.bytes s.nulls) s.types_follow s.has_names s.as_long_data (sent_params V.param V.named_type s.params.now) (sent_params A.param A.named_type s.attributes.now) };

    #[inline(always)]
    fn put<S: Sink>(&self, sink: &mut S) {
        let flag = types_flag(self.types_follow);
        let has_names = self.has_names;
        let param_types = WrittenTypes {
            items: typed(self.params, self.types_follow),
            has_names,
        };
        let attribute_types = WrittenTypes {
            items: typed(self.attributes, self.types_follow),
            has_names,
        };
        let param_values = Items {
            items: self.params,
            form: AsValues {
                as_long_data: self.as_long_data,
            },
        };
        let attribute_values = Items {
            items: self.attributes,
            form: AsValues {
                as_long_data: false,
            },
        };
        sink.part(&parts!(
            self.nulls,
            flag,
            param_types,
            attribute_types,
            param_values,
            attribute_values
        ));
    }
}
