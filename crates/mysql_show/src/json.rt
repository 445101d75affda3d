//! Fields as a JSON object.

ghost use Rattle.std.specs.Prelude.{◌≡◌, ◌++◌, ◌∷◌, [], IfOk, OnOk, OnErr, string_bytes, true, false, map};
ghost use Rattle.std.specs.Str.{bytes_eq};
ghost use Rattle.serde_json.specs.Data.{object, no_members};
ghost use Rattle.serde_json.specs.View.{view, members_view};
ghost use Rattle.serde_json.specs.Written.{compact_text};
ghost use Rattle.mysql_values.specs.ValueRef.{ref_content};
ghost use Rattle.mysql_show.specs.Appended.{Stays};
ghost use Rattle.mysql_show.specs.FieldObject as spec;
ghost use Rattle.mysql_show.specs.Fields.{have_float, held_of};

use crate::field::{Field, Shown};
use crate::float::{double_of, float_of};
use crate::text::{offset_date_text, temporal_text};
use mysql_values::ValueRef;
use serde_json::{Map, Value, put};
use std::alloc::{AllocError, Global};
use std::str;

/// Appends a line with an object of these fields, the head's first. Fields that may occur several times are
/// items of one array; each other field is a member.
///
/// Bytes are a string if they are UTF-8, otherwise an object with their hexadecimal digits: `{"hex": "ff"}`. A
/// number that JSON can't represent is null.
#[tactic(auto, using(crate::proofs::Objects::no_float_in), unfolding(crate::specs::FieldObject::object_of))]
pub fn append_object(
    alloc: Global,
    out: &mut String,
    head: &[Field<'_>],
    fields: &[Field<'_>],
) -> Result<(), AllocError>
    ensures ok { OnOk result (have_float head.now ≡ false → have_float fields.now ≡ false → string_bytes out.new ≡ string_bytes out.old ++ spec.object_line head.now fields.now) }
    ensures object { OnOk result (spec.AppendsObject head.now fields.now (string_bytes out.old) (string_bytes out.new)) }
    ensures stays { OnOk result (Stays (string_bytes out.old) (string_bytes out.new)) }
    ensures err { OnErr result (Stays (string_bytes out.old) (string_bytes out.new)) }
{
    let object = object_of(alloc, head, fields)?;
    let text = object.to_string(alloc)?;
    // No clause says what text a refused `write!` leaves.
    out.push_str(text.as_str())?;
    out.push_str("\n")
}

/// Returns the object of these fields.
#[tactic(auto, using(crate::proofs::Texts::views), unfolding(crate::specs::FieldObject::object_of))]
fn object_of(alloc: Global, head: &[Field<'_>], fields: &[Field<'_>]) -> Result<Value, AllocError>
    ensures ok { IfOk result (λ value. view value ≡ spec.object_of head.now fields.now) }
{
    let mut object = Map::new(alloc);
    put_members(alloc, &mut object, head)?;
    put_members(alloc, &mut object, fields)?;
    put_lists(alloc, &mut object, fields)?;
    Ok(Value::Object(object))
}

/// Adds the arrays of the fields that a packet may have several times.
#[tactic(auto, using(crate::proofs::Objects::in_turn))]
fn put_lists(
    alloc: Global,
    object: &mut Map<String, Value>,
    fields: &[Field<'_>],
) -> Result<(), AllocError>
    ensures ok { OnOk result (members_view object.new.entries ≡ spec.with_lists fields.now (members_view object.old.entries)) }
{
    put_list(alloc, object, "attribute", fields)?;
    put_list(alloc, object, "attribute_value", fields)?;
    put_list(alloc, object, "parameter", fields)?;
    put_list(alloc, object, "value", fields)?;
    put_list(alloc, object, "variable", fields)?;
    put_list(alloc, object, "variable_value", fields)?;
    put_list(alloc, object, "expected", fields)?;
    Ok(())
}

/// Whether a field has this name.
fn is_named(field: &Field<'_>, name: &str) -> bool
    ensures { result ≡ bytes_eq field.now.name name.now }
{
    field.name == name
}

/// Whether a field is an item of a list: a packet may have several fields of this name.
fn is_item(field: &Field<'_>) -> bool
    ensures { result ≡ spec.is_item field.now }
{
    is_named(field, "attribute")
        || is_named(field, "attribute_value")
        || is_named(field, "parameter")
        || is_named(field, "value")
        || is_named(field, "variable")
        || is_named(field, "variable_value")
        || is_named(field, "expected")
}

/// Adds a member for each field that is no item of a list.
fn put_members(
    alloc: Global,
    object: &mut Map<String, Value>,
    fields: &[Field<'_>],
) -> Result<(), AllocError>
    ensures ok { OnOk result (members_view object.new.entries ≡ spec.with_members fields.now (members_view object.old.entries)) }
{
    for field in fields {
        if !is_item(field) {
            let value = value_of(alloc, &field.shown)?;
            put(object, alloc, field.name, value)?;
        }
    }
    Ok(())
}

/// Adds the array of the fields with this name, if there are any.
#[tactic(auto, unfolding(crate::specs::FieldObject::with_list))]
fn put_list(
    alloc: Global,
    object: &mut Map<String, Value>,
    name: &str,
    fields: &[Field<'_>],
) -> Result<(), AllocError>
    ensures ok { OnOk result (members_view object.new.entries ≡ spec.with_list name.now fields.now (members_view object.old.entries)) }
{
    let list = list_of(alloc, name, fields)?;
    if list.is_empty() {
        return Ok(());
    }
    put(object, alloc, name, Value::Array(list))
}

/// The values of the fields with this name.
fn list_of(alloc: Global, name: &str, fields: &[Field<'_>]) -> Result<Vec<Value>, AllocError>
    ensures ok { IfOk result (λ list. map view list.items ≡ spec.items_named name.now fields.now) }
{
    let mut list = Vec::new(alloc);
    for field in fields {
        if is_named(field, name) {
            serde_json::push(&mut list, value_of(alloc, &field.shown)?)?;
        }
    }
    Ok(list)
}

/// The value of a field as JSON.
fn value_of(alloc: Global, shown: &Shown<'_>) -> Result<Value, AllocError>
    ensures ok { IfOk result (λ value. view value ≡ spec.held_data (held_of shown.now)) }
{
    match shown {
        Shown::Number(number) => Ok(Value::from(*number)),
        Shown::Bytes(bytes) => bytes_value(alloc, bytes),
        Shown::Digits(bytes) => Ok(Value::String(hex::encode(alloc, *bytes)?)),
        Shown::Word(word) => Ok(Value::String(String::from_str(alloc, word)?)),
        Shown::Flag(flag) => Ok(Value::Bool(*flag)),
        Shown::Value(value) => column_value(alloc, value),
        Shown::DateTimeWithOffset(date) => Ok(Value::String(offset_date_text(alloc, date)?)),
        Shown::OptionalNumber(Some(number)) => Ok(Value::from(*number)),
        Shown::OptionalBytes(Some(bytes)) => bytes_value(alloc, bytes),
        Shown::OptionalNumber(None) | Shown::OptionalBytes(None) => Ok(Value::Null),
    }
}

/// Returns bytes as a string if they are UTF-8, otherwise as an object with their hexadecimal digits.
#[tactic(auto, using(crate::proofs::Texts::texts))]
fn bytes_value(alloc: Global, bytes: &[u8]) -> Result<Value, AllocError>
    ensures ok { IfOk result (λ value. view value ≡ spec.bytes_data bytes.now) }
{
    match str::from_utf8(bytes) {
        Ok(text) => Ok(Value::String(String::from_str(alloc, text)?)),
        Err(_) => digits_value(alloc, bytes),
    }
}

/// Returns an object with the bytes' hexadecimal digits.
fn digits_value(alloc: Global, bytes: &[u8]) -> Result<Value, AllocError>
    ensures ok { IfOk result (λ value. view value ≡ spec.digits_data bytes.now) }
{
    let digits = hex::encode(alloc, bytes)?;
    let mut object = Map::new(alloc);
    put(&mut object, alloc, "hex", Value::String(digits))?;
    Ok(Value::Object(object))
}

/// Returns the value of a column or a parameter. A number that JSON can't represent is null.
fn column_value(alloc: Global, value: &ValueRef<'_>) -> Result<Value, AllocError>
    ensures ok { IfOk result (λ json. view json ≡ spec.value_data (ref_content value.now)) }
{
    match value {
        ValueRef::NULL => Ok(Value::Null),
        ValueRef::Bytes(bytes) => bytes_value(alloc, bytes),
        ValueRef::Int(number) => Ok(Value::from(*number)),
        ValueRef::UInt(number) => Ok(Value::from(*number)),
        ValueRef::Float(bits) => Ok(match float_of(*bits) {
            Some(number) => Value::from(number),
            None => Value::Null,
        }),
        ValueRef::Double(bits) => Ok(match double_of(*bits) {
            Some(number) => Value::from(number),
            None => Value::Null,
        }),
        value => Ok(Value::String(temporal_text(alloc, value)?)),
    }
}
