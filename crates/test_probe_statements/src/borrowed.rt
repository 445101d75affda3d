//! Values that stay where they are, as `ValueRef`: where they give something else than the values themselves, an answer says
//! `ref=other`.
//!
//! `value_text BYTES` and `value COLUMN BYTES` read a value as text and in its binary form.

use crate::forms::column;
use crate::prelude::*;

/// The bytes of a record.
fn bytes_of<T: MySerialize>(alloc: Global, record: &T) -> Result<Vec<u8>> {
    let mut written = Vec::new(alloc);
    record.serialize(&mut written)?;
    Ok(written)
}

/// Whether a borrowed value is sent, written and copied as the value itself.
pub fn is_alike(alloc: Global, value: &Value) -> Result<bool> {
    let borrowed = counted!(alloc; value value.as_ref());
    let written = bytes_of(alloc, &borrowed)?;
    let mut is_alike = written == bytes_of(alloc, value)?
        && borrowed.defined_len() == written.len();
    is_alike = is_alike && borrowed.bin_len() == value.bin_len();
    is_alike = is_alike && borrowed.sent_type() == value.sent_type();
    is_alike = is_alike && borrowed.is_uint() == value.is_uint();
    is_alike = is_alike && ParamType::from_value_ref(&borrowed) == ParamType::from_value(value);
    let copy = counted!(alloc; borrowed.to_owned(alloc))?;
    Ok(is_alike && copy == *value && borrowed == copy.as_ref())
}

/// What is read, and how many bytes are left.
type Read<T> = (Result<T, Fault>, usize);

/// Adds a word unless a reader that borrows gave what the other did, and left as much.
fn compare<T>(out: &mut Out, owned: Read<ValueDeserializer<T>>, borrowed: Read<ValueRef<'_>>) {
    let is_same = match (&owned.0, &borrowed.0) {
        (Ok(value), Ok(place)) => owned.1 == borrowed.1 && value.0.as_ref() == *place,
        (Err(refused), Err(fault)) => owned.1 == borrowed.1 && refused == fault,
        _ => false,
    };
    out.or_other("ref", Ok(is_same));
}

pub fn value_text(out: &mut Out, request: &Request<'_>) {
    let (alloc, bytes) = (request.alloc, request.bytes.as_slice());
    let _ = read::<Statements, ValueDeserializer<TextValue>>(out, bytes, ());
    let owned = parsed::<ValueDeserializer<TextValue>>(alloc, bytes, ());
    let mut place = ParseBuf::new(alloc, bytes);
    let borrowed = counted!(alloc; read_text_ref(&mut place));
    compare(out, owned, (borrowed, place.len()));
}

pub fn value(out: &mut Out, request: &Request<'_>) {
    let (alloc, bytes) = (request.alloc, request.bytes.as_slice());
    let (column_type, flags) = column(out, request);
    let _ = read::<Statements, ValueDeserializer<BinValue>>(out, bytes, (column_type, flags));
    let owned = parsed::<ValueDeserializer<BinValue>>(alloc, bytes, (column_type, flags));
    let is_unsigned = flags.contains(ColumnFlags::UNSIGNED_FLAG);
    let mut place = ParseBuf::new(alloc, bytes);
    let borrowed = counted!(alloc; read_bin_ref(column_type, is_unsigned, &mut place));
    compare(out, owned, (borrowed, place.len()));
}

/// Whether a borrowed value is handed back as the value itself, with the same text.
fn are_alike(alloc: Global, one: FromValueRefError<'_>, other: &FromValueError) -> Result<bool> {
    let text = format!(in alloc; "{one}")?;
    Ok(one.0 == other.0.as_ref() && text == format!(in alloc; "{other}")?)
}

/// Adds a word unless a borrowed value converts to this, or is handed back as this refusal does.
pub fn converts<'a, T: FromValueRef<'a> + AsValue + Drop>(
    out: &mut Out,
    value: &'a Value,
    wanted: Result<ValueRef<'_>, &FromValueError>,
) {
    let alloc = out.alloc();
    let answer = counted!(alloc; T::from_value_ref_opt(value.as_ref()));
    let is_same = match (answer, wanted) {
        (Ok(converted), Ok(wanted)) => Ok(converted.as_value() == wanted),
        (Err(refusal), Err(wanted)) => are_alike(alloc, refusal, wanted),
        _ => Ok(false),
    };
    out.or_other("ref", is_same);
}
