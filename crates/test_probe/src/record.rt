//! What every record that is read is asked for.

use crate::prelude::*;
use mysql_wire::{ConstBytes, ConstU8, ConstU32, FaultOf};

/// How a program shows a record in words.
pub trait Shows<T> {
    /// Adds its fields, and whether the record that is made of what its getters answer, copied and made owned, is the same.
    ///
    /// A law on a value at hand is used on it: none asks for what who has read a record can't know.
    fn show(record: &T, out: &mut Out);
}

/// A constant field, which has no fields of its own.
impl<P, E, const VALUE: u8> Shows<ConstU8<E, VALUE>> for P {
    fn show(record: &ConstU8<E, VALUE>, out: &mut Out) {
        let is_same = ConstU8::new() == *record && ConstU8::default() == *record;
        out.same("made", Ok(is_same))
    }
}

impl<P, E, const VALUE: u32> Shows<ConstU32<E, VALUE>> for P {
    fn show(record: &ConstU32<E, VALUE>, out: &mut Out) {
        let is_same = ConstU32::new() == *record && ConstU32::default() == *record;
        out.same("made", Ok(is_same))
    }
}

impl<P, E, const LEN: usize> Shows<ConstBytes<E, LEN>> for P {
    fn show(record: &ConstBytes<E, LEN>, out: &mut Out) {
        let is_same = ConstBytes::new() == *record && ConstBytes::default() == *record;
        out.same("made", Ok(is_same))
    }
}

/// What some bytes are read as, and how many are left.
pub fn parsed<'a, 's, T: MyDeserialize<'a>>(
    alloc: Global,
    bytes: &'a [u8],
    ctx: T::Ctx,
) -> (Result<T, FaultOf<'s>>, usize) {
    let mut buf = ParseBuf::new(alloc, bytes);
    (buf.parse(ctx), buf.len())
}

/// Adds that something was read, which is the answer; or the refusal, and whether the buffer is as before.
pub fn taken<T>(out: &mut Out, answer: Result<T, Fault>, is_as_before: bool) -> Option<T> {
    match answer {
        Ok(value) => {
            out.word("read");
            Some(value)
        }
        Err(fault) => {
            out.refused(fault, is_as_before);
            None
        }
    }
}

/// The record of a request's bytes; or a word says that they are refused.
pub fn record<'a, T: MyDeserialize<'a> + Drop>(
    out: &mut Out,
    request: &'a Request<'_>,
    ctx: T::Ctx,
) -> Option<T> {
    let (answer, _) = parsed::<T>(request.alloc, request.bytes.as_slice(), ctx);
    if answer.is_err() {
        out.word("refused");
    }
    answer.ok()
}

/// Reads a record, which is the answer, with how many bytes are left; or the refusal is added.
pub fn parse<'a, T: MyDeserialize<'a>>(
    out: &mut Out,
    bytes: &'a [u8],
    ctx: T::Ctx,
) -> Option<(T, usize)> {
    let alloc = out.alloc();
    let (answer, left) = counted!(alloc; value parsed::<T>(alloc, bytes, ctx));
    let record = taken(out, answer, left == bytes.len())?;
    Some((record, left))
}

/// Reads a record, and shows it, and how many bytes are left; or the fault.
pub fn read<'a, P: Shows<T>, T: MyDeserialize<'a> + Drop>(
    out: &mut Out,
    bytes: &'a [u8],
    ctx: T::Ctx,
) -> Option<T> {
    let (record, left) = parse::<T>(out, bytes, ctx)?;
    P::show(&record, out);
    out.show("rest", left);
    Some(record)
}

/// A buffer in which a byte stands.
pub fn begun(out: &mut Out) -> Vec<u8> {
    or_empty(out, Vec::from_slice(out.alloc(), b"\xaa"))
}

/// What stands after it.
pub fn after(buffer: &[u8]) -> &[u8] {
    buffer.strip_prefix(b"\xaa").unwrap_or(b"")
}

/// Adds what was written after it, which is the `same` where it is these bytes; or that memory ran out, and the buffer then.
pub fn show_written(out: &mut Out, is_written: bool, buffer: &[u8], bytes: Option<&[u8]>) {
    if !is_written {
        out.field("written", "Memory");
        out.show("buffer", buffer);
    } else if bytes == Some(after(buffer)) {
        out.field("written", "same");
    } else {
        out.show("written", after(buffer));
    }
}

/// Writes a record, and shows what is written, which is the `same` where these bytes begin so, and its length. The answer is a
/// buffer with what is written after a byte.
pub fn write<T: MySerialize>(out: &mut Out, record: &T, bytes: &[u8]) -> Option<Vec<u8>> {
    let mut buffer = begun(out);
    let is_written = counted!(out.alloc(); record.serialize(&mut buffer)).is_ok();
    show_written(out, is_written, &buffer, bytes.get(..after(&buffer).len()));
    if !is_written {
        return None;
    }
    out.show("len", record.defined_len());
    write_in_place(record, &mut buffer);
    Some(buffer)
}

/// Writes a record once more, to the places where it stands after a byte: what is read again then is what is written to a slice.
fn write_in_place<T: MySerialize>(record: &T, buffer: &mut Vec<u8>) {
    if let Some((_, places)) = buffer.split_first_mut() {
        places.fill(0);
        let _ = record.write_to_slice(places);
    }
}

/// The same of a record that was made.
pub fn write_made<T: MySerialize>(out: &mut Out, record: &T) {
    let _ = write(out, record, b"");
}

/// Whether what was written of a record is read again as the same.
pub fn again<'a, T: MyDeserialize<'a> + PartialEq + Drop>(
    out: &mut Out,
    record: &T,
    written: &'a [u8],
    ctx: T::Ctx,
) {
    let (answer, left) = parsed::<T>(out.alloc(), written, ctx);
    match answer {
        Ok(again) => out.same("again", Ok(left == 0 && again == *record)),
        Err(_) => out.field("again", "refused"),
    }
}

/// Writes a record that was made, and reads what is written as the same.
pub fn write_and_read<'a, T: MyDeserialize<'a> + MySerialize + PartialEq + Drop>(
    out: &mut Out,
    record: &T,
    request: &'a Request<'_>,
    ctx: T::Ctx,
) {
    if let Some(written) = write(out, record, b"") {
        again(out, record, request.keep(written), ctx);
    }
}

/// Whether a record that owns its memory, and a clone of it, are the same as another.
pub fn is_cloned<T: Clone + PartialEq + Drop>(alloc: Global, owned: &T, other: &T) -> Result<bool> {
    let copy = counted!(alloc; owned.clone())?;
    Ok(copy == *other && *owned == *other)
}

/// Adds whether what is made of a record, and a clone of it, is the same.
pub fn made_anew<T: Clone + PartialEq + Drop>(out: &mut Out, record: &T, made: Result<T>) {
    let is_same = match made {
        Ok(made) => is_cloned(out.alloc(), &made, record),
        Err(AllocError) => Err(AllocError),
    };
    out.same("made", is_same)
}

/// The same of what a call makes; after `owned`, of its copy that is made owned; after `copied`, of a copy that may have failed.
#[macro_export]
macro_rules! anew {
    ($out:expr, $record:expr; copied $copy:expr) => {{
        let alloc = $out.alloc();
        match $copy {
            Ok(copy) => $crate::record::made_anew($out, $record, $crate::counted!(alloc; copy.into_owned(alloc))),
            Err(AllocError) => $out.field("made", "Memory"),
        }
    }};
    ($out:expr, $record:expr; owned $made:expr) => {
        $crate::anew!($out, $record; copied $crate::counted!($out.alloc(); $made.clone()))
    };
    ($out:expr, $record:expr; $made:expr) => { $crate::record::made_anew($out, $record, Ok($made)) };
}

/// Reads the record of a request's bytes and shows it as a program does, writes it, and reads it again.
pub fn round_trip<'a, P: Shows<T>, T: MyDeserialize<'a> + MySerialize + PartialEq + Drop>(
    out: &mut Out,
    request: &'a Request<'_>,
    ctx: T::Ctx,
    again_ctx: T::Ctx,
) {
    let bytes = request.bytes.as_slice();
    if let Some(record) = read::<P, T>(out, bytes, ctx) {
        if let Some(written) = write(out, &record, bytes) {
            again(out, &record, request.keep(written), again_ctx);
        }
    }
}
