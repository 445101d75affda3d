//! Buffers, contents that are written, and numbers of varying length.
//!
//! `buf CALLS BYTES`, `content FORM BYTES`, `varlen BYTES`.

use crate::prelude::*;

/// Calls of a buffer, one after another. None of them takes memory.
pub fn calls(out: &mut Out, request: &Request<'_>) {
    let mut buf = request.buf();
    for name in request.word(1).split(',') {
        take(out, name, &mut buf);
    }
    out.show("rest", buf.len())
}

/// A call of a buffer. Some take bytes from it, and two bytes must be there for the last three.
fn take(out: &mut Out, name: &str, buf: &mut ParseBuf<'_>) {
    match name {
        "rest" => out.show(name, buf.rest().len()),
        "is_empty" => out.show(name, buf.is_empty()),
        "first" => out.show(name, buf.first()),
        "eat_null_str" => out.show(name, buf.eat_null_str()),
        "eat_all" => out.show(name, buf.eat_all()),
        "checked_eat_u8" => out.show(name, buf.checked_eat_u8()),
        "checked_eat_1" => out.show(name, buf.checked_eat(1)),
        "checked_eat_9" => out.show(name, buf.checked_eat(9)),
        _ if buf.len() < 2 => out.word("few"),
        "eat_2" => out.show(name, buf.eat(2)),
        "eat_array_2" => out.show(name, buf.eat_array::<2>().as_slice()),
        _ => {
            buf.skip(2);
            out.word("skipped")
        }
    }
}

/// Adds how much is kept of a content, and how it is written.
fn show_kept<R: BytesRepr>(out: &mut Out, content: &[u8]) {
    let content: RawBytes<'_, R> = RawBytes::new(CowSlice::Borrowed(content));
    out.show("kept", content.len());
    out.show("empty", content.is_empty());
    out.show("default", content == RawBytes::default());
    let is_written = is_written_to_capacity(out.alloc(), &content);
    out.same("with_capacity", is_written);
    write_made(out, &content)
}

/// Whether a content is written to its length, where there is capacity for it: nothing grows then.
fn is_written_to_capacity<R: BytesRepr>(alloc: Global, bytes: &RawBytes<'_, R>) -> Result<bool> {
    let mut capacity = Vec::with_capacity(alloc, bytes.defined_len())?;
    counted!(alloc; bytes.serialize(&mut capacity))?;
    Ok(capacity.len() == bytes.defined_len())
}

/// A content, as a form writes it.
pub fn content(out: &mut Out, request: &Request<'_>) {
    let content = request.bytes.as_slice();
    match request.word(1) {
        "lenenc_bytes" => show_kept::<LenEnc>(out, content),
        "null_bytes" => show_kept::<NullBytes>(out, content),
        "u8_bytes" => show_kept::<U8Bytes>(out, content),
        "u32_bytes" => show_kept::<U32Bytes>(out, content),
        "bare_bytes_2" => show_kept::<BareBytes<2>>(out, content),
        "eof_name" => show_kept::<EofName>(out, content),
        _ => show_kept::<EofBytes>(out, content),
    }
}

/// A number of varying length, by the functions that read, measure and write one.
pub fn varlen(out: &mut Out, request: &Request<'_>) {
    let mut buf = request.buf();
    let answer: Result<u64, Fault> = counted!(request.alloc; read_varlen_uint(&mut buf));
    if let Some(value) = taken(out, answer, buf.len() == request.bytes.len()) {
        out.show("value", value);
        out.show("rest", buf.len());
        show_varlen(out, value)
    }
}

/// Adds how long a number of varying length is, and how it is written.
fn show_varlen(out: &mut Out, value: u64) {
    out.show("len", varlen_uint_size(value));
    let mut buffer = begun(out);
    let is_written = counted!(out.alloc(); write_varlen_uint(&mut buffer, value)).is_ok();
    show_written(out, is_written, &buffer, None)
}
