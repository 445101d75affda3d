//! Frames.
//!
//! `frames LIMIT NUMBER PIECE BYTES`: a stream that comes in pieces of a given number of bytes, or whole where that is 0. In place of NUMBER `sent`:
//! each payload begins with the number that it was sent with. `write_frames NUMBER BYTES`.
//! `long_frames LENGTH NUMBER PIECE`: a payload of a given number of bytes, written, and read again in such pieces. `sequence_id BYTES`.
//! `next_frame BYTES`: the frames, one by one.

ghost use Rattle.std.specs.Prelude.{◌≤◌};

use crate::prelude::*;
use mysql_frames::{
    FrameError, FrameReader, MAX_FRAME_LEN, next_frame, sequence_id_at, write_frames, write_packet,
};

/// A sequence number among the words.
fn number(request: &Request<'_>, place: usize) -> u8 {
    request.word(place).parse::<u8>().unwrap_or(0)
}

/// A reader that the number at that place comes to first.
fn reader_at(request: &Request<'_>, limit: usize, place: usize) -> FrameReader {
    let mut reader = FrameReader::new(request.alloc, limit);
    reader.expect(number(request, place));
    reader
}

/// The size of pieces, where a stream of `len` bytes comes whole if the word is 0.
fn piece_size(request: &Request<'_>, len: usize) -> usize
    ensures { 1 ≤ result }
{
    match request.number(3) {
        0 => len.max(1),
        size => size as usize,
    }
}

/// Adds the payloads of a piece, and whether the reader goes on. A call that memory is refused for is made again.
fn take(out: &mut Out, reader: &mut FrameReader, as_sent: bool, piece: &[u8]) -> bool {
    let mut input = piece;
    for _ in 0..=piece.len() {
        if as_sent {
            reader.resync_sequence(input);
        }
        match counted!(out.alloc(); reader.read(&mut input)) {
            Ok(Some(payload)) => {
                out.show("payload", payload.as_slice());
                reader.recycle(payload)
            }
            Ok(None) => return true,
            Err(FrameError::Memory) => out.field("payload", "Memory"),
            Err(error) => {
                out.error(&error);
                out.show("left", input.len());
                return false;
            }
        }
    }
    true
}

/// The payloads of a stream, and what the reader stands at.
pub fn read(out: &mut Out, request: &Request<'_>) {
    let mut reader = reader_at(request, request.number(1) as usize, 2);
    let as_sent = request.word(2) == "sent";
    let bytes = request.bytes.as_slice();
    for piece in bytes.chunks(piece_size(request, bytes.len())) {
        if !take(out, &mut reader, as_sent, piece) {
            break;
        }
    }
    out.show("number", reader.number());
    out.show("between", reader.is_between())
}

/// A payload in its frames.
pub fn write(out: &mut Out, request: &Request<'_>) {
    let payload = request.bytes.as_slice();
    let mut buffer = begun(out);
    let written = counted!(out.alloc(); write_frames(&mut buffer, number(request, 1), payload));
    show_written(out, written.is_ok(), &buffer, None);
    if let Ok(after) = written {
        out.show("after", after);
    }
}

/// A payload that takes several frames, and the same as a packet.
pub fn long(out: &mut Out, request: &Request<'_>) -> Result {
    let mut payload = Vec::new(request.alloc);
    payload.resize(request.number(1) as usize, 7)?;
    let mut frames = Vec::new(request.alloc);
    let after = write_frames(&mut frames, number(request, 2), &payload)?;
    out.show("len", frames.len());
    for frame in frames.chunks(MAX_FRAME_LEN + 4) {
        out.show(
            "header",
            frame.first_chunk::<4>().map(|header| header.as_slice()),
        );
        if let Some((frame, _rest)) = next_frame(frame) {
            out.show("last", frame.is_last());
        }
    }
    out.show("after", after);
    let packet: RawBytes<'_, EofBytes> = RawBytes::new(CowSlice::Borrowed(&payload));
    let mut sent = Vec::new(request.alloc);
    let next = write_packet(&mut sent, number(request, 2), &packet)?;
    out.show("packet", next == after && sent == frames);
    let mut reader = reader_at(request, payload.len(), 2);
    for piece in frames.chunks(piece_size(request, frames.len())) {
        let mut input = piece;
        if let Ok(Some(found)) = reader.read(&mut input) {
            out.show("again", found.as_slice() == payload.as_slice());
            reader.recycle(found);
        }
    }
    out.show("number", reader.number());
    Ok(())
}

/// The sequence number that bytes begin with.
pub fn sequence_id(out: &mut Out, request: &Request<'_>) {
    out.show("number", sequence_id_at(&request.bytes))
}

/// The frames that the bytes begin with, and how many bytes are left.
pub fn each(out: &mut Out, request: &Request<'_>) {
    let mut rest = request.bytes.as_slice();
    for _ in 0..request.bytes.len() {
        let Some((frame, after)) = next_frame(rest) else {
            break;
        };
        out.show("content", frame.content);
        out.show("number", frame.sequence_id);
        out.show("last", frame.is_last());
        rest = after;
    }
    out.show("left", rest.len());
}
