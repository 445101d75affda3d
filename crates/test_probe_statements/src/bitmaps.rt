//! Bitmaps of NULLs.
//!
//! `bitmap SIDE COUNT BYTES` reads one of a given number of values, and shows which of its first 64 places are NULL.
//!
//! `bits SIDE MAKING CALL ..` makes one, by `new:COUNT`, `from:BYTES` (which it borrows) or `read:COUNT:BYTES` (which
//! it copies), and calls `set:PLACE`, `clear:PLACE`, `is:PLACE`, `len:COUNT` (`bitmap_len`). The sides are `client` and
//! `server`. `bit_offsets` says where their bitmaps have the first value's bit.

ghost use Rattle.std.specs.Prelude.{true, ◌≡◌, ◌+◌, ◌*◌, ◌<◌, ◌≤◌, length, IsTrue};

use crate::prelude::*;

pub fn bitmap(out: &mut Out, request: &Request<'_>) {
    let count = request.word(2).parse::<usize>().unwrap_or(0);
    match request.word(1) {
        "client" => round_trip::<Statements, NullBitmap<'_, ClientSide>>(
            out, request, count, count,
        ),
        _ => round_trip::<Statements, NullBitmap<'_, ServerSide>>(out, request, count, count),
    }
}

pub fn bits(out: &mut Out, request: &Request<'_>) {
    match request.word(1) {
        "client" => bits_of::<ClientSide>(out, request),
        _ => bits_of::<ServerSide>(out, request),
    }
}

/// Where a bitmap of NULLs has the first value's bit, on either side.
pub fn bit_offsets(out: &mut Out, _request: &Request<'_>) {
    out.show("client", ClientSide::BIT_OFFSET);
    out.show("server", ServerSide::BIT_OFFSET);
}

impl<'a, S: SerializationSide> Shows<NullBitmap<'a, S>> for Statements {
    fn show(record: &NullBitmap<'a, S>, out: &mut Out) {
        out.show("bytes", record.as_bytes());
        for place in 0..64 {
            if is_there(record, place) && record.is_null(place) {
                out.show("null", place);
            }
        }
        made_anew(out, record, made(out.alloc(), record.as_bytes()))
    }
}

/// The bitmap of some bytes, of a copy of them.
fn made<S: SerializationSide>(alloc: Global, bytes: &[u8]) -> Result<NullBitmap<'static, S>> {
    let borrowed = NullBitmap::<'_, S>::from_bytes(CowSlice::Borrowed(bytes));
    let copy = counted!(alloc; borrowed.clone())?;
    let bytes = Vec::from_slice(alloc, copy.as_bytes())?;
    Ok(NullBitmap::from_bytes(CowSlice::Owned(bytes)))
}

/// Whether the bit of the value at a place, which is one of the first million, lies in the bytes.
fn is_there<S: SerializationSide>(bitmap: &NullBitmap<'_, S>, place: usize) -> bool
    ensures { IsTrue result → place + S.BIT_OFFSET < 8 * length bitmap.now.bytes }
{
    let len = bitmap.as_bytes().len();
    place < 1_000_000 && S::BIT_OFFSET < 8 && len < 1_000_000 && place + S::BIT_OFFSET < 8 * len
}

/// A count of values that is small.
fn count(digits: &str) -> usize
    ensures { result ≤ 1000000 }
{
    digits.parse::<usize>().unwrap_or(0).min(1_000_000)
}

fn bits_of<S: SerializationSide>(out: &mut Out, request: &Request<'_>) {
    let alloc = out.alloc();
    let (making, argument) = request.word(2).split_once(':').unwrap_or(("", ""));
    let (digits, spelled) = argument.split_once(':').unwrap_or((argument, argument));
    let (count, bytes) = (count(digits), bytes(out, spelled));
    match making {
        "from" => {
            let bitmap = NullBitmap::<'_, S>::from_bytes(CowSlice::Borrowed(&bytes));
            answer_calls(out, Ok(bitmap), request);
            out.show("borrowed", bytes.as_slice());
        }
        _ if S::BIT_OFFSET > 8 => out.word("?"),
        "new" => {
            let made = counted!(alloc; NullBitmap::<'static, S>::new(alloc, count));
            answer_calls(out, made, request);
        }
        _ if NullBitmap::<'static, S>::bitmap_len(count) > bytes.len() => out.word("?"),
        _ => {
            let mut input = bytes.as_slice();
            let made = counted!(alloc; NullBitmap::<'static, S>::read(alloc, &mut input, count));
            let is_made = made.is_ok();
            answer_calls(out, made, request);
            if is_made {
                out.show("left", input.len());
            } else if input.len() != bytes.len() {
                out.field("bytes", "TAKEN");
            }
        }
    }
}

/// Shows the bytes, and answers the calls that stand from the fourth word on.
fn answer_calls<S: SerializationSide>(
    out: &mut Out,
    made: Result<NullBitmap<'_, S>>,
    request: &Request<'_>,
) {
    let Ok(mut bitmap) = made else {
        return out.field("bytes", "Memory");
    };
    out.show("bytes", bitmap.as_bytes());
    for word in request.line.split(' ').skip(3) {
        call(out, &mut bitmap, word);
    }
}

/// Makes a call, and adds what it answered. Where memory runs out, the bytes are as before.
fn call<S: SerializationSide>(out: &mut Out, bitmap: &mut NullBitmap<'_, S>, word: &str) {
    let (name, digits) = word.split_once(':').unwrap_or((word, ""));
    let place = count(digits);
    match name {
        "len" if S::BIT_OFFSET <= 8 => {
            out.show("len", NullBitmap::<'static, S>::bitmap_len(place))
        }
        "is" if is_there(bitmap, place) => out.show("is", bitmap.is_null(place)),
        "set" | "clear" if is_there(bitmap, place) => {
            let before = or_empty(out, Vec::from_slice(out.alloc(), bitmap.as_bytes()));
            match counted!(out.alloc(); bitmap.set(out.alloc(), place, name == "set")) {
                Ok(()) => out.show("now", bitmap.as_bytes()),
                Err(AllocError) if bitmap.as_bytes() == before.as_slice() => out.field(
                    "now", "Memory",
                ),
                Err(AllocError) => out.field("now", "CHANGED"),
            }
        }
        _ => out.word("?"),
    }
}
