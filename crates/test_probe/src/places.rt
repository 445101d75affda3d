//! Records that stay in their packet, beside those that are read of the same bytes.
//!
//! An answer says `borrowed=other` where reading in place gives something else, and `left=other` where it leaves another
//! number of bytes.

use crate::prelude::*;

/// How a program compares a record that stays in its packet, an `R`, with one that is read of the same bytes.
pub trait InPlace<T, R> {
    /// Whether both are the same record. Where memory runs out, the answer is lost.
    fn is(place: &R, owned: &T, out: &mut Out) -> bool;
}

/// Whether both are the same record, or the same fault.
pub fn is_same<P: InPlace<T, R>, T, R>(
    place: &Result<R, Fault>,
    owned: &Result<T, Fault>,
    out: &mut Out,
) -> bool {
    match (place, owned) {
        (Ok(place), Ok(owned)) => P::is(place, owned, out),
        (Err(place), Err(owned)) => place == owned,
        _ => false,
    }
}

/// Adds a word unless both readings give the same, and another unless they leave as many bytes.
pub fn compare<P: InPlace<T, R>, T: Drop, R: Drop>(
    out: &mut Out,
    place: (Result<R, Fault>, usize),
    owned: (Result<T, Fault>, usize),
) {
    let is_same = is_same::<P, T, R>(&place.0, &owned.0, out);
    out.or_other("borrowed", Ok(is_same));
    out.or_other("left", Ok(place.1 == owned.1));
}

/// Reads, shows and writes a record, and compares it with the one that stays in its packet.
pub fn both<'a, P, T, R>(out: &mut Out, request: &'a Request<'_>, ctx: T::Ctx)
where
    P: Shows<T> + InPlace<T, R>,
    T: MyDeserialize<'a> + MySerialize + PartialEq + Drop,
    T::Ctx: Copy,
    R: MyDeserialize<'a, Ctx = T::Ctx> + Drop,
{
    round_trip::<P, T>(out, request, ctx, ctx);
    let (alloc, bytes) = (request.alloc, request.bytes.as_slice());
    let owned = parsed::<T>(alloc, bytes, ctx);
    let place = counted!(alloc; value parsed::<R>(alloc, bytes, ctx));
    compare::<P, T, R>(out, place, owned)
}
