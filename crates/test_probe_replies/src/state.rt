//! Entries of a state string, and the changes that they are decoded as: `session_info BYTES`.

use crate::prelude::*;
use crate::session::show_change;
use test_probe::places::is_same;

/// A change that is decoded, or the fault.
pub type Decoded<'a> = Result<SessionStateChange<'a>, Fault>;

/// The same of a change that stays in its packet.
pub type DecodedRef<'a> = Result<SessionStateChangeRef<'a>, Fault>;

/// Adds an entry of a state string, and the change that its data begins with.
pub fn show_info(info: &SessionStateInfo<'_>, out: &mut Out) {
    let alloc = out.alloc();
    out.show("data_type", u8::from(info.data_type()));
    out.show("data", info.data_ref());
    let change = counted!(alloc; info.decode(alloc));
    show_decoded("change", &change, out);
    show_as_sent(info, &change, out)
}

/// Adds the change as it is sent, where it is another.
fn show_as_sent(info: &SessionStateInfo<'_>, change: &Decoded<'_>, out: &mut Out) {
    let sent = counted!(out.alloc(); info.decode_wire(out.alloc()));
    if sent != *change {
        show_decoded("sent", &sent, out);
    }
}

impl Shows<SessionStateInfo<'_>> for Server {
    fn show(it: &SessionStateInfo<'_>, out: &mut Out) {
        show_info(it, out);
        anew!(out, it; owned it);
        laws::this_session_state_info_round_trips(it)
    }
}

/// Adds a change, or the kind of its fault.
pub fn show_decoded(name: &str, change: &Decoded<'_>, out: &mut Out) {
    match change {
        Ok(change) => {
            out.field(name, "read");
            show_change(change, out)
        }
        Err(fault) => out.show(name, Variant(&fault.kind())),
    }
}

impl<'a> InPlace<SessionStateInfo<'a>, SessionStateInfoRef<'a>> for Server {
    fn is(place: &SessionStateInfoRef<'a>, owned: &SessionStateInfo<'a>, out: &mut Out) -> bool {
        let alloc = out.alloc();
        let decoded = counted!(alloc; value place.decode());
        let sent = counted!(alloc; value place.decode_wire());
        place.data_type() == owned.data_type()
            && place.data_ref() == owned.data_ref()
            && is_same_change(decoded, &owned.decode(alloc), out)
            && is_same_change(sent, &owned.decode_wire(alloc), out)
            && place.to_owned() == *owned
    }
}

/// Whether both are the same change, or the same fault.
pub fn is_same_change(borrowed: DecodedRef<'_>, owned: &Decoded<'_>, out: &mut Out) -> bool {
    let again = borrowed.map(|change| SessionStateChangeRef::new(change.into_change()));
    is_same::<Server, SessionStateChange<'_>, SessionStateChangeRef<'_>>(&again, owned, out)
}
