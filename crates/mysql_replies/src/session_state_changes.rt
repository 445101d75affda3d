//! The session state changes in an OK packet.
#![tactic(auto, using(mysql_wire::proofs::Packets::packets), unfolding(crate::specs::SessionStateInfo::session_state_info))]

ghost use Rattle.std.specs.Prelude.{◌≡◌, ◌≢◌, ◌<◌, length, [], IfSome, ℕ, List, ⊤};
ghost use Rattle.mysql_replies.specs.SessionStateChanges as spec;
ghost use Rattle.std.specs.Iterator.{at_most};

use crate::session_state_info::read_as_sent;
use crate::session_state_info_ref::SessionStateInfoRef;
use mysql_session::SessionStateChange;
use mysql_wire::{BytesRepr, Fault, LenEnc, ParseBuf};
use std::marker::Model;

/// Drops the first entry, whatever its type: one byte and a length-encoded string. If it is incomplete, all bytes are dropped.
#[tactic(auto, using(crate::proofs::AsSent::string_shorter))]
fn skip_entry(buf: &mut ParseBuf<'_>)
    ensures value { buf.new ≡ spec.after_entry buf.old }
    ensures shorter { buf.old ≢ [] → length buf.new < length buf.old }
{
    let mut rest = buf.rest();
    let data_type = rest.checked_eat_u8();
    let content: Result<ParseBuf<'_>, Fault> = <LenEnc as BytesRepr>::deserialize((), &mut rest);
    if data_type.is_some() && content.is_ok() {
        *buf = rest;
    } else {
        buf.eat_all();
    }
}

/// Returns the next entry of a state string, or its fault, after which the next entries follow. Each takes at
/// least one byte.
#[tactic(auto, using(mysql_wire::proofs::Packets::packets, crate::proofs::AsSent::entries_shorter))]
pub(crate) fn next_entry<'a>(
    entries: &mut ParseBuf<'a>,
) -> Option<Result<SessionStateInfoRef<'a>, Fault>>
    ensures value { spec.NextEntry entries.old result entries.new }
    ensures shorter { IfSome result (λ entry. length entries.new < length entries.old) }
{
    if entries.is_empty() {
        return None;
    }
    match entries.parse(()) {
        Ok(entry) => Some(Ok(entry)),
        Err(fault) => {
            skip_entry(entries);
            Some(Err(fault))
        }
    }
}

/// An iterator over the changes of a state string: each item is the change as
/// [`SessionStateInfo::decode_wire`](crate::SessionStateInfo::decode_wire) reads it, or its fault. After a
/// fault the next changes follow, unless the state string is incomplete.
///
/// In a clause it is the list of the remaining bytes.
#[derive(Drop)]
pub struct SessionStateChanges<'a> {
    entries: ParseBuf<'a>,
}

impl<'a> Model for SessionStateChanges<'a> {
    ghost Value = { List ℕ };

    ghost view = { λ c. c.entries };
}

impl<'a> SessionStateChanges<'a> {
    /// Creates an iterator over the changes of these entries.
    pub(crate) fn new(entries: ParseBuf<'a>) -> Self
        ensures { result ≡ entries.entry }
    {
        SessionStateChanges { entries }
    }
}

impl<'a> Iterator for SessionStateChanges<'a> {
    type Item = Result<SessionStateChange<'a>, Fault>;

    ghost can_next = { λ _. ⊤ };

    ghost next_gives = { spec.NextChange };

    ghost remaining = { λ left. at_most (length left) };

    #[tactic(auto, using(crate::proofs::AsSent::next_changes))]
    fn next(&mut self) -> Option<Result<SessionStateChange<'a>, Fault>> {
        match next_entry(&mut self.entries)? {
            Ok(entry) => Some(read_as_sent(entry.data_type.0, entry.content)),
            Err(fault) => Some(Err(fault)),
        }
    }
}
