//! Borrowed session changes of an OK packet.
#![tactic(auto, using(mysql_wire::proofs::Packets::packets), unfolding(crate::specs::SessionStateInfo::session_state_info))]

ghost use Rattle.std.specs.Prelude.{◌≡◌, ℕ, List, length, ⊤};
ghost use Rattle.mysql_replies.specs.SessionStateChangesRef as spec;
ghost use Rattle.std.specs.Iterator.{at_most};

use crate::session_state_changes::next_entry;
use mysql_session::SessionStateChangeRef;
use mysql_wire::{Fault, ParseBuf};
use std::marker::Model;

/// An iterator over the changes of a state string, without memory: each item is the change as
/// [`SessionStateInfoRef::decode_wire`](crate::SessionStateInfoRef::decode_wire) reads it, or its fault. After a fault the next
/// changes follow, unless the state string is incomplete.
///
/// In a clause it is the list of the remaining bytes.
#[derive(Drop)]
pub struct SessionStateChangesRef<'a> {
    entries: ParseBuf<'a>,
}

impl<'a> Model for SessionStateChangesRef<'a> {
    ghost Value = { List ℕ };

    ghost view = { λ c. c.entries };
}

impl<'a> SessionStateChangesRef<'a> {
    /// Creates an iterator over the changes of these entries.
    pub(crate) fn new(entries: ParseBuf<'a>) -> Self
        ensures { result ≡ entries.entry }
    {
        SessionStateChangesRef { entries }
    }
}

impl<'a> Iterator for SessionStateChangesRef<'a> {
    type Item = Result<SessionStateChangeRef<'a>, Fault>;

    ghost can_next = { λ _. ⊤ };

    ghost next_gives = { spec.NextChangeRef };

    ghost remaining = { λ left. at_most (length left) };

    #[tactic(auto, using(crate::proofs::AsSent::next_changes))]
    fn next(&mut self) -> Option<Result<SessionStateChangeRef<'a>, Fault>> {
        match next_entry(&mut self.entries)? {
            Ok(entry) => Some(entry.decode_wire()),
            Err(fault) => Some(Err(fault)),
        }
    }
}
