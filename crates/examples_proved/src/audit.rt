//! An auditor: what both sides of a connection sent is a whole session.

ghost use Rattle.std.specs.Prelude.{◌≡◌, true, List, IfOk};
ghost use Rattle.mysql_packets.specs.Pipelined.{Numbered};
ghost use Rattle.mysql_packets.specs.Session.{IsSession, IsSessionBeginning};
ghost use Rattle.examples_proved.specs.Audit.{AreSent};

use mysql_packets::conversation::{Session, SessionError, Side};
use mysql_packets::laws::conversation::what_a_session_took_is_a_beginning;
use std::alloc::Global;

/// A packet as it was sent.
#[derive(Clone, Copy)]
pub struct Sent<'a> {
    /// Who sent it.
    pub from: Side,
    /// Its payload.
    pub payload: &'a [u8],
}

/// Checks that these packets, in their order, are a whole session: the grammar allows them as some kinds, with at most `limit`
/// pipelined commands. Otherwise they are the beginning of one.
///
/// The first packet that the grammar doesn't allow is an error.
pub fn is_whole_session(
    alloc: Global,
    limit: usize,
    packets: &[Sent<'_>],
) -> Result<bool, SessionError>
    ensures whole { IfOk result (λ is_complete. is_complete ≡ true → (items : List Numbered) × AreSent items packets.now × IsSession items) }
    ensures begun { IfOk result (λ is_complete. (items : List Numbered) × AreSent items packets.now × IsSessionBeginning items) }
{
    let mut session = Session::new(alloc, limit);
    for packet in packets {
        session.next(packet.from, packet.payload)?;
    }
    what_a_session_took_is_a_beginning();
    Ok(session.is_idle())
}
