//! An observer: what it knows of statements is what the packets say in the order of the conversation.

ghost use Rattle.std.specs.Prelude.{List, IfOk};
ghost use Rattle.mysql_packets.specs.Observed.{Observed, tracked};
ghost use Rattle.mysql_packets.specs.Pipelined.{Numbered};
ghost use Rattle.examples_proved.specs.Audit.{AreSent};
ghost use Rattle.examples_proved.specs.InOrder.{IsInOrder};

use crate::audit::Sent;
use mysql_packets::conversation::SessionError;
use mysql_packets::laws::conversation::what_a_session_took_is_a_beginning;
use mysql_packets::laws::observer::{
    tracked_packets_are_the_steps_of_a_conversation,
    what_is_known_is_in_the_order_of_the_conversation,
};
use mysql_packets::observer::{Observer, ObserverLimits};
use std::alloc::Global;

/// Creates an observer and passes it these packets. What it knows after the login follows from each packet in turn; and if each
/// pipelined command had its place, its table is that of the packets in the order of the exchanges.
///
/// The first packet that may not come next is an error, and so is one for which an allocation fails.
pub fn follow(
    alloc: Global,
    limits: ObserverLimits,
    packets: &[Sent<'_>],
) -> Result<Observer, SessionError>
    ensures order { IfOk result (λ observer. (items : List Numbered) × AreSent items packets.now × Observed observer items × IsInOrder limits.statements limits.early items (tracked observer)) }
{
    let mut observer = Observer::new(alloc, limits);
    for packet in packets {
        let seen = observer.next(packet.from, packet.payload)?;
        if !seen.has_memory {
            return Err(SessionError::Memory);
        }
    }
    tracked_packets_are_the_steps_of_a_conversation();
    what_is_known_is_in_the_order_of_the_conversation();
    what_a_session_took_is_a_beginning();
    Ok(observer)
}
