//! Which packet comes next.

ghost use Rattle.std.specs.Prelude.{◌≡◌, ◌↔◌, IfOk, OnErr, IsTrue, List, [], ◌∷◌, ◌++◌};

use crate::expected::may_receive;
use crate::packet_kind::{InitialPhase, PacketKind, Side, UnexpectedPacket};
use crate::packet_kind_tag::PacketKindTag;
use crate::state::State;
use crate::step::{entrance, rests, take_step};
use mysql_replies::SessionCapabilities;
use std::alloc::Global;

/// A conversation under agreed capabilities, without pipelined commands: takes each payload and returns its kind.
///
/// It never allocates. If commands may precede the answers to earlier ones, use a [`Pipeline`](crate::Pipeline).
///
/// ```
/// let mut conversation = Conversation::new(alloc, agreed, InitialPhase::Commands);
/// conversation.next(Side::Client, query)?;
/// conversation.next(Side::Server, reply)?;
/// Ok(conversation.is_idle())
/// ```
#[derive(Drop)]
pub struct Conversation {
    pub(crate) alloc: Global,
    pub(crate) agreed: SessionCapabilities,
    pub(crate) opening: InitialPhase,
    pub(crate) state: State,
}

impl Conversation {
    ghost use Rattle.mysql_conversation.specs.Conversation.{Packet, IsConversation, IsBeginning};
    ghost use Rattle.mysql_conversation.specs.History as history;
    ghost use Rattle.mysql_conversation.specs.History.{Taken, GoesOn};
    ghost use Rattle.mysql_conversation.specs.Taken.{packet};
    ghost use Rattle.mysql_conversation.specs.declared.packet_kind.PacketKind as declared;

    /// Creates a conversation before its first packet. It starts after the login, or between two commands.
    pub fn new(alloc: Global, agreed: SessionCapabilities, opening: InitialPhase) -> Self
        ensures taken { Taken result [] }
        ensures agreed { history.agreed result ≡ agreed }
        ensures opening { history.opening result ≡ opening }
    {
        Conversation {
            alloc,
            agreed,
            opening,
            state: entrance(opening),
        }
    }

    /// Whether the last command is answered.
    pub fn is_idle(&self) -> bool
        ensures { (items : List Packet) → Taken self.now items → IsTrue result ↔ IsConversation (history.agreed self.now) (history.opening self.now) items }
    {
        rests(&self.state)
    }

    /// Whether a packet of this kind may come next from this side.
    pub fn may_receive(&self, from: Side, name: PacketKindTag) -> bool
        ensures { (items : List Packet) → Taken self.now items → IsTrue result ↔ GoesOn self.now from name items }
    {
        may_receive(self.agreed, &self.state, from, name)
    }

    /// Returns the payload's kind. An error changes nothing.
    #[inline]
    pub fn next(&mut self, from: Side, payload: &[u8]) -> Result<PacketKind, UnexpectedPacket>
        // The packet, with this kind, is appended to what was taken.
        ensures taken { IfOk result (λ kind. (items : List Packet) → Taken self.old items → Taken self.new (items ++ packet from payload.now kind ∷ [])) }
        // With no kind does the packet continue what was taken.
        ensures refused { OnErr result ((items : List Packet) (kind : declared.PacketKind) → Taken self.old items → IsBeginning (history.agreed self.old) (history.opening self.old) (items ++ packet from payload.now kind ∷ []) → ⊥) }
        ensures err { OnErr result (self.new ≡ self.old) }
        ensures agreed { history.agreed self.new ≡ history.agreed self.old }
        ensures opening { history.opening self.new ≡ history.opening self.old }
    {
        take_step(self.alloc, self.agreed, &mut self.state, from, payload)
    }
}
