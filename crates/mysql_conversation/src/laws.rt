//! Laws over conversations.

ghost use Rattle.std.specs.Prelude.{◌≡◌, ℕ, List, [], ◌∷◌, ◌++◌};
ghost use Rattle.mysql_conversation.specs.Agreements as agreement;
ghost use Rattle.mysql_conversation.specs.Conversation.{Packet, IsBeginning};
ghost use Rattle.mysql_conversation.specs.History as history;
ghost use Rattle.mysql_conversation.specs.History.{Taken};
ghost use Rattle.mysql_conversation.specs.Piped as piped;
ghost use Rattle.mysql_conversation.specs.Taken.{packet};
ghost use Rattle.mysql_conversation.specs.Conversation.{IsConversation};
ghost use Rattle.mysql_conversation.specs.Pipelined.{Numbered, IsPipelined, IsPipelinedBeginning, numbered};
ghost use Rattle.mysql_conversation.specs.Order.{IsInterleaved};
ghost use Rattle.mysql_conversation.specs.Piped.{PipeTaken, place};
ghost use Rattle.mysql_conversation.specs.Session.{SessionTaken, IsSessionBeginning};
ghost use Rattle.mysql_conversation.specs.declared.pipeline.Pipeline as pipeline;
ghost use Rattle.mysql_conversation.specs.declared.session.Session as session;
ghost use Rattle.mysql_conversation.specs.declared.conversation.Conversation as conversation;
ghost use Rattle.mysql_conversation.specs.declared.packet_kind.PacketKind as kind;
ghost use Rattle.mysql_conversation.specs.declared.packet_kind.InitialPhase as start;
ghost use Rattle.mysql_conversation.specs.declared.packet_kind.Side as side;

/// The packets that a conversation has accepted are the beginning of a conversation in the grammar.
#[tactic(auto, using(crate::proofs::Begun::takes_is_beginning))]
pub fn what_is_taken_is_a_beginning()
    ensures { (c : conversation.Conversation) (items : List Packet) → Taken c items → IsBeginning (history.agreed c) (history.opening c) items }
{}

/// After the packets before it, a packet has at most one kind in the grammar.
#[tactic(auto, using(crate::proofs::Begun::one_kind))]
pub fn a_packet_is_of_one_kind()
    ensures { (a : agreement.Agreed) (o : start.InitialPhase) (items : List Packet) (from : side.Side) (payload : List ℕ) (j k : kind.PacketKind)
        → IsBeginning a o (items ++ packet from payload j ∷ []) → IsBeginning a o (items ++ packet from payload k ∷ []) → j ≡ k }
{}

/// The packets that a pipeline has accepted are the beginning of a pipelined conversation.
#[tactic(auto, using(crate::proofs::Stood::run_is_beginning))]
pub fn what_a_pipeline_took_is_a_beginning()
    ensures { (c : pipeline.Pipeline) (items : List Numbered) → PipeTaken c items → IsPipelinedBeginning (piped.agreed c) (piped.opening c) items }
{}

/// A conversation without pipelined commands is a pipelined one, with the same kinds.
pub fn a_conversation_is_pipelined()
    ensures { (a : agreement.Agreed) (o : start.InitialPhase) (items : List Packet) → IsConversation a o items → IsPipelined a o (numbered 0 items) }
{}

/// In a pipelined conversation, after the packets before it, a packet has at most one kind, and belongs to at
/// most one exchange.
pub fn a_pipelined_packet_is_of_one_kind()
    ensures { (a : agreement.Agreed) (o : start.InitialPhase) (items : List Numbered) (from : side.Side) (payload : List ℕ) (j k : kind.PacketKind) (m n : ℕ)
        → IsPipelinedBeginning a o (items ++ place from payload j m ∷ []) → IsPipelinedBeginning a o (items ++ place from payload k n ∷ []) → (j ≡ k) × (m ≡ n) }
{}

/// In a pipelined conversation the packets of each side are those of a conversation, in order, and none
/// precedes the command whose exchange it belongs to.
pub fn a_pipelined_conversation_is_interleaved()
    ensures { (a : agreement.Agreed) (o : start.InitialPhase) (items : List Numbered) → IsPipelined a o items → IsInterleaved a o items }
{}

/// The packets that a session has accepted are the beginning of a session in the grammar.
#[tactic(auto, using(crate::proofs::SessionEnds::taken_is_beginning))]
pub fn what_a_session_took_is_a_beginning()
    ensures { (c : session.Session) (items : List Numbered) → SessionTaken c items → IsSessionBeginning items }
{}

/// In a session, after the packets before it, a packet has at most one kind, and belongs to at most one exchange.
#[tactic(auto, using(crate::proofs::SessionKinds::session_one_kind))]
pub fn a_session_packet_is_of_one_kind()
    ensures { (items : List Numbered) (from : side.Side) (payload : List ℕ) (j k : kind.PacketKind) (m n : ℕ)
        → IsSessionBeginning (items ++ place from payload j m ∷ []) → IsSessionBeginning (items ++ place from payload k n ∷ []) → (j ≡ k) × (m ≡ n) }
{}
