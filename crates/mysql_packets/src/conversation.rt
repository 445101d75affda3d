//! Conversations: which packet comes next.

pub use mysql_conversation::{
    Conversation, ConversationState, InitialPhase, LoginState, PacketKind, PacketKindTag, Pipeline,
    PipelineState, RowFormat, Session, SessionError, Side, UnexpectedPacket, agreed_on,
};
