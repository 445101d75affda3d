//! Conversations: which packet comes next.
//!
//! A payload's packet type depends on who sends it, on the agreed capabilities, and on everything before it. [`Conversation`] takes each
//! payload of both sides and returns its kind, exactly if the protocol's grammar allows it next. [`Pipeline`] also allows commands before
//! the answers to earlier ones, and [`Session`] follows a connection from the server's greeting on.
#![tactic(auto)]

mod agreed;
mod conversation;
mod conversation_state;
mod expected;
pub mod laws;
mod login_state;
mod packet_kind;
mod packet_kind_tag;
mod payload;
mod pipeline;
mod pipeline_state;
mod results;
mod session;
mod state;
mod step;

pub use agreed::agreed_on;
pub use conversation::Conversation;
pub use conversation_state::ConversationState;
pub use login_state::LoginState;
pub use packet_kind::{InitialPhase, PacketKind, RowFormat, Side, UnexpectedPacket};
pub use packet_kind_tag::PacketKindTag;
pub use pipeline::{Pipeline, SessionError};
pub use pipeline_state::PipelineState;
pub use session::Session;
