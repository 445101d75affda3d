//! The connection phase: the handshake, the response to it, the request for TLS, switches to another plugin,
//! packets with keys and further data, and the change of user.
#![tactic(auto)]

mod attribute;
mod attributes;
mod auth_more_data;
mod auth_more_data_ref;
mod auth_next_factor;
mod auth_plugin;
mod auth_plugin_data;
mod auth_reply;
mod auth_switch_request;
mod com_change_user;
mod com_change_user_more_data;
mod com_change_user_more_data_ref;
mod com_change_user_ref;
mod connect_attribute_ref;
mod connect_attributes_ref;
mod eof_name;
mod faults;
mod first_scramble;
mod for_session;
mod handshake;
mod handshake_head;
mod handshake_ref;
mod handshake_response;
mod handshake_response_ref;
pub mod laws;
mod merged;
mod old_auth_switch_request;
mod parsec;
mod plugin_name;
mod plugin_request;
mod public_key_request;
mod public_key_response;
mod public_key_response_ref;
mod ssl_request;
mod supported;
mod version;

pub use auth_more_data::{AuthMoreData, AuthMoreDataHeader};
pub use auth_more_data_ref::AuthMoreDataRef;
pub use auth_next_factor::{AuthNextFactor, AuthNextFactorHeader, AuthNextFactorRef};
pub use auth_plugin::AuthPlugin;
pub use auth_plugin_data::AuthPluginData;
pub use auth_reply::AuthReply;
pub use auth_switch_request::{AuthSwitchRequest, AuthSwitchRequestHeader, AuthSwitchRequestRef};
pub use com_change_user::{ComChangeUser, ComChangeUserHeader};
pub use com_change_user_more_data::ComChangeUserMoreData;
pub use com_change_user_more_data_ref::ComChangeUserMoreDataRef;
pub use com_change_user_ref::ComChangeUserRef;
pub use connect_attribute_ref::ConnectAttributeRef;
pub use connect_attributes_ref::ConnectAttributesRef;
pub use eof_name::EofName;
pub use faults::{
    InvalidAuthMoreDataHeader, InvalidAuthNextFactorHeader, InvalidAuthSwitchRequestHeader,
    InvalidComChangeUserHeader, InvalidPublicKeyRequest, InvalidPublicKeyResponse,
};
pub use for_session::ForSession;
pub use handshake::HandshakePacket;
pub use handshake_ref::HandshakePacketRef;
pub use handshake_response::{HandshakeResponse, HandshakeResponseHead};
pub use handshake_response_ref::HandshakeResponseRef;
pub use old_auth_switch_request::OldAuthSwitchRequest;
pub use parsec::parse_parsec_salt;
pub use plugin_request::{PluginRequest, PluginRequestHeader, PluginRequestRef};
pub use public_key_request::{PublicKeyRequest, PublicKeyRequestHeader};
pub use public_key_response::{PublicKeyResponse, PublicKeyResponseHeader};
pub use public_key_response_ref::PublicKeyResponseRef;
pub use ssl_request::SslRequest;
pub use supported::supported_capabilities;
