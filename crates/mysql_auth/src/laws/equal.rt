//! Laws on equality: packets compare equal exactly if they have the same value, borrowed or owned.
#![tactic(auto, using(crate::proofs::EqualPackets::equal_packets))]

ghost use Rattle.std.specs.Prelude.{◌≡◌, ◌↔◌, IsTrue};
ghost use Rattle.mysql_auth.specs.declared.auth_more_data.AuthMoreData.{AuthMoreData};
ghost use Rattle.mysql_auth.specs.AuthNextFactor.{AuthNextFactor};
ghost use Rattle.mysql_auth.specs.declared.auth_plugin.AuthPlugin.{AuthPlugin};
ghost use Rattle.mysql_auth.specs.declared.auth_plugin_data.AuthPluginData.{AuthPluginData};
ghost use Rattle.mysql_auth.specs.declared.auth_reply.AuthReply.{AuthReply};
ghost use Rattle.mysql_auth.specs.AuthSwitchRequest.{AuthSwitchRequest};
ghost use Rattle.mysql_auth.specs.declared.com_change_user.ComChangeUser.{ComChangeUser};
ghost use Rattle.mysql_auth.specs.declared.com_change_user_more_data.ComChangeUserMoreData.{ComChangeUserMoreData};
ghost use Rattle.mysql_auth.specs.Handshake.{HandshakePacket};
ghost use Rattle.mysql_auth.specs.declared.handshake_response.HandshakeResponse.{HandshakeResponse};
ghost use Rattle.mysql_auth.specs.declared.public_key_response.PublicKeyResponse.{PublicKeyResponse};
ghost use Rattle.mysql_auth.specs.declared.ssl_request.SslRequest.{SslRequest};

/// Plugins, and the responses that they compute, compare equal exactly if they have the same value.
pub fn equal_plugins_are_the_same()
    ensures plugin { (x y : AuthPlugin) → IsTrue (⟦<crate::auth_plugin::AuthPlugin<'static> as PartialEq>⟧.eq x y) ↔ (x ≡ y) }
    ensures answer { (x y : AuthPluginData) → IsTrue (⟦<crate::auth_plugin_data::AuthPluginData<'static> as PartialEq>⟧.eq x y) ↔ (x ≡ y) }
{}

/// Packets of a server compare equal exactly if they have the same value.
pub fn equal_server_packets_are_the_same()
    ensures handshake { (x y : HandshakePacket) → IsTrue (⟦<crate::handshake::HandshakePacket<'static> as PartialEq>⟧.eq x y) ↔ (x ≡ y) }
    ensures switch { (x y : AuthSwitchRequest) → IsTrue (⟦<crate::auth_switch_request::AuthSwitchRequest<'static> as PartialEq>⟧.eq x y) ↔ (x ≡ y) }
    ensures more_data { (x y : AuthMoreData) → IsTrue (⟦<crate::auth_more_data::AuthMoreData<'static> as PartialEq>⟧.eq x y) ↔ (x ≡ y) }
    ensures factor { (x y : AuthNextFactor) → IsTrue (⟦<crate::auth_next_factor::AuthNextFactor<'static> as PartialEq>⟧.eq x y) ↔ (x ≡ y) }
    ensures reply { (x y : AuthReply) → IsTrue (⟦<crate::auth_reply::AuthReply<'static> as PartialEq>⟧.eq x y) ↔ (x ≡ y) }
    ensures key { (x y : PublicKeyResponse) → IsTrue (⟦<crate::public_key_response::PublicKeyResponse<'static> as PartialEq>⟧.eq x y) ↔ (x ≡ y) }
{}

/// Packets of a client compare equal exactly if they have the same value.
pub fn equal_client_packets_are_the_same()
    ensures ssl_request { (x y : SslRequest) → IsTrue (⟦<crate::ssl_request::SslRequest as PartialEq>⟧.eq x y) ↔ (x ≡ y) }
    ensures response { (x y : HandshakeResponse) → IsTrue (⟦<crate::handshake_response::HandshakeResponse<'static> as PartialEq>⟧.eq x y) ↔ (x ≡ y) }
    ensures change { (x y : ComChangeUser) → IsTrue (⟦<crate::com_change_user::ComChangeUser<'static> as PartialEq>⟧.eq x y) ↔ (x ≡ y) }
    ensures change_data { (x y : ComChangeUserMoreData) → IsTrue (⟦<crate::com_change_user_more_data::ComChangeUserMoreData<'static> as PartialEq>⟧.eq x y) ↔ (x ≡ y) }
{}
