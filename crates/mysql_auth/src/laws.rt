//! Laws over the grammars and the defined bytes of this crate's packets.
//!
//! Each law except those on sizes is an empty function, whose contract holds for all values. The laws that
//! begin with `this` are about a given value.
#![tactic(auto, using(mysql_wire::proofs::Packets::packets, crate::proofs::WholePackets::whole_packets, crate::proofs::HandshakeFits::handshakes, crate::proofs::HandshakeResponseFits::responses, crate::proofs::ChangeUserFits::changes))]

ghost use Rattle.std.specs.Prelude.{◌≡◌, ◌++◌, ℕ, List, [], Some, None, true};
ghost use Rattle.mysql_auth.specs.declared.auth_more_data.AuthMoreData.{AuthMoreData};
ghost use Rattle.mysql_auth.specs.AuthNextFactor.{AuthNextFactor};
ghost use Rattle.mysql_auth.specs.AuthSwitchRequest.{AuthSwitchRequest};
ghost use Rattle.mysql_auth.specs.declared.old_auth_switch_request.OldAuthSwitchRequest.{OldAuthSwitchRequest};
ghost use Rattle.mysql_auth.specs.declared.public_key_request.PublicKeyRequest.{PublicKeyRequest};
ghost use Rattle.mysql_auth.specs.declared.public_key_response.PublicKeyResponse.{PublicKeyResponse};
ghost use Rattle.mysql_auth.specs.declared.ssl_request.SslRequest.{SslRequest};
ghost use Rattle.mysql_auth.specs.Handshake.{HandshakePacket, handshake, server_version, HandshakeFits};
ghost use Rattle.mysql_auth.specs.declared.com_change_user.ComChangeUser.{ComChangeUser};
ghost use Rattle.mysql_auth.specs.declared.com_change_user_more_data.ComChangeUserMoreData.{ComChangeUserMoreData};
ghost use Rattle.mysql_auth.specs.declared.handshake_response.HandshakeResponse.{HandshakeResponse};
ghost use Rattle.mysql_wire.specs.Flags.{CapabilityFlags};
ghost use Rattle.mysql_auth.specs.ComChangeUser.{change_user, connect_attributes, more_data, sends_attributes, session_change_user, session_more_data, ChangeUserFits, ChangeUserIsShort, ChangeUserPartsFit, MoreDataFits, MoreDataPartsFit, SessionChangeUserFits, SessionChangeUserPartsFit, SessionMoreDataFits, SessionMoreDataPartsFit};
ghost use Rattle.mysql_auth.specs.HandshakeResponse.{handshake_response, HandshakeResponseFits, ResponseIsShort, ResponsePartsFit};
ghost use Rattle.mysql_auth.specs.Version.{HasVersion, HasMariadbVersion};
ghost use Rattle.mysql_auth.specs.Attributes.{AreShortIn};
ghost use Rattle.mysql_auth.specs.AuthMoreData.{auth_more_data};
ghost use Rattle.mysql_auth.specs.AuthNextFactor.{auth_next_factor};
ghost use Rattle.mysql_auth.specs.AuthNextFactor.{plugin_name as factor_name};
ghost use Rattle.mysql_auth.specs.AuthPlugin.{auth_plugin, plugin_name, plugin_named};
ghost use Rattle.mysql_auth.specs.declared.auth_plugin.AuthPlugin.{AuthPlugin};
ghost use Rattle.mysql_auth.specs.AuthSwitchRequest.{auth_switch_request};
ghost use Rattle.mysql_auth.specs.AuthSwitchRequest.{plugin_name as switch_name};
ghost use Rattle.mysql_auth.specs.OldAuthSwitchRequest.{old_auth_switch_request};
ghost use Rattle.mysql_auth.specs.PublicKeyRequest.{public_key_request};
ghost use Rattle.mysql_auth.specs.PublicKeyResponse.{public_key_response};
ghost use Rattle.mysql_auth.specs.SslRequest.{ssl_request, SslRequestFits};
ghost use Rattle.mysql_wire.specs.Null.{HasNoZero};

use mysql_wire::{MyDeserialize, Width};

mod borrowed;
mod equal;
mod values;

pub use borrowed::{
    borrowed_auth_more_data_reads_auth_more_data,
    borrowed_auth_next_factors_read_auth_next_factors,
    borrowed_auth_switch_requests_read_auth_switch_requests,
    borrowed_changes_of_user_read_changes_of_user, borrowed_connect_attributes_read_attributes,
    borrowed_handshake_responses_read_handshake_responses, borrowed_handshakes_read_handshakes,
    borrowed_more_data_reads_more_data, borrowed_public_keys_read_public_keys,
};
pub use equal::{
    equal_client_packets_are_the_same, equal_plugins_are_the_same,
    equal_server_packets_are_the_same,
};
pub use values::{
    more_data_keys_stand_once, this_change_user_round_trips, this_handshake_response_round_trips,
    this_handshake_round_trips, this_more_data_round_trips, this_ssl_request_round_trips,
};

/// A plugin is read back if nothing follows, and if it is the plugin of its name, as every plugin that was read is.
pub fn auth_plugin_round_trips()
    ensures spelled { (p : AuthPlugin) → plugin_named (plugin_name p) ≡ p → (auth_plugin.form tt).Spells p (auth_plugin.bytes p) [] }
    ensures read { (p : AuthPlugin) (bytes rest : List ℕ) → (auth_plugin.form tt).Spells p bytes rest → (auth_plugin.form tt).Spells p (auth_plugin.bytes p) [] }
{}

/// Further authentication data is read back if nothing follows.
pub fn auth_more_data_round_trips()
    ensures spelled { (p : AuthMoreData) → (auth_more_data.form tt).Spells p (auth_more_data.bytes p) [] }
{}

/// A request for a public key is read back, whatever bytes follow.
pub fn public_key_request_round_trips()
    ensures spelled { (p : PublicKeyRequest) (rest : List ℕ) → (public_key_request.form tt).Spells p (public_key_request.bytes p ++ rest) rest }
{}

/// A public key is read back if nothing follows.
pub fn public_key_response_round_trips()
    ensures spelled { (p : PublicKeyResponse) → (public_key_response.form tt).Spells p (public_key_response.bytes p) [] }
{}

/// A switch to the oldest plugin is read back, whatever bytes follow.
pub fn old_auth_switch_request_round_trips()
    ensures spelled { (p : OldAuthSwitchRequest) (rest : List ℕ) → (old_auth_switch_request.form tt).Spells p (old_auth_switch_request.bytes p ++ rest) rest }
{}

/// A switch is read back if nothing follows and the plugin's name has no zero.
pub fn auth_switch_request_round_trips()
    ensures spelled { (p : AuthSwitchRequest) → HasNoZero (switch_name p) → (auth_switch_request.form tt).Spells p (auth_switch_request.bytes p) [] }
{}

/// A request for the next factor is read back if nothing follows and the plugin's name has no zero.
pub fn auth_next_factor_round_trips()
    ensures spelled { (p : AuthNextFactor) → HasNoZero (factor_name p) → (auth_next_factor.form tt).Spells p (auth_next_factor.bytes p) [] }
{}

/// A request for TLS is read back, whatever bytes follow.
pub fn ssl_request_round_trips()
    ensures spelled { (p : SslRequest) (rest : List ℕ) → SslRequestFits p → (ssl_request.form tt).Spells p (ssl_request.bytes p ++ rest) rest }
{}

/// A handshake is read back under the condition `HandshakeFits`.
pub fn handshake_round_trips()
    ensures spelled { (p : HandshakePacket) (rest : List ℕ) → HandshakeFits p rest → (handshake.form tt).Spells p (handshake.bytes p ++ rest) rest }
{}

/// A response to a handshake is read back under the condition `HandshakeResponseFits`.
pub fn handshake_response_round_trips()
    ensures spelled { (p : HandshakeResponse) (rest : List ℕ) → HandshakeResponseFits p rest → (handshake_response.form tt).Spells p (handshake_response.bytes p ++ rest) rest }
{}

/// A change of user is read back under the flags of both sides, and so is its [`ForSession`](crate::ForSession) form.
pub fn change_user_round_trips()
    ensures spelled { (c : CapabilityFlags) (p : ComChangeUser) (rest : List ℕ) → ChangeUserFits c p rest → (change_user.form c).Spells p (change_user.bytes p ++ rest) rest }
    ensures session { (c : CapabilityFlags) (p : ComChangeUser) (rest : List ℕ) → SessionChangeUserFits c p rest → (change_user.form c).Spells p ((session_change_user c).bytes p ++ rest) rest }
{}

/// The optional fields of a change of user are read back under the flags of both sides, and so is their
/// [`ForSession`](crate::ForSession) form.
pub fn more_data_round_trips()
    ensures spelled { (c : CapabilityFlags) (p : ComChangeUserMoreData) (rest : List ℕ) → MoreDataFits c p → (more_data.form c).Spells p (more_data.bytes p ++ rest) rest }
    ensures session { (c : CapabilityFlags) (p : ComChangeUserMoreData) (rest : List ℕ) → SessionMoreDataFits c p → (more_data.form c).Spells p ((session_more_data c).bytes p ++ rest) rest }
{}

/// The server's version in a handshake that was read has no zero.
#[tactic(auto, using(crate::proofs::ReadPackets::read_packets))]
pub fn read_handshake_has_no_zero()
    ensures version { (p : HandshakePacket) (bytes rest : List ℕ) → (handshake.form tt).Spells p bytes rest → HasNoZero (server_version p) }
{}

/// The parts of a response that was read fit if its lengths do.
#[tactic(auto, using(crate::proofs::ReadPackets::read_packets))]
pub fn read_handshake_response_fits()
    ensures fits { (p : HandshakeResponse) (bytes rest more : List ℕ) → (handshake_response.form tt).Spells p bytes rest → ResponseIsShort p more → ResponsePartsFit p more }
{}

/// The parts of optional fields that were read fit the [`ForSession`](crate::ForSession) form if the length of
/// their attributes does. With attributes they fit both forms.
#[tactic(auto, using(crate::proofs::ReadPackets::read_packets))]
pub fn read_more_data_fits()
    ensures fits { (c : CapabilityFlags) (p : ComChangeUserMoreData) (bytes rest : List ℕ) → (more_data.form c).Spells p bytes rest → AreShortIn (connect_attributes p) → SessionMoreDataPartsFit c p }
    ensures attributes { (c : CapabilityFlags) (p : ComChangeUserMoreData) (bytes rest : List ℕ) → (more_data.form c).Spells p bytes rest → AreShortIn (connect_attributes p) → sends_attributes c ≡ true → MoreDataPartsFit c p }
{}

/// The parts of a change of user that was read fit the [`ForSession`](crate::ForSession) form if its lengths
/// do. With attributes they fit both forms. Without optional fields nothing may follow it.
pub fn read_change_user_fits()
    ensures fits { (c : CapabilityFlags) (p : ComChangeUser) (bytes rest more : List ℕ) → (change_user.form c).Spells p bytes rest → ChangeUserIsShort p more → SessionChangeUserPartsFit c p more }
    ensures attributes { (c : CapabilityFlags) (p : ComChangeUser) (bytes rest more : List ℕ) → (change_user.form c).Spells p bytes rest → ChangeUserIsShort p more → sends_attributes c ≡ true → ChangeUserPartsFit c p more }
{}

/// A text begins with at most one version.
pub fn one_version()
    ensures one { (text : List ℕ) (v w : ℕ × ℕ × ℕ) → HasVersion text v → HasVersion text w → v ≡ w }
    ensures one_mariadb { (text : List ℕ) (v w : ℕ × ℕ × ℕ) → HasMariadbVersion text v → HasMariadbVersion text w → v ≡ w }
{}

/// A request for TLS takes 32 bytes, a switch to the oldest plugin one, and no other packet has a constant size.
#[tactic(auto)]
pub fn each_packet_has_its_size() -> bool
    ensures value { result ≡ true }
{
    login_packets_have_their_sizes() && authentication_packets_have_their_sizes()
}

/// Checks the packets of a login and of a change of user.
#[tactic(auto)]
fn login_packets_have_their_sizes() -> bool
    ensures value { result ≡ true }
{
    crate::SslRequest::SIZE == Some(32)
        && crate::HandshakePacket::<'static>::SIZE.is_none()
        && crate::HandshakeResponse::<'static>::SIZE.is_none()
        && crate::ComChangeUser::<'static>::SIZE.is_none()
        && crate::ComChangeUserMoreData::<'static>::SIZE.is_none()
}

/// Checks the other packets of an authentication.
#[tactic(auto)]
fn authentication_packets_have_their_sizes() -> bool
    ensures value { result ≡ true }
{
    crate::OldAuthSwitchRequest::SIZE == Some(1)
        && crate::PublicKeyRequest::SIZE.is_none()
        && crate::PublicKeyResponse::<'static>::SIZE.is_none()
        && crate::AuthMoreData::<'static>::SIZE.is_none()
        && crate::AuthReply::<'static>::SIZE.is_none()
        && crate::AuthPlugin::<'static>::SIZE.is_none()
        && <<crate::AuthSwitchRequest<'static> as MyDeserialize>::Size as Width>::SIZE.is_none()
        && <<crate::AuthNextFactor<'static> as MyDeserialize>::Size as Width>::SIZE.is_none()
}
