//! Borrowed records are read like owned ones.
#![tactic(auto, using(crate::proofs::ChangeRead::changes_once, crate::proofs::ResponseRead::responses_once))]

ghost use Rattle.std.specs.Prelude.{◌≡◌, ℕ, List};
ghost use Rattle.mysql_wire.specs.Flags.{CapabilityFlags};
ghost use Rattle.mysql_auth.specs.Attributes.{attribute};
ghost use Rattle.mysql_auth.specs.AuthMoreData.{auth_more_data};
ghost use Rattle.mysql_auth.specs.AuthNextFactor.{AuthNextFactor, auth_next_factor};
ghost use Rattle.mysql_auth.specs.AuthSwitchRequest.{AuthSwitchRequest, auth_switch_request};
ghost use Rattle.mysql_auth.specs.ComChangeUser.{change_user, more_data, more_with_each_key_once};
ghost use Rattle.mysql_auth.specs.ComChangeUser.{with_each_key_once as change_with_each_key_once};
ghost use Rattle.mysql_auth.specs.Handshake.{HandshakePacket, handshake};
ghost use Rattle.mysql_auth.specs.HandshakeResponse.{handshake_response, with_each_key_once};
ghost use Rattle.mysql_wire.specs.Form.{map};
ghost use Rattle.mysql_auth.specs.PublicKeyResponse.{public_key_response};

use mysql_wire::MyDeserialize;

/// Borrowed handshakes are read like owned ones.
pub fn borrowed_handshakes_read_handshakes()
    ensures read { (bytes : List ℕ) → (⟦<crate::handshake_ref::HandshakePacketRef<'static> as MyDeserialize<'static>>⟧.form tt).reads bytes ≡ (handshake.form tt).reads bytes }
{}

/// Borrowed responses to a handshake are read like owned ones, with each key once among the attributes.
pub fn borrowed_handshake_responses_read_handshake_responses()
    ensures read { (bytes : List ℕ) → (map with_each_key_once (⟦<crate::handshake_response_ref::HandshakeResponseRef<'static> as MyDeserialize<'static>>⟧.form tt)).reads bytes ≡ (handshake_response.form tt).reads bytes }
{}

/// Borrowed changes of user are read like owned ones, with each key once among the attributes.
pub fn borrowed_changes_of_user_read_changes_of_user()
    ensures read { (c : CapabilityFlags) (bytes : List ℕ) → (map change_with_each_key_once (⟦<crate::com_change_user_ref::ComChangeUserRef<'static> as MyDeserialize<'static>>⟧.form c)).reads bytes ≡ (change_user.form c).reads bytes }
{}

/// The borrowed optional fields of a change of user are read like owned ones, with each key once.
pub fn borrowed_more_data_reads_more_data()
    ensures read { (c : CapabilityFlags) (bytes : List ℕ) → (map more_with_each_key_once (⟦<crate::com_change_user_more_data_ref::ComChangeUserMoreDataRef<'static> as MyDeserialize<'static>>⟧.form c)).reads bytes ≡ (more_data.form c).reads bytes }
{}

/// Borrowed switches to another plugin are read like owned ones.
pub fn borrowed_auth_switch_requests_read_auth_switch_requests()
    ensures read { (bytes : List ℕ) → (⟦<crate::auth_switch_request::AuthSwitchRequestRef<'static> as MyDeserialize<'static>>⟧.form tt).reads bytes ≡ (auth_switch_request.form tt).reads bytes }
{}

/// Borrowed requests for the next factor are read like owned ones.
pub fn borrowed_auth_next_factors_read_auth_next_factors()
    ensures read { (bytes : List ℕ) → (⟦<crate::auth_next_factor::AuthNextFactorRef<'static> as MyDeserialize<'static>>⟧.form tt).reads bytes ≡ (auth_next_factor.form tt).reads bytes }
{}

/// Borrowed further authentication data is read like owned data.
pub fn borrowed_auth_more_data_reads_auth_more_data()
    ensures read { (bytes : List ℕ) → (⟦<crate::auth_more_data_ref::AuthMoreDataRef<'static> as MyDeserialize<'static>>⟧.form tt).reads bytes ≡ (auth_more_data.form tt).reads bytes }
{}

/// Borrowed public keys are read like owned ones.
pub fn borrowed_public_keys_read_public_keys()
    ensures read { (bytes : List ℕ) → (⟦<crate::public_key_response_ref::PublicKeyResponseRef<'static> as MyDeserialize<'static>>⟧.form tt).reads bytes ≡ (public_key_response.form tt).reads bytes }
{}

/// Borrowed connection attributes are read like owned ones.
pub fn borrowed_connect_attributes_read_attributes()
    ensures read { (bytes : List ℕ) → (⟦<crate::connect_attribute_ref::ConnectAttributeRef<'static> as MyDeserialize<'static>>⟧.form tt).reads bytes ≡ (attribute.form tt).reads bytes }
{}

/// Borrowed handshakes and requests for a plugin compare like owned ones.
pub fn borrowed_handshakes_compare_like_handshakes()
    ensures handshake { (x y : HandshakePacket) → ⟦<crate::handshake_ref::HandshakePacketRef<'static> as PartialEq>⟧.eq x y ≡ ⟦<crate::handshake::HandshakePacket<'static> as PartialEq>⟧.eq x y }
    ensures switch_request { (x y : AuthSwitchRequest) → ⟦<crate::auth_switch_request::AuthSwitchRequestRef<'static> as PartialEq>⟧.eq x y ≡ ⟦<crate::auth_switch_request::AuthSwitchRequest<'static> as PartialEq>⟧.eq x y }
    ensures next_factor { (x y : AuthNextFactor) → ⟦<crate::auth_next_factor::AuthNextFactorRef<'static> as PartialEq>⟧.eq x y ≡ ⟦<crate::auth_next_factor::AuthNextFactor<'static> as PartialEq>⟧.eq x y }
{}

/// A clone of a borrowed handshake or request for a plugin is the same, and is made without memory.
pub fn clones_of_borrowed_handshakes_are_the_same()
    ensures handshake { (x y : HandshakePacket) → ⟦<crate::handshake_ref::HandshakePacketRef<'static> as Clone>⟧.is_clone x y → y ≡ x }
    ensures switch_request { (x y : AuthSwitchRequest) → ⟦<crate::auth_switch_request::AuthSwitchRequestRef<'static> as Clone>⟧.is_clone x y → y ≡ x }
    ensures next_factor { (x y : AuthNextFactor) → ⟦<crate::auth_next_factor::AuthNextFactorRef<'static> as Clone>⟧.is_clone x y → y ≡ x }
    ensures handshake_infallible { (x : HandshakePacket) → ⟦<crate::handshake_ref::HandshakePacketRef<'static> as Clone>⟧.is_infallible x }
    ensures switch_request_infallible { (x : AuthSwitchRequest) → ⟦<crate::auth_switch_request::AuthSwitchRequestRef<'static> as Clone>⟧.is_infallible x }
    ensures next_factor_infallible { (x : AuthNextFactor) → ⟦<crate::auth_next_factor::AuthNextFactorRef<'static> as Clone>⟧.is_infallible x }
{}
