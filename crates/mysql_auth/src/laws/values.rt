//! Laws on a given value: facts about a packet that a caller has created or read.
//!
//! Each function reads the numbers and attributes of its value, which shows that they fit their widths.
#![tactic(auto, using(crate::proofs::WholePackets::whole_packets, crate::proofs::ValuesFit::values_fit))]

ghost use Rattle.std.specs.Prelude.{◌≡◌, ◌++◌, ℕ, List, Some};
ghost use Rattle.mysql_auth.specs.Attributes.{Attribute, merged};
ghost use Rattle.mysql_auth.specs.ComChangeUser.{change_user, connect_attributes, more_data, session_change_user, session_more_data, ChangeUserPartsFit, MoreDataPartsFit, SessionChangeUserPartsFit, SessionMoreDataPartsFit};
ghost use Rattle.mysql_auth.specs.Handshake.{handshake, HandshakePartsFit};
ghost use Rattle.mysql_auth.specs.HandshakeResponse.{handshake_response, ResponsePartsFit};
ghost use Rattle.mysql_auth.specs.SslRequest.{ssl_request};

use crate::com_change_user::ComChangeUser;
use crate::com_change_user_more_data::ComChangeUserMoreData;
use crate::handshake::HandshakePacket;
use crate::handshake_response::HandshakeResponse;
use crate::ssl_request::SslRequest;
use mysql_wire::CapabilityFlags;

/// This request for TLS is read back, whatever bytes follow.
pub fn this_ssl_request_round_trips(request: &SslRequest)
    ensures spelled { (rest : List ℕ) → (ssl_request.form tt).Spells request.now (ssl_request.bytes request.now ++ rest) rest }
{
    request.widths();
}

/// This handshake is read back if its parts fit.
pub fn this_handshake_round_trips(packet: &HandshakePacket<'_>)
    ensures spelled { (rest : List ℕ) → HandshakePartsFit packet.now rest → (handshake.form tt).Spells packet.now (handshake.bytes packet.now ++ rest) rest }
{
    let _protocol_version = packet.protocol_version();
    let _connection_id = packet.connection_id();
    let _scramble_1 = packet.scramble_1_ref();
    let _capabilities = packet.capabilities();
    let _default_collation = packet.default_collation();
    let _status_flags = packet.status_flags();
    let _mariadb_ext_capabilities = packet.mariadb_ext_capabilities();
}

/// This response to a handshake is read back, with these bytes after it, if its parts fit.
pub fn this_handshake_response_round_trips(response: &HandshakeResponse<'_>)
    ensures spelled { (rest : List ℕ) → ResponsePartsFit response.now rest → (handshake_response.form tt).Spells response.now (handshake_response.bytes response.now ++ rest) rest }
{
    response.widths();
    response.keys_stand_once();
}

/// Each key occurs once among the attributes in the optional fields of a change of user.
pub fn more_data_keys_stand_once(given: &ComChangeUserMoreData<'_>)
    ensures once { (pairs : List Attribute) → connect_attributes given.now ≡ Some pairs → merged pairs ≡ pairs }
{
    given.keys_stand_once();
}

/// These optional fields of a change of user are read back under the flags of both sides, if their parts fit,
/// and so is their [`ForSession`](crate::ForSession) form.
pub fn this_more_data_round_trips(capabilities: CapabilityFlags, given: &ComChangeUserMoreData<'_>)
    ensures spelled { (rest : List ℕ) → MoreDataPartsFit capabilities given.now → (more_data.form capabilities).Spells given.now (more_data.bytes given.now ++ rest) rest }
    ensures session { (rest : List ℕ) → SessionMoreDataPartsFit capabilities given.now → (more_data.form capabilities).Spells given.now ((session_more_data capabilities).bytes given.now ++ rest) rest }
{
    given.width();
    given.keys_stand_once();
}

/// This change of user is read back under the flags of both sides, if its parts fit, and so is its
/// [`ForSession`](crate::ForSession) form.
pub fn this_change_user_round_trips(capabilities: CapabilityFlags, change: &ComChangeUser<'_>)
    ensures spelled { (rest : List ℕ) → ChangeUserPartsFit capabilities change.now rest → (change_user.form capabilities).Spells change.now (change_user.bytes change.now ++ rest) rest }
    ensures session { (rest : List ℕ) → SessionChangeUserPartsFit capabilities change.now rest → (change_user.form capabilities).Spells change.now ((session_change_user capabilities).bytes change.now ++ rest) rest }
{
    change.more_data_is_one();
}
