//! The request for the next factor.
#![tactic(auto)]

use crate::faults::InvalidAuthNextFactorHeader;
use crate::plugin_request::{PluginRequest, PluginRequestHeader, PluginRequestRef};
use mysql_wire::ConstU8;

impl PluginRequestHeader for InvalidAuthNextFactorHeader {
    const NAME: &'static str = "AuthNextFactor";
}

/// The first byte of a request for the next factor: `02`.
pub type AuthNextFactorHeader = ConstU8<InvalidAuthNextFactorHeader, 0x02>;

/// A server's request for the next factor of a login (`Protocol::AuthNextFactorRequest`), after it has accepted the previous
/// one: the byte `02`, the name of the factor's plugin, zero-terminated, and the plugin's data to the end of the packet.
///
/// It is sent if both sides agreed on `MULTI_FACTOR_AUTHENTICATION`.
///
/// A packet that begins with another byte is `InvalidData`; an empty one, or a name without its zero, is
/// `UnexpectedEof`.
pub type AuthNextFactor<'a> = PluginRequest<'a, InvalidAuthNextFactorHeader, 0x02>;

/// A server's request for the next factor, whose texts stay in the packet: an [`AuthNextFactor`] for as long as the packet
/// lives.
pub type AuthNextFactorRef<'a> = PluginRequestRef<'a, InvalidAuthNextFactorHeader, 0x02>;
