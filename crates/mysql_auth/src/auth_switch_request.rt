//! The switch to another plugin.
#![tactic(auto)]

use crate::faults::InvalidAuthSwitchRequestHeader;
use crate::plugin_request::{PluginRequest, PluginRequestHeader, PluginRequestRef};
use mysql_wire::ConstU8;

impl PluginRequestHeader for InvalidAuthSwitchRequestHeader {
    const NAME: &'static str = "AuthSwitchRequest";
}

/// The first byte of a switch, also of the old one: `fe`.
pub type AuthSwitchRequestHeader = ConstU8<InvalidAuthSwitchRequestHeader, 0xfe>;

/// A server's request to switch to another plugin (`Protocol::AuthSwitchRequest`): the byte `fe`, the plugin's
/// name, zero-terminated, and the plugin's data to the end of the packet. Plugins put a zero after a scramble
/// (`send_plugin_request_packet` in `sql/auth/sql_authentication.cc`).
///
/// A packet that begins with another byte is `InvalidData`; an empty one, or a name without its zero, is
/// `UnexpectedEof`.
///
/// ```
/// let request: AuthSwitchRequestRef<'_> = buf.parse(())?;
/// let sent = switched(&request, scramble, answers)?;
/// connection.send(&sent)
/// ```
pub type AuthSwitchRequest<'a> = PluginRequest<'a, InvalidAuthSwitchRequestHeader, 0xfe>;

/// A server's request to switch to another plugin, whose texts stay in the packet: an [`AuthSwitchRequest`] for as long as
/// the packet lives.
///
/// ```
/// let request: AuthSwitchRequestRef<'_> = buf.parse(())?;
/// let sent = switched(&request, scramble, answers)?;
/// connection.send(&sent)
/// ```
pub type AuthSwitchRequestRef<'a> = PluginRequestRef<'a, InvalidAuthSwitchRequestHeader, 0xfe>;
