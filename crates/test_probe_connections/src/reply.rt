//! What a server says before a login is done.
//!
//! `auth_reply CAPABILITIES BYTES`.

use crate::borrowed::is_copied;
use crate::prelude::*;

/// What it is, and its parts; and whether a copy of it is the same.
impl Shows<AuthReply<'_>> for Connections {
    fn show(it: &AuthReply<'_>, out: &mut Out) {
        match it {
            AuthReply::OkPacket(payload) => out.show("ok", payload.as_bytes()),
            AuthReply::ErrPacket(payload) => out.show("err", payload.as_bytes()),
            AuthReply::Switch(request) => {
                out.show("switch", request.auth_plugin_name());
                out.show("raw", request.plugin_data_raw())
            }
            AuthReply::OldSwitch => out.word("old_switch"),
            AuthReply::MoreData(more) => out.show("more_data", more.data()),
            AuthReply::NextFactor(factor) => {
                out.show("next_factor", factor.auth_plugin_name());
                out.show("raw", factor.plugin_data_raw())
            }
            AuthReply::PluginData(payload) => out.show("plugin_data", payload.as_bytes()),
        }
        let is_same = is_copied(it, out);
        out.same("made", Ok(is_same))
    }
}

pub fn read_reply(out: &mut Out, request: &Request<'_>) {
    let bytes = request.bytes.as_slice();
    let _ = read::<Connections, AuthReply<'_>>(out, bytes, request.capabilities());
}
