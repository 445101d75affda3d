//! The initial handshake.
//!
//! `handshake BYTES`, `version TEXT`, `make_handshake CAPABILITIES VERSION SCRAMBLE PLUGIN`, `supported`.

use crate::borrowed::is_copied;
use crate::plugins::show_plugin;
use crate::prelude::*;
use mysql_auth::laws;

/// The versions that a server's version says.
pub fn version(out: &mut Out, request: &Request<'_>) {
    let given = [request.word(1), "none", "none"];
    show_versions(&made(given, CapabilityFlags::empty()), out)
}

/// The flags that may be agreed to.
pub fn supported(out: &mut Out, _request: &Request<'_>) {
    out.show("flags", supported_capabilities())
}

/// A handshake that is made of words, as it is written.
pub fn make(out: &mut Out, request: &Request<'_>) {
    let given = [request.word(2), request.word(3), request.word(4)];
    write_made(out, &made(given, request.capabilities()))
}

impl Shows<HandshakePacket<'_>> for Connections {
    fn show(it: &HandshakePacket<'_>, out: &mut Out) {
        fields!(out, it; protocol_version, server_version = server_version_ref, connection_id,
            scramble_1 = scramble_1_ref, scramble_2 = scramble_2_ref, capabilities, default_collation, status_flags,
            mariadb = mariadb_ext_capabilities, auth_plugin_name = auth_plugin_name_ref);
        show_versions(it, out);
        fields!(out, it; ; texts server_version_str = server_version_str, auth_plugin_name_str = auth_plugin_name_str);
        show_plugin(it.auth_plugin().as_ref(), out);
        let alloc = out.alloc();
        match counted!(alloc; it.nonce(alloc)) {
            Ok(nonce) => out.show("nonce", nonce.as_slice()),
            Err(AllocError) => out.field("nonce", "Memory"),
        }
        anew!(out, it; owned made_again(it));
        laws::this_handshake_round_trips(it)
    }
}

impl InPlace<HandshakePacket<'_>, HandshakePacketRef<'_>> for Connections {
    fn is(place: &HandshakePacketRef<'_>, owned: &HandshakePacket<'_>, out: &mut Out) -> bool {
        fields!(place, owned; alike protocol_version, server_version with server_version_ref, connection_id,
            scramble_1 with scramble_1_ref, scramble_2 with scramble_2_ref, capabilities, default_collation,
            status_flags, mariadb_ext_capabilities, auth_plugin_name with auth_plugin_name_ref, auth_plugin)
            && place.to_owned() == *owned
            && is_copied(place, out)
    }
}

fn show_version(name: &str, version: Option<(u16, u16, u16)>, out: &mut Out) {
    let Some((major, minor, patch)) = version else {
        return out.field(name, "none");
    };
    out.show(name, major);
    out.show("minor", minor);
    out.show("patch", patch)
}

fn show_versions(packet: &HandshakePacket<'_>, out: &mut Out) {
    show_version("version", packet.server_version_parsed(), out);
    show_version("maria_db", packet.maria_db_server_version_parsed(), out)
}

/// The packet of what a packet's getters answer.
fn made_again<'b>(packet: &'b HandshakePacket<'_>) -> HandshakePacket<'b> {
    let scramble = packet.scramble_1_ref().first_chunk::<8>();
    let made = HandshakePacket::new(
        packet.protocol_version(),
        CowSlice::Borrowed(packet.server_version_ref()),
        packet.connection_id(),
        scramble.copied().unwrap_or([0; 8]),
        words::lent(packet.scramble_2_ref()),
        packet.capabilities(),
        packet.default_collation(),
        packet.status_flags(),
        words::lent(packet.auth_plugin_name_ref()),
    );
    made.with_mariadb_ext_capabilities(packet.mariadb_ext_capabilities())
}

/// A handshake of a version, a scramble and a plugin.
fn made<'a>(given: [&'a str; 3], flags: CapabilityFlags) -> HandshakePacket<'a> {
    let [version, scramble, plugin] = given;
    let (scramble, plugin) = (words::borrowed(scramble), words::borrowed(plugin));
    let (version, status) = (words::name(version), StatusFlags::empty());
    HandshakePacket::new(10, version, 1, [0; 8], scramble, flags, 8, status, plugin)
}
