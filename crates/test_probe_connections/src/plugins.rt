//! Authentication plugins, what they are sent and answer, switches to another, keys, and SSLRequest.
//!
//! `plugin BYTES`, `add_data PLUGIN BYTES`, `parsec BYTES`, `plugin_data KIND BYTES`; `auth_switch BYTES`,
//! `old_switch BYTES`, `next_factor BYTES`, `auth_more_data BYTES`, `key_request BYTES`, `key BYTES`, `tls BYTES`,
//! `make_switch PLUGIN DATA`, `make_factor PLUGIN DATA`,
//! `make_tls CAPABILITIES SIZE CHARACTER_SET MARIADB`.

use crate::prelude::*;
use mysql_auth::laws::this_ssl_request_round_trips;

/// Adds a plugin's name, where there is one, and whether it is one that the client knows.
pub fn show_plugin(plugin: Option<&AuthPlugin<'_>>, out: &mut Out) {
    match plugin {
        Some(AuthPlugin::Other(name)) => out.show("other_plugin", name.as_bytes()),
        Some(plugin) => out.show("plugin", plugin.as_bytes()),
        None => out.field("plugin", "none"),
    }
}

/// Adds the rounds and the salt of `parsec`.
fn show_rounds(plugin: &AuthPlugin<'_>, out: &mut Out) {
    if let AuthPlugin::MariadbParsec {
        iterations,
        ext_salt,
    } = plugin
    {
        out.show("iterations", *iterations);
        out.show("salt", ext_salt.as_slice());
    }
}

impl Shows<AuthPlugin<'_>> for Connections {
    fn show(it: &AuthPlugin<'_>, out: &mut Out) {
        show_plugin(Some(it), out);
        out.show("variant", Variant(it));
        show_rounds(it, out);
        anew!(out, it; owned it.borrow())
    }
}

impl Shows<AuthPluginData<'_>> for Connections {
    fn show(it: &AuthPluginData<'_>, out: &mut Out) {
        anew!(out, it; owned it)
    }
}

impl Shows<AuthSwitchRequest<'_>> for Connections {
    fn show(it: &AuthSwitchRequest<'_>, out: &mut Out) {
        show_plugin(Some(&it.auth_plugin()), out);
        out.show("plugin_data", it.plugin_data());
        out.show("raw", it.plugin_data_raw());
        anew!(out, it; owned it)
    }
}

impl Shows<OldAuthSwitchRequest> for Connections {
    fn show(it: &OldAuthSwitchRequest, out: &mut Out) {
        show_plugin(Some(&it.auth_plugin()), out);
        anew!(out, it; OldAuthSwitchRequest::new())
    }
}

impl Shows<AuthMoreData<'_>> for Connections {
    fn show(it: &AuthMoreData<'_>, out: &mut Out) {
        fields!(out, it; data);
        anew!(out, it; owned AuthMoreData::new(CowSlice::Borrowed(it.data())))
    }
}

impl Shows<PublicKeyRequest> for Connections {
    fn show(it: &PublicKeyRequest, out: &mut Out) {
        anew!(out, it; PublicKeyRequest::new())
    }
}

/// The key is shown as text alone: there is no other way to it. The one of the text has the same text, on memory of its own.
impl Shows<PublicKeyResponse<'_>> for Connections {
    fn show(it: &PublicKeyResponse<'_>, out: &mut Out) {
        fields!(out, it; ; texts rsa_key = rsa_key);
        out.same("made", is_key_made(it, out.alloc()))
    }
}

fn is_key_made(key: &PublicKeyResponse<'_>, alloc: Global) -> Result<bool> {
    let text = key.rsa_key(alloc)?;
    let bytes = Vec::from_slice(alloc, text.as_str().as_bytes())?;
    let made = PublicKeyResponse::new(CowSlice::Owned(bytes));
    let is_same = made.rsa_key(alloc)?.as_str() == text.as_str();
    Ok(is_same && is_cloned(alloc, &made, &made)? && is_cloned(alloc, key, key)?)
}

/// There is no getter for MariaDB's capabilities.
impl Shows<SslRequest> for Connections {
    fn show(it: &SslRequest, out: &mut Out) {
        fields!(out, it; capabilities, max_packet_size, character_set);
        out.same("made", is_cloned(out.alloc(), it, it));
        this_ssl_request_round_trips(it)
    }
}

/// Hands a plugin what a server tells beside the scramble.
pub fn add_data(out: &mut Out, request: &Request<'_>) {
    let mut plugin = AuthPlugin::from_bytes(request.word(1).as_bytes());
    let is_taken = plugin.read_add_data(request.bytes.as_slice()).is_some();
    out.show("taken", is_taken);
    show_plugin(Some(&plugin), out);
    show_rounds(&plugin, out)
}

pub fn parsec(out: &mut Out, request: &Request<'_>) {
    match parse_parsec_salt(request.bytes.as_slice()) {
        Some((rounds, salt)) => {
            out.show("rounds", rounds);
            out.show("salt", salt.as_slice())
        }
        None => out.word("none"),
    }
}

/// The first bytes, or zeros where there are fewer.
fn first<const N: usize>(bytes: &[u8]) -> [u8; N] {
    bytes.first_chunk::<N>().copied().unwrap_or([0; N])
}

/// What a plugin answers, of that kind.
fn answer_of<'a>(kind: &str, bytes: &'a [u8]) -> AuthPluginData<'a> {
    match kind {
        "old" => AuthPluginData::Old(first::<8>(bytes)),
        "native" => AuthPluginData::Native(first::<20>(bytes)),
        "sha2" => AuthPluginData::Sha2(first::<32>(bytes)),
        "ed25519" => AuthPluginData::Ed25519(first::<64>(bytes)),
        "parsec" => AuthPluginData::Parsec(first::<96>(bytes)),
        _ => AuthPluginData::Clear(RawBytes::new(CowSlice::Borrowed(bytes))),
    }
}

pub fn plugin_data(out: &mut Out, request: &Request<'_>) {
    let answer = answer_of(request.word(1), request.bytes.as_slice());
    out.show("bytes", answer.as_bytes());
    Connections::show(&answer, out);
    write_made(out, &answer)
}

/// A switch that is made of words, as it is written and read again.
pub fn make_switch(out: &mut Out, request: &Request<'_>) {
    let packet = AuthSwitchRequest::new(words::name(request.word(1)), words::name(request.word(2)));
    out.word("made");
    write_and_read(out, &packet, request, ())
}

/// A request for the next factor that is made of words, as it is written and read again.
pub fn make_factor(out: &mut Out, request: &Request<'_>) {
    let packet = AuthNextFactor::new(words::name(request.word(1)), words::name(request.word(2)));
    out.word("made");
    write_and_read(out, &packet, request, ())
}

/// A request for TLS that is made of words, as it is written and read again.
pub fn make_tls(out: &mut Out, request: &Request<'_>) {
    let character_set = words::number(request.word(3));
    let packet = SslRequest::new(request.capabilities(), request.number(2), character_set);
    let flags = MariadbCapabilities::from_bits_retain(request.number(4));
    out.word("made");
    write_and_read(out, &packet.with_mariadb_capabilities(flags), request, ())
}
